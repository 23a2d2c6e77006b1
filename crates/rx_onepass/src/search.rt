//! The search by a single thread.

ghost use Rattle.std.specs.Prelude.{ℕ, Bool, ◌≡◌, ◌+◌, ◌<◌, ◌≤◌, ◌^◌, [], ◌∷◌, Some, None, true, false, All, IsTrue, IfOk, IfErr, IfSome, OnOk, length};
ghost use Rattle.rx_util.specs.declared.search.MatchError.{MatchError};
ghost use Rattle.rx_util.specs.declared.search.Anchored.TheVariants.{Yes};
ghost use Rattle.rx_walks.specs.Finds.{IsInside};
ghost use Rattle.rx_walks.specs.Laws.{MayBegin};
ghost use Rattle.rx_program.specs.Programs.{ByteProgram};
ghost use Rattle.rx_input.specs.Cursors.{IsSameContent};
ghost use Rattle.rx_input.specs.Inputs.{IsMoved};
ghost use Rattle.rx_steps.specs.Coming.{IsOver, course_of, machine_in};
ghost use Rattle.rx_steps.specs.Lists.{IsNextList};
ghost use Rattle.rx_steps.specs.Nodes.{IsNodeIn, widths_of};
ghost use Rattle.rx_steps.specs.Searching.{IsAnswer, search_of};
ghost use Rattle.rx_steps.specs.Threads.{IsThreadOf, no_slots};
ghost use Rattle.rx_onepass.specs.Edges.{AreEdges, AsksNothing, GoesToNode, IsEdge, IsWayOf, StepsAlone, StepsFresh};
ghost use Rattle.rx_onepass.specs.Alone.{AreAhead, IsAlone};
ghost use Rattle.rx_onepass.specs.Caches.{IsMadeFor, IsCacheOf};

use crate::edges::{Edge, Edges, Way};
use crate::noted::noted_of;
use rx_input::{Cursor, Input};
use rx_program::Program;
use rx_sets::CharacterSet;
use rx_steps::{
    AskedLooks, Node, Place, Stepper, ThreadList, advance, begins, clear_slots, enter, last_place,
};
use rx_util::{Anchored, MatchError, NonMaxUsize, PatternID};
use rx_walks::laws::program_is_searched_keeping;
use std::alloc::{AllocError, Global};
use std::marker::Model;

/// The credit of a new cache, which is the most that it can have. Without credit, none is tried.
const CREDIT: usize = 32;

/// The credit that a search takes which fails. One that succeeds adds 1.
const COST: usize = 2;

/// Returns the bytes from the input's position on, to the end of its chunk or of the search.
fn bytes_ahead<C: Cursor>(input: &Input<C>) -> &[u8]
    ensures { (utf8_empty : Bool) → IsInside (search_of utf8_empty input.now) input.now.position
        → AreAhead (search_of utf8_empty input.now) input.now.position result.now }
{
    let left = last_place(input).saturating_sub(input.position());
    let ahead = &input.chunk()[input.chunk_pos()..];
    &ahead[..left.min(ahead.len())]
}

/// Returns where a step leads that leaves these threads and meets this match end, if it leads one
/// way.
fn way_of(next: &ThreadList, met: Option<PatternID>) -> Option<Way>
    ensures { IfSome result (IsWayOf next.now.threads met) }
{
    if next.len() > 1 {
        return None;
    }
    if next.len() == 1 {
        return Some(Way {
            node: Some(next.node(0)),
            pattern: PatternID::ZERO,
        });
    }
    let pattern = met?;
    Some(Way {
        node: None,
        pattern,
    })
}

/// Replaces the contents of a list by these slots.
fn load(
    marks: &mut Vec<Option<NonMaxUsize>>,
    slots: &[Option<NonMaxUsize>],
) -> Result<(), AllocError>
    ensures { OnOk result (marks.new.items ≡ slots.now) }
{
    marks.clear();
    marks.extend_from_slice(slots)?;
    Ok(())
}

/// The edges that searches have met, and room for steps.
#[derive(Debug, Drop)]
struct Walker {
    stepper: Stepper,
    // Whether the program has assertions.
    asks_looks: bool,
    // The number of slots of a thread.
    slot_len: usize,
    edges: Edges,
    // The single thread of a step, and room for those after it.
    here: ThreadList,
    next: ThreadList,
    // The slots that a step marks.
    marks: Vec<Option<NonMaxUsize>>,
}

impl Walker {
    /// Makes the edges those of threads with this number of slots.
    fn set_slot_len(&mut self, len: usize)
        ensures made { (p : ByteProgram)
            → IsMadeFor p self.old.stepper.widths self.old.asks_looks self.old.slot_len
            self.old.edges
            → IsMadeFor p self.new.stepper.widths self.new.asks_looks self.new.slot_len
            self.new.edges }
        ensures slot_len { self.new.slot_len ≡ len }
        ensures asks_looks { self.new.asks_looks ≡ self.old.asks_looks }
    {
        if self.slot_len != len {
            self.edges.clear();
            self.slot_len = len;
        }
    }

    /// Makes the step of the threads `here`. Returns the pattern of the match that ends, unless
    /// memory is refused.
    fn step_here(&mut self, program: &Program, place: &Place) -> Option<Option<PatternID>>
        requires widths { self.old.stepper.widths ≡ widths_of program.now }
        requires threads { All (IsThreadOf program.now.states) self.old.here.threads }
        ensures list { IfSome result (λ met. IsNextList program.now place.now
            self.old.here.threads self.new.next.threads met self.new.stepper.slots) }
        ensures threads { IfSome result (λ met. All (IsThreadOf program.now.states)
            self.new.next.threads) }
        ensures widths { self.new.stepper.widths ≡ self.old.stepper.widths }
        ensures asks_looks { self.new.asks_looks ≡ self.old.asks_looks }
        ensures slot_len { self.new.slot_len ≡ self.old.slot_len }
        ensures edges { self.new.edges ≡ self.old.edges }
    {
        // For the proof: the prover has to know all types that an error contains.
        let _mode = Anchored::Yes;
        self.stepper
            .next_list(program, place, &self.here, &mut self.next)
            .ok()
    }

    /// Makes the step of a thread with empty slots at a node. Returns where it leads, if it leads
    /// one way and memory isn't refused; `marks` are then the slots after it.
    fn step_fresh(&mut self, program: &Program, place: &Place, node: Node) -> Option<Way>
        requires widths { self.old.stepper.widths ≡ widths_of program.now }
        requires node { IsNodeIn program.now.states node }
        ensures led { IfSome result (λ way. StepsFresh program.now place.now node
            self.old.slot_len self.new.marks.items way) }
        ensures stands { IfSome result (GoesToNode program.now.states) }
        ensures widths { self.new.stepper.widths ≡ self.old.stepper.widths }
        ensures asks_looks { self.new.asks_looks ≡ self.old.asks_looks }
        ensures slot_len { self.new.slot_len ≡ self.old.slot_len }
        ensures edges { self.new.edges ≡ self.old.edges }
    {
        self.here.clear(self.slot_len);
        self.here.push_fresh(node).ok()?;
        let met = self.step_here(program, place)?;
        let way = way_of(&self.next, met)?;
        if way.node.is_none() {
            load(&mut self.marks, self.stepper.slots()).ok()?;
            return Some(way);
        }
        load(&mut self.marks, self.next.slots(0)).ok()?;
        Some(way)
    }

    /// Returns the edge from a node at a position, if its step leads one way, notes at most four
    /// slots, and memory isn't refused.
    fn edge_of(&mut self, program: &Program, place: &Place, node: Node) -> Option<Edge>
        requires widths { self.old.stepper.widths ≡ widths_of program.now }
        requires looks { AsksNothing program.now.states }
        requires node { IsNodeIn program.now.states node }
        ensures edge { IfSome result (IsEdge program.now self.old.slot_len) }
        ensures widths { self.new.stepper.widths ≡ self.old.stepper.widths }
        ensures asks_looks { self.new.asks_looks ≡ self.old.asks_looks }
        ensures slot_len { self.new.slot_len ≡ self.old.slot_len }
        ensures edges { self.new.edges ≡ self.old.edges }
    {
        let way = self.step_fresh(program, place, node)?;
        if self.marks.len() != self.slot_len {
            return None;
        }
        let noted = noted_of(&mut self.marks)?;
        Some(Edge {
            from: node,
            byte: place.byte,
            way,
            noted,
        })
    }

    /// Learns the edge from a node at a position, unless it is known or there is none.
    fn learn(&mut self, program: &Program, place: &Place, node: Node)
        requires made { IsMadeFor program.now self.old.stepper.widths self.old.asks_looks
            self.old.slot_len self.old.edges }
        requires looks { AsksNothing program.now.states }
        requires node { IsNodeIn program.now.states node }
        ensures made { IsMadeFor program.now self.new.stepper.widths self.new.asks_looks
            self.new.slot_len self.new.edges }
        ensures asks_looks { self.new.asks_looks ≡ self.old.asks_looks }
        ensures slot_len { self.new.slot_len ≡ self.old.slot_len }
    {
        if self.edges.find(node, place.byte).is_some() {
            return;
        }
        if let Some(edge) = self.edge_of(program, place, node) {
            self.edges.learn(edge);
        }
    }

    /// Makes the step of a single thread at the input's position. Returns where it leads, with the
    /// slots after it, or `None` if that can't be learnt.
    fn step<C: Cursor>(
        &mut self,
        program: &Program,
        input: &mut Input<C>,
        node: Node,
        slots: &mut [Option<NonMaxUsize>],
    ) -> Option<Way>
        requires made { IsMadeFor program.now self.old.stepper.widths self.old.asks_looks
            self.old.slot_len self.old.edges }
        requires looks { AsksNothing program.now.states }
        requires node { IsNodeIn program.now.states node }
        requires slots { length slots.old ≡ self.old.slot_len }
        ensures leads { IfSome result (λ way. (utf8_empty : Bool)
            → IsInside (search_of utf8_empty input.old) input.old.position
            → StepsAlone (machine_in program.now (search_of utf8_empty input.old))
            input.old.position slots.old node slots.new way) }
        ensures stands { IfSome result (GoesToNode program.now.states) }
        ensures len { length slots.new ≡ length slots.old }
        ensures made { IsMadeFor program.now self.new.stepper.widths self.new.asks_looks
            self.new.slot_len self.new.edges }
        ensures asks_looks { self.new.asks_looks ≡ self.old.asks_looks }
        ensures slot_len { self.new.slot_len ≡ self.old.slot_len }
        ensures same { IsMoved input.old input.new input.old.position input.old.asked }
    {
        let place = Place::of(input, program.line_terminator(), false);
        self.learn(program, &place, node);
        let edge = self.edges.find(node, place.byte)?;
        edge.note(slots, place.at.get());
        Some(edge.way)
    }

    /// Follows known edges from the input's position on, as far as its chunk shows bytes, and moves
    /// it past them. Returns the node there.
    fn run<C: Cursor>(
        &self,
        input: &mut Input<C>,
        node: Node,
        slots: &mut [Option<NonMaxUsize>],
    ) -> Node
        ensures alone { (p : ByteProgram) (utf8_empty : Bool) (q : ℕ)
            → AreEdges p (length slots.old) self.now.edges
            → IsInside (search_of utf8_empty input.old) input.old.position
            → IsAlone p (search_of utf8_empty input.old) q (length slots.old) input.old.position
            slots.old node
            → IsAlone p (search_of utf8_empty input.old) q (length slots.old) input.new.position
            slots.new result }
        ensures inside { (utf8_empty : Bool)
            → IsInside (search_of utf8_empty input.old) input.old.position
            → IsInside (search_of utf8_empty input.old) input.new.position }
        ensures above { input.old.position ≤ input.new.position }
        ensures same { IsMoved input.old input.new input.new.position input.old.asked }
    {
        let at = input.position();
        let (read, next) = self.edges.run(node, at, bytes_ahead(input), slots);
        input.move_to(at + read);
        next
    }

    /// Follows a single thread from the program's start, at the input's position, to the end of a
    /// match at which no thread is left. Returns the pattern of that match and its slots. `None`
    /// says nothing.
    fn follow<C: Cursor>(
        &mut self,
        program: &Program,
        input: &mut Input<C>,
        utf8_empty: bool,
        slots: &mut [Option<NonMaxUsize>],
    ) -> Option<PatternID>
        requires made { IsMadeFor program.now self.old.stepper.widths self.old.asks_looks
            self.old.slot_len self.old.edges }
        requires looks { AsksNothing program.now.states }
        requires slot_len { self.old.slot_len ≡ length slots.old }
        requires empty { slots.old ≡ no_slots (length slots.old) }
        requires anchored { input.old.asked.anchored ≡ Yes }
        requires inside { IsInside (search_of utf8_empty input.old) input.old.position }
        requires begins { MayBegin (search_of utf8_empty input.old) input.old.position }
        ensures over { IfSome result (λ pattern. IsOver
            (course_of program.now (search_of utf8_empty input.old) program.now.start)
            (Some pattern) slots.new) }
        ensures len { length slots.new ≡ length slots.old }
        ensures made { IsMadeFor program.now self.new.stepper.widths self.new.asks_looks
            self.new.slot_len self.new.edges }
        ensures same { IsSameContent input.old.cursor input.new.cursor }
        ensures asked { input.new.asked ≡ input.old.asked }
    {
        let mut node = Node::first(program.start());
        loop {
            node = self.run(input, node, slots);
            let way = self.step(program, input, node, slots)?;
            let Some(next) = way.node else {
                return Some(way.pattern);
            };
            if !advance(input) {
                return None;
            }
            node = next;
        }
    }
}

/// What searches keep for a program: the edges that they have met, and room for steps. Contracts
/// see the number of nodes of each state of the program, whether it has assertions, the number of
/// slots of a thread, and the known edges.
#[derive(Debug)]
pub struct Cache {
    walker: Walker,
    // What is left of it: see `CREDIT`.
    credit: usize,
}

// Written out, so that crates above needn't prove how the fields are dropped.
impl Drop for Cache {
    fn drop(self) {
        let Cache {
            walker: _walker,
            credit: _credit,
        } = self;
    }
}

impl Model for Cache {
    ghost use Rattle.rx_onepass.specs.Caches.{CacheView};

    ghost Value = { CacheView };

    ghost view = { λ c. record {
      widths = c.walker.stepper.widths;
      asks_looks = c.walker.asks_looks;
      slot_len = c.walker.slot_len;
      edges = c.walker.edges;
    } };
}

impl Cache {
    /// Returns a cache for searches with a program.
    ///
    /// # Errors
    ///
    /// `Memory`.
    ///
    /// # Complexity
    ///
    /// Memory proportional to the program's states and those of their automata. With the first edge
    /// that a search meets, a table of a fixed size is added.
    pub fn new(alloc: Global, program: &Program) -> Result<Cache, MatchError>
        ensures made { IfOk result (λ cache. IsCacheOf program.now cache) }
        ensures refused { IfErr result (λ error. error ≡ MatchError.Memory) }
    {
        Ok(Cache {
            walker: Walker {
                stepper: Stepper::new(alloc, program)?,
                asks_looks: AskedLooks::of(program.states()).any,
                slot_len: 0,
                edges: Edges::new(alloc),
                here: ThreadList::new(alloc, 0),
                next: ThreadList::new(alloc, 0),
                marks: Vec::new(alloc),
            },
            credit: CREDIT,
        })
    }

    /// Returns the approximate number of bytes of the table. No contract fixes this number.
    pub fn memory_usage(&self) -> usize {
        self.walker.edges.memory_usage()
    }

    /// Returns whether a search is tried: the program has no assertion, and not too many searches
    /// have failed.
    fn may_try(&self) -> bool
        ensures { result ≡ true → self.now.asks_looks ≡ false }
    {
        self.credit > 0 && !self.walker.asks_looks
    }

    /// Notes whether a search succeeded.
    fn note(&mut self, has_found: bool)
        ensures { self.new ≡ self.old }
    {
        self.credit = if has_found {
            self.credit.saturating_add(1).min(CREDIT)
        } else {
            self.credit.saturating_sub(COST)
        };
    }
}

/// Searches for a match that starts at the start of the input's span, by a single thread: returns
/// its pattern, and writes its offsets into the slots, as many as there are. `utf8_empty` skips
/// empty matches inside a character.
///
/// `None` says nothing: a step left several threads or noted more than four slots, no thread is
/// left where no match ends, memory was refused, the program has assertions, or the input isn't
/// anchored for all patterns. The slots are then unspecified. If too many searches end so, none is
/// tried any more.
///
/// # Requires
///
/// The cache is for this program, for which it remains one.
///
/// # Complexity
///
/// Each offset is visited once. An edge that isn't known follows each node of the program at most
/// once.
pub fn search_slots<C: Cursor>(
    program: &Program,
    cache: &mut Cache,
    input: &mut Input<C>,
    utf8_empty: bool,
    slots: &mut [Option<NonMaxUsize>],
) -> Option<PatternID>
    requires made { IsCacheOf program.now cache.old }
    ensures answer { IfSome result (λ pattern. IsAnswer program.now
        (search_of utf8_empty input.old) (Some pattern) slots.new) }
    ensures len { length slots.new ≡ length slots.old }
    ensures made { IsCacheOf program.now cache.new }
    ensures same { IsSameContent input.old.cursor input.new.cursor }
    ensures asked { input.new.asked ≡ input.old.asked }
{
    if !cache.may_try() || input.get_anchored() != Anchored::Yes {
        return None;
    }
    if !enter(input) || !begins(input, utf8_empty) {
        return None;
    }
    clear_slots(slots);
    // Laws, for the proof only.
    program.walks_are_those_of_characters();
    program_is_searched_keeping::<CharacterSet, Option<NonMaxUsize>>();
    cache.walker.set_slot_len(slots.len());
    let found = cache.walker.follow(program, input, utf8_empty, slots);
    cache.note(found.is_some());
    found
}
