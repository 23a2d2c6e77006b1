//! The search loop for all matches.

ghost use Rattle.std.specs.Prelude.{ℕ, Bool, ◌≡◌, ◌+◌, ◌*◌, ◌<◌, ◌≤◌, [], ◌∷◌, Some, None, true, false, All, IsTrue, IfOk, IfErr, IfSome, OnOk, max};
ghost use Rattle.rx_util.specs.declared.search.MatchError.{MatchError};
ghost use Rattle.rx_walks.specs.Finds.{IsInside, is_anchored};
ghost use Rattle.rx_walks.specs.ProgramFinds.{start_node, highest};
ghost use Rattle.rx_program.specs.Programs.{character_program};
ghost use Rattle.rx_input.specs.Cursors.{IsSameContent};
ghost use Rattle.rx_input.specs.Inputs.{IsMoved};
ghost use Rattle.rx_steps.specs.Nodes.{node_count};
ghost use Rattle.rx_steps.specs.Threads.{first_node};
ghost use Rattle.rx_steps.specs.Idle.{IsPassedAt};
ghost use Rattle.rx_steps.specs.Searching.{search_of, anchoring_of};
ghost use Rattle.rx_steps.specs.Caches.{AreOfProgram, place_count};
ghost use Rattle.rx_steps.specs.ListsAll.{IsStartedOf, IsStepAll};
ghost use Rattle.rx_steps.specs.Coming.{course_of, up_to};
ghost use Rattle.rx_steps.specs.ComingAll.{byte_machine_in, HasStartedAll, IsOverAll, IsOverAllAt, IsUnderWayAll, IsUnderWayAllInParts};

use crate::idle::{IdleBytes, skip};
use crate::node::Node;
use crate::place::Place;
use crate::search::{Walks, advance, begins};
use crate::started::{MetEnd, StartedNode};
use rx_input::{Cursor, Input};
use rx_program::Program;
use rx_util::{Anchored, Match, MatchError, Span, StateID};
use std::alloc::{AllocError, Global};
use std::mem::{self, size_of};

/// Returns whether the only thread is one at the program's start.
fn is_fresh(program: &Program, threads: &[StartedNode]) -> bool
    ensures { result ≡ true → (start : ℕ)
        × (threads.now ≡ (start, first_node program.now.start) ∷ []) }
{
    match threads {
        [thread] => thread.node() == Node::first(program.start()),
        _ => false,
    }
}

/// The threads of a search for all matches. The other parts of a step are those of `Walks`.
#[derive(Debug, Drop)]
pub(crate) struct AllWalks {
    // The threads at the current offset, in the order in which they started.
    live: Vec<StartedNode>,
    // Room for those at the next offset.
    next: Vec<StartedNode>,
    // The best match so far.
    best: Option<Match>,
}

impl AllWalks {
    /// Returns this without threads.
    pub(crate) fn new(alloc: Global) -> AllWalks {
        AllWalks {
            live: Vec::new(alloc),
            next: Vec::new(alloc),
            best: None,
        }
    }

    /// Returns the approximate number of bytes of the lists.
    pub(crate) fn memory_usage(&self) -> usize {
        self.live
            .capacity()
            .saturating_add(self.next.capacity())
            .saturating_mul(size_of::<StartedNode>())
    }

    /// Starts a thread at the input's position, after the others, if a match may begin there.
    fn start_walk<C: Cursor>(
        &mut self,
        input: &Input<C>,
        start: StateID,
        utf8_empty: bool,
    ) -> Result<(), AllocError>
        requires inside { IsInside (search_of utf8_empty input.now) input.now.position }
        ensures started { OnOk result (HasStartedAll (search_of utf8_empty input.now) start
            input.now.position self.old.live.items self.new.live.items) }
        ensures best { self.new.best ≡ self.old.best }
    {
        if begins(input, utf8_empty) {
            let walk = StartedNode::new(input.position(), Node::first(start));
            self.live.push(walk)?;
        }
        Ok(())
    }

    /// Returns whether a step was one of a single thread at the program's start, and led nowhere.
    fn came_to_nothing(&self, program: &Program, has_ended: bool) -> bool
        ensures fresh { result ≡ true → (start : ℕ)
            × (self.now.live.items ≡ (start, first_node program.now.start) ∷ []) }
        ensures nothing { result ≡ true → (self.now.next.items ≡ []) × (has_ended ≡ false) }
    {
        !has_ended && self.next.is_empty() && is_fresh(program, &self.live)
    }

    /// Makes the step from the input's position: the threads at the next offset become `live`.
    fn pass<C: Cursor>(
        &mut self,
        walks: &mut Walks,
        program: &Program,
        input: &mut Input<C>,
    ) -> Result<Option<MetEnd>, MatchError>
        requires made { AreOfProgram program.now walks.old.stepper.widths walks.old.asks_looks
            walks.old.idle }
        requires threads { All (IsStartedOf program.now.states) self.old.live.items }
        ensures step { IfOk result (λ met. (utf8_empty : Bool)
            → IsInside (search_of utf8_empty input.old) input.old.position
            → IsStepAll (byte_machine_in program.now (search_of utf8_empty input.old))
            input.old.position self.old.live.items self.new.live.items met) }
        ensures threads { OnOk result (All (IsStartedOf program.now.states) self.new.live.items) }
        ensures best { self.new.best ≡ self.old.best }
        ensures made { AreOfProgram program.now walks.new.stepper.widths walks.new.asks_looks
            walks.new.idle }
        ensures work { walks.new.stepper.followed
            ≤ walks.old.stepper.followed + node_count program.now }
        ensures same { IsMoved input.old input.new input.old.position input.old.asked }
        ensures refused { IfErr result (λ error. error ≡ MatchError.Memory) }
    {
        let place = Place::of(input, program.line_terminator(), walks.asks_looks);
        let met = walks
            .stepper
            .next_list_all(program, &place, &self.live, &mut self.next)?;
        // With assertions in the program, these may be the reason that it led nowhere.
        if !walks.asks_looks && self.came_to_nothing(program, met.is_some()) {
            walks.idle.insert(place.byte);
        }
        mem::swap(&mut self.live, &mut self.next);
        Ok(met)
    }

    /// Visits the input's position: starts a thread if a match may begin there, and makes the best
    /// match that ends there the best so far, because its end is greater than each before.
    fn visit<C: Cursor>(
        &mut self,
        walks: &mut Walks,
        program: &Program,
        input: &mut Input<C>,
        start: StateID,
        utf8_empty: bool,
    ) -> Result<(), MatchError>
        requires made { AreOfProgram program.now walks.old.stepper.widths walks.old.asks_looks
            walks.old.idle }
        requires inside { IsInside (search_of utf8_empty input.old) input.old.position }
        requires way { IsUnderWayAll
            (course_of program.now (search_of utf8_empty input.old) start)
            input.old.position self.old.live.items self.old.best }
        requires parts { IsUnderWayAllInParts
            (course_of program.now (search_of utf8_empty input.old) start)
            input.old.position self.old.live.items self.old.best }
        ensures way { OnOk result (IsUnderWayAll
            (course_of program.now (search_of utf8_empty input.old) start)
            (input.old.position + 1) self.new.live.items self.new.best) }
        ensures parts { OnOk result (IsUnderWayAllInParts
            (course_of program.now (search_of utf8_empty input.old) start)
            (input.old.position + 1) self.new.live.items self.new.best) }
        ensures so_far { OnOk result (IsOverAll (up_to
            (course_of program.now (search_of utf8_empty input.old) start) input.old.position)
            self.new.best) }
        ensures ends_here { OnOk result (IfSome self.new.best (λ best.
            self.old.best ≡ None → best.span.end ≡ input.old.position)) }
        ensures none_before { OnOk result (self.new.best ≡ None → self.old.best ≡ None) }
        ensures made { AreOfProgram program.now walks.new.stepper.widths walks.new.asks_looks
            walks.new.idle }
        ensures work { walks.new.stepper.followed
            ≤ walks.old.stepper.followed + node_count program.now }
        ensures same { IsMoved input.old input.new input.old.position input.old.asked }
        ensures refused { IfErr result (λ error. error ≡ MatchError.Memory) }
    {
        self.start_walk(input, start, utf8_empty)?;
        if let Some(met) = self.pass(walks, program, input)? {
            let span = Span {
                start: met.start,
                end: input.position(),
            };
            self.best = Some(Match::new(met.pattern, span));
        }
        Ok(())
    }

    /// Returns whether there is no thread, and none will start at a later offset.
    fn are_over(&self, anchored: Anchored) -> bool
        ensures live { result ≡ true → self.now.live.items ≡ [] }
        ensures starts { result ≡ true → IsTrue (is_anchored (anchoring_of anchored)) }
        ensures goes_on { result ≡ false → self.now.live.items ≡ []
            → is_anchored (anchoring_of anchored) ≡ false }
    {
        self.live.is_empty() && anchored.is_anchored()
    }

    /// Moves the input to the next offset inside span, slice and haystack, if there is one; without
    /// threads, to the next one at which a match may begin.
    fn go_on<C: Cursor>(&self, idle: &IdleBytes, input: &mut Input<C>, utf8_empty: bool) -> bool
        ensures above { result ≡ true → input.old.position + 1 ≤ input.new.position }
        ensures inside { result ≡ true
            → IsInside (search_of utf8_empty input.old) input.old.position
            → IsInside (search_of utf8_empty input.old) input.new.position }
        ensures skipped { result ≡ true → (k : ℕ) → input.old.position + 1 ≤ k
            → k < input.new.position → (self.now.live.items ≡ [])
            × IsPassedAt idle.now utf8_empty input.old.cursor.content k }
        ensures last { result ≡ false
            → highest (search_of utf8_empty input.old) < input.old.position + 1 }
        ensures same { IsMoved input.old input.new input.new.position input.old.asked }
    {
        if !advance(input) {
            return false;
        }
        if self.live.is_empty() {
            skip(idle, input, utf8_empty);
        }
        true
    }

    /// Follows threads from a start state, from the input's position on, which must be the first
    /// one inside. Returns the match with the greatest end, then the least start, then the least
    /// pattern. With `earliest` it stops at the first match end.
    pub(crate) fn follow<C: Cursor>(
        &mut self,
        walks: &mut Walks,
        program: &Program,
        input: &mut Input<C>,
        start: StateID,
        utf8_empty: bool,
        earliest: bool,
    ) -> Result<Option<Match>, MatchError>
        requires made { AreOfProgram program.now walks.old.stepper.widths walks.old.asks_looks
            walks.old.idle }
        requires start { start_node (character_program program.now)
            (anchoring_of input.old.asked.anchored) ≡ Some start }
        requires inside { IsInside (search_of utf8_empty input.old) input.old.position }
        requires first { input.old.position
            ≡ max input.old.asked.slice.start input.old.asked.span.start }
        ensures over { IfOk result (λ best. IsOverAllAt earliest
            (course_of program.now (search_of utf8_empty input.old) start)
            input.old.position input.new.position best) }
        ensures made { AreOfProgram program.now walks.new.stepper.widths walks.new.asks_looks
            walks.new.idle }
        ensures work { walks.new.stepper.followed ≤ walks.old.stepper.followed
            + node_count program.now * place_count (search_of utf8_empty input.old) }
        ensures same { IsSameContent input.old.cursor input.new.cursor }
        ensures asked { input.new.asked ≡ input.old.asked }
        ensures refused { IfErr result (λ error. error ≡ MatchError.Memory) }
    {
        self.live.clear();
        self.best = None;
        loop {
            self.visit(walks, program, input, start, utf8_empty)?;
            if earliest && self.best.is_some() {
                return Ok(self.best);
            }
            if self.are_over(input.get_anchored()) || !self.go_on(&walks.idle, input, utf8_empty) {
                return Ok(self.best);
            }
        }
    }
}
