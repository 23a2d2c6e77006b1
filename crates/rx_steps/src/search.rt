//! The search loop for the leftmost match.

ghost use Rattle.std.specs.Prelude.{ℕ, Bool, List, ◌≡◌, ◌+◌, ◌*◌, ◌<◌, ◌≤◌, ◌⊎◌, ◌↔◌, [], ◌∷◌, Some, None, true, false, All, IsTrue, IfOk, IfErr, OnOk, OnErr, length, min, max};
ghost use Rattle.rx_util.specs.declared.search.MatchError.{MatchError};
ghost use Rattle.rx_walks.specs.Finds.{IsInside, is_anchored};
ghost use Rattle.rx_walks.specs.Laws.{MayBegin};
ghost use Rattle.rx_walks.specs.Looks as walks;
ghost use Rattle.rx_walks.specs.ProgramFinds.{start_node, highest};
ghost use Rattle.rx_walks.specs.Steps.{Steps};
ghost use Rattle.rx_program.specs.declared.states.State.{State};
ghost use Rattle.rx_program.specs.Programs.{character_program};
ghost use Rattle.rx_input.specs.Cursors.{IsSameContent};
ghost use Rattle.rx_input.specs.Inputs.{IsMoved};
ghost use Rattle.rx_steps.specs.Lists.{met_at};
ghost use Rattle.rx_steps.specs.Nodes.{node_count};
ghost use Rattle.rx_steps.specs.Idle.{IsPassedAt};
ghost use Rattle.rx_steps.specs.Threads.{Slots, IsThreadOf, no_slots, first_node};
ghost use Rattle.std.specs.Option.{ForSome};
ghost use Rattle.rx_steps.specs.Searching.{search_of, anchoring_of, IsAnswerAt};
ghost use Rattle.rx_steps.specs.SearchingAll.{IsAnswerAllAt};
ghost use Rattle.rx_steps.specs.Standing.{StopsAt};
ghost use Rattle.rx_steps.specs.Caches.{AreOfProgram, IsCacheOf, place_count};
ghost use Rattle.rx_steps.specs.Coming.{course_of, up_to, machine_in, HasStarted, IsUnderWay, IsUnderWayInParts, IsOver, IsOverAt, IsStopped, KeepsFirst, StandsSince};

use crate::all_walks::AllWalks;
use crate::asked::AskedLooks;
use crate::idle::{IdleBytes, last_place, skip};
use crate::node::Node;
use crate::place::Place;
use crate::stepper::Stepper;
use crate::thread_list::ThreadList;
use rx_input::{Cursor, Input};
use rx_program::Program;
use rx_sets::CharacterSet;
use rx_util::{Anchored, Match, MatchError, NonMaxUsize, PatternID, StateID};
use rx_walks::laws::{
    finds_all_at_most_one, finds_exist, program_is_searched_for_all, program_is_searched_keeping,
};
use rx_walks::laws_all::finds_agree;
use std::alloc::{AllocError, Global};
use std::marker::Model;
use std::mem;

/// Returns the start state of a search; `None` for an unknown pattern.
pub fn start_state(program: &Program, anchored: Anchored) -> Option<StateID>
    ensures { result ≡ start_node (character_program program.now) (anchoring_of anchored) }
{
    match anchored {
        Anchored::No | Anchored::Yes => Some(program.start()),
        Anchored::Pattern(pattern) => program.patterns().get(pattern.as_usize()).copied(),
    }
}

/// Moves an input to the first offset inside its span, slice and haystack, and returns whether
/// there is one; if not, the input's position is unspecified. Costs the moves over the chunks
/// between.
pub fn enter<C: Cursor>(input: &mut Input<C>) -> bool
    ensures inside { result ≡ true → (utf8_empty : Bool)
        → IsInside (search_of utf8_empty input.old) input.new.position }
    ensures first { result ≡ true
        → input.new.position ≡ max input.old.asked.slice.start input.old.asked.span.start }
    ensures none { result ≡ false → (utf8_empty : Bool) → (i : ℕ)
        → IsInside (search_of utf8_empty input.old) i → ⊥ }
    ensures same { IsMoved input.old input.new input.new.position input.old.asked }
{
    let start = input.get_slice().start.max(input.start());
    input.move_to(start);
    input.position() == start && start <= last_place(input)
}

/// Moves an input to the next offset inside its span, slice and haystack, if there is one.
pub fn advance<C: Cursor>(input: &mut Input<C>) -> bool
    ensures next { result ≡ true → input.new.position ≡ input.old.position + 1 }
    ensures inside { result ≡ true → (utf8_empty : Bool)
        → IsInside (search_of utf8_empty input.old) input.old.position
        → IsInside (search_of utf8_empty input.old) input.new.position }
    ensures last { result ≡ false → (utf8_empty : Bool)
        → highest (search_of utf8_empty input.old) < input.old.position + 1 }
    ensures stays { result ≡ false → input.new.position ≡ input.old.position }
    ensures same { IsMoved input.old input.new input.new.position input.old.asked }
{
    let at = input.position();
    if at >= last_place(input) {
        return false;
    }
    input.move_to(at + 1);
    input.position() > at
}

/// Returns whether a match may start at the input's position, which must be inside: by the input's
/// anchoring, and with `utf8_empty` only at a character boundary.
pub fn begins<C: Cursor>(input: &Input<C>, utf8_empty: bool) -> bool
    ensures { IsInside (search_of utf8_empty input.now) input.now.position
        → IsTrue result ↔ MayBegin (search_of utf8_empty input.now) input.now.position }
{
    (!input.get_anchored().is_anchored() || input.position() == input.start())
        && (!utf8_empty || input.is_char_boundary())
}

/// Returns whether the only thread is one at the program's start.
fn is_fresh(program: &Program, threads: &ThreadList) -> bool
    ensures { result ≡ true → (slots : Slots)
        × (threads.now.threads ≡ (slots, first_node program.now.start) ∷ []) }
{
    if threads.len() != 1 {
        return false;
    }
    threads.node(0) == Node::first(program.start())
}

/// Returns whether a step was one of a single thread at the program's start, and led nowhere.
fn came_to_nothing(
    program: &Program,
    threads: &ThreadList,
    next: &ThreadList,
    has_ended: bool,
) -> bool
    ensures fresh { result ≡ true → (slots : Slots)
        × (threads.now.threads ≡ (slots, first_node program.now.start) ∷ []) }
    ensures nothing { result ≡ true → (next.now.threads ≡ []) × (has_ended ≡ false) }
{
    !has_ended && next.len() == 0 && is_fresh(program, threads)
}

/// The threads of a search.
#[derive(Debug, Drop)]
pub(crate) struct Walks {
    pub(crate) stepper: Stepper,
    // Whether the program has assertions.
    pub(crate) asks_looks: bool,
    // The bytes at which no match begins, as far as searches have met them.
    pub(crate) idle: IdleBytes,
    // The threads at the current offset, in order of preference.
    live: ThreadList,
    // Room for those at the next offset.
    next: ThreadList,
    // The pattern of the last match end.
    met: Option<PatternID>,
}

impl Walks {
    /// Starts a thread at the input's position, after the others, if no match end was met and a
    /// match may begin there.
    fn start_walk<C: Cursor>(
        &mut self,
        input: &Input<C>,
        start: StateID,
        utf8_empty: bool,
    ) -> Result<(), AllocError>
        requires inside { IsInside (search_of utf8_empty input.now) input.now.position }
        ensures started { OnOk result (HasStarted (search_of utf8_empty input.now) start
            input.now.position self.old.met self.old.live self.new.live.threads) }
        ensures threads { OnOk result ((states : List State)
            → All (IsThreadOf states) self.old.live.threads
            → All (IsThreadOf states) self.new.live.threads) }
        ensures slot_len { self.new.live.slot_len ≡ self.old.live.slot_len }
        ensures stepper { self.new.stepper ≡ self.old.stepper }
        ensures asks_looks { self.new.asks_looks ≡ self.old.asks_looks }
        ensures idle { self.new.idle ≡ self.old.idle }
        ensures met { self.new.met ≡ self.old.met }
    {
        if self.met.is_none() && begins(input, utf8_empty) {
            self.live.push_fresh(Node::first(start))?;
        }
        Ok(())
    }

    /// Makes the step from the input's position: the threads at the next offset become `live`.
    fn pass<C: Cursor>(
        &mut self,
        program: &Program,
        input: &mut Input<C>,
    ) -> Result<Option<PatternID>, MatchError>
        requires made { AreOfProgram program.now self.old.stepper.widths self.old.asks_looks
            self.old.idle }
        requires threads { All (IsThreadOf program.now.states) self.old.live.threads }
        ensures steps { IfOk result (λ met. (utf8_empty : Bool)
            → IsInside (search_of utf8_empty input.old) input.old.position
            → Steps (machine_in program.now (search_of utf8_empty input.old)) input.old.position []
            self.old.live.threads self.new.live.threads
            (met_at input.old.position met self.new.stepper.slots)) }
        ensures threads { OnOk result (All (IsThreadOf program.now.states) self.new.live.threads) }
        ensures met { self.new.met ≡ self.old.met }
        ensures made { AreOfProgram program.now self.new.stepper.widths self.new.asks_looks
            self.new.idle }
        ensures slot_len { OnOk result (self.new.live.slot_len ≡ self.old.live.slot_len) }
        ensures work { self.new.stepper.followed
            ≤ self.old.stepper.followed + node_count program.now }
        ensures same { IsMoved input.old input.new input.old.position input.old.asked }
        ensures refused { IfErr result (λ error. error ≡ MatchError.Memory) }
    {
        let place = Place::of(input, program.line_terminator(), self.asks_looks);
        let ended = self
            .stepper
            .next_list(program, &place, &self.live, &mut self.next)?;
        // With assertions in the program, these may be the reason that it led nowhere.
        if !self.asks_looks && came_to_nothing(program, &self.live, &self.next, ended.is_some()) {
            self.idle.insert(place.byte);
        }
        mem::swap(&mut self.live, &mut self.next);
        Ok(ended)
    }

    /// Visits the input's position: starts a thread if no match end was met and a match may begin
    /// there; a match that ends there is the result so far, with its slots.
    fn visit<C: Cursor>(
        &mut self,
        program: &Program,
        input: &mut Input<C>,
        start: StateID,
        utf8_empty: bool,
        slots: &mut [Option<NonMaxUsize>],
    ) -> Result<(), MatchError>
        requires made { AreOfProgram program.now self.old.stepper.widths self.old.asks_looks
            self.old.idle }
        requires inside { IsInside (search_of utf8_empty input.old) input.old.position }
        requires slot_len { self.old.live.slot_len ≡ length slots.old }
        requires way { IsUnderWay (course_of program.now (search_of utf8_empty input.old) start)
            input.old.position self.old.live.threads self.old.met slots.old }
        requires parts { IsUnderWayInParts
            (course_of program.now (search_of utf8_empty input.old) start)
            input.old.position self.old.live.threads self.old.met slots.old }
        ensures way { OnOk result (IsUnderWay
            (course_of program.now (search_of utf8_empty input.old) start)
            (input.old.position + 1) self.new.live.threads self.new.met slots.new) }
        ensures parts { OnOk result (IsUnderWayInParts
            (course_of program.now (search_of utf8_empty input.old) start)
            (input.old.position + 1) self.new.live.threads self.new.met slots.new) }
        ensures so_far { OnOk result (IsOver (up_to
            (course_of program.now (search_of utf8_empty input.old) start) input.old.position)
            self.new.met slots.new) }
        ensures first { OnOk result ((first : ℕ) → KeepsFirst
            (course_of program.now (search_of utf8_empty input.old) start) first
            input.old.position self.old.met self.old.live.threads → KeepsFirst
            (course_of program.now (search_of utf8_empty input.old) start) first
            (input.old.position + 1) self.new.met self.new.live.threads) }
        ensures stands { OnOk result ((first : ℕ) → start_node (character_program program.now)
            (anchoring_of input.old.asked.anchored) ≡ Some start
            → KeepsFirst (course_of program.now (search_of utf8_empty input.old) start) first
            input.old.position self.old.met self.old.live.threads
            → (self.old.met ≡ None) ⊎ (self.old.live.threads ≡ [] → ⊥)
            → (self.new.met ≡ None) ⊎ StandsSince
            (course_of program.now (search_of utf8_empty input.old) start) first
            input.old.position self.old.met) }
        ensures made { AreOfProgram program.now self.new.stepper.widths self.new.asks_looks
            self.new.idle }
        ensures slot_len { OnOk result (self.new.live.slot_len ≡ length slots.new) }
        ensures work { self.new.stepper.followed
            ≤ self.old.stepper.followed + node_count program.now }
        ensures same { IsMoved input.old input.new input.old.position input.old.asked }
        ensures refused { IfErr result (λ error. error ≡ MatchError.Memory) }
    {
        self.start_walk(input, start, utf8_empty)?;
        if let Some(pattern) = self.pass(program, input)? {
            self.met = Some(pattern);
            slots.copy_from_slice(self.stepper.slots());
        }
        Ok(())
    }

    /// Returns whether there is no thread, and none will start at a later offset.
    fn are_over(&self, anchored: Anchored) -> bool
        ensures live { result ≡ true → self.now.live.threads ≡ [] }
        ensures starts { result ≡ true → self.now.met ≡ None
            → IsTrue (is_anchored (anchoring_of anchored)) }
        ensures goes_on { result ≡ false → self.now.live.threads ≡ [] → self.now.met ≡ None
            → is_anchored (anchoring_of anchored) ≡ false }
        ensures lives { result ≡ false
            → (self.now.met ≡ None) ⊎ (self.now.live.threads ≡ [] → ⊥) }
    {
        self.live.len() == 0 && (self.met.is_some() || anchored.is_anchored())
    }

    /// Moves the input to the next offset inside span, slice and haystack, if there is one; without
    /// threads and a match end, to the next one at which a match may begin.
    fn go_on<C: Cursor>(&self, input: &mut Input<C>, utf8_empty: bool) -> bool
        ensures above { result ≡ true → input.old.position + 1 ≤ input.new.position }
        ensures inside { result ≡ true
            → IsInside (search_of utf8_empty input.old) input.old.position
            → IsInside (search_of utf8_empty input.old) input.new.position }
        ensures skipped { result ≡ true → (k : ℕ) → input.old.position + 1 ≤ k
            → k < input.new.position → (self.now.live.threads ≡ []) × (self.now.met ≡ None)
            × IsPassedAt self.now.idle utf8_empty input.old.cursor.content k }
        ensures no_more { result ≡ true → self.now.live.threads ≡ [] → self.now.met ≡ None
            → input.new.position < min input.old.asked.slice.end input.old.asked.span.end
            → IsPassedAt self.now.idle utf8_empty input.old.cursor.content input.new.position
            → ⊥ }
        ensures last { result ≡ false
            → highest (search_of utf8_empty input.old) < input.old.position + 1 }
        ensures stays { result ≡ false → input.new.position ≡ input.old.position }
        ensures same { IsMoved input.old input.new input.new.position input.old.asked }
    {
        if !advance(input) {
            return false;
        }
        if self.live.len() == 0 && self.met.is_none() {
            skip(&self.idle, input, utf8_empty);
        }
        true
    }

    /// Follows threads from a start state, from the input's position on, which must be the first
    /// one inside. Returns the pattern of the match that is found, and writes its offsets into the
    /// slots. With `earliest` it stops at the first match end.
    fn follow<C: Cursor>(
        &mut self,
        program: &Program,
        input: &mut Input<C>,
        start: StateID,
        utf8_empty: bool,
        earliest: bool,
        slots: &mut [Option<NonMaxUsize>],
    ) -> Result<Option<PatternID>, MatchError>
        requires made { AreOfProgram program.now self.old.stepper.widths self.old.asks_looks
            self.old.idle }
        requires start { start_node (character_program program.now)
            (anchoring_of input.old.asked.anchored) ≡ Some start }
        requires inside { IsInside (search_of utf8_empty input.old) input.old.position }
        requires first { input.old.position
            ≡ max input.old.asked.slice.start input.old.asked.span.start }
        requires empty { slots.old ≡ no_slots (length slots.old) }
        ensures over { IfOk result (λ pattern. IsOverAt earliest
            (course_of program.now (search_of utf8_empty input.old) start)
            input.old.position input.new.position pattern slots.new) }
        ensures stands { IfOk result (λ pattern. (pattern ≡ None) ⊎ IsStopped earliest
            (course_of program.now (search_of utf8_empty input.old) start)
            input.old.position input.new.position) }
        ensures made { AreOfProgram program.now self.new.stepper.widths self.new.asks_looks
            self.new.idle }
        ensures work { self.new.stepper.followed ≤ self.old.stepper.followed
            + node_count program.now * place_count (search_of utf8_empty input.old) }
        ensures same { IsSameContent input.old.cursor input.new.cursor }
        ensures asked { input.new.asked ≡ input.old.asked }
        ensures refused { IfErr result (λ error. error ≡ MatchError.Memory) }
    {
        self.live.clear(slots.len());
        self.met = None;
        loop {
            self.visit(program, input, start, utf8_empty, slots)?;
            if earliest && self.met.is_some() {
                return Ok(self.met);
            }
            if self.are_over(input.get_anchored()) || !self.go_on(input, utf8_empty) {
                return Ok(self.met);
            }
        }
    }
}

/// What searches with a program keep between searches, so that they allocate once. Contracts see
/// the number of nodes of each state of its program, whether that program has assertions, the bytes
/// at which its matches are known not to begin, and the number of nodes that searches have
/// followed.
#[derive(Debug, Drop)]
pub struct Cache {
    walks: Walks,
    // The threads of searches for all matches.
    all: AllWalks,
}

impl Model for Cache {
    ghost use Rattle.rx_steps.specs.Caches.{CacheView};

    ghost Value = { CacheView };

    ghost view = { λ c. record {
      widths = c.walks.stepper.widths;
      asks_looks = c.walks.asks_looks;
      idle = c.walks.idle;
      followed = c.walks.stepper.followed;
    } };
}

impl Cache {
    /// Returns a cache for searches with a program.
    ///
    /// # Errors
    ///
    /// `Memory`.
    ///
    /// # Complexity
    ///
    /// Memory proportional to the program's states and those of their automata.
    pub fn new(alloc: Global, program: &Program) -> Result<Cache, MatchError>
        ensures made { IfOk result (λ cache. IsCacheOf program.now cache) }
        ensures refused { IfErr result (λ error. error ≡ MatchError.Memory) }
    {
        Ok(Cache {
            walks: Walks {
                stepper: Stepper::new(alloc, program)?,
                asks_looks: AskedLooks::of(program.states()).any,
                idle: IdleBytes::new(),
                live: ThreadList::new(alloc, 0),
                next: ThreadList::new(alloc, 0),
                met: None,
            },
            all: AllWalks::new(alloc),
        })
    }

    /// Returns a cache for the same program with what this one has learnt, of the size of a new
    /// one.
    ///
    /// # Errors
    ///
    /// `Memory`.
    pub fn clone(&self) -> Result<Cache, MatchError>
        ensures same { IfOk result (λ cache. cache ≡ record self.now { followed = 0 }) }
        ensures refused { IfErr result (λ error. error ≡ MatchError.Memory) }
    {
        let alloc = self.walks.stepper.allocator();
        Ok(Cache {
            walks: Walks {
                stepper: self.walks.stepper.another()?,
                asks_looks: self.walks.asks_looks,
                idle: self.walks.idle.copied(),
                live: ThreadList::new(alloc, 0),
                next: ThreadList::new(alloc, 0),
                met: None,
            },
            all: AllWalks::new(alloc),
        })
    }

    /// Makes the cache one for searches with this program.
    ///
    /// # Errors
    ///
    /// `Memory`; the cache is unchanged then.
    pub fn reset(&mut self, program: &Program) -> Result<(), MatchError>
        ensures made { OnOk result (IsCacheOf program.now self.new) }
        ensures kept { OnErr result (self.new ≡ self.old) }
        ensures refused { IfErr result (λ error. error ≡ MatchError.Memory) }
    {
        let alloc = self.walks.stepper.allocator();
        self.walks.stepper = Stepper::new(alloc, program)?;
        self.walks.asks_looks = AskedLooks::of(program.states()).any;
        self.walks.idle = IdleBytes::new();
        Ok(())
    }

    /// Returns the approximate number of bytes of the lists. No contract fixes this number.
    pub fn memory_usage(&self) -> usize {
        self.walks
            .stepper
            .memory_usage()
            .saturating_add(self.walks.live.memory_usage())
            .saturating_add(self.walks.next.memory_usage())
            .saturating_add(self.all.memory_usage())
    }
}

/// Clears all slots.
pub fn clear_slots(slots: &mut [Option<NonMaxUsize>])
    ensures all { slots.new ≡ no_slots (length slots.old) }
    ensures none { slots.new ≡ no_slots (length slots.new) }
{
    slots.fill(None);
}

/// Searches: returns the pattern of the match that the program finds, and writes its offsets into
/// the slots, as many as there are; the others are cleared. `utf8_empty` skips empty matches inside
/// a character.
///
/// With `earliest` it stops at the first match end, if there is a match, and returns what it found
/// up to that offset. Without, it stops when no thread is left.
///
/// # Requires
///
/// The cache is for this program, for which it remains one, also after an error.
///
/// # Errors
///
/// `Memory`; all slots are cleared then.
///
/// # Complexity
///
/// At each offset it follows each node of the program at most once, in time proportional to that
/// node's transitions.
pub fn search_slots<C: Cursor>(
    program: &Program,
    cache: &mut Cache,
    input: &mut Input<C>,
    utf8_empty: bool,
    earliest: bool,
    slots: &mut [Option<NonMaxUsize>],
) -> Result<Option<PatternID>, MatchError>
    requires made { IsCacheOf program.now cache.old }
    ensures answer { IfOk result (λ pattern. IsAnswerAt earliest program.now
        (search_of utf8_empty input.old) input.new.position pattern slots.new) }
    ensures stops { IfOk result (λ pattern. ForSome pattern (λ _. StopsAt earliest program.now
        (search_of utf8_empty input.old) input.new.position)) }
    ensures none { OnErr result (slots.new ≡ no_slots (length slots.new)) }
    ensures made { IsCacheOf program.now cache.new }
    ensures work { cache.new.followed ≤ cache.old.followed
        + node_count program.now * place_count (search_of utf8_empty input.old) }
    ensures same { IsSameContent input.old.cursor input.new.cursor }
    ensures asked { input.new.asked ≡ input.old.asked }
    ensures refused { IfErr result (λ error. error ≡ MatchError.Memory) }
{
    clear_slots(slots);
    let Some(start) = start_state(program, input.get_anchored()) else {
        return Ok(None);
    };
    // Laws, for the proof only.
    program.walks_are_those_of_characters();
    program_is_searched_keeping::<CharacterSet, Option<NonMaxUsize>>();
    if !enter(input) {
        return Ok(None);
    }
    let walks = &mut cache.walks;
    let pattern = match walks.follow(program, input, start, utf8_empty, earliest, slots) {
        Ok(pattern) => pattern,
        Err(error) => {
            clear_slots(slots);
            return Err(error);
        }
    };
    Ok(pattern)
}

/// Searches among all matches: returns the one with the greatest end, then the least start, then
/// the least pattern. `utf8_empty` skips empty matches inside a character.
///
/// With `earliest` it stops at the first match end, if there is a match, and returns what it found
/// up to that offset. Without, an unanchored search reads its whole span.
///
/// # Requires
///
/// The cache is for this program, for which it remains one, also after an error.
///
/// # Errors
///
/// `Memory`.
///
/// # Complexity
///
/// At each offset it follows each node of the program at most once, in time proportional to that
/// node's transitions.
pub fn search_all<C: Cursor>(
    program: &Program,
    cache: &mut Cache,
    input: &mut Input<C>,
    utf8_empty: bool,
    earliest: bool,
) -> Result<Option<Match>, MatchError>
    requires made { IsCacheOf program.now cache.old }
    ensures answer { IfOk result (λ found. IsAnswerAllAt earliest program.now
        (search_of utf8_empty input.old) input.new.position found) }
    ensures made { IsCacheOf program.now cache.new }
    ensures work { cache.new.followed ≤ cache.old.followed
        + node_count program.now * place_count (search_of utf8_empty input.old) }
    ensures same { IsSameContent input.old.cursor input.new.cursor }
    ensures asked { input.new.asked ≡ input.old.asked }
    ensures refused { IfErr result (λ error. error ≡ MatchError.Memory) }
{
    let Some(start) = start_state(program, input.get_anchored()) else {
        return Ok(None);
    };
    // Laws, for the proof only.
    program.walks_are_those_of_characters();
    program_is_searched_for_all::<CharacterSet>();
    finds_agree::<CharacterSet>();
    finds_exist::<CharacterSet>();
    finds_all_at_most_one::<CharacterSet>();
    if !enter(input) {
        return Ok(None);
    }
    let walks = &mut cache.walks;
    let all = &mut cache.all;
    // Bound for the proof only: the result depends on the input's position after the search.
    let found = all.follow(walks, program, input, start, utf8_empty, earliest)?;
    Ok(found)
}
