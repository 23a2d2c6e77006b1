//! The backward search loop, from the end of matches to their start.

ghost use Rattle.std.specs.Prelude.{Bool, List, ◌≡◌, ◌↔◌, ◌-◌, ◌<◌, [], ◌∷◌, Some, None, true, false, All, IsTrue, IfOk, IfErr, IfSome, OnOk};
ghost use Rattle.std.specs.Str.{IsCharBoundary};
ghost use Rattle.rx_util.specs.declared.search.MatchError.{MatchError};
ghost use Rattle.rx_walks.specs.Backward.{end_in_content};
ghost use Rattle.rx_walks.specs.Finds.{IsInside, Search, is_anchored};
ghost use Rattle.rx_walks.specs.Looks as walks;
ghost use Rattle.rx_walks.specs.ProgramFinds.{start_node};
ghost use Rattle.rx_program.specs.declared.states.State.{State};
ghost use Rattle.rx_program.specs.Programs.{ByteProgram};
ghost use Rattle.rx_program.specs.Reversed.{back_characters_of};
ghost use Rattle.rx_input.specs.Cursors.{IsSameContent};
ghost use Rattle.rx_input.specs.Inputs.{IsMoved};
ghost use Rattle.rx_steps.specs.Lists.{Asks, is_among};
ghost use Rattle.rx_steps.specs.ListsAll.{nodes_of};
ghost use Rattle.rx_steps.specs.Threads.{IsThreadOf, first_node};
ghost use Rattle.rx_steps.specs.Searching.{search_of, anchoring_of, haystack_in};
ghost use Rattle.rx_steps.specs.Reversed.{IsHalfAnswerBack, IsRefusalBack, IsReverseOf, byte_program_of};
ghost use Rattle.rx_steps.specs.ComingBack.{AreOfReverse, HasSteppedBack, IsHalfToldBack, IsOverBack, IsReverseCacheOf, IsStepBack, byte_taken_back};

use crate::asked::AskedLooks;
use crate::node::Node;
use crate::place::{Looks, Place};
use crate::stepper::Stepper;
use crate::thread_list::ThreadList;
use rx_input::{Cursor, Input};
use rx_program::ReverseProgram;
use rx_sets::CharacterSet;
use rx_util::{Anchored, HalfMatch, MatchError, NonMaxUsize, PatternID, StateID};
use rx_walks::laws_back::program_is_searched_back;
use std::alloc::{AllocError, Global};
use std::marker::Model;
use std::mem;

/// Returns the start state of a backward search; `None` for an unknown pattern.
pub fn start_back(program: &ReverseProgram, anchored: Anchored) -> Option<StateID>
    ensures { result ≡ start_node (back_characters_of program.now) (anchoring_of anchored) }
{
    match anchored {
        Anchored::No | Anchored::Yes => Some(program.start()),
        Anchored::Pattern(pattern) => program.patterns().get(pattern.as_usize()).copied(),
    }
}

/// Moves an input to the end of its span, or of its haystack if that is less. Returns whether that
/// is inside the slice and not before the span's start; if it isn't, the input's position is
/// unspecified.
pub fn enter_end<C: Cursor>(input: &mut Input<C>) -> bool
    ensures inside { result ≡ true → (utf8_empty : Bool)
        → IsInside (search_of utf8_empty input.old) input.new.position }
    ensures end { result ≡ true → (utf8_empty : Bool)
        → input.new.position ≡ end_in_content (search_of utf8_empty input.old) }
    ensures none { result ≡ false → (utf8_empty : Bool)
        → IsInside (search_of utf8_empty input.old)
        (end_in_content (search_of utf8_empty input.old)) → ⊥ }
    ensures same { IsMoved input.old input.new input.new.position input.old.asked }
{
    let span_end = input.end();
    input.move_to(span_end);
    let end = input.position();
    let slice = input.get_slice();
    input.start() <= end && slice.start <= end && end <= slice.end
}

/// Returns the assertions that hold at the input's position, if the program has any. The current
/// chunk may be another one afterwards.
fn looks_at<C: Cursor>(input: &mut Input<C>, line_terminator: u8, asks_looks: bool) -> Looks
    ensures looks { (states : List State) → (utf8_empty : Bool)
        → IsInside (search_of utf8_empty input.old) input.old.position
        → (asks_looks ≡ false → (l : walks.Look) → Asks states l → ⊥)
        → (l : walks.Look) → Asks states l
        → (haystack_in line_terminator (search_of utf8_empty input.old)).holds l input.old.position
        ≡ is_among result l }
    ensures same { IsMoved input.old input.new input.old.position input.old.asked }
{
    Place::of(input, line_terminator, asks_looks).looks
}

/// Moves an input one byte back, if that is inside, and returns that byte.
fn step_back<C: Cursor>(input: &mut Input<C>) -> Option<u8>
    ensures byte { (utf8_empty : Bool)
        → IsInside (search_of utf8_empty input.old) input.old.position
        → result ≡ byte_taken_back (search_of utf8_empty input.old) input.old.position }
    ensures moved { (utf8_empty : Bool)
        → IsInside (search_of utf8_empty input.old) input.old.position
        → HasSteppedBack (search_of utf8_empty input.old) input.old.position
        input.new.position }
    ensures same { IsMoved input.old input.new input.new.position input.old.asked }
{
    let at = input.position();
    let first = input.start().max(input.get_slice().start);
    if at <= first {
        return None;
    }
    input.move_to(at - 1);
    input.chunk().get(input.chunk_pos()).copied()
}

/// Returns whether an empty match may be at the input's position.
fn may_be_empty<C: Cursor>(input: &Input<C>, utf8_empty: bool) -> bool
    ensures { IsTrue result
        ↔ (IsTrue utf8_empty → IsCharBoundary input.now.cursor.content input.now.position) }
{
    !utf8_empty || input.is_char_boundary()
}

/// The threads of a backward search.
#[derive(Debug, Drop)]
struct WalksBack {
    stepper: Stepper,
    // Whether the program has assertions.
    asks_looks: bool,
    // The threads at the current offset. All started where the search did.
    live: ThreadList,
    // Room for those at the offset before.
    next: ThreadList,
}

impl WalksBack {
    /// Starts with one thread, at a state.
    fn begin(&mut self, start: StateID) -> Result<(), AllocError>
        ensures live { OnOk result (self.new.live.threads ≡ ([], first_node start) ∷ []) }
        ensures stepper { self.new.stepper ≡ self.old.stepper }
        ensures asks_looks { self.new.asks_looks ≡ self.old.asks_looks }
    {
        self.live.clear(0);
        self.live.push(Node::first(start), &[])
    }

    /// Makes the step from the input's position and moves the input one byte back, if that is
    /// inside: the threads there become `live`.
    fn pass<C: Cursor>(
        &mut self,
        program: &ReverseProgram,
        input: &mut Input<C>,
    ) -> Result<Option<PatternID>, MatchError>
        requires made { AreOfReverse program.now self.old.stepper.widths self.old.asks_looks }
        requires threads { All (IsThreadOf (byte_program_of program.now).states)
            self.old.live.threads }
        ensures step { IfOk result (λ met. (utf8_empty : Bool)
            → IsInside (search_of utf8_empty input.old) input.old.position
            → IsStepBack (byte_program_of program.now) (search_of utf8_empty input.old)
            input.old.position (nodes_of self.old.live.threads)
            (nodes_of self.new.live.threads) met) }
        ensures moved { (utf8_empty : Bool)
            → IsInside (search_of utf8_empty input.old) input.old.position
            → HasSteppedBack (search_of utf8_empty input.old) input.old.position
            input.new.position }
        ensures threads { OnOk result
            (All (IsThreadOf (byte_program_of program.now).states) self.new.live.threads) }
        ensures made { AreOfReverse program.now self.new.stepper.widths self.new.asks_looks }
        ensures same { IsMoved input.old input.new input.new.position input.old.asked }
        ensures refused { IfErr result (λ error. error ≡ MatchError.Memory) }
    {
        let looks = looks_at(input, program.line_terminator(), self.asks_looks);
        let place = Place {
            at: NonMaxUsize::new(0).unwrap(),
            byte: step_back(input),
            looks,
        };
        let met = self
            .stepper
            .next_list_back(program, &place, &self.live, &mut self.next)?;
        mem::swap(&mut self.live, &mut self.next);
        Ok(met)
    }

    /// Follows a thread backward from a state, starting at the input's position, which is the end
    /// of its span or haystack. Returns the match with the least start, then the least pattern.
    fn follow<C: Cursor>(
        &mut self,
        program: &ReverseProgram,
        input: &mut Input<C>,
        start: StateID,
    ) -> Result<Option<HalfMatch>, MatchError>
        requires made { AreOfReverse program.now self.old.stepper.widths self.old.asks_looks }
        requires inside { (utf8_empty : Bool)
            → IsInside (search_of utf8_empty input.old) input.old.position }
        requires end { (utf8_empty : Bool)
            → input.old.position ≡ end_in_content (search_of utf8_empty input.old) }
        ensures over { IfOk result (λ best. (utf8_empty : Bool)
            → IsOverBack (byte_program_of program.now)
            (search_of utf8_empty input.old) start best) }
        ensures inside { IfOk result (λ best. IfSome best (λ met. (utf8_empty : Bool)
            → IsInside (search_of utf8_empty input.old) met.offset)) }
        ensures made { AreOfReverse program.now self.new.stepper.widths self.new.asks_looks }
        ensures same { IsSameContent input.old.cursor input.new.cursor }
        ensures asked { input.new.asked ≡ input.old.asked }
        ensures refused { IfErr result (λ error. error ≡ MatchError.Memory) }
    {
        self.begin(start)?;
        let mut best = None;
        loop {
            let at = input.position();
            if let Some(pattern) = self.pass(program, input)? {
                best = Some(HalfMatch::new(pattern, at));
            }
            if self.live.len() == 0 || input.position() == at {
                return Ok(best);
            }
        }
    }
}

/// What backward searches with a reverse program keep between searches: room. Contracts see the
/// number of nodes of each state of its program, and whether that has assertions.
#[derive(Debug, Drop)]
pub struct ReverseCache {
    walks: WalksBack,
}

impl Model for ReverseCache {
    ghost use Rattle.rx_steps.specs.ComingBack.{ReverseCacheView};

    ghost Value = { ReverseCacheView };

    ghost view = { λ c. record {
      widths = c.walks.stepper.widths;
      asks_looks = c.walks.asks_looks;
    } };
}

impl ReverseCache {
    /// Returns room for backward searches with a program.
    ///
    /// # Errors
    ///
    /// `Memory`.
    ///
    /// # Complexity
    ///
    /// Memory proportional to the program's states and those of their automata.
    pub fn new(alloc: Global, program: &ReverseProgram) -> Result<ReverseCache, MatchError>
        ensures made { IfOk result (IsReverseCacheOf program.now) }
        ensures refused { IfErr result (λ error. error ≡ MatchError.Memory) }
    {
        Ok(ReverseCache {
            walks: WalksBack {
                stepper: Stepper::new_back(alloc, program)?,
                asks_looks: AskedLooks::of_back(program.states()).any,
                live: ThreadList::new(alloc, 0),
                next: ThreadList::new(alloc, 0),
            },
        })
    }

    /// Returns room for backward searches with the same program, as `new` does.
    ///
    /// # Errors
    ///
    /// `Memory`.
    pub fn clone(&self) -> Result<ReverseCache, MatchError>
        ensures same { IfOk result (λ cache. cache ≡ self.now) }
        ensures refused { IfErr result (λ error. error ≡ MatchError.Memory) }
    {
        let alloc = self.walks.stepper.allocator();
        Ok(ReverseCache {
            walks: WalksBack {
                stepper: self.walks.stepper.another()?,
                asks_looks: self.walks.asks_looks,
                live: ThreadList::new(alloc, 0),
                next: ThreadList::new(alloc, 0),
            },
        })
    }
}

/// Returns the match to report: the best one, unless it is empty and may not be at the end.
pub fn told_back(best: Option<HalfMatch>, end: usize, may_be_empty: bool) -> Option<HalfMatch>
    ensures { (s : Search) → end_in_content s ≡ end → IsInside s end
        → IfSome best (λ met. IsInside s met.offset)
        → (IsTrue may_be_empty ↔ (IsTrue s.utf8_empty → IsCharBoundary s.content end))
        → IsHalfToldBack s best result }
{
    let Some(found) = best else {
        return None;
    };
    if found.offset() == end && !may_be_empty {
        return None;
    }
    Some(found)
}

/// Searches backward with a reverse program. Of the matches that end at the end of the span, or of
/// the haystack if that is less, and are inside span and slice, returns the least start with the
/// least pattern for it, as the forward program finds them. `utf8_empty` skips an empty match
/// inside a character.
///
/// # Requires
///
/// The cache is for this program, for which it remains one, also after an error.
///
/// # Errors
///
/// `UnsupportedAnchored` if the input isn't anchored; `Memory`.
///
/// # Complexity
///
/// Reads from the end of the span to its start, or until no thread is left. At each offset it
/// follows each node of the program at most once, in time proportional to that node's transitions.
pub fn search_rev<C: Cursor>(
    program: &ReverseProgram,
    cache: &mut ReverseCache,
    input: &mut Input<C>,
    utf8_empty: bool,
) -> Result<Option<HalfMatch>, MatchError>
    requires made { IsReverseCacheOf program.now cache.old }
    ensures answer { IfOk result (λ found. (p : ByteProgram) → IsReverseOf p program.now
        → IsHalfAnswerBack p (search_of utf8_empty input.old) found) }
    ensures anchored { OnOk result
        (IsTrue (is_anchored (anchoring_of input.old.asked.anchored))) }
    ensures made { IsReverseCacheOf program.now cache.new }
    ensures same { IsSameContent input.old.cursor input.new.cursor }
    ensures asked { input.new.asked ≡ input.old.asked }
    ensures refused { IfErr result (IsRefusalBack (search_of utf8_empty input.old)) }
{
    let mode = input.get_anchored();
    if !mode.is_anchored() {
        return Err(MatchError::UnsupportedAnchored { mode });
    }
    // Laws, for the proof only.
    program.reads_backwards();
    program_is_searched_back::<CharacterSet>();
    if !enter_end(input) {
        return Ok(None);
    }
    let Some(start) = start_back(program, mode) else {
        return Ok(None);
    };
    let end = input.position();
    let may = may_be_empty(input, utf8_empty);
    let best = cache.walks.follow(program, input, start)?;
    Ok(told_back(best, end, may))
}
