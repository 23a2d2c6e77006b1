//! The list of all matches.

ghost use Rattle.std.specs.Prelude.{◌≡◌, ◌↔◌, ◌+◌, ◌*◌, ◌^◌, ◌<◌, ◌≤◌, Bool, ℕ, IsTrue, IfOk, IfErr, IfSome, OnOk, IsSomeAnd, Some, None, true, false, length, map, max};
ghost use Rattle.rx_util.specs.declared.search.MatchError.{MatchError};
ghost use Rattle.rx_walks.specs.Finds.{IsInside, Search};
ghost use Rattle.rx_program.specs.Programs.{ByteProgram};
ghost use Rattle.rx_walks.specs.LeadLaws.{begins_from};
ghost use Rattle.rx_walks.specs.ProgramFinds.{highest};
ghost use Rattle.rx_input.specs.Cursors.{IsSameContent};
ghost use Rattle.rx_input.specs.Inputs.{IsMoved};
ghost use Rattle.rx_steps.specs.Searching.{search_of};
ghost use Rattle.rx_lists.specs.Blocks.{AreBlocks, BlockReaches};
ghost use Rattle.rx_lists.specs.Passes.{IsWalking, outcome_of};
ghost use Rattle.rx_lists.specs.Lists.{AreAllMatches, AreListedTo, IsFoundOnward, IsTaken, Lists, end_or, outcome_of_listed, places_in, reads_for};

use crate::blocks::Blocks;
use crate::walk::{Ending, Walk};
use counters::Counter;
use rx_input::{Cursor, Input};
use rx_program::Program;
use rx_sets::CharacterSet;
use rx_steps::{Node, advance, last_place, start_state};
use rx_util::{MatchError, NonMaxUsize, PatternID, StateID};
use rx_walks::laws_lead::byte_listings_are_matches;
use std::alloc::{AllocError, Global};
use std::marker::Model;

/// A match of a list: its pattern, its end, and the offsets in its slots.
#[derive(Debug, Drop)]
pub struct ListedMatch {
    pattern: PatternID,
    end: usize,
    slots: Vec<Option<NonMaxUsize>>,
}

impl Model for ListedMatch {
    ghost use Rattle.rx_lists.specs.Lists.{Listed};

    ghost Value = { Listed };

    ghost view = { λ m. record { pattern = m.pattern; end = m.end; slots = m.slots.items } };
}

impl ListedMatch {
    /// Returns the pattern of the match.
    pub fn pattern(&self) -> PatternID
        ensures { result ≡ self.now.pattern }
    {
        self.pattern
    }

    /// Returns the end of the match.
    pub fn end(&self) -> usize
        ensures { result ≡ self.now.end }
    {
        self.end
    }

    /// Returns the slots.
    pub fn slots(&self) -> &[Option<NonMaxUsize>]
        ensures { result.now ≡ self.now.slots }
    {
        &self.slots
    }
}

/// Returns whether a match may start at the input's position, which must be inside, in a find that
/// began at `from`.
fn may_begin<C: Cursor>(input: &Input<C>, from: usize, utf8_empty: bool) -> bool
    ensures { IsInside (search_of utf8_empty input.now) input.now.position
        → from ≤ input.now.position
        → IsTrue result
        ↔ begins_from (search_of utf8_empty input.now) from input.now.position }
{
    (!input.get_anchored().is_anchored() || input.position() == from)
        && (!utf8_empty || input.is_char_boundary())
}

/// Moves an input to the last offset inside its span, slice and haystack, and returns whether there
/// is one; if not, the input's position is unspecified.
fn enter_last<C: Cursor>(input: &mut Input<C>) -> bool
    ensures inside { result ≡ true → (utf8_empty : Bool)
        → IsInside (search_of utf8_empty input.old) input.new.position }
    ensures last { (utf8_empty : Bool)
        → input.new.position ≡ highest (search_of utf8_empty input.old) }
    ensures none { result ≡ false → (utf8_empty : Bool) → (i : ℕ)
        → IsInside (search_of utf8_empty input.old) i → ⊥ }
    ensures same { IsMoved input.old input.new input.new.position input.old.asked }
{
    input.move_to(last_place(input));
    input.get_slice().start.max(input.start()) <= input.position()
}

/// How walks of a list start: the state, the number of slots, and whether empty matches inside a
/// character are skipped.
#[derive(Clone, Copy, Debug)]
struct Walking {
    start: StateID,
    slot_len: usize,
    utf8_empty: bool,
}

/// Returns the end of the match that starts at the input's position, if there is one, in a find
/// that began at `from`; the walk has its slots then. The input's position may be another one
/// afterwards. The current block must reach back to the position, and then reaches back to where
/// the list continues. Reads the offset and, if a match starts there, those of its walk, plus those
/// of recomputed blocks.
fn find_at<C: Cursor>(
    walk: &mut Walk,
    program: &Program,
    input: &mut Input<C>,
    blocks: &mut Blocks,
    of: &Walking,
    from: usize,
    read: &mut Counter,
) -> Result<Option<Ending>, MatchError>
    requires ready { IsWalking program.now walk.old.stepper.widths walk.old.asks_looks }
    requires blocks { (utf8_empty : Bool) → AreBlocks program.now
        (search_of utf8_empty input.old) blocks.old }
    requires inside { (utf8_empty : Bool)
        → IsInside (search_of utf8_empty input.old) input.old.position }
    requires reaches { BlockReaches blocks.old.block input.old.position }
    requires from { from ≤ input.old.position }
    ensures found { IfOk result (λ found. IsFoundOnward program.now
        (search_of of.now.utf8_empty input.old) of.now.start of.now.slot_len from input.old.position
        (outcome_of found walk.new.stepper.slots)) }
    ensures inside { IfOk result (λ found. IfSome found (λ e.
        (input.old.position ≤ e.end) × ((utf8_empty : Bool)
        → IsInside (search_of utf8_empty input.old) e.end))) }
    ensures ready { IsWalking program.now walk.new.stepper.widths walk.new.asks_looks }
    ensures blocks { OnOk result ((utf8_empty : Bool) → AreBlocks program.now
        (search_of utf8_empty input.old) blocks.new) }
    ensures reaches { IfOk result (λ found. BlockReaches blocks.new.block
        (end_or found input.old.position)) }
    ensures same { IsSameContent input.old.cursor input.new.cursor }
    ensures asked { input.new.asked ≡ input.old.asked }
    ensures refused { IfErr result (λ error. error ≡ MatchError.Memory) }
    ensures counted { IfOk result (λ found. read.new + blocks.old.block.top
        ≤ read.old + blocks.new.block.top + reads_for input.old.position found) }
    ensures bound { (utf8_empty : Bool) → read.new + blocks.old.block.top + input.old.position
        ≤ read.old + blocks.new.block.top + highest (search_of utf8_empty input.old) + 2 }
    ensures last { (utf8_empty : Bool)
        → blocks.new.block.top ≤ highest (search_of utf8_empty input.old) }
{
    read.add();
    if !may_begin(input, from, of.utf8_empty) {
        return Ok(None);
    }
    blocks.come_to(program, input, read)?;
    let set = blocks.set(input.position());
    if !blocks.pass.index.has(set, Node::first(of.start)) {
        return Ok(None);
    }
    walk.follow(program, input, blocks, of.start, of.slot_len, read)
}

/// The matches so far, where the find of the next one began, and whether a match ended there and no
/// offset was skipped since.
#[derive(Debug, Drop)]
struct Progress {
    found: Vec<ListedMatch>,
    from: usize,
    after: bool,
}

/// Returns the match of a walk.
fn listed_match(
    alloc: Global,
    ending: Ending,
    slots: &[Option<NonMaxUsize>],
) -> Result<ListedMatch, AllocError>
    ensures { IfOk result (λ m. Some (outcome_of_listed m)
        ≡ outcome_of (Some ending) slots.now) }
{
    Ok(ListedMatch {
        pattern: ending.pattern,
        end: ending.end,
        slots: slots.to_vec(alloc)?,
    })
}

impl Progress {
    /// Takes what was found at an offset, with these slots: returns the end of the match that is
    /// listed, or `None` if the offset is skipped.
    fn take(
        &mut self,
        alloc: Global,
        at: usize,
        found: Option<Ending>,
        slots: &[Option<NonMaxUsize>],
    ) -> Result<Option<usize>, MatchError>
        requires bound { at + 1 < 2 ^ 64 }
        ensures taken { IfOk result (λ goes_on. (p : ByteProgram) → (s : Search) → (q : ℕ)
            → (len : ℕ) → IsFoundOnward p s q len self.old.from at (outcome_of found slots.now)
            → self.old.from ≤ at → (self.old.after ≡ true → self.old.from ≡ at)
            → AreListedTo p s q len self.old.found.items self.old.after self.old.from at
            → IsTaken p s q len at self.new.found.items self.new.after self.new.from goes_on) }
        ensures end { IfOk result (λ goes_on. IfSome goes_on (λ end.
            IsSomeAnd found (λ e. e.end ≡ end))) }
        ensures further { IfOk result (λ goes_on. IfSome goes_on (λ end.
            self.old.after ≡ true → end ≡ at → ⊥)) }
        ensures passed { IfOk result (λ goes_on. goes_on ≡ None
            → IfSome found (λ e. e.end ≡ at)) }
        ensures refused { IfErr result (λ error. error ≡ MatchError.Memory) }
    {
        let Some(ending) = found else {
            self.after = false;
            return Ok(None);
        };
        let end = ending.end;
        if self.after && end == at {
            self.from = at + 1;
            self.after = false;
            return Ok(None);
        }
        let listed = listed_match(alloc, ending, slots)?;
        let Ok(()) = self.found.push(listed) else {
            return Err(MatchError::Memory);
        };
        self.from = end;
        self.after = true;
        Ok(Some(end))
    }
}

/// Moves an input to the end of the listed match, or past the skipped offset, and returns whether
/// that is inside.
fn go_on<C: Cursor>(input: &mut Input<C>, at: usize, end: Option<usize>) -> bool
    ensures end { IfSome end (λ e. e ≤ length input.old.cursor.content
        → (result ≡ true) × (input.new.position ≡ e)) }
    ensures next { end ≡ None → result ≡ true → at ≤ length input.old.cursor.content
        → input.new.position ≡ at + 1 }
    ensures inside { end ≡ None → result ≡ true → (utf8_empty : Bool)
        → IsInside (search_of utf8_empty input.old) at
        → IsInside (search_of utf8_empty input.old) input.new.position }
    ensures last { end ≡ None → result ≡ false → at ≤ length input.old.cursor.content
        → (utf8_empty : Bool) → highest (search_of utf8_empty input.old) < at + 1 }
    ensures same { IsMoved input.old input.new input.new.position input.old.asked }
{
    match end {
        Some(end) => {
            input.move_to(end);
            true
        }
        None => {
            input.move_to(at);
            advance(input)
        }
    }
}

/// Lists all matches, from the first offset inside, where the input must be.
fn list_all<C: Cursor>(
    alloc: Global,
    walk: &mut Walk,
    program: &Program,
    input: &mut Input<C>,
    blocks: &mut Blocks,
    of: &Walking,
    read: &mut Counter,
) -> Result<Vec<ListedMatch>, MatchError>
    requires ready { IsWalking program.now walk.old.stepper.widths walk.old.asks_looks }
    requires blocks { (utf8_empty : Bool) → AreBlocks program.now
        (search_of utf8_empty input.old) blocks.old }
    requires reaches { BlockReaches blocks.old.block input.old.position }
    requires inside { (utf8_empty : Bool)
        → IsInside (search_of utf8_empty input.old) input.old.position }
    requires first { input.old.position
        ≡ max input.old.asked.slice.start input.old.asked.span.start }
    ensures listed { IfOk result (λ found. Lists program.now
        (search_of of.now.utf8_empty input.old) of.now.start of.now.slot_len false
        input.old.asked.span.start input.old.asked.span.start
        (map outcome_of_listed found.items)) }
    ensures same { IsSameContent input.old.cursor input.new.cursor }
    ensures asked { input.new.asked ≡ input.old.asked }
    ensures refused { IfErr result (λ error. error ≡ MatchError.Memory) }
    ensures counted { (utf8_empty : Bool) → read.new
        ≤ read.old + 5 * places_in (search_of utf8_empty input.old) }
{
    let mut progress = Progress {
        found: Vec::new(alloc),
        from: input.start(),
        after: false,
    };
    loop {
        let at = input.position();
        let found = find_at(walk, program, input, blocks, of, progress.from, read)?;
        let end = progress.take(alloc, at, found, walk.stepper.slots())?;
        if !go_on(input, at, end) {
            return Ok(progress.found);
        }
    }
}

/// Lists all matches of a program inside an input's span and slice, leftmost first, each with
/// `slot_len` slots: the finds, each from the end of the match before, skipping an empty match at
/// that end. `utf8_empty` skips empty matches inside a character.
///
/// # Errors
///
/// `Memory`.
///
/// # Complexity
///
/// The backward pass finds the leading nodes at each offset. It keeps their sets at distances of
/// the square root of the span's length, and at least 4,096 bytes; those between are recomputed,
/// one block at a time, as the list reaches them. Memory is allocated for the matches; for lists of
/// the program's nodes and epsilon transitions; for at most 500 known sets of nodes, each with four
/// kilobytes; and for each offset of one block and for each distance a pointer, and one bit for
/// each node of the program if the set isn't known.
///
/// `read` counts each offset that is read: once backward, at most once more for the blocks, and
/// forward where a match may start and along each walk. With assertions, up to four bytes on each
/// side are read with it. However far single searches would read, at most six times the number of
/// offsets inside span, slice and haystack are read, also after an error.
pub fn list_matches<C: Cursor>(
    alloc: Global,
    program: &Program,
    slot_len: usize,
    input: &mut Input<C>,
    utf8_empty: bool,
    read: &mut Counter,
) -> Result<Vec<ListedMatch>, MatchError>
    ensures listed { IfOk result (λ found. AreAllMatches program.now
        (search_of utf8_empty input.old) slot_len found.items) }
    ensures same { IsSameContent input.old.cursor input.new.cursor }
    ensures asked { input.new.asked ≡ input.old.asked }
    ensures refused { IfErr result (λ error. error ≡ MatchError.Memory) }
    ensures counted { read.new
        ≤ read.old + 6 * places_in (search_of utf8_empty input.old) }
{
    let Some(start) = start_state(program, input.get_anchored()) else {
        return Ok(Vec::new(alloc));
    };
    // Laws, for the proof only.
    program.walks_are_those_of_characters();
    byte_listings_are_matches::<CharacterSet, Option<NonMaxUsize>>();
    if !enter_last(input) {
        return Ok(Vec::new(alloc));
    }
    let mut blocks = Blocks::new(alloc, program, input, read)?;
    let mut walk = Walk::new(alloc, program)?;
    let of = Walking {
        start,
        slot_len,
        utf8_empty,
    };
    list_all(alloc, &mut walk, program, input, &mut blocks, &of, read)
}
