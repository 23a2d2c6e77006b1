//! The literal that all matches of a program are.

ghost use Rattle.std.specs.Prelude.{◌≡◌, [], ◌∷◌, IfOk, IfSome, IsTrue, OnOk, Some, slice_get, string_bytes};
ghost use Rattle.std.specs.Option.{ForSome};
ghost use Rattle.rx_walks.specs.Programs.{match, note};
ghost use Rattle.rx_program.specs.Programs.{character_program};
ghost use Rattle.rx_literals.specs.Literals.{IsLiteralOf};
ghost use Rattle.rx_literals.specs.Spellings.{IsOnlyMember, NotesEnd, ReadsOnly, SpellsLiteral};

use crate::prefilter::Prefilter;
use rx_program::{Program, State};
use rx_sets::{Range, from_ordinal};
use rx_util::{MatchKind, PatternID, StateID};
use std::alloc::{AllocError, Global};

/// The maximum number of characters of a literal: a needle has no more bytes.
const CHARACTERS: usize = 64;

/// Returns the only member of a set of ranges, if there is only one.
fn only_member(ranges: &[Range]) -> Option<char>
    ensures { IfSome result (IsOnlyMember ranges.now) }
{
    if ranges.len() != 1 || ranges[0].0 != ranges[0].1 {
        return None;
    }
    from_ordinal(ranges[0].0)
}

/// Returns the character that the state with this number reads, if that is the only one, and the
/// state to which it leads.
pub(crate) fn read_at(program: &Program, at: StateID) -> Option<(char, StateID)>
    ensures { IfSome result (λ read. ReadsOnly
        (slice_get (character_program program.now).nodes at) read.0 read.1) }
{
    match program.states().get(at.as_usize()) {
        Some(State::Ranges(automaton, next)) => {
            let c = only_member(automaton.ranges())?;
            Some((c, *next))
        }
        _ => None,
    }
}

/// Returns the state to which the state with this number leads, if it notes an offset in this slot.
fn behind_note(program: &Program, at: StateID, slot: usize) -> Option<StateID>
    ensures { IfSome result (λ next. slice_get (character_program program.now).nodes at
        ≡ Some (note slot next)) }
{
    match program.states().get(at.as_usize()) {
        Some(State::Capture(noted, next)) if *noted == slot => Some(*next),
        _ => None,
    }
}

/// Returns whether a match of the first pattern ends at the state with this number.
fn is_match(program: &Program, at: StateID) -> bool
    ensures { IsTrue result → slice_get (character_program program.now).nodes at ≡ Some (match 0) }
{
    match program.states().get(at.as_usize()) {
        Some(State::Match(pattern)) => *pattern == PatternID::ZERO,
        _ => false,
    }
}

/// Returns whether the state with this number notes the end, and then the match ends.
fn notes_end(program: &Program, at: StateID) -> bool
    ensures { IsTrue result → NotesEnd (character_program program.now) at }
{
    match behind_note(program, at, 1) {
        Some(last) => is_match(program, last),
        None => false,
    }
}

/// The literal that each walk reads from the start, as far as it was read, and the state after it.
#[derive(Drop)]
struct Spelling {
    literal: String,
    at: StateID,
}

impl Spelling {
    /// Advances by one state, and returns whether it reads exactly one character.
    fn step(&mut self, program: &Program) -> Result<bool, AllocError>
        ensures { OnOk result
            (SpellsLiteral (character_program program.now)
            (string_bytes self.old.literal) self.old.at
            → SpellsLiteral (character_program program.now)
            (string_bytes self.new.literal) self.new.at) }
    {
        match read_at(program, self.at) {
            Some(read) => {
                self.literal.push(read.0)?;
                self.at = read.1;
                Ok(true)
            }
            None => Ok(false),
        }
    }
}

/// Returns the literal that walks read from the start, and the state after it; `None` if they don't
/// first note where they begin.
fn spelled(alloc: Global, program: &Program) -> Result<Option<Spelling>, AllocError>
    ensures { IfOk result (λ spelled. IfSome spelled (λ spelling.
        SpellsLiteral (character_program program.now)
        (string_bytes spelling.literal) spelling.at)) }
{
    let at = match behind_note(program, program.start(), 0) {
        Some(at) => at,
        None => return Ok(None),
    };
    let mut spelling = Spelling {
        literal: String::new(alloc),
        at,
    };
    for _ in 0..CHARACTERS {
        if !spelling.step(program)? {
            return Ok(Some(spelling));
        }
    }
    Ok(Some(spelling))
}

/// Returns the literal that each match is, or `None` if none is found.
fn only_literal(alloc: Global, program: &Program) -> Result<Option<String>, AllocError>
    ensures { IfOk result (λ made. IfSome made
        (λ literal. IsLiteralOf (string_bytes literal ∷ []) (character_program program.now))) }
{
    let spelling = match spelled(alloc, program)? {
        Some(spelling) => spelling,
        None => return Ok(None),
    };
    if !notes_end(program, spelling.at) {
        return Ok(None);
    }
    Ok(Some(spelling.literal))
}

impl Prefilter {
    /// Returns a prefilter of the literal that each match of a program is, or `None` if none is
    /// found. The pattern must consist of single characters, without a group, a look-around
    /// assertion or a repetition, and have at most 64 bytes.
    ///
    /// # Errors
    ///
    /// Out of memory.
    ///
    /// # Complexity
    ///
    /// Time for at most 67 states.
    pub fn of_literal(alloc: Global, program: &Program) -> Result<Option<Prefilter>, AllocError>
        ensures { IfOk result (λ made. ForSome made
            (λ prefilter. IsLiteralOf prefilter (character_program program.now))) }
    {
        match only_literal(alloc, program)? {
            Some(literal) => {
                Prefilter::new(alloc, MatchKind::LeftmostFirst, &[literal.as_bytes()])
            }
            None => Ok(None),
        }
    }
}
