//! Finds the first offset at which a match can begin, and checks whether one begins there. If so,
//! its start is known, and no backward search is needed.

ghost use Rattle.std.specs.Prelude.{◌≡◌, ◌≤◌, IfErr, IfOk, IfSome, true};
ghost use Rattle.rx_util.specs.declared.search.Anchored.TheVariants.{No};
ghost use Rattle.rx_util.specs.declared.search.MatchError.{MatchError};
ghost use Rattle.rx_input.specs.Cursors.{IsSameContent};
ghost use Rattle.rx_literals.specs.ByteSets.{HasNoMemberBetween};
ghost use Rattle.rx_literals.specs.Needles.{bytes_to_end};
ghost use Rattle.regex_cursor.specs.Backs.{IsWhole};
ghost use Rattle.regex_cursor.specs.Regexes.{search_by};
ghost use Rattle.regex_cursor.specs.Strategies.{AreKeptFor, IsLeft, IsStart};

use super::cache::Kept;
use super::left::{Left, Start, Told};
use super::strategy::Strategy;
use rx_input::{Cursor, Input};
use rx_literals::ByteSet;
use rx_matches::halves::whole;
use rx_util::{Anchored, Match, MatchError};

/// Returns where a match can begin: at the first byte that matches begin with, if these bytes are
/// known and the search isn't anchored. They are searched for if they are rare, or if `tries` says
/// that a match mostly begins at the first one. The position may move.
pub(super) fn first_byte<C: Cursor>(strategy: &Strategy, input: &mut Input<C>, tries: bool) -> Start
    requires ordered { input.old.asked.span.start ≤ input.old.asked.span.end }
    ensures start { IsStart strategy.now.vm.program (search_by strategy.now.vm input.old) result }
    ensures asked { input.new.asked ≡ input.old.asked }
    ensures same { IsSameContent input.old.cursor input.new.cursor }
{
    match strategy.first_bytes() {
        Some(bytes) if !input.get_anchored().is_anchored() && (tries || bytes.is_rare()) => {
            match bytes.find(input) {
                Some(place) => Start::From(place),
                None => Start::Nowhere,
            }
        }
        _ => Start::From(input.start()),
    }
}

/// Returns the offset of the first of these bytes in an input's span, or the span's end. The
/// position may move.
pub(super) fn no_byte_before<C: Cursor>(bytes: &ByteSet, input: &mut Input<C>) -> usize
    ensures none { HasNoMemberBetween bytes.now (bytes_to_end input.old)
        input.old.asked.span.start result }
    ensures within { result ≤ input.old.asked.span.end }
    ensures asked { input.new.asked ≡ input.old.asked }
    ensures same { IsSameContent input.old.cursor input.new.cursor }
{
    match bytes.find(input) {
        Some(place) => place,
        None => input.end(),
    }
}

/// Returns what the automaton leaves of a search. If it is likely that a match begins at the span's
/// start, that is tried first. The one error is `Memory`.
pub(super) fn ask_forward<C: Cursor>(
    strategy: &Strategy,
    kept: &mut Kept,
    input: &mut Input<C>,
) -> Result<Left, MatchError>
    requires ordered { input.old.asked.span.start ≤ input.old.asked.span.end }
    requires serve { AreKeptFor strategy.now kept.old }
    ensures left { IfOk result
        (IsLeft strategy.now.vm.program (search_by strategy.now.vm input.old)) }
    ensures serve { AreKeptFor strategy.now kept.new }
    ensures core { kept.new.core ≡ kept.old.core }
    ensures asked { input.new.asked ≡ input.old.asked }
    ensures same { IsSameContent input.old.cursor input.new.cursor }
    ensures refused { IfErr result (λ error. error ≡ MatchError.Memory) }
{
    if !is_likely_here(strategy, kept, input) {
        return ask_part(strategy, kept, input);
    }
    match match_here(strategy, kept, input)? {
        Some(found) => Ok(Left::Found(found)),
        None => ask_part(strategy, kept, input),
    }
}

/// Returns whether a match is likely to begin at the span's start: the search isn't anchored, it is
/// known with what matches begin, and tries mostly succeeded.
fn is_likely_here<C: Cursor>(strategy: &Strategy, kept: &Kept, input: &Input<C>) -> bool
    ensures { result ≡ true → input.now.asked.anchored ≡ No }
{
    match input.get_anchored() {
        Anchored::No => kept.may_try() && strategy.knows_beginnings() && !input.get_earliest(),
        Anchored::Yes | Anchored::Pattern(_) => false,
    }
}

/// Returns the match that is found in an input that isn't anchored, if it begins at the span's
/// start: an anchored search by the automaton finds its end. `None` if no match begins there, or if
/// the automaton gives up. The one error is `Memory`.
fn match_here<C: Cursor>(
    strategy: &Strategy,
    kept: &mut Kept,
    input: &mut Input<C>,
) -> Result<Option<Match>, MatchError>
    requires serve { AreKeptFor strategy.now kept.old }
    requires unanchored { input.old.asked.anchored ≡ No }
    ensures whole { IfOk result (λ found. IfSome found
        (IsWhole strategy.now.vm.program strategy.now.vm.utf8_empty input.old)) }
    ensures serve { AreKeptFor strategy.now kept.new }
    ensures core { kept.new.core ≡ kept.old.core }
    ensures asked { input.new.asked ≡ input.old.asked }
    ensures same { IsSameContent input.old.cursor input.new.cursor }
    ensures refused { IfErr result (λ error. error ≡ MatchError.Memory) }
{
    let start = input.start();
    input.set_anchored(Anchored::Yes);
    let told = strategy.ask_automaton(kept, input);
    input.set_anchored(Anchored::No);
    if let Told::Ends(half) = told? {
        if start <= half.offset() {
            kept.note_success();
            return Ok(Some(whole(half, start)));
        }
    }
    kept.note_failure(input.position().saturating_sub(start));
    Ok(None)
}

/// Returns what is left of a search after the automaton found where the match ends: the part of the
/// span up to there. The one error is `Memory`.
fn ask_part<C: Cursor>(
    strategy: &Strategy,
    kept: &mut Kept,
    input: &mut Input<C>,
) -> Result<Left, MatchError>
    requires ordered { input.old.asked.span.start ≤ input.old.asked.span.end }
    requires serve { AreKeptFor strategy.now kept.old }
    ensures left { IfOk result
        (IsLeft strategy.now.vm.program (search_by strategy.now.vm input.old)) }
    ensures serve { AreKeptFor strategy.now kept.new }
    ensures core { kept.new.core ≡ kept.old.core }
    ensures asked { input.new.asked ≡ input.old.asked }
    ensures same { IsSameContent input.old.cursor input.new.cursor }
    ensures refused { IfErr result (λ error. error ≡ MatchError.Memory) }
{
    let rest = input.get_span();
    let told = strategy.ask_automaton(kept, input)?;
    Ok(told.left_in(rest))
}
