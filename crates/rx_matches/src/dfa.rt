//! The engine with a dense automaton, whose states are all computed when it is built.

ghost use Rattle.std.specs.Prelude.{◌≡◌, ◌+◌, ◌≤◌, IfOk, IfErr, ℕ};
ghost use Rattle.rx_util.specs.declared.search.Anchored.TheVariants.{No};
ghost use Rattle.rx_util.specs.declared.search.MatchError.{MatchError};
ghost use Rattle.rx_walks.specs.Backward.{back_from};
ghost use Rattle.rx_steps.specs.Reversed.{IsHalfAnswerBack};
ghost use Rattle.std.specs.Option.{ForSome};
ghost use Rattle.rx_input.specs.Cursors.{IsSameContent};
ghost use Rattle.rx_input.specs.Searchers.{EndsInside};
ghost use Rattle.rx_steps.specs.Searching.{search_of};
ghost use Rattle.rx_dfa.specs.Alphabets.{IsAlphabetOf};
ghost use Rattle.rx_chunk.specs.Engines.{Finds, IsFound};
ghost use Rattle.rx_chunk.specs.Iterating.{EndsAhead, IsFoundNext, StartsFrom, matches_from};
ghost use Rattle.rx_matches.specs.Matches.{IsDenseRefusal, dense_engine, dense_left};

use crate::halves::{is_empty_at_last, starts_first, turn_back, turn_forward, whole};
use rx_input::{Cursor, Input};
use rx_util::{HalfMatch, Match, MatchError};

mod find_matches;

pub use find_matches::FindMatches;
pub use rx_dfa::dense::{Regex, try_search_fwd, try_search_rev};

/// Searches backward from the end of a match, in an input that isn't anchored.
///
/// # Errors
///
/// `Memory`.
fn search_back<C: Cursor>(
    re: &Regex,
    input: &mut Input<C>,
    end: usize,
) -> Result<Option<HalfMatch>, MatchError>
    requires unanchored { input.old.asked.anchored ≡ No }
    requires end { input.old.asked.span.start ≤ end + 1 }
    requires span { input.old.asked.span.start ≤ input.old.asked.span.end + 1 }
    ensures answer { IfOk result (IsHalfAnswerBack re.now.engine.program
        (back_from (search_of re.now.engine.utf8_empty input.old) end)) }
    ensures same { IsSameContent input.old.cursor input.new.cursor }
    ensures asked { input.new.asked ≡ input.old.asked }
    ensures refused { IfErr result (λ error. error ≡ MatchError.Memory) }
{
    let last = turn_back(input, end);
    let back = try_search_rev(re, input);
    turn_forward(input, last);
    back
}

/// Searches forward for the end of the match that is found, and from there backward for its start,
/// and returns that match. It ends in the span. An anchored input, or an empty match at the span's
/// start, needs no backward search.
///
/// # Errors
///
/// Those of `try_search_fwd` and `try_search_rev`:
///
/// - `Quit` for a byte of the slice that is 128 or more, if the program has word assertions (`dfa`:
///   it contains `\b` or `\B`)
/// - `Memory`
pub fn try_search<C: Cursor>(re: &Regex, input: &mut Input<C>) -> Result<Option<Match>, MatchError>
    ensures answer { IfOk result (IsFound (Finds re.now.engine.program)
        (search_of re.now.engine.utf8_empty input.old)) }
    ensures inside { IfOk result
        (λ found. ForSome found (λ m. EndsInside input.old m.span.end)) }
    ensures same { IsSameContent input.old.cursor input.new.cursor }
    ensures asked { input.new.asked ≡ input.old.asked }
    ensures refused { IfErr result (IsDenseRefusal re.now.automaton.dfa.asked
        (search_of re.now.engine.utf8_empty input.old)) }
    ensures dfa { IsAlphabetOf re.now.engine.program re.now.automaton.dfa }
{
    let _at = input.position(); // for the proof: how long the haystack may be
    let Some(half) = try_search_fwd(re, input)? else {
        return Ok(None);
    };
    let end = half.offset();
    if starts_first(input, end) {
        return Ok(Some(whole(half, input.start())));
    }
    let Some(back) = search_back(re, input, end)? else {
        return Ok(None);
    };
    Ok(Some(whole(half, back.offset())))
}

/// Returns the match that is found, as `try_search` does, with the same errors.
pub fn find<C: Cursor>(re: &Regex, input: &mut Input<C>) -> Result<Option<Match>, MatchError>
    ensures answer { IfOk result (IsFound (Finds re.now.engine.program)
        (search_of re.now.engine.utf8_empty input.old)) }
    ensures inside { IfOk result
        (λ found. ForSome found (λ m. EndsInside input.old m.span.end)) }
    ensures same { IsSameContent input.old.cursor input.new.cursor }
    ensures asked { input.new.asked ≡ input.old.asked }
    ensures refused { IfErr result (IsDenseRefusal re.now.automaton.dfa.asked
        (search_of re.now.engine.utf8_empty input.old)) }
    ensures dfa { IsAlphabetOf re.now.engine.program re.now.automaton.dfa }
{
    try_search(re, input)
}

/// Returns the next match after one that ended at `last_match_end`. An empty match there is
/// skipped, and the search continues one byte after the start of the span.
fn find_next<C: Cursor>(
    re: &Regex,
    input: &mut Input<C>,
    last_match_end: Option<usize>,
) -> Result<Option<Match>, MatchError>
    ensures answer { IfOk result (λ found. IsFoundNext (Finds re.now.engine.program)
        (search_of re.now.engine.utf8_empty input.old) last_match_end found) }
    ensures ahead { IfOk result (λ found. ForSome found (λ m. EndsAhead last_match_end
        (search_of re.now.engine.utf8_empty input.old) m.span.end)) }
    ensures same { (start : ℕ) × StartsFrom input.old input.new start }
    ensures refused { IfErr result (IsDenseRefusal re.now.automaton.dfa.asked
        (search_of re.now.engine.utf8_empty input.old)) }
    ensures dfa { IsAlphabetOf re.now.engine.program re.now.automaton.dfa }
{
    let Some(found) = try_search(re, input)? else {
        return Ok(None);
    };
    if !is_empty_at_last(&found, last_match_end) {
        return Ok(Some(found));
    }
    let start = input.start();
    input.set_start(start + 1);
    try_search(re, input)
}

/// Returns an iterator over the matches in an input. An empty match at the end of the one before is
/// skipped; after an error, which is one of `try_search`, it ends.
pub fn find_iter<'r, C: Cursor>(re: &'r Regex, input: Input<C>) -> FindMatches<'r, C>
    ensures left { dense_left result
        ≡ matches_from (search_of re.now.engine.utf8_empty input) }
    ensures engine { dense_engine result ≡ re.now }
{
    FindMatches::new(re, input)
}
