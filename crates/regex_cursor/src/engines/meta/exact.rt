//! The matches of a pattern that is one literal, found from one occurrence to the next, without an
//! engine or a cache.

ghost use Rattle.std.specs.Prelude.{◌≡◌, ℕ, IsTrue, Option};
ghost use Rattle.rx_util.specs.declared.search.Anchored.TheVariants.{No};
ghost use Rattle.rx_util.specs.declared.search.MatchKind.{MatchKind};
ghost use Rattle.rx_input.specs.Cursors.{IsSameContent};
ghost use Rattle.rx_program.specs.Programs.{character_program};
ghost use Rattle.rx_literals.specs.Literals.{IsLiteralOf};
ghost use Rattle.rx_chunk.specs.Engines.{Engine, EngineFinds};
ghost use Rattle.rx_chunk.specs.Iterating.{IsFoundNext};
ghost use Rattle.regex_cursor.specs.Linear.{TellsWhatComes};
ghost use Rattle.regex_cursor.specs.Literals.{AsksInSlice};
ghost use Rattle.regex_cursor.specs.Regexes.{search_by};

use super::left::{find_literal, put_match};
use super::regex::Regex;
use rx_input::{Cursor, Input};
use rx_literals::Prefilter;
use rx_steps::clear_slots;
use rx_util::{Anchored, HalfMatch, Match, NonMaxUsize, PatternID};

/// Returns whether an input requests matches anywhere in a span that is inside its slice, so that
/// each occurrence of a literal in the span is a match.
pub(super) fn asks_in_slice<C: Cursor>(input: &Input<C>) -> bool
    ensures { IsTrue result → AsksInSlice input.now.asked }
{
    let (span, slice) = (input.get_span(), input.get_slice());
    match input.get_anchored() {
        Anchored::No => slice.start <= span.start && span.end <= slice.end,
        _ => false,
    }
}

/// Returns the next match in an input, if the matches are the occurrences of a literal: the first
/// one in the span.
pub(super) fn find_occurrence<C: Cursor>(needle: &Prefilter, input: &mut Input<C>) -> Option<Match>
    requires asks { AsksInSlice input.old.asked }
    ensures answer { (e : Engine) (last : Option ℕ) → e.match_kind ≡ MatchKind.LeftmostFirst
        → IsLiteralOf needle.now (character_program e.program)
        → IsFoundNext (EngineFinds e) (search_by e input.old) last result }
    ensures same { IsSameContent input.old.cursor input.new.cursor }
    ensures asked { input.new.asked ≡ input.old.asked }
{
    match find_literal(needle, input) {
        Some(span) => Some(Match::new(PatternID::ZERO, span)),
        None => None,
    }
}

/// Returns the pattern and the end of the next match, if the matches are the occurrences of a
/// literal: the first one in the span. Writes its offsets into the slots; all others are empty.
/// Also returns where the bytes that were read end. The regex and the last match's end are for the
/// contract only.
pub(super) fn next_occurrence<C: Cursor>(
    _re: &Regex,
    needle: &Prefilter,
    input: &mut Input<C>,
    slots: &mut [Option<NonMaxUsize>],
    _last_end: Option<usize>,
) -> (Option<HalfMatch>, usize)
    requires literal { IsLiteralOf needle.now (character_program _re.now.engine.program) }
    requires first { _re.now.engine.match_kind ≡ MatchKind.LeftmostFirst }
    requires asks { AsksInSlice input.old.asked }
    ensures answer { TellsWhatComes (EngineFinds _re.now.engine)
        (search_by _re.now.engine input.old) _last_end result.0 slots.new }
    ensures same { IsSameContent input.old.cursor input.new.cursor }
    ensures asked { input.new.asked ≡ input.old.asked }
{
    let _at = input.position(); // for the proof: how long the haystack may be
    match find_literal(needle, input) {
        Some(span) => {
            put_match(slots, span);
            (Some(HalfMatch::new(PatternID::ZERO, span.end)), span.end)
        }
        None => {
            clear_slots(slots);
            (None, input.end())
        }
    }
}
