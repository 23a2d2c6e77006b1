//! Backward searches with the automaton of a reverse program, from the end of the span, or of the
//! haystack if that is less. Offsets are counted from the span's end and bytes are reversed, so the
//! loop over bytes is that of forward searches.

ghost use Rattle.std.specs.Prelude.{◌≡◌, ◌-◌, ◌<◌, ◌≤◌, ℕ, Bool, IsTrue, true, false, None, Some, get_or, length, min, take, IfErr, IfOk, OnOk};
ghost use Rattle.rx_util.specs.declared.search.MatchError.{MatchError};
ghost use Rattle.rx_walks.specs.Backward.{end_in_content};
ghost use Rattle.rx_walks.specs.Finds.{IsInside, Search, is_anchored};
ghost use Rattle.rx_walks.specs.ProgramFinds.{lowest, start_node};
ghost use Rattle.rx_input.specs.Cursors.{IsSameContent};
ghost use Rattle.rx_input.specs.Inputs.{IsMoved};
ghost use Rattle.rx_program.specs.Programs.{ByteProgram, character_program};
ghost use Rattle.rx_program.specs.Reversed.{IsReverseByteProgram};
ghost use Rattle.rx_steps.specs.Reversed.{IsHalfAnswerBack, IsReverseOf};
ghost use Rattle.rx_steps.specs.Searching.{anchoring_of, search_of};
ghost use Rattle.rx_dfa.specs.Alphabets.{IsAlphabetBack};
ghost use Rattle.rx_dfa.specs.Automata.{ReadsBack, directed};
ghost use Rattle.rx_dfa.specs.Back.{HasEndedBack, IsFirstColumn, IsLazyRefusalBack, IsRefusalBackBy, StandBefore, StandsBack, StopsBack, best_from, placed_error};
ghost use Rattle.rx_dfa.specs.Behind.{quits};
ghost use Rattle.rx_dfa.specs.Caches.{GivesUpLate, IsCacheOf};
ghost use Rattle.rx_dfa.specs.Directions.{backward};
ghost use Rattle.rx_dfa.specs.Searching.{byte_before};
ghost use Rattle.rx_dfa.specs.Tables.{IsTable};

use crate::alphabet::Alphabet;
use crate::automaton::{Automaton, Way};
use crate::cache::Cache;
use crate::scan::scan;
use crate::search::{byte_behind, byte_seen, last_end, may_begin, seen_class};
use crate::states::{Starting, last_met};
use crate::table::Table;
use rx_input::{Cursor, Input};
use rx_program::ReverseProgram;
use rx_steps::{enter_end, start_back, told_back};
use rx_util::{HalfMatch, MatchError, StateID};

/// The number of bytes that are reversed at once.
const TURNED: usize = 64;
/// That number at the start of a backward search, because most matches are short.
const TURNED_FIRST: usize = 16;

/// Returns the last bytes of a chunk in reverse order, at most `TURNED`, and their number.
fn turned(piece: &[u8]) -> ([u8; TURNED], usize)
    ensures long { length result.0 ≡ TURNED }
    ensures len { result.1 ≡ min (length piece.now) TURNED }
    ensures each { (k : ℕ) → k < result.1
        → get_or result.0 k 0 ≡ get_or piece.now (length piece.now - 1 - k) 0 }
{
    let len = piece.len().min(TURNED);
    let mut bytes = [0_u8; TURNED];
    for index in 0..len {
        bytes[index] = piece[piece.len() - 1 - index];
    }
    (bytes, len)
}

/// Returns the number of bytes to reverse before an offset in a span with this end.
fn few_at(at: usize, end: usize) -> usize
    ensures some { 0 < result }
    ensures few { result ≤ TURNED }
{
    if at < end { TURNED } else { TURNED_FIRST }
}

/// Returns the lowest offset of the search: the greater start of span and slice.
fn first_place<C: Cursor>(input: &Input<C>) -> usize
    ensures { (utf8_empty : Bool) → result ≡ lowest (search_of utf8_empty input.now) }
{
    input.start().max(input.get_slice().start)
}

/// Returns bytes before the input's position in reverse order, from one chunk and not below the
/// lowest offset, and their number. May move the input to another chunk.
fn bytes_before<C: Cursor>(input: &mut Input<C>) -> ([u8; TURNED], usize)
    ensures stand { (utf8_empty : Bool)
        → IsInside (search_of utf8_empty input.old) input.old.position
        → StandBefore (search_of utf8_empty input.old) input.old.position
        (take result.1 result.0) }
    ensures some { (utf8_empty : Bool)
        → IsInside (search_of utf8_empty input.old) input.old.position
        → lowest (search_of utf8_empty input.old) < input.old.position → 0 < result.1 }
    ensures long { length result.0 ≡ TURNED }
    ensures len { result.1 ≤ TURNED }
    ensures same { IsMoved input.old input.new input.new.position input.old.asked }
{
    let at = input.position();
    let first = first_place(input);
    if at <= first {
        return ([0; TURNED], 0);
    }
    input.move_to(at - 1);
    let piece = input.chunk();
    let end = input.chunk_pos().saturating_add(1).min(piece.len());
    let inside = end.min(at - first);
    let few = inside.min(few_at(at, input.end()));
    turned(&piece[end - few..end])
}

/// Returns the column whose step gives the match that starts at the lowest offset, after this byte
/// of the slice.
fn first_column(automaton: &Automaton, seen: Option<u8>) -> usize
    requires { ReadsBack automaton.now }
    ensures { (s : Search) → (i : ℕ) → seen ≡ byte_before s i
        → quits automaton.now.alphabet.now.asked seen ≡ false
        → IsFirstColumn automaton.now s i result }
{
    let alphabet = automaton.alphabet;
    match seen {
        Some(byte) => seen_class(alphabet, byte),
        None => alphabet.end_column(true),
    }
}

/// Returns an error whose offset was counted backward from `end`, with its offset in the haystack.
fn placed_error(error: MatchError, end: usize) -> MatchError
    ensures { result ≡ placed_error end error }
{
    match error {
        MatchError::Quit { byte, offset } => MatchError::Quit {
            byte,
            offset: end.saturating_sub(offset).saturating_sub(1),
        },
        MatchError::GaveUp { offset } => MatchError::GaveUp {
            offset: end.saturating_sub(offset),
        },
        MatchError::Memory => MatchError::Memory,
        MatchError::UnsupportedAnchored { mode } => MatchError::UnsupportedAnchored { mode },
    }
}

/// Returns a match whose offset was counted backward from `end`, with its offset in the haystack.
fn placed(met: Option<HalfMatch>, end: usize) -> Option<HalfMatch>
    ensures { result ≡ best_from end met }
{
    match met {
        Some(met) => Some(HalfMatch::new(met.pattern(), end.saturating_sub(met.offset()))),
        None => None,
    }
}

/// Reads bytes before the input's position, in one chunk, down to a state at which the search is
/// over. Returns the state before them.
fn pass_back<T: Table, C: Cursor>(
    table: &mut T,
    automaton: &Automaton,
    input: &mut Input<C>,
    number: usize,
    met: &mut Option<HalfMatch>,
) -> Result<usize, MatchError>
    requires back { ReadsBack automaton.now }
    requires table { IsTable T.is_whole automaton.now (T.shown table.old) }
    requires number { number < length (T.shown table.old).states }
    requires inside { (utf8_empty : Bool)
        → IsInside (search_of utf8_empty input.old) input.old.position }
    ensures table { IsTable T.is_whole automaton.now (T.shown table.new) }
    ensures number { IfOk result (λ next. next < length (T.shown table.new).states) }
    ensures stands { IfOk result (λ next. (utf8_empty : Bool) → (q : ℕ)
        → IsInside (search_of utf8_empty input.old)
        (end_in_content (search_of utf8_empty input.old))
        → StandsBack automaton.now (search_of utf8_empty input.old) q input.old.position
        (T.shown table.old).states number met.old
        → StandsBack automaton.now (search_of utf8_empty input.old) q input.new.position
        (T.shown table.new).states next met.new) }
    ensures inside { OnOk result ((utf8_empty : Bool)
        → IsInside (search_of utf8_empty input.old) input.new.position) }
    ensures on { OnOk result ((utf8_empty : Bool)
        → lowest (search_of utf8_empty input.old) < input.old.position
        → input.new.position < input.old.position) }
    ensures same { IsMoved input.old input.new input.new.position input.old.asked }
    ensures refused { IfErr result (λ error. (utf8_empty : Bool)
        → StopsBack T.is_whole automaton.now.alphabet.now.asked
        (search_of utf8_empty input.old) error) }
    ensures late { IfErr result (GivesUpLate (T.shown table.new)) }
{
    let at = input.position();
    let end = input.end();
    let (bytes, len) = bytes_before(input);
    match scan(table, automaton, number, &bytes[..len], end - at, met) {
        Ok((next, passed)) => {
            input.move_to(at - passed);
            Ok(next)
        }
        Err(error) => Err(placed_error(error, end)),
    }
}

/// Makes the step at the lowest offset, where the input must be, and returns the best match.
fn finish_back<T: Table, C: Cursor>(
    table: &mut T,
    automaton: &Automaton,
    input: &mut Input<C>,
    number: usize,
    met: Option<HalfMatch>,
) -> Result<Option<HalfMatch>, MatchError>
    requires back { ReadsBack automaton.now }
    requires table { IsTable T.is_whole automaton.now (T.shown table.old) }
    requires number { number < length (T.shown table.old).states }
    requires inside { (utf8_empty : Bool)
        → IsInside (search_of utf8_empty input.old) input.old.position }
    requires first { (utf8_empty : Bool)
        → input.old.position ≡ lowest (search_of utf8_empty input.old) }
    ensures table { IsTable T.is_whole automaton.now (T.shown table.new) }
    ensures ended { IfOk result (λ best. (utf8_empty : Bool) → (q : ℕ)
        → IsInside (search_of utf8_empty input.old)
        (end_in_content (search_of utf8_empty input.old))
        → StandsBack automaton.now (search_of utf8_empty input.old) q input.old.position
        (T.shown table.old).states number met
        → HasEndedBack (directed automaton.now).bytes (search_of utf8_empty input.old) q best) }
    ensures same { IsMoved input.old input.new input.old.position input.old.asked }
    ensures refused { IfErr result (λ error. (utf8_empty : Bool)
        → StopsBack T.is_whole automaton.now.alphabet.now.asked
        (search_of utf8_empty input.old) error) }
    ensures late { IfErr result (GivesUpLate (T.shown table.new)) }
{
    let at = input.position();
    let end = input.end();
    let seen = byte_behind(input, true);
    if let Some(byte) = automaton.alphabet.byte_that_quits(seen) {
        return Err(MatchError::Quit {
            byte,
            offset: at - 1,
        });
    }
    let column = first_column(automaton, seen);
    match last_end(table, automaton, number, column, at) {
        Ok(ended) => Ok(placed(last_met(end - at, &ended, met), end)),
        Err(error) => Err(error),
    }
}

/// Searches backward from a state, starting at the input's position, which is the end of its span
/// or haystack.
fn follow_back<T: Table, C: Cursor>(
    table: &mut T,
    automaton: &Automaton,
    input: &mut Input<C>,
    first: usize,
) -> Result<Option<HalfMatch>, MatchError>
    requires back { ReadsBack automaton.now }
    requires table { IsTable T.is_whole automaton.now (T.shown table.old) }
    requires first { first < length (T.shown table.old).states }
    requires inside { (utf8_empty : Bool)
        → IsInside (search_of utf8_empty input.old) input.old.position }
    requires end { (utf8_empty : Bool)
        → input.old.position ≡ end_in_content (search_of utf8_empty input.old) }
    ensures table { IsTable T.is_whole automaton.now (T.shown table.new) }
    ensures ended { IfOk result (λ best. (utf8_empty : Bool) → (q : ℕ)
        → StandsBack automaton.now (search_of utf8_empty input.old) q input.old.position
        (T.shown table.old).states first None
        → HasEndedBack (directed automaton.now).bytes (search_of utf8_empty input.old) q best) }
    ensures same { IsSameContent input.old.cursor input.new.cursor }
    ensures asked { input.new.asked ≡ input.old.asked }
    ensures refused { IfErr result (λ error. (utf8_empty : Bool)
        → StopsBack T.is_whole automaton.now.alphabet.now.asked
        (search_of utf8_empty input.old) error) }
    ensures late { IfErr result (GivesUpLate (T.shown table.new)) }
{
    let end = input.end();
    let mut number = first;
    let mut met = None;
    loop {
        if table.known().is_over(number) {
            return Ok(placed(met, end));
        }
        if input.position() <= first_place(input) {
            return finish_back(table, automaton, input, number, met);
        }
        number = pass_back(table, automaton, input, number, &mut met)?;
    }
}

/// Searches backward from the end of the span or haystack, where the input must be, with threads
/// that start in this state of the program.
fn begin_back<T: Table, C: Cursor>(
    table: &mut T,
    automaton: &Automaton,
    input: &mut Input<C>,
    start: StateID,
) -> Result<Option<HalfMatch>, MatchError>
    requires back { ReadsBack automaton.now }
    requires table { IsTable T.is_whole automaton.now (T.shown table.old) }
    requires start { start_node (character_program (directed automaton.now).bytes)
        (anchoring_of input.old.asked.anchored) ≡ Some start }
    requires inside { (utf8_empty : Bool)
        → IsInside (search_of utf8_empty input.old) input.old.position }
    requires end { (utf8_empty : Bool)
        → input.old.position ≡ end_in_content (search_of utf8_empty input.old) }
    ensures table { IsTable T.is_whole automaton.now (T.shown table.new) }
    ensures ended { IfOk result (λ best. (utf8_empty : Bool)
        → HasEndedBack (directed automaton.now).bytes (search_of utf8_empty input.old) start
        best) }
    ensures same { IsSameContent input.old.cursor input.new.cursor }
    ensures asked { input.new.asked ≡ input.old.asked }
    ensures refused { IfErr result (λ error. (utf8_empty : Bool)
        → StopsBack T.is_whole automaton.now.alphabet.now.asked
        (search_of utf8_empty input.old) error) }
    ensures late { IfErr result (GivesUpLate (T.shown table.new)) }
{
    let at = input.position();
    let seen = byte_seen(input);
    if let Some(byte) = automaton.alphabet.byte_that_quits(seen) {
        return Err(MatchError::Quit { byte, offset: at });
    }
    let side = automaton.side(seen);
    match table.first(automaton, Starting::Once(start), side, at) {
        Ok(first) => follow_back(table, automaton, input, first),
        Err(error) => Err(error),
    }
}

/// Searches backward with a table: of the matches that end at the end of the span, or of the
/// haystack if that is less, returns the least start with the least pattern for it.
pub(crate) fn search_back<T: Table, C: Cursor>(
    table: &mut T,
    automaton: &Automaton,
    reverse: &ReverseProgram,
    input: &mut Input<C>,
    utf8_empty: bool,
) -> Result<Option<HalfMatch>, MatchError>
    requires back { ReadsBack automaton.now }
    requires reverse { directed automaton.now ≡ backward reverse.now }
    requires reads { IsReverseByteProgram reverse.now }
    requires table { IsTable T.is_whole automaton.now (T.shown table.old) }
    ensures table { IsTable T.is_whole automaton.now (T.shown table.new) }
    ensures answer { IfOk result (λ found. (p : ByteProgram) → IsReverseOf p reverse.now
        → IsHalfAnswerBack p (search_of utf8_empty input.old) found) }
    ensures anchored { OnOk result
        (IsTrue (is_anchored (anchoring_of input.old.asked.anchored))) }
    ensures same { IsSameContent input.old.cursor input.new.cursor }
    ensures asked { input.new.asked ≡ input.old.asked }
    ensures refused { IfErr result (IsRefusalBackBy T.is_whole
        automaton.now.alphabet.now.asked (search_of utf8_empty input.old)) }
    ensures late { IfErr result (GivesUpLate (T.shown table.new)) }
{
    let mode = input.get_anchored();
    if !mode.is_anchored() {
        return Err(MatchError::UnsupportedAnchored { mode });
    }
    if !enter_end(input) {
        return Ok(None);
    }
    let Some(start) = start_back(reverse, mode) else {
        return Ok(None);
    };
    let end = input.position();
    let may = may_begin(input, utf8_empty);
    let best = begin_back(table, automaton, input, start)?;
    Ok(told_back(best, end, may))
}

/// Searches backward with the automaton of a reverse program. Of the matches that end at the end of
/// the span, or of the haystack if that is less, and are inside span and slice, returns the least
/// start with the least pattern for it, as the forward program finds them. `utf8_empty` skips an
/// empty match inside a character.
///
/// # Requires
///
/// The cache is one of `Cache::new_back` for this program and alphabet. It remains one, also after
/// an error.
///
/// # Errors
///
/// - `UnsupportedAnchored` if the input isn't anchored
/// - `Memory`
/// - `Quit` for a byte of the slice that is 128 or more, with its offset, if the program has word
///   assertions
/// - `GaveUp`, with an offset inside, if the cache would be cleared for the fourth time in this
///   search
///
/// # Complexity
///
/// Reads from the end of the span to its start, or until no thread is left: a table lookup for each
/// byte whose step is known, and else a step of all threads.
pub fn try_search_back<C: Cursor>(
    reverse: &ReverseProgram,
    alphabet: &Alphabet,
    cache: &mut Cache,
    input: &mut Input<C>,
    utf8_empty: bool,
) -> Result<Option<HalfMatch>, MatchError>
    requires alphabet { IsAlphabetBack reverse.now alphabet.now }
    requires made { IsCacheOf (backward reverse.now) alphabet.now cache.old }
    ensures answer { IfOk result (λ found. (p : ByteProgram) → IsReverseOf p reverse.now
        → IsHalfAnswerBack p (search_of utf8_empty input.old) found) }
    ensures anchored { OnOk result
        (IsTrue (is_anchored (anchoring_of input.old.asked.anchored))) }
    ensures made { IsCacheOf (backward reverse.now) alphabet.now cache.new }
    ensures same { IsSameContent input.old.cursor input.new.cursor }
    ensures asked { input.new.asked ≡ input.old.asked }
    ensures refused { IfErr result
        (IsLazyRefusalBack alphabet.now.asked (search_of utf8_empty input.old)) }
    ensures late { IfErr result (GivesUpLate cache.new) }
{
    let automaton = Automaton {
        way: Way::Back(reverse),
        alphabet,
    };
    search_back(cache, &automaton, reverse, input, utf8_empty)
}
