//! Forward searches with an automaton.

ghost use Rattle.std.specs.Prelude.{◌≡◌, ◌↔◌, ◌+◌, ◌<◌, ℕ, Bool, IsTrue, true, false, Option, Some, None, length, slice_get, IfSome, IfOk, IfErr, OnOk};
ghost use Rattle.std.specs.Str.{IsCharBoundary};
ghost use Rattle.rx_walks.specs.Finds.{IsInside};
ghost use Rattle.rx_walks.specs.ProgramFinds.{start_node, lowest, highest};
ghost use Rattle.rx_input.specs.Cursors.{IsSameContent};
ghost use Rattle.rx_input.specs.Inputs.{IsMoved};
ghost use Rattle.rx_program.specs.Programs.{IsByteProgram, character_program};
ghost use Rattle.rx_steps.specs.Searching.{search_of, anchoring_of};
ghost use Rattle.rx_dfa.specs.Automata.{IsAutomaton, ReadsForward, directed};
ghost use Rattle.rx_dfa.specs.declared.states.AutomatonState.{AutomatonState};
ghost use Rattle.rx_dfa.specs.Behind.{quits};
ghost use Rattle.rx_dfa.specs.Directions.{forward};
ghost use Rattle.rx_dfa.specs.States.{EndsSo};
ghost use Rattle.rx_dfa.specs.Classes.{class_of};
ghost use Rattle.rx_dfa.specs.Alphabets.{IsAlphabetOf, ahead_in, column_count};
ghost use Rattle.rx_dfa.specs.Caches.{GivesUpLate, IsCacheOf};
ghost use Rattle.rx_dfa.specs.Passing.{IsLastColumn, StandThere, SearchStandsAt, IsRefusal, search_by};
ghost use Rattle.rx_dfa.specs.Searching.{StartsSo, IsHalfAnswer, byte_before, byte_after};
ghost use Rattle.rx_dfa.specs.Tables.{IsLack, IsRefusalBy, IsTable};

use crate::alphabet::Alphabet;
use crate::automaton::{Automaton, Way};
use crate::cache::Cache;
use crate::scan::scan;
use crate::states::{Starting, last_met};
use crate::table::Table;
use rx_input::{Cursor, Input};
use rx_program::Program;
use rx_steps::{enter, last_place, start_state};
use rx_util::{HalfMatch, MatchError, PatternID, StateID};

/// Returns the bytes from the input's position on, to the end of its chunk or of the search.
fn bytes_ahead<C: Cursor>(input: &Input<C>) -> &[u8]
    ensures stand { (utf8_empty : Bool)
        → IsInside (search_of utf8_empty input.now) input.now.position
        → StandThere (search_of utf8_empty input.now) input.now.position result.now }
    ensures some { (utf8_empty : Bool)
        → IsInside (search_of utf8_empty input.now) input.now.position
        → input.now.position < highest (search_of utf8_empty input.now)
        → 0 < length result.now }
{
    let left = last_place(input).saturating_sub(input.position());
    let ahead = &input.chunk()[input.chunk_pos()..];
    &ahead[..left.min(ahead.len())]
}

/// Returns whether the input is at the highest offset of the search.
fn is_at_last<C: Cursor>(input: &Input<C>) -> bool
    ensures last { result ≡ true → (utf8_empty : Bool)
        → IsInside (search_of utf8_empty input.now) input.now.position
        → input.now.position ≡ highest (search_of utf8_empty input.now) }
    ensures before { result ≡ false → (utf8_empty : Bool)
        → IsInside (search_of utf8_empty input.now) input.now.position
        → input.now.position < highest (search_of utf8_empty input.now) }
{
    input.position() >= last_place(input) || input.chunk_pos() >= input.chunk().len()
}

/// Returns the byte of the slice at the input's position, if there is one.
pub(crate) fn byte_seen<C: Cursor>(input: &Input<C>) -> Option<u8>
    ensures { (utf8_empty : Bool)
        → result ≡ byte_after (search_of utf8_empty input.now) input.now.position }
{
    if input.position() < input.get_slice().end {
        input.chunk().get(input.chunk_pos()).copied()
    } else {
        None
    }
}

/// Returns whether a match may begin at the input's position.
pub(crate) fn may_begin<C: Cursor>(input: &Input<C>, utf8_empty: bool) -> bool
    ensures { IsTrue result
        ↔ (IsTrue utf8_empty → IsCharBoundary input.now.cursor.content input.now.position) }
{
    !utf8_empty || input.is_char_boundary()
}

/// Returns the class of a byte.
pub(crate) fn seen_class(alphabet: &Alphabet, byte: u8) -> usize
    ensures class { result ≡ class_of alphabet.now.classes byte }
    ensures byte { byte < 256 }
{
    alphabet.class(byte)
}

/// Returns the column whose step gives the match end at the highest offset, before this byte of the
/// slice.
fn last_column<C: Cursor>(automaton: &Automaton, input: &Input<C>, seen: Option<u8>) -> usize
    requires is { IsAutomaton automaton.now }
    requires forward { ReadsForward automaton.now }
    ensures { input.now.position ≡ highest (search_by automaton.now input.now)
        → seen ≡ byte_after (search_by automaton.now input.now) input.now.position
        → quits automaton.now.alphabet.now.asked seen ≡ false
        → IsLastColumn automaton.now (search_by automaton.now input.now) input.now.position
        result }
{
    let alphabet = automaton.alphabet;
    match seen {
        Some(byte) => seen_class(alphabet, byte),
        None => alphabet.end_column(may_begin(input, alphabet.utf8_empty())),
    }
}

/// Returns how threads start from the lowest offset on.
fn first_starting<C: Cursor>(input: &Input<C>, start: StateID) -> Starting
    ensures { (utf8_empty : Bool)
        → input.now.position ≡ lowest (search_of utf8_empty input.now)
        → StartsSo (search_of utf8_empty input.now) start input.now.position result None }
{
    if !input.get_anchored().is_anchored() {
        Starting::Always(start)
    } else if input.position() == input.start() {
        Starting::Once(start)
    } else {
        Starting::Never
    }
}

/// Returns the byte of the slice before the input's position, if its current chunk has it.
fn byte_shown_behind<C: Cursor>(input: &Input<C>) -> Option<u8>
    requires { input.now.asked.slice.start < input.now.position }
    ensures { IfSome result (λ byte. (utf8_empty : Bool)
        → byte_before (search_of utf8_empty input.now) input.now.position ≡ Some byte) }
{
    let index = input.chunk_pos();
    if index == 0 {
        return None;
    }
    input.chunk().get(index - 1).copied()
}

/// Returns the byte of the slice before the input's position, if there is one. The current chunk
/// may be another one afterwards.
fn byte_looked_behind<C: Cursor>(input: &mut Input<C>) -> Option<u8>
    ensures byte { (utf8_empty : Bool)
        → IsInside (search_of utf8_empty input.old) input.old.position
        → result ≡ byte_before (search_of utf8_empty input.old) input.old.position }
    ensures same { IsMoved input.old input.new input.old.position input.old.asked }
{
    input.look_around().before().last().copied()
}

/// Returns the byte of the slice before the input's position, if there is one and the program has
/// assertions. The current chunk may be another one afterwards.
pub(crate) fn byte_behind<C: Cursor>(input: &mut Input<C>, asks_looks: bool) -> Option<u8>
    ensures asked { asks_looks ≡ true → (utf8_empty : Bool)
        → IsInside (search_of utf8_empty input.old) input.old.position
        → result ≡ byte_before (search_of utf8_empty input.old) input.old.position }
    ensures unasked { asks_looks ≡ false → result ≡ None }
    ensures same { IsMoved input.old input.new input.old.position input.old.asked }
{
    if !asks_looks || input.position() <= input.get_slice().start {
        return None;
    }
    if let Some(byte) = byte_shown_behind(input) {
        return Some(byte);
    }
    byte_looked_behind(input)
}

/// Reads the bytes from the input's position on, in its chunk, up to a state at which the search is
/// over. Returns the state after them.
fn pass_piece<T: Table, C: Cursor>(
    table: &mut T,
    automaton: &Automaton,
    input: &mut Input<C>,
    number: usize,
    met: &mut Option<HalfMatch>,
) -> Result<usize, MatchError>
    requires is { IsAutomaton automaton.now }
    requires forward { ReadsForward automaton.now }
    requires table { IsTable T.is_whole automaton.now (T.shown table.old) }
    requires number { number < length (T.shown table.old).states }
    requires inside { IsInside (search_by automaton.now input.old) input.old.position }
    ensures table { IsTable T.is_whole automaton.now (T.shown table.new) }
    ensures number { IfOk result (λ next. next < length (T.shown table.new).states) }
    ensures stands { IfOk result (λ next. (q : ℕ)
        → SearchStandsAt automaton.now (search_by automaton.now input.old) q
        input.old.position (T.shown table.old).states number met.old
        → SearchStandsAt automaton.now (search_by automaton.now input.old) q
        input.new.position (T.shown table.new).states next met.new) }
    ensures inside { OnOk result
        (IsInside (search_by automaton.now input.old) input.new.position) }
    ensures on { OnOk result
        (input.old.position < highest (search_by automaton.now input.old)
        → input.old.position < input.new.position) }
    ensures same { IsMoved input.old input.new input.new.position input.old.asked }
    ensures refused { IfErr result
        (IsRefusalBy T.is_whole automaton.now (search_by automaton.now input.old)) }
    ensures late { IfErr result (GivesUpLate (T.shown table.new)) }
{
    let at = input.position();
    match scan(table, automaton, number, bytes_ahead(input), at, met) {
        Ok((next, passed)) => {
            input.move_to(at + passed);
            Ok(next)
        }
        Err(error) => Err(error),
    }
}

/// Returns the pattern whose match ends before the column's byte, which must not make the search
/// quit.
pub(crate) fn last_end<T: Table>(
    table: &mut T,
    automaton: &Automaton,
    number: usize,
    column: usize,
    at: usize,
) -> Result<Option<PatternID>, MatchError>
    requires table { IsTable T.is_whole automaton.now (T.shown table.old) }
    requires number { number < length (T.shown table.old).states }
    requires column { column < column_count automaton.now.alphabet.now }
    requires goes_on { quits automaton.now.alphabet.now.asked
        (ahead_in automaton.now.alphabet.now column).seen ≡ false }
    ensures table { IsTable T.is_whole automaton.now (T.shown table.new) }
    ensures step { IfOk result (λ ended. (x : AutomatonState)
        → slice_get (T.shown table.old).states number ≡ Some x
        → EndsSo (directed automaton.now) automaton.now.alphabet.now.asked x
        (ahead_in automaton.now.alphabet.now column) ended) }
    ensures refused { IfErr result (IsLack T.is_whole at) }
    ensures late { IfErr result (GivesUpLate (T.shown table.new)) }
{
    match table.step(automaton, number, column, at) {
        Ok(Some(next)) => Ok(table.known().end_before(next)),
        Ok(None) => unreachable!(),
        Err(error) => Err(error),
    }
}

/// Makes the step at the highest offset, where the input must be, and returns the last match end.
fn finish<T: Table, C: Cursor>(
    table: &mut T,
    automaton: &Automaton,
    input: &Input<C>,
    number: usize,
    met: Option<HalfMatch>,
) -> Result<Option<HalfMatch>, MatchError>
    requires is { IsAutomaton automaton.now }
    requires forward { ReadsForward automaton.now }
    requires table { IsTable T.is_whole automaton.now (T.shown table.old) }
    requires number { number < length (T.shown table.old).states }
    requires inside { IsInside (search_by automaton.now input.now) input.now.position }
    requires last { input.now.position ≡ highest (search_by automaton.now input.now) }
    ensures table { IsTable T.is_whole automaton.now (T.shown table.new) }
    ensures answer { IfOk result (λ found. (q : ℕ)
        → start_node (character_program (directed automaton.now).bytes)
        (anchoring_of input.now.asked.anchored) ≡ Some q
        → SearchStandsAt automaton.now (search_by automaton.now input.now) q
        input.now.position (T.shown table.old).states number met
        → IsHalfAnswer (directed automaton.now).bytes (search_by automaton.now input.now) found) }
    ensures refused { IfErr result
        (IsRefusalBy T.is_whole automaton.now (search_by automaton.now input.now)) }
    ensures late { IfErr result (GivesUpLate (T.shown table.new)) }
{
    let at = input.position();
    let seen = byte_seen(input);
    if let Some(byte) = automaton.alphabet.byte_that_quits(seen) {
        return Err(MatchError::Quit { byte, offset: at });
    }
    let column = last_column(automaton, input, seen);
    match last_end(table, automaton, number, column, at) {
        Ok(ended) => Ok(last_met(at, &ended, met)),
        Err(error) => Err(error),
    }
}

/// Searches from a state, starting at the input's position.
fn follow<T: Table, C: Cursor>(
    table: &mut T,
    automaton: &Automaton,
    input: &mut Input<C>,
    first: usize,
) -> Result<Option<HalfMatch>, MatchError>
    requires is { IsAutomaton automaton.now }
    requires forward { ReadsForward automaton.now }
    requires table { IsTable T.is_whole automaton.now (T.shown table.old) }
    requires first { first < length (T.shown table.old).states }
    requires inside { IsInside (search_by automaton.now input.old) input.old.position }
    ensures table { IsTable T.is_whole automaton.now (T.shown table.new) }
    ensures answer { IfOk result (λ found. (q : ℕ)
        → start_node (character_program (directed automaton.now).bytes)
        (anchoring_of input.old.asked.anchored) ≡ Some q
        → SearchStandsAt automaton.now (search_by automaton.now input.old) q
        input.old.position (T.shown table.old).states first None
        → IsHalfAnswer (directed automaton.now).bytes (search_by automaton.now input.old) found) }
    ensures same { IsSameContent input.old.cursor input.new.cursor }
    ensures asked { input.new.asked ≡ input.old.asked }
    ensures refused { IfErr result
        (IsRefusalBy T.is_whole automaton.now (search_by automaton.now input.old)) }
    ensures late { IfErr result (GivesUpLate (T.shown table.new)) }
{
    let mut number = first;
    let mut met = None;
    loop {
        if table.known().is_over(number) {
            return Ok(met);
        }
        if is_at_last(input) {
            return finish(table, automaton, input, number, met);
        }
        number = pass_piece(table, automaton, input, number, &mut met)?;
    }
}

/// Searches from the lowest offset, where the input must be.
fn start<T: Table, C: Cursor>(
    table: &mut T,
    automaton: &Automaton,
    input: &mut Input<C>,
    start: StateID,
) -> Result<Option<HalfMatch>, MatchError>
    requires is { IsAutomaton automaton.now }
    requires forward { ReadsForward automaton.now }
    requires table { IsTable T.is_whole automaton.now (T.shown table.old) }
    requires start { start_node (character_program (directed automaton.now).bytes)
        (anchoring_of input.old.asked.anchored) ≡ Some start }
    requires inside { IsInside (search_by automaton.now input.old) input.old.position }
    requires first { input.old.position ≡ lowest (search_by automaton.now input.old) }
    ensures table { IsTable T.is_whole automaton.now (T.shown table.new) }
    ensures answer { IfOk result
        (IsHalfAnswer (directed automaton.now).bytes (search_by automaton.now input.old)) }
    ensures same { IsSameContent input.old.cursor input.new.cursor }
    ensures asked { input.new.asked ≡ input.old.asked }
    ensures refused { IfErr result
        (IsRefusalBy T.is_whole automaton.now (search_by automaton.now input.old)) }
    ensures late { IfErr result (GivesUpLate (T.shown table.new)) }
{
    let at = input.position();
    let behind = byte_behind(input, automaton.alphabet.asked().any);
    if let Some(byte) = automaton.alphabet.byte_that_quits(behind) {
        return Err(MatchError::Quit {
            byte,
            offset: at - 1,
        });
    }
    let starting = first_starting(input, start);
    let side = automaton.side(behind);
    match table.first(automaton, starting, side, at) {
        Ok(first) => follow(table, automaton, input, first),
        Err(error) => Err(error),
    }
}

/// Searches forward with a table: returns the pattern and the end of the match that the program
/// finds.
pub(crate) fn search<T: Table, C: Cursor>(
    table: &mut T,
    automaton: &Automaton,
    program: &Program,
    input: &mut Input<C>,
) -> Result<Option<HalfMatch>, MatchError>
    requires is { IsAutomaton automaton.now }
    requires forward { directed automaton.now ≡ forward program.now }
    requires reads { IsByteProgram program.now }
    requires table { IsTable T.is_whole automaton.now (T.shown table.old) }
    ensures table { IsTable T.is_whole automaton.now (T.shown table.new) }
    ensures answer { IfOk result
        (IsHalfAnswer program.now (search_by automaton.now input.old)) }
    ensures same { IsSameContent input.old.cursor input.new.cursor }
    ensures asked { input.new.asked ≡ input.old.asked }
    ensures refused { IfErr result
        (IsRefusalBy T.is_whole automaton.now (search_by automaton.now input.old)) }
    ensures late { IfErr result (GivesUpLate (T.shown table.new)) }
{
    let Some(first) = start_state(program, input.get_anchored()) else {
        return Ok(None);
    };
    if !enter(input) {
        return Ok(None);
    }
    start(table, automaton, input, first)
}

/// Searches forward with the automaton of a program: returns the pattern and the end of the match
/// that the program finds.
///
/// # Requires
///
/// The cache is for this program and alphabet, for which it remains one, also after an error.
///
/// # Errors
///
/// - `Memory`
/// - `Quit` for a byte of the slice that is 128 or more, if the program has word assertions
/// - `GaveUp`, with an offset inside, if the cache would be cleared for the fourth time in this
///   search
///
/// # Complexity
///
/// A table lookup for each byte whose step is known, and else a step of all threads.
pub fn try_search_fwd<C: Cursor>(
    program: &Program,
    alphabet: &Alphabet,
    cache: &mut Cache,
    input: &mut Input<C>,
) -> Result<Option<HalfMatch>, MatchError>
    requires alphabet { IsAlphabetOf program.now alphabet.now }
    requires made { IsCacheOf (forward program.now) alphabet.now cache.old }
    ensures answer { IfOk result
        (IsHalfAnswer program.now (search_of alphabet.now.utf8_empty input.old)) }
    ensures made { IsCacheOf (forward program.now) alphabet.now cache.new }
    ensures same { IsSameContent input.old.cursor input.new.cursor }
    ensures asked { input.new.asked ≡ input.old.asked }
    ensures refused { IfErr result
        (IsRefusal alphabet.now.asked (search_of alphabet.now.utf8_empty input.old)) }
    ensures late { IfErr result (GivesUpLate cache.new) }
{
    let automaton = Automaton {
        way: Way::Forward(program),
        alphabet,
    };
    search(cache, &automaton, program, input)
}
