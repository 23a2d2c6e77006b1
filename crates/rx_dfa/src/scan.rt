//! The loop over the bytes of one chunk.

ghost use Rattle.std.specs.Prelude.{◌≡◌, ◌+◌, ◌/◌, ◌<◌, ◌≤◌, ◌^◌, ◌∷◌, [], true, Option, Some, length, take, slice_get, IfOk, IfErr};
ghost use Rattle.rx_util.specs.Search.{HalfFound};
ghost use Rattle.rx_dfa.specs.declared.scan.PassedEnd.{PassedEnd};
ghost use Rattle.rx_dfa.specs.declared.states.AutomatonState.{AutomatonState};
ghost use Rattle.rx_dfa.specs.Caches.{GivesUpLate};
ghost use Rattle.rx_dfa.specs.Searching.{met_after};
ghost use Rattle.rx_dfa.specs.Passing.{HasPassed, IsNoted, IsDeadState};
ghost use Rattle.rx_dfa.specs.Automata.{IsAutomaton};
ghost use Rattle.rx_dfa.specs.Tables.{HoldsBy, IsRefusalAmong, IsTable};

use crate::automaton::Automaton;
use crate::cache::{Cache, ENDS, STOPS};
use crate::states::last_met;
use crate::table::Table;
use rx_util::{HalfMatch, MatchError, PatternID};

/// A match end that the loop passed.
#[derive(Clone, Copy)]
struct PassedEnd {
    // The offset of the row of the state after it.
    row: usize,
    at: usize,
}

impl Cache {
    /// Returns the pattern whose match ended just before a state.
    pub(crate) fn end_before(&self, number: usize) -> Option<PatternID>
        requires { number < length self.now.states }
        ensures { (y : AutomatonState) → slice_get self.now.states number ≡ Some y
            → result ≡ y.ended }
    {
        self.states[number].ended
    }

    /// Returns the last match end after a step to a state.
    pub(crate) fn met_behind(
        &self,
        number: usize,
        at: usize,
        met: Option<HalfMatch>,
    ) -> Option<HalfMatch>
        requires { number < length self.now.states }
        ensures { (y : AutomatonState) → slice_get self.now.states number ≡ Some y
            → result ≡ met_after at y.ended met }
    {
        last_met(at, &self.end_before(number), met)
    }

    /// Returns the last match end: that of this row, or else the earlier one.
    fn met_last(&self, end: Option<PassedEnd>, met: Option<HalfMatch>) -> Option<HalfMatch>
        requires width { 0 < self.now.width }
        requires inside { (passed : PassedEnd) → end ≡ Some passed
            → passed.row / self.now.width < length self.now.states }
        ensures { (last : Option HalfFound)
            → IsNoted self.now.width self.now.states met end last → result ≡ last }
    {
        match end {
            Some(end) => last_met(end.at, &self.end_before(end.row / self.width), met),
            None => met,
        }
    }

    /// Follows bytes as long as their entries are known and the search isn't over, and notes the
    /// last match end. Returns the state after them and their number.
    #[inline(always)]
    pub(crate) fn run(
        &self,
        automaton: &Automaton,
        first: usize,
        bytes: &[u8],
        at: usize,
        met: &mut Option<HalfMatch>,
    ) -> (usize, usize)
        requires is { IsAutomaton automaton.now }
        requires made { HoldsBy automaton.now self.now }
        requires first { first < length self.now.states }
        requires fits { at + length bytes.now < 2 ^ 64 }
        ensures within { result.1 ≤ length bytes.now }
        ensures passed { (x : AutomatonState) → slice_get self.now.states first ≡ Some x
            → HasPassed automaton.now self.now.states x
            (take result.1 bytes.now) at met.old result.0 met.new }
    {
        let alphabet = automaton.alphabet;
        let mut row = first * self.width;
        let mut len = 0_usize;
        let mut end = None;
        for byte in bytes {
            let next = self.table[row + alphabet.class(*byte)];
            if next < ENDS {
                row = next as usize;
                len += 1;
                continue;
            }
            if next >= STOPS {
                break;
            }
            row = (next - ENDS) as usize;
            end = Some(PassedEnd { row, at: at + len });
            len += 1;
        }
        *met = self.met_last(end, *met);
        (row / self.width, len)
    }

    /// Returns whether a state is dead: it has no thread, and none will start.
    pub(crate) fn is_over(&self, number: usize) -> bool
        requires { number < length self.now.states }
        ensures { result ≡ true → IsDeadState self.now.states number }
    {
        self.states[number].is_over()
    }
}

/// Reads one byte and notes a match end before it.
fn pass<T: Table>(
    table: &mut T,
    automaton: &Automaton,
    number: usize,
    byte: u8,
    at: usize,
    met: &mut Option<HalfMatch>,
) -> Result<usize, MatchError>
    requires is { IsAutomaton automaton.now }
    requires table { IsTable T.is_whole automaton.now (T.shown table.old) }
    requires number { number < length (T.shown table.old).states }
    ensures table { IsTable T.is_whole automaton.now (T.shown table.new) }
    ensures passed { IfOk result (λ next. (x : AutomatonState)
        → slice_get (T.shown table.old).states number ≡ Some x
        → HasPassed automaton.now (T.shown table.new).states x (byte ∷ []) at met.old
        next met.new) }
    ensures number { IfOk result (λ next. next < length (T.shown table.new).states) }
    ensures refused { IfErr result (IsRefusalAmong T.is_whole automaton.now at (byte ∷ [])) }
    ensures late { IfErr result (GivesUpLate (T.shown table.new)) }
{
    let column = automaton.alphabet.class(byte);
    match table.step(automaton, number, column, at) {
        Ok(Some(next)) => {
            *met = table.known().met_behind(next, at, *met);
            Ok(next)
        }
        Ok(None) => Err(MatchError::Quit { byte, offset: at }),
        Err(error) => Err(error),
    }
}

/// Reads bytes up to a state at which the search is over, and notes the last match end. Returns the
/// state after them and the number of bytes read, which is at least one if there are any.
#[inline(always)]
pub(crate) fn scan<T: Table>(
    table: &mut T,
    automaton: &Automaton,
    first: usize,
    bytes: &[u8],
    at: usize,
    met: &mut Option<HalfMatch>,
) -> Result<(usize, usize), MatchError>
    requires is { IsAutomaton automaton.now }
    requires table { IsTable T.is_whole automaton.now (T.shown table.old) }
    requires first { first < length (T.shown table.old).states }
    requires fits { at + length bytes.now < 2 ^ 64 }
    ensures table { IsTable T.is_whole automaton.now (T.shown table.new) }
    ensures within { IfOk result (λ told. told.1 ≤ length bytes.now) }
    ensures some { IfOk result (λ told. 0 < length bytes.now → 0 < told.1) }
    ensures passed { IfOk result (λ told. (x : AutomatonState)
        → slice_get (T.shown table.old).states first ≡ Some x
        → HasPassed automaton.now (T.shown table.new).states x (take told.1 bytes.now) at met.old
        told.0 met.new) }
    ensures refused { IfErr result (IsRefusalAmong T.is_whole automaton.now at bytes.now) }
    ensures late { IfErr result (GivesUpLate (T.shown table.new)) }
{
    let mut number = first;
    let mut len = 0_usize;
    while len < bytes.len() {
        let known = table.known();
        let (there, passed) = known.run(automaton, number, &bytes[len..], at + len, met);
        number = there;
        len += passed;
        if len >= bytes.len() {
            return Ok((number, len));
        }
        number = pass(table, automaton, number, bytes[len], at + len, met)?;
        len += 1;
        if table.known().is_over(number) {
            return Ok((number, len));
        }
    }
    Ok((number, len))
}
