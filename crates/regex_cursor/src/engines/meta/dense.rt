//! Automata with few states, which are all built with the regex.

ghost use Rattle.std.specs.Prelude.{◌≡◌, IfOk, IfSome, None, false};
ghost use Rattle.rx_dfa.specs.Caches.{IsWithin};
ghost use Rattle.rx_dfa.specs.DenseTables.{IsClosedOf};
ghost use Rattle.rx_dfa.specs.Directions.{forward};
ghost use Rattle.rx_dfa.specs.Alphabets.{IsAlphabetOf};
ghost use Rattle.regex_cursor.specs.Configs.{dfa_of, dfa_size_limit_of, dfa_state_limit_of, most};

use super::config::Config;
use rx_dfa::{Alphabet, DenseTable};
use rx_program::{Program, State};
use std::alloc::{AllocError, Global};
use std::mem::size_of;

/// The number of bytes of a state.
const STATE_BYTES: usize = size_of::<State>();

/// Returns the number of states of a program, including those that read a character of a set byte
/// by byte.
pub(super) fn state_count(program: &Program) -> usize {
    let mut count: usize = 0;
    for state in program.states() {
        let more = match state {
            State::Ranges(automaton, _) => automaton.state_count(),
            _ => 1,
        };
        count = count.saturating_add(more);
    }
    count
}

/// Returns the approximate number of bytes of these states.
pub(super) fn bytes_of_states(program: &Program) -> usize {
    state_count(program).saturating_mul(STATE_BYTES)
}

/// Returns all states and transitions of a program's automaton, if the settings request them and
/// program and automaton are within the limits. So by default it takes little time compared with
/// compiling, however many states the automaton has.
pub(super) fn closed_of(
    alloc: Global,
    program: &Program,
    dfa: &Alphabet,
    config: &Config,
) -> Result<Option<DenseTable>, AllocError>
    requires { IsAlphabetOf program.now dfa.now }
    ensures closed { IfOk result (λ closed. IfSome closed
        (IsClosedOf (forward program.now) dfa.now)) }
    ensures small { IfOk result (λ closed. IfSome closed
        (IsWithin (most (dfa_state_limit_of config.now)) (most (dfa_size_limit_of config.now)))) }
    ensures unwanted { IfOk result (λ closed. dfa_of config.now ≡ false → closed ≡ None) }
{
    if !config.get_dfa() {
        return Ok(None);
    }
    let state_limit = config.get_dfa_state_limit().unwrap_or(usize::MAX);
    let size_limit = config.get_dfa_size_limit().unwrap_or(usize::MAX);
    if state_count(program) > state_limit {
        return Ok(None);
    }
    DenseTable::new(alloc, program, dfa, state_limit, size_limit)
}
