//! The states of a reverse program.

ghost use Rattle.std.specs.Prelude.{◌≡◌, IfOk};
ghost use Rattle.rx_walks.specs.Programs.{pass};
ghost use Rattle.rx_program.specs.Reversed.{back_node_of, ReadsItsSetBack};

use rx_grammar::Look;
use rx_utf8::ReverseAutomaton;
use rx_util::{PatternID, StateID};
use std::alloc::{AllocError, Global};
use std::rc::Rc;

/// A state of a reverse program, with the states to which its edges lead.
#[derive(Debug, Drop)]
pub enum ReverseState {
    /// Reads one character of a set, from its last byte to its first, with the set's reverse
    /// automaton.
    Ranges(Rc<ReverseAutomaton>, StateID),
    /// An epsilon transition if the assertion holds.
    Look(Look, StateID),
    /// An epsilon transition.
    Empty(StateID),
    /// Two epsilon transitions.
    BinaryUnion(StateID, StateID),
    /// Epsilon transitions, or none.
    Union(Vec<StateID>),
    /// A match of this pattern starts.
    Match(PatternID),
}

impl ReverseState {
    /// Returns a state with epsilon transitions to these states.
    pub(crate) fn union(alloc: Global, states: &[StateID]) -> Result<ReverseState, AllocError>
        ensures node { IfOk result (λ state. back_node_of state ≡ pass states.now) }
        ensures reads { IfOk result ReadsItsSetBack }
    {
        if states.len() == 1 {
            return Ok(ReverseState::Empty(states[0]));
        }
        if states.len() == 2 {
            return Ok(ReverseState::BinaryUnion(states[0], states[1]));
        }
        Ok(ReverseState::Union(states.to_vec(alloc)?))
    }
}
