//! The states of a program.

ghost use Rattle.std.specs.Prelude.{◌≡◌};
ghost use Rattle.rx_program.specs.Code.{fork};
ghost use Rattle.rx_program.specs.Programs.{node_of, ReadsItsSet};

use rx_grammar::Look;
use rx_utf8::SetAutomaton;
use rx_util::{PatternID, StateID};
use std::rc::Rc;

/// A state of a program, with the states to which its edges lead.
#[derive(Debug, Drop)]
pub enum State {
    /// Reads one character of a set, byte by byte, with the set's automaton.
    Ranges(Rc<SetAutomaton>, StateID),
    /// An epsilon transition if the assertion holds.
    Look(Look, StateID),
    /// An epsilon transition.
    Empty(StateID),
    /// Two epsilon transitions, the preferred one first.
    BinaryUnion(StateID, StateID),
    /// Epsilon transitions, the preferred one first.
    Union(Vec<StateID>),
    /// Writes the offset into a slot.
    Capture(usize, StateID),
    /// A match of this pattern ends.
    Match(PatternID),
}

impl State {
    /// Returns a state with epsilon transitions into a part and on; greedy prefers the one into it.
    pub(crate) fn fork(greedy: bool, into: usize, on: usize) -> State
        ensures node { node_of result ≡ fork greedy into on }
        ensures reads { ReadsItsSet result }
    {
        let into = StateID::new(into);
        let on = StateID::new(on);
        if greedy {
            State::BinaryUnion(into, on)
        } else {
            State::BinaryUnion(on, into)
        }
    }
}
