//! The programs to which patterns are compiled, with which the engines search, forward or backward,
//! and the automata of their sets.

pub use rx_program::{Program, ReverseProgram, ReverseState, State, compile};
pub use rx_utf8::{ByteRange, ReverseAutomaton, SetAutomaton};
