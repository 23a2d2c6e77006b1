//! Automata over bytes that read the UTF-8 of the characters of sets, forward and backward.
#![tactic(auto)]

mod blocks;
mod byte_ranges;
mod code_points;
mod entries;
mod reverse_automaton;
mod set_automaton;
mod subsets;

pub use byte_ranges::ByteRange;
pub use reverse_automaton::ReverseAutomaton;
pub use set_automaton::SetAutomaton;
