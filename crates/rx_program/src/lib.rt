//! Programs: what patterns are compiled to.
#![tactic(auto)]

mod arrivals;
mod automata;
mod compiler;
mod error;
pub mod laws;
mod parts;
mod patterns;
mod program;
mod reverse;
mod reverse_states;
mod sizes;
mod states;

pub use error::BuildError;
pub use patterns::compile;
pub use program::Program;
pub use reverse::ReverseProgram;
pub use reverse_states::ReverseState;
pub use states::State;
