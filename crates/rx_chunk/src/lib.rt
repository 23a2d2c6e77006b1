//! The PikeVM, an engine that searches haystacks in chunks. Cursors and inputs are those of
//! `rx_input`, and the step from the nodes at one offset to those at the next,
//! `Stepper::next_list`, is that of `rx_steps`.
#![tactic(auto)]

pub mod laws;
pub mod pikevm;

pub use rx_input::iter::{self, Searcher};
pub use rx_input::{ChunkCursor, Cursor, Input, LookAround};
pub use rx_steps::{Looks, Node, Place, Stepper, ThreadList};
