//! A counter that only contracts read, of no bytes at run time.
#![tactic(auto)]

mod counter;

pub use counter::Counter;
