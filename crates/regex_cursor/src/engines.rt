//! Engines that search for a regular expression.

pub mod meta;

pub use rx_chunk::pikevm;
pub use rx_matches::{dfa, hybrid};
