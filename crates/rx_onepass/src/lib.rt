//! Searches by a single thread, which find the groups of a match as fast as a table of edges can be
//! read, where the program's steps leave one thread at a time.
#![tactic(auto)]

mod edges;
mod noted;
mod search;

pub use search::{Cache, search_slots};
