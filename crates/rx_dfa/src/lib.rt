//! Automata whose states are lists of threads.
#![tactic(auto)]

mod alphabet;
mod automaton;
mod back;
mod back_cache;
mod back_table;
mod behind;
mod cache;
mod classes;
mod copies;
pub mod dense;
mod dense_table;
mod determinize;
pub mod hybrid;
mod maker;
mod reverse;
mod scan;
mod search;
mod states;
mod table;

pub use alphabet::{Alphabet, CACHE_CAPACITY};
pub use back::try_search_back;
pub use back_cache::{BackCache, search_back};
pub use cache::Cache;
pub use dense_table::DenseTable;
pub use search::try_search_fwd;
