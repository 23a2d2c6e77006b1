//! Whole matches with the engines of `rx_dfa`, each from its end and its start.
#![tactic(auto)]

pub mod dfa;
pub mod halves;
pub mod hybrid;
