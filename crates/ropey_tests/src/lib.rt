//! Proved tests of `ropey` and `str_indices`: an example of each public type, and a custom chunk.
#![tactic(auto)]

#[cfg(test)]
mod examples;
#[cfg(test)]
mod index_examples;
#[cfg(test)]
mod own_chunk;
