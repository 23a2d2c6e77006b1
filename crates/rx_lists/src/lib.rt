//! All matches of a program in a haystack, however far single searches would read, in two passes:
//! backward, to find the nodes of the program that lead to a match from each offset; then forward
//! along the preferred walk.
#![tactic(auto)]

mod arrivals;
mod bits;
mod blocks;
mod known;
mod leading;
mod lists;
mod node_index;
mod node_set;
mod pass_back;
mod walk;

pub use lists::{ListedMatch, list_matches};
