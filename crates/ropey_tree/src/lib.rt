//! The tree of a rope: leaves of text under nodes with children, each with the counts of its text,
//! as the inner part of the Rust crate `ropey` has them.
#![tactic(auto)]

pub mod breaks;
pub mod builds;
pub mod children;
pub mod counts;
pub mod cutter;
pub mod edits;
pub mod error;
pub mod halves;
pub mod joins;
pub mod laws;
pub mod leaf;
pub mod made;
pub mod node;
mod running_totals;
pub mod seams;
pub mod siblings;
pub mod splits;
pub mod visits;

/// The greatest number of bytes of a leaf.
pub const MAX_BYTES: usize = 984;

/// The least number of bytes of a leaf that takes no text from its neighbour when two texts are
/// joined.
pub const MIN_BYTES: usize = 462;

/// The greatest number of children of a node.
pub const MAX_CHILDREN: usize = 24;

/// The least number of children of a node other than the root.
pub const MIN_CHILDREN: usize = 12;
