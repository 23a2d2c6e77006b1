//! A text that can be edited, in a balanced tree of shared nodes, like the Rust crate `ropey`.
#![tactic(auto)]

mod chunks;
mod comparing;
mod conversions;
mod edits;
pub mod iter;
pub mod laws;
mod read_fault;
mod read_window;
mod reading;
mod rope;
mod rope_builder;
mod slices;
pub mod str_utils;
mod trees;
mod writing;

pub use crate::read_fault::ReadFault;
pub use crate::rope::Rope;
pub use crate::rope_builder::RopeBuilder;
pub use ropey_tree::breaks;
pub use ropey_tree::counts::{By, Counts};
pub use ropey_tree::error::Error;
pub use ropey_walk::ranges::{Ends, TextRange};
pub use ropey_walk::slice::{Chunk, RopeSlice};
