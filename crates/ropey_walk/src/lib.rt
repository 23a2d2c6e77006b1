//! Slices of a rope, and what can be read from them, like `RopeSlice` of the Rust crate `ropey`.
#![tactic(auto)]

mod ascii;
mod chunks;
mod comparing;
mod conversions;
pub mod iter;
pub mod laws;
mod places;
pub mod ranges;
pub mod slice;
mod slicing;

pub use crate::ranges::TextRange;
pub use crate::slice::RopeSlice;
