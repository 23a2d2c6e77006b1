//! Literals that matches begin with: prefilters, and where their needles occur in haystacks that
//! are split into chunks.
#![tactic(auto)]

mod beginning;
mod byte_set;
mod ending;
mod exact;
mod first_bytes;
pub mod laws;
pub mod literal;
mod members;
mod needle_table;
mod prefilter;
mod required;

pub use byte_set::ByteSet;
pub use ending::ends_with_slice;
pub use prefilter::Prefilter;
