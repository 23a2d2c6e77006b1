//! Haystacks in chunks, the input of a search, and iteration over matches.
#![tactic(auto)]

mod chunk_cursor;
pub mod cursor;
pub mod input;
pub mod iter;
mod look_around;
mod places;
mod ranges;

pub use chunk_cursor::ChunkCursor;
pub use cursor::Cursor;
pub use input::Input;
pub use look_around::LookAround;
pub use ranges::{Ends, TextRange};
