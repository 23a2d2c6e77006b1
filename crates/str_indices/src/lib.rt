//! Counts over text, and conversions between indices of bytes, characters, UTF-16 code units and
//! lines, like the Rust crate `str_indices`.
//!
//! # Examples
//!
//! ```rust
//! let text = "one\r\ntwo🐸three";
//! assert_eq!(rt; lines::count_breaks(text), 1);
//! assert_eq!(rt; lines::to_byte_idx(text, 1), 5);
//! assert_eq!(rt; lines::first_break(text), Some(3..5));
//! assert_eq!(rt; chars::from_byte_idx(text, 8), 8);
//! assert_eq!(rt; utf16::to_byte_idx(text, 9), 8);
//! ```
#![tactic(auto)]

mod breaks;
pub mod byte_chunk;
mod char_index;
pub mod chars;
pub mod laws;
mod leads;
mod line_index;
pub mod lines;
pub mod lines_crlf;
pub mod lines_lf;
mod measure;
mod scan;
mod uncounted;
pub mod utf16;

pub use counters::Counter;
