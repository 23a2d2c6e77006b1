//! Regular expressions over ropes, and over any haystack in chunks, like the Rust crate
//! `regex-cursor`.
#![tactic(auto)]

pub mod engines;
pub mod laws;
pub mod nfa;
mod ropey_cursor;
pub mod util;

pub use ropey_cursor::RopeyCursor;
pub use rx_escape::{escape, is_meta_character};
pub use rx_grammar::{Hir, Mistake, Reason, Refusal, SyntaxError, explain, parse};
pub use rx_input::{ChunkCursor, Cursor, Ends, Input, LookAround, TextRange};
pub use rx_literals::{Prefilter, literal};
pub use rx_program::BuildError;
pub use rx_util::{
    Anchored, Captures, GroupInfo, HalfMatch, Match, MatchError, MatchKind, NonMaxUsize, PatternID,
    Span, StateID, WhichCaptures,
};
