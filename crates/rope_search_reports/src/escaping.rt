//! Escaping a text for a pattern, reexported from `regex_cursor`.

pub use regex_cursor::{SyntaxError, escape};
