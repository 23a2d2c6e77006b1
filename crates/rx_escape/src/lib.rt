//! Texts as patterns: escapes a text, so that the pattern matches nothing else.
#![tactic(auto)]

mod escaping;
pub mod laws;

pub use escaping::{escape, is_meta_character};
