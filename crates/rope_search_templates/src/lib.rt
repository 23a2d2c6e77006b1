//! Replaces matches by the expansions of a template, and parts of a text by others.
#![tactic(auto)]

pub mod laws;
mod left;
mod matches;
mod parts;
mod pieces;
mod replacing;
mod substitutions;
mod templates;
mod told;

pub use matches::Matches;
pub use replacing::{Replacement, is_over, replace_all};
pub use substitutions::{Substitution, substitute_all};
pub use templates::Template;
