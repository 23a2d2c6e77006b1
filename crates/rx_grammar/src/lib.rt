//! Patterns: their grammar and their syntax trees.
#![tactic(auto)]

mod atoms;
mod classes;
mod error;
mod escapes;
mod explanations;
mod flags;
mod fronts;
mod groups;
mod hir;
mod input;
pub mod laws;
mod parser;
mod patterns;
mod properties;
mod refusals;
mod repetitions;
mod sets;
pub mod syntax;
mod trees;

pub use error::SyntaxError;
pub use explanations::explain;
pub use hir::{Hir, Look, Node, Repetition};
pub use patterns::parse;
pub use properties::Properties;
pub use refusals::{Mistake, Reason, Refusal};
pub use rx_sets::{CharacterSet, ClassItem, ClassPerlKind, Range, from_ordinal, ordinal};
