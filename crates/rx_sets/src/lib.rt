//! Sets of characters, and the sets of a pattern's atoms.
#![tactic(auto)]

mod atom_sets;
mod character_set;
mod foldings;
mod items;
pub mod laws;
mod letter_set;

pub use atom_sets::AtomSets;
pub use character_set::{CharacterSet, Range, from_ordinal, is_same, ordinal};
pub use items::{ClassItem, ClassPerlKind};
