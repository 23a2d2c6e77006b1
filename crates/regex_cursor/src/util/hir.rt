//! The parts of a pattern's tree: its nodes, and the sets of characters in them.

pub use rx_grammar::{
    CharacterSet, ClassItem, ClassPerlKind, Look, Node, Properties, Range, Repetition,
    from_ordinal, ordinal,
};
