//! What engines share, under the paths of `regex-cursor` and `regex-automata`.

pub mod hir;

pub use rx_grammar::syntax;
pub use rx_input::iter;
pub use rx_util::{captures, primitives, sparse_set};
