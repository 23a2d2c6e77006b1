//! Types of a search's request and its result, groups and their slots, and sets of states.
#![tactic(auto)]

pub mod captures;
pub mod primitives;
pub mod search;
pub mod sparse_set;

pub use captures::{Captures, GroupInfo, WhichCaptures};
pub use primitives::{NonMaxUsize, PatternID, StateID};
pub use search::{Anchored, HalfMatch, Match, MatchError, MatchKind, Span};
pub use sparse_set::SparseSet;
