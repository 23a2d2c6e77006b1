//! The threads of a search for all matches, and the match ends that they meet.

ghost use Rattle.std.specs.Prelude.{◌≡◌, ℕ, List, ◌++◌, true, false, OnOk};
ghost use Rattle.rx_steps.specs.ListsAll.{IsBestMet, IsNoWorse, end_met_by, nodes_of, started_at};

use crate::node::Node;
use crate::thread_list::ThreadList;
use rx_util::PatternID;
use std::alloc::AllocError;
use std::marker::Model;

/// The offset at which a thread started, and its node. Contracts see this as a pair.
#[derive(Clone, Copy, Debug, PartialEq, Eq, Hash)]
pub struct StartedNode {
    start: usize,
    node: Node,
}

impl Model for StartedNode {
    ghost use Rattle.std.specs.Prelude.{ℕ};

    ghost Value = { ℕ × (ℕ × ℕ) };

    ghost view = { λ started. (started.start, started.node) };

    ghost inverse = { λ pair. record { start = pair.0; node = pair.1 } };
}

impl StartedNode {
    /// Returns a thread at a node that started at an offset.
    pub fn new(start: usize, node: Node) -> StartedNode
        ensures { result ≡ (start, node) }
    {
        StartedNode { start, node }
    }

    /// Returns the offset at which it started.
    pub fn start(&self) -> usize
        ensures { result ≡ self.now.0 }
    {
        self.start
    }

    /// Returns its node.
    pub fn node(&self) -> Node
        ensures { result ≡ self.now.1 }
    {
        self.node
    }
}

/// A match end: the match's start, and its pattern.
#[derive(Clone, Copy, Debug, PartialEq, Eq, Hash)]
pub struct MetEnd {
    /// The offset at which the match starts.
    pub start: usize,
    /// The pattern.
    pub pattern: PatternID,
}

impl MetEnd {
    /// Returns whether it is better than another one at the same offset: its start is less, or else
    /// its pattern.
    fn is_better(&self, other: &MetEnd) -> bool
        ensures yes { result ≡ true → IsNoWorse self.now other.now }
        ensures no { result ≡ false → IsNoWorse other.now self.now }
    {
        self.start < other.start
            || self.start == other.start && self.pattern.as_usize() < other.pattern.as_usize()
    }
}

/// Returns the match end of this pattern, if there is one, with this start.
pub(crate) fn met_end(start: usize, pattern: Option<PatternID>) -> Option<MetEnd>
    ensures { result ≡ end_met_by start pattern }
{
    let Some(pattern) = pattern else {
        return None;
    };
    Some(MetEnd { start, pattern })
}

/// Returns the better of two match ends at one offset: that with the lesser start, or else with the
/// lesser pattern.
pub(crate) fn better(first: Option<MetEnd>, second: Option<MetEnd>) -> Option<MetEnd>
    ensures { (ends : List (ℕ × ℕ)) → (others : List (ℕ × ℕ)) → IsBestMet ends first
        → IsBestMet others second → IsBestMet (ends ++ others) result }
{
    let Some(other) = second else {
        return first;
    };
    let Some(one) = first else {
        return Some(other);
    };
    if other.is_better(&one) {
        Some(other)
    } else {
        Some(one)
    }
}

/// Returns the lesser of two patterns whose matches started at one offset.
pub(crate) fn least(first: Option<PatternID>, second: Option<PatternID>) -> Option<PatternID>
    ensures { (start : ℕ) → (ends : List (ℕ × ℕ)) → (others : List (ℕ × ℕ))
        → IsBestMet ends (end_met_by start first) → IsBestMet others (end_met_by start second)
        → IsBestMet (ends ++ others) (end_met_by start result) }
{
    let Some(other) = second else {
        return first;
    };
    let Some(one) = first else {
        return Some(other);
    };
    if other.as_usize() < one.as_usize() {
        Some(other)
    } else {
        Some(one)
    }
}

/// Adds threads that started at one offset, at the nodes of these threads.
pub(crate) fn push_started(
    list: &mut Vec<StartedNode>,
    start: usize,
    nodes: &ThreadList,
) -> Result<(), AllocError>
    ensures { OnOk result (list.new.items
        ≡ list.old.items ++ started_at start (nodes_of nodes.now.threads)) }
{
    for index in 0..nodes.len() {
        list.push(StartedNode::new(start, nodes.node(index)))?;
    }
    Ok(())
}
