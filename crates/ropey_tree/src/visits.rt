//! A count of the work of descending a tree, for contracts only.

ghost use Rattle.std.specs.Prelude.{◌≡◌, ◌+◌};

use counters::Counter;
use std::marker::Model;

/// The number of nodes that were entered, and of running totals that were compared to choose them.
/// It has no bytes at run time; only choosing a child to enter changes it.
#[derive(Drop)]
pub struct Visits {
    nodes: Counter,
    comparisons: Counter,
}

impl Model for Visits {
    ghost use Rattle.ropey_tree.specs.Visits.{Visited};

    ghost Value = { Visited };

    ghost view = { λ v. record { nodes = v.nodes; comparisons = v.comparisons } };
}

impl Visits {
    /// Returns zeros.
    #[inline(always)]
    pub fn new() -> Self
        ensures nodes { result.nodes ≡ 0 }
        ensures comparisons { result.comparisons ≡ 0 }
    {
        Visits {
            nodes: Counter::new(),
            comparisons: Counter::new(),
        }
    }

    /// Counts one more node.
    #[inline(always)]
    pub(crate) fn enter(&mut self)
        ensures nodes { self.new.nodes ≡ self.old.nodes + 1 }
        ensures comparisons { self.new.comparisons ≡ self.old.comparisons }
    {
        self.nodes.add();
    }

    /// Counts one more comparison.
    #[inline(always)]
    pub(crate) fn compare(&mut self)
        ensures nodes { self.new.nodes ≡ self.old.nodes }
        ensures comparisons { self.new.comparisons ≡ self.old.comparisons + 1 }
    {
        self.comparisons.add();
    }
}

const _: () = prove!(size_of::<Visits>() == 0);
