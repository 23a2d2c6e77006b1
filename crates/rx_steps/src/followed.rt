//! The work of searches.

use counters::Counter;
use std::fmt;
use std::marker::Model;

/// The number of nodes that were followed. It has no bytes at run time: only contracts can read it,
/// and only following a node changes it.
#[derive(Drop)]
pub(crate) struct Followed {
    nodes: Counter,
}

impl Model for Followed {
    ghost use Rattle.std.specs.Prelude.{ℕ};

    ghost Value = { ℕ };

    ghost view = { λ followed. followed.nodes };
}

impl fmt::Debug for Followed {
    fn fmt<W: fmt::Write>(&self, f: &mut fmt::Formatter<W>) -> fmt::Result {
        f.debug_struct("Followed").finish_non_exhaustive()
    }
}

impl Followed {
    ghost use Rattle.std.specs.Prelude.{◌≡◌, ◌+◌};

    /// Returns 0.
    #[inline(always)]
    pub(crate) fn new() -> Followed
        ensures { result ≡ 0 }
    {
        Followed {
            nodes: Counter::new(),
        }
    }

    /// Adds one.
    #[inline(always)]
    pub(crate) fn add(&mut self)
        ensures { self.new ≡ self.old + 1 }
    {
        self.nodes.add();
    }
}
