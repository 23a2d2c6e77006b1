//! A count of the nodes that an edit makes, for contracts only.

ghost use Rattle.std.specs.Prelude.{◌≡◌, ◌+◌, IfOk};

use crate::node::Node;
use counters::Counter;
use std::alloc::{AllocError, Global};
use std::marker::Model;
use std::rc::Rc;

/// The number of nodes that were made. It has no bytes at run time, and only making a node to share
/// changes it.
#[derive(Drop)]
pub struct Made {
    nodes: Counter,
}

impl Model for Made {
    ghost use Rattle.ropey_tree.specs.Made.{MadeNodes};

    ghost Value = { MadeNodes };

    ghost view = { λ m. record { nodes = m.nodes } };
}

impl Made {
    /// Returns 0.
    #[inline(always)]
    pub fn new() -> Self
        ensures { result.nodes ≡ 0 }
    {
        Made {
            nodes: Counter::new(),
        }
    }

    /// Returns a node to share and counts it, also if there is no memory for it.
    #[inline(always)]
    pub(crate) fn share(&mut self, alloc: Global, node: Node) -> Result<Rc<Node>, AllocError>
        ensures counted { self.new.nodes ≡ self.old.nodes + 1 }
        ensures shared { IfOk result (λ shared. shared.value ≡ node) }
    {
        self.nodes.add();
        Ok(Rc::new(alloc, node)?)
    }
}

const _: () = prove!(size_of::<Made>() == 0);
