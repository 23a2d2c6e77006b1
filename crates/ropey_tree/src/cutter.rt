//! Cuts a text into leaves.

ghost use Rattle.std.specs.Prelude.{◌≡◌, ◌≤◌, ◌++◌, [], length, take, IfOk, OnOk, OnErr};
ghost use Rattle.std.specs.List.{concat};
ghost use Rattle.std.specs.Str.{chars};
ghost use Rattle.str_indices.specs.Text.{byte_len};
ghost use Rattle.ropey_tree.specs.Cutter.{IsCutBefore};
ghost use Rattle.ropey_tree.specs.Cutting.{AreFull, IsCutting, IsPiece};
ghost use Rattle.ropey_tree.specs.Nodes.{AreNodes, all_pieces, leaf_view};
ghost use Rattle.ropey_tree.specs.Siblings.{views};

use crate::MAX_BYTES;
use crate::leaf::LeafBuffer;
use crate::node::Node;
use std::alloc::{AllocError, Global};
use std::marker::Model;
use std::rc::Rc;

/// Cuts a text that is given in parts into leaves. Contracts see the text so far.
#[derive(Drop)]
pub struct Cutter {
    alloc: Global,
    leaves: Vec<Rc<Node>>,
    // The text after the leaves.
    rest: LeafBuffer,
}

impl Model for Cutter {
    ghost use Rattle.std.specs.Prelude.{ℕ, List, ◌++◌};
    ghost use Rattle.std.specs.List.{concat};
    ghost use Rattle.ropey_tree.specs.Nodes.{all_pieces};
    ghost use Rattle.ropey_tree.specs.Siblings.{views};
    ghost use Rattle.ropey_tree.specs.Cutter.{IsCutBefore};

    ghost Value = { List ℕ };

    ghost view = { λ cutter. concat (all_pieces (views cutter.leaves.items)) ++ cutter.rest };

    ghost invariant = { λ cutter. IsCutBefore cutter.rest (views cutter.leaves.items) };
}

impl Cutter {
    /// Returns this without text.
    pub fn new(alloc: Global) -> Self
        ensures { result ≡ [] }
    {
        Cutter {
            alloc,
            leaves: Vec::new(alloc),
            rest: LeafBuffer::new(),
        }
    }

    /// Returns the allocator.
    #[inline]
    pub fn allocator(&self) -> Global {
        self.alloc
    }

    /// Appends a text. Allocates nothing unless the text fills a leaf.
    ///
    /// # Errors
    ///
    /// Out of memory, which leaves the cutter unchanged.
    pub fn append(&mut self, text: &str) -> Result<(), AllocError>
        ensures text { OnOk result (self.new ≡ self.old ++ chars text.now) }
        ensures kept { OnErr result (self.new ≡ self.old) }
    {
        append_leaves(self.alloc, &mut self.leaves, &mut self.rest, text)
    }

    /// Sets a mark at the end of the text.
    pub fn marked(self) -> Marked
        ensures text { result.text ≡ self }
        ensures mark { result.mark ≡ self }
    {
        Marked {
            mark: self.leaves.len(),
            rest_at_mark: self.rest.copy(),
            alloc: self.alloc,
            leaves: self.leaves,
            rest: self.rest,
        }
    }

    /// Returns the leaves of the text.
    ///
    /// # Errors
    ///
    /// Out of memory, which drops the cutter.
    pub fn finish(self) -> Result<Vec<Rc<Node>>, AllocError>
        ensures leaves { IfOk result (λ leaves. AreNodes 0 12 (views leaves.items)) }
        ensures text { IfOk result (λ leaves. concat (all_pieces (views leaves.items)) ≡ self) }
        ensures cut { IfOk result (λ leaves. IsCutting (all_pieces (views leaves.items))) }
        ensures full { IfOk result (λ leaves. AreFull (all_pieces (views leaves.items))) }
    {
        if self.rest.room() == MAX_BYTES {
            return Ok(self.leaves);
        }
        let mut leaves = self.leaves;
        leaves.push(leaf_node(self.alloc, self.rest)?)?;
        Ok(leaves)
    }
}

/// A cutter that can drop the text after a mark. Contracts see the text so far and the text up to
/// the mark.
#[derive(Drop)]
pub struct Marked {
    alloc: Global,
    leaves: Vec<Rc<Node>>,
    rest: LeafBuffer,
    // The number of leaves at the mark, and the text after them.
    mark: usize,
    rest_at_mark: LeafBuffer,
}

impl Model for Marked {
    ghost use Rattle.std.specs.Prelude.{◌≤◌, ◌++◌, length, take};
    ghost use Rattle.std.specs.List.{concat};
    ghost use Rattle.ropey_tree.specs.Nodes.{all_pieces};
    ghost use Rattle.ropey_tree.specs.Siblings.{views};
    ghost use Rattle.ropey_tree.specs.Cutter.{IsCutBefore, MarkedText};

    ghost Value = { MarkedText };

    ghost view = { λ m. record {
      text = concat (all_pieces (views m.leaves.items)) ++ m.rest;
      mark = concat (all_pieces (take m.mark (views m.leaves.items))) ++ m.rest_at_mark;
    } };

    ghost invariant = { λ m. IsCutBefore m.rest (views m.leaves.items) ×
        IsCutBefore m.rest_at_mark (take m.mark (views m.leaves.items)) ×
        (m.mark ≤ length m.leaves.items) };
}

impl Marked {
    /// Appends a text.
    ///
    /// # Errors
    ///
    /// Out of memory, which leaves this unchanged.
    pub fn append(&mut self, text: &str) -> Result<(), AllocError>
        ensures text { OnOk result (self.new.text ≡ self.old.text ++ chars text.now) }
        ensures kept { OnErr result (self.new.text ≡ self.old.text) }
        ensures mark { self.new.mark ≡ self.old.mark }
    {
        append_leaves(self.alloc, &mut self.leaves, &mut self.rest, text)
    }

    /// Returns the cutter with the whole text.
    pub fn whole(self) -> Cutter
        ensures { result ≡ self.text }
    {
        Cutter {
            alloc: self.alloc,
            leaves: self.leaves,
            rest: self.rest,
        }
    }

    /// Returns the cutter with the text up to the mark; drops the text after it.
    pub fn back(self) -> Cutter
        ensures { result ≡ self.mark }
    {
        let mut leaves = self.leaves;
        leaves.truncate(self.mark);
        Cutter {
            alloc: self.alloc,
            leaves,
            rest: self.rest_at_mark,
        }
    }
}

/// Appends a text to leaves and the text after them. Allocates nothing unless the text fills a
/// leaf. After an error both are unchanged.
fn append_leaves(
    alloc: Global,
    leaves: &mut Vec<Rc<Node>>,
    rest: &mut LeafBuffer,
    text: &str,
) -> Result<(), AllocError>
    requires { IsCutBefore rest.old (views leaves.old.items) }
    ensures text { OnOk result (
        concat (all_pieces (views leaves.new.items)) ++ rest.new ≡
        (concat (all_pieces (views leaves.old.items)) ++ rest.old) ++ chars text.now) }
    ensures cut { IsCutBefore rest.new (views leaves.new.items) }
    ensures front { take (length leaves.old.items) leaves.new.items ≡ leaves.old.items }
    ensures longer { length leaves.old.items ≤ length leaves.new.items }
    ensures kept { OnErr result ((leaves.new.items ≡ leaves.old.items) × (rest.new ≡ rest.old)) }
{
    if text.len() < rest.room() {
        rest.fill(text);
        return Ok(());
    }
    // An error must leave everything unchanged, so new leaves are kept apart until all are there.
    let mut made = Vec::new(alloc);
    let mut filled = rest.copy();
    let end = filled.fill(text);
    let mut left = &text[end..];
    while !left.is_empty() {
        made.push(leaf_node(alloc, filled)?)?;
        filled = LeafBuffer::new();
        let end = filled.fill(left);
        left = &left[end..];
    }
    leaves.append(&mut made)?;
    *rest = filled;
    Ok(())
}

/// Returns a leaf with the gathered text.
fn leaf_node(alloc: Global, text: LeafBuffer) -> Result<Rc<Node>, AllocError>
    requires { 1 ≤ byte_len text }
    ensures node { IfOk result (λ node. node.value ≡ leaf_view text) }
    ensures piece { IfOk result (λ _. IsPiece text) }
{
    let leaf = text.into_leaf(alloc)?;
    Ok(Rc::new(alloc, Node::from_leaf(leaf))?)
}

/// Returns the leaves of a text, each but the last with room for less than a character.
///
/// # Errors
///
/// Out of memory.
pub fn leaves_of(alloc: Global, text: &str) -> Result<Vec<Rc<Node>>, AllocError>
    ensures leaves { IfOk result (λ leaves. AreNodes 0 12 (views leaves.items)) }
    ensures text { IfOk result (λ leaves. concat (all_pieces (views leaves.items)) ≡
        chars text.now) }
    ensures cut { IfOk result (λ leaves. IsCutting (all_pieces (views leaves.items))) }
    ensures full { IfOk result (λ leaves. AreFull (all_pieces (views leaves.items))) }
{
    let mut cutter = Cutter::new(alloc);
    cutter.append(text)?;
    cutter.finish()
}
