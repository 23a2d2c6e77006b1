//! Joins any two texts: leaves at the seam that fit into one become one, a short leaf there is
//! filled from its neighbour, and no CR LF is split across the seam.
//!
//! Edits use this: an insertion splits a tree and appends the text between the halves; a removal
//! splits it twice and appends the right part to the left.

ghost use Rattle.std.specs.Prelude.{◌≡◌, ◌+◌, ◌<◌, ◌≤◌, ◌^◌, ◌⊎◌, ◌++◌, [], ◌∷◌, true, false, length, take, drop, IfOk, IfSome, IfNone};
ghost use Rattle.std.specs.List.{concat};
ghost use Rattle.std.specs.Str.{chars, IsCharBoundary};
ghost use Rattle.str_indices.specs.Text.{byte_len};
ghost use Rattle.ropey_tree.specs.Counts.{total};
ghost use Rattle.ropey_tree.specs.Cutting.{IsRopeText, cuts_cr_lf};
ghost use Rattle.ropey_tree.specs.Seams.{StandsBetween};
ghost use Rattle.ropey_tree.specs.Splits.{pieces_in};

use crate::counts::By;
use crate::halves::{split_back, split_front};
use crate::leaf::{Leaf, LeafBuffer, fill_end};
use crate::node::{Node, leaf_at};
use crate::visits::Visits;
use crate::{MAX_BYTES, MIN_BYTES, joins};
use std::alloc::{AllocError, Global};
use std::rc::Rc;

/// A leaf for the seam of two texts. It replaces the end of the left text's last leaf, from a byte
/// index on, and the start of the right text's first leaf, up to a byte index.
#[derive(Drop)]
struct Seam {
    leaf: LeafBuffer,
    from: usize,
    to: usize,
}

/// Returns CR LF as a leaf under construction.
fn cr_lf() -> LeafBuffer
    ensures text { result ≡ 13 ∷ 10 ∷ [] }
    ensures some { 1 ≤ byte_len result }
{
    let mut leaf = LeafBuffer::new();
    leaf.fill("\r\n");
    leaf
}

impl Seam {
    /// Returns the text from an index of one text's last leaf to an index of another's first leaf.
    fn over(last: &str, from: usize, first: &str, to: usize) -> Seam
        requires from { IsCharBoundary last.now from }
        requires to { IsCharBoundary first.now to }
        requires some { from < length last.now + to }
        requires room { length last.now + to < 984 + from }
        ensures leaf { result.leaf ≡ chars (drop from last.now) ++ chars (take to first.now) }
        ensures from { result.from ≡ from }
        ensures to { result.to ≡ to }
        ensures some { 1 ≤ byte_len result.leaf }
    {
        let mut leaf = LeafBuffer::new();
        leaf.fill(&last[from..]);
        leaf.fill(&first[..to]);
        Seam { leaf, from, to }
    }

    /// Returns the seam of the last leaf of a text and the first of another: one leaf if they fit
    /// into it, half of their text if either is short, or else a CR LF that spans both. `None` if
    /// they can stay unchanged. A leaf that ends the whole text may be short.
    fn of(last: &Leaf, first: &Leaf, is_end: bool) -> Option<Seam>
        ensures between { IfSome result (λ seam. StandsBetween (last.now ∷ []) seam.from seam.leaf
            (first.now ∷ []) seam.to) }
        ensures some { IfSome result (λ seam. 1 ≤ seam.to) }
        ensures leaf { IfSome result (λ seam. 1 ≤ byte_len seam.leaf) }
        ensures none { IfNone result (cuts_cr_lf last.now first.now ≡ false) }
        ensures full { IfNone result (984 ≤ byte_len last.now + byte_len first.now) }
        ensures front { IfNone result (462 < byte_len last.now) }
        ensures back { IfNone result ((is_end ≡ true) ⊎ (462 < byte_len first.now)) }
    {
        let (front, back) = (last.as_str(), first.as_str());
        let len = front.len() + back.len();
        if len < MAX_BYTES {
            return Some(Seam::over(front, 0, back, back.len()));
        }
        if front.len() <= MIN_BYTES {
            let to = fill_end(back, len / 2 - front.len());
            return Some(Seam::over(front, 0, back, to));
        }
        if !is_end && back.len() <= MIN_BYTES {
            let from = fill_end(front, len / 2);
            return Some(Seam::over(front, from, back, back.len()));
        }
        if last.is_cr_last() && first.is_lf_first() {
            return Some(Seam {
                leaf: cr_lf(),
                from: front.len() - 1,
                to: 1,
            });
        }
        None
    }
}

/// Joins two texts, each possibly empty. The leaves at the seam become one if they fit. If they
/// don't, and one of them has fewer than 462 bytes, they share their text. If a CR that ends the
/// first text meets an LF that starts the second, both go into one leaf. The new tree shares with
/// the old ones what they have in common.
///
/// # Requires
///
/// Both texts together have fewer than 2^63 bytes.
///
/// # Errors
///
/// Out of memory.
pub fn append(
    alloc: Global,
    left: Option<Rc<Node>>,
    right: Option<Rc<Node>>,
) -> Result<Option<Rc<Node>>, AllocError>
    requires fits { (total (pieces_in left)).bytes + (total (pieces_in right)).bytes < 2 ^ 63 }
    ensures text { IfOk result (λ tree. concat (pieces_in tree) ≡ concat (pieces_in left) ++
        concat (pieces_in right)) }
{
    match (left, right) {
        (None, right) => Ok(right),
        (Some(left), None) => Ok(Some(left)),
        (Some(left), Some(right)) => {
            let tree = append_both(alloc, &left, &right)?;
            Ok(Some(tree))
        }
    }
}

/// `joins::concat` for a front that may be empty.
fn behind(alloc: Global, front: Option<Rc<Node>>, back: Rc<Node>) -> Result<Rc<Node>, AllocError>
    requires { IsRopeText (pieces_in front ++ back.value.pieces) }
    ensures { IfOk result (λ node. node.value.pieces ≡ pieces_in front ++ back.value.pieces) }
{
    match front {
        None => Ok(back),
        Some(front) => {
            let node = joins::concat(alloc, &front, &back)?;
            Ok(node)
        }
    }
}

/// `append` of two texts that aren't empty. The leaf at their seam is then joined with what follows
/// it.
fn append_both(alloc: Global, left: &Rc<Node>, right: &Rc<Node>) -> Result<Rc<Node>, AllocError>
    requires fits { (total left.now.value.pieces).bytes + (total right.now.value.pieces).bytes
        < 2 ^ 63 }
    ensures { IfOk result (λ tree. concat tree.value.pieces ≡ concat left.now.value.pieces ++
        concat right.now.value.pieces) }
{
    // For the proof only.
    let _ = (left.height(), right.height());
    let end = left.counts().bytes;
    let last = leaf_at(left, By::Bytes, end).leaf;
    let first = leaf_at(right, By::Bytes, 0).leaf;
    let start = end - last.as_str().len();
    let is_end = first.as_str().len() == right.counts().bytes;
    let Some(Seam { leaf, from, to }) = Seam::of(last, first, is_end) else {
        let tree = joins::concat(alloc, left, right)?;
        return Ok(tree);
    };
    let before = split_front(alloc, left, start + from, &mut Visits::new())?;
    let after = split_back(alloc, right, to, &mut Visits::new())?;
    let middle = leaf.into_leaf(alloc)?;
    let leaf = Rc::new(alloc, Node::from_leaf(middle))?;
    let back = match after {
        None => leaf,
        Some(rest) => append_both(alloc, &leaf, &rest)?,
    };
    // For the proof only.
    let _ = back.height();
    let tree = behind(alloc, before, back)?;
    Ok(tree)
}
