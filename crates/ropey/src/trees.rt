//! Edits of a rope's tree, by byte indices at character boundaries. No tree is changed: each edit
//! returns a new one, which shares nodes with the old.

ghost use Rattle.std.specs.Prelude.{◌≡◌, ◌+◌, ◌-◌, ◌^◌, ◌<◌, ◌≤◌, [], ◌++◌, length, IfOk, IfSome};
ghost use Rattle.std.specs.Str.{chars};
ghost use Rattle.str_indices.specs.Text.{byte_len};
ghost use Rattle.ropey_tree.specs.Cutting.{IsBoundaryOf};
ghost use Rattle.ropey_tree.specs.Edits.{IsReplaced, IsEdited};
ghost use Rattle.ropey_tree.specs.Splits.{pieces_in, IsSplit};
ghost use Rattle.ropey.specs.Chunks.{text_of};

use crate::rope::{MAX_TEXT_BYTES, Rope};
use ropey_tree::MIN_BYTES;
use ropey_tree::cutter::leaves_of;
use ropey_tree::edits::replace_in_leaf;
use ropey_tree::halves::{split_back, split_front};
use ropey_tree::made::Made;
use ropey_tree::node::Node;
use ropey_tree::seams::append;
use ropey_tree::splits::{Halves, halves_at};
use ropey_tree::visits::Visits;
use std::alloc::{AllocError, Global};
use std::rc::Rc;

/// Returns the tree of a text.
fn tree_of(alloc: Global, text: &str) -> Result<Option<Rc<Node>>, AllocError>
    requires fits { length text.now < 2 ^ 63 }
    ensures { IfOk result (λ tree. text_of (pieces_in tree) ≡ chars text.now) }
{
    let leaves = leaves_of(alloc, text)?;
    let rope = Rope::from_leaves(alloc, leaves)?;
    Ok(rope.root)
}

/// Returns the tree with text appended. If the last leaf takes the text, or is split into two
/// leaves that do, this copies the path to it. Empty text costs nothing.
fn extended(
    alloc: Global,
    tree: Option<Rc<Node>>,
    text: &str,
) -> Result<Option<Rc<Node>>, AllocError>
    requires fits { byte_len (text_of (pieces_in tree)) + length text.now < 2 ^ 63 }
    ensures { IfOk result (λ longer. text_of (pieces_in longer) ≡
        text_of (pieces_in tree) ++ chars text.now) }
{
    if text.is_empty() {
        return Ok(tree);
    }
    if let Some(node) = &tree {
        let end = node.counts().bytes;
        if let Some(longer) = replace_in_leaf(
            alloc,
            node,
            end,
            end,
            text,
            1,
            &mut Made::new(),
            &mut Visits::new(),
        )? {
            return Ok(Some(longer));
        }
    }
    let added = tree_of(alloc, text)?;
    let longer = append(alloc, tree, added)?;
    Ok(longer)
}

/// Returns the fewest bytes that an edited leaf may have. Only an edit that shrinks the leaf can
/// make it too short.
fn least_kept(gone: usize, come: usize) -> usize
    ensures { 1 ≤ result }
{
    if come >= gone { 1 } else { MIN_BYTES }
}

/// Returns the tree, of `len` bytes, with the text from one byte index to another replaced. `None`
/// unless both are in one leaf that takes the new text and stays long enough. Copies the path to
/// that leaf.
fn replaced_in_leaf(
    alloc: Global,
    node: &Rc<Node>,
    len: usize,
    from: usize,
    to: usize,
    text: &str,
) -> Result<Option<Rc<Node>>, AllocError>
    requires len { len ≡ byte_len (text_of node.now.value.pieces) }
    requires order { from ≤ to }
    ensures edited { IfOk result (λ tree. IfSome tree (λ edited.
        IsEdited node.now.value from to (chars text.now) edited.value)) }
{
    // Needed by the proof only.
    let _ = node.height();
    // A sufficient test: the bytes removed aren't counted.
    if text.len() > MAX_TEXT_BYTES - len {
        return Ok(None);
    }
    let tree = replace_in_leaf(
        alloc,
        node,
        from,
        to,
        text,
        least_kept(to - from, text.len()),
        &mut Made::new(),
        &mut Visits::new(),
    )?;
    Ok(tree)
}

/// Returns the trees before one byte index and after another.
fn around(alloc: Global, node: &Rc<Node>, from: usize, to: usize) -> Result<Halves, AllocError>
    requires order { from ≤ to }
    requires starts { IsBoundaryOf (text_of node.now.value.pieces) from }
    requires ends { IsBoundaryOf (text_of node.now.value.pieces) to }
    ensures gone { IfOk result (λ halves. IsReplaced (text_of node.now.value.pieces) from to []
        (text_of (pieces_in halves.left) ++ text_of (pieces_in halves.right))) }
    ensures place { IfOk result (λ halves. byte_len (text_of (pieces_in halves.left)) ≡ from) }
{
    if from == to {
        let halves = halves_at(alloc, node, from)?;
        return Ok(halves);
    }
    let left = split_front(alloc, node, from, &mut Visits::new())?;
    let right = split_back(alloc, node, to, &mut Visits::new())?;
    Ok(Halves { left, right })
}

/// Returns the tree, of `len` bytes, with the text from one byte index to another replaced.
///
/// If both are in one leaf that takes the new text, possibly as two leaves, this copies the path to
/// it. Otherwise it splits the tree at both indices and joins the left part, the new text and the
/// right part.
pub(crate) fn replaced(
    alloc: Global,
    root: &Option<Rc<Node>>,
    len: usize,
    from: usize,
    to: usize,
    text: &str,
) -> Result<Option<Rc<Node>>, AllocError>
    requires len { len ≡ byte_len (text_of (pieces_in root.now)) }
    requires order { from ≤ to }
    requires starts { IsBoundaryOf (text_of (pieces_in root.now)) from }
    requires ends { IsBoundaryOf (text_of (pieces_in root.now)) to }
    requires fits { byte_len (text_of (pieces_in root.now)) - (to - from) + length text.now
        < 2 ^ 63 }
    ensures { IfOk result (λ tree. IsReplaced (text_of (pieces_in root.now)) from to
        (chars text.now) (text_of (pieces_in tree))) }
{
    match root {
        None => {
            let tree = tree_of(alloc, text)?;
            Ok(tree)
        }
        Some(node) => {
            if let Some(edited) = replaced_in_leaf(alloc, node, len, from, to, text)? {
                return Ok(Some(edited));
            }
            let rest = around(alloc, node, from, to)?;
            let front = extended(alloc, rest.left, text)?;
            let tree = append(alloc, front, rest.right)?;
            Ok(tree)
        }
    }
}

/// Returns the trees before and after a byte index.
pub(crate) fn halves_of(
    alloc: Global,
    root: &Option<Rc<Node>>,
    at: usize,
) -> Result<Halves, AllocError>
    requires { IsBoundaryOf (text_of (pieces_in root.now)) at }
    ensures { IfOk result (λ halves. IsSplit (pieces_in root.now) at (pieces_in halves.left)
        (pieces_in halves.right)) }
{
    match root {
        None => Ok(Halves {
            left: None,
            right: None,
        }),
        Some(node) => {
            let halves = halves_at(alloc, node, at)?;
            Ok(halves)
        }
    }
}
