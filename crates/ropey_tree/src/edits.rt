//! Edits inside one leaf, which copy only the path to it.

ghost use Rattle.std.specs.Prelude.{◌≡◌, ℕ, List, [], ◌∷◌, ◌++◌, ◌+◌, ◌-◌, ◌*◌, ◌<◌, ◌≤◌, ◌^◌, length, take, drop, map, ◌&&◌, if◌then◌else◌, true, false, IfOk, IfSome, IfNone, string_bytes};
ghost use Rattle.std.specs.List.{concat};
ghost use Rattle.std.specs.Str.{chars, IsCharBoundary};
ghost use Rattle.str_indices.specs.Text.{breaks, byte_len, ends_with_cr, starts_with_lf};
ghost use Rattle.ropey_tree.specs.Breaks.{is_break};
ghost use Rattle.ropey_tree.specs.Counts.{counts_of, total};
ghost use Rattle.ropey_tree.specs.Cutting.{IsCutting, cuts_cr_lf};
ghost use Rattle.ropey_tree.specs.Edits.{IsReplaced, MayStandFor, AreEdited, IsEdited};
ghost use Rattle.ropey_tree.specs.LeafRow.{leaves_of, AreLeavesCounted, IsReplacedBy};
ghost use Rattle.ropey_tree.specs.NodeView.{NodeView};
ghost use Rattle.ropey_tree.specs.Nodes.{leaf_view};
ghost use Rattle.ropey_tree.specs.Siblings.{nodes_of, AreJoinedCounted};

use crate::MAX_BYTES;
use crate::counts::{By, Counts};
use crate::leaf::{Leaf, fill_end, is_cr_last, is_lf_first};
use crate::made::Made;
use crate::node::{Node, Parts};
use crate::siblings::{Joined, over_two, pack_with};
use crate::visits::Visits;
use std::alloc::{AllocError, Global};
use std::rc::Rc;

/// The leaves that an edit makes of one.
#[derive(Drop)]
enum Leaves {
    /// One leaf, and its counts.
    One(Leaf, Counts),
    /// Two in order, each with its counts.
    Two(Leaf, Counts, Leaf, Counts),
}

/// The greatest number of bytes that fit into two leaves, wherever the text is cut between
/// characters.
const TWO_LEAVES: usize = 1_960;

/// Returns a character boundary near the middle of a text, but not between CR and LF.
fn middle(text: &str) -> usize
    requires long { 984 ≤ length text.now }
    requires fits { length text.now ≤ 1_960 }
    ensures boundary { IsCharBoundary text.now result }
    ensures front { (488 ≤ result) × (result ≤ 984) }
    ensures back { (result + 488 ≤ length text.now) × (length text.now ≤ result + 984) }
    ensures whole { cuts_cr_lf (chars (take result text.now)) (chars (drop result text.now))
        ≡ false }
{
    fill_end(text, text.len() / 2)
}

/// Makes two leaves of a text of at least 984 bytes, cut near the middle.
fn two_leaves(alloc: Global, text: &str) -> Result<(Leaf, Leaf), AllocError>
    requires long { 984 ≤ length text.now }
    requires fits { length text.now ≤ 1_960 }
    ensures text { IfOk result (λ two. two.0 ++ two.1 ≡ chars text.now) }
    ensures cut { IfOk result (λ two. IsCutting (two.0 ∷ two.1 ∷ [])) }
    ensures front { IfOk result (λ two. 488 ≤ byte_len two.0) }
    ensures back { IfOk result (λ two. 488 ≤ byte_len two.1) }
{
    let at = middle(text);
    let front = Leaf::new(alloc, &text[..at])?;
    let back = Leaf::new(alloc, &text[at..])?;
    Ok((front, back))
}

/// Returns the parts of a leaf before one byte index, up to another, and from that on. `None` if an
/// index is inside a character or past the end, or if the leaf with the text in place of the middle
/// part would have fewer than `least` bytes or more than 1,960.
fn parts_of<'a>(
    leaf: &'a Leaf,
    from: usize,
    to: usize,
    text: &str,
    least: usize,
) -> Option<(&'a str, &'a str, &'a str)>
    requires range { from ≤ to }
    requires some { 1 ≤ least }
    ensures parts { IfSome result (λ parts. leaf.now ≡
        chars parts.0.now ++ chars parts.1.now ++ chars parts.2.now) }
    ensures starts { IfSome result (λ parts. byte_len (chars parts.0.now) ≡ from) }
    ensures ends { IfSome result (λ parts.
        byte_len (chars parts.0.now ++ chars parts.1.now) ≡ to) }
    ensures whole { IfSome result (λ parts.
        length parts.0.now + length parts.1.now + length parts.2.now ≤ 984) }
    ensures some { IfSome result (λ parts.
        1 ≤ length parts.0.now + length text.now + length parts.2.now) }
    ensures few { IfSome result (λ parts.
        length parts.0.now + length text.now + length parts.2.now ≤ 1_960) }
    ensures none { IfNone result ((new : List ℕ) → IsReplaced leaf.now from to (chars text.now) new
        → least ≤ byte_len new → 1_960 < byte_len new) }
{
    let old = leaf.as_str();
    if !old.is_char_boundary(from) || !old.is_char_boundary(to) {
        return None;
    }
    let kept = old.len() - (to - from);
    if text.len() > TWO_LEAVES - kept || kept + text.len() < least {
        return None;
    }
    Some((&old[..from], &old[from..to], &old[to..]))
}

/// Returns a copy of three texts in one.
fn joined(alloc: Global, front: &str, text: &str, back: &str) -> Result<String, AllocError>
    requires { length front.now + length text.now + length back.now ≤ 1_960 }
    ensures text { IfOk result (λ whole. chars (string_bytes whole) ≡
        chars front.now ++ chars text.now ++ chars back.now) }
    ensures bytes { IfOk result (λ whole. string_bytes whole ≡
        front.now ++ text.now ++ back.now) }
{
    let mut whole = String::with_capacity(alloc, front.len() + text.len() + back.len())?;
    whole.push_str(front)?;
    whole.push_str(text)?;
    whole.push_str(back)?;
    Ok(whole)
}

/// Returns the number of CR LF across two texts, by whether the first ends with CR and the second
/// starts with LF.
fn cut_between(is_cr: bool, is_lf: bool) -> usize
    ensures value { result ≡ (if is_cr && is_lf then 1 else 0) }
    ensures few { result ≤ 1 }
{
    if is_cr && is_lf { 1 } else { 0 }
}

/// Returns the number of CR LF across the ends of a text: one if it starts with LF after a CR, and
/// one if it ends with CR before an LF. That many breaks are counted twice if the text and its
/// neighbours are counted separately.
fn seams(is_cr: bool, text: &str, is_lf: bool) -> usize
    ensures few { result ≤ 2 }
    ensures seams { (front back : List ℕ) →
        ends_with_cr front ≡ is_cr → starts_with_lf back ≡ is_lf →
        breaks is_break (front ++ chars text.now ++ back) + result ≡
        breaks is_break front + breaks is_break (chars text.now) + breaks is_break back }
{
    if text.is_empty() {
        return cut_between(is_cr, is_lf);
    }
    cut_between(is_cr, is_lf_first(text)) + cut_between(is_cr_last(text), is_lf)
}

/// Returns the counts of a leaf with a text in place of another one, from its old counts.
fn counts_replaced(counts: Counts, front: &str, gone: &str, text: &str, back: &str) -> Counts
    requires counted { counts ≡ counts_of (chars front.now ++ chars gone.now ++ chars back.now) }
    requires few { length front.now + length gone.now + length back.now ≤ 984 }
    requires fits { length text.now ≤ 1_960 }
    ensures { result ≡ counts_of (chars front.now ++ chars text.now ++ chars back.now) }
{
    let (is_cr, is_lf) = (is_cr_last(front), is_lf_first(back));
    let (less, more) = (Counts::of(gone), Counts::of(text));
    let lost = seams(is_cr, gone, is_lf);
    let cut = seams(is_cr, text, is_lf);
    Counts {
        bytes: counts.bytes - less.bytes + more.bytes,
        chars: counts.chars - less.chars + more.chars,
        units: counts.units - less.units + more.units,
        breaks: counts.breaks + lost - less.breaks + more.breaks - cut,
    }
}

/// Returns whether a text has the ends of a leaf: both start with LF or neither does, and both end
/// with CR or neither does.
fn has_ends_of(text: &str, leaf: &Leaf) -> bool
    ensures starts { result ≡ true →
        starts_with_lf (chars text.now) ≡ starts_with_lf leaf.now }
    ensures ends { result ≡ true → ends_with_cr (chars text.now) ≡ ends_with_cr leaf.now }
    ensures same { starts_with_lf (chars text.now) ≡ starts_with_lf leaf.now →
        ends_with_cr (chars text.now) ≡ ends_with_cr leaf.now → result ≡ true }
{
    is_lf_first(text) == leaf.is_lf_first() && is_cr_last(text) == leaf.is_cr_last()
}

/// Returns the leaf, or two leaves, with a text in place of a range of bytes: two if one would have
/// at least 984 bytes. `None` if an index is inside a character or past the end, if fewer than
/// `least` bytes would be left or more than 1,960, or if a first LF or a last CR would appear or
/// disappear, which the neighbouring leaves depend on.
fn with_text_replaced(
    alloc: Global,
    leaf: &Leaf,
    counts: Counts,
    from: usize,
    to: usize,
    text: &str,
    least: usize,
) -> Result<Option<Leaves>, AllocError>
    requires range { from ≤ to }
    requires counted { counts ≡ counts_of leaf.now }
    requires some { 1 ≤ least }
    ensures replaced { IfOk result (λ new. IfSome new (λ new.
        IsReplaced leaf.now from to (chars text.now) (concat (leaves_of new)))) }
    ensures may_stand { IfOk result (λ new. IfSome new (λ new.
        MayStandFor leaf.now (leaves_of new))) }
    ensures counted { IfOk result (λ new. IfSome new AreLeavesCounted) }
    ensures none { IfOk result (λ new. IfNone new ((leaves : List (List ℕ)) →
        IsReplaced leaf.now from to (chars text.now) (concat leaves)
        → MayStandFor leaf.now leaves → least ≤ byte_len (concat leaves)
        → 1_960 < byte_len (concat leaves))) }
{
    let Some((front, gone, back)) = parts_of(leaf, from, to, text, least) else {
        return Ok(None);
    };
    let whole = joined(alloc, front, text, back)?;
    let new = whole.as_str();
    if !has_ends_of(new, leaf) {
        return Ok(None);
    }
    let counts = counts_replaced(counts, front, gone, text, back);
    if new.len() < MAX_BYTES {
        return Ok(Some(Leaves::One(Leaf::of(whole), counts)));
    }
    let two = two_leaves(alloc, new)?;
    let less = two.0.counts();
    let more = counts.saturating_sub(less);
    Ok(Some(Leaves::Two(two.0, less, two.1, more)))
}

/// Puts leaves into nodes.
fn nodes_over(alloc: Global, leaves: Leaves, made: &mut Made) -> Result<Joined, AllocError>
    requires { AreLeavesCounted leaves }
    ensures nodes { IfOk result (λ nodes. nodes_of nodes ≡ map leaf_view (leaves_of leaves)) }
    ensures counted { IfOk result AreJoinedCounted }
    ensures made { IfOk result (λ _. made.new.nodes ≡
        made.old.nodes + length (leaves_of leaves)) }
    ensures least { made.old.nodes ≤ made.new.nodes }
    ensures most { made.new.nodes ≤ made.old.nodes + 2 }
{
    match leaves {
        Leaves::One(leaf, counts) => {
            let only = made.share(alloc, Node::from_leaf(leaf))?;
            Ok(Joined::One(only, counts))
        }
        Leaves::Two(front, counts, back, more) => {
            let first = made.share(alloc, Node::from_leaf(front))?;
            let second = made.share(alloc, Node::from_leaf(back))?;
            Ok(Joined::Two(first, counts, second, more))
        }
    }
}

/// Returns the least number of bytes that a leaf keeps: the one that ends the text may be short.
fn least_kept(least: usize, is_end: bool) -> usize
    requires { 1 ≤ least }
    ensures some { 1 ≤ result }
    ensures few { result ≤ least }
{
    if is_end { 1 } else { least }
}

/// Returns the node, or two nodes of its height, with a text in place of a range of bytes. Copies
/// the path to the leaf; a node on it that gets 25 children becomes two. The node's counts are
/// given, so nothing is recounted. A leaf keeps at least `least` bytes, unless it and the node end
/// the text.
fn replaced(
    alloc: Global,
    node: &Rc<Node>,
    counts: Counts,
    from: usize,
    to: usize,
    text: &str,
    least: usize,
    is_end: bool,
    made: &mut Made,
    visits: &mut Visits,
) -> Result<Option<Joined>, AllocError>
    requires range { from ≤ to }
    requires counted { counts ≡ total node.now.value.pieces }
    requires fits { (total node.now.value.pieces).bytes + byte_len (chars text.now) < 2 ^ 63 }
    requires some { 1 ≤ least }
    ensures edited { IfOk result (λ nodes. IfSome nodes (λ nodes.
        IsReplacedBy node.now.value from to (chars text.now) (made.new.nodes - made.old.nodes)
        (nodes_of nodes))) }
    ensures counted { IfOk result (λ nodes. IfSome nodes AreJoinedCounted) }
    ensures none { IfOk result (λ nodes. IfNone nodes ((pieces : List (List ℕ)) →
        (h : AreEdited node.now.value from to (chars text.now) pieces) →
        least ≤ byte_len (concat h.leaves) → 1_960 < byte_len (concat h.leaves))) }
    ensures nothing { IfOk result (λ nodes. IfNone nodes (made.new.nodes ≡ made.old.nodes)) }
    ensures least { made.old.nodes ≤ made.new.nodes }
    ensures most { made.new.nodes ≤ made.old.nodes + 2 * (node.now.value.height + 1) }
    ensures visited { visits.new.nodes ≡ visits.old.nodes + node.now.value.height }
    ensures compared { visits.new.comparisons ≤
        visits.old.comparisons + 5 * node.now.value.height }
{
    match node.parts() {
        Parts::Leaf(leaf) => {
            let least = least_kept(least, is_end);
            match with_text_replaced(alloc, leaf, counts, from, to, text, least)? {
                None => Ok(None),
                Some(leaves) => {
                    let nodes = nodes_over(alloc, leaves, made)?;
                    Ok(Some(nodes))
                }
            }
        }
        Parts::Inner(children) => {
            let choice = children.choose(By::Bytes, from, visits);
            let child = children.get(choice.index);
            let before = choice.before.bytes;
            let (start, end) = (from - before, to - before);
            let is_end = is_end && choice.index == children.len() - 1;
            let counts = choice.len;
            match replaced(
                alloc, child, counts, start, end, text, least, is_end, made, visits,
            )? {
                None => Ok(None),
                Some(edited) => {
                    let height = node.height();
                    let index = choice.index;
                    let nodes = pack_with(alloc, height, children, index, edited, made)?;
                    Ok(Some(nodes))
                }
            }
        }
    }
}

/// Returns the tree with a text in place of a range of bytes, if both ends are in the leaf that
/// contains `from`. The path to it is copied, and all else is shared; the tree itself is unchanged.
///
/// A leaf that would have at least 984 bytes becomes two of about half of it each, and so does a
/// node above it that gets 25 children; the tree becomes a level higher if its root does.
///
/// Returns `None`, and makes no node, if an index is inside a character, if `to` is outside that
/// leaf, if the leaf would have fewer than `least` bytes and isn't the last one, if it would have
/// no text or more than 1,960 bytes, or if a CR LF might then span one of its ends.
///
/// # Requires
///
/// `from <= to` and `least >= 1`, and the two texts together have fewer than 2^63 bytes.
///
/// # Errors
///
/// Out of memory.
///
/// # Complexity
///
/// Makes one node for each level, 19 at most, if one leaf replaces it; if two do, at most two for
/// each level and a root.
pub fn replace_in_leaf(
    alloc: Global,
    node: &Rc<Node>,
    from: usize,
    to: usize,
    text: &str,
    least: usize,
    made: &mut Made,
    visits: &mut Visits,
) -> Result<Option<Rc<Node>>, AllocError>
    requires range { from ≤ to }
    requires fits { (total node.now.value.pieces).bytes + byte_len (chars text.now) < 2 ^ 63 }
    requires some { 1 ≤ least }
    ensures edited { IfOk result (λ tree. IfSome tree (λ edited.
        IsEdited node.now.value from to (chars text.now) edited.value)) }
    ensures none { IfOk result (λ tree. IfNone tree ((w : NodeView) →
        (h : IsEdited node.now.value from to (chars text.now) w) →
        least ≤ byte_len (concat h.edited.leaves) →
        1_960 < byte_len (concat h.edited.leaves))) }
    ensures path { IfOk result (λ tree. IfSome tree (λ edited.
        length edited.value.pieces ≡ length node.now.value.pieces →
        made.new.nodes ≡ made.old.nodes + (node.now.value.height + 1))) }
    ensures one_path { IfOk result (λ tree. IfSome tree (λ edited.
        length edited.value.pieces ≡ length node.now.value.pieces →
        made.new.nodes ≤ made.old.nodes + 19)) }
    ensures nothing { IfOk result (λ tree. IfNone tree (made.new.nodes ≡ made.old.nodes)) }
    ensures level { made.new.nodes ≤ made.old.nodes + (2 * (node.now.value.height + 1) + 1) }
    ensures few { made.new.nodes ≤ made.old.nodes + 39 }
    ensures visited { visits.new.nodes ≡ visits.old.nodes + node.now.value.height }
    ensures few_visited { visits.new.nodes ≤ visits.old.nodes + 18 }
    ensures compared { visits.new.comparisons ≤
        visits.old.comparisons + 5 * node.now.value.height }
{
    let height = node.height();
    let counts = node.counts();
    match replaced(
        alloc, node, counts, from, to, text, least, true, made, visits,
    )? {
        None => Ok(None),
        Some(Joined::One(only, _)) => Ok(Some(only)),
        Some(Joined::Two(first, counts, second, more)) => {
            let root = over_two(alloc, height + 1, first, counts, second, more, made)?;
            Ok(Some(root))
        }
    }
}
