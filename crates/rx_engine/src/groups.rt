//! The groups of patterns and their names.

ghost use Rattle.std.specs.Prelude.{◌≡◌, ◌<◌, All, IfOk, IfSome, OnOk, None, Some, MatchOption, [], map, replicate, set, vec_len};
ghost use Rattle.rx_util.specs.Groups.{named_groups, names_of};
ghost use Rattle.rx_grammar.specs.Subtrees.{IsWellFormed, a_group};
ghost use Rattle.rx_grammar.specs.Nodes.{kind_of};
ghost use Rattle.rx_grammar.specs.Postorder.{own_names, tree_of};
ghost use Rattle.rx_grammar.specs.StaticGroups.{static_captures_of_all};
ghost use Rattle.rx_engine.specs.Engines.{AreGroupNamesOf, AreNamesOf, AreNotedOf, captures_len_of};

use rx_grammar::{Hir, Node};
use rx_util::{GroupInfo, WhichCaptures};
use std::alloc::{AllocError, Global};

/// Returns the number and the name of a named group.
fn named_group(node: &Node) -> Option<(usize, &str)>
    ensures { MatchOption result (own_names (kind_of node.now) ≡ [])
        (λ group. kind_of node.now ≡ a_group group.0 (Some group.1.now)) }
{
    match node {
        Node::Group(number, Some(name)) => Some((*number as usize, name.as_str())),
        _ => None,
    }
}

/// Returns the names of `count` groups without a name.
fn nameless(alloc: Global, count: usize) -> Result<Vec<Option<String>>, AllocError>
    ensures { IfOk result (λ names. names.items ≡ replicate count None) }
{
    let mut names = Vec::with_capacity(alloc, count)?;
    for _ in 0..count {
        names.push(None)?;
    }
    Ok(names)
}

/// Records the name of a group.
fn note_name(names: &mut Vec<Option<String>>, index: usize, name: String)
    requires { index < vec_len names.old }
    ensures { names.new.items ≡ set names.old.items index (Some name) }
{
    names[index] = Some(name);
}

/// Returns the names of a pattern's groups, from group 1 on. `O(n)` in the number of nodes and in
/// the lengths of the names.
fn group_names(alloc: Global, hir: &Hir) -> Result<Vec<Option<String>>, AllocError>
    ensures names { IfOk result (λ names. AreNamesOf (tree_of hir.now) (names_of names.items)) }
    ensures well_formed { IsWellFormed (tree_of hir.now) }
{
    let mut names = nameless(alloc, hir.group_count())?;
    for node in hir.nodes() {
        if let Some((number, name)) = named_group(node) {
            let name = String::from_str(alloc, name)?;
            note_name(&mut names, number - 1, name);
        }
    }
    Ok(names)
}

/// Returns for each pattern the names of its groups, from group 1 on.
fn all_names(alloc: Global, hirs: &[&Hir]) -> Result<Vec<Vec<Option<String>>>, AllocError>
    ensures groups { IfOk result (λ names.
        AreGroupNamesOf (map (λ hir. tree_of hir.now) hirs.now) (named_groups names.items)) }
    ensures well_formed { OnOk result
        (All IsWellFormed (map (λ hir. tree_of hir.now) hirs.now)) }
{
    let mut patterns = Vec::with_capacity(alloc, hirs.len())?;
    for hir in hirs {
        patterns.push(group_names(alloc, hir)?)?;
    }
    Ok(patterns)
}

/// Returns the groups of patterns that are captured.
pub(crate) fn groups_of(
    alloc: Global,
    hirs: &[&Hir],
    which: WhichCaptures,
) -> Result<GroupInfo, AllocError>
    ensures groups { IfOk result
        (λ groups. AreNotedOf which (map (λ hir. tree_of hir.now) hirs.now) groups) }
    ensures well_formed { OnOk result
        (All IsWellFormed (map (λ hir. tree_of hir.now) hirs.now)) }
{
    GroupInfo::noted(alloc, which, all_names(alloc, hirs)?)
}

/// Returns the number of groups of all patterns, including the whole match of each, or `None` if it
/// exceeds `usize::MAX`.
pub(crate) fn count_groups(hirs: &[&Hir]) -> Option<usize>
    ensures { IfSome result
        (λ len. len ≡ captures_len_of (map (λ hir. tree_of hir.now) hirs.now)) }
{
    let mut len: usize = 0;
    for hir in hirs {
        len = len.checked_add(hir.group_count())?.checked_add(1)?;
    }
    Some(len)
}

/// Returns the number of groups in every match of patterns, including the whole match. `None` if
/// matches differ in that, or if there is no pattern.
pub(crate) fn static_captures_len(hirs: &[&Hir]) -> Option<usize>
    ensures { result ≡ static_captures_of_all (map (λ hir. tree_of hir.now) hirs.now) }
{
    let len = hirs.first()?.static_captures_len()?;
    for hir in hirs {
        if hir.static_captures_len() != Some(len) {
            return None;
        }
    }
    Some(len)
}
