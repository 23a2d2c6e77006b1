//! For each state of a program the edges that lead to it, and for each pattern the states of its
//! matches.

ghost use Rattle.std.specs.Prelude.{◌≡◌, ◌+◌, ◌*◌, ◌<◌, ◌^◌, ◌==◌, [], length, map, OnOk, IfOk};
ghost use Rattle.rx_walks.specs.Reversed.{arrived, has, is_match, is_match_of, leads_to, those};
ghost use Rattle.rx_utf8.specs.Subsets.{lists_of};
ghost use Rattle.rx_program.specs.Arrivals.{AreLists, PutsNumber, ends_with, match_in, with_last};
ghost use Rattle.rx_program.specs.Programs.{node_of};

use crate::states::State;
use rx_util::{PatternID, StateID};
use std::alloc::{AllocError, Global};

/// Returns `count` empty lists.
fn empty_lists(alloc: Global, count: usize) -> Result<Vec<Vec<StateID>>, AllocError>
    ensures { IfOk result (λ lists. AreLists count (λ q. []) (lists_of lists.items)) }
{
    let mut lists = Vec::new(alloc);
    for _ in 0..count {
        lists.push(Vec::new(alloc))?;
    }
    Ok(lists)
}

/// Returns whether the list ends with the number.
fn ends_with(list: &[StateID], id: StateID) -> bool
    ensures { result ≡ ends_with list.now id }
{
    match list.last() {
        Some(last) => last.as_usize() == id.as_usize(),
        None => false,
    }
}

/// Appends the number to the list, unless it ends with it.
fn put_last(list: &mut Vec<StateID>, id: StateID) -> Result<(), AllocError>
    ensures { OnOk result (list.new.items ≡ with_last list.old.items id) }
{
    if !ends_with(list, id) {
        list.push(id)?;
    }
    Ok(())
}

/// Appends the number to the list at an index, if there is one, unless it ends with it.
fn put_at(lists: &mut Vec<Vec<StateID>>, at: usize, id: StateID) -> Result<(), AllocError>
    ensures { OnOk result (PutsNumber id (λ q. at == q) (lists_of lists.old.items)
        (lists_of lists.new.items)) }
{
    if at < lists.len() {
        put_last(&mut lists[at], id)?;
    }
    Ok(())
}

/// Appends the number to the lists of these states, unless they end with it.
fn put_at_all(
    lists: &mut Vec<Vec<StateID>>,
    states: &[StateID],
    id: StateID,
) -> Result<(), AllocError>
    ensures { OnOk result (PutsNumber id (λ q. has states.now q) (lists_of lists.old.items)
        (lists_of lists.new.items)) }
{
    for state in states {
        put_at(lists, state.as_usize(), id)?;
    }
    Ok(())
}

/// Appends the number to the lists of the states to which the edges of a state lead.
fn put_edges(lists: &mut Vec<Vec<StateID>>, state: &State, id: StateID) -> Result<(), AllocError>
    ensures { OnOk result (PutsNumber id (λ q. leads_to q (node_of state.now))
        (lists_of lists.old.items) (lists_of lists.new.items)) }
{
    match state {
        State::Ranges(_, next) => put_at(lists, next.as_usize(), id),
        State::Look(_, next) => put_at(lists, next.as_usize(), id),
        State::Empty(next) => put_at(lists, next.as_usize(), id),
        State::BinaryUnion(first, second) => {
            put_at(lists, first.as_usize(), id)?;
            put_at(lists, second.as_usize(), id)
        }
        State::Union(alternates) => put_at_all(lists, alternates, id),
        State::Capture(_, next) => put_at(lists, next.as_usize(), id),
        State::Match(_) => Ok(()),
    }
}

/// Returns for each state the states with an edge to it, numbered from the number of states on.
fn edges_to(alloc: Global, states: &[State]) -> Result<Vec<Vec<StateID>>, AllocError>
    requires { 2 * length states.now < 2 ^ 64 }
    ensures { let nodes = map node_of states.now in
        IfOk result (λ lists. AreLists (length nodes)
        (λ q. those (leads_to q) (length nodes) nodes) (lists_of lists.items)) }
{
    let mut lists = empty_lists(alloc, states.len())?;
    for from in 0..states.len() {
        put_edges(&mut lists, &states[from], StateID::new(states.len() + from))?;
    }
    Ok(lists)
}

/// Returns for each state where backward walks go on: along the edges that lead to the state, and
/// to the matches of the patterns that start there.
pub(crate) fn arrivals(
    alloc: Global,
    states: &[State],
    patterns: &[StateID],
) -> Result<Vec<Vec<StateID>>, AllocError>
    requires { 2 * length states.now + length patterns.now < 2 ^ 64 }
    ensures { let nodes = map node_of states.now in
        IfOk result (λ lists. AreLists (length nodes) (λ q. arrived nodes patterns.now q)
        (lists_of lists.items)) }
{
    let mut lists = edges_to(alloc, states)?;
    for number in 0..patterns.len() {
        let start = patterns[number].as_usize();
        put_at(&mut lists, start, StateID::new(2 * states.len() + number))?;
    }
    Ok(lists)
}

/// Returns the pattern whose match ends at a state.
fn match_of(state: &State) -> Option<PatternID>
    ensures { result ≡ match_in (node_of state.now) }
{
    match state {
        State::Match(pattern) => Some(*pattern),
        _ => None,
    }
}

/// Returns the states at which matches end.
pub(crate) fn ends(alloc: Global, states: &[State]) -> Result<Vec<StateID>, AllocError>
    ensures { IfOk result (λ list. list.items ≡ those is_match 0 (map node_of states.now)) }
{
    let mut list = Vec::new(alloc);
    for from in 0..states.len() {
        if match_of(&states[from]).is_some() {
            list.push(StateID::new(from))?;
        }
    }
    Ok(list)
}

/// Appends the number to the list of the pattern whose match ends at a state.
fn put_match(lists: &mut Vec<Vec<StateID>>, state: &State, id: StateID) -> Result<(), AllocError>
    ensures { OnOk result (PutsNumber id (λ k. is_match_of k (node_of state.now))
        (lists_of lists.old.items) (lists_of lists.new.items)) }
{
    match match_of(state) {
        Some(pattern) => put_at(lists, pattern.as_usize(), id),
        None => Ok(()),
    }
}

/// Returns for each of `count` patterns the states at which its matches end.
pub(crate) fn ends_by_pattern(
    alloc: Global,
    states: &[State],
    count: usize,
) -> Result<Vec<Vec<StateID>>, AllocError>
    ensures { IfOk result (λ lists. AreLists count
        (λ k. those (is_match_of k) 0 (map node_of states.now)) (lists_of lists.items)) }
{
    let mut lists = empty_lists(alloc, count)?;
    for from in 0..states.len() {
        put_match(&mut lists, &states[from], StateID::new(from))?;
    }
    Ok(lists)
}
