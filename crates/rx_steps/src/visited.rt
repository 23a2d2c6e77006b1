//! The nodes that were seen at an offset.

ghost use Rattle.std.specs.Prelude.{◌≡◌, ◌<◌, ◌≤◌, ℕ, List, [], true, map, length, slice_get, IfSome, IfOk, IfErr};
ghost use Rattle.rx_util.specs.declared.search.MatchError.{MatchError};
ghost use Rattle.rx_steps.specs.Nodes.{widths_of, width_of, node_starts, end_from, index_from, IsInserted, IsMember, AreCounted};

use crate::followed::Followed;
use crate::node::Node;
use rx_program::{Program, State};
use rx_util::{MatchError, SparseSet, StateID};
use std::alloc::{AllocError, Global};
use std::marker::Model;
use std::mem::size_of;

/// Returns the number of nodes of a state.
fn width(state: &State) -> usize
    ensures { result ≡ width_of state.now }
{
    match state {
        State::Ranges(automaton, _) => automaton.state_count(),
        _ => 1,
    }
}

/// A set of nodes of a program, by their index among all. Contracts see the number of nodes of each
/// state, the indices of the members, and the number of nodes added since it was made, also of
/// those removed again.
#[derive(Debug, Drop)]
pub struct Visited {
    // The index of each state's first node, and the number of all nodes.
    starts: Vec<usize>,
    set: SparseSet,
    followed: Followed,
}

impl Model for Visited {
    ghost use Rattle.std.specs.Prelude.{◌≡◌};
    ghost use Rattle.rx_steps.specs.Nodes.{SeenNodes, widths_in, node_starts, end_from};

    ghost Value = { SeenNodes };

    ghost view = { λ v. record {
      widths = widths_in v.starts.items;
      ids = v.set.members;
      followed = v.followed;
    } };

    ghost invariant = { λ v. (v.starts.items ≡ node_starts 0 (widths_in v.starts.items))
        × (v.set.capacity ≡ end_from 0 (widths_in v.starts.items)) };
}

/// Returns the index of each state's first node and the number of all nodes, as a list, and that
/// number.
fn starts_of(alloc: Global, states: &[State]) -> Result<(Vec<usize>, usize), AllocError>
    ensures starts { IfOk result (λ made. made.0.items
        ≡ node_starts 0 (map width_of states.now)) }
    ensures end { IfOk result (λ made. made.1 ≡ end_from 0 (map width_of states.now)) }
{
    let mut starts = Vec::new(alloc);
    let mut end = 0_usize;
    for state in states {
        starts.push(end)?;
        let Some(next) = end.checked_add(width(state)) else {
            return Err(AllocError);
        };
        end = next;
    }
    starts.push(end)?;
    Ok((starts, end))
}

/// Returns the index of a state's first node.
#[inline(always)]
fn start_at(starts: &[usize], state: usize) -> Option<usize>
    ensures { result ≡ slice_get starts.now state }
{
    starts.get(state).copied()
}

impl Visited {
    /// Returns the empty set of a program's nodes.
    ///
    /// # Errors
    ///
    /// `Memory`.
    ///
    /// # Complexity
    ///
    /// Memory proportional to the program's states and those of their automata.
    pub fn new(alloc: Global, program: &Program) -> Result<Visited, MatchError>
        ensures widths { IfOk result (λ v. v.widths ≡ widths_of program.now) }
        ensures refused { IfErr result (λ error. error ≡ MatchError.Memory) }
    {
        let (starts, end) = starts_of(alloc, program.states())?;
        let set = SparseSet::new(alloc, end)?;
        Ok(Visited {
            starts,
            set,
            followed: Followed::new(),
        })
    }

    /// Returns the empty set, for states with these first nodes and this number of all nodes.
    pub(crate) fn over(alloc: Global, starts: Vec<usize>, end: usize) -> Result<Visited, MatchError>
        requires starts { (widths : List ℕ) × (starts.items ≡ node_starts 0 widths)
            × (end ≡ end_from 0 widths) }
        ensures widths { IfOk result (λ v. (widths : List ℕ)
            → starts.items ≡ node_starts 0 widths → v.widths ≡ widths) }
        ensures refused { IfErr result (λ error. error ≡ MatchError.Memory) }
    {
        let set = SparseSet::new(alloc, end)?;
        Ok(Visited {
            starts,
            set,
            followed: Followed::new(),
        })
    }

    /// Returns the empty set of the same program's nodes.
    pub(crate) fn another(&self) -> Result<Visited, MatchError>
        ensures widths { IfOk result (λ v. v.widths ≡ self.now.widths) }
        ensures followed { IfOk result (λ v. v.followed ≡ 0) }
        ensures refused { IfErr result (λ error. error ≡ MatchError.Memory) }
    {
        let mut set = self.set.clone()?;
        set.clear();
        Ok(Visited {
            starts: self.starts.clone()?,
            set,
            followed: Followed::new(),
        })
    }

    /// Returns the allocator of the lists.
    pub(crate) fn allocator(&self) -> Global {
        *self.starts.allocator()
    }

    /// Removes all nodes. `O(1)`.
    pub fn clear(&mut self)
        ensures widths { self.new.widths ≡ self.old.widths }
        ensures ids { self.new.ids ≡ [] }
        ensures followed { self.new.followed ≡ self.old.followed }
    {
        self.set.clear();
    }

    /// Returns the index of a node.
    #[inline(always)]
    fn index(&self, node: Node) -> Option<usize>
        ensures index { result ≡ index_from 0 self.now.widths node.0 node.1 }
        ensures below { IfSome result (λ k. k < end_from 0 self.now.widths) }
    {
        let state = node.state().as_usize();
        let start = start_at(&self.starts, state)?;
        let end = start_at(&self.starts, state + 1)?;
        if node.within() < end - start {
            Some(start + node.within())
        } else {
            None
        }
    }

    /// Returns whether a node is a member. `O(1)`.
    pub fn has(&self, node: Node) -> bool
        ensures { IsMember (index_from 0 self.now.widths node.0 node.1) result self.now.ids }
    {
        let Some(index) = self.index(node) else {
            return false;
        };
        self.set.contains(StateID::new(index))
    }

    /// Adds a node that has an index, and returns whether it was new. `O(1)`.
    #[inline(always)]
    pub fn insert(&mut self, node: Node) -> bool
        ensures inserted { IsInserted (index_from 0 self.old.widths node.0 node.1) result
            self.old.ids self.new.ids }
        ensures widths { self.new.widths ≡ self.old.widths }
        ensures room { result ≡ true → length self.new.ids ≤ end_from 0 self.old.widths }
        ensures counted { AreCounted self.old self.new }
    {
        let Some(index) = self.index(node) else {
            return false;
        };
        if !self.set.insert(StateID::new(index)) {
            return false;
        }
        let _len = self.set.len(); // for the proof: the members are distinct
        self.followed.add();
        true
    }

    /// Returns the approximate number of bytes of the lists.
    pub(crate) fn memory_usage(&self) -> usize {
        self.starts
            .capacity()
            .saturating_mul(size_of::<usize>())
            .saturating_add(self.set.memory_usage())
    }
}
