//! Sets of states that are cleared in `O(1)` and keep the order of insertion.

ghost use Rattle.std.specs.Prelude.{◌≡◌, ◌<◌, ◌↔◌, [], ◌∷◌, ◌++◌, length, Contains, IsTrue, IfOk, OnOk, IfErr, if◌then◌else◌};
ghost use Rattle.rx_util.specs.declared.search.MatchError.{MatchError};
ghost use Rattle.rx_util.specs.SparseSets.{IsSetBelow};

use crate::primitives::StateID;
use crate::search::MatchError;
use std::alloc::Global;
use std::iter::FusedIterator;
use std::marker::Model;
use std::mem::size_of;

/// A set of states below a capacity, in order of insertion. Contracts see the capacity and the list
/// of members, which has no repeats.
///
/// Inserting, testing and clearing take `O(1)` and don't allocate. The set keeps its allocator.
///
/// # Examples
///
/// ```rust
/// let mut set = SparseSet::new(rt.alloc(), 4)?;
/// assert!(rt; set.capacity() == 4);
/// assert!(rt; set.is_empty());
/// assert!(rt; set.insert(StateID::new(3)));
/// assert!(rt; set.insert(StateID::new(1)));
/// assert!(rt; !set.insert(StateID::new(3)));
/// ```
#[derive(Debug, Drop)]
pub struct SparseSet {
    // The first `len` are the members, in order of insertion; the rest has no meaning.
    dense: Vec<StateID>,
    // By state, its index in `dense` if it is a member, else any number.
    sparse: Vec<usize>,
    len: usize,
}

impl Model for SparseSet {
    ghost use Rattle.std.specs.Prelude.{take, length};
    ghost use Rattle.rx_util.specs.SparseSets.{StateSet, IsIndexed};

    ghost Value = { StateSet };

    ghost view = { λ set. record {
      capacity = length set.sparse.items;
      members = take set.len set.dense.items;
    } };

    ghost invariant = { λ set. IsIndexed set.dense.items set.sparse.items set.len };
}

impl SparseSet {
    /// Returns an empty set for the states below `capacity`. `O(n)` in the capacity.
    ///
    /// # Errors
    ///
    /// `Memory`.
    pub fn new(alloc: Global, capacity: usize) -> Result<SparseSet, MatchError>
        ensures made { IfOk result (λ set. (set.capacity ≡ capacity) × (set.members ≡ [])) }
        ensures refused { IfErr result (λ error. error ≡ MatchError.Memory) }
    {
        let mut set = SparseSet {
            dense: Vec::new(alloc),
            sparse: Vec::new(alloc),
            len: 0,
        };
        set.resize(capacity)?;
        Ok(set)
    }

    /// Clears the set and changes its capacity. `O(n)` in the growth of the capacity.
    ///
    /// # Errors
    ///
    /// `Memory`, which leaves the set unchanged.
    pub fn resize(&mut self, new_capacity: usize) -> Result<(), MatchError>
        ensures capacity { OnOk result (self.new.capacity ≡ new_capacity) }
        ensures members { OnOk result (self.new.members ≡ []) }
        ensures refused { IfErr result (λ error. (error ≡ MatchError.Memory) ×
            (self.new ≡ self.old)) }
    {
        if self.dense.len() < new_capacity {
            self.dense.resize(new_capacity, StateID::ZERO)?;
        }
        self.sparse.resize(new_capacity, 0)?;
        self.len = 0;
        Ok(())
    }

    /// Returns the capacity: the states below it may be members. `O(1)`.
    pub fn capacity(&self) -> usize
        ensures { result ≡ self.now.capacity }
    {
        self.sparse.len()
    }

    /// Returns the number of members. `O(1)`.
    pub fn len(&self) -> usize
        ensures len { result ≡ length self.now.members }
        ensures set { IsSetBelow self.now.capacity self.now.members }
    {
        self.len
    }

    /// Returns whether the set is empty. `O(1)`.
    pub fn is_empty(&self) -> bool
        ensures { IsTrue result ↔ (self.now.members ≡ []) }
    {
        self.len == 0
    }

    /// Inserts a state, and returns whether it was not a member before. `O(1)`.
    ///
    /// # Requires
    ///
    /// `id` is below the capacity.
    pub fn insert(&mut self, id: StateID) -> bool
        requires in_range { id < self.old.capacity }
        ensures added { IsTrue result ↔ (Contains self.old.members id → ⊥) }
        ensures members { self.new.members ≡
            (if result then self.old.members ++ id ∷ [] else self.old.members) }
        ensures capacity { self.new.capacity ≡ self.old.capacity }
    {
        if self.contains(id) {
            return false;
        }
        self.dense[self.len] = id;
        self.sparse[id.as_usize()] = self.len;
        self.len += 1;
        true
    }

    /// Returns whether a state is a member. `O(1)`.
    ///
    /// # Requires
    ///
    /// `id` is below the capacity.
    pub fn contains(&self, id: StateID) -> bool
        requires in_range { id < self.now.capacity }
        ensures { IsTrue result ↔ Contains self.now.members id }
    {
        let index = self.sparse[id.as_usize()];
        index < self.len && self.dense[index] == id
    }

    /// Clears the set and keeps its capacity. `O(1)`.
    pub fn clear(&mut self)
        ensures members { self.new.members ≡ [] }
        ensures capacity { self.new.capacity ≡ self.old.capacity }
    {
        self.len = 0;
    }

    /// Returns an iterator over the members, in order of insertion.
    pub fn iter(&self) -> SparseSetIter<'_>
        ensures { result ≡ self.now.members }
    {
        SparseSetIter {
            rest: &self.dense[..self.len],
        }
    }

    /// Returns the approximate number of bytes of the set's lists. No contract fixes it.
    pub fn memory_usage(&self) -> usize {
        self.capacity().saturating_mul(2 * size_of::<usize>())
    }

    /// Returns a copy with the same capacity and the same members in the same order. `O(n)` in the
    /// capacity.
    ///
    /// # Errors
    ///
    /// `Memory`.
    pub fn clone(&self) -> Result<SparseSet, MatchError>
        ensures same { IfOk result (λ set. set ≡ self.now) }
        ensures refused { IfErr result (λ error. error ≡ MatchError.Memory) }
    {
        let dense = self.dense.clone()?;
        let sparse = self.sparse.clone()?;
        Ok(SparseSet {
            dense,
            sparse,
            len: self.len,
        })
    }
}

/// An iterator over the members of a set, in order of insertion. Contracts see the remaining ones.
#[derive(Debug, Drop)]
pub struct SparseSetIter<'a> {
    rest: &'a [StateID],
}

impl<'a> Model for SparseSetIter<'a> {
    ghost use Rattle.std.specs.Prelude.{ℕ, List};

    ghost Value = { List ℕ };

    ghost view = { λ members. members.rest.now };
}

impl<'a> Iterator for SparseSetIter<'a> {
    type Item = StateID;

    ghost use Rattle.std.specs.Iterator.{YieldsFirst, item_count};

    ghost next_gives = { YieldsFirst (λ members. members) };

    ghost remaining = { item_count (λ members. members) };

    fn next(&mut self) -> Option<StateID> {
        let (first, rest) = self.rest.split_first()?;
        self.rest = rest;
        Some(*first)
    }
}

impl<'a> FusedIterator for SparseSetIter<'a> {}
