//! Known sets of nodes, and the backward steps between them.

ghost use Rattle.std.specs.Prelude.{◌≡◌, ◌<◌, ◌++◌, ◌∷◌, [], ℕ, List, Some};
ghost use Rattle.std.specs.Prelude.{IfOk, IfSome, OnOk, OnErr, length, slice_get};
ghost use Rattle.rx_program.specs.Programs.{ByteProgram};
ghost use Rattle.rx_lists.specs.Known.{IsAlwaysBefore, TellsTruly};

use crate::bits::Bits;
use std::alloc::{AllocError, Global};
use std::marker::Model;
use std::rc::Rc;

/// The greatest number of known sets. Each has four kilobytes of numbers.
const MOST: usize = 500;

/// The number of bytes.
const BYTES: usize = 256;

/// Returns a set that can be shared.
pub(crate) fn shared(alloc: Global, set: Bits) -> Result<Rc<Bits>, AllocError>
    ensures { IfOk result (λ shared. shared.value ≡ set) }
{
    Ok(Rc::new(alloc, set)?)
}

/// A list of sets of nodes, in which equal ones may be shared. Contracts see their words.
#[derive(Debug, Drop)]
pub(crate) struct Sets {
    list: Vec<Rc<Bits>>,
}

impl Model for Sets {
    ghost use Rattle.std.specs.Prelude.{List, ℕ, map};

    ghost Value = { List (List ℕ) };

    ghost view = { λ s. map (λ shared. shared.value) s.list.items };
}

impl Sets {
    /// Returns the empty list.
    pub(crate) fn new(alloc: Global) -> Sets
        ensures { result ≡ [] }
    {
        Sets {
            list: Vec::new(alloc),
        }
    }

    /// Returns the number of sets.
    pub(crate) fn len(&self) -> usize
        ensures { result ≡ length self.now }
    {
        self.list.len()
    }

    /// Returns the set with this number.
    pub(crate) fn at(&self, number: usize) -> &Rc<Bits>
        requires { number < length self.now }
        ensures { slice_get self.now number ≡ Some result.now.value }
    {
        &self.list[number]
    }

    /// Appends a set.
    pub(crate) fn push(&mut self, set: Rc<Bits>) -> Result<(), AllocError>
        ensures more { OnOk result (self.new ≡ self.old ++ set.value ∷ []) }
        ensures kept { OnErr result (self.new ≡ self.old) }
    {
        self.list.push(set)?;
        Ok(())
    }

    /// Removes all sets.
    pub(crate) fn clear(&mut self)
        ensures { self.new ≡ [] }
    {
        self.list.clear();
    }
}

/// Sets that the backward pass reached, and for each byte before an offset the set that it reached
/// next.
#[derive(Debug, Drop)]
pub(crate) struct Known {
    sets: Sets,
    // 256 numbers for each set.
    before: Vec<Option<usize>>,
}

impl Model for Known {
    ghost use Rattle.rx_lists.specs.Known.{KnownView, HasColumns};

    ghost Value = { KnownView };

    ghost view = { λ k. record { sets = k.sets; before = k.before.items } };

    ghost invariant = { λ k. HasColumns (record { sets = k.sets; before = k.before.items }) };
}

impl Known {
    /// Returns this without sets.
    pub(crate) fn new(alloc: Global) -> Known
        ensures told { (p : ByteProgram) → TellsTruly p result }
    {
        Known {
            sets: Sets::new(alloc),
            before: Vec::new(alloc),
        }
    }

    /// Returns the set with this number.
    pub(crate) fn set(&self, number: usize) -> &Rc<Bits>
        requires { number < length self.now.sets }
        ensures { slice_get self.now.sets number ≡ Some result.now.value }
    {
        self.sets.at(number)
    }

    /// Returns the number of a known set that equals this one.
    pub(crate) fn find(&self, set: &Bits) -> Option<usize>
        ensures { IfSome result (λ number. slice_get self.now.sets number ≡ Some set.now) }
    {
        for number in 0..self.sets.len() {
            if self.sets.at(number).is_same(set) {
                return Some(number);
            }
        }
        None
    }

    /// Returns the number of the set at the offset before, if it is known for this set and the byte
    /// there.
    pub(crate) fn before(&self, number: usize, byte: u8) -> Option<usize>
        requires { number < length self.now.sets }
        ensures there { IfSome result (λ to. to < length self.now.sets) }
        ensures told { (p : ByteProgram) → TellsTruly p self.now → IfSome result
            (λ to. (beyond here : List ℕ) → slice_get self.now.sets number ≡ Some beyond
            → slice_get self.now.sets to ≡ Some here → IsAlwaysBefore p byte beyond here) }
    {
        self.before[number * BYTES + usize::from(byte)]
    }

    /// Notes that number.
    pub(crate) fn tell(&mut self, number: usize, byte: u8, to: usize)
        requires from { number < length self.old.sets }
        requires to { to < length self.old.sets }
        ensures sets { self.new.sets ≡ self.old.sets }
        ensures told { (p : ByteProgram) → TellsTruly p self.old → ((beyond here : List ℕ)
            → slice_get self.old.sets number ≡ Some beyond → slice_get self.old.sets to ≡ Some here
            → IsAlwaysBefore p byte beyond here) → TellsTruly p self.new }
    {
        self.before[number * BYTES + usize::from(byte)] = Some(to);
    }

    /// Returns whether there are as many sets as allowed.
    pub(crate) fn is_full(&self) -> bool {
        self.sets.len() >= MOST
    }

    /// Removes all sets.
    pub(crate) fn clear(&mut self)
        ensures told { (p : ByteProgram) → TellsTruly p self.new }
    {
        self.sets.clear();
        self.before.clear();
    }

    /// Appends a set, and returns its number.
    fn put(&mut self, alloc: Global, set: Bits) -> Result<usize, AllocError>
        ensures number { IfOk result (λ number. slice_get self.new.sets number ≡ Some set) }
        ensures kept { (number : ℕ) (other : List ℕ)
            → slice_get self.old.sets number ≡ Some other
            → slice_get self.new.sets number ≡ Some other }
        ensures told { (p : ByteProgram) → TellsTruly p self.old → TellsTruly p self.new }
    {
        let number = self.sets.len();
        let shared = shared(alloc, set)?;
        self.before.resize((number + 1) * BYTES, None)?;
        self.sets.push(shared)?;
        Ok(number)
    }

    /// Returns the number of a set, which is added if it isn't known.
    pub(crate) fn number_of(&mut self, alloc: Global, set: Bits) -> Result<usize, AllocError>
        ensures number { IfOk result (λ number. slice_get self.new.sets number ≡ Some set) }
        ensures kept { (number : ℕ) (other : List ℕ)
            → slice_get self.old.sets number ≡ Some other
            → slice_get self.new.sets number ≡ Some other }
        ensures told { (p : ByteProgram) → TellsTruly p self.old → TellsTruly p self.new }
    {
        match self.find(&set) {
            Some(number) => Ok(number),
            None => self.put(alloc, set),
        }
    }
}
