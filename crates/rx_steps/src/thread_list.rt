//! The threads at an offset, in order of preference.

ghost use Rattle.std.specs.Prelude.{◌≡◌, ◌+◌, ◌*◌, ◌<◌, ◌≤◌, ◌++◌, ◌∷◌, [], length, take, drop, slice_get, IfOk, IsSomeAnd, OnErr, OnOk};
ghost use Rattle.rx_steps.specs.Threads.{no_slots, threads_of};
ghost use Rattle.rx_steps.specs.Alike.{AreBare};

use crate::node::Node;
use rx_util::NonMaxUsize;
use std::alloc::{AllocError, Global};
use std::marker::Model;
use std::mem::size_of;

/// Threads in order of preference, each a node and slots with offsets. All have the same number of
/// slots. Contracts see that number and the list of threads.
#[derive(Debug, Drop)]
pub struct ThreadList {
    slot_len: usize,
    nodes: Vec<Node>,
    // The slots of all threads, one thread after the other.
    slots: Vec<Option<NonMaxUsize>>,
}

impl Model for ThreadList {
    ghost use Rattle.std.specs.Prelude.{◌≡◌, ◌*◌, length};
    ghost use Rattle.rx_steps.specs.Threads.{ThreadListView, threads_of};

    ghost Value = { ThreadListView };

    ghost view = { λ t. record {
      slot_len = t.slot_len;
      threads = threads_of t.slot_len t.nodes.items t.slots.items;
    } };

    ghost invariant = { λ t. length t.slots.items ≡ length t.nodes.items * t.slot_len };
}

/// Adds a node and its slots.
#[inline(always)]
fn push_parts(
    nodes: &mut Vec<Node>,
    slots: &mut Vec<Option<NonMaxUsize>>,
    node: Node,
    own: &[Option<NonMaxUsize>],
) -> Result<(), AllocError>
    ensures nodes { OnOk result (nodes.new.items ≡ nodes.old.items ++ node ∷ []) }
    ensures slots { OnOk result (slots.new.items ≡ slots.old.items ++ own.now) }
{
    slots.extend_from_slice(own)?;
    nodes.push(node)?;
    Ok(())
}

/// Adds a node and `slot_len` empty slots.
fn push_fresh_parts(
    nodes: &mut Vec<Node>,
    slots: &mut Vec<Option<NonMaxUsize>>,
    node: Node,
    slot_len: usize,
) -> Result<(), AllocError>
    ensures nodes { OnOk result (nodes.new.items ≡ nodes.old.items ++ node ∷ []) }
    ensures slots { OnOk result (slots.new.items ≡ slots.old.items ++ no_slots slot_len) }
{
    for _ in 0..slot_len {
        slots.push(None)?;
    }
    nodes.push(node)?;
    Ok(())
}

/// Returns the part with this index, of parts with this length.
#[inline(always)]
fn part(all: &[Option<NonMaxUsize>], len: usize, index: usize) -> &[Option<NonMaxUsize>]
    requires within { index * len + len ≤ length all.now }
    ensures part { result.now ≡ take len (drop (index * len) all.now) }
    ensures len { length result.now ≡ len }
{
    let start = index * len;
    &all[start..start + len]
}

impl ThreadList {
    /// Returns a list without threads, with this number of slots for each.
    pub fn new(alloc: Global, slot_len: usize) -> ThreadList
        ensures { result ≡ record { slot_len = slot_len; threads = [] } }
    {
        ThreadList {
            slot_len,
            nodes: Vec::new(alloc),
            slots: Vec::new(alloc),
        }
    }

    /// Returns a copy.
    ///
    /// # Errors
    ///
    /// Out of memory.
    pub fn clone(&self) -> Result<ThreadList, AllocError>
        ensures { IfOk result (λ threads. threads ≡ self.now) }
    {
        let alloc = *self.nodes.allocator();
        Ok(ThreadList {
            slot_len: self.slot_len,
            nodes: self.nodes.to_vec(alloc)?,
            slots: self.slots.to_vec(alloc)?,
        })
    }

    /// Returns the number of slots of each thread.
    pub fn slot_len(&self) -> usize
        ensures { result ≡ self.now.slot_len }
    {
        self.slot_len
    }

    /// Returns the number of threads.
    pub fn len(&self) -> usize
        ensures { result ≡ length self.now.threads }
    {
        self.nodes.len()
    }

    /// A law, for the proof only: without slots, no thread has one.
    pub fn are_bare(&self)
        ensures { self.now.slot_len ≡ 0 → AreBare self.now.threads }
    {
        let _len = self.slot_len;
    }

    /// Returns the approximate number of bytes of the lists.
    pub(crate) fn memory_usage(&self) -> usize {
        let nodes = self.nodes.capacity().saturating_mul(size_of::<Node>());
        let slots = self
            .slots
            .capacity()
            .saturating_mul(size_of::<Option<NonMaxUsize>>());
        nodes.saturating_add(slots)
    }

    /// Removes all threads and sets the number of slots of each further one. Keeps the memory.
    pub fn clear(&mut self, slot_len: usize)
        ensures { self.new ≡ record { slot_len = slot_len; threads = [] } }
    {
        self.nodes.clear();
        self.slots.clear();
        self.slot_len = slot_len;
    }

    /// Returns the node of the thread at this index.
    ///
    /// # Requires
    ///
    /// There is that thread.
    #[inline(always)]
    pub fn node(&self, index: usize) -> Node
        requires { index < length self.now.threads }
        ensures { IsSomeAnd (slice_get self.now.threads index) (λ thread. result ≡ thread.1) }
    {
        self.nodes[index]
    }

    /// Returns the slots of the thread at this index.
    ///
    /// # Requires
    ///
    /// There is that thread.
    #[inline(always)]
    pub fn slots(&self, index: usize) -> &[Option<NonMaxUsize>]
        requires { index < length self.now.threads }
        ensures slots { IsSomeAnd (slice_get self.now.threads index)
            (λ thread. result.now ≡ thread.0) }
        ensures len { length result.now ≡ self.now.slot_len }
    {
        part(&self.slots, self.slot_len, index)
    }

    /// Adds a thread after the others.
    ///
    /// # Requires
    ///
    /// There are `slot_len()` slots.
    ///
    /// # Errors
    ///
    /// Out of memory; there is no thread then.
    #[inline(always)]
    pub fn push(&mut self, node: Node, slots: &[Option<NonMaxUsize>]) -> Result<(), AllocError>
        requires slots { length slots.now ≡ self.old.slot_len }
        ensures threads { OnOk result
            (self.new.threads ≡ self.old.threads ++ (slots.now, node) ∷ []) }
        ensures none_left { OnErr result (self.new.threads ≡ []) }
        ensures slot_len { self.new.slot_len ≡ self.old.slot_len }
    {
        match push_parts(&mut self.nodes, &mut self.slots, node, slots) {
            Ok(()) => Ok(()),
            Err(refused) => {
                self.nodes.clear();
                self.slots.clear();
                Err(refused)
            }
        }
    }

    /// Adds a thread with empty slots after the others. After an error there is no thread.
    pub fn push_fresh(&mut self, node: Node) -> Result<(), AllocError>
        ensures threads { OnOk result (self.new.threads
            ≡ self.old.threads ++ (no_slots self.old.slot_len, node) ∷ []) }
        ensures none_left { OnErr result (self.new.threads ≡ []) }
        ensures slot_len { self.new.slot_len ≡ self.old.slot_len }
    {
        match push_fresh_parts(&mut self.nodes, &mut self.slots, node, self.slot_len) {
            Ok(()) => Ok(()),
            Err(refused) => {
                self.nodes.clear();
                self.slots.clear();
                Err(refused)
            }
        }
    }
}
