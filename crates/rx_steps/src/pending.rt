//! The threads that wait while epsilon transitions are followed.

ghost use Rattle.std.specs.Prelude.{◌≡◌, ◌+◌, ◌<◌, ◌≤◌, ◌++◌, ◌∷◌, [], map, length, OnOk, IfSome, MatchOption};
ghost use Rattle.rx_steps.specs.Threads.{first_node, note_slot};

use rx_util::{NonMaxUsize, StateID};
use std::alloc::{AllocError, Global};
use std::marker::Model;
use std::mem::size_of;

/// A task while epsilon transitions are followed.
#[derive(Clone, Copy, Debug)]
enum FollowEpsilon {
    /// Follow a state.
    Explore(StateID),
    /// Restore a slot's value.
    RestoreCapture(usize, Option<NonMaxUsize>),
}

/// The slots of the current thread, and the threads that wait. Contracts see the slots, the threads
/// with the next one first, and the size of the stack.
#[derive(Debug, Drop)]
pub(crate) struct Pending {
    slots: Vec<Option<NonMaxUsize>>,
    // The next task is the last element.
    stack: Vec<FollowEpsilon>,
}

impl Model for Pending {
    ghost use Rattle.std.specs.Prelude.{length, reverse};
    ghost use Rattle.rx_steps.specs.Threads.{Waiting};
    ghost use Rattle.rx_steps.specs.Frames.{waiting};

    ghost Value = { Waiting };

    ghost view = { λ p. record {
      slots = p.slots.items;
      threads = waiting p.slots.items (reverse p.stack.items);
      size = length p.stack.items;
    } };
}

impl Pending {
    /// Returns this without slots and threads.
    pub(crate) fn new(alloc: Global) -> Pending {
        Pending {
            slots: Vec::new(alloc),
            stack: Vec::new(alloc),
        }
    }

    /// Starts with the slots of a thread, and no thread that waits.
    #[inline(always)]
    pub(crate) fn begin(&mut self, slots: &[Option<NonMaxUsize>]) -> Result<(), AllocError>
        ensures slots { OnOk result (self.new.slots ≡ slots.now) }
        ensures threads { OnOk result (self.new.threads ≡ []) }
    {
        self.stack.clear();
        // Mostly as many as before, which takes no check for room.
        if self.slots.len() == slots.len() {
            self.slots.copy_from_slice(slots);
            return Ok(());
        }
        self.slots.clear();
        self.slots.extend_from_slice(slots)?;
        Ok(())
    }

    /// Returns the approximate number of bytes of the lists.
    pub(crate) fn memory_usage(&self) -> usize {
        let slots = self
            .slots
            .capacity()
            .saturating_mul(size_of::<Option<NonMaxUsize>>());
        let stack = self
            .stack
            .capacity()
            .saturating_mul(size_of::<FollowEpsilon>());
        slots.saturating_add(stack)
    }

    /// Returns the slots of the current thread.
    pub(crate) fn slots(&self) -> &[Option<NonMaxUsize>]
        ensures { result.now ≡ self.now.slots }
    {
        &self.slots
    }

    /// Writes an offset into a slot, if there is that slot, for the threads pushed from now on, but
    /// not for those that wait.
    #[inline(always)]
    pub(crate) fn note(&mut self, slot: usize, at: NonMaxUsize) -> Result<(), AllocError>
        ensures slots { OnOk result (self.new.slots ≡ note_slot slot at self.old.slots) }
        ensures threads { OnOk result (self.new.threads ≡ self.old.threads) }
        ensures size { OnOk result (self.new.size ≤ self.old.size + 1) }
    {
        if slot < self.slots.len() {
            // Only a thread that waits needs the value that the slot had.
            if self.stack.is_empty() {
                self.slots[slot] = Some(at);
                return Ok(());
            }
            let held = self.slots[slot];
            self.stack.push(FollowEpsilon::RestoreCapture(slot, held))?;
            self.slots[slot] = Some(at);
        }
        Ok(())
    }

    /// Pushes a thread at a state with the current slots, before those that wait.
    #[inline(always)]
    pub(crate) fn push(&mut self, state: StateID) -> Result<(), AllocError>
        ensures slots { OnOk result (self.new.slots ≡ self.old.slots) }
        ensures threads { OnOk result (self.new.threads
            ≡ (self.old.slots, first_node state) ∷ self.old.threads) }
        ensures size { OnOk result (self.new.size ≡ self.old.size + 1) }
    {
        self.stack.push(FollowEpsilon::Explore(state))?;
        Ok(())
    }

    /// Pushes a thread at each of the states with the current slots, before those that wait, the
    /// first state first.
    pub(crate) fn push_all(&mut self, mut states: &[StateID]) -> Result<(), AllocError>
        ensures slots { OnOk result (self.new.slots ≡ self.old.slots) }
        ensures threads { OnOk result (self.new.threads
            ≡ map (λ q. (self.old.slots, q)) (map first_node states.now) ++ self.old.threads) }
        ensures size { OnOk result (self.new.size ≡ length states.now + self.old.size) }
    {
        while let [rest @ .., last] = states {
            self.push(*last)?;
            states = rest;
        }
        Ok(())
    }

    /// Pops the next thread: returns its state, and its slots become the current ones.
    #[inline(always)]
    pub(crate) fn pop(&mut self) -> Option<StateID>
        ensures next { MatchOption result (self.old.threads ≡ []) (λ state. self.old.threads
            ≡ (self.new.slots, first_node state) ∷ self.new.threads) }
        ensures slot_len { length self.new.slots ≡ length self.old.slots }
        ensures size { IfSome result (λ state. self.new.size < self.old.size) }
    {
        while let Some(frame) = self.stack.pop() {
            match frame {
                FollowEpsilon::Explore(state) => return Some(state),
                FollowEpsilon::RestoreCapture(slot, held) => {
                    if slot < self.slots.len() {
                        self.slots[slot] = held;
                    }
                }
            }
        }
        None
    }
}
