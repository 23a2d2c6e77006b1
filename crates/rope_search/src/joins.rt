//! The changes of several undo steps, composed into those of one.
ghost use Rattle.std.specs.Prelude.{◌≡◌, ◌+◌, ◌-◌, ◌^◌, ◌<◌, ◌≤◌, ◌++◌, ◌∷◌, [], List, ℕ, true, false, length, IfOk, OnOk};
ghost use Rattle.str_indices.specs.Text.{byte_len};
ghost use Rattle.rope_search_reports.specs.Turned.{Lead};
ghost use Rattle.rope_search.specs.JoinedSteps.{AreApart, Stays};
ghost use Rattle.rope_search.specs.Joints.{AddsPart, GoesOnTo, change_numbered, part_end, place_past, middle_start};

use rope_search_reports::Change;
use std::alloc::{AllocError, Global};

/// An offset in the three texts that two steps lead through.
#[derive(Clone, Copy)]
struct Place {
    old: usize,
    middle: usize,
    new: usize,
}

/// Where a change ends, in the middle text and in the one before or after it.
#[derive(Clone, Copy)]
struct End {
    outer: usize,
    middle: usize,
}

/// The changes of two steps up to an offset of the middle text: where the last one of each ends,
/// and where the part starts that they replace together.
#[derive(Clone, Copy)]
struct Joint {
    start: Place,
    first: End,
    second: End,
}

impl Joint {
    /// No change.
    fn new() -> Joint
        ensures { result ≡ record {
          start = record { old = 0; middle = 0; new = 0 };
          first = record { outer = 0; middle = 0 };
          second = record { outer = 0; middle = 0 };
        } }
    {
        let end = End {
            outer: 0,
            middle: 0,
        };
        Joint {
            start: Place {
                old: 0,
                middle: 0,
                new: 0,
            },
            first: end,
            second: end,
        }
    }

    /// Returns where the part ends in the middle text.
    fn end(&self) -> usize
        ensures { result ≡ part_end self.now }
    {
        let end = self.start.middle.max(self.first.middle);
        end.max(self.second.middle)
    }

    /// Returns the offsets, after the changes, of an offset in the middle text.
    fn place(&self, middle: usize) -> Place
        requires first { self.now.first.middle ≤ middle }
        requires second { self.now.second.middle ≤ middle }
        requires old_fits { (place_past self.now middle).old < 2 ^ 64 }
        requires new_fits { (place_past self.now middle).new < 2 ^ 64 }
        ensures { result ≡ place_past self.now middle }
    {
        Place {
            old: self.first.outer + (middle - self.first.middle),
            middle,
            new: self.second.outer + (middle - self.second.middle),
        }
    }

    /// Returns where a change of the second step starts in the middle text.
    fn middle_start(&self, change: Change) -> usize
        requires behind { self.now.second.outer ≤ change.new_start }
        requires fits { middle_start self.now change < 2 ^ 64 }
        ensures { result ≡ middle_start self.now change }
    {
        self.second.middle + (change.new_start - self.second.outer)
    }

    /// Returns whether the next change is one of the first step.
    fn takes_first(&self, first: &[Change], second: &[Change], i: usize, j: usize) -> bool
        requires within { i ≤ length first.now }
        requires left { i + j < length first.now + length second.now }
        requires behind { i < length first.now → j < length second.now
            → self.now.second.outer ≤ (change_numbered second.now j).new_start }
        requires fits { i < length first.now → j < length second.now
            → middle_start self.now (change_numbered second.now j) < 2 ^ 64 }
        ensures first { result ≡ true → (i < length first.now) × (j < length second.now
            → (change_numbered first.now i).new_start
            ≤ middle_start self.now (change_numbered second.now j)) }
        ensures second { result ≡ false → (j < length second.now) × (i < length first.now
            → middle_start self.now (change_numbered second.now j)
            ≤ (change_numbered first.now i).new_start) }
    {
        if i >= first.len() {
            return false;
        }
        if j >= second.len() {
            return true;
        }
        first[i].new_start <= self.middle_start(second[j])
    }

    /// Adds the change of the part, unless it replaces nothing by nothing.
    fn add_change(&self, changes: &mut Vec<Change>) -> Result<(), AllocError>
        requires old_fits { (place_past self.now (part_end self.now)).old < 2 ^ 64 }
        requires new_fits { (place_past self.now (part_end self.now)).new < 2 ^ 64 }
        ensures { OnOk result (AddsPart self.now (place_past self.now (part_end self.now))
            changes.old.items changes.new.items) }
    {
        let end = self.place(self.end());
        if end.old == self.start.old && end.new == self.start.new {
            return Ok(());
        }
        changes.push(Change {
            old_end: end.old,
            new_start: self.start.new,
            new_end: end.new,
        })?;
        Ok(())
    }

    /// Advances to where a change starts in the middle text. If that is after the part, its change
    /// is added, and the next part starts there.
    fn reach(&mut self, middle: usize, changes: &mut Vec<Change>) -> Result<(), AllocError>
        requires old_fits { (place_past self.old middle).old < 2 ^ 64 }
        requires new_fits { (place_past self.old middle).new < 2 ^ 64 }
        ensures { OnOk result
            (GoesOnTo self.old middle changes.old.items self.new changes.new.items) }
    {
        if middle <= self.end() {
            return Ok(());
        }
        self.add_change(changes)?;
        self.start = self.place(middle);
        Ok(())
    }
}

/// Returns the composed changes of two steps: those that lead from the text before the first step
/// to the one after the second. Changes of both that touch become one.
pub fn composed(
    alloc: Global,
    first: &[Change],
    second: &[Change],
) -> Result<Vec<Change>, AllocError>
    requires { (old : List ℕ) × (middle : List ℕ) × (new : List ℕ) × Lead first.now old middle
        × Lead second.now middle new × (byte_len old < 2 ^ 64) × (byte_len middle < 2 ^ 64)
        × (byte_len new < 2 ^ 64) }
    ensures lead { IfOk result (λ changes. (old middle new : List ℕ) → Lead first.now old middle
        → Lead second.now middle new → Lead changes.items old new) }
    ensures stays { IfOk result (λ changes. (x y z : ℕ) → Stays first.now x y
        → Stays second.now y z → Stays changes.items x z) }
    ensures apart { IfOk result (λ changes. AreApart changes.items) }
    ensures few { IfOk result (λ changes.
        length changes.items ≤ length first.now + length second.now) }
{
    let mut changes = Vec::new(alloc);
    let mut joint = Joint::new();
    let (mut i, mut j) = (0, 0);
    for _ in 0..first.len() + second.len() {
        if joint.takes_first(first, second, i, j) {
            let change = first[i];
            joint.reach(change.new_start, &mut changes)?;
            joint.first = End {
                outer: change.old_end,
                middle: change.new_end,
            };
            i += 1;
        } else {
            let change = second[j];
            joint.reach(joint.middle_start(change), &mut changes)?;
            joint.second = End {
                outer: change.new_end,
                middle: change.old_end,
            };
            j += 1;
        }
    }
    joint.add_change(&mut changes)?;
    Ok(changes)
}
