//! Rows replaced at several positions of a list.
ghost use Rattle.std.specs.Prelude.{◌≡◌, ◌+◌, ◌-◌, ◌^◌, ◌<◌, ◌≤◌, ◌↔◌, ◌++◌, []};
ghost use Rattle.std.specs.Prelude.{length, take, drop};
ghost use Rattle.std.specs.Prelude.{vec_capacity, IsTrue};
ghost use Rattle.std.specs.Vec.Iter.{into_iter_items};
ghost use Rattle.rope_search_reports.specs.Drafts.{IsEmptyAt, IsTouching};
ghost use Rattle.rope_search_reports.specs.Patches.{patched, AreInTurn, growth_by, growth_of};
ghost use Rattle.rope_search_reports.specs.Patches.{shift_count, shifts};

use crate::replacing::replace_rows;
use crate::rows::Row;
use std::alloc::Global;
use std::mem;
use std::vec::IntoIter;

/// New rows, and the range of rows that they replace.
#[derive(Drop)]
pub struct Patch {
    /// The first row that is removed.
    pub first: usize,
    /// The row after those that are removed.
    pub end: usize,
    /// The new rows.
    pub made: Vec<Row>,
}

impl Patch {
    /// Returns the patch before a row that changes nothing.
    fn empty_at(alloc: Global, row: usize) -> Patch
        ensures { IsEmptyAt row result }
    {
        Patch {
            first: row,
            end: row,
            made: Vec::new(alloc),
        }
    }

    /// Returns by how many rows the list grows, or 0.
    fn growth(&self) -> usize
        ensures { result ≡ growth_of self.now }
    {
        let gone = self.end.saturating_sub(self.first);
        self.made.len().saturating_sub(gone)
    }

    /// Returns whether the following rows move: the numbers of removed and of new rows differ.
    fn shifts(&self) -> bool
        ensures { result ≡ shifts self.now }
    {
        match self.end.checked_sub(self.first) {
            Some(gone) => gone != self.made.len(),
            None => true,
        }
    }
}

/// Takes the last of some patches if it ends at a row; otherwise returns a new, empty one there.
/// Put back after the others once rows are added to it, it makes adjacent new rows one patch.
pub(crate) fn take_touching(alloc: Global, patches: &mut Vec<Patch>, row: usize) -> Patch
    ensures { IsTouching patches.old.items row result patches.new.items }
{
    match patches.pop() {
        Some(last) if last.end == row => last,
        Some(last) => {
            patches.push_reserved(last);
            Patch::empty_at(alloc, row)
        }
        None => Patch::empty_at(alloc, row),
    }
}

/// Returns whether at most one of the patches moves the rows after it.
///
/// # Complexity
///
/// `O(k)` for k patches.
pub fn shift_once(patches: &[Patch]) -> bool
    ensures { IsTrue result ↔ shift_count patches.now ≤ 1 }
{
    let mut count: usize = 0;
    for patch in patches {
        if patch.shifts() {
            count += 1;
        }
    }
    count <= 1
}

/// Returns the sum of the rows by which each patch makes the list grow; one that makes it shrink
/// counts as 0.
///
/// # Complexity
///
/// `O(k)` for k patches.
pub fn growth(patches: &[Patch]) -> usize
    requires { growth_by patches.now < 2 ^ 64 }
    ensures { result ≡ growth_by patches.now }
{
    let mut count = 0;
    for patch in patches {
        count += patch.growth();
    }
    count
}

/// Moves the next `count` rows to the end of a list, which has room for them.
fn move_rows(left: &mut IntoIter<Row, Global>, count: usize, rows: &mut Vec<Row>)
    requires within { count ≤ length (into_iter_items left.old) }
    requires room { length rows.old.items + count ≤ vec_capacity rows.old }
    ensures left { into_iter_items left.new ≡ drop count (into_iter_items left.old) }
    ensures rows { rows.new.items ≡ rows.old.items ++ take count (into_iter_items left.old) }
    ensures capacity { vec_capacity rows.new ≡ vec_capacity rows.old }
{
    for _ in 0..count {
        if let Some(row) = left.next() {
            rows.push_reserved(row);
        }
    }
}

/// Drops the next `count` rows.
fn drop_rows(left: &mut IntoIter<Row, Global>, count: usize)
    requires within { count ≤ length (into_iter_items left.old) }
    ensures { into_iter_items left.new ≡ drop count (into_iter_items left.old) }
{
    for _ in 0..count {
        let _row = left.next();
    }
}

/// Applies patches to a list of rows. The new list is built in `room`. Allocates nothing.
///
/// # Requires
///
/// `room` is empty and has capacity for the whole new list; the patches are in order.
///
/// # Complexity
///
/// Linear in the lengths of both lists.
pub fn put_patches(rows: &mut Vec<Row>, patches: Vec<Patch>, room: Vec<Row>)
    requires in_turn { AreInTurn 0 (length rows.old.items) patches.items }
    requires empty { room.items ≡ [] }
    requires room { length (patched 0 rows.old.items patches.items) ≤ vec_capacity room }
    ensures { rows.new.items ≡ patched 0 rows.old.items patches.items }
{
    let mut left = mem::replace(rows, room).into_iter();
    let mut at = 0;
    for patch in patches {
        let Patch {
            first,
            end,
            mut made,
        } = patch;
        move_rows(&mut left, first - at, rows);
        drop_rows(&mut left, end - first);
        // There is room, so this can't fail.
        let _ = rows.append(&mut made);
        at = end;
    }
    let count = left.len();
    move_rows(&mut left, count, rows);
}

/// Applies patches to a list of rows in place. Allocates nothing.
///
/// # Requires
///
/// The list has spare capacity for the rows by which the patches make it grow, as `growth` returns;
/// the patches are in order.
///
/// # Complexity
///
/// Linear in the new and the removed rows, and in the following rows for each patch that moves
/// them.
pub fn put_in_place(rows: &mut Vec<Row>, mut patches: Vec<Patch>)
    requires in_turn { AreInTurn 0 (length rows.old.items) patches.items }
    requires room { length rows.old.items + growth_by patches.items ≤ vec_capacity rows.old }
    ensures { rows.new.items ≡ patched 0 rows.old.items patches.items }
{
    // From the last one on: the rows before it stay where they are.
    while let Some(patch) = patches.pop() {
        let Patch { first, end, made } = patch;
        replace_rows(rows, first, end, made);
    }
}
