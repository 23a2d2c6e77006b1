//! Changes of a text, their reversal, and the rows that they replace.
ghost use Rattle.std.specs.Prelude.{◌≡◌, ℕ, ◌+◌, ◌-◌, ◌^◌, ◌<◌, ◌≤◌, List, true, IfOk, IfErr, OnOk};
ghost use Rattle.std.specs.Prelude.{length, slice_index_or};
ghost use Rattle.rope_search_reports.specs.Report.{IsReport};
ghost use Rattle.rope_search_reports.specs.Text.{line_count};
ghost use Rattle.ropey.specs.Chunks.{text_of};
ghost use Rattle.rope_search_reports.specs.Changes.{AreChanges};
ghost use Rattle.rope_search_reports.specs.Position.{line_at};
ghost use Rattle.rope_search_reports.specs.Drafts.{AddsRowsOf, GoOnAlike};
ghost use Rattle.str_indices.specs.Text.{byte_len};
ghost use Rattle.rope_search_reports.specs.Patches.{patched, AreInTurn, made_by};
ghost use Rattle.rope_search_reports.specs.Ticks.{LooksAtMost, MakesAsMany, MakesAtMost};
ghost use Rattle.rope_search_reports.specs.Turned.{Lead, listed, turned_changes, turned_from};

use crate::line_teller::LineTeller;
use crate::patches::{Patch, take_touching};
use crate::reports::push_rows_ahead;
use crate::rows::{Finder, Lines};
use crate::walk::Walk;
use rope_search_changes::Change;
use rope_search_io::Fault;
use ropey::Rope;
use std::alloc::Global;
use std::slice;

/// Changes of a text, in order. A single one takes no memory besides its own.
#[derive(Debug, Drop)]
pub enum Changes {
    /// One change.
    One(Change),
    /// Any number of changes, from the first on.
    Many(Vec<Change>),
}

/// Returns the reverse of a change: it removes from the new text what this one inserts, and inserts
/// what it removes. `at_old` and `at_new` are where the change before it ends in the old and the
/// new text.
fn turned_from(change: Change, at_old: usize, at_new: usize) -> Change
    requires behind { at_new ≤ change.new_start }
    requires ordered { at_old + (change.new_start - at_new) ≤ change.old_end }
    ensures { result ≡ turned_from at_old at_new change }
{
    Change {
        old_end: change.new_end,
        new_start: at_old + (change.new_start - at_new),
        new_end: change.old_end,
    }
}

/// Returns the reversed changes in a list of their own.
fn turned(alloc: Global, changes: &[Change]) -> Result<Vec<Change>, Fault>
    requires { (old : List ℕ) × (new : List ℕ) × Lead changes.now old new }
    ensures changes { IfOk result (λ back. back.items ≡ turned_changes 0 0 changes.now) }
    ensures fault { IfErr result (λ fault. fault ≡ Fault.Memory) }
{
    let mut back = Vec::with_capacity(alloc, changes.len())?;
    // Where the last change ends, in the old text and in the new one.
    let (mut at_old, mut at_new) = (0, 0);
    for change in changes {
        back.push_reserved(turned_from(*change, at_old, at_new));
        at_old = change.old_end;
        at_new = change.new_end;
    }
    Ok(back)
}

impl Changes {
    /// Returns the changes in order.
    pub fn as_slice(&self) -> &[Change]
        ensures { result.now ≡ listed self.now }
    {
        match self {
            Changes::One(change) => slice::from_ref(change),
            Changes::Many(changes) => changes.as_slice(),
        }
    }

    /// Returns the changes that lead from the new text back to the old one.
    ///
    /// # Errors
    ///
    /// `Fault::Memory`, which never occurs for a single change.
    ///
    /// # Complexity
    ///
    /// `O(k)` for k changes.
    pub fn turned(&self, alloc: Global) -> Result<Changes, Fault>
        requires { (old : List ℕ) × (new : List ℕ) × Lead (listed self.now) old new }
        ensures changes { IfOk result (λ back. listed back ≡ turned_changes 0 0 (listed self.now)) }
        ensures fault { IfErr result (λ fault. fault ≡ Fault.Memory) }
    {
        match self {
            Changes::One(change) => Ok(Changes::One(turned_from(*change, 0, 0))),
            Changes::Many(changes) => Ok(Changes::Many(turned(alloc, changes.as_slice())?)),
        }
    }
}

/// Returns the number of lines of the old text up to the end of a change, given that number in the
/// new one. After the last change both texts have equally many lines left, so it needs no look-up.
fn lines_kept(
    old: &Rope,
    new: &Rope,
    old_lines: &mut LineTeller<'_>,
    old_end: usize,
    done: usize,
    is_last: bool,
) -> usize
    requires text { old_lines.old.text ≡ text_of old.now }
    requires within { old_end ≤ byte_len (text_of old.now) }
    requires done { done ≤ line_count (text_of new.now) }
    requires fits { line_count (text_of old.now) < 2 ^ 64 }
    requires alike { is_last ≡ true → GoOnAlike (text_of old.now) (text_of new.now) old_end done }
    ensures lines { result ≡ line_at (text_of old.now) old_end + 1 }
    ensures text { old_lines.new.text ≡ old_lines.old.text }
{
    if is_last {
        let behind = new.len_lines() - done;
        return old.len_lines() - behind;
    }
    old_lines.line(old_end) + 1
}

/// Returns where the first change starts in the new text, or 0 if there is none.
fn first_start(changes: &[Change]) -> usize
    ensures first { (d : Change) → 0 < length changes.now
        → result ≡ (slice_index_or changes.now 0 d).new_start }
    ensures none { length changes.now ≡ 0 → result ≡ 0 }
{
    match changes.first() {
        Some(change) => change.new_start,
        None => 0,
    }
}

/// Rows of a list, and the lines of a text whose rows replace them.
#[derive(Clone, Copy, Debug)]
struct Splice {
    /// The first row that is removed.
    first: usize,
    /// The row after those that are removed.
    end: usize,
    /// The first line.
    start: usize,
    /// The line after the last one.
    stop: usize,
}

/// Adds the rows of lines to patches, in place of the rows that they replace: to the last patch if
/// that ends where these begin. Without a line and a row it adds nothing.
///
/// Errors: `Fault::Memory`; the finder remains usable.
fn add_rows(
    tick: &mut Lines,
    alloc: Global,
    finder: &mut Finder,
    text: &Rope,
    walk: &mut Walk<'_>,
    patches: &mut Vec<Patch>,
    splice: Splice,
) -> Result<(), Fault>
    requires ordered { splice.start ≤ splice.stop }
    requires within { splice.stop ≤ line_count (text_of text.now) }
    requires walks { walk.old.text ≡ text_of text.now }
    requires ahead { walk.old.line ≤ splice.start }
    ensures added { OnOk result (AddsRowsOf finder.old (text_of text.now) splice
        patches.old.items patches.new.items) }
    ensures fault { IfErr result (λ fault. fault ≡ Fault.Memory) }
    ensures finder { finder.new ≡ finder.old }
    ensures count { MakesAtMost (splice.stop - splice.start) tick.old tick.new }
    ensures each { OnOk result (MakesAsMany (splice.stop - splice.start) tick.old tick.new) }
    ensures looks { LooksAtMost (splice.stop - splice.start) tick.old tick.new }
    ensures text { OnOk result (walk.new.text ≡ walk.old.text) }
    ensures line { OnOk result (walk.new.line ≤ splice.stop) }
{
    let Splice {
        first,
        end,
        start,
        stop,
    } = splice;
    if start == stop && first == end {
        return Ok(());
    }
    let mut patch = take_touching(alloc, patches, first);
    push_rows_ahead(
        tick,
        alloc,
        finder,
        text,
        walk,
        start,
        stop,
        &mut patch.made,
    )?;
    patch.end = end;
    patches.push(patch)?;
    Ok(())
}

/// Returns the patches that turn the report of the old text into that of the new one. Changes next
/// to each other come in one patch.
///
/// # Requires
///
/// The changes lead from the old text to the new one.
///
/// # Errors
///
/// `Fault::Memory`; the finder remains usable.
///
/// # Complexity
///
/// Each line of the new text is searched at most once, and in all at most one line for each change
/// plus one for each break that it inserts. Changes next to each other need one look-up for each
/// chunk of both texts. Time is linear in the lines searched and in the text between changes of a
/// chunk.
pub fn patches_of(
    tick: &mut Lines,
    alloc: Global,
    finder: &mut Finder,
    old: &Rope,
    new: &Rope,
    changes: &[Change],
) -> Result<Vec<Patch>, Fault>
    requires old_fits { line_count (text_of old.now) < 2 ^ 64 }
    requires new_fits { line_count (text_of new.now) < 2 ^ 64 }
    requires changed { (n : ℕ) × AreChanges changes.now 0 0 (text_of old.now) (text_of new.now) n }
    ensures turn { IfOk result (λ patches.
        AreInTurn 0 (line_count (text_of old.now)) patches.items) }
    ensures report { IfOk result (λ patches. (rows : List (List (ℕ × ℕ)))
        → IsReport (text_of old.now) finder.old rows
        → IsReport (text_of new.now) finder.old (patched 0 rows patches.items)) }
    ensures few { IfOk result (λ patches. (n : ℕ)
        → AreChanges changes.now 0 0 (text_of old.now) (text_of new.now) n
        → made_by patches.items ≤ n) }
    ensures fault { IfErr result (λ fault. fault ≡ Fault.Memory) }
    ensures finder { finder.new ≡ finder.old }
    ensures count { (n : ℕ) → AreChanges changes.now 0 0 (text_of old.now) (text_of new.now) n
        → tick.new.count ≤ tick.old.count + n }
    ensures once { MakesAtMost (line_count (text_of new.now)) tick.old tick.new }
    ensures each { IfOk result (λ patches.
        MakesAsMany (made_by patches.items) tick.old tick.new) }

    // Nor does it scan more lines.
    ensures looks { (n : ℕ) → AreChanges changes.now 0 0 (text_of old.now) (text_of new.now) n
        → LooksAtMost n tick.old tick.new }
    ensures looks_once { LooksAtMost (line_count (text_of new.now)) tick.old tick.new }
    ensures looked { IfOk result (λ patches.
        LooksAtMost (made_by patches.items) tick.old tick.new) }
{
    let mut patches = Vec::new(alloc);
    let mut walk = Walk::at_place(new.slice(..), first_start(changes));
    let mut old_lines = LineTeller::of(old.slice(..));
    let mut new_lines = walk.teller();
    // The number of lines up to the last change: of the old text those kept or removed, of the new
    // text those that have a row.
    let (mut kept, mut done) = (0, 0);
    let mut left = changes.len();
    for change in changes {
        left -= 1;
        let start = done.max(new_lines.line(change.new_start));
        let stop = new_lines.line(change.new_end) + 1;
        let first = kept + (start - done);
        kept = lines_kept(old, new, &mut old_lines, change.old_end, stop, left == 0);
        done = stop;
        let splice = Splice {
            first,
            end: kept,
            start,
            stop,
        };
        add_rows(tick, alloc, finder, new, &mut walk, &mut patches, splice)?;
    }
    Ok(patches)
}
