//! Rows that a step between two texts took out of a report, kept for the way back.
ghost use Rattle.std.specs.Prelude.{◌≡◌, ◌≢◌, ◌+◌, ◌-◌, ◌^◌, ◌<◌, ◌≤◌, ◌↔◌, ◌++◌, take, drop, length, sum_by, vec_len, option_map, None, Some, IfErr, IfOk, IfSome, IsTrue, OnErr, OnOk};
ghost use Rattle.ropey.specs.Chunks.{text_of};
ghost use Rattle.rope_search_reports.specs.Patches.{AreInTurn, patched};
ghost use Rattle.rope_search_reports.specs.Report.{IsReport, match_count};
ghost use Rattle.rope_search_reports.specs.Text.{bytes_of, line_count};
ghost use Rattle.rope_search_reports.specs.Ticks.{MakesAtMost};
ghost use Rattle.rope_search_reports.specs.Turned.{Lead, lines_put};
ghost use Rattle.rope_search.specs.KeptRows.{KeepsStep, MoveNoRow, PutBack, TurnRows, bytes_kept, row_bytes};
ghost use Rattle.rope_search.specs.Searched.{FitIn};
ghost use Rattle.rope_search.specs.Stretches.{ReplacesIn, lines_spanned};

use crate::search::{Patches, Search};
use crate::stretches::{Stretch, stretch_of};
use rope_search_io::Fault;
use rope_search_reports::{Change, Lines, Patch, Row};
use ropey::Rope;
use std::alloc::Global;

/// The rows that a step between two texts of a history took out of a report. They are those of the
/// text that was left, in the lines that differ.
#[derive(Drop)]
pub struct KeptRows {
    /// The number of the text to which the step leads, from the oldest on.
    pub step: usize,
    /// The patches that put the rows back. They move no other row.
    pub patches: Vec<Patch>,
}

/// Swaps the rows of a patch with those that it replaces in a list.
fn swap_patch(rows: &mut Vec<Row>, patch: &mut Patch)
    requires ordered { patch.old.first ≤ patch.old.end }
    requires within { patch.old.end ≤ vec_len rows.old }
    requires still { patch.old.first + length patch.old.made.items ≡ patch.old.end }
    ensures rows { rows.new.items ≡ take patch.old.first rows.old.items
        ++ patch.old.made.items ++ drop patch.old.end rows.old.items }
    ensures made { patch.new.made.items
        ≡ take (patch.old.end - patch.old.first) (drop patch.old.first rows.old.items) }
    ensures first { patch.new.first ≡ patch.old.first }
    ensures end { patch.new.end ≡ patch.old.end }
{
    let place = rows.slice_mut(patch.first..patch.end);
    place.swap_with_slice(patch.made.slice_mut(..));
}

/// Swaps the rows of patches with those that they replace in a list. Allocates nothing.
fn swap_patches(rows: &mut Vec<Row>, patches: &mut Vec<Patch>)
    requires in_turn { AreInTurn 0 (length rows.old.items) patches.old.items }
    requires still { MoveNoRow patches.old.items }
    ensures rows { rows.new.items ≡ patched 0 rows.old.items patches.old.items }
    ensures back { PutBack rows.new.items rows.old.items patches.new.items }
{
    let mut left = patches.len();
    while left > 0 {
        left -= 1;
        swap_patch(rows, &mut patches[left]);
    }
}

/// Returns whether each patch has as many rows as it replaces.
fn move_no_row(patches: &[Patch]) -> bool
    ensures { IsTrue result ↔ MoveNoRow patches.now }
{
    for patch in patches {
        if patch.end.checked_sub(patch.first) != Some(patch.made.len()) {
            return false;
        }
    }
    true
}

/// Returns how many of these bytes are left after those that are counted for rows.
fn left_by_rows(rows: &[Row], bytes: usize) -> usize
    ensures { result ≡ bytes - sum_by row_bytes rows.now }
{
    let mut left = bytes;
    for row in rows {
        let matches = row.matches().len().saturating_mul(16);
        left = left.saturating_sub(40).saturating_sub(matches);
    }
    left
}

/// Returns whether patches take less than these bytes. A patch counts 40 bytes. So does a row: 16
/// of its own, and up to 24 for the list of its matches, which count 16 bytes each.
fn take_less(patches: &[Patch], bytes: usize) -> bool
    ensures { IsTrue result ↔ bytes_kept patches.now < bytes }
{
    let mut left = bytes;
    for patch in patches {
        left = left_by_rows(&patch.made, left.saturating_sub(40));
    }
    left > 0
}

/// Returns the step for which rows are kept.
fn step_of(kept: &Option<KeptRows>) -> Option<usize>
    ensures { result ≡ option_map (λ (k : KeptRows). k.step) kept.now }
{
    match kept {
        Some(rows) => Some(rows.step),
        None => None,
    }
}

/// Drops kept rows, except those of a step to a text before the one with this number.
pub fn keep_before(kept: &mut Option<KeptRows>, number: usize)
    ensures dropped { (rows : KeptRows) → kept.new ≡ Some rows
        → (kept.old ≡ Some rows) × (rows.step < number) }
    ensures kept { (rows : KeptRows) → kept.old ≡ Some rows → rows.step < number
        → kept.new ≡ Some rows }
{
    match step_of(kept) {
        Some(step) if step >= number => *kept = None,
        _ => {}
    }
}

/// Takes the kept rows if they are those of this step.
fn take_step(kept: &mut Option<KeptRows>, step: usize) -> Option<KeptRows>
    ensures taken { IfSome result (λ rows. (kept.old ≡ Some rows) × (rows.step ≡ step)) }
    ensures gone { IfSome result (λ rows. kept.new ≡ None) }
    ensures left { result ≡ None → kept.new ≡ kept.old }
    ensures other { (rows : KeptRows) → result ≡ None → kept.old ≡ Some rows
        → rows.step ≢ step }
{
    match step_of(kept) {
        Some(own) if own == step => kept.take(),
        _ => None,
    }
}

impl Search {
    /// Puts kept rows in place of those that they replace, and returns those, unless they take
    /// `bytes` or more. Allocates nothing.
    fn swap(&mut self, kept: KeptRows, bytes: usize) -> Option<KeptRows>
        requires in_turn { AreInTurn 0 (length self.old.rows.items) kept.patches.items }
        requires still { MoveNoRow kept.patches.items }
        ensures finder { self.new.finder ≡ self.old.finder }
        ensures rows { self.new.rows.items ≡ patched 0 self.old.rows.items kept.patches.items }
        ensures step { IfSome result (λ back. back.step ≡ kept.step) }
        ensures back { IfSome result (λ back.
            PutBack self.new.rows.items self.old.rows.items back.patches.items) }
        ensures small { IfSome result (λ back. bytes_kept back.patches.items < bytes) }
    {
        let KeptRows { step, mut patches } = kept;
        swap_patches(&mut self.rows, &mut patches);
        if !take_less(&patches, bytes) {
            return None;
        }
        Some(KeptRows { step, patches })
    }

    /// Patches the report, as `apply` does, and returns the rows that this takes out of it, for the
    /// way back over a step. It returns `None` if a patch moves other rows, or if the rows take
    /// `bytes` or more. Allocates nothing.
    pub fn apply_and_keep(
        &mut self,
        patches: Patches,
        step: usize,
        bytes: usize,
    ) -> Option<KeptRows>
        requires { FitIn self.old patches }
        ensures finder { self.new.finder ≡ self.old.finder }
        ensures rows { self.new.rows.items
            ≡ patched 0 self.old.rows.items patches.patches.items }
        ensures step { IfSome result (λ back. back.step ≡ step) }
        ensures back { IfSome result (λ back.
            PutBack self.new.rows.items self.old.rows.items back.patches.items) }
        ensures small { IfSome result (λ back. bytes_kept back.patches.items < bytes) }
    {
        if !move_no_row(&patches.patches) {
            self.apply(patches);
            return None;
        }
        let Patches { patches, .. } = patches;
        self.swap(KeptRows { step, patches }, bytes)
    }

    /// Turns the report into that of the text on the other side of a step. If rows are kept for the
    /// step, they are put back, no line is searched, and the rows that leave the report are kept
    /// instead, unless they take as many bytes as the text that is left. Otherwise it does what
    /// `follow` does, and returns what that returns.
    pub fn step_over(
        &mut self,
        tick: &mut Lines,
        alloc: Global,
        kept: &mut Option<KeptRows>,
        step: usize,
        old: &Rope,
        new: &Rope,
        changes: &[Change],
    ) -> Result<Stretch, Fault>
        requires report { IsReport (text_of old.now) self.old.finder self.old.rows.items }
        requires led { Lead changes.now (text_of old.now) (text_of new.now) }
        requires kept { (rows : KeptRows) → kept.old ≡ Some rows → rows.step ≡ step
            → TurnRows self.old.finder (text_of old.now) (text_of new.now) rows.patches.items }
        ensures report { OnOk result
            (IsReport (text_of new.now) self.old.finder self.new.rows.items) }
        ensures few { OnOk result (match_count self.new.rows.items < 2 ^ 64) }
        ensures changed { IfOk result (λ changed.
            ReplacesIn (text_of old.now) (text_of new.now) self.old.finder changed) }
        ensures added { IfOk result (λ changed. changed.added
            ≤ lines_spanned (bytes_of (text_of new.now)) changes.now) }
        ensures kept { OnOk result (KeepsStep step self.old.finder (text_of old.now)
            (text_of new.now) kept.old kept.new) }
        ensures fault { IfErr result (λ fault. fault ≡ Fault.Memory) }
        ensures err { OnErr result (self.new.rows.items ≡ self.old.rows.items) }
        ensures err_kept { OnErr result (kept.new ≡ kept.old) }
        ensures finder { self.new.finder ≡ self.old.finder }
        ensures unsearched { (rows : KeptRows) → kept.old ≡ Some rows → rows.step ≡ step
            → tick.new ≡ tick.old }
        ensures put { tick.new.count ≤
            tick.old.count + lines_put (bytes_of (text_of new.now)) changes.now }
        ensures once { MakesAtMost (line_count (text_of new.now)) tick.old tick.new }
    {
        let Some(rows) = take_step(kept, step) else {
            return self.follow(tick, alloc, old, new, changes);
        };
        // For the proof: laws, and the text's facts.
        rope_search_reports::laws::a_row_a_line();
        rope_search_reports::laws::few_matches();
        rope_search_reports::laws::one_report();
        let _ = new.len_bytes();
        let changed = stretch_of(old, new, changes);
        *kept = self.swap(rows, old.len_bytes());
        Ok(changed)
    }
}
