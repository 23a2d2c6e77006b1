//! Running totals, and the binary search for a position among them.

ghost use Rattle.std.specs.Prelude.{◌≡◌, ◌+◌, ◌-◌, ◌<◌, ◌≤◌, ◌⊎◌, ◌↔◌, IsTrue, [], ◌∷◌, ◌++◌, length, slice_index_or, take, drop, map, All, IfOk, OnOk};
ghost use Rattle.ropey_tree.specs.Counts.{amount, zero_counts, plus, minus, FitsWith, NoneExceeds};

use crate::counts::{By, Counts};
use crate::visits::Visits;
use std::alloc::{AllocError, Global};
use std::marker::Model;

/// Appends totals less `before` and more `sum`.
fn append_moved(
    ends: &mut Vec<Counts>,
    others: &[Counts],
    before: Counts,
    sum: Counts,
) -> Result<(), AllocError>
    requires later { All (λ total. NoneExceeds before total) others.now }
    requires fits { All (λ total. FitsWith sum (minus total before)) others.now }
    ensures { OnOk result (ends.new.items ≡ ends.old.items ++
        map (λ total. plus sum (minus total before)) others.now) }
{
    for end in others {
        ends.push(sum.plus(end.less(before)))?;
    }
    Ok(())
}

/// The counts of the first of some texts in a row: entry `k` is that of all up to and including the
/// one at `k`. So a position is found by binary search, and the counts of one text are a
/// difference. `find` counts its comparisons.
#[derive(Drop)]
pub(crate) struct RunningTotals {
    ends: Vec<Counts>,
}

impl Model for RunningTotals {
    ghost use Rattle.std.specs.Prelude.{List};
    ghost use Rattle.ropey_tree.specs.declared.counts.Counts.{Counts};

    ghost Value = { List Counts };

    ghost view = { λ t. t.ends.items };
}

impl RunningTotals {
    /// Returns no totals, with room for `number`.
    pub(crate) fn with_capacity(alloc: Global, number: usize) -> Result<Self, AllocError>
        ensures { IfOk result (λ totals. totals ≡ []) }
    {
        let ends = Vec::with_capacity(alloc, number)?;
        Ok(RunningTotals { ends })
    }

    /// Returns the number of totals.
    #[inline]
    pub(crate) fn len(&self) -> usize
        ensures { result ≡ length self.now }
    {
        self.ends.len()
    }

    /// Returns the counts before the text at an index, or of all texts if the index is their
    /// number.
    #[inline]
    pub(crate) fn before(&self, k: usize) -> Counts
        requires { k ≤ length self.now }
        ensures start { k ≡ 0 → result ≡ zero_counts }
        ensures end { (d : Counts) → 0 < k → result ≡ slice_index_or self.now (k - 1) d }
    {
        if k == 0 {
            Counts::zero()
        } else {
            self.ends[k - 1]
        }
    }

    /// Appends the counts of all texts with one more.
    pub(crate) fn push(&mut self, total: Counts) -> Result<(), AllocError>
        ensures { OnOk result (self.new ≡ self.old ++ total ∷ []) }
    {
        self.ends.push(total)?;
        Ok(())
    }

    /// Appends the totals of other texts in a range of indices: `before` are the counts before that
    /// range, `sum` those of all texts here.
    pub(crate) fn extend_from(
        &mut self,
        other: &RunningTotals,
        from: usize,
        to: usize,
        before: Counts,
        sum: Counts,
    ) -> Result<(), AllocError>
        requires range { from ≤ to }
        requires within { to ≤ length other.now }
        requires later { All (λ total. NoneExceeds before total)
            (take (to - from) (drop from other.now)) }
        requires fits { All (λ total. FitsWith sum (minus total before))
            (take (to - from) (drop from other.now)) }
        ensures { OnOk result (self.new ≡ self.old ++
            map (λ total. plus sum (minus total before)) (take (to - from) (drop from other.now))) }
    {
        append_moved(&mut self.ends, &other.ends[from..to], before, sum)
    }

    /// Returns whether the end of the text at an index is past `i` in a measure, which counts as a
    /// comparison.
    #[inline]
    fn is_past(&self, k: usize, by: By, i: usize, visits: &mut Visits) -> bool
        requires { k < length self.now }
        ensures past { (d : Counts) → IsTrue result ↔ i < amount by (slice_index_or self.now k d) }
        ensures visited { visits.new.nodes ≡ visits.old.nodes }
        ensures compared { visits.new.comparisons ≡ visits.old.comparisons + 1 }
    {
        visits.compare();
        i < self.ends[k].by(by)
    }

    /// Returns the index of the first text whose end is past `i` in a measure, or else of the last.
    /// Each comparison halves the range.
    #[inline]
    pub(crate) fn find(&self, by: By, i: usize, visits: &mut Visits) -> usize
        requires some { 0 < length self.now }
        requires few { length self.now ≤ 24 }
        ensures within { result < length self.now }
        ensures not_past { (d : Counts) → 0 < result →
            amount by (slice_index_or self.now (result - 1) d) ≤ i }
        ensures passed { (d : Counts) → (i < amount by (slice_index_or self.now result d)) ⊎
            (result + 1 ≡ length self.now) }
        ensures visited { visits.new.nodes ≡ visits.old.nodes }
        ensures compared { visits.new.comparisons ≤ visits.old.comparisons + 5 }
        ensures some { 1 < length self.now → visits.old.comparisons < visits.new.comparisons }
    {
        let mut low = 0;
        let mut left = self.len() - 1;
        while left > 0 {
            // Both halves are taken to have the same length, so the number of turns doesn't depend
            // on the result, and no branch has to be predicted.
            let rest = left / 2;
            let half = left - rest;
            if !self.is_past(low + half - 1, by, i, visits) {
                low += half;
            }
            left = rest;
        }
        low
    }
}
