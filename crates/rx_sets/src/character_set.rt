//! Sets of scalar values.

ghost use Rattle.std.specs.Prelude.{ℕ, ◌≡◌, ◌<◌, ◌≤◌, ◌||◌, ◌&&◌, not, [], ◌++◌, IfOk, OnOk, MatchOption, IsTrue, ◌↔◌};
ghost use Rattle.rx_sets.specs.Sets.{ordinal, part, scalar_count, IsScalar, is_scalar, in_ranges, IsCanonical, HasExactly, Holds, FoldsInto};

use std::alloc::{AllocError, Global};
use std::marker::Model;
use unicode::case::fold_pairs;

/// The ordinals of the first and the last scalar value of a range.
pub type Range = (u32, u32);

/// The number of scalar values.
const SCALARS: u32 = 0x11_0000 - 0x800;

/// Returns the ordinal of `c`: the number of scalar values below it. So U+D7FF and U+E000 are
/// neighbours.
pub fn ordinal(c: char) -> u32
    ensures value { result ≡ ordinal c }
    ensures bound { result < scalar_count }
{
    let code = c as u32;
    if code < 0xD800 { code } else { code - 0x800 }
}

/// Returns the scalar value with this ordinal, or `None` if there is none: the inverse of
/// `ordinal`.
pub fn from_ordinal(index: u32) -> Option<char>
    ensures { MatchOption result (scalar_count ≤ index) (λ c. ordinal c ≡ index) }
{
    if index < 0xD800 {
        return char::from_u32(index);
    }
    if index < SCALARS {
        return char::from_u32(index + 0x800);
    }
    None
}

/// Returns the ordinal of the scalar value with this code point.
pub(crate) fn ordinal_of_code(code: u32) -> u32
    ensures { result ≡ ordinal code }
{
    if code < 0xD800 { code } else { code - 0x800 }
}

/// Returns whether the code point is a scalar value.
pub(crate) fn is_scalar(code: u32) -> bool
    ensures { result ≡ is_scalar code }
{
    code < 0xD800 || (0xE000 <= code && code <= 0x10_FFFF)
}

/// Returns whether the ranges are the same, in the same order. For two sets, this is equality of
/// the sets. `O(n)`.
pub fn is_same(ranges: &[Range], others: &[Range]) -> bool
    ensures { IsTrue result ↔ (ranges.now ≡ others.now) }
{
    ranges == others
}

/// Appends the ordinals from `start` to `end`, exclusive, if there are any.
pub(crate) fn push_part(ranges: &mut Vec<Range>, start: u32, end: u32) -> Result<(), AllocError>
    ensures { OnOk result (ranges.new.items ≡ ranges.old.items ++ part start end) }
{
    if start < end {
        ranges.push((start, end - 1))?;
    }
    Ok(())
}

/// A set of scalar values, stored as its maximal ranges in order.
#[derive(Debug, Drop)]
pub struct CharacterSet {
    ranges: Vec<Range>,
}

impl Model for CharacterSet {
    ghost use Rattle.std.specs.Prelude.{List};
    ghost use Rattle.rx_sets.specs.Sets.{Range, IsCanonical};

    ghost Value = { List Range };

    ghost view = { λ s. s.ranges.items };

    ghost invariant = { λ s. IsCanonical s.ranges.items };
}

impl CharacterSet {
    /// Returns the empty set.
    pub fn empty(alloc: Global) -> CharacterSet
        ensures { result ≡ [] }
    {
        CharacterSet {
            ranges: Vec::new(alloc),
        }
    }

    /// Returns the maximal ranges in order, as ordinals.
    pub fn ranges(&self) -> &[Range]
        ensures { result.now ≡ self.now }
    {
        &self.ranges
    }

    /// Returns the union of ranges, which may be in any order. A range that ends before it starts
    /// is empty, and ordinals of no scalar value are ignored.
    pub fn from_ranges(mut ranges: Vec<Range>) -> Result<CharacterSet, AllocError>
        ensures canonical { IfOk result IsCanonical }
        ensures members { IfOk result (λ set. HasExactly set (in_ranges ranges.items)) }
    {
        ranges.sort_unstable_by_key(|range| range.0);
        let mut joined = Vec::new(*ranges.allocator());
        let mut start = 0;
        let mut end = 0;
        for range in &ranges {
            let range_end = range.1.min(SCALARS - 1) + 1;
            if end < range.0 {
                push_part(&mut joined, start, end)?;
                start = range.0;
                end = range_end;
            } else {
                end = end.max(range_end);
            }
        }
        push_part(&mut joined, start, end)?;
        Ok(CharacterSet { ranges: joined })
    }

    /// Returns the scalar values that aren't in this set.
    pub fn complement(&self) -> Result<CharacterSet, AllocError>
        ensures canonical { IfOk result IsCanonical }
        ensures members { IfOk result (λ set. HasExactly set (λ n. not (in_ranges self.now n))) }
    {
        let mut gaps = Vec::new(*self.ranges.allocator());
        let mut next = 0;
        for range in &self.ranges {
            push_part(&mut gaps, next, range.0)?;
            next = range.1 + 1;
        }
        push_part(&mut gaps, next, SCALARS)?;
        Ok(CharacterSet { ranges: gaps })
    }

    /// Returns whether the scalar value with this ordinal is in the set.
    pub fn contains(&self, ordinal: u32) -> bool
        ensures { result ≡ in_ranges self.now ordinal }
    {
        let mut low = 0;
        let mut high = self.ranges.len();
        while low < high {
            let middle = low + (high - low) / 2;
            let range = self.ranges[middle];
            if range.1 < ordinal {
                low = middle + 1;
            } else if ordinal < range.0 {
                high = middle;
            } else {
                return true;
            }
        }
        false
    }

    /// Returns whether both code points are scalar values, and the first is a member.
    fn folds_from(&self, first: u32, second: u32) -> bool
        ensures { result ≡ (is_scalar first && (is_scalar second && in_ranges self.now
            (ordinal first))) }
    {
        is_scalar(first) && is_scalar(second) && self.contains(ordinal_of_code(first))
    }

    /// Returns the scalar values with the same simple case folding as a member.
    pub fn closed_under_folding(&self) -> Result<CharacterSet, AllocError>
        ensures canonical { IfOk result IsCanonical }
        ensures members { IfOk result (λ set. (c : ℕ) → IsScalar c → Holds set c ↔ FoldsInto
            (Holds self.now) c) }
    {
        let mut ranges = Vec::from_slice(*self.ranges.allocator(), &self.ranges)?;
        for pair in fold_pairs() {
            if self.folds_from(pair.0, pair.1) {
                let other = ordinal_of_code(pair.1);
                ranges.push((other, other))?;
            }
        }
        CharacterSet::from_ranges(ranges)
    }
}
