//! Ranges of offsets, as a caller writes them.

ghost use Rattle.std.specs.Prelude.{◌≡◌, Some, None};
ghost use Rattle.std.specs.Range.{range_inclusive_start, range_inclusive_end};
ghost use Rattle.std.specs.Range.{range_inclusive_exhausted};
ghost use Rattle.rx_input.specs.Ranges.{first_place, inclusive_end, place_behind, stop_place};
ghost use Rattle.rx_input.specs.declared.ranges.Ends.{Ends};

use std::ops::{Bound, Range, RangeFrom, RangeFull, RangeInclusive, RangeTo, RangeToInclusive};

/// The ends of a range of offsets, `None` if open.
#[derive(Clone, Copy, Debug, PartialEq, Eq)]
pub struct Ends {
    /// The first offset.
    pub start: Option<usize>,
    /// The offset after the last.
    pub end: Option<usize>,
}

/// A range of offsets: one of the six range types of std, or a pair of bounds.
pub trait TextRange: Drop {
    ghost ends: { Self → Ends };

    /// Returns the ends of the range.
    ///
    /// A range that includes `usize::MAX` ends there, which no haystack reaches. A range `a..=b`
    /// that was iterated to its end is empty and ends at `b`.
    fn ends(&self) -> Ends
        ensures { result ≡ ends self.now };
}

impl TextRange for Range<usize> {
    ghost ends = { λ range. record { start = Some range.start; end = Some range.end } };

    fn ends(&self) -> Ends {
        Ends {
            start: Some(self.start),
            end: Some(self.end),
        }
    }
}

impl TextRange for RangeFrom<usize> {
    ghost ends = { λ range. record { start = Some range.start; end = None } };

    fn ends(&self) -> Ends {
        Ends {
            start: Some(self.start),
            end: None,
        }
    }
}

impl TextRange for RangeTo<usize> {
    ghost ends = { λ range. record { start = None; end = Some range.end } };

    fn ends(&self) -> Ends {
        Ends {
            start: None,
            end: Some(self.end),
        }
    }
}

impl TextRange for RangeInclusive<usize> {
    ghost ends = { λ range. record {
      start = Some (range_inclusive_start range);
      end = Some (inclusive_end (range_inclusive_start range) (range_inclusive_end range)
          (range_inclusive_exhausted range));
    } };

    fn ends(&self) -> Ends {
        let start = *self.start();
        let last = *self.end();
        let is_spent = start <= last && self.is_empty();
        let end = if is_spent {
            last
        } else {
            last.saturating_add(1)
        };
        Ends {
            start: Some(start),
            end: Some(end),
        }
    }
}

impl TextRange for RangeToInclusive<usize> {
    ghost ends = { λ range. record { start = None; end = Some (place_behind range.end) } };

    fn ends(&self) -> Ends {
        Ends {
            start: None,
            end: Some(self.end.saturating_add(1)),
        }
    }
}

impl TextRange for RangeFull {
    ghost ends = { λ _. record { start = None; end = None } };

    fn ends(&self) -> Ends {
        Ends {
            start: None,
            end: None,
        }
    }
}

impl TextRange for (Bound<usize>, Bound<usize>) {
    ghost ends = { λ range. record {
      start = first_place range.0;
      end = stop_place range.1;
    } };

    fn ends(&self) -> Ends {
        Ends {
            start: match self.0 {
                Bound::Included(start) => Some(start),
                Bound::Excluded(before) => Some(before.saturating_add(1)),
                Bound::Unbounded => None,
            },
            end: match self.1 {
                Bound::Included(last) => Some(last.saturating_add(1)),
                Bound::Excluded(end) => Some(end),
                Bound::Unbounded => None,
            },
        }
    }
}
