//! Ranges of indices, as a caller writes them.

ghost use Rattle.std.specs.Prelude.{◌≡◌, ◌↔◌, Option, Some, None, IsTrue};
ghost use Rattle.std.specs.Range.{range_inclusive_start, range_inclusive_end};
ghost use Rattle.std.specs.Range.{range_inclusive_exhausted};
ghost use Rattle.ropey_walk.specs.Ranges.{IsBackwards, end_behind, end_of_inclusive};
ghost use Rattle.ropey_walk.specs.declared.ranges.Ends.{Ends};

use std::ops::{Range, RangeFrom, RangeFull, RangeInclusive, RangeTo, RangeToInclusive};

/// The ends of a range of indices, `None` if open. An open range starts at the start of the text,
/// or ends at its end.
#[derive(Clone, Copy, Debug, PartialEq, Eq)]
pub struct Ends {
    /// The first index.
    pub start: Option<usize>,
    /// The index after the last.
    pub end: Option<usize>,
}

impl Ends {
    /// Returns whether both ends are given and the start is past the end.
    pub(crate) fn is_backwards(&self) -> bool
        ensures { IsTrue result ↔ IsBackwards self.now.start self.now.end }
    {
        match (self.start, self.end) {
            (Some(start), Some(end)) => end < start,
            _ => false,
        }
    }
}

/// A range of byte or character indices: one of the six range types of std.
pub trait TextRange: Drop {
    ghost ends: { Self → Ends };

    /// Returns the ends of the range.
    ///
    /// A range that includes `usize::MAX` ends there, which no text reaches. A range `a..=b` that
    /// was iterated to its end is empty and ends at `b`.
    fn ends(&self) -> Ends
        ensures { result ≡ ends self.now };
}

impl TextRange for Range<usize> {
    ghost ends = { λ range. record { start = Some range.start; end = Some range.end } };

    fn ends(&self) -> Ends {
        Ends {
            start: Some(self.start),
            end: Some(self.end),
        }
    }
}

impl TextRange for RangeFrom<usize> {
    ghost ends = { λ range. record { start = Some range.start; end = None } };

    fn ends(&self) -> Ends {
        Ends {
            start: Some(self.start),
            end: None,
        }
    }
}

impl TextRange for RangeTo<usize> {
    ghost ends = { λ range. record { start = None; end = Some range.end } };

    fn ends(&self) -> Ends {
        Ends {
            start: None,
            end: Some(self.end),
        }
    }
}

impl TextRange for RangeInclusive<usize> {
    ghost ends = { λ range. record {
      start = Some (range_inclusive_start range);
      end = Some (end_of_inclusive (range_inclusive_start range) (range_inclusive_end range)
          (range_inclusive_exhausted range));
    } };

    fn ends(&self) -> Ends {
        let start = *self.start();
        let last = *self.end();
        let is_spent = start <= last && self.is_empty();
        let end = if is_spent {
            last
        } else {
            last.saturating_add(1)
        };
        Ends {
            start: Some(start),
            end: Some(end),
        }
    }
}

impl TextRange for RangeToInclusive<usize> {
    ghost ends = { λ range. record { start = None; end = Some (end_behind range.end) } };

    fn ends(&self) -> Ends {
        Ends {
            start: None,
            end: Some(self.end.saturating_add(1)),
        }
    }
}

impl TextRange for RangeFull {
    ghost ends = { λ _. record { start = None; end = None } };

    fn ends(&self) -> Ends {
        Ends {
            start: None,
            end: None,
        }
    }
}
