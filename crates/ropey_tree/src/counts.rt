//! The counts of a text, in the four measures by which a rope is indexed.

ghost use Rattle.std.specs.Prelude.{◌≡◌, ◌+◌, ◌<◌, ◌^◌};
ghost use Rattle.std.specs.Str.{chars};

use crate::breaks;
use str_indices::{chars, utf16};

/// A measure of text.
#[derive(Clone, Copy, Debug, PartialEq, Eq)]
pub enum By {
    /// Bytes of UTF-8.
    Bytes,
    /// Characters (Unicode scalar values).
    Chars,
    /// UTF-16 code units.
    Units,
    /// Line breaks.
    Breaks,
}

/// The counts of a text in each measure: `TextInfo` in `ropey`, with code units in place of
/// surrogate pairs.
#[derive(Clone, Copy, Debug, Default, PartialEq, Eq)]
pub struct Counts {
    /// Bytes of UTF-8.
    pub bytes: usize,
    /// Characters.
    pub chars: usize,
    /// UTF-16 code units.
    pub units: usize,
    /// Line breaks, CR LF as one.
    pub breaks: usize,
}

impl Counts {
    ghost use Rattle.ropey_tree.specs.Counts.{counts_of, zero_counts, plus, minus, NoneExceeds, amount};

    /// Returns the counts of the empty text.
    pub const fn zero() -> Self
        ensures { result ≡ zero_counts }
    {
        Counts {
            bytes: 0,
            chars: 0,
            units: 0,
            breaks: 0,
        }
    }

    /// Returns the counts of a text.
    pub fn of(text: &str) -> Self
        ensures { result ≡ counts_of (chars text.now) }
    {
        // A letter that is typed, and what it replaces, are the shortest texts.
        if text.is_empty() {
            return Counts::zero();
        }
        if text.len() == 1 {
            return Counts {
                bytes: 1,
                chars: 1,
                units: 1,
                breaks: if breaks::is_break(text) { 1 } else { 0 },
            };
        }
        Counts {
            bytes: text.len(),
            chars: chars::count(text),
            units: utf16::count(text),
            breaks: breaks::count_breaks(text),
        }
    }

    /// Returns the sums, measure by measure.
    ///
    /// # Requires
    ///
    /// Each sum is less than 2^64.
    #[inline]
    pub fn plus(self, other: Self) -> Self
        requires bytes { self.bytes + other.bytes < 2 ^ 64 }
        requires chars { self.chars + other.chars < 2 ^ 64 }
        requires units { self.units + other.units < 2 ^ 64 }
        requires breaks { self.breaks + other.breaks < 2 ^ 64 }
        ensures { result ≡ plus self other }
    {
        Counts {
            bytes: self.bytes + other.bytes,
            chars: self.chars + other.chars,
            units: self.units + other.units,
            breaks: self.breaks + other.breaks,
        }
    }

    /// Returns the differences, measure by measure, and 0 if the other is greater.
    #[inline]
    pub fn saturating_sub(self, other: Self) -> Self
        ensures { result ≡ minus self other }
    {
        Counts {
            bytes: self.bytes.saturating_sub(other.bytes),
            chars: self.chars.saturating_sub(other.chars),
            units: self.units.saturating_sub(other.units),
            breaks: self.breaks.saturating_sub(other.breaks),
        }
    }

    /// Returns the differences, measure by measure.
    ///
    /// # Requires
    ///
    /// No count of the other is greater.
    #[inline]
    pub(crate) fn less(self, other: Self) -> Self
        requires { NoneExceeds other self }
        ensures { result ≡ minus self other }
    {
        Counts {
            bytes: self.bytes - other.bytes,
            chars: self.chars - other.chars,
            units: self.units - other.units,
            breaks: self.breaks - other.breaks,
        }
    }

    /// Returns the count in a measure.
    #[inline]
    pub fn by(&self, by: By) -> usize
        ensures { result ≡ amount by self.now }
    {
        match by {
            By::Bytes => self.bytes,
            By::Chars => self.chars,
            By::Units => self.units,
            By::Breaks => self.breaks,
        }
    }
}
