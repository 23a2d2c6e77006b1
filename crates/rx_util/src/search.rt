//! Spans, matches, the settings of a search, and its errors.

ghost use Rattle.std.specs.Prelude.{◌≡◌, ◌-◌, ◌<◌, ◌≤◌, ◌↔◌, Option, Some, None, IsTrue};
ghost use Rattle.rx_util.specs.declared.search.MatchError.TheVariants.{Memory};

use crate::primitives::PatternID;
use std::alloc::AllocError;
use std::marker::Model;
use std::ops::Range;
use thiserror::Error;

/// A part of a haystack, from the byte offset `start` to the byte offset `end`, exclusive.
#[derive(Clone, Copy, Debug, PartialEq, Eq, Hash)]
pub struct Span {
    /// The byte offset of the start.
    pub start: usize,
    /// The byte offset of the end, exclusive.
    pub end: usize,
}

impl Span {
    /// Returns the span as a range.
    pub fn range(&self) -> Range<usize>
        ensures start { result.start ≡ self.now.start }
        ensures end { result.end ≡ self.now.end }
    {
        self.start..self.end
    }

    /// Returns the number of bytes, 0 if the span ends before it starts.
    pub fn len(&self) -> usize
        ensures { result ≡ self.now.end - self.now.start }
    {
        self.end.saturating_sub(self.start)
    }

    /// Returns whether the span has no bytes.
    pub fn is_empty(&self) -> bool
        ensures { IsTrue result ↔ (self.now.end ≤ self.now.start) }
    {
        self.start >= self.end
    }
}

impl From<Range<usize>> for Span {
    ghost from_gives = { λ range span. (span.start ≡ range.start) × (span.end ≡ range.end) };

    fn from(range: Range<usize>) -> Span {
        Span {
            start: range.start,
            end: range.end,
        }
    }
}

impl From<Span> for Range<usize> {
    ghost from_gives = { λ span range. (range.start ≡ span.start) × (range.end ≡ span.end) };

    fn from(span: Span) -> Range<usize> {
        span.start..span.end
    }
}

/// A match: the pattern, and its span, which doesn't end before it starts.
#[derive(Clone, Copy, Debug, PartialEq, Eq, Hash)]
pub struct Match {
    pattern: PatternID,
    span: Span,
}

impl Model for Match {
    ghost use Rattle.std.specs.Prelude.{◌≤◌};
    ghost use Rattle.rx_util.specs.Search.{Found};

    ghost Value = { Found };

    ghost view = { λ m. record { pattern = m.pattern; span = m.span } };

    ghost invariant = { λ m. m.span.start ≤ m.span.end };

    ghost inverse = { λ found. record { pattern = found.pattern; span = found.span } };
}

impl Match {
    /// Returns a match of a pattern.
    ///
    /// # Requires
    ///
    /// `span.start <= span.end`.
    pub fn new(pattern: PatternID, span: Span) -> Match
        requires ordered { span.start ≤ span.end }
        ensures pattern { result.pattern ≡ pattern }
        ensures span { result.span ≡ span }
    {
        Match { pattern, span }
    }

    /// Returns the pattern that matched.
    pub fn pattern(&self) -> PatternID
        ensures { result ≡ self.now.pattern }
    {
        self.pattern
    }

    /// Returns the span of the match.
    pub fn span(&self) -> Span
        ensures span { result ≡ self.now.span }
        ensures ordered { result.start ≤ result.end }
    {
        self.span
    }

    /// Returns the byte offset at which the match starts.
    pub fn start(&self) -> usize
        ensures start { result ≡ self.now.span.start }
        ensures ordered { result ≤ self.now.span.end }
    {
        self.span.start
    }

    /// Returns the byte offset at which the match ends.
    pub fn end(&self) -> usize
        ensures end { result ≡ self.now.span.end }
        ensures ordered { self.now.span.start ≤ result }
    {
        self.span.end
    }

    /// Returns the span of the match as a range.
    pub fn range(&self) -> Range<usize>
        ensures start { result.start ≡ self.now.span.start }
        ensures end { result.end ≡ self.now.span.end }
        ensures ordered { result.start ≤ result.end }
    {
        self.span.range()
    }

    /// Returns the number of bytes of the match.
    pub fn len(&self) -> usize
        ensures { result ≡ self.now.span.end - self.now.span.start }
    {
        self.span.len()
    }

    /// Returns whether the match is empty.
    pub fn is_empty(&self) -> bool
        ensures { IsTrue result ↔ (self.now.span.start ≡ self.now.span.end) }
    {
        self.span.is_empty()
    }
}

/// The pattern that matched, and one end of the match: its end, or its start for a reverse search.
#[derive(Clone, Copy, Debug, PartialEq, Eq, Hash)]
pub struct HalfMatch {
    pattern: PatternID,
    offset: usize,
}

impl Model for HalfMatch {
    ghost use Rattle.rx_util.specs.Search.{HalfFound};

    ghost Value = { HalfFound };

    ghost view = { λ m. record { pattern = m.pattern; offset = m.offset } };

    ghost inverse = { λ found. record { pattern = found.pattern; offset = found.offset } };
}

impl HalfMatch {
    /// Returns one end of a match of a pattern.
    pub fn new(pattern: PatternID, offset: usize) -> HalfMatch
        ensures pattern { result.pattern ≡ pattern }
        ensures offset { result.offset ≡ offset }
    {
        HalfMatch { pattern, offset }
    }

    /// Returns the pattern that matched.
    pub fn pattern(&self) -> PatternID
        ensures { result ≡ self.now.pattern }
    {
        self.pattern
    }

    /// Returns the byte offset of that end.
    pub fn offset(&self) -> usize
        ensures { result ≡ self.now.offset }
    {
        self.offset
    }
}

/// Where in the span a match may start, and which patterns may match.
#[derive(Clone, Copy, Debug, PartialEq, Eq, Hash)]
pub enum Anchored {
    /// Anywhere, any pattern.
    No,
    /// Only at the start of the span, any pattern.
    Yes,
    /// Only at the start of the span, only this pattern. A pattern that doesn't exist matches
    /// nowhere.
    Pattern(PatternID),
}

impl Anchored {
    ghost use Rattle.rx_util.specs.Anchoring.{is_anchored, pattern_of};

    /// Returns whether a match may only start at the start of the span.
    pub fn is_anchored(&self) -> bool
        ensures { result ≡ is_anchored self.now }
    {
        match self {
            Anchored::No => false,
            Anchored::Yes | Anchored::Pattern(_) => true,
        }
    }

    /// Returns the pattern if only one may match.
    pub fn pattern(&self) -> Option<PatternID>
        ensures { result ≡ pattern_of self.now }
    {
        match self {
            Anchored::No | Anchored::Yes => None,
            Anchored::Pattern(pattern) => Some(*pattern),
        }
    }
}

/// Which of all matches a search reports.
#[derive(Clone, Copy, Debug, PartialEq, Eq, Hash)]
pub enum MatchKind {
    /// The leftmost one, and of those that start there the one that the pattern prefers.
    LeftmostFirst,
    /// One with the greatest end, of these one with the least start, and of these the one of the
    /// first pattern.
    All,
}

impl Default for MatchKind {
    fn default() -> MatchKind
        ensures { result ≡ MatchKind.LeftmostFirst }
    {
        MatchKind::LeftmostFirst
    }
}

/// Why a search, or building something for one, failed.
#[derive(Clone, Copy, Debug, PartialEq, Eq, Hash, Error)]
pub enum MatchError {
    /// The haystack has a byte at which the engine must stop.
    #[error("the search met the byte {byte} at {offset}, and can't go on")]
    Quit {
        /// The byte.
        byte: u8,
        /// Its offset.
        offset: usize,
    },
    /// The engine gave up; another one may search.
    #[error("the search gave up at {offset}")]
    GaveUp {
        /// The byte offset that the engine had reached.
        offset: usize,
    },
    /// The engine doesn't support this kind of anchored search.
    #[error("the search doesn't support this anchoring")]
    UnsupportedAnchored {
        /// The requested kind.
        mode: Anchored,
    },
    /// Out of memory.
    #[error("there was no memory for the search")]
    Memory,
}

impl From<AllocError> for MatchError {
    ghost from_gives = { λ _ error. error ≡ Memory };

    fn from(_: AllocError) -> Self {
        MatchError::Memory
    }
}
