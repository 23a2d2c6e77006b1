//! Matches as C gets them.
use rope_search::Position;

/// A match in a whole text, or that there is none.
#[repr(C)]
#[derive(Clone, Copy, Debug, PartialEq, Eq)]
pub struct Match {
    /// Whether there is one. If there is none, the positions have no meaning.
    pub found: bool,
    /// Where it starts.
    pub start: Position,
    /// Where it ends.
    pub stop: Position,
}

/// A match in a line.
#[repr(C)]
#[derive(Clone, Copy, Debug, PartialEq, Eq)]
pub struct Span {
    /// The line's index.
    pub line: usize,
    /// The column where it starts, in UTF-16 code units from the line's start.
    pub start: usize,
    /// The column where it ends.
    pub stop: usize,
}

/// A group of a match in a line, or that it doesn't take part in the match.
#[repr(C)]
#[derive(Clone, Copy, Debug, PartialEq, Eq)]
pub struct Group {
    /// Whether it takes part in the match. If it doesn't, both columns are 0.
    pub found: bool,
    /// The line's index.
    pub line: usize,
    /// The column where it starts, in UTF-16 code units from the line's start.
    pub start: usize,
    /// The column where it ends.
    pub stop: usize,
}
