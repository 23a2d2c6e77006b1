//! Positions in a rope: a line, and a column in UTF-16 code units, as editors and language servers
//! have them.

ghost use Rattle.std.specs.Prelude.{◌≡◌, ℕ, ◌<◌, ◌≤◌, ◌⊎◌, List, length, take, MatchOption, IfSome, IfNone};
ghost use Rattle.std.specs.Str.{chars, IsCharBoundary};
ghost use Rattle.str_indices.specs.Text.{byte_len, ends_up_to, unit_ends};
ghost use Rattle.ropey.specs.Chunks.{text_of};
ghost use Rattle.ropey.specs.Slices.{slice_text};
ghost use Rattle.rope_search_reports.specs.Text.{IsText, bytes_of, line_count};
ghost use Rattle.rope_search_reports.specs.Position.{line_start, position, IsAt, IsNowhere, IsPlaceOf};
ghost use Rattle.rope_search_reports.specs.Drafts.{HasColumn, HasNoColumn, IsOwnLine};

use crate::line_start::LineStart;
use ropey::{By, Rope, RopeSlice, breaks};
use str_indices::{chars, utf16};

/// A line and a column in it: the number of UTF-16 code units between the line's start and the
/// position. Both begin at 0.
#[repr(C)]
#[derive(Clone, Copy, Debug, PartialEq, Eq, Hash)]
pub struct Position {
    /// The line's index.
    pub line: usize,
    /// The code units from the line's start.
    pub column: usize,
}

/// Returns the number of code units before a line. `O(log n)`.
fn units_before(text: &RopeSlice<'_>, line_idx: usize) -> usize
    requires { line_idx < line_count (slice_text text.now) }
    ensures { result ≡ ends_up_to (line_start (slice_text text.now) line_idx)
        (unit_ends (slice_text text.now)) }
{
    // For the proof: the text's facts.
    let _ = text.len_bytes();
    if line_idx == 0 {
        return 0;
    }
    let chunk = text.chunk(By::Breaks, line_idx - 1);
    let at = breaks::to_byte_idx(chunk.text, line_idx - chunk.start.breaks);
    chunk.start.units + utf16::from_byte_idx(chunk.text, at)
}

/// Returns the position of a byte index. The position between the CR and the LF of a break is one
/// past the end of the line's text.
///
/// # Requires
///
/// `byte_idx` is a character boundary, at most `len_bytes()`.
///
/// # Complexity
///
/// `O(log n)`: at most two descents of the tree, and one if the line starts after a break of the
/// same chunk.
pub fn position_of(text: &Rope, byte_idx: usize) -> Position
    requires { IsCharBoundary (bytes_of (text_of text.now)) byte_idx }
    ensures { (result.line, result.column) ≡ position (text_of text.now) byte_idx }
{
    // For the proof: the text's facts.
    let _ = text.len_bytes();
    let whole = text.slice(..);
    let chunk = whole.chunk(By::Bytes, byte_idx);
    let end = byte_idx - chunk.start.bytes;
    let count = breaks::from_byte_idx(chunk.text, end);
    if count == 0 {
        // The line starts before the chunk, or with it.
        let units = chunk.start.units + utf16::from_byte_idx(chunk.text, end);
        return Position {
            line: chunk.start.breaks,
            column: units - units_before(&whole, chunk.start.breaks),
        };
    }
    let at = breaks::to_byte_idx(chunk.text, count);
    Position {
        line: chunk.start.breaks + count,
        column: utf16::count(&chunk.text[at..end]),
    }
}

/// An offset in a text between two characters, in bytes and in characters.
#[derive(Clone, Copy, Debug, PartialEq, Eq)]
pub struct Place {
    /// The number of bytes before it.
    pub byte_idx: usize,
    /// The number of characters before it.
    pub char_idx: usize,
}

/// Returns the offset in a text that has this number of code units before it, or `None` if that is
/// after the text's end or inside a surrogate pair. Time is linear in the text before the offset.
fn place_in_str(text: &str, column: usize) -> Option<Place>
    ensures { MatchOption result (HasNoColumn (chars text.now) column)
        (λ place. HasColumn (chars text.now) column place) }
{
    let byte_idx = utf16::to_byte_idx(text, column);
    if utf16::from_byte_idx(text, byte_idx) != column {
        return None;
    }
    Some(Place {
        byte_idx,
        char_idx: chars::from_byte_idx(text, byte_idx),
    })
}

/// Returns the offset in the text of a column of a line, whether or not the line is in one chunk,
/// or `None` if the line has no such column. `O(log n)`: at most two descents of the tree.
fn place_across(text: &RopeSlice<'_>, line_idx: usize, column: usize) -> Option<Place>
    requires { line_idx < line_count (slice_text text.now) }
    ensures { MatchOption result (IsNowhere (slice_text text.now) (line_idx, column))
        (IsPlaceOf (slice_text text.now) (line_idx, column)) }
{
    if column > text.len_bytes() {
        return None;
    }
    let unit_idx = units_before(text, line_idx) + column;
    let chunk = text.chunk(By::Units, unit_idx);
    let own = place_in_str(chunk.text, unit_idx - chunk.start.units)?;
    let ended = chunk.start.breaks + breaks::count_breaks(&chunk.text[..own.byte_idx]);
    if ended != line_idx {
        // The line's break is before the offset, or the CR of it is.
        return None;
    }
    Some(Place {
        byte_idx: chunk.start.bytes + own.byte_idx,
        char_idx: chunk.start.chars + own.char_idx,
    })
}

/// A line of a text, for looking up positions in it.
#[derive(Clone, Copy)]
pub(crate) struct OwnLine<'a> {
    /// The text.
    pub(crate) whole: RopeSlice<'a>,
    /// The line's index in it.
    pub(crate) line_idx: usize,
    /// Where the line starts.
    pub(crate) start: Place,
    /// The line's text, if the line ends in the chunk in which it starts.
    pub(crate) text: Option<&'a str>,
}

impl<'a> OwnLine<'a> {
    /// Returns a line of a text, or `None` past the last one. `O(log n)`: one descent of the tree.
    fn of(text: &'a Rope, line_idx: usize) -> Option<OwnLine<'a>>
        ensures line { IfSome result (λ line. IsOwnLine (text_of text.now) line_idx line) }
        ensures none { IfNone result (line_count (text_of text.now) ≤ line_idx) }
        ensures scalars { IsText (text_of text.now) }
    {
        // For the proof: the text's facts.
        let _ = text.len_bytes();
        if line_idx >= text.len_lines() {
            return None;
        }
        let whole = text.slice(..);
        let start = LineStart::of(&whole, line_idx);
        Some(OwnLine {
            whole,
            line_idx,
            start: Place {
                byte_idx: start.byte_idx + start.at,
                char_idx: start.chars_before(&whole, line_idx),
            },
            text: start.line(&whole),
        })
    }

    /// Returns the offset in the text of a column of the line, or `None` if there is no such
    /// column. Time is linear in the column if the line ends in the chunk in which it starts;
    /// otherwise it is `O(log n)`, at most two descents of the tree.
    fn place_at(&self, column: usize) -> Option<Place>
        requires { (text : List ℕ) × (line : ℕ) × IsOwnLine text line self.now }
        ensures { (text : List ℕ) (line : ℕ) → IsOwnLine text line self.now
            → MatchOption result (IsNowhere text (line, column)) (IsPlaceOf text (line, column)) }
    {
        let Some(text) = self.text else {
            return place_across(&self.whole, self.line_idx, column);
        };
        let own = place_in_str(text, column)?;
        Some(Place {
            byte_idx: self.start.byte_idx + own.byte_idx,
            char_idx: self.start.char_idx + own.char_idx,
        })
    }
}

/// Returns the byte index of a position. Returns `None` for a position inside a surrogate pair,
/// after its line's text, between the CR and the LF of a break, or past the last line.
///
/// # Complexity
///
/// `O(log n)`: at most three descents of the tree, and one if the line is in one chunk.
pub fn byte_of(text: &Rope, position: Position) -> Option<usize>
    ensures { MatchOption result
        (IsNowhere (text_of text.now) (position.line, position.column))
        (λ place. IsAt (text_of text.now) (position.line, position.column) place) }
{
    let place = place_of(text, position)?;
    Some(place.byte_idx)
}

/// Returns the byte and character offset of a position, or `None` as `byte_of` does.
///
/// # Complexity
///
/// That of `byte_of`.
pub fn place_of(text: &Rope, position: Position) -> Option<Place>
    ensures at { MatchOption result
        (IsNowhere (text_of text.now) (position.line, position.column))
        (λ place. IsAt (text_of text.now) (position.line, position.column) place.byte_idx) }
    ensures scalars { IsText (text_of text.now) }
    ensures chars { IfSome result (λ place.
        (place.char_idx ≤ length (text_of text.now))
        × (byte_len (take place.char_idx (text_of text.now)) ≡ place.byte_idx)) }
{
    let line = OwnLine::of(text, position.line)?;
    line.place_at(position.column)
}

/// Returns the byte and character offsets of two positions, or `None` if either has none, as for
/// `byte_of`. Two in one line take one look-up.
///
/// # Complexity
///
/// `O(log n)`.
pub fn places_of(text: &Rope, from: Position, to: Position) -> Option<(Place, Place)>
    ensures starts { IfSome result (λ places.
        IsPlaceOf (text_of text.now) (from.line, from.column) places.0) }
    ensures ends { IfSome result (λ places.
        IsPlaceOf (text_of text.now) (to.line, to.column) places.1) }
    ensures none { IfNone result (IsNowhere (text_of text.now) (from.line, from.column)
        ⊎ IsNowhere (text_of text.now) (to.line, to.column)) }
    ensures scalars { IsText (text_of text.now) }
{
    let line = OwnLine::of(text, from.line)?;
    let start = line.place_at(from.column)?;
    let end = if to == from {
        start
    } else if to.line == from.line {
        line.place_at(to.column)?
    } else {
        place_of(text, to)?
    };
    Some((start, end))
}
