//! Parts of a slice: its lines, and ranges of its characters or bytes.
//!
//! A part is a slice too, and allocates nothing. Indices count from the start of the slice that the
//! call is made on. The plain form of a call requires a range inside the text. The `get_` form
//! returns `None` exactly if it isn't, and the `try_` form says why: the range starts past its end,
//! else it goes past the length, else, for bytes, it starts or ends inside a character.

ghost use Rattle.std.specs.Prelude.{◌≡◌, ◌+◌, ◌<◌, ◌≤◌, ◌↔◌, length, take, MatchResult};
ghost use Rattle.std.specs.Prelude.{IfSome, IsSome, IsNone, IfOk, IfErr, IsOk};
ghost use Rattle.std.specs.Str.{chars, IsUtf8, IsCharBoundary};
ghost use Rattle.str_indices.specs.Text.{byte_len};
ghost use Rattle.ropey_tree.specs.Counts.{counts_of};
ghost use Rattle.ropey_walk.specs.Chunks.{line_breaks};
ghost use Rattle.ropey_walk.specs.Clips.{between, clip};
ghost use Rattle.ropey_walk.specs.Conversions.{char_of_byte};
ghost use Rattle.ropey_walk.specs.Lines.{line_pieces};
ghost use Rattle.ropey_walk.specs.Parts.{standing};
ghost use Rattle.ropey_walk.specs.Ranges.{start_of, end_of, chars_in, bytes_in};
ghost use Rattle.ropey_walk.specs.Ranges.{IsRangeIn, IsByteRangeIn, RefusesChars, RefusesBytes};
ghost use Rattle.ropey_walk.specs.Standing.{IsPlaceIn, IsChunkOf};

use crate::iter::lines::LinePlace;
use crate::places::Place;
use crate::ranges::{Ends, TextRange};
use crate::slice::{Chunk, RopeSlice};
use ropey_tree::counts::Counts;
use ropey_tree::error::Error;

/// One end of a part: the counts up to it, and the chunk in which it was looked up, or an empty one
/// if it wasn't.
#[derive(Clone, Copy)]
struct Edge<'a> {
    counts: Counts,
    chunk: Chunk<'a>,
}

impl<'a> RopeSlice<'a> {
    ghost use Rattle.ropey_walk.specs.Slices.{slice_pieces, slice_text};
    ghost use Rattle.ropey_walk.specs.Comparing.{slice_bytes};

    /// Returns the part between two ends, given the counts before the start, and the counts of the
    /// text up to the end. If it is inside the chunk, it is a part of the chunk alone. `O(1)`.
    #[inline]
    pub(crate) fn between(&self, chunk: &Chunk<'a>, start: Counts, end: Counts) -> Self
        requires order { start.chars ≤ end.chars }
        requires within { end.chars ≤ length (slice_text self.now) }
        requires starts { start ≡ standing (slice_text self.now) start.chars }
        requires ends { end ≡ counts_of (take end.chars (slice_text self.now)) }
        requires chunk { IsChunkOf (slice_pieces self.now) (chars chunk.now.text.now)
            chunk.now.start }
        requires utf8 { IsUtf8 chunk.now.text.now }
        ensures { slice_pieces result ≡ clip start.chars end.chars (slice_pieces self.now) }
    {
        if start.chars == end.chars {
            return RopeSlice::new(None);
        }
        self.part(chunk, start, end.saturating_sub(start))
    }

    /// Returns the part between two positions at character boundaries.
    fn between_places(&self, from: &Place<'a>, to: &Place<'_>) -> Self
        requires from { IsPlaceIn (slice_text self.now) (chars from.now.text.now) from.now.start
            from.now.at }
        requires from_boundary { IsCharBoundary from.now.text.now from.now.at }
        requires from_utf8 { IsUtf8 from.now.text.now }
        requires to { IsPlaceIn (slice_text self.now) (chars to.now.text.now) to.now.start
            to.now.at }
        requires to_boundary { IsCharBoundary to.now.text.now to.now.at }
        requires to_utf8 { IsUtf8 to.now.text.now }
        requires order { from.now.start.bytes + from.now.at ≤ to.now.start.bytes + to.now.at }
        requires chunk { IsChunkOf (slice_pieces self.now) (chars from.now.text.now)
            from.now.start }
        ensures pieces { slice_pieces result ≡
            clip (char_of_byte (slice_text self.now) (from.now.start.bytes + from.now.at))
            (char_of_byte (slice_text self.now) (to.now.start.bytes + to.now.at))
            (slice_pieces self.now) }
        ensures bytes { slice_bytes result ≡ between (from.now.start.bytes + from.now.at)
            (to.now.start.bytes + to.now.at) (slice_bytes self.now) }
    {
        self.between(&from.chunk(), self.standing_at(from), self.counted_to(to))
    }

    /// Returns the line at `line_idx`, with the break that ends it. `O(log n)`.
    ///
    /// # Requires
    ///
    /// `line_idx < len_lines()`.
    pub fn line(&self, line_idx: usize) -> Self
        requires { line_idx < line_breaks (slice_text self.now) + 1 }
        ensures { slice_pieces result ≡ line_pieces (slice_pieces self.now) line_idx }
    {
        let start = LinePlace::look_up(self, line_idx);
        let end = start.next(self);
        start.line_to(end, self)
    }

    /// Returns [`line`](Self::line), or `None` if `line_idx >= len_lines()`. `O(log n)`.
    pub fn get_line(&self, line_idx: usize) -> Option<Self>
        ensures none { IsNone result ↔ (line_breaks (slice_text self.now) + 1 ≤ line_idx) }
        ensures line { IfSome result (λ line. slice_pieces line ≡
            line_pieces (slice_pieces self.now) line_idx) }
    {
        if line_idx < self.len_lines() {
            Some(self.line(line_idx))
        } else {
            None
        }
    }

    /// Returns the counts before a character. Before the first they are 0, without a look-up.
    fn start_at_char(&self, char_idx: usize) -> Edge<'a>
        requires { char_idx ≤ length (slice_text self.now) }
        ensures chars { result.counts.chars ≡ char_idx }
        ensures stands { result.counts ≡ standing (slice_text self.now) result.counts.chars }
        ensures chunk { IsChunkOf (slice_pieces self.now) (chars result.chunk.text.now)
            result.chunk.start }
        ensures utf8 { IsUtf8 result.chunk.text.now }
    {
        if char_idx == 0 {
            return Edge {
                counts: Counts::zero(),
                chunk: Chunk::nothing(),
            };
        }
        let place = self.place_of_char(char_idx);
        Edge {
            counts: self.standing_at(&place),
            chunk: place.chunk(),
        }
    }

    /// Returns the counts of the text up to a character. Up to the end they are the slice's,
    /// without a look-up.
    fn end_at_char(&self, char_idx: usize) -> Edge<'a>
        requires { char_idx ≤ length (slice_text self.now) }
        ensures chars { result.counts.chars ≡ char_idx }
        ensures counted { result.counts ≡
            counts_of (take result.counts.chars (slice_text self.now)) }
        ensures chunk { IsChunkOf (slice_pieces self.now) (chars result.chunk.text.now)
            result.chunk.start }
        ensures utf8 { IsUtf8 result.chunk.text.now }
    {
        if char_idx == self.len_chars() {
            return Edge {
                counts: self.counts(),
                chunk: Chunk::nothing(),
            };
        }
        let place = self.place_of_char(char_idx);
        Edge {
            counts: self.counted_to(&place),
            chunk: place.chunk(),
        }
    }

    /// Returns the part from one character to another.
    fn chars_between(&self, start: usize, end: usize) -> Self
        requires order { start ≤ end }
        requires within { end ≤ length (slice_text self.now) }
        ensures { slice_pieces result ≡ clip start end (slice_pieces self.now) }
    {
        let from = self.start_at_char(start);
        let to = self.end_at_char(end);
        // The chunk found for a character contains the character before it.
        self.between(&to.chunk.or(from.chunk), from.counts, to.counts)
    }

    /// Returns the start and the end of a range of characters. `O(1)`.
    ///
    /// # Errors
    ///
    /// Those of [`try_slice`](Self::try_slice).
    pub fn char_indices(&self, ends: Ends) -> Result<(usize, usize), Error>
        ensures { MatchResult result
            (λ indices. IsRangeIn (length (slice_text self.now)) ends ×
            (indices.0 ≡ start_of ends) ×
            (indices.1 ≡ end_of ends (length (slice_text self.now))))
            (λ error. (¬ (IsRangeIn (length (slice_text self.now)) ends)) ×
            RefusesChars (slice_text self.now) ends error) }
    {
        let len = self.len_chars();
        let start = ends.start.unwrap_or(0);
        let end = ends.end.unwrap_or(len);
        if ends.is_backwards() {
            return Err(Error::CharRangeInvalid(start, end));
        }
        if start > len || end > len {
            return Err(Error::CharRangeOutOfBounds(ends.start, ends.end, len));
        }
        Ok((start, end))
    }

    /// Returns the slice of a range of characters. `O(log n)`.
    ///
    /// # Requires
    ///
    /// The range starts no later than it ends, and ends at or before `len_chars()`.
    pub fn slice<R: TextRange>(&self, char_range: R) -> Self
        requires { IsRangeIn (length (slice_text self.now)) (R.ends char_range) }
        ensures { slice_pieces result ≡ chars_in (R.ends char_range) (slice_pieces self.now) }
    {
        let ends = char_range.ends();
        let end = ends.end.unwrap_or(self.len_chars());
        self.chars_between(ends.start.unwrap_or(0), end)
    }

    /// Returns [`slice`](Self::slice), or why the range is refused. `O(log n)`.
    ///
    /// # Errors
    ///
    /// `CharRangeInvalid` if the range starts past its end, else `CharRangeOutOfBounds` if it goes
    /// past `len_chars()`.
    pub fn try_slice<R: TextRange>(&self, char_range: R) -> Result<Self, Error>
        ensures ok { IsOk result ↔ IsRangeIn (length (slice_text self.now)) (R.ends char_range) }
        ensures slice { IfOk result (λ slice. slice_pieces slice ≡
            chars_in (R.ends char_range) (slice_pieces self.now)) }
        ensures refused { IfErr result (λ error.
            RefusesChars (slice_text self.now) (R.ends char_range) error) }
    {
        let (start, end) = self.char_indices(char_range.ends())?;
        Ok(self.chars_between(start, end))
    }

    /// Returns [`slice`](Self::slice), or `None` if the range isn't inside the text. `O(log n)`.
    pub fn get_slice<R: TextRange>(&self, char_range: R) -> Option<Self>
        ensures some { IsSome result ↔
            IsRangeIn (length (slice_text self.now)) (R.ends char_range) }
        ensures slice { IfSome result (λ slice. slice_pieces slice ≡
            chars_in (R.ends char_range) (slice_pieces self.now)) }
    {
        match self.try_slice(char_range) {
            Ok(slice) => Some(slice),
            Err(_) => None,
        }
    }

    /// Returns the start and the end of a range of bytes, with the errors of `try_byte_slice`
    /// except that of a split character.
    fn bytes_within(&self, ends: Ends) -> Result<(usize, usize), Error>
        ensures { MatchResult result
            (λ indices. IsRangeIn (byte_len (slice_text self.now)) ends ×
            (indices.0 ≡ start_of ends) ×
            (indices.1 ≡ end_of ends (byte_len (slice_text self.now))))
            (λ error. (¬ (IsRangeIn (byte_len (slice_text self.now)) ends)) ×
            RefusesBytes (slice_text self.now) ends error) }
    {
        let len = self.len_bytes();
        let start = ends.start.unwrap_or(0);
        let end = ends.end.unwrap_or(len);
        if ends.is_backwards() {
            return Err(Error::ByteRangeInvalid(start, end));
        }
        if start > len || end > len {
            return Err(Error::ByteRangeOutOfBounds(ends.start, ends.end, len));
        }
        Ok((start, end))
    }

    /// Returns the start and the end of a range of bytes. `O(log n)`.
    ///
    /// # Errors
    ///
    /// Those of [`try_byte_slice`](Self::try_byte_slice).
    pub fn byte_indices(&self, ends: Ends) -> Result<(usize, usize), Error>
        ensures { MatchResult result
            (λ indices. IsByteRangeIn (slice_text self.now) ends ×
            (indices.0 ≡ start_of ends) ×
            (indices.1 ≡ end_of ends (byte_len (slice_text self.now))))
            (λ error. (¬ (IsByteRangeIn (slice_text self.now) ends)) ×
            RefusesBytes (slice_text self.now) ends error) }
    {
        let (start, end) = self.bytes_within(ends)?;
        if self.place_of_byte(start).is_boundary() && self.place_of_byte(end).is_boundary() {
            Ok((start, end))
        } else {
            Err(Error::ByteRangeNotCharBoundary(ends.start, ends.end))
        }
    }

    /// `start_at_char` for a byte index, which is a character boundary.
    fn start_at_byte(&self, byte_idx: usize) -> Edge<'a>
        requires { IsCharBoundary (slice_bytes self.now) byte_idx }
        ensures chars { result.counts.chars ≡ char_of_byte (slice_text self.now) byte_idx }
        ensures stands { result.counts ≡ standing (slice_text self.now) result.counts.chars }
        ensures chunk { IsChunkOf (slice_pieces self.now) (chars result.chunk.text.now)
            result.chunk.start }
        ensures utf8 { IsUtf8 result.chunk.text.now }
    {
        if byte_idx == 0 {
            return Edge {
                counts: Counts::zero(),
                chunk: Chunk::nothing(),
            };
        }
        let place = self.place_of_byte(byte_idx);
        Edge {
            counts: self.standing_at(&place),
            chunk: place.chunk(),
        }
    }

    /// `end_at_char` for a byte index, which is a character boundary.
    fn end_at_byte(&self, byte_idx: usize) -> Edge<'a>
        requires { IsCharBoundary (slice_bytes self.now) byte_idx }
        ensures chars { result.counts.chars ≡ char_of_byte (slice_text self.now) byte_idx }
        ensures within { result.counts.chars ≤ length (slice_text self.now) }
        ensures counted { result.counts ≡
            counts_of (take result.counts.chars (slice_text self.now)) }
        ensures chunk { IsChunkOf (slice_pieces self.now) (chars result.chunk.text.now)
            result.chunk.start }
        ensures utf8 { IsUtf8 result.chunk.text.now }
    {
        if byte_idx == self.len_bytes() {
            return Edge {
                counts: self.counts(),
                chunk: Chunk::nothing(),
            };
        }
        let place = self.place_of_byte(byte_idx);
        Edge {
            counts: self.counted_to(&place),
            chunk: place.chunk(),
        }
    }

    /// Returns the part between two byte indices, both character boundaries.
    fn bytes_between(&self, start: usize, end: usize) -> Self
        requires order { start ≤ end }
        requires starts { IsCharBoundary (slice_bytes self.now) start }
        requires ends { IsCharBoundary (slice_bytes self.now) end }
        ensures pieces { slice_pieces result ≡ clip (char_of_byte (slice_text self.now) start)
            (char_of_byte (slice_text self.now) end) (slice_pieces self.now) }
        ensures bytes { slice_bytes result ≡ between start end (slice_bytes self.now) }
    {
        // Needed by the proof only.
        let _ = self.len_bytes();
        let from = self.start_at_byte(start);
        let to = self.end_at_byte(end);
        // The chunk found for a byte contains the byte after it.
        self.between(&from.chunk.or(to.chunk), from.counts, to.counts)
    }

    /// Returns the slice of a range of bytes. `O(log n)`.
    ///
    /// # Requires
    ///
    /// The range starts no later than it ends, ends at or before `len_bytes()`, and starts and ends
    /// at character boundaries.
    pub fn byte_slice<R: TextRange>(&self, byte_range: R) -> Self
        requires { IsByteRangeIn (slice_text self.now) (R.ends byte_range) }
        ensures pieces { slice_pieces result ≡
            bytes_in (R.ends byte_range) (slice_pieces self.now) }
        ensures bytes { slice_bytes result ≡ between (start_of (R.ends byte_range))
            (end_of (R.ends byte_range) (byte_len (slice_text self.now))) (slice_bytes self.now) }
    {
        let ends = byte_range.ends();
        let end = ends.end.unwrap_or(self.len_bytes());
        self.bytes_between(ends.start.unwrap_or(0), end)
    }

    /// Returns [`byte_slice`](Self::byte_slice), or why the range is refused. `O(log n)`.
    ///
    /// # Errors
    ///
    /// `ByteRangeInvalid` if the range starts past its end, else `ByteRangeOutOfBounds` if it goes
    /// past `len_bytes()`, else `ByteRangeNotCharBoundary` if it starts or ends inside a character.
    pub fn try_byte_slice<R: TextRange>(&self, byte_range: R) -> Result<Self, Error>
        ensures ok { IsOk result ↔ IsByteRangeIn (slice_text self.now) (R.ends byte_range) }
        ensures slice { IfOk result (λ slice. slice_pieces slice ≡
            bytes_in (R.ends byte_range) (slice_pieces self.now)) }
        ensures bytes { IfOk result (λ slice. slice_bytes slice ≡
            between (start_of (R.ends byte_range))
            (end_of (R.ends byte_range) (byte_len (slice_text self.now)))
            (slice_bytes self.now)) }
        ensures refused { IfErr result (λ error.
            RefusesBytes (slice_text self.now) (R.ends byte_range) error) }
    {
        let ends = byte_range.ends();
        let (start, end) = self.bytes_within(ends)?;
        let from = self.place_of_byte(start);
        let to = self.place_of_byte(end);
        if !from.is_boundary() || !to.is_boundary() {
            return Err(Error::ByteRangeNotCharBoundary(ends.start, ends.end));
        }
        Ok(self.between_places(&from, &to))
    }

    /// Returns [`byte_slice`](Self::byte_slice), or `None` if the range isn't inside the text or
    /// splits a character. `O(log n)`.
    pub fn get_byte_slice<R: TextRange>(&self, byte_range: R) -> Option<Self>
        ensures some { IsSome result ↔ IsByteRangeIn (slice_text self.now) (R.ends byte_range) }
        ensures slice { IfSome result (λ slice. slice_pieces slice ≡
            bytes_in (R.ends byte_range) (slice_pieces self.now)) }
        ensures bytes { IfSome result (λ slice. slice_bytes slice ≡
            between (start_of (R.ends byte_range))
            (end_of (R.ends byte_range) (byte_len (slice_text self.now)))
            (slice_bytes self.now)) }
    {
        match self.try_byte_slice(byte_range) {
            Ok(slice) => Some(slice),
            Err(_) => None,
        }
    }
}
