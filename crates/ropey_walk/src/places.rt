//! Positions in a rope: a chunk, and a byte index in it.

ghost use Rattle.std.specs.Prelude.{◌≡◌, ◌+◌, ◌-◌, ◌<◌, ◌≤◌, ◌↔◌, length, take, true, IsTrue, encode_utf8_all};
ghost use Rattle.std.specs.Str.{chars, IsUtf8, IsCharBoundary};
ghost use Rattle.str_indices.specs.Text.{units};
ghost use Rattle.str_indices.specs.Text.{byte_len};
ghost use Rattle.ropey_tree.specs.Counts.{counts_of};
ghost use Rattle.ropey_tree.specs.Cutting.{IsRopeText};
ghost use Rattle.ropey_walk.specs.Conversions.{char_of_byte, unit_of_byte, line_of_byte, byte_of_char, byte_of_unit, byte_of_line};
ghost use Rattle.ropey_walk.specs.Parts.{standing};
ghost use Rattle.ropey_walk.specs.Standing.{StandsAt, IsPlaceIn, IsChunkOf};

use crate::ascii::{byte_of_char, byte_of_unit, char_of_byte, counts, unit_of_byte};
use crate::slice::{Chunk, RopeSlice};
use ropey_tree::breaks;
use ropey_tree::counts::{By, Counts};

/// A byte index in a chunk, and the counts before the chunk.
#[derive(Clone, Copy)]
pub(crate) struct Place<'a> {
    pub(crate) text: &'a str,
    pub(crate) start: Counts,
    pub(crate) at: usize,
    // Whether each character of the chunk is known to be one byte.
    pub(crate) is_ascii: bool,
    ghost ascii: { is_ascii ≡ true → length (chars text.now) ≡ length text.now },
}

impl<'a> Place<'a> {
    /// Returns whether it is a character boundary.
    pub(crate) fn is_boundary(&self) -> bool
        ensures { IsTrue result ↔ IsCharBoundary self.now.text.now self.now.at }
    {
        self.text.is_char_boundary(self.at)
    }

    /// Returns the chunk.
    #[inline]
    pub(crate) fn chunk(&self) -> Chunk<'a>
        ensures text { result.text ≡ self.now.text }
        ensures start { result.start ≡ self.now.start }
    {
        Chunk {
            text: self.text,
            start: self.start,
            is_ascii: self.is_ascii,
        }
    }
}

impl<'a> RopeSlice<'a> {
    ghost use Rattle.ropey_walk.specs.Slices.{slice_pieces, slice_text};

    /// Returns the position of a byte.
    pub(crate) fn place_of_byte(&self, byte_idx: usize) -> Place<'a>
        requires { byte_idx ≤ byte_len (slice_text self.now) }
        ensures stands { IsPlaceIn (slice_text self.now) (chars result.text.now) result.start
            result.at }
        ensures place { result.start.bytes + result.at ≡ byte_idx }
        ensures chunk { IsChunkOf (slice_pieces self.now) (chars result.text.now) result.start }
        ensures boundary { IsCharBoundary (encode_utf8_all (slice_text self.now)) byte_idx ↔
            IsCharBoundary result.text.now result.at }
        ensures utf8 { IsUtf8 result.text.now }
    {
        let chunk = self.chunk(By::Bytes, byte_idx);
        Place {
            text: chunk.text,
            start: chunk.start,
            at: byte_idx - chunk.start.bytes,
            is_ascii: chunk.is_ascii,
        }
    }

    /// Returns the position of a character's start, or the text's end.
    pub(crate) fn place_of_char(&self, char_idx: usize) -> Place<'a>
        ensures stands { IsPlaceIn (slice_text self.now) (chars result.text.now) result.start
            result.at }
        ensures place { result.start.bytes + result.at ≡ byte_of_char (slice_text self.now)
            char_idx }
        ensures chunk { IsChunkOf (slice_pieces self.now) (chars result.text.now) result.start }
        ensures boundary { IsCharBoundary result.text.now result.at }
        ensures utf8 { IsUtf8 result.text.now }
    {
        let chunk = self.chunk(By::Chars, char_idx.saturating_sub(1));
        Place {
            text: chunk.text,
            start: chunk.start,
            at: byte_of_char(chunk.text, chunk.is_ascii, char_idx - chunk.start.chars),
            is_ascii: chunk.is_ascii,
        }
    }

    /// Returns the position of the start of the character that contains a code unit, or the text's
    /// end.
    pub(crate) fn place_of_unit(&self, utf16_cu_idx: usize) -> Place<'a>
        ensures stands { IsPlaceIn (slice_text self.now) (chars result.text.now) result.start
            result.at }
        ensures place { result.start.bytes + result.at ≡
            byte_of_unit (slice_text self.now) utf16_cu_idx }
    {
        let chunk = self.chunk(By::Units, utf16_cu_idx);
        Place {
            text: chunk.text,
            start: chunk.start,
            at: byte_of_unit(chunk.text, chunk.is_ascii, utf16_cu_idx - chunk.start.units),
            is_ascii: chunk.is_ascii,
        }
    }

    /// Returns the first chunk by whose end `line_break_idx` line breaks have ended, or else the
    /// last.
    pub(crate) fn chunk_of_break(&self, line_break_idx: usize) -> Chunk<'a>
        ensures first { line_break_idx ≡ 0 →
            StandsAt (slice_pieces self.now) By.Bytes 0 (chars result.text.now) result.start }
        ensures later { 0 < line_break_idx →
            StandsAt (slice_pieces self.now) By.Breaks (line_break_idx - 1) (chars result.text.now)
            result.start }
        ensures cut { IsRopeText (slice_pieces self.now) }
        ensures utf8 { IsUtf8 result.text.now }
    {
        if line_break_idx == 0 {
            self.chunk(By::Bytes, 0)
        } else {
            self.chunk(By::Breaks, line_break_idx - 1)
        }
    }

    /// Returns the position of a line's start, or the text's end.
    pub(crate) fn place_of_line(&self, line_idx: usize) -> Place<'a>
        ensures stands { IsPlaceIn (slice_text self.now) (chars result.text.now) result.start
            result.at }
        ensures place { result.start.bytes + result.at ≡ byte_of_line (slice_text self.now)
            line_idx }
        ensures chunk { IsChunkOf (slice_pieces self.now) (chars result.text.now) result.start }
        ensures boundary { IsCharBoundary result.text.now result.at }
        ensures utf8 { IsUtf8 result.text.now }
    {
        let chunk = self.chunk_of_break(line_idx);
        Place {
            text: chunk.text,
            start: chunk.start,
            at: breaks::to_byte_idx(chunk.text, line_idx - chunk.start.breaks),
            is_ascii: chunk.is_ascii,
        }
    }

    /// Returns the byte index of a position.
    pub(crate) fn byte_of(&self, place: &Place<'_>) -> usize
        requires { IsPlaceIn (slice_text self.now) (chars place.now.text.now) place.now.start
            place.now.at }
        ensures { result ≡ place.now.start.bytes + place.now.at }
    {
        place.start.bytes + place.at
    }

    /// Returns the index of the character that contains a position.
    pub(crate) fn char_of(&self, place: &Place<'_>) -> usize
        requires { IsPlaceIn (slice_text self.now) (chars place.now.text.now) place.now.start
            place.now.at }
        ensures { result ≡ char_of_byte (slice_text self.now)
            (place.now.start.bytes + place.now.at) }
    {
        place.start.chars + char_of_byte(place.text, place.is_ascii, place.at)
    }

    /// Returns the number of code units of the characters that end at or before a position.
    pub(crate) fn unit_of(&self, place: &Place<'_>) -> usize
        requires { IsPlaceIn (slice_text self.now) (chars place.now.text.now) place.now.start
            place.now.at }
        ensures { result ≡ unit_of_byte (slice_text self.now)
            (place.now.start.bytes + place.now.at) }
    {
        place.start.units + unit_of_byte(place.text, place.is_ascii, place.at)
    }

    /// Returns the index of the line that contains a position.
    pub(crate) fn line_of(&self, place: &Place<'_>) -> usize
        requires { IsPlaceIn (slice_text self.now) (chars place.now.text.now) place.now.start
            place.now.at }
        ensures { result ≡ line_of_byte (slice_text self.now)
            (place.now.start.bytes + place.now.at) }
    {
        place.start.breaks + breaks::from_byte_idx(place.text, place.at)
    }

    /// Returns the counts before a position at a character boundary.
    pub(crate) fn standing_at(&self, place: &Place<'_>) -> Counts
        requires place { IsPlaceIn (slice_text self.now) (chars place.now.text.now) place.now.start
            place.now.at }
        requires boundary { IsCharBoundary place.now.text.now place.now.at }
        requires utf8 { IsUtf8 place.now.text.now }
        ensures chars { result.chars ≡
            char_of_byte (slice_text self.now) (place.now.start.bytes + place.now.at) }
        ensures stands { result ≡ standing (slice_text self.now) result.chars }
    {
        Counts {
            bytes: self.byte_of(place),
            chars: self.char_of(place),
            units: self.unit_of(place),
            breaks: self.line_of(place),
        }
    }

    /// Returns the counts of the text up to a position at a character boundary: if the position is
    /// inside a CR LF, its CR counts as a break.
    pub(crate) fn counted_to(&self, place: &Place<'_>) -> Counts
        requires place { IsPlaceIn (slice_text self.now) (chars place.now.text.now) place.now.start
            place.now.at }
        requires boundary { IsCharBoundary place.now.text.now place.now.at }
        requires utf8 { IsUtf8 place.now.text.now }
        ensures chars { result.chars ≡
            char_of_byte (slice_text self.now) (place.now.start.bytes + place.now.at) }
        ensures within { result.chars ≤ length (slice_text self.now) }
        ensures counted { result ≡ counts_of (take result.chars (slice_text self.now)) }
    {
        place
            .start
            .plus(counts(&place.text[..place.at], place.is_ascii))
    }
}
