//! Iterators over the bytes, characters, lines and chunks of a text.
//!
//! An iterator is before the first item, between two items, or after the last. `next` returns the
//! following item and advances past it, `prev` returns the preceding item and moves back before it,
//! and `reverse` swaps the two directions. If there is no item, they return `None` and the iterator
//! stays. Contracts see the items on both sides, each list from the nearest on.
//!
//! No iterator allocates. A clone has the same position and direction, and moves independently.

ghost use Rattle.std.specs.Prelude.{◌≡◌, ◌+◌, ◌-◌, ◌<◌, ◌≤◌, ◌↔◌, length, SomeIff, IfOk, IfErr, IfSome, IsNone, encode_utf8_all, string_bytes};
ghost use Rattle.str_indices.specs.Text.{byte_len};
ghost use Rattle.ropey_tree.specs.Counts.{counts_of, amount};
ghost use Rattle.ropey_walk.specs.Chunks.{line_breaks, IsRopeText};
ghost use Rattle.ropey_walk.specs.TwoWay.{before_item};
ghost use Rattle.ropey_walk.specs.Iter.{StandsBefore, StandsBeforeBreak, CutsNoCrLf};
ghost use Rattle.ropey_walk.specs.Lines.{lines_of};
ghost use Rattle.ropey_walk.specs.Slices.{slice_pieces, slice_text};

mod bytes;
mod chars;
mod chunks;
pub(crate) mod lines;

use crate::slice::RopeSlice;
pub use bytes::Bytes;
pub use chars::Chars;
pub use chunks::Chunks;
pub use lines::Lines;
use ropey_tree::counts::By;
use ropey_tree::error::Error;
use std::alloc::Global;

impl<'a> RopeSlice<'a> {
    /// Returns an iterator over the bytes, from the start.
    pub fn bytes(&self) -> Bytes<'a>
        ensures { result ≡ before_item 0 (encode_utf8_all (slice_text self.now)) }
    {
        Bytes::at(*self, 0)
    }

    /// Returns an iterator over the bytes from `byte_idx`, which may be `len_bytes()`. `O(log n)`.
    ///
    /// # Requires
    ///
    /// `byte_idx <= len_bytes()`.
    pub fn bytes_at(&self, byte_idx: usize) -> Bytes<'a>
        requires { byte_idx ≤ byte_len (slice_text self.now) }
        ensures { result ≡ before_item byte_idx (encode_utf8_all (slice_text self.now)) }
    {
        Bytes::at(*self, byte_idx)
    }

    /// Returns [`bytes_at`](Self::bytes_at), or `None` if `byte_idx > len_bytes()`. `O(log n)`.
    pub fn get_bytes_at(&self, byte_idx: usize) -> Option<Bytes<'a>>
        ensures { SomeIff result (byte_idx ≤ byte_len (slice_text self.now))
            (before_item byte_idx (encode_utf8_all (slice_text self.now))) }
    {
        if byte_idx <= self.len_bytes() {
            Some(self.bytes_at(byte_idx))
        } else {
            None
        }
    }

    /// Returns an iterator over the characters, from the start.
    pub fn chars(&self) -> Chars<'a>
        ensures { result ≡ before_item 0 (slice_text self.now) }
    {
        Chars::at(*self, 0)
    }

    /// Returns an iterator over the characters from `char_idx`, which may be `len_chars()`.
    /// `O(log n)`.
    ///
    /// # Requires
    ///
    /// `char_idx <= len_chars()`.
    pub fn chars_at(&self, char_idx: usize) -> Chars<'a>
        requires { char_idx ≤ length (slice_text self.now) }
        ensures { result ≡ before_item char_idx (slice_text self.now) }
    {
        Chars::at(*self, char_idx)
    }

    /// Returns [`chars_at`](Self::chars_at), or `None` if `char_idx > len_chars()`. `O(log n)`.
    pub fn get_chars_at(&self, char_idx: usize) -> Option<Chars<'a>>
        ensures { SomeIff result (char_idx ≤ length (slice_text self.now))
            (before_item char_idx (slice_text self.now)) }
    {
        if char_idx <= self.counts().chars {
            Some(self.chars_at(char_idx))
        } else {
            None
        }
    }

    /// Returns an iterator over the lines, from the start: `len_lines()` slices. `O(log n)`.
    ///
    /// Each line has the break that ends it. The last has none, and may be empty.
    pub fn lines(&self) -> Lines<'a>
        ensures { result ≡ before_item 0 (lines_of (slice_pieces self.now)) }
    {
        Lines::at(*self, 0)
    }

    /// Returns an iterator over the lines from `line_idx`, which may be `len_lines()`. `O(log n)`.
    ///
    /// # Requires
    ///
    /// `line_idx <= len_lines()`.
    pub fn lines_at(&self, line_idx: usize) -> Lines<'a>
        requires { line_idx ≤ line_breaks (slice_text self.now) + 1 }
        ensures { result ≡ before_item line_idx (lines_of (slice_pieces self.now)) }
    {
        Lines::at(*self, line_idx)
    }

    /// Returns [`lines_at`](Self::lines_at), or `None` if `line_idx > len_lines()`. `O(log n)`.
    pub fn get_lines_at(&self, line_idx: usize) -> Option<Lines<'a>>
        ensures { SomeIff result (line_idx ≤ line_breaks (slice_text self.now) + 1)
            (before_item line_idx (lines_of (slice_pieces self.now))) }
    {
        if line_idx <= self.len_lines() {
            Some(self.lines_at(line_idx))
        } else {
            None
        }
    }

    /// Returns an iterator over the chunks, from the start.
    ///
    /// Chunks have 1 to 984 bytes; joined they are the text. No character and no CR LF is split
    /// between two of them. An empty text has none.
    pub fn chunks(&self) -> Chunks<'a>
        ensures pieces { result ≡ before_item 0 (slice_pieces self.now) }
        ensures cut { IsRopeText (slice_pieces self.now) }
        ensures whole { CutsNoCrLf (slice_pieces self.now) }
    {
        Chunks::at(*self, 0)
    }

    /// Returns an iterator over the chunks from the one that contains index `i` in units of `by`,
    /// or after the last one if there is none, and the byte, character and line index of its
    /// position.
    fn chunks_at(&self, by: By, i: usize) -> (Chunks<'a>, usize, usize, usize)
        ensures { StandsBefore (slice_pieces self.now) (λ text. amount by (counts_of text)) i
            result.0 result.1 result.2 result.3 }
    {
        let len = self.counts();
        if i >= len.by(by) {
            return (
                Chunks::at(*self, len.bytes),
                len.bytes,
                len.chars,
                len.breaks,
            );
        }
        let start = self.chunk(by, i).start;
        (
            Chunks::at(*self, start.bytes),
            start.bytes,
            start.chars,
            start.breaks,
        )
    }

    /// Returns an iterator over the chunks from the one that contains a byte, and the byte,
    /// character and line index of its position. `O(log n)`.
    ///
    /// For `len_bytes()` it is after the last chunk.
    ///
    /// # Requires
    ///
    /// `byte_idx <= len_bytes()`.
    pub fn chunks_at_byte(&self, byte_idx: usize) -> (Chunks<'a>, usize, usize, usize)
        requires { byte_idx ≤ byte_len (slice_text self.now) }
        ensures { StandsBefore (slice_pieces self.now) byte_len byte_idx result.0 result.1 result.2
            result.3 }
    {
        self.chunks_at(By::Bytes, byte_idx)
    }

    /// Returns [`chunks_at_byte`](Self::chunks_at_byte), or `None` if `byte_idx > len_bytes()`.
    /// `O(log n)`.
    pub fn get_chunks_at_byte(&self, byte_idx: usize) -> Option<(Chunks<'a>, usize, usize, usize)>
        ensures none { IsNone result ↔ (byte_len (slice_text self.now) < byte_idx) }
        ensures chunks { IfSome result (λ from. StandsBefore (slice_pieces self.now) byte_len
            byte_idx from.0 from.1 from.2 from.3) }
    {
        if byte_idx <= self.len_bytes() {
            Some(self.chunks_at_byte(byte_idx))
        } else {
            None
        }
    }

    /// Returns an iterator over the chunks from the one that contains a character, and the byte,
    /// character and line index of its position. `O(log n)`.
    ///
    /// For `len_chars()` it is after the last chunk.
    ///
    /// # Requires
    ///
    /// `char_idx <= len_chars()`.
    pub fn chunks_at_char(&self, char_idx: usize) -> (Chunks<'a>, usize, usize, usize)
        requires { char_idx ≤ length (slice_text self.now) }
        ensures { StandsBefore (slice_pieces self.now) length char_idx result.0 result.1 result.2
            result.3 }
    {
        self.chunks_at(By::Chars, char_idx)
    }

    /// Returns [`chunks_at_char`](Self::chunks_at_char), or `None` if `char_idx > len_chars()`.
    /// `O(log n)`.
    pub fn get_chunks_at_char(&self, char_idx: usize) -> Option<(Chunks<'a>, usize, usize, usize)>
        ensures none { IsNone result ↔ (length (slice_text self.now) < char_idx) }
        ensures chunks { IfSome result (λ from. StandsBefore (slice_pieces self.now) length
            char_idx from.0 from.1 from.2 from.3) }
    {
        if char_idx <= self.counts().chars {
            Some(self.chunks_at_char(char_idx))
        } else {
            None
        }
    }

    /// Returns an iterator over the chunks from the one in which a line break ends, and the byte,
    /// character and line index of its position. `O(log n)`.
    ///
    /// Line breaks count from 1. For 0 it is before the first chunk, for `len_lines()` after the
    /// last.
    ///
    /// # Requires
    ///
    /// `line_break_idx <= len_lines()`.
    pub fn chunks_at_line_break(&self, line_break_idx: usize) -> (Chunks<'a>, usize, usize, usize)
        requires { line_break_idx ≤ line_breaks (slice_text self.now) + 1 }
        ensures { StandsBeforeBreak (slice_pieces self.now) line_break_idx result }
    {
        if line_break_idx == 0 {
            self.chunks_at(By::Bytes, 0)
        } else {
            self.chunks_at(By::Breaks, line_break_idx - 1)
        }
    }

    /// Returns [`chunks_at_line_break`](Self::chunks_at_line_break), or `None` if
    /// `line_break_idx > len_lines()`. `O(log n)`.
    pub fn get_chunks_at_line_break(
        &self,
        line_break_idx: usize,
    ) -> Option<(Chunks<'a>, usize, usize, usize)>
        ensures none { IsNone result ↔ (line_breaks (slice_text self.now) + 1 < line_break_idx) }
        ensures chunks { IfSome result
            (StandsBeforeBreak (slice_pieces self.now) line_break_idx) }
    {
        if line_break_idx == 0 || line_break_idx - 1 <= self.counts().breaks {
            Some(self.chunks_at_line_break(line_break_idx))
        } else {
            None
        }
    }

    /// Returns a copy of the whole text, allocated in `alloc`. `O(n)`.
    ///
    /// # Errors
    ///
    /// `Memory`.
    pub fn to_text(&self, alloc: Global) -> Result<String, Error>
        ensures text { IfOk result (λ text. string_bytes text ≡
            encode_utf8_all (slice_text self.now)) }
        ensures refused { IfErr result (λ error. error ≡ Error.Memory) }
    {
        let mut text = String::with_capacity(alloc, self.len_bytes())?;
        for chunk in self.chunks() {
            text.push_str(chunk)?;
        }
        Ok(text)
    }
}
