//! Iterators over the bytes, characters, lines and chunks of a rope.
//!
//! An iterator is before the first item, between two items, or after the last. `next` returns the
//! following item and advances past it, `prev` returns the preceding item and moves back before it,
//! and `reverse` swaps the two directions. If there is no item, they return `None` and the iterator
//! stays. Contracts see the items on both sides, each list from the nearest on.
//!
//! No iterator allocates. A clone has the same position and direction, and moves independently.

ghost use Rattle.std.specs.Prelude.{◌≡◌, ◌+◌, ◌-◌, ◌<◌, ◌≤◌, ◌↔◌, length, SomeIff, IfSome, IsNone, encode_utf8_all};
ghost use Rattle.str_indices.specs.Text.{byte_len};
ghost use Rattle.ropey.specs.Chunks.{text_of, line_breaks, IsRopeText};
ghost use Rattle.ropey.specs.Iter.{before_item, lines_of, StandsBefore, StandsBeforeBreak, CutsNoCrLf};

use crate::rope::Rope;
pub use ropey_walk::iter::{Bytes, Chars, Chunks, Lines};

impl Rope {
    /// Returns an iterator over the bytes, from the start.
    ///
    /// A loop over the bytes of `chunks()` can be vectorized; one over this iterator can't.
    pub fn bytes(&self) -> Bytes<'_>
        ensures { result ≡ before_item 0 (encode_utf8_all (text_of self.now)) }
    {
        self.whole().bytes()
    }

    /// Returns an iterator over the bytes from `byte_idx`, which may be `len_bytes()`. `O(log n)`.
    ///
    /// # Requires
    ///
    /// `byte_idx <= len_bytes()`.
    pub fn bytes_at(&self, byte_idx: usize) -> Bytes<'_>
        requires { byte_idx ≤ byte_len (text_of self.now) }
        ensures { result ≡ before_item byte_idx (encode_utf8_all (text_of self.now)) }
    {
        self.whole().bytes_at(byte_idx)
    }

    /// Returns [`bytes_at`](Self::bytes_at), or `None` if `byte_idx > len_bytes()`. `O(log n)`.
    pub fn get_bytes_at(&self, byte_idx: usize) -> Option<Bytes<'_>>
        ensures { SomeIff result (byte_idx ≤ byte_len (text_of self.now))
            (before_item byte_idx (encode_utf8_all (text_of self.now))) }
    {
        self.whole().get_bytes_at(byte_idx)
    }

    /// Returns an iterator over the characters, from the start.
    pub fn chars(&self) -> Chars<'_>
        ensures { result ≡ before_item 0 (text_of self.now) }
    {
        self.whole().chars()
    }

    /// Returns an iterator over the characters from `char_idx`, which may be `len_chars()`.
    /// `O(log n)`.
    ///
    /// # Requires
    ///
    /// `char_idx <= len_chars()`.
    pub fn chars_at(&self, char_idx: usize) -> Chars<'_>
        requires { char_idx ≤ length (text_of self.now) }
        ensures { result ≡ before_item char_idx (text_of self.now) }
    {
        self.whole().chars_at(char_idx)
    }

    /// Returns [`chars_at`](Self::chars_at), or `None` if `char_idx > len_chars()`. `O(log n)`.
    pub fn get_chars_at(&self, char_idx: usize) -> Option<Chars<'_>>
        ensures { SomeIff result (char_idx ≤ length (text_of self.now))
            (before_item char_idx (text_of self.now)) }
    {
        self.whole().get_chars_at(char_idx)
    }

    /// Returns an iterator over the lines, from the start: `len_lines()` slices. `O(log n)`.
    ///
    /// Each line has the break that ends it. The last has none, and may be empty.
    pub fn lines(&self) -> Lines<'_>
        ensures { result ≡ before_item 0 (lines_of self.now) }
    {
        self.whole().lines()
    }

    /// Returns an iterator over the lines from `line_idx`, which may be `len_lines()`. `O(log n)`.
    ///
    /// # Requires
    ///
    /// `line_idx <= len_lines()`.
    pub fn lines_at(&self, line_idx: usize) -> Lines<'_>
        requires { line_idx ≤ line_breaks (text_of self.now) + 1 }
        ensures { result ≡ before_item line_idx (lines_of self.now) }
    {
        self.whole().lines_at(line_idx)
    }

    /// Returns [`lines_at`](Self::lines_at), or `None` if `line_idx > len_lines()`. `O(log n)`.
    pub fn get_lines_at(&self, line_idx: usize) -> Option<Lines<'_>>
        ensures { SomeIff result (line_idx ≤ line_breaks (text_of self.now) + 1)
            (before_item line_idx (lines_of self.now)) }
    {
        self.whole().get_lines_at(line_idx)
    }

    /// Returns an iterator over the chunks, from the start.
    ///
    /// Chunks have 1 to 984 bytes; joined they are the text. No character and no CR LF is split
    /// between two of them. An empty text has none.
    pub fn chunks(&self) -> Chunks<'_>
        ensures pieces { result ≡ before_item 0 self.now }
        ensures cut { IsRopeText self.now }
        ensures whole { CutsNoCrLf self.now }
    {
        self.whole().chunks()
    }

    /// Returns an iterator over the chunks from the one that contains a byte, and the byte,
    /// character and line index of its position. `O(log n)`.
    ///
    /// For `len_bytes()` it is after the last chunk.
    ///
    /// # Requires
    ///
    /// `byte_idx <= len_bytes()`.
    pub fn chunks_at_byte(&self, byte_idx: usize) -> (Chunks<'_>, usize, usize, usize)
        requires { byte_idx ≤ byte_len (text_of self.now) }
        ensures { StandsBefore self.now byte_len byte_idx result.0 result.1 result.2 result.3 }
    {
        self.whole().chunks_at_byte(byte_idx)
    }

    /// Returns [`chunks_at_byte`](Self::chunks_at_byte), or `None` if `byte_idx > len_bytes()`.
    /// `O(log n)`.
    pub fn get_chunks_at_byte(&self, byte_idx: usize) -> Option<(Chunks<'_>, usize, usize, usize)>
        ensures none { IsNone result ↔ (byte_len (text_of self.now) < byte_idx) }
        ensures chunks { IfSome result (λ from. StandsBefore self.now byte_len byte_idx from.0
            from.1 from.2 from.3) }
    {
        self.whole().get_chunks_at_byte(byte_idx)
    }

    /// Returns an iterator over the chunks from the one that contains a character, and the byte,
    /// character and line index of its position. `O(log n)`.
    ///
    /// For `len_chars()` it is after the last chunk.
    ///
    /// # Requires
    ///
    /// `char_idx <= len_chars()`.
    pub fn chunks_at_char(&self, char_idx: usize) -> (Chunks<'_>, usize, usize, usize)
        requires { char_idx ≤ length (text_of self.now) }
        ensures { StandsBefore self.now length char_idx result.0 result.1 result.2 result.3 }
    {
        self.whole().chunks_at_char(char_idx)
    }

    /// Returns [`chunks_at_char`](Self::chunks_at_char), or `None` if `char_idx > len_chars()`.
    /// `O(log n)`.
    pub fn get_chunks_at_char(&self, char_idx: usize) -> Option<(Chunks<'_>, usize, usize, usize)>
        ensures none { IsNone result ↔ (length (text_of self.now) < char_idx) }
        ensures chunks { IfSome result (λ from. StandsBefore self.now length char_idx from.0
            from.1 from.2 from.3) }
    {
        self.whole().get_chunks_at_char(char_idx)
    }

    /// Returns an iterator over the chunks from the one in which a line break ends, and the byte,
    /// character and line index of its position. `O(log n)`.
    ///
    /// Line breaks count from 1. For 0 it is before the first chunk, for `len_lines()` after the
    /// last.
    ///
    /// # Requires
    ///
    /// `line_break_idx <= len_lines()`.
    pub fn chunks_at_line_break(&self, line_break_idx: usize) -> (Chunks<'_>, usize, usize, usize)
        requires { line_break_idx ≤ line_breaks (text_of self.now) + 1 }
        ensures { StandsBeforeBreak self.now line_break_idx result }
    {
        self.whole().chunks_at_line_break(line_break_idx)
    }

    /// Returns [`chunks_at_line_break`](Self::chunks_at_line_break), or `None` if
    /// `line_break_idx > len_lines()`. `O(log n)`.
    pub fn get_chunks_at_line_break(
        &self,
        line_break_idx: usize,
    ) -> Option<(Chunks<'_>, usize, usize, usize)>
        ensures none { IsNone result ↔ (line_breaks (text_of self.now) + 1 < line_break_idx) }
        ensures chunks { IfSome result (StandsBeforeBreak self.now line_break_idx) }
    {
        self.whole().get_chunks_at_line_break(line_break_idx)
    }
}
