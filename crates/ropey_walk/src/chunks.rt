//! Access to bytes, characters and chunks by index.

ghost use Rattle.std.specs.Prelude.{◌≡◌, ◌+◌, ◌-◌, ◌<◌, ◌≤◌, ◌↔◌, length, slice_index, SomeIff, IfSome, IsSome, IsNone, IfOk, IfErr, IsOk, encode_utf8_all};
ghost use Rattle.std.specs.Str.{chars, IsUtf8};
ghost use Rattle.str_indices.specs.Text.{byte_len};
ghost use Rattle.ropey_walk.specs.Chunks.{line_breaks, IsRopeText, ShowsChunk, ShowsChunkOfBreak};

use crate::ascii::byte_of_char;
use crate::slice::RopeSlice;
use ropey_tree::counts::By;
use ropey_tree::error::Error;

impl<'a> RopeSlice<'a> {
    ghost use Rattle.ropey_walk.specs.Slices.{slice_pieces, slice_text};

    /// Returns the byte at `byte_idx`. `O(log n)`.
    ///
    /// # Requires
    ///
    /// `byte_idx < len_bytes()`.
    pub fn byte(&self, byte_idx: usize) -> u8
        requires { byte_idx < byte_len (slice_text self.now) }
        ensures { result ≡ slice_index (encode_utf8_all (slice_text self.now)) byte_idx }
    {
        let chunk = self.chunk(By::Bytes, byte_idx);
        chunk.text.as_bytes()[byte_idx - chunk.start.bytes]
    }

    /// Returns [`byte`](Self::byte), or `None` if `byte_idx >= len_bytes()`. `O(log n)`.
    pub fn get_byte(&self, byte_idx: usize) -> Option<u8>
        ensures { SomeIff result (byte_idx < byte_len (slice_text self.now))
            (slice_index (encode_utf8_all (slice_text self.now)) byte_idx) }
    {
        if byte_idx < self.len_bytes() {
            Some(self.byte(byte_idx))
        } else {
            None
        }
    }

    /// Returns the character at `char_idx`. `O(log n)`.
    ///
    /// # Requires
    ///
    /// `char_idx < len_chars()`.
    pub fn char(&self, char_idx: usize) -> char
        requires { char_idx < length (slice_text self.now) }
        ensures { result ≡ slice_index (slice_text self.now) char_idx }
    {
        let chunk = self.chunk(By::Chars, char_idx);
        let at = byte_of_char(chunk.text, chunk.is_ascii, char_idx - chunk.start.chars);
        match chunk.text[at..].chars().next() {
            Some(character) => character,
            None => unreachable!(),
        }
    }

    /// Returns [`char`](Self::char), or `None` if `char_idx >= len_chars()`. `O(log n)`.
    pub fn get_char(&self, char_idx: usize) -> Option<char>
        ensures { SomeIff result (char_idx < length (slice_text self.now))
            (slice_index (slice_text self.now) char_idx) }
    {
        if char_idx < self.len_chars() {
            Some(self.char(char_idx))
        } else {
            None
        }
    }

    /// Returns the chunk that contains a byte, and the byte, character and line index of the
    /// chunk's start. `O(log n)`.
    ///
    /// For `len_bytes()` this is the last chunk. For an empty text it is an empty chunk at 0, 0, 0.
    ///
    /// # Requires
    ///
    /// `byte_idx <= len_bytes()`.
    pub fn chunk_at_byte(&self, byte_idx: usize) -> (&'a str, usize, usize, usize)
        requires { byte_idx ≤ byte_len (slice_text self.now) }
        ensures chunk { ShowsChunk (slice_pieces self.now) byte_len byte_idx (chars result.0.now)
            result.1 result.2 result.3 }
        ensures utf8 { IsUtf8 result.0.now }
        ensures cut { IsRopeText (slice_pieces self.now) }
    {
        let chunk = self.chunk(By::Bytes, byte_idx);
        (
            chunk.text,
            chunk.start.bytes,
            chunk.start.chars,
            chunk.start.breaks,
        )
    }

    /// Returns [`chunk_at_byte`](Self::chunk_at_byte) for an index that may be out of bounds.
    /// `O(log n)`.
    ///
    /// # Errors
    ///
    /// `ByteIndexOutOfBounds(byte_idx, len_bytes())` if `byte_idx > len_bytes()`.
    pub fn try_chunk_at_byte(
        &self,
        byte_idx: usize,
    ) -> Result<(&'a str, usize, usize, usize), Error>
        ensures ok { IsOk result ↔ (byte_idx ≤ byte_len (slice_text self.now)) }
        ensures refused { IfErr result (λ error. error ≡
            Error.ByteIndexOutOfBounds byte_idx (byte_len (slice_text self.now))) }
        ensures chunk { IfOk result (λ shown. ShowsChunk (slice_pieces self.now) byte_len byte_idx
            (chars shown.0.now) shown.1 shown.2 shown.3) }
        ensures utf8 { IfOk result (λ shown. IsUtf8 shown.0.now) }
    {
        self.within_bytes(byte_idx)?;
        Ok(self.chunk_at_byte(byte_idx))
    }

    /// Returns the whole text if the slice has at most one chunk, else `None`. `O(log n)`.
    pub fn as_str(&self) -> Option<&'a str>
        ensures one { IsSome result ↔ (length (slice_pieces self.now) ≤ 1) }
        ensures text { IfSome result (λ text. chars text.now ≡ slice_text self.now) }
        ensures utf8 { IfSome result (λ text. IsUtf8 text.now) }
    {
        let chunk = self.chunk(By::Bytes, 0);
        if chunk.text.len() == self.len_bytes() {
            Some(chunk.text)
        } else {
            None
        }
    }

    /// Returns the chunk that contains a character, and the byte, character and line index of the
    /// chunk's start. `O(log n)`.
    ///
    /// For `len_chars()` this is the last chunk. For an empty text it is an empty chunk at 0, 0, 0.
    ///
    /// # Requires
    ///
    /// `char_idx <= len_chars()`.
    pub fn chunk_at_char(&self, char_idx: usize) -> (&'a str, usize, usize, usize)
        requires { char_idx ≤ length (slice_text self.now) }
        ensures chunk { ShowsChunk (slice_pieces self.now) length char_idx (chars result.0.now)
            result.1 result.2 result.3 }
        ensures utf8 { IsUtf8 result.0.now }
    {
        let chunk = self.chunk(By::Chars, char_idx);
        (
            chunk.text,
            chunk.start.bytes,
            chunk.start.chars,
            chunk.start.breaks,
        )
    }

    /// Returns [`chunk_at_char`](Self::chunk_at_char), or `None` if `char_idx > len_chars()`.
    /// `O(log n)`.
    pub fn get_chunk_at_char(&self, char_idx: usize) -> Option<(&'a str, usize, usize, usize)>
        ensures none { IsNone result ↔ (length (slice_text self.now) < char_idx) }
        ensures chunk { IfSome result (λ shown. ShowsChunk (slice_pieces self.now) length char_idx
            (chars shown.0.now) shown.1 shown.2 shown.3) }
        ensures utf8 { IfSome result (λ shown. IsUtf8 shown.0.now) }
    {
        if char_idx <= self.len_chars() {
            Some(self.chunk_at_char(char_idx))
        } else {
            None
        }
    }

    /// Returns the chunk in which a line break ends, and the byte, character and line index of the
    /// chunk's start. `O(log n)`.
    ///
    /// Line breaks count from 1. For 0 this is the first chunk, for `len_lines()` the last. For an
    /// empty text it is an empty chunk at 0, 0, 0.
    ///
    /// # Requires
    ///
    /// `line_break_idx <= len_lines()`.
    pub fn chunk_at_line_break(&self, line_break_idx: usize) -> (&'a str, usize, usize, usize)
        requires { line_break_idx ≤ line_breaks (slice_text self.now) + 1 }
        ensures chunk { ShowsChunkOfBreak (slice_pieces self.now) line_break_idx
            (chars result.0.now) result.1 result.2 result.3 }
        ensures utf8 { IsUtf8 result.0.now }
    {
        let chunk = self.chunk_of_break(line_break_idx);
        (
            chunk.text,
            chunk.start.bytes,
            chunk.start.chars,
            chunk.start.breaks,
        )
    }

    /// Returns [`chunk_at_line_break`](Self::chunk_at_line_break), or `None` if
    /// `line_break_idx > len_lines()`. `O(log n)`.
    pub fn get_chunk_at_line_break(
        &self,
        line_break_idx: usize,
    ) -> Option<(&'a str, usize, usize, usize)>
        ensures none { IsNone result ↔ (line_breaks (slice_text self.now) + 1 < line_break_idx) }
        ensures chunk { IfSome result (λ shown. ShowsChunkOfBreak (slice_pieces self.now)
            line_break_idx (chars shown.0.now) shown.1 shown.2 shown.3) }
        ensures utf8 { IfSome result (λ shown. IsUtf8 shown.0.now) }
    {
        if line_break_idx <= self.len_lines() {
            Some(self.chunk_at_line_break(line_break_idx))
        } else {
            None
        }
    }
}
