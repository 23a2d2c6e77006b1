//! Access to bytes, characters and chunks of a rope by index.

ghost use Rattle.std.specs.Prelude.{◌≡◌, ◌+◌, ◌-◌, ◌<◌, ◌≤◌, ◌↔◌, length, slice_index, SomeIff, IfSome, IsNone, encode_utf8_all};
ghost use Rattle.std.specs.Str.{chars, IsUtf8};
ghost use Rattle.str_indices.specs.Text.{byte_len};
ghost use Rattle.ropey.specs.Chunks.{text_of, line_breaks, ShowsChunk, ShowsChunkOfBreak};

use crate::rope::Rope;

impl Rope {
    /// Returns the byte at `byte_idx`. `O(log n)`.
    ///
    /// # Requires
    ///
    /// `byte_idx < len_bytes()`.
    pub fn byte(&self, byte_idx: usize) -> u8
        requires { byte_idx < byte_len (text_of self.now) }
        ensures { result ≡ slice_index (encode_utf8_all (text_of self.now)) byte_idx }
    {
        self.whole().byte(byte_idx)
    }

    /// Returns [`byte`](Self::byte), or `None` if `byte_idx >= len_bytes()`. `O(log n)`.
    pub fn get_byte(&self, byte_idx: usize) -> Option<u8>
        ensures { SomeIff result (byte_idx < byte_len (text_of self.now))
            (slice_index (encode_utf8_all (text_of self.now)) byte_idx) }
    {
        self.whole().get_byte(byte_idx)
    }

    /// Returns the character at `char_idx`. `O(log n)`.
    ///
    /// # Requires
    ///
    /// `char_idx < len_chars()`.
    pub fn char(&self, char_idx: usize) -> char
        requires { char_idx < length (text_of self.now) }
        ensures { result ≡ slice_index (text_of self.now) char_idx }
    {
        self.whole().char(char_idx)
    }

    /// Returns [`char`](Self::char), or `None` if `char_idx >= len_chars()`. `O(log n)`.
    pub fn get_char(&self, char_idx: usize) -> Option<char>
        ensures { SomeIff result (char_idx < length (text_of self.now))
            (slice_index (text_of self.now) char_idx) }
    {
        self.whole().get_char(char_idx)
    }

    /// Returns the chunk that contains a character, and the byte, character and line index of the
    /// chunk's start. `O(log n)`.
    ///
    /// For `len_chars()` this is the last chunk. For an empty text it is an empty chunk at 0, 0, 0.
    ///
    /// # Requires
    ///
    /// `char_idx <= len_chars()`.
    pub fn chunk_at_char(&self, char_idx: usize) -> (&str, usize, usize, usize)
        requires { char_idx ≤ length (text_of self.now) }
        ensures chunk { ShowsChunk self.now length char_idx (chars result.0.now) result.1 result.2
            result.3 }
        ensures utf8 { IsUtf8 result.0.now }
    {
        self.whole().chunk_at_char(char_idx)
    }

    /// Returns [`chunk_at_char`](Self::chunk_at_char), or `None` if `char_idx > len_chars()`.
    /// `O(log n)`.
    pub fn get_chunk_at_char(&self, char_idx: usize) -> Option<(&str, usize, usize, usize)>
        ensures none { IsNone result ↔ (length (text_of self.now) < char_idx) }
        ensures chunk { IfSome result (λ shown. ShowsChunk self.now length char_idx
            (chars shown.0.now) shown.1 shown.2 shown.3) }
        ensures utf8 { IfSome result (λ shown. IsUtf8 shown.0.now) }
    {
        self.whole().get_chunk_at_char(char_idx)
    }

    /// Returns the chunk in which a line break ends, and the byte, character and line index of the
    /// chunk's start. `O(log n)`.
    ///
    /// Line breaks count from 1. For 0 this is the first chunk, for `len_lines()` the last. For an
    /// empty text it is an empty chunk at 0, 0, 0.
    ///
    /// # Requires
    ///
    /// `line_break_idx <= len_lines()`.
    pub fn chunk_at_line_break(&self, line_break_idx: usize) -> (&str, usize, usize, usize)
        requires { line_break_idx ≤ line_breaks (text_of self.now) + 1 }
        ensures chunk { ShowsChunkOfBreak self.now line_break_idx (chars result.0.now) result.1
            result.2 result.3 }
        ensures utf8 { IsUtf8 result.0.now }
    {
        self.whole().chunk_at_line_break(line_break_idx)
    }

    /// Returns [`chunk_at_line_break`](Self::chunk_at_line_break), or `None` if
    /// `line_break_idx > len_lines()`. `O(log n)`.
    pub fn get_chunk_at_line_break(
        &self,
        line_break_idx: usize,
    ) -> Option<(&str, usize, usize, usize)>
        ensures none { IsNone result ↔ (line_breaks (text_of self.now) + 1 < line_break_idx) }
        ensures chunk { IfSome result (λ shown. ShowsChunkOfBreak self.now line_break_idx
            (chars shown.0.now) shown.1 shown.2 shown.3) }
        ensures utf8 { IfSome result (λ shown. IsUtf8 shown.0.now) }
    {
        self.whole().get_chunk_at_line_break(line_break_idx)
    }
}
