//! Conversions between indices of bytes, characters, UTF-16 code units and lines.
//!
//! All indices count from 0. The end of the text has an index too: the length, or the number of
//! lines. The plain form of a call requires an index in range. The `try_` form returns an error
//! past that, with the index and the length. Each call descends once from the root to a leaf: it
//! takes `O(log n)` and allocates nothing.

ghost use Rattle.std.specs.Prelude.{◌≡◌, ◌+◌, ◌<◌, ◌≤◌, length, OkIff, IfErr};
ghost use Rattle.str_indices.specs.Text.{units};
ghost use Rattle.str_indices.specs.Text.{byte_len};
ghost use Rattle.ropey.specs.Chunks.{text_of, line_breaks};
ghost use Rattle.ropey_walk.specs.Conversions.{char_of_byte, unit_of_byte, line_of_byte, byte_of_char, byte_of_unit, byte_of_line};

use crate::rope::Rope;
use ropey_tree::error::Error;

impl Rope {
    /// Returns the index of the character that contains a byte, or `len_chars()` for `len_bytes()`.
    /// `O(log n)`.
    ///
    /// # Requires
    ///
    /// `byte_idx <= len_bytes()`.
    pub fn byte_to_char(&self, byte_idx: usize) -> usize
        requires { byte_idx ≤ byte_len (text_of self.now) }
        ensures { result ≡ char_of_byte (text_of self.now) byte_idx }
    {
        self.whole().byte_to_char(byte_idx)
    }

    /// Returns the index of the line that contains a byte: the number of line breaks that end at or
    /// before it. `O(log n)`.
    ///
    /// Between the CR and the LF of a break this is still the line that the break ends.
    ///
    /// # Requires
    ///
    /// `byte_idx <= len_bytes()`.
    pub fn byte_to_line(&self, byte_idx: usize) -> usize
        requires { byte_idx ≤ byte_len (text_of self.now) }
        ensures { result ≡ line_of_byte (text_of self.now) byte_idx }
    {
        self.whole().byte_to_line(byte_idx)
    }

    /// Returns the byte index of the start of a character, or `len_bytes()` for `len_chars()`.
    /// `O(log n)`.
    ///
    /// # Requires
    ///
    /// `char_idx <= len_chars()`.
    pub fn char_to_byte(&self, char_idx: usize) -> usize
        requires { char_idx ≤ length (text_of self.now) }
        ensures { result ≡ byte_of_char (text_of self.now) char_idx }
    {
        self.whole().char_to_byte(char_idx)
    }

    /// Returns the index of the line that contains a character, or of the last line for
    /// `len_chars()`. `O(log n)`.
    ///
    /// # Requires
    ///
    /// `char_idx <= len_chars()`.
    pub fn char_to_line(&self, char_idx: usize) -> usize
        requires { char_idx ≤ length (text_of self.now) }
        ensures { result ≡ line_of_byte (text_of self.now)
            (byte_of_char (text_of self.now) char_idx) }
    {
        self.whole().char_to_line(char_idx)
    }

    /// Returns the UTF-16 code unit index of a character: the number of code units before it.
    /// `O(log n)`.
    ///
    /// # Requires
    ///
    /// `char_idx <= len_chars()`.
    pub fn char_to_utf16_cu(&self, char_idx: usize) -> usize
        requires { char_idx ≤ length (text_of self.now) }
        ensures { result ≡ unit_of_byte (text_of self.now)
            (byte_of_char (text_of self.now) char_idx) }
    {
        self.whole().char_to_utf16_cu(char_idx)
    }

    /// Returns the index of the character that contains a UTF-16 code unit, or `len_chars()` for
    /// `len_utf16_cu()`. `O(log n)`.
    ///
    /// Both units of a surrogate pair belong to one character.
    ///
    /// # Requires
    ///
    /// `utf16_cu_idx <= len_utf16_cu()`.
    pub fn utf16_cu_to_char(&self, utf16_cu_idx: usize) -> usize
        requires { utf16_cu_idx ≤ units (text_of self.now) }
        ensures { result ≡ char_of_byte (text_of self.now)
            (byte_of_unit (text_of self.now) utf16_cu_idx) }
    {
        self.whole().utf16_cu_to_char(utf16_cu_idx)
    }

    /// Returns the byte index of the start of a line, or `len_bytes()` for `len_lines()`.
    /// `O(log n)`.
    ///
    /// # Requires
    ///
    /// `line_idx <= len_lines()`.
    pub fn line_to_byte(&self, line_idx: usize) -> usize
        requires { line_idx ≤ line_breaks (text_of self.now) + 1 }
        ensures { result ≡ byte_of_line (text_of self.now) line_idx }
    {
        self.whole().line_to_byte(line_idx)
    }

    /// Returns the character index of the start of a line, or `len_chars()` for `len_lines()`.
    /// `O(log n)`.
    ///
    /// # Requires
    ///
    /// `line_idx <= len_lines()`.
    pub fn line_to_char(&self, line_idx: usize) -> usize
        requires { line_idx ≤ line_breaks (text_of self.now) + 1 }
        ensures { result ≡ char_of_byte (text_of self.now)
            (byte_of_line (text_of self.now) line_idx) }
    {
        self.whole().line_to_char(line_idx)
    }

    /// Returns [`byte_to_char`](Self::byte_to_char) for an index that may be out of bounds.
    /// `O(log n)`.
    ///
    /// # Errors
    ///
    /// `ByteIndexOutOfBounds(byte_idx, len_bytes())` if `byte_idx > len_bytes()`.
    pub fn try_byte_to_char(&self, byte_idx: usize) -> Result<usize, Error>
        ensures value { OkIff result (byte_idx ≤ byte_len (text_of self.now))
            (char_of_byte (text_of self.now) byte_idx) }
        ensures refused { IfErr result (λ error. error ≡
            Error.ByteIndexOutOfBounds byte_idx (byte_len (text_of self.now))) }
    {
        self.whole().try_byte_to_char(byte_idx)
    }

    /// Returns [`byte_to_line`](Self::byte_to_line) for an index that may be out of bounds.
    /// `O(log n)`.
    ///
    /// # Errors
    ///
    /// `ByteIndexOutOfBounds(byte_idx, len_bytes())` if `byte_idx > len_bytes()`.
    pub fn try_byte_to_line(&self, byte_idx: usize) -> Result<usize, Error>
        ensures value { OkIff result (byte_idx ≤ byte_len (text_of self.now))
            (line_of_byte (text_of self.now) byte_idx) }
        ensures refused { IfErr result (λ error. error ≡
            Error.ByteIndexOutOfBounds byte_idx (byte_len (text_of self.now))) }
    {
        self.whole().try_byte_to_line(byte_idx)
    }

    /// Returns [`char_to_byte`](Self::char_to_byte) for an index that may be out of bounds.
    /// `O(log n)`.
    ///
    /// # Errors
    ///
    /// `CharIndexOutOfBounds(char_idx, len_chars())` if `char_idx > len_chars()`.
    pub fn try_char_to_byte(&self, char_idx: usize) -> Result<usize, Error>
        ensures value { OkIff result (char_idx ≤ length (text_of self.now))
            (byte_of_char (text_of self.now) char_idx) }
        ensures refused { IfErr result (λ error. error ≡
            Error.CharIndexOutOfBounds char_idx (length (text_of self.now))) }
    {
        self.whole().try_char_to_byte(char_idx)
    }

    /// Returns [`char_to_line`](Self::char_to_line) for an index that may be out of bounds.
    /// `O(log n)`.
    ///
    /// # Errors
    ///
    /// `CharIndexOutOfBounds(char_idx, len_chars())` if `char_idx > len_chars()`.
    pub fn try_char_to_line(&self, char_idx: usize) -> Result<usize, Error>
        ensures value { OkIff result (char_idx ≤ length (text_of self.now))
            (line_of_byte (text_of self.now) (byte_of_char (text_of self.now) char_idx)) }
        ensures refused { IfErr result (λ error. error ≡
            Error.CharIndexOutOfBounds char_idx (length (text_of self.now))) }
    {
        self.whole().try_char_to_line(char_idx)
    }

    /// Returns [`char_to_utf16_cu`](Self::char_to_utf16_cu) for an index that may be out of bounds.
    /// `O(log n)`.
    ///
    /// # Errors
    ///
    /// `CharIndexOutOfBounds(char_idx, len_chars())` if `char_idx > len_chars()`.
    pub fn try_char_to_utf16_cu(&self, char_idx: usize) -> Result<usize, Error>
        ensures value { OkIff result (char_idx ≤ length (text_of self.now))
            (unit_of_byte (text_of self.now) (byte_of_char (text_of self.now) char_idx)) }
        ensures refused { IfErr result (λ error. error ≡
            Error.CharIndexOutOfBounds char_idx (length (text_of self.now))) }
    {
        self.whole().try_char_to_utf16_cu(char_idx)
    }

    /// Returns [`utf16_cu_to_char`](Self::utf16_cu_to_char) for an index that may be out of bounds.
    /// `O(log n)`.
    ///
    /// # Errors
    ///
    /// `Utf16IndexOutOfBounds(utf16_cu_idx, len_utf16_cu())` if `utf16_cu_idx > len_utf16_cu()`.
    pub fn try_utf16_cu_to_char(&self, utf16_cu_idx: usize) -> Result<usize, Error>
        ensures value { OkIff result (utf16_cu_idx ≤ units (text_of self.now))
            (char_of_byte (text_of self.now) (byte_of_unit (text_of self.now) utf16_cu_idx)) }
        ensures refused { IfErr result (λ error. error ≡
            Error.Utf16IndexOutOfBounds utf16_cu_idx (units (text_of self.now))) }
    {
        self.whole().try_utf16_cu_to_char(utf16_cu_idx)
    }

    /// Returns [`line_to_byte`](Self::line_to_byte) for an index that may be out of bounds.
    /// `O(log n)`.
    ///
    /// # Errors
    ///
    /// `LineIndexOutOfBounds(line_idx, len_lines())` if `line_idx > len_lines()`.
    pub fn try_line_to_byte(&self, line_idx: usize) -> Result<usize, Error>
        ensures value { OkIff result (line_idx ≤ line_breaks (text_of self.now) + 1)
            (byte_of_line (text_of self.now) line_idx) }
        ensures refused { IfErr result (λ error. error ≡
            Error.LineIndexOutOfBounds line_idx (line_breaks (text_of self.now) + 1)) }
    {
        self.whole().try_line_to_byte(line_idx)
    }

    /// Returns [`line_to_char`](Self::line_to_char) for an index that may be out of bounds.
    /// `O(log n)`.
    ///
    /// # Errors
    ///
    /// `LineIndexOutOfBounds(line_idx, len_lines())` if `line_idx > len_lines()`.
    pub fn try_line_to_char(&self, line_idx: usize) -> Result<usize, Error>
        ensures value { OkIff result (line_idx ≤ line_breaks (text_of self.now) + 1)
            (char_of_byte (text_of self.now) (byte_of_line (text_of self.now) line_idx)) }
        ensures refused { IfErr result (λ error. error ≡
            Error.LineIndexOutOfBounds line_idx (line_breaks (text_of self.now) + 1)) }
    {
        self.whole().try_line_to_char(line_idx)
    }
}
