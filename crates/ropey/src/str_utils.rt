//! Conversions between indices of bytes, characters and lines of a `&str`, with the line breaks of
//! ropes.

ghost use Rattle.std.specs.Prelude.{◌≡◌};
ghost use Rattle.std.specs.Str.{chars};
ghost use Rattle.ropey_walk.specs.Conversions.{char_of_byte, line_of_byte, byte_of_char, byte_of_line, char_of_line};

use ropey_tree::breaks;
use str_indices::chars;

/// Returns the index of the character that contains a byte. `O(byte_idx)`.
///
/// From the text's length on, this is the number of characters.
pub fn byte_to_char_idx(text: &str, byte_idx: usize) -> usize
    ensures { result ≡ char_of_byte (chars text.now) byte_idx }
{
    chars::from_byte_idx(text, byte_idx)
}

/// Returns the index of the line that contains a byte: the number of line breaks that end at or
/// before it. `O(byte_idx)`.
///
/// From the text's length on, this is the last line.
pub fn byte_to_line_idx(text: &str, byte_idx: usize) -> usize
    ensures { result ≡ line_of_byte (chars text.now) byte_idx }
{
    breaks::from_byte_idx(text, byte_idx)
}

/// Returns the byte index of the start of a character, or the text's length past the last one.
/// `O(n)`, up to that character.
pub fn char_to_byte_idx(text: &str, char_idx: usize) -> usize
    ensures { result ≡ byte_of_char (chars text.now) char_idx }
{
    chars::to_byte_idx(text, char_idx)
}

/// Returns the index of the line that contains a character, or of the last line past the last
/// character. `O(n)`, up to that character.
pub fn char_to_line_idx(text: &str, char_idx: usize) -> usize
    ensures { result ≡ line_of_byte (chars text.now) (byte_of_char (chars text.now) char_idx) }
{
    byte_to_line_idx(text, char_to_byte_idx(text, char_idx))
}

/// Returns the byte index of the start of a line, or the text's length past the last one. `O(n)`,
/// up to that line.
pub fn line_to_byte_idx(text: &str, line_idx: usize) -> usize
    ensures { result ≡ byte_of_line (chars text.now) line_idx }
{
    breaks::to_byte_idx(text, line_idx)
}

/// Returns the character index of the start of a line, or the number of characters past the last
/// line. `O(n)`, up to that line.
pub fn line_to_char_idx(text: &str, line_idx: usize) -> usize
    ensures { result ≡ char_of_line (chars text.now) line_idx }
{
    byte_to_char_idx(text, line_to_byte_idx(text, line_idx))
}
