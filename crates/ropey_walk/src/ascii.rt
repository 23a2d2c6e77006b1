//! Conversions inside a chunk. If each of its characters is known to be one byte, character and
//! code unit indices are byte indices, and the chunk is not read.

ghost use Rattle.std.specs.Prelude.{◌≡◌, ◌≤◌, length, slice_index_or, true};
ghost use Rattle.std.specs.Str.{chars};
ghost use Rattle.str_indices.specs.Text.{byte_len, char_ends, unit_ends, unit_starts, ends_up_to, end_place, units};
ghost use Rattle.ropey_tree.specs.Counts.{counts_of};

use ropey_tree::breaks;
use ropey_tree::counts::Counts;
use str_indices::{chars, utf16};

/// Returns the byte index of the start of a character, or the text's end past the last one.
#[inline]
pub(crate) fn byte_of_char(text: &str, is_ascii: bool, char_idx: usize) -> usize
    requires { is_ascii ≡ true → length (chars text.now) ≡ length text.now }
    ensures { result ≡ end_place (char_ends (chars text.now)) char_idx (length text.now) }
{
    if is_ascii {
        char_idx.min(text.len())
    } else {
        chars::to_byte_idx(text, char_idx)
    }
}

/// Returns the byte index of the start of the character that contains a code unit, or the text's
/// end past the last one.
#[inline]
pub(crate) fn byte_of_unit(text: &str, is_ascii: bool, utf16_cu_idx: usize) -> usize
    requires { is_ascii ≡ true → length (chars text.now) ≡ length text.now }
    ensures { result ≡ slice_index_or (unit_starts (chars text.now)) utf16_cu_idx
        (length text.now) }
{
    if is_ascii {
        utf16_cu_idx.min(text.len())
    } else {
        utf16::to_byte_idx(text, utf16_cu_idx)
    }
}

/// Returns the number of characters that end at or before a byte index.
#[inline]
pub(crate) fn char_of_byte(text: &str, is_ascii: bool, byte_idx: usize) -> usize
    requires one_byte { is_ascii ≡ true → length (chars text.now) ≡ length text.now }
    requires within { byte_idx ≤ byte_len (chars text.now) }
    ensures { result ≡ ends_up_to byte_idx (char_ends (chars text.now)) }
{
    if is_ascii {
        byte_idx
    } else {
        chars::from_byte_idx(text, byte_idx)
    }
}

/// Returns the number of code units of the characters that end at or before a byte index.
#[inline]
pub(crate) fn unit_of_byte(text: &str, is_ascii: bool, byte_idx: usize) -> usize
    requires one_byte { is_ascii ≡ true → length (chars text.now) ≡ length text.now }
    requires within { byte_idx ≤ byte_len (chars text.now) }
    ensures { result ≡ ends_up_to byte_idx (unit_ends (chars text.now)) }
{
    if is_ascii {
        byte_idx
    } else {
        utf16::from_byte_idx(text, byte_idx)
    }
}

/// Returns the number of characters and of code units.
#[inline]
pub(crate) fn chars_and_units(text: &str, is_ascii: bool) -> (usize, usize)
    requires { is_ascii ≡ true → length (chars text.now) ≡ length text.now }
    ensures chars { result.0 ≡ length (chars text.now) }
    ensures units { result.1 ≡ units (chars text.now) }
{
    if is_ascii {
        (text.len(), text.len())
    } else {
        (chars::count(text), utf16::count(text))
    }
}

/// Returns the counts of a text.
pub(crate) fn counts(text: &str, is_ascii: bool) -> Counts
    requires { is_ascii ≡ true → length (chars text.now) ≡ length text.now }
    ensures { result ≡ counts_of (chars text.now) }
{
    let (chars, units) = chars_and_units(text, is_ascii);
    Counts {
        bytes: text.len(),
        chars,
        units,
        breaks: breaks::count_breaks(text),
    }
}
