//! UTF-16 code units, like the module `utf16` of the Rust crate `str_indices`. A character from
//! U+10000 on takes two units, a surrogate pair; any other takes one.
//!
//! Each call takes `O(n)` for n bytes, up to 64 bytes at a time, and allocates nothing. Every index
//! has a result.

ghost use Rattle.std.specs.Prelude.{◌≡◌, ◌+◌, ◌≤◌, min, length, slice_index_or};
ghost use Rattle.std.specs.Str.{chars};
ghost use Rattle.str_indices.specs.Text.{units, surrogate_pairs, unit_ends, unit_starts, ends_up_to};

use crate::byte_chunk::ByteChunk;
use crate::char_index;
use crate::leads::{SurrogatePairs, Utf16Units};
use counters::Counter;

/// Returns the number of UTF-16 code units. `O(n)`.
pub fn count(text: &str) -> usize
    ensures { result ≡ units (chars text.now) }
{
    char_index::count::<Utf16Units>(text)
}

/// Returns the number of surrogate pairs, which are the characters of two code units. `O(n)`.
pub fn count_surrogates(text: &str) -> usize
    ensures { result ≡ surrogate_pairs (chars text.now) }
{
    char_index::count::<SurrogatePairs>(text)
}

/// Returns the code unit index of a byte index: the code units of the characters that end at or
/// before it. `O(byte_idx)`.
///
/// Inside a character this is the first code unit of that character. An index past the text's
/// length acts as the length.
pub fn from_byte_idx(text: &str, byte_idx: usize) -> usize
    ensures { result ≡ ends_up_to byte_idx (unit_ends (chars text.now)) }
{
    char_index::from_byte_idx::<Utf16Units>(text, byte_idx)
}

/// Returns the byte index of the start of the character that contains a code unit, or the text's
/// length past the last unit. `O(n)`, up to that character.
///
/// Both units of a surrogate pair give the start of their character.
pub fn to_byte_idx(text: &str, utf16_idx: usize) -> usize
    ensures { result ≡ slice_index_or (unit_starts (chars text.now)) utf16_idx
        (length text.now) }
{
    char_index::to_byte_idx::<Utf16Units>(text, utf16_idx)
}

/// `count_surrogates` over chunks of any type; at least the first `leading` bytes are counted one
/// by one. `turns` counts the iterations over single bytes.
pub fn count_surrogates_impl<C: ByteChunk>(text: &str, leading: usize, turns: &mut Counter) -> usize
    ensures count { result ≡ surrogate_pairs (chars text.now) }
    ensures one_by_one { turns.old + min leading (length text.now) ≤ turns.new }
    ensures turns { turns.new ≤ turns.old + min leading (length text.now) + C.SIZE + 4 }
{
    char_index::count_impl::<SurrogatePairs, C>(text, leading, turns)
}

/// `to_byte_idx` over chunks of any type; at least the first `leading` bytes are scanned one by
/// one. `turns` counts the iterations over single bytes.
pub fn to_byte_idx_impl<C: ByteChunk>(
    text: &str,
    utf16_idx: usize,
    leading: usize,
    turns: &mut Counter,
) -> usize
    ensures place { result ≡ slice_index_or (unit_starts (chars text.now)) utf16_idx
        (length text.now) }
    ensures one_by_one { turns.old + min leading result ≤ turns.new }
    ensures turns { turns.new ≤ turns.old + min leading (length text.now) + C.SIZE + 4 }
{
    char_index::to_byte_idx_impl::<Utf16Units, C>(text, utf16_idx, leading, turns)
}
