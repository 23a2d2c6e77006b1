//! Characters, which are Unicode scalar values, like the module `chars` of the Rust crate
//! `str_indices`.
//!
//! Each call takes `O(n)` for n bytes, up to 64 bytes at a time, and allocates nothing. Every index
//! has a result.

ghost use Rattle.std.specs.Prelude.{◌≡◌, ◌+◌, ◌≤◌, min, length};
ghost use Rattle.std.specs.Str.{chars};
ghost use Rattle.str_indices.specs.Text.{char_ends, ends_up_to, end_place};

use crate::byte_chunk::ByteChunk;
use crate::char_index;
use crate::leads::CharStarts;
use counters::Counter;

/// Returns the number of characters. `O(n)`.
pub fn count(text: &str) -> usize
    ensures { result ≡ length (chars text.now) }
{
    char_index::count::<CharStarts>(text)
}

/// Returns the character index of a byte index: the number of characters that end at or before it.
/// `O(byte_idx)`.
///
/// Inside a character this is the index of that character. An index past the text's length acts as
/// the length.
pub fn from_byte_idx(text: &str, byte_idx: usize) -> usize
    ensures { result ≡ ends_up_to byte_idx (char_ends (chars text.now)) }
{
    char_index::from_byte_idx::<CharStarts>(text, byte_idx)
}

/// Returns the byte index of the start of a character, or the text's length past the last one.
/// `O(n)`, up to that character.
pub fn to_byte_idx(text: &str, char_idx: usize) -> usize
    ensures { result ≡ end_place (char_ends (chars text.now)) char_idx
        (length text.now) }
{
    char_index::to_byte_idx::<CharStarts>(text, char_idx)
}

/// `count` over chunks of any type; at least the first `leading` bytes are counted one by one.
/// `turns` counts the iterations over single bytes.
pub fn count_impl<C: ByteChunk>(text: &str, leading: usize, turns: &mut Counter) -> usize
    ensures count { result ≡ length (chars text.now) }
    ensures one_by_one { turns.old + min leading (length text.now) ≤ turns.new }
    ensures turns { turns.new ≤ turns.old + min leading (length text.now) + C.SIZE + 4 }
{
    char_index::count_impl::<CharStarts, C>(text, leading, turns)
}

/// `to_byte_idx` over chunks of any type; at least the first `leading` bytes are scanned one by
/// one. `turns` counts the iterations over single bytes.
pub fn to_byte_idx_impl<C: ByteChunk>(
    text: &str,
    char_idx: usize,
    leading: usize,
    turns: &mut Counter,
) -> usize
    ensures place { result ≡ end_place (char_ends (chars text.now)) char_idx
        (length text.now) }
    ensures one_by_one { turns.old + min leading result ≤ turns.new }
    ensures turns { turns.new ≤ turns.old + min leading (length text.now) + C.SIZE + 4 }
{
    char_index::to_byte_idx_impl::<CharStarts, C>(text, char_idx, leading, turns)
}
