//! Counts and indices of characters, each counted once or more at its first byte.

ghost use Rattle.std.specs.Prelude.{◌≡◌, ◌+◌, ◌≤◌, min, length, slice_index_or};
ghost use Rattle.std.specs.Str.{chars};
ghost use Rattle.str_indices.specs.Text.{ends_from, starts_from, ends_up_to};

use crate::byte_chunk::ByteChunk;
use crate::measure::CharMeasure;
use crate::{scan, uncounted};
use counters::Counter;

pub(crate) fn count<M: CharMeasure>(text: &str) -> usize
    ensures { result ≡ length (ends_from M.count 0 (chars text.now)) }
{
    uncounted::count_before::<M>(text.as_bytes(), text.len())
}

pub(crate) fn from_byte_idx<M: CharMeasure>(text: &str, byte_idx: usize) -> usize
    ensures { result ≡ ends_up_to byte_idx (ends_from M.count 0 (chars text.now)) }
{
    let end = text.floor_char_boundary(byte_idx);
    uncounted::count_before::<M>(text.as_bytes(), end)
}

pub(crate) fn to_byte_idx<M: CharMeasure>(text: &str, idx: usize) -> usize
    ensures { result ≡ slice_index_or (starts_from M.count 0 (chars text.now)) idx
        (length text.now) }
{
    uncounted::find_past::<M>(text.as_bytes(), idx)
}

pub(crate) fn count_impl<M: CharMeasure, C: ByteChunk>(
    text: &str,
    leading: usize,
    turns: &mut Counter,
) -> usize
    ensures count { result ≡ length (ends_from M.count 0 (chars text.now)) }
    ensures one_by_one { turns.old + min leading (length text.now) ≤ turns.new }
    ensures turns { turns.new ≤ turns.old + min leading (length text.now) + C.SIZE + 4 }
{
    scan::count_before::<M, C, C>(text.as_bytes(), text.len(), leading, turns)
}

pub(crate) fn to_byte_idx_impl<M: CharMeasure, C: ByteChunk>(
    text: &str,
    idx: usize,
    leading: usize,
    turns: &mut Counter,
) -> usize
    ensures place { result ≡ slice_index_or (starts_from M.count 0 (chars text.now)) idx
        (length text.now) }
    ensures one_by_one { turns.old + min leading result ≤ turns.new }
    ensures turns { turns.new ≤ turns.old + min leading (length text.now) + C.SIZE + 4 }
{
    scan::find_past::<M, C, C>(text.as_bytes(), idx, leading, turns)
}
