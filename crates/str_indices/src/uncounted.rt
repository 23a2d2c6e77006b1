//! The scans over the widest chunks, for callers that count no iterations.

ghost use Rattle.std.specs.Prelude.{◌≡◌, ◌≤◌, length, sum, take};
ghost use Rattle.str_indices.specs.Bytes.{IsFirstPast};

use crate::byte_chunk::{Chunk, WideChunk};
use crate::measure::Measure;
use crate::scan;
use counters::Counter;

/// Returns the weight of the bytes before `end`.
pub(crate) fn count_before<M: Measure>(bytes: &[u8], end: usize) -> usize
    requires { end ≤ length bytes.now }
    ensures { result ≡ sum (take end (M.weights bytes.now)) }
{
    let mut turns = Counter::new();
    scan::count_before::<M, WideChunk, Chunk>(bytes, end, 0, &mut turns)
}

/// Returns the first byte with which the weight exceeds `k`, or the length.
pub(crate) fn find_past<M: Measure>(bytes: &[u8], k: usize) -> usize
    ensures { IsFirstPast (M.weights bytes.now) k result }
{
    let mut turns = Counter::new();
    scan::find_past::<M, WideChunk, Chunk>(bytes, k, 0, &mut turns)
}

/// Returns the first byte with a weight, or the length.
pub(crate) fn find_first<M: Measure>(bytes: &[u8]) -> usize
    ensures { IsFirstPast (M.weights bytes.now) 0 result }
{
    scan::find_first::<M, Chunk>(bytes)
}
