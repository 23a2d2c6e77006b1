//! Loops over the bytes of a text, for any measure: over chunks, and over single bytes before and
//! after them.

ghost use Rattle.std.specs.Prelude.{◌≡◌, ◌⊎◌, ◌+◌, ◌-◌, ◌*◌, ◌<◌, ◌≤◌, min, length, sum, take};
ghost use Rattle.std.specs.ControlFlow.{ForBreak, ForContinue};
ghost use Rattle.str_indices.specs.Bytes.{IsFirstPast};

use crate::byte_chunk::ByteChunk;
use crate::measure::Measure;
use counters::Counter;
use std::ops::ControlFlow;

/// The number of bytes, or else one chunk, that a search sums at a time. It may have to go back to
/// the first of them.
const SEARCH_ROUND: usize = 64;

/// Returns the weight of the bytes from `from` to `end`, counted one by one.
fn count_bytes<M: Measure>(bytes: &[u8], from: usize, end: usize, turns: &mut Counter) -> usize
    requires order { from ≤ end }
    requires within { end ≤ length bytes.now }
    ensures count { sum (take from (M.weights bytes.now)) + result
        ≡ sum (take end (M.weights bytes.now)) }
    ensures turns { turns.new ≡ turns.old + (end - from) }
{
    let mut count = 0;
    for at in from..end {
        turns.add();
        count += M::weight(bytes, at) as usize;
    }
    count
}

/// Returns the weight of up to `limit` chunks from `from` on, none past `last`, and the offset
/// after them.
#[inline(always)]
fn sum_chunks<M: Measure, C: ByteChunk>(
    bytes: &[u8],
    from: usize,
    last: usize,
    limit: usize,
) -> (usize, usize)
    requires before { 2 ≤ from }
    requires order { from ≤ last }
    requires after { last < length bytes.now }
    requires room { 2 * limit ≤ C.MAX_ACC }
    ensures count { sum (take from (M.weights bytes.now)) + result.0
        ≡ sum (take result.1 (M.weights bytes.now)) }
    ensures low { from ≤ result.1 }
    ensures high { result.1 ≤ last }
    ensures moves { 0 < limit → from + C.SIZE ≤ last → from + C.SIZE ≤ result.1 }
    ensures one { limit ≡ 1 → from + C.SIZE ≤ last → result.1 ≡ from + C.SIZE }
{
    let mut acc = C::splat(0);
    let mut at = from;
    let mut taken = 0;
    while taken < limit && C::SIZE <= last - at {
        acc = acc.add(M::chunk_weights::<C>(bytes, at));
        at += C::SIZE;
        taken += 1;
    }
    (acc.sum_bytes(), at)
}

/// Returns the weight of the chunks from `from` on, and the offset after the last one. At most a
/// chunk is then left before `end`.
#[inline(always)]
fn count_chunks<M: Measure, C: ByteChunk>(bytes: &[u8], from: usize, end: usize) -> (usize, usize)
    requires before { min 2 end ≤ from }
    requires order { from ≤ end }
    requires within { end ≤ length bytes.now }
    ensures count { sum (take from (M.weights bytes.now)) + result.0
        ≡ sum (take result.1 (M.weights bytes.now)) }
    ensures low { from ≤ result.1 }
    ensures order { result.1 ≤ end }
    ensures near { end ≤ result.1 + C.SIZE }
{
    let last = end.min(bytes.len().saturating_sub(1));
    let mut count = 0;
    let mut at = from;
    while C::SIZE <= last.saturating_sub(at) {
        let (sum, next) = sum_chunks::<M, C>(bytes, at, last, C::MAX_ACC / 2);
        count += sum;
        at = next;
    }
    (count, at)
}

/// Returns the weight of the bytes before `end`. At least the first `leading` are counted one by
/// one, the others by wide chunks, then by small ones.
#[inline(always)]
pub(crate) fn count_before<M: Measure, W: ByteChunk, C: ByteChunk>(
    bytes: &[u8],
    end: usize,
    leading: usize,
    turns: &mut Counter,
) -> usize
    requires { end ≤ length bytes.now }
    ensures count { result ≡ sum (take end (M.weights bytes.now)) }
    ensures one_by_one { turns.old + min leading end ≤ turns.new }
    ensures turns { turns.new ≤ turns.old + min leading end + C.SIZE + 4 }
{
    let first = leading.max(2).min(end);
    let head = count_bytes::<M>(bytes, 0, first, turns);
    let (wide, at) = count_chunks::<M, W>(bytes, first, end);
    let (middle, at) = count_chunks::<M, C>(bytes, at, end);
    let tail = count_bytes::<M>(bytes, at, end, turns);
    head + wide + middle + tail
}

/// Advances from `from`, where the weight so far is `count`, to the first byte with which it
/// exceeds `k`, or to `end`. Returns the weight and the offset there.
fn skip_bytes<M: Measure>(
    bytes: &[u8],
    k: usize,
    count: usize,
    from: usize,
    end: usize,
    turns: &mut Counter,
) -> (usize, usize)
    requires order { from ≤ end }
    requires within { end ≤ length bytes.now }
    requires counted { count ≡ sum (take from (M.weights bytes.now)) }
    requires below { count ≤ k }
    ensures counted { result.0 ≡ sum (take result.1 (M.weights bytes.now)) }
    ensures below { result.0 ≤ k }
    ensures low { from ≤ result.1 }
    ensures high { result.1 ≤ end }
    ensures passed { result.1 < end → k < sum (take (result.1 + 1) (M.weights bytes.now)) }
    ensures turns { turns.new ≡ turns.old + min (result.1 + 1 - from) (end - from) }
{
    let mut count = count;
    for at in from..end {
        turns.add();
        let next = count + M::weight(bytes, at) as usize;
        if next > k {
            return (count, at);
        }
        count = next;
    }
    (count, end)
}

/// Advances from `from`, where the weight so far is `count`, by up to `limit` chunks at a time
/// while it doesn't exceed `k`. Returns the weight and the offset there.
#[inline(always)]
fn skip_chunks<M: Measure, C: ByteChunk>(
    bytes: &[u8],
    k: usize,
    count: usize,
    from: usize,
    limit: usize,
) -> (usize, usize)
    requires before { min 2 (length bytes.now) ≤ from }
    requires within { from ≤ length bytes.now }
    requires some { 0 < limit }
    requires room { 2 * limit ≤ C.MAX_ACC }
    requires counted { count ≡ sum (take from (M.weights bytes.now)) }
    requires below { count ≤ k }
    ensures counted { result.0 ≡ sum (take result.1 (M.weights bytes.now)) }
    ensures below { result.0 ≤ k }
    ensures low { from ≤ result.1 }
    ensures high { result.1 ≤ length bytes.now }
    ensures near { limit ≡ 1 → (length bytes.now ≤ result.1 + C.SIZE)
        ⊎ (k < sum (take (result.1 + C.SIZE) (M.weights bytes.now))) }
{
    let last = bytes.len().saturating_sub(1);
    let mut count = count;
    let mut at = from;
    while C::SIZE <= last.saturating_sub(at) {
        let (sum, next) = sum_chunks::<M, C>(bytes, at, last, limit);
        if sum > k - count {
            return (count, at);
        }
        count += sum;
        at = next;
    }
    (count, at)
}

/// Returns the first byte with which the weight exceeds `k`, or the length. At least the first
/// `leading` bytes are scanned one by one, the others by wide chunks, then by small ones.
#[inline(always)]
pub(crate) fn find_past<M: Measure, W: ByteChunk, C: ByteChunk>(
    bytes: &[u8],
    k: usize,
    leading: usize,
    turns: &mut Counter,
) -> usize
    ensures place { IsFirstPast (M.weights bytes.now) k result }
    ensures within { result ≤ length bytes.now }
    ensures one_by_one { turns.old + min leading (min (result + 1) (length bytes.now)) ≤ turns.new }
    ensures turns { turns.new ≤ turns.old + min leading (length bytes.now) + C.SIZE + 4 }
{
    let end = bytes.len();
    let first = leading.max(2).min(end);
    let (count, at) = skip_bytes::<M>(bytes, k, 0, 0, first, turns);
    if at < first {
        return at;
    }
    let round = (SEARCH_ROUND / W::SIZE).max(1).min(W::MAX_ACC / 2);
    let (count, at) = skip_chunks::<M, W>(bytes, k, count, at, round);
    let (count, at) = skip_chunks::<M, C>(bytes, k, count, at, 1);
    let (_, at) = skip_bytes::<M>(bytes, k, count, at, end, turns);
    at
}

/// Searches the bytes from `from` to `end` one by one for one with a weight: `Break` with its
/// offset, or `Continue` with `end`.
fn search_bytes<M: Measure>(bytes: &[u8], from: usize, end: usize) -> ControlFlow<usize, usize>
    requires order { from ≤ end }
    requires within { end ≤ length bytes.now }
    requires none { sum (take from (M.weights bytes.now)) ≡ 0 }
    ensures found { ForBreak result (IsFirstPast (M.weights bytes.now) 0) }
    ensures none { ForContinue result (λ at. sum (take at (M.weights bytes.now)) ≡ 0) }
    ensures end { ForContinue result (λ at. at ≡ end) }
{
    for at in from..end {
        if M::weight(bytes, at) > 0 {
            return ControlFlow::Break(at);
        }
    }
    ControlFlow::Continue(end)
}

/// Searches the chunks from `from` on for a byte with a weight: `Break` with its offset, or
/// `Continue` with the offset after the last chunk.
#[inline(always)]
fn search_chunks<M: Measure, C: ByteChunk>(bytes: &[u8], from: usize) -> ControlFlow<usize, usize>
    requires before { min 2 (length bytes.now) ≤ from }
    requires within { from ≤ length bytes.now }
    requires none { sum (take from (M.weights bytes.now)) ≡ 0 }
    ensures found { ForBreak result (IsFirstPast (M.weights bytes.now) 0) }
    ensures none { ForContinue result (λ at. sum (take at (M.weights bytes.now)) ≡ 0) }
    ensures low { ForContinue result (λ at. from ≤ at) }
    ensures high { ForContinue result (λ at. at ≤ length bytes.now) }
{
    let last = bytes.len().saturating_sub(1);
    let mut at = from;
    while C::SIZE <= last.saturating_sub(at) {
        let lane = M::chunk_weights::<C>(bytes, at).first_nonzero();
        if lane < C::SIZE {
            return ControlFlow::Break(at + lane);
        }
        at += C::SIZE;
    }
    ControlFlow::Continue(at)
}

/// Searches for a byte with a weight: `Break` with its offset, or `Continue` with the length.
#[inline(always)]
fn search<M: Measure, C: ByteChunk>(bytes: &[u8]) -> ControlFlow<usize, usize>
    ensures found { ForBreak result (IsFirstPast (M.weights bytes.now) 0) }
    ensures none { ForContinue result (λ at. sum (take at (M.weights bytes.now)) ≡ 0) }
    ensures end { ForContinue result (λ at. at ≡ length bytes.now) }
{
    let end = bytes.len();
    let at = search_bytes::<M>(bytes, 0, end.min(2))?;
    let at = search_chunks::<M, C>(bytes, at)?;
    // Less than a chunk is left, but eight bytes may still be tested at once.
    let at = search_chunks::<M, usize>(bytes, at)?;
    search_bytes::<M>(bytes, at, end)
}

/// Returns the first byte with a weight, or the length: `find_past` for 0. Such a byte is often
/// near, so each chunk is tested by itself.
#[inline(always)]
pub(crate) fn find_first<M: Measure, C: ByteChunk>(bytes: &[u8]) -> usize
    ensures { IsFirstPast (M.weights bytes.now) 0 result }
{
    match search::<M, C>(bytes) {
        ControlFlow::Break(at) | ControlFlow::Continue(at) => at,
    }
}
