//! Chunks of eight bytes in a number, the first byte lowest.

ghost use Rattle.std.specs.Prelude.{◌≤◌, ◌<◌, ◌/◌, ◌%◌, slice_index, nat_le};
ghost use Rattle.std.proofs.Common.{«lit≤», «lit<»};
ghost use Rattle.str_indices.specs.Lanes.{HasLanes, MarksLanes, low_bytes};

use crate::byte_chunk::ByteChunk;

/// 1 in each byte.
const ONES: usize = 0x0101_0101_0101_0101;

/// Returns the highest bit of each byte.
#[inline(always)]
fn high_bits(word: usize) -> usize
    ensures { HasLanes 8 (low_bytes 8 result) (λ i. slice_index (low_bytes 8 word) i / 128) }
{
    (word >> 7) & ONES
}

/// Returns each byte without its highest bit.
#[inline(always)]
fn low_bits(word: usize) -> usize
    ensures { HasLanes 8 (low_bytes 8 result) (λ i. slice_index (low_bytes 8 word) i % 128) }
{
    word & (0x7F * ONES)
}

/// Returns 1 in each byte that is at least `limit`, and 0 in the others. `limit` is at most 128.
///
/// Adding 128 - `limit` to the lower seven bits carries into the highest bit exactly if they reach
/// the limit, and never past it.
#[inline(always)]
fn at_least_low(word: usize, limit: u8) -> usize
    requires { limit ≤ 128 }
    ensures { MarksLanes 8 (low_bytes 8 result)
        (λ i. nat_le limit (slice_index (low_bytes 8 word) i)) }
{
    let high = high_bits(word);
    let carried = high_bits(low_bits(word).add(usize::splat(128 - limit)));
    high.add(carried).sub(high.bitand(carried))
}

/// The same for a limit above 128, which a byte reaches only with its highest bit set.
#[inline(always)]
fn at_least_high(word: usize, limit: u8) -> usize
    requires { 128 < limit }
    ensures { MarksLanes 8 (low_bytes 8 result)
        (λ i. nat_le limit (slice_index (low_bytes 8 word) i)) }
{
    let high = high_bits(word);
    let carried = high_bits(low_bits(word).add(usize::splat(255 - limit + 1)));
    high.bitand(carried)
}

#[inline(always)]
fn at_least(word: usize, limit: u8) -> usize
    ensures { MarksLanes 8 (low_bytes 8 result)
        (λ i. nat_le limit (slice_index (low_bytes 8 word) i)) }
{
    if limit <= 128 {
        at_least_low(word, limit)
    } else {
        at_least_high(word, limit)
    }
}

impl ByteChunk for usize {
    const SIZE: usize = 8;

    const MAX_ACC: usize = 255;

    ghost SIZE = { 8 };

    ghost MAX_ACC = { 255 };

    ghost lanes = { low_bytes 8 };

    ghost has_four = { lit≤ tt };

    ghost counts_past_size = { lit< tt };

    ghost counts_in_a_byte = { lit≤ tt };

    #[inline(always)]
    fn splat(byte: u8) -> Self {
        byte as usize * ONES
    }

    #[inline(always)]
    fn load(bytes: &[u8], at: usize) -> Self {
        usize::from_le_bytes([
            bytes[at],
            bytes[at + 1],
            bytes[at + 2],
            bytes[at + 3],
            bytes[at + 4],
            bytes[at + 5],
            bytes[at + 6],
            bytes[at + 7],
        ])
    }

    #[inline(always)]
    fn cmp_eq_byte(self, byte: u8) -> Self {
        self.bytes_between(byte, byte)
    }

    #[inline(always)]
    fn bytes_between(self, low: u8, high: u8) -> Self {
        let from_low = at_least(self, low);
        if high == 255 {
            from_low
        } else {
            from_low.sub(from_low.bitand(at_least(self, high + 1)))
        }
    }

    #[inline(always)]
    fn bitand(self, other: Self) -> Self {
        self & other
    }

    #[inline(always)]
    fn add(self, other: Self) -> Self {
        self + other
    }

    #[inline(always)]
    fn sub(self, other: Self) -> Self {
        self - other
    }

    #[inline(always)]
    fn sum_bytes(self) -> usize {
        let [a, b, c, d, e, f, g, h] = self.to_le_bytes();
        a as usize
            + b as usize
            + c as usize
            + d as usize
            + e as usize
            + f as usize
            + g as usize
            + h as usize
    }

    #[inline(always)]
    fn first_nonzero(self) -> usize {
        self.trailing_zeros() as usize / 8
    }
}
