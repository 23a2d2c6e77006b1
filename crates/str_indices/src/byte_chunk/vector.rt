//! Chunks of 16 bytes in a vector.

ghost use Rattle.std.specs.Prelude.{◌≤◌, ◌<◌, ◌==◌, slice_index, nat_le};
ghost use Rattle.std.proofs.Common.{«lit≤», «lit<»};
ghost use Rattle.str_indices.specs.Lanes.{MarksLanes};

use crate::byte_chunk::ByteChunk;
use std::simd::prelude::*;

#[inline(always)]
pub(super) fn at_least<const N: usize>(lanes: Simd<u8, N>, byte: u8) -> Simd<u8, N>
    ensures { MarksLanes N result (λ i. nat_le byte (slice_index lanes.entry i)) }
{
    lanes
        .simd_ge(Simd::splat(byte))
        .select(Simd::splat(1), Simd::splat(0))
}

#[inline(always)]
pub(super) fn at_most<const N: usize>(lanes: Simd<u8, N>, byte: u8) -> Simd<u8, N>
    ensures { MarksLanes N result (λ i. nat_le (slice_index lanes.entry i) byte) }
{
    lanes
        .simd_le(Simd::splat(byte))
        .select(Simd::splat(1), Simd::splat(0))
}

impl ByteChunk for u8x16 {
    const SIZE: usize = 16;

    const MAX_ACC: usize = 255;

    ghost SIZE = { 16 };

    ghost MAX_ACC = { 255 };

    ghost lanes = { λ chunk. chunk };

    ghost has_four = { lit≤ tt };

    ghost counts_past_size = { lit< tt };

    ghost counts_in_a_byte = { lit≤ tt };

    #[inline(always)]
    fn splat(byte: u8) -> Self {
        Simd::splat(byte)
    }

    #[inline(always)]
    fn load(bytes: &[u8], at: usize) -> Self {
        Simd::from_slice(&bytes[at..])
    }

    #[inline(always)]
    fn cmp_eq_byte(self, byte: u8) -> Self {
        self.simd_eq(Simd::splat(byte))
            .select(Simd::splat(1), Simd::splat(0))
    }

    #[inline(always)]
    fn bytes_between(self, low: u8, high: u8) -> Self {
        at_least(self, low) & at_most(self, high)
    }

    #[inline(always)]
    fn bitand(self, other: Self) -> Self {
        self & other
    }

    #[inline(always)]
    fn add(self, other: Self) -> Self {
        self.strict_add(other)
    }

    #[inline(always)]
    fn sub(self, other: Self) -> Self {
        self.strict_sub(other)
    }

    #[inline(always)]
    fn sum_bytes(self) -> usize {
        self.cast::<u16>().strict_reduce_sum() as usize
    }

    #[inline(always)]
    fn first_nonzero(self) -> usize {
        let mask = self.simd_ne(Simd::splat(0)).to_bitmask();
        if mask == 0 {
            Self::SIZE
        } else {
            mask.trailing_zeros() as usize
        }
    }
}
