//! Chunks of bytes that are compared and added lane by lane.

ghost use Rattle.std.specs.Prelude.{◌≡◌, ℕ, ◌+◌, ◌-◌, ◌<◌, ◌≤◌, ◌==◌, List, length, sum, slice_index, bit_and};
ghost use Rattle.std.specs.List.{prefix_len};
ghost use Rattle.str_indices.specs.Lanes.{HasLanes, MarksLanes, is_between, LanesUpTo};

mod vector;
mod wide;
mod word;

pub use std::simd::{u8x16 as Chunk, u8x64 as WideChunk};

/// A fixed number of bytes. Contracts see a list of `SIZE` lanes, each from 0 to 255.
pub trait ByteChunk: Copy {
    /// The number of bytes.
    const SIZE: usize;

    /// The largest value of a lane that `sum_bytes` accepts.
    const MAX_ACC: usize;

    ghost SIZE: { ℕ };

    ghost MAX_ACC: { ℕ };

    ghost lanes: { Self → List ℕ };

    /// Returns a chunk with the same byte in each lane.
    fn splat(byte: u8) -> Self
        ensures { HasLanes SIZE (lanes result) (λ _. byte) };

    /// Loads the bytes of a slice from `at` on: lane i is byte `at` + i.
    fn load(bytes: &[u8], at: usize) -> Self
        requires { at + SIZE ≤ length bytes.now }
        ensures { HasLanes SIZE (lanes result) (λ i. slice_index bytes.now (at + i)) };

    /// Returns 1 in each lane that equals `byte`, and 0 in the others.
    fn cmp_eq_byte(self, byte: u8) -> Self
        ensures { MarksLanes SIZE (lanes result) (λ i. slice_index (lanes self) i == byte) };

    /// Returns 1 in each lane from `low` to `high`, inclusive, and 0 in the others.
    fn bytes_between(self, low: u8, high: u8) -> Self
        ensures { MarksLanes SIZE (lanes result)
            (λ i. is_between low high (slice_index (lanes self) i)) };

    /// Returns the bitwise and of the lanes.
    fn bitand(self, other: Self) -> Self
        ensures { HasLanes SIZE (lanes result)
            (λ i. bit_and (slice_index (lanes self) i) (slice_index (lanes other) i)) };

    /// Returns the sums of the lanes, which must fit into a byte.
    fn add(self, other: Self) -> Self
        requires { (i : ℕ) → i < SIZE
            → slice_index (lanes self) i + slice_index (lanes other) i ≤ 255 }
        ensures { HasLanes SIZE (lanes result)
            (λ i. slice_index (lanes self) i + slice_index (lanes other) i) };

    /// Returns the differences of the lanes, which must not be negative.
    fn sub(self, other: Self) -> Self
        requires { (i : ℕ) → i < SIZE
            → slice_index (lanes other) i ≤ slice_index (lanes self) i }
        ensures { HasLanes SIZE (lanes result)
            (λ i. slice_index (lanes self) i - slice_index (lanes other) i) };

    /// Returns the sum of all lanes, which must be at most `MAX_ACC` each.
    fn sum_bytes(self) -> usize
        requires { LanesUpTo MAX_ACC (lanes self) }
        ensures { result ≡ sum (lanes self) };

    /// Returns the index of the first lane that isn't 0, or `SIZE` if all are 0.
    fn first_nonzero(self) -> usize
        ensures { result ≡ prefix_len (λ lane. lane == 0) (lanes self) };

    ghost has_four: { 4 ≤ SIZE };

    ghost counts_past_size: { SIZE < MAX_ACC };

    ghost counts_in_a_byte: { MAX_ACC ≤ 255 };
}
