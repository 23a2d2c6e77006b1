//! Measures: how much each byte of a text counts.

ghost use Rattle.std.specs.Prelude.{◌≡◌, ℕ, Bool, ◌+◌, ◌*◌, ◌<◌, ◌≤◌, if◌then◌else◌, true, List, length, take, sum, slice_index};
ghost use Rattle.str_indices.specs.Text.{ends_break};
ghost use Rattle.str_indices.specs.FirstAndLastBytes.{CountsFirstBytes, CountsLastBytes};
ghost use Rattle.str_indices.specs.Lanes.{HasLanes};

use crate::byte_chunk::ByteChunk;

/// Gives a weight to each byte of a text.
pub(crate) trait Measure {
    ghost weights: { List ℕ → List ℕ };

    fn weight(bytes: &[u8], at: usize) -> u8
        requires { at < length bytes.now }
        ensures { result ≡ slice_index (weights bytes.now) at };

    /// Returns the weights of one chunk of bytes from `at` on. Two bytes before it and one after it
    /// must exist.
    fn chunk_weights<C: ByteChunk>(bytes: &[u8], at: usize) -> C
        requires before { 2 ≤ at }
        requires after { at + C.SIZE < length bytes.now }
        ensures { HasLanes C.SIZE (C.lanes result)
            (λ i. slice_index (weights bytes.now) (at + i)) };

    ghost weights_len: { (bytes : List ℕ) → length (weights bytes) ≡ length bytes };

    ghost weights_small: { (bytes : List ℕ) (at : ℕ) → slice_index (weights bytes) at ≤ 2 };

    ghost sums_small: { (bytes : List ℕ) (n : ℕ) → sum (take n (weights bytes)) ≤ 2 * n };
}

/// A measure in which each character counts at its first byte.
pub(crate) trait CharMeasure: Measure {
    /// How much a character counts.
    ghost count: { ℕ → List ℕ → ℕ };

    ghost at_first_bytes: { CountsFirstBytes Self.weights count };
}

/// A measure in which each line break counts once, at its last byte.
pub(crate) trait BreakMeasure: Measure {
    /// The set of break characters.
    ghost is_break: { ℕ → Bool };

    /// Returns whether the set contains CR, so that CR LF is one break.
    fn has_cr() -> bool
        ensures { result ≡ is_break 13 };

    ghost at_last_bytes: { CountsLastBytes Self.Measure.weights
        (λ c rest. if ends_break is_break c rest then 1 else 0) };

    ghost lf_beside_cr: { is_break 13 ≡ true → is_break 10 ≡ true };
}
