//! A custom chunk: four bytes, as a machine without vectors may have them, and kernels over it.

ghost use Rattle.std.specs.Prelude.{◌≡◌, [], ◌∷◌, if◌then◌else◌};
ghost use Rattle.std.proofs.Common.{«lit≤», «lit<»};
ghost use Rattle.str_indices.specs.Lanes.{is_between};

use str_indices::byte_chunk::ByteChunk;
use str_indices::{Counter, chars, lines_crlf, utf16};

/// Four bytes side by side.
#[derive(Clone, Copy)]
struct Four {
    first: u8,
    second: u8,
    third: u8,
    fourth: u8,
}

/// Returns 1 for a lane from `low` to `high`, and 0 for another.
fn mark_between(low: u8, high: u8, lane: u8) -> u8
    ensures { result ≡ (if is_between low high lane then 1 else 0) }
{
    (low <= lane && lane <= high) as u8
}

impl ByteChunk for Four {
    const SIZE: usize = 4;

    const MAX_ACC: usize = 255;

    ghost SIZE = { 4 };

    ghost MAX_ACC = { 255 };

    ghost lanes = { λ four. four.first ∷ four.second ∷ four.third ∷ four.fourth ∷ [] };

    ghost has_four = { lit≤ tt };

    ghost counts_past_size = { lit< tt };

    ghost counts_in_a_byte = { lit≤ tt };

    fn splat(byte: u8) -> Self {
        Four {
            first: byte,
            second: byte,
            third: byte,
            fourth: byte,
        }
    }

    fn load(bytes: &[u8], at: usize) -> Self {
        Four {
            first: bytes[at],
            second: bytes[at + 1],
            third: bytes[at + 2],
            fourth: bytes[at + 3],
        }
    }

    fn cmp_eq_byte(self, byte: u8) -> Self {
        Four {
            first: (self.first == byte) as u8,
            second: (self.second == byte) as u8,
            third: (self.third == byte) as u8,
            fourth: (self.fourth == byte) as u8,
        }
    }

    fn bytes_between(self, low: u8, high: u8) -> Self {
        Four {
            first: mark_between(low, high, self.first),
            second: mark_between(low, high, self.second),
            third: mark_between(low, high, self.third),
            fourth: mark_between(low, high, self.fourth),
        }
    }

    fn bitand(self, other: Self) -> Self {
        Four {
            first: self.first & other.first,
            second: self.second & other.second,
            third: self.third & other.third,
            fourth: self.fourth & other.fourth,
        }
    }

    fn add(self, other: Self) -> Self {
        Four {
            first: self.first + other.first,
            second: self.second + other.second,
            third: self.third + other.third,
            fourth: self.fourth + other.fourth,
        }
    }

    fn sub(self, other: Self) -> Self {
        Four {
            first: self.first - other.first,
            second: self.second - other.second,
            third: self.third - other.third,
            fourth: self.fourth - other.fourth,
        }
    }

    fn sum_bytes(self) -> usize {
        self.first as usize + self.second as usize + self.third as usize + self.fourth as usize
    }

    fn first_nonzero(self) -> usize {
        if self.first != 0 {
            0
        } else if self.second != 0 {
            1
        } else if self.third != 0 {
            2
        } else if self.fourth != 0 {
            3
        } else {
            4
        }
    }
}

/// Returns whether kernels over it have the results of the calls, which use vectors.
fn count_alike(text: &str, leading: usize, turns: &mut Counter) -> bool {
    lines_crlf::count_breaks_impl::<Four>(text, leading, turns) == lines_crlf::count_breaks(text)
        && chars::count_impl::<Four>(text, leading, turns) == chars::count(text)
        && utf16::count_surrogates_impl::<Four>(text, leading, turns)
            == utf16::count_surrogates(text)
}

#[test]
fn kernels_over_a_chunk_of_ones_own(rt: HostRuntime) {
    let text = "one\r\ntwo\rthree\n🐸 été, せ\r\n";
    for leading in [0, 1, 3, 100] {
        let mut turns = Counter::new();
        assert!(rt; count_alike(text, leading, &mut turns));
        for line in 0..6 {
            let start = lines_crlf::to_byte_idx_impl::<Four>(text, line, leading, &mut turns);
            assert!(rt; start == lines_crlf::to_byte_idx(text, line));
        }
    }
}
