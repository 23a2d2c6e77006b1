//! Measures of characters, which count at their first byte.

ghost use Rattle.std.specs.Prelude.{◌≡◌, if◌then◌else◌, nat_le};
ghost use Rattle.str_indices.specs.Text.{units_of};
ghost use Rattle.str_indices.specs.Bytes.{is_lead, is_lead_of_four, char_weights, pair_weights, unit_weights};
ghost use Rattle.str_indices.specs.Weights.{map_len, lead_small, lead_sum, pair_small, pair_sum, unit_small, unit_sum};
ghost use Rattle.str_indices.specs.LeadBytes.{chars_at_first_bytes, pairs_at_first_bytes, units_at_first_bytes};

use crate::byte_chunk::ByteChunk;
use crate::measure::{CharMeasure, Measure};

fn is_lead(byte: u8) -> bool
    ensures { result ≡ is_lead byte }
{
    byte < 0x80 || byte >= 0xC0
}

fn is_lead_of_four(byte: u8) -> bool
    ensures { result ≡ is_lead_of_four byte }
{
    byte >= 0xF0
}

/// Counts each character once.
pub(crate) struct CharStarts;

impl Measure for CharStarts {
    ghost weights = { char_weights };

    ghost weights_len = { λ bytes. map_len _ bytes };

    ghost weights_small = { lead_small };

    ghost sums_small = { lead_sum };

    fn weight(bytes: &[u8], at: usize) -> u8 {
        is_lead(bytes[at]) as u8
    }

    #[inline(always)]
    fn chunk_weights<C: ByteChunk>(bytes: &[u8], at: usize) -> C {
        let continuations = C::load(bytes, at).bytes_between(0x80, 0xBF);
        C::splat(1).sub(continuations)
    }
}

impl CharMeasure for CharStarts {
    ghost count = { λ _ _. 1 };

    ghost at_first_bytes = { chars_at_first_bytes };
}

/// Counts each character of two UTF-16 code units once, at its first byte.
pub(crate) struct SurrogatePairs;

impl Measure for SurrogatePairs {
    ghost weights = { pair_weights };

    ghost weights_len = { λ bytes. map_len _ bytes };

    ghost weights_small = { pair_small };

    ghost sums_small = { pair_sum };

    fn weight(bytes: &[u8], at: usize) -> u8 {
        is_lead_of_four(bytes[at]) as u8
    }

    #[inline(always)]
    fn chunk_weights<C: ByteChunk>(bytes: &[u8], at: usize) -> C {
        C::load(bytes, at).bytes_between(0xF0, 0xFF)
    }
}

impl CharMeasure for SurrogatePairs {
    ghost count = { λ c _. if nat_le 0x1_0000 c then 1 else 0 };

    ghost at_first_bytes = { pairs_at_first_bytes };
}

/// Counts the UTF-16 code units of each character, at its first byte.
pub(crate) struct Utf16Units;

impl Measure for Utf16Units {
    ghost weights = { unit_weights };

    ghost weights_len = { λ bytes. map_len _ bytes };

    ghost weights_small = { unit_small };

    ghost sums_small = { unit_sum };

    fn weight(bytes: &[u8], at: usize) -> u8 {
        is_lead(bytes[at]) as u8 + is_lead_of_four(bytes[at]) as u8
    }

    #[inline(always)]
    fn chunk_weights<C: ByteChunk>(bytes: &[u8], at: usize) -> C {
        let chunk = C::load(bytes, at);
        let continuations = chunk.bytes_between(0x80, 0xBF);
        let leads_of_four = chunk.bytes_between(0xF0, 0xFF);
        C::splat(1).sub(continuations).add(leads_of_four)
    }
}

impl CharMeasure for Utf16Units {
    ghost count = { λ c _. units_of c };

    ghost at_first_bytes = { units_at_first_bytes };
}
