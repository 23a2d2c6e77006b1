//! Measures of line breaks, which count at their last byte.

ghost use Rattle.std.specs.Prelude.{refl, ◌≡◌, ◌+◌, ◌<◌, ◌&&◌, ◌||◌, not, ◌==◌, ◌∷◌, length, drop, slice_index};
ghost use Rattle.str_indices.specs.Text.{starts_with_lf, is_line_break, is_crlf_break, is_lf_break};
ghost use Rattle.str_indices.specs.Bytes.{passes_at, is_cr_lf_end, ends_ascii_line, ends_two_byte_line, ends_three_byte_line, ends_line, ends_crlf_line, line_weights, crlf_line_weights, lf_line_weights};
ghost use Rattle.str_indices.specs.Weights.{tested_len, tested_small, tested_sum};
ghost use Rattle.str_indices.specs.BreakBytes.{lines_at_last_bytes, crlf_lines_at_last_bytes, lf_lines_at_last_bytes};
ghost use Rattle.std.proofs.lemmas.Bool.{false≢true};
ghost use Rattle.str_indices.specs.Lanes.{MarksLanes};

use crate::byte_chunk::ByteChunk;
use crate::measure::{BreakMeasure, Measure};

const LF: u8 = 0x0A;

const CR: u8 = 0x0D;

/// Returns the byte before the one at `at`, or 0 before the first.
fn byte_before(bytes: &[u8], at: usize) -> u8
    requires { at < length bytes.now }
    ensures { result ≡ slice_index (0 ∷ bytes.now) at }
{
    if at == 0 { 0 } else { bytes[at - 1] }
}

/// Returns the second byte before the one at `at`, or 0 if there is none.
fn second_byte_before(bytes: &[u8], at: usize) -> u8
    requires { at < length bytes.now }
    ensures { result ≡ slice_index (0 ∷ 0 ∷ bytes.now) at }
{
    if at < 2 { 0 } else { bytes[at - 2] }
}

fn is_before_lf(bytes: &[u8], at: usize) -> bool
    requires { at < length bytes.now }
    ensures { result ≡ starts_with_lf (drop (at + 1) bytes.now) }
{
    at + 1 < bytes.len() && bytes[at + 1] == LF
}

/// Returns whether a byte is the LF of a CR LF.
pub(crate) fn ends_cr_lf(bytes: &[u8], at: usize) -> bool
    requires { at < length bytes.now }
    ensures { result ≡ is_cr_lf_end bytes.now at }
{
    bytes[at] == LF && byte_before(bytes, at) == CR
}

/// Returns whether a byte is the last of a Unicode line break.
#[tactic(auto, using(std::proofs::lemmas::Bool::Decides::nat_tests))]
fn ends_line(bytes: &[u8], at: usize) -> bool
    requires { at < length bytes.now }
    ensures { result ≡ passes_at ends_line bytes.now at }
{
    let byte = bytes[at];
    match byte {
        0x0A..=0x0D => byte != CR || !is_before_lf(bytes, at),
        0x85 => byte_before(bytes, at) == 0xC2,
        0xA8 | 0xA9 => byte_before(bytes, at) == 0x80 && second_byte_before(bytes, at) == 0xE2,
        _ => false,
    }
}

#[inline(always)]
fn ascii_breaks<C: ByteChunk>(chunk: C, next: C) -> C
    ensures { MarksLanes C.SIZE (C.lanes result) (λ i.
        ends_ascii_line (slice_index (C.lanes chunk) i) (slice_index (C.lanes next) i == 10)) }
{
    let split = chunk.cmp_eq_byte(CR).bitand(next.cmp_eq_byte(LF));
    chunk.bytes_between(LF, CR).sub(split)
}

#[inline(always)]
fn two_byte_breaks<C: ByteChunk>(chunk: C, before: C) -> C
    ensures { MarksLanes C.SIZE (C.lanes result)
        (λ i. ends_two_byte_line (slice_index (C.lanes before) i) (slice_index (C.lanes chunk) i)) }
{
    chunk.cmp_eq_byte(0x85).bitand(before.cmp_eq_byte(0xC2))
}

#[inline(always)]
fn three_byte_breaks<C: ByteChunk>(chunk: C, before: C, second_before: C) -> C
    ensures { MarksLanes C.SIZE (C.lanes result)
        (λ i. ends_three_byte_line (slice_index (C.lanes second_before) i)
        (slice_index (C.lanes before) i) (slice_index (C.lanes chunk) i)) }
{
    let lead = before
        .cmp_eq_byte(0x80)
        .bitand(second_before.cmp_eq_byte(0xE2));
    chunk.bytes_between(0xA8, 0xA9).bitand(lead)
}

/// Counts each of Unicode's mandatory breaks once.
pub(crate) struct LineBreaks;

impl Measure for LineBreaks {
    ghost weights = { line_weights };

    ghost weights_len = { λ bytes. tested_len _ 0 0 bytes };

    ghost weights_small = { λ bytes at. tested_small _ 0 0 bytes at };

    ghost sums_small = { λ bytes n. tested_sum _ bytes n };

    fn weight(bytes: &[u8], at: usize) -> u8 {
        ends_line(bytes, at) as u8
    }

    #[inline(always)]
    fn chunk_weights<C: ByteChunk>(bytes: &[u8], at: usize) -> C {
        let chunk = C::load(bytes, at);
        let before = C::load(bytes, at - 1);
        ascii_breaks(chunk, C::load(bytes, at + 1))
            .add(two_byte_breaks(chunk, before))
            .add(three_byte_breaks(chunk, before, C::load(bytes, at - 2)))
    }
}

impl BreakMeasure for LineBreaks {
    ghost is_break = { is_line_break };

    ghost at_last_bytes = { lines_at_last_bytes };

    fn has_cr() -> bool {
        true
    }

    ghost lf_beside_cr = { λ _. refl };
}

#[inline(always)]
fn crlf_breaks<C: ByteChunk>(chunk: C, next: C) -> C
    ensures { MarksLanes C.SIZE (C.lanes result) (λ i. (slice_index (C.lanes chunk) i == 10)
        || ((slice_index (C.lanes chunk) i == 13) && not (slice_index (C.lanes next) i == 10))) }
{
    let cr = chunk.cmp_eq_byte(CR);
    let split = cr.bitand(next.cmp_eq_byte(LF));
    chunk.cmp_eq_byte(LF).add(cr.sub(split))
}

/// Returns whether a byte is the last of an LF, a CR or a CR LF.
fn ends_crlf_line(bytes: &[u8], at: usize) -> bool
    requires { at < length bytes.now }
    ensures { result ≡ passes_at ends_crlf_line bytes.now at }
{
    bytes[at] == LF || (bytes[at] == CR && !is_before_lf(bytes, at))
}

/// Counts each LF, CR and CR LF once.
pub(crate) struct CrlfBreaks;

impl Measure for CrlfBreaks {
    ghost weights = { crlf_line_weights };

    ghost weights_len = { λ bytes. tested_len _ 0 0 bytes };

    ghost weights_small = { λ bytes at. tested_small _ 0 0 bytes at };

    ghost sums_small = { λ bytes n. tested_sum _ bytes n };

    fn weight(bytes: &[u8], at: usize) -> u8 {
        ends_crlf_line(bytes, at) as u8
    }

    #[inline(always)]
    fn chunk_weights<C: ByteChunk>(bytes: &[u8], at: usize) -> C {
        let chunk = C::load(bytes, at);
        // Most chunks have no CR, and so no break of two bytes.
        if chunk.cmp_eq_byte(CR).first_nonzero() == C::SIZE {
            return chunk.cmp_eq_byte(LF);
        }
        crlf_breaks(chunk, C::load(bytes, at + 1))
    }
}

impl BreakMeasure for CrlfBreaks {
    ghost is_break = { is_crlf_break };

    ghost at_last_bytes = { crlf_lines_at_last_bytes };

    fn has_cr() -> bool {
        true
    }

    ghost lf_beside_cr = { λ _. refl };
}

/// Counts each LF once.
pub(crate) struct LfBreaks;

impl Measure for LfBreaks {
    ghost weights = { lf_line_weights };

    ghost weights_len = { λ bytes. tested_len _ 0 0 bytes };

    ghost weights_small = { λ bytes at. tested_small _ 0 0 bytes at };

    ghost sums_small = { λ bytes n. tested_sum _ bytes n };

    fn weight(bytes: &[u8], at: usize) -> u8 {
        (bytes[at] == LF) as u8
    }

    #[inline(always)]
    fn chunk_weights<C: ByteChunk>(bytes: &[u8], at: usize) -> C {
        C::load(bytes, at).cmp_eq_byte(LF)
    }
}

impl BreakMeasure for LfBreaks {
    ghost is_break = { is_lf_break };

    ghost at_last_bytes = { lf_lines_at_last_bytes };

    fn has_cr() -> bool {
        false
    }

    ghost lf_beside_cr = { λ has. absurd (false≢true has) };
}
