//! The code points of a set, by their number of bytes.

ghost use Rattle.std.specs.Prelude.{ℕ, ◌≡◌, ◌+◌, ◌<◌, ◌≤◌, ◌^◌, [], OnOk, IfOk};
ghost use Rattle.std.specs.Str.{continuation_len, lead_bits};
ghost use Rattle.rx_sets.specs.Sets.{in_ranges};
ghost use Rattle.rx_utf8.specs.Blocks.{limit, pick, shifted_into};

use rx_sets::Range;
use std::alloc::{AllocError, Global};

/// Returns the number of bytes that follow this first byte.
pub(crate) fn continuation_len(byte: u8) -> u32
    ensures value { result ≡ continuation_len byte }
    ensures bound { result ≤ 3 }
{
    if byte < 128 {
        0
    } else if byte < 224 {
        1
    } else if byte < 240 {
        2
    } else {
        3
    }
}

/// Returns the bits of the character in this first byte.
pub(crate) fn lead_bits(byte: u8) -> u32
    ensures value { result ≡ lead_bits byte }
    ensures bound { result < limit (continuation_len byte) }
{
    let bits = byte as u32;
    if byte < 128 {
        bits
    } else if byte < 224 {
        bits.saturating_sub(192)
    } else if byte < 240 {
        bits - 224
    } else {
        bits - 240
    }
}

/// Returns the code points with this number of bytes after the first.
pub(crate) fn pick<'a>(
    one: &'a [Range],
    two: &'a [Range],
    three: &'a [Range],
    four: &'a [Range],
    rest: u32,
) -> &'a [Range]
    requires { rest ≤ 3 }
    ensures { result.now ≡ pick one.now two.now three.now four.now rest }
{
    match rest {
        0 => one,
        1 => two,
        2 => three,
        _ => four,
    }
}

/// Appends the code points whose ordinals are in the ranges and between these two.
pub(crate) fn push_shifted(
    codes: &mut Vec<Range>,
    ranges: &[Range],
    low: u32,
    high: u32,
    shift: u32,
) -> Result<(), AllocError>
    requires { high + shift < 2 ^ 32 }
    ensures { OnOk result ((c : ℕ) → in_ranges codes.new.items c
        ≡ shifted_into codes.old.items ranges.now low high shift c) }
{
    for range in ranges {
        let start = range.0.max(low);
        let end = range.1.min(high);
        if start <= end {
            codes.push((start + shift, end + shift))?;
        }
    }
    Ok(())
}

/// Returns the code points whose ordinals are in the ranges and between these two.
pub(crate) fn shifted(
    alloc: Global,
    ranges: &[Range],
    low: u32,
    high: u32,
    shift: u32,
) -> Result<Vec<Range>, AllocError>
    requires { high + shift < 2 ^ 32 }
    ensures { IfOk result (λ codes. (c : ℕ) → in_ranges codes.items c
        ≡ shifted_into [] ranges.now low high shift c) }
{
    let mut codes = Vec::new(alloc);
    push_shifted(&mut codes, ranges, low, high, shift)?;
    Ok(codes)
}
