//! Line breaks and lines of a text, for any set of break characters.

ghost use Rattle.std.specs.Prelude.{◌≡◌, ◌+◌, ◌-◌, ◌<◌, ◌&&◌, if◌then◌else◌, ◌≤◌, ◌↔◌, min, length, IsNone, IfSome};
ghost use Rattle.std.specs.Str.{chars};
ghost use Rattle.str_indices.specs.Text.{breaks, break_ends, ends_up_to, end_place};
ghost use Rattle.str_indices.specs.Bytes.{is_cr_lf_end};
ghost use Rattle.str_indices.specs.FirstBreak.{IsFirstBreak};

use crate::breaks::ends_cr_lf;
use crate::byte_chunk::ByteChunk;
use crate::measure::BreakMeasure;
use crate::{scan, uncounted};
use counters::Counter;
use std::ops::Range;

pub(crate) fn count_breaks<M: BreakMeasure>(text: &str) -> usize
    ensures { result ≡ breaks M.is_break (chars text.now) }
{
    uncounted::count_before::<M>(text.as_bytes(), text.len())
}

pub(crate) fn from_byte_idx<M: BreakMeasure>(text: &str, byte_idx: usize) -> usize
    ensures { result ≡ ends_up_to byte_idx (break_ends M.is_break (chars text.now)) }
{
    uncounted::count_before::<M>(text.as_bytes(), byte_idx.min(text.len()))
}

pub(crate) fn to_byte_idx<M: BreakMeasure>(text: &str, line_idx: usize) -> usize
    ensures { result ≡ end_place (break_ends M.is_break (chars text.now)) line_idx
        (length text.now) }
{
    if line_idx == 0 {
        return 0;
    }
    let last = uncounted::find_past::<M>(text.as_bytes(), line_idx - 1);
    if last < text.len() { last + 1 } else { last }
}

/// Returns the start of a break, given the first byte of its last character.
fn break_start<M: BreakMeasure>(bytes: &[u8], at: usize) -> usize
    requires { at < length bytes.now }
    ensures { result ≡ if M.is_break 13 && is_cr_lf_end bytes.now at then at - 1 else at }
{
    if M::has_cr() && ends_cr_lf(bytes, at) {
        at - 1
    } else {
        at
    }
}

pub(crate) fn first_break<M: BreakMeasure>(text: &str) -> Option<Range<usize>>
    ensures none { IsNone result ↔ (breaks M.is_break (chars text.now) ≡ 0) }
    ensures first { IfSome result (λ at. IsFirstBreak M.is_break text.now at.start at.end) }
{
    let bytes = text.as_bytes();
    let last = uncounted::find_first::<M>(bytes);
    if last >= bytes.len() {
        return None;
    }
    let start = break_start::<M>(bytes, text.floor_char_boundary(last));
    Some(start..last + 1)
}

pub(crate) fn count_breaks_impl<M: BreakMeasure, C: ByteChunk>(
    text: &str,
    leading: usize,
    turns: &mut Counter,
) -> usize
    ensures count { result ≡ breaks M.is_break (chars text.now) }
    ensures one_by_one { turns.old + min leading (length text.now) ≤ turns.new }
    ensures turns { turns.new ≤ turns.old + min leading (length text.now) + C.SIZE + 4 }
{
    scan::count_before::<M, C, C>(text.as_bytes(), text.len(), leading, turns)
}

pub(crate) fn to_byte_idx_impl<M: BreakMeasure, C: ByteChunk>(
    text: &str,
    line_idx: usize,
    leading: usize,
    turns: &mut Counter,
) -> usize
    ensures place { result ≡ end_place (break_ends M.is_break (chars text.now)) line_idx
        (length text.now) }
    ensures one_by_one { turns.old + min leading result ≤ turns.new }
    ensures turns { turns.new ≤ turns.old + min leading (length text.now) + C.SIZE + 4 }
{
    if line_idx == 0 {
        return 0;
    }
    let last = scan::find_past::<M, C, C>(text.as_bytes(), line_idx - 1, leading, turns);
    if last < text.len() { last + 1 } else { last }
}
