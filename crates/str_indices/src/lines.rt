//! Lines by Unicode's mandatory breaks (UAX 14), like the module `lines` of the Rust crate
//! `str_indices`: LF, VT, FF, CR, U+0085, U+2028 and U+2029. CR LF is one break.
//!
//! Each call takes `O(n)` for n bytes, up to 64 bytes at a time, and allocates nothing. Every index
//! has a result.

ghost use Rattle.std.specs.Prelude.{◌≡◌, ◌+◌, ◌≤◌, ◌↔◌, min, length, IsNone, IfSome};
ghost use Rattle.std.specs.Str.{chars};
ghost use Rattle.str_indices.specs.Text.{is_line_break, breaks, break_ends, ends_up_to, end_place};
ghost use Rattle.str_indices.specs.FirstBreak.{IsFirstBreak};

use crate::breaks::LineBreaks;
use crate::byte_chunk::ByteChunk;
use crate::line_index;
use counters::Counter;
use std::ops::Range;

/// Returns the number of line breaks, one less than the number of lines. `O(n)`.
pub fn count_breaks(text: &str) -> usize
    ensures { result ≡ breaks is_line_break (chars text.now) }
{
    line_index::count_breaks::<LineBreaks>(text)
}

/// Returns the line, counted from 0, of a byte index: the number of line breaks that end at or
/// before it. `O(byte_idx)`.
///
/// Between the CR and the LF of a break this is still the line that the break ends. An index past
/// the text's length acts as the length.
pub fn from_byte_idx(text: &str, byte_idx: usize) -> usize
    ensures { result ≡ ends_up_to byte_idx (break_ends is_line_break (chars text.now)) }
{
    line_index::from_byte_idx::<LineBreaks>(text, byte_idx)
}

/// Returns the byte index of the start of a line, counted from 0, or the text's length past the
/// last line. `O(n)`, up to that line.
pub fn to_byte_idx(text: &str, line_idx: usize) -> usize
    ensures { result ≡ end_place (break_ends is_line_break (chars text.now)) line_idx
        (length text.now) }
{
    line_index::to_byte_idx::<LineBreaks>(text, line_idx)
}

/// Returns the byte range of the first line break, or `None` if there is none. `O(n)`, up to that
/// break.
///
/// The range starts where the text of line 0 ends and ends where line 1 starts. Both ends are
/// character boundaries. The breaks of the text after it are the text's other breaks
/// (`laws::breaks_behind_the_first`). The Rust crate has no such call.
pub fn first_break(text: &str) -> Option<Range<usize>>
    ensures none { IsNone result ↔ (breaks is_line_break (chars text.now) ≡ 0) }
    ensures first { IfSome result (λ at. IsFirstBreak is_line_break text.now at.start at.end) }
{
    line_index::first_break::<LineBreaks>(text)
}

/// `count_breaks` over chunks of any type; at least the first `leading` bytes are counted one by
/// one. `turns` counts the iterations over single bytes.
pub fn count_breaks_impl<C: ByteChunk>(text: &str, leading: usize, turns: &mut Counter) -> usize
    ensures count { result ≡ breaks is_line_break (chars text.now) }
    ensures one_by_one { turns.old + min leading (length text.now) ≤ turns.new }
    ensures turns { turns.new ≤ turns.old + min leading (length text.now) + C.SIZE + 4 }
{
    line_index::count_breaks_impl::<LineBreaks, C>(text, leading, turns)
}

/// `to_byte_idx` over chunks of any type; at least the first `leading` bytes are scanned one by
/// one. `turns` counts the iterations over single bytes.
pub fn to_byte_idx_impl<C: ByteChunk>(
    text: &str,
    line_idx: usize,
    leading: usize,
    turns: &mut Counter,
) -> usize
    ensures place { result ≡ end_place (break_ends is_line_break (chars text.now)) line_idx
        (length text.now) }
    ensures one_by_one { turns.old + min leading result ≤ turns.new }
    ensures turns { turns.new ≤ turns.old + min leading (length text.now) + C.SIZE + 4 }
{
    line_index::to_byte_idx_impl::<LineBreaks, C>(text, line_idx, leading, turns)
}
