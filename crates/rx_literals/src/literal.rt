//! Finds the needles of a prefilter in a haystack that is split into chunks.

ghost use Rattle.std.specs.Prelude.{◌≡◌, ◌+◌, ◌<◌, ◌≤◌, ◌↔◌, ◌^◌, IsTrue, Some, length, min, slice_get};
ghost use Rattle.memchr.specs.Find.{OccursAt};
ghost use Rattle.rx_input.specs.Cursors.{IsSameContent};
ghost use Rattle.rx_input.specs.Inputs.{HoldsPlace, between};
ghost use Rattle.rx_literals.specs.Needles.{FoundAt, FoundBetween, FoundAtStart, FoundInSpan, bytes_to_end};

use crate::prefilter::Prefilter;
use rx_input::{Cursor, Input};
use rx_util::Span;

/// Returns the bytes of the span from the position to the end of the current chunk.
#[inline(always)]
pub(crate) fn left_in_piece<C: Cursor>(input: &Input<C>) -> &[u8]
    ensures part { result.now ≡ between input.now.position
        (min input.now.asked.span.end input.now.cursor.end) input.now.cursor.content }
    ensures holds { HoldsPlace input.now.cursor input.now.position }
{
    let end = input.get_chunk_end();
    &input.chunk()[input.chunk_pos().min(end)..end]
}

/// Returns whether the haystack has this byte at an offset.
fn has_byte<C: Cursor>(input: &mut Input<C>, at: usize, byte: u8) -> bool
    ensures byte { IsTrue result ↔ (slice_get input.old.cursor.content at ≡ Some byte) }
    ensures same { IsSameContent input.old.cursor input.new.cursor }
    ensures asked { input.new.asked ≡ input.old.asked }
{
    input.move_to(at);
    match input.chunk().get(input.chunk_pos()) {
        Some(here) => *here == byte,
        None => false,
    }
}

/// Returns whether a needle, which mustn't be empty, occurs at an offset in the span.
fn occurs_at<C: Cursor>(input: &mut Input<C>, at: usize, needle: &[u8]) -> bool
    requires { 1 ≤ length needle.now }
    ensures occurs { IsTrue result ↔ OccursAt (bytes_to_end input.old) needle.now at }
    ensures fits { IsTrue result → at + length needle.now < 2 ^ 64 }
    ensures same { IsSameContent input.old.cursor input.new.cursor }
    ensures asked { input.new.asked ≡ input.old.asked }
{
    if input.end().saturating_sub(at) < needle.len() {
        return false;
    }
    for (index, byte) in needle.iter().enumerate() {
        if !has_byte(input, at + index, *byte) {
            return false;
        }
    }
    true
}

/// Returns the occurrence at an offset of the first needle that occurs there.
fn find_at<C: Cursor>(prefilter: &Prefilter, input: &mut Input<C>, at: usize) -> Option<Span>
    ensures found { FoundAt (bytes_to_end input.old) at prefilter.now result }
    ensures same { IsSameContent input.old.cursor input.new.cursor }
    ensures asked { input.new.asked ≡ input.old.asked }
{
    for needle in prefilter.needles() {
        if occurs_at(input, at, needle) {
            return Some(Span {
                start: at,
                end: at + needle.len(),
            });
        }
    }
    None
}

/// Returns the first occurrence from one offset up to another, by trying each.
fn try_each<C: Cursor>(
    prefilter: &Prefilter,
    input: &mut Input<C>,
    from: usize,
    to: usize,
) -> Option<Span>
    ensures found { FoundBetween (bytes_to_end input.old) prefilter.now from to result }
    ensures same { IsSameContent input.old.cursor input.new.cursor }
    ensures asked { input.new.asked ≡ input.old.asked }
{
    for at in from..to {
        if let Some(span) = find_at(prefilter, input, at) {
            return Some(span);
        }
    }
    None
}

/// Returns the first occurrence from the position, which must be in the span, to the end of the
/// current chunk. Most needles are inside the chunk; those that may continue in the next one start
/// at the last offsets of it.
#[inline(always)]
fn find_in_piece<C: Cursor>(prefilter: &Prefilter, input: &mut Input<C>) -> Option<Span>
    requires { input.old.position ≤ min input.old.asked.span.end input.old.cursor.end }
    ensures found { FoundBetween (bytes_to_end input.old) prefilter.now input.old.position
        (min input.old.asked.span.end input.old.cursor.end) result }
    ensures same { IsSameContent input.old.cursor input.new.cursor }
    ensures asked { input.new.asked ≡ input.old.asked }
{
    let at = input.position();
    let hay = left_in_piece(input);
    let len = hay.len();
    // At this number of offsets each needle that may occur is inside the chunk.
    let told = if at + len == input.end() {
        len
    } else {
        (len + 1).saturating_sub(prefilter.max_needle_len())
    };
    match prefilter.find_in(hay) {
        Some(span) if span.start < told => Some(Span {
            start: at + span.start,
            end: at + span.end,
        }),
        _ => try_each(prefilter, input, at + told, at + len),
    }
}

/// Returns the first occurrence of a needle inside the span, and at that offset of the first needle
/// in the prefilter's order; `None` if there is none. Haystack and request stay as they are. It
/// allocates nothing.
///
/// # Complexity
///
/// With one needle, time proportional to the span's bytes and chunks. With several, each needle is
/// also tried at each offset that has the first byte of a needle, or at each offset if they begin
/// with more than three different bytes. At the last offsets of a chunk, fewer than the longest
/// needle has bytes, each needle is tried too.
pub fn find<C: Cursor>(prefilter: &Prefilter, input: &mut Input<C>) -> Option<Span>
    ensures found { FoundInSpan prefilter.now input.old result }
    ensures same { IsSameContent input.old.cursor input.new.cursor }
    ensures asked { input.new.asked ≡ input.old.asked }
{
    prefilter.needles_are_lawful();
    let mut at = input.start();
    loop {
        input.move_to(at);
        let len = left_in_piece(input).len();
        if len == 0 {
            return None;
        }
        if let Some(span) = find_in_piece(prefilter, input) {
            return Some(span);
        }
        at += len;
    }
}

/// Returns the occurrence at the span's start of the first needle that occurs there inside the
/// span; `None` if there is none. Haystack and request stay as they are. It allocates nothing.
pub fn prefix<C: Cursor>(prefilter: &Prefilter, input: &mut Input<C>) -> Option<Span>
    ensures found { FoundAtStart prefilter.now input.old result }
    ensures same { IsSameContent input.old.cursor input.new.cursor }
    ensures asked { input.new.asked ≡ input.old.asked }
{
    let start = input.start();
    find_at(prefilter, input, start)
}
