//! The calls for lines, for columns in a unit that C names, and for edits by bytes.
ghost use Rattle.std.specs.Prelude.{◌≡◌, false, MatchOption};
ghost use Rattle.rope_search_c.specs.Calls.{LeadsHandle};
ghost use Rattle.rope_search_c.specs.Lines.{CopiesLine, CopiesMatchesIn, EditsBytes, TellsClamped, TellsLineLen};

use crate::handles::{CLOSED, Handle};
use crate::matches::Span;
use rope_search::Position;
use std::alloc::Global;

/// Replaces the bytes between two offsets by these bytes, as `Session::edit_bytes` does. Returns 2
/// if an offset is past the text, inside a character or between the CR and the LF of a break, or
/// the second is before the first.
#[unsafe(no_mangle)]
pub extern "C" fn rope_search_edit_bytes(
    alloc: Global,
    handle: &mut Handle,
    from: usize,
    to: usize,
    text: &[u8],
) -> u32
    ensures { LeadsHandle handle.old.held result handle.new.held (λ old new.
        EditsBytes old from to text.now result new) }
{
    let Some(session) = handle.take(alloc) else {
        return CLOSED;
    };
    let mut session = session;
    let status = session.edit_bytes(from, to, text);
    *handle = Handle::of(session);
    status
}

/// Writes the position to which a line and a column, in the unit that `bits` names, are clamped,
/// and returns 0. Returns 2 if `bits` is none of 8, 16 and 32, or 8 on a closed handle; `position`
/// is then unchanged.
#[unsafe(no_mangle)]
pub extern "C" fn rope_search_clamp(
    alloc: Global,
    handle: &mut Handle,
    bits: u32,
    line: usize,
    column: usize,
    position: &mut Position,
) -> u32
    ensures same { handle.new.held ≡ handle.old.held }
    ensures told { MatchOption handle.old.held
        ((result ≡ 8) × (position.new ≡ position.old)) (λ old.
        TellsClamped old bits line column result position.old position.new) }
{
    let Some(held) = handle.take(alloc) else {
        return CLOSED;
    };
    let session = held;
    let status = session.clamp(bits, line, column, position);
    *handle = Handle::of(session);
    status
}

/// Writes the length of a line's text, in the unit that `bits` names, and returns 0. Returns 2 past
/// the last line or if `bits` is none of 8, 16 and 32, or 8 on a closed handle; `len` is then
/// unchanged.
#[unsafe(no_mangle)]
pub extern "C" fn rope_search_line_len(
    alloc: Global,
    handle: &mut Handle,
    line: usize,
    bits: u32,
    len: &mut usize,
) -> u32
    ensures same { handle.new.held ≡ handle.old.held }
    ensures told { MatchOption handle.old.held
        ((result ≡ 8) × (len.new ≡ len.old)) (λ old.
        TellsLineLen old line bits result len.old len.new) }
{
    let Some(session) = handle.take(alloc) else {
        return CLOSED;
    };
    let status = session.line_len(line, bits, len);
    *handle = Handle::of(session);
    status
}

/// Copies a line's text, without its break, to the start of `out`, and returns whether there is
/// such a line and it fits. Otherwise, and on a closed handle, `out` is unchanged. Nothing else of
/// `out` changes.
#[unsafe(no_mangle)]
pub extern "C" fn rope_search_copy_line(
    alloc: Global,
    handle: &mut Handle,
    line: usize,
    out: &mut [u8],
) -> bool
    ensures same { handle.new.held ≡ handle.old.held }
    ensures copied { MatchOption handle.old.held ((result ≡ false) × (out.new ≡ out.old)) (λ old.
        CopiesLine old line result out.old out.new) }
{
    let Some(session) = handle.take(alloc) else {
        return false;
    };
    let is_copied = session.copy_line(line, out);
    *handle = Handle::of(session);
    is_copied
}

/// Copies the matches of the report's rows `from` up to `to`, with columns in the unit that `bits`
/// names, to the start of `out`, as many as fit, and returns their number. Returns 0 if `bits` is
/// none of 8, 16 and 32, or on a closed handle. Nothing else of `out` changes.
#[unsafe(no_mangle)]
pub extern "C" fn rope_search_copy_matches_in(
    alloc: Global,
    handle: &mut Handle,
    bits: u32,
    from: usize,
    to: usize,
    out: &mut [Span],
) -> usize
    ensures same { handle.new.held ≡ handle.old.held }
    ensures copied { MatchOption handle.old.held ((result ≡ 0) × (out.new ≡ out.old)) (λ old.
        CopiesMatchesIn old bits from to result out.old out.new) }
{
    let Some(session) = handle.take(alloc) else {
        return 0;
    };
    let count = session.copy_matches_in(bits, from, to, out);
    *handle = Handle::of(session);
    count
}
