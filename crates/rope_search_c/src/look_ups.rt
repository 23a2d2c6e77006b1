//! The calls that read. Each leaves the session unchanged, and a closed handle closed. One of them
//! searches a line, which is counted.
ghost use Rattle.std.specs.Prelude.{◌≡◌, ◌+◌, ◌<◌, ◌↔◌, length, None, false, IsTrue, MatchOption};
ghost use Rattle.rope_search.specs.Session.{chosen_buffer};
ghost use Rattle.rope_search_reports.specs.Text.{line_count};
ghost use Rattle.rope_search.specs.Stretches.{none};
ghost use Rattle.rope_search_c.specs.Calls.{LeadsHandle};
ghost use Rattle.rope_search_c.specs.Groups.{CopiesGroups};
ghost use Rattle.rope_search_c.specs.Reading.{CopiesMatches, CopiesText, CountsMatches, CountsRows, TellsByte, TellsColumn, TellsPosition, TellsPositionIn, text_bytes_in, changed_in, text_in};

use crate::handles::{CLOSED, Handle};
use crate::matches::{Group, Span};
use rope_search::{Position, Stretch};
use std::alloc::Global;

/// The counts of a session.
#[repr(C)]
#[derive(Clone, Copy, Debug, PartialEq, Eq)]
pub struct Counted {
    /// The number of rows that were made.
    pub rows: u64,
    /// The number of searches of a whole text.
    pub wholes: u64,
}

/// Returns the number of bytes of the chosen buffer's text; 0 on a closed handle.
#[unsafe(no_mangle)]
pub extern "C" fn rope_search_text_len(alloc: Global, handle: &mut Handle) -> usize
    ensures same { handle.new.held ≡ handle.old.held }
    ensures len { MatchOption handle.old.held (result ≡ 0)
        (λ old. result ≡ length (text_bytes_in old)) }
{
    let Some(session) = handle.take(alloc) else {
        return 0;
    };
    let len = session.text().len_bytes();
    *handle = Handle::of(session);
    len
}

/// Returns the number of lines of the chosen buffer's text; 0 on a closed handle.
#[unsafe(no_mangle)]
pub extern "C" fn rope_search_text_lines(alloc: Global, handle: &mut Handle) -> usize
    ensures same { handle.new.held ≡ handle.old.held }
    ensures lines { MatchOption handle.old.held (result ≡ 0) (λ old.
        result ≡ line_count (text_in old)) }
{
    let Some(session) = handle.take(alloc) else {
        return 0;
    };
    let lines = session.text().len_lines();
    *handle = Handle::of(session);
    lines
}

/// Returns the number of rows of the chosen buffer's report: its lines, or 0 without a pattern; 0
/// on a closed handle.
#[unsafe(no_mangle)]
pub extern "C" fn rope_search_rows(alloc: Global, handle: &mut Handle) -> usize
    ensures same { handle.new.held ≡ handle.old.held }
    ensures rows { MatchOption handle.old.held (result ≡ 0) (λ old. CountsRows old result) }
{
    let Some(session) = handle.take(alloc) else {
        return 0;
    };
    let rows = session.rows().len();
    *handle = Handle::of(session);
    rows
}

/// Returns the number of matches in the report's rows `from` up to `to`, or in as many of these as
/// there are; 0 on a closed handle. `O(to - from)`.
#[unsafe(no_mangle)]
pub extern "C" fn rope_search_count_matches(
    alloc: Global,
    handle: &mut Handle,
    from: usize,
    to: usize,
) -> usize
    ensures same { handle.new.held ≡ handle.old.held }
    ensures count { MatchOption handle.old.held (result ≡ 0) (λ old.
        CountsMatches old from to result) }
{
    let Some(session) = handle.take(alloc) else {
        return 0;
    };
    let count = session.count_matches(from, to);
    *handle = Handle::of(session);
    count
}

/// Copies the matches of the report's rows `from` up to `to` to the start of `out`, as many as fit,
/// and returns their number; 0 on a closed handle. Nothing else of `out` changes.
#[unsafe(no_mangle)]
pub extern "C" fn rope_search_copy_matches(
    alloc: Global,
    handle: &mut Handle,
    from: usize,
    to: usize,
    out: &mut [Span],
) -> usize
    ensures same { handle.new.held ≡ handle.old.held }
    ensures copied { MatchOption handle.old.held ((result ≡ 0) × (out.new ≡ out.old)) (λ old.
        CopiesMatches old from to result out.old out.new) }
{
    let Some(session) = handle.take(alloc) else {
        return 0;
    };
    let count = session.copy_matches(from, to, out);
    *handle = Handle::of(session);
    count
}

/// Copies the groups 0 to 9 of a match of the report, given by its line and its number in that row,
/// from 0, to the start of `out`, as many as fit, and returns 0. Its line is searched for them,
/// which is counted. Returns 1 without a pattern, 2 if there is no such line or no such match, 7 if
/// out of memory, or 8 on a closed handle; `out` is then unchanged. Nothing else of `out` changes.
#[unsafe(no_mangle)]
pub extern "C" fn rope_search_groups_at(
    alloc: Global,
    handle: &mut Handle,
    line: usize,
    number: usize,
    out: &mut [Group],
) -> u32
    ensures told { LeadsHandle handle.old.held result handle.new.held (λ old new.
        CopiesGroups old line number result out.old out.new new) }
    ensures closed { handle.old.held ≡ None → out.new ≡ out.old }
{
    let Some(session) = handle.take(alloc) else {
        return CLOSED;
    };
    let mut session = session;
    let status = session.groups_at(line, number, out);
    *handle = Handle::of(session);
    status
}

/// Copies bytes `from` up to `to` of the chosen buffer's text to the start of `out`, and returns
/// whether they are bytes of the text, start and end at character boundaries and fit. Otherwise,
/// and on a closed handle, `out` is unchanged. Nothing else of `out` changes.
#[unsafe(no_mangle)]
pub extern "C" fn rope_search_copy_text(
    alloc: Global,
    handle: &mut Handle,
    from: usize,
    to: usize,
    out: &mut [u8],
) -> bool
    ensures same { handle.new.held ≡ handle.old.held }
    ensures copied { MatchOption handle.old.held ((result ≡ false) × (out.new ≡ out.old)) (λ old.
        CopiesText old from to result out.old out.new) }
{
    let Some(session) = handle.take(alloc) else {
        return false;
    };
    let is_copied = session.copy_text(from, to, out);
    *handle = Handle::of(session);
    is_copied
}

/// Returns the rows of the chosen buffer's report that the last accepted command replaced, as
/// `Session::changed` does; zeros on a closed handle.
#[unsafe(no_mangle)]
pub extern "C" fn rope_search_changed(alloc: Global, handle: &mut Handle) -> Stretch
    ensures same { handle.new.held ≡ handle.old.held }
    ensures changed { MatchOption handle.old.held (result ≡ none) (λ old.
        result ≡ changed_in old) }
{
    let Some(session) = handle.take(alloc) else {
        return Stretch {
            first: 0,
            removed: 0,
            added: 0,
        };
    };
    let changed = session.session.changed();
    *handle = Handle::of(session);
    changed
}

/// Returns the session's counts; zeros on a closed handle.
#[unsafe(no_mangle)]
pub extern "C" fn rope_search_counted(alloc: Global, handle: &mut Handle) -> Counted
    ensures same { handle.new.held ≡ handle.old.held }
    ensures rows { MatchOption handle.old.held (result.rows ≡ 0) (λ old.
        result.rows ≡ old.lines.count) }
    ensures wholes { MatchOption handle.old.held (result.wholes ≡ 0) (λ old.
        result.wholes ≡ old.lines.wholes) }
{
    let Some(session) = handle.take(alloc) else {
        return Counted { rows: 0, wholes: 0 };
    };
    let counted = Counted {
        rows: session.lines.count(),
        wholes: session.lines.wholes(),
    };
    *handle = Handle::of(session);
    counted
}

/// Returns the number of buffers; 0 on a closed handle.
#[unsafe(no_mangle)]
pub extern "C" fn rope_search_buffers(alloc: Global, handle: &mut Handle) -> usize
    ensures same { handle.new.held ≡ handle.old.held }
    ensures buffers { MatchOption handle.old.held (result ≡ 0) (λ old.
        result ≡ length old.session.state.buffers) }
{
    let Some(session) = handle.take(alloc) else {
        return 0;
    };
    let buffers = session.session.buffer_count();
    *handle = Handle::of(session);
    buffers
}

/// Returns the number of the chosen buffer, from 0; 0 on a closed handle.
#[unsafe(no_mangle)]
pub extern "C" fn rope_search_chosen(alloc: Global, handle: &mut Handle) -> usize
    ensures same { handle.new.held ≡ handle.old.held }
    ensures chosen { MatchOption handle.old.held (result ≡ 0) (λ old.
        result ≡ old.session.state.chosen) }
{
    let Some(session) = handle.take(alloc) else {
        return 0;
    };
    let chosen = session.session.chosen();
    *handle = Handle::of(session);
    chosen
}

/// Returns whether `rope_search_undo` has a text to go back to; false on a closed handle.
#[unsafe(no_mangle)]
pub extern "C" fn rope_search_can_undo(alloc: Global, handle: &mut Handle) -> bool
    ensures same { handle.new.held ≡ handle.old.held }
    ensures can { MatchOption handle.old.held (result ≡ false) (λ old.
        IsTrue result ↔ (0 < (chosen_buffer old.session.state).current)) }
{
    let Some(session) = handle.take(alloc) else {
        return false;
    };
    let can_undo = session.session.buffer().can_undo();
    *handle = Handle::of(session);
    can_undo
}

/// Returns whether `rope_search_redo` has a text to go forward to; false on a closed handle.
#[unsafe(no_mangle)]
pub extern "C" fn rope_search_can_redo(alloc: Global, handle: &mut Handle) -> bool
    ensures same { handle.new.held ≡ handle.old.held }
    ensures can { MatchOption handle.old.held (result ≡ false) (λ old.
        IsTrue result ↔ ((chosen_buffer old.session.state).current + 1
        < length (chosen_buffer old.session.state).texts)) }
{
    let Some(session) = handle.take(alloc) else {
        return false;
    };
    let can_redo = session.session.buffer().can_redo();
    *handle = Handle::of(session);
    can_redo
}

/// Writes the byte offset of a position in the chosen buffer's text, and returns 0. Returns 2 if
/// the position is nowhere, or 8 on a closed handle; `byte_idx` is then unchanged.
#[unsafe(no_mangle)]
pub extern "C" fn rope_search_byte_of(
    alloc: Global,
    handle: &mut Handle,
    position: Position,
    byte_idx: &mut usize,
) -> u32
    ensures same { handle.new.held ≡ handle.old.held }
    ensures told { MatchOption handle.old.held
        ((result ≡ 8) × (byte_idx.new ≡ byte_idx.old)) (λ old.
        TellsByte old position result byte_idx.old byte_idx.new) }
{
    let Some(session) = handle.take(alloc) else {
        return CLOSED;
    };
    let status = session.byte_of(position, byte_idx);
    *handle = Handle::of(session);
    status
}

/// Writes the position of a byte offset in the chosen buffer's text, and returns 0. The position
/// between the CR and the LF of a break is one past the end of the line's text. Returns 2 if the
/// offset is neither the start of a character nor the text's end, or 8 on a closed handle;
/// `position` is then unchanged.
#[unsafe(no_mangle)]
pub extern "C" fn rope_search_position_of(
    alloc: Global,
    handle: &mut Handle,
    byte_idx: usize,
    position: &mut Position,
) -> u32
    ensures same { handle.new.held ≡ handle.old.held }
    ensures told { MatchOption handle.old.held
        ((result ≡ 8) × (position.new ≡ position.old)) (λ old.
        TellsPosition old byte_idx result position.old position.new) }
{
    let Some(session) = handle.take(alloc) else {
        return CLOSED;
    };
    let status = session.position_of(byte_idx, position);
    *handle = Handle::of(session);
    status
}

/// Writes the column of a position of the chosen buffer's text, in bytes if `bits` is 8, in UTF-16
/// code units if it is 16, or in characters if it is 32, and returns 0. Returns 2 if the position
/// is nowhere or `bits` is another number, or 8 on a closed handle; `column` is then unchanged.
#[unsafe(no_mangle)]
pub extern "C" fn rope_search_column_in(
    alloc: Global,
    handle: &mut Handle,
    bits: u32,
    position: Position,
    column: &mut usize,
) -> u32
    ensures same { handle.new.held ≡ handle.old.held }
    ensures told { MatchOption handle.old.held
        ((result ≡ 8) × (column.new ≡ column.old)) (λ old.
        TellsColumn old bits position result column.old column.new) }
{
    let Some(session) = handle.take(alloc) else {
        return CLOSED;
    };
    let status = session.column_in(bits, position, column);
    *handle = Handle::of(session);
    status
}

/// Writes the position of a line and a column of the chosen buffer's text, in bytes if `bits` is 8,
/// in UTF-16 code units if it is 16, or in characters if it is 32, and returns 0. Returns 2 if they
/// are nowhere or `bits` is another number, or 8 on a closed handle; `position` is then unchanged.
#[unsafe(no_mangle)]
pub extern "C" fn rope_search_position_in(
    alloc: Global,
    handle: &mut Handle,
    bits: u32,
    line: usize,
    column: usize,
    position: &mut Position,
) -> u32
    ensures same { handle.new.held ≡ handle.old.held }
    ensures told { MatchOption handle.old.held
        ((result ≡ 8) × (position.new ≡ position.old)) (λ old.
        TellsPositionIn old bits line column result position.old position.new) }
{
    let Some(session) = handle.take(alloc) else {
        return CLOSED;
    };
    let status = session.position_in(bits, line, column, position);
    *handle = Handle::of(session);
    status
}
