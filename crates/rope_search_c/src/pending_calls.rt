//! The calls for a pending pattern of the chosen buffer.
ghost use Rattle.std.specs.Prelude.{◌≡◌, None, false, MatchOption};
ghost use Rattle.rope_search_c.specs.Calls.{LeadsHandle};
ghost use Rattle.rope_search_c.specs.Pending.{AdvancesPending, BeginsPattern, CancelsPending, CopiesPending, CopiesWindow, CountsPending, TellsPending};

use crate::handles::{CLOSED, Handle};
use crate::matches::Span;
use std::alloc::Global;

/// Makes a pattern pending in the chosen buffer, as `Session::begin_pattern` does.
#[unsafe(no_mangle)]
pub extern "C" fn rope_search_begin_pattern(
    alloc: Global,
    handle: &mut Handle,
    pattern: &[u8],
) -> u32
    ensures { LeadsHandle handle.old.held result handle.new.held (λ old new.
        BeginsPattern old pattern.now result new) }
{
    let Some(session) = handle.take(alloc) else {
        return CLOSED;
    };
    let mut session = session;
    let status = session.begin_pattern(pattern);
    *handle = Handle::of(session);
    status
}

/// Searches up to `max_lines` further lines for the pending pattern, as `Session::advance` does,
/// and writes whether all lines are done, which is false if this is refused.
#[unsafe(no_mangle)]
pub extern "C" fn rope_search_advance(
    alloc: Global,
    handle: &mut Handle,
    max_lines: usize,
    done: &mut bool,
) -> u32
    ensures told { LeadsHandle handle.old.held result handle.new.held (λ old new.
        AdvancesPending old max_lines result done.new new) }
    ensures closed { handle.old.held ≡ None → done.new ≡ done.old }
{
    let Some(session) = handle.take(alloc) else {
        return CLOSED;
    };
    let mut session = session;
    let status = session.advance(max_lines, done);
    *handle = Handle::of(session);
    status
}

/// Drops the pending pattern, as `Session::cancel` does.
#[unsafe(no_mangle)]
pub extern "C" fn rope_search_cancel(alloc: Global, handle: &mut Handle) -> u32
    ensures { LeadsHandle handle.old.held result handle.new.held (λ old new.
        CancelsPending old result new) }
{
    let Some(session) = handle.take(alloc) else {
        return CLOSED;
    };
    let mut session = session;
    let status = session.cancel();
    *handle = Handle::of(session);
    status
}

/// Writes how many lines are searched for the pending pattern, and returns whether there is one;
/// false on a closed handle.
#[unsafe(no_mangle)]
pub extern "C" fn rope_search_pending(alloc: Global, handle: &mut Handle, lines: &mut usize) -> bool
    ensures same { handle.new.held ≡ handle.old.held }
    ensures told { MatchOption handle.old.held ((result ≡ false) × (lines.new ≡ lines.old))
        (λ old. TellsPending old result lines.old lines.new) }
{
    let Some(session) = handle.take(alloc) else {
        return false;
    };
    let found = session.pending(lines);
    *handle = Handle::of(session);
    found
}

/// Writes how many matches the pending rows `from` up to `to` have, as far as there are such rows.
#[unsafe(no_mangle)]
pub extern "C" fn rope_search_count_pending(
    alloc: Global,
    handle: &mut Handle,
    from: usize,
    to: usize,
    count: &mut usize,
) -> u32
    ensures same { handle.new.held ≡ handle.old.held }
    ensures told { MatchOption handle.old.held ((result ≡ 8) × (count.new ≡ count.old)) (λ old.
        CountsPending old from to result count.new) }
{
    let Some(session) = handle.take(alloc) else {
        return CLOSED;
    };
    let status = session.count_pending(from, to, count);
    *handle = Handle::of(session);
    status
}

/// Puts the matches of the pending rows `from` up to `to` at the front of `out`, as many as fit,
/// and writes how many they are. Of `out` nothing else is changed.
#[unsafe(no_mangle)]
pub extern "C" fn rope_search_copy_pending(
    alloc: Global,
    handle: &mut Handle,
    from: usize,
    to: usize,
    out: &mut [Span],
    count: &mut usize,
) -> u32
    ensures same { handle.new.held ≡ handle.old.held }
    ensures told { MatchOption handle.old.held
        ((result ≡ 8) × (count.new ≡ count.old) × (out.new ≡ out.old)) (λ old.
        CopiesPending old from to result count.new out.old out.new) }
{
    let Some(session) = handle.take(alloc) else {
        return CLOSED;
    };
    let status = session.copy_pending(from, to, out, count);
    *handle = Handle::of(session);
    status
}

/// Puts the matches of lines `from` up to `to` for the pending pattern at the front of `out`, as
/// many as fit, and writes how many they are. Of the lines that are not done each is searched, and
/// counted. Of `out` nothing else is changed.
#[unsafe(no_mangle)]
pub extern "C" fn rope_search_window(
    alloc: Global,
    handle: &mut Handle,
    from: usize,
    to: usize,
    out: &mut [Span],
    count: &mut usize,
) -> u32
    ensures told { LeadsHandle handle.old.held result handle.new.held (λ old new.
        CopiesWindow old from to result count.new out.old out.new new) }
    ensures closed { handle.old.held ≡ None → (count.new ≡ count.old) × (out.new ≡ out.old) }
{
    let Some(session) = handle.take(alloc) else {
        return CLOSED;
    };
    let mut session = session;
    let status = session.window(from, to, out, count);
    *handle = Handle::of(session);
    status
}
