//! The calls for commands, one each. A call returns 0, or why the command is refused.
ghost use Rattle.std.specs.Prelude.{◌≡◌, ◌^◌, ◌≤◌, ◌↔◌, ◌⊎◌, None, MatchOption};
ghost use Rattle.rope_search.specs.declared.commands.CommandOf.TheVariants.{Text as SetText, Edit as EditText, Undo as UndoEdit, Redo as RedoEdit, Fork as ForkBuffer, Pattern as SetPattern, Off as DropPattern, Next as FindNext, Replace as ReplaceAll, Use as UseBuffer};
ghost use Rattle.rope_search.specs.Session.{opened_session};
ghost use Rattle.rope_search_c.specs.Calls.{DoesAndCounts, DoesOrder, DoesAndFinds, Forgets, LeadsHandle};
ghost use Rattle.rope_search_c.specs.Edits.{MakesEdits};

use crate::counting::CountingSession;
use crate::edits::TextEdit;
use crate::handles::{CLOSED, Handle};
use crate::matches::Match;
use rope_search::{CallerInC, Position};
use std::alloc::Global;

/// Opens a handle. Its session has one buffer, with an empty text and no pattern, and texts of at
/// most `limit` bytes; its counts begin at 0. Ends the session that the handle had, if any.
///
/// Returns 0; 6 for a limit above `isize::MAX`; 7 if out of memory. After 6 and 7 the handle is
/// unchanged.
#[unsafe(no_mangle)]
pub extern "C" fn rope_search_open(
    alloc: Global,
    caller: CallerInC,
    limit: usize,
    handle: &mut Handle,
) -> u32
    ensures ok { result ≡ 0 → MatchOption handle.new.held ⊥ (λ new.
        (new.session ≡ opened_session limit)
        × (new.lines.count ≡ 0) × (new.lines.wholes ≡ 0) × (new.arriving ≡ None)) }
    ensures size { (result ≡ 6) ↔ (2 ^ 63 ≤ limit) }
    ensures status { (result ≡ 0) ⊎ ((result ≡ 6) ⊎ (result ≡ 7)) }
    ensures refused { (result ≡ 0 → ⊥) → handle.new.held ≡ handle.old.held }
{
    match CountingSession::new(alloc, caller, limit) {
        Ok(session) => {
            *handle = Handle::of(session);
            0
        }
        Err(fault) => u32::from(fault.rank()),
    }
}

/// Closes a handle, and ends its session, if it has one.
#[unsafe(no_mangle)]
pub extern "C" fn rope_search_close(alloc: Global, handle: &mut Handle)
    ensures { handle.new.held ≡ None }
{
    *handle = Handle::closed(alloc);
}

/// Sets the chosen buffer's text, as `Command::Text` does.
#[unsafe(no_mangle)]
pub extern "C" fn rope_search_set_text(alloc: Global, handle: &mut Handle, text: &[u8]) -> u32
    ensures { LeadsHandle handle.old.held result handle.new.held (λ old new.
        DoesOrder old (SetText text.now) result new) }
{
    let Some(session) = handle.take(alloc) else {
        return CLOSED;
    };
    let mut session = session;
    let status = session.set_text(text);
    *handle = Handle::of(session);
    status
}

/// Replaces the text between two positions by these bytes, as `Command::Edit` does.
#[unsafe(no_mangle)]
pub extern "C" fn rope_search_edit(
    alloc: Global,
    handle: &mut Handle,
    from: Position,
    to: Position,
    text: &[u8],
) -> u32
    ensures { LeadsHandle handle.old.held result handle.new.held (λ old new.
        DoesOrder old (EditText from to text.now) result new) }
{
    let Some(session) = handle.take(alloc) else {
        return CLOSED;
    };
    let mut session = session;
    let status = session.edit(from, to, text);
    *handle = Handle::of(session);
    status
}

/// Makes several edits as one, as `Session::edit_all` does. `text` has their texts one after the
/// other, each with its number of bytes. If these don't add up to all of its bytes, returns 2, as
/// for edits that are nowhere.
#[unsafe(no_mangle)]
pub extern "C" fn rope_search_edit_all(
    alloc: Global,
    handle: &mut Handle,
    edits: &[TextEdit],
    text: &[u8],
) -> u32
    ensures { LeadsHandle handle.old.held result handle.new.held (λ old new.
        MakesEdits old edits.now text.now result new) }
{
    let Some(session) = handle.take(alloc) else {
        return CLOSED;
    };
    let mut session = session;
    let status = session.edit_all(alloc, edits, text);
    *handle = Handle::of(session);
    status
}

/// Goes one text back, as `Command::Undo` does.
#[unsafe(no_mangle)]
pub extern "C" fn rope_search_undo(alloc: Global, handle: &mut Handle) -> u32
    ensures { LeadsHandle handle.old.held result handle.new.held (λ old new.
        DoesOrder old UndoEdit result new) }
{
    let Some(session) = handle.take(alloc) else {
        return CLOSED;
    };
    let mut session = session;
    let status = session.undo();
    *handle = Handle::of(session);
    status
}

/// Goes one text forward, as `Command::Redo` does.
#[unsafe(no_mangle)]
pub extern "C" fn rope_search_redo(alloc: Global, handle: &mut Handle) -> u32
    ensures { LeadsHandle handle.old.held result handle.new.held (λ old new.
        DoesOrder old RedoEdit result new) }
{
    let Some(session) = handle.take(alloc) else {
        return CLOSED;
    };
    let mut session = session;
    let status = session.redo();
    *handle = Handle::of(session);
    status
}

/// Sets the chosen buffer's pattern, as `Command::Pattern` does.
#[unsafe(no_mangle)]
pub extern "C" fn rope_search_set_pattern(alloc: Global, handle: &mut Handle, pattern: &[u8]) -> u32
    ensures { LeadsHandle handle.old.held result handle.new.held (λ old new.
        DoesOrder old (SetPattern pattern.now) result new) }
{
    let Some(session) = handle.take(alloc) else {
        return CLOSED;
    };
    let mut session = session;
    let status = session.set_pattern(pattern);
    *handle = Handle::of(session);
    status
}

/// Drops the chosen buffer's pattern, as `Command::Off` does.
#[unsafe(no_mangle)]
pub extern "C" fn rope_search_off(alloc: Global, handle: &mut Handle) -> u32
    ensures { LeadsHandle handle.old.held result handle.new.held (λ old new.
        DoesOrder old DropPattern result new) }
{
    let Some(session) = handle.take(alloc) else {
        return CLOSED;
    };
    let mut session = session;
    let status = session.off();
    *handle = Handle::of(session);
    status
}

/// Finds the first match at a position or after it, as `Command::Next` does. `found` is written
/// unless the handle is closed.
#[unsafe(no_mangle)]
pub extern "C" fn rope_search_next(
    alloc: Global,
    handle: &mut Handle,
    from: Position,
    found: &mut Match,
) -> u32
    ensures told { LeadsHandle handle.old.held result handle.new.held (λ old new.
        DoesAndFinds old (FindNext from) result found.new new) }
    ensures closed { handle.old.held ≡ None → found.new ≡ found.old }
{
    let Some(held) = handle.take(alloc) else {
        return CLOSED;
    };
    let mut session = held;
    let status = session.next(from, found);
    *handle = Handle::of(session);
    status
}

/// Replaces all matches by the expansions of a template, as `Command::Replace` does, and writes
/// their number to `count`, or 0 if it is refused. `count` is written unless the handle is closed.
#[unsafe(no_mangle)]
pub extern "C" fn rope_search_replace(
    alloc: Global,
    handle: &mut Handle,
    template: &[u8],
    count: &mut usize,
) -> u32
    ensures told { LeadsHandle handle.old.held result handle.new.held (λ old new.
        DoesAndCounts old (ReplaceAll template.now) result count.new new) }
    ensures closed { handle.old.held ≡ None → count.new ≡ count.old }
{
    let Some(session) = handle.take(alloc) else {
        return CLOSED;
    };
    let mut session = session;
    let status = session.replace(template, count);
    *handle = Handle::of(session);
    status
}

/// Adds a buffer with the chosen one's text, as `Command::Fork` does, and writes its number to
/// `number`, or 0 if it is refused. `number` is written unless the handle is closed.
#[unsafe(no_mangle)]
pub extern "C" fn rope_search_fork(alloc: Global, handle: &mut Handle, number: &mut usize) -> u32
    ensures told { LeadsHandle handle.old.held result handle.new.held (λ old new.
        DoesAndCounts old ForkBuffer result number.new new) }
    ensures closed { handle.old.held ≡ None → number.new ≡ number.old }
{
    let Some(session) = handle.take(alloc) else {
        return CLOSED;
    };
    let mut session = session;
    let status = session.fork(number);
    *handle = Handle::of(session);
    status
}

/// Chooses a buffer by its number, as `Command::Use` does.
#[unsafe(no_mangle)]
pub extern "C" fn rope_search_choose(alloc: Global, handle: &mut Handle, number: u64) -> u32
    ensures { LeadsHandle handle.old.held result handle.new.held (λ old new.
        DoesOrder old (UseBuffer number) result new) }
{
    let Some(session) = handle.take(alloc) else {
        return CLOSED;
    };
    let mut session = session;
    let status = session.choose(number);
    *handle = Handle::of(session);
    status
}

/// Drops the chosen buffer's history, as `Session::forget` does. Its text, its pattern and its
/// report stay. It is never refused.
#[unsafe(no_mangle)]
pub extern "C" fn rope_search_forget(alloc: Global, handle: &mut Handle) -> u32
    ensures { LeadsHandle handle.old.held result handle.new.held
        (λ old new. Forgets old result new) }
{
    let Some(session) = handle.take(alloc) else {
        return CLOSED;
    };
    let mut session = session;
    let status = session.forget();
    *handle = Handle::of(session);
    status
}
