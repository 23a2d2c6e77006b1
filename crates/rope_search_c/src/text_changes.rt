//! The undo steps of the chosen buffer, and the replaced ranges of its text.
ghost use Rattle.std.specs.Prelude.{◌≡◌, MatchOption};
ghost use Rattle.rope_search.specs.Session.{chosen_buffer};
ghost use Rattle.rope_search.specs.UndoSteps.{redo_count, undo_count};
ghost use Rattle.rope_search_c.specs.Calls.{LeadsHandle};
ghost use Rattle.rope_search_c.specs.TextChanges.{CopiesRanges, JoinsLast, KeepsLast};

use crate::counting::{CountingSession, status_of};
use crate::handles::{CLOSED, Handle};
use rope_search::TextChange;
use std::alloc::Global;

impl CountingSession {
    pub(crate) fn keep(&mut self, steps: usize) -> u32
        ensures { KeepsLast self.old steps result self.new }
    {
        self.session.keep(steps);
        0
    }

    pub(crate) fn join(&mut self, steps: usize) -> u32
        ensures { JoinsLast self.old steps result self.new }
    {
        status_of(self.session.join(steps))
    }

    pub(crate) fn text_changes(&self, out: &mut [TextChange]) -> usize
        ensures { CopiesRanges self.now result out.old out.new }
    {
        self.session.text_changes(out)
    }
}

/// Drops all undo steps of the chosen buffer except the last `steps`, and the texts that could be
/// redone, as `Session::keep` does. Its text, pattern and report stay. It is never refused.
#[unsafe(no_mangle)]
pub extern "C" fn rope_search_keep(alloc: Global, handle: &mut Handle, steps: usize) -> u32
    ensures { LeadsHandle handle.old.held result handle.new.held (λ old new.
        KeepsLast old steps result new) }
{
    let Some(session) = handle.take(alloc) else {
        return CLOSED;
    };
    let mut session = session;
    let status = session.keep(steps);
    *handle = Handle::of(session);
    status
}

/// Joins the last `steps` undo steps of the chosen buffer into one, as `Session::join` does: drops
/// the `steps - 1` texts directly before the current one. Refused with `NONE` if there are fewer
/// steps; for two or more, with `MEMORY`.
#[unsafe(no_mangle)]
pub extern "C" fn rope_search_join(alloc: Global, handle: &mut Handle, steps: usize) -> u32
    ensures { LeadsHandle handle.old.held result handle.new.held (λ old new.
        JoinsLast old steps result new) }
{
    let Some(session) = handle.take(alloc) else {
        return CLOSED;
    };
    let mut session = session;
    let status = session.join(steps);
    *handle = Handle::of(session);
    status
}

/// Returns the number of texts to which `rope_search_undo` can go back; 0 on a closed handle.
#[unsafe(no_mangle)]
pub extern "C" fn rope_search_undo_steps(alloc: Global, handle: &mut Handle) -> usize
    ensures same { handle.new.held ≡ handle.old.held }
    ensures steps { MatchOption handle.old.held (result ≡ 0) (λ old.
        result ≡ undo_count (chosen_buffer old.session.state)) }
{
    let Some(session) = handle.take(alloc) else {
        return 0;
    };
    let steps = session.session.buffer().undo_steps();
    *handle = Handle::of(session);
    steps
}

/// Returns the number of texts to which `rope_search_redo` can go forward; 0 on a closed handle.
#[unsafe(no_mangle)]
pub extern "C" fn rope_search_redo_steps(alloc: Global, handle: &mut Handle) -> usize
    ensures same { handle.new.held ≡ handle.old.held }
    ensures steps { MatchOption handle.old.held (result ≡ 0) (λ old.
        result ≡ redo_count (chosen_buffer old.session.state)) }
{
    let Some(session) = handle.take(alloc) else {
        return 0;
    };
    let steps = session.session.buffer().redo_steps();
    *handle = Handle::of(session);
    steps
}

/// Copies the ranges in which the last accepted call on the chosen buffer replaced its text to the
/// start of `out`, as many as fit, as `Session::text_changes` returns them, and returns their
/// number; 0 on a closed handle. Nothing else of `out` changes.
#[unsafe(no_mangle)]
pub extern "C" fn rope_search_text_changes(
    alloc: Global,
    handle: &mut Handle,
    out: &mut [TextChange],
) -> usize
    ensures same { handle.new.held ≡ handle.old.held }
    ensures copied { MatchOption handle.old.held ((result ≡ 0) × (out.new ≡ out.old)) (λ old.
        CopiesRanges old result out.old out.new) }
{
    let Some(session) = handle.take(alloc) else {
        return 0;
    };
    let count = session.text_changes(out);
    *handle = Handle::of(session);
    count
}
