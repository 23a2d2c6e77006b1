//! A text that arrives in parts, and is then set.
ghost use Rattle.std.specs.Prelude.{◌≡◌};
ghost use Rattle.rope_search_c.specs.Calls.{LeadsHandle};
ghost use Rattle.rope_search_c.specs.TextParts.{AppendsPart, CancelsText, EndsText, StartsText};

use crate::counting::{CountingSession, status_of};
use crate::handles::{CLOSED, Handle};
use rope_search::ArrivingText;
use std::alloc::Global;

/// What is answered if no text arrives: the rank of `Fault::Nothing`.
const NOTHING: u32 = 1;

impl CountingSession {
    /// Begins a text that arrives in parts, and drops any other that arrived.
    pub(crate) fn begin_text(&mut self, alloc: Global) -> u32
        ensures { StartsText self.old result self.new }
    {
        self.arriving = Some(ArrivingText::open(alloc));
        0
    }

    /// Adds the next bytes of the text that arrives. Returns 0; 1 if none does; otherwise why the
    /// text will be refused, as far as that is known.
    pub(crate) fn append_part(&mut self, part: &[u8]) -> u32
        ensures { AppendsPart self.old part.now result self.new }
    {
        let limit = self.session.limits().text;
        let Some(text) = &mut self.arriving else {
            return NOTHING;
        };
        text.append_within(part, limit);
        status_of(text.check())
    }

    /// Sets the chosen buffer's text to the one that arrived, as `Session::set_arrived` does.
    /// Returns 1 if none arrives. After this none does.
    pub(crate) fn end_text(&mut self) -> u32
        ensures { EndsText self.old result self.new }
    {
        let Some(text) = self.arriving.take() else {
            return NOTHING;
        };
        status_of(self.session.set_arrived(&mut self.lines, text))
    }

    /// Drops the text that arrives, if one does.
    pub(crate) fn cancel_text(&mut self) -> u32
        ensures { CancelsText self.old result self.new }
    {
        self.arriving = None;
        0
    }
}

/// Begins a text that arrives in parts, which `rope_search_append_part` adds. A text that arrived
/// before is dropped; that of the buffers stays.
#[unsafe(no_mangle)]
pub extern "C" fn rope_search_begin_text(alloc: Global, handle: &mut Handle) -> u32
    ensures { LeadsHandle handle.old.held result handle.new.held (λ old new.
        StartsText old result new) }
{
    let Some(session) = handle.take(alloc) else {
        return CLOSED;
    };
    let mut session = session;
    let status = session.begin_text(alloc);
    *handle = Handle::of(session);
    status
}

/// Adds the next bytes of the text that arrives; they may end inside a character. Returns 0; 1 if
/// no text arrives; otherwise why `rope_search_end_text` will refuse it, as far as that is known.
#[unsafe(no_mangle)]
pub extern "C" fn rope_search_append_part(alloc: Global, handle: &mut Handle, part: &[u8]) -> u32
    ensures { LeadsHandle handle.old.held result handle.new.held (λ old new.
        AppendsPart old part.now result new) }
{
    let Some(session) = handle.take(alloc) else {
        return CLOSED;
    };
    let mut session = session;
    let status = session.append_part(part);
    *handle = Handle::of(session);
    status
}

/// Sets the chosen buffer's text to the one that arrived, as `Command::Text` does; 1 if none
/// arrives. After this none does, whatever the result.
#[unsafe(no_mangle)]
pub extern "C" fn rope_search_end_text(alloc: Global, handle: &mut Handle) -> u32
    ensures { LeadsHandle handle.old.held result handle.new.held (λ old new.
        EndsText old result new) }
{
    let Some(session) = handle.take(alloc) else {
        return CLOSED;
    };
    let mut session = session;
    let status = session.end_text();
    *handle = Handle::of(session);
    status
}

/// Drops the text that arrives, if one does.
#[unsafe(no_mangle)]
pub extern "C" fn rope_search_cancel_text(alloc: Global, handle: &mut Handle) -> u32
    ensures { LeadsHandle handle.old.held result handle.new.held (λ old new.
        CancelsText old result new) }
{
    let Some(session) = handle.take(alloc) else {
        return CLOSED;
    };
    let mut session = session;
    let status = session.cancel_text();
    *handle = Handle::of(session);
    status
}
