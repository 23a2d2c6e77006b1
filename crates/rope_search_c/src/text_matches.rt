//! The first matches in the chosen buffer's whole text that start at a position or after it.
ghost use Rattle.std.specs.Prelude.{◌≡◌, None};
ghost use Rattle.rope_search_c.specs.Calls.{LeadsHandle};
ghost use Rattle.rope_search_c.specs.TextMatches.{CopiesTextMatches};

use crate::counting::{CountingSession, status_of};
use crate::handles::{CLOSED, Handle};
use crate::listed_edits::count_of;
use rope_search::{Position, TextMatch};
use std::alloc::Global;

impl CountingSession {
    /// Writes the first matches in the whole text that start at a position or after it to the start
    /// of `out`, as many as fit, and their number to `count`, as `Session::next_all` does.
    pub(crate) fn next_all(
        &mut self,
        from: Position,
        out: &mut [TextMatch],
        count: &mut usize,
    ) -> u32
        ensures { CopiesTextMatches self.old from result count.new out.old out.new self.new }
    {
        let answer = self.session.next_all(&mut self.lines, from, out);
        *count = count_of(answer);
        status_of(answer)
    }
}

/// Writes the first matches in the chosen buffer's whole text that start at a position or after it
/// to the start of `out`, as many as fit, as `Session::next_all` does. Nothing else of `out`
/// changes. `count` is the number of matches that were written, or 0 if the call is refused; it is
/// written unless the handle is closed. It returns 1 without a pattern, 2 if the position is
/// nowhere, or 7 if out of memory; `out` is then unchanged.
#[unsafe(no_mangle)]
pub extern "C" fn rope_search_next_all(
    alloc: Global,
    handle: &mut Handle,
    from: Position,
    out: &mut [TextMatch],
    count: &mut usize,
) -> u32
    ensures told { LeadsHandle handle.old.held result handle.new.held (λ old new.
        CopiesTextMatches old from result count.new out.old out.new new) }
    ensures closed { handle.old.held ≡ None → (count.new ≡ count.old) × (out.new ≡ out.old) }
{
    let Some(session) = handle.take(alloc) else {
        return CLOSED;
    };
    let mut session = session;
    let status = session.next_all(from, out, count);
    *handle = Handle::of(session);
    status
}
