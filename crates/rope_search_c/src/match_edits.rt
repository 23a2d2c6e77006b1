//! The replacement of one match of the chosen buffer's report.
ghost use Rattle.std.specs.Prelude.{◌≡◌};
ghost use Rattle.rope_search_c.specs.Calls.{LeadsHandle};
ghost use Rattle.rope_search_c.specs.MatchEdits.{ReplacesOne};

use crate::counting::{CountingSession, status_of};
use crate::handles::{CLOSED, Handle};
use std::alloc::Global;

impl CountingSession {
    /// Replaces a match by the expansion of a template, as `Session::replace_match` does.
    pub(crate) fn replace_match(&mut self, line: usize, number: usize, template: &[u8]) -> u32
        ensures { ReplacesOne self.old line number template.now result self.new }
    {
        status_of(
            self.session
                .replace_match(&mut self.lines, line, number, template),
        )
    }
}

/// Replaces match `number`, from 0, in a line of the report by the expansion of a template, as
/// `Session::replace_match` does. Returns 1 without a pattern, and 2 if there is no such match.
#[unsafe(no_mangle)]
pub extern "C" fn rope_search_replace_match(
    alloc: Global,
    handle: &mut Handle,
    line: usize,
    number: usize,
    template: &[u8],
) -> u32
    ensures { LeadsHandle handle.old.held result handle.new.held (λ old new.
        ReplacesOne old line number template.now result new) }
{
    let Some(session) = handle.take(alloc) else {
        return CLOSED;
    };
    let mut session = session;
    let status = session.replace_match(line, number, template);
    *handle = Handle::of(session);
    status
}
