//! The replacement of the matches that the chosen buffer's report lists in some lines.
ghost use Rattle.std.specs.Prelude.{◌≡◌, None};
ghost use Rattle.rope_search_c.specs.Calls.{LeadsHandle};
ghost use Rattle.rope_search_c.specs.ListedEdits.{ReplacesListed};
ghost use Rattle.rope_search_c.specs.ListedEdits as listed;

use crate::counting::{CountingSession, status_of};
use crate::handles::{CLOSED, Handle};
use rope_search::Fault;
use std::alloc::Global;

/// The number of the matches that were replaced, else 0.
pub(crate) fn count_of(answer: Result<usize, Fault>) -> usize
    ensures { result ≡ listed.count_of answer }
{
    match answer {
        Ok(count) => count,
        Err(_) => 0,
    }
}

impl CountingSession {
    /// Replaces the matches that are listed in the lines from one up to another by the template's
    /// expansions, as `Session::replace_listed` does.
    pub(crate) fn replace_listed(
        &mut self,
        from_line: usize,
        to_line: usize,
        template: &[u8],
        count: &mut usize,
    ) -> u32
        ensures { ReplacesListed self.old from_line to_line template.now result count.new self.new }
    {
        let answer = self
            .session
            .replace_listed(&mut self.lines, from_line, to_line, template);
        *count = count_of(answer);
        status_of(answer)
    }
}

/// Replaces the matches that the report lists in the lines from `from_line` up to, not including,
/// `to_line` by the template's expansions, as `Session::replace_listed` does. `count` is their
/// number, or 0 if the call is refused; it is written unless the handle is closed. It returns 1
/// without a pattern.
#[unsafe(no_mangle)]
pub extern "C" fn rope_search_replace_listed(
    alloc: Global,
    handle: &mut Handle,
    from_line: usize,
    to_line: usize,
    template: &[u8],
    count: &mut usize,
) -> u32
    ensures told { LeadsHandle handle.old.held result handle.new.held (λ old new.
        ReplacesListed old from_line to_line template.now result count.new new) }
    ensures closed { handle.old.held ≡ None → count.new ≡ count.old }
{
    let Some(session) = handle.take(alloc) else {
        return CLOSED;
    };
    let mut session = session;
    let status = session.replace_listed(from_line, to_line, template, count);
    *handle = Handle::of(session);
    status
}
