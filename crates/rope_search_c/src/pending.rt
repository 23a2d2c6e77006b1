//! The pending pattern of the chosen buffer.
ghost use Rattle.std.specs.Prelude.{◌≡◌, ◌+◌, ◌^◌, ◌<◌, ◌++◌, length};
ghost use Rattle.rope_search_reports.specs.Report.{match_count};
ghost use Rattle.rope_search_c.specs.Pending.{AdvancesPending, BeginsPattern, CancelsPending, CopiesPending, CopiesWindow, CountsPending, PutsRows, TellsPending};
ghost use Rattle.rope_search_c.specs.Pending as pending;

use crate::counting::{CountingSession, status_of};
use crate::matches::Span;
use crate::reading::{count_matches, put_rows, rows_between};
use rope_search::{Fault, Row};

/// What is answered without a pending pattern: the rank of `Fault::Nothing`.
const NOTHING: u32 = 1;

/// Whether all lines are done; not if this is refused.
fn is_done(answer: Result<bool, Fault>) -> bool
    ensures { result ≡ pending.is_done answer }
{
    match answer {
        Ok(done) => done,
        Err(_) => false,
    }
}

/// Copies the matches of rows to a buffer's front, and those of further rows after them, as many as
/// fit, and returns the number of the matches. The first row is that of line `from`.
fn put_window(done: &[Row], made: &[Row], from: usize, out: &mut [Span]) -> usize
    requires few { match_count (done.now ++ made.now) < 2 ^ 64 }
    requires lines { from + length (done.now ++ made.now) < 2 ^ 64 }
    ensures { PutsRows from (done.now ++ made.now) result out.old out.new }
{
    let found = put_rows(done, from, out);
    let room = found.min(out.len());
    found + put_rows(made, from + done.len(), &mut out[room..])
}

impl CountingSession {
    /// Makes a pattern pending, as `Session::begin_pattern` does.
    pub(crate) fn begin_pattern(&mut self, pattern: &[u8]) -> u32
        ensures { BeginsPattern self.old pattern.now result self.new }
    {
        status_of(self.session.begin_pattern(pattern))
    }

    /// Searches up to `max_lines` further lines for it, as `Session::advance` does, and writes
    /// whether all lines are done.
    pub(crate) fn advance(&mut self, max_lines: usize, done: &mut bool) -> u32
        ensures { AdvancesPending self.old max_lines result done.new self.new }
    {
        let answer = self.session.advance(&mut self.lines, max_lines);
        *done = is_done(answer);
        status_of(answer)
    }

    /// Drops the pending pattern, if there is one.
    pub(crate) fn cancel(&mut self) -> u32
        ensures { CancelsPending self.old result self.new }
    {
        self.session.cancel();
        0
    }

    /// Writes how many lines are done, and returns whether a pattern is pending.
    pub(crate) fn pending(&self, lines: &mut usize) -> bool
        ensures { TellsPending self.now result lines.old lines.new }
    {
        match self.session.buffer().pending() {
            None => false,
            Some(rows) => {
                *lines = rows.len();
                true
            }
        }
    }

    /// Writes how many matches the pending rows `from` up to `to` have: 0, or 1 without a pending
    /// pattern.
    pub(crate) fn count_pending(&self, from: usize, to: usize, count: &mut usize) -> u32
        ensures { CountsPending self.now from to result count.new }
    {
        *count = 0;
        let Some(rows) = self.session.buffer().pending() else {
            return NOTHING;
        };
        *count = count_matches(rows_between(rows, from, to));
        0
    }

    /// Puts the matches of the pending rows `from` up to `to` at a buffer's front, as many as fit,
    /// and writes how many they are: 0, or 1 without a pending pattern.
    pub(crate) fn copy_pending(
        &self,
        from: usize,
        to: usize,
        out: &mut [Span],
        count: &mut usize,
    ) -> u32
        ensures { CopiesPending self.now from to result count.new out.old out.new }
    {
        *count = 0;
        let Some(rows) = self.session.buffer().pending() else {
            return NOTHING;
        };
        *count = put_rows(rows_between(rows, from, to), from, out);
        0
    }

    /// Puts the matches of lines `from` up to `to` for the pending pattern at a buffer's front, as
    /// many as fit, and writes how many they are: 0; 1 without a pending pattern, or 7 if memory is
    /// refused. Those of the lines that are not done are searched.
    pub(crate) fn window(
        &mut self,
        from: usize,
        to: usize,
        out: &mut [Span],
        count: &mut usize,
    ) -> u32
        ensures { CopiesWindow self.old from to result count.new out.old out.new self.new }
    {
        *count = 0;
        let made = match self.session.window(&mut self.lines, from, to) {
            Ok(made) => made,
            Err(fault) => return u32::from(fault.rank()),
        };
        // The text's facts, for the proof alone.
        let _ = self.text().len_lines();
        let Some(rows) = self.session.buffer().pending() else {
            return NOTHING;
        };
        *count = put_window(rows_between(rows, from, to), &made, from, out);
        0
    }
}
