//! The first matches of the chosen buffer's whole text that start at a position or after it.
ghost use Rattle.std.specs.Prelude.{◌≡◌};
ghost use Rattle.rope_search_reports.specs.Ticks.{SearchesOneWhole};
ghost use Rattle.rope_search.specs.Session.{chosen_buffer};
ghost use Rattle.rope_search.specs.TextMatches.{AnswersNextAll};

use super::Session;
use crate::text_matches::TextMatch;
use rope_search_io::Fault;
use rope_search_reports::{Lines, Position};

impl Session {
    /// Writes the first matches of the pattern in the chosen buffer's whole text that start at a
    /// position or after it to the start of `out`, as many as fit, and returns the number of
    /// matches that were written, as `Buffer::next_all` does. One search of a whole text is counted
    /// at most.
    ///
    /// # Errors
    ///
    /// They leave `out` as it was: those of `Command::Next`. The session is as it was, whatever is
    /// returned.
    pub fn next_all(
        &mut self,
        tick: &mut Lines,
        from: Position,
        out: &mut [TextMatch],
    ) -> Result<usize, Fault>
        ensures answer { AnswersNextAll (chosen_buffer self.old.state) from result
            out.old out.new }
        ensures same { self.new ≡ self.old }
        ensures searches { SearchesOneWhole tick.old tick.new }
    {
        self.buffers[self.chosen].next_all(tick, from, out)
    }
}
