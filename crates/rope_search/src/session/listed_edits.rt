//! Replacing the matches that the chosen buffer's report lists in some lines.
ghost use Rattle.std.specs.Prelude.{◌≡◌, ℕ, ◌+◌, ◌≤◌, ◌⊎◌, IsUtf8, chars, None, OnOk, OnErr};
ghost use Rattle.rope_search.specs.ListedReplacing.{KeepsListedOf, RowsOfListed, StepByListed, TellsListed};
ghost use Rattle.rope_search.specs.Session.{chosen_buffer};
ghost use Rattle.rope_search.specs.TextsKept.{ChangesChosen};

use super::Session;
use rope_search_io::Fault;
use rope_search_reports::Lines;
use simdutf8::compat::from_utf8;

impl Session {
    /// Replaces exactly the matches that the chosen buffer's report lists in the lines from the
    /// first up to, not including, the second, as `Buffer::replace_listed` does, and returns their
    /// number. One `Command::Undo` takes it back. The template's bytes need not be UTF-8.
    ///
    /// # Errors
    ///
    /// They leave the session as it was. `Fault::Nothing` without a pattern, else `Fault::Utf8` if
    /// the template isn't UTF-8, else `Fault::Size` if the new text would have more bytes than the
    /// limit; `Fault::Memory`.
    pub fn replace_listed(
        &mut self,
        tick: &mut Lines,
        from_line: usize,
        to_line: usize,
        template: &[u8],
    ) -> Result<usize, Fault>
        ensures step { StepByListed self.old.limit self.old.state from_line to_line template.now
            result self.new.state }
        ensures limit { self.new.limit ≡ self.old.limit }
        ensures changed { OnOk result (TellsListed self.old.state from_line to_line
            (chars template.now) self.new.state self.old.changed self.new.changed) }
        ensures texts { OnOk result (ChangesChosen
            (KeepsListedOf from_line to_line (chars template.now)) self.old self.new) }
        ensures err { OnErr result (self.new ≡ self.old) }

        // It makes no more rows than are counted for groups and for the expansions.
        ensures unsearched { ((chosen_buffer self.old.state).pattern ≡ None)
            ⊎ (¬ (IsUtf8 template.now)) → tick.new ≡ tick.old }
        ensures rows { (n : ℕ) → RowsOfListed (chosen_buffer self.old.state) from_line to_line
            (chars template.now) n → tick.new.count ≤ tick.old.count + n }
        ensures grows { tick.old.count ≤ tick.new.count }
        ensures wholes { tick.new.wholes ≡ tick.old.wholes }
    {
        // A law, for the proof alone.
        rope_search_reports::laws::line_replaced_is_text();
        let Ok(template) = from_utf8(template) else {
            return Err(self.buffer().nothing_or(Fault::Utf8));
        };
        self.buffers[self.chosen].replace_listed(tick, from_line, to_line, template)
    }
}
