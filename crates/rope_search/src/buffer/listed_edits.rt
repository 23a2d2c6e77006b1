//! Replacing the matches that a buffer's report lists in some lines.
ghost use Rattle.std.specs.Prelude.{◌≡◌, ℕ, ◌+◌, ◌≤◌, ◌↔◌, ◌⊎◌, chars, Err, None, OnOk, OnErr, IfOk, IfErr};
ghost use Rattle.rope_search.specs.Changed.{Replaces};
ghost use Rattle.rope_search.specs.ListedReplacing.{GetsTooLongListed, IsListedReplacement, KeepsListed, RowsOfListed, SpansListed};
ghost use Rattle.rope_search.specs.Pending.{KeepsPending};
ghost use Rattle.rope_search.specs.TextsKept.{TellsText};

use super::Buffer;
use super::pending::keep_before_change;
use rope_search_io::Fault;
use rope_search_reports::Lines;

impl Buffer {
    /// Replaces exactly the matches that the report lists in the lines from the first up to, not
    /// including, the second, each by the template's expansion with the groups that the search of
    /// its line finds, and returns their number. Lines past the last one, and a first line that is
    /// not before the second, have no matches. In a template `$` and a digit are the text of that
    /// group, as for `replace`. It is one undo step, also if there is no match, and what could be
    /// redone is dropped.
    ///
    /// A template that names no group, or `$0` alone, searches no line again; else each line with a
    /// match is searched once more, and one row is counted for it. Then at most as many rows are
    /// counted as the expansions have lines, which are the breaks of each plus one.
    ///
    /// # Errors
    ///
    /// They leave the buffer as it was. `Fault::Nothing` without a pattern, else `Fault::Size` if
    /// the new text would have more bytes than the limit; `Fault::Memory`.
    ///
    /// # Complexity
    ///
    /// Linear in the rows of these lines, their matches, the expansions, and the lines that these
    /// touch; if the number of lines changes, or there are many matches, also in the text. `O(log
    /// n)` for each line with a match, and for each match in one that is not ASCII. With a group,
    /// the search of these lines: linear in them, times the pattern's weight.
    pub fn replace_listed(
        &mut self,
        tick: &mut Lines,
        from_line: usize,
        to_line: usize,
        template: &str,
    ) -> Result<usize, Fault>
        ensures ok { IfOk result (λ count. IsListedReplacement self.old.state from_line to_line
            (chars template.now) count self.new.state) }
        ensures kept { OnOk result
            (KeepsListed self.old from_line to_line (chars template.now) self.new) }
        ensures text_changes { OnOk result (TellsText self.old self.new) }
        ensures pending { OnOk result (KeepsPending self.old self.new) }
        ensures changed { OnOk result (Replaces self.old.state self.new.state self.new.changed) }
        ensures added { OnOk result (SpansListed self.old.state from_line to_line
            (chars template.now) self.new.state self.new.changed) }
        ensures limit { self.new.limit ≡ self.old.limit }
        ensures nothing { (result ≡ Err Fault.Nothing) ↔ (self.old.state.pattern ≡ None) }
        ensures size { result ≡ Err Fault.Size → GetsTooLongListed self.old.limit self.old.state
            from_line to_line (chars template.now) }
        ensures fits { OnOk result (GetsTooLongListed self.old.limit self.old.state
            from_line to_line (chars template.now) → ⊥) }
        ensures fault { IfErr result (λ fault.
            (fault ≡ Fault.Nothing) ⊎ ((fault ≡ Fault.Size) ⊎ (fault ≡ Fault.Memory))) }
        ensures err { OnErr result (self.new ≡ self.old) }

        // Beside the rows for groups it makes, for each match, at most as many as its expansion has
        // lines.
        ensures nothing_unsearched { result ≡ Err Fault.Nothing → tick.new ≡ tick.old }
        ensures rows { (n : ℕ)
            → RowsOfListed self.old.state from_line to_line (chars template.now) n
            → tick.new.count ≤ tick.old.count + n }
        ensures grows { tick.old.count ≤ tick.new.count }
        ensures wholes { tick.new.wholes ≡ tick.old.wholes }
    {
        let Some(search) = &mut self.search else {
            return Err(Fault::Nothing);
        };
        let (alloc, limits) = (self.alloc, self.limits);
        let old = self.history.current();
        let bytes = old.len_bytes();
        // All that may be refused comes before the first change.
        let replaced = search.replaced_listed(
            tick, alloc, limits, old, from_line, to_line, template,
        )?;
        self.history.add(replaced.text, replaced.changes)?;
        self.changed = replaced.patches.changed;
        // Laws, for the proof alone.
        rope_search_reports::laws::a_row_a_line();
        rope_search_reports::laws::one_report();
        let step = self.history.undo_steps();
        self.kept = search.apply_and_keep(replaced.patches, step, bytes);
        keep_before_change(&mut self.pending, &self.history);
        Ok(replaced.count)
    }
}
