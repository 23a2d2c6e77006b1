//! The undo steps of a buffer.
ghost use Rattle.std.specs.Prelude.{◌≡◌, ◌+◌, ◌<◌, ◌≤◌, ◌↔◌, ◌⊎◌, [], ◌∷◌, length, None, Err, IsTrue, OnOk, OnErr, IfErr};
ghost use Rattle.rope_search_reports.specs.Text.{bytes_of};
ghost use Rattle.rope_search_reports.specs.Ticks.{MakesAtMost};
ghost use Rattle.rope_search_reports.specs.Turned.{turned_changes};
ghost use Rattle.rope_search.specs.Changed.{Replaces};
ghost use Rattle.rope_search.specs.Cost.{rows_anew};
ghost use Rattle.rope_search.specs.Histories.{changes_at, rows_back, rows_on};
ghost use Rattle.rope_search.specs.JoinedSteps.{JoinsChanges, with_joined};
ghost use Rattle.rope_search.specs.Pending.{KeepsPending};
ghost use Rattle.rope_search.specs.Session.{current_text, redone, undone, with_text};
ghost use Rattle.rope_search.specs.Stretches.{lines_spanned};
ghost use Rattle.rope_search.specs.TextsKept.{TellsBack, TellsForward, TellsText};
ghost use Rattle.rope_search.specs.UndoSteps.{changes_with_steps, redo_count, undo_count, with_steps};

use super::Buffer;
use super::pending::keep_before_change;
use crate::kept_rows::keep_before;
use crate::stretches::Stretch;
use rope_search_io::Fault;
use rope_search_reports::Lines;

impl Buffer {
    /// Goes back to the text before the last edit or replacement. The pattern stays, and of the
    /// report only the rows of the lines that come back are rebuilt.
    ///
    /// The rows that the last `replace` or `replace_listed` took out of the report are kept, unless
    /// it changed the number of lines, or they take as much memory as the text that they are of.
    /// The undo of that call puts them back and searches no line; under the same condition it keeps
    /// the rows of the newer text, for `redo`. Kept rows are dropped with the step, by each call
    /// that sets the pattern or drops it, by `set_text`, `keep` and `forget`, and by a `join` of
    /// several steps if their step is one of these or can be redone.
    ///
    /// # Errors
    ///
    /// They leave the buffer as it was: `Fault::Nothing` if there is no such text; with a pattern,
    /// `Fault::Memory`.
    ///
    /// # Complexity
    ///
    /// Without a pattern `O(1)`, and nothing is allocated. With one, `O(log n)` for each change,
    /// and linear in the lines that come back, or in their rows and matches if these are kept. If
    /// the number of lines changes, the rows after them are moved.
    pub fn undo(&mut self, tick: &mut Lines) -> Result<(), Fault>
        ensures ok { OnOk result (self.new.state ≡ undone self.old.state) }
        ensures changed { OnOk result (Replaces self.old.state self.new.state self.new.changed) }
        ensures added { OnOk result (self.new.changed.added ≤ lines_spanned
            (bytes_of (current_text (undone self.old.state)))
            (turned_changes 0 0 (changes_at self.old.changes self.old.state.current))) }
        ensures limit { self.new.limit ≡ self.old.limit }
        ensures changes { self.new.changes ≡ self.old.changes }
        ensures text_changes { OnOk result (TellsText self.old self.new) }
        ensures pending { OnOk result (KeepsPending self.old self.new) }
        ensures back_ranges { OnOk result (TellsBack self.old self.new) }
        ensures nothing { (result ≡ Err Fault.Nothing) ↔ (self.old.state.current ≡ 0) }
        ensures memory { result ≡ Err Fault.Memory → self.old.state.pattern ≡ None → ⊥ }
        ensures fault { IfErr result (λ fault.
            (fault ≡ Fault.Nothing) ⊎ (fault ≡ Fault.Memory)) }
        ensures err { OnErr result (self.new ≡ self.old) }

        // At most one row is made for each line that comes back, and never more than the text has
        // lines.
        ensures unsearched { result ≡ Err Fault.Nothing → tick.new ≡ tick.old }
        ensures back { tick.new.count ≤ tick.old.count + rows_back self.old }
        ensures rows { MakesAtMost
            (rows_anew self.old.state (current_text (undone self.old.state))) tick.old tick.new }
    {
        let Some(text) = self.history.previous() else {
            return Err(Fault::Nothing);
        };
        let Some(search) = &mut self.search else {
            self.history.step_back();
            self.changed = Stretch::none();
            keep_before_change(&mut self.pending, &self.history);
            return Ok(());
        };
        // A law, for the proof alone.
        rope_search_reports::laws::changes_lead_back();
        let current = self.history.current();
        let (alloc, step) = (self.alloc, self.history.undo_steps());
        let changes = self.history.last_changes().turned(alloc)?;
        let changes = changes.as_slice();
        self.changed = search.step_over(tick, alloc, &mut self.kept, step, current, text, changes)?;
        self.history.step_back();
        keep_before_change(&mut self.pending, &self.history);
        Ok(())
    }

    /// Goes forward to the text that was undone last.
    ///
    /// # Errors
    ///
    /// Those of `undo`.
    ///
    /// # Complexity
    ///
    /// That of `undo`.
    pub fn redo(&mut self, tick: &mut Lines) -> Result<(), Fault>
        ensures ok { OnOk result (self.new.state ≡ redone self.old.state) }
        ensures changed { OnOk result (Replaces self.old.state self.new.state self.new.changed) }
        ensures added { OnOk result (self.new.changed.added ≤ lines_spanned
            (bytes_of (current_text (redone self.old.state)))
            (changes_at self.old.changes (self.old.state.current + 1))) }
        ensures limit { self.new.limit ≡ self.old.limit }
        ensures changes { self.new.changes ≡ self.old.changes }
        ensures text_changes { OnOk result (TellsText self.old self.new) }
        ensures pending { OnOk result (KeepsPending self.old self.new) }
        ensures forward { OnOk result (TellsForward self.old self.new) }
        ensures nothing { (result ≡ Err Fault.Nothing)
            ↔ (length self.old.state.texts ≤ self.old.state.current + 1) }
        ensures memory { result ≡ Err Fault.Memory → self.old.state.pattern ≡ None → ⊥ }
        ensures fault { IfErr result (λ fault.
            (fault ≡ Fault.Nothing) ⊎ (fault ≡ Fault.Memory)) }
        ensures err { OnErr result (self.new ≡ self.old) }

        // At most one row is made for each line that comes back, and never more than the text has
        // lines.
        ensures unsearched { result ≡ Err Fault.Nothing → tick.new ≡ tick.old }
        ensures on { tick.new.count ≤ tick.old.count + rows_on self.old }
        ensures rows { MakesAtMost
            (rows_anew self.old.state (current_text (redone self.old.state))) tick.old tick.new }
    {
        let Some(version) = self.history.next() else {
            return Err(Fault::Nothing);
        };
        let Some(search) = &mut self.search else {
            self.history.step_forward();
            self.changed = Stretch::none();
            keep_before_change(&mut self.pending, &self.history);
            return Ok(());
        };
        let current = self.history.current();
        let (alloc, step) = (self.alloc, self.history.next_step());
        let changes = version.changes.as_slice();
        let next = &version.text;
        self.changed = search.step_over(tick, alloc, &mut self.kept, step, current, next, changes)?;
        self.history.step_forward();
        keep_before_change(&mut self.pending, &self.history);
        Ok(())
    }

    /// Returns whether `undo` can go back to a text. `O(1)`.
    pub fn can_undo(&self) -> bool
        ensures { IsTrue result ↔ (0 < self.now.state.current) }
    {
        self.history.previous().is_some()
    }

    /// Returns whether `redo` can go forward to a text. `O(1)`.
    pub fn can_redo(&self) -> bool
        ensures { IsTrue result ↔ (self.now.state.current + 1 < length self.now.state.texts) }
    {
        self.history.next().is_some()
    }

    /// Drops the history, as `keep(0)` does: all texts but the current one, and the changes between
    /// them. The current text, the pattern and its report stay.
    pub fn forget(&mut self)
        ensures state { self.new.state
            ≡ with_text self.old.state (current_text self.old.state) }
        ensures changes { self.new.changes ≡ [] ∷ [] }
        ensures changed { self.new.changed ≡ self.old.changed }
        ensures text_changes { self.new.text_changes ≡ self.old.text_changes }
        ensures pending { self.new.pending ≡ self.old.pending }
        ensures limit { self.new.limit ≡ self.old.limit }
    {
        // The text's facts, for the proof alone.
        let _ = self.text();
        self.keep(0);
    }

    /// Drops all but the last `steps` undo steps, and what could be redone. The current text, the
    /// pattern, its report and the result of `text_changes` stay. It is never refused: the list of
    /// texts moves to a smaller allocation if memory for it is granted, and otherwise keeps its
    /// own.
    ///
    /// # Complexity
    ///
    /// Linear in the number of texts.
    pub fn keep(&mut self, steps: usize)
        ensures state { self.new.state ≡ with_steps self.old.state steps }
        ensures changes { self.new.changes
            ≡ changes_with_steps self.old.changes self.old.state.current steps }
        ensures changed { self.new.changed ≡ self.old.changed }
        ensures text_changes { self.new.text_changes ≡ self.old.text_changes }
        ensures pending { self.new.pending ≡ self.old.pending }
        ensures limit { self.new.limit ≡ self.old.limit }
    {
        self.history.keep(self.alloc, steps);
        self.kept = None; // The steps have other numbers now.
    }

    /// Joins the last `steps` undo steps into one: the `steps - 1` texts directly before the
    /// current one leave the history, so that one `undo` goes back to the text before all of them.
    /// `join(0)` and `join(1)` change nothing. The current text, what can be redone, the pattern,
    /// its report and the results of `text_changes` and `changed` stay.
    ///
    /// The changes of the steps are composed: a byte that stays through all of them also stays in
    /// the joined step, and changes that touch become one. An `undo` or `redo` of the joined step
    /// rebuilds the rows of these changes, and `text_changes` then returns their ranges.
    ///
    /// # Errors
    ///
    /// They leave the buffer as it was: `Fault::Nothing` if there are fewer undo steps; for two
    /// steps or more, `Fault::Memory`.
    ///
    /// # Complexity
    ///
    /// Linear, for each step, in the changes of the steps; and linear in the texts that can be
    /// redone.
    pub fn join(&mut self, steps: usize) -> Result<(), Fault>
        ensures state { OnOk result (self.new.state ≡ with_joined self.old.state steps) }
        ensures changes { OnOk result (JoinsChanges self.old.changes self.old.state.current steps
            self.new.changes) }
        ensures changed { self.new.changed ≡ self.old.changed }
        ensures text_changes { self.new.text_changes ≡ self.old.text_changes }
        ensures pending { self.new.pending ≡ self.old.pending }
        ensures limit { self.new.limit ≡ self.old.limit }
        ensures nothing { (result ≡ Err Fault.Nothing) ↔ (undo_count self.old.state < steps) }
        ensures memory { result ≡ Err Fault.Memory → 2 ≤ steps }
        ensures fault { IfErr result (λ fault.
            (fault ≡ Fault.Nothing) ⊎ (fault ≡ Fault.Memory)) }
        ensures err { OnErr result (self.new ≡ self.old) }
    {
        if self.history.undo_steps() < steps {
            return Err(Fault::Nothing);
        }
        // The history's facts, for the proof alone.
        let _ = self.history.current();
        self.history.join(self.alloc, steps)?;
        if steps > 1 {
            keep_before(&mut self.kept, self.history.undo_steps());
        }
        Ok(())
    }

    /// Returns the number of texts to which `undo` can go back. `O(1)`.
    pub fn undo_steps(&self) -> usize
        ensures { result ≡ undo_count self.now.state }
    {
        self.history.undo_steps()
    }

    /// Returns the number of texts to which `redo` can go forward. `O(1)`.
    pub fn redo_steps(&self) -> usize
        ensures { result ≡ redo_count self.now.state }
    {
        self.history.redo_steps()
    }
}
