//! A session: numbered buffers, one of which is chosen.
ghost use Rattle.std.specs.Prelude.{◌≡◌, ◌+◌, ◌<◌, ◌≤◌, ◌↔◌, [], ◌∷◌, ◌++◌, List, ℕ, length, take, drop, map, slice_index_or, Bool, chars, Err, OnOk, OnErr, IfOk, IfErr, IsOk, None, Some, ◌⊎◌};
ghost use Rattle.rope_search.specs.Order.{SetText, EditText, UndoEdit, RedoEdit, SetPattern, DropPattern, ListMatches, FindNext, ReplaceAll};
ghost use Rattle.rope_search.specs.Session.{opened_session, chosen_in, fresh, fresh_buffer, current_text, chosen_buffer, with_text, with_pattern, with_chosen};
ghost use Rattle.rope_search_reports.specs.Pattern.{pattern_limit};
ghost use Rattle.rope_search.specs.Laws.{HasCurrent, AllHoldTexts};
ghost use Rattle.rope_search.specs.Step.{Step};
ghost use Rattle.rope_search_texts.specs.Arriving.{Arrives, ArrivesWithin};
ghost use Rattle.rope_search.specs.Stands.{ForOrders, StandsFor, kept_of};
ghost use Rattle.rope_search.specs.Cost.{Costs, SearchesFor};
ghost use Rattle.rope_search_reports.specs.Ticks.{MakesAtMost, NeverFall, SearchesOneWhole};
ghost use Rattle.rope_search.specs.Finding as finding;
ghost use Rattle.rope_search.specs.GroupsAt.{AnswersGroups, SearchesRow};
ghost use Rattle.rope_search.specs.MatchEdits.{AnswersEdit, SearchesForGroups};
ghost use Rattle.rope_search.specs.Stretches as stretches;
ghost use Rattle.rope_search.specs.Changed.{TellsRows, TellsAfter};
ghost use Rattle.rope_search.specs.TextsKept.{ChangesChosen, KeepsAfter, KeepsEditsOf, KeepsOf, KeepsSteps, MakesFew};
ghost use Rattle.rope_search.specs.UndoSteps.{undo_count, with_steps};
ghost use Rattle.rope_search.specs.JoinedSteps.{KeepsJoined, with_joined};
ghost use Rattle.rope_search.specs.Edits.{RefusesEdits, StepByEdits, TellsEdits, in_full, rows_of_edits};

mod listed_edits;
mod pending;
mod text_matches;

use crate::buffer::Buffer;
use crate::commands::{Command, Payload, Reply};
use crate::edits::Edit;
use crate::limits::Limits;
use crate::match_edits::MatchEdit;
use crate::stretches::Stretch;
use crate::text_changes::TextChange;
use rope_search_io::Fault;
use rope_search_reports::{Groups, Lines, Position};
use rope_search_texts::ArrivingText;
use simdutf8::compat::from_utf8;
use std::alloc::Global;
use std::marker::Model;

/// Buffers, numbered from 0, and the chosen one. All have the same limits.
pub struct Session {
    buffers: Vec<Buffer>,
    chosen: usize,
}

// Written out, so that no crate above has to prove again how the fields are dropped.
impl Drop for Session {
    fn drop(self) {
        let Session {
            buffers: _buffers,
            chosen: _chosen,
        } = self;
    }
}

impl Model for Session {
    ghost use Rattle.std.specs.Prelude.{◌≡◌, ◌<◌, All, map, vec_len};
    ghost use Rattle.rope_search.specs.Session.{LimitedSession, LimitedBuffer, limit_in};
    ghost use Rattle.rope_search.specs.Laws.{HoldsTexts};

    ghost Value = { LimitedSession };

    ghost view = { λ s. record {
      limit = limit_in s.buffers.items s.chosen;
      state = record {
        buffers = map (λ (b : LimitedBuffer). b.state) s.buffers.items;
        chosen = s.chosen;
      };
      changed = map (λ (b : LimitedBuffer). b.changed) s.buffers.items;
      buffers = s.buffers.items;
    } };

    ghost invariant = { λ s. (s.chosen < vec_len s.buffers)
        × (All (λ (b : LimitedBuffer). b.limit ≡ limit_in s.buffers.items s.chosen)
        s.buffers.items
        × All (λ (b : LimitedBuffer). HoldsTexts b.state) s.buffers.items) };
}

impl Session {
    /// Returns a session with one buffer, which is chosen and has an empty text and no pattern. All
    /// buffers allocate from `alloc` and keep within `limits`. `O(1)`.
    ///
    /// # Errors
    ///
    /// `Fault::Memory`.
    pub fn new(alloc: Global, limits: Limits) -> Result<Session, Fault>
        ensures ok { IfOk result (λ session. session ≡ opened_session limits.text) }
        ensures err { IfErr result (λ fault. fault ≡ Fault.Memory) }
    {
        let buffer = Buffer::new(alloc, limits)?;
        let mut buffers = Vec::new(alloc);
        buffers.push(buffer)?;
        Ok(Session { buffers, chosen: 0 })
    }

    /// Returns the chosen buffer. `O(1)`.
    pub fn buffer(&self) -> &Buffer
        ensures state { result.now.state ≡ chosen_buffer self.now.state }
        ensures limit { result.now.limit ≡ self.now.limit }
        ensures kept { result.now ≡ chosen_in self.now }
        ensures current { HasCurrent self.now.state }
        ensures texts { AllHoldTexts self.now.state }
    {
        let buffer = &self.buffers[self.chosen];
        // For its contract alone.
        let _ = buffer.text();
        buffer
    }

    /// Returns the number of buffers. `O(1)`.
    pub fn buffer_count(&self) -> usize
        ensures { result ≡ length self.now.state.buffers }
    {
        self.buffers.len()
    }

    /// Returns the number of the chosen buffer, from 0. `O(1)`.
    pub fn chosen(&self) -> usize
        ensures number { result ≡ self.now.state.chosen }
        ensures inside { result < length self.now.state.buffers }
    {
        self.chosen
    }

    /// Returns which rows of the chosen buffer's report were replaced by the last accepted command
    /// on that buffer, or by `edit_all`. `fork`, `next`, `list` and `print` replace none and don't
    /// count here. All rows before and after them are rows of the report before that call, so a
    /// painted window is correct again when these rows are repainted and those after them are
    /// moved. `O(1)`.
    pub fn changed(&self) -> Stretch
        ensures { result ≡
            slice_index_or self.now.changed self.now.state.chosen stretches.none }
    {
        self.buffers[self.chosen].changed()
    }

    /// Drops the chosen buffer's history, as `keep(0)` does. Its current text, its pattern and its
    /// report stay. No other buffer changes.
    pub fn forget(&mut self)
        ensures state { self.new.state ≡ with_chosen self.old.state
            (with_text (chosen_buffer self.old.state)
            (current_text (chosen_buffer self.old.state))) }
        ensures limit { self.new.limit ≡ self.old.limit }
        ensures changed { self.new.changed ≡ self.old.changed }
        ensures kept { ChangesChosen (KeepsSteps 0) self.old self.new }
    {
        self.buffers[self.chosen].forget();
    }

    /// Drops all but the last `steps` undo steps of the chosen buffer, and what could be redone.
    /// Its current text, its pattern, its report and the result of `text_changes` stay. No other
    /// buffer changes. It is never refused: the list of texts moves to a smaller allocation if
    /// memory for it is granted, and otherwise keeps its own.
    ///
    /// # Complexity
    ///
    /// Linear in the number of texts.
    pub fn keep(&mut self, steps: usize)
        ensures state { self.new.state ≡ with_chosen self.old.state
            (with_steps (chosen_buffer self.old.state) steps) }
        ensures limit { self.new.limit ≡ self.old.limit }
        ensures changed { self.new.changed ≡ self.old.changed }
        ensures kept { ChangesChosen (KeepsSteps steps) self.old self.new }
    {
        self.buffers[self.chosen].keep(steps);
    }

    /// Joins the last `steps` undo steps of the chosen buffer into one, as `Buffer::join` does: the
    /// `steps - 1` texts directly before the current one leave its history. Everything else in it
    /// stays, as do all other buffers. `join(0)` and `join(1)` change nothing.
    ///
    /// # Errors
    ///
    /// They leave the session as it was: `Fault::Nothing` if there are fewer undo steps; for two
    /// steps or more, `Fault::Memory`.
    pub fn join(&mut self, steps: usize) -> Result<(), Fault>
        ensures state { OnOk result (self.new.state ≡ with_chosen self.old.state
            (with_joined (chosen_buffer self.old.state) steps)) }
        ensures kept { OnOk result (ChangesChosen (KeepsJoined steps) self.old self.new) }
        ensures limit { self.new.limit ≡ self.old.limit }
        ensures changed { self.new.changed ≡ self.old.changed }
        ensures nothing { (result ≡ Err Fault.Nothing)
            ↔ (undo_count (chosen_buffer self.old.state) < steps) }
        ensures memory { result ≡ Err Fault.Memory → 2 ≤ steps }
        ensures fault { IfErr result (λ fault.
            (fault ≡ Fault.Nothing) ⊎ (fault ≡ Fault.Memory)) }
        ensures err { OnErr result (self.new ≡ self.old) }
    {
        self.buffers[self.chosen].join(steps)
    }

    /// Returns the number of ranges that the last accepted call which replaces the text replaced in
    /// the chosen buffer's text, and copies the first ranges to `out`, as many as fit, as
    /// `Buffer::text_changes` does.
    ///
    /// # Complexity
    ///
    /// Linear in the ranges that are copied.
    pub fn text_changes(&self, out: &mut [TextChange]) -> usize
        ensures state { (chosen_in self.now).state ≡ chosen_buffer self.now.state }
        ensures count { result ≡ length (chosen_in self.now).text_changes }
        ensures copied { out.new ≡ take (length out.old) (chosen_in self.now).text_changes
            ++ drop (length (chosen_in self.now).text_changes) out.old }
    {
        self.buffer().text_changes(out)
    }

    /// Returns the allocator that the session was created with.
    pub(crate) fn alloc(&self) -> Global {
        self.buffer().alloc()
    }

    /// Returns the limits that the session was created with. `O(1)`.
    pub fn limits(&self) -> Limits
        ensures { result.text ≡ self.now.limit }
    {
        self.buffer().limits()
    }

    /// Chooses a buffer by its number, from 0. `O(1)`.
    ///
    /// # Errors
    ///
    /// They leave the session as it was: `Fault::Nothing` if there is no such buffer.
    pub fn choose(&mut self, number: u64) -> Result<(), Fault>
        ensures found { IsOk result ↔ (number < length self.old.state.buffers) }
        ensures ok { OnOk result (self.new ≡ record self.old {
          limit = self.old.limit;
          state = record self.old.state { chosen = number };
        }) }
        ensures fault { IfErr result (λ fault. fault ≡ Fault.Nothing) }
        ensures err { OnErr result (self.new ≡ self.old) }
    {
        if number >= self.buffers.len() as u64 {
            return Err(Fault::Nothing);
        }
        self.chosen = number as usize;
        Ok(())
    }

    /// Adds a buffer with the chosen one's text and no pattern, and returns its number, which is
    /// the number of buffers before. The chosen buffer stays chosen. The text is shared: `O(1)`,
    /// except that the list of buffers may be moved when it grows.
    ///
    /// # Errors
    ///
    /// They leave the session as it was: `Fault::Memory`.
    pub fn fork(&mut self) -> Result<usize, Fault>
        ensures number { IfOk result (λ number. number ≡ length self.old.state.buffers) }
        ensures ok { OnOk result (self.new ≡ record {
          limit = self.old.limit;
          state = record self.old.state {
            buffers = self.old.state.buffers
                ++ fresh (current_text (chosen_buffer self.old.state)) ∷ [];
          };
          changed = self.old.changed ++ stretches.none ∷ [];
          buffers = self.old.buffers ++ fresh_buffer (chosen_in self.old).limit
              (current_text (chosen_in self.old).state) ∷ [];
        }) }
        ensures fault { IfErr result (λ fault. fault ≡ Fault.Memory) }
        ensures err { OnErr result (self.new ≡ self.old) }
    {
        let buffer = self.buffers[self.chosen].fork()?;
        let number = self.buffers.len();
        self.buffers.push(buffer)?;
        Ok(number)
    }

    /// Executes a command on the chosen buffer and returns the reply.
    ///
    /// # Errors
    ///
    /// They leave the session as it was: of all faults that apply, the first in the order of
    /// `Fault::rank`, unless `Fault::Memory` occurs before it is found.
    ///
    /// # Complexity
    ///
    /// For a text of n bytes:
    ///
    /// - `Text`, `Pattern`: linear in the payload; with a pattern, the whole text is searched, line
    ///   by line.
    /// - `Edit`: linear in the payload, and `O(log n)`; with a pattern, the lines that it touches
    ///   are searched, at most as many as the payload has.
    /// - `Replace`: one search of the whole text; linear in the matches and their expansions, whose
    ///   lines are searched.
    /// - `Undo`, `Redo`: `O(1)`; with a pattern, as for the edit or replacement, of what comes
    ///   back.
    /// - `Next`: a search of the text up to the match.
    /// - `Off`: linear in the report, which it drops.
    /// - All others: `O(1)`, but see `fork`.
    ///
    /// If the number of lines changes under a pattern, the rows after them are moved. `tick` counts
    /// each line and each whole text that is searched.
    pub fn apply(&mut self, tick: &mut Lines, command: Command<'_>) -> Result<Reply, Fault>
        // The reply and the new state are a step, for each command that this one represents.
        ensures step { ForOrders self.old.limit command.entry (λ order.
            Step self.old.limit self.old.state order result self.new.state) }

        // `Fault::Memory` is returned if the payload was lost, and never because it is too long.
        ensures lost { kept_of command.entry ≡ Some Payload.Lost → result ≡ Err Fault.Memory }
        ensures long { (utf8 : Bool) → kept_of command.entry ≡ Some (Payload.Long utf8)
            → result ≡ Err Fault.Memory → ⊥ }

        ensures limit { self.new.limit ≡ self.old.limit }

        // It searches no more than the command costs.
        ensures searches { ForOrders self.old.limit command.entry (λ order.
            SearchesFor self.old.limit self.old.state order tick.old tick.new) }

        // The chosen buffer returns which rows of its report were replaced.
        ensures changed { ForOrders self.old.limit command.entry (λ order.
            TellsAfter self.old.state order result self.new.state
            self.old.changed self.new.changed) }

        // It keeps the changes that led to its text, and returns the ranges that were replaced.
        ensures kept { ForOrders self.old.limit command.entry (λ order.
            KeepsAfter self.old order result self.new) }

        // Undo and redo search no more lines than come back.
        ensures few { ForOrders self.old.limit command.entry (λ order.
            MakesFew (chosen_in self.old) order tick.old tick.new) }
    {
        match command {
            Command::Text(payload) => self.set_text(tick, payload),
            Command::Edit(from, to, payload) => self.edit(tick, from, to, payload),
            Command::Undo => self.undo(tick),
            Command::Redo => self.redo(tick),
            Command::Print => Ok(Reply::Print),
            Command::Fork => {
                let number = self.fork()?;
                Ok(Reply::Number(number))
            }
            Command::Pattern(payload) => self.set_pattern(tick, payload),
            Command::Off => Ok(self.drop_pattern()),
            Command::List => self.list(),
            Command::Next(from) => self.find_next(tick, from),
            Command::Replace(payload) => self.replace(tick, payload),
            Command::Use(number) => {
                self.choose(number)?;
                Ok(Reply::Done)
            }
        }
    }

    /// Sets the chosen buffer's text to one that arrived whole, as `Command::Text` does to one that
    /// was kept as bytes. The text's limit is the session's, as `limits` returns it, whether `new`
    /// or `open` of `ArrivingText` began it.
    ///
    /// # Errors
    ///
    /// They leave the session as it was: those of `ArrivingText::finish`; `Fault::Memory`.
    pub fn set_arrived(&mut self, tick: &mut Lines, text: ArrivingText) -> Result<Reply, Fault>
        // The reply and the new state are a step, for the bytes that arrived.
        ensures step { (bytes : List ℕ) → ArrivesWithin self.old.limit text bytes
            → Step self.old.limit self.old.state (SetText bytes) result self.new.state }

        // `Fault::Memory` is returned if the text was lost, and never because it is too long.
        ensures lost { text ≡ ArrivingText.Lost → result ≡ Err Fault.Memory }
        ensures long { (bytes : List ℕ) → Arrives self.old.limit (length bytes) text bytes
            → self.old.limit < length bytes → result ≡ Err Fault.Memory → ⊥ }

        ensures limit { self.new.limit ≡ self.old.limit }

        // It searches no more than the command costs.
        ensures searches { (bytes : List ℕ) → ArrivesWithin self.old.limit text bytes
            → SearchesFor self.old.limit self.old.state (SetText bytes) tick.old tick.new }

        // The chosen buffer returns which rows of its report were replaced.
        ensures changed { (bytes : List ℕ) → ArrivesWithin self.old.limit text bytes
            → TellsAfter self.old.state (SetText bytes) result self.new.state
            self.old.changed self.new.changed }

        // It keeps no changes, and returns the range that was replaced.
        ensures kept { (bytes : List ℕ) → ArrivesWithin self.old.limit text bytes
            → KeepsAfter self.old (SetText bytes) result self.new }
    {
        let rope = text.finish()?;
        // For the proof: the text's facts.
        let _ = rope.len_bytes();
        self.buffers[self.chosen].set_rope(tick, rope)?;
        Ok(Reply::Done)
    }

    /// Applies several edits to the chosen buffer as one, as `Buffer::edit_all` does: all of them
    /// or none, all in terms of the text before any of them. One `Command::Undo` takes them back.
    ///
    /// # Errors
    ///
    /// They leave the session as it was: of `Fault::Range`, `Fault::Utf8` and `Fault::Size` the
    /// first that applies, unless `Fault::Memory` occurs before it is found.
    pub fn edit_all(&mut self, tick: &mut Lines, edits: &[Edit<'_>]) -> Result<(), Fault>
        ensures step { StepByEdits self.old.limit self.old.state (map in_full edits.now) result
            self.new.state }
        ensures limit { self.new.limit ≡ self.old.limit }
        ensures changed { OnOk result (TellsEdits self.old.state (map in_full edits.now)
            self.new.state self.old.changed self.new.changed) }
        ensures kept { OnErr result (self.new.changed ≡ self.old.changed) }
        ensures texts { OnOk result
            (ChangesChosen (KeepsEditsOf (map in_full edits.now)) self.old self.new) }
        ensures still { OnErr result (self.new.buffers ≡ self.old.buffers) }

        // It searches no more lines than the edits have, and none if they are refused.
        ensures unsearched { (fault : Fault) → RefusesEdits self.old.limit
            (current_text (chosen_buffer self.old.state)) (map in_full edits.now) fault
            → tick.new ≡ tick.old }
        ensures rows { MakesAtMost
            (rows_of_edits (chosen_buffer self.old.state) (map in_full edits.now))
            tick.old tick.new }
    {
        // A law, for the proof alone.
        rope_search_templates::laws::substituted_is_text();
        self.buffers[self.chosen].edit_all(tick, edits)
    }

    /// Returns the groups 0 to 9 of a match of the chosen buffer's report, by its line and its
    /// number in that row, from 0, as `Buffer::groups_at` does. That line alone is searched. One
    /// row is counted whatever the result, if the report has that row.
    ///
    /// # Errors
    ///
    /// They leave the session as it was: `Fault::Nothing` without a pattern, else `Fault::Range` if
    /// there is no such line, or no such match in it; `Fault::Memory`.
    pub fn groups_at(
        &mut self,
        tick: &mut Lines,
        line: usize,
        number: usize,
    ) -> Result<Groups, Fault>
        ensures answer { AnswersGroups (chosen_buffer self.old.state) line number result }
        ensures same { self.new ≡ self.old }
        ensures searches { SearchesRow (chosen_buffer self.old.state) line tick.old tick.new }
    {
        self.buffers[self.chosen].groups_at(tick, line, number)
    }

    /// Returns the edit that replaces a match of the chosen buffer's report by a template's
    /// expansion, as `Buffer::match_edit` does. The session is as it was, whatever the result.
    pub(crate) fn match_edit(
        &mut self,
        tick: &mut Lines,
        line: usize,
        number: usize,
        template: &str,
    ) -> Result<MatchEdit, Fault>
        ensures answer { AnswersEdit self.old.limit (chosen_buffer self.old.state) line number
            (chars template.now) result }
        ensures same { self.new ≡ self.old }
        ensures searches { SearchesForGroups (chosen_buffer self.old.state) line number
            (chars template.now) tick.old tick.new }
    {
        self.buffers[self.chosen].match_edit(tick, line, number, template)
    }

    // Sets the chosen buffer's text to the payload.
    fn set_text(&mut self, tick: &mut Lines, payload: Payload<'_>) -> Result<Reply, Fault>
        ensures step { (bytes : List ℕ) → StandsFor self.old.limit payload.entry bytes
            → Step self.old.limit self.old.state (SetText bytes) result self.new.state }
        ensures lost { payload.entry ≡ Payload.Lost → result ≡ Err Fault.Memory }
        ensures long { (utf8 : Bool) → payload.entry ≡ Payload.Long utf8
            → result ≡ Err Fault.Memory → ⊥ }
        ensures limit { self.new.limit ≡ self.old.limit }
        ensures rows { (bytes : List ℕ) (cost : ℕ) → StandsFor self.old.limit payload.entry bytes
            → Costs self.old.limit self.old.state (SetText bytes) cost
            → tick.new.count ≤ tick.old.count + cost }
        ensures wholes { tick.new.wholes ≡ tick.old.wholes }
        ensures never_fall { NeverFall tick.old tick.new }
        ensures changed { OnOk result ((bytes : List ℕ)
            → StandsFor self.old.limit payload.entry bytes
            → TellsRows self.old.state (SetText bytes) self.new.state
            self.old.changed self.new.changed) }
        ensures kept { OnErr result (self.new.changed ≡ self.old.changed) }
        ensures texts { OnOk result ((bytes : List ℕ)
            → StandsFor self.old.limit payload.entry bytes
            → ChangesChosen (KeepsOf (SetText bytes)) self.old self.new) }
        ensures still { OnErr result (self.new.buffers ≡ self.old.buffers) }
    {
        match payload {
            Payload::Kept(bytes) => match from_utf8(bytes) {
                Ok(text) => {
                    self.buffers[self.chosen].set_text(tick, text)?;
                    Ok(Reply::Done)
                }
                Err(_) => Err(Fault::Utf8),
            },
            Payload::Long { utf8: true } => Err(Fault::Size),
            Payload::Long { utf8: false } => Err(Fault::Utf8),
            Payload::Lost => Err(Fault::Memory),
        }
    }

    // Replaces the chosen buffer's text between two positions by the payload.
    fn edit(
        &mut self,
        tick: &mut Lines,
        from: Position,
        to: Position,
        payload: Payload<'_>,
    ) -> Result<Reply, Fault>
        ensures step { (bytes : List ℕ) → StandsFor self.old.limit payload.entry bytes
            → Step self.old.limit self.old.state (EditText from to bytes) result self.new.state }
        ensures lost { payload.entry ≡ Payload.Lost → result ≡ Err Fault.Memory }
        ensures long { (utf8 : Bool) → payload.entry ≡ Payload.Long utf8
            → result ≡ Err Fault.Memory → ⊥ }
        ensures limit { self.new.limit ≡ self.old.limit }
        ensures rows { (bytes : List ℕ) (cost : ℕ) → StandsFor self.old.limit payload.entry bytes
            → Costs self.old.limit self.old.state (EditText from to bytes) cost
            → tick.new.count ≤ tick.old.count + cost }
        ensures wholes { tick.new.wholes ≡ tick.old.wholes }
        ensures never_fall { NeverFall tick.old tick.new }
        ensures changed { OnOk result ((bytes : List ℕ)
            → StandsFor self.old.limit payload.entry bytes
            → TellsRows self.old.state (EditText from to bytes) self.new.state
            self.old.changed self.new.changed) }
        ensures kept { OnErr result (self.new.changed ≡ self.old.changed) }
        ensures texts { OnOk result ((bytes : List ℕ)
            → StandsFor self.old.limit payload.entry bytes
            → ChangesChosen (KeepsOf (EditText from to bytes)) self.old self.new) }
        ensures still { OnErr result (self.new.buffers ≡ self.old.buffers) }
    {
        match payload {
            Payload::Kept(bytes) => match from_utf8(bytes) {
                Ok(text) => {
                    self.buffers[self.chosen].edit(tick, from, to, text)?;
                    Ok(Reply::Done)
                }
                Err(_) => Err(self.buffer().range_or(from, to, Fault::Utf8)),
            },
            Payload::Long { utf8: true } => Err(self.buffer().range_or(from, to, Fault::Size)),
            Payload::Long { utf8: false } => Err(self.buffer().range_or(from, to, Fault::Utf8)),
            Payload::Lost => Err(Fault::Memory),
        }
    }

    // Takes the chosen buffer one text back.
    fn undo(&mut self, tick: &mut Lines) -> Result<Reply, Fault>
        ensures step { Step self.old.limit self.old.state UndoEdit result self.new.state }
        ensures limit { self.new.limit ≡ self.old.limit }
        ensures rows { (cost : ℕ) → Costs self.old.limit self.old.state UndoEdit cost
            → tick.new.count ≤ tick.old.count + cost }
        ensures wholes { tick.new.wholes ≡ tick.old.wholes }
        ensures never_fall { NeverFall tick.old tick.new }
        ensures changed { OnOk result (TellsRows self.old.state UndoEdit self.new.state
            self.old.changed self.new.changed) }
        ensures kept { OnErr result (self.new.changed ≡ self.old.changed) }
        ensures texts { OnOk result (ChangesChosen (KeepsOf UndoEdit) self.old self.new) }
        ensures few { MakesFew (chosen_in self.old) UndoEdit tick.old tick.new }
        ensures still { OnErr result (self.new.buffers ≡ self.old.buffers) }
    {
        self.buffers[self.chosen].undo(tick)?;
        Ok(Reply::Done)
    }

    // Takes the chosen buffer one text forward.
    fn redo(&mut self, tick: &mut Lines) -> Result<Reply, Fault>
        ensures step { Step self.old.limit self.old.state RedoEdit result self.new.state }
        ensures limit { self.new.limit ≡ self.old.limit }
        ensures rows { (cost : ℕ) → Costs self.old.limit self.old.state RedoEdit cost
            → tick.new.count ≤ tick.old.count + cost }
        ensures wholes { tick.new.wholes ≡ tick.old.wholes }
        ensures never_fall { NeverFall tick.old tick.new }
        ensures changed { OnOk result (TellsRows self.old.state RedoEdit self.new.state
            self.old.changed self.new.changed) }
        ensures kept { OnErr result (self.new.changed ≡ self.old.changed) }
        ensures texts { OnOk result (ChangesChosen (KeepsOf RedoEdit) self.old self.new) }
        ensures few { MakesFew (chosen_in self.old) RedoEdit tick.old tick.new }
        ensures still { OnErr result (self.new.buffers ≡ self.old.buffers) }
    {
        self.buffers[self.chosen].redo(tick)?;
        Ok(Reply::Done)
    }

    // Sets the chosen buffer's pattern to the payload.
    fn set_pattern(&mut self, tick: &mut Lines, payload: Payload<'_>) -> Result<Reply, Fault>
        ensures step { (bytes : List ℕ) → StandsFor pattern_limit payload.entry bytes
            → Step self.old.limit self.old.state (SetPattern bytes) result self.new.state }
        ensures lost { payload.entry ≡ Payload.Lost → result ≡ Err Fault.Memory }
        ensures long { (utf8 : Bool) → payload.entry ≡ Payload.Long utf8
            → result ≡ Err Fault.Memory → ⊥ }
        ensures limit { self.new.limit ≡ self.old.limit }
        ensures rows { (bytes : List ℕ) (cost : ℕ) → StandsFor pattern_limit payload.entry bytes
            → Costs self.old.limit self.old.state (SetPattern bytes) cost
            → tick.new.count ≤ tick.old.count + cost }
        ensures wholes { tick.new.wholes ≡ tick.old.wholes }
        ensures never_fall { NeverFall tick.old tick.new }
        ensures changed { OnOk result ((bytes : List ℕ)
            → StandsFor pattern_limit payload.entry bytes
            → TellsRows self.old.state (SetPattern bytes) self.new.state
            self.old.changed self.new.changed) }
        ensures kept { OnErr result (self.new.changed ≡ self.old.changed) }
        ensures texts { OnOk result ((bytes : List ℕ)
            → StandsFor pattern_limit payload.entry bytes
            → ChangesChosen (KeepsOf (SetPattern bytes)) self.old self.new) }
        ensures still { OnErr result (self.new.buffers ≡ self.old.buffers) }
    {
        // A law, for the proof alone.
        rope_search_reports::laws::one_of_three();
        match payload {
            Payload::Kept(bytes) => match from_utf8(bytes) {
                Ok(pattern) => {
                    self.buffers[self.chosen].set_pattern(tick, pattern)?;
                    Ok(Reply::Done)
                }
                Err(_) => Err(Fault::Utf8),
            },
            Payload::Long { utf8: true } => Err(Fault::Limit),
            Payload::Long { utf8: false } => Err(Fault::Utf8),
            Payload::Lost => Err(Fault::Memory),
        }
    }

    // Drops the chosen buffer's pattern.
    fn drop_pattern(&mut self) -> Reply
        ensures reply { result ≡ Reply.Done }
        ensures state { self.new.state ≡ with_chosen self.old.state
            (with_pattern (chosen_buffer self.old.state) None) }
        ensures limit { self.new.limit ≡ self.old.limit }
        ensures changed { TellsRows self.old.state DropPattern self.new.state
            self.old.changed self.new.changed }
        ensures texts { ChangesChosen (KeepsOf DropPattern) self.old self.new }
    {
        self.buffers[self.chosen].off();
        Reply::Done
    }

    // Returns that the chosen buffer's report is to be shown, if it has one.
    fn list(&self) -> Result<Reply, Fault>
        ensures { Step self.now.limit self.now.state ListMatches result self.now.state }
    {
        match self.buffer().report() {
            None => Err(Fault::Nothing),
            Some(_) => Ok(Reply::List),
        }
    }

    // Returns the first match in the chosen buffer's text at or after a position.
    fn find_next(&mut self, tick: &mut Lines, from: Position) -> Result<Reply, Fault>
        ensures step { Step self.old.limit self.old.state (FindNext from) result self.new.state }
        ensures limit { self.new.limit ≡ self.old.limit }
        ensures searches { SearchesOneWhole tick.old tick.new }
        ensures kept { self.new.changed ≡ self.old.changed }
        ensures still { self.new.buffers ≡ self.old.buffers }
    {
        let found = self.buffers[self.chosen].next_from(tick, from)?;
        Ok(reply_for(found))
    }

    // Replaces each match in the chosen buffer's text by the expansion of the payload.
    fn replace(&mut self, tick: &mut Lines, payload: Payload<'_>) -> Result<Reply, Fault>
        ensures step { (bytes : List ℕ) → StandsFor self.old.limit payload.entry bytes
            → Step self.old.limit self.old.state (ReplaceAll bytes) result self.new.state }
        ensures lost { payload.entry ≡ Payload.Lost → result ≡ Err Fault.Memory }
        ensures long { (utf8 : Bool) → payload.entry ≡ Payload.Long utf8
            → result ≡ Err Fault.Memory → ⊥ }
        ensures limit { self.new.limit ≡ self.old.limit }
        ensures rows { (bytes : List ℕ) (cost : ℕ) → StandsFor self.old.limit payload.entry bytes
            → Costs self.old.limit self.old.state (ReplaceAll bytes) cost
            → tick.new.count ≤ tick.old.count + cost }
        ensures wholes { tick.new.wholes ≤ tick.old.wholes + 1 }
        ensures never_fall { NeverFall tick.old tick.new }
        ensures changed { OnOk result ((bytes : List ℕ)
            → StandsFor self.old.limit payload.entry bytes
            → TellsRows self.old.state (ReplaceAll bytes) self.new.state
            self.old.changed self.new.changed) }
        ensures kept { OnErr result (self.new.changed ≡ self.old.changed) }
        ensures texts { OnOk result ((bytes : List ℕ)
            → StandsFor self.old.limit payload.entry bytes
            → ChangesChosen (KeepsOf (ReplaceAll bytes)) self.old self.new) }
        ensures still { OnErr result (self.new.buffers ≡ self.old.buffers) }
    {
        // A law, for the proof alone.
        rope_search_reports::laws::replaced_is_text();
        match payload {
            Payload::Kept(bytes) => match from_utf8(bytes) {
                Ok(template) => {
                    let number = self.buffers[self.chosen].replace(tick, template)?;
                    Ok(Reply::Number(number))
                }
                Err(_) => Err(self.buffer().nothing_or(Fault::Utf8)),
            },
            Payload::Long { utf8: true } => Err(self.buffer().nothing_or(Fault::Size)),
            Payload::Long { utf8: false } => Err(self.buffer().nothing_or(Fault::Utf8)),
            Payload::Lost => Err(Fault::Memory),
        }
    }
}

/// Returns the reply with the positions of a match, or that there is none.
fn reply_for(found: Option<(Position, Position)>) -> Reply
    ensures { result ≡ finding.reply_for found }
{
    match found {
        Some((start, end)) => Reply::Found(start, end),
        None => Reply::NoMatch,
    }
}
