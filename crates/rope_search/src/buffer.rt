//! A buffer: a text with its history, and perhaps a pattern, and one that is pending.
ghost use Rattle.std.specs.Prelude.{◌≡◌, ℕ, ◌+◌, ◌^◌, ◌<◌, ◌≤◌, ◌↔◌, ◌⊎◌, [], ◌∷◌, ◌++◌, take, drop, length, map, chars, None, Some, Err, OnOk, OnErr, IfOk, IfErr, IfSome};
ghost use Rattle.ropey.specs.Chunks.{text_of};
ghost use Rattle.std.specs.Str.{IsCharBoundary};
ghost use Rattle.rope_search_reports.specs.Text.{bytes_of, line_count};
ghost use Rattle.rope_search_reports.specs.Report.{match_count};
ghost use Rattle.rope_search.specs.Session.{current_text, fresh_buffer, with_text, redone, with_pattern, IsReportIn};
ghost use Rattle.rope_search.specs.Places.{HasNoneBetween, GetsTooLong, TellsRangeOr, IsEdit, IsMarkedBetween, with_replaced};
ghost use Rattle.str_indices.specs.Text.{byte_len};
ghost use Rattle.rope_search_reports.specs.Pattern.{IsPattern, IsTooHeavy, SpellsNone, pattern_limit};
ghost use Rattle.rope_search_reports.specs.Position.{IsAt, IsNowhere, position};
ghost use Rattle.rope_search_reports.specs.Ticks.{MakesAsMany, MakesAtMost, NeverFall};
ghost use Rattle.rope_search.specs.Pending.{KeepsPending, patterned};
ghost use Rattle.rope_search.specs.Replacing.{IsReplacement, GetsTooLongWith, RowsOfReplacement};
ghost use Rattle.rope_search.specs.Cost.{rows_anew};
ghost use Rattle.rope_search.specs.Histories.{LeadOn, KeepsEdit, KeepsReplacement};
ghost use Rattle.rope_search.specs.Changed.{Replaces, SpansMatches};
ghost use Rattle.rope_search.specs.TextsKept.{TellsText, TellsAllText};
ghost use Rattle.rope_search.specs.Edits.{AcceptsEdits, AreEdits, IsFirstAgainst, KeepsEdits, RefusesEdits, SpansEdits, in_full, rows_of_edits};

mod listed_edits;
mod pending;
mod searches;
mod undo_steps;

use self::pending::keep_before_change;
use crate::edits::{Edit, edited};
use crate::history::History;
use crate::kept_rows::{KeptRows, keep_before};
use crate::limits::Limits;
use crate::parts::Part;
use crate::search::{Search, row_count};
use crate::stretches::Stretch;
use crate::text_changes::{TextChange, put_ranges};
use rope_search_io::Fault;
use rope_search_reports::{Changes, Finder, Lines, Position, Row, byte_of, position_of, report_of};
use rope_search_templates::Replacement;
use ropey::Rope;
use std::alloc::Global;
use std::marker::Model;

/// A text with its history, and a limit on its number of bytes. If a pattern is set, also the
/// report of its matches. A fork shares the memory of the text.
#[derive(Drop)]
pub struct Buffer {
    alloc: Global,
    limits: Limits,
    history: History,
    search: Option<Search>,
    // The pattern that is to replace that one, with the rows of the first lines.
    pending: Option<Search>,
    // The rows that the last replacement of matches took out of the report.
    kept: Option<KeptRows>,
    // Which rows of the report were replaced last.
    changed: Stretch,
}

impl Model for Buffer {
    ghost use Rattle.std.specs.Prelude.{◌+◌, ◌^◌, ◌<◌, option_map, IfSome};
    ghost use Rattle.rope_search.specs.Session.{LimitedBuffer};
    ghost use Rattle.rope_search.specs.Histories.{text_at};
    ghost use Rattle.rope_search.specs.KeptRows.{HoldsKept};
    ghost use Rattle.rope_search.specs.Searched.{HoldsPending, shown_pending};
    ghost use Rattle.rope_search.specs.TextChanges.{ranges_in};
    ghost use Rattle.rope_search_reports.specs.Report.{IsReport, match_count};

    ghost Value = { LimitedBuffer };

    ghost view = { λ b. record {
      limit = b.limits.text;
      state = record {
        texts = b.history.texts;
        current = b.history.current;
        pattern = option_map (λ s. s.finder) b.search;
      };
      changes = b.history.changes;
      changed = b.changed;
      text_changes = ranges_in b.history.is_back b.history.last;
      pending = shown_pending b.pending;
    } };

    ghost invariant = { λ b. IfSome b.search (λ s.
        IsReport (text_at b.history.texts b.history.current) s.finder s.rows.items
        × (match_count s.rows.items < 2 ^ 64))
        × HoldsPending (text_at b.history.texts b.history.current) b.pending
        × HoldsKept b.history.texts b.history.current (option_map (λ s. s.finder) b.search)
        b.kept };
}

impl Buffer {
    /// Returns a buffer with an empty text and no pattern.
    ///
    /// # Errors
    ///
    /// `Fault::Memory`.
    pub fn new(alloc: Global, limits: Limits) -> Result<Buffer, Fault>
        ensures ok { IfOk result (λ buffer. buffer ≡ fresh_buffer limits.text []) }
        ensures err { IfErr result (λ fault. fault ≡ Fault.Memory) }
    {
        let history = History::new(alloc, Rope::new(alloc))?;
        Ok(Buffer {
            alloc,
            limits,
            history,
            search: None,
            pending: None,
            kept: None,
            changed: Stretch::none(),
        })
    }

    /// Returns the allocator that the buffer was created with.
    pub(crate) fn alloc(&self) -> Global {
        self.alloc
    }

    /// Returns the limits that the buffer was created with.
    pub(crate) fn limits(&self) -> Limits
        ensures { result.text ≡ self.now.limit }
    {
        self.limits
    }

    /// Returns the current text. `O(1)`.
    pub fn text(&self) -> &Rope
        ensures text { text_of result.now ≡ current_text self.now.state }
        ensures current { self.now.state.current < length self.now.state.texts }

        // The recorded changes lead from each text of the history to the next.
        ensures led { LeadOn self.now.state.texts self.now.changes }
    {
        self.history.current()
    }

    /// Returns which rows of the report were replaced by the last accepted call of `set_text`,
    /// `edit`, `edit_all`, `undo`, `redo`, `set_pattern`, `off` and `replace`. All rows before and
    /// after them are rows of the report before that call. `O(1)`.
    pub fn changed(&self) -> Stretch
        ensures { result ≡ self.now.changed }
    {
        self.changed
    }

    /// Replaces the text and starts a new history. The pattern stays, and its report is rebuilt.
    ///
    /// # Errors
    ///
    /// They leave the buffer as it was: `Fault::Size` if the text has more bytes than the limit;
    /// `Fault::Memory`.
    pub fn set_text(&mut self, tick: &mut Lines, text: &str) -> Result<(), Fault>
        ensures ok { OnOk result (self.new.state ≡ with_text self.old.state (chars text.now)) }
        ensures changes { OnOk result (self.new.changes ≡ [] ∷ []) }
        ensures changed { OnOk result (Replaces self.old.state self.new.state self.new.changed) }
        ensures text_changes { OnOk result (TellsText self.old self.new) }
        ensures whole { OnOk result (TellsAllText self.old self.new) }
        ensures pending { OnOk result (KeepsPending self.old self.new) }
        ensures limit { self.new.limit ≡ self.old.limit }
        ensures size { (result ≡ Err Fault.Size) ↔ (self.old.limit < length text.now) }
        ensures fault { IfErr result (λ fault. (fault ≡ Fault.Size) ⊎ (fault ≡ Fault.Memory)) }
        ensures err { OnErr result (self.new ≡ self.old) }

        // A new report has a row for each line, and each is counted; a text that is too long is not
        // searched.
        ensures unsearched { result ≡ Err Fault.Size → tick.new ≡ tick.old }
        ensures rows { MakesAtMost (rows_anew self.old.state (chars text.now)) tick.old tick.new }
        ensures each { OnOk result
            (MakesAsMany (rows_anew self.old.state (chars text.now)) tick.old tick.new) }
    {
        if self.limits.text < text.len() {
            return Err(Fault::Size);
        }
        // A text that is refused is not copied.
        let Ok(text) = Rope::from_str(self.alloc, text) else {
            return Err(Fault::Memory);
        };
        self.set_rope(tick, text)
    }

    /// Replaces the text by that of a rope, as `set_text` does, under any limit. The only error is
    /// `Fault::Memory`, which leaves the buffer as it was.
    pub(crate) fn set_rope(&mut self, tick: &mut Lines, text: Rope) -> Result<(), Fault>
        ensures ok { OnOk result (self.new.state ≡ with_text self.old.state (text_of text)) }
        ensures changes { OnOk result (self.new.changes ≡ [] ∷ []) }
        ensures changed { OnOk result (Replaces self.old.state self.new.state self.new.changed) }
        ensures text_changes { OnOk result (TellsText self.old self.new) }
        ensures whole { OnOk result (TellsAllText self.old self.new) }
        ensures pending { OnOk result (KeepsPending self.old self.new) }
        ensures limit { self.new.limit ≡ self.old.limit }
        ensures fault { IfErr result (λ fault. fault ≡ Fault.Memory) }
        ensures err { OnErr result (self.new ≡ self.old) }
        ensures rows { MakesAtMost (rows_anew self.old.state (text_of text)) tick.old tick.new }
        ensures each { OnOk result
            (MakesAsMany (rows_anew self.old.state (text_of text)) tick.old tick.new) }
    {
        let history = History::replacing(self.alloc, self.history.current(), text)?;
        // A law, for the proof alone.
        rope_search_reports::laws::a_row_a_line();
        let removed = row_count(&self.search, self.history.current());
        let added = row_count(&self.search, history.current());
        if let Some(search) = &mut self.search {
            search.rows = report_of(tick, self.alloc, &mut search.finder, history.current())?;
        }
        self.history = history;
        self.kept = None;
        self.changed = Stretch::whole(removed, added);
        keep_before_change(&mut self.pending, &self.history);
        Ok(())
    }

    /// Replaces the text between two positions. The pattern stays, and of the report only the rows
    /// of the lines that the edit touches are rebuilt. What could be redone is dropped.
    ///
    /// # Errors
    ///
    /// They leave the buffer as it was: `Fault::Range` if a position is nowhere in the text, or the
    /// second is before the first; else `Fault::Size` if the new text would have more bytes than
    /// the limit; `Fault::Memory`.
    ///
    /// # Complexity
    ///
    /// `O(log n)`, and linear in the inserted text and in the lines that are touched. If the number
    /// of lines changes, the rows after them are moved. If the line is in one chunk before and
    /// after the edit, the tree is descended twice, or four times under a pattern.
    pub fn edit(
        &mut self,
        tick: &mut Lines,
        from: Position,
        to: Position,
        inserted: &str,
    ) -> Result<(), Fault>
        ensures ok { OnOk result
            (IsEdit self.old.state from to (chars inserted.now) self.new.state) }
        ensures kept { OnOk result (KeepsEdit self.old from to (chars inserted.now) self.new) }
        ensures text_changes { OnOk result (TellsText self.old self.new) }
        ensures pending { OnOk result (KeepsPending self.old self.new) }
        ensures changed { OnOk result (Replaces self.old.state self.new.state self.new.changed) }
        ensures added { OnOk result
            (self.new.changed.added ≤ rows_anew self.old.state (chars inserted.now)) }
        ensures limit { self.new.limit ≡ self.old.limit }
        ensures range { (result ≡ Err Fault.Range)
            ↔ HasNoneBetween (current_text self.old.state) from to }
        ensures size { (result ≡ Err Fault.Size)
            ↔ GetsTooLong self.old.limit (current_text self.old.state) from to
            (length inserted.now) }
        ensures fault { IfErr result (λ fault.
            (fault ≡ Fault.Range) ⊎ ((fault ≡ Fault.Size) ⊎ (fault ≡ Fault.Memory))) }
        ensures err { OnErr result (self.new ≡ self.old) }

        // At most one row is made for each line of the inserted text.
        ensures range_unsearched { result ≡ Err Fault.Range → tick.new ≡ tick.old }
        ensures size_unsearched { result ≡ Err Fault.Size → tick.new ≡ tick.old }
        ensures rows { MakesAtMost (rows_anew self.old.state (chars inserted.now))
            tick.old tick.new }
    {
        let part = self.part_to_replace(from, to, inserted)?;
        let old = self.history.current();
        let new = part.replaced(old, inserted)?;
        let change = part.change(inserted);
        // A law, and the text's facts, for the proof alone.
        rope_search_reports::laws::changes_put_lines();
        let _ = new.len_bytes();
        let Some(search) = &mut self.search else {
            self.history.add(new, Changes::One(change))?;
            self.changed = Stretch::none();
            keep_before_change(&mut self.pending, &self.history);
            return Ok(());
        };
        // Everything that can be refused comes before the first change.
        let patches = search.patches(tick, self.alloc, old, &new, &[change])?;
        self.history.add(new, Changes::One(change))?;
        self.changed = patches.changed;
        search.apply(patches);
        keep_before(&mut self.kept, self.history.undo_steps());
        keep_before_change(&mut self.pending, &self.history);
        Ok(())
    }

    /// Applies several edits as one: all of them or none. Each replaces the text between two
    /// positions, which are those of the text before any of the edits. The edits are in ascending
    /// order. Two may touch; texts inserted at one position stay in the order given. The pattern
    /// stays, and of the report only the rows of the lines that the edits touch are rebuilt. What
    /// could be redone is dropped, even if there are no edits. One `undo` takes all of them back.
    ///
    /// # Errors
    ///
    /// They leave the buffer as it was: `Fault::Range` if a position is nowhere in the text, the
    /// second position of an edit is before its first, or an edit starts before the end of the
    /// previous one; else `Fault::Utf8` if the bytes of one aren't UTF-8; else `Fault::Size` if the
    /// new text would have more bytes than the limit. `Fault::Memory` may replace any of these.
    ///
    /// # Complexity
    ///
    /// `O(log n)` for each edit, and linear in the inserted texts and in the lines that are
    /// touched. If the number of lines changes, the rows after the first of them are moved.
    pub fn edit_all(&mut self, tick: &mut Lines, edits: &[Edit<'_>]) -> Result<(), Fault>
        ensures ok { OnOk result
            (AreEdits self.old.state (map in_full edits.now) self.new.state) }
        ensures accepted { OnOk result
            (AcceptsEdits self.old.limit (current_text self.old.state) (map in_full edits.now)) }
        ensures kept { OnOk result (KeepsEdits self.old (map in_full edits.now) self.new) }
        ensures text_changes { OnOk result (TellsText self.old self.new) }
        ensures pending { OnOk result (KeepsPending self.old self.new) }
        ensures changed { OnOk result (Replaces self.old.state self.new.state self.new.changed) }
        ensures added { OnOk result (SpansEdits self.old.state (map in_full edits.now)
            self.new.state self.new.changed) }
        ensures limit { self.new.limit ≡ self.old.limit }
        ensures fault { IfErr result (λ fault. (fault ≡ Fault.Memory)
            ⊎ IsFirstAgainst self.old.limit (current_text self.old.state)
            (map in_full edits.now) fault) }
        ensures err { OnErr result (self.new ≡ self.old) }

        // For each edit, at most one row is made for each line of its inserted text; none if the
        // edits are refused.
        ensures unsearched { (fault : Fault)
            → RefusesEdits self.old.limit (current_text self.old.state) (map in_full edits.now)
            fault → tick.new ≡ tick.old }
        ensures rows { MakesAtMost (rows_of_edits self.old.state (map in_full edits.now))
            tick.old tick.new }
    {
        let old = self.history.current();
        let Replacement { text, changes } = edited(self.alloc, self.limits, old, edits)?;
        let Some(search) = &mut self.search else {
            self.history.add(text, Changes::Many(changes))?;
            self.changed = Stretch::none();
            keep_before_change(&mut self.pending, &self.history);
            return Ok(());
        };
        // Everything that can be refused comes before the first change.
        let patches = search.patches(tick, self.alloc, old, &text, &changes)?;
        self.history.add(text, Changes::Many(changes))?;
        self.changed = patches.changed;
        search.apply(patches);
        keep_before(&mut self.kept, self.history.undo_steps());
        keep_before_change(&mut self.pending, &self.history);
        Ok(())
    }

    /// Returns the part between two positions of the current text, which another text can replace.
    /// It is refused as by `edit`.
    fn part_to_replace(&self, from: Position, to: Position, inserted: &str) -> Result<Part, Fault>
        ensures part { IfOk result (λ part.
            IsMarkedBetween (current_text self.now.state) from to part) }
        ensures fits { IfOk result (λ part.
            byte_len (with_replaced (current_text self.now.state) part (chars inserted.now))
            < 2 ^ 63) }
        ensures range { (result ≡ Err Fault.Range)
            ↔ HasNoneBetween (current_text self.now.state) from to }
        ensures size { (result ≡ Err Fault.Size)
            ↔ GetsTooLong self.now.limit (current_text self.now.state) from to
            (length inserted.now) }
        ensures fault { IfErr result (λ fault. (fault ≡ Fault.Range) ⊎ (fault ≡ Fault.Size)) }
    {
        // A law, for the proof alone.
        rope_search_reports::laws::one_place();
        let text = self.text();
        let Some(part) = Part::between(text, from, to) else {
            return Err(Fault::Range);
        };
        if part.is_over(self.limits.text, text, inserted) {
            return Err(Fault::Size);
        }
        Ok(part)
    }

    /// Returns `Fault::Range` if there is no part of the current text between the two positions,
    /// and else the other fault. Of the two, this is the one to report.
    pub(crate) fn range_or(&self, from: Position, to: Position, other: Fault) -> Fault
        ensures { TellsRangeOr (current_text self.now.state) from to other result }
    {
        match Part::between(self.text(), from, to) {
            None => Fault::Range,
            Some(_) => other,
        }
    }

    /// Returns the number of ranges that the last accepted call of `set_text`, `edit`, `edit_all`,
    /// `undo`, `redo` or `replace` replaced in the text, and copies the first ranges to `out`, as
    /// many as fit. The ranges are ascending, in bytes of the text before that call and of the
    /// current text; two may touch, and either side may be empty. The old text with each range
    /// replaced by the new text's range is the new text. An edit has one range, a replacement one
    /// for each match, and a new buffer none.
    ///
    /// # Complexity
    ///
    /// Linear in the ranges that are copied.
    pub fn text_changes(&self, out: &mut [TextChange]) -> usize
        ensures count { result ≡ length self.now.text_changes }
        ensures copied { out.new ≡ take (length out.old) self.now.text_changes
            ++ drop (length self.now.text_changes) out.old }
    {
        let changes = self.history.last();
        put_ranges(changes, self.history.is_back(), out);
        changes.len()
    }

    /// Returns the byte offset of a position in the current text. `O(log n)`.
    ///
    /// # Errors
    ///
    /// `Fault::Range` if the position is nowhere in the text.
    pub fn byte_of(&self, position: Position) -> Result<usize, Fault>
        ensures at { IfOk result (λ place.
            IsAt (current_text self.now.state) (position.line, position.column) place) }
        ensures range { IfErr result (λ fault.
            IsNowhere (current_text self.now.state) (position.line, position.column)) }
        ensures fault { IfErr result (λ fault. fault ≡ Fault.Range) }
    {
        match byte_of(self.text(), position) {
            Some(byte_idx) => Ok(byte_idx),
            None => Err(Fault::Range),
        }
    }

    /// Returns the position of a byte offset in the current text. Between the CR and the LF of a
    /// break, it is one past the end of the line's text. `O(log n)`.
    ///
    /// # Errors
    ///
    /// `Fault::Range` if the offset is neither the start of a character nor the text's length.
    pub fn position_of(&self, byte_idx: usize) -> Result<Position, Fault>
        ensures position { IfOk result (λ told.
            (told.line, told.column) ≡ position (current_text self.now.state) byte_idx) }
        ensures boundary { OnOk result
            (IsCharBoundary (bytes_of (current_text self.now.state)) byte_idx) }
        ensures range { (result ≡ Err Fault.Range)
            ↔ (IsCharBoundary (bytes_of (current_text self.now.state)) byte_idx → ⊥) }
        ensures fault { IfErr result (λ fault. fault ≡ Fault.Range) }
    {
        let text = self.text();
        // An offset is a boundary if an empty range at it cuts no character.
        if text.get_byte_slice(byte_idx..byte_idx).is_none() {
            return Err(Fault::Range);
        }
        Ok(position_of(text, byte_idx))
    }

    /// Sets the pattern, in place of any other, and makes its report.
    ///
    /// # Errors
    ///
    /// They leave the buffer as it was: `Fault::Limit` for more than 65,536 bytes; else
    /// `Fault::Pattern` if the text is not a pattern, and `Fault::Limit` if the pattern weighs more
    /// than 262,144; `Fault::Memory`, which never hides that a pattern is too long.
    pub fn set_pattern(&mut self, tick: &mut Lines, pattern: &str) -> Result<(), Fault>
        ensures ok { OnOk result
            (self.new.state ≡ with_pattern self.old.state (Some (chars pattern.now))) }
        ensures limit { self.new.limit ≡ self.old.limit }
        ensures changes { self.new.changes ≡ self.old.changes }
        ensures text_changes { self.new.text_changes ≡ self.old.text_changes }
        ensures changed { OnOk result (Replaces self.old.state self.new.state self.new.changed) }
        ensures all { OnOk result (self.new ≡ patterned self.old (chars pattern.now)) }
        ensures too_long { pattern_limit < length pattern.now → result ≡ Err Fault.Limit }
        ensures is_pattern { OnOk result (IsPattern (chars pattern.now)) }
        ensures too_much { result ≡ Err Fault.Limit
            → (pattern_limit < length pattern.now) ⊎ IsTooHeavy (chars pattern.now) }
        ensures no_pattern { result ≡ Err Fault.Pattern
            → (length pattern.now ≤ pattern_limit) × SpellsNone (chars pattern.now) }
        ensures fault { IfErr result (λ fault.
            (fault ≡ Fault.Limit) ⊎ ((fault ≡ Fault.Pattern) ⊎ (fault ≡ Fault.Memory))) }
        ensures err { OnErr result (self.new ≡ self.old) }

        // The report has a row for each line, and each is counted; nothing is searched if the text
        // is not a pattern.
        ensures limit_unsearched { result ≡ Err Fault.Limit → tick.new ≡ tick.old }
        ensures unsearched { (IsPattern (chars pattern.now) → ⊥) → tick.new ≡ tick.old }
        ensures rows { MakesAtMost (line_count (current_text self.old.state)) tick.old tick.new }
        ensures each { OnOk result
            (MakesAsMany (line_count (current_text self.old.state)) tick.old tick.new) }
    {
        let mut finder = Finder::new(self.alloc, pattern)?;
        let rows = report_of(tick, self.alloc, &mut finder, self.text())?;
        // A law, for the proof alone.
        rope_search_reports::laws::a_row_a_line();
        let text = self.history.current();
        self.changed = Stretch::whole(row_count(&self.search, text), text.len_lines());
        self.search = Some(Search { finder, rows });
        self.kept = None; // They are rows of the pattern before.
        self.pending = None;
        Ok(())
    }

    /// Drops the pattern and its report, if there is one.
    pub fn off(&mut self)
        ensures off { self.new.state ≡ with_pattern self.old.state None }
        ensures limit { self.new.limit ≡ self.old.limit }
        ensures changes { self.new.changes ≡ self.old.changes }
        ensures text_changes { self.new.text_changes ≡ self.old.text_changes }
        ensures pending { self.new.pending ≡ None }
        ensures changed { Replaces self.old.state self.new.state self.new.changed }
    {
        // A law, for the proof alone.
        rope_search_reports::laws::a_row_a_line();
        self.changed = Stretch::whole(row_count(&self.search, self.history.current()), 0);
        self.search = None;
        self.kept = None;
        self.pending = None;
    }

    /// Returns the report of the current text, or `None` without a pattern: a row for each line,
    /// from the first one, with the matches of the pattern in that line alone. `O(1)`.
    pub fn report(&self) -> Option<&[Row]>
        ensures rows { IfSome result (λ rows. IsReportIn self.now.state rows.now) }
        ensures none { (result ≡ None) ↔ (self.now.state.pattern ≡ None) }
        ensures few { IfSome result (λ rows. match_count rows.now < 2 ^ 64) }
    {
        match &self.search {
            None => None,
            Some(search) => Some(search.rows.as_slice()),
        }
    }

    /// Replaces each match of the pattern in the whole current text by the template's expansion,
    /// and returns the number of matches. In a template, `$` and a digit are the text of that
    /// group, which is empty if the group is absent or not in the pattern; `$$` is a dollar, and
    /// everything else is itself. Matches that start or end between the CR and the LF of a break
    /// are replaced too. The pattern stays, and of the report only the rows of the lines that are
    /// touched are rebuilt. What could be redone is dropped, even if there is no match.
    ///
    /// # Errors
    ///
    /// They leave the buffer as it was: `Fault::Nothing` without a pattern, else `Fault::Size` if
    /// the template or the new text has more bytes than the limit; `Fault::Memory`, which never
    /// hides that a template is too long.
    ///
    /// # Complexity
    ///
    /// At most one search of a whole text is counted. Time is that of this search, and linear in
    /// the matches, the expansions and the lines that they touch; if the number of lines changes,
    /// also in all lines.
    pub fn replace(&mut self, tick: &mut Lines, template: &str) -> Result<usize, Fault>
        ensures ok { IfOk result (λ count.
            IsReplacement self.old.state (chars template.now) count self.new.state) }
        ensures kept { OnOk result (KeepsReplacement self.old (chars template.now) self.new) }
        ensures text_changes { OnOk result (TellsText self.old self.new) }
        ensures pending { OnOk result (KeepsPending self.old self.new) }
        ensures changed { OnOk result (Replaces self.old.state self.new.state self.new.changed) }
        ensures added { OnOk result (SpansMatches self.old.state (chars template.now)
            self.new.state self.new.changed) }
        ensures limit { self.new.limit ≡ self.old.limit }
        ensures nothing { (result ≡ Err Fault.Nothing) ↔ (self.old.state.pattern ≡ None) }
        ensures too_long { (self.old.state.pattern ≡ None → ⊥) → self.old.limit < length template.now
            → result ≡ Err Fault.Size }
        ensures size { result ≡ Err Fault.Size → (self.old.limit < length template.now)
            ⊎ GetsTooLongWith self.old.limit self.old.state (chars template.now) }
        ensures fits { OnOk result
            (GetsTooLongWith self.old.limit self.old.state (chars template.now) → ⊥) }
        ensures fault { IfErr result (λ fault.
            (fault ≡ Fault.Nothing) ⊎ ((fault ≡ Fault.Size) ⊎ (fault ≡ Fault.Memory))) }
        ensures err { OnErr result (self.new ≡ self.old) }

        // For each match, at most one row is made for each line of its expansion; none if the new
        // text would be too long.
        ensures nothing_unsearched { result ≡ Err Fault.Nothing → tick.new ≡ tick.old }
        ensures size_unsearched { self.old.limit < length template.now → tick.new ≡ tick.old }
        ensures unmade { GetsTooLongWith self.old.limit self.old.state (chars template.now)
            → tick.new.count ≡ tick.old.count }
        ensures rows { (n : ℕ) → RowsOfReplacement self.old.state (chars template.now) n
            → tick.new.count ≤ tick.old.count + n }
        ensures wholes { tick.new.wholes ≤ tick.old.wholes + 1 }
        ensures never_fall { NeverFall tick.old tick.new }
    {
        let Some(search) = &mut self.search else {
            return Err(Fault::Nothing);
        };
        if self.limits.text < template.len() {
            return Err(Fault::Size);
        }
        let old = self.history.current();
        let bytes = old.len_bytes();
        // Everything that can be refused comes before the first change.
        let replaced = search.replaced(tick, self.alloc, self.limits, old, template)?;
        self.history.add(replaced.text, replaced.changes)?;
        self.changed = replaced.patches.changed;
        // Laws, for the proof alone.
        rope_search_reports::laws::a_row_a_line();
        rope_search_reports::laws::one_report();
        let step = self.history.undo_steps();
        self.kept = search.apply_and_keep(replaced.patches, step, bytes);
        keep_before_change(&mut self.pending, &self.history);
        Ok(replaced.count)
    }

    /// Returns a buffer with the current text, a history of its own and no pattern. The text is
    /// shared.
    ///
    /// # Errors
    ///
    /// `Fault::Memory`.
    pub fn fork(&self) -> Result<Buffer, Fault>
        ensures ok { IfOk result (λ buffer.
            buffer ≡ fresh_buffer self.now.limit (current_text self.now.state)) }
        ensures err { IfErr result (λ fault. fault ≡ Fault.Memory) }
    {
        let text = self.text().clone()?;
        Ok(Buffer {
            alloc: self.alloc,
            limits: self.limits,
            history: History::new(self.alloc, text)?,
            search: None, // The patterns stay with this buffer.
            pending: None,
            kept: None,
            changed: Stretch::none(),
        })
    }
}
