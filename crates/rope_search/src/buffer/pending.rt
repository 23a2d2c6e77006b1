//! A pending pattern of a buffer: its rows are made in slices, and kept through changes of the text.
ghost use Rattle.std.specs.Prelude.{◌≡◌, ℕ, ◌+◌, ◌-◌, ◌^◌, ◌<◌, ◌≤◌, ◌↔◌, ◌⊎◌, ◌++◌, List, length, take, drop, min, option_map, chars, None, Some, Err, IfOk, IfErr, IfSome, OnOk, OnErr};
ghost use Rattle.ropey.specs.Chunks.{text_of};
ghost use Rattle.rope_search_reports.specs.Pattern.{IsPattern, IsTooHeavy, SpellsNone, pattern_limit};
ghost use Rattle.rope_search_reports.specs.Report.{AreRows, line_texts, match_count};
ghost use Rattle.rope_search_reports.specs.Text.{IsText, line_count};
ghost use Rattle.rope_search_reports.specs.Ticks.{MakesAsMany, MakesAtMost};
ghost use Rattle.rope_search.specs.Histories.{text_at};
ghost use Rattle.rope_search.specs.Pending.{Advances, AreFirstRows, ArePendingRows, Begins, Cancels, CompletesWindow, HasFewInWindow, done_before, lines_left};
ghost use Rattle.rope_search.specs.Searched.{HoldsPending, shown_pending};
ghost use Rattle.rope_search.specs.Session.{PendingPattern};
ghost use Rattle.rope_search.specs.TextChanges.{AreTextChanges, ranges_in};

use crate::buffer::Buffer;
use crate::history::History;
use crate::search::{Search, row_count};
use crate::stretches::Stretch;
use rope_search_io::Fault;
use rope_search_reports::{Finder, Lines, Row, rows_of_lines};
use ropey::Rope;
use std::alloc::Global;

/// Returns how many of the lines that are done are before the last change of a history's text.
fn lines_kept(history: &History, done: usize) -> usize
    requires { (old : List ℕ) × AreTextChanges old
        (text_at history.now.texts history.now.current)
        (ranges_in history.now.is_back history.now.last) }
    ensures { result ≡ done_before (text_at history.now.texts history.now.current)
        (ranges_in history.now.is_back history.now.last) done }
{
    // The text's facts, for the proof alone.
    let text = history.current();
    let _ = text.len_bytes();
    match history.last().first() {
        Some(change) => done.min(text.byte_to_line(change.new_start)),
        None => done,
    }
}

/// Drops the rows of a pending pattern from the first line on that the last change of a history's
/// text touched.
pub(super) fn keep_before_change(pending: &mut Option<Search>, history: &History)
    requires { (old : List ℕ) × IsText old × HoldsPending old pending.old × AreTextChanges old
        (text_at history.now.texts history.now.current)
        (ranges_in history.now.is_back history.now.last) }
    ensures holds { HoldsPending (text_at history.now.texts history.now.current) pending.new }
    ensures kept { shown_pending pending.new ≡ option_map (λ (p : PendingPattern). record p {
      done = done_before (text_at history.now.texts history.now.current)
          (ranges_in history.now.is_back history.now.last) p.done;
    }) (shown_pending pending.old) }
{
    let Some(mut search) = pending.take() else {
        return;
    };
    // Laws, and the text's facts, for the proof alone.
    rope_search_reports::laws::edits_splice_lines();
    rope_search_reports::laws::places_are_in_lines();
    let _ = history.current().len_bytes();
    let kept = lines_kept(history, search.rows.len());
    search.rows.truncate(kept);
    *pending = Some(search);
}

impl Search {
    /// Searches up to `max_lines` further lines, after the first lines, and adds their rows. It can
    /// be refused with `Fault::Memory` only; the rows are then as before.
    fn search_further(
        &mut self,
        tick: &mut Lines,
        alloc: Global,
        text: &Rope,
        max_lines: usize,
    ) -> Result<(), Fault>
        requires { AreFirstRows (text_of text.now) self.old.finder (length self.old.rows.items)
            self.old.rows.items }
        ensures rows { OnOk result (AreFirstRows (text_of text.now) self.old.finder
            (length self.new.rows.items) self.new.rows.items) }
        ensures done { OnOk result (length self.new.rows.items ≡ length self.old.rows.items
            + min max_lines (line_count (text_of text.now) - length self.old.rows.items)) }
        ensures fault { IfErr result (λ fault. fault ≡ Fault.Memory) }
        ensures finder { self.new.finder ≡ self.old.finder }
        ensures err { OnErr result (self.new.rows.items ≡ self.old.rows.items) }
        ensures count { MakesAtMost max_lines tick.old tick.new }
        ensures each { OnOk result (MakesAsMany
            (min max_lines (line_count (text_of text.now) - length self.old.rows.items))
            tick.old tick.new) }
    {
        let done = self.rows.len();
        let left = text.len_lines() - done;
        // Room is reserved before the first line is searched.
        self.rows.reserve(left)?;
        let end = done + left.min(max_lines);
        let mut made = rows_of_lines(tick, alloc, &mut self.finder, text, done, end)?;
        self.rows.append(&mut made)?;
        Ok(())
    }

    /// Returns the rows of those of the lines `from` up to `to` that exist and have no row yet. It
    /// can be refused with `Fault::Memory` only. The existing rows stay.
    fn rows_in_window(
        &mut self,
        tick: &mut Lines,
        alloc: Global,
        text: &Rope,
        from: usize,
        to: usize,
    ) -> Result<Vec<Row>, Fault>
        requires { AreFirstRows (text_of text.now) self.old.finder (length self.old.rows.items)
            self.old.rows.items }
        ensures rows { IfOk result (λ made. AreRows self.old.finder
            (take (to - from) (drop from (line_texts (text_of text.now))))
            (take (to - from) (drop from self.old.rows.items) ++ made.items)) }
        ensures fault { IfErr result (λ fault. fault ≡ Fault.Memory) }
        ensures finder { self.new.finder ≡ self.old.finder }
        ensures kept { self.new.rows.items ≡ self.old.rows.items }
        ensures count { MakesAtMost
            (min (to - from) (line_count (text_of text.now) - length self.old.rows.items))
            tick.old tick.new }
        ensures each { IfOk result (λ made.
            MakesAsMany (length made.items) tick.old tick.new) }
    {
        let end = to.min(text.len_lines());
        let first = from.max(self.rows.len()).min(end);
        rows_of_lines(tick, alloc, &mut self.finder, text, first, end)
    }
}

impl Buffer {
    /// Makes a pattern pending, in place of any other that is: `advance` searches the text for it
    /// in slices, and once all lines are searched, it takes the place of the buffer's pattern.
    /// Until then the buffer's pattern and its report stay, and follow all edits. Nothing is
    /// searched yet.
    ///
    /// A call that changes the text keeps the rows that are done before the first line that it
    /// changes, drops the others, and searches nothing for the pending pattern. `set_pattern` and
    /// `off` drop it, and a fork has none.
    ///
    /// `set_text`, `undo` and `redo` make the report of the buffer's pattern before they return. To
    /// search a new text in slices too, call `off` before them and `begin_pattern` after them.
    ///
    /// # Errors
    ///
    /// They leave the buffer as it was, and what is pending: those of `set_pattern`.
    pub fn begin_pattern(&mut self, pattern: &str) -> Result<(), Fault>
        ensures ok { OnOk result (Begins (chars pattern.now) self.old self.new) }
        ensures too_long { pattern_limit < length pattern.now → result ≡ Err Fault.Limit }
        ensures is_pattern { OnOk result (IsPattern (chars pattern.now)) }
        ensures too_much { result ≡ Err Fault.Limit
            → (pattern_limit < length pattern.now) ⊎ IsTooHeavy (chars pattern.now) }
        ensures no_pattern { result ≡ Err Fault.Pattern
            → (length pattern.now ≤ pattern_limit) × SpellsNone (chars pattern.now) }
        ensures fault { IfErr result (λ fault.
            (fault ≡ Fault.Limit) ⊎ ((fault ≡ Fault.Pattern) ⊎ (fault ≡ Fault.Memory))) }
        ensures err { OnErr result (self.new ≡ self.old) }
    {
        let finder = Finder::new(self.alloc, pattern)?;
        let rows = Vec::new(self.alloc);
        self.pending = Some(Search { finder, rows });
        Ok(())
    }

    /// Searches up to `max_lines` further lines for the pending pattern, from the first that is not
    /// done, and returns whether all lines are done. The buffer is then as `set_pattern` makes it:
    /// the pending pattern and its rows are in place of the pattern and the report, and `changed`
    /// returns all rows. Else the report, `changed` and `text_changes` stay.
    ///
    /// # Errors
    ///
    /// They leave the buffer as it was, and all rows that were done: `Fault::Nothing` without a
    /// pending pattern, else `Fault::Memory`.
    ///
    /// # Complexity
    ///
    /// Linear in the lines that are searched, times the pattern's weight, and `O(log n)`; each is
    /// searched whole. The last slice also drops the old report, in time linear in its rows.
    pub fn advance(&mut self, tick: &mut Lines, max_lines: usize) -> Result<bool, Fault>
        ensures advances { IfOk result (λ is_done. Advances max_lines is_done self.old self.new) }
        ensures is_pattern { IfSome self.old.pending (λ pending.
            IsText pending.pattern × IsPattern pending.pattern) }
        ensures nothing { (result ≡ Err Fault.Nothing) ↔ (self.old.pending ≡ None) }
        ensures fault { IfErr result (λ fault.
            (fault ≡ Fault.Nothing) ⊎ (fault ≡ Fault.Memory)) }
        ensures err { OnErr result (self.new ≡ self.old) }

        // One row is made for each line that is searched.
        ensures unsearched { result ≡ Err Fault.Nothing → tick.new ≡ tick.old }
        ensures rows { MakesAtMost max_lines tick.old tick.new }
        ensures each { OnOk result
            (MakesAsMany (min max_lines (lines_left self.old)) tick.old tick.new) }
    {
        let Some(pending) = &mut self.pending else {
            return Err(Fault::Nothing);
        };
        // Laws, and the text's facts, for the proof alone.
        rope_search_reports::laws::a_row_a_line();
        rope_search_reports::laws::few_matches();
        let text = self.history.current();
        let _ = text.len_bytes();
        pending.search_further(tick, self.alloc, text, max_lines)?;
        if pending.rows.len() < text.len_lines() {
            return Ok(false);
        }
        self.changed = Stretch::whole(row_count(&self.search, text), text.len_lines());
        self.search = self.pending.take();
        self.kept = None; // They are rows of the pattern before.
        Ok(true)
    }

    /// Returns the rows of the lines that are searched for the pending pattern, or `None` without
    /// one: the first rows of the report of the current text and that pattern. `O(1)`.
    pub fn pending(&self) -> Option<&[Row]>
        ensures rows { IfSome result (λ rows. ArePendingRows self.now rows.now) }
        ensures done { IfSome self.now.pending (λ pending.
            IfSome result (λ rows. length rows.now ≡ pending.done)) }
        ensures none { (result ≡ None) ↔ (self.now.pending ≡ None) }
        ensures few { IfSome result (λ rows. match_count rows.now < 2 ^ 64) }
    {
        // Laws, and the text's facts, for the proof alone.
        rope_search_reports::laws::has_report();
        rope_search_reports::laws::few_matches();
        rope_search_reports::laws::one_list_of_matches();
        let _ = self.history.current().len_bytes();
        match &self.pending {
            None => None,
            Some(pending) => Some(pending.rows.as_slice()),
        }
    }

    /// Searches those of the lines `from` up to `to` for the pending pattern that are not done, as
    /// far as there are such, and returns their rows. With the rows of these lines in `pending`
    /// before them, they show a window of the text. They are not kept, and each is counted as one
    /// row.
    ///
    /// # Errors
    ///
    /// `Fault::Nothing` without a pending pattern, else `Fault::Memory`. The buffer is as it was,
    /// whatever is answered.
    ///
    /// # Complexity
    ///
    /// Linear in the lines that are searched, times the pattern's weight, and `O(log n)`.
    pub fn window(&mut self, tick: &mut Lines, from: usize, to: usize) -> Result<Vec<Row>, Fault>
        ensures rows { IfOk result (λ made. CompletesWindow self.old from to made.items) }
        ensures few { IfOk result (λ made. HasFewInWindow self.old from to made.items) }
        ensures nothing { (result ≡ Err Fault.Nothing) ↔ (self.old.pending ≡ None) }
        ensures fault { IfErr result (λ fault.
            (fault ≡ Fault.Nothing) ⊎ (fault ≡ Fault.Memory)) }
        ensures same { self.new ≡ self.old }

        // One row is made for each line that is not done.
        ensures unsearched { result ≡ Err Fault.Nothing → tick.new ≡ tick.old }
        ensures count { MakesAtMost (min (to - from) (lines_left self.old)) tick.old tick.new }
        ensures each { IfOk result (λ made.
            MakesAsMany (length made.items) tick.old tick.new) }
    {
        let Some(pending) = &mut self.pending else {
            return Err(Fault::Nothing);
        };
        // Laws, and the text's facts, for the proof alone.
        rope_search_reports::laws::has_report();
        rope_search_reports::laws::few_matches();
        rope_search_reports::laws::one_list_of_matches();
        let text = self.history.current();
        let _ = text.len_bytes();
        let rows = pending.rows_in_window(tick, self.alloc, text, from, to)?;
        Ok(rows)
    }

    /// Drops the pending pattern, if there is one; the pattern and the report stay.
    pub fn cancel(&mut self)
        ensures { Cancels self.old self.new }
    {
        self.pending = None;
    }
}
