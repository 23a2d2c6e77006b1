//! Edits that replace one match of a report by a template's expansion.
ghost use Rattle.std.specs.Prelude.{◌≡◌, ℕ, ◌+◌, ◌^◌, ◌<◌, ◌≤◌, ◌↔◌, ◌⊎◌, List, [], ◌∷◌, map, option_map, chars, IsUtf8, None, Some, Err, IfOk, IfErr, OnOk, OnErr, slice_get, slice_index_or, string_bytes};
ghost use Rattle.str_indices.specs.Text.{byte_len};
ghost use Rattle.ropey.specs.Chunks.{text_of};
ghost use Rattle.ropey.specs.Slices.{slice_text};
ghost use Rattle.rope_search_reports.specs.Replacement.{Groups, HasSpansIn, expand, replaced};
ghost use Rattle.rope_search_reports.specs.Report.{IsReport};
ghost use Rattle.rope_search_reports.specs.Text.{IsText, bytes_of, line_count};
ghost use Rattle.rope_search.specs.Changed.{Replaces, TellsAfter};
ghost use Rattle.rope_search.specs.Cost.{Costs, rows_anew};
ghost use Rattle.rope_search.specs.GroupsAt.{TellsGroupsIn};
ghost use Rattle.rope_search.specs.Histories.{KeepsEdit};
ghost use Rattle.rope_search.specs.LineColumns.{column_as};
ghost use Rattle.rope_search.specs.MatchEdits.{ForMatch, IsTooLongIn, ListsNoMatch, ReplacesMatch, ReplacesMatchIn, ServeFor, placed, placed_behind, rows_for_groups};
ghost use Rattle.rope_search.specs.Order.{EditText};
ghost use Rattle.rope_search.specs.Pending.{KeepsPending};
ghost use Rattle.rope_search.specs.Places.{GetsTooLong, HasNoneBetween, IsEdit};
ghost use Rattle.rope_search.specs.Session.{chosen_buffer, current_text};
ghost use Rattle.rope_search.specs.Step.{Step};
ghost use Rattle.rope_search.specs.TextsKept.{KeepsAfter, TellsText};

use crate::buffer::Buffer;
use crate::commands::{Command, Payload, Reply};
use crate::encodings::Encoding;
use crate::limits::Limits;
use crate::line_columns::chars_up_to;
use crate::search::Search;
use crate::session::Session;
use rope_search_io::Fault;
use rope_search_reports::{Groups, Lines, Position, Row, line_text};
use rope_search_templates::{Matches, Replacement, Template, is_over, replace_all};
use ropey::{Rope, RopeSlice};
use simdutf8::compat::from_utf8;
use std::alloc::Global;

/// An edit that replaces a match.
#[derive(Drop)]
pub struct MatchEdit {
    /// Where the match starts.
    pub from: Position,
    /// Where it ends.
    pub to: Position,
    /// The text that replaces it.
    pub inserted: String,
}

/// Returns the columns of a match that rows list, or `None`.
fn columns_at(rows: &[Row], line: usize, number: usize) -> Option<(usize, usize)>
    ensures { result ≡ slice_get (slice_index_or rows.now line []) number }
{
    if line >= rows.len() {
        return None;
    }
    let row = rows[line].matches();
    if number >= row.len() {
        return None;
    }
    Some(row[number])
}

/// Returns the byte offset in a line's text of a column in UTF-16 code units. For a column inside a
/// character it is the character's start; past the text's end, it is the end.
fn byte_at(line: &RopeSlice<'_>, column: usize) -> usize
    ensures { result ≡ column_as Encoding.Utf8 (slice_text line.now) column }
{
    line.char_to_byte(chars_up_to(line, Encoding::Utf16, column))
}

/// Returns the span of a group in bytes of the text, from two columns of a line that starts at byte
/// `start`.
fn span_from(
    start: usize,
    line: &RopeSlice<'_>,
    group: Option<(usize, usize)>,
) -> Option<(usize, usize)>
    requires { start + byte_len (slice_text line.now) < 2 ^ 63 }
    ensures { result ≡ option_map (placed_behind start (slice_text line.now)) group }
{
    match group {
        Some((first, last)) => {
            let from = start + byte_at(line, first);
            let to = start + byte_at(line, last);
            Some((from, from.max(to)))
        }
        None => None,
    }
}

/// Returns the spans of a match's groups in bytes of the text, from columns of the match's line.
fn groups_in_text(text: &Rope, line: usize, groups: &Groups) -> Groups
    requires { line < line_count (text_of text.now) }
    ensures { result ≡ map (option_map (placed (text_of text.now) line)) groups.now }
{
    // The text's facts, for the proof alone.
    rope_search_reports::laws::lines_in_place();
    let _ = text.len_bytes();
    let start = text.line_to_byte(line);
    let own = line_text(text, line);
    let mut placed = [None; 10];
    for k in 0..10 {
        placed[k] = span_from(start, &own, groups[k]);
    }
    placed
}

/// Returns a template's expansion at a match of a text. It is refused with `Fault::Size` if the
/// text, with the expansion in place of the match, would have more bytes than the limit, and
/// possibly with `Fault::Memory`.
fn expanded(
    alloc: Global,
    limits: Limits,
    text: &Rope,
    template: &Template<'_>,
    groups: Groups,
) -> Result<String, Fault>
    requires spans { HasSpansIn (bytes_of (text_of text.now)) groups }
    requires some { (first : ℕ × ℕ) × (others : Groups) × (groups ≡ Some first ∷ others) }
    ensures text { IfOk result (λ told. string_bytes told
        ≡ bytes_of (expand (bytes_of (text_of text.now)) groups template.now)) }
    ensures scalars { OnOk result
        (IsText (expand (bytes_of (text_of text.now)) groups template.now)) }
    ensures size { result ≡ Err Fault.Size → limits.text < byte_len
        (replaced (bytes_of (text_of text.now)) template.now 0 (groups ∷ [])) }
    ensures fault { IfErr result (λ fault. (fault ≡ Fault.Size) ⊎ (fault ≡ Fault.Memory)) }
{
    // The text's facts, for the proof alone.
    let _ = text.len_bytes();
    let mut matches = Vec::with_capacity(alloc, 1)?;
    matches.push_reserved(groups);
    let matches = Matches::Grouped(matches);
    if is_over(limits.text, text, template, &matches) {
        return Err(Fault::Size);
    }
    let Replacement { text: new, changes } = replace_all(alloc, text, template, &matches)?;
    let change = changes[0];
    // The text's facts, for the proof alone.
    let _ = new.len_bytes();
    let inserted = new.byte_slice(change.new_start..change.new_end);
    match inserted.to_text(alloc) {
        Ok(inserted) => Ok(inserted),
        Err(_) => Err(Fault::Memory),
    }
}

impl Search {
    /// Returns the groups of a match of the report that a template needs, by their columns: the
    /// whole match alone if it names no other group, and otherwise those that a search of the line
    /// finds, which counts one row. It can be refused with `Fault::Memory` only. The report stays.
    fn groups_for(
        &mut self,
        tick: &mut Lines,
        text: &Rope,
        line: usize,
        number: usize,
        columns: (usize, usize),
        template: &Template<'_>,
    ) -> Result<Groups, Fault>
        requires report { IsReport (text_of text.now) self.old.finder self.old.rows.items }
        requires listed { slice_get (slice_index_or self.old.rows.items line []) number
            ≡ Some columns }
        ensures groups { IfOk result (λ groups. ServeFor (text_of text.now) self.old.finder
            line number template.now groups) }
        ensures fault { IfErr result (λ fault. fault ≡ Fault.Memory) }
        ensures finder { self.new.finder ≡ self.old.finder }
        ensures rows { self.new.rows.items ≡ self.old.rows.items }
        ensures count { tick.new.count ≤ tick.old.count + rows_for_groups template.now }
        ensures grows { tick.old.count ≤ tick.new.count }
        ensures wholes { tick.new.wholes ≡ tick.old.wholes }
    {
        // Laws, for the proof alone.
        rope_search_reports::laws::a_row_a_line();
        rope_search_reports::laws::groups_are_of_rows();
        if template.names_explicit_groups() {
            return self.groups_at(tick, text, line, number);
        }
        let mut groups = [None; 10];
        groups[0] = Some(columns);
        Ok(groups)
    }

    /// Returns the edit that replaces a match, by its line and its number in that row, from 0, by a
    /// template's expansion. It is refused with `Fault::Range` if the report lists no such match,
    /// else with `Fault::Size` if the new text would have more bytes than the limit, and possibly
    /// with `Fault::Memory`. The report stays.
    pub fn match_edit(
        &mut self,
        tick: &mut Lines,
        alloc: Global,
        limits: Limits,
        text: &Rope,
        line: usize,
        number: usize,
        template: &str,
    ) -> Result<MatchEdit, Fault>
        requires report { IsReport (text_of text.now) self.old.finder self.old.rows.items }
        ensures edit { IfOk result (λ edit. ReplacesMatchIn (text_of text.now) self.old.finder
            line number (chars template.now) edit.from edit.to
            (chars (string_bytes edit.inserted))) }
        ensures utf8 { IfOk result (λ edit. IsUtf8 (string_bytes edit.inserted)) }
        ensures there { IfOk result (λ edit.
            HasNoneBetween (text_of text.now) edit.from edit.to → ⊥) }
        ensures range { (result ≡ Err Fault.Range) ↔ ((line_count (text_of text.now) ≤ line)
            ⊎ TellsGroupsIn (text_of text.now) self.old.finder line number None) }
        ensures size { result ≡ Err Fault.Size → IsTooLongIn limits.text (text_of text.now)
            self.old.finder line number (chars template.now) }
        ensures fault { IfErr result (λ fault.
            (fault ≡ Fault.Range) ⊎ ((fault ≡ Fault.Size) ⊎ (fault ≡ Fault.Memory))) }
        ensures finder { self.new.finder ≡ self.old.finder }
        ensures rows { self.new.rows.items ≡ self.old.rows.items }
        ensures unsearched { result ≡ Err Fault.Range → tick.new ≡ tick.old }
        ensures count { tick.new.count ≤ tick.old.count + rows_for_groups (chars template.now) }
        ensures grows { tick.old.count ≤ tick.new.count }
        ensures wholes { tick.new.wholes ≡ tick.old.wholes }
    {
        // Laws, and the text's facts, for the proof alone.
        rope_search_reports::laws::a_row_a_line();
        rope_search_reports::laws::groups_are_of_rows();
        rope_search_reports::laws::matches_at_boundaries();
        let _ = text.len_bytes();
        let Some(columns) = columns_at(&self.rows, line, number) else {
            return Err(Fault::Range);
        };
        let template = Template::new(template);
        let groups = self.groups_for(tick, text, line, number, columns, &template)?;
        let groups = groups_in_text(text, line, &groups);
        let inserted = expanded(alloc, limits, text, &template, groups)?;
        let (start, end) = columns;
        Ok(MatchEdit {
            from: Position {
                line,
                column: start,
            },
            to: Position { line, column: end },
            inserted,
        })
    }
}

impl Buffer {
    /// Returns `Fault::Nothing` without a pattern, `Fault::Range` if the report lists no such
    /// match, and else the other fault. Of the three, this is the one to report.
    pub(crate) fn match_or(&self, line: usize, number: usize, other: Fault) -> Fault
        ensures nothing { self.now.state.pattern ≡ None → result ≡ Fault.Nothing }
        ensures range { ListsNoMatch self.now.state line number → result ≡ Fault.Range }
        ensures other { (self.now.state.pattern ≡ None → ⊥)
            → (ListsNoMatch self.now.state line number → ⊥) → result ≡ other }
    {
        // Laws, for the proof alone.
        rope_search_reports::laws::a_row_a_line();
        rope_search_reports::laws::groups_are_of_rows();
        let Some(rows) = self.report() else {
            return Fault::Nothing;
        };
        match columns_at(rows, line, number) {
            None => Fault::Range,
            Some(_) => other,
        }
    }

    /// Replaces one match of the report, by its line and its number in that row, from 0, by the
    /// template's expansion with the groups that the search of that line finds. It is the `edit`
    /// between the positions where the match starts and ends. In a template, `$` and a digit are
    /// the text of that group, as for `replace`. For a template that names no group, or `$0` alone,
    /// nothing is searched before; otherwise the line is searched once more, up to the match, and
    /// one row is counted.
    ///
    /// # Errors
    ///
    /// They leave the buffer as it was: `Fault::Nothing` without a pattern, else `Fault::Range` if
    /// there is no such line, or no such match in it, else `Fault::Size` if the new text would have
    /// more bytes than the limit; `Fault::Memory`.
    ///
    /// # Complexity
    ///
    /// That of `edit`, and linear in the template and its expansion; with groups also that of
    /// `groups_at`.
    pub fn replace_match(
        &mut self,
        tick: &mut Lines,
        line: usize,
        number: usize,
        template: &str,
    ) -> Result<(), Fault>
        ensures ok { OnOk result (ForMatch self.old.state line number (chars template.now)
            (λ from to inserted. IsEdit self.old.state from to inserted self.new.state)) }
        ensures kept { OnOk result (ForMatch self.old.state line number (chars template.now)
            (λ from to inserted. KeepsEdit self.old from to inserted self.new)) }
        ensures text_changes { OnOk result (TellsText self.old self.new) }
        ensures pending { OnOk result (KeepsPending self.old self.new) }
        ensures changed { OnOk result (Replaces self.old.state self.new.state self.new.changed) }
        ensures added { OnOk result (ForMatch self.old.state line number (chars template.now)
            (λ from to inserted. self.new.changed.added ≤ rows_anew self.old.state inserted)) }
        ensures limit { self.new.limit ≡ self.old.limit }
        ensures nothing { (result ≡ Err Fault.Nothing) ↔ (self.old.state.pattern ≡ None) }
        ensures range { (result ≡ Err Fault.Range) ↔ ListsNoMatch self.old.state line number }
        ensures size { result ≡ Err Fault.Size
            → ForMatch self.old.state line number (chars template.now) (λ from to inserted.
            GetsTooLong self.old.limit (current_text self.old.state) from to
            (byte_len inserted)) }
        ensures fault { IfErr result (λ fault. (fault ≡ Fault.Nothing)
            ⊎ ((fault ≡ Fault.Range) ⊎ ((fault ≡ Fault.Size) ⊎ (fault ≡ Fault.Memory)))) }
        ensures err { OnErr result (self.new ≡ self.old) }

        // Besides the row for the groups, at most one row is made for each line of the inserted
        // text.
        ensures nothing_unsearched { result ≡ Err Fault.Nothing → tick.new ≡ tick.old }
        ensures range_unsearched { result ≡ Err Fault.Range → tick.new ≡ tick.old }
        ensures size_unsearched { result ≡ Err Fault.Size
            → tick.new.count ≤ tick.old.count + rows_for_groups (chars template.now) }
        ensures rows { OnOk result (ForMatch self.old.state line number (chars template.now)
            (λ from to inserted. tick.new.count ≤ tick.old.count
            + rows_for_groups (chars template.now) + rows_anew self.old.state inserted)) }
        ensures grows { tick.old.count ≤ tick.new.count }
        ensures wholes { tick.new.wholes ≡ tick.old.wholes }
    {
        let made = self.match_edit(tick, line, number, template)?;
        self.edit(tick, made.from, made.to, made.inserted.as_str())
    }
}

impl Session {
    /// Replaces one match of the chosen buffer's report, as `Buffer::replace_match` does. The
    /// result is that of `Command::Edit` between the positions where the match starts and ends.
    ///
    /// # Errors
    ///
    /// They leave the session as it was: `Fault::Nothing` without a pattern, else `Fault::Range` if
    /// there is no such line, or no such match in it, else `Fault::Utf8` if the template is not
    /// UTF-8, else `Fault::Size` if the new text would have more bytes than the limit;
    /// `Fault::Memory`.
    ///
    /// # Complexity
    ///
    /// That of `Buffer::replace_match`.
    pub fn replace_match(
        &mut self,
        tick: &mut Lines,
        line: usize,
        number: usize,
        template: &[u8],
    ) -> Result<Reply, Fault>
        ensures step { IsUtf8 template.now → (from to : Position) (inserted : List ℕ)
            → ReplacesMatch (chosen_buffer self.old.state) line number (chars template.now)
            from to inserted
            → Step self.old.limit self.old.state (EditText from to (bytes_of inserted)) result
            self.new.state }
        ensures changed { (from to : Position) (inserted : List ℕ)
            → ReplacesMatch (chosen_buffer self.old.state) line number (chars template.now)
            from to inserted
            → TellsAfter self.old.state (EditText from to (bytes_of inserted)) result
            self.new.state self.old.changed self.new.changed }
        ensures kept { (from to : Position) (inserted : List ℕ)
            → ReplacesMatch (chosen_buffer self.old.state) line number (chars template.now)
            from to inserted
            → KeepsAfter self.old (EditText from to (bytes_of inserted)) result self.new }
        ensures limit { self.new.limit ≡ self.old.limit }
        ensures nothing { (chosen_buffer self.old.state).pattern ≡ None
            → result ≡ Err Fault.Nothing }
        ensures range { ListsNoMatch (chosen_buffer self.old.state) line number
            → result ≡ Err Fault.Range }
        ensures utf8 { ((chosen_buffer self.old.state).pattern ≡ None → ⊥)
            → (ListsNoMatch (chosen_buffer self.old.state) line number → ⊥)
            → ¬ (IsUtf8 template.now) → result ≡ Err Fault.Utf8 }
        ensures err { OnErr result (self.new ≡ self.old) }

        // Besides the row for the groups, at most as many rows are made as the edit costs.
        ensures unsearched { ((chosen_buffer self.old.state).pattern ≡ None)
            ⊎ (ListsNoMatch (chosen_buffer self.old.state) line number
            ⊎ (¬ (IsUtf8 template.now))) → tick.new ≡ tick.old }
        ensures rows { (from to : Position) (inserted : List ℕ) (cost : ℕ)
            → ReplacesMatch (chosen_buffer self.old.state) line number (chars template.now)
            from to inserted
            → Costs self.old.limit self.old.state (EditText from to (bytes_of inserted)) cost
            → tick.new.count ≤ tick.old.count + rows_for_groups (chars template.now) + cost }
        ensures grows { tick.old.count ≤ tick.new.count }
        ensures wholes { tick.new.wholes ≡ tick.old.wholes }
    {
        // A law, for the proof alone.
        rope_search_reports::laws::one_list_of_groups();
        let Ok(template) = from_utf8(template) else {
            return Err(self.buffer().match_or(line, number, Fault::Utf8));
        };
        let made = self.match_edit(tick, line, number, template)?;
        let inserted = Payload::Kept(made.inserted.as_str().as_bytes());
        self.apply(tick, Command::Edit(made.from, made.to, inserted))
    }
}
