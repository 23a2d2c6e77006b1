//! The matches that a report lists in some lines, by bytes of the text, and the text with them
//! replaced.
ghost use Rattle.std.specs.Prelude.{◌≡◌, ℕ, ◌+◌, ◌-◌, ◌^◌, ◌<◌, ◌≤◌, ◌↔◌, ◌⊎◌, List, ◌++◌, All, length, map, min, take, drop, sum_by, true, chars, Err, OnOk, IfOk, IfErr};
ghost use Rattle.str_indices.specs.Text.{byte_len, units};
ghost use Rattle.ropey.specs.Chunks.{text_of};
ghost use Rattle.ropey.specs.Slices.{slice_text};
ghost use Rattle.rope_search_reports.specs.LineGroups.{moved_span};
ghost use Rattle.rope_search_reports.specs.Patches.{patched};
ghost use Rattle.rope_search_reports.specs.Position.{line_start, line_text};
ghost use Rattle.rope_search_reports.specs.Replacement.{AreMatchesIn, Groups, changes_of, replaced, searched};
ghost use Rattle.rope_search_reports.specs.Report.{IsReport, match_count};
ghost use Rattle.rope_search_reports.specs.Text.{bytes_of, line_count};
ghost use Rattle.rope_search_reports.specs.Ticks.{NeverFall};
ghost use Rattle.rope_search_reports.specs.Turned.{Lead, listed};
ghost use Rattle.rope_search_templates.specs.Matches.{matched};
ghost use Rattle.rope_search.specs.LineColumns.{AreColumnsOf, columns_as};
ghost use Rattle.rope_search.specs.ListedReplacing.{AreEnoughListed, AreListedGroups, AreListedIn, AreListedSpans, GetsTooLongListedIn, IsListedIn, RowsOfListedIn, lines_for_groups, listed_span, one_if_any};
ghost use Rattle.rope_search.specs.Searched.{FitIn};
ghost use Rattle.rope_search.specs.Stretches.{ReplacesIn, lines_spanned};

use crate::encodings::Encoding;
use crate::laws::reports_have_columns;
use crate::limits::Limits;
use crate::line_columns::column_for;
use crate::search::{Replaced, Search};
use rope_search_io::Fault;
use rope_search_reports::{Changes, Groups, Lines, add_groups_of_line, line_text};
use rope_search_templates::{Matches, Replacement, Template, is_over, replace_all};
use ropey::{Rope, RopeSlice};
use std::alloc::Global;

/// The span of a match in a line, by its columns, in bytes of the text in which the line starts at
/// a byte. `O(1)` if each character of the line takes one byte, else `O(log n)`.
fn span_at(start: usize, line: &RopeSlice<'_>, columns: (usize, usize)) -> (usize, usize)
    requires columns { AreColumnsOf (slice_text line.now) columns }
    requires fits { start + byte_len (slice_text line.now) < 2 ^ 63 }
    ensures { result ≡ moved_span start (columns_as Encoding.Utf8 (slice_text line.now) columns) }
{
    let (from, to) = columns;
    (
        start + column_for(line, Encoding::Utf8, from),
        start + column_for(line, Encoding::Utf8, to),
    )
}

/// Appends the spans of the matches that a row lists in a line, in bytes of the text.
fn add_spans(
    text: &Rope,
    line_idx: usize,
    row: &[(usize, usize)],
    spans: &mut Vec<(usize, usize)>,
) -> Result<(), Fault>
    requires inside { line_idx < line_count (text_of text.now) }
    requires columns { All (AreColumnsOf (line_text (text_of text.now) line_idx)) row.now }
    ensures spans { OnOk result (spans.new.items ≡ spans.old.items
        ++ map (listed_span (text_of text.now) line_idx) row.now) }
    ensures fault { IfErr result (λ fault. fault ≡ Fault.Memory) }
{
    if row.is_empty() {
        return Ok(());
    }
    // The text's facts, for the proof alone.
    rope_search_reports::laws::lines_in_place();
    let _ = text.len_bytes();
    let start = text.line_to_byte(line_idx);
    let line = line_text(text, line_idx);
    for columns in row {
        spans.push(span_at(start, &line, *columns))?;
    }
    Ok(())
}

impl Search {
    /// The spans of the matches that the report lists in the lines from one up to another, in bytes
    /// of the text. It may be refused with `Fault::Memory` alone.
    fn listed_spans(
        &self,
        alloc: Global,
        text: &Rope,
        from: usize,
        to: usize,
    ) -> Result<Vec<(usize, usize)>, Fault>
        requires { IsReport (text_of text.now) self.now.finder self.now.rows.items }
        ensures spans { IfOk result (λ spans.
            AreListedSpans (text_of text.now) self.now.finder from to spans.items) }
        ensures fault { IfErr result (λ fault. fault ≡ Fault.Memory) }
    {
        // Laws, and the text's facts, for the proof alone.
        rope_search_reports::laws::a_row_a_line();
        rope_search_reports::laws::groups_follow_each_other();
        reports_have_columns();
        let _ = text.len_bytes();
        let mut spans = Vec::new(alloc);
        for line in from..to.min(self.rows.len()) {
            add_spans(text, line, self.rows[line].matches(), &mut spans)?;
        }
        Ok(spans)
    }

    /// The groups of these matches, in bytes of the text: each line with a match is searched once,
    /// for which one row is counted. It may be refused with `Fault::Memory` alone. The report is as
    /// before.
    fn listed_groups(
        &mut self,
        tick: &mut Lines,
        alloc: Global,
        text: &Rope,
        from: usize,
        to: usize,
    ) -> Result<Vec<Groups>, Fault>
        requires { IsReport (text_of text.now) self.old.finder self.old.rows.items }
        ensures groups { IfOk result (λ groups.
            AreListedGroups (text_of text.now) self.old.finder from to groups.items) }
        ensures fault { IfErr result (λ fault. fault ≡ Fault.Memory) }
        ensures finder { self.new.finder ≡ self.old.finder }
        ensures rows { self.new.rows.items ≡ self.old.rows.items }
        ensures count { tick.new.count ≤ tick.old.count + sum_by one_if_any
            (take (min to (length self.old.rows.items) - from) (drop from self.old.rows.items)) }
        ensures grows { tick.old.count ≤ tick.new.count }
        ensures wholes { tick.new.wholes ≡ tick.old.wholes }
    {
        // Laws, and the text's facts, for the proof alone.
        rope_search_reports::laws::a_row_a_line();
        rope_search_reports::laws::groups_follow_each_other();
        let _ = text.len_bytes();
        let mut groups = Vec::new(alloc);
        for line in from..to.min(self.rows.len()) {
            if !self.rows[line].matches().is_empty() {
                add_groups_of_line(tick, &mut self.finder, text, line, &mut groups)?;
            }
        }
        Ok(groups)
    }

    /// These matches, as far as a template needs them: their spans alone, which the report has, if
    /// it names no group except the whole match. It may be refused with `Fault::Memory` alone. The
    /// report is as before.
    fn listed_matches(
        &mut self,
        tick: &mut Lines,
        alloc: Global,
        text: &Rope,
        template: &Template<'_>,
        from: usize,
        to: usize,
    ) -> Result<Matches, Fault>
        requires { IsReport (text_of text.now) self.old.finder self.old.rows.items }
        ensures enough { IfOk result (λ matches. AreEnoughListed (text_of text.now)
            self.old.finder from to template.now (matched matches)) }
        ensures fault { IfErr result (λ fault. fault ≡ Fault.Memory) }
        ensures finder { self.new.finder ≡ self.old.finder }
        ensures rows { self.new.rows.items ≡ self.old.rows.items }
        ensures count { (lists : List (List Groups))
            → AreListedIn (text_of text.now) self.old.finder from to lists
            → tick.new.count ≤ tick.old.count + lines_for_groups template.now lists }
        ensures grows { tick.old.count ≤ tick.new.count }
        ensures wholes { tick.new.wholes ≡ tick.old.wholes }
    {
        // Laws, and the text's facts, for the proof alone.
        rope_search_templates::laws::spans_are_enough();
        rope_search_reports::laws::line_matches_follow();
        rope_search_reports::laws::one_list_of_groups();
        rope_search_reports::laws::groups_follow_each_other();
        rope_search_reports::laws::a_row_a_line();
        let _ = text.len_bytes();
        if template.names_explicit_groups() {
            let groups = self.listed_groups(tick, alloc, text, from, to)?;
            return Ok(Matches::Grouped(groups));
        }
        let spans = self.listed_spans(alloc, text, from, to)?;
        Ok(Matches::Spans(spans))
    }

    /// A text with some of its matches replaced by the template's expansions, the changes that make
    /// it of the old one, and the patches that make the report that of this text. It is refused
    /// with `Fault::Size` if the new text would have more bytes than the limit, before anything is
    /// built, and perhaps with `Fault::Memory`. The report is as before.
    fn with_matches_replaced(
        &mut self,
        tick: &mut Lines,
        alloc: Global,
        limits: Limits,
        old: &Rope,
        template: &Template<'_>,
        matches: &Matches,
    ) -> Result<Replaced, Fault>
        requires report { IsReport (text_of old.now) self.old.finder self.old.rows.items }
        requires matches { AreMatchesIn (bytes_of (text_of old.now)) (matched matches.now) }
        ensures counted { IfOk result (λ new. new.count ≡ length (matched matches.now)) }
        ensures text { IfOk result (λ new. text_of new.text ≡ replaced (bytes_of (text_of old.now))
            template.now 0 (matched matches.now)) }
        ensures changes { IfOk result (λ new. listed new.changes ≡
            changes_of (bytes_of (text_of old.now)) template.now 0 0 (matched matches.now)) }
        ensures led { IfOk result (λ new.
            Lead (listed new.changes) (text_of old.now) (text_of new.text)) }
        ensures fit { IfOk result (λ new. FitIn self.new new.patches) }
        ensures report { IfOk result (λ new.
            IsReport (text_of new.text) self.old.finder
            (patched 0 self.old.rows.items new.patches.patches.items)) }
        ensures few { IfOk result (λ new.
            match_count (patched 0 self.old.rows.items new.patches.patches.items) < 2 ^ 64) }
        ensures changed { IfOk result (λ new. ReplacesIn (text_of old.now) (text_of new.text)
            self.old.finder new.patches.changed) }
        ensures added { IfOk result (λ new. new.patches.changed.added
            ≤ lines_spanned (bytes_of (text_of new.text)) (listed new.changes)) }
        ensures size { (result ≡ Err Fault.Size) ↔ (limits.text < byte_len (replaced
            (bytes_of (text_of old.now)) template.now 0 (matched matches.now))) }
        ensures fault { IfErr result (λ fault. (fault ≡ Fault.Size) ⊎ (fault ≡ Fault.Memory)) }
        ensures finder { self.new.finder ≡ self.old.finder }
        ensures rows { self.new.rows.items ≡ self.old.rows.items }
        ensures unsearched { result ≡ Err Fault.Size → tick.new ≡ tick.old }
        ensures count { tick.new.count ≤ tick.old.count + searched (bytes_of (text_of old.now))
            template.now (matched matches.now) }
        ensures grows { tick.old.count ≤ tick.new.count }
        ensures wholes { tick.new.wholes ≡ tick.old.wholes }
    {
        // A law, and the text's facts, for the proof alone.
        rope_search_reports::laws::replacements_are_changes();
        let _ = old.len_bytes();
        if is_over(limits.text, old, template, matches) {
            return Err(Fault::Size);
        }
        let Replacement { text, changes } = replace_all(alloc, old, template, matches)?;
        let patches = self.patches(tick, alloc, old, &text, &changes)?;
        Ok(Replaced {
            count: matches.len(),
            text,
            changes: Changes::Many(changes),
            patches,
        })
    }

    /// The text with the matches replaced that the report lists in the lines from one up to
    /// another, as `with_matches_replaced` has it.
    pub fn replaced_listed(
        &mut self,
        tick: &mut Lines,
        alloc: Global,
        limits: Limits,
        old: &Rope,
        from: usize,
        to: usize,
        template: &str,
    ) -> Result<Replaced, Fault>
        requires { IsReport (text_of old.now) self.old.finder self.old.rows.items }
        ensures replaced { IfOk result (λ new. IsListedIn (text_of old.now) self.old.finder from to
            (chars template.now) new.count (text_of new.text) (listed new.changes)) }
        ensures led { IfOk result (λ new.
            Lead (listed new.changes) (text_of old.now) (text_of new.text)) }
        ensures fit { IfOk result (λ new. FitIn self.new new.patches) }
        ensures report { IfOk result (λ new.
            IsReport (text_of new.text) self.old.finder
            (patched 0 self.old.rows.items new.patches.patches.items)) }
        ensures few { IfOk result (λ new.
            match_count (patched 0 self.old.rows.items new.patches.patches.items) < 2 ^ 64) }
        ensures changed { IfOk result (λ new. ReplacesIn (text_of old.now) (text_of new.text)
            self.old.finder new.patches.changed) }
        ensures added { IfOk result (λ new. new.patches.changed.added
            ≤ lines_spanned (bytes_of (text_of new.text)) (listed new.changes)) }
        ensures size { result ≡ Err Fault.Size → GetsTooLongListedIn limits.text
            (text_of old.now) self.old.finder from to (chars template.now) }
        ensures fits { OnOk result (GetsTooLongListedIn limits.text
            (text_of old.now) self.old.finder from to (chars template.now) → ⊥) }
        ensures fault { IfErr result (λ fault. (fault ≡ Fault.Size) ⊎ (fault ≡ Fault.Memory)) }
        ensures finder { self.new.finder ≡ self.old.finder }
        ensures rows { self.new.rows.items ≡ self.old.rows.items }
        ensures count { (n : ℕ) → RowsOfListedIn (text_of old.now) self.old.finder from to
            (chars template.now) n → tick.new.count ≤ tick.old.count + n }
        ensures grows { tick.old.count ≤ tick.new.count }
        ensures wholes { tick.new.wholes ≡ tick.old.wholes }
    {
        // A law, for the proof alone.
        rope_search_reports::laws::one_list_of_groups();
        let template = Template::new(template);
        let matches = self.listed_matches(tick, alloc, old, &template, from, to)?;
        self.with_matches_replaced(tick, alloc, limits, old, &template, &matches)
    }
}
