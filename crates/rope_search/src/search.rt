//! A pattern with its report, which edits and replacements patch.
ghost use Rattle.std.specs.Prelude.{◌≡◌, None, Some, if◌then◌else◌, is_some, ℕ, ◌+◌, ◌^◌, ◌<◌, ◌≤◌, ◌↔◌, ◌⊎◌};
ghost use Rattle.std.specs.Prelude.{length, chars, Err, OnOk, OnErr, IfOk, IfErr, IsSome};
ghost use Rattle.ropey.specs.Chunks.{text_of};
ghost use Rattle.rope_search_reports.specs.Text.{bytes_of, line_count};
ghost use Rattle.rope_search_reports.specs.Report.{IsReport, match_count};
ghost use Rattle.rope_search_reports.specs.Changes.{AreChanges};
ghost use Rattle.rope_search_reports.specs.Patches.{patched, growth_by, shift_count};
ghost use Rattle.rope_search_reports.specs.Position.{IsNowhere};
ghost use Rattle.rope_search_reports.specs.Ticks.{MakesAtMost, NeverFall, SearchesOneWhole};
ghost use Rattle.rope_search_reports.specs.LineGroups.{SearchesOneLine};
ghost use Rattle.rope_search_templates.specs.Matches.{matched};
ghost use Rattle.rope_search.specs.Finding.{TellsIn};
ghost use Rattle.rope_search.specs.GroupsAt.{TellsGroupsIn};
ghost use Rattle.rope_search.specs.Replacing.{AreEnough, IsReplacementIn, GetsTooLongIn, RowsOfReplacementIn};
ghost use Rattle.rope_search.specs.Searched.{FitIn, HasRoomFor};
ghost use Rattle.rope_search_reports.specs.Turned.{Lead, listed, lines_put};
ghost use Rattle.rope_search.specs.Histories.{AreReplacements};
ghost use Rattle.rope_search.specs.Stretches.{ReplacesIn, lines_spanned};

use crate::limits::Limits;
use crate::stretches::{Stretch, stretch_by};
use rope_search_io::Fault;
use rope_search_reports::{
    Change, Changes, Finder, Groups, Lines, Patch, Position, Row, find_from, find_groups,
    find_spans, groups_at, growth, patches_of, place_of, position_of, put_in_place, put_patches,
    shift_once,
};
use rope_search_templates::{Matches, Replacement, Template, is_over, replace_all};
use ropey::Rope;
use std::alloc::Global;

/// A pattern, and the report of its matches: a row for each line of the text.
#[derive(Drop)]
pub struct Search {
    /// The pattern.
    pub finder: Finder,
    /// The report.
    pub rows: Vec<Row>,
}

/// The patches of a report, and room for the new rows.
#[derive(Drop)]
pub struct Patches {
    /// The patches, from the first row on.
    pub patches: Vec<Patch>,
    /// An empty list for the whole new report, or `None` if the old list has room.
    pub room: Option<Vec<Row>>,
    /// The rows that they replace.
    pub changed: Stretch,
}

/// A text with all matches replaced, and the patches of its report.
#[derive(Drop)]
pub struct Replaced {
    /// The number of replaced matches.
    pub count: usize,
    /// The new text.
    pub text: Rope,
    /// The changes from the old text to the new one.
    pub changes: Changes,
    /// The patches from the old report to the new one.
    pub patches: Patches,
}

/// Returns the number of rows of the report of a text; 0 without a pattern.
pub fn row_count(search: &Option<Search>, text: &Rope) -> usize
    ensures { result ≡ (if is_some search.now then line_count (text_of text.now) else 0) }
{
    match search {
        None => 0,
        Some(_) => text.len_lines(),
    }
}

/// Reserves room for patches. If at most one of them moves the rows after it, space for the added
/// rows only is reserved in place, so an edit inside a line needs none. Otherwise a new list with
/// room for `len` rows is made, into which each row is moved once. Errors: `Fault::Memory` only;
/// the report is unchanged.
fn room_for(
    alloc: Global,
    rows: &mut Vec<Row>,
    patches: &[Patch],
    len: usize,
) -> Result<Option<Vec<Row>>, Fault>
    requires within { length (patched 0 rows.old.items patches.now) ≤ len }
    requires few { growth_by patches.now < 2 ^ 64 }
    ensures room { IfOk result (λ room. HasRoomFor rows.new patches.now room) }
    ensures in_place { shift_count patches.now ≤ 1 → IfOk result (λ room. room ≡ None) }
    ensures anew { 2 ≤ shift_count patches.now → IfOk result (λ room. IsSome room) }
    ensures rows { rows.new.items ≡ rows.old.items }
    ensures fault { IfErr result (λ fault. fault ≡ Fault.Memory) }
{
    if shift_once(patches) {
        rows.reserve(growth(patches))?;
        return Ok(None);
    }
    let room = Vec::with_capacity(alloc, len)?;
    Ok(Some(room))
}

/// Returns all matches in a text, with the groups that a template needs: up to the last one that it
/// names; if it names no group except the whole match, only spans. Counts one search of a whole
/// text. Errors: `Fault::Memory` only.
fn matches_for(
    tick: &mut Lines,
    finder: &mut Finder,
    text: &Rope,
    template: &Template<'_>,
) -> Result<Matches, Fault>
    ensures found { IfOk result (λ matches.
        AreEnough (text_of text.now) finder.old template.now (matched matches)) }
    ensures fault { IfErr result (λ fault. fault ≡ Fault.Memory) }
    ensures finder { finder.new ≡ finder.old }
    ensures count { tick.new.count ≡ tick.old.count }
    ensures wholes { tick.new.wholes ≤ tick.old.wholes + 1 }
    ensures grows { tick.old.wholes ≤ tick.new.wholes }
{
    // For the proof: laws.
    rope_search_templates::laws::spans_are_enough();
    rope_search_templates::laws::first_groups_are_enough();
    if template.names_explicit_groups() {
        let groups = find_groups(tick, finder, text, template.group_count())?;
        return Ok(Matches::Grouped(groups));
    }
    let spans = find_spans(tick, finder, text)?;
    Ok(Matches::Spans(spans))
}

impl Search {
    /// Returns the patches that turn the report into that of the text after some changes, and room
    /// for them. Makes at most as many rows as the inserted texts have lines, and at most as many
    /// as the new text has. Errors: `Fault::Memory` only. The report is unchanged.
    pub fn patches(
        &mut self,
        tick: &mut Lines,
        alloc: Global,
        old: &Rope,
        new: &Rope,
        changes: &[Change],
    ) -> Result<Patches, Fault>
        requires report { IsReport (text_of old.now) self.old.finder self.old.rows.items }
        requires changed { (n : ℕ)
            × AreChanges changes.now 0 0 (text_of old.now) (text_of new.now) n }
        ensures fit { IfOk result (λ patches. FitIn self.new patches) }
        ensures report { IfOk result (λ patches.
            IsReport (text_of new.now) self.old.finder
            (patched 0 self.old.rows.items patches.patches.items)) }
        ensures few { IfOk result (λ patches.
            match_count (patched 0 self.old.rows.items patches.patches.items) < 2 ^ 64) }
        ensures changed { IfOk result (λ patches.
            ReplacesIn (text_of old.now) (text_of new.now) self.old.finder patches.changed) }
        ensures added { IfOk result (λ patches. patches.changed.added
            ≤ lines_spanned (bytes_of (text_of new.now)) changes.now) }
        ensures fault { IfErr result (λ fault. fault ≡ Fault.Memory) }
        ensures finder { self.new.finder ≡ self.old.finder }
        ensures rows { self.new.rows.items ≡ self.old.rows.items }
        ensures count { (n : ℕ) → AreChanges changes.now 0 0 (text_of old.now) (text_of new.now) n
            → tick.new.count ≤ tick.old.count + n }
        ensures once { MakesAtMost (line_count (text_of new.now)) tick.old tick.new }
    {
        // For the proof: laws, and the texts' facts.
        rope_search_reports::laws::few_matches();
        rope_search_reports::laws::a_row_a_line();
        let _ = old.len_lines();
        let _ = new.len_bytes();
        let len = new.len_lines();
        let patches = patches_of(tick, alloc, &mut self.finder, old, new, changes)?;
        let room = room_for(alloc, &mut self.rows, &patches, len)?;
        let changed = stretch_by(old, new, changes, &patches);
        Ok(Patches {
            patches,
            room,
            changed,
        })
    }

    /// Returns a text with all its matches replaced by the expansions of the template, the changes
    /// from the old text to it, and the patches from the old report to the new one. Errors:
    /// `Fault::Size` if the new text would have more bytes than the limit; `Fault::Memory`. The
    /// report is unchanged.
    pub fn replaced(
        &mut self,
        tick: &mut Lines,
        alloc: Global,
        limits: Limits,
        old: &Rope,
        template: &str,
    ) -> Result<Replaced, Fault>
        requires report { IsReport (text_of old.now) self.old.finder self.old.rows.items }
        ensures replaced { IfOk result (λ new. IsReplacementIn (text_of old.now) self.old.finder
            (chars template.now) new.count (text_of new.text)) }
        ensures changes { IfOk result (λ new. AreReplacements (text_of old.now) self.old.finder
            (chars template.now) (listed new.changes)) }
        ensures led { IfOk result (λ new.
            Lead (listed new.changes) (text_of old.now) (text_of new.text)) }
        ensures fit { IfOk result (λ new. FitIn self.new new.patches) }
        ensures report { IfOk result (λ new.
            IsReport (text_of new.text) self.old.finder
            (patched 0 self.old.rows.items new.patches.patches.items)) }
        ensures few { IfOk result (λ new.
            match_count (patched 0 self.old.rows.items new.patches.patches.items) < 2 ^ 64) }
        ensures changed { IfOk result (λ new. ReplacesIn (text_of old.now) (text_of new.text)
            self.old.finder new.patches.changed) }
        ensures added { IfOk result (λ new. new.patches.changed.added
            ≤ lines_spanned (bytes_of (text_of new.text)) (listed new.changes)) }
        ensures size { result ≡ Err Fault.Size
            → GetsTooLongIn limits.text (text_of old.now) self.old.finder (chars template.now) }
        ensures fits { OnOk result
            (GetsTooLongIn limits.text (text_of old.now) self.old.finder (chars template.now)
            → ⊥) }
        ensures fault { IfErr result (λ fault. (fault ≡ Fault.Size) ⊎ (fault ≡ Fault.Memory)) }
        ensures finder { self.new.finder ≡ self.old.finder }
        ensures rows { self.new.rows.items ≡ self.old.rows.items }
        ensures unmade { GetsTooLongIn limits.text (text_of old.now) self.old.finder
            (chars template.now) → tick.new.count ≡ tick.old.count }
        ensures count { (n : ℕ) → RowsOfReplacementIn (text_of old.now) self.old.finder
            (chars template.now) n → tick.new.count ≤ tick.old.count + n }
        ensures wholes { tick.new.wholes ≤ tick.old.wholes + 1 }
        ensures never_fall { NeverFall tick.old tick.new }
    {
        // For the proof: laws, and the text's facts.
        rope_search_reports::laws::replacements_are_changes();
        rope_search_reports::laws::one_list_of_groups();
        let _ = old.len_bytes();
        let template = Template::new(template);
        let matches = matches_for(tick, &mut self.finder, old, &template)?;
        if is_over(limits.text, old, &template, &matches) {
            return Err(Fault::Size);
        }
        let Replacement { text, changes } = replace_all(alloc, old, &template, &matches)?;
        let patches = self.patches(tick, alloc, old, &text, &changes)?;
        Ok(Replaced {
            count: matches.len(),
            text,
            changes: Changes::Many(changes),
            patches,
        })
    }

    /// Patches the report. Allocates nothing.
    pub fn apply(&mut self, patches: Patches)
        requires { FitIn self.old patches }
        ensures finder { self.new.finder ≡ self.old.finder }
        ensures rows { self.new.rows.items
            ≡ patched 0 self.old.rows.items patches.patches.items }
    {
        let Patches { patches, room, .. } = patches;
        match room {
            None => put_in_place(&mut self.rows, patches),
            Some(room) => put_patches(&mut self.rows, patches, room),
        }
    }

    /// Turns the report into that of the text after some changes, as `patches` and `apply` do, and
    /// returns the rows that are replaced. Errors: `Fault::Memory` only; the report is then
    /// unchanged.
    pub fn follow(
        &mut self,
        tick: &mut Lines,
        alloc: Global,
        old: &Rope,
        new: &Rope,
        changes: &[Change],
    ) -> Result<Stretch, Fault>
        requires report { IsReport (text_of old.now) self.old.finder self.old.rows.items }
        requires led { Lead changes.now (text_of old.now) (text_of new.now) }
        ensures report { OnOk result
            (IsReport (text_of new.now) self.old.finder self.new.rows.items) }
        ensures few { OnOk result (match_count self.new.rows.items < 2 ^ 64) }
        ensures changed { IfOk result (λ changed.
            ReplacesIn (text_of old.now) (text_of new.now) self.old.finder changed) }
        ensures added { IfOk result (λ changed. changed.added
            ≤ lines_spanned (bytes_of (text_of new.now)) changes.now) }
        ensures fault { IfErr result (λ fault. fault ≡ Fault.Memory) }
        ensures err { OnErr result (self.new.rows.items ≡ self.old.rows.items) }
        ensures finder { self.new.finder ≡ self.old.finder }
        ensures put { tick.new.count ≤
            tick.old.count + lines_put (bytes_of (text_of new.now)) changes.now }
        ensures once { MakesAtMost (line_count (text_of new.now)) tick.old tick.new }
    {
        // For the proof: a law, and the text's facts.
        rope_search_reports::laws::changes_put_lines();
        let _ = new.len_bytes();
        let patches = self.patches(tick, alloc, old, new, changes)?;
        let changed = patches.changed;
        self.apply(patches);
        Ok(changed)
    }

    /// Returns the first match in a whole text that starts at a position or after it: the positions
    /// where it starts and where it ends, or `None`. Errors: `Fault::Range` if the position is
    /// nowhere in the text; `Fault::Memory`. The report is unchanged.
    pub fn next_from(
        &mut self,
        tick: &mut Lines,
        text: &Rope,
        from: Position,
    ) -> Result<Option<(Position, Position)>, Fault>
        ensures found { IfOk result (λ found.
            TellsIn (text_of text.now) self.old.finder from found) }
        ensures range { (result ≡ Err Fault.Range)
            ↔ IsNowhere (text_of text.now) (from.line, from.column) }
        ensures fault { IfErr result (λ fault. (fault ≡ Fault.Range) ⊎ (fault ≡ Fault.Memory)) }
        ensures finder { self.new.finder ≡ self.old.finder }
        ensures rows { self.new.rows.items ≡ self.old.rows.items }
        ensures searches { SearchesOneWhole tick.old tick.new }
    {
        // For the proof: a law, and the text's facts.
        rope_search_reports::laws::finds_are_in_text();
        let Some(place) = place_of(text, from) else {
            return Err(Fault::Range);
        };
        let Some((start, end)) = find_from(tick, &mut self.finder, text, place.byte_idx)? else {
            return Ok(None);
        };
        Ok(Some((position_of(text, start), position_of(text, end))))
    }

    /// Returns the groups, as columns, of match `number`, from 0, in a line of a text. Errors:
    /// `Fault::Range` if there is no such line or no such match in it; `Fault::Memory`. If the line
    /// exists, it is searched and counted. The report is unchanged.
    pub fn groups_at(
        &mut self,
        tick: &mut Lines,
        text: &Rope,
        line: usize,
        number: usize,
    ) -> Result<Groups, Fault>
        ensures told { IfOk result (λ groups.
            TellsGroupsIn (text_of text.now) self.old.finder line number (Some groups)) }
        ensures range { result ≡ Err Fault.Range → (line_count (text_of text.now) ≤ line)
            ⊎ TellsGroupsIn (text_of text.now) self.old.finder line number None }
        ensures memory { result ≡ Err Fault.Memory → line < line_count (text_of text.now) }
        ensures fault { IfErr result (λ fault. (fault ≡ Fault.Range) ⊎ (fault ≡ Fault.Memory)) }
        ensures finder { self.new.finder ≡ self.old.finder }
        ensures rows { self.new.rows.items ≡ self.old.rows.items }
        ensures searched { line < line_count (text_of text.now)
            → SearchesOneLine tick.old tick.new }
        ensures unsearched { line_count (text_of text.now) ≤ line → tick.new ≡ tick.old }
    {
        if line >= text.len_lines() {
            return Err(Fault::Range);
        }
        match groups_at(tick, &mut self.finder, text, line, number)? {
            Some(groups) => Ok(groups),
            None => Err(Fault::Range),
        }
    }
}
