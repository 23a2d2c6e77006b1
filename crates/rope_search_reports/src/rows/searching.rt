//! All matches of a haystack, in order: those of a line as columns, those of a whole text with
//! their groups or as spans only.
ghost use Rattle.std.specs.Prelude.{◌≡◌, ◌+◌, ◌-◌, ◌*◌, ◌^◌, ◌≤◌, min, false, ℕ, List, [], None, IfOk, IfErr, OnOk, length, map};
ghost use Rattle.std.specs.List.{range_with_len};
ghost use Rattle.ropey.specs.Slices.{slice_bytes};
ghost use Rattle.regex_cursor.specs.Regexes.{IsRegexOf};
ghost use Rattle.rope_search_changes.specs.FirstGroups.{first_groups};
ghost use Rattle.rope_search_reports.specs.Text.{bytes_of};
ghost use Rattle.rope_search_reports.specs.Replacement.{AreMatchesIn, alone};
ghost use Rattle.rope_search_reports.specs.Drafts.{HoldsText, own_text};
ghost use Rattle.rope_search_reports.specs.Finders.{AreFirstGroupsOf, AreSpansOf, IsRowOf, group_told};

use super::Lines;
use super::counted::{CountedRegex, Cursor, Pass, RopeyCursor, Slot, group_in};
use crate::line::Line;
use rope_search_changes::Groups;
use rope_search_io::Fault;
use ropey::RopeSlice;
use std::alloc::Global;

/// The number of groups of `Groups`.
pub const GROUP_COUNT: usize = 10;

/// The number of their slots.
pub const SLOT_COUNT: usize = 20;

/// Returns the spans of the first groups, this number of them, from the offsets in their slots. The
/// others are `None`.
pub fn groups_in(slots: &[Slot], count: usize) -> Groups
    requires few { count ≤ 10 }
    requires slots { 2 * count ≤ length slots.now }
    ensures { result ≡ first_groups count (map (group_told slots.now) (range_with_len 0 10)) }
{
    let mut groups = [None; GROUP_COUNT];
    for k in 0..count {
        groups[k] = group_in(slots, k);
    }
    groups
}

/// Writes the first groups of all matches of a search that has begun into an empty list: of each
/// match as many as there are pairs of slots.
fn write_groups<C: Cursor>(
    regex: &mut CountedRegex,
    pass: &mut Pass<C>,
    slots: &mut [Slot],
    count: usize,
    groups: &mut Vec<Groups>,
) -> Result<(), Fault>
    requires some { 1 ≤ count }
    requires few { count ≤ 10 }
    requires slots { length slots.old ≡ 2 * count }
    requires built { (text : List ℕ) × IsRegexOf text regex.old }
    requires by { pass.old.by ≡ regex.old }
    requires first { pass.old.last ≡ None }
    requires goes_on { pass.old.is_over ≡ false }
    requires empty { groups.old.items ≡ [] }
    ensures groups { (text : List ℕ) → (built : IsRegexOf text regex.old) → OnOk result
        (AreFirstGroupsOf count built.tree pass.old.content groups.new.items) }
    ensures same { regex.new ≡ regex.old }
    ensures fault { IfErr result (λ fault. fault ≡ Fault.Memory) }
{
    while let Some(_) = regex.next(pass, slots)? {
        groups.push(groups_in(slots, count))?;
    }
    Ok(())
}

/// Returns the first groups of all matches in a whole text, this number of each. The others are
/// `None`. Fewer take less time: with the whole match alone, no groups are searched for. Counts one
/// search of a whole text as it begins.
pub fn all_groups(
    tick: &mut Lines,
    alloc: Global,
    regex: &mut CountedRegex,
    text: RopeSlice<'_>,
    count: usize,
) -> Result<Vec<Groups>, Fault>
    requires some { 1 ≤ count }
    requires few { count ≤ 10 }
    requires built { (text : List ℕ) × IsRegexOf text regex.old }
    ensures groups { (pattern : List ℕ) → (built : IsRegexOf pattern regex.old) → IfOk result
        (λ groups. AreFirstGroupsOf count built.tree (slice_bytes text.entry) groups.items) }
    ensures stand { IfOk result (λ groups. AreMatchesIn (slice_bytes text.entry) groups.items) }
    ensures same { regex.new ≡ regex.old }
    ensures fault { IfErr result (λ fault. fault ≡ Fault.Memory) }
    ensures count { tick.new.count ≡ tick.old.count }
    ensures wholes { tick.new.wholes ≡ min (tick.old.wholes + 1) (2 ^ 64 - 1) }
    ensures grows { tick.old.wholes ≤ tick.new.wholes }
    ensures looked { tick.new.looked ≡ tick.old.looked }
{
    let mut pass = regex.in_text(tick, text);
    let mut groups = Vec::new(alloc);
    let mut slots = [None; SLOT_COUNT];
    write_groups(
        regex,
        &mut pass,
        &mut slots[..2 * count],
        count,
        &mut groups,
    )?;
    Ok(groups)
}

/// Writes the spans of all matches of a search that has begun into an empty list.
fn write_spans<C: Cursor>(
    regex: &mut CountedRegex,
    pass: &mut Pass<C>,
    spans: &mut Vec<(usize, usize)>,
) -> Result<(), Fault>
    requires built { (text : List ℕ) × IsRegexOf text regex.old }
    requires by { pass.old.by ≡ regex.old }
    requires first { pass.old.last ≡ None }
    requires goes_on { pass.old.is_over ≡ false }
    requires empty { spans.old.items ≡ [] }
    ensures spans { (text : List ℕ) → (built : IsRegexOf text regex.old)
        → OnOk result (AreSpansOf built.tree pass.old.content spans.new.items) }
    ensures same { regex.new ≡ regex.old }
    ensures fault { IfErr result (λ fault. fault ≡ Fault.Memory) }
{
    let mut slots = [None; 2];
    while let Some(span) = regex.next(pass, &mut slots)? {
        spans.push(span)?;
    }
    Ok(())
}

/// Returns the spans of all matches in a whole text. Counts one search of a whole text as it
/// begins.
pub fn all_spans(
    tick: &mut Lines,
    alloc: Global,
    regex: &mut CountedRegex,
    text: RopeSlice<'_>,
) -> Result<Vec<(usize, usize)>, Fault>
    requires { (text : List ℕ) × IsRegexOf text regex.old }
    ensures spans { (pattern : List ℕ) → (built : IsRegexOf pattern regex.old)
        → IfOk result (λ spans. AreSpansOf built.tree (slice_bytes text.entry) spans.items) }
    ensures stand { IfOk result (λ spans.
        AreMatchesIn (slice_bytes text.entry) (map alone spans.items)) }
    ensures same { regex.new ≡ regex.old }
    ensures fault { IfErr result (λ fault. fault ≡ Fault.Memory) }
    ensures count { tick.new.count ≡ tick.old.count }
    ensures wholes { tick.new.wholes ≡ min (tick.old.wholes + 1) (2 ^ 64 - 1) }
    ensures grows { tick.old.wholes ≤ tick.new.wholes }
    ensures looked { tick.new.looked ≡ tick.old.looked }
{
    let mut pass = regex.in_text(tick, text);
    let mut spans = Vec::new(alloc);
    write_spans(regex, &mut pass, &mut spans)?;
    Ok(spans)
}

/// Writes the columns of all matches in a line into an empty list. Counts one row.
pub fn columns_in_line(
    tick: &mut Lines,
    columns: &mut Vec<(usize, usize)>,
    regex: &mut CountedRegex,
    line: Line<'_>,
) -> Result<(), Fault>
    requires built { (text : List ℕ) × IsRegexOf text regex.old }
    requires holds { HoldsText line }
    requires empty { columns.old.items ≡ [] }
    ensures row { (text : List ℕ) → (built : IsRegexOf text regex.old)
        → OnOk result (IsRowOf built.tree (own_text line.entry) columns.new.items) }
    ensures same { regex.new ≡ regex.old }
    ensures fault { IfErr result (λ fault. fault ≡ Fault.Memory) }
    ensures count { tick.new.count ≡ min (tick.old.count + 1) (2 ^ 64 - 1) }
    ensures grows { tick.old.count ≤ tick.new.count }
    ensures wholes { tick.new.wholes ≡ tick.old.wholes }
    ensures looked { tick.new.looked ≡ tick.old.looked }
{
    match line {
        Line::Whole(text) => columns_in(tick, columns, regex, text, &line),
        Line::Narrow(text) => columns_in(tick, columns, regex, text, &line),
        Line::Parted(slice) => columns_in(tick, columns, regex, RopeyCursor::new(slice), &line),
    }
}

/// Writes the columns of all matches in a line, which the cursor shows, into an empty list. Counts
/// one row as it begins.
fn columns_in<C: Cursor + Drop>(
    tick: &mut Lines,
    columns: &mut Vec<(usize, usize)>,
    regex: &mut CountedRegex,
    cursor: C,
    line: &Line<'_>,
) -> Result<(), Fault>
    requires built { (text : List ℕ) × IsRegexOf text regex.old }
    requires holds { HoldsText line.now }
    requires shows { (C.state cursor).content ≡ bytes_of (own_text line.now) }
    requires empty { columns.old.items ≡ [] }
    ensures row { (text : List ℕ) → (built : IsRegexOf text regex.old)
        → OnOk result (IsRowOf built.tree (own_text line.now) columns.new.items) }
    ensures same { regex.new ≡ regex.old }
    ensures fault { IfErr result (λ fault. fault ≡ Fault.Memory) }
    ensures count { tick.new.count ≡ min (tick.old.count + 1) (2 ^ 64 - 1) }
    ensures grows { tick.old.count ≤ tick.new.count }
    ensures wholes { tick.new.wholes ≡ tick.old.wholes }
    ensures looked { tick.new.looked ≡ tick.old.looked }
{
    let mut pass = regex.in_line(tick, cursor, line.len_bytes());
    write_spans(regex, &mut pass, columns)?;
    line.turn_into_columns(columns.as_mut_slice());
    Ok(())
}
