//! The groups of one match in a line, and those of all its matches.
ghost use Rattle.std.specs.Prelude.{◌≡◌, ℕ, ◌+◌, ◌-◌, ◌^◌, ◌<◌, ◌≤◌, min, option_map, List, IfOk, IfErr, IfSome, OnOk};
ghost use Rattle.str_indices.specs.Text.{byte_len};
ghost use Rattle.ropey.specs.Slices.{slice_bytes, slice_text};
ghost use Rattle.regex_cursor.specs.Regexes.{IsRegexOf};
ghost use Rattle.rope_search_reports.specs.Replacement.{HasSpansIn, IsSpanIn};
ghost use Rattle.rope_search_reports.specs.LineGroups.{AddsGroupsOf, IsAmongGroups, moved, moved_span};

use super::Lines;
use super::counted::{CountedRegex, RopeyCursor};
use super::searching::{GROUP_COUNT, SLOT_COUNT, groups_in};
use rope_search_changes::Groups;
use rope_search_io::Fault;
use ropey::RopeSlice;

/// Returns the groups of a match in a line, given by its number from 0, or `None` if there is no
/// such match. Counts one row as it begins.
pub fn groups_of_match(
    tick: &mut Lines,
    regex: &mut CountedRegex,
    line: RopeSlice<'_>,
    number: usize,
) -> Result<Option<Groups>, Fault>
    requires { (text : List ℕ) × IsRegexOf text regex.old }
    ensures groups { (pattern : List ℕ) → (built : IsRegexOf pattern regex.old)
        → IfOk result (λ told. IsAmongGroups built.tree (slice_bytes line.entry) number told) }
    ensures stand { IfOk result (λ told. IfSome told (HasSpansIn (slice_bytes line.entry))) }
    ensures same { regex.new ≡ regex.old }
    ensures fault { IfErr result (λ fault. fault ≡ Fault.Memory) }
    ensures count { tick.new.count ≡ min (tick.old.count + 1) (2 ^ 64 - 1) }
    ensures grows { tick.old.count ≤ tick.new.count }
    ensures wholes { tick.new.wholes ≡ tick.old.wholes }
    ensures looked { tick.new.looked ≡ tick.old.looked }
{
    let mut pass = regex.in_line(tick, RopeyCursor::new(line), line.len_bytes());
    let mut slots = [None; SLOT_COUNT];
    // The number of matches before the requested one.
    let mut left = number;
    while let Some(_) = regex.next(&mut pass, &mut slots)? {
        if left == 0 {
            return Ok(Some(groups_in(&slots, GROUP_COUNT)));
        }
        left -= 1;
    }
    Ok(None)
}

/// Returns a span by offsets of the text, given by offsets of a line and where that starts.
fn moved_span(start: usize, span: Option<(usize, usize)>) -> Option<(usize, usize)>
    requires { IfSome span (λ span. (start + span.0 < 2 ^ 64) × (start + span.1 < 2 ^ 64)) }
    ensures { result ≡ option_map (moved_span start) span }
{
    match span {
        Some((from, to)) => Some((start + from, start + to)),
        None => None,
    }
}

/// Returns groups by offsets of the text, given by offsets of a line and where that starts.
fn moved(line: &RopeSlice<'_>, start: usize, groups: &Groups) -> Groups
    requires spans { HasSpansIn (slice_bytes line.now) groups.now }
    requires fits { start + byte_len (slice_text line.now) < 2 ^ 63 }
    ensures { result ≡ moved start groups.now }
{
    // For the proof: the slice's facts.
    let _ = line.len_bytes();
    let mut told = [None; 10];
    for k in 0..10 {
        told[k] = moved_span(start, groups[k]);
    }
    told
}

/// Appends the groups of all matches in a line, by offsets of the text, given where the line
/// starts. Counts one row as the search begins.
pub fn add_groups(
    tick: &mut Lines,
    regex: &mut CountedRegex,
    line: RopeSlice<'_>,
    start: usize,
    groups: &mut Vec<Groups>,
) -> Result<(), Fault>
    requires built { (text : List ℕ) × IsRegexOf text regex.old }
    requires fits { start + byte_len (slice_text line) < 2 ^ 63 }
    ensures groups { (pattern : List ℕ) → (built : IsRegexOf pattern regex.old)
        → OnOk result (AddsGroupsOf built.tree (slice_bytes line.entry) start groups.old.items
        groups.new.items) }
    ensures same { regex.new ≡ regex.old }
    ensures fault { IfErr result (λ fault. fault ≡ Fault.Memory) }
    ensures count { tick.new.count ≡ min (tick.old.count + 1) (2 ^ 64 - 1) }
    ensures grows { tick.old.count ≤ tick.new.count }
    ensures wholes { tick.new.wholes ≡ tick.old.wholes }
    ensures looked { tick.new.looked ≡ tick.old.looked }
{
    let mut pass = regex.in_line(tick, RopeyCursor::new(line), line.len_bytes());
    let mut slots = [None; SLOT_COUNT];
    while let Some(_) = regex.next(&mut pass, &mut slots)? {
        groups.push(moved(&line, start, &groups_in(&slots, GROUP_COUNT)))?;
    }
    Ok(())
}
