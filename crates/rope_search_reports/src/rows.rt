//! Rows, the searches of a line or of a whole text, and the counts of these searches.
ghost use Rattle.std.specs.Prelude.{◌≡◌, ◌+◌, ◌-◌, ◌^◌, ◌<◌, ◌≤◌, ℕ, List, map, min, IfOk, IfErr, OnOk};
ghost use Rattle.std.specs.Str.{IsCharBoundary};
ghost use Rattle.ropey.specs.Chunks.{text_of};
ghost use Rattle.ropey.specs.Slices.{slice_text};
ghost use Rattle.rope_search_reports.specs.Text.{bytes_of, line_count};
ghost use Rattle.rope_search_reports.specs.Pattern.{FindsSpan};
ghost use Rattle.rope_search_reports.specs.Position.{line_text};
ghost use Rattle.rope_search_reports.specs.LineGroups.{AddsGroupsOfLine, TellsGroups};
ghost use Rattle.rope_search_reports.specs.Report.{IsRow};
ghost use Rattle.rope_search_reports.specs.Matches.{AreFirstGroups, AreGroups, IsMatches};
ghost use Rattle.rope_search_reports.specs.Replacement.{AreMatchesIn, alone};
ghost use Rattle.rope_search_reports.specs.Drafts.{HoldsText, own_text};

mod counted;
mod engine;
mod groups;
mod matches;
mod searching;

use self::matches::Found;
use self::searching::GROUP_COUNT;
use crate::line::Line;
use crate::walk::without_break;
pub use engine::{Finder, PATTERN_LEN};
use rope_search_changes::Groups;
use rope_search_io::Fault;
use ropey::{Rope, RopeSlice};
use std::alloc::Global;
use std::marker::Model;

/// Shows that a call comes from a program in C, which has no runtime. It has no bytes, so C passes
/// nothing for it. In Rattle, none can be made.
#[repr(C)]
#[derive(Drop)]
pub struct CallerInC {
    alloc: Global,
}

/// Counts the rows that were made, each by a search of one line, the searches of whole texts, and
/// the lines that were scanned for an offset at which a match may begin. All counts begin at 0 and
/// end at `u64::MAX`. It is made from the runtime, or for a caller in C, and can't be copied, so a
/// call that gets one counts in it.
#[derive(Drop)]
pub struct Lines {
    count: u64,
    wholes: u64,
    // For contracts only: it bounds the lines that are scanned, and no call returns it.
    looked: u64,
}

impl Model for Lines {
    ghost use Rattle.rope_search_reports.specs.Ticks.{Ticks};

    ghost Value = { Ticks };

    ghost view = { λ l. record { count = l.count; wholes = l.wholes; looked = l.looked } };

    ghost inverse = { λ t. record { count = t.count; wholes = t.wholes; looked = t.looked } };
}

impl Lines {
    /// Returns counts of 0.
    pub fn new(_rt: &HostRuntime) -> Lines
        ensures { result ≡ record { count = 0; wholes = 0; looked = 0 } }
    {
        Lines {
            count: 0,
            wholes: 0,
            looked: 0,
        }
    }

    /// Returns counts of 0 for a caller in C.
    pub fn for_caller_in_c(caller: CallerInC) -> Lines
        ensures { result ≡ record { count = 0; wholes = 0; looked = 0 } }
    {
        let CallerInC { alloc: _ } = caller;
        Lines {
            count: 0,
            wholes: 0,
            looked: 0,
        }
    }

    /// Returns the number of rows that were made.
    pub fn count(&self) -> u64
        ensures { result ≡ self.now.count }
    {
        self.count
    }

    /// Returns the number of searches of a whole text.
    pub fn wholes(&self) -> u64
        ensures { result ≡ self.now.wholes }
    {
        self.wholes
    }

    /// Counts one more row.
    fn add_row(&mut self)
        ensures count { self.new.count ≡ min (self.old.count + 1) (2 ^ 64 - 1) }
        ensures grows { self.old.count ≤ self.new.count }
        ensures wholes { self.new.wholes ≡ self.old.wholes }
        ensures looked { self.new.looked ≡ self.old.looked }
    {
        let count = &mut self.count;
        *count = count.saturating_add(1);
    }

    /// Counts one more search of a whole text.
    fn add_whole(&mut self)
        ensures count { self.new.count ≡ self.old.count }
        ensures wholes { self.new.wholes ≡ min (self.old.wholes + 1) (2 ^ 64 - 1) }
        ensures grows { self.old.wholes ≤ self.new.wholes }
        ensures looked { self.new.looked ≡ self.old.looked }
    {
        let wholes = &mut self.wholes;
        *wholes = wholes.saturating_add(1);
    }

    /// Counts this number of lines as scanned.
    fn add_looked(&mut self, count: usize)
        ensures count { self.new.count ≡ self.old.count }
        ensures wholes { self.new.wholes ≡ self.old.wholes }
        ensures looked { self.new.looked ≡ min (self.old.looked + count) (2 ^ 64 - 1) }
    {
        let looked = &mut self.looked;
        *looked = looked.saturating_add(count as u64);
    }
}

/// The matches of a pattern in one line, from left to right: where each starts and where it ends,
/// in UTF-16 code units from the line's start. Only a search of a line makes one, which is counted,
/// and none can be copied.
#[derive(Drop)]
pub struct Row {
    matches: Found,
}

const _: () = prove!(size_of::<Row>() == 16);

impl Model for Row {
    ghost use Rattle.std.specs.Prelude.{ℕ, List};
    ghost use Rattle.rope_search_reports.specs.Finders.{matches_in};

    ghost Value = { List (ℕ × ℕ) };

    ghost view = { λ row. matches_in row.matches };
}

impl Row {
    /// Returns the start and the end of each match, in UTF-16 code units from the line's start.
    pub fn matches(&self) -> &[(usize, usize)]
        ensures { result.now ≡ self.now }
    {
        self.matches.as_slice()
    }
}

/// Searches one line's text in place, and returns its row. Counts one row, also after an error.
/// Rows are made only here.
///
/// Errors: `Fault::Memory`; the finder remains usable.
#[inline(always)]
pub(crate) fn row_of(tick: &mut Lines, finder: &mut Finder, line: Line<'_>) -> Result<Row, Fault>
    requires { HoldsText line }
    ensures row { IfOk result (λ row. IsRow finder.old (own_text line.entry) row) }
    ensures fault { IfErr result (λ fault. fault ≡ Fault.Memory) }
    ensures finder { finder.new ≡ finder.old }
    ensures count { tick.new.count ≡ min (tick.old.count + 1) (2 ^ 64 - 1) }
    ensures grows { tick.old.count ≤ tick.new.count }
    ensures wholes { tick.new.wholes ≡ tick.old.wholes }
    ensures looked { tick.new.looked ≡ tick.old.looked }
{
    let matches = finder.columns_of(tick, line)?;
    Ok(Row { matches })
}

/// Searches one line's text in place, given without its break, and returns its row: the first match
/// from the line's start on, and each further one from the end of the one before, except an empty
/// match there. Counts one row, also after an error.
///
/// # Errors
///
/// `Fault::Memory`; the finder remains usable.
///
/// # Complexity
///
/// Linear in the line, times the pattern's weight.
pub fn search_line(tick: &mut Lines, finder: &mut Finder, line: RopeSlice<'_>) -> Result<Row, Fault>
    ensures row { IfOk result (λ row. IsRow finder.old (slice_text line.entry) row) }
    ensures fault { IfErr result (λ fault. fault ≡ Fault.Memory) }
    ensures finder { finder.new ≡ finder.old }
    ensures count { tick.new.count ≡ min (tick.old.count + 1) (2 ^ 64 - 1) }
    ensures grows { tick.old.count ≤ tick.new.count }
    ensures wholes { tick.new.wholes ≡ tick.old.wholes }
    ensures looked { tick.new.looked ≡ tick.old.looked }
{
    row_of(tick, finder, Line::of(line))
}

/// Returns the groups 0 to 9 of a match in a line of a text, given by its number among those that
/// `search_line` finds, from 0. Of each group it returns where it starts and where it ends, in
/// UTF-16 code units from the line's start. Group 0 is the whole match; a group that the pattern
/// doesn't have, or that takes no part in the match, is `None`. Returns `None` if the line has no
/// such match. Only that line is searched, up to the match. Counts one row, also after an error.
///
/// # Errors
///
/// `Fault::Memory`; the finder remains usable.
///
/// # Requires
///
/// `line_idx < len_lines()`
///
/// # Complexity
///
/// Linear in the line, times the pattern's weight, and `O(log n)` for each group.
pub fn groups_at(
    tick: &mut Lines,
    finder: &mut Finder,
    text: &Rope,
    line_idx: usize,
    number: usize,
) -> Result<Option<Groups>, Fault>
    requires { line_idx < line_count (text_of text.now) }
    ensures told { IfOk result (λ told.
        TellsGroups finder.old (line_text (text_of text.now) line_idx) number told) }
    ensures fault { IfErr result (λ fault. fault ≡ Fault.Memory) }
    ensures finder { finder.new ≡ finder.old }
    ensures count { tick.new.count ≡ min (tick.old.count + 1) (2 ^ 64 - 1) }
    ensures grows { tick.old.count ≤ tick.new.count }
    ensures wholes { tick.new.wholes ≡ tick.old.wholes }
    ensures looked { tick.new.looked ≡ tick.old.looked }
{
    // For the proof: the text's facts.
    let _ = text.len_bytes();
    finder.groups_at(tick, without_break(text.line(line_idx)), number)
}

/// Appends the groups 0 to 9 of all matches in a line of a text, as `search_line` finds them: of
/// each the byte indices of the text where it starts and where it ends. Group 0 is the whole match;
/// one that the pattern doesn't have, or that takes no part in the match, is `None`. That line
/// alone is searched, once, and one row is counted, also after an error.
///
/// # Errors
///
/// `Fault::Memory`; the list may then have some of the matches, and the finder remains usable.
///
/// # Requires
///
/// `line_idx < len_lines()`
///
/// # Complexity
///
/// Linear in the line, times the pattern's weight, and `O(log n)`.
pub fn add_groups_of_line(
    tick: &mut Lines,
    finder: &mut Finder,
    text: &Rope,
    line_idx: usize,
    groups: &mut Vec<Groups>,
) -> Result<(), Fault>
    requires { line_idx < line_count (text_of text.now) }
    ensures groups { OnOk result (AddsGroupsOfLine (text_of text.now) finder.old line_idx
        groups.old.items groups.new.items) }
    ensures fault { IfErr result (λ fault. fault ≡ Fault.Memory) }
    ensures finder { finder.new ≡ finder.old }
    ensures count { tick.new.count ≡ min (tick.old.count + 1) (2 ^ 64 - 1) }
    ensures grows { tick.old.count ≤ tick.new.count }
    ensures wholes { tick.new.wholes ≡ tick.old.wholes }
    ensures looked { tick.new.looked ≡ tick.old.looked }
{
    finder.add_groups_of_line(tick, text, line_idx, groups)
}

/// Returns the first match in a whole text from a byte index on, as the byte indices of its start
/// and its end. Look-around assertions see the text before that index. Counts one search of a whole
/// text, also after an error.
///
/// # Errors
///
/// `Fault::Memory`; the finder remains usable.
///
/// # Requires
///
/// `from` is a character boundary of the text.
///
/// # Complexity
///
/// Linear in the text after `from`, times the pattern's weight.
pub fn find_from(
    tick: &mut Lines,
    finder: &mut Finder,
    text: &Rope,
    from: usize,
) -> Result<Option<(usize, usize)>, Fault>
    requires { IsCharBoundary (bytes_of (text_of text.now)) from }
    ensures found { IfOk result (λ span.
        FindsSpan finder.old (bytes_of (text_of text.now)) from span) }
    ensures fault { IfErr result (λ fault. fault ≡ Fault.Memory) }
    ensures finder { finder.new ≡ finder.old }
    ensures count { tick.new.count ≡ tick.old.count }
    ensures wholes { tick.new.wholes ≡ min (tick.old.wholes + 1) (2 ^ 64 - 1) }
    ensures grows { tick.old.wholes ≤ tick.new.wholes }
    ensures looked { tick.new.looked ≡ tick.old.looked }
{
    finder.first_in(tick, text, from)
}

/// Returns all matches in a whole text with their groups 0 to 9: the first from the text's start
/// on, each further one from the end of the one before, except an empty match there. Counts one
/// search of a whole text, also after an error.
///
/// # Errors
///
/// `Fault::Memory`; the finder remains usable.
///
/// # Complexity
///
/// Time is linear in the text, times the pattern's weight. Memory is proportional to the number of
/// matches.
pub fn find_all(tick: &mut Lines, finder: &mut Finder, text: &Rope) -> Result<Vec<Groups>, Fault>
    ensures found { IfOk result (λ groups.
        AreGroups finder.old (bytes_of (text_of text.now)) groups.items) }
    ensures stand { IfOk result (λ groups.
        AreMatchesIn (bytes_of (text_of text.now)) groups.items) }
    ensures fault { IfErr result (λ fault. fault ≡ Fault.Memory) }
    ensures finder { finder.new ≡ finder.old }
    ensures count { tick.new.count ≡ tick.old.count }
    ensures wholes { tick.new.wholes ≡ min (tick.old.wholes + 1) (2 ^ 64 - 1) }
    ensures grows { tick.old.wholes ≤ tick.new.wholes }
    ensures looked { tick.new.looked ≡ tick.old.looked }
{
    finder.groups_of(tick, text, GROUP_COUNT)
}

/// Returns all matches in a whole text, as `find_all` finds them, with the groups below a number,
/// from 1 to 10; the others are `None`. Counts one search of a whole text, also after an error. It
/// takes less time the fewer groups are requested; with group 0 alone `find_spans` takes less
/// memory.
///
/// # Errors
///
/// `Fault::Memory`; the finder remains usable.
///
/// # Requires
///
/// `1 <= count` and `count <= 10`
pub fn find_groups(
    tick: &mut Lines,
    finder: &mut Finder,
    text: &Rope,
    count: usize,
) -> Result<Vec<Groups>, Fault>
    requires some { 1 ≤ count }
    requires few { count ≤ 10 }
    ensures found { IfOk result (λ groups.
        AreFirstGroups count finder.old (bytes_of (text_of text.now)) groups.items) }
    ensures stand { IfOk result (λ groups.
        AreMatchesIn (bytes_of (text_of text.now)) groups.items) }
    ensures fault { IfErr result (λ fault. fault ≡ Fault.Memory) }
    ensures finder { finder.new ≡ finder.old }
    ensures count { tick.new.count ≡ tick.old.count }
    ensures wholes { tick.new.wholes ≡ min (tick.old.wholes + 1) (2 ^ 64 - 1) }
    ensures grows { tick.old.wholes ≤ tick.new.wholes }
    ensures looked { tick.new.looked ≡ tick.old.looked }
{
    finder.groups_of(tick, text, count)
}

/// Returns the spans of all matches in a whole text, as `find_all` finds them: the byte indices of
/// the start and the end of each. Counts one search of a whole text, also after an error. It takes
/// a fifteenth of the memory of `find_all`, and no time for groups.
///
/// # Errors
///
/// `Fault::Memory`; the finder remains usable.
pub fn find_spans(
    tick: &mut Lines,
    finder: &mut Finder,
    text: &Rope,
) -> Result<Vec<(usize, usize)>, Fault>
    ensures found { IfOk result (λ spans.
        IsMatches finder.old (bytes_of (text_of text.now)) spans.items) }
    ensures stand { IfOk result (λ spans.
        AreMatchesIn (bytes_of (text_of text.now)) (map alone spans.items)) }
    ensures fault { IfErr result (λ fault. fault ≡ Fault.Memory) }
    ensures finder { finder.new ≡ finder.old }
    ensures count { tick.new.count ≡ tick.old.count }
    ensures wholes { tick.new.wholes ≡ min (tick.old.wholes + 1) (2 ^ 64 - 1) }
    ensures grows { tick.old.wholes ≤ tick.new.wholes }
    ensures looked { tick.new.looked ≡ tick.old.looked }
{
    finder.spans_of(tick, text)
}
