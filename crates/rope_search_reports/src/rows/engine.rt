//! A pattern that is ready to search, and its searches: for rows, matches, groups, and lines
//! without a match.
ghost use Rattle.std.specs.Prelude.{◌≡◌, ◌+◌, ◌-◌, ◌^◌, ◌<◌, ◌≤◌, ◌⊎◌, ℕ, List, [], length, map, min, chars, IfOk, IfErr, IfSome, Err, OnOk};
ghost use Rattle.std.specs.Str.{IsCharBoundary};
ghost use Rattle.str_indices.specs.Text.{byte_len};
ghost use Rattle.ropey.specs.Chunks.{text_of};
ghost use Rattle.ropey.specs.Slices.{slice_bytes, slice_text};
ghost use Rattle.rope_search_reports.specs.Text.{bytes_of, line_count};
ghost use Rattle.rope_search_reports.specs.Pattern.{IsPattern, IsTooHeavy, SpellsNone, FindsSpan, pattern_limit};
ghost use Rattle.rope_search_reports.specs.Position.{line_start, line_text};
ghost use Rattle.rope_search_reports.specs.LineGroups.{AddsGroupsOfLine, TellsGroups};
ghost use Rattle.rope_search_reports.specs.Report.{IsRow};
ghost use Rattle.rope_search_reports.specs.Matches.{AreFirstGroups, IsMatches};
ghost use Rattle.rope_search_reports.specs.Replacement.{AreMatchesIn, alone};
ghost use Rattle.rope_search_reports.specs.Finders.{matches_in};
ghost use Rattle.rope_search_reports.specs.Drafts.{HaveNoMatches, FindsNoneBetween, HoldsText, own_text};

use super::Lines;
use super::counted::{BuildError, CountedRegex, RopeyCursor};
use super::groups::{add_groups, groups_of_match};
use super::matches::Found;
use super::searching::{all_groups, all_spans, columns_in_line};
use crate::columns::groups_by_columns;
use crate::line::Line;
use crate::line_texts::line_text;
use crate::pattern_text::PatternText;
use crate::walk::Walk;
use rope_search_changes::Groups;
use rope_search_io::Fault;
use ropey::{Rope, RopeSlice};
use std::alloc::Global;
use std::marker::Model;

/// The maximum number of bytes of a pattern.
pub const PATTERN_LEN: usize = 65_536;

/// A pattern that is ready to search, with the memory that its searches use again. It can't be
/// copied.
pub struct Finder {
    alloc: Global,
    regex: CountedRegex,
    // Whether the pattern is known not to match the empty text.
    is_never_empty: bool,
    // The columns of the matches in the last line that was searched.
    columns: Vec<(usize, usize)>,
    // For contracts only.
    pattern: PatternText,
}

// Written out, so that no crate above proves again how the fields are dropped.
impl Drop for Finder {
    fn drop(self) {
        let Finder {
            alloc: _alloc,
            regex: _regex,
            is_never_empty: _is_never_empty,
            columns: _columns,
            pattern: _pattern,
        } = self;
    }
}

impl Model for Finder {
    ghost use Rattle.std.specs.Prelude.{ℕ, List};
    ghost use Rattle.rope_search_reports.specs.Finders.{IsFinderOf};

    ghost Value = { List ℕ };

    ghost view = { λ f. f.pattern };

    ghost invariant = { λ f. IsFinderOf f.pattern f.regex f.is_never_empty };
}

impl Finder {
    /// Returns a finder for a pattern, with the default settings of a regex. Time and memory are
    /// proportional to the pattern's weight.
    ///
    /// # Errors
    ///
    /// `Fault::Limit` if the pattern has more than 65,536 bytes, before anything is allocated, or a
    /// weight above 262,144; `Fault::Pattern` if it is no pattern; `Fault::Memory`.
    pub fn new(alloc: Global, pattern: &str) -> Result<Finder, Fault>
        ensures ok { IfOk result (λ finder. finder ≡ chars pattern.now) }
        ensures is_pattern { IfOk result (λ finder. IsPattern finder) }
        ensures too_long { pattern_limit < length pattern.now → result ≡ Err Fault.Limit }
        ensures limit { result ≡ Err Fault.Limit
            → (pattern_limit < length pattern.now) ⊎ IsTooHeavy (chars pattern.now) }
        ensures no_pattern { result ≡ Err Fault.Pattern
            → (length pattern.now ≤ pattern_limit) × SpellsNone (chars pattern.now) }
        ensures fault { IfErr result (λ fault.
            (fault ≡ Fault.Limit) ⊎ ((fault ≡ Fault.Pattern) ⊎ (fault ≡ Fault.Memory))) }
    {
        if pattern.len() > PATTERN_LEN {
            return Err(Fault::Limit);
        }
        let regex = match CountedRegex::new(alloc, pattern) {
            Ok(regex) => regex,
            Err(BuildError::Syntax { .. }) => return Err(Fault::Pattern),
            Err(BuildError::Size { .. }) => return Err(Fault::Limit),
            Err(BuildError::Memory) => return Err(Fault::Memory),
        };
        // This scans for literals, and searches nothing.
        let is_never_empty = regex.no_match_before("", 0, 0).is_some();
        Ok(Finder {
            alloc,
            regex,
            is_never_empty,
            columns: Vec::new(alloc),
            pattern: PatternText::new(pattern),
        })
    }

    /// Returns the allocator that the finder was made with.
    pub(super) fn alloc(&self) -> Global {
        self.alloc
    }

    /// Returns an offset of a chunk before which nothing matches: no part of the chunk up to there
    /// has a match, searched separately. It is found by a scan for the literals that each match
    /// begins with, not by a search. Returns `None` if no such literals are known. Time is linear
    /// in the text up to the offset.
    fn no_match_before(&self, text: &str) -> Option<usize>
        ensures no_match { IfSome result (λ place. FindsNoneBetween self.now text.now 0 place) }
        ensures within { IfSome result (λ place. place ≤ length text.now) }
    {
        self.regex.no_match_before(text, text.len(), 0)
    }

    /// Returns such an offset of a slice, from an offset on.
    fn no_match_from(&self, text: RopeSlice<'_>, from: usize) -> Option<usize>
        requires { from ≤ byte_len (slice_text text) }
        ensures no_match { IfSome result (λ place.
            FindsNoneBetween self.now (slice_bytes text.entry) from place) }
        ensures within { IfSome result (λ place. place ≤ byte_len (slice_text text.entry)) }
    {
        self.regex
            .no_match_before(RopeyCursor::at(text, from), text.len_bytes(), from)
    }

    /// Skips the next lines that end before the offset at which a match may begin, and returns
    /// their number. The offset is found by a scan for literals from the next line on, in all
    /// chunks.
    fn pass_chunks(&self, walk: &mut Walk<'_>) -> usize
        requires { walk.old.line < line_count walk.old.text }
        ensures text { walk.new.text ≡ walk.old.text }
        ensures line { walk.new.line ≡ walk.old.line + result }
        ensures within { walk.old.line + result < line_count walk.old.text }
        ensures bare { HaveNoMatches self.now walk.old.text walk.old.line (walk.old.line + result) }
        ensures empty { 0 < result → IsRow self.now [] [] }
    {
        let text = walk.text();
        let start = walk.byte_idx();
        match self.no_match_from(text, start) {
            Some(place) => walk.pass_to(place),
            None => 0,
        }
    }

    /// Skips these lines, as `pass_chunks` does, but scans the rest of the current chunk first.
    fn pass_bare(&self, walk: &mut Walk<'_>) -> usize
        requires { walk.old.line < line_count walk.old.text }
        ensures text { walk.new.text ≡ walk.old.text }
        ensures line { walk.new.line ≡ walk.old.line + result }
        ensures within { walk.old.line + result < line_count walk.old.text }
        ensures fits { result + 1 < 2 ^ 64 }
        ensures bare { HaveNoMatches self.now walk.old.text walk.old.line (walk.old.line + result) }
        ensures empty { 0 < result → IsRow self.now [] [] }
    {
        let rest = walk.rest();
        match self.no_match_before(rest) {
            None => 0,
            Some(place) => {
                if place < rest.len() {
                    walk.pass_in_chunk(place)
                } else {
                    self.pass_chunks(walk)
                }
            }
        }
    }

    /// Skips those of the next `left` lines that end before the offset at which a match may begin,
    /// and returns their number. The offset is found by a scan for the literals that each match
    /// begins with. Counts these lines and the one after them as scanned. Requires that the walk
    /// has no line after the `left`, except an empty one. Time is linear in the text up to that
    /// offset.
    pub(crate) fn bare_lines(&self, tick: &mut Lines, walk: &mut Walk<'_>, left: usize) -> usize
        requires some { 0 < left }
        requires within { walk.old.line + left ≤ line_count walk.old.text }
        requires all { line_count walk.old.text ≤ walk.old.line + left + 1 }
        ensures text { walk.new.text ≡ walk.old.text }
        ensures line { walk.new.line ≡ walk.old.line + result }
        ensures within { result ≤ left }
        ensures bare { HaveNoMatches self.now walk.old.text walk.old.line (walk.old.line + result) }
        ensures empty { 0 < result → IsRow self.now [] [] }
        ensures count { tick.new.count ≡ tick.old.count }
        ensures wholes { tick.new.wholes ≡ tick.old.wholes }
        ensures looked { tick.new.looked
            ≡ min (tick.old.looked + min (result + 1) left) (2 ^ 64 - 1) }
    {
        let passed = self.pass_bare(walk);
        tick.add_looked((passed + 1).min(left));
        passed
    }

    /// Returns the matches in a line, as `columns_of` does, by a search of the line.
    fn searched_columns(&mut self, tick: &mut Lines, line: Line<'_>) -> Result<Found, Fault>
        requires { HoldsText line }
        ensures row { IfOk result
            (λ found. IsRow self.old (own_text line.entry) (matches_in found)) }
        ensures fault { IfErr result (λ fault. fault ≡ Fault.Memory) }
        ensures finder { self.new ≡ self.old }
        ensures count { tick.new.count ≡ min (tick.old.count + 1) (2 ^ 64 - 1) }
        ensures grows { tick.old.count ≤ tick.new.count }
        ensures wholes { tick.new.wholes ≡ tick.old.wholes }
        ensures looked { tick.new.looked ≡ tick.old.looked }
    {
        self.columns.clear();
        columns_in_line(tick, &mut self.columns, &mut self.regex, line)?;
        Ok(Found::of(self.alloc, self.columns.as_slice())?)
    }

    /// Returns the matches in a line, by their columns. Counts one row, also after an error.
    ///
    /// Errors: `Fault::Memory`; the finder remains usable.
    #[inline(always)]
    pub(super) fn columns_of(&mut self, tick: &mut Lines, line: Line<'_>) -> Result<Found, Fault>
        requires { HoldsText line }
        ensures row { IfOk result
            (λ found. IsRow self.old (own_text line.entry) (matches_in found)) }
        ensures fault { IfErr result (λ fault. fault ≡ Fault.Memory) }
        ensures finder { self.new ≡ self.old }
        ensures count { tick.new.count ≡ min (tick.old.count + 1) (2 ^ 64 - 1) }
        ensures grows { tick.old.count ≤ tick.new.count }
        ensures wholes { tick.new.wholes ≡ tick.old.wholes }
        ensures looked { tick.new.looked ≡ tick.old.looked }
    {
        if self.is_never_empty && line.len_bytes() == 0 {
            tick.add_row();
            return Ok(Found::Nothing);
        }
        self.searched_columns(tick, line)
    }

    /// Returns the first match in a whole text from an offset on. Counts one search of a whole
    /// text, also after an error.
    ///
    /// Errors: `Fault::Memory`; the finder remains usable.
    pub(super) fn first_in(
        &mut self,
        tick: &mut Lines,
        text: &Rope,
        from: usize,
    ) -> Result<Option<(usize, usize)>, Fault>
        requires { IsCharBoundary (bytes_of (text_of text.now)) from }
        ensures found { IfOk result (λ span.
            FindsSpan self.old (bytes_of (text_of text.now)) from span) }
        ensures fault { IfErr result (λ fault. fault ≡ Fault.Memory) }
        ensures finder { self.new ≡ self.old }
        ensures count { tick.new.count ≡ tick.old.count }
        ensures wholes { tick.new.wholes ≡ min (tick.old.wholes + 1) (2 ^ 64 - 1) }
        ensures grows { tick.old.wholes ≤ tick.new.wholes }
        ensures looked { tick.new.looked ≡ tick.old.looked }
    {
        self.regex.first_in(tick, text.slice(..), from)
    }

    /// Returns all matches in a whole text with their first groups, this number of each; the others
    /// are `None`. Counts one search of a whole text, also after an error.
    ///
    /// Errors: `Fault::Memory`; the finder remains usable.
    pub(super) fn groups_of(
        &mut self,
        tick: &mut Lines,
        text: &Rope,
        count: usize,
    ) -> Result<Vec<Groups>, Fault>
        requires some { 1 ≤ count }
        requires few { count ≤ 10 }
        ensures found { IfOk result (λ groups.
            AreFirstGroups count self.old (bytes_of (text_of text.now)) groups.items) }
        ensures stand { IfOk result (λ groups.
            AreMatchesIn (bytes_of (text_of text.now)) groups.items) }
        ensures fault { IfErr result (λ fault. fault ≡ Fault.Memory) }
        ensures finder { self.new ≡ self.old }
        ensures count { tick.new.count ≡ tick.old.count }
        ensures wholes { tick.new.wholes ≡ min (tick.old.wholes + 1) (2 ^ 64 - 1) }
        ensures grows { tick.old.wholes ≤ tick.new.wholes }
        ensures looked { tick.new.looked ≡ tick.old.looked }
    {
        all_groups(tick, self.alloc, &mut self.regex, text.slice(..), count)
    }

    /// Returns the groups of a match in a line, given by its number from 0, each by its columns, or
    /// `None` if there is no such match. Counts one row, also after an error.
    ///
    /// Errors: `Fault::Memory`; the finder remains usable.
    pub(super) fn groups_at(
        &mut self,
        tick: &mut Lines,
        line: RopeSlice<'_>,
        number: usize,
    ) -> Result<Option<Groups>, Fault>
        ensures told { IfOk result (λ told.
            TellsGroups self.old (slice_text line.entry) number told) }
        ensures fault { IfErr result (λ fault. fault ≡ Fault.Memory) }
        ensures finder { self.new ≡ self.old }
        ensures count { tick.new.count ≡ min (tick.old.count + 1) (2 ^ 64 - 1) }
        ensures grows { tick.old.count ≤ tick.new.count }
        ensures wholes { tick.new.wholes ≡ tick.old.wholes }
        ensures looked { tick.new.looked ≡ tick.old.looked }
    {
        match groups_of_match(tick, &mut self.regex, line, number)? {
            None => Ok(None),
            Some(groups) => Ok(Some(groups_by_columns(&line, &groups))),
        }
    }

    /// Appends the groups of all matches in a line of a text, by offsets of the text. Counts one
    /// row, also after an error.
    ///
    /// Errors: `Fault::Memory`; the finder remains usable.
    pub(super) fn add_groups_of_line(
        &mut self,
        tick: &mut Lines,
        text: &Rope,
        line_idx: usize,
        groups: &mut Vec<Groups>,
    ) -> Result<(), Fault>
        requires { line_idx < line_count (text_of text.now) }
        ensures groups { OnOk result (AddsGroupsOfLine (text_of text.now) self.old line_idx
            groups.old.items groups.new.items) }
        ensures fault { IfErr result (λ fault. fault ≡ Fault.Memory) }
        ensures finder { self.new ≡ self.old }
        ensures count { tick.new.count ≡ min (tick.old.count + 1) (2 ^ 64 - 1) }
        ensures grows { tick.old.count ≤ tick.new.count }
        ensures wholes { tick.new.wholes ≡ tick.old.wholes }
        ensures looked { tick.new.looked ≡ tick.old.looked }
    {
        // For the proof: the text's facts.
        let _ = text.len_bytes();
        let start = text.line_to_byte(line_idx);
        let line = line_text(text, line_idx);
        add_groups(tick, &mut self.regex, line, start, groups)
    }

    /// Returns the spans of all matches in a whole text. Counts one search of a whole text, also
    /// after an error.
    ///
    /// Errors: `Fault::Memory`; the finder remains usable.
    pub(super) fn spans_of(
        &mut self,
        tick: &mut Lines,
        text: &Rope,
    ) -> Result<Vec<(usize, usize)>, Fault>
        ensures found { IfOk result (λ spans.
            IsMatches self.old (bytes_of (text_of text.now)) spans.items) }
        ensures stand { IfOk result (λ spans.
            AreMatchesIn (bytes_of (text_of text.now)) (map alone spans.items)) }
        ensures fault { IfErr result (λ fault. fault ≡ Fault.Memory) }
        ensures finder { self.new ≡ self.old }
        ensures count { tick.new.count ≡ tick.old.count }
        ensures wholes { tick.new.wholes ≡ min (tick.old.wholes + 1) (2 ^ 64 - 1) }
        ensures grows { tick.old.wholes ≤ tick.new.wholes }
        ensures looked { tick.new.looked ≡ tick.old.looked }
    {
        all_spans(tick, self.alloc, &mut self.regex, text.slice(..))
    }
}
