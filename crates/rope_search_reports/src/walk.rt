//! A forward walk over the lines of a text: chunk by chunk, and line by line in a chunk.
ghost use Rattle.std.specs.Prelude.{◌≡◌, ◌+◌, ◌-◌, ◌^◌, ◌<◌, ◌≤◌, ℕ, List, ◌++◌, take};
ghost use Rattle.std.specs.Str.{chars, IsUtf8, IsCharBoundary};
ghost use Rattle.str_indices.specs.Text.{breaks, break_ends, byte_len, ends_up_to, units};
ghost use Rattle.ropey.specs.Chunks.{is_break, text_of};
ghost use Rattle.ropey.specs.Slices.{slice_bytes, slice_text};
ghost use Rattle.rope_search_reports.specs.Text.{line_count};
ghost use Rattle.rope_search_reports.specs.Report.{line_texts};
ghost use Rattle.rope_search_reports.specs.Position.{line_at, line_start, line_text};
ghost use Rattle.rope_search_reports.specs.Drafts.{HasOwnText, HoldsText, IsRestOfChunk, ShowsLines};
ghost use Rattle.rope_search_reports.specs.Drafts.{own_text};

use crate::line::Line;
use crate::line_start::{LineStart, line_start_before};
use crate::line_teller::LineTeller;
use ropey::{Rope, RopeSlice, breaks};
use std::marker::Model;

/// A walk over the lines of a text. Contracts see the text, the next line, and the rest of the
/// chunk in which that starts.
#[derive(Drop)]
pub(crate) struct Walk<'a> {
    text: RopeSlice<'a>,
    // The next line, or the number of lines after the last one.
    line_idx: usize,
    // The byte offset where it starts.
    byte_idx: usize,
    // The rest of the chunk from there on; empty after the last line.
    rest: &'a str,
}

impl<'a> Model for Walk<'a> {
    ghost use Rattle.std.specs.Str.{chars};
    ghost use Rattle.ropey.specs.Slices.{slice_text};
    ghost use Rattle.rope_search_reports.specs.Drafts.{IsWalk, WalkState};

    ghost Value = { WalkState };

    ghost view = { λ w. record {
      text = slice_text w.text;
      line = w.line_idx;
      rest = chars w.rest.now;
    } };

    ghost invariant = { λ w. IsWalk (slice_text w.text) w.line_idx w.byte_idx w.rest.now };
}

/// Returns a line's text: the line without its break, if it ends in one. `O(log n)`.
pub(crate) fn without_break(line: RopeSlice<'_>) -> RopeSlice<'_>
    ensures { (own : List ℕ) → HasOwnText (slice_text line.entry) own → slice_text result ≡ own }
{
    let len = line.len_chars();
    if len == 0 {
        return line;
    }
    let last = line.char(len - 1);
    if last != '\n' && last != '\r' {
        return line;
    }
    if last == '\n' && len > 1 && line.char(len - 2) == '\r' {
        return line.slice(..len - 2);
    }
    line.slice(..len - 1)
}

/// Returns the rest, from an offset on, of the chunk that contains it. `O(log n)`.
fn chunk_from<'a>(text: &RopeSlice<'a>, byte_idx: usize) -> &'a str
    requires { IsCharBoundary (slice_bytes text.now) byte_idx }
    ensures utf8 { IsUtf8 result.now }
    ensures rest { (before behind : List ℕ) → slice_text text.now ≡ before ++ behind
        → byte_idx ≡ byte_len before → IsRestOfChunk behind (chars result.now) }
{
    let (chunk, start, _, _) = text.chunk_at_byte(byte_idx);
    &chunk[byte_idx - start..]
}

/// Returns a text up to the end of a line, which ends in a break or is the text's last one. The
/// lines up to there are its lines; after the break it has an empty one. `O(log n)`.
pub(crate) fn lines_up_to(text: &Rope, end: usize) -> RopeSlice<'_>
    requires { end ≤ line_count (text_of text.now) }
    ensures lines { take end (line_texts (slice_text result))
        ≡ take end (line_texts (text_of text.now)) }
    ensures within { end ≤ line_count (slice_text result) }
    ensures few { line_count (slice_text result) ≤ end + 1 }
{
    if end == text.len_lines() {
        return text.slice(..);
    }
    // For the proof: the text's facts.
    let _ = text.len_bytes();
    text.slice(..).byte_slice(..text.line_to_byte(end))
}

/// Returns a line of a text, which is in one chunk. Each character of the text takes one byte if it
/// has as many code units as bytes.
fn line_in_chunk<'a>(text: &RopeSlice<'_>, own: &'a str) -> Line<'a>
    requires utf8 { IsUtf8 own.now }
    requires narrow { units (slice_text text.now) ≡ byte_len (slice_text text.now)
        → units (chars own.now) ≡ byte_len (chars own.now) }
    ensures own { own_text result ≡ chars own.entry.now }
    ensures holds { HoldsText result }
{
    if text.len_utf16_cu() == text.len_bytes() {
        return Line::Narrow(own);
    }
    Line::Whole(own)
}

impl<'a> Walk<'a> {
    /// Returns the walk over the lines of a slice from one of them on, or after the last one.
    /// `O(log n)`.
    pub(crate) fn at(text: RopeSlice<'a>, line_idx: usize) -> Walk<'a>
        requires { line_idx ≤ line_count (slice_text text) }
        ensures text { result.text ≡ slice_text text.entry }
        ensures line { result.line ≡ line_idx }
    {
        let start = LineStart::of(&text, line_idx);
        Walk {
            text,
            line_idx,
            byte_idx: start.byte_idx + start.at,
            rest: &start.chunk[start.at..],
        }
    }

    /// Returns the walk over the lines of a slice from the one that contains an offset. `O(log n)`:
    /// one descent of the tree if that line starts in the offset's chunk, otherwise two.
    pub(crate) fn at_place(text: RopeSlice<'a>, byte_idx: usize) -> Walk<'a>
        requires { byte_idx ≤ byte_len (slice_text text) }
        ensures text { result.text ≡ slice_text text.entry }
        ensures line { result.line ≡ line_at (slice_text text.entry) byte_idx }
    {
        // For the proof: the slice's facts.
        let _ = text.len_bytes();
        let (chunk, start, _, first) = text.chunk_at_byte(byte_idx);
        let within = byte_idx - start;
        let count = breaks::from_byte_idx(chunk, within);
        if count == 0 {
            return Walk::at(text, first);
        }
        let at = line_start_before(chunk, within);
        Walk {
            text,
            line_idx: first + count,
            byte_idx: start + at,
            rest: &chunk[at..],
        }
    }

    /// Returns a `LineTeller` for offsets from the next line on. Needs no look-up.
    pub(crate) fn teller(&self) -> LineTeller<'a>
        requires { self.now.line < line_count self.now.text }
        ensures { result.text ≡ self.now.text }
    {
        LineTeller::with_rest(self.text, self.rest, self.byte_idx, self.line_idx)
    }

    /// Returns the text.
    pub(crate) fn text(&self) -> RopeSlice<'a>
        ensures { slice_text result ≡ self.now.text }
    {
        self.text
    }

    /// Returns the next line's index.
    pub(crate) fn line_idx(&self) -> usize
        ensures line { result ≡ self.now.line }
        ensures within { result ≤ line_count self.now.text }
    {
        self.line_idx
    }

    /// Returns the byte offset where the next line starts.
    pub(crate) fn byte_idx(&self) -> usize
        requires { self.now.line < line_count self.now.text }
        ensures { result ≡ line_start self.now.text self.now.line }
    {
        self.byte_idx
    }

    /// Returns the rest of the chunk in which the next line starts. The lines that end in it are
    /// lines of the text.
    pub(crate) fn rest(&self) -> &'a str
        ensures rest { chars result.now ≡ self.now.rest }
        ensures utf8 { IsUtf8 result.now }
        ensures lines { ShowsLines self.now }
        ensures few { self.now.line < line_count self.now.text
            → self.now.line + breaks is_break self.now.rest < line_count self.now.text }
        ensures fits { line_count self.now.text < 2 ^ 64 }
    {
        self.rest
    }

    /// Skips the next `count` lines. Inside a chunk it needs no look-up.
    pub(crate) fn pass(&mut self, count: usize)
        requires { self.old.line + count ≤ line_count self.old.text }
        ensures text { self.new.text ≡ self.old.text }
        ensures line { self.new.line ≡ self.old.line + count }
    {
        if count == 0 {
            return;
        }
        let place = breaks::to_byte_idx(self.rest, count);
        if place >= self.rest.len() {
            *self = Walk::at(self.text, self.line_idx + count);
            return;
        }
        self.line_idx += count;
        self.byte_idx += place;
        self.rest = &self.rest[place..];
    }

    /// Skips the next lines that end at an offset of the rest of the chunk or before it, and
    /// returns their number. Needs no look-up.
    pub(crate) fn pass_in_chunk(&mut self, place: usize) -> usize
        requires within { place < byte_len self.old.rest }
        requires below { self.old.line < line_count self.old.text }
        ensures count { result ≡ ends_up_to place (break_ends is_break self.old.rest) }
        ensures text { self.new.text ≡ self.old.text }
        ensures line { self.new.line ≡ self.old.line + result }
    {
        let rest = self.rest;
        let count = breaks::from_byte_idx(rest, place);
        let start = line_start_before(rest, place);
        self.line_idx += count;
        self.byte_idx += start;
        self.rest = &rest[start..];
        count
    }

    /// Skips the next lines that end at an offset of the text or before it, and returns their
    /// number. `O(log n)`.
    pub(crate) fn pass_to(&mut self, byte_idx: usize) -> usize
        requires { byte_idx ≤ byte_len self.old.text }
        ensures count { result ≡ line_at self.old.text byte_idx - self.old.line }
        ensures text { self.new.text ≡ self.old.text }
        ensures line { self.new.line ≡ self.old.line + result }
    {
        let ahead = Walk::at_place(self.text, byte_idx);
        let count = ahead.line_idx.saturating_sub(self.line_idx);
        if count > 0 {
            *self = ahead;
        }
        count
    }

    /// Shows the chunk in which the next line starts, if nothing is left of the one before.
    fn show(&mut self)
        requires { self.old.line < line_count self.old.text }
        ensures text { self.new.text ≡ self.old.text }
        ensures line { self.new.line ≡ self.old.line }
    {
        if self.rest.is_empty() {
            self.rest = chunk_from(&self.text, self.byte_idx);
        }
    }

    /// Returns the next line, which goes past the end of its chunk or is the last one. If it ends
    /// in the next chunk, that takes three descents of the tree.
    fn next_across(&mut self) -> Line<'a>
        requires below { self.old.line < line_count self.old.text }
        requires goes_on { breaks is_break self.old.rest ≡ 0 }
        ensures own { own_text result ≡ line_text self.old.text self.old.line }
        ensures holds { HoldsText result }
        ensures text { self.new.text ≡ self.old.text }
        ensures line { self.new.line ≡ self.old.line + 1 }
    {
        let start = self.byte_idx;
        let behind = start + self.rest.len();
        let chunk = chunk_from(&self.text, behind);
        let Some(found) = breaks::first_break(chunk) else {
            return self.next_far();
        };
        let line = self.text.byte_slice(start..behind + found.start);
        self.line_idx += 1;
        self.byte_idx = behind + found.end;
        self.rest = &chunk[found.end..];
        Line::Parted(line)
    }

    /// Returns the next line, which may be in many chunks.
    fn next_far(&mut self) -> Line<'a>
        requires { self.old.line < line_count self.old.text }
        ensures own { own_text result ≡ line_text self.old.text self.old.line }
        ensures holds { HoldsText result }
        ensures text { self.new.text ≡ self.old.text }
        ensures line { self.new.line ≡ self.old.line + 1 }
    {
        let line = without_break(self.text.line(self.line_idx));
        *self = Walk::at(self.text, self.line_idx + 1);
        Line::of(line)
    }

    /// Returns the next line without its break. Inside a chunk it needs no look-up.
    pub(crate) fn next(&mut self) -> Line<'a>
        requires { self.old.line < line_count self.old.text }
        ensures own { own_text result ≡ line_text self.old.text self.old.line }
        ensures holds { HoldsText result }
        ensures text { self.new.text ≡ self.old.text }
        ensures line { self.new.line ≡ self.old.line + 1 }
    {
        self.show();
        let rest = self.rest;
        let Some(found) = breaks::first_break(rest) else {
            return self.next_across();
        };
        let line = line_in_chunk(&self.text, &rest[..found.start]);
        self.line_idx += 1;
        self.byte_idx += found.end;
        self.rest = &rest[found.end..];
        line
    }
}
