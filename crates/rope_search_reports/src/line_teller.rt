//! The lines that contain given offsets, each found from the offset before.
ghost use Rattle.std.specs.Prelude.{◌≡◌, ◌+◌, ◌<◌, ◌≤◌, ℕ, IfSome, length};
ghost use Rattle.std.specs.Str.{chars};
ghost use Rattle.str_indices.specs.Text.{break_ends, byte_len, ends_up_to};
ghost use Rattle.ropey.specs.Chunks.{is_break};
ghost use Rattle.ropey.specs.Slices.{slice_text};
ghost use Rattle.rope_search_reports.specs.Text.{line_count};
ghost use Rattle.rope_search_reports.specs.Position.{line_at};
ghost use Rattle.rope_search_reports.specs.Drafts.{IsSecondLine, IsTeller};

use ropey::{RopeSlice, breaks};
use std::marker::Model;

/// Finds the lines of offsets in a text. It keeps the rest of a chunk after the last offset, and
/// where the line of that offset ends in it. For an offset further on in the chunk it counts
/// breaks; an earlier one, or one in another chunk, is looked up. Contracts see the text, and where
/// the rest of the chunk starts and ends.
#[derive(Drop)]
pub(crate) struct LineTeller<'a> {
    text: RopeSlice<'a>,
    rest: &'a str,
    // The offset where the rest starts, and its line.
    start: usize,
    line_idx: usize,
    // How many bytes from there on are known to be in the same line.
    same: usize,
}

/// Returns the number of offsets in the first line of a text: those before the end of its first
/// break.
fn len_of_first_line(text: &str) -> usize
    ensures within { result ≤ length text.now }
    ensures first { (place : ℕ) → place < result
        → ends_up_to place (break_ends is_break (chars text.now)) ≡ 0 }
    ensures second { result < length text.now → IsSecondLine text.now result }
{
    match breaks::first_break(text) {
        Some(found) => found.end,
        None => text.len(),
    }
}

impl<'a> Model for LineTeller<'a> {
    ghost use Rattle.std.specs.Prelude.{◌+◌, length};
    ghost use Rattle.ropey.specs.Slices.{slice_text};
    ghost use Rattle.rope_search_reports.specs.Drafts.{IsTeller, KnowsLineEnd, StaysInLine};
    ghost use Rattle.rope_search_reports.specs.Drafts.{TellerState};

    ghost Value = { TellerState };

    ghost view = { λ t. record {
      text = slice_text t.text;
      start = t.start;
      end = t.start + length t.rest.now;
    } };

    ghost invariant = { λ t. IsTeller (slice_text t.text) t.rest.now t.start t.line_idx ×
        StaysInLine (slice_text t.text) t.start t.line_idx t.same ×
        KnowsLineEnd t.rest.now t.same };
}

impl<'a> LineTeller<'a> {
    /// Returns one for the offsets of a text, before the first look-up.
    pub(crate) fn of(text: RopeSlice<'a>) -> LineTeller<'a>
        ensures { result.text ≡ slice_text text.entry }
    {
        // For the proof: the slice's facts.
        let _ = text.len_bytes();
        LineTeller {
            text,
            rest: "",
            start: 0,
            line_idx: 0,
            same: 0,
        }
    }

    /// Returns one that shows the rest of a chunk from an offset on, which is in this line.
    pub(crate) fn with_rest(
        text: RopeSlice<'a>,
        rest: &'a str,
        start: usize,
        line_idx: usize,
    ) -> LineTeller<'a>
        requires { IsTeller (slice_text text) rest.now start line_idx }
        ensures { result.text ≡ slice_text text.entry }
    {
        LineTeller {
            text,
            rest,
            start,
            line_idx,
            same: 0,
        }
    }

    /// Returns one that shows the chunk of an offset. `O(log n)`.
    fn at(text: RopeSlice<'a>, byte_idx: usize) -> LineTeller<'a>
        requires { byte_idx ≤ byte_len (slice_text text) }
        ensures text { result.text ≡ slice_text text.entry }
        ensures start { result.start ≤ byte_idx }
        ensures end { byte_idx ≤ result.end }
    {
        // For the proof: the slice's facts.
        let _ = text.len_bytes();
        let (rest, start, _, line_idx) = text.chunk_at_byte(byte_idx);
        LineTeller {
            text,
            rest,
            start,
            line_idx,
            same: 0,
        }
    }

    /// Shows the chunk of an offset, unless the offset is in the rest of the current one.
    fn show(&mut self, byte_idx: usize)
        requires { byte_idx ≤ byte_len self.old.text }
        ensures text { self.new.text ≡ self.old.text }
        ensures start { self.new.start ≤ byte_idx }
        ensures end { byte_idx ≤ self.new.end }
    {
        if byte_idx < self.start || self.rest.len() <= byte_idx - self.start {
            *self = LineTeller::at(self.text, byte_idx);
        }
    }

    /// Finds the line if it isn't known yet. Then it is known up to the end of the line or of the
    /// chunk.
    fn count_to(&mut self, byte_idx: usize) -> usize
        requires { byte_idx ≤ byte_len self.old.text }
        ensures line { result ≡ line_at self.old.text byte_idx }
        ensures few { result < line_count self.old.text }
        ensures text { self.new.text ≡ self.old.text }
    {
        self.show(byte_idx);
        let rest = self.rest;
        let within = byte_idx - self.start;
        let line_idx = self.line_idx + breaks::from_byte_idx(rest, within);
        if !rest.is_char_boundary(within) {
            return line_idx;
        }
        let rest = &rest[within..];
        self.rest = rest;
        self.start = byte_idx;
        self.line_idx = line_idx;
        self.same = len_of_first_line(rest);
        line_idx
    }

    /// Returns the line of an offset that is known to be in the same line as the last one.
    #[inline(always)]
    fn known_line(&self, byte_idx: usize) -> Option<usize>
        ensures line { IfSome result (λ line. line ≡ line_at self.now.text byte_idx) }
        ensures few { IfSome result (λ line. line < line_count self.now.text) }
    {
        if self.start <= byte_idx && byte_idx - self.start < self.same {
            return Some(self.line_idx);
        }
        None
    }

    /// Moves to the start of the next line if that is in the rest of the chunk and its start is
    /// known. The line is then known up to its end.
    fn to_next_line(&mut self)
        ensures { self.new.text ≡ self.old.text }
    {
        let (rest, same) = (self.rest, self.same);
        if same == 0 || same >= rest.len() {
            return;
        }
        let rest = &rest[same..];
        self.rest = rest;
        self.start += same;
        self.line_idx += 1;
        self.same = len_of_first_line(rest);
    }

    /// Returns the line of an offset that isn't known to be in the same line as the last one.
    #[inline(never)]
    fn line_behind(&mut self, byte_idx: usize) -> usize
        requires { byte_idx ≤ byte_len self.old.text }
        ensures line { result ≡ line_at self.old.text byte_idx }
        ensures few { result < line_count self.old.text }
        ensures text { self.new.text ≡ self.old.text }
    {
        // Offsets often are in one line after the other.
        self.to_next_line();
        match self.known_line(byte_idx) {
            Some(line_idx) => line_idx,
            None => self.count_to(byte_idx),
        }
    }

    /// Returns the line of an offset. Later in the same line and chunk as the last offset, it takes
    /// constant time. Later in the same chunk it needs no look-up, and takes time linear in the
    /// text between the two offsets and in the offset's line.
    #[inline(always)]
    pub(crate) fn line(&mut self, byte_idx: usize) -> usize
        requires { byte_idx ≤ byte_len self.old.text }
        ensures line { result ≡ line_at self.old.text byte_idx }
        ensures few { result < line_count self.old.text }
        ensures text { self.new.text ≡ self.old.text }
    {
        match self.known_line(byte_idx) {
            Some(line_idx) => line_idx,
            None => self.line_behind(byte_idx),
        }
    }
}
