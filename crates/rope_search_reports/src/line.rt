//! The text of a line, in place: searches copy nothing.
ghost use Rattle.std.specs.Prelude.{◌≡◌, ◌≤◌, map};
ghost use Rattle.std.specs.Str.{IsCharBoundary};
ghost use Rattle.str_indices.specs.Text.{byte_len};
ghost use Rattle.ropey.specs.Slices.{slice_text};
ghost use Rattle.rope_search_reports.specs.Text.{bytes_of};
ghost use Rattle.rope_search_reports.specs.Replacement.{AreMatchesIn, IsSpanIn, alone};
ghost use Rattle.rope_search_reports.specs.Report.{column, columns};
ghost use Rattle.rope_search_reports.specs.Drafts.{HoldsText, own_text};

use crate::columns::column_at;
use ropey::RopeSlice;
use str_indices::utf16;

/// The text of a line without its break.
#[derive(Clone, Copy)]
pub(crate) enum Line<'a> {
    /// It is in one chunk.
    Whole(&'a str),
    /// It is in one chunk, and each character takes one byte.
    Narrow(&'a str),
    /// It is split into chunks.
    Parted(RopeSlice<'a>),
}

impl<'a> Line<'a> {
    /// Returns a slice's text, as one chunk if it is in one.
    pub(crate) fn of(slice: RopeSlice<'a>) -> Line<'a>
        ensures text { own_text result ≡ slice_text slice.entry }
        ensures holds { HoldsText result }
    {
        // For the proof: the slice's facts.
        let _ = slice.len_bytes();
        match slice.as_str() {
            Some(text) => Line::Whole(text),
            None => Line::Parted(slice),
        }
    }

    /// Returns the number of bytes.
    pub(crate) fn len_bytes(&self) -> usize
        requires { HoldsText self.now }
        ensures { result ≡ byte_len (own_text self.now) }
    {
        match *self {
            Line::Whole(text) => text.len(),
            Line::Narrow(text) => text.len(),
            Line::Parted(slice) => slice.len_bytes(),
        }
    }

    /// Returns the column of an offset, counted from an earlier offset and its column. In one
    /// chunk, time is linear in the text between the two, or constant if each character takes one
    /// byte.
    #[inline(always)]
    fn column_from(&self, place: usize, place_column: usize, end: usize) -> usize
        requires holds { HoldsText self.now }
        requires starts { IsCharBoundary (bytes_of (own_text self.now)) place }
        requires ends { IsCharBoundary (bytes_of (own_text self.now)) end }
        requires ordered { place ≤ end }
        requires counted { place_column ≡ column (bytes_of (own_text self.now)) place }
        ensures { result ≡ column (bytes_of (own_text self.now)) end }
    {
        match *self {
            Line::Whole(text) => place_column + utf16::count(&text[place..end]),
            Line::Narrow(_) => end,
            Line::Parted(slice) => column_at(&slice, end),
        }
    }

    /// Returns the columns of a span, counted from an earlier offset and its column. If each
    /// character from there to the span's end takes one byte, the text is counted once.
    fn columns_from(
        &self,
        place: usize,
        place_column: usize,
        span: (usize, usize),
    ) -> (usize, usize)
        requires holds { HoldsText self.now }
        requires place { IsCharBoundary (bytes_of (own_text self.now)) place }
        requires counted { place_column ≡ column (bytes_of (own_text self.now)) place }
        requires behind { place ≤ span.0 }
        requires span { IsSpanIn (bytes_of (own_text self.now)) span }
        ensures { result ≡ columns (bytes_of (own_text self.now)) span }
    {
        let (start, end) = span;
        let end_column = self.column_from(place, place_column, end);
        if end_column - place_column == end - place {
            return (place_column + (start - place), end_column);
        }
        (self.column_from(place, place_column, start), end_column)
    }

    /// Turns the spans of matches in the line into their columns. If each character up to the last
    /// match's end takes one byte, offsets are columns, which is found by one count.
    pub(crate) fn turn_into_columns(&self, spans: &mut [(usize, usize)])
        requires holds { HoldsText self.now }
        requires matches { AreMatchesIn (bytes_of (own_text self.now)) (map alone spans.old) }
        ensures { spans.new ≡ map (columns (bytes_of (own_text self.now))) spans.old }
    {
        let count = spans.len();
        if count == 0 {
            return;
        }
        let (_, last_end) = spans[count - 1];
        if self.column_from(0, 0, last_end) == last_end {
            return;
        }
        let (mut place, mut place_column) = (0, 0);
        for index in 0..count {
            let span = spans[index];
            let columns = self.columns_from(place, place_column, span);
            spans[index] = columns;
            place = span.1;
            place_column = columns.1;
        }
    }
}
