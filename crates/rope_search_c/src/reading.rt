//! What is read of a session: its text and its report.
ghost use Rattle.std.specs.Prelude.{◌≡◌, MatchOption, ◌^◌, ◌<◌, ◌≤◌, ◌+◌, ◌++◌, List, length, map};
ghost use Rattle.ropey.specs.Chunks.{text_of};
ghost use Rattle.ropey.specs.Slices.{slice_bytes};
ghost use Rattle.rope_search_reports.specs.Report.{match_count};
ghost use Rattle.rope_search_c.specs.Reading.{AreRowsOf, CopiesMatches, CopiesText, CountsMatches, TellsByte, TellsColumn, TellsPosition, TellsPositionIn, bits_of, span_in, spans_from, text_in, with_front};
ghost use Rattle.rope_search_c.specs.Reading as reading;
ghost use Rattle.rope_search_c.specs.declared.matches.Span.{Span};
ghost use Rattle.rope_search.specs.declared.encodings.Encoding.{Encoding};

use crate::counting::CountingSession;
use crate::matches::Span;
use rope_search::{Encoding, Position, Rope, Row};
use ropey::RopeSlice;

/// What is answered for a place that is nowhere: the rank of `Fault::Range`.
pub(crate) const NOWHERE: u32 = 2;

/// What columns count, by how C names it, or none.
pub(crate) fn encoding_of(bits: u32) -> Option<Encoding>
    ensures { MatchOption result ((encoding : Encoding) → bits ≡ bits_of encoding → ⊥)
        (λ encoding. bits ≡ bits_of encoding) }
{
    match bits {
        8 => Some(Encoding::Utf8),
        16 => Some(Encoding::Utf16),
        32 => Some(Encoding::Utf32),
        _ => None,
    }
}

/// Rows `from` up to `to`, as far as there are such.
pub(crate) fn rows_between(rows: &[Row], from: usize, to: usize) -> &[Row]
    ensures { result.now ≡ reading.rows_between from to rows.now }
{
    let end = to.min(rows.len());
    if from < end { &rows[from..end] } else { &[] }
}

/// How many matches rows have.
pub(crate) fn count_matches(rows: &[Row]) -> usize
    requires { match_count rows.now < 2 ^ 64 }
    ensures { result ≡ match_count rows.now }
{
    let mut count = 0;
    for row in rows {
        count += row.matches().len();
    }
    count
}

/// Copies the matches of a row to a buffer, after the `at` matches that are at its front, as many
/// as fit. If there were more matches than fit, `at` is still their number.
fn put_row(line: usize, row: &[(usize, usize)], at: usize, out: &mut [Span])
    requires { at + length row.now < 2 ^ 64 }
    ensures { (done first : List Span) → out.old ≡ with_front done first → at ≡ length done
        → out.new ≡ with_front (done ++ map (span_in line) row.now) first }
{
    let mut next = at;
    for columns in row {
        if next < out.len() {
            out[next] = Span {
                line,
                start: columns.0,
                stop: columns.1,
            };
        }
        next += 1;
    }
}

/// Copies the matches of rows to a buffer's front, as many as fit, and returns the number of the
/// matches. The first row is that of line `from`.
pub(crate) fn put_rows(rows: &[Row], from: usize, out: &mut [Span]) -> usize
    requires few { match_count rows.now < 2 ^ 64 }
    requires lines { from + length rows.now < 2 ^ 64 }
    ensures count { result ≡ match_count rows.now }
    ensures put { out.new ≡ with_front (spans_from from rows.now) out.old }
{
    let mut at = 0;
    let mut line = from;
    for row in rows {
        let matches = row.matches();
        put_row(line, matches, at, out);
        at += matches.len();
        line += 1;
    }
    at
}

/// Puts a slice's bytes at the front of a buffer that has room for them.
pub(crate) fn put_text(slice: RopeSlice<'_>, out: &mut [u8])
    requires { length (slice_bytes slice) ≤ length out.old }
    ensures { out.new ≡ with_front (slice_bytes slice.entry) out.old }
{
    let mut at = 0;
    for chunk in slice.chunks() {
        let end = at + chunk.len();
        out[at..end].copy_from_slice(chunk.as_bytes());
        at = end;
    }
}

impl CountingSession {
    /// The chosen buffer's text.
    pub(crate) fn text(&self) -> &Rope
        ensures { text_of result.now ≡ text_in self.now }
    {
        self.session.buffer().text()
    }

    /// Returns the rows of the chosen buffer's report: none without a pattern.
    pub(crate) fn rows(&self) -> &[Row]
        ensures rows { AreRowsOf self.now result.now }
        ensures few { match_count result.now < 2 ^ 64 }
    {
        match self.session.buffer().report() {
            None => &[],
            Some(rows) => rows,
        }
    }

    /// How many matches the report's rows `from` up to `to` have.
    pub(crate) fn count_matches(&self, from: usize, to: usize) -> usize
        ensures { CountsMatches self.now from to result }
    {
        count_matches(rows_between(self.rows(), from, to))
    }

    /// Copies the matches of the report's rows `from` up to `to` to a buffer's front, as many as
    /// fit, and returns the number of the matches.
    pub(crate) fn copy_matches(&self, from: usize, to: usize, out: &mut [Span]) -> usize
        ensures { CopiesMatches self.now from to result out.old out.new }
    {
        put_rows(rows_between(self.rows(), from, to), from, out)
    }

    /// Copies bytes `from` up to `to` of the text to a buffer's front, and returns whether they are
    /// bytes of the text, cut no character and fit; otherwise the buffer is as it was.
    pub(crate) fn copy_text(&self, from: usize, to: usize, out: &mut [u8]) -> bool
        ensures { CopiesText self.now from to result out.old out.new }
    {
        let Some(slice) = self.text().slice(..).get_byte_slice(from..to) else {
            return false;
        };
        if out.len() < slice.len_bytes() {
            return false;
        }
        put_text(slice, out);
        true
    }

    /// The byte at which a position is: 0, or 2 where it is nowhere, which leaves `byte_idx`.
    pub(crate) fn byte_of(&self, position: Position, byte_idx: &mut usize) -> u32
        ensures { TellsByte self.now position result byte_idx.old byte_idx.new }
    {
        match self.session.buffer().byte_of(position) {
            Ok(found) => {
                *byte_idx = found;
                0
            }
            Err(fault) => u32::from(fault.rank()),
        }
    }

    /// The position of a byte: 0, or 2 where no character begins there and the text doesn't end
    /// there, which leaves `position`.
    pub(crate) fn position_of(&self, byte_idx: usize, position: &mut Position) -> u32
        ensures { TellsPosition self.now byte_idx result position.old position.new }
    {
        match self.session.buffer().position_of(byte_idx) {
            Ok(found) => {
                *position = found;
                0
            }
            Err(fault) => u32::from(fault.rank()),
        }
    }

    /// The column of a position in what `bits` names: 0, or 2 if it is nowhere or `bits` is none of
    /// 8, 16 and 32, which leaves `column`.
    pub(crate) fn column_in(&self, bits: u32, position: Position, column: &mut usize) -> u32
        ensures { TellsColumn self.now bits position result column.old column.new }
    {
        let Some(encoding) = encoding_of(bits) else {
            return NOWHERE;
        };
        let Ok(found) = self.session.buffer().column_in(encoding, position) else {
            return NOWHERE;
        };
        *column = found;
        0
    }

    /// The position of a line and a column in what `bits` names: 0, or 2 if they are nowhere or
    /// `bits` is none of 8, 16 and 32, which leaves `position`.
    pub(crate) fn position_in(
        &self,
        bits: u32,
        line: usize,
        column: usize,
        position: &mut Position,
    ) -> u32
        ensures { TellsPositionIn self.now bits line column result position.old position.new }
    {
        let Some(encoding) = encoding_of(bits) else {
            return NOWHERE;
        };
        let Ok(found) = self.session.buffer().position_in(encoding, line, column) else {
            return NOWHERE;
        };
        *position = found;
        0
    }
}
