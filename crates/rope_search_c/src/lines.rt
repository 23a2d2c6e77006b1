//! Lines of the chosen buffer, columns in a unit that C names, and edits by bytes.
ghost use Rattle.std.specs.Prelude.{◌≡◌, ℕ, ◌+◌, ◌^◌, ◌<◌, ◌≤◌, ◌++◌, All, List, [], length, map, slice_index_or};
ghost use Rattle.ropey.specs.Chunks.{text_of};
ghost use Rattle.ropey.specs.Slices.{slice_text};
ghost use Rattle.rope_search_reports.specs.Position.{line_text};
ghost use Rattle.rope_search_reports.specs.Report.{match_count};
ghost use Rattle.rope_search_reports.specs.Text.{line_count};
ghost use Rattle.rope_search.specs.LineColumns.{AreColumnsOf, columns_as, rows_as};
ghost use Rattle.rope_search_c.specs.Lines.{CopiesLine, CopiesMatchesIn, EditsBytes, TellsClamped, TellsLineLen};
ghost use Rattle.rope_search_c.specs.Reading.{span_in, spans_from, with_front};
ghost use Rattle.rope_search_c.specs.declared.matches.Span.{Span};

use crate::counting::{CountingSession, status_of};
use crate::matches::Span;
use crate::reading::{NOWHERE, encoding_of, put_text, rows_between};
use rope_search::{Encoding, Position, Rope, Row, column_for, line_text};
use ropey::RopeSlice;

/// Appends the matches of a row, with columns in an encoding, to those at the start of a buffer, as
/// many as fit. `at` is the number of matches that are there, or would be with more room.
fn put_row_as(
    own: &RopeSlice<'_>,
    encoding: Encoding,
    line: usize,
    row: &[(usize, usize)],
    at: usize,
    out: &mut [Span],
)
    requires few { at + length row.now < 2 ^ 64 }
    requires columns { All (AreColumnsOf (slice_text own.now)) row.now }
    ensures { (done first : List Span) → out.old ≡ with_front done first → at ≡ length done
        → out.new ≡ with_front
        (done ++ map (span_in line) (map (columns_as encoding (slice_text own.now)) row.now)) first }
{
    let mut next = at;
    for columns in row {
        if next < out.len() {
            out[next] = Span {
                line,
                start: column_for(own, encoding, columns.0),
                stop: column_for(own, encoding, columns.1),
            };
        }
        next += 1;
    }
}

/// Does the same for a row of a line of a text; the line is looked up if the row has a match.
fn put_line_as(
    text: &Rope,
    encoding: Encoding,
    line: usize,
    row: &[(usize, usize)],
    at: usize,
    out: &mut [Span],
)
    requires few { at + length row.now < 2 ^ 64 }
    requires inside { line < line_count (text_of text.now) }
    requires columns { All (AreColumnsOf (line_text (text_of text.now) line)) row.now }
    ensures { (done first : List Span) → out.old ≡ with_front done first → at ≡ length done
        → out.new ≡ with_front
        (done ++ map (span_in line) (map (columns_as encoding (line_text (text_of text.now) line))
        row.now)) first }
{
    if row.is_empty() {
        return;
    }
    put_row_as(&line_text(text, line), encoding, line, row, at, out);
}

/// Writes the matches of rows, with columns in an encoding, to the start of a buffer, as many as
/// fit, and returns their number. The first row is that of line `from` of the text.
fn put_rows_as(
    text: &Rope,
    encoding: Encoding,
    rows: &[Row],
    from: usize,
    out: &mut [Span],
) -> usize
    requires few { match_count rows.now < 2 ^ 64 }
    requires lines { from + length rows.now < 2 ^ 64 }
    requires inside { (k : ℕ) → k < length rows.now → from + k < line_count (text_of text.now) }
    requires columns { (k : ℕ) → All (AreColumnsOf (line_text (text_of text.now) (from + k)))
        (slice_index_or rows.now k []) }
    ensures count { result ≡ match_count rows.now }
    ensures put { out.new ≡ with_front
        (spans_from from (rows_as encoding (text_of text.now) from rows.now)) out.old }
{
    // For the proof: the text's facts.
    let _ = text.len_bytes();
    let mut at = 0;
    let mut line = from;
    for row in rows {
        let matches = row.matches();
        put_line_as(text, encoding, line, matches, at, out);
        at += matches.len();
        line += 1;
    }
    at
}

impl CountingSession {
    /// Writes the position to which a line and a column are clamped. Returns 0, or 2 if `bits` is
    /// none of 8, 16 and 32; `position` is then unchanged.
    pub(crate) fn clamp(
        &self,
        bits: u32,
        line: usize,
        column: usize,
        position: &mut Position,
    ) -> u32
        ensures { TellsClamped self.now bits line column result position.old position.new }
    {
        let Some(encoding) = encoding_of(bits) else {
            return NOWHERE;
        };
        *position = self.session.buffer().clamp(encoding, line, column);
        0
    }

    /// Writes the length of a line's text. Returns 0, or 2 past the last line or if `bits` is none
    /// of 8, 16 and 32; `len` is then unchanged.
    pub(crate) fn line_len(&self, line: usize, bits: u32, len: &mut usize) -> u32
        ensures { TellsLineLen self.now line bits result len.old len.new }
    {
        let Some(encoding) = encoding_of(bits) else {
            return NOWHERE;
        };
        let Ok(found) = self.session.buffer().line_len(line, encoding) else {
            return NOWHERE;
        };
        *len = found;
        0
    }

    /// Copies a line's text to the start of a buffer, and returns whether there is such a line and
    /// it fits; otherwise the buffer is unchanged.
    pub(crate) fn copy_line(&self, line: usize, out: &mut [u8]) -> bool
        ensures { CopiesLine self.now line result out.old out.new }
    {
        let Ok(own) = self.session.buffer().line_text(line) else {
            return false;
        };
        if out.len() < own.len_bytes() {
            return false;
        }
        put_text(own, out);
        true
    }

    /// Writes the matches of the report's rows `from` up to `to`, with columns in the unit that
    /// `bits` names, to the start of a buffer, as many as fit, and returns their number. Returns 0
    /// if `bits` is none of 8, 16 and 32.
    pub(crate) fn copy_matches_in(
        &self,
        bits: u32,
        from: usize,
        to: usize,
        out: &mut [Span],
    ) -> usize
        ensures { CopiesMatchesIn self.now bits from to result out.old out.new }
    {
        let Some(encoding) = encoding_of(bits) else {
            return 0;
        };
        // For the proof: laws, and the text's facts.
        rope_search::laws::reports_have_columns();
        rope_search_reports::laws::a_row_a_line();
        let _ = self.text().len_bytes();
        let rows = rows_between(self.rows(), from, to);
        put_rows_as(self.text(), encoding, rows, from, out)
    }

    /// Replaces the bytes between two offsets by the text, as `Session::edit_bytes` does.
    pub(crate) fn edit_bytes(&mut self, from: usize, to: usize, text: &[u8]) -> u32
        ensures { EditsBytes self.old from to text.now result self.new }
    {
        status_of(self.session.edit_bytes(&mut self.lines, from, to, text))
    }
}
