//! The matches in a report, looked up by position and by number.
ghost use Rattle.std.specs.Prelude.{◌≡◌, ◌+◌, ◌^◌, ◌<◌, ◌≤◌, ℕ, length, take, slice_get, Some, IfNone, IfSome};
ghost use Rattle.rope_search_reports.specs.Report.{match_count};
ghost use Rattle.rope_search.specs.ListedMatches.{OfReport, TellsFirstFrom, TellsIndex, TellsLastBefore};

use crate::buffer::Buffer;
use rope_search_reports::{Position, Row};

/// A match of a report.
#[derive(Clone, Copy, Debug, PartialEq, Eq)]
pub struct ListedMatch {
    /// The line's index.
    pub line: usize,
    /// The number of the match in the row of that line, from 0.
    pub number: usize,
    /// The column where it starts, in UTF-16 code units from the line's start.
    pub start: usize,
    /// The column where it ends.
    pub end: usize,
}

/// The index of a match among all matches of a report.
#[derive(Clone, Copy, Debug, PartialEq, Eq)]
pub struct ListIndex {
    /// The number of matches before it.
    pub index: usize,
    /// The number of all matches of the report.
    pub count: usize,
}

/// Returns the number of the first match in a row that starts at a column or after it.
fn first_in(row: &[(usize, usize)], column: usize) -> Option<usize>
    ensures from { IfSome result (λ number. (span : ℕ × ℕ)
        × (slice_get row.now number ≡ Some span) × (column ≤ span.0)) }
    ensures first { IfSome result (λ number. (k : ℕ) (span : ℕ × ℕ) → k < number
        → slice_get row.now k ≡ Some span → span.0 < column) }
    ensures none { IfNone result ((k : ℕ) (span : ℕ × ℕ)
        → slice_get row.now k ≡ Some span → span.0 < column) }
{
    for number in 0..row.len() {
        if row[number].0 >= column {
            return Some(number);
        }
    }
    None
}

/// Returns the number of the last match in a row that starts before a column.
fn last_in(row: &[(usize, usize)], column: usize) -> Option<usize>
    ensures before { IfSome result (λ number. (span : ℕ × ℕ)
        × (slice_get row.now number ≡ Some span) × (span.0 < column)) }
    ensures last { IfSome result (λ number. (k : ℕ) (span : ℕ × ℕ) → number < k
        → slice_get row.now k ≡ Some span → column ≤ span.0) }
    ensures none { IfNone result ((k : ℕ) (span : ℕ × ℕ)
        → slice_get row.now k ≡ Some span → column ≤ span.0) }
{
    let mut left = row.len();
    while left > 0 {
        left -= 1;
        if row[left].0 < column {
            return Some(left);
        }
    }
    None
}

/// Returns the match of a row with this number.
fn listed_at(line: usize, row: &[(usize, usize)], number: usize) -> ListedMatch
    requires { number < length row.now }
    ensures line { result.line ≡ line }
    ensures number { result.number ≡ number }
    ensures there { slice_get row.now number ≡ Some (result.start, result.end) }
{
    let (start, end) = row[number];
    ListedMatch {
        line,
        number,
        start,
        end,
    }
}

/// Returns the first match of a report that starts at a position or after it.
fn first_from(rows: &[Row], position: Position) -> Option<ListedMatch>
    ensures { TellsFirstFrom rows.now position result }
{
    let mut column = position.column;
    for line in position.line..rows.len() {
        let row = rows[line].matches();
        if let Some(number) = first_in(row, column) {
            return Some(listed_at(line, row, number));
        }
        // In the following lines every match is after the position.
        column = 0;
    }
    None
}

/// Returns the last match of the first `end` rows of a report.
fn last_of(rows: &[Row], end: usize) -> Option<ListedMatch>
    requires { end ≤ length rows.now }
    ensures { TellsLastBefore rows.now (record { line = end; column = 0 }) result }
{
    let mut line = end;
    while line > 0 {
        line -= 1;
        let row = rows[line].matches();
        if !row.is_empty() {
            return Some(listed_at(line, row, row.len() - 1));
        }
    }
    None
}

/// Returns the last match of a report that starts before a position.
fn last_before(rows: &[Row], position: Position) -> Option<ListedMatch>
    ensures { TellsLastBefore rows.now position result }
{
    let line = position.line;
    if line >= rows.len() {
        return last_of(rows, rows.len());
    }
    let row = rows[line].matches();
    match last_in(row, position.column) {
        Some(number) => Some(listed_at(line, row, number)),
        None => last_of(rows, line),
    }
}

/// Returns the number of matches in the first `end` rows.
fn count_before(rows: &[Row], end: usize) -> usize
    requires within { end ≤ length rows.now }
    requires few { match_count rows.now < 2 ^ 64 }
    ensures { result ≡ match_count (take end rows.now) }
{
    let mut count = 0;
    for line in 0..end {
        count += rows[line].matches().len();
    }
    count
}

/// Returns the index, among all matches of a report, of the match of a line and a number.
fn index_in(rows: &[Row], line: usize, number: usize) -> Option<ListIndex>
    requires few { match_count rows.now < 2 ^ 64 }
    ensures { TellsIndex rows.now line number result }
{
    if line >= rows.len() {
        return None;
    }
    if number >= rows[line].matches().len() {
        return None;
    }
    Some(ListIndex {
        index: count_before(rows, line) + number,
        count: count_before(rows, rows.len()),
    })
}

impl Buffer {
    /// Returns the rows of the report; none without a pattern.
    fn rows(&self) -> &[Row]
        ensures rows { OfReport self.now.state (λ rows. rows ≡ result.now) }
        ensures few { match_count result.now < 2 ^ 64 }
    {
        self.report().unwrap_or(&[])
    }

    /// Returns the first match of the report that starts at a position or after it, or `None` if
    /// there is none or no pattern. The position need not be one of the text. Nothing is searched.
    ///
    /// # Complexity
    ///
    /// Linear in the rows from the position's line to the match's, and in the matches of the first
    /// of them.
    pub fn listed_from(&self, position: Position) -> Option<ListedMatch>
        ensures { OfReport self.now.state (λ rows. TellsFirstFrom rows position result) }
    {
        first_from(self.rows(), position)
    }

    /// Returns the last match of the report that starts before a position, or `None` if there is
    /// none or no pattern. The position need not be one of the text. Nothing is searched.
    ///
    /// # Complexity
    ///
    /// Linear in the rows from the match's line to the position's, and in the matches of the last
    /// of them.
    pub fn listed_before(&self, position: Position) -> Option<ListedMatch>
        ensures { OfReport self.now.state (λ rows. TellsLastBefore rows position result) }
    {
        last_before(self.rows(), position)
    }

    /// Returns the number of matches in the report before match `number`, from 0, of a line, and
    /// the number of all; or `None` if there is no such match.
    ///
    /// # Complexity
    ///
    /// Linear in the rows of the report.
    pub fn list_index(&self, line: usize, number: usize) -> Option<ListIndex>
        ensures { OfReport self.now.state (λ rows. TellsIndex rows line number result) }
    {
        index_in(self.rows(), line, number)
    }
}
