//! Columns of a line: UTF-16 code units from its start.
ghost use Rattle.std.specs.Prelude.{◌≡◌, IfSome, option_map};
ghost use Rattle.std.specs.Str.{IsCharBoundary};
ghost use Rattle.ropey.specs.Slices.{slice_bytes};
ghost use Rattle.rope_search_reports.specs.Replacement.{HasSpansIn, IsSpanIn};
ghost use Rattle.rope_search_reports.specs.LineGroups.{in_columns};
ghost use Rattle.rope_search_reports.specs.Report.{column, columns};

use rope_search_changes::Groups;
use ropey::RopeSlice;

/// Returns the column of a byte offset in a line.
///
/// # Requires
///
/// `byte_idx` is a character boundary of the line, at most its length.
///
/// # Complexity
///
/// `O(1)` if the line is ASCII, otherwise two conversions, `O(log n)`.
pub fn column_at(line: &RopeSlice<'_>, byte_idx: usize) -> usize
    requires { IsCharBoundary (slice_bytes line.now) byte_idx }
    ensures { result ≡ column (slice_bytes line.now) byte_idx }
{
    if line.len_utf16_cu() == line.len_bytes() {
        // Each character takes one byte and one code unit.
        return byte_idx;
    }
    line.char_to_utf16_cu(line.byte_to_char(byte_idx))
}

/// Returns the columns of a span of a line, if there is a span.
fn columns_at(line: &RopeSlice<'_>, span: Option<(usize, usize)>) -> Option<(usize, usize)>
    requires { IfSome span (IsSpanIn (slice_bytes line.now)) }
    ensures { result ≡ option_map (columns (slice_bytes line.now)) span }
{
    match span {
        Some((start, end)) => Some((column_at(line, start), column_at(line, end))),
        None => None,
    }
}

/// Returns the groups of a match in a line as columns. Each offset takes two conversions, as
/// `column_at` does.
pub fn groups_by_columns(line: &RopeSlice<'_>, groups: &Groups) -> Groups
    requires { HasSpansIn (slice_bytes line.now) groups.now }
    ensures { result ≡ in_columns (slice_bytes line.now) groups.now }
{
    let mut told = [None; 10];
    for k in 0..10 {
        told[k] = columns_at(line, groups[k]);
    }
    told
}
