//! The report of a text: its lines, each searched separately.
ghost use Rattle.std.specs.Prelude.{◌≡◌, ◌+◌, ◌-◌, ◌^◌, ◌<◌, ◌≤◌, ◌++◌, [], take, drop, replicate, IfOk, IfErr, OnOk};
ghost use Rattle.ropey.specs.Chunks.{text_of};
ghost use Rattle.rope_search_reports.specs.Text.{line_count};
ghost use Rattle.rope_search_reports.specs.Report.{line_texts, IsRow, AreRows, IsReport, match_count};
ghost use Rattle.rope_search_reports.specs.Drafts.{AddsRows, lines_between};
ghost use Rattle.rope_search_reports.specs.Ticks.{LooksAtMost, MakesAsMany, MakesAtMost};

use crate::line::Line;
use crate::rows::{Finder, Lines, Row, row_of};
use crate::walk::{Walk, lines_up_to};
use rope_search_io::Fault;
use ropey::Rope;
use std::alloc::Global;

/// Maximum number of lines searched between literal scans.
const MOST: usize = 1_024;

/// Returns the report of a text for a finder's pattern: a row for each line, from the first, as
/// `rows_of_lines` does. Counts one row for each line, or fewer after an error.
///
/// # Errors
///
/// `Fault::Memory`; the finder remains usable.
///
/// # Complexity
///
/// Linear in the text, times the pattern's weight for the lines that are searched.
pub fn report_of(
    tick: &mut Lines,
    alloc: Global,
    finder: &mut Finder,
    text: &Rope,
) -> Result<Vec<Row>, Fault>
    ensures rows { IfOk result (λ rows. IsReport (text_of text.now) finder.old rows.items) }
    ensures few { IfOk result (λ rows. match_count rows.items < 2 ^ 64) }
    ensures fault { IfErr result (λ fault. fault ≡ Fault.Memory) }
    ensures finder { finder.new ≡ finder.old }
    ensures count { MakesAtMost (line_count (text_of text.now)) tick.old tick.new }
    ensures each { OnOk result (MakesAsMany (line_count (text_of text.now)) tick.old tick.new) }
    ensures looks { LooksAtMost (line_count (text_of text.now)) tick.old tick.new }
{
    // For the proof: the text's facts.
    let _ = text.len_bytes();
    rows_of_lines(tick, alloc, finder, text, 0, text.len_lines())
}

/// Adds the rows of the next `count` lines, each searched separately and in place. Counts a row for
/// each of them, or fewer after an error.
///
/// Errors: `Fault::Memory`; the finder remains usable.
fn push_rows(
    tick: &mut Lines,
    finder: &mut Finder,
    walk: &mut Walk<'_>,
    rows: &mut Vec<Row>,
    count: usize,
) -> Result<(), Fault>
    requires { walk.old.line + count ≤ line_count walk.old.text }
    ensures text { walk.new.text ≡ walk.old.text }
    ensures line { OnOk result (walk.new.line ≡ walk.old.line + count) }
    ensures rows { OnOk result (AddsRows finder.old
        (lines_between walk.old.text walk.old.line (walk.old.line + count))
        rows.old.items rows.new.items) }
    ensures fault { IfErr result (λ fault. fault ≡ Fault.Memory) }
    ensures finder { finder.new ≡ finder.old }
    ensures count { MakesAtMost count tick.old tick.new }
    ensures each { OnOk result (MakesAsMany count tick.old tick.new) }
    ensures looked { tick.new.looked ≡ tick.old.looked }
{
    for _done in 0..count {
        rows.push(row_of(tick, finder, walk.next())?)?;
    }
    Ok(())
}

/// Adds empty rows for the next lines, in which nothing matches. Counts a row for each of them, or
/// fewer after an error. Requires that the pattern doesn't match the empty text.
///
/// Errors: `Fault::Memory`; the finder remains usable.
fn push_bare(
    tick: &mut Lines,
    finder: &mut Finder,
    rows: &mut Vec<Row>,
    count: usize,
) -> Result<(), Fault>
    requires { 0 < count → IsRow finder.old [] [] }
    ensures rows { OnOk result (rows.new.items ≡ rows.old.items ++ replicate count []) }
    ensures fault { IfErr result (λ fault. fault ≡ Fault.Memory) }
    ensures finder { finder.new ≡ finder.old }
    ensures count { MakesAtMost count tick.old tick.new }
    ensures each { OnOk result (MakesAsMany count tick.old tick.new) }
    ensures looked { tick.new.looked ≡ tick.old.looked }
{
    for _done in 0..count {
        rows.push(row_of(tick, finder, Line::Whole(""))?)?;
    }
    Ok(())
}

/// Skips the next lines up to `end`, before the one in which a match may begin, and adds their
/// rows. Counts a row for each of them, or fewer after an error; counts as scanned each of them,
/// and the line after them if one is left. Returns their number. Requires that the walk has no line
/// after these, except an empty one.
///
/// Errors: `Fault::Memory`; the finder remains usable.
fn pass_over(
    tick: &mut Lines,
    finder: &mut Finder,
    walk: &mut Walk<'_>,
    rows: &mut Vec<Row>,
    end: usize,
) -> Result<usize, Fault>
    requires ordered { walk.old.line ≤ end }
    requires within { end ≤ line_count walk.old.text }
    requires all { line_count walk.old.text ≤ end + 1 }
    ensures text { walk.new.text ≡ walk.old.text }
    ensures line { IfOk result (λ passed. walk.new.line ≡ walk.old.line + passed) }
    ensures within { IfOk result (λ passed. walk.old.line + passed ≤ end) }
    ensures rows { IfOk result (λ passed. AddsRows finder.old
        (lines_between walk.old.text walk.old.line (walk.old.line + passed))
        rows.old.items rows.new.items) }
    ensures fault { IfErr result (λ fault. fault ≡ Fault.Memory) }
    ensures finder { finder.new ≡ finder.old }
    ensures count { MakesAtMost (end - walk.old.line) tick.old tick.new }
    ensures each { IfOk result (λ passed. MakesAsMany passed tick.old tick.new) }
    ensures looks { LooksAtMost (end - walk.old.line) tick.old tick.new }
    ensures looked { IfOk result (λ passed. LooksAtMost (passed + 1) tick.old tick.new) }
{
    let left = end - walk.line_idx();
    if left == 0 {
        return Ok(0);
    }
    let passed = finder.bare_lines(tick, walk, left);
    push_bare(tick, finder, rows, passed)?;
    Ok(passed)
}

/// Adds the rows of lines `first..end` of a text, as `rows_of_lines` returns them. A single line is
/// reached by a walk that advances to it, without a look-up if it is in the walk's chunk.
///
/// Errors: `Fault::Memory`; the finder remains usable.
pub(crate) fn push_rows_ahead(
    tick: &mut Lines,
    alloc: Global,
    finder: &mut Finder,
    text: &Rope,
    walk: &mut Walk<'_>,
    first: usize,
    end: usize,
    rows: &mut Vec<Row>,
) -> Result<(), Fault>
    requires ordered { first ≤ end }
    requires within { end ≤ line_count (text_of text.now) }
    requires walks { walk.old.text ≡ text_of text.now }
    requires ahead { walk.old.line ≤ first }
    ensures rows { OnOk result (AddsRows finder.old (lines_between (text_of text.now) first end)
        rows.old.items rows.new.items) }
    ensures fault { IfErr result (λ fault. fault ≡ Fault.Memory) }
    ensures finder { finder.new ≡ finder.old }
    ensures count { MakesAtMost (end - first) tick.old tick.new }
    ensures each { OnOk result (MakesAsMany (end - first) tick.old tick.new) }
    ensures looks { LooksAtMost (end - first) tick.old tick.new }
    ensures text { OnOk result (walk.new.text ≡ walk.old.text) }
    ensures line { OnOk result (walk.new.line ≤ end) }
{
    if end - first != 1 {
        let mut made = rows_of_lines(tick, alloc, finder, text, first, end)?;
        if rows.is_empty() {
            *rows = made;
            return Ok(());
        }
        rows.append(&mut made)?;
        return Ok(());
    }
    walk.pass(first - walk.line_idx());
    push_rows(tick, finder, walk, rows, 1)
}

/// Returns the number of lines to search before the next literal scan, from the number searched
/// last time and the number that the scan then skipped: twice as many if it skipped none.
fn lines_before_asking(last: usize, passed: usize) -> usize
    requires { 1 ≤ last }
    ensures { 1 ≤ result }
{
    if passed == 0 {
        last.saturating_mul(2).min(MOST)
    } else {
        1
    }
}

/// Returns the rows of lines `first..end` of a text. Each line is searched separately and in place,
/// or skipped if a scan for the literals that each match begins with finds none up to its end.
/// Counts a row for each line, or fewer after an error.
///
/// # Requires
///
/// `first <= end` and `end <= len_lines()`.
///
/// # Errors
///
/// `Fault::Memory`; the finder remains usable.
///
/// # Complexity
///
/// Linear in these lines, times the pattern's weight for those that are searched, plus `O(log n)`
/// for each chunk.
pub fn rows_of_lines(
    tick: &mut Lines,
    alloc: Global,
    finder: &mut Finder,
    text: &Rope,
    first: usize,
    end: usize,
) -> Result<Vec<Row>, Fault>
    requires ordered { first ≤ end }
    requires within { end ≤ line_count (text_of text.now) }
    ensures rows { IfOk result (λ rows. AreRows finder.old
        (take (end - first) (drop first (line_texts (text_of text.now)))) rows.items) }
    ensures fault { IfErr result (λ fault. fault ≡ Fault.Memory) }
    ensures finder { finder.new ≡ finder.old }
    ensures count { MakesAtMost (end - first) tick.old tick.new }
    ensures each { OnOk result (MakesAsMany (end - first) tick.old tick.new) }
    ensures looks { LooksAtMost (end - first) tick.old tick.new }
{
    // All memory for the rows is reserved before the first search.
    let mut rows = Vec::with_capacity(alloc, end - first)?;
    if first == end {
        return Ok(rows);
    }
    if first + 1 == end {
        let mut walk = Walk::at(text.slice(..), first);
        push_rows(tick, finder, &mut walk, &mut rows, 1)?;
        return Ok(rows);
    }
    let mut walk = Walk::at(lines_up_to(text, end), first);
    let mut few = 1;
    while walk.line_idx() < end {
        let count = few.min(end - walk.line_idx());
        push_rows(tick, finder, &mut walk, &mut rows, count)?;
        let passed = pass_over(tick, finder, &mut walk, &mut rows, end)?;
        few = lines_before_asking(few, passed);
    }
    Ok(rows)
}
