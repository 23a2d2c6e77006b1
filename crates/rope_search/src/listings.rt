//! Writes reports.
ghost use Rattle.std.specs.Prelude.{◌≡◌, ◌<◌, ◌≤◌, ◌^◌, [], ◌++◌, drop, flat_map, OnOk, MatchResult};
ghost use Rattle.rope_search_io.specs.WriteBuffer.{Puts, Writes, WritesUntil};
ghost use Rattle.rope_search_reports.specs.Report.{match_count};
ghost use Rattle.rope_search.specs.Shows.{shown_found, shown_match, shown_report};

use itoa::{Buffer as Digits, write_digits};
use rope_search_io::{Broken, Sink, WriteBuffer};
use rope_search_reports::{Position, Row};

/// The length of the longest match as it is shown: three numbers of at most 20 digits, and five
/// bytes around them.
const MATCH_LEN: usize = 65;

/// Writes a match at the end of an array: the number of its line, and its two columns. Returns
/// where it begins.
fn format_match(line: usize, span: (usize, usize), shown: &mut [u8; MATCH_LEN]) -> usize
    ensures inside { result ≤ 65 }
    ensures written { drop result shown.new ≡ shown_match line span }
{
    shown[MATCH_LEN - 1] = b'\n';
    let end = write_digits(span.1 as u64, shown, MATCH_LEN - 1);
    shown[end - 1] = b' ';
    let start = write_digits(span.0 as u64, shown, end - 1);
    shown[start - 1] = b' ';
    let number = write_digits(line as u64, shown, start - 1);
    shown[number - 1] = b' ';
    shown[number - 2] = b'm';
    number - 2
}

/// Writes a match: the line and the column where it starts, and those where it ends. After an
/// error, a prefix of it was written.
pub fn write_found<W: Sink>(
    start: Position,
    end: Position,
    write_buffer: &mut WriteBuffer,
    sink: &mut W,
) -> Result<(), Broken>
    requires empty { write_buffer.old ≡ [] }
    ensures empty { OnOk result (write_buffer.new ≡ []) }
    ensures written { MatchResult result
        (λ _. Writes (W.state sink.old) (W.state sink.new) (shown_found start end))
        (λ broken. WritesUntil broken (W.state sink.old) (W.state sink.new)
        (shown_found start end)) }
{
    let (mut start_line, mut start_column) = (Digits::new(), Digits::new());
    let (mut end_line, mut end_column) = (Digits::new(), Digits::new());
    let start_line = start_line.format(start.line).as_bytes();
    let start_column = start_column.format(start.column).as_bytes();
    let end_line = end_line.format(end.line).as_bytes();
    let end_column = end_column.format(end.column).as_bytes();
    write_buffer.send_parts(
        sink,
        &[
            b"m ",
            start_line,
            b" ",
            start_column,
            b" ",
            end_line,
            b" ",
            end_column,
            b"\n",
        ],
    )
}

/// Appends the matches of a line to the buffered bytes; each is formatted in `shown`. After an
/// error, a prefix of the buffered bytes and these was written.
fn put_row<W: Sink>(
    line: usize,
    matches: &[(usize, usize)],
    shown: &mut [u8; MATCH_LEN],
    write_buffer: &mut WriteBuffer,
    sink: &mut W,
) -> Result<(), Broken>
    ensures written { MatchResult result
        (λ _. Puts write_buffer.old write_buffer.new (W.state sink.old) (W.state sink.new)
        (flat_map (shown_match line) matches.now))
        (λ broken. WritesUntil broken (W.state sink.old) (W.state sink.new)
        (write_buffer.old ++ flat_map (shown_match line) matches.now)) }
{
    for span in matches {
        let start = format_match(line, *span, shown);
        write_buffer.put(sink, &shown[start..])?;
    }
    Ok(())
}

/// Writes a report: a line for each match, followed by their number. After an error, a prefix of it
/// was written.
pub fn write_report<W: Sink>(
    rows: &[Row],
    write_buffer: &mut WriteBuffer,
    sink: &mut W,
) -> Result<(), Broken>
    requires empty { write_buffer.old ≡ [] }
    requires few { match_count rows.now < 2 ^ 64 }
    ensures empty { OnOk result (write_buffer.new ≡ []) }
    ensures written { MatchResult result
        (λ _. Writes (W.state sink.old) (W.state sink.new) (shown_report rows.now))
        (λ broken. WritesUntil broken (W.state sink.old) (W.state sink.new)
        (shown_report rows.now)) }
{
    let mut shown = [0; MATCH_LEN];
    let mut line = 0;
    let mut count = 0;
    for row in rows {
        let matches = row.matches();
        put_row(line, matches, &mut shown, write_buffer, sink)?;
        line += 1;
        count += matches.len();
    }
    let mut digits = Digits::new();
    write_buffer.send_parts(sink, &[b"ok ", digits.format(count).as_bytes(), b"\n"])
}
