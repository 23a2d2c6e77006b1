//! Lines by themselves: their texts, how long these are, and columns that count bytes, UTF-16 code
//! units or characters.
ghost use Rattle.std.specs.Prelude.{◌≡◌, ◌<◌, ◌≤◌, length, take, IfOk, IfErr};
ghost use Rattle.ropey.specs.Slices.{slice_text};
ghost use Rattle.rope_search_reports.specs.Text.{line_count};
ghost use Rattle.rope_search_reports.specs.Position.{line_text};
ghost use Rattle.rope_search.specs.Session.{current_text};
ghost use Rattle.rope_search.specs.LineColumns.{IsClamped, IsColumnOf, IsLongestFront, column_as};
ghost use Rattle.rope_search.specs.LineColumns as columns;

use crate::buffer::Buffer;
use crate::encodings::Encoding;
use rope_search_io::Fault;
use rope_search_reports::{Position, line_text, position_of};
use ropey::RopeSlice;

/// How long a line's text is. `O(log n)`.
fn length_in(line: &RopeSlice<'_>, encoding: Encoding) -> usize
    ensures { result ≡ columns.length_in encoding (slice_text line.now) }
{
    match encoding {
        Encoding::Utf8 => line.len_bytes(),
        Encoding::Utf16 => line.len_utf16_cu(),
        Encoding::Utf32 => line.len_chars(),
    }
}

/// How many characters the longest front of a line's text has that is no longer than a column.
/// `O(log n)`.
pub(crate) fn chars_up_to(line: &RopeSlice<'_>, encoding: Encoding, column: usize) -> usize
    ensures within { result ≤ length (slice_text line.now) }
    ensures front { IsLongestFront encoding (slice_text line.now) column
        (take result (slice_text line.now)) }
{
    match encoding {
        Encoding::Utf8 => line.byte_to_char(column.min(line.len_bytes())),
        Encoding::Utf16 => line.utf16_cu_to_char(column.min(line.len_utf16_cu())),
        Encoding::Utf32 => column.min(line.len_chars()),
    }
}

/// Returns a column of a line's text, which counts UTF-16 code units, in an encoding.
///
/// # Requires
///
/// `column` is at most the text's length, and not inside a surrogate pair.
///
/// # Complexity
///
/// `O(log n)`; `O(1)` for bytes if each character of the line takes one.
pub fn column_for(line: &RopeSlice<'_>, encoding: Encoding, column: usize) -> usize
    requires { IsColumnOf (slice_text line.now) column }
    ensures { result ≡ column_as encoding (slice_text line.now) column }
{
    match encoding {
        Encoding::Utf8 if line.len_utf16_cu() == line.len_bytes() => column,
        Encoding::Utf8 => line.char_to_byte(line.utf16_cu_to_char(column)),
        Encoding::Utf16 => column,
        Encoding::Utf32 => line.utf16_cu_to_char(column),
    }
}

impl Buffer {
    /// Returns the text of a line, without the break that ends it.
    ///
    /// # Errors
    ///
    /// `Fault::Range` past the last line.
    ///
    /// # Complexity
    ///
    /// `O(log n)`
    pub fn line_text(&self, line: usize) -> Result<RopeSlice<'_>, Fault>
        ensures text { IfOk result (λ own.
            slice_text own ≡ line_text (current_text self.now.state) line) }
        ensures inside { IfOk result (λ own. line < line_count (current_text self.now.state)) }
        ensures range { IfErr result (λ fault.
            line_count (current_text self.now.state) ≤ line) }
        ensures fault { IfErr result (λ fault. fault ≡ Fault.Range) }
    {
        let text = self.text();
        if text.len_lines() <= line {
            return Err(Fault::Range);
        }
        Ok(line_text(text, line))
    }

    /// Returns how long the text of a line is, without the break that ends it: the greatest column
    /// of the line.
    ///
    /// # Errors
    ///
    /// `Fault::Range` past the last line.
    ///
    /// # Complexity
    ///
    /// `O(log n)`
    pub fn line_len(&self, line: usize, encoding: Encoding) -> Result<usize, Fault>
        ensures len { IfOk result (λ len.
            len ≡ columns.length_in encoding (line_text (current_text self.now.state) line)) }
        ensures inside { IfOk result (λ len. line < line_count (current_text self.now.state)) }
        ensures range { IfErr result (λ fault.
            line_count (current_text self.now.state) ≤ line) }
        ensures fault { IfErr result (λ fault. fault ≡ Fault.Range) }
    {
        let Ok(own) = self.line_text(line) else {
            return Err(Fault::Range);
        };
        Ok(length_in(&own, encoding))
    }

    /// Returns the position nearest to a line and a column that may be nowhere: a column past the
    /// line's text is its end, a column inside a character or a surrogate pair the start of that,
    /// and a line past the last one the end of the text.
    ///
    /// # Complexity
    ///
    /// `O(log n)`
    pub fn clamp(&self, encoding: Encoding, line: usize, column: usize) -> Position
        ensures { IsClamped encoding (current_text self.now.state) line column result }
    {
        // The text's facts, for the proof alone.
        let text = self.text();
        let _ = text.len_bytes();
        if text.len_lines() <= line {
            return position_of(text, text.len_bytes());
        }
        let own = line_text(text, line);
        let chars = chars_up_to(&own, encoding, column);
        Position {
            line,
            column: own.char_to_utf16_cu(chars),
        }
    }
}
