//! Columns in bytes, in UTF-16 code units and in characters. A language server and its editor agree
//! on one of them.
ghost use Rattle.std.specs.Prelude.{◌≡◌, ℕ, ◌<◌, Some, IfSome, IfOk, IfErr};
ghost use Rattle.ropey.specs.Chunks.{text_of};
ghost use Rattle.rope_search_reports.specs.Text.{line_count};
ghost use Rattle.rope_search_reports.specs.Position.{IsAt, IsNowhere, line_at};
ghost use Rattle.rope_search.specs.Session.{current_text};
ghost use Rattle.rope_search.specs.Encodings.{CharLaws, IsAtIn, IsNowhereIn};
ghost use Rattle.rope_search.specs.Encodings as encodings;

use crate::buffer::Buffer;
use rope_search_io::Fault;
use rope_search_reports::{Position, byte_of};
use ropey::Rope;

/// What columns count.
#[derive(Clone, Copy, Debug, PartialEq, Eq, Hash)]
pub enum Encoding {
    /// Bytes of UTF-8.
    Utf8,
    /// UTF-16 code units, like the columns of a `Position`.
    Utf16,
    /// Characters, like the code units of UTF-32: Unicode scalar values.
    Utf32,
}

/// Laws for proofs: where the characters of a text end.
fn char_laws()
    ensures { CharLaws }
{
    str_indices::laws::ends_of_a_part();
    str_indices::laws::from_byte_idx_is_monotone();
    str_indices::laws::counts_are_at_most_bytes();
    str_indices::laws::conversion_there_and_back();
    str_indices::laws::ends_and_places_agree();
    str_indices::laws::place_there_and_back();
    str_indices::laws::boundaries_and_indices_agree();
}

/// Returns the length, in an encoding, of the text from the start of a position's line to its
/// offset.
fn column_of(text: &Rope, encoding: Encoding, position: Position, place: usize) -> usize
    requires { IsAt (text_of text.now) (position.line, position.column) place }
    ensures { result ≡ encodings.column_in encoding (text_of text.now) place }
{
    // For the proof: laws, and the text's facts.
    char_laws();
    str_indices::laws::place_there_and_back();
    let _ = text.len_bytes();
    match encoding {
        Encoding::Utf8 => place - text.line_to_byte(position.line),
        Encoding::Utf16 => position.column,
        Encoding::Utf32 => text.byte_to_char(place) - text.line_to_char(position.line),
    }
}

/// Returns the offset this far after the start of a line: the one with the column, if any has it.
fn place_behind(text: &Rope, encoding: Encoding, line: usize, column: usize) -> Option<usize>
    requires { line < line_count (text_of text.now) }
    ensures column { IfSome result (λ place. line ≡ line_at (text_of text.now) place
        → column ≡ encodings.column_in encoding (text_of text.now) place) }
    ensures only { (place : ℕ) → IsAtIn encoding (text_of text.now) line column place
        → result ≡ Some place }
{
    // For the proof: laws, and the text's facts.
    char_laws();
    str_indices::laws::place_there_and_back();
    let _ = text.len_bytes();
    match encoding {
        Encoding::Utf8 => {
            let place = text.line_to_byte(line).checked_add(column)?;
            if text.len_bytes() < place {
                return None;
            }
            Some(place)
        }
        Encoding::Utf16 => byte_of(text, Position { line, column }),
        Encoding::Utf32 => {
            let char_idx = text.line_to_char(line).checked_add(column)?;
            if text.len_chars() < char_idx {
                return None;
            }
            Some(text.char_to_byte(char_idx))
        }
    }
}

impl Buffer {
    /// Returns the column of a position in an encoding: the length of the text between its line's
    /// start and the position. In UTF-16 code units it is the position's own column. `O(log n)`.
    ///
    /// # Errors
    ///
    /// `Fault::Range` if the position is nowhere in the text.
    pub fn column_in(&self, encoding: Encoding, position: Position) -> Result<usize, Fault>
        ensures column { IfOk result (λ column. (place : ℕ)
            × IsAt (current_text self.now.state) (position.line, position.column) place
            × IsAtIn encoding (current_text self.now.state) position.line column place) }
        ensures range { IfErr result (λ fault.
            IsNowhere (current_text self.now.state) (position.line, position.column)) }
        ensures fault { IfErr result (λ fault. fault ≡ Fault.Range) }
    {
        let place = self.byte_of(position)?;
        Ok(column_of(self.text(), encoding, position, place))
    }

    /// Returns the position of a line and a column in an encoding. `O(log n)`.
    ///
    /// # Errors
    ///
    /// `Fault::Range` if they are nowhere in the text: inside a character or a break, after the
    /// line's text, or past the last line.
    pub fn position_in(
        &self,
        encoding: Encoding,
        line: usize,
        column: usize,
    ) -> Result<Position, Fault>
        ensures position { IfOk result (λ told. (place : ℕ)
            × IsAtIn encoding (current_text self.now.state) line column place
            × IsAt (current_text self.now.state) (told.line, told.column) place) }
        ensures range { IfErr result (λ fault.
            IsNowhereIn encoding (current_text self.now.state) line column) }
        ensures fault { IfErr result (λ fault. fault ≡ Fault.Range) }
    {
        // For the proof: laws.
        char_laws();
        str_indices::laws::place_there_and_back();
        rope_search_reports::laws::one_place();
        rope_search_reports::laws::places_are_in_lines();
        let text = self.text();
        let _ = text.len_bytes();
        if text.len_lines() <= line {
            return Err(Fault::Range);
        }
        let Some(place) = place_behind(text, encoding, line, column) else {
            return Err(Fault::Range);
        };
        let position = self.position_of(place)?;
        if position.line != line {
            return Err(Fault::Range);
        }
        // An offset between CR and LF also has a position, which is nowhere in the text.
        if self.byte_of(position)? != place {
            return Err(Fault::Range);
        }
        Ok(position)
    }
}
