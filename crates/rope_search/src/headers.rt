//! A command's line: its word, followed by its numbers.
ghost use Rattle.std.specs.Prelude.{◌≡◌, ◌+◌, ◌-◌, ◌*◌, ◌^◌, ◌<◌, ◌≤◌, ◌↔◌, ℕ, List, [], ◌∷◌, length, take, drop, codes};
ghost use Rattle.std.specs.Prelude.{IfSome, IfNone, SomeIff};
ghost use Rattle.rope_search.specs.Order.{Order};
ghost use Rattle.rope_search.specs.Reads.{AreSpelled, IsLine, IsNumber, IsWorded};
ghost use Rattle.rope_search.specs.Header.{IsHeaderOf, IsDigit, HasNoSpace, EndsNumber, SpellsFront};

use crate::commands::Header;
use rope_search_reports::Position;

/// The maximum number of digits of a number.
const MOST_DIGITS: usize = 20;

/// Returns the header that a line spells, or `None` if it isn't a command's line.
pub fn header_of(line: &[u8]) -> Option<Header>
    ensures found { IfSome result (λ header.
        (order : Order) → IsLine order line.now ↔ IsHeaderOf header order) }
    ensures none { IfNone result ((order : Order) → IsLine order line.now → ⊥) }
{
    if let Some(len) = number_after(line, b"text") {
        return Some(Header::Text(len));
    }
    if let Some((from, to, len)) = edit_of(line) {
        return Some(Header::Edit(from, to, len));
    }
    if let Some(len) = number_after(line, b"pattern") {
        return Some(Header::Pattern(len));
    }
    if let Some(from) = position_after(line, b"next") {
        return Some(Header::Next(from));
    }
    if let Some(len) = number_after(line, b"replace") {
        return Some(Header::Replace(len));
    }
    if let Some(number) = number_after(line, b"use") {
        return Some(Header::Use(number));
    }
    match line {
        b"undo" => Some(Header::Undo),
        b"redo" => Some(Header::Redo),
        b"print" => Some(Header::Print),
        b"fork" => Some(Header::Fork),
        b"off" => Some(Header::Off),
        b"list" => Some(Header::List),
        _ => None,
    }
}

/// Returns the number after this word, if the line consists of both.
fn number_after(line: &[u8], word: &[u8]) -> Option<u64>
    ensures found { IfSome result (λ number.
        (ns : List ℕ) → IsWorded word.now line.now ns ↔ ns ≡ number ∷ []) }
    ensures none { IfNone result ((n : ℕ) → IsWorded word.now line.now (n ∷ []) → ⊥) }
{
    let (number, others) = next_number(line.strip_prefix(word)?)?;
    if others.is_empty() {
        Some(number)
    } else {
        None
    }
}

/// Returns the position after this word, if the line consists of both.
fn position_after(line: &[u8], word: &[u8]) -> Option<Position>
    ensures found { IfSome result (λ told. (ns : List ℕ)
        → IsWorded word.now line.now ns ↔ ns ≡ told.line ∷ told.column ∷ []) }
    ensures none { IfNone result ((l c : ℕ) → IsWorded word.now line.now (l ∷ c ∷ []) → ⊥) }
{
    let (position, others) = next_position(line.strip_prefix(word)?)?;
    if others.is_empty() {
        Some(position)
    } else {
        None
    }
}

/// Returns the two positions and the number of bytes of an `edit`, if the line is one.
fn edit_of(line: &[u8]) -> Option<(Position, Position, u64)>
    ensures found { IfSome result (λ told. (ns : List ℕ) → IsWorded (codes "edit") line.now ns
        ↔ ns ≡ told.0.line ∷ told.0.column ∷ told.1.line ∷ told.1.column ∷ told.2 ∷ []) }
    ensures none { IfNone result ((a b c d n : ℕ)
        → IsWorded (codes "edit") line.now (a ∷ b ∷ c ∷ d ∷ n ∷ []) → ⊥) }
{
    let (from, others) = next_position(line.strip_prefix(b"edit")?)?;
    let (to, others) = next_position(others)?;
    let (len, others) = next_number(others)?;
    if others.is_empty() {
        Some((from, to, len))
    } else {
        None
    }
}

/// Returns the next position, spelled by two numbers, and the bytes after it.
fn next_position(bytes: &[u8]) -> Option<(Position, &[u8])>
    ensures found { IfSome result (λ told.
        SpellsFront bytes.now (told.0.line ∷ told.0.column ∷ []) told.1.now) }
    ensures none { IfNone result ((line column : ℕ) (others : List ℕ)
        → AreSpelled (line ∷ column ∷ others) bytes.now → ⊥) }
{
    let (line, others) = next_number(bytes)?;
    let (column, others) = next_number(others)?;
    let position = Position {
        line: line as usize,
        column: column as usize,
    };
    Some((position, others))
}

/// Returns the next number, after one space, and the bytes after it.
fn next_number(bytes: &[u8]) -> Option<(u64, &[u8])>
    ensures found { IfSome result (λ told. SpellsFront bytes.now (told.0 ∷ []) told.1.now) }
    ensures none { IfNone result ((n : ℕ) (others : List ℕ)
        → AreSpelled (n ∷ others) bytes.now → ⊥) }
{
    let bytes = bytes.strip_prefix(b" ")?;
    let (digits, others) = bytes.split_at(len_to_space(bytes));
    Some((number_of(digits)?, others))
}

/// Returns the number of bytes before the first space, or of all bytes.
fn len_to_space(bytes: &[u8]) -> usize
    ensures within { result ≤ length bytes.now }
    ensures before { HasNoSpace (take result bytes.now) }
    ensures behind { EndsNumber (drop result bytes.now) }
{
    for (at, byte) in bytes.iter().enumerate() {
        if *byte == b' ' {
            return at;
        }
    }
    bytes.len()
}

/// Returns the number that these bytes spell: 1 to 20 decimal digits, at most `u64::MAX`.
fn number_of(digits: &[u8]) -> Option<u64>
    ensures found { IfSome result (λ number. IsNumber digits.now number) }
    ensures none { IfNone result ((number : ℕ) → IsNumber digits.now number → ⊥) }
{
    if digits.is_empty() || digits.len() > MOST_DIGITS {
        return None;
    }
    let mut value = 0u64;
    for digit in digits {
        value = value_after(value, *digit)?;
    }
    Some(value)
}

/// Returns the number with one more decimal digit.
fn value_after(value: u64, digit: u8) -> Option<u64>
    ensures { SomeIff result (IsDigit digit × (10 * value + (digit - 48) < 2 ^ 64))
        (10 * value + (digit - 48)) }
{
    if !digit.is_ascii_digit() {
        return None;
    }
    value.checked_mul(10)?.checked_add(u64::from(digit - b'0'))
}
