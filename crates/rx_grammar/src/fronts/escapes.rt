//! Escapes, character by character.

use crate::atoms::look_of;
use crate::classes::letter_named;
use crate::escapes::{MAX_SCALAR, escaped_by};
use crate::refusals::Mistake;

/// The most digits in braces.
const MAX_BRACED: u32 = 8;

/// An escape that isn't finished yet.
#[derive(Debug, Clone, Copy, PartialEq, Eq)]
pub(crate) enum Escape {
    /// Only its `\`.
    Start,
    /// `\x` or `\u`, and the number of digits unless they are in braces.
    Marked(u32),
    /// The value of the digits so far, and how many must follow.
    Digits(u32, u32),
    /// The value of the digits in braces so far, and how many may follow.
    Braced(u32, u32),
}

/// An escape after one more character.
#[derive(Debug, Clone, Copy, PartialEq, Eq)]
pub(crate) enum Escaped {
    /// It isn't finished yet.
    Open(Escape),
    /// It is the character with this scalar value.
    Character(u32),
    /// It is a letter class.
    LetterClass,
    /// It is a look-around assertion.
    Look,
}

/// Returns whether a number from `low` to `high` is a scalar value that is at least `least`.
fn has_scalar(low: u64, high: u64, least: u32) -> bool {
    let last = match high.min(u64::from(MAX_SCALAR)) {
        0xD800..=0xDFFF => 0xD7FF,
        last => last,
    };
    last >= low.max(u64::from(least))
}

/// Returns whether digits of this value, followed by `fewest` to `most` digits, can be a scalar
/// value that is at least `least`.
fn may_spell(number: u32, fewest: u32, most: u32, least: u32) -> bool {
    let mut low = u64::from(number);
    let mut high = low;
    for more in 0..=most {
        if more >= fewest && has_scalar(low, high, least) {
            return true;
        }
        low = low.saturating_mul(16);
        high = high.saturating_mul(16).saturating_add(15);
    }
    false
}

/// Returns the value with one more digit, which `fewest` to `most` digits may follow.
fn appended(number: u32, c: char, fewest: u32, most: u32, least: u32) -> Result<u32, Mistake> {
    let Some(digit) = c.to_digit(16) else {
        return Err(Mistake::Escape);
    };
    let number = number.saturating_mul(16).saturating_add(digit);
    if !may_spell(number, fewest, most, 0) {
        return Err(Mistake::Scalar);
    }
    if !may_spell(number, fewest, most, least) {
        return Err(Mistake::RangeOrder);
    }
    Ok(number)
}

/// Reads the character after a backslash.
fn after_backslash(c: char) -> Result<Escaped, Mistake> {
    match c {
        'x' => return Ok(Escaped::Open(Escape::Marked(2))),
        'u' => return Ok(Escaped::Open(Escape::Marked(4))),
        _ => {}
    }
    if let Some(character) = escaped_by(c) {
        return Ok(Escaped::Character(u32::from(character)));
    }
    if letter_named(c).is_some() {
        return Ok(Escaped::LetterClass);
    }
    if look_of(c).is_some() {
        return Ok(Escaped::Look);
    }
    Err(Mistake::Escape)
}

/// Reads one more digit outside braces. `left` digits were to follow.
fn digit(number: u32, left: u32, c: char, least: u32) -> Result<Escaped, Mistake> {
    let left = left.saturating_sub(1);
    let number = appended(number, c, left, left, least)?;
    Ok(if left == 0 {
        Escaped::Character(number)
    } else {
        Escaped::Open(Escape::Digits(number, left))
    })
}

/// Reads one more character in braces.
fn in_braces(number: u32, left: u32, c: char, least: u32) -> Result<Escaped, Mistake> {
    if c == '}' && left < MAX_BRACED {
        if !may_spell(number, 0, 0, 0) {
            return Err(Mistake::Scalar);
        }
        return Ok(Escaped::Character(number));
    }
    if left == 0 {
        return Err(Mistake::Escape);
    }
    let left = left - 1;
    let number = appended(number, c, 0, left, least)?;
    Ok(Escaped::Open(Escape::Braced(number, left)))
}

impl Escape {
    /// Reads one more character. A character given by digits has to be at least `least`.
    pub(crate) fn take(self, c: char, least: u32) -> Result<Escaped, Mistake> {
        match self {
            Escape::Start => after_backslash(c),
            Escape::Marked(_) if c == '{' => Ok(Escaped::Open(Escape::Braced(0, MAX_BRACED))),
            Escape::Marked(left) => digit(0, left, c, least),
            Escape::Digits(number, left) => digit(number, left, c, least),
            Escape::Braced(number, left) => in_braces(number, left, c, least),
        }
    }
}
