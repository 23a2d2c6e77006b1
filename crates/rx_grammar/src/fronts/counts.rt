//! Counts in braces, character by character.

use crate::refusals::Mistake;

/// The greatest number in braces.
const MAX_NUMBER: u32 = 65_535;

/// The number of its digits.
const MAX_DIGITS: u32 = 5;

/// A count that isn't closed yet.
#[derive(Debug, Clone, Copy, PartialEq, Eq)]
pub(crate) enum Count {
    /// Only its `{`.
    Start,
    /// Digits of the least number, and their value.
    Least(u32),
    /// The least number and a comma.
    Comma(u32),
    /// The least number, and the value of the digits after the comma.
    Most(u32, u32),
}

/// Returns the number with one more digit.
fn appended(number: u32, digit: u32) -> Result<u32, Mistake> {
    let number = number.saturating_mul(10).saturating_add(digit);
    if number > MAX_NUMBER {
        return Err(Mistake::LargeCount);
    }
    Ok(number)
}

/// Returns whether some number of at most 65,535 that starts with these digits is at least `least`.
fn reaches(digits: u32, least: u32) -> bool {
    let mut low = digits;
    let mut high = digits;
    for _ in 0..=MAX_DIGITS {
        if low <= MAX_NUMBER && high >= least {
            return true;
        }
        low = low.saturating_mul(10);
        high = high.saturating_mul(10).saturating_add(9);
    }
    false
}

/// Returns the greatest number with one more digit.
fn most(least: u32, number: u32, digit: u32) -> Result<Count, Mistake> {
    let number = appended(number, digit)?;
    if !reaches(number, least) {
        return Err(Mistake::CountOrder);
    }
    Ok(Count::Most(least, number))
}

impl Count {
    /// Reads one more character. Returns `None` if it closes the count.
    pub(crate) fn take(self, c: char) -> Result<Option<Count>, Mistake> {
        match (self, c.to_digit(10), c) {
            (Count::Start, Some(digit), _) => Ok(Some(Count::Least(digit))),
            (Count::Least(number), Some(digit), _) => {
                Ok(Some(Count::Least(appended(number, digit)?)))
            }
            (Count::Comma(least), Some(digit), _) => Ok(Some(most(least, 0, digit)?)),
            (Count::Most(least, number), Some(digit), _) => Ok(Some(most(least, number, digit)?)),
            (Count::Least(least), _, ',') => Ok(Some(Count::Comma(least))),
            (Count::Least(_) | Count::Comma(_), _, '}') => Ok(None),
            (Count::Most(least, number), _, '}') => {
                if number < least {
                    return Err(Mistake::CountOrder);
                }
                Ok(None)
            }
            _ => Err(Mistake::Count),
        }
    }
}
