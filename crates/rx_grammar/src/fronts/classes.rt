//! Classes in brackets, character by character.

use crate::classes::doubles;
use crate::fronts::escapes::{Escape, Escaped};
use crate::refusals::Mistake;

/// A class that isn't closed yet.
#[derive(Debug, Clone, Copy, PartialEq, Eq)]
pub(crate) enum Class {
    /// Only its `[`.
    Start,
    /// `[^`.
    Negation,
    /// Its items so far: the scalar value of the last character if it may start a range, and the
    /// character that may not follow.
    Items(Option<u32>, Option<char>),
    /// A `-` that is the last item.
    LastHyphen,
    /// A character, with this scalar value, and a `-` after it.
    Range(u32),
    /// An escape, and the scalar value of the character whose range it ends, if there is one.
    Escape(Escape, Option<u32>),
}

/// Returns the character that may not follow this one in a class.
fn twin(c: char) -> Option<char> {
    if doubles(c) { Some(c) } else { None }
}

/// Reads an item's first character.
fn item(c: char) -> Result<Class, Mistake> {
    match c {
        '[' => Err(Mistake::ClassItem),
        '\\' => Ok(Class::Escape(Escape::Start, None)),
        _ => Ok(Class::Items(Some(u32::from(c)), twin(c))),
    }
}

/// Reads the first character of the first item, where `]` and `-` are literals.
fn first_item(c: char) -> Result<Class, Mistake> {
    match c {
        ']' => Ok(Class::Items(None, None)),
        '-' => Ok(Class::Items(None, Some('-'))),
        _ => item(c),
    }
}

/// Reads the character after a character and a `-`, unless it is `]`.
fn range_end(low: u32, c: char) -> Result<Class, Mistake> {
    match c {
        '[' | '-' => Err(Mistake::ClassItem),
        '\\' => Ok(Class::Escape(Escape::Start, Some(low))),
        _ if u32::from(c) < low => Err(Mistake::RangeOrder),
        _ => Ok(Class::Items(None, twin(c))),
    }
}

/// Reads one character of an escape. It ends the range that starts with `low`.
fn escape(escape: Escape, low: Option<u32>, c: char) -> Result<Class, Mistake> {
    match (escape.take(c, low.unwrap_or(0))?, low) {
        (Escaped::Open(escape), _) => Ok(Class::Escape(escape, low)),
        (Escaped::Character(number), None) => Ok(Class::Items(Some(number), None)),
        (Escaped::Character(number), Some(low)) if number < low => Err(Mistake::RangeOrder),
        (Escaped::Character(_), Some(_)) => Ok(Class::Items(None, None)),
        (Escaped::LetterClass, None) => Ok(Class::Items(None, None)),
        _ => Err(Mistake::ClassItem),
    }
}

impl Class {
    /// Reads one more character. Returns `None` if it closes the class.
    pub(crate) fn take(self, c: char) -> Result<Option<Class>, Mistake> {
        let class = match (self, c) {
            (Class::Start, '^') => Class::Negation,
            (Class::Start | Class::Negation, _) => first_item(c)?,
            (Class::Escape(begun, low), _) => escape(begun, low, c)?,
            (_, ']') => return Ok(None),
            (Class::Items(_, Some(twin)), _) if twin == c => return Err(Mistake::ClassItem),
            (Class::Items(Some(low), _), '-') => Class::Range(low),
            (Class::Items(None, _), '-') => Class::LastHyphen,
            (Class::Items(_, _), _) => item(c)?,
            (Class::LastHyphen, _) => return Err(Mistake::ClassItem),
            (Class::Range(low), _) => range_end(low, c)?,
        };
        Ok(Some(class))
    }

    /// Returns what is missing if the text ends here.
    pub(crate) fn wanted(self) -> Mistake {
        match self {
            Class::Escape(_, _) => Mistake::Escape,
            _ => Mistake::OpenClass,
        }
    }
}
