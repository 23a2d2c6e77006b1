//! What is on the two sides of an offset.

ghost use Rattle.std.specs.Prelude.{◌≡◌, take, reverse};
ghost use Rattle.std.specs.Str.{chars};
ghost use Rattle.unicode.specs.Perl.{is_word_char};
ghost use Rattle.rx_walks.specs.Characters as characters;
ghost use Rattle.rx_walks.specs.Looks as walks;
ghost use Rattle.rx_steps.specs.Sides.{side};

use std::str;
use unicode::perl::is_word_character;

/// What is on one side of an offset.
#[derive(Clone, Copy, Debug)]
pub(crate) enum Side {
    /// The slice starts or ends there.
    Edge,
    /// Bytes that aren't a whole character.
    Broken,
    /// A character.
    Whole(char),
}

/// Returns the only character of a text, if it has exactly one.
fn only_one(text: &str) -> Option<char>
    ensures { result ≡ characters.only_one (chars text.now) }
{
    let mut all = text.chars();
    let character = all.next()?;
    match all.next() {
        None => Some(character),
        Some(_) => None,
    }
}

/// Returns the character whose UTF-8 these bytes are.
fn character_of(bytes: &[u8]) -> Option<char>
    ensures { result ≡ characters.character_of bytes.now }
{
    match str::from_utf8(bytes) {
        Ok(text) => only_one(text),
        Err(_) => None,
    }
}

/// Returns the first `len` bytes, or all if there are fewer.
fn front(bytes: &[u8], len: usize) -> &[u8]
    ensures { result.now ≡ take len bytes.now }
{
    &bytes[..len.min(bytes.len())]
}

/// Returns the last `len` bytes, or all if there are fewer.
fn back(bytes: &[u8], len: usize) -> &[u8]
    ensures { result.now ≡ reverse (take len (reverse bytes.now)) }
{
    &bytes[bytes.len() - len.min(bytes.len())..]
}

/// Returns the character whose UTF-8 comes first.
fn first_character(bytes: &[u8]) -> Option<char>
    ensures { result ≡ characters.first_character bytes.now }
{
    if let Some(character) = character_of(front(bytes, 1)) {
        return Some(character);
    }
    if let Some(character) = character_of(front(bytes, 2)) {
        return Some(character);
    }
    if let Some(character) = character_of(front(bytes, 3)) {
        return Some(character);
    }
    character_of(front(bytes, 4))
}

/// Returns the character whose UTF-8 comes last.
fn last_character(bytes: &[u8]) -> Option<char>
    ensures { result ≡ characters.last_character (reverse bytes.now) }
{
    if let Some(character) = character_of(back(bytes, 1)) {
        return Some(character);
    }
    if let Some(character) = character_of(back(bytes, 2)) {
        return Some(character);
    }
    if let Some(character) = character_of(back(bytes, 3)) {
        return Some(character);
    }
    character_of(back(bytes, 4))
}

impl Side {
    /// Returns the side of these bytes, with the character next to the offset, if it is whole.
    fn new(bytes: &[u8], character: Option<char>) -> Side
        ensures { side result ≡ walks.side_of bytes.now character }
    {
        match (bytes.is_empty(), character) {
            (true, _) => Side::Edge,
            (false, None) => Side::Broken,
            (false, Some(character)) => Side::Whole(character),
        }
    }

    /// Returns the side before an offset, from the bytes before it.
    pub(crate) fn before(bytes: &[u8]) -> Side
        ensures { side result ≡ walks.side_before (reverse bytes.now) }
    {
        Side::new(bytes, last_character(bytes))
    }

    /// Returns the side after an offset, from the bytes after it.
    pub(crate) fn after(bytes: &[u8]) -> Side
        ensures { side result ≡ walks.side_after bytes.now }
    {
        Side::new(bytes, first_character(bytes))
    }

    /// Returns whether this is a word character.
    pub(crate) fn has_word(self) -> bool
        ensures { result ≡ walks.has_word is_word_char (side self) }
    {
        match self {
            Side::Edge | Side::Broken => false,
            Side::Whole(character) => is_word_character(character),
        }
    }

    /// Returns whether these are bytes that aren't a whole character.
    pub(crate) fn is_broken(self) -> bool
        ensures { result ≡ walks.is_broken (side self) }
    {
        match self {
            Side::Edge | Side::Whole(_) => false,
            Side::Broken => true,
        }
    }
}
