//! The iterator over the characters of a text.

ghost use Rattle.std.specs.Prelude.{◌≡◌, ◌+◌, ◌<◌, ◌≤◌, ◌++◌, length, drop, encode_utf8, ⊤};
ghost use Rattle.std.specs.Str.{IsCharBoundary};
ghost use Rattle.ropey_walk.specs.TwoWay.{turned, before_item, GivesPrev};
ghost use Rattle.ropey_walk.specs.Iter.{GivesItem, IsCharPlace};
ghost use Rattle.ropey_walk.specs.Slices.{slice_text};

use crate::ascii::byte_of_char;
use crate::slice::RopeSlice;
use ropey_tree::counts::By;
use std::alloc::AllocError;
use std::iter::{ExactSizeIterator, FusedIterator};
use std::marker::Model;

/// A position between the characters of a chunk, at its start or at its end.
#[derive(Clone, Copy)]
struct CharPlace<'a> {
    chunk: &'a str,
    // The byte index of the position in the chunk.
    at: usize,
}

/// A character next to a position, and the byte index of the position on its other side.
#[derive(Clone, Copy)]
struct Read {
    character: char,
    at: usize,
}

/// Returns the position before character `char_idx` in the chunk that contains character `in_char`,
/// which is that one or the one before it. Loops call this once for each chunk, so it isn't
/// inlined.
#[inline(never)]
fn place_in_chunk_of<'a>(slice: &RopeSlice<'a>, in_char: usize, char_idx: usize) -> CharPlace<'a>
    requires low { in_char ≤ char_idx }
    requires high { char_idx ≤ in_char + 1 }
    requires within { char_idx ≤ length (slice_text slice.now) }
    ensures place { IsCharPlace (slice_text slice.now) char_idx result.chunk.now result.at }
    ensures ahead { in_char ≡ char_idx → char_idx < length (slice_text slice.now) →
        result.at < length result.chunk.now }
    ensures behind { in_char < char_idx → 0 < result.at }
{
    let chunk = slice.chunk(By::Chars, in_char);
    CharPlace {
        chunk: chunk.text,
        at: byte_of_char(chunk.text, chunk.is_ascii, char_idx - chunk.start.chars),
    }
}

/// Returns the position in a chunk that has a character after it.
#[inline]
fn place_to_go_on<'a>(slice: &RopeSlice<'a>, place: CharPlace<'a>, char_idx: usize) -> CharPlace<'a>
    requires place { IsCharPlace (slice_text slice.now) char_idx place.chunk.now place.at }
    requires more { char_idx < length (slice_text slice.now) }
    ensures place { IsCharPlace (slice_text slice.now) char_idx result.chunk.now result.at }
    ensures ahead { result.at < length result.chunk.now }
{
    if place.at < place.chunk.len() {
        return place;
    }
    // A copy, so that loops keep the iterator itself in registers.
    let slice = *slice;
    place_in_chunk_of(&slice, char_idx, char_idx)
}

/// Returns the position in a chunk that has a character before it.
#[inline]
fn place_to_go_back<'a>(
    slice: &RopeSlice<'a>,
    place: CharPlace<'a>,
    char_idx: usize,
) -> CharPlace<'a>
    requires place { IsCharPlace (slice_text slice.now) char_idx place.chunk.now place.at }
    requires more { 0 < char_idx }
    requires within { char_idx ≤ length (slice_text slice.now) }
    ensures place { IsCharPlace (slice_text slice.now) char_idx result.chunk.now result.at }
    ensures behind { 0 < result.at }
{
    if place.at > 0 {
        return place;
    }
    // A copy, so that loops keep the iterator itself in registers.
    let slice = *slice;
    place_in_chunk_of(&slice, char_idx - 1, char_idx)
}

/// Returns the character that starts at a byte of a text.
#[inline]
fn read_on(chunk: &str, at: usize) -> Read
    requires boundary { IsCharBoundary chunk.now at }
    requires more { at < length chunk.now }
    ensures reads { drop at chunk.now ≡ encode_utf8 result.character ++ drop result.at chunk.now }
    ensures boundary { IsCharBoundary chunk.now result.at }
{
    let byte = chunk.as_bytes()[at];
    if byte < 0x80 {
        return Read {
            character: byte as char,
            at: at + 1,
        };
    }
    read_wide_on(chunk, at)
}

/// `read_on` for a character of several bytes, not inlined into loops over ASCII.
#[inline(never)]
fn read_wide_on(chunk: &str, at: usize) -> Read
    requires boundary { IsCharBoundary chunk.now at }
    requires more { at < length chunk.now }
    ensures reads { drop at chunk.now ≡ encode_utf8 result.character ++ drop result.at chunk.now }
    ensures boundary { IsCharBoundary chunk.now result.at }
{
    let mut rest = chunk[at..].chars();
    match rest.next() {
        Some(character) => Read {
            character,
            at: chunk.len() - rest.as_str().len(),
        },
        None => unreachable!(),
    }
}

/// Returns the character that ends at a byte of a text.
#[inline]
fn read_back(chunk: &str, at: usize) -> Read
    requires boundary { IsCharBoundary chunk.now at }
    requires more { 0 < at }
    ensures reads { drop result.at chunk.now ≡ encode_utf8 result.character ++ drop at chunk.now }
    ensures boundary { IsCharBoundary chunk.now result.at }
{
    let byte = chunk.as_bytes()[at - 1];
    if byte < 0x80 {
        return Read {
            character: byte as char,
            at: at - 1,
        };
    }
    read_wide_back(chunk, at)
}

/// `read_back` for a character of several bytes, not inlined into loops over ASCII.
#[inline(never)]
fn read_wide_back(chunk: &str, at: usize) -> Read
    requires boundary { IsCharBoundary chunk.now at }
    requires more { 0 < at }
    ensures reads { drop result.at chunk.now ≡ encode_utf8 result.character ++ drop at chunk.now }
    ensures boundary { IsCharBoundary chunk.now result.at }
{
    let mut rest = chunk[..at].chars();
    match rest.next_back() {
        Some(character) => Read {
            character,
            at: rest.as_str().len(),
        },
        None => unreachable!(),
    }
}

/// An iterator over the characters (Unicode scalar values) of a text, in both directions. Contracts
/// see the characters on both sides.
///
/// A step takes `O(1)` inside a chunk, and `O(log n)` from one to the next.
#[derive(Drop)]
pub struct Chars<'a> {
    slice: RopeSlice<'a>,
    place: CharPlace<'a>,
    // The character index of the position.
    char_idx: usize,
    // The number of characters of the text.
    len: usize,
    is_reversed: bool,
}

impl<'a> Model for Chars<'a> {
    ghost use Rattle.std.specs.Prelude.{◌≡◌, ℕ, ◌≤◌, length};
    ghost use Rattle.ropey_walk.specs.TwoWay.{TwoWay, facing};
    ghost use Rattle.ropey_walk.specs.Iter.{IsCharPlace};
    ghost use Rattle.ropey_walk.specs.Slices.{slice_text};

    ghost Value = { TwoWay ℕ };

    ghost view = { λ chars. facing chars.is_reversed chars.char_idx (slice_text chars.slice) };

    ghost invariant = { λ chars.
        IsCharPlace (slice_text chars.slice) chars.char_idx chars.place.chunk.now chars.place.at ×
        (chars.char_idx ≤ length (slice_text chars.slice)) ×
        (chars.len ≡ length (slice_text chars.slice)) };
}

impl<'a> Chars<'a> {
    /// Returns an iterator from a character index, or from the end.
    pub(crate) fn at(slice: RopeSlice<'a>, char_idx: usize) -> Self
        requires { char_idx ≤ length (slice_text slice) }
        ensures { result ≡ before_item char_idx (slice_text slice.entry) }
    {
        Chars {
            slice,
            place: place_in_chunk_of(&slice, char_idx, char_idx),
            char_idx,
            len: slice.counts().chars,
            is_reversed: false,
        }
    }

    /// Reverses the direction: `next` and `prev` swap.
    pub fn reverse(&mut self)
        ensures { self.new ≡ turned self.old }
    {
        self.is_reversed = !self.is_reversed;
    }

    /// Returns the iterator with its direction reversed.
    pub fn reversed(mut self) -> Self
        ensures { result ≡ turned self.entry }
    {
        self.reverse();
        self
    }

    /// Returns the preceding character and moves back before it, or returns `None` and stays.
    #[inline(always)]
    pub fn prev(&mut self) -> Option<char>
        ensures { GivesPrev GivesItem self.old result self.new }
    {
        self.reverse();
        let character = self.next();
        self.reverse();
        character
    }
}

impl<'a> Iterator for Chars<'a> {
    type Item = char;

    ghost use Rattle.std.specs.Iterator.{item_count};

    ghost next_gives = { GivesItem };

    ghost remaining = { item_count (λ chars. chars.ahead) };

    #[inline(always)]
    fn next(&mut self) -> Option<char> {
        if self.is_reversed {
            if self.char_idx == 0 {
                return None;
            }
            let place = place_to_go_back(&self.slice, self.place, self.char_idx);
            let read = read_back(place.chunk, place.at);
            self.place = CharPlace {
                chunk: place.chunk,
                at: read.at,
            };
            self.char_idx -= 1;
            Some(read.character)
        } else {
            if self.char_idx == self.len {
                return None;
            }
            let place = place_to_go_on(&self.slice, self.place, self.char_idx);
            let read = read_on(place.chunk, place.at);
            self.place = CharPlace {
                chunk: place.chunk,
                at: read.at,
            };
            self.char_idx += 1;
            Some(read.character)
        }
    }
}

impl<'a> ExactSizeIterator for Chars<'a> {
    fn len(&self) -> usize {
        if self.is_reversed {
            self.char_idx
        } else {
            self.len - self.char_idx
        }
    }
}

impl<'a> FusedIterator for Chars<'a> {}

impl<'a> Clone for Chars<'a> {
    ghost is_clone = { λ chars copy. copy ≡ chars };

    ghost is_infallible = { λ _. ⊤ };

    fn clone(&self) -> Result<Chars<'a>, AllocError> {
        Ok(Chars {
            slice: self.slice,
            place: self.place,
            char_idx: self.char_idx,
            len: self.len,
            is_reversed: self.is_reversed,
        })
    }
}
