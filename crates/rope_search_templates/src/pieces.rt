//! The pieces of a template.
ghost use Rattle.std.specs.Prelude.{◌≡◌, [], drop, slice_index, IfNone, IfSome};
ghost use Rattle.std.specs.Str.{chars};
ghost use Rattle.rope_search_templates.specs.Pieces.{BeginsWith, GivesPiece, IsFirstPiece, StartsPlain};

use crate::matches::Match;
use memchr::memchr;
use std::iter::FusedIterator;
use std::marker::Model;

/// A piece of a template.
#[derive(Clone, Copy, Debug)]
pub enum Piece<'a> {
    /// This text.
    Text(&'a str),
    /// The text of the group with this number, from 0 to 9.
    Group(usize),
}

impl Piece<'_> {
    ghost use Rattle.std.specs.Prelude.{◌≡◌, ◌-◌, ◌<◌, ◌≤◌, ℕ, List, nat_le, false, true};
    ghost use Rattle.str_indices.specs.Text.{byte_len};
    ghost use Rattle.rope_search_changes.specs.Text.{IsText, bytes_of};
    ghost use Rattle.rope_search_changes.specs.Replacement.{HasSpansIn};
    ghost use Rattle.rope_search_templates.specs.Matches.{groups_in};
    ghost use Rattle.rope_search_templates.specs.Pieces.{IsTemplatePiece, is_group, shown};

    /// Returns the number of groups, from group 0 on, up to the piece's, or 0 for a text.
    pub(crate) fn group_count(self) -> usize
        requires { IsTemplatePiece self }
        ensures few { result ≤ 10 }
        ensures none_further { (n : ℕ) → result ≤ n → is_group (nat_le n) self.entry ≡ false }
        ensures last { 0 < result → is_group (nat_le (result - 1)) self.entry ≡ true }
    {
        match self {
            Piece::Text(_) => 0,
            Piece::Group(number) => number + 1,
        }
    }

    /// Returns the number of bytes of the piece's text at a match.
    pub fn len(self, found: Match<'_>) -> usize
        requires piece { IsTemplatePiece self }
        requires spans { (text : List ℕ) × IsText text
            × HasSpansIn (bytes_of text) (groups_in found) }
        ensures { (text : List ℕ) → IsText text → HasSpansIn (bytes_of text) (groups_in found.entry)
            → result ≡ byte_len (shown (bytes_of text) (groups_in found.entry) self.entry) }
    {
        match self {
            Piece::Text(part) => part.len(),
            Piece::Group(number) => match found.group(number) {
                Some((start, end)) => end - start,
                None => 0,
            },
        }
    }
}

/// Returns the piece of two characters at the start of a template: a dollar and another one, or a
/// dollar and a digit. Without one, a first dollar is itself.
fn pair(left: &str) -> Option<Piece<'_>>
    ensures pair { IfSome result (BeginsWith left.now) }
    ensures none { IfNone result (slice_index left.now 0 ≡ 36 → StartsPlain (drop 1 left.now)) }
{
    let [b'$', second, ..] = left.as_bytes() else {
        return None;
    };
    match *second {
        // The second dollar is the text.
        b'$' => Some(Piece::Text(&left[1..2])),
        b'0'..=b'9' => Some(Piece::Group((*second - b'0') as usize)),
        _ => None,
    }
}

/// Returns the first piece of the rest of a template, and the rest after it, or `None` at the end.
fn first_piece(left: &str) -> Option<(Piece<'_>, &str)>
    ensures none { IfNone result (chars left.now ≡ []) }
    ensures piece { IfSome result (λ first.
        IsFirstPiece (chars left.now) first.0 (chars first.1.now)) }
{
    let [_, behind @ ..] = left.as_bytes() else {
        return None;
    };
    if let Some(piece) = pair(left) {
        return Some((piece, &left[2..]));
    }
    let len = 1 + memchr(b'$', behind).unwrap_or(behind.len());
    Some((Piece::Text(&left[..len]), &left[len..]))
}

/// An iterator over the pieces of a template. Contracts see the remaining characters.
#[derive(Drop)]
pub struct Pieces<'a> {
    left: &'a str,
}

impl<'a> Model for Pieces<'a> {
    ghost use Rattle.std.specs.Prelude.{List, ℕ, IsUtf8};
    ghost use Rattle.std.specs.Str.{chars};

    ghost Value = { List ℕ };

    ghost view = { λ pieces. chars pieces.left.now };

    ghost invariant = { λ pieces. IsUtf8 pieces.left.now };
}

impl<'a> Pieces<'a> {
    ghost use Rattle.std.specs.Prelude.{◌≡◌};
    ghost use Rattle.std.specs.Str.{chars};

    /// Returns an iterator over the pieces of a text.
    pub fn new(text: &'a str) -> Pieces<'a>
        ensures { result ≡ chars text.now }
    {
        Pieces { left: text }
    }
}

impl<'a> Iterator for Pieces<'a> {
    type Item = Piece<'a>;

    ghost use Rattle.std.specs.Prelude.{length};
    ghost use Rattle.std.specs.Iterator.{at_most};

    ghost next_gives = { GivesPiece };

    ghost remaining = { λ left. at_most (length left) };

    fn next(&mut self) -> Option<Piece<'a>> {
        let (piece, left) = first_piece(self.left)?;
        self.left = left;
        Some(piece)
    }
}

impl<'a> FusedIterator for Pieces<'a> {}
