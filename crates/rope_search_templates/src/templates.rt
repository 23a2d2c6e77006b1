//! Templates: the replacement of a match.
ghost use Rattle.std.specs.Prelude.{◌≡◌, ℕ, ◌≤◌, false, true, List, [], ◌++◌, take, SomeIff, OnOk, OnErr, string_bytes};
ghost use Rattle.std.specs.Str.{chars};
ghost use Rattle.str_indices.specs.Text.{byte_len};
ghost use Rattle.ropey.specs.Chunks.{text_of};
ghost use Rattle.rope_search_changes.specs.Text.{IsText, bytes_of};
ghost use Rattle.rope_search_changes.specs.Replacement.{Groups, HasSpansIn, expand};
ghost use Rattle.rope_search_templates.specs.Templates.{NeedsGroups, names_explicit_groups, names_groups};
ghost use Rattle.rope_search_templates.specs.Matches.{groups_in};
ghost use Rattle.rope_search_templates.specs.Pieces.{IsTemplatePiece, shown};

use crate::matches::Match;
use crate::parts::Parts;
use crate::pieces::{Piece, Pieces};
use std::alloc::AllocError;
use std::marker::Model;

/// The replacement of a match. In a template `$` and a digit expand to the text of the group with
/// that number, which is empty if the group takes no part in the match, or isn't in the pattern.
/// `$$` expands to a dollar. Every other character is copied, also another `$`. Each text is a
/// template. Contracts see its characters.
#[derive(Debug, Drop)]
pub struct Template<'a> {
    text: &'a str,
    // The length of its expansion in bytes, if that is the same at every match.
    same_len: Option<usize>,
}

impl<'a> Model for Template<'a> {
    ghost use Rattle.std.specs.Prelude.{List, ℕ, IsUtf8, IfSome};
    ghost use Rattle.std.specs.Str.{chars};
    ghost use Rattle.rope_search_templates.specs.Templates.{IsSame};

    ghost Value = { List ℕ };

    ghost view = { λ template. chars template.text.now };

    ghost invariant = { λ template. IsUtf8 template.text.now
        × IfSome template.same_len (IsSame (chars template.text.now)) };
}

/// Appends the expansion of a piece of a template to `out`. If out of memory, a prefix of it may
/// have been appended.
fn push_piece(
    piece: Piece<'_>,
    parts: &mut Parts<'_>,
    found: Match<'_>,
    out: &mut String,
) -> Result<(), AllocError>
    requires piece { IsTemplatePiece piece }
    requires spans { HasSpansIn (bytes_of (text_of parts.old)) (groups_in found) }
    ensures pushed { OnOk result (chars (string_bytes out.new) ≡ chars (string_bytes out.old)
        ++ shown (bytes_of (text_of parts.old)) (groups_in found.entry) piece.entry) }
    ensures front { OnErr result ((len : ℕ) × (chars (string_bytes out.new) ≡
        chars (string_bytes out.old)
        ++ take len (shown (bytes_of (text_of parts.old)) (groups_in found.entry) piece.entry))) }
    ensures parts { parts.new ≡ parts.old }
{
    match piece {
        Piece::Text(part) => out.push_str(part),
        Piece::Group(number) => {
            let Some((start, end)) = found.group(number) else {
                return Ok(());
            };
            parts.push(start, end, out)
        }
    }
}

impl<'a> Template<'a> {
    /// Returns the template with these characters. Allocates and copies nothing. `O(m)` for m
    /// bytes.
    pub fn new(text: &'a str) -> Template<'a>
        ensures { result ≡ chars text.now }
    {
        let template = Template {
            text,
            same_len: None,
        };
        if template.names_groups() {
            return template;
        }
        let same_len = template.len_within(usize::MAX, Match::Span(0, 0));
        Template { text, same_len }
    }

    /// Returns its number of bytes.
    pub(crate) fn len_bytes(&self) -> usize
        ensures { result ≡ byte_len self.now }
    {
        self.text.len()
    }

    /// Returns whether its expansion is the same at every match: it names no group.
    pub(crate) fn is_same(&self) -> bool
        ensures { result ≡ true → (content : List ℕ) (groups : Groups)
            → expand content groups self.now ≡ expand [] [] self.now }
    {
        self.same_len.is_some()
    }

    /// Returns an iterator over its pieces.
    fn pieces(&self) -> Pieces<'a>
        ensures { result ≡ self.now }
    {
        Pieces::new(self.text)
    }

    /// Returns whether it names a group. If it names none, its expansion is the same at every
    /// match. `O(m)` for a template of m bytes.
    fn names_groups(&self) -> bool
        ensures named { result ≡ names_groups self.now }
        ensures fixed { result ≡ false → (content : List ℕ) (groups : Groups)
            → expand content groups self.now ≡ expand [] [] self.now }
    {
        for piece in self.pieces() {
            if let Piece::Group(_) = piece {
                return true;
            }
        }
        false
    }

    /// Returns whether it names a group other than the whole match, which is group 0. If it
    /// doesn't, the spans of matches are sufficient to replace them. `O(m)` for a template of m
    /// bytes.
    pub fn names_explicit_groups(&self) -> bool
        ensures { result ≡ names_explicit_groups self.now }
    {
        for piece in self.pieces() {
            match piece {
                Piece::Group(number) if number > 0 => return true,
                _ => {}
            }
        }
        false
    }

    /// Returns the number of groups, from group 0 on, that matches need to be replaced: one more
    /// than the number of the last group that it names, at least 1. `O(m)` for a template of m
    /// bytes.
    pub fn group_count(&self) -> usize
        ensures { NeedsGroups self.now result }
    {
        let mut count = 1;
        for piece in self.pieces() {
            count = count.max(piece.group_count());
        }
        count
    }

    /// Returns the length of its expansion for a match, in bytes of UTF-8, or `None` if that is
    /// more than `limit`. Stops reading once it is. `O(m)` for a template of m bytes that names a
    /// group, however long the groups are; otherwise `O(1)`.
    pub(crate) fn len_within(&self, limit: usize, found: Match<'_>) -> Option<usize>
        requires { (text : List ℕ) × IsText text × HasSpansIn (bytes_of text) (groups_in found) }
        ensures { (text : List ℕ) → IsText text → HasSpansIn (bytes_of text) (groups_in found.entry)
            → let len = byte_len (expand (bytes_of text) (groups_in found.entry) self.now) in
            SomeIff result (len ≤ limit) len }
    {
        if let Some(len) = self.same_len {
            return (len <= limit).then_some(len);
        }
        let mut left = limit;
        for piece in self.pieces() {
            left = left.checked_sub(piece.len(found))?;
        }
        Some(limit - left)
    }

    /// Appends its expansion for a match of a text to `out`. If out of memory, a prefix of it may
    /// have been appended.
    ///
    /// # Complexity
    ///
    /// `O(m + n)` for a template of m bytes with an expansion of n, plus `O(log t)` for each group
    /// that isn't in the chunk of the one before, in a text of t bytes.
    pub(crate) fn expand(
        &self,
        parts: &mut Parts<'_>,
        found: Match<'_>,
        out: &mut String,
    ) -> Result<(), AllocError>
        requires { HasSpansIn (bytes_of (text_of parts.old)) (groups_in found) }
        ensures expanded { OnOk result (chars (string_bytes out.new) ≡
            chars (string_bytes out.old)
            ++ expand (bytes_of (text_of parts.old)) (groups_in found.entry) self.now) }
        ensures front { OnErr result ((len : ℕ) × (chars (string_bytes out.new) ≡
            chars (string_bytes out.old)
            ++ take len (expand (bytes_of (text_of parts.old)) (groups_in found.entry) self.now))) }
        ensures parts { parts.new ≡ parts.old }
    {
        for piece in self.pieces() {
            push_piece(piece, parts, found, out)?;
        }
        Ok(())
    }
}
