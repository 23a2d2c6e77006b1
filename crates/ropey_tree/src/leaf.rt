//! A leaf: a text of 1 to `MAX_BYTES` bytes.

ghost use Rattle.std.specs.Prelude.{◌≡◌, ◌+◌, ◌<◌, ◌≤◌, ◌⊎◌, ◌++◌, [], length, take, drop, true, false, encode_utf8_all, string_bytes, IfOk};
ghost use Rattle.std.specs.Str.{chars, IsCharBoundary};
ghost use Rattle.str_indices.specs.Text.{starts_with_lf};
ghost use Rattle.str_indices.specs.Text.{byte_len, ends_with_cr};
ghost use Rattle.ropey_tree.specs.Counts.{counts_of};
ghost use Rattle.ropey_tree.specs.Cutting.{IsPiece, cuts_cr_lf};

use crate::MAX_BYTES;
use crate::counts::Counts;
use arrayvec::ArrayString;
use std::alloc::{AllocError, Global};
use std::marker::Model;

/// A text of 1 to `MAX_BYTES` bytes: `NodeText` in `ropey`. It takes as many bytes as it has.
/// Contracts see its characters.
#[derive(Drop)]
pub struct Leaf {
    text: String,
}

impl Model for Leaf {
    ghost use Rattle.std.specs.Prelude.{ℕ, ◌≤◌, List, length, string_bytes};
    ghost use Rattle.std.specs.Str.{chars};

    ghost Value = { List ℕ };

    ghost view = { λ leaf. chars (string_bytes leaf.text) };

    ghost invariant = { λ leaf. (1 ≤ length (string_bytes leaf.text)) ×
        (length (string_bytes leaf.text) ≤ 984) };
}

impl Leaf {
    /// Returns a leaf with a copy of a text.
    ///
    /// # Requires
    ///
    /// The text has 1 to 984 bytes.
    ///
    /// # Errors
    ///
    /// Out of memory.
    pub fn new(alloc: Global, text: &str) -> Result<Self, AllocError>
        requires not_empty { 1 ≤ length text.now }
        requires not_long { length text.now ≤ 984 }
        ensures { IfOk result (λ leaf. leaf ≡ chars text.now) }
    {
        let text = String::from_str(alloc, text)?;
        Ok(Leaf { text })
    }

    /// Returns a leaf with a text, without copying it.
    pub(crate) fn of(text: String) -> Self
        requires not_empty { 1 ≤ length (string_bytes text) }
        requires not_long { length (string_bytes text) ≤ 984 }
        ensures { result ≡ chars (string_bytes text) }
    {
        Leaf { text }
    }

    /// Returns the text.
    #[inline]
    pub fn as_str(&self) -> &str
        ensures text { chars result.now ≡ self.now }
        ensures bytes { result.now ≡ encode_utf8_all self.now }
        ensures piece { IsPiece self.now }
    {
        self.text.as_str()
    }

    /// Returns the counts of the text.
    pub fn counts(&self) -> Counts
        ensures { result ≡ counts_of self.now }
    {
        Counts::of(self.as_str())
    }

    /// Returns whether the first character is LF.
    pub(crate) fn is_lf_first(&self) -> bool
        ensures { result ≡ starts_with_lf self.now }
    {
        is_lf_first(self.as_str())
    }

    /// Returns whether the last character is CR.
    pub(crate) fn is_cr_last(&self) -> bool
        ensures { result ≡ ends_with_cr self.now }
    {
        is_cr_last(self.as_str())
    }
}

/// A leaf under construction: a text of at most `MAX_BYTES` bytes. It ends with CR only if there is
/// still room for an LF after it. Contracts see its characters.
#[derive(Drop)]
pub struct LeafBuffer {
    text: ArrayString<MAX_BYTES>,
}

impl Model for LeafBuffer {
    ghost use Rattle.std.specs.Prelude.{◌≡◌, ℕ, ◌<◌, ◌⊎◌, List, length, false};
    ghost use Rattle.std.specs.Str.{chars};
    ghost use Rattle.str_indices.specs.Text.{ends_with_cr};

    ghost Value = { List ℕ };

    ghost view = { λ buffer. chars buffer.text.bytes };

    ghost invariant = { λ buffer. (length buffer.text.bytes < 984) ⊎
        (ends_with_cr (chars buffer.text.bytes) ≡ false) };
}

impl LeafBuffer {
    /// Returns the empty buffer.
    pub fn new() -> Self
        ensures { result ≡ [] }
    {
        LeafBuffer {
            text: ArrayString::new(),
        }
    }

    /// Returns a copy.
    pub fn copy(&self) -> Self
        ensures { result ≡ self.now }
    {
        LeafBuffer { text: self.text }
    }

    /// Returns the number of bytes that are free.
    #[inline]
    pub fn room(&self) -> usize
        ensures { byte_len self.now + result ≡ 984 }
    {
        // For the proof only.
        let _ = self.text.as_str();
        self.text.remaining_capacity()
    }

    /// Appends as much from the start of a text as there is room for, but no part of a character or
    /// of a CR LF, and returns the number of bytes.
    pub fn fill(&mut self, text: &str) -> usize
        ensures within { result ≤ length text.now }
        ensures boundary { IsCharBoundary text.now result }
        ensures text { self.new ≡ self.old ++ chars (take result text.now) }
        ensures whole { cuts_cr_lf self.new (chars (drop result text.now)) ≡ false }
        ensures all { byte_len self.old + length text.now < 984 → result ≡ length text.now }
        ensures full { (result ≡ length text.now) ⊎ (980 ≤ byte_len self.new) }
    {
        // For the proof only.
        let _ = self.text.as_str();
        let end = fill_end(text, self.text.remaining_capacity());
        self.text.push_str(&text[..end]);
        end
    }

    /// Returns the leaf with the text.
    ///
    /// # Requires
    ///
    /// The text isn't empty.
    ///
    /// # Errors
    ///
    /// Out of memory.
    pub fn into_leaf(self, alloc: Global) -> Result<Leaf, AllocError>
        requires { 1 ≤ byte_len self }
        ensures text { IfOk result (λ leaf. leaf ≡ self) }
        ensures piece { IfOk result (λ _. IsPiece self) }
    {
        let leaf = Leaf::new(alloc, self.text.as_str())?;
        // For the proof only.
        let _ = leaf.as_str();
        Ok(leaf)
    }
}

/// Returns how many bytes of a text go into `room` bytes: as many as possible, but no part of a
/// character, and no CR that would leave no room for an LF after it.
pub(crate) fn fill_end(text: &str, room: usize) -> usize
    ensures within { result ≤ length text.now }
    ensures fits { result ≤ room }
    ensures boundary { IsCharBoundary text.now result }
    ensures all { length text.now < room → result ≡ length text.now }
    ensures full { (result ≡ length text.now) ⊎ (room ≤ result + 4) }
    ensures cr { (result < room) ⊎ ((result ≡ 0) ⊎
        (ends_with_cr (chars (take result text.now)) ≡ false)) }
    ensures lf { starts_with_lf (chars (drop result text.now)) ≡ true → result ≡ room }
{
    if text.len() < room {
        return text.len();
    }
    let end = text.floor_char_boundary(room);
    if end > 0 && text.as_bytes()[end - 1] == b'\r' {
        end - 1
    } else {
        end
    }
}

/// Returns whether the first character of a text is LF.
pub(crate) fn is_lf_first(text: &str) -> bool
    ensures { result ≡ starts_with_lf (chars text.now) }
{
    !text.is_empty() && text.as_bytes()[0] == b'\n'
}

/// Returns whether the last character of a text is CR.
pub(crate) fn is_cr_last(text: &str) -> bool
    ensures { result ≡ ends_with_cr (chars text.now) }
{
    !text.is_empty() && text.as_bytes()[text.len() - 1] == b'\r'
}
