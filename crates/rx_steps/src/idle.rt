//! Bytes at which no match begins.

ghost use Rattle.std.specs.Prelude.{ℕ, ◌≡◌, ◌+◌, ◌<◌, ◌≤◌, ◌⊎◌, ◌↔◌, IsTrue, Some, length, min};
ghost use Rattle.rx_walks.specs.Finds.{IsInside};
ghost use Rattle.rx_input.specs.Inputs.{IsMoved};
ghost use Rattle.rx_steps.specs.Idle.{Knows, IsPassed, IsPassedAt};
ghost use Rattle.rx_steps.specs.Searching.{search_of};

use rx_input::{Cursor, Input};
use std::marker::Model;

/// The bytes at which a thread from the program's start leads nowhere, as far as searches have met
/// them. Contracts see for each byte whether it is a member.
#[derive(Debug, Drop)]
pub(crate) struct IdleBytes {
    known: [bool; 256],
}

impl Model for IdleBytes {
    ghost use Rattle.std.specs.Prelude.{List, Bool};

    ghost Value = { List Bool };

    ghost view = { λ idle. idle.known };
}

impl IdleBytes {
    /// Returns the empty set.
    pub(crate) fn new() -> IdleBytes
        ensures { (b : ℕ) → Knows result b → ⊥ }
    {
        IdleBytes {
            known: [false; 256],
        }
    }

    /// Returns a copy.
    pub(crate) fn copied(&self) -> IdleBytes
        ensures { result ≡ self.now }
    {
        IdleBytes { known: self.known }
    }

    /// Adds a byte, if there is one.
    pub(crate) fn insert(&mut self, byte: Option<u8>)
        ensures { (b : ℕ) → Knows self.new b → (byte ≡ Some b) ⊎ Knows self.old b }
    {
        if let Some(byte) = byte {
            self.known[usize::from(byte)] = true;
        }
    }

    /// Returns whether a byte can be skipped: it is a member, or a continuation byte and no match
    /// may begin inside a character.
    fn passes(&self, byte: u8, utf8_empty: bool) -> bool
        ensures { IsTrue result ↔ IsPassed self.now utf8_empty byte }
    {
        if utf8_empty && 128 <= byte && byte < 192 {
            return true;
        }
        self.known[usize::from(byte)]
    }

    /// Returns how many bytes at the start can be skipped.
    fn len_of(&self, bytes: &[u8], utf8_empty: bool) -> usize
        ensures within { result ≤ length bytes.now }
        ensures passed { (k : ℕ) → k < result → IsPassedAt self.now utf8_empty bytes.now k }
        ensures no_more { IsPassedAt self.now utf8_empty bytes.now result → ⊥ }
    {
        let mut len = 0_usize;
        for byte in bytes {
            if !self.passes(*byte, utf8_empty) {
                return len;
            }
            len += 1;
        }
        len
    }
}

/// Returns the highest offset that a thread can reach, if the haystack is long enough: the lesser
/// end of slice and span.
pub fn last_place<C: Cursor>(input: &Input<C>) -> usize
    ensures { result ≡ min input.now.asked.slice.end input.now.asked.span.end }
{
    input.get_slice().end.min(input.end())
}

/// Returns how many bytes can be skipped from the input's position on, in its chunk and up to the
/// highest offset.
fn passed_ahead<C: Cursor>(idle: &IdleBytes, input: &Input<C>, utf8_empty: bool) -> usize
    ensures inside { IsInside (search_of utf8_empty input.now) input.now.position
        → IsInside (search_of utf8_empty input.now) (input.now.position + result) }
    ensures passed { (k : ℕ) → input.now.position ≤ k → k < input.now.position + result
        → IsPassedAt idle.now utf8_empty input.now.cursor.content k }
    ensures no_more { result ≡ 0
        → input.now.position < min input.now.asked.slice.end input.now.asked.span.end
        → IsPassedAt idle.now utf8_empty input.now.cursor.content input.now.position → ⊥ }
{
    let left = last_place(input).saturating_sub(input.position());
    let ahead = &input.chunk()[input.chunk_pos()..];
    idle.len_of(&ahead[..left.min(ahead.len())], utf8_empty)
}

/// Moves an input past the bytes at its position that can be skipped, at most to the highest
/// offset.
pub(crate) fn skip<C: Cursor>(idle: &IdleBytes, input: &mut Input<C>, utf8_empty: bool)
    ensures above { input.old.position ≤ input.new.position }
    ensures inside { IsInside (search_of utf8_empty input.old) input.old.position
        → IsInside (search_of utf8_empty input.old) input.new.position }
    ensures passed { (k : ℕ) → input.old.position ≤ k → k < input.new.position
        → IsPassedAt idle.now utf8_empty input.old.cursor.content k }
    ensures no_more { input.new.position
        < min input.old.asked.slice.end input.old.asked.span.end
        → IsPassedAt idle.now utf8_empty input.old.cursor.content input.new.position → ⊥ }
    ensures same { IsMoved input.old input.new input.new.position input.old.asked }
{
    loop {
        let len = passed_ahead(idle, input, utf8_empty);
        if len == 0 {
            return;
        }
        input.move_to(input.position() + len);
    }
}
