//! A part of a text, between two offsets, and its replacement.
ghost use Rattle.std.specs.Prelude.{◌≡◌, ℕ, ◌+◌, ◌^◌, ◌<◌, ◌↔◌, List, [], ◌∷◌, length, IsTrue, IfOk, IfErr, IfSome, IfNone};
ghost use Rattle.std.specs.Str.{chars};
ghost use Rattle.str_indices.specs.Text.{byte_len};
ghost use Rattle.ropey.specs.Chunks.{text_of};
ghost use Rattle.rope_search_reports.specs.Text.{line_count};
ghost use Rattle.rope_search_reports.specs.Changes.{AreChanges};
ghost use Rattle.rope_search.specs.Places.{HasNoneBetween, IsMarked, IsMarkedBetween, with_replaced};

use rope_search_io::Fault;
use rope_search_reports::{Change, Place, Position, places_of};
use ropey::Rope;

/// A part of a text: from one offset to another.
#[derive(Clone, Copy, Debug, PartialEq, Eq)]
pub struct Part {
    /// Where it starts.
    pub start: Place,
    /// Where it ends.
    pub end: Place,
}

impl Part {
    /// Returns the part of a text between two positions, or `None` if one of them is nowhere, or
    /// the second one is before the first.
    pub fn between(text: &Rope, from: Position, to: Position) -> Option<Part>
        ensures part { IfSome result (λ part.
            IsMarkedBetween (text_of text.now) from to part) }
        ensures none { IfNone result (HasNoneBetween (text_of text.now) from to) }
    {
        // For the proof: a law.
        rope_search_reports::laws::one_place();
        let (start, end) = places_of(text, from, to)?;
        if end.char_idx < start.char_idx {
            return None;
        }
        Some(Part { start, end })
    }

    /// Returns whether the text would have more bytes than the limit if another text replaced this
    /// part.
    pub fn is_over(self, limit: usize, text: &Rope, inserted: &str) -> bool
        requires { IsMarked (text_of text.now) self }
        ensures { IsTrue result ↔ limit <
            byte_len (with_replaced (text_of text.now) self (chars inserted.now)) }
    {
        let kept = text.len_bytes() - (self.end.byte_idx - self.start.byte_idx);
        limit < inserted.len() || limit - inserted.len() < kept
    }

    /// Returns the text with this part replaced by another text. Errors: `Fault::Memory` only.
    pub fn replaced(self, text: &Rope, inserted: &str) -> Result<Rope, Fault>
        requires marked { IsMarked (text_of text.now) self }
        requires fits { byte_len (with_replaced (text_of text.now) self (chars inserted.now))
            < 2 ^ 63 }
        ensures text { IfOk result (λ new. text_of new ≡
            with_replaced (text_of text.now) self (chars inserted.now)) }
        ensures fault { IfErr result (λ fault. fault ≡ Fault.Memory) }
    {
        // For the proof: the text's facts.
        let _ = text.len_bytes();
        let mut new = text.clone()?;
        let range = self.start.byte_idx..self.end.byte_idx;
        let Ok(()) = new.byte_replace(range, inserted) else {
            return Err(Fault::Memory);
        };
        Ok(new)
    }

    /// Returns the change that replaces this part by another text.
    pub fn change(self, inserted: &str) -> Change
        requires { self.start.byte_idx + length inserted.now < 2 ^ 64 }
        ensures places { result ≡ record {
          old_end = self.end.byte_idx;
          new_start = self.start.byte_idx;
          new_end = self.start.byte_idx + length inserted.now;
        } }
        ensures changes { (text : List ℕ) → IsMarked text self
            → AreChanges (result ∷ []) 0 0 text (with_replaced text self (chars inserted.now))
            (line_count (chars inserted.now)) }
    {
        let start = self.start.byte_idx;
        Change {
            old_end: self.end.byte_idx,
            new_start: start,
            new_end: start + inserted.len(),
        }
    }
}
