//! Texts that arrive in parts, under a limit.
ghost use Rattle.std.specs.Prelude.{◌≡◌, List, ℕ, [], length, Err};
ghost use Rattle.rope_search_texts.specs.Arriving.{Arrives, ArrivesMore, ArrivesMoreWithin, ArrivesWithin, Finishes, FinishesWithin, refusal_so_far};

use crate::growing::GrowingText;
use rope_search_io::{Fault, Utf8Judge};
use ropey::Rope;
use std::alloc::Global;

/// What is kept of a text while its bytes arrive, in parts that may end inside a character. The
/// text is held once, in the leaves of a rope.
#[derive(Drop)]
pub enum ArrivingText {
    /// The text so far.
    Growing(GrowingText),
    /// Whether the bytes are UTF-8; the text has more bytes than its limit.
    Judged(Utf8Judge),
    /// Nothing, because no text begins with the bytes so far.
    Refused,
    /// Nothing, because there was no memory.
    Lost,
}

impl ArrivingText {
    /// Returns a text of `len` bytes before the first of them, which is kept if they are at most
    /// `limit`. Allocates nothing.
    pub fn new(alloc: Global, len: u64, limit: usize) -> ArrivingText
        ensures arrives { Arrives limit len result [] }
        ensures memory { result ≡ ArrivingText.Lost → ⊥ }
    {
        if len <= limit as u64 {
            ArrivingText::Growing(GrowingText::new(alloc))
        } else {
            ArrivingText::Judged(Utf8Judge::new())
        }
    }

    /// Returns a text of a number of bytes that isn't known, before the first of them:
    /// `append_within` adds them. Allocates nothing.
    pub fn open(alloc: Global) -> ArrivingText
        ensures { (limit : ℕ) → ArrivesWithin limit result [] }
    {
        ArrivingText::Growing(GrowingText::new(alloc))
    }

    /// Adds the next bytes of a text that was announced by `new`. `O(n)` in their number.
    pub fn append(&mut self, bytes: &[u8])
        ensures { ArrivesMore self.old self.new bytes.now }
    {
        match self {
            ArrivingText::Growing(text) => match text.append(bytes) {
                Ok(()) => {}
                Err(Fault::Utf8) => *self = ArrivingText::Refused,
                Err(_) => *self = ArrivingText::Lost,
            },
            ArrivingText::Judged(judge) => judge.feed(bytes),
            ArrivingText::Refused | ArrivingText::Lost => {}
        }
    }

    /// Adds the next bytes of a text that `open` began. If the bytes so far are then more than
    /// `limit`, they are dropped, and from then on it is only checked whether all are UTF-8. `O(n)`
    /// in their number.
    pub fn append_within(&mut self, bytes: &[u8], limit: usize)
        ensures { ArrivesMoreWithin limit self.old self.new bytes.now }
    {
        match self {
            ArrivingText::Growing(text) => {
                if bytes.len() > limit.saturating_sub(text.len()) {
                    let mut judge = text.judge();
                    judge.feed(bytes);
                    *self = ArrivingText::Judged(judge);
                } else {
                    self.append(bytes);
                }
            }
            ArrivingText::Judged(_) => self.append(bytes),
            ArrivingText::Refused | ArrivingText::Lost => {}
        }
    }

    /// Returns a reason to refuse the text whatever follows, if one is known. `O(1)`.
    ///
    /// # Errors
    ///
    /// `Fault::Utf8` if no text begins with the bytes so far; `Fault::Size` if they are more than
    /// the limit; `Fault::Memory`.
    pub fn check(&self) -> Result<(), Fault>
        ensures { result ≡ refusal_so_far self.now }
    {
        match self {
            ArrivingText::Growing(_) => Ok(()),
            ArrivingText::Judged(_) => Err(Fault::Size),
            ArrivingText::Refused => Err(Fault::Utf8),
            ArrivingText::Lost => Err(Fault::Memory),
        }
    }

    /// Returns the rope of the text, after all its bytes arrived.
    ///
    /// # Errors
    ///
    /// `Fault::Utf8` if the bytes aren't UTF-8; else `Fault::Size` if they are more than the limit;
    /// `Fault::Memory`, perhaps before it is known that they aren't UTF-8.
    pub fn finish(self) -> Result<Rope, Fault>
        ensures finishes { (limit : ℕ) (bytes : List ℕ) → Arrives limit (length bytes) self bytes
            → Finishes limit bytes result }
        ensures within { (limit : ℕ) (bytes : List ℕ) → ArrivesWithin limit self bytes
            → FinishesWithin limit bytes result }
        ensures lost { self ≡ ArrivingText.Lost → result ≡ Err Fault.Memory }
    {
        match self {
            ArrivingText::Growing(text) => text.finish(),
            ArrivingText::Judged(judge) => {
                if judge.is_utf8() {
                    Err(Fault::Size)
                } else {
                    Err(Fault::Utf8)
                }
            }
            ArrivingText::Refused => Err(Fault::Utf8),
            ArrivingText::Lost => Err(Fault::Memory),
        }
    }
}
