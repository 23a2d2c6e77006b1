//! The rest of a text that is copied from its start on.
ghost use Rattle.std.specs.Prelude.{◌≡◌, ◌+◌, ◌<◌, ◌≤◌, ◌++◌, [], length, take, drop, IsUtf8, OnOk, IfErr};
ghost use Rattle.std.specs.Str.{chars, IsCharBoundary};
ghost use Rattle.ropey.specs.Chunks.{text_of};
ghost use Rattle.rope_search_changes.specs.Text.{bytes_of};

use rope_search_io::Fault;
use ropey::iter::Chunks;
use ropey::{Rope, RopeBuilder};
use std::marker::Model;

/// The rest of a text, chunk by chunk. Contracts see its bytes, the number of them that are left of
/// a chunk, and the number of chunks after that.
#[derive(Drop)]
pub(crate) struct Left<'a> {
    // The rest of the chunk.
    rest: &'a str,
    chunks: Chunks<'a>,
}

impl<'a> Model for Left<'a> {
    ghost use Rattle.std.specs.Prelude.{◌≡◌, ◌++◌, true, length, IsUtf8};
    ghost use Rattle.std.specs.Str.{all_scalars};
    ghost use Rattle.ropey.specs.Chunks.{text_of};
    ghost use Rattle.rope_search_changes.specs.Text.{bytes_of};
    ghost use Rattle.rope_search_templates.specs.Left.{LeftState};

    ghost Value = { LeftState };

    ghost view = { λ left. record {
      bytes = left.rest.now ++ bytes_of (text_of left.chunks.ahead);
      shown = length left.rest.now;
      chunks = length left.chunks.ahead;
    } };

    ghost invariant = { λ left. IsUtf8 left.rest.now
        × (all_scalars (text_of left.chunks.ahead) ≡ true) };
}

impl<'a> Left<'a> {
    /// Returns the rest that is the whole text.
    pub(crate) fn of(text: &'a Rope) -> Left<'a>
        ensures { result.bytes ≡ bytes_of (text_of text.now) }
    {
        Left {
            rest: "",
            chunks: text.chunks(),
        }
    }

    /// Moves to the next chunk if nothing is left of the current one.
    fn show(&mut self)
        ensures bytes { self.new.bytes ≡ self.old.bytes }
        ensures fewer { self.new.chunks ≤ self.old.chunks }
        ensures further { self.new.chunks ≡ self.old.chunks → self.new.shown ≡ 0
            → self.new.bytes ≡ [] }
    {
        if self.rest.is_empty() {
            if let Some(chunk) = self.chunks.next() {
                self.rest = chunk;
            }
        }
    }

    /// Returns and passes the next `len` bytes, or those of them that are in one chunk. There may
    /// be none if it moves to the next chunk.
    fn part(&mut self, len: usize) -> &'a str
        requires { IsCharBoundary self.old.bytes len }
        ensures parts { self.old.bytes ≡ result.now ++ self.new.bytes }
        ensures utf8 { IsUtf8 result.now }
        ensures within { length result.now ≤ len }
        ensures fewer { self.new.chunks ≤ self.old.chunks }
        ensures further { 0 < len → self.new.chunks < self.old.chunks + length result.now }
    {
        self.show();
        let rest = self.rest;
        let end = len.min(rest.len());
        self.rest = &rest[end..];
        &rest[..end]
    }

    /// Appends the next `len` bytes to a builder, and passes them.
    pub(crate) fn copy(&mut self, len: usize, builder: &mut RopeBuilder) -> Result<(), Fault>
        requires { IsCharBoundary self.old.bytes len }
        ensures text { OnOk result (builder.new ≡ builder.old ++ chars (take len self.old.bytes)) }
        ensures left { OnOk result (self.new.bytes ≡ drop len self.old.bytes) }
        ensures fault { IfErr result (λ fault. fault ≡ Fault.Memory) }
    {
        let mut left = len;
        while left > 0 {
            let part = self.part(left);
            let Ok(()) = builder.append(part) else {
                return Err(Fault::Memory);
            };
            left -= part.len();
        }
        Ok(())
    }

    /// Passes the next `len` bytes.
    pub(crate) fn skip(&mut self, len: usize)
        requires { IsCharBoundary self.old.bytes len }
        ensures { self.new.bytes ≡ drop len self.old.bytes }
    {
        let mut left = len;
        while left > 0 {
            left -= self.part(left).len();
        }
    }
}
