//! A cursor over a slice of a rope.

ghost use Rattle.std.specs.Prelude.{◌≡◌, ◌≤◌, ⊤, true, encode_utf8_all};
ghost use Rattle.rx_input.specs.Cursors.{IsLawful};
ghost use Rattle.regex_cursor.specs.Showing.{IsBeforeLast, IsSomeAhead, behind_shown};
ghost use Rattle.regex_cursor.specs.Showing.{byte_len, slice_bytes, slice_text, text_of};

use ropey::RopeSlice;
use ropey::iter::Chunks;
use rx_input::Cursor;
use std::alloc::AllocError;
use std::marker::Model;

/// A cursor over exactly the bytes of a slice, chunk by chunk. It takes no memory, and a clone is
/// the same cursor. A step descends from the node above the chunk that was passed last, or from the
/// root if that node has no further chunk, in `O(log n)`; after a change of direction the next step
/// takes two.
#[derive(Drop)]
pub struct RopeyCursor<'a> {
    // After the current chunk, or before it after a backward step.
    chunks: Chunks<'a>,
    is_before: bool,
    shown: &'a str,
    // Where that chunk starts, and the length of the slice, in bytes.
    offset: usize,
    len: usize,
}

impl<'a> Model for RopeyCursor<'a> {
    ghost use Rattle.rx_input.specs.Cursors.{CursorState};
    ghost use Rattle.regex_cursor.specs.Showing.{StandsBy, behind_shown, showing};

    ghost Value = { CursorState };

    ghost view = { λ c. showing (behind_shown c.is_before c.chunks) c.offset c.shown.now };

    ghost invariant = { λ c. StandsBy c.is_before c.chunks c.shown.now c.offset c.len };
}

/// Moves from the position before the current chunk to the one after it, or stays there.
fn stand_behind(chunks: &mut Chunks, is_before: bool)
    ensures { chunks.new ≡ behind_shown is_before chunks.old }
{
    if !is_before {
        return;
    }
    chunks.next();
}

/// Moves from the position after the current chunk to the one before it, or stays there.
fn stand_before(chunks: &mut Chunks, is_before: bool)
    requires { is_before ≡ true → IsSomeAhead chunks.old }
    ensures { IsBeforeLast (behind_shown is_before chunks.old) chunks.new }
{
    if is_before {
        return;
    }
    chunks.prev();
}

impl<'a> RopeyCursor<'a> {
    ghost use Rattle.rx_input.specs.Inputs.{HoldsPlace};
    ghost use Rattle.regex_cursor.specs.Showing.{EndsFirst, MayShowNext, all_chunks};

    /// Returns a cursor over the bytes of a slice, at the first chunk, or at an empty one if the
    /// slice is empty. `O(log n)`.
    pub fn new(slice: RopeSlice<'a>) -> RopeyCursor<'a>
        ensures content { result.content ≡ slice_bytes slice.entry }
        ensures is_sized { result.is_sized ≡ true }
        ensures start { result.start ≡ 0 }
    {
        RopeyCursor::at(slice, 0)
    }

    /// Returns a cursor over the bytes of a slice, at the chunk that contains the byte at an
    /// offset; at the slice's length it is the last chunk. `O(log n)`.
    ///
    /// # Requires
    ///
    /// The offset is at most the slice's length.
    pub fn at(slice: RopeSlice<'a>, at: usize) -> RopeyCursor<'a>
        requires { at ≤ byte_len (slice_text slice) }
        ensures content { result.content ≡ slice_bytes slice.entry }
        ensures is_sized { result.is_sized ≡ true }
        ensures holds { HoldsPlace result at }
    {
        let len = slice.len_bytes();
        let byte_idx = at.min(len.saturating_sub(1));
        let (chunks, offset, _, _) = slice.chunks_at_byte(byte_idx);
        RopeyCursor::showing_next(chunks, offset, len)
    }

    /// Returns a cursor at the chunk after a position, or at an empty one if there is no chunk.
    fn showing_next(mut chunks: Chunks<'a>, offset: usize, len: usize) -> RopeyCursor<'a>
        requires { MayShowNext chunks offset len }
        ensures content { result.content
            ≡ encode_utf8_all (text_of (all_chunks chunks.entry)) }
        ensures is_sized { result.is_sized ≡ true }
        ensures start { result.start ≡ offset }
        ensures end { EndsFirst chunks.entry.ahead offset result.end }
        ensures lawful { IsLawful result }
    {
        let shown = chunks.next().unwrap_or("");
        RopeyCursor {
            chunks,
            is_before: false,
            shown,
            offset,
            len,
        }
    }
}

impl<'a> Clone for RopeyCursor<'a> {
    ghost is_clone = { λ cursor copy. copy ≡ cursor };

    ghost is_infallible = { λ _. ⊤ };

    fn clone(&self) -> Result<RopeyCursor<'a>, AllocError> {
        Ok(RopeyCursor {
            chunks: self.chunks.clone()?,
            is_before: self.is_before,
            shown: self.shown,
            offset: self.offset,
            len: self.len,
        })
    }
}

impl<'a> Cursor for RopeyCursor<'a> {
    ghost state = { λ cursor. cursor };

    fn chunk(&self) -> &[u8] {
        self.shown.as_bytes()
    }

    fn advance(&mut self) -> bool {
        stand_behind(&mut self.chunks, self.is_before);
        self.is_before = false;
        match self.chunks.next() {
            Some(next) => {
                self.offset += self.shown.len();
                self.shown = next;
                true
            }
            None => false,
        }
    }

    fn backtrack(&mut self) -> bool {
        if self.offset == 0 {
            return false;
        }
        stand_before(&mut self.chunks, self.is_before);
        self.is_before = true;
        let shown = self.chunks.prev().unwrap_or("");
        self.offset -= shown.len();
        self.shown = shown;
        true
    }

    fn total_bytes(&self) -> Option<usize> {
        Some(self.len)
    }

    fn offset(&self) -> usize {
        self.offset
    }
}
