//! A cursor over a list of chunks.

ghost use Rattle.std.specs.Prelude.{◌≡◌, ◌+◌, ◌≤◌, ◌<◌, ◌^◌, [], length, true, ⊤, MatchOption};
ghost use Rattle.rx_input.specs.Chunks.{joined, chunk_at, SameBefore};

use crate::cursor::Cursor;
use std::alloc::AllocError;
use std::marker::Model;

/// Returns the chunk with this index, or an empty one past the last.
#[tactic(auto, using(crate::proofs::ChunkLemmas::chunk_is, crate::proofs::ChunkLemmas::chunk_past))]
fn chunk_at<'a>(chunks: &[&'a [u8]], index: usize) -> &'a [u8]
    ensures { result.now ≡ chunk_at chunks.now index }
{
    match chunks.get(index) {
        Some(chunk) => chunk,
        None => &[],
    }
}

/// Returns the number of bytes of all chunks.
fn total_len(chunks: &[&[u8]]) -> usize
    requires { length (joined chunks.now) < 2 ^ 63 }
    ensures { result ≡ length (joined chunks.now) }
{
    let mut total = 0;
    for chunk in chunks {
        total += chunk.len();
    }
    total
}

/// Returns the first nonempty chunk from this one on.
#[tactic(auto, using(crate::proofs::ChunkLemmas::skip, crate::proofs::ChunkLemmas::all_before))]
fn first_filled(chunks: &[&[u8]], from: usize) -> Option<usize>
    ensures { MatchOption result (SameBefore chunks.now (length chunks.now) from)
        (λ i. (i < length chunks.now) × (0 < length (chunk_at chunks.now i))
        × SameBefore chunks.now i from) }
{
    for index in from..chunks.len() {
        if !chunk_at(chunks, index).is_empty() {
            return Some(index);
        }
    }
    None
}

/// Returns the last nonempty chunk before this one.
#[tactic(auto, using(crate::proofs::ChunkLemmas::skip))]
fn last_filled(chunks: &[&[u8]], mut before: usize) -> Option<usize>
    requires { before ≤ length chunks.now }
    ensures { MatchOption result (SameBefore chunks.now 0 before)
        (λ i. (i < before) × (0 < length (chunk_at chunks.now i))
        × SameBefore chunks.now (i + 1) before) }
{
    while before > 0 {
        before -= 1;
        if !chunk_at(chunks, before).is_empty() {
            return Some(before);
        }
    }
    None
}

/// A cursor over a haystack in a list of chunks, which may be split anywhere, also inside a
/// character.
///
/// Empty chunks are skipped. A list without bytes is the empty haystack. The cursor allocates
/// nothing, and a clone equals it. A step costs `O(n)` in the number of empty chunks that it skips.
///
/// # Examples
///
/// ```rust
/// let chunks: [&[u8]; 3] = [b"one ", b"", b"two"];
/// let mut cursor = ChunkCursor::new(&chunks);
/// assert!(rt; cursor.chunk() == "one ".as_bytes());
/// assert!(rt; cursor.advance());
/// assert!(rt; cursor.chunk() == "two".as_bytes());
/// assert!(rt; cursor.offset() == 4);
/// assert!(rt; !cursor.advance());
/// ```
#[derive(Drop)]
pub struct ChunkCursor<'a> {
    chunks: &'a [&'a [u8]],
    index: usize,
    start: usize,
    total: usize,
}

impl<'a> Model for ChunkCursor<'a> {
    ghost use Rattle.rx_input.specs.Cursors.{CursorState};
    ghost use Rattle.rx_input.specs.Chunks.{showing, IsShowing};

    ghost Value = { CursorState };

    ghost view = { λ c. showing c.chunks.now c.index c.start };

    ghost invariant = { λ c. IsShowing c.chunks.now c.index c.start c.total };
}

impl<'a> ChunkCursor<'a> {
    ghost use Rattle.rx_input.specs.Cursors.{IsLawful};

    /// Returns a cursor at the first nonempty chunk. `O(n)` in the number of chunks.
    ///
    /// # Requires
    ///
    /// The chunks have at most `isize::MAX` bytes together.
    pub fn new(chunks: &'a [&'a [u8]]) -> ChunkCursor<'a>
        requires bound { length (joined chunks.now) < 2 ^ 63 }
        ensures content { result.content ≡ joined chunks.now }
        ensures is_sized { result.is_sized ≡ true }
        ensures start { result.start ≡ 0 }
        ensures lawful { IsLawful result }
    {
        let total = total_len(chunks);
        let index = first_filled(chunks, 0).unwrap_or(chunks.len());
        ChunkCursor {
            chunks,
            index,
            start: 0,
            total,
        }
    }
}

impl<'a> Clone for ChunkCursor<'a> {
    ghost is_clone = { λ cursor copy. copy ≡ cursor };

    ghost is_infallible = { λ _. ⊤ };

    fn clone(&self) -> Result<ChunkCursor<'a>, AllocError> {
        Ok(ChunkCursor {
            chunks: self.chunks,
            index: self.index,
            start: self.start,
            total: self.total,
        })
    }
}

impl<'a> Cursor for ChunkCursor<'a> {
    ghost state = { λ cursor. cursor };

    fn chunk(&self) -> &[u8] {
        chunk_at(self.chunks, self.index)
    }

    fn advance(&mut self) -> bool {
        let Some(next) = first_filled(self.chunks, self.index + 1) else {
            return false;
        };
        self.start += chunk_at(self.chunks, self.index).len();
        self.index = next;
        true
    }

    fn backtrack(&mut self) -> bool {
        let Some(before) = last_filled(self.chunks, self.index) else {
            return false;
        };
        self.index = before;
        self.start -= chunk_at(self.chunks, before).len();
        true
    }

    fn total_bytes(&self) -> Option<usize> {
        Some(self.total)
    }

    fn offset(&self) -> usize {
        self.start
    }
}
