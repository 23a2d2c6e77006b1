//! The iterator over the chunks of a text.

ghost use Rattle.std.specs.Prelude.{◌≡◌, ⊤};
ghost use Rattle.ropey_walk.specs.Chunks.{IsRopeText};
ghost use Rattle.ropey_walk.specs.TwoWay.{turned, before_item, GivesPrev};
ghost use Rattle.ropey_walk.specs.Iter.{GivesChunk, IsBetweenPieces, pieces_before};
ghost use Rattle.ropey_walk.specs.Slices.{slice_pieces};

use crate::slice::RopeSlice;
use ropey_tree::node::OnTheWay;
use std::alloc::AllocError;
use std::iter::FusedIterator;
use std::marker::Model;

/// An iterator over the chunks of a text, in both directions. Contracts see the texts on both
/// sides.
///
/// Chunks have 1 to 984 bytes; joined they are the text. An empty text has none. A step descends
/// from the node above the last chunk, or from the root, in `O(log n)`, if that node has no further
/// chunk.
#[derive(Drop)]
pub struct Chunks<'a> {
    slice: RopeSlice<'a>,
    // The byte index of the position, between two chunks.
    byte_idx: usize,
    // The length of the text in bytes.
    len: usize,
    // The node above the leaf of the last step, from which the next step starts.
    near: Option<OnTheWay<'a>>,
    is_reversed: bool,
}

impl<'a> Model for Chunks<'a> {
    ghost use Rattle.std.specs.Prelude.{◌≡◌, ℕ, List};
    ghost use Rattle.str_indices.specs.Text.{byte_len};
    ghost use Rattle.ropey_walk.specs.Chunks.{text_of, IsRopeText};
    ghost use Rattle.ropey_walk.specs.TwoWay.{TwoWay, facing};
    ghost use Rattle.ropey_walk.specs.Iter.{IsBetweenPieces, pieces_before};
    ghost use Rattle.ropey_walk.specs.Slices.{slice_pieces, IsNear};

    ghost Value = { TwoWay (List ℕ) };

    ghost view = { λ chunks. facing chunks.is_reversed
        (pieces_before chunks.byte_idx (slice_pieces chunks.slice)) (slice_pieces chunks.slice) };

    ghost invariant = { λ chunks. IsBetweenPieces (slice_pieces chunks.slice) chunks.byte_idx ×
        (chunks.len ≡ byte_len (text_of (slice_pieces chunks.slice))) ×
        IsRopeText (slice_pieces chunks.slice) × IsNear chunks.slice chunks.near };
}

impl<'a> Chunks<'a> {
    /// Returns an iterator from a byte index at which a chunk starts, or from the end.
    pub(crate) fn at(slice: RopeSlice<'a>, byte_idx: usize) -> Self
        requires { IsBetweenPieces (slice_pieces slice) byte_idx }
        ensures place { result ≡ before_item (pieces_before byte_idx (slice_pieces slice.entry))
            (slice_pieces slice.entry) }
        ensures cut { IsRopeText (slice_pieces slice.entry) }
    {
        Chunks {
            slice,
            byte_idx,
            len: slice.len_bytes(),
            near: None,
            is_reversed: false,
        }
    }

    /// Reverses the direction: `next` and `prev` swap.
    pub fn reverse(&mut self)
        ensures { self.new ≡ turned self.old }
    {
        self.is_reversed = !self.is_reversed;
    }

    /// Returns the iterator with its direction reversed.
    pub fn reversed(mut self) -> Self
        ensures { result ≡ turned self.entry }
    {
        self.reverse();
        self
    }

    /// Returns the preceding chunk and moves back before it, or returns `None` and stays.
    pub fn prev(&mut self) -> Option<&'a str>
        ensures { GivesPrev GivesChunk self.old result self.new }
    {
        self.reverse();
        let chunk = self.next();
        self.reverse();
        chunk
    }
}

impl<'a> Iterator for Chunks<'a> {
    type Item = &'a str;

    ghost use Rattle.std.specs.Iterator.{item_count};

    ghost next_gives = { GivesChunk };

    ghost remaining = { item_count (λ chunks. chunks.ahead) };

    fn next(&mut self) -> Option<&'a str> {
        if self.is_reversed {
            if self.byte_idx == 0 {
                return None;
            }
            let mut near = self.near;
            let chunk = self.slice.chunk_near(&mut near, self.byte_idx - 1);
            self.near = near;
            self.byte_idx = chunk.start.bytes;
            Some(chunk.text)
        } else {
            if self.byte_idx == self.len {
                return None;
            }
            let mut near = self.near;
            let chunk = self.slice.chunk_near(&mut near, self.byte_idx);
            self.near = near;
            self.byte_idx += chunk.text.len();
            Some(chunk.text)
        }
    }
}

impl<'a> FusedIterator for Chunks<'a> {}

impl<'a> Clone for Chunks<'a> {
    ghost is_clone = { λ chunks copy. copy ≡ chunks };

    ghost is_infallible = { λ _. ⊤ };

    fn clone(&self) -> Result<Chunks<'a>, AllocError> {
        Ok(Chunks {
            slice: self.slice,
            byte_idx: self.byte_idx,
            len: self.len,
            near: self.near,
            is_reversed: self.is_reversed,
        })
    }
}
