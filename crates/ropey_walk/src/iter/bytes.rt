//! The iterator over the bytes of a text.

ghost use Rattle.std.specs.Prelude.{◌≡◌, ◌+◌, ◌≤◌, length, encode_utf8_all, ⊤};
ghost use Rattle.str_indices.specs.Text.{byte_len};
ghost use Rattle.ropey_walk.specs.TwoWay.{turned, before_item, GivesPrev};
ghost use Rattle.ropey_walk.specs.Iter.{GivesItem};
ghost use Rattle.ropey_walk.specs.Slices.{slice_text};

use crate::slice::RopeSlice;
use ropey_tree::node::OnTheWay;
use std::alloc::AllocError;
use std::iter::{ExactSizeIterator, FusedIterator};
use std::marker::Model;

/// An iterator over the bytes of a text's UTF-8, in both directions. Contracts see the bytes on
/// both sides.
///
/// A step takes `O(1)` inside a chunk. From one chunk to the next it descends from the node above
/// the last chunk, or from the root, in `O(log n)`, if that node has no further chunk.
#[derive(Drop)]
pub struct Bytes<'a> {
    slice: RopeSlice<'a>,
    // The current chunk, and the byte index of its start.
    chunk: &'a str,
    start: usize,
    // The position in the chunk, or its end.
    at: usize,
    // The length of the text in bytes.
    len: usize,
    // The node above the leaf of the chunk, from which the search for the next one starts.
    near: Option<OnTheWay<'a>>,
    is_reversed: bool,
}

impl<'a> Model for Bytes<'a> {
    ghost use Rattle.std.specs.Prelude.{◌≡◌, ℕ, ◌+◌, ◌^◌, ◌<◌, ◌≤◌, length, encode_utf8_all};
    ghost use Rattle.ropey_walk.specs.TwoWay.{TwoWay, facing};
    ghost use Rattle.ropey_walk.specs.Iter.{IsPartAt};
    ghost use Rattle.ropey_walk.specs.Slices.{slice_text, IsNear};

    ghost Value = { TwoWay ℕ };

    ghost view = { λ bytes. facing bytes.is_reversed (bytes.start + bytes.at)
        (encode_utf8_all (slice_text bytes.slice)) };

    ghost invariant = { λ bytes.
        IsPartAt bytes.start bytes.chunk.now (encode_utf8_all (slice_text bytes.slice)) ×
        (bytes.at ≤ length bytes.chunk.now) ×
        (bytes.len ≡ length (encode_utf8_all (slice_text bytes.slice))) × (bytes.len < 2 ^ 63) ×
        IsNear bytes.slice bytes.near };
}

impl<'a> Bytes<'a> {
    /// Returns an iterator from a byte index, or from the end.
    #[inline]
    pub(crate) fn at(slice: RopeSlice<'a>, byte_idx: usize) -> Self
        requires { byte_idx ≤ byte_len (slice_text slice) }
        ensures { result ≡ before_item byte_idx (encode_utf8_all (slice_text slice.entry)) }
    {
        let mut near = None;
        let chunk = slice.chunk_near(&mut near, byte_idx);
        Bytes {
            slice,
            chunk: chunk.text,
            start: chunk.start.bytes,
            at: byte_idx - chunk.start.bytes,
            len: slice.len_bytes(),
            near,
            is_reversed: false,
        }
    }

    /// Reverses the direction: `next` and `prev` swap.
    pub fn reverse(&mut self)
        ensures { self.new ≡ turned self.old }
    {
        self.is_reversed = !self.is_reversed;
    }

    /// Returns the iterator with its direction reversed.
    pub fn reversed(mut self) -> Self
        ensures { result ≡ turned self.entry }
    {
        self.reverse();
        self
    }

    /// `next` in all cases. Loops call this at a chunk's end, so it isn't inlined.
    #[inline(never)]
    fn step(&mut self) -> Option<u8>
        ensures { GivesItem self.old result self.new }
    {
        if self.is_reversed {
            if self.at == 0 {
                if self.start == 0 {
                    return None;
                }
                let byte_idx = self.start - 1;
                let mut near = self.near;
                let chunk = self.slice.chunk_near(&mut near, byte_idx);
                self.near = near;
                let at = byte_idx - chunk.start.bytes;
                self.chunk = chunk.text;
                self.start = chunk.start.bytes;
                self.at = at;
                return Some(chunk.text.as_bytes()[at]);
            }
            let at = self.at - 1;
            self.at = at;
            Some(self.chunk.as_bytes()[at])
        } else {
            if self.at == self.chunk.len() {
                let byte_idx = self.start + self.at;
                if byte_idx == self.len {
                    return None;
                }
                let mut near = self.near;
                let chunk = self.slice.chunk_near(&mut near, byte_idx);
                self.near = near;
                let at = byte_idx - chunk.start.bytes;
                self.chunk = chunk.text;
                self.start = chunk.start.bytes;
                self.at = at + 1;
                return Some(chunk.text.as_bytes()[at]);
            }
            let at = self.at;
            self.at = at + 1;
            Some(self.chunk.as_bytes()[at])
        }
    }

    /// Returns the preceding byte and moves back before it, or returns `None` and stays.
    #[inline(always)]
    pub fn prev(&mut self) -> Option<u8>
        ensures { GivesPrev GivesItem self.old result self.new }
    {
        self.reverse();
        let byte = self.next();
        self.reverse();
        byte
    }
}

impl<'a> Iterator for Bytes<'a> {
    type Item = u8;

    ghost use Rattle.std.specs.Iterator.{item_count};

    ghost next_gives = { GivesItem };

    ghost remaining = { item_count (λ bytes. bytes.ahead) };

    #[inline(always)]
    fn next(&mut self) -> Option<u8> {
        if self.is_reversed {
            if self.at > 0 {
                let at = self.at - 1;
                self.at = at;
                return Some(self.chunk.as_bytes()[at]);
            }
        } else if self.at < self.chunk.len() {
            let at = self.at;
            self.at = at + 1;
            return Some(self.chunk.as_bytes()[at]);
        }
        self.step()
    }
}

impl<'a> ExactSizeIterator for Bytes<'a> {
    fn len(&self) -> usize {
        let place = self.start + self.at;
        if self.is_reversed {
            place
        } else {
            self.len - place
        }
    }
}

impl<'a> FusedIterator for Bytes<'a> {}

impl<'a> Clone for Bytes<'a> {
    ghost is_clone = { λ bytes copy. copy ≡ bytes };

    ghost is_infallible = { λ _. ⊤ };

    fn clone(&self) -> Result<Bytes<'a>, AllocError> {
        Ok(Bytes {
            slice: self.slice,
            chunk: self.chunk,
            start: self.start,
            at: self.at,
            len: self.len,
            near: self.near,
            is_reversed: self.is_reversed,
        })
    }
}
