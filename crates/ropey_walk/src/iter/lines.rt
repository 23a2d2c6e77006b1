//! The iterator over the lines of a text.

ghost use Rattle.std.specs.Prelude.{◌≡◌, ◌+◌, ◌<◌, ◌≤◌, ⊤};
ghost use Rattle.std.specs.Str.{chars};
ghost use Rattle.ropey_walk.specs.Chunks.{line_breaks};
ghost use Rattle.ropey_walk.specs.Lines.{line_pieces, lines_of};
ghost use Rattle.ropey_walk.specs.TwoWay.{turned, before_item, GivesPrev};
ghost use Rattle.ropey_walk.specs.Iter.{GivesLine, IsLinePlace};
ghost use Rattle.ropey_walk.specs.Slices.{slice_pieces, slice_text};
ghost use Rattle.ropey_walk.specs.Standing.{IsChunkOf};

use crate::ascii::chars_and_units;
use crate::places::Place;
use crate::slice::RopeSlice;
use ropey_tree::breaks;
use ropey_tree::counts::Counts;
use std::alloc::AllocError;
use std::iter::{ExactSizeIterator, FusedIterator};
use std::marker::Model;

/// The position of a line's start, or the text's end.
#[derive(Clone, Copy)]
pub(crate) struct LinePlace<'a> {
    // The line index, or the number of lines at the end.
    line_idx: usize,
    // The position in a chunk.
    place: Place<'a>,
    // The counts of the text before it.
    before: Counts,
}

impl<'a> LinePlace<'a> {
    /// Returns the position of a line's start, or the text's end, by a lookup in the tree.
    pub(crate) fn look_up(slice: &RopeSlice<'a>, line_idx: usize) -> Self
        ensures place { IsLinePlace (slice_text slice.now) result }
        ensures chunk { IsChunkOf (slice_pieces slice.now) (chars result.place.text.now)
            result.place.start }
        ensures line { result.line_idx ≡ line_idx }
    {
        let place = slice.place_of_line(line_idx);
        LinePlace {
            line_idx,
            place,
            before: slice.counted_to(&place),
        }
    }

    /// Returns the end of the line that starts here. Inside the chunk it needs no lookup.
    #[inline]
    pub(crate) fn next(self, slice: &RopeSlice<'a>) -> Self
        requires here { IsLinePlace (slice_text slice.now) self }
        requires chunk { IsChunkOf (slice_pieces slice.now) (chars self.place.text.now)
            self.place.start }
        requires some { self.line_idx < line_breaks (slice_text slice.now) + 1 }
        ensures place { IsLinePlace (slice_text slice.now) result }
        ensures chunk { IsChunkOf (slice_pieces slice.now) (chars result.place.text.now)
            result.place.start }
        ensures line { result.line_idx ≡ self.entry.line_idx + 1 }
    {
        let Place {
            text,
            start,
            at,
            is_ascii,
            ..
        } = self.place;
        let rest = &text[at..];
        let line_idx = self.line_idx + 1;
        match breaks::first_break(rest) {
            None => LinePlace::look_up(slice, line_idx),
            Some(found) => {
                let (chars, units) = chars_and_units(&rest[..found.end], is_ascii);
                LinePlace {
                    line_idx,
                    place: Place {
                        text,
                        start,
                        at: at + found.end,
                        is_ascii,
                    },
                    before: Counts {
                        bytes: self.before.bytes + found.end,
                        chars: self.before.chars + chars,
                        units: self.before.units + units,
                        breaks: line_idx,
                    },
                }
            }
        }
    }

    /// Returns the start of the line that ends here. Inside the chunk it needs no lookup.
    #[inline]
    fn prev(self, slice: &RopeSlice<'a>) -> Self
        requires here { IsLinePlace (slice_text slice.now) self }
        requires chunk { IsChunkOf (slice_pieces slice.now) (chars self.place.text.now)
            self.place.start }
        requires some { 0 < self.line_idx }
        requires within { self.line_idx ≤ line_breaks (slice_text slice.now) + 1 }
        ensures place { IsLinePlace (slice_text slice.now) result }
        ensures chunk { IsChunkOf (slice_pieces slice.now) (chars result.place.text.now)
            result.place.start }
        ensures line { result.line_idx + 1 ≡ self.entry.line_idx }
    {
        let Place {
            text,
            start,
            at,
            is_ascii,
            ..
        } = self.place;
        let line_idx = self.line_idx - 1;
        if line_idx <= start.breaks {
            return LinePlace::look_up(slice, line_idx);
        }
        let line_start = breaks::to_byte_idx(text, line_idx - start.breaks);
        let (chars, units) = chars_and_units(&text[line_start..at], is_ascii);
        LinePlace {
            line_idx,
            place: Place {
                text,
                start,
                at: line_start,
                is_ascii,
            },
            before: Counts {
                bytes: self.before.bytes - (at - line_start),
                chars: self.before.chars - chars,
                units: self.before.units - units,
                breaks: line_idx,
            },
        }
    }

    /// Returns the line from here to its end.
    #[inline]
    pub(crate) fn line_to(self, end: Self, slice: &RopeSlice<'a>) -> RopeSlice<'a>
        requires here { IsLinePlace (slice_text slice.now) self }
        requires there { IsLinePlace (slice_text slice.now) end }
        requires next { end.line_idx ≡ self.line_idx + 1 }
        requires chunk { IsChunkOf (slice_pieces slice.now) (chars end.place.text.now)
            end.place.start }
        ensures { slice_pieces result ≡ line_pieces (slice_pieces slice.now) self.entry.line_idx }
    {
        slice.between(&end.place.chunk(), self.before, end.before)
    }
}

/// An iterator over the lines of a text, each a slice with the break that ends it, in both
/// directions. Contracts see the lines on both sides, as chunks.
///
/// There are `len_lines` lines: the last has no break, and may be empty. Inside a chunk a step
/// takes `O(m)` forward for a line of m bytes, and time bounded by the chunk backward; from one
/// chunk to another it takes `O(log n)`.
#[derive(Drop)]
pub struct Lines<'a> {
    slice: RopeSlice<'a>,
    place: LinePlace<'a>,
    // The number of lines of the text.
    len: usize,
    is_reversed: bool,
}

impl<'a> Model for Lines<'a> {
    ghost use Rattle.std.specs.Prelude.{◌≡◌, ℕ, ◌+◌, ◌≤◌, List};
    ghost use Rattle.ropey_walk.specs.Chunks.{line_breaks};
    ghost use Rattle.ropey_walk.specs.Lines.{lines_of};
    ghost use Rattle.ropey_walk.specs.TwoWay.{TwoWay, facing};
    ghost use Rattle.ropey_walk.specs.Iter.{IsLinePlace};
    ghost use Rattle.std.specs.Str.{chars};
    ghost use Rattle.ropey_walk.specs.Slices.{slice_pieces, slice_text};
    ghost use Rattle.ropey_walk.specs.Standing.{IsChunkOf};

    ghost Value = { TwoWay (List (List ℕ)) };

    ghost view = { λ lines. facing lines.is_reversed lines.place.line_idx
        (lines_of (slice_pieces lines.slice)) };

    ghost invariant = { λ lines. IsLinePlace (slice_text lines.slice) lines.place ×
        IsChunkOf (slice_pieces lines.slice) (chars lines.place.place.text.now)
        lines.place.place.start ×
        (lines.place.line_idx ≤ lines.len) ×
        (lines.len ≡ line_breaks (slice_text lines.slice) + 1) };
}

impl<'a> Lines<'a> {
    /// Returns an iterator from a line index, or from the end.
    pub(crate) fn at(slice: RopeSlice<'a>, line_idx: usize) -> Self
        requires { line_idx ≤ line_breaks (slice_text slice) + 1 }
        ensures { result ≡ before_item line_idx (lines_of (slice_pieces slice.entry)) }
    {
        Lines {
            slice,
            place: LinePlace::look_up(&slice, line_idx),
            len: slice.len_lines(),
            is_reversed: false,
        }
    }

    /// Reverses the direction: `next` and `prev` swap.
    pub fn reverse(&mut self)
        ensures { self.new ≡ turned self.old }
    {
        self.is_reversed = !self.is_reversed;
    }

    /// Returns the iterator with its direction reversed.
    pub fn reversed(mut self) -> Self
        ensures { result ≡ turned self.entry }
    {
        self.reverse();
        self
    }

    /// Returns the preceding line and moves back before it, or returns `None` and stays.
    pub fn prev(&mut self) -> Option<RopeSlice<'a>>
        ensures { GivesPrev GivesLine self.old result self.new }
    {
        self.reverse();
        let line = self.next();
        self.reverse();
        line
    }
}

impl<'a> Iterator for Lines<'a> {
    type Item = RopeSlice<'a>;

    ghost use Rattle.std.specs.Iterator.{item_count};

    ghost next_gives = { GivesLine };

    ghost remaining = { item_count (λ lines. lines.ahead) };

    fn next(&mut self) -> Option<RopeSlice<'a>> {
        if self.is_reversed {
            if self.place.line_idx == 0 {
                return None;
            }
            let end = self.place;
            self.place = end.prev(&self.slice);
            Some(self.place.line_to(end, &self.slice))
        } else {
            if self.place.line_idx == self.len {
                return None;
            }
            let start = self.place;
            self.place = start.next(&self.slice);
            Some(start.line_to(self.place, &self.slice))
        }
    }
}

impl<'a> ExactSizeIterator for Lines<'a> {
    fn len(&self) -> usize {
        if self.is_reversed {
            self.place.line_idx
        } else {
            self.len - self.place.line_idx
        }
    }
}

impl<'a> FusedIterator for Lines<'a> {}

impl<'a> Clone for Lines<'a> {
    ghost is_clone = { λ lines copy. copy ≡ lines };

    ghost is_infallible = { λ _. ⊤ };

    fn clone(&self) -> Result<Lines<'a>, AllocError> {
        Ok(Lines {
            slice: self.slice,
            place: self.place,
            len: self.len,
            is_reversed: self.is_reversed,
        })
    }
}
