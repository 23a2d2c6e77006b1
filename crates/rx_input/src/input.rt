//! The input of a search: a haystack, a position in it, and the settings of the search.

ghost use Rattle.std.specs.Prelude.{◌≡◌, ◌+◌, ◌-◌, ◌<◌, ◌≤◌, ◌↔◌, IsTrue, false, length, min};
ghost use Rattle.std.specs.Bool.{OnTrue};
ghost use Rattle.std.specs.Str.{IsCharBoundary};
ghost use Rattle.rx_util.specs.declared.search.Span.{Span};
ghost use Rattle.rx_input.specs.Cursors.{piece_of};
ghost use Rattle.rx_input.specs.Inputs.{HasSlice, HasSpan, HoldsPlace, IsMoved, IsSpan};
ghost use Rattle.rx_input.specs.Inputs.{asked_first, is_done, seen_around, span_of};

use crate::cursor::Cursor;
use crate::look_around::{LookAround, SIDE};
use crate::places::{move_to, read_at};
use crate::ranges::{Ends, TextRange};
use rx_util::{Anchored, Span};
use std::marker::Model;

/// A haystack to search, a position in it, and the settings of the search:
///
/// - the span, in which a match has to be
/// - the slice, outside of which look-around assertions see nothing
/// - whether a match may only start at the start of the span
/// - whether any match may be reported, not only the preferred one
///
/// Offsets are bytes of the haystack. The current chunk contains the byte at the position, or is
/// the last one if the position is the end of the haystack.
#[derive(Drop)]
pub struct Input<C: Cursor> {
    cursor: C,
    // The position's offset in the chunk.
    chunk_pos: usize,
    span: Span,
    slice: Span,
    anchored: Anchored,
    earliest: bool,
}

impl<C: Cursor> Model for Input<C> {
    ghost use Rattle.std.specs.Prelude.{◌+◌};
    ghost use Rattle.rx_input.specs.Inputs.{InputState, HoldsPlace};

    ghost Value = { InputState };

    ghost view = { λ i. record {
      cursor = C.state i.cursor;
      position = (C.state i.cursor).start + i.chunk_pos;
      asked = record {
        span = i.span;
        slice = i.slice;
        anchored = i.anchored;
        earliest = i.earliest;
      };
    } };

    ghost invariant = { λ i.
        HoldsPlace (C.state i.cursor) ((C.state i.cursor).start + i.chunk_pos) };
}

impl<C: Cursor> Input<C> {
    /// Returns an input for a search from the start of the cursor's current chunk to the end of the
    /// haystack, anywhere and for the preferred match. The position is the start of the chunk.
    ///
    /// The span ends at `usize::MAX` if the cursor doesn't report the haystack's length. The slice
    /// is the whole haystack.
    pub fn new(cursor: C) -> Input<C>
        ensures cursor { result.cursor ≡ C.state cursor }
        ensures position { result.position ≡ (C.state cursor).start }
        ensures asked { result.asked ≡ asked_first (C.state cursor) }
    {
        let start = cursor.offset();
        let end = cursor.total_bytes().unwrap_or(usize::MAX);
        Input {
            cursor,
            chunk_pos: 0,
            span: Span { start, end },
            slice: Span {
                start: 0,
                end: usize::MAX,
            },
            anchored: Anchored::No,
            earliest: false,
        }
    }

    /// Returns the current chunk.
    pub fn chunk(&self) -> &[u8]
        ensures chunk { result.now ≡ piece_of self.now.cursor }
        ensures holds { HoldsPlace self.now.cursor self.now.position }
    {
        self.cursor.chunk()
    }

    /// Returns the byte offset of the current chunk.
    pub fn chunk_offset(&self) -> usize
        ensures { result ≡ self.now.cursor.start }
    {
        self.cursor.offset()
    }

    /// Returns the position's offset in the current chunk.
    pub fn chunk_pos(&self) -> usize
        ensures { self.now.cursor.start + result ≡ self.now.position }
    {
        self.chunk_pos
    }

    /// Returns the position, a byte offset in the haystack.
    pub fn position(&self) -> usize
        ensures position { result ≡ self.now.position }
        ensures holds { HoldsPlace self.now.cursor self.now.position }
    {
        self.cursor.offset() + self.chunk_pos
    }

    /// Returns the start of the span.
    pub fn start(&self) -> usize
        ensures { result ≡ self.now.asked.span.start }
    {
        self.span.start
    }

    /// Returns the end of the span. It may be past the end of the haystack, which then counts.
    pub fn end(&self) -> usize
        ensures { result ≡ self.now.asked.span.end }
    {
        self.span.end
    }

    /// Returns the span, in which a match has to be.
    pub fn get_span(&self) -> Span
        ensures { result ≡ self.now.asked.span }
    {
        self.span
    }

    /// Returns the slice, outside of which look-around assertions see nothing.
    pub fn get_slice(&self) -> Span
        ensures { result ≡ self.now.asked.slice }
    {
        self.slice
    }

    /// Returns the number of bytes of the current chunk before the span's end, 0 if the span ends
    /// before the chunk.
    pub fn get_chunk_end(&self) -> usize
        ensures { result ≡ min (self.now.asked.span.end - self.now.cursor.start)
            (length (piece_of self.now.cursor)) }
    {
        self.span
            .end
            .saturating_sub(self.cursor.offset())
            .min(self.cursor.chunk().len())
    }

    /// Returns where a match may start, and which patterns may match.
    pub fn get_anchored(&self) -> Anchored
        ensures { result ≡ self.now.asked.anchored }
    {
        self.anchored
    }

    /// Returns whether any match may be reported.
    pub fn get_earliest(&self) -> bool
        ensures { result ≡ self.now.asked.earliest }
    {
        self.earliest
    }

    /// Returns whether the span ends before it starts, so that nothing can match.
    pub fn is_done(&self) -> bool
        ensures { result ≡ is_done self.now.asked.span }
    {
        self.span.end < self.span.start
    }

    /// Sets where a match may start, and which patterns may match.
    pub fn set_anchored(&mut self, mode: Anchored)
        ensures { self.new ≡ record self.old {
          asked = record self.old.asked { anchored = mode };
        } }
    {
        self.anchored = mode;
    }

    /// Sets whether any match may be reported, or only the preferred one.
    pub fn set_earliest(&mut self, yes: bool)
        ensures { self.new ≡ record self.old {
          asked = record self.old.asked { earliest = yes };
        } }
    {
        self.earliest = yes;
    }

    // Returns the span of a range.
    fn span_of(&self, ends: Ends) -> Span
        ensures { result ≡ span_of ends self.now.cursor }
    {
        Span {
            start: ends.start.unwrap_or(0),
            end: ends
                .end
                .unwrap_or(self.cursor.total_bytes().unwrap_or(usize::MAX)),
        }
    }

    // Sets the span, and moves the position into it.
    fn move_into(&mut self, span: Span)
        requires { IsSpan span }
        ensures { HasSpan self.old self.new span }
    {
        let at = self.cursor.offset() + self.chunk_pos;
        if at < span.start {
            self.chunk_pos = move_to(&mut self.cursor, span.start);
        } else if self.span.start <= self.span.end && span.end < at {
            self.chunk_pos = move_to(&mut self.cursor, span.end);
        }
        self.span = span;
    }

    /// Sets the span, and moves the position into it.
    ///
    /// A position before the span moves to its start. A position after the span moves to its end,
    /// unless the old span was done. Neither moves past the end of the haystack.
    ///
    /// # Requires
    ///
    /// The span starts at most one byte past its end.
    ///
    /// # Complexity
    ///
    /// One step of the cursor for each chunk passed.
    pub fn set_span<S: Into<Span>>(&mut self, span: S)
        requires { (s : Span) → S.converts span s → IsSpan s }
        ensures { (s : Span) × S.converts span s × HasSpan self.old self.new s }
    {
        self.move_into(span.into());
    }

    /// Sets the start of the span, as [`set_span`](Self::set_span) does.
    ///
    /// # Requires
    ///
    /// `start` is at most one byte past the span's end.
    pub fn set_start(&mut self, start: usize)
        requires { start ≤ self.old.asked.span.end + 1 }
        ensures { HasSpan self.old self.new (record self.old.asked.span { start = start }) }
    {
        self.move_into(Span {
            start,
            end: self.span.end,
        });
    }

    /// Sets the end of the span, as [`set_span`](Self::set_span) does.
    ///
    /// # Requires
    ///
    /// The span starts at most one byte past `end`.
    pub fn set_end(&mut self, end: usize)
        requires { self.old.asked.span.start ≤ end + 1 }
        ensures { HasSpan self.old self.new (record self.old.asked.span { end = end }) }
    {
        self.move_into(Span {
            start: self.span.start,
            end,
        });
    }

    /// Sets the span, as [`set_span`](Self::set_span) does and requires, and returns the input.
    pub fn span<S: Into<Span>>(&mut self, span: S) -> &mut Input<C>
        requires { (s : Span) → S.converts span s → IsSpan s }
        ensures set { (s : Span) × S.converts span s × HasSpan self.old result.now s }
        ensures same_reference { result.ghost_name ≡ self.entry.ghost_name }
    {
        self.move_into(span.into());
        self
    }

    /// Sets the span to a range, as [`set_span`](Self::set_span) does.
    ///
    /// An open start is 0. An open end is the haystack's, or `usize::MAX` if the cursor doesn't
    /// report its length.
    ///
    /// # Requires
    ///
    /// The range starts at most one byte past its end.
    pub fn set_range<R: TextRange>(&mut self, range: R)
        requires { IsSpan (span_of (R.ends range) self.old.cursor) }
        ensures { HasSpan self.old self.new (span_of (R.ends range) self.old.cursor) }
    {
        let span = self.span_of(range.ends());
        self.move_into(span);
    }

    /// Returns the input with its span set, as [`set_range`](Self::set_range) does and requires.
    pub fn range<R: TextRange>(mut self, range: R) -> Input<C>
        requires { IsSpan (span_of (R.ends range) self.cursor) }
        ensures { HasSpan self result (span_of (R.ends range) self.cursor) }
    {
        self.set_range(range);
        self
    }

    /// Sets both the slice and the span, moves the position as [`set_span`](Self::set_span) does,
    /// and returns the input. Requires what `set_span` requires.
    pub fn slice_span<S: Into<Span>>(&mut self, span: S) -> &mut Input<C>
        requires { (s : Span) → S.converts span s → IsSpan s }
        ensures set { (s : Span) × S.converts span s × HasSlice self.old result.now s }
        ensures same_reference { result.ghost_name ≡ self.entry.ghost_name }
    {
        let span = span.into();
        self.move_into(span);
        self.slice = span;
        self
    }

    /// Sets both the slice and the span to a range, and returns the input. Open ends and what it
    /// requires are as in [`set_range`](Self::set_range).
    pub fn slice<R: TextRange>(&mut self, range: R) -> &mut Input<C>
        requires { IsSpan (span_of (R.ends range) self.old.cursor) }
        ensures set { HasSlice self.old result.now (span_of (R.ends range) self.old.cursor) }
        ensures same_reference { result.ghost_name ≡ self.entry.ghost_name }
    {
        let span = self.span_of(range.ends());
        self.move_into(span);
        self.slice = span;
        self
    }

    /// Sets where a match may start, and which patterns may match, and returns the input.
    pub fn anchored(&mut self, mode: Anchored) -> &mut Input<C>
        ensures set { result.now ≡ record self.old {
          asked = record self.old.asked { anchored = mode };
        } }
        ensures same_reference { result.ghost_name ≡ self.entry.ghost_name }
    {
        self.anchored = mode;
        self
    }

    /// Sets whether any match may be reported, and returns the input.
    pub fn earliest(&mut self, yes: bool) -> &mut Input<C>
        ensures set { result.now ≡ record self.old {
          asked = record self.old.asked { earliest = yes };
        } }
        ensures same_reference { result.ghost_name ≡ self.entry.ghost_name }
    {
        self.earliest = yes;
        self
    }

    /// Returns whether the position is a character boundary: the end of the haystack, or a byte
    /// that isn't a continuation byte. Reads only the current chunk.
    pub fn is_char_boundary(&self) -> bool
        ensures { IsTrue result ↔ IsCharBoundary self.now.cursor.content self.now.position }
    {
        match self.cursor.chunk().get(self.chunk_pos) {
            Some(byte) => *byte < 128 || *byte >= 192,
            None => true,
        }
    }

    /// Moves the position to `at`, but not past the end of the haystack. Takes one step of the
    /// cursor for each chunk passed.
    pub fn move_to(&mut self, at: usize)
        ensures { IsMoved self.old self.new (min at (length self.old.cursor.content))
            self.old.asked }
    {
        self.chunk_pos = move_to(&mut self.cursor, at);
    }

    /// Moves the position to the end of the current chunk, moves to the next chunk, and returns
    /// whether there is one.
    pub fn advance(&mut self) -> bool
        ensures moved { IsMoved self.old self.new self.old.cursor.end self.old.asked }
        ensures next { OnTrue result (self.new.cursor.start ≡ self.old.cursor.end) }
        ensures at_end { (result ≡ false)
            ↔ (self.old.cursor.end ≡ length self.old.cursor.content) }
    {
        let len = self.cursor.chunk().len();
        let moves = self.cursor.advance();
        self.chunk_pos = if moves { 0 } else { len };
        moves
    }

    /// Returns the bytes of the slice from four before the position to four after it, which decide
    /// look-around assertions there. May change the current chunk. Takes one step of the cursor for
    /// each chunk passed.
    pub fn look_around(&mut self) -> LookAround
        ensures bytes { result ≡ seen_around self.old }
        ensures same { IsMoved self.old self.new self.old.position self.old.asked }
    {
        let at = self.cursor.offset() + self.chunk_pos;
        let from = self.slice.start.max(at.saturating_sub(SIDE));
        let to = self.slice.end.min(at + SIDE);
        let mut bytes = [0; 2 * SIDE];
        let len = read_at(
            &mut self.cursor,
            from,
            &mut bytes[..to.saturating_sub(from)],
        );
        self.chunk_pos = move_to(&mut self.cursor, at);
        LookAround::new(bytes, len, at.saturating_sub(from).min(len))
    }

    /// Does nothing, because no look-behind is cached.
    pub fn clear_look_behind(&mut self)
        ensures { self.new ≡ self.old }
    {}

    /// Returns the same input over a clone of the cursor. Allocates nothing itself.
    ///
    /// # Requires
    ///
    /// Cloning the cursor never fails and gives an equal one.
    pub fn clone(&self) -> Input<C>
    where
        C: Clone,
        requires infallible { (c : C) → C.is_infallible c }
        requires equal { (c d : C) → C.is_clone c d → d ≡ c }
        ensures { result ≡ self.now }
    {
        let cursor = match self.cursor.clone() {
            Ok(cursor) => cursor,
            Err(_) => unreachable!(),
        };
        Input {
            cursor,
            chunk_pos: self.chunk_pos,
            span: self.span,
            slice: self.slice,
            anchored: self.anchored,
            earliest: self.earliest,
        }
    }
}
