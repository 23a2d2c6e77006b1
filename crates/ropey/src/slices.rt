//! Parts of a rope: its lines, and ranges of its characters or bytes; and ropes made from parts.
//!
//! A part is a [`RopeSlice`], which borrows the rope and allocates nothing. The plain form of a
//! call requires a line or a range inside the text. The `get_` form returns `None` exactly if it
//! isn't, and the `try_` form says why.

ghost use Rattle.std.specs.Prelude.{◌≡◌, ◌+◌, ◌<◌, ◌≤◌, ◌↔◌, length};
ghost use Rattle.std.specs.Prelude.{IfSome, IsSome, IsNone, IfOk, IfErr, IsOk};
ghost use Rattle.str_indices.specs.Text.{byte_len};
ghost use Rattle.ropey.specs.Chunks.{AreFull, text_of, line_breaks};
ghost use Rattle.ropey.specs.Comparing.{text_bytes};
ghost use Rattle.ropey_walk.specs.Clips.{between};
ghost use Rattle.ropey_walk.specs.Comparing.{slice_bytes};
ghost use Rattle.ropey_walk.specs.Lines.{line_pieces};
ghost use Rattle.ropey_walk.specs.Ranges.{start_of, end_of, chars_in, bytes_in};
ghost use Rattle.ropey_walk.specs.Ranges.{IsRangeIn, IsByteRangeIn, RefusesChars, RefusesBytes};
ghost use Rattle.ropey_walk.specs.Slices.{slice_pieces, slice_text};

use crate::rope::Rope;
use crate::rope_builder::RopeBuilder;
use ropey_tree::error::Error;
use ropey_walk::ranges::TextRange;
use ropey_walk::slice::RopeSlice;
use std::alloc::Global;

impl Rope {
    /// Returns a rope with a copy of a slice's text. No node is shared. `O(n)`.
    ///
    /// # Errors
    ///
    /// `Memory`.
    pub fn from_slice(alloc: Global, slice: RopeSlice<'_>) -> Result<Self, Error>
        ensures text { IfOk result (λ rope. text_of rope ≡ slice_text slice.entry) }
        ensures full { IfOk result (λ rope. AreFull rope) }
        ensures refused { IfErr result (λ error. error ≡ Error.Memory) }
    {
        // Needed by the proof only.
        let _ = slice.len_bytes();
        let mut builder = RopeBuilder::new(alloc);
        builder.append_slice(slice)?;
        let rope = builder.finish()?;
        Ok(rope)
    }

    /// Returns the line at `line_idx`, with the break that ends it. `O(log n)`.
    ///
    /// # Requires
    ///
    /// `line_idx < len_lines()`.
    pub fn line(&self, line_idx: usize) -> RopeSlice<'_>
        requires { line_idx < line_breaks (text_of self.now) + 1 }
        ensures { slice_pieces result ≡ line_pieces self.now line_idx }
    {
        self.whole().line(line_idx)
    }

    /// Returns [`line`](Self::line), or `None` if `line_idx >= len_lines()`. `O(log n)`.
    pub fn get_line(&self, line_idx: usize) -> Option<RopeSlice<'_>>
        ensures none { IsNone result ↔ (line_breaks (text_of self.now) + 1 ≤ line_idx) }
        ensures line { IfSome result (λ line. slice_pieces line ≡ line_pieces self.now line_idx) }
    {
        self.whole().get_line(line_idx)
    }

    /// Returns the slice of a range of characters. `O(log n)`.
    ///
    /// # Requires
    ///
    /// The range starts no later than it ends, and ends at or before `len_chars()`.
    pub fn slice<R: TextRange>(&self, char_range: R) -> RopeSlice<'_>
        requires { IsRangeIn (length (text_of self.now)) (R.ends char_range) }
        ensures { slice_pieces result ≡ chars_in (R.ends char_range) self.now }
    {
        self.whole().slice(char_range)
    }

    /// Returns [`slice`](Self::slice), or `None` if the range isn't inside the text. `O(log n)`.
    pub fn get_slice<R: TextRange>(&self, char_range: R) -> Option<RopeSlice<'_>>
        ensures some { IsSome result ↔ IsRangeIn (length (text_of self.now)) (R.ends char_range) }
        ensures slice { IfSome result (λ slice. slice_pieces slice ≡
            chars_in (R.ends char_range) self.now) }
    {
        self.whole().get_slice(char_range)
    }

    /// Returns [`slice`](Self::slice), or why the range is refused. `O(log n)`.
    ///
    /// # Errors
    ///
    /// `CharRangeInvalid` if the range starts past its end, else `CharRangeOutOfBounds` if it goes
    /// past `len_chars()`.
    pub fn try_slice<R: TextRange>(&self, char_range: R) -> Result<RopeSlice<'_>, Error>
        ensures ok { IsOk result ↔ IsRangeIn (length (text_of self.now)) (R.ends char_range) }
        ensures slice { IfOk result (λ slice. slice_pieces slice ≡
            chars_in (R.ends char_range) self.now) }
        ensures refused { IfErr result (λ error.
            RefusesChars (text_of self.now) (R.ends char_range) error) }
    {
        self.whole().try_slice(char_range)
    }

    /// Returns the slice of a range of bytes. `O(log n)`.
    ///
    /// # Requires
    ///
    /// The range starts no later than it ends, ends at or before `len_bytes()`, and starts and ends
    /// at character boundaries.
    pub fn byte_slice<R: TextRange>(&self, byte_range: R) -> RopeSlice<'_>
        requires { IsByteRangeIn (text_of self.now) (R.ends byte_range) }
        ensures pieces { slice_pieces result ≡ bytes_in (R.ends byte_range) self.now }
        ensures bytes { slice_bytes result ≡ between (start_of (R.ends byte_range))
            (end_of (R.ends byte_range) (byte_len (text_of self.now))) (text_bytes self.now) }
    {
        self.whole().byte_slice(byte_range)
    }

    /// Returns [`byte_slice`](Self::byte_slice), or `None` if the range isn't inside the text or
    /// cuts a character. `O(log n)`.
    pub fn get_byte_slice<R: TextRange>(&self, byte_range: R) -> Option<RopeSlice<'_>>
        ensures some { IsSome result ↔ IsByteRangeIn (text_of self.now) (R.ends byte_range) }
        ensures slice { IfSome result (λ slice. slice_pieces slice ≡
            bytes_in (R.ends byte_range) self.now) }
        ensures bytes { IfSome result (λ slice. slice_bytes slice ≡
            between (start_of (R.ends byte_range))
            (end_of (R.ends byte_range) (byte_len (text_of self.now))) (text_bytes self.now)) }
    {
        self.whole().get_byte_slice(byte_range)
    }

    /// Returns [`byte_slice`](Self::byte_slice), or why the range is refused. `O(log n)`.
    ///
    /// # Errors
    ///
    /// `ByteRangeInvalid` if the range starts past its end, else `ByteRangeOutOfBounds` if it goes
    /// past `len_bytes()`, else `ByteRangeNotCharBoundary` if it starts or ends inside a character.
    pub fn try_byte_slice<R: TextRange>(&self, byte_range: R) -> Result<RopeSlice<'_>, Error>
        ensures ok { IsOk result ↔ IsByteRangeIn (text_of self.now) (R.ends byte_range) }
        ensures slice { IfOk result (λ slice. slice_pieces slice ≡
            bytes_in (R.ends byte_range) self.now) }
        ensures bytes { IfOk result (λ slice. slice_bytes slice ≡
            between (start_of (R.ends byte_range))
            (end_of (R.ends byte_range) (byte_len (text_of self.now))) (text_bytes self.now)) }
        ensures refused { IfErr result (λ error.
            RefusesBytes (text_of self.now) (R.ends byte_range) error) }
    {
        self.whole().try_byte_slice(byte_range)
    }
}
