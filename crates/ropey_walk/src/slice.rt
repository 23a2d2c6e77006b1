//! A part of a rope that acts as a text of its own.

ghost use Rattle.std.specs.Prelude.{◌≡◌, ◌+◌, ◌<◌, ◌≤◌, ◌^◌, ◌⊎◌, [], length, true};
ghost use Rattle.std.specs.Str.{chars, is_utf8};
ghost use Rattle.str_indices.specs.Text.{byte_len};
ghost use Rattle.ropey_tree.specs.Counts.{counts_of};
ghost use Rattle.ropey_tree.specs.Cutting.{IsRopeText};
ghost use Rattle.ropey_walk.specs.Chunks.{text_of};
ghost use Rattle.ropey_walk.specs.Clips.{between};
ghost use Rattle.ropey_walk.specs.Parts.{pieces_under, standing};
ghost use Rattle.ropey_walk.specs.Sources.{source_pieces, light_bytes};

use ropey_tree::counts::{By, Counts};
use ropey_tree::node::{Found, Node, OnTheWay, leaf_at, leaf_near};

/// A part of a rope that acts as a text of its own: indices count from its start, and its line
/// breaks are those of its own text. A slice that starts at the LF of a CR LF has that LF as a
/// break, and one that ends between them has the CR.
///
/// It allocates nothing. Contracts see the chunks of its rope, clipped to it.
#[derive(Clone, Copy)]
pub struct RopeSlice<'a> {
    source: Source<'a>,
    // The counts before it in its source.
    start: Counts,
    // Its own counts.
    len: Counts,
    ghost within: { start.chars + len.chars ≤ length (text_of (source_pieces source)) },
    ghost starts: { start ≡ standing (text_of (source_pieces source)) start.chars },
    ghost counted: { len ≡ counts_of (between start.chars (start.chars + len.chars)
        (text_of (source_pieces source))) },
    ghost fits: { byte_len (text_of (source_pieces source)) < 2 ^ 63 },
    ghost utf8: { is_utf8 (light_bytes source) ≡ true },
    ghost short: { length (light_bytes source) ≤ 984 },
}

/// What a slice is a part of, by the names of `ropey`.
#[derive(Clone, Copy)]
enum Source<'a> {
    /// The text of a tree.
    Full(&'a Node),
    /// A text in one chunk, or none, in which nothing is looked up.
    Light(&'a str),
}

/// A chunk, and the counts before it.
#[derive(Clone, Copy)]
pub struct Chunk<'a> {
    /// Its text.
    pub text: &'a str,
    /// The counts before it.
    pub start: Counts,
    /// Whether each of its characters is known to be one byte.
    pub is_ascii: bool,
    ghost ascii: { is_ascii ≡ true → length (chars text.now) ≡ length text.now },
}

impl<'a> Chunk<'a> {
    ghost use Rattle.std.specs.Prelude.{[]};
    ghost use Rattle.std.specs.Str.{IsUtf8};
    ghost use Rattle.ropey_tree.specs.Counts.{zero_counts};

    /// Returns the chunk of an empty text.
    pub(crate) fn nothing() -> Self
        ensures text { chars result.text.now ≡ [] }
        ensures start { result.start ≡ zero_counts }
        ensures utf8 { IsUtf8 result.text.now }
    {
        Chunk {
            text: "",
            start: Counts::zero(),
            is_ascii: false,
        }
    }

    /// Returns this chunk, or the other one if it is empty.
    pub(crate) fn or(self, other: Self) -> Self
        ensures { (result ≡ self.entry) ⊎ (result ≡ other.entry) }
    {
        if self.text.is_empty() { other } else { self }
    }
}

impl<'a> Source<'a> {
    /// Returns a tree, or the empty text.
    fn new(node: Option<&'a Node>) -> Self
        ensures pieces { source_pieces result ≡ pieces_under node.entry }
        ensures bytes { light_bytes result ≡ [] }
    {
        match node {
            None => Source::Light(""),
            Some(node) => Source::Full(node),
        }
    }
}

/// Returns the counts of a tree's text, or of the empty text.
fn counts_under(node: Option<&Node>) -> Counts
    ensures counts { result ≡ counts_of (text_of (pieces_under node.entry)) }
    ensures cut { IsRopeText (pieces_under node.entry) }
{
    match node {
        None => Counts::zero(),
        Some(node) => {
            // For the proof only.
            let _ = node.height();
            node.counts()
        }
    }
}

impl<'a> RopeSlice<'a> {
    ghost use Rattle.std.specs.Str.{IsUtf8};
    ghost use Rattle.str_indices.specs.Text.{units};
    ghost use Rattle.ropey_walk.specs.Chunks.{line_breaks};
    ghost use Rattle.ropey_walk.specs.Clips.{clip};
    ghost use Rattle.std.specs.Prelude.{ℕ, IfSome};
    ghost use Rattle.ropey_tree.specs.declared.counts.By.{By};
    ghost use Rattle.ropey_walk.specs.Parts.{ReachesLeaf};
    ghost use Rattle.ropey_walk.specs.Standing.{StandsAt, IsChunkOf};
    ghost use Rattle.ropey_walk.specs.Slices.{slice_pieces, slice_text, IsNear};

    /// Returns the whole text of a tree, or the empty text. `O(1)`.
    #[doc(hidden)]
    pub fn new(node: Option<&'a Node>) -> Self
        ensures { slice_pieces result ≡ pieces_under node.entry }
    {
        RopeSlice::with_counts(node, counts_under(node))
    }

    /// `new` with known counts, which aren't looked up then. `O(1)`.
    ///
    /// # Requires
    ///
    /// The leaf texts are those of a rope, and `len` has their counts.
    #[doc(hidden)]
    pub fn with_counts(node: Option<&'a Node>, len: Counts) -> Self
        requires cut { IsRopeText (pieces_under node) }
        requires counts { len ≡ counts_of (text_of (pieces_under node)) }
        ensures { slice_pieces result ≡ pieces_under node.entry }
    {
        RopeSlice {
            source: Source::new(node),
            start: Counts::zero(),
            len,
        }
    }

    /// Returns the part of a slice with these counts before it and of its text as a part of a chunk
    /// of the slice, if it isn't empty and is inside that chunk.
    #[inline]
    fn part_of_chunk(&self, chunk: &Chunk<'a>, start: Counts, len: Counts) -> Option<Self>
        requires some { 0 < len.chars }
        requires within { start.chars + len.chars ≤ length (slice_text self.now) }
        requires starts { start ≡ standing (slice_text self.now) start.chars }
        requires counted { len ≡ counts_of (between start.chars (start.chars + len.chars)
            (slice_text self.now)) }
        requires chunk { IsChunkOf (slice_pieces self.now) (chars chunk.now.text.now)
            chunk.now.start }
        requires utf8 { IsUtf8 chunk.now.text.now }
        ensures { IfSome result (λ part. slice_pieces part ≡
            clip start.chars (start.chars + len.chars) (slice_pieces self.now)) }
    {
        // For the proof only.
        let _ = self.len_bytes();
        let end = start.bytes + len.bytes;
        if start.bytes < chunk.start.bytes || end > chunk.start.bytes + chunk.text.len() {
            return None;
        }
        Some(RopeSlice {
            source: Source::Light(chunk.text),
            start: start.saturating_sub(chunk.start),
            len,
        })
    }

    /// Returns the part of a slice with these counts before it and of its text. If it is inside the
    /// chunk, it is a part of the chunk alone. `O(1)`.
    pub(crate) fn part(&self, chunk: &Chunk<'a>, start: Counts, len: Counts) -> Self
        requires within { start.chars + len.chars ≤ length (slice_text self.now) }
        requires starts { start ≡ standing (slice_text self.now) start.chars }
        requires counted { len ≡ counts_of (between start.chars (start.chars + len.chars)
            (slice_text self.now)) }
        requires chunk { IsChunkOf (slice_pieces self.now) (chars chunk.now.text.now)
            chunk.now.start }
        requires utf8 { IsUtf8 chunk.now.text.now }
        ensures { slice_pieces result ≡ clip start.chars (start.chars + len.chars)
            (slice_pieces self.now) }
    {
        if len.chars == 0 {
            return RopeSlice::new(None);
        }
        if let Some(part) = self.part_of_chunk(chunk, start, len) {
            return part;
        }
        RopeSlice {
            source: self.source,
            start: self.start.plus(start),
            len,
        }
    }

    /// Returns the counts of the text. `O(1)`.
    pub(crate) fn counts(&self) -> Counts
        ensures counts { result ≡ counts_of (slice_text self.now) }
        ensures fits { result.bytes < 2 ^ 63 }
    {
        self.len
    }

    /// Returns the length of the text in bytes. `O(1)`.
    pub fn len_bytes(&self) -> usize
        ensures bytes { result ≡ byte_len (slice_text self.now) }
        ensures fits { result < 2 ^ 63 }
        ensures cut { IsRopeText (slice_pieces self.now) }
    {
        match self.source {
            Source::Light(_) => self.counts().bytes,
            Source::Full(node) => {
                // For the proof only.
                let _ = node.height();
                self.counts().bytes
            }
        }
    }

    /// Returns the number of characters (Unicode scalar values). `O(1)`.
    pub fn len_chars(&self) -> usize
        ensures { result ≡ length (slice_text self.now) }
    {
        self.counts().chars
    }

    /// Returns the number of UTF-16 code units. `O(1)`.
    pub fn len_utf16_cu(&self) -> usize
        ensures { result ≡ units (slice_text self.now) }
    {
        self.counts().units
    }

    /// Returns the number of lines: one more than the line breaks, with CR LF as one. `O(1)`.
    pub fn len_lines(&self) -> usize
        ensures { result ≡ line_breaks (slice_text self.now) + 1 }
    {
        self.counts().breaks + 1
    }

    /// Returns the leaf of the rope that contains position `i` of a measure of the slice, or in
    /// which the slice ends.
    fn leaf(&self, node: &'a Node, by: By, i: usize) -> Found<'a>
        requires some { 0 < self.now.len.chars }
        requires under { source_pieces self.now.source ≡ node.now.pieces }
        ensures { ReachesLeaf node.now.pieces self.now.start self.now.len by i result.leaf.now
            result.before }
    {
        // For the proof only.
        let _ = node.height();
        if i < self.len.by(by) {
            leaf_at(node, by, self.start.by(by) + i)
        } else {
            leaf_at(node, By::Bytes, self.start.bytes + (self.len.bytes - 1))
        }
    }

    /// `leaf` of a byte, for callers that go from chunk to chunk and remember a node.
    fn leaf_near(
        &self,
        node: &'a Node,
        near: &mut Option<OnTheWay<'a>>,
        byte_idx: usize,
    ) -> Found<'a>
        requires some { 0 < self.now.len.chars }
        requires under { source_pieces self.now.source ≡ node.now.pieces }
        requires near { IsNear self.now near.old }
        ensures near { IsNear self.now near.new }
        ensures reached { ReachesLeaf node.now.pieces self.now.start self.now.len By.Bytes byte_idx
            result.leaf.now result.before }
    {
        // For the proof only.
        let _ = node.height();
        if byte_idx < self.len.bytes {
            leaf_near(node, near, By::Bytes, self.start.bytes + byte_idx)
        } else {
            self.leaf(node, By::Bytes, byte_idx)
        }
    }

    /// Returns the part inside the slice of the leaf that contains position `i` of a measure, or in
    /// which the slice ends.
    fn clipped(&self, node: &'a Node, found: &Found<'a>, by: By, i: usize) -> Chunk<'a>
        requires some { 0 < self.now.len.chars }
        requires under { source_pieces self.now.source ≡ node.now.pieces }
        requires reached { ReachesLeaf node.now.pieces self.now.start self.now.len by i
            found.now.leaf.now found.now.before }
        ensures stands { StandsAt (slice_pieces self.now) by i (chars result.text.now) result.start }
        ensures cut { IsRopeText (slice_pieces self.now) }
        ensures utf8 { IsUtf8 result.text.now }
    {
        // For the proof only.
        let _ = node.height();
        let text = found.leaf.as_str();
        let start = self.start.bytes.saturating_sub(found.before.bytes);
        let end = (self.start.bytes + self.len.bytes - found.before.bytes).min(text.len());
        Chunk {
            text: &text[start..end],
            start: found.before.saturating_sub(self.start),
            // If all characters of a slice are one byte, so are those of its chunks.
            is_ascii: found.is_ascii | (self.len.chars == self.len.bytes),
        }
    }

    /// Returns the text of a slice of a text in one chunk, if it isn't empty.
    #[inline]
    fn only(&self, text: &'a str) -> Chunk<'a>
        requires some { 0 < self.now.len.chars }
        requires under { self.now.source ≡ Source.Light text }
        ensures stands { (by : By) (i : ℕ) →
            StandsAt (slice_pieces self.now) by i (chars result.text.now) result.start }
        ensures utf8 { IsUtf8 result.text.now }
    {
        Chunk {
            text: &text[self.start.bytes..self.start.bytes + self.len.bytes],
            start: Counts::zero(),
            is_ascii: self.len.chars == self.len.bytes,
        }
    }

    /// Returns the chunk that contains position `i` of a measure, or the last one; for an empty
    /// text an empty one. `O(log n)`.
    pub fn chunk(&self, by: By, i: usize) -> Chunk<'a>
        ensures stands { StandsAt (slice_pieces self.now) by i (chars result.text.now) result.start }
        ensures cut { IsRopeText (slice_pieces self.now) }
        ensures utf8 { IsUtf8 result.text.now }
    {
        if self.len.chars == 0 {
            return Chunk::nothing();
        }
        match self.source {
            Source::Light(text) => self.only(text),
            Source::Full(node) => self.clipped(node, &self.leaf(node, by, i), by, i),
        }
    }

    /// `chunk` of a byte, for callers that go from chunk to chunk: if the node that they remember
    /// contains the next chunk, the search starts there. Mostly `O(1)`.
    pub(crate) fn chunk_near(&self, near: &mut Option<OnTheWay<'a>>, byte_idx: usize) -> Chunk<'a>
        requires { IsNear self.now near.old }
        ensures near { IsNear self.now near.new }
        ensures stands { StandsAt (slice_pieces self.now) By.Bytes byte_idx (chars result.text.now)
            result.start }
        ensures cut { IsRopeText (slice_pieces self.now) }
        ensures utf8 { IsUtf8 result.text.now }
    {
        if self.len.chars > 0 {
            if let Source::Full(node) = self.source {
                let found = self.leaf_near(node, near, byte_idx);
                return self.clipped(node, &found, By::Bytes, byte_idx);
            }
        }
        self.chunk(By::Bytes, byte_idx)
    }
}
