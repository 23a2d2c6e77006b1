//! The rope.

ghost use Rattle.std.specs.Prelude.{◌≡◌, ℕ, List, ◌+◌, ◌-◌, ◌*◌, ◌^◌, ◌<◌, ◌≤◌, ◌⊎◌, ◌↔◌, min, [], length, Err, OnOk, OnErr, IfOk, IfErr, IfSome, IsNone, encode_utf8_all, string_bytes};
ghost use Rattle.std.specs.Str.{chars, IsUtf8};
ghost use Rattle.std.specs.Iterator.{IsFiniteIterable};
ghost use Rattle.str_indices.specs.Text.{units};
ghost use Rattle.str_indices.specs.Text.{byte_len};
ghost use Rattle.ropey_tree.specs.Cutting.{IsRopeText};
ghost use Rattle.ropey_tree.specs.Nodes.{AreNodes, all_pieces};
ghost use Rattle.ropey_tree.specs.Siblings.{views};
ghost use Rattle.ropey_tree.specs.Splits.{pieces_in};
ghost use Rattle.ropey.specs.Chunks.{AreFull, text_of, joined, line_breaks, ShowsChunk, YieldsInAll, YieldsAtFirst};
ghost use Rattle.ropey_walk.specs.Slices.{slice_pieces};

use crate::rope_builder::RopeBuilder;
use ropey_tree::MAX_BYTES;
use ropey_tree::builds::build;
use ropey_tree::counts::Counts;
use ropey_tree::cutter::leaves_of;
use ropey_tree::error::Error;
use ropey_tree::node::Node;
use ropey_walk::slice::RopeSlice;
use std::alloc::{AllocError, Global};
use std::marker::Model;
use std::rc::Rc;

/// The most bytes of a text: `isize::MAX`.
pub(crate) const MAX_TEXT_BYTES: usize = 0x7FFF_FFFF_FFFF_FFFF;

/// A text that can be edited, in a balanced tree of shared nodes. Contracts see its chunks.
///
/// A rope keeps its allocator and uses it for later allocations. Cloning takes `O(1)` time and
/// memory: a clone shares all nodes, and neither rope changes the other.
///
/// # Examples
///
/// ```rust
/// let rope = Rope::from_str(rt.alloc(), "one\r\ntwo🐸")?;
/// assert_eq!(rt; rope.len_bytes(), 12);
/// assert_eq!(rt; rope.len_chars(), 9);
/// assert_eq!(rt; rope.len_utf16_cu(), 10);
/// assert_eq!(rt; rope.len_lines(), 2);
/// assert!(rt; rope.try_line_to_byte(1) == Ok(5));
/// assert!(rt; rope.try_char_to_byte(9) == Ok(12));
/// ```
///
/// ```rust
/// let mut rope = Rope::from_str(rt.alloc(), "ab\r\ncd")?;
/// rope.try_insert(3, "x")?;
/// assert!(rt; rope.eq_str("ab\rx\ncd"));
/// rope.try_remove(3..4)?;
/// assert!(rt; rope.eq_str("ab\r\ncd"));
/// rope.try_replace(2..4, "é")?;
/// assert!(rt; rope.eq_str("abécd"));
/// ```
#[derive(Drop)]
pub struct Rope {
    pub(crate) alloc: Global,
    // An empty text has no tree.
    pub(crate) root: Option<Rc<Node>>,
    // The counts of the text.
    counts: Counts,
}

impl Model for Rope {
    ghost use Rattle.std.specs.Prelude.{List, ℕ};
    ghost use Rattle.ropey_tree.specs.Splits.{pieces_in};
    ghost use Rattle.ropey.specs.Chunks.{IsRopeOf};

    ghost Value = { List (List ℕ) };

    ghost view = { λ rope. pieces_in rope.root };

    ghost invariant = { λ rope. IsRopeOf (pieces_in rope.root) rope.counts };
}

impl Clone for Rope {
    ghost is_clone = { λ rope copy. copy ≡ rope };

    fn clone(&self) -> Result<Rope, AllocError> {
        match &self.root {
            None => Ok(Rope::new(self.alloc)),
            Some(node) => {
                let node = node.clone()?;
                Ok(Rope {
                    alloc: self.alloc,
                    root: Some(node),
                    counts: self.counts,
                })
            }
        }
    }
}

impl Rope {
    /// Returns an empty rope. Allocates nothing, and keeps the allocator for later.
    pub fn new(alloc: Global) -> Self
        ensures { result ≡ [] }
    {
        Rope {
            alloc,
            root: None,
            counts: Counts::zero(),
        }
    }

    /// Returns a rope with a copy of `text`. `O(n)`.
    ///
    /// # Errors
    ///
    /// `Size` for more than `isize::MAX` bytes, before anything is allocated; `Memory`.
    pub fn from_str(alloc: Global, text: &str) -> Result<Self, Error>
        ensures text { IfOk result (λ rope. text_of rope ≡ chars text.now) }
        ensures full { IfOk result (λ rope. AreFull rope) }
        ensures size { (result ≡ Err Error.Size) ↔ (2 ^ 63 ≤ length text.now) }
        ensures refused { IfErr result (λ error. (error ≡ Error.Size) ⊎ (error ≡ Error.Memory)) }
    {
        if text.len() > MAX_TEXT_BYTES {
            return Err(Error::Size);
        }
        let leaves = leaves_of(alloc, text)?;
        let rope = Rope::from_leaves(alloc, leaves)?;
        Ok(rope)
    }

    /// Returns a rope of the strings that an iterator yields, joined. `O(n)`.
    ///
    /// # Requires
    ///
    /// The iterator ends.
    ///
    /// # Errors
    ///
    /// `Size` once the strings have more than `isize::MAX` bytes together; `Memory`. How far the
    /// iterator has then advanced isn't specified.
    pub fn from_chunks<'a, I: IntoIterator<Item = &'a str>>(
        alloc: Global,
        chunks: I,
    ) -> Result<Self, Error>
        requires ends { IsFiniteIterable I.into_iter_gives I.IntoIter.can_next I.IntoIter.remaining
            chunks }
        ensures text { IfOk result (λ rope. YieldsInAll I.into_iter_gives I.IntoIter.next_gives
            chunks (λ parts. text_of rope ≡ joined parts)) }
        ensures full { IfOk result (λ rope. AreFull rope) }
        ensures size { result ≡ Err Error.Size → YieldsAtFirst I.into_iter_gives
            I.IntoIter.next_gives chunks (λ parts. 2 ^ 63 ≤ byte_len (joined parts)) }
        ensures refused { IfErr result (λ error. (error ≡ Error.Size) ⊎ (error ≡ Error.Memory)) }
    {
        let mut builder = RopeBuilder::new(alloc);
        for chunk in chunks {
            builder.append_part(chunk)?;
        }
        let rope = builder.finish()?;
        Ok(rope)
    }

    /// Returns a rope with these leaves.
    pub(crate) fn from_leaves(alloc: Global, leaves: Vec<Rc<Node>>) -> Result<Self, AllocError>
        requires leaves { AreNodes 0 12 (views leaves.items) }
        requires text { IsRopeText (all_pieces (views leaves.items)) }
        ensures { IfOk result (λ rope. rope ≡ all_pieces (views leaves.items)) }
    {
        if leaves.is_empty() {
            return Ok(Rope::new(alloc));
        }
        let root = build(alloc, leaves)?;
        Ok(Rope::of_tree(alloc, Some(root)))
    }

    /// Returns a rope with this tree, or an empty one.
    pub(crate) fn of_tree(alloc: Global, root: Option<Rc<Node>>) -> Self
        ensures { result ≡ pieces_in root }
    {
        match root {
            None => Rope::new(alloc),
            Some(tree) => {
                // Needed by the proof only.
                let _ = tree.height();
                let counts = tree.counts();
                Rope {
                    alloc,
                    root: Some(tree),
                    counts,
                }
            }
        }
    }

    /// Returns the slice of the whole text.
    pub(crate) fn whole(&self) -> RopeSlice<'_>
        ensures pieces { slice_pieces result ≡ self.now }
        ensures cut { IsRopeText self.now }
    {
        match &self.root {
            None => RopeSlice::new(None),
            Some(root) => {
                let node: &Node = root;
                RopeSlice::with_counts(Some(node), self.counts)
            }
        }
    }

    /// Returns the number of bytes of UTF-8. `O(1)`.
    pub fn len_bytes(&self) -> usize
        ensures bytes { result ≡ byte_len (text_of self.now) }
        ensures fits { result < 2 ^ 63 }
        ensures cut { IsRopeText self.now }
    {
        self.whole().len_bytes()
    }

    /// Returns the number of characters, which are Unicode scalar values. `O(1)`.
    pub fn len_chars(&self) -> usize
        ensures { result ≡ length (text_of self.now) }
    {
        self.whole().len_chars()
    }

    /// Returns the number of UTF-16 code units. `O(1)`.
    pub fn len_utf16_cu(&self) -> usize
        ensures { result ≡ units (text_of self.now) }
    {
        self.whole().len_utf16_cu()
    }

    /// Returns the number of lines: the line breaks plus one. CR LF is one break. `O(1)`.
    pub fn len_lines(&self) -> usize
        ensures { result ≡ line_breaks (text_of self.now) + 1 }
    {
        self.whole().len_lines()
    }

    /// Returns the chunk that contains a byte, and the byte, character and line index of the
    /// chunk's start. `O(log n)`.
    ///
    /// For `len_bytes()` this is the last chunk. For an empty text it is an empty chunk at 0, 0, 0.
    ///
    /// # Requires
    ///
    /// `byte_idx <= len_bytes()`.
    pub fn chunk_at_byte(&self, byte_idx: usize) -> (&str, usize, usize, usize)
        requires { byte_idx ≤ byte_len (text_of self.now) }
        ensures chunk { ShowsChunk self.now byte_len byte_idx (chars result.0.now) result.1 result.2
            result.3 }
        ensures utf8 { IsUtf8 result.0.now }
        ensures cut { IsRopeText self.now }
    {
        self.whole().chunk_at_byte(byte_idx)
    }

    /// Returns [`chunk_at_byte`](Self::chunk_at_byte), or `None` if `byte_idx > len_bytes()`.
    /// `O(log n)`.
    pub fn get_chunk_at_byte(&self, byte_idx: usize) -> Option<(&str, usize, usize, usize)>
        ensures none { IsNone result ↔ (byte_len (text_of self.now) < byte_idx) }
        ensures chunk { IfSome result (λ shown. ShowsChunk self.now byte_len byte_idx
            (chars shown.0.now) shown.1 shown.2 shown.3) }
        ensures utf8 { IfSome result (λ shown. IsUtf8 shown.0.now) }
    {
        if byte_idx <= self.len_bytes() {
            Some(self.chunk_at_byte(byte_idx))
        } else {
            None
        }
    }

    /// Returns a copy of the whole text. `O(n)`.
    ///
    /// # Errors
    ///
    /// `Memory`.
    pub fn to_text(&self) -> Result<String, Error>
        ensures text { IfOk result (λ text. string_bytes text ≡
            encode_utf8_all (text_of self.now)) }
        ensures refused { IfErr result (λ error. error ≡ Error.Memory) }
    {
        self.whole().to_text(self.alloc)
    }

    /// Rebuilds the rope with as few chunks as `from_str` makes: all but the last have at least 980
    /// bytes. `O(n)`.
    ///
    /// # Errors
    ///
    /// `Memory`, which leaves the rope unchanged.
    pub fn shrink_to_fit(&mut self) -> Result<(), Error>
        ensures text { text_of self.new ≡ text_of self.old }
        ensures full { OnOk result (AreFull self.new) }
        ensures kept { OnErr result (self.new ≡ self.old) }
        ensures refused { IfErr result (λ error. error ≡ Error.Memory) }
    {
        let packed = Rope::from_slice(self.alloc, self.whole())?;
        *self = packed;
        Ok(())
    }

    /// Returns the number of bytes that the chunks could hold, `MAX_BYTES` each, capped at
    /// `usize::MAX`. `O(n)`.
    ///
    /// A chunk takes no more memory than it has bytes.
    pub fn capacity(&self) -> usize
        ensures { result ≡ min (984 * length self.now) (2 ^ 64 - 1) }
    {
        self.chunks().count().saturating_mul(MAX_BYTES)
    }
}
