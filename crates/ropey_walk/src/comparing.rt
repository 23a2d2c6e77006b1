//! Comparing, hashing and displaying slices. Each uses the text alone, however it is split into
//! chunks.

ghost use Rattle.std.specs.Prelude.{◌≡◌, ◌≤◌, ◌↔◌, ◌++◌, [], drop, length, refl, IsTrue, Some};
ghost use Rattle.std.specs.Str.{chars};
ghost use Rattle.std.specs.Cmp.Lexicographic.{pointwise, slice_cmp};
ghost use Rattle.std.specs.Cmp.Rules.{comparing, hashing};
ghost use Rattle.std.specs.Ordering.{nat_cmp, on, as_partial_cmp};
ghost use Rattle.std.specs.Prelude.{nat_eq};
ghost use Rattle.std.proofs.Common.{rules};
ghost use Rattle.ropey_walk.specs.Chunks.{IsRopeText};
ghost use Rattle.ropey_walk.specs.Comparing.{slice_bytes, bytes_left, hash_writes};
ghost use Rattle.ropey_walk.specs.Slices.{slice_text};

use crate::iter::Chunks;
use crate::slice::RopeSlice;
use std::cmp::Ordering;
use std::fmt;
use std::hash::{Hash, Hasher};

/// The number of bytes that a hasher gets at once.
const BLOCK_LEN: usize = 256;

/// Returns a part without its first `len` bytes, or the next chunk if nothing is left.
fn part_behind<'a>(part: &'a [u8], len: usize, chunks: &mut Chunks<'a>) -> &'a [u8]
    requires within { len ≤ length part.now }
    requires cut { IsRopeText chunks.old.ahead }
    ensures bytes { bytes_left result.now chunks.new ≡ drop len (bytes_left part.now chunks.old) }
    ensures some { result.now ≡ [] → chunks.new.ahead ≡ [] }
    ensures cut { IsRopeText chunks.new.ahead }
{
    if len < part.len() {
        return &part[len..];
    }
    match chunks.next() {
        Some(chunk) => chunk.as_bytes(),
        None => &[],
    }
}

/// Compares two texts by their bytes.
fn compare(left: RopeSlice<'_>, right: RopeSlice<'_>) -> Ordering
    ensures { result ≡ slice_cmp nat_cmp (slice_bytes left.entry)
        (slice_bytes right.entry) }
{
    let mut left_chunks = left.chunks();
    let mut right_chunks = right.chunks();
    let mut left_part = part_behind(&[], 0, &mut left_chunks);
    let mut right_part = part_behind(&[], 0, &mut right_chunks);
    while !left_part.is_empty() && !right_part.is_empty() {
        let len = left_part.len().min(right_part.len());
        let order = left_part[..len].cmp(&right_part[..len]);
        if order.is_ne() {
            return order;
        }
        left_part = part_behind(left_part, len, &mut left_chunks);
        right_part = part_behind(right_part, len, &mut right_chunks);
    }
    left_part.len().cmp(&right_part.len())
}

/// Copies the next bytes, and returns the rest of the part after them.
fn copy_next<'a>(block: &mut [u8], part: &'a [u8], chunks: &mut Chunks<'a>) -> &'a [u8]
    requires some { length block.old ≤ length (bytes_left part.now chunks.old) }
    requires part { part.now ≡ [] → chunks.old.ahead ≡ [] }
    requires cut { IsRopeText chunks.old.ahead }
    ensures copied { bytes_left part.now chunks.old
        ≡ block.new ++ bytes_left result.now chunks.new }
    ensures len { length block.new ≡ length block.old }
    ensures part { result.now ≡ [] → chunks.new.ahead ≡ [] }
    ensures cut { IsRopeText chunks.new.ahead }
{
    let mut rest = part;
    let mut at = 0;
    while at < block.len() {
        let len = rest.len().min(block.len() - at);
        block[at..at + len].copy_from_slice(&rest[..len]);
        at += len;
        rest = part_behind(rest, len, chunks);
    }
    rest
}

/// Slices are equal if their texts are. `O(n)`, or `O(1)` if their lengths differ.
impl<'a> PartialEq for RopeSlice<'a> {
    ghost eq = { on slice_bytes (pointwise nat_eq) };

    ghost laws = { Prim.search (comparing, rules) };

    fn eq(&self, other: &Self) -> bool {
        self.len_bytes() == other.len_bytes() && compare(*self, *other).is_eq()
    }
}

impl<'a> Eq for RopeSlice<'a> {
    ghost laws = { Prim.search (comparing, rules) };
}

impl<'a> PartialOrd for RopeSlice<'a> {
    ghost partial_cmp = { as_partial_cmp (on slice_bytes (slice_cmp nat_cmp)) };

    ghost laws = { Prim.search (comparing, rules) };

    fn partial_cmp(&self, other: &Self) -> Option<Ordering> {
        Some(self.cmp(other))
    }
}

/// Compares slices by the bytes of their texts, which is the order of the scalar values. `O(n)`.
impl<'a> Ord for RopeSlice<'a> {
    ghost cmp = { on slice_bytes (slice_cmp nat_cmp) };

    ghost total = { Prim.search (comparing, rules) };

    ghost matches_partial_cmp = { λ x y. refl };

    ghost matches_eq = { Prim.search (comparing, rules) };

    fn cmp(&self, other: &Self) -> Ordering {
        compare(*self, *other)
    }
}

/// Hashes the text in blocks of 256 bytes, the last one shorter and possibly empty, then 0xFF. So
/// equal slices give the same writes, however they are split into chunks. `O(n)`.
impl<'a> Hash for RopeSlice<'a> {
    ghost hash_input = { λ slice. hash_writes (slice_bytes slice) };

    ghost respects_eq = { Prim.search (hashing, rules) };

    fn hash<H: Hasher>(&self, state: &mut H) {
        let mut chunks = self.chunks();
        let mut part = part_behind(&[], 0, &mut chunks);
        let mut block = [0; BLOCK_LEN];
        let len = self.len_bytes();
        for written in 0..len / BLOCK_LEN + 1 {
            let block = &mut block[..BLOCK_LEN.min(len - written * BLOCK_LEN)];
            part = copy_next(block, part, &mut chunks);
            state.write(block);
        }
        state.write_u8(0xFF);
    }
}

/// Writes the text's bytes, chunk by chunk. `O(n)`.
impl<'a> fmt::Display for RopeSlice<'a> {
    ghost output = { λ slice. Some (slice_bytes slice) };

    fn fmt<W: fmt::Write>(&self, f: &mut fmt::Formatter<W>) -> fmt::Result {
        for chunk in self.chunks() {
            f.write_str(chunk)?;
        }
        Ok(())
    }
}

impl<'a> RopeSlice<'a> {
    /// Returns whether the text equals `text`. `O(n)`, or `O(1)` if their lengths differ.
    pub fn eq_str(&self, text: &str) -> bool
        ensures { IsTrue result ↔ (slice_text self.now ≡ chars text.now) }
    {
        if self.len_bytes() != text.len() {
            return false;
        }
        let mut rest = text.as_bytes();
        for chunk in self.chunks() {
            let (front, behind) = rest.split_at(chunk.len());
            if front != chunk.as_bytes() {
                return false;
            }
            rest = behind;
        }
        true
    }
}
