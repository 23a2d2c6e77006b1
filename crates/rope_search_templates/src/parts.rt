//! Parts of a text, each found from the chunk in which the one before starts.
ghost use Rattle.std.specs.Prelude.{◌≡◌, ℕ, ◌≤◌, ◌++◌, take, length, OnOk, OnErr, IfSome, string_bytes};
ghost use Rattle.std.specs.Str.{chars};
ghost use Rattle.str_indices.specs.Text.{byte_len};
ghost use Rattle.ropey.specs.Chunks.{text_of};
ghost use Rattle.ropey.specs.Slices.{slice_text};
ghost use Rattle.rope_search_changes.specs.Text.{bytes_of};
ghost use Rattle.rope_search_changes.specs.Replacement.{IsSpanIn, between};

use ropey::{Rope, RopeSlice};
use std::alloc::AllocError;
use std::marker::Model;

/// The parts of a text. It keeps the chunk in which the last part starts, so that parts which
/// follow each other take one look-up for each chunk. Contracts see the text's chunks.
#[derive(Drop)]
pub(crate) struct Parts<'a> {
    text: &'a Rope,
    chunk: &'a str,
    // Where the chunk starts.
    start: usize,
}

impl<'a> Model for Parts<'a> {
    ghost use Rattle.std.specs.Prelude.{ℕ, List, IsUtf8};
    ghost use Rattle.ropey.specs.Chunks.{text_of};
    ghost use Rattle.rope_search_changes.specs.Text.{bytes_of};
    ghost use Rattle.rope_search_templates.specs.Parts.{ChunkIn};

    ghost Value = { List (List ℕ) };

    ghost view = { λ parts. parts.text.now };

    ghost invariant = { λ parts. IsUtf8 parts.chunk.now
        × ChunkIn (bytes_of (text_of parts.text.now)) parts.chunk.now parts.start };
}

/// Appends the text of a slice to `out`, chunk by chunk. If out of memory, a prefix of it may have
/// been appended.
fn push_slice(slice: RopeSlice<'_>, out: &mut String) -> Result<(), AllocError>
    ensures pushed { OnOk result (chars (string_bytes out.new) ≡
        chars (string_bytes out.old) ++ slice_text slice.entry) }
    ensures front { OnErr result ((len : ℕ) × (chars (string_bytes out.new) ≡
        chars (string_bytes out.old) ++ take len (slice_text slice.entry))) }
{
    for chunk in slice.chunks() {
        out.push_str(chunk)?;
    }
    Ok(())
}

impl<'a> Parts<'a> {
    /// Returns the parts of a text, before the first look-up.
    pub(crate) fn of(text: &'a Rope) -> Parts<'a>
        ensures { result ≡ text.now }
    {
        Parts {
            text,
            chunk: "",
            start: 0,
        }
    }

    /// Keeps the chunk that contains an offset, unless it already does.
    fn show(&mut self, place: usize)
        requires { place ≤ byte_len (text_of self.old) }
        ensures { self.new ≡ self.old }
    {
        if place < self.start || self.chunk.len() <= place - self.start {
            let (chunk, start, _, _) = self.text.chunk_at_byte(place);
            self.chunk = chunk;
            self.start = start;
        }
    }

    /// Returns the part between two offsets, if it is in the kept chunk.
    fn in_chunk(&self, start: usize, end: usize) -> Option<&'a str>
        requires { IsSpanIn (bytes_of (text_of self.now)) (start, end) }
        ensures { IfSome result
            (λ part. chars part.now ≡ between (bytes_of (text_of self.now)) start end) }
    {
        if start < self.start || end - self.start > self.chunk.len() {
            return None;
        }
        Some(&self.chunk[start - self.start..end - self.start])
    }

    /// Appends the part between two offsets to `out`. If out of memory, a prefix of it may have
    /// been appended.
    ///
    /// # Complexity
    ///
    /// Linear in the part; plus `O(log t)` in a text of t bytes if the part starts in another chunk
    /// than the one before, or spans chunks.
    pub(crate) fn push(
        &mut self,
        start: usize,
        end: usize,
        out: &mut String,
    ) -> Result<(), AllocError>
        requires { IsSpanIn (bytes_of (text_of self.old)) (start, end) }
        ensures pushed { OnOk result (chars (string_bytes out.new) ≡ chars (string_bytes out.old)
            ++ between (bytes_of (text_of self.old)) start end) }
        ensures front { OnErr result ((len : ℕ) × (chars (string_bytes out.new) ≡
            chars (string_bytes out.old)
            ++ take len (between (bytes_of (text_of self.old)) start end))) }
        ensures parts { self.new ≡ self.old }
    {
        self.show(start);
        if let Some(part) = self.in_chunk(start, end) {
            return out.push_str(part);
        }
        // For the proof: the text's facts.
        let _ = self.text.len_bytes();
        push_slice(self.text.slice(..).byte_slice(start..end), out)
    }
}
