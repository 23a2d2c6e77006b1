//! Building a rope from a text that comes in parts.

ghost use Rattle.std.specs.Prelude.{◌≡◌, ℕ, ◌+◌, ◌^◌, ◌<◌, ◌≤◌, ◌⊎◌, ◌↔◌, [], ◌++◌, length, Err, OnErr, OnOk, IfOk, IfErr};
ghost use Rattle.std.specs.Str.{chars};
ghost use Rattle.str_indices.specs.Text.{byte_len};
ghost use Rattle.ropey_walk.specs.Slices.{slice_text};
ghost use Rattle.ropey.specs.Chunks.{AreFull, text_of};

use crate::rope::{MAX_TEXT_BYTES, Rope};
use ropey_tree::cutter::{Cutter, Marked};
use ropey_tree::error::Error;
use ropey_walk::slice::RopeSlice;
use std::alloc::{AllocError, Global};
use std::marker::Model;
use std::mem;

/// Builds a rope from a text that comes in parts. Contracts see the text so far.
///
/// The builder keeps its allocator. The text is already in leaves, except for a last part that
/// fills none.
///
/// # Examples
///
/// ```rust
/// let mut builder = RopeBuilder::new(alloc);
/// builder.append("one\r")?;
/// builder.append("\ntwo")?;
/// builder.finish()
/// ```
#[derive(Drop)]
pub struct RopeBuilder {
    text: Cutter,
    // The length of the text in bytes.
    len: usize,
}

impl Model for RopeBuilder {
    ghost use Rattle.std.specs.Prelude.{◌≡◌, List, ℕ, ◌<◌, ◌^◌};
    ghost use Rattle.str_indices.specs.Text.{byte_len};

    ghost Value = { List ℕ };

    ghost view = { λ builder. builder.text };

    ghost invariant = { λ builder. (builder.len ≡ byte_len builder.text) × (builder.len < 2 ^ 63) };
}

/// Appends the text of a slice, chunk by chunk.
fn append_chunks(text: &mut Marked, slice: RopeSlice<'_>) -> Result<(), AllocError>
    ensures text { OnOk result (text.new.text ≡ text.old.text ++ slice_text slice.entry) }
    ensures mark { text.new.mark ≡ text.old.mark }
{
    for chunk in slice.chunks() {
        text.append(chunk)?;
    }
    Ok(())
}

impl RopeBuilder {
    /// Returns an empty builder. Allocates nothing.
    pub fn new(alloc: Global) -> Self
        ensures { result ≡ [] }
    {
        RopeBuilder {
            text: Cutter::new(alloc),
            len: 0,
        }
    }

    /// Appends text. `O(m)` for m bytes.
    ///
    /// # Errors
    ///
    /// `Size` if the text would exceed `isize::MAX` bytes, before anything is allocated; `Memory`.
    /// Both leave the builder unchanged.
    pub fn append(&mut self, text: &str) -> Result<(), Error>
        ensures text { OnOk result (self.new ≡ self.old ++ chars text.now) }
        ensures kept { OnErr result (self.new ≡ self.old) }
        ensures size { (result ≡ Err Error.Size) ↔ (2 ^ 63 ≤ byte_len self.old + length text.now) }
        ensures refused { IfErr result (λ error. (error ≡ Error.Size) ⊎ (error ≡ Error.Memory)) }
    {
        if text.len() > MAX_TEXT_BYTES - self.len {
            return Err(Error::Size);
        }
        self.text.append(text)?;
        self.len += text.len();
        Ok(())
    }

    /// Appends the text of a slice, chunk by chunk. `O(m)` for m bytes.
    ///
    /// # Errors
    ///
    /// `Size` if the text would exceed `isize::MAX` bytes, before anything is allocated; `Memory`.
    /// Both leave the builder unchanged.
    pub fn append_slice(&mut self, slice: RopeSlice<'_>) -> Result<(), Error>
        ensures text { OnOk result (self.new ≡ self.old ++ slice_text slice.entry) }
        ensures kept { OnErr result (self.new ≡ self.old) }
        ensures size { (result ≡ Err Error.Size) ↔
            (2 ^ 63 ≤ byte_len self.old + byte_len (slice_text slice.entry)) }
        ensures refused { IfErr result (λ error. (error ≡ Error.Size) ⊎ (error ≡ Error.Memory)) }
    {
        let len = slice.len_bytes();
        if len > MAX_TEXT_BYTES - self.len {
            return Err(Error::Size);
        }
        let nothing = Cutter::new(self.text.allocator());
        let mut text = mem::replace(&mut self.text, nothing).marked();
        match append_chunks(&mut text, slice) {
            Ok(()) => {
                self.text = text.whole();
                self.len += len;
                Ok(())
            }
            Err(_) => {
                self.text = text.back();
                Err(Error::Memory)
            }
        }
    }

    /// Returns the number of bytes so far. `O(1)`.
    pub fn len_bytes(&self) -> usize
        ensures bytes { result ≡ byte_len self.now }
        ensures fits { result < 2 ^ 63 }
    {
        self.len
    }

    /// Appends like `append`. Its contract names the part's characters only.
    pub(crate) fn append_part(&mut self, part: &str) -> Result<(), Error>
        ensures text { OnOk result (self.new ≡ self.old ++ chars part.now) }
        ensures size { (result ≡ Err Error.Size) → 2 ^ 63 ≤ byte_len (self.old ++ chars part.now) }
        ensures refused { IfErr result (λ error. (error ≡ Error.Size) ⊎ (error ≡ Error.Memory)) }
    {
        self.append(part)
    }

    /// Returns the rope of the text, without copying it again. `O(n)`.
    ///
    /// # Errors
    ///
    /// `Memory`, which drops the text.
    pub fn finish(self) -> Result<Rope, Error>
        ensures text { IfOk result (λ rope. text_of rope ≡ self) }
        ensures full { IfOk result (λ rope. AreFull rope) }
        ensures refused { IfErr result (λ error. error ≡ Error.Memory) }
    {
        let alloc = self.text.allocator();
        let leaves = self.text.finish()?;
        let rope = Rope::from_leaves(alloc, leaves)?;
        Ok(rope)
    }
}
