//! A rope builder that is cheap to move.
ghost use Rattle.std.specs.Prelude.{◌≡◌, ◌<◌, ◌^◌, ◌++◌, [], length, chars, encode_utf8_all, IfOk, OnOk, OnErr};
ghost use Rattle.ropey.specs.Chunks.{text_of};

use ropey::{Error, Rope, RopeBuilder};
use std::alloc::Global;
use std::marker::Model;

/// A rope builder in a box, which is allocated for the first characters: the builder has the leaf
/// that it fills, about a kilobyte. Contracts see the text so far.
#[derive(Drop)]
pub struct BoxedBuilder {
    alloc: Global,
    builder: Option<Box<RopeBuilder>>,
}

impl Model for BoxedBuilder {
    ghost use Rattle.std.specs.Prelude.{ℕ, List, [], option_map, unwrap_or};

    ghost Value = { List ℕ };

    ghost view = { λ b. unwrap_or (option_map (λ boxed. boxed.value) b.builder) [] };
}

/// Returns a builder with this text, in a box.
#[inline(never)]
fn begun(alloc: Global, text: &str) -> Result<Box<RopeBuilder>, Error>
    ensures { IfOk result (λ boxed. boxed.value ≡ chars text.now) }
{
    let mut boxed = Box::new(alloc, RopeBuilder::new(alloc))?;
    boxed.append(text)?;
    Ok(boxed)
}

impl BoxedBuilder {
    /// Returns the empty text. Allocates nothing.
    pub fn new(alloc: Global) -> BoxedBuilder
        ensures { result ≡ [] }
    {
        BoxedBuilder {
            alloc,
            builder: None,
        }
    }

    /// Returns the number of bytes so far. `O(1)`.
    pub fn len_bytes(&self) -> usize
        ensures bytes { result ≡ length (encode_utf8_all self.now) }
        ensures fits { result < 2 ^ 63 }
    {
        match &self.builder {
            Some(builder) => builder.len_bytes(),
            None => 0,
        }
    }

    /// Appends text. `O(m)` for m bytes.
    ///
    /// # Errors
    ///
    /// `Error`, which leaves the text as it was.
    pub fn append(&mut self, text: &str) -> Result<(), Error>
        ensures text { OnOk result (self.new ≡ self.old ++ chars text.now) }
        ensures kept { OnErr result (self.new ≡ self.old) }
    {
        if let Some(builder) = &mut self.builder {
            return builder.append(text);
        }
        if !text.is_empty() {
            self.builder = Some(begun(self.alloc, text)?);
        }
        Ok(())
    }

    /// Returns the rope of the text. `O(n)`.
    ///
    /// # Errors
    ///
    /// `Error::Memory`, which drops the text.
    pub fn finish(self) -> Result<Rope, Error>
        ensures { IfOk result (λ rope. text_of rope ≡ self) }
    {
        match self.builder {
            Some(builder) => Box::into_inner(builder).finish(),
            None => Ok(Rope::new(self.alloc)),
        }
    }
}
