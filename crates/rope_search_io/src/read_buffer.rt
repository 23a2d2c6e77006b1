//! The fixed buffer through which a source is read.
ghost use Rattle.std.specs.Prelude.{◌≡◌, ◌+◌, ◌<◌, ◌≤◌, ◌∷◌, [], length, drop, MatchResult, MatchOption, MatchBool};
ghost use Rattle.rope_search_io.specs.ReadBuffer.{Takes, TakesLast, TakesUntil};

use crate::faults::{Broken, Failed};
use crate::sources::Source;
use std::marker::Model;

/// The number of bytes requested from a source at once.
pub const READ_LEN: usize = 4096;

/// The number of reads after which a run gives up.
pub const MOST_READS: u64 = 1 << 62;

/// The bytes that were read from a source but not yet consumed, and the number of reads. Use it
/// with one source, from its first call on. It allocates nothing.
#[derive(Drop)]
pub struct ReadBuffer {
    bytes: [u8; READ_LEN],
    from: usize,
    to: usize,
    reads: u64,
}

impl Model for ReadBuffer {
    ghost use Rattle.std.specs.Prelude.{◌-◌, ◌≤◌, ◌^◌, take, drop};
    ghost use Rattle.rope_search_io.specs.ReadBuffer.{Unread};

    ghost Value = { Unread };

    ghost view = { λ buffer. record {
      bytes = take (buffer.to - buffer.from) (drop buffer.from buffer.bytes);
      reads = buffer.reads;
    } };

    ghost invariant = { λ buffer.
        (buffer.from ≤ buffer.to) × (buffer.to ≤ 4096) × (buffer.reads ≤ 2 ^ 62) };
}

impl ReadBuffer {
    /// Returns an empty buffer, with no reads.
    pub fn new() -> ReadBuffer
        ensures { result ≡ record { bytes = []; reads = 0 } }
    {
        ReadBuffer {
            bytes: [0; READ_LEN],
            from: 0,
            to: 0,
            reads: 0,
        }
    }

    /// Returns all bytes that were read but not yet consumed, in order.
    pub fn as_slice(&self) -> &[u8]
        ensures { result.now ≡ self.now.bytes }
    {
        &self.bytes[self.from..self.to]
    }

    /// Consumes `count` bytes from the front. `O(1)`.
    ///
    /// # Requires
    ///
    /// `count` is at most the length of [`as_slice`](Self::as_slice).
    pub fn consume(&mut self, count: usize)
        requires { count ≤ length self.old.bytes }
        ensures bytes { self.new.bytes ≡ drop count self.old.bytes }
        ensures reads { self.new.reads ≡ self.old.reads }
    {
        self.from += count;
    }

    /// Reads the source once, for up to 4,096 bytes, if the buffer is empty. Returns whether it
    /// then has bytes; false means the end of the source.
    ///
    /// # Errors
    ///
    /// `Broken::Read` if the source fails; `Broken::Turns`, without a read, after `2^62` reads. The
    /// buffer is then empty, and no byte is lost.
    pub fn fill<R: Source>(&mut self, source: &mut R) -> Result<bool, Broken>
        ensures taken { MatchResult result
            (λ more. MatchBool more
            (Takes self.old self.new (R.state source.old) (R.state source.new) [])
            (TakesLast self.old self.new (R.state source.old) (R.state source.new) []))
            (λ broken. TakesUntil broken self.old self.new
            (R.state source.old) (R.state source.new) []) }
        ensures some { MatchResult result
            (λ more. MatchBool more (0 < length self.new.bytes) (self.new.bytes ≡ []))
            (λ _. self.new.bytes ≡ []) }
    {
        if self.from < self.to {
            return Ok(true);
        }
        if self.reads == MOST_READS {
            return Err(Broken::Turns);
        }
        self.reads += 1;
        match source.read(&mut self.bytes) {
            Ok(count) => {
                self.from = 0;
                self.to = count;
                Ok(count > 0)
            }
            Err(Failed) => Err(Broken::Read),
        }
    }

    /// Consumes the next byte, and reads the source first if the buffer is empty. Returns `None` at
    /// the end of the source.
    ///
    /// # Errors
    ///
    /// Those of [`fill`](Self::fill); no byte is consumed then.
    pub fn next_byte<R: Source>(&mut self, source: &mut R) -> Result<Option<u8>, Broken>
        ensures taken { MatchResult result
            (λ byte. MatchOption byte
            (TakesLast self.old self.new (R.state source.old) (R.state source.new) [])
            (λ b. Takes self.old self.new (R.state source.old) (R.state source.new) (b ∷ [])))
            (λ broken. TakesUntil broken self.old self.new
            (R.state source.old) (R.state source.new) []) }
    {
        if !self.fill(source)? {
            return Ok(None);
        }
        let byte = self.as_slice()[0];
        self.consume(1);
        Ok(Some(byte))
    }
}
