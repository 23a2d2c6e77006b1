//! Sources of bytes.
ghost use Rattle.std.specs.Prelude.{◌≡◌, ◌+◌, ◌<◌, ◌↔◌, Option, Some, IsErr, IfOk, length, min};
ghost use Rattle.std.specs.Io.{ReadsAtMost};
ghost use Rattle.std.specs.Io.KnownBytes.{ReadConsumes};
ghost use Rattle.rope_search_io.specs.Sources.{SourceState, failures_in, narrow_in, ends_in, burnt};

use crate::faults::Failed;
use crate::fuse::burns;
use crate::read_buffer::READ_LEN;
use counters::Counter;
use std::marker::Model;

/// A source of bytes. Contracts see its bytes, if they are known, and counts: of calls, of calls
/// with room for fewer than 4,096 bytes, of failures, and of calls that reported the end.
pub trait Source {
    // The bytes that it has left, if they are known, and the counts.
    ghost state: { Self → SourceState };

    /// Reads the next bytes into the front of `buf` and returns their number: 0 at the end, or if
    /// `buf` is empty.
    ///
    /// # Errors
    ///
    /// `Failed`, and no byte is lost: the next call continues where this one started.
    fn read(&mut self, buf: &mut [u8]) -> Result<usize, Failed>
        ensures bound { ReadsAtMost result buf.new }
        ensures bytes { ReadConsumes (state self.old).left (state self.new).left result buf.new }
        ensures reads { (state self.new).reads ≡ (state self.old).reads + 1 }
        ensures narrow { (state self.new).narrow ≡ (state self.old).narrow + narrow_in buf.new }
        ensures failures { (state self.new).failures
            ≡ (state self.old).failures + failures_in result }
        ensures ends { (state self.new).ends ≡ (state self.old).ends + ends_in result buf.new };
}

/// A source of bytes in memory.
///
/// # Examples
///
/// ```rust
/// let mut source = MemorySource::new(b"rope", 3, Some(2));
/// let mut buf = [0; 8];
/// assert!(rt; source.read(&mut buf) == Ok(3));
/// assert!(rt; buf.starts_with(b"rop"));
/// // The failed call loses nothing.
/// assert!(rt; source.read(&mut buf) == Err(Failed));
/// assert!(rt; source.read(&mut buf) == Ok(1));
/// assert!(rt; buf.starts_with(b"e"));
/// assert!(rt; source.read(&mut buf) == Ok(0), "the end");
/// ```
#[derive(Drop)]
pub struct MemorySource<'a> {
    bytes: &'a [u8],
    step: usize,
    fuse: Option<u64>,
    // Read by contracts only; they take no bytes at run time.
    reads: Counter,
    narrow: Counter,
    failures: Counter,
    ends: Counter,
}

impl<'a> Model for MemorySource<'a> {
    ghost use Rattle.std.specs.Prelude.{◌≤◌};
    ghost use Rattle.rope_search_io.specs.Sources.{Reading};

    ghost Value = { Reading };

    ghost view = { λ s. record {
      left = s.bytes.now;
      step = s.step;
      fuse = s.fuse;
      reads = s.reads;
      narrow = s.narrow;
      failures = s.failures;
      ends = s.ends;
    } };

    ghost invariant = { λ s. 1 ≤ s.step };
}

impl<'a> MemorySource<'a> {
    ghost use Rattle.std.specs.Prelude.{◌≡◌, ◌≤◌};

    /// Returns a source of these bytes, which gives at most `step` bytes in a call.
    ///
    /// Call number `fail`, counted from 1, fails and loses nothing; with `None` no call fails.
    ///
    /// # Requires
    ///
    /// `step >= 1`.
    pub fn new(bytes: &'a [u8], step: usize, fail: Option<u64>) -> MemorySource<'a>
        requires { 1 ≤ step }
        ensures { result ≡ record {
          left = bytes.now;
          step = step;
          fuse = fail;
          reads = 0;
          narrow = 0;
          failures = 0;
          ends = 0;
        } }
    {
        MemorySource {
            bytes,
            step,
            fuse: fail,
            reads: Counter::new(),
            narrow: Counter::new(),
            failures: Counter::new(),
            ends: Counter::new(),
        }
    }
}

impl<'a> Source for MemorySource<'a> {
    ghost state = { λ s. record {
      left = Some s.left;
      reads = s.reads;
      narrow = s.narrow;
      failures = s.failures;
      ends = s.ends;
    } };

    fn read(&mut self, buf: &mut [u8]) -> Result<usize, Failed>
        ensures bound { ReadsAtMost result buf.new }
        ensures bytes { ReadConsumes (Some self.old.left) (Some self.new.left) result buf.new }
        ensures reads { self.new.reads ≡ self.old.reads + 1 }
        ensures narrow { self.new.narrow ≡ self.old.narrow + narrow_in buf.new }
        ensures failures { self.new.failures ≡ self.old.failures + failures_in result }
        ensures ends { self.new.ends ≡ self.old.ends + ends_in result buf.new }

        // It fails only at that call, and otherwise gives as many bytes as it may.
        ensures fails { IsErr result ↔ (self.old.fuse ≡ Some 1) }
        ensures fuse { self.new.fuse ≡ burnt self.old.fuse }
        ensures most { IfOk result (λ n. n ≡ min self.old.step
            (min (length buf.old) (length self.old.left))) }
        ensures step { self.new.step ≡ self.old.step }
    {
        self.reads.add();
        // Counted for contracts only.
        if buf.len() < READ_LEN {
            self.narrow.add();
        }
        if burns(&mut self.fuse) {
            self.failures.add();
            return Err(Failed);
        }
        let count = self.step.min(buf.len().min(self.bytes.len()));
        let (front, rest) = self.bytes.split_at(count);
        buf[..count].copy_from_slice(front);
        self.bytes = rest;
        if count == 0 && !buf.is_empty() {
            self.ends.add();
        }
        Ok(count)
    }
}
