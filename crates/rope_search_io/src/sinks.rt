//! Sinks of bytes.
ghost use Rattle.std.specs.Prelude.{◌≡◌, ◌+◌, ◌-◌, ◌<◌, ◌≤◌, ◌↔◌, ◌⊎◌, Option, Some, IsErr, IfOk, length, min};
ghost use Rattle.std.specs.Io.{WritesAtMost};
ghost use Rattle.std.specs.Io.KnownBytes.{Keeps, WriteAppends};
ghost use Rattle.rope_search_io.specs.Sources.{SinkState, failures_in, successes_in, left_unflushed, burnt};

use crate::faults::{Failed, Fault};
use crate::fuse::burns;
use counters::Counter;
use std::alloc::Global;
use std::marker::Model;

/// A sink of bytes. Contracts see its bytes, if they are known, and counts: of calls of `write` and
/// of `flush`, of failures, and of successful writes since the last successful flush.
pub trait Sink {
    // The bytes that it has, if they are known, and the counts.
    ghost state: { Self → SinkState };

    /// Takes bytes from the front of `bytes` and returns their number, at least one if there are
    /// any. May keep them back until a flush.
    ///
    /// # Errors
    ///
    /// `Failed`, and no byte was taken.
    fn write(&mut self, bytes: &[u8]) -> Result<usize, Failed>
        ensures bound { WritesAtMost result bytes.now }
        ensures some { IfOk result (λ n. 0 < length bytes.now → 0 < n) }
        ensures bytes { WriteAppends (state self.old).held (state self.new).held result bytes.now }
        ensures writes { (state self.new).writes ≡ (state self.old).writes + 1 }
        ensures flushes { (state self.new).flushes ≡ (state self.old).flushes }
        ensures failures { (state self.new).failures
            ≡ (state self.old).failures + failures_in result }
        ensures unflushed { (state self.new).unflushed
            ≡ (state self.old).unflushed + successes_in result };

    /// Passes on the bytes kept back.
    ///
    /// # Errors
    ///
    /// `Failed`; some of the bytes may not have been passed on, and count as unflushed.
    fn flush(&mut self) -> Result<(), Failed>
        ensures bytes { Keeps (state self.old).held (state self.new).held }
        ensures writes { (state self.new).writes ≡ (state self.old).writes }
        ensures flushes { (state self.new).flushes ≡ (state self.old).flushes + 1 }
        ensures failures { (state self.new).failures
            ≡ (state self.old).failures + failures_in result }
        ensures unflushed { (state self.new).unflushed
            ≡ left_unflushed result (state self.old).unflushed };
}

/// A sink in memory, with a fixed amount of room.
#[derive(Drop)]
pub struct MemorySink {
    bytes: Vec<u8>,
    room: usize,
    step: usize,
    fuse: Option<u64>,
    // Read by contracts only; they take no bytes at run time.
    writes: Counter,
    flushes: Counter,
    failures: Counter,
    unflushed: Counter,
}

impl Model for MemorySink {
    ghost use Rattle.std.specs.Prelude.{◌≤◌, vec_len, vec_capacity};
    ghost use Rattle.rope_search_io.specs.Sources.{Writing};

    ghost Value = { Writing };

    ghost view = { λ s. record {
      held = s.bytes.items;
      room = s.room;
      step = s.step;
      fuse = s.fuse;
      writes = s.writes;
      flushes = s.flushes;
      failures = s.failures;
      unflushed = s.unflushed;
    } };

    ghost invariant = { λ s.
        (1 ≤ s.step) × (vec_len s.bytes ≤ s.room) × (s.room ≤ vec_capacity s.bytes) };
}

impl MemorySink {
    ghost use Rattle.std.specs.Prelude.{◌≡◌, ◌≤◌, [], IfOk, IfErr};

    /// Returns a sink with room for `room` bytes, which takes at most `step` bytes in a call.
    ///
    /// Call number `fail`, counted from 1, fails, whether `write` or `flush`; with `None` no call
    /// does. A `write` of some bytes also fails if there is no room left.
    ///
    /// # Requires
    ///
    /// `step >= 1`.
    ///
    /// # Errors
    ///
    /// `Fault::Memory`.
    pub fn new(
        alloc: Global,
        room: usize,
        step: usize,
        fail: Option<u64>,
    ) -> Result<MemorySink, Fault>
        requires { 1 ≤ step }
        ensures ok { IfOk result (λ sink. sink ≡ record {
          held = [];
          room = room;
          step = step;
          fuse = fail;
          writes = 0;
          flushes = 0;
          failures = 0;
          unflushed = 0;
        }) }
        ensures err { IfErr result (λ fault. fault ≡ Fault.Memory) }
    {
        let bytes = Vec::with_capacity(alloc, room)?;
        Ok(MemorySink {
            bytes,
            room,
            step,
            fuse: fail,
            writes: Counter::new(),
            flushes: Counter::new(),
            failures: Counter::new(),
            unflushed: Counter::new(),
        })
    }

    /// Returns the bytes taken, in order.
    pub fn written(&self) -> &[u8]
        ensures { result.now ≡ self.now.held }
    {
        self.bytes.as_slice()
    }
}

impl Sink for MemorySink {
    ghost state = { λ s. record {
      held = Some s.held;
      writes = s.writes;
      flushes = s.flushes;
      failures = s.failures;
      unflushed = s.unflushed;
    } };

    fn write(&mut self, bytes: &[u8]) -> Result<usize, Failed>
        ensures bound { WritesAtMost result bytes.now }
        ensures some { IfOk result (λ n. 0 < length bytes.now → 0 < n) }
        ensures bytes { WriteAppends (Some self.old.held) (Some self.new.held) result bytes.now }
        ensures writes { self.new.writes ≡ self.old.writes + 1 }
        ensures flushes { self.new.flushes ≡ self.old.flushes }
        ensures failures { self.new.failures ≡ self.old.failures + failures_in result }
        ensures unflushed { self.new.unflushed ≡ self.old.unflushed + successes_in result }

        // It fails at that call, or if there are bytes and no room, and otherwise takes as many
        // bytes as it may.
        ensures fails { IsErr result ↔ ((self.old.fuse ≡ Some 1)
            ⊎ ((0 < length bytes.now) × (self.old.room ≤ length self.old.held))) }
        ensures most { IfOk result (λ n. n ≡ min self.old.step
            (min (length bytes.now) (self.old.room - length self.old.held))) }
        ensures fuse { self.new.fuse ≡ burnt self.old.fuse }
        ensures step { self.new.step ≡ self.old.step }
        ensures room { self.new.room ≡ self.old.room }
    {
        self.writes.add();
        if burns(&mut self.fuse) {
            self.failures.add();
            return Err(Failed);
        }
        let left = self.room - self.bytes.len();
        let count = self.step.min(bytes.len().min(left));
        if count == 0 && !bytes.is_empty() {
            self.failures.add();
            return Err(Failed);
        }
        if self.bytes.extend_from_slice(&bytes[..count]).is_err() {
            self.failures.add();
            return Err(Failed);
        }
        self.unflushed.add();
        Ok(count)
    }

    fn flush(&mut self) -> Result<(), Failed>
        ensures bytes { Keeps (Some self.old.held) (Some self.new.held) }
        ensures writes { self.new.writes ≡ self.old.writes }
        ensures flushes { self.new.flushes ≡ self.old.flushes + 1 }
        ensures failures { self.new.failures ≡ self.old.failures + failures_in result }
        ensures unflushed { self.new.unflushed ≡ left_unflushed result self.old.unflushed }

        // It fails only at that call.
        ensures fails { IsErr result ↔ (self.old.fuse ≡ Some 1) }
        ensures fuse { self.new.fuse ≡ burnt self.old.fuse }
        ensures step { self.new.step ≡ self.old.step }
        ensures room { self.new.room ≡ self.old.room }
    {
        self.flushes.add();
        if burns(&mut self.fuse) {
            self.failures.add();
            return Err(Failed);
        }
        self.unflushed = Counter::new();
        Ok(())
    }
}
