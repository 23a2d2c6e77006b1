//! Readers and writers of std as sources and sinks.
ghost use Rattle.std.specs.Prelude.{◌≡◌, ◌<◌};

use crate::faults::Failed;
use crate::read_buffer::READ_LEN;
use crate::sinks::Sink;
use crate::sources::Source;
use counters::Counter;
use std::io::{Read, Write};

/// A reader of std as a source, or a writer as a sink.
///
/// Each call is one call of the inner reader or writer, with the same bytes or the same room. Each
/// error is a failure, which is returned and not retried, even that of an interrupted call. A write
/// that takes none of some bytes is a failure too. The bytes are specified if those of the inner
/// reader or writer are.
#[derive(Drop)]
pub struct Device<D> {
    inner: D,
    // Read by contracts only; they take no bytes at run time.
    reads: Counter,
    narrow: Counter,
    ends: Counter,
    writes: Counter,
    flushes: Counter,
    unflushed: Counter,
    failures: Counter,
}

impl<D> Device<D> {
    ghost use Rattle.std.specs.Prelude.{◌≡◌};
    ghost use Rattle.rope_search_io.specs.Device.{under, IsUncounted};

    /// Returns a device over `inner`, with all counts at 0. Allocates nothing. Over `&mut D` the
    /// caller keeps the inner reader or writer.
    pub fn new(inner: D) -> Device<D>
        ensures inner { under result ≡ inner }
        ensures counts { IsUncounted result }
    {
        Device {
            inner,
            reads: Counter::new(),
            narrow: Counter::new(),
            ends: Counter::new(),
            writes: Counter::new(),
            flushes: Counter::new(),
            unflushed: Counter::new(),
            failures: Counter::new(),
        }
    }
}

impl<D: Read> Source for Device<D> {
    ghost state = { λ d. record {
      left = D.remaining d.inner;
      reads = d.reads;
      narrow = d.narrow;
      failures = d.failures;
      ends = d.ends;
    } };

    fn read(&mut self, buf: &mut [u8]) -> Result<usize, Failed> {
        self.reads.add();
        // Counted for contracts only.
        if buf.len() < READ_LEN {
            self.narrow.add();
        }
        match self.inner.read(buf) {
            Ok(count) => {
                if count == 0 && !buf.is_empty() {
                    self.ends.add();
                }
                Ok(count)
            }
            Err(_) => {
                self.failures.add();
                Err(Failed)
            }
        }
    }
}

impl<D: Write> Sink for Device<D> {
    ghost state = { λ d. record {
      held = D.contents d.inner;
      writes = d.writes;
      flushes = d.flushes;
      failures = d.failures;
      unflushed = d.unflushed;
    } };

    fn write(&mut self, bytes: &[u8]) -> Result<usize, Failed> {
        self.writes.add();
        match self.inner.write(bytes) {
            Ok(count) if count > 0 || bytes.is_empty() => {
                self.unflushed.add();
                Ok(count)
            }
            // A writer that takes none of some bytes would never take them, so this is a failure
            // too.
            _ => {
                self.failures.add();
                Err(Failed)
            }
        }
    }

    fn flush(&mut self) -> Result<(), Failed> {
        self.flushes.add();
        match self.inner.flush() {
            Ok(()) => {
                self.unflushed = Counter::new();
                Ok(())
            }
            Err(_) => {
                self.failures.add();
                Err(Failed)
            }
        }
    }
}
