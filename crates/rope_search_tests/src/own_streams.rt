//! A custom source and sink, and a copy from one to the other.

ghost use Rattle.std.specs.Prelude.{Some};

use counters::Counter;
use rope_search_io::{Broken, Failed, Sink, Source, write_all};
use std::alloc::Global;
use std::test::Fail;

/// Gives one byte in each call.
#[derive(Drop)]
struct Typist<'a> {
    bytes: &'a [u8],
    // Read by contracts only; they take no bytes at run time.
    reads: Counter,
    narrow: Counter,
    failures: Counter,
    ends: Counter,
}

impl<'a> Typist<'a> {
    fn new(bytes: &'a [u8]) -> Typist<'a> {
        Typist {
            bytes,
            reads: Counter::new(),
            narrow: Counter::new(),
            failures: Counter::new(),
            ends: Counter::new(),
        }
    }
}

impl<'a> Source for Typist<'a> {
    ghost state = { λ typist. record {
      left = Some typist.bytes.now;
      reads = typist.reads;
      narrow = typist.narrow;
      failures = typist.failures;
      ends = typist.ends;
    } };

    fn read(&mut self, buf: &mut [u8]) -> Result<usize, Failed> {
        self.reads.add();
        if buf.len() < 4096 {
            self.narrow.add();
        }
        let count = buf.len().min(self.bytes.len()).min(1);
        let (typed, rest) = self.bytes.split_at(count);
        buf[..count].copy_from_slice(typed);
        self.bytes = rest;
        if count == 0 && !buf.is_empty() {
            self.ends.add();
        }
        Ok(count)
    }
}

/// Prints what it is given, in each call at most one page, as long as there are pages.
#[derive(Drop)]
struct Printer {
    printed: Vec<u8>,
    pages: usize,
    writes: Counter,
    flushes: Counter,
    failures: Counter,
    unflushed: Counter,
}

impl Printer {
    fn new(alloc: Global, pages: usize) -> Printer {
        Printer {
            printed: Vec::new(alloc),
            pages,
            writes: Counter::new(),
            flushes: Counter::new(),
            failures: Counter::new(),
            unflushed: Counter::new(),
        }
    }
}

/// The number of bytes of a page.
const PAGE: usize = 5;

impl Sink for Printer {
    ghost state = { λ printer. record {
      held = Some printer.printed.items;
      writes = printer.writes;
      flushes = printer.flushes;
      failures = printer.failures;
      unflushed = printer.unflushed;
    } };

    fn write(&mut self, bytes: &[u8]) -> Result<usize, Failed> {
        self.writes.add();
        let count = bytes.len().min(PAGE);
        if self.pages == 0 || self.printed.extend_from_slice(&bytes[..count]).is_err() {
            self.failures.add();
            return Err(Failed);
        }
        self.pages -= 1;
        self.unflushed.add();
        Ok(count)
    }

    fn flush(&mut self) -> Result<(), Failed> {
        self.flushes.add();
        self.unflushed = Counter::new();
        Ok(())
    }
}

const TEXT: &[u8] = b"a few words, in bytes";

/// Copies what a source gives to a sink, up to its end or the first failure.
fn copy(source: &mut Typist, sink: &mut Printer) -> Result<(), Broken> {
    for _ in 0..100 {
        let mut room = [0; 3];
        match source.read(&mut room) {
            Ok(0) => return Ok(()),
            Ok(count) => write_all(sink, &room[..count])?,
            Err(Failed) => return Err(Broken::Read),
        }
    }
    Ok(())
}

#[test]
fn bytes_from_a_source_to_a_sink_of_ones_own(rt: HostRuntime) -> Result<(), Fail> {
    for pages in 0..22 {
        let mut printer = Printer::new(rt.alloc(), pages);
        let result = copy(&mut Typist::new(TEXT), &mut printer);
        // A page for each byte.
        assert!(rt; printer.printed.as_slice() == &TEXT[..pages.min(TEXT.len())]);
        assert!(rt; result.is_ok() == (TEXT.len() <= pages));
    }
    let mut printer = Printer::new(rt.alloc(), 5);
    assert!(rt; write_all(&mut printer, TEXT).is_ok());
    assert!(rt; printer.printed.as_slice() == TEXT && printer.pages == 0);
    Ok(())
}
