//! Examples of sources and sinks of bytes, one for each type.
use rope_search::{
    ArrivingText, Broken, Device, Failed, Fault, MemorySink, MemorySource, Sink, Source,
};
use rope_search_io::{ReadBuffer, Utf8Judge, WriteBuffer, write_all};
use std::test::Fail;

/// A source in memory gives at most `step` bytes in a call, and fails at one call.
#[test]
fn a_memory_source(rt: HostRuntime) -> Result<(), Fail> {
    let mut source = MemorySource::new(b"rope", 3, Some(2));
    let mut buf = [0; 8];
    assert!(rt; source.read(&mut buf) == Ok(3));
    assert!(rt; buf.starts_with(b"rop"));
    // The failed call loses nothing.
    assert!(rt; source.read(&mut buf) == Err(Failed));
    assert!(rt; source.read(&mut buf) == Ok(1));
    assert!(rt; buf.starts_with(b"e"));
    assert!(rt; source.read(&mut buf) == Ok(0), "the end");
    Ok(())
}

/// A sink in memory takes at most `step` bytes in a call, and no more than it has room for.
#[test]
fn a_memory_sink(rt: HostRuntime) -> Result<(), Fail> {
    let mut sink = MemorySink::new(rt.alloc(), 4, 3, None)?;
    assert!(rt; sink.write(b"ropes") == Ok(3));
    assert!(rt; sink.write(b"es") == Ok(1));
    assert!(rt; sink.write(b"s") == Err(Failed), "its room is full");
    assert!(rt; sink.flush() == Ok(()));
    assert!(rt; sink.written() == b"rope".as_slice());
    Ok(())
}

/// A device is a source over any reader of std, and a sink over any writer.
#[test]
fn a_device(rt: HostRuntime) -> Result<(), Fail> {
    let mut written = Vec::new(rt.alloc());
    assert!(rt; write_all(&mut Device::new(&mut written), b"rope") == Ok(()));
    let mut reader = Device::new(written.as_slice());
    let mut buf = [0; 8];
    assert!(rt; reader.read(&mut buf) == Ok(4));
    assert!(rt; buf.starts_with(b"rope"));
    assert!(rt; reader.read(&mut buf) == Ok(0), "the end");
    Ok(())
}

/// Bytes are consumed from a read buffer one by one, or many at once; it reads its source when it
/// is empty.
#[test]
fn a_read_buffer(rt: HostRuntime) -> Result<(), Fail> {
    let mut source = MemorySource::new(b"rope", 4096, None);
    let mut buffer = ReadBuffer::new();
    assert!(rt; buffer.next_byte(&mut source) == Ok(Some(b'r')));
    assert!(rt; buffer.fill(&mut source) == Ok(true));
    assert!(rt; buffer.as_slice() == b"ope".as_slice());
    let count = buffer.as_slice().len();
    buffer.consume(count);
    assert!(rt; buffer.next_byte(&mut source) == Ok(None), "the end");
    Ok(())
}

/// Bytes stay in a write buffer until they are sent, or until there is no room for more.
#[test]
fn a_write_buffer(rt: HostRuntime) -> Result<(), Fail> {
    let mut sink = MemorySink::new(rt.alloc(), 8, 4096, None)?;
    let mut buffer = WriteBuffer::new();
    assert!(rt; buffer.put(&mut sink, b"ro") == Ok(()));
    assert!(rt; buffer.put_parts(&mut sink, &[b"p", b"e"]) == Ok(()));
    assert!(rt; sink.written().is_empty());
    assert!(rt; buffer.send(&mut sink) == Ok(()));
    assert!(rt; sink.written() == b"rope".as_slice());
    let more: &[u8] = b"slice";
    assert!(rt; buffer.send_parts(&mut sink, &[more]) == Err(Broken::Write));
    assert!(rt; sink.written() == b"ropeslic".as_slice(), "a front of it");
    Ok(())
}

/// UTF-8 is checked in parts, which may split characters.
#[test]
fn a_utf8_judge(rt: HostRuntime) {
    let mut judge = Utf8Judge::new();
    judge.feed(b"a\xc3");
    assert!(rt; !judge.is_utf8(), "a part of a character");
    judge.feed(b"\xa9b");
    assert!(rt; judge.is_utf8());
    judge.feed(b"\xff");
    assert!(rt; !judge.is_utf8());
}

/// A text arrives in parts, which may split characters. It is a rope in the end, or refused.
#[test]
fn an_arriving_text(rt: HostRuntime) -> Result<(), Fail> {
    let mut text = ArrivingText::new(rt.alloc(), 6, 100);
    // A part may end inside a character.
    text.append(b"a \xF0\x9F");
    text.append(b"\x90\xB8");
    assert!(rt; text.finish()?.eq_str("a 🐸"));
    let mut text = ArrivingText::new(rt.alloc(), 2, 100);
    text.append(b"a\xC3");
    assert!(rt;
        text.finish().is_err_and(|fault| fault == Fault::Utf8),
        "a part of a character"
    );
    let mut text = ArrivingText::new(rt.alloc(), 2, 1);
    text.append(b"ab");
    assert!(rt;
        text.finish().is_err_and(|fault| fault == Fault::Size),
        "over the limit"
    );
    Ok(())
}

/// So does one whose number of bytes isn't known in advance; whether it is over the limit is known
/// at once.
#[test]
fn an_arriving_text_of_any_length(rt: HostRuntime) -> Result<(), Fail> {
    let mut text = ArrivingText::open(rt.alloc());
    text.append_within(b"a \xF0\x9F", 6);
    text.append_within(b"\x90\xB8", 6);
    assert!(rt; text.check() == Ok(()));
    assert!(rt; text.finish()?.eq_str("a 🐸"));
    let mut text = ArrivingText::open(rt.alloc());
    text.append_within(b"a", 1);
    text.append_within(b"\xC3", 1);
    assert!(rt; text.check() == Err(Fault::Size));
    assert!(rt;
        text.finish().is_err_and(|fault| fault == Fault::Utf8),
        "no text, however long"
    );
    Ok(())
}

/// A fault is shown by its word. Of the faults that apply to a command, the one with the least rank
/// is reported.
#[test]
fn a_fault(rt: HostRuntime) -> Result<(), Fail> {
    let cases = [
        (Fault::Nothing, "none", 1),
        (Fault::Range, "range", 2),
        (Fault::Utf8, "utf8", 3),
        (Fault::Pattern, "pattern", 4),
        (Fault::Limit, "limit", 5),
        (Fault::Size, "size", 6),
        (Fault::Memory, "memory", 7),
    ];
    for (fault, word, rank) in cases {
        let text = format!(in rt.alloc(); "error {fault}")?;
        assert!(rt; text.strip_prefix("error ") == Some(word) && fault.word() == word);
        assert!(rt; fault.rank() == rank);
    }
    Ok(())
}
