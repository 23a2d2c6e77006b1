//! Writes texts.
ghost use Rattle.std.specs.Prelude.{◌≡◌, [], ◌++◌, OnOk, MatchResult};
ghost use Rattle.rope_search_io.specs.WriteBuffer.{Puts, Writes, WritesUntil};
ghost use Rattle.rope_search_reports.specs.Text.{bytes_of};
ghost use Rattle.ropey.specs.Chunks.{text_of};
ghost use Rattle.rope_search.specs.Shows.{shown_text};

use itoa::Buffer as Digits;
use rope_search_io::{Broken, Sink, WriteBuffer};
use ropey::Rope;

/// Appends a text to the buffered bytes, chunk by chunk. After an error, a prefix of the buffered
/// bytes and the text was written.
fn put_text<W: Sink>(
    text: &Rope,
    write_buffer: &mut WriteBuffer,
    sink: &mut W,
) -> Result<(), Broken>
    ensures written { MatchResult result
        (λ _. Puts write_buffer.old write_buffer.new (W.state sink.old) (W.state sink.new)
        (bytes_of (text_of text.now)))
        (λ broken. WritesUntil broken (W.state sink.old) (W.state sink.new)
        (write_buffer.old ++ bytes_of (text_of text.now))) }
{
    for chunk in text.chunks() {
        write_buffer.put(sink, chunk.as_bytes())?;
    }
    Ok(())
}

/// Writes a text: its number of bytes, followed by these. After an error, a prefix of that was
/// written.
pub fn write_text<W: Sink>(
    text: &Rope,
    write_buffer: &mut WriteBuffer,
    sink: &mut W,
) -> Result<(), Broken>
    requires { write_buffer.old ≡ [] }
    ensures empty { OnOk result (write_buffer.new ≡ []) }
    ensures written { MatchResult result
        (λ _. Writes (W.state sink.old) (W.state sink.new)
        (shown_text (bytes_of (text_of text.now))))
        (λ broken. WritesUntil broken (W.state sink.old) (W.state sink.new)
        (shown_text (bytes_of (text_of text.now)))) }
{
    let mut digits = Digits::new();
    let len = digits.format(text.len_bytes()).as_bytes();
    write_buffer.put_parts(sink, &[b"text ", len, b"\n"])?;
    put_text(text, write_buffer, sink)?;
    write_buffer.send_parts(sink, &[b"\n"])
}
