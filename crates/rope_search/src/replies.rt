//! Writes the answer to a command.
ghost use Rattle.std.specs.Prelude.{◌≡◌, [], OnOk, MatchResult};
ghost use Rattle.rope_search_io.specs.WriteBuffer.{Writes, WritesUntil};
ghost use Rattle.rope_search.specs.Shows.{IsShown};

use crate::commands::Reply;
use crate::listings::{write_found, write_report};
use crate::session::Session;
use crate::texts::write_text;
use itoa::Buffer as Digits;
use rope_search_io::{Broken, Fault, Sink, WriteBuffer};

/// Writes an answer; the session is the one after the command. After an error, a prefix of the
/// answer was written.
pub fn write_answer<W: Sink>(
    session: &Session,
    answer: Result<Reply, Fault>,
    write_buffer: &mut WriteBuffer,
    sink: &mut W,
) -> Result<(), Broken>
    requires { write_buffer.old ≡ [] }
    ensures empty { OnOk result (write_buffer.new ≡ []) }
    ensures written { MatchResult result
        (λ _. IsShown session.now.state answer (Writes (W.state sink.old) (W.state sink.new)))
        (λ broken. IsShown session.now.state answer
        (WritesUntil broken (W.state sink.old) (W.state sink.new))) }
{
    let mut digits = Digits::new();
    match answer {
        Ok(Reply::Done) => write_buffer.send_parts(sink, &[b"ok\n"]),
        Ok(Reply::Number(number)) => {
            let number = digits.format(number).as_bytes();
            write_buffer.send_parts(sink, &[b"ok ", number, b"\n"])
        }
        Ok(Reply::Found(start, end)) => write_found(start, end, write_buffer, sink),
        Ok(Reply::NoMatch) => write_buffer.send_parts(sink, &[b"no match\n"]),
        Ok(Reply::List) => {
            let rows = session.buffer().report().unwrap_or(&[]);
            write_report(rows, write_buffer, sink)
        }
        Ok(Reply::Print) => write_text(session.buffer().text(), write_buffer, sink),
        Err(fault) => write_buffer.send_parts(sink, &[b"error ", fault.word().as_bytes(), b"\n"]),
    }
}
