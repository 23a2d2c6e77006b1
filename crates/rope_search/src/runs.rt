//! A whole run, from the bytes read to the bytes written.
ghost use Rattle.std.specs.Prelude.{◌≡◌, ◌+◌, ◌^◌, ◌<◌, ◌≤◌, ◌↔◌, [], Err, OnOk};
ghost use Rattle.rope_search.specs.Shows.{closing};
ghost use Rattle.rope_search.specs.Runs.{AnswersWhole, Ran, TakesTurn, Closes};

use crate::endings::Ended;
use crate::laws;
use crate::limits::Limits;
use crate::replies::write_answer;
use crate::requests::{Request, read_request};
use crate::session::Session;
use rope_search_io::{Broken, Failed, ReadBuffer, Sink, Source, WriteBuffer};
use rope_search_reports::Lines;
use std::alloc::Global;

/// Reads commands up to the end of the input and writes their replies, with the default limits: a
/// text has at most 1,073,741,824 bytes. For the result and errors see `run_limited`.
pub fn run<R: Source, W: Sink>(
    tick: &mut Lines,
    alloc: Global,
    reader: &mut R,
    writer: &mut W,
) -> Result<Ended, Broken>
    ensures answers { AnswersWhole (2 ^ 30) result (R.state reader.old)
        (W.state writer.old) (W.state writer.new) tick.old tick.new }
    ensures ran { Ran (2 ^ 30) result (R.state reader.old) (R.state reader.new)
        (W.state writer.old) (W.state writer.new) tick.old tick.new }

    ensures read { (result ≡ Err Broken.Read)
        ↔ ((R.state reader.old).failures < (R.state reader.new).failures) }
    ensures write { (result ≡ Err Broken.Write)
        ↔ ((W.state writer.old).failures < (W.state writer.new).failures) }
    ensures turns { result ≡ Err Broken.Turns
        → (R.state reader.old).reads + 2 ^ 62 ≤ (R.state reader.new).reads }
{
    run_limited(tick, alloc, reader, writer, Limits::default())
}

/// Reads commands up to the end of the input and writes their replies, with these limits. Each
/// reply is written whole before the next command is executed. At the end the ending's line is
/// written and the sink is flushed, once. Returns how the input ended. Each read has room for 4,096
/// bytes; no read follows the one that reports the end.
///
/// # Errors
///
/// `Broken` says which call failed first, and what was written by then. No call follows it.
pub fn run_limited<R: Source, W: Sink>(
    tick: &mut Lines,
    alloc: Global,
    reader: &mut R,
    writer: &mut W,
    limits: Limits,
) -> Result<Ended, Broken>
    // If it ends, its output is an answer to the whole input, whatever the reads. It made at most
    // the rows of that answer's cost and the whole searches of its commands, and flushed once,
    // after all output.
    ensures answers { AnswersWhole limits.text result (R.state reader.old)
        (W.state writer.old) (W.state writer.new) tick.old tick.new }

    // The same in terms of the bytes that were read, with the state after each fault.
    ensures ran { Ran limits.text result (R.state reader.old) (R.state reader.new)
        (W.state writer.old) (W.state writer.new) tick.old tick.new }

    // It fails exactly if the source or the sink counted a fault.
    ensures read { (result ≡ Err Broken.Read)
        ↔ ((R.state reader.old).failures < (R.state reader.new).failures) }
    ensures write { (result ≡ Err Broken.Write)
        ↔ ((W.state writer.old).failures < (W.state writer.new).failures) }
    ensures turns { result ≡ Err Broken.Turns
        → (R.state reader.old).reads + 2 ^ 62 ≤ (R.state reader.new).reads }
{
    run_turns(tick, alloc, reader, writer, limits)
}

/// Runs all turns, from the first session to the ending.
fn run_turns<R: Source, W: Sink>(
    tick: &mut Lines,
    alloc: Global,
    reader: &mut R,
    writer: &mut W,
    limits: Limits,
) -> Result<Ended, Broken>
    ensures { Ran limits.text result (R.state reader.old) (R.state reader.new)
        (W.state writer.old) (W.state writer.new) tick.old tick.new }
{
    let Ok(mut session) = Session::new(alloc, limits) else {
        return Err(Broken::Memory);
    };
    // For the proof: laws, so that the replies that a failed write kept back are known.
    laws::known();
    rope_search_reports::laws::has_report();
    let mut read_buffer = ReadBuffer::new();
    let mut write_buffer = WriteBuffer::new();
    loop {
        match turn(
            tick,
            &mut session,
            &mut read_buffer,
            reader,
            &mut write_buffer,
            writer,
        )? {
            None => {}
            Some(ending) => {
                close(ending, &mut write_buffer, writer)?;
                return Ok(ending);
            }
        }
    }
}

/// Reads one command, executes it and writes its reply; or returns how the input ended.
fn turn<R: Source, W: Sink>(
    tick: &mut Lines,
    session: &mut Session,
    read_buffer: &mut ReadBuffer,
    reader: &mut R,
    write_buffer: &mut WriteBuffer,
    writer: &mut W,
) -> Result<Option<Ended>, Broken>
    requires empty { write_buffer.old ≡ [] }
    ensures limit { session.new.limit ≡ session.old.limit }
    ensures empty { OnOk result (write_buffer.new ≡ []) }
    ensures taken { TakesTurn session.old.limit result
        (record {
          session = session.old.state;
          buffer = read_buffer.old;
          source = R.state reader.old;
          sink = W.state writer.old;
          ticks = tick.old;
        })
        (record {
          session = session.new.state;
          buffer = read_buffer.new;
          source = R.state reader.new;
          sink = W.state writer.new;
          ticks = tick.new;
        }) }
{
    // For the proof: a law, that each command has a cost, and the session's facts.
    laws::known();
    let _ = session.buffer();
    let alloc = session.alloc();
    let limits = session.limits();
    match read_request(read_buffer, reader, alloc, limits)? {
        Request::End(ending) => Ok(Some(ending)),
        Request::Text(text) => {
            let answer = session.set_arrived(tick, text);
            write_answer(session, answer, write_buffer, writer)?;
            Ok(None)
        }
        Request::Given(header, collected) => {
            let answer = session.apply(tick, header.with(collected.payload()));
            write_answer(session, answer, write_buffer, writer)?;
            Ok(None)
        }
    }
}

/// Returns the last line.
fn closing_line(ending: Ended) -> &'static [u8]
    ensures { result.now ≡ closing ending }
{
    match ending {
        Ended::Input => b"",
        Ended::Command => b"error command\n",
        Ended::Cut => b"error end\n",
    }
}

/// Writes the last line, and flushes.
fn close<W: Sink>(
    ending: Ended,
    write_buffer: &mut WriteBuffer,
    writer: &mut W,
) -> Result<(), Broken>
    requires { write_buffer.old ≡ [] }
    ensures { Closes result ending (W.state writer.old) (W.state writer.new) }
{
    write_buffer.send_parts(writer, &[closing_line(ending)])?;
    match writer.flush() {
        Ok(()) => Ok(()),
        Err(Failed) => Err(Broken::Write),
    }
}
