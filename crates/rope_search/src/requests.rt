//! Reads whole commands.
ghost use Rattle.rope_search.specs.Requests.{TakesRequest, TakesRest};

use crate::command_lines::{LINE_LEN, LineRead, read_line};
use crate::commands::Header;
use crate::endings::Ended;
use crate::headers::header_of;
use crate::limits::Limits;
use crate::payloads::{Collected, arrived, collect};
use rope_search_io::{Broken, ReadBuffer, Source};
use rope_search_texts::ArrivingText;
use std::alloc::Global;

/// The result of reading a command.
#[derive(Drop)]
pub enum Request {
    /// The text of a command that sets it.
    Text(ArrivingText),
    /// Another whole command, with what was kept of its payload.
    Given(Header, Collected),
    /// How the input ended.
    End(Ended),
}

/// Reads the next command with its payload, or returns how the input ended.
pub fn read_request<R: Source>(
    read_buffer: &mut ReadBuffer,
    source: &mut R,
    alloc: Global,
    limits: Limits,
) -> Result<Request, Broken>
    ensures { TakesRequest limits.text result read_buffer.old read_buffer.new (R.state source.old)
        (R.state source.new) }
{
    let mut line = [0; LINE_LEN];
    match read_line(read_buffer, source, &mut line)? {
        LineRead::Long => Ok(Request::End(Ended::Command)),
        LineRead::Part(0) => Ok(Request::End(Ended::Input)),
        LineRead::Part(_) => Ok(Request::End(Ended::Cut)),
        LineRead::Whole(len) => match header_of(&line[..len]) {
            None => Ok(Request::End(Ended::Command)),
            Some(header) => read_rest(read_buffer, source, alloc, limits, header),
        },
    }
}

/// Reads what follows a command's line.
fn read_rest<R: Source>(
    read_buffer: &mut ReadBuffer,
    source: &mut R,
    alloc: Global,
    limits: Limits,
    header: Header,
) -> Result<Request, Broken>
    ensures { TakesRest limits.text header result read_buffer.old read_buffer.new
        (R.state source.old) (R.state source.new) }
{
    if let Header::Text(len) = header {
        return match arrived(read_buffer, source, alloc, len, limits.text)? {
            Some(text) => Ok(Request::Text(text)),
            None => Ok(Request::End(Ended::Cut)),
        };
    }
    let most = header.payload_limit(limits);
    match collect(read_buffer, source, alloc, header.payload_len(), most)? {
        Some(collected) => Ok(Request::Given(header, collected)),
        None => Ok(Request::End(Ended::Cut)),
    }
}
