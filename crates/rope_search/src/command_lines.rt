//! Reading a command's line.
ghost use Rattle.rope_search.specs.Requests.{TakesLine};

use rope_search_io::{Broken, ReadBuffer, Source};

/// A line with this many bytes before its LF is too long for a command.
pub const LINE_LEN: usize = 129;

/// The result of reading a line.
#[derive(Clone, Copy, Debug, PartialEq, Eq)]
pub enum LineRead {
    /// That many bytes, at most 128, followed by an LF.
    Whole(usize),
    /// 129 bytes without an LF.
    Long,
    /// That many bytes, at most 128, without an LF before the end of the input.
    Part(usize),
}

/// Reads a line, without its LF, into the front of `line`.
pub fn read_line<R: Source>(
    read_buffer: &mut ReadBuffer,
    source: &mut R,
    line: &mut [u8; LINE_LEN],
) -> Result<LineRead, Broken>
    ensures { TakesLine result line.new read_buffer.old read_buffer.new (R.state source.old)
        (R.state source.new) }
{
    for len in 0..LINE_LEN {
        match read_buffer.next_byte(source)? {
            Some(b'\n') => return Ok(LineRead::Whole(len)),
            Some(byte) => line[len] = byte,
            None => return Ok(LineRead::Part(len)),
        }
    }
    Ok(LineRead::Long)
}
