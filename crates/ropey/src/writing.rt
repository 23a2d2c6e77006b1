//! Writing a rope to a writer.

ghost use Rattle.std.specs.Prelude.{OnOk, OnErr, encode_utf8_all};
ghost use Rattle.std.specs.Io.KnownBytes.{Appends};
ghost use Rattle.ropey.specs.Chunks.{text_of};
ghost use Rattle.ropey.specs.Writing.{AppendsFront};

use crate::rope::Rope;
use std::io;
use std::io::{ErrorKind, Write};

/// Writes all bytes. After an error the writer has taken a prefix of them.
fn write_bytes<W: Write>(writer: &mut W, bytes: &[u8]) -> io::Result<()>
    ensures ok { OnOk result
        (Appends (W.contents writer.old) (W.contents writer.new) bytes.now) }
    ensures err { OnErr result
        (AppendsFront (W.contents writer.old) (W.contents writer.new) bytes.now) }
{
    let mut done = 0;
    while done < bytes.len() {
        match writer.write(&bytes[done..])? {
            0 => return Err(io::Error::from(ErrorKind::WriteZero)),
            count => done += count,
        }
    }
    Ok(())
}

impl Rope {
    /// Writes the text's bytes to a writer, chunk by chunk, in as many writes as needed. Doesn't
    /// flush. `O(n)`.
    ///
    /// # Errors
    ///
    /// The writer's first error, also `Interrupted`; `WriteZero` if it takes none of some bytes.
    /// Nothing is written after an error. The writer has then taken a prefix of the text's bytes,
    /// which may end inside a character.
    pub fn write_to<W: Write>(&self, writer: &mut W) -> io::Result<()>
        ensures ok { OnOk result (Appends (W.contents writer.old) (W.contents writer.new)
            (encode_utf8_all (text_of self.now))) }
        ensures err { OnErr result (AppendsFront (W.contents writer.old) (W.contents writer.new)
            (encode_utf8_all (text_of self.now))) }
    {
        for chunk in self.chunks() {
            write_bytes(writer, chunk.as_bytes())?;
        }
        Ok(())
    }
}
