//! The fixed buffer of bytes for a sink.
ghost use Rattle.std.specs.Prelude.{◌≡◌, ◌+◌, ◌++◌, ◌≤◌, [], length, MatchResult, OnErr};
ghost use Rattle.rope_search_io.specs.WriteBuffer.{Writes, WritesUntil, Puts, joined};

use crate::faults::{Broken, Failed};
use crate::sinks::Sink;
use std::marker::Model;

/// The number of bytes that are buffered before the sink gets them.
pub const WRITE_LEN: usize = 65_536;

/// Writes all bytes, in as many writes as the sink needs. Doesn't flush.
///
/// # Errors
///
/// `Broken::Write` if a write fails. The sink has then taken a prefix of the bytes, and nothing is
/// written afterwards.
pub fn write_all<W: Sink>(sink: &mut W, bytes: &[u8]) -> Result<(), Broken>
    ensures { MatchResult result
        (λ _. Writes (W.state sink.old) (W.state sink.new) bytes.now)
        (λ broken. WritesUntil broken (W.state sink.old) (W.state sink.new) bytes.now) }
{
    let mut done = 0;
    while done < bytes.len() {
        match sink.write(&bytes[done..]) {
            Ok(count) => done += count,
            Err(Failed) => return Err(Broken::Write),
        }
    }
    Ok(())
}

/// Buffers up to 65,536 bytes for a sink. It allocates nothing. Call [`send`](Self::send) before it
/// is dropped, or the buffered bytes are lost.
#[derive(Drop)]
pub struct WriteBuffer {
    bytes: [u8; WRITE_LEN],
    len: usize,
}

impl Model for WriteBuffer {
    ghost use Rattle.std.specs.Prelude.{◌≤◌, List, ℕ, take};

    ghost Value = { List ℕ };

    ghost view = { λ w. take w.len w.bytes };

    ghost invariant = { λ w. w.len ≤ 65536 };
}

impl WriteBuffer {
    /// Returns an empty buffer.
    pub fn new() -> WriteBuffer
        ensures { result ≡ [] }
    {
        WriteBuffer {
            bytes: [0; WRITE_LEN],
            len: 0,
        }
    }

    /// Writes the buffered bytes and empties the buffer. Doesn't flush.
    ///
    /// # Errors
    ///
    /// `Broken::Write` if the sink fails. It has then taken a prefix of the bytes, and the rest is
    /// lost.
    pub fn send<W: Sink>(&mut self, sink: &mut W) -> Result<(), Broken>
        ensures empty { self.new ≡ [] }
        ensures written { MatchResult result
            (λ _. Writes (W.state sink.old) (W.state sink.new) self.old)
            (λ broken. WritesUntil broken (W.state sink.old) (W.state sink.new) self.old) }
    {
        let len = self.len;
        self.len = 0;
        write_all(sink, &self.bytes[..len])
    }

    /// Appends bytes, and writes if there is no room for them: all buffered bytes, and the new ones
    /// too if they are more than 65,536.
    ///
    /// # Errors
    ///
    /// `Broken::Write` if the sink fails. It has then taken a prefix of all these bytes, the rest
    /// is lost, and the buffer is empty.
    #[tactic(auto, using(crate::proofs::Fronts::putting))]
    pub fn put<W: Sink>(&mut self, sink: &mut W, bytes: &[u8]) -> Result<(), Broken>
        ensures written { MatchResult result
            (λ _. Puts self.old self.new (W.state sink.old) (W.state sink.new) bytes.now)
            (λ broken. WritesUntil broken (W.state sink.old) (W.state sink.new)
            (self.old ++ bytes.now)) }
        ensures err { OnErr result (self.new ≡ []) }
    {
        if bytes.len() <= WRITE_LEN - self.len {
            self.keep(bytes);
            return Ok(());
        }
        self.send(sink)?;
        if bytes.len() <= WRITE_LEN {
            self.keep(bytes);
            return Ok(());
        }
        write_all(sink, bytes)?;
        Ok(())
    }

    /// Appends parts in order, as [`put`](Self::put) appends one.
    ///
    /// # Errors
    ///
    /// Those of `put`.
    #[tactic(auto, using(crate::proofs::Fronts::putting_parts))]
    pub fn put_parts<W: Sink>(&mut self, sink: &mut W, parts: &[&[u8]]) -> Result<(), Broken>
        ensures written { MatchResult result
            (λ _. Puts self.old self.new (W.state sink.old) (W.state sink.new) (joined parts.now))
            (λ broken. WritesUntil broken (W.state sink.old) (W.state sink.new)
            (self.old ++ joined parts.now)) }
        ensures err { OnErr result (self.new ≡ []) }
    {
        for part in parts {
            self.put(sink, part)?;
        }
        Ok(())
    }

    /// Writes the buffered bytes and then all parts, in order, and empties the buffer. Doesn't
    /// flush.
    ///
    /// # Errors
    ///
    /// `Broken::Write` if the sink fails. It has then taken a prefix of these bytes, and the rest
    /// is lost.
    #[tactic(auto, using(crate::proofs::Fronts::sending))]
    pub fn send_parts<W: Sink>(&mut self, sink: &mut W, parts: &[&[u8]]) -> Result<(), Broken>
        ensures empty { self.new ≡ [] }
        ensures written { MatchResult result
            (λ _. Writes (W.state sink.old) (W.state sink.new) (self.old ++ joined parts.now))
            (λ broken. WritesUntil broken (W.state sink.old) (W.state sink.new)
            (self.old ++ joined parts.now)) }
    {
        self.put_parts(sink, parts)?;
        self.send(sink)?;
        Ok(())
    }

    // Appends bytes for which there is room.
    fn keep(&mut self, bytes: &[u8])
        requires { length self.old + length bytes.now ≤ 65536 }
        ensures { self.new ≡ self.old ++ bytes.now }
    {
        let end = self.len + bytes.len();
        self.bytes[self.len..end].copy_from_slice(bytes);
        self.len = end;
    }
}
