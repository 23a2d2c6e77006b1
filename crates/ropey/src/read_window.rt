//! The fixed buffer through which a reader is read.

ghost use Rattle.std.specs.Prelude.{◌≡◌, ℕ, List, ◌<◌, ◌≤◌, ◌++◌, ◌==◌, [], length, take, Ok, Err, IfOk, OnOk, OnErr, IfErr, MatchBool};
ghost use Rattle.std.specs.Prelude.{Option, encode_utf8_all};
ghost use Rattle.std.specs.Str.{IsUtf8, chars};
ghost use Rattle.std.specs.Io.KnownBytes.{Keeps};
ghost use Rattle.ropey.specs.Reading.{BeginsText, IsCutAt, MeetsFault, GivesToEnd, GivesMore};

use crate::read_fault::ReadFault;
use crate::rope_builder::RopeBuilder;
use ropey_tree::error::Error;
use simdutf8::compat::from_utf8;
use std::io::Read;
use std::marker::Model;

/// The size of the buffer in bytes. Bytes of a split character, kept from the last read, take part
/// of it.
const READ_LEN: usize = 4096;

/// The most bytes of a split character.
const MOST_CUT: usize = 3;

/// Bytes that were read but not yet added to the text. Contracts see them as a list.
#[derive(Drop)]
pub(crate) struct ReadWindow {
    bytes: [u8; READ_LEN],
    len: usize,
}

impl Model for ReadWindow {
    ghost use Rattle.std.specs.Prelude.{ℕ, List, ◌≤◌, take};

    ghost Value = { List ℕ };

    ghost view = { λ window. take window.len window.bytes };

    ghost invariant = { λ window. window.len ≤ 4096 };
}

impl ReadWindow {
    /// Returns an empty window.
    pub(crate) fn new() -> Self
        ensures { result ≡ [] }
    {
        ReadWindow {
            bytes: [0; READ_LEN],
            len: 0,
        }
    }

    /// Returns whether there are no bytes.
    pub(crate) fn is_empty(&self) -> bool
        ensures { result ≡ (length self.now == 0) }
    {
        self.len == 0
    }

    /// Reads once, appends the bytes, and returns whether there were any: none means the end.
    pub(crate) fn read<R: Read>(&mut self, reader: &mut R) -> Result<bool, ReadFault>
        requires { length self.old < 4 }
        ensures ok { IfOk result (λ some. MatchBool some
            (GivesMore (R.remaining reader.old) (R.remaining reader.new) self.old self.new)
            ((self.new ≡ self.old) ×
            GivesToEnd (R.remaining reader.old) (R.remaining reader.new) [])) }
        ensures refused { IfErr result (λ fault. fault ≡ ReadFault.Read) }
        ensures kept { OnErr result (Keeps (R.remaining reader.old) (R.remaining reader.new)) }
    {
        match reader.read(&mut self.bytes[self.len..]) {
            Ok(count) => {
                self.len += count;
                Ok(count > 0)
            }
            Err(_) => Err(ReadFault::Read),
        }
    }

    /// Appends the longest valid text to the builder. What remains is empty or a part of a
    /// character.
    pub(crate) fn give_text(&mut self, builder: &mut RopeBuilder) -> Result<(), ReadFault>
        requires { IsUtf8 (encode_utf8_all builder.old) }
        ensures text { OnOk result ((text : List ℕ) × IsCutAt self.old text self.new ×
            (builder.new ≡ builder.old ++ chars text)) }
        ensures fault { IfErr result (λ fault. (left : Option (List ℕ)) →
            MeetsFault fault (encode_utf8_all builder.old ++ self.old) left) }
    {
        let text = longest_text(&self.bytes[..self.len])?;
        let end = text.len();
        match builder.append(text) {
            Ok(()) => {}
            Err(Error::Size) => return Err(ReadFault::Size),
            Err(_) => return Err(ReadFault::Memory),
        }
        // The old and the new range of the part may overlap.
        let part_len = self.len - end;
        let mut part = [0; MOST_CUT];
        part[..part_len].copy_from_slice(&self.bytes[end..self.len]);
        self.bytes[..part_len].copy_from_slice(&part[..part_len]);
        self.len = part_len;
        Ok(())
    }
}

/// Returns the longest valid text at the front of bytes that some text begins with. What follows it
/// is a part of a character.
fn longest_text(bytes: &[u8]) -> Result<&str, ReadFault>
    ensures text { IfOk result (λ text. (rest : List ℕ) × IsCutAt bytes.now text.now rest) }
    ensures refused { IfErr result (λ fault. fault ≡ ReadFault.Utf8) }
    ensures none { OnErr result (BeginsText bytes.now → ⊥) }
{
    match from_utf8(bytes) {
        Ok(text) => Ok(text),
        Err(error) => {
            if error.error_len().is_some() {
                return Err(ReadFault::Utf8);
            }
            // SAFETY: `from_utf8` has found this prefix valid.
            Ok(unsafe { str::from_utf8_unchecked(&bytes[..error.valid_up_to()]) })
        }
    }
}
