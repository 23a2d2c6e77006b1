//! Why a command is refused, and why a run broke off.
use std::alloc::{AllocError, AllocFailed};
use std::fmt;

/// Why a command is refused. The session, its buffers and their reports are then unchanged.
///
/// If several faults apply, the one with the least number is reported. `Display` shows the word.
#[derive(Clone, Copy, Debug, PartialEq, Eq, Hash)]
pub enum Fault {
    /// There is no such buffer, no pattern, or no text to undo or redo to.
    Nothing = 1,
    /// A position isn't in the text, or the second one is before the first.
    Range = 2,
    /// The payload isn't UTF-8.
    Utf8 = 3,
    /// The payload isn't a pattern.
    Pattern = 4,
    /// The pattern is too long or too heavy.
    Limit = 5,
    /// The new text would exceed the limit of bytes.
    Size = 6,
    /// Out of memory.
    Memory = 7,
}

impl Fault {
    ghost use Rattle.std.specs.Prelude.{◌≡◌};
    ghost use Rattle.rope_search_io.specs.Faults.{word_of, rank_of};

    /// Returns the number of the fault, from 1. If several faults apply to a command, the one with
    /// the least is reported.
    pub fn rank(self) -> u8
        ensures { result ≡ rank_of self }
    {
        self as u8
    }

    /// Returns the word that follows `error` and a space in a reply.
    pub fn word(self) -> &'static str
        ensures { result.now ≡ word_of self }
    {
        match self {
            Fault::Nothing => "none",
            Fault::Range => "range",
            Fault::Utf8 => "utf8",
            Fault::Pattern => "pattern",
            Fault::Limit => "limit",
            Fault::Size => "size",
            Fault::Memory => "memory",
        }
    }
}

impl fmt::Display for Fault {
    ghost use Rattle.std.specs.Prelude.{Some};
    ghost use Rattle.rope_search_io.specs.Faults.{word_of};

    ghost output = { λ fault. Some (word_of fault) };

    fn fmt<W: fmt::Write>(&self, f: &mut fmt::Formatter<W>) -> fmt::Result {
        f.write_str(self.word())
    }
}

/// Lets `?` turn a failed allocation into `Fault::Memory`.
impl From<AllocError> for Fault {
    ghost use Rattle.std.specs.Prelude.{◌≡◌};
    ghost use Rattle.rope_search_io.specs.declared.faults.Fault.TheVariants.{Memory};

    ghost from_gives = { λ _ fault. fault ≡ Memory };

    fn from(_: AllocError) -> Fault {
        Fault::Memory
    }
}

/// The same for calls that return the value for which there was no room. The value is dropped.
impl<T: Drop> From<AllocFailed<T>> for Fault {
    ghost use Rattle.std.specs.Prelude.{◌≡◌};
    ghost use Rattle.rope_search_io.specs.declared.faults.Fault.TheVariants.{Memory};

    ghost from_gives = { λ _ fault. fault ≡ Memory };

    fn from(_: AllocFailed<T>) -> Fault {
        Fault::Memory
    }
}

/// A source gave no bytes, or a sink took none, though it should have. It is reported once and
/// never retried here. No byte is lost.
#[derive(Clone, Copy, Debug, PartialEq, Eq, Hash)]
pub struct Failed;

/// Why a run broke off.
#[derive(Clone, Copy, Debug, PartialEq, Eq, Hash)]
pub enum Broken {
    /// The source failed. All replies to complete commands are written, and the sink wasn't
    /// flushed.
    Read,
    /// The sink failed. In a write: a prefix of the replies, followed by the ending's line if the
    /// end was reached, is written. In the flush at the end: all of these are.
    Write,
    /// The source was read `2^62` times. All replies to complete commands are written, and the sink
    /// wasn't flushed.
    Turns,
    /// Out of memory for the first session. Nothing was read or written.
    Memory,
}
