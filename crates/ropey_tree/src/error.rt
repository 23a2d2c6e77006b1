//! Why a call on a rope fails.

ghost use Rattle.std.specs.Prelude.{◌≡◌};
ghost use Rattle.ropey_tree.specs.declared.error.Error.TheVariants.{Memory};

use std::alloc::{AllocError, AllocFailed};
use thiserror::Error;

/// Why a call fails. What it was called on is unchanged.
#[derive(Clone, Copy, Debug, PartialEq, Eq, Error)]
pub enum Error {
    /// A byte index past the end: the index, and the text's length in bytes.
    #[error("byte index {0} is past the {1} bytes of the text")]
    ByteIndexOutOfBounds(usize, usize),
    /// A character index past the end: the index, and the number of characters.
    #[error("character index {0} is past the {1} characters of the text")]
    CharIndexOutOfBounds(usize, usize),
    /// A line index past the end: the index, and the number of lines.
    #[error("line index {0} is past the {1} lines of the text")]
    LineIndexOutOfBounds(usize, usize),
    /// A UTF-16 code unit index past the end: the index, and the number of units.
    #[error("UTF-16 code unit index {0} is past the {1} units of the text")]
    Utf16IndexOutOfBounds(usize, usize),
    /// A range of characters that starts past its end: the start, and the end, exclusive.
    #[error("character range starts at {0}, above its end at {1}")]
    CharRangeInvalid(usize, usize),
    /// A range of bytes that starts past its end: the start, and the end, exclusive.
    #[error("byte range starts at {0}, above its end at {1}")]
    ByteRangeInvalid(usize, usize),
    /// A range of characters that goes past the end: its start and its end, exclusive, each `None`
    /// if it is open, and the number of characters.
    #[error("character range goes past the {2} characters of the text")]
    CharRangeOutOfBounds(Option<usize>, Option<usize>, usize),
    /// A range of bytes that goes past the end: its start and its end, exclusive, each `None` if it
    /// is open, and the text's length in bytes.
    #[error("byte range goes past the {2} bytes of the text")]
    ByteRangeOutOfBounds(Option<usize>, Option<usize>, usize),
    /// A range of bytes that starts or ends inside a character: its start and its end, exclusive,
    /// each `None` if it is open.
    #[error("byte range starts or ends inside a character")]
    ByteRangeNotCharBoundary(Option<usize>, Option<usize>),
    /// Out of memory.
    #[error("out of memory")]
    Memory,
    /// The text would have more than `isize::MAX` bytes.
    #[error("the text would be longer than isize::MAX bytes")]
    Size,
}

impl From<AllocError> for Error {
    ghost from_gives = { λ _ e. e ≡ Memory };

    fn from(_: AllocError) -> Self {
        Error::Memory
    }
}

impl<T: Drop> From<AllocFailed<T>> for Error {
    ghost from_gives = { λ _ e. e ≡ Memory };

    fn from(_: AllocFailed<T>) -> Self {
        Error::Memory
    }
}
