//! The errors of reading a rope from a reader.

use thiserror::Error;

/// Why no rope was read: the first fault that was met. The bytes read so far are lost.
#[derive(Clone, Copy, Debug, PartialEq, Eq, Error)]
pub enum ReadFault {
    /// A read failed. `Interrupted` counts as a failure.
    #[error("a read failed")]
    Read,
    /// The bytes so far begin no valid UTF-8, or the end came inside a character.
    #[error("the bytes are not UTF-8")]
    Utf8,
    /// Out of memory.
    #[error("out of memory")]
    Memory,
    /// The text would exceed `isize::MAX` bytes.
    #[error("the text would be longer than isize::MAX bytes")]
    Size,
    /// `2^62` reads didn't reach the end.
    #[error("the end didn't come in 2^62 reads")]
    Turns,
}
