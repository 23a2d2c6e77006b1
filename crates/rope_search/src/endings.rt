//! How the input of a run ends.

/// How an input ended.
#[derive(Clone, Copy, Debug, PartialEq, Eq, Hash)]
pub enum Ended {
    /// The input ended before a line's first byte.
    Input,
    /// A line was no command. What follows isn't read as commands.
    Command,
    /// The input ended inside a line or a payload. That command did nothing.
    Cut,
}
