//! The commands of a session and their replies.
ghost use Rattle.std.specs.Prelude.{◌≡◌, ℕ, length, Some};
ghost use Rattle.rope_search.specs.Order.{Order};
ghost use Rattle.rope_search.specs.Reads.{payload_of};
ghost use Rattle.rope_search.specs.Header.{IsHeaderOf};
ghost use Rattle.rope_search.specs.Stands.{Stands, StandsFor, kept_of, limit_on};

use crate::limits::Limits;
use rope_search_reports::{PATTERN_LEN, Position};

/// A command; `P` is what is known of its payload: its number of bytes, or the bytes that were
/// kept. `Session::apply` executes it. If there are several reasons to refuse it, its contract says
/// which is reported.
#[derive(Clone, Copy, Debug, PartialEq, Eq, Hash)]
pub enum CommandOf<P> {
    /// Sets the chosen buffer's text; its pattern stays. Refused with `Fault::Utf8` if the payload
    /// isn't UTF-8, `Fault::Size` if it has more bytes than the limit, or `Fault::Memory`.
    Text(P),
    /// Replaces the text between two positions of the chosen buffer's text by the payload. The
    /// pattern stays, and only the lines that are touched are searched again. Drops the texts that
    /// could be redone. Refused with `Fault::Range` if a position is nowhere in the text or the
    /// second one is before the first, `Fault::Utf8` if the payload isn't UTF-8, `Fault::Size` if
    /// the new text would have more bytes than the limit, or `Fault::Memory`.
    Edit(Position, Position, P),
    /// Goes back to the text before the last edit or replacement; the pattern stays. Refused with
    /// `Fault::Nothing` if there is none, or, if there is a pattern, `Fault::Memory`.
    Undo,
    /// Goes forward again to the text that was undone last; the pattern stays. Refused with
    /// `Fault::Nothing` if there is none, or, if there is a pattern, `Fault::Memory`.
    Redo,
    /// Shows the chosen buffer's text. It is never refused.
    Print,
    /// Adds a buffer with the chosen one's text, without its pattern; the reply is the new buffer's
    /// number. Refused with `Fault::Memory` only.
    Fork,
    /// Sets the chosen buffer's pattern, replacing any other. Refused with `Fault::Utf8` if the
    /// payload isn't UTF-8, `Fault::Pattern` if it is outside the grammar of patterns,
    /// `Fault::Limit` if it has more than 65,536 bytes or a weight of more than 262,144, or
    /// `Fault::Memory`.
    Pattern(P),
    /// Drops the chosen buffer's pattern, if there is one. It is never refused.
    Off,
    /// Shows the chosen buffer's report. Refused with `Fault::Nothing` if it has no pattern.
    List,
    /// Finds the first match in the chosen buffer's whole text that starts at the position or after
    /// it. Refused with `Fault::Nothing` if the buffer has no pattern, `Fault::Range` if the
    /// position is nowhere in the text, or `Fault::Memory`.
    Next(Position),
    /// Replaces all matches in the chosen buffer's whole text by the expansions of the payload, a
    /// template; the reply is their number. In a template `$` and a digit expand to the text of
    /// that group, which is empty if the group is absent or not in the pattern; `$$` expands to a
    /// dollar; all other characters are copied. The pattern stays, and only the lines that are
    /// touched are searched again. Drops the texts that could be redone, also if there is no match.
    /// Refused with `Fault::Nothing` if the buffer has no pattern, `Fault::Utf8` if the payload
    /// isn't UTF-8, `Fault::Size` if the payload or the new text has more bytes than the limit, or
    /// `Fault::Memory`.
    Replace(P),
    /// Chooses a buffer by its number, from 0. Refused with `Fault::Nothing` if there is none.
    Use(u64),
}

/// A command, with what was kept of its payload.
pub type Command<'a> = CommandOf<Payload<'a>>;

/// A command's line: its word, its positions and its number. If the command has a payload, the
/// number is that of its bytes.
pub type Header = CommandOf<u64>;

impl CommandOf<u64> {
    /// Returns the payload's number of bytes.
    pub(crate) fn payload_len(&self) -> u64
        ensures { (order : Order) → IsHeaderOf self.now order → length (payload_of order) ≡ result }
    {
        match self {
            CommandOf::Text(len) | CommandOf::Edit(_, _, len) => *len,
            CommandOf::Pattern(len) | CommandOf::Replace(len) => *len,
            CommandOf::Undo
            | CommandOf::Redo
            | CommandOf::Print
            | CommandOf::Fork
            | CommandOf::Off => 0,
            CommandOf::List | CommandOf::Next(_) | CommandOf::Use(_) => 0,
        }
    }

    /// Returns the maximum number of bytes of the payload to keep.
    pub(crate) fn payload_limit(&self, limits: Limits) -> usize
        ensures { result ≡ limit_on self.now limits.text }
    {
        match self {
            CommandOf::Pattern(_) => PATTERN_LEN,
            CommandOf::Text(_) | CommandOf::Edit(_, _, _) | CommandOf::Replace(_) => limits.text,
            CommandOf::Undo | CommandOf::Redo | CommandOf::Print | CommandOf::Fork => limits.text,
            CommandOf::Off | CommandOf::List | CommandOf::Next(_) => limits.text,
            CommandOf::Use(_) => limits.text,
        }
    }

    /// Returns the command with what was kept of its payload.
    pub(crate) fn with(self, payload: Payload<'_>) -> Command<'_>
        ensures stands { (limit : ℕ) (order : Order) → IsHeaderOf self order
            → StandsFor (limit_on self limit) payload.entry (payload_of order)
            → Stands limit result order }
        ensures lost { kept_of result ≡ Some Payload.Lost → payload.entry ≡ Payload.Lost }
    {
        match self {
            CommandOf::Text(_) => Command::Text(payload),
            CommandOf::Edit(from, to, _) => Command::Edit(from, to, payload),
            CommandOf::Undo => Command::Undo,
            CommandOf::Redo => Command::Redo,
            CommandOf::Print => Command::Print,
            CommandOf::Fork => Command::Fork,
            CommandOf::Pattern(_) => Command::Pattern(payload),
            CommandOf::Off => Command::Off,
            CommandOf::List => Command::List,
            CommandOf::Next(from) => Command::Next(from),
            CommandOf::Replace(_) => Command::Replace(payload),
            CommandOf::Use(number) => Command::Use(number),
        }
    }
}

/// What was kept of a payload.
#[derive(Clone, Copy, Debug, PartialEq, Eq, Hash)]
pub enum Payload<'a> {
    /// All of its bytes. They need not be UTF-8.
    Kept(&'a [u8]),
    /// It has more bytes than the limit: that on texts, or the 65,536 bytes of a pattern. It was
    /// skipped, except that all its bytes were checked for UTF-8.
    Long {
        /// Whether it is UTF-8.
        utf8: bool,
    },
    /// There was no memory for it, so it was skipped. A command with it is refused with
    /// `Fault::Memory`.
    Lost,
}

/// The reply to an accepted command.
#[derive(Clone, Copy, Debug, PartialEq, Eq, Hash)]
pub enum Reply {
    /// Done.
    Done,
    /// Done; this is the number of the new buffer, or that of the replaced matches.
    Number(usize),
    /// A match was found: the positions where it starts and where it ends.
    Found(Position, Position),
    /// No match was found.
    NoMatch,
    /// Show the chosen buffer's report: `session.buffer().report()`.
    List,
    /// Show the chosen buffer's text: `session.buffer().text()`.
    Print,
}
