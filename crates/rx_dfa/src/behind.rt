//! What look-around assertions need to know of a position: one byte on each side, or none.

ghost use Rattle.std.specs.Prelude.{◌≡◌, ◌<◌, true, false, Some, None, IfSome};
ghost use Rattle.rx_dfa.specs.DenseTables.{MayBeByte};
ghost use Rattle.rx_dfa.specs.Hashes.{side_number};
ghost use Rattle.rx_dfa.specs.Behind.{is_word_ascii, behind_of, looks_of, quits, starts_line, was_word, is_start};

use rx_steps::{AskedLooks, Looks};
use unicode::perl::is_word_code;

/// What look-around assertions need to know of the text before a position.
#[derive(Clone, Copy, Debug, PartialEq, Eq)]
pub(crate) enum Behind {
    /// The slice starts there.
    Edge,
    /// A byte: whether it is the line terminator, and whether it is a word character. Both are
    /// false if the program has no assertion that depends on them.
    Byte(bool, bool),
}

/// Returns whether a byte is an ASCII word character.
fn is_word_byte(byte: u8) -> bool
    ensures { result ≡ is_word_ascii byte }
{
    byte < 128 && is_word_code(u32::from(byte))
}

/// Returns whether the program has word assertions that one byte such as this can't decide.
pub(crate) fn quits_at(asked: AskedLooks, byte: Option<u8>) -> bool
    ensures { result ≡ quits asked byte }
{
    match byte {
        None => false,
        Some(byte) => asked.words && byte >= 128,
    }
}

/// Returns the byte if the program has word assertions that it can't decide.
pub(crate) fn byte_that_quits(asked: AskedLooks, byte: Option<u8>) -> Option<u8>
    ensures none { result ≡ None → quits asked byte ≡ false }
    ensures some { IfSome result (λ b. (byte ≡ Some b) × (quits asked (Some b) ≡ true)) }
{
    match byte {
        Some(seen) => {
            if quits_at(asked, byte) {
                Some(seen)
            } else {
                None
            }
        }
        None => None,
    }
}

impl Behind {
    /// Returns what precedes a position after this byte, or at the start of the slice, as far as
    /// these assertions depend on it.
    pub(crate) fn of(asked: AskedLooks, line_terminator: u8, byte: Option<u8>) -> Behind
        ensures side { result ≡ behind_of asked line_terminator byte }
        ensures byte { MayBeByte byte }
    {
        match byte {
            Some(byte) => Behind::Byte(
                asked.lines && byte == line_terminator,
                asked.words && is_word_byte(byte),
            ),
            None => {
                if asked.any {
                    Behind::Edge
                } else {
                    Behind::Byte(false, false)
                }
            }
        }
    }

    /// Returns a number for each value.
    pub(crate) fn number(&self) -> usize
        ensures { result ≡ side_number self.now }
    {
        match self {
            Behind::Edge => 4,
            Behind::Byte(ends_line, is_word) => {
                usize::from(*ends_line) + 2 * usize::from(*is_word)
            }
        }
    }

    /// Returns whether the slice starts there.
    fn is_start(&self) -> bool
        ensures { result ≡ is_start self.now }
    {
        match self {
            Behind::Edge => true,
            Behind::Byte(_, _) => false,
        }
    }

    /// Returns whether a line starts there.
    fn starts_line(&self) -> bool
        ensures { result ≡ starts_line self.now }
    {
        match self {
            Behind::Edge => true,
            Behind::Byte(ends_line, _) => *ends_line,
        }
    }

    /// Returns whether the preceding byte is a word character.
    fn is_word(&self) -> bool
        ensures { result ≡ was_word self.now }
    {
        match self {
            Behind::Edge => false,
            Behind::Byte(_, is_word) => *is_word,
        }
    }

    /// Returns the assertions that hold between this and the following byte, or the end of the
    /// slice.
    pub(crate) fn looks(&self, line_terminator: u8, ahead: Option<u8>) -> Looks
        ensures { result ≡ looks_of line_terminator self.now ahead }
    {
        let was_word = self.is_word();
        let is_word = match ahead {
            None => false,
            Some(byte) => is_word_byte(byte),
        };
        Looks {
            start: self.is_start(),
            end: ahead.is_none(),
            start_line: self.starts_line(),
            end_line: match ahead {
                None => true,
                Some(byte) => byte == line_terminator,
            },
            word_boundary: was_word != is_word,
            no_word_boundary: was_word == is_word,
        }
    }
}
