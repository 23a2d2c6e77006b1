//! What a step needs to know of an offset.

ghost use Rattle.std.specs.Prelude.{◌≡◌, Bool, List, false, slice_get};
ghost use Rattle.rx_program.specs.declared.states.State.{State};
ghost use Rattle.rx_input.specs.Inputs.{IsMoved};
ghost use Rattle.rx_walks.specs.Finds.{IsInside};
ghost use Rattle.rx_walks.specs.Looks as walks;
ghost use Rattle.rx_steps.specs.Searching.{search_of, haystack_in};
ghost use Rattle.rx_program.specs.Code.{place_of};
ghost use Rattle.rx_steps.specs.Lists.{is_among, Asks, HoldBetween, IsPlace};

use crate::sides::Side;
use rx_grammar::Look;
use rx_input::{Cursor, Input};
use rx_util::NonMaxUsize;
use rx_walks::laws::four_bytes_tell;

/// Which look-around assertions hold at an offset.
#[derive(Clone, Copy, Debug, Default, PartialEq, Eq, Hash)]
pub struct Looks {
    /// The slice starts there.
    pub start: bool,
    /// The slice ends there.
    pub end: bool,
    /// A line starts there.
    pub start_line: bool,
    /// A line ends there.
    pub end_line: bool,
    /// A word character is on exactly one side.
    pub word_boundary: bool,
    /// A word character is on both sides or on neither, and each side is empty or a whole
    /// character.
    pub no_word_boundary: bool,
}

impl Looks {
    /// Returns the assertions that hold between the bytes of the slice before and after an offset;
    /// four bytes on each side are enough. A line ends before the line terminator and starts after
    /// it.
    pub fn between(before: &[u8], after: &[u8], line_terminator: u8) -> Looks
        ensures { HoldBetween result before.now after.now line_terminator }
    {
        let front = Side::before(before);
        let back = Side::after(after);
        let is_boundary = front.has_word() != back.has_word();
        Looks {
            start: before.is_empty(),
            end: after.is_empty(),
            start_line: match before.last() {
                None => true,
                Some(byte) => *byte == line_terminator,
            },
            end_line: match after.first() {
                None => true,
                Some(byte) => *byte == line_terminator,
            },
            word_boundary: is_boundary,
            no_word_boundary: !front.is_broken() && !back.is_broken() && !is_boundary,
        }
    }

    /// Returns whether the assertion holds.
    pub fn has(&self, look: Look) -> bool
        ensures { result ≡ is_among self.now (place_of look) }
    {
        match look {
            Look::Start => self.start,
            Look::End => self.end,
            Look::StartLine => self.start_line,
            Look::EndLine => self.end_line,
            Look::WordUnicode => self.word_boundary,
            Look::WordUnicodeNegate => self.no_word_boundary,
        }
    }
}

/// An offset, the byte after it, which is `None` if threads can't read on, and the assertions that
/// hold.
#[derive(Clone, Copy, Debug, PartialEq, Eq, Hash)]
pub struct Place {
    /// The offset in the haystack.
    pub at: NonMaxUsize,
    /// The byte.
    pub byte: Option<u8>,
    /// The assertions that hold.
    pub looks: Looks,
}

/// Returns the byte at the input's position, unless that is the end of the haystack.
fn next_byte<C: Cursor>(input: &Input<C>) -> Option<u8>
    ensures { result ≡ slice_get input.now.cursor.content input.now.position }
{
    input.chunk().get(input.chunk_pos()).copied()
}

impl Place {
    /// Returns this for the input's position. The byte is `None` at the end of the span, the slice
    /// or the haystack. With `asks_looks` it reads up to eight bytes around the offset, and the
    /// current chunk may be another one afterwards; without, no assertion is reported to hold.
    pub fn of<C: Cursor>(input: &mut Input<C>, line_terminator: u8, asks_looks: bool) -> Place
        ensures place { (states : List State) → (utf8_empty : Bool)
            → IsInside (search_of utf8_empty input.old) input.old.position
            → (asks_looks ≡ false → (l : walks.Look) → Asks states l → ⊥)
            → IsPlace states (haystack_in line_terminator (search_of utf8_empty input.old))
            input.old.position result }
        ensures same { IsMoved input.old input.new input.old.position input.old.asked }
    {
        let at = input.position();
        let end = input.end().min(input.get_slice().end);
        let byte = if at < end { next_byte(input) } else { None };
        let looks = if asks_looks {
            // A law, for the proof only.
            four_bytes_tell();
            let seen = input.look_around();
            Looks::between(seen.before(), seen.after(), line_terminator)
        } else {
            Looks::default()
        };
        Place {
            at: NonMaxUsize::new(at).unwrap(),
            byte,
            looks,
        }
    }
}
