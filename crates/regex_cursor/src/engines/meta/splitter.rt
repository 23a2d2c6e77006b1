//! Steps from part to part.

ghost use Rattle.std.specs.Prelude.{◌≡◌, length, min};
ghost use Rattle.rx_input.specs.Cursors.{IsSameContent};

use super::finder::Finder;
use rx_input::{Cursor, Input};
use rx_util::{MatchError, Span};

/// Steps from part to part between the matches in the input that each step is given.
#[derive(Drop)]
pub(super) struct Splitter<'r> {
    finder: Finder<'r>,
    // Where the next part starts.
    last: usize,
    // Whether it has ended.
    pub(super) is_over: bool,
}

/// Returns where an input's span ends, or its haystack if that is less.
fn end_of<C: Cursor>(input: &mut Input<C>) -> usize
    ensures end { result ≡ min input.old.asked.span.end (length input.old.cursor.content) }
    ensures asked { input.new.asked ≡ input.old.asked }
    ensures same { IsSameContent input.old.cursor input.new.cursor }
{
    let end = input.end();
    input.move_to(end);
    end.min(input.position())
}

impl<'r> Splitter<'r> {
    ghost use Rattle.std.specs.Prelude.{◌<◌, OnSome, true};
    ghost use Rattle.std.specs.Iterator.{size};
    ghost use Rattle.rx_input.specs.Inputs.{InputState};
    ghost use Rattle.rx_chunk.specs.Engines.{EngineFinds};
    ghost use Rattle.regex_cursor.specs.Iterating as iterating;
    ghost use Rattle.regex_cursor.specs.Splitting.{EndsWith, SplitsOff, end_of_search, regex_in, left_in, parts_left, parts_of};

    /// Returns the splitter at the matches of a finder.
    pub(super) fn new(finder: Finder<'r>) -> Splitter<'r>
        ensures left { (i : InputState)
            → left_in result i ≡ parts_of (iterating.left_in finder.entry i) }
        ensures regex { regex_in result ≡ iterating.regex_in finder.entry }
    {
        Splitter {
            finder,
            last: 0,
            is_over: false,
        }
    }

    /// Returns the part up to the next match in an input, whose span then starts at the match's
    /// end; the last part, if there is no match; or an error, which is `Memory`. After the last
    /// part and after an error it returns `None`.
    pub(super) fn next<C: Cursor>(
        &mut self,
        input: &mut Input<C>,
    ) -> Option<Result<Span, MatchError>>
        ensures next { SplitsOff (EngineFinds (regex_in self.old).engine)
            (left_in self.old input.old) (left_in self.new input.new) result }
        ensures same_regex { regex_in self.new ≡ regex_in self.old }
        ensures fewer { OnSome result (size (parts_left (left_in self.new input.new))
            < size (parts_left (left_in self.old input.old))) }
    {
        if self.is_over {
            return None;
        }
        match self.finder.next(input) {
            Some(Ok(found)) => {
                let start = self.last;
                self.last = found.end();
                Some(Ok(Span {
                    start,
                    end: found.start(),
                }))
            }
            Some(Err(error)) => {
                self.is_over = true;
                Some(Err(error))
            }
            None => match self.rest(input) {
                Some(part) => Some(Ok(part)),
                None => None,
            },
        }
    }

    /// Returns the part from the end of the last match to the end of an input's span, or of its
    /// haystack if that is less, unless the match ends after that. It is the last part.
    pub(super) fn rest<C: Cursor>(&mut self, input: &mut Input<C>) -> Option<Span>
        ensures rest { EndsWith (left_in self.old input.old).last
            (end_of_search (left_in self.old input.old).matches.search) result }
        ensures left { left_in self.new input.new
            ≡ record (left_in self.old input.old) { is_over = true } }
        ensures same_regex { regex_in self.new ≡ regex_in self.old }
    {
        self.is_over = true;
        let end = end_of(input);
        if self.last > end {
            return None;
        }
        Some(Span {
            start: self.last,
            end,
        })
    }
}
