//! The iterator over an engine's matches.

use super::{Regex, find_next};
use rx_input::{Cursor, Input};
use rx_util::{Match, MatchError};
use std::iter::FusedIterator;

/// An iterator over matches, returned by `find_iter`. An empty match at the end of the one before
/// is skipped; after an error it ends.
#[derive(Drop)]
pub struct FindMatches<'r, C: Cursor> {
    re: &'r Regex,
    // The span starts at the end of the last match.
    input: Input<C>,
    last_match_end: Option<usize>,
    // Whether the iterator has ended.
    is_over: bool,
}

impl<'r, C: Cursor> FindMatches<'r, C> {
    ghost use Rattle.std.specs.Prelude.{◌≡◌};
    ghost use Rattle.rx_steps.specs.Searching.{search_of};
    ghost use Rattle.rx_chunk.specs.Iterating.{matches_from};
    ghost use Rattle.rx_matches.specs.Matches.{dense_engine, dense_left};

    /// Returns an iterator that is before the first match.
    pub(super) fn new(re: &'r Regex, input: Input<C>) -> FindMatches<'r, C>
        ensures left { dense_left result
            ≡ matches_from (search_of re.now.engine.utf8_empty input) }
        ensures engine { dense_engine result ≡ re.now }
    {
        FindMatches {
            re,
            input,
            last_match_end: None,
            is_over: false,
        }
    }
}

impl<'r, C: Cursor + Drop> Iterator for FindMatches<'r, C> {
    type Item = Result<Match, MatchError>;

    ghost use Rattle.rx_chunk.specs.Iterating.{matches_left};
    ghost use Rattle.rx_matches.specs.Matches.{DenseGives, dense_left};

    ghost next_gives = { λ m item n. DenseGives m item n };

    ghost remaining = { λ m. matches_left (dense_left m) };

    fn next(&mut self) -> Option<Result<Match, MatchError>> {
        if self.is_over {
            return None;
        }
        match find_next(self.re, &mut self.input, self.last_match_end) {
            Ok(Some(found)) => {
                let end = found.end();
                self.input.set_start(end);
                self.last_match_end = Some(end);
                Some(Ok(found))
            }
            Ok(None) => {
                self.is_over = true;
                None
            }
            Err(error) => {
                self.is_over = true;
                Some(Err(error))
            }
        }
    }
}

impl<'r, C: Cursor + Drop> FusedIterator for FindMatches<'r, C> {}
