//! The iterator over an engine's matches.

ghost use Rattle.rx_dfa.specs.Hybrid.{IsHybridCacheOf};

use super::{Cache, Regex, find_next};
use rx_input::{Cursor, Input};
use rx_util::{Match, MatchError};
use std::iter::FusedIterator;

/// An iterator over matches, returned by `find_iter`. An empty match at the end of the one before
/// is skipped; after an error it ends.
#[derive(Drop)]
pub struct FindMatches<'r, 'c, C: Cursor> {
    re: &'r Regex,
    cache: &'c mut Cache,
    // The span starts at the end of the last match.
    input: Input<C>,
    last_match_end: Option<usize>,
    // Whether the iterator has ended.
    is_over: bool,
}

impl<'r, 'c, C: Cursor> FindMatches<'r, 'c, C> {
    ghost use Rattle.std.specs.Prelude.{◌≡◌};
    ghost use Rattle.rx_steps.specs.Searching.{search_of};
    ghost use Rattle.rx_chunk.specs.Iterating.{matches_from};
    ghost use Rattle.rx_matches.specs.Matches.{lazy_cache, lazy_engine, lazy_left, lazy_serves};

    /// Returns an iterator that is before the first match.
    pub(super) fn new(
        re: &'r Regex,
        cache: &'c mut Cache,
        input: Input<C>,
    ) -> FindMatches<'r, 'c, C>
        requires made { IsHybridCacheOf re.now cache.old }
        ensures left { lazy_left result
            ≡ matches_from (search_of re.now.engine.utf8_empty input) }
        ensures engine { lazy_engine result ≡ re.now }
        ensures same_cache { (lazy_cache result).ghost_name ≡ cache.entry.ghost_name }
        ensures serves { lazy_serves result }
    {
        FindMatches {
            re,
            cache,
            input,
            last_match_end: None,
            is_over: false,
        }
    }
}

impl<'r, 'c, C: Cursor + Drop> Iterator for FindMatches<'r, 'c, C> {
    type Item = Result<Match, MatchError>;

    ghost use Rattle.rx_chunk.specs.Iterating.{matches_left};
    ghost use Rattle.rx_matches.specs.Matches.{LazyGives, lazy_left, lazy_serves};

    ghost can_next = { λ m. lazy_serves m };

    ghost next_gives = { λ m item n. LazyGives m item n };

    ghost remaining = { λ m. matches_left (lazy_left m) };

    fn next(&mut self) -> Option<Result<Match, MatchError>> {
        if self.is_over {
            return None;
        }
        match find_next(self.re, self.cache, &mut self.input, self.last_match_end) {
            Ok(Some(found)) => {
                let end = found.end();
                self.input.set_start(end);
                self.last_match_end = Some(end);
                Some(Ok(found))
            }
            Ok(None) => {
                self.is_over = true;
                None
            }
            Err(error) => {
                self.is_over = true;
                Some(Err(error))
            }
        }
    }
}

impl<'r, 'c, C: Cursor + Drop> FusedIterator for FindMatches<'r, 'c, C> {}
