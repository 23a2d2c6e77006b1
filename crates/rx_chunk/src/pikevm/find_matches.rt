//! The iterator over an engine's matches.

ghost use Rattle.rx_steps.specs.Caches.{IsCacheOf};

use super::{Cache, PikeVM, find_next};
use rx_input::{Cursor, Input};
use rx_util::{Match, MatchError};
use std::iter::FusedIterator;

/// An iterator over matches. After an error it ends. An empty match at the end of the previous one
/// is skipped. `find_iter` returns it.
#[derive(Drop)]
pub struct FindMatches<'r, 'c, C: Cursor> {
    vm: &'r PikeVM,
    cache: &'c mut Cache,
    // Its span starts at the end of the last match.
    input: Input<C>,
    last_match_end: Option<usize>,
    // The iterator has ended.
    is_over: bool,
    ghost serves: { IsCacheOf vm.now.program cache.now },
}

impl<'r, 'c, C: Cursor> FindMatches<'r, 'c, C> {
    ghost use Rattle.std.specs.Prelude.{◌≡◌};
    ghost use Rattle.rx_steps.specs.Searching.{search_of};
    ghost use Rattle.rx_chunk.specs.Iterating.{matches_from};
    ghost use Rattle.rx_chunk.specs.FindMatches.{cache_of, engine_of, left_of};

    /// Returns an iterator over all matches in an input.
    pub(super) fn new(
        vm: &'r PikeVM,
        cache: &'c mut Cache,
        input: Input<C>,
    ) -> FindMatches<'r, 'c, C>
        requires made { IsCacheOf vm.now.program cache.old }
        ensures left { left_of result ≡ matches_from (search_of vm.now.utf8_empty input) }
        ensures engine { engine_of result ≡ vm.now }
        ensures same_cache { (cache_of result).ghost_name ≡ cache.entry.ghost_name }
    {
        FindMatches {
            vm,
            cache,
            input,
            last_match_end: None,
            is_over: false,
        }
    }
}

impl<'r, 'c, C: Cursor + Drop> Iterator for FindMatches<'r, 'c, C> {
    type Item = Result<Match, MatchError>;

    ghost use Rattle.rx_chunk.specs.Iterating.{matches_left};
    ghost use Rattle.rx_chunk.specs.FindMatches.{left_of, Gives};

    ghost next_gives = { λ m item n. Gives m item n };

    ghost remaining = { λ m. matches_left (left_of m) };

    fn next(&mut self) -> Option<Result<Match, MatchError>> {
        if self.is_over {
            return None;
        }
        match find_next(self.vm, self.cache, &mut self.input, self.last_match_end) {
            Ok(Some(found)) => {
                let end = found.end();
                self.input.set_start(end);
                self.last_match_end = Some(end);
                Some(Ok(found))
            }
            Ok(None) => {
                self.is_over = true;
                None
            }
            Err(error) => {
                self.is_over = true;
                Some(Err(error))
            }
        }
    }
}

impl<'r, 'c, C: Cursor + Drop> FusedIterator for FindMatches<'r, 'c, C> {}
