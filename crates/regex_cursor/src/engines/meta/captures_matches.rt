//! The iterator over matches with their groups.

ghost use Rattle.regex_cursor.specs.Regexes.{HasRoom, IsCacheOf};

use super::cache::Cache;
use super::regex::Regex;
use rx_input::{Cursor, Input};
use rx_util::{Captures, MatchError};
use std::iter::FusedIterator;

/// An iterator over matches with all their groups. Yields each match, or an error, after which it
/// ends. An empty match where the one before ended is skipped. Created by `Regex::captures_iter`.
#[derive(Drop)]
pub struct CapturesMatches<'r, C: Cursor> {
    re: &'r Regex,
    cache: Cache,
    caps: Captures,
    input: Input<C>,
    last_match_end: Option<usize>,
    // Whether it has ended.
    is_over: bool,
    ghost serves: { IsCacheOf re.now cache },
    ghost holds: { HasRoom re.now caps },
}

impl<'r, C: Cursor> CapturesMatches<'r, C> {
    ghost use Rattle.std.specs.Prelude.{◌≡◌, ◌<◌, ◌^◌};
    ghost use Rattle.std.specs.Iterator.{size};
    ghost use Rattle.regex_cursor.specs.Capturing.{GivesAll, input_of, left_of, regex_of};
    ghost use Rattle.regex_cursor.specs.Iterating.{matches_from, matches_left};
    ghost use Rattle.std.specs.Borrow.{sem};
    ghost use Rattle.regex_cursor.specs.Lending.{CapturesLendInput};
    ghost use Rattle.regex_cursor.specs.Regexes.{search_by};

    /// Returns the iterator before the first match in an input.
    #[tactic(auto, using(crate::proofs::FewLaws::few_items))]
    pub(super) fn new(
        re: &'r Regex,
        cache: Cache,
        caps: Captures,
        input: Input<C>,
    ) -> CapturesMatches<'r, C>
        requires made { IsCacheOf re.now cache }
        requires holds { HasRoom re.now caps }
        ensures left { left_of result ≡ matches_from (search_by re.now.engine input) }
        ensures regex { regex_of result ≡ re.now }
        ensures all { GivesAll re.now (search_by re.now.engine input) result }
        ensures few { size (matches_left (left_of result)) < 2 ^ 64 }
    {
        let _at = input.position(); // for the proof: how long the haystack may be
        CapturesMatches {
            re,
            cache,
            caps,
            input,
            last_match_end: None,
            is_over: false,
        }
    }

    /// Returns the regex.
    pub fn regex(&self) -> &'r Regex
        ensures { result.now ≡ regex_of self.now }
    {
        self.re
    }

    /// Returns the input in which the next match is searched for; it may be changed. The end of the
    /// last match is kept: only an empty match that is found right there is skipped.
    pub fn input(&mut self) -> &mut Input<C>
        ensures* writes_back { sem 𝓛 (CapturesLendInput C.row C.Cursor self.entry result) }
        ensures input { result.now ≡ input_of self.old }
        ensures search { search_by (regex_of self.old).engine result.now
            ≡ (left_of self.old).search }
    {
        &mut self.input
    }
}

impl<'r, C: Cursor + Drop> Iterator for CapturesMatches<'r, C> {
    type Item = Result<Captures, MatchError>;

    ghost use Rattle.regex_cursor.specs.Capturing.{Gives, left_of};
    ghost use Rattle.regex_cursor.specs.Iterating.{matches_left};

    ghost next_gives = { λ m item n. Gives m item n };

    ghost remaining = { λ m. matches_left (left_of m) };

    #[tactic(auto, using(crate::proofs::FewLaws::fewer_behind, crate::proofs::FewLaws::fewer_over))]
    fn next(&mut self) -> Option<Result<Captures, MatchError>> {
        if self.is_over {
            return None;
        }
        let strategy = self.re.strategy();
        let last = self.last_match_end;
        let cache = &mut self.cache;
        if let Err(error) = strategy.search_next(cache, &mut self.input, &mut self.caps, last) {
            self.is_over = true;
            return Some(Err(error));
        }
        let Some(found) = self.caps.get_match() else {
            self.is_over = true;
            return None;
        };
        let end = found.end();
        self.input.set_start(end);
        self.last_match_end = Some(end);
        match self.caps.clone() {
            Ok(caps) => Some(Ok(caps)),
            Err(error) => {
                self.is_over = true;
                Some(Err(error))
            }
        }
    }
}

impl<'r, C: Cursor + Drop> FusedIterator for CapturesMatches<'r, C> {}
