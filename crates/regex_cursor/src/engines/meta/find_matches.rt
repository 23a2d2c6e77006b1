//! The iterator over matches.

ghost use Rattle.regex_cursor.specs.Regexes.{IsCacheOf};

use super::cache::Cache;
use super::finder::Finder;
use super::regex::Regex;
use rx_input::{Cursor, Input};
use rx_util::{Match, MatchError};
use std::iter::FusedIterator;

/// An iterator over matches. Yields each match, or an error, after which it ends. An empty match
/// where the one before ended is skipped. Created by `Regex::find_iter`.
#[derive(Drop)]
pub struct FindMatches<'r, C: Cursor> {
    finder: Finder<'r>,
    input: Input<C>,
}

impl<'r, C: Cursor> FindMatches<'r, C> {
    ghost use Rattle.std.specs.Prelude.{◌≡◌, ◌<◌, ◌^◌};
    ghost use Rattle.std.specs.Iterator.{size};
    ghost use Rattle.std.specs.Borrow.{sem};
    ghost use Rattle.regex_cursor.specs.Iterating.{GivesAll, input_of, left_of, matches_from, matches_left, regex_of};
    ghost use Rattle.regex_cursor.specs.Lending.{LendsInput};
    ghost use Rattle.regex_cursor.specs.Regexes.{search_by};

    /// Returns the iterator before the first match in an input.
    #[tactic(auto, using(crate::proofs::FewLaws::few_items))]
    pub(super) fn new(re: &'r Regex, cache: Cache, input: Input<C>) -> FindMatches<'r, C>
        requires made { IsCacheOf re.now cache }
        ensures left { left_of result ≡ matches_from (search_by re.now.engine input) }
        ensures regex { regex_of result ≡ re.now }
        ensures all { GivesAll re.now (search_by re.now.engine input) result }
        ensures few { size (matches_left (left_of result)) < 2 ^ 64 }
    {
        let _at = input.position(); // for the proof: how long the haystack may be
        FindMatches {
            finder: Finder::new(re, cache),
            input,
        }
    }

    /// Returns the regex.
    pub fn regex(&self) -> &'r Regex
        ensures { result.now ≡ regex_of self.now }
    {
        self.finder.regex()
    }

    /// Returns the input in which the next match is searched for; it may be changed. The end of the
    /// last match is kept: only an empty match that is found right there is skipped.
    pub fn input(&mut self) -> &mut Input<C>
        ensures* writes_back { sem 𝓛 (LendsInput C.row C.Cursor self.entry result) }
        ensures input { result.now ≡ input_of self.old }
        ensures search { search_by (regex_of self.old).engine result.now
            ≡ (left_of self.old).search }
    {
        &mut self.input
    }
}

impl<'r, C: Cursor + Drop> Iterator for FindMatches<'r, C> {
    type Item = Result<Match, MatchError>;

    ghost use Rattle.regex_cursor.specs.Iterating.{Gives, left_of, matches_left};

    ghost next_gives = { λ m item n. Gives m item n };

    ghost remaining = { λ m. matches_left (left_of m) };

    fn next(&mut self) -> Option<Result<Match, MatchError>> {
        self.finder.next(&mut self.input)
    }
}

impl<'r, C: Cursor + Drop> FusedIterator for FindMatches<'r, C> {}
