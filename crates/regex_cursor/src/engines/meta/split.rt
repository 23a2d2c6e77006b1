//! The iterator over the parts between matches.

ghost use Rattle.regex_cursor.specs.Regexes.{IsCacheOf};

use super::cache::Cache;
use super::finder::Finder;
use super::regex::Regex;
use super::splitter::Splitter;
use rx_input::{Cursor, Input};
use rx_util::{MatchError, Span};
use std::iter::FusedIterator;

/// An iterator over the parts between the matches, from 0 to the end of the input's span, or of its
/// haystack if that is less. Yields each part, or an error, after which it ends. Created by
/// `Regex::split`.
#[derive(Drop)]
pub struct Split<'r, C: Cursor> {
    splitter: Splitter<'r>,
    input: Input<C>,
}

impl<'r, C: Cursor> Split<'r, C> {
    ghost use Rattle.std.specs.Prelude.{◌≡◌, ◌<◌, ◌^◌};
    ghost use Rattle.std.specs.Borrow.{sem};
    ghost use Rattle.std.specs.Iterator.{size};
    ghost use Rattle.regex_cursor.specs.Iterating.{matches_from};
    ghost use Rattle.regex_cursor.specs.Lending.{SplitLendsInput};
    ghost use Rattle.regex_cursor.specs.Regexes.{search_by};
    ghost use Rattle.regex_cursor.specs.Splitting.{GivesGaps, input_of, left_of, parts_left, parts_of, regex_of};

    /// Returns the iterator before the first part of an input.
    pub(super) fn new(re: &'r Regex, cache: Cache, input: Input<C>) -> Split<'r, C>
        requires made { IsCacheOf re.now cache }
        ensures left { left_of result ≡ parts_of (matches_from (search_by re.now.engine input)) }
        ensures regex { regex_of result ≡ re.now }
        ensures gaps { GivesGaps re.now (search_by re.now.engine input) result }
        ensures few { size (parts_left (left_of result)) < 2 ^ 64 }
    {
        let _at = input.position(); // for the proof: how long the haystack may be
        Split {
            splitter: Splitter::new(Finder::new(re, cache)),
            input,
        }
    }

    /// Returns the input in which the next match is searched for; it may be changed, as that of
    /// `FindMatches`. The next part starts at the end of the last match in any case.
    pub fn input(&mut self) -> &mut Input<C>
        ensures* writes_back { sem 𝓛 (SplitLendsInput C.row C.Cursor self.entry result) }
        ensures input { result.now ≡ input_of self.old }
        ensures search { search_by (regex_of self.old).engine result.now
            ≡ (left_of self.old).matches.search }
    {
        &mut self.input
    }
}

impl<'r, C: Cursor + Drop> Iterator for Split<'r, C> {
    type Item = Result<Span, MatchError>;

    ghost use Rattle.regex_cursor.specs.Splitting.{Gives, left_of, parts_left};

    ghost next_gives = { λ m item n. Gives m item n };

    ghost remaining = { λ m. parts_left (left_of m) };

    fn next(&mut self) -> Option<Result<Span, MatchError>> {
        self.splitter.next(&mut self.input)
    }
}

impl<'r, C: Cursor + Drop> FusedIterator for Split<'r, C> {}
