//! The iterator over a limited number of parts between matches.

ghost use Rattle.regex_cursor.specs.Regexes.{IsCacheOf};

use super::cache::Cache;
use super::finder::Finder;
use super::regex::Regex;
use super::splitter::Splitter;
use rx_input::{Cursor, Input};
use rx_util::{MatchError, Span};
use std::iter::FusedIterator;

/// An iterator over parts like `Split`, with a maximum number: the last part allowed goes to the
/// end. Created by `Regex::splitn`.
#[derive(Drop)]
pub struct SplitN<'r, C: Cursor> {
    splitter: Splitter<'r>,
    input: Input<C>,
    limit: usize,
}

impl<'r, C: Cursor> SplitN<'r, C> {
    ghost use Rattle.std.specs.Prelude.{◌≡◌};
    ghost use Rattle.std.specs.Borrow.{sem};
    ghost use Rattle.regex_cursor.specs.Iterating.{matches_from};
    ghost use Rattle.regex_cursor.specs.Lending.{SplitNLendsInput};
    ghost use Rattle.regex_cursor.specs.Regexes.{search_by};
    ghost use Rattle.regex_cursor.specs.Splitting.{parts_of};
    ghost use Rattle.regex_cursor.specs.SplittingFew.{GivesFewGaps, input_of, left_of, regex_of};

    /// Returns the iterator before the first part of an input, with at most `limit` parts.
    pub(super) fn new(re: &'r Regex, cache: Cache, input: Input<C>, limit: usize) -> SplitN<'r, C>
        requires made { IsCacheOf re.now cache }
        ensures left { left_of result ≡ record {
          parts = parts_of (matches_from (search_by re.now.engine input));
          limit = limit;
        } }
        ensures regex { regex_of result ≡ re.now }
        ensures gaps { GivesFewGaps re.now (search_by re.now.engine input) limit result }
    {
        SplitN {
            splitter: Splitter::new(Finder::new(re, cache)),
            input,
            limit,
        }
    }

    /// Returns the input in which the next match is searched for; it may be changed, as that of
    /// `Split`.
    pub fn input(&mut self) -> &mut Input<C>
        ensures* writes_back { sem 𝓛 (SplitNLendsInput C.row C.Cursor self.entry result) }
        ensures input { result.now ≡ input_of self.old }
        ensures search { search_by (regex_of self.old).engine result.now
            ≡ (left_of self.old).parts.matches.search }
    {
        &mut self.input
    }
}

impl<'r, C: Cursor + Drop> Iterator for SplitN<'r, C> {
    type Item = Result<Span, MatchError>;

    ghost use Rattle.regex_cursor.specs.SplittingFew.{Gives, few_left, left_of};

    ghost next_gives = { λ m item n. Gives m item n };

    ghost remaining = { λ m. few_left (left_of m) };

    fn next(&mut self) -> Option<Result<Span, MatchError>> {
        if self.limit == 0 {
            return None;
        }
        self.limit -= 1;
        if self.limit > 0 {
            return self.splitter.next(&mut self.input);
        }
        if self.splitter.is_over {
            return None;
        }
        match self.splitter.rest(&mut self.input) {
            Some(part) => Some(Ok(part)),
            None => None,
        }
    }
}

impl<'r, C: Cursor + Drop> FusedIterator for SplitN<'r, C> {}
