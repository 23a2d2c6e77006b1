//! Steps from match to match.

ghost use Rattle.regex_cursor.specs.Regexes.{IsCacheOf};

use super::cache::Cache;
use super::regex::Regex;
use rx_input::{Cursor, Input};
use rx_util::{Match, MatchError};

/// Steps from match to match in the input that each step is given. An empty match where the one
/// before ended is skipped.
#[derive(Drop)]
pub(super) struct Finder<'r> {
    re: &'r Regex,
    cache: Cache,
    last_match_end: Option<usize>,
    // Whether it has ended.
    is_over: bool,
    ghost serves: { IsCacheOf re.now cache },
}

impl<'r> Finder<'r> {
    ghost use Rattle.std.specs.Prelude.{◌≡◌, ◌<◌, OnSome};
    ghost use Rattle.std.specs.Iterator.{size};
    ghost use Rattle.rx_input.specs.Inputs.{InputState};
    ghost use Rattle.rx_chunk.specs.Engines.{EngineFinds, match_of};
    ghost use Rattle.regex_cursor.specs.Iterating.{GivesNext, SearchGoesOn, regex_in, left_in, matches_from, matches_left};
    ghost use Rattle.regex_cursor.specs.Regexes.{search_by};

    /// Returns the finder before the first match.
    pub(super) fn new(re: &'r Regex, cache: Cache) -> Finder<'r>
        requires made { IsCacheOf re.now cache }
        ensures left { (i : InputState)
            → left_in result i ≡ matches_from (search_by re.now.engine i) }
        ensures regex { regex_in result ≡ re.now }
    {
        Finder {
            re,
            cache,
            last_match_end: None,
            is_over: false,
        }
    }

    /// Returns the regex.
    pub(super) fn regex(&self) -> &'r Regex
        ensures { result.now ≡ regex_in self.now }
    {
        self.re
    }

    /// Returns the next match in an input, whose span then starts at the match's end; or an error,
    /// which is `Memory`. After an error it returns `None`.
    #[tactic(auto, using(crate::proofs::FewLaws::fewer_behind, crate::proofs::FewLaws::fewer_over))]
    pub(super) fn next<C: Cursor>(
        &mut self,
        input: &mut Input<C>,
    ) -> Option<Result<Match, MatchError>>
        ensures next { GivesNext (EngineFinds (regex_in self.old).engine) match_of
            (left_in self.old input.old) result (left_in self.new input.new) }
        ensures same_regex { regex_in self.new ≡ regex_in self.old }
        ensures goes_on { SearchGoesOn (left_in self.old input.old).search
            (left_in self.new input.new).search }
        ensures fewer { OnSome result (size (matches_left (left_in self.new input.new))
            < size (matches_left (left_in self.old input.old))) }
    {
        if self.is_over {
            return None;
        }
        let last = self.last_match_end;
        match self.re.strategy().find_next(&mut self.cache, input, last) {
            Ok(Some(found)) => {
                let end = found.end();
                input.set_start(end);
                self.last_match_end = Some(end);
                Some(Ok(found))
            }
            Ok(None) => {
                self.is_over = true;
                None
            }
            Err(error) => {
                self.is_over = true;
                Some(Err(error))
            }
        }
    }
}
