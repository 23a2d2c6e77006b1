//! Iteration over matches.

ghost use Rattle.std.specs.Prelude.{◌≡◌, ◌+◌, ◌^◌, ◌<◌, ◌≤◌, None, Some, true, false};
ghost use Rattle.rx_input.specs.Searchers.{HasPassedMatch, IsEmptyAtLast, IsSetTo};
ghost use Rattle.rx_input.specs.Searchers.{GivesNextMatch, IsMatchFinder};
ghost use Rattle.rx_input.specs.Searchers.{GivesAnswer, GivesHalfMatchBy, GivesNextHalfMatch};
ghost use Rattle.rx_input.specs.Searchers.{IsHalfMatchFinder, half_matches_left};

use crate::cursor::Cursor;
use crate::input::Input;
use rx_util::{HalfMatch, Match, MatchError};
use std::marker::Model;

/// What a searcher searches: an `Input` over any cursor.
pub trait Searched {
    ghost use Rattle.std.specs.Prelude.{◌≡◌, ◌+◌, ◌≤◌};
    ghost use Rattle.rx_input.specs.Inputs.{InputState, HasSpan};

    // The settings and the position.
    ghost state: { Self → InputState };

    /// Returns the start of the span.
    fn start(&self) -> usize
        ensures { result ≡ (state self.now).asked.span.start };

    /// Sets the start of the span.
    ///
    /// # Requires
    ///
    /// `start` is at most one byte past the span's end.
    fn set_start(&mut self, start: usize)
        requires { start ≤ (state self.old).asked.span.end + 1 }
        ensures { HasSpan (state self.old) (state self.new)
            (record (state self.old).asked.span { start = start }) };
}

impl<C: Cursor> Searched for Input<C> {
    ghost state = { λ input. input };

    fn start(&self) -> usize {
        Input::start(self)
    }

    fn set_start(&mut self, start: usize) {
        Input::set_start(self, start)
    }
}

/// Steps from match to match of an input.
///
/// Each match comes from a finder, which searches the span of the input; then the span starts at
/// the match's end. An empty match at the end of the previous one is skipped: the search is
/// repeated once with the span starting one byte later.
#[derive(Drop)]
pub struct Searcher<I: Searched> {
    input: I,
    last_match_end: Option<usize>,
}

impl<I: Searched> Model for Searcher<I> {
    ghost use Rattle.rx_input.specs.Searchers.{SearcherState};

    ghost Value = { SearcherState };

    ghost view = { λ s. record {
      input = I.state s.input;
      last_match_end = s.last_match_end;
    } };
}

impl<I: Searched> Searcher<I> {
    ghost use Rattle.std.specs.Borrow.{sem};
    ghost use Rattle.rx_input.specs.Lending.{LendsInput};

    /// Returns a searcher that starts with the input's span.
    pub fn new(input: I) -> Searcher<I>
        ensures { result ≡ record { input = I.state input; last_match_end = None } }
    {
        Searcher {
            input,
            last_match_end: None,
        }
    }

    /// Returns the input of the next search, which may be changed. The end of the last match is
    /// kept: if the next search finds an empty match there, or any half match that ends there, that
    /// one is skipped, and the search is repeated once with the span starting one byte later.
    pub fn input(&mut self) -> &mut I
        ensures* writes_back { sem 𝓛 (LendsInput I.row I.Searched self.entry result) }
        ensures input { I.state result.now ≡ self.old.input }
    {
        &mut self.input
    }

    /// Returns the next match. The same as [`try_advance`](Self::try_advance), with the same
    /// requirements and errors.
    pub fn advance<F>(&mut self, finder: F) -> Result<Option<Match>, MatchError>
    where
        F: FnMut(&mut I) -> Result<Option<Match>, MatchError>,
        requires finder { IsMatchFinder F.FnMut I.state finder }
        ensures next { GivesNextMatch F.FnMut I.state finder self.old result self.new }
    {
        self.try_advance(finder)
    }

    /// Returns the next match, or `None` if the finder finds none.
    ///
    /// This is what the finder returns for the input. If that is an empty match at the end of the
    /// last one, it is skipped: the result is then what the finder returns with the span starting
    /// one byte later. Nothing else is skipped. After a match the span starts at its end.
    ///
    /// # Requires
    ///
    /// The finder may be called repeatedly, with any input. A match that it returns ends in the
    /// span, not before the span's start and not at `usize::MAX`. It doesn't change the settings of
    /// the input.
    ///
    /// # Errors
    ///
    /// Those of the finder. The end of the last match is kept.
    pub fn try_advance<F>(&mut self, mut finder: F) -> Result<Option<Match>, MatchError>
    where
        F: FnMut(&mut I) -> Result<Option<Match>, MatchError>,
        requires finder { IsMatchFinder F.FnMut I.state finder }
        ensures next { GivesNextMatch F.FnMut I.state finder self.old result self.new }
    {
        let Some(found) = finder(&mut self.input)? else {
            return Ok(None);
        };
        let end = found.end();
        if !self.is_empty_at_last(&found) {
            self.pass(end);
            return Ok(Some(found));
        }
        self.step();
        let Some(further) = finder(&mut self.input)? else {
            return Ok(None);
        };
        let end_further = further.end();
        self.pass(end_further);
        Ok(Some(further))
    }

    /// Returns the next half match, as [`try_advance`](Self::try_advance) returns a match, with the
    /// same requirements and errors.
    ///
    /// A half match has no start, so the first one is skipped if it ends at the end of the last
    /// one. It is empty then, unless the span's start was moved back through
    /// [`input`](Self::input). The one found with the span starting one byte later isn't skipped,
    /// wherever it ends.
    pub fn try_advance_half<F>(&mut self, mut finder: F) -> Result<Option<HalfMatch>, MatchError>
    where
        F: FnMut(&mut I) -> Result<Option<HalfMatch>, MatchError>,
        requires finder { IsHalfMatchFinder F.FnMut I.state finder }
        ensures next { GivesNextHalfMatch F.FnMut I.state finder self.old result self.new }
    {
        self.advance_half_by(&mut finder)
    }

    /// Returns the next half match. The finder remains usable.
    fn advance_half_by<F>(&mut self, finder: &mut F) -> Result<Option<HalfMatch>, MatchError>
    where
        F: FnMut(&mut I) -> Result<Option<HalfMatch>, MatchError>,
        requires finder { IsHalfMatchFinder F.FnMut I.state finder.old }
        ensures finder { IsHalfMatchFinder F.FnMut I.state finder.new }
        ensures advances { GivesHalfMatchBy F.FnMut I.state finder.old finder.new self.old result
            self.new }
    {
        let Some(found) = finder(&mut self.input)? else {
            return Ok(None);
        };
        let end = found.offset();
        if !self.is_at_last(end) {
            self.pass(end);
            return Ok(Some(found));
        }
        self.step();
        let Some(further) = finder(&mut self.input)? else {
            return Ok(None);
        };
        let end_further = further.offset();
        self.pass(end_further);
        Ok(Some(further))
    }

    /// Returns an iterator over the remaining half matches. The finder has to meet what
    /// [`try_advance`](Self::try_advance) requires.
    pub fn into_half_matches_iter<F>(self, finder: F) -> TryHalfMatchesIter<I, F>
    where
        F: FnMut(&mut I) -> Result<Option<HalfMatch>, MatchError>,
        ensures searcher { result.searcher ≡ self }
        ensures finder { result.finder ≡ finder }
        ensures is_over { result.is_over ≡ false }
    {
        TryHalfMatchesIter {
            searcher: self,
            finder,
            is_over: false,
        }
    }

    /// Returns whether the last match ended at `end`.
    fn is_at_last(&self, end: usize) -> bool
        ensures here { result ≡ true → self.now.last_match_end ≡ Some end }
        ensures elsewhere { result ≡ false → self.now.last_match_end ≡ Some end → ⊥ }
    {
        match self.last_match_end {
            Some(last) => last == end,
            None => false,
        }
    }

    /// Returns whether the match is empty and at the end of the last one.
    fn is_empty_at_last(&self, found: &Match) -> bool
        ensures here { result ≡ true → IsEmptyAtLast self.now.last_match_end found.now }
        ensures elsewhere { result ≡ false
            → IsEmptyAtLast self.now.last_match_end found.now → ⊥ }
    {
        found.is_empty() && self.is_at_last(found.end())
    }

    /// Continues after a match.
    fn pass(&mut self, end: usize)
        requires inside { end ≤ self.old.input.asked.span.end + 1 }
        ensures { HasPassedMatch self.old.input end self.new }
    {
        self.input.set_start(end);
        self.last_match_end = Some(end);
    }

    /// Moves the start of the span one byte further.
    fn step(&mut self)
        requires inside { self.old.input.asked.span.start ≤ self.old.input.asked.span.end }
        requires fits { self.old.input.asked.span.start + 1 < 2 ^ 64 }
        ensures further { IsSetTo self.old.input self.new.input
            (self.old.input.asked.span.start + 1) }
        ensures last { self.new.last_match_end ≡ self.old.last_match_end }
    {
        let start = self.input.start() + 1;
        self.input.set_start(start);
    }
}

/// An iterator over half matches. After an error it ends.
#[derive(Drop)]
pub struct TryHalfMatchesIter<I: Searched, F> {
    searcher: Searcher<I>,
    finder: F,
    // The iterator has ended.
    is_over: bool,
}

impl<I, F> Iterator for TryHalfMatchesIter<I, F>
where
    I: Searched + Drop,
    F: FnMut(&mut I) -> Result<Option<HalfMatch>, MatchError> + Drop,
{
    type Item = Result<HalfMatch, MatchError>;

    ghost can_next = { λ it. IsHalfMatchFinder F.FnMut I.state it.finder };

    ghost next_gives = { λ it item left. GivesAnswer (λ r. GivesHalfMatchBy F.FnMut I.state
        it.finder left.finder it.searcher r left.searcher) it.is_over item left.is_over };

    ghost remaining = { λ it. half_matches_left it.searcher it.is_over };

    fn next(&mut self) -> Option<Result<HalfMatch, MatchError>> {
        if self.is_over {
            return None;
        }
        match self.searcher.advance_half_by(&mut self.finder) {
            Ok(Some(found)) => Some(Ok(found)),
            Ok(None) => {
                self.is_over = true;
                None
            }
            Err(error) => {
                self.is_over = true;
                Some(Err(error))
            }
        }
    }
}
