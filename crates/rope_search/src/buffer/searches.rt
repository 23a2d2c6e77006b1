//! Searches with a buffer's pattern beside its report.
ghost use Rattle.std.specs.Prelude.{◌≡◌, ◌↔◌, ◌⊎◌, None, Err, IfOk, IfErr, MatchOption, chars};
ghost use Rattle.rope_search_reports.specs.Position.{IsNowhere};
ghost use Rattle.rope_search_reports.specs.Ticks.{SearchesOneWhole};
ghost use Rattle.rope_search.specs.Finding.{TellsPositions};
ghost use Rattle.rope_search.specs.GroupsAt.{AnswersGroups, SearchesRow};
ghost use Rattle.rope_search.specs.MatchEdits.{AnswersEdit, SearchesForGroups};
ghost use Rattle.rope_search.specs.Session.{current_text};
ghost use Rattle.rope_search.specs.TextMatches.{AnswersNextAll};

use crate::buffer::Buffer;
use crate::match_edits::MatchEdit;
use crate::text_matches::TextMatch;
use rope_search_io::Fault;
use rope_search_reports::{Groups, Lines, Position};

impl Buffer {
    /// Returns the positions of the start and end of the first match of the pattern in the whole
    /// current text that starts at or after a position, or `None`. Look-around assertions see the
    /// text before the position. An offset between the CR and the LF of a break has the position
    /// one past its line's text.
    ///
    /// # Errors
    ///
    /// They leave the buffer as it was: `Fault::Nothing` without a pattern, else `Fault::Range` if
    /// the position is nowhere in the text; `Fault::Memory`.
    ///
    /// # Complexity
    ///
    /// At most one search of a whole text is counted. Time is that of a search up to the match.
    pub fn next_from(
        &mut self,
        tick: &mut Lines,
        from: Position,
    ) -> Result<Option<(Position, Position)>, Fault>
        ensures found { IfOk result (λ found. TellsPositions self.old.state from found) }
        ensures nothing { (result ≡ Err Fault.Nothing) ↔ (self.old.state.pattern ≡ None) }
        ensures range { (result ≡ Err Fault.Range)
            ↔ ((self.old.state.pattern ≡ None → ⊥)
            × IsNowhere (current_text self.old.state) (from.line, from.column)) }
        ensures fault { IfErr result (λ fault.
            (fault ≡ Fault.Nothing) ⊎ ((fault ≡ Fault.Range) ⊎ (fault ≡ Fault.Memory))) }
        ensures same { self.new ≡ self.old }
        ensures searches { SearchesOneWhole tick.old tick.new }
    {
        let Some(search) = &mut self.search else {
            return Err(Fault::Nothing);
        };
        let found = search.next_from(tick, self.history.current(), from)?;
        Ok(found)
    }

    /// Writes the first matches of the pattern in the whole current text that start at a position
    /// or after it to the start of `out`, as many as fit, and returns the number of matches that
    /// were written. They are those that `replace` would replace: all matches are found one after
    /// the other from the text's start, and they may span lines. `next_from` searches from its
    /// position, so it may find a match that overlaps one which starts before the position; such a
    /// match is none of these. A match that starts or ends between the CR and the LF of a break has
    /// the position one past its line's text. The rest of `out` is unchanged.
    ///
    /// # Errors
    ///
    /// They leave `out` as it was: `Fault::Nothing` without a pattern, else `Fault::Range` if the
    /// position is nowhere in the text; `Fault::Memory`. The buffer is as it was, whatever is
    /// returned.
    ///
    /// # Complexity
    ///
    /// One search of a whole text is counted at most, however many matches are written: linear in
    /// the text, times the pattern's weight, with 16 bytes for each match of the text until it
    /// returns. `O(log n)` for each match that is written.
    pub fn next_all(
        &mut self,
        tick: &mut Lines,
        from: Position,
        out: &mut [TextMatch],
    ) -> Result<usize, Fault>
        ensures answer { AnswersNextAll self.old.state from result out.old out.new }
        ensures same { self.new ≡ self.old }
        ensures searches { SearchesOneWhole tick.old tick.new }
    {
        let Some(search) = &mut self.search else {
            return Err(Fault::Nothing);
        };
        let count = search.next_all(tick, self.history.current(), from, out)?;
        Ok(count)
    }

    /// Returns the groups 0 to 9 of a match of the report, by its line and its number in that row,
    /// from 0: for each group the columns where it starts and ends, in UTF-16 code units from the
    /// line's start. Group 0 is the match. A group that the pattern doesn't have, or that takes no
    /// part in the match, is `None`.
    ///
    /// # Errors
    ///
    /// They leave the buffer as it was: `Fault::Nothing` without a pattern, else `Fault::Range` if
    /// there is no such line, which needs no search, or no such match in it; `Fault::Memory`.
    ///
    /// # Complexity
    ///
    /// A row keeps no groups, so its line is searched once more, up to the match: linear in the
    /// line, times the pattern's weight, and `O(log n)` for each group. One row is counted whatever
    /// the result, if the report has that row.
    pub fn groups_at(
        &mut self,
        tick: &mut Lines,
        line: usize,
        number: usize,
    ) -> Result<Groups, Fault>
        ensures answer { AnswersGroups self.old.state line number result }
        ensures same { self.new ≡ self.old }
        ensures searches { SearchesRow self.old.state line tick.old tick.new }
    {
        let Some(search) = &mut self.search else {
            return Err(Fault::Nothing);
        };
        let groups = search.groups_at(tick, self.history.current(), line, number)?;
        Ok(groups)
    }

    /// Returns the edit that replaces a match of the report, by its line and its number in that
    /// row, by a template's expansion. It is refused with `Fault::Nothing` without a pattern, else
    /// with `Fault::Range` if no such match is listed, else with `Fault::Size` if the new text
    /// would have more bytes than the limit, and possibly with `Fault::Memory`. The buffer is as it
    /// was, whatever the result.
    pub(crate) fn match_edit(
        &mut self,
        tick: &mut Lines,
        line: usize,
        number: usize,
        template: &str,
    ) -> Result<MatchEdit, Fault>
        ensures answer { AnswersEdit self.old.limit self.old.state line number
            (chars template.now) result }
        ensures same { self.new ≡ self.old }
        ensures searches { SearchesForGroups self.old.state line number (chars template.now)
            tick.old tick.new }
    {
        let Some(search) = &mut self.search else {
            return Err(Fault::Nothing);
        };
        let (alloc, limits) = (self.alloc, self.limits);
        let text = self.history.current();
        let edit = search.match_edit(tick, alloc, limits, text, line, number, template)?;
        Ok(edit)
    }

    /// Returns `Fault::Nothing` without a pattern, and else the other fault. Of the two, this is
    /// the one to report.
    pub(crate) fn nothing_or(&self, other: Fault) -> Fault
        ensures { MatchOption self.now.state.pattern (result ≡ Fault.Nothing)
            (λ pattern. result ≡ other) }
    {
        match self.search {
            None => Fault::Nothing,
            Some(_) => other,
        }
    }
}
