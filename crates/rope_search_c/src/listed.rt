//! The matches in the chosen buffer's report.
ghost use Rattle.rope_search_c.specs.Listed.{PutsListed, TellsListIndex, TellsListedBefore, TellsListedFrom};

use crate::counting::CountingSession;
use rope_search::{ListedMatch, Position};

/// A match of a report.
#[repr(C)]
#[derive(Clone, Copy, Debug, PartialEq, Eq)]
pub struct Listed {
    /// The line's index.
    pub line: usize,
    /// The number of the match in the row of that line, from 0.
    pub number: usize,
    /// The column where it starts, in UTF-16 code units from the line's start.
    pub start: usize,
    /// The column where it ends.
    pub stop: usize,
}

/// Writes the match, if there is one, and returns whether there is.
fn put_listed(found: Option<ListedMatch>, listed: &mut Listed) -> bool
    ensures { PutsListed found result listed.old listed.new }
{
    match found {
        None => false,
        Some(found) => {
            *listed = Listed {
                line: found.line,
                number: found.number,
                start: found.start,
                stop: found.end,
            };
            true
        }
    }
}

impl CountingSession {
    /// Writes the first match of the report that starts at a position or after it, and returns
    /// whether there is one.
    pub(crate) fn listed_from(&self, position: Position, listed: &mut Listed) -> bool
        ensures { TellsListedFrom self.now position result listed.old listed.new }
    {
        put_listed(self.session.buffer().listed_from(position), listed)
    }

    /// Writes the last match of the report that starts before a position, and returns whether there
    /// is one.
    pub(crate) fn listed_before(&self, position: Position, listed: &mut Listed) -> bool
        ensures { TellsListedBefore self.now position result listed.old listed.new }
    {
        put_listed(self.session.buffer().listed_before(position), listed)
    }

    /// Writes the number of matches in the report before the one of a line and a number, and the
    /// number of all, and returns whether there is such a match.
    pub(crate) fn list_index(
        &self,
        line: usize,
        number: usize,
        index: &mut usize,
        count: &mut usize,
    ) -> bool
        ensures { TellsListIndex self.now line number result index.old index.new
            count.old count.new }
    {
        match self.session.buffer().list_index(line, number) {
            None => false,
            Some(place) => {
                *index = place.index;
                *count = place.count;
                true
            }
        }
    }
}
