//! The matches that a template replaces.
ghost use Rattle.std.specs.Prelude.{◌≡◌, ◌<◌, [], None, length, get_or, slice_index_or};
ghost use Rattle.rope_search_changes.specs.Replacement.{whole};
ghost use Rattle.rope_search_templates.specs.Matches.{groups_in, matched};

use rope_search_changes::Groups;

/// The matches of a text, in order. A template that names no group except the whole match needs
/// only their spans, which take a fifteenth of the memory.
#[derive(Drop)]
pub enum Matches {
    /// The start and the end of each.
    Spans(Vec<(usize, usize)>),
    /// The groups of each.
    Grouped(Vec<Groups>),
}

/// A match.
#[derive(Clone, Copy)]
pub(crate) enum Match<'a> {
    /// Its start and its end.
    Span(usize, usize),
    /// Its groups.
    Grouped(&'a Groups),
}

impl Match<'_> {
    /// Returns the start and the end of the whole match.
    pub(crate) fn span(self) -> (usize, usize)
        ensures { result ≡ whole (groups_in self.entry) }
    {
        match self {
            Match::Span(start, end) => (start, end),
            Match::Grouped(groups) => groups[0].unwrap_or((0, 0)),
        }
    }

    /// Returns the span of a group, if it takes part in the match.
    pub(crate) fn group(self, number: usize) -> Option<(usize, usize)>
        requires { number < 10 }
        ensures { result ≡ slice_index_or (groups_in self.entry) number None }
    {
        match self {
            Match::Span(start, end) => (number == 0).then_some((start, end)),
            Match::Grouped(groups) => groups[number],
        }
    }
}

impl Matches {
    /// Returns the number of matches.
    pub fn len(&self) -> usize
        ensures { result ≡ length (matched self.now) }
    {
        match self {
            Matches::Spans(spans) => spans.len(),
            Matches::Grouped(groups) => groups.len(),
        }
    }

    /// Returns one of the matches.
    pub(crate) fn at(&self, index: usize) -> Match<'_>
        requires { index < length (matched self.now) }
        ensures { groups_in result ≡ get_or (matched self.now) index [] }
    {
        match self {
            Matches::Spans(spans) => {
                let (start, end) = spans[index];
                Match::Span(start, end)
            }
            Matches::Grouped(groups) => Match::Grouped(&groups[index]),
        }
    }
}
