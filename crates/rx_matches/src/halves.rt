//! A match from its halves: its end, and its start.

ghost use Rattle.std.specs.Prelude.{◌≡◌, ◌+◌, ◌≤◌, ◌<◌, ◌↔◌, Bool, IsTrue, Some, true, false};
ghost use Rattle.rx_util.specs.declared.search.Anchored.TheVariants.{No, Yes};
ghost use Rattle.rx_input.specs.Cursors.{IsSameContent};
ghost use Rattle.rx_steps.specs.Searching.{search_of};
ghost use Rattle.rx_input.specs.Searchers.{IsEmptyAtLast};
ghost use Rattle.rx_matches.specs.Halves.{IsTurnedBack, StartsAtSpan, whole_of};

use rx_input::{Cursor, Input};
use rx_util::{Anchored, HalfMatch, Match, Span};

/// Returns whether a match that ends at an offset starts at the span's start: the search is
/// anchored, or the match is empty and there.
pub fn starts_first<C: Cursor>(input: &Input<C>, end: usize) -> bool
    ensures yes { result ≡ true → (utf8_empty : Bool)
        → StartsAtSpan (search_of utf8_empty input.now) end }
    ensures no { result ≡ false → input.now.asked.anchored ≡ No }
{
    match input.get_anchored() {
        Anchored::No => input.start() == end,
        Anchored::Yes | Anchored::Pattern(_) => true,
    }
}

/// Sets an input that isn't anchored to the backward search from the end of a match, and returns
/// the end of its span.
///
/// # Requires
///
/// The span starts at or before `end + 1`.
pub fn turn_back<C: Cursor>(input: &mut Input<C>, end: usize) -> usize
    requires span { input.old.asked.span.start ≤ end + 1 }
    ensures turned { IsTurnedBack input.old input.new end }
    ensures last { result ≡ input.old.asked.span.end }
{
    let last = input.end();
    input.set_end(end);
    input.set_anchored(Anchored::Yes);
    last
}

/// Sets an input to the forward search again, with this end of its span.
///
/// # Requires
///
/// The span starts at or before `last + 1`.
pub fn turn_forward<C: Cursor>(input: &mut Input<C>, last: usize)
    requires span { input.old.asked.span.start ≤ last + 1 }
    ensures asked { input.new.asked ≡ record input.old.asked {
      span = record input.old.asked.span { end = last };
      anchored = No;
    } }
    ensures same { IsSameContent input.old.cursor input.new.cursor }
{
    input.set_anchored(Anchored::No);
    input.set_end(last);
}

/// Returns the match with this half and this start.
///
/// # Requires
///
/// The start isn't past the half match's offset.
pub fn whole(half: HalfMatch, start: usize) -> Match
    requires { start ≤ half.offset }
    ensures { result ≡ whole_of half start }
{
    Match::new(
        half.pattern(),
        Span {
            start,
            end: half.offset(),
        },
    )
}

/// Returns whether the match is empty and at the end of the last one.
pub fn is_empty_at_last(found: &Match, last_match_end: Option<usize>) -> bool
    ensures { IsTrue result ↔ IsEmptyAtLast last_match_end found.now }
{
    found.is_empty() && last_match_end == Some(found.end())
}
