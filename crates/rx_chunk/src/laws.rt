//! Laws of what engines find. Each function does nothing: its contract is the law.

ghost use Rattle.rx_walks.specs.Machines.{Outcome};
ghost use Rattle.rx_walks.specs.Programs.{Notes};
ghost use Rattle.rx_chunk.specs.Engines.{Engine};
ghost use Rattle.rx_chunk.specs.Iterating.{FewerAreLeft, GivesByAnyEngine, MatchesLeft};
ghost use Rattle.rx_chunk.specs.Lists.{HasFinds};
ghost use Rattle.rx_chunk.specs.Owned.{GroupsHaveTheirSlots, OthersHoldNone};

use rx_util::MatchError;

/// If a search finds a match of one pattern, the slots of the other patterns' groups are empty.
pub fn slots_of_other_patterns_hold_none()
    ensures { OthersHoldNone }
{}

/// The slots that `GroupInfo` gives for a pattern's groups are those that the pattern's part of the
/// program writes: the whole match in those of group 0, each other group in its own two. The code
/// of a part of the pattern writes only the slots of the groups in that part, however often it is
/// repeated.
pub fn groups_have_their_slots()
    ensures { GroupsHaveTheirSlots }
{}

/// In each search an engine finds exactly one thing, a match or none, and has exactly one list of
/// matches, whichever match it reports. The matches are in the span, in order, and don't overlap.
pub fn finds_of_engines()
    ensures { (e : Engine) → HasFinds e }
{}

/// An iterator over the matches of an engine gives the first members of the list of all matches, in
/// order, also before an error, and all of them if it is drained without an error. This holds
/// whatever it returns of each match.
pub fn iterators_give_all_matches<A, I: Iterator<Item = Result<A, MatchError>>>()
    ensures { (item_of : Outcome Notes → A) (left : I → MatchesLeft)
        → GivesByAnyEngine item_of left I.next_gives }
{}

/// An iterator over matches ends: after each match, after an error and after none, fewer are left.
pub fn fewer_are_left()
    ensures { FewerAreLeft }
{}
