//! Laws of the definitions that the contracts use. Each function does nothing: its contract is the
//! law, which is proved.

ghost use Rattle.rx_literals.specs.Beginnings.{MatchesComeBehind, NoNeedleNoMatch};
ghost use Rattle.rx_literals.specs.ByteSets.{MatchesComeFromMember, NoMemberNoMatch};
ghost use Rattle.rx_literals.specs.Literals.{LiteralsFind};
ghost use Rattle.rx_literals.specs.Requirements.{BeginningsAreContained, NoneContainedNoMatch};

/// If no needle occurs in a search's span, a program whose matches begin with the needles finds
/// nothing, unless the search is anchored.
pub fn no_needle_no_match()
    ensures { NoNeedleNoMatch }
{}

/// If a needle occurs, the program finds what it finds from there on.
pub fn matches_come_behind()
    ensures { MatchesComeBehind }
{}

/// If all matches of a program are one literal, it finds the literal's first occurrence in a
/// search's span, or the one at the span's start if the search is anchored, provided it is inside
/// the slice; and nothing if the literal doesn't occur.
pub fn literals_find()
    ensures { LiteralsFind }
{}

/// If none of the needles that each match of a program contains occurs in a search's span, it finds
/// nothing, unless the search is anchored.
pub fn none_contained_no_match()
    ensures { NoneContainedNoMatch }
{}

/// What the matches of a program begin with, they contain.
pub fn beginnings_are_contained()
    ensures { BeginningsAreContained }
{}

/// If a search's span has none of the bytes that a program's matches begin with, and the search
/// isn't anchored, it finds nothing.
pub fn no_member_no_match()
    ensures { NoMemberNoMatch }
{}

/// If it has one, the search finds what it finds from the first one on.
pub fn matches_come_from_member()
    ensures { MatchesComeFromMember }
{}
