//! Laws of the definitions in the contracts. Each function does nothing: its contract is the law.

ghost use Rattle.rx_program.specs.Closed.{PatternIsClosed, ProgramsAreClosed};
ghost use Rattle.rx_program.specs.Owned.{ProgramsHaveOwners, ProgramsKeepPatterns};
ghost use Rattle.rx_program.specs.Taking.{EmptyPathsAreTold, MayBeEmptyIsTold, PathsAreTaken, SearchesTakePaths};
ghost use Rattle.rx_program.specs.Laws.{GroupsAreNotedWhole, MatchesNoteTheirPlaces, ProgramsAreAbovePatterns, ProgramsNoteTheirPlaces};

use rx_sets::CharacterSet;
use rx_walks::laws_back::owners_keep_patterns;

/// Each edge of a pattern's program leads to one of its nodes, and so do its starts.
pub fn pattern_is_closed()
    ensures { PatternIsClosed }
{}

/// The same for the program of several patterns, or of none.
pub fn programs_are_closed()
    ensures { ProgramsAreClosed }
{}

/// In each search a match of a pattern's program has its start in slot 0 and its end in slot 1, if
/// the pattern's groups are numbered from 1 on, as parsed ones are.
pub fn matches_note_their_places()
    ensures { MatchesNoteTheirPlaces }
{}

/// In each search a match of a program of several patterns is one of these, of the one to which the
/// search is anchored, if it is, and has its start and its end in the slots of that pattern's group
/// 0.
pub fn programs_note_their_places()
    ensures { ProgramsNoteTheirPlaces }
{}

/// In each search a match has offsets in neither or both of the two slots of each group of each
/// pattern, also group 0, and the second offset isn't less than the first. The groups of a pattern
/// are numbered from 1 on, as parsed ones are.
pub fn groups_are_noted_whole()
    ensures { GroupsAreNotedWhole }
{}

/// In the program of patterns a single pattern has the start node; several, or none, have a node
/// above them with ordered edges to each.
pub fn programs_are_above_patterns()
    ensures { ProgramsAreAbovePatterns }
{}

/// What the program of a pattern matches is what the pattern's tree matches: a path leads from a
/// pattern's start node to a match end of it exactly if its tree matches the text between. This
/// holds in any haystack, whatever is read there as a character of a set, and whichever assertions
/// hold; and from an offset inside in each search.
pub fn paths_are_taken()
    ensures anywhere { PathsAreTaken }
    ensures searches { SearchesTakePaths }
{}

/// `may_be_empty`, which is computed from a tree's parts and decides how its program is laid out,
/// is whether the tree matches if there is no character and all assertions hold, also for a part of
/// a pattern, whatever the numbers of its groups. For a whole pattern it is whether a path from its
/// start node to its match reads no character, whatever assertions are on it.
pub fn may_be_empty_is_told()
    ensures trees { MayBeEmptyIsTold }
    ensures paths { EmptyPathsAreTold }
{}

/// The edges of the program of patterns stay in their pattern: each node but the one above the
/// patterns has one.
pub fn programs_have_owners()
    ensures { ProgramsHaveOwners }
{}

/// Therefore in each search each match that a walk from a pattern's start reaches is that
/// pattern's.
pub fn programs_keep_patterns()
    ensures { ProgramsKeepPatterns }
{
    programs_have_owners();
    owners_keep_patterns::<CharacterSet>();
}
