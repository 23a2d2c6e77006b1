//! Laws of the definitions that the contracts of this crate cite. Each function does nothing: its
//! contract is the law.

ghost use Rattle.rope_search_reports.specs.Laws.{IsPatternOrNot, IsOneOfThree, FindsOne, HasFind, FindsAreInText, HasOneListOfMatches, HasMatches, HasOneListOfGroups, HasGroups, MatchesAreFew, GroupsFollowEachOther, ReplacedIsText, HasFewMatches, HasOneReport, HasReport, HasARowALine, PlacesAreInLines, HasOnePlace, MatchesStandAtBoundaries, HasLinesInPlace};
ghost use Rattle.rope_search_reports.specs.LineGroups.{GroupsAreOfRows, LineMatchesFollow, LineReplacedIsText};
ghost use Rattle.rope_search_reports.specs.Splice.{EditsSpliceLines, KeepsRows};
ghost use Rattle.rope_search_reports.specs.Changes.{ChangesKeepLines, TailsKeepLines};
ghost use Rattle.rope_search_reports.specs.Replacement.{ReplacementsAreChanges};
ghost use Rattle.rope_search_reports.specs.Turned.{ChangesLeadBack, ChangesTurnTwice, ChangesPutLines};

/// Each text is a pattern, or would be one but is too heavy, or spells nothing. So the text decides
/// what `Finder::new` returns, unless it runs out of memory.
pub fn pattern_or_not()
    ensures { IsPatternOrNot }
{}

/// It is only one of these.
pub fn one_of_three()
    ensures { IsOneOfThree }
{}

/// A search for a pattern has at most one result from an offset of a haystack on.
pub fn finds_one()
    ensures { FindsOne }
{}

/// It has a result: a match, or that there is none.
pub fn has_find()
    ensures { HasFind }
{}

/// A match that is found in a text starts at the offset where the search starts, or after it. It
/// starts and ends at character boundaries.
pub fn finds_are_in_text()
    ensures { FindsAreInText }
{}

/// A pattern has at most one list of matches in a haystack.
pub fn one_list_of_matches()
    ensures { HasOneListOfMatches }
{}

/// It has such a list.
pub fn has_matches()
    ensures { HasMatches }
{}

/// A pattern has at most one list of matches with their groups in a haystack.
pub fn one_list_of_groups()
    ensures { HasOneListOfGroups }
{}

/// It has such a list.
pub fn has_groups()
    ensures { HasGroups }
{}

/// Their number is at most the haystack's number of bytes plus one.
pub fn few_groups()
    ensures { MatchesAreFew }
{}

/// The first group that `groups_at` returns for a match is the span of that match in the row of its
/// line. It returns `None` exactly if the row has no match of that number.
pub fn groups_are_of_rows()
    ensures { GroupsAreOfRows }
{}

/// The matches in a text don't overlap, and each starts and ends at character boundaries.
pub fn groups_follow_each_other()
    ensures { GroupsFollowEachOther }
{}

/// The matches of lines, each searched separately, don't overlap in the text, and each starts and
/// ends at character boundaries.
pub fn line_matches_follow()
    ensures { LineMatchesFollow }
{}

/// A text in which the matches of lines, each searched separately, are replaced is a text.
pub fn line_replaced_is_text()
    ensures { LineReplacedIsText }
{}

/// A text in which all matches are replaced is a text.
pub fn replaced_is_text()
    ensures { ReplacedIsText }
{}

/// The number of matches in a report is at most the number of bytes of its text plus one.
pub fn few_matches()
    ensures { HasFewMatches }
{}

/// A text and a pattern have at most one report.
pub fn one_report()
    ensures { HasOneReport }
{}

/// They have one.
pub fn has_report()
    ensures { HasReport }
{}

/// A report has one row for each line of its text.
pub fn a_row_a_line()
    ensures { HasARowALine }
{}

/// Each offset of a text is in one of its lines.
pub fn places_are_in_lines()
    ensures { PlacesAreInLines }
{}

/// A position is that of at most one offset of a text.
pub fn one_place()
    ensures { HasOnePlace }
{}

/// Each match of a report starts and ends at a character boundary: its columns are those of two
/// positions in its row's line.
pub fn matches_at_boundaries()
    ensures { MatchesStandAtBoundaries }
{}

/// The bytes from the start of a line on are those of its text. One break follows, after which the
/// next line starts; the last line's text ends where the whole text ends.
pub fn lines_in_place()
    ensures { HasLinesInPlace }
{}

/// An edit replaces only the lines that it touches. Their number in the new text is at most the
/// number of breaks in the inserted text plus one.
pub fn edits_splice_lines()
    ensures { EditsSpliceLines }
{}

/// The report of an edited text has the rows of the lines that the edit keeps, and the rows of
/// those that it replaces.
pub fn splices_keep_rows()
    ensures { KeepsRows }
{}

/// The lines that begin after one change and end before the next are unchanged, whatever breaks are
/// at the ends of the changes.
pub fn changes_keep_lines()
    ensures { ChangesKeepLines }
{}

/// So are those that begin after the last change.
pub fn tails_keep_lines()
    ensures { TailsKeepLines }
{}

/// A replacement of matches is a list of changes. They keep the text outside the matches, in order,
/// and the number of lines that may be searched is that of the lines of the replacements.
pub fn replacements_are_changes()
    ensures { ReplacementsAreChanges }
{}

/// Reversed changes lead from the new text back to the old one.
pub fn changes_lead_back()
    ensures { ChangesLeadBack }
{}

/// Reversed again, they are the original changes.
pub fn changes_turn_twice()
    ensures { ChangesTurnTwice }
{}

/// The lines that may be searched for changes are those of the parts that they insert into the new
/// text.
pub fn changes_put_lines()
    ensures { ChangesPutLines }
{}
