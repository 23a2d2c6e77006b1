//! Laws of the spelling of patterns, with the default settings of a regex, of searches for them,
//! and of haystacks in chunks. Each function does nothing: its contract is the law.

ghost use Rattle.rx_engine.specs.Engines.{Engine};
ghost use Rattle.regex_cursor.specs.AlikeLaws.{AnswersAlike};
ghost use Rattle.regex_cursor.specs.Patterns.{Tree};
ghost use Rattle.regex_cursor.specs.PatternLaws.{HasFinds, RegexesHaveTrees, SpellsOneTree, SpellsTreeOrNone};

use rx_grammar::CharacterSet;

/// A text spells at most one tree.
pub fn one_tree()
    ensures { SpellsOneTree }
{
    rx_grammar::laws::spells_at_most_one();
}

/// Each text spells a tree or none: whether a text has a regex is decidable.
pub fn tree_or_none()
    ensures { SpellsTreeOrNone }
{
    rx_grammar::laws::spells_or_not();
}

/// In each search a tree has exactly one result, a match or none, and exactly one list of matches.
/// They are inside the span, ascend, don't overlap, and in UTF-8 are whole characters.
pub fn finds_of_trees()
    ensures { (tree : Tree) → HasFinds tree }
{
    rx_walks::laws::finds_at_most_one::<CharacterSet>();
    rx_walks::laws::finds_exist::<CharacterSet>();
    rx_walks::laws::finds_lie_inside::<CharacterSet>();
    rx_walks::laws::finds_at_boundaries::<CharacterSet>();
    rx_walks::laws::matches_are_one_list::<CharacterSet>();
    rx_walks::laws::matches_exist::<CharacterSet>();
    rx_walks::laws::matches_are_found::<CharacterSet>();
    rx_walks::laws::matches_rise::<CharacterSet>();
    rx_walks::laws::matches_at_boundaries::<CharacterSet>();
    rx_walks::laws::first_matches_grow::<CharacterSet>();
}

/// Unless any match may be returned, a regex's result for an input is that of its pattern's tree in
/// the search that the input requests, also in slots: for a plain `Input::new`, and for one over a
/// whole haystack. Each match of that tree has stored its start and its end in the slots of group
/// 0, and of each group both offsets or neither. Why a pattern has no regex follows from that tree,
/// or from there being none.
pub fn regexes_have_trees()
    ensures { RegexesHaveTrees }
{
    rx_program::laws::matches_note_their_places();
    rx_program::laws::groups_are_noted_whole();
}

/// The results of a regex, with any settings, are the same for two inputs with the same bytes and
/// the same request, unless any match may be returned: the match, and the pattern with its offsets
/// in equally many slots. The bytes may be split into any chunks, those of a rope's slice or
/// others. Under `MatchKind::All` these are the offsets of the whole match.
pub fn answers_are_alike()
    ensures { (e : Engine) → AnswersAlike e }
{
    rx_chunk::laws::finds_of_engines();
}
