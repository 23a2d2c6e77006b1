//! Laws of the grammar. Each function does nothing: its contract is the law.

ghost use Rattle.std.specs.Prelude.{ℕ, List};
ghost use Rattle.rx_grammar.specs.Settings.{Settings};
ghost use Rattle.rx_grammar.specs.Laws.{HasFewGroups, NumbersGroups, SpellsAtMostOne, SpellsOrNot};

/// A text has at most one tree with given settings.
pub fn spells_at_most_one()
    ensures { (text : List ℕ) (settings : Settings) → SpellsAtMostOne text settings }
{}

/// A text has a tree with given settings, or has one only with a greater nest limit, or has none
/// with any. So the result of `parse`, given enough memory, is decided for each text.
pub fn spells_or_not()
    ensures { (text : List ℕ) (settings : Settings) → SpellsOrNot text settings }
{}

/// The groups of a tree are numbered from 1, in the order in which they open.
pub fn groups_are_numbered()
    ensures { (text : List ℕ) (settings : Settings) → NumbersGroups text settings }
{}

/// There are at most 65,536 groups.
pub fn groups_are_few()
    ensures { (text : List ℕ) (settings : Settings) → HasFewGroups text settings }
{}
