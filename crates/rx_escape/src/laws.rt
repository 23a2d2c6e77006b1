//! Laws of escaped texts. Each function does nothing: its contract is the law.

ghost use Rattle.std.specs.Prelude.{ℕ, List};
ghost use Rattle.rx_grammar.specs.Settings.{Settings};
ghost use Rattle.rx_escape.specs.Laws.{MatchesItsText, SpellsItsText, WeighsLittle};

/// An escaped text of at most 65,536 bytes is a pattern: the concatenation of the text's
/// characters.
pub fn escaped_spells_its_text()
    ensures { (text : List ℕ) (settings : Settings) → SpellsItsText text settings }
{}

/// In each search the matches of an escaped text are the occurrences of the text's bytes: from each
/// offset there is one exactly if the bytes occur there, and it takes these bytes.
pub fn escaped_matches_its_text()
    ensures { (text : List ℕ) → MatchesItsText text }
{}

/// An escaped text weighs at most 4 more than twice its number of characters, so at most 131,076.
pub fn escaped_weighs_little()
    ensures { (text : List ℕ) → WeighsLittle text }
{}
