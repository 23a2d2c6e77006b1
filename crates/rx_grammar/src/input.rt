//! Reading the start of a pattern's text. Each parser here and in the modules beside this one takes
//! a text, and returns what it parsed and the rest of the text.

ghost use Rattle.std.specs.Prelude.{◌≡◌, [], ◌∷◌, MatchOption};
ghost use Rattle.rx_grammar.specs.Input.{Begins};
ghost use Rattle.rx_grammar.specs.Readers.{passes, SplitsFront};

/// A test of a character.
#[derive(Debug, Clone, Copy, PartialEq, Eq)]
pub(crate) enum CharacterTest {
    /// 0 to 9.
    Digit,
    /// 0 to 9, a to f and A to F.
    HexDigit,
    /// A character of a group's name: an ASCII letter, a digit or `_`.
    NameCharacter,
}

impl CharacterTest {
    /// Returns whether the character passes.
    pub(crate) fn passes(self, c: char) -> bool
        ensures { result ≡ passes self c }
    {
        match self {
            CharacterTest::Digit => c.is_ascii_digit(),
            CharacterTest::HexDigit => c.is_ascii_hexdigit(),
            CharacterTest::NameCharacter => c.is_ascii_alphanumeric() || c == '_',
        }
    }
}

/// Returns the first character and the rest, or `None` for the empty text.
pub(crate) fn first(text: &[char]) -> Option<(char, &[char])>
    ensures { MatchOption result (text.now ≡ []) (λ r. text.now ≡ r.0 ∷ r.1.now) }
{
    let (first, rest) = text.split_first()?;
    Some((*first, rest))
}

/// Returns the text after `c`, or `None` if the text doesn't start with `c`.
pub(crate) fn eat(text: &[char], c: char) -> Option<&[char]>
    ensures { MatchOption result (Begins c text.now → ⊥) (λ rest. text.now ≡ c ∷ rest.now) }
{
    let (found, rest) = first(text)?;
    if found == c { Some(rest) } else { None }
}

/// Returns the longest prefix whose characters pass the test, and the rest.
pub(crate) fn split_front(text: &[char], test: CharacterTest) -> (&[char], &[char])
    ensures { SplitsFront test text.now result.0.now result.1.now }
{
    for (i, c) in text.iter().enumerate() {
        if !test.passes(*c) {
            return text.split_at(i);
        }
    }
    text.split_at(text.len())
}
