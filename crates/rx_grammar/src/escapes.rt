//! Escapes.

ghost use Rattle.std.specs.Prelude.{◌≡◌, ◌≤◌, MatchOption, ℕ};
ghost use Rattle.rx_grammar.specs.Escapes.{SpellsScalar, EscapedCharacter, NumberOfLength, NumberInBraces, NumberAfter, escaped_by};
ghost use Rattle.rx_grammar.specs.Readers.{SpellsNoCharacter, NoNumberOfLength, NoNumberInBraces, NoNumberAfter};

use crate::input::{CharacterTest, eat, first, split_front};

/// Returns the character of an escape of one character: a control character for `a`, `f`, `t`, `n`,
/// `r` and `v`, and the character itself for any ASCII character but letters, digits, `<` and `>`.
pub(crate) fn escaped_by(c: char) -> Option<char>
    ensures { result ≡ escaped_by c }
{
    match c {
        'a' => Some('\u{7}'),
        'f' => Some('\u{C}'),
        't' => Some('\t'),
        'n' => Some('\n'),
        'r' => Some('\r'),
        'v' => Some('\u{B}'),
        '<' | '>' => None,
        _ if c.is_ascii() && !c.is_ascii_alphanumeric() => Some(c),
        _ => None,
    }
}

/// The greatest scalar value.
pub(crate) const MAX_SCALAR: u32 = 0x10_FFFF;

/// Returns the scalar value of hexadecimal digits.
fn scalar_of(digits: &[char]) -> Option<char>
    ensures { MatchOption result ((c : ℕ) → SpellsScalar digits.now c → ⊥)
        (λ c. SpellsScalar digits.now c) }
{
    let mut code: u32 = 0;
    for digit in digits {
        code = 16 * code + digit.to_digit(16)?;
        if code > MAX_SCALAR {
            return None;
        }
    }
    char::from_u32(code)
}

/// Parses what follows `\x` or `\u`: `count` hexadecimal digits, or one to eight in braces.
fn number_after(text: &[char], count: usize) -> Option<(char, &[char])>
    requires { 1 ≤ count }
    ensures { MatchOption result (NoNumberAfter count text.now)
        (λ r. NumberAfter count text.now r.0 r.1.now) }
{
    match eat(text, '{') {
        Some(inside) => number_in_braces(inside),
        None => number_of_length(text, count),
    }
}

/// Parses one to eight hexadecimal digits and `}`.
fn number_in_braces(text: &[char]) -> Option<(char, &[char])>
    ensures { MatchOption result (NoNumberInBraces text.now)
        (λ r. NumberInBraces text.now r.0 r.1.now) }
{
    let (digits, rest) = split_front(text, CharacterTest::HexDigit);
    let Some(rest) = eat(rest, '}') else {
        return None;
    };
    if digits.is_empty() || digits.len() > 8 {
        return None;
    }
    match scalar_of(digits) {
        Some(c) => Some((c, rest)),
        None => None,
    }
}

/// Parses exactly `count` hexadecimal digits.
fn number_of_length(text: &[char], count: usize) -> Option<(char, &[char])>
    ensures { MatchOption result (NoNumberOfLength count text.now)
        (λ r. NumberOfLength count text.now r.0 r.1.now) }
{
    if text.len() < count {
        return None;
    }
    let (digits, rest) = text.split_at(count);
    match scalar_of(digits) {
        Some(c) => Some((c, rest)),
        None => None,
    }
}

/// Parses an escaped character after its backslash.
pub(crate) fn escaped_character(text: &[char]) -> Option<(char, &[char])>
    ensures { MatchOption result (SpellsNoCharacter text.now)
        (λ r. EscapedCharacter text.now r.0 r.1.now) }
{
    let Some((letter, rest)) = first(text) else {
        return None;
    };
    if letter == 'x' {
        return number_after(rest, 2);
    }
    if letter == 'u' {
        return number_after(rest, 4);
    }
    match escaped_by(letter) {
        Some(c) => Some((c, rest)),
        None => None,
    }
}
