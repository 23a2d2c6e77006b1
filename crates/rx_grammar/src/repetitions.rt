//! Postfixes of atoms, which say how often an atom is repeated.

ghost use Rattle.std.specs.Prelude.{◌≡◌, ◌≤◌, ◌<◌, true, MatchOption};
ghost use Rattle.std.specs.Char.{is_ascii_digit};
ghost use Rattle.std.specs.List.{AllByRecursion};
ghost use Rattle.rx_grammar.specs.Repetitions.{Number, decimal_after, CountInBraces, Count, Postfix};
ghost use Rattle.rx_grammar.specs.Readers.{NoNumber, NoCountInBraces, NoCount, NoPostfix};

use crate::hir::Repetition;
use crate::input::{CharacterTest, eat, first, split_front};

/// The greatest number in braces.
const MAX_NUMBER: u32 = 65_535;

/// Returns the value of decimal digits, or `None` above 65,535.
fn number_of(digits: &[char]) -> Option<u32>
    ensures { MatchOption result (AllByRecursion (λ c. is_ascii_digit c ≡ true) digits.now
        → 65535 < decimal_after 0 digits.now) (λ n. (decimal_after 0 digits.now ≡ n) ×
        (n ≤ 65535)) }
{
    let mut number: u32 = 0;
    for digit in digits {
        number = 10 * number + digit.to_digit(10)?;
        if number > MAX_NUMBER {
            return None;
        }
    }
    Some(number)
}

/// Parses a number in braces, at most 65,535, which may have leading zeros.
pub(crate) fn number(text: &[char]) -> Option<(u32, &[char])>
    ensures { MatchOption result (NoNumber text.now) (λ r. Number text.now r.0 r.1.now) }
{
    let (digits, rest) = split_front(text, CharacterTest::Digit);
    if digits.is_empty() {
        return None;
    }
    match number_of(digits) {
        Some(number) => Some((number, rest)),
        None => None,
    }
}

/// The least and the greatest number of times; `None` is no limit.
pub(crate) type Bounds = (u32, Option<u32>);

/// Parses what follows a `{`: `n}`, `n,}` or `n,m}`.
fn count_in_braces(text: &[char]) -> Option<(Bounds, &[char])>
    ensures { MatchOption result (NoCountInBraces text.now)
        (λ r. CountInBraces text.now r.0.0 r.0.1 r.1.now) }
{
    let Some((least, rest)) = number(text) else {
        return None;
    };
    if let Some(after) = eat(rest, '}') {
        return Some(((least, Some(least)), after));
    }
    let Some(behind) = eat(rest, ',') else {
        return None;
    };
    if let Some(after) = eat(behind, '}') {
        return Some(((least, None), after));
    }
    let Some((most, last)) = number(behind) else {
        return None;
    };
    let Some(after) = eat(last, '}') else {
        return None;
    };
    if most < least {
        return None;
    }
    Some(((least, Some(most)), after))
}

/// Parses `*`, `+`, `?`, `{n}`, `{n,}` or `{n,m}`.
pub(crate) fn count(text: &[char]) -> Option<(Bounds, &[char])>
    ensures { MatchOption result (NoCount text.now) (λ r. Count text.now r.0.0 r.0.1 r.1.now) }
{
    let Some((sign, rest)) = first(text) else {
        return None;
    };
    match sign {
        '*' => Some(((0, None), rest)),
        '+' => Some(((1, None), rest)),
        '?' => Some(((0, Some(1)), rest)),
        '{' => count_in_braces(rest),
        _ => None,
    }
}

/// Parses a count, and the `?` after it that makes it lazy. `swap_greed` swaps lazy and greedy.
pub(crate) fn postfix(text: &[char], swap_greed: bool) -> Option<(Repetition, &[char])>
    ensures { MatchOption result (NoPostfix swap_greed text.now)
        (λ r. Postfix swap_greed text.now r.0 r.1.now) }
{
    let Some(((min, max), rest)) = count(text) else {
        return None;
    };
    match eat(rest, '?') {
        Some(after) => Some((
            Repetition {
                min,
                max,
                greedy: swap_greed,
            },
            after,
        )),
        None => Some((
            Repetition {
                min,
                max,
                greedy: !swap_greed,
            },
            rest,
        )),
    }
}
