//! Classes in brackets.

ghost use Rattle.std.specs.Prelude.{◌≡◌, ◌∷◌, MatchOption, IfOk, true, false};
ghost use Rattle.rx_grammar.specs.Input.{Begins};
ghost use Rattle.rx_grammar.specs.Escapes.{perl_letter};
ghost use Rattle.rx_grammar.specs.Readers.{IsNoClassLetter, NoClassCharacter, NoLetterClass, RangeGoesOn, NoItem, NoItems, ItemsAfter, NoClassBody, NoClass};
ghost use Rattle.rx_grammar.specs.Classes.{is_class_literal, doubles, ClassCharacter, GoesOnAsRange, OneItem, ClassBody, Class};

use crate::escapes::escaped_character;
use crate::input::{eat, first};
use rx_sets::{ClassItem, ClassPerlKind};
use std::alloc::{AllocError, Global};

/// Returns whether the character is a literal anywhere in a class: any but `\`, `[`, `]` and `-`.
fn is_class_literal(c: char) -> bool
    ensures { result ≡ is_class_literal c }
{
    !(c == '\\' || c == '[' || c == ']' || c == '-')
}

/// Returns whether a class refuses two of the character in a row: `&`, `-` and `~`.
pub(crate) fn doubles(c: char) -> bool
    ensures { result ≡ doubles c }
{
    c == '&' || c == '-' || c == '~'
}

/// Parses one character of a class, a literal or an escape.
pub(crate) fn class_character(text: &[char]) -> Option<(char, &[char])>
    ensures { MatchOption result (NoClassCharacter text.now)
        (λ r. ClassCharacter text.now r.0 r.1.now) }
{
    let Some((c, rest)) = first(text) else {
        return None;
    };
    if c == '\\' {
        return escaped_character(rest);
    }
    if !is_class_literal(c) {
        return None;
    }
    if !doubles(c) {
        return Some((c, rest));
    }
    match eat(rest, c) {
        Some(_) => None,
        None => Some((c, rest)),
    }
}

/// Returns the class of `d`, `s` or `w`; a capital letter negates it.
pub(crate) fn letter_named(letter: char) -> Option<(ClassPerlKind, bool)>
    ensures { MatchOption result (IsNoClassLetter letter) (λ r. letter ≡ perl_letter r.0 r.1) }
{
    match letter {
        'd' => Some((ClassPerlKind::Digit, false)),
        'D' => Some((ClassPerlKind::Digit, true)),
        's' => Some((ClassPerlKind::Space, false)),
        'S' => Some((ClassPerlKind::Space, true)),
        'w' => Some((ClassPerlKind::Word, false)),
        'W' => Some((ClassPerlKind::Word, true)),
        _ => None,
    }
}

/// Parses `\d`, `\D`, `\s`, `\S`, `\w` or `\W`: the class, and whether it is negated.
pub(crate) fn letter_class(text: &[char]) -> Option<((ClassPerlKind, bool), &[char])>
    ensures { MatchOption result (NoLetterClass text.now)
        (λ r. text.now ≡ 92 ∷ perl_letter r.0.0 r.0.1 ∷ r.1.now) }
{
    let Some(behind) = eat(text, '\\') else {
        return None;
    };
    let Some((letter, rest)) = first(behind) else {
        return None;
    };
    match letter_named(letter) {
        Some(named) => Some((named, rest)),
        None => None,
    }
}

/// Parses the `-` between the two ends of a range. A `-` before `]` is none.
fn range_goes_on(text: &[char]) -> Option<&[char]>
    ensures { MatchOption result (GoesOnAsRange text.now → ⊥)
        (λ rest. RangeGoesOn text.now rest.now) }
{
    let Some(rest) = eat(text, '-') else {
        return None;
    };
    match eat(rest, ']') {
        Some(_) => None,
        None => Some(rest),
    }
}

/// Parses one item of a class: a character, a range of characters or a letter class.
pub(crate) fn class_item(text: &[char]) -> Option<(ClassItem, &[char])>
    ensures { MatchOption result (NoItem text.now) (λ r. OneItem text.now r.0 r.1.now) }
{
    if let Some(((kind, negated), rest)) = letter_class(text) {
        return Some((ClassItem::Perl(kind, negated), rest));
    }
    let Some((low, rest)) = class_character(text) else {
        return None;
    };
    let Some(behind) = range_goes_on(rest) else {
        return Some((ClassItem::Span(low, low), rest));
    };
    let Some((high, last)) = class_character(behind) else {
        return None;
    };
    if high < low {
        return None;
    }
    Some((ClassItem::Span(low, high), last))
}

/// Parses the items up to the closing `]`, and appends them to `items`. A `-` before that `]` is a
/// literal.
fn class_items(
    text: &[char],
    mut items: Vec<ClassItem>,
) -> Result<Option<(Vec<ClassItem>, &[char])>, AllocError>
    ensures { IfOk result (λ found. MatchOption found (NoItems text.now)
        (λ r. ItemsAfter items.items r.0.items text.now r.1.now)) }
{
    let mut rest = text;
    while let Some((item, behind)) = class_item(rest) {
        items.push(item)?;
        rest = behind;
    }
    if let Some(behind) = eat(rest, ']') {
        return Ok(Some((items, behind)));
    }
    let Some(last) = eat(rest, '-') else {
        return Ok(None);
    };
    let Some(behind) = eat(last, ']') else {
        return Ok(None);
    };
    items.push(ClassItem::Span('-', '-'))?;
    Ok(Some((items, behind)))
}

/// Parses the items of a class, in which a first `]` or `-` is a literal.
fn class_body(alloc: Global, text: &[char]) -> Result<Option<(Vec<ClassItem>, &[char])>, AllocError>
    ensures { IfOk result (λ found. MatchOption found (NoClassBody text.now)
        (λ r. ClassBody text.now r.0.items r.1.now)) }
{
    let mut items = Vec::new(alloc);
    if let Some(behind) = eat(text, ']') {
        items.push(ClassItem::Span(']', ']'))?;
        return class_items(behind, items);
    }
    let Some(behind) = eat(text, '-') else {
        return class_items(text, items);
    };
    match eat(behind, '-') {
        Some(_) => Ok(None),
        None => {
            items.push(ClassItem::Span('-', '-'))?;
            class_items(behind, items)
        }
    }
}

/// Parses a class after its `[`: whether `^` negates it, its items in order, and the text after its
/// `]`. `None` if there is no class. Fails only if out of memory.
pub(crate) fn class(
    alloc: Global,
    text: &[char],
) -> Result<Option<((bool, Vec<ClassItem>), &[char])>, AllocError>
    ensures { IfOk result (λ found. MatchOption found (NoClass text.now)
        (λ r. Class text.now r.0.0 r.0.1.items r.1.now)) }
{
    let Some(behind) = eat(text, '^') else {
        return plain_class(alloc, text);
    };
    let found = class_body(alloc, behind)?;
    match found {
        Some((items, rest)) => Ok(Some(((true, items), rest))),
        None => Ok(None),
    }
}

/// Parses a class without a leading `^`.
fn plain_class(
    alloc: Global,
    text: &[char],
) -> Result<Option<((bool, Vec<ClassItem>), &[char])>, AllocError>
    requires { Begins 94 text.now → ⊥ }
    ensures { IfOk result (λ found. MatchOption found (NoClass text.now)
        (λ r. Class text.now r.0.0 r.0.1.items r.1.now)) }
{
    let found = class_body(alloc, text)?;
    match found {
        Some((items, rest)) => Ok(Some(((false, items), rest))),
        None => Ok(None),
    }
}
