//! Atoms other than groups.

ghost use Rattle.std.specs.Prelude.{◌≡◌, ◌∷◌, ◌↔◌, IsTrue, MatchOption, IfOk};
ghost use Rattle.rx_grammar.specs.Escapes.{look_of};
ghost use Rattle.rx_grammar.specs.Grammar.{is_literal, IsDotAllowed, Escape, PlainAtom};
ghost use Rattle.rx_grammar.specs.Readers.{NoClass};
ghost use Rattle.rx_grammar.specs.Atoms.{atom_tree, ClassAtom, NoEscape, NoPlainAtom};

use crate::classes::{class, letter_named};
use crate::escapes::escaped_character;
use crate::hir::Look;
use crate::input::first;
use crate::sets::{class_set, dot_set, literal_set};
use crate::syntax::Config;
use rx_sets::{AtomSets, CharacterSet};
use std::alloc::{AllocError, Global};
use std::rc::Rc;

/// An atom other than a group.
#[derive(Debug, Drop)]
pub(crate) enum AtomTree {
    /// One character of a set.
    Set(Rc<CharacterSet>),
    /// A look-around assertion.
    Look(Look),
}

/// Returns whether the character is a literal: any but `\`, `.`, `+`, `*`, `?`, `(`, `)`, `|`, `[`,
/// `{`, `^` and `$`.
fn is_literal(c: char) -> bool
    ensures { result ≡ is_literal c }
{
    !matches!(
        c,
        '\\' | '.' | '+' | '*' | '?' | '(' | ')' | '|' | '[' | '{' | '^' | '$'
    )
}

/// Returns the assertion of an escape, given its letter.
pub(crate) fn look_of(letter: char) -> Option<Look>
    ensures { result ≡ look_of letter }
{
    match letter {
        'A' => Some(Look::Start),
        'z' => Some(Look::End),
        'b' => Some(Look::WordUnicode),
        'B' => Some(Look::WordUnicodeNegate),
        _ => None,
    }
}

/// Returns whether `.` is allowed: with the flag `s`, or if the line terminator is an ASCII byte.
fn is_dot_allowed(config: &Config) -> bool
    ensures { IsTrue result ↔ IsDotAllowed config.now }
{
    config.get_dot_matches_new_line() || config.get_line_terminator() < 128
}

/// Parses an escape after its backslash.
fn escape<'a>(
    sets: &mut AtomSets,
    text: &'a [char],
    config: &Config,
) -> Result<Option<(AtomTree, &'a [char])>, AllocError>
    ensures { IfOk result (λ found. MatchOption found (NoEscape config.now text.now)
        (λ r. Escape config.now text.now (atom_tree r.0) r.1.now)) }
{
    if let Some((c, rest)) = escaped_character(text) {
        let set = literal_set(sets, config, c)?;
        return Ok(Some((AtomTree::Set(set), rest)));
    }
    let Some((letter, rest)) = first(text) else {
        return Ok(None);
    };
    if let Some((kind, negated)) = letter_named(letter) {
        let set = sets.perl(kind, negated)?;
        return Ok(Some((AtomTree::Set(set), rest)));
    }
    match look_of(letter) {
        Some(look) => Ok(Some((AtomTree::Look(look), rest))),
        None => Ok(None),
    }
}

/// Parses a class after its `[`.
fn class_atom<'a>(
    alloc: Global,
    sets: &mut AtomSets,
    text: &'a [char],
    config: &Config,
) -> Result<Option<(AtomTree, &'a [char])>, AllocError>
    ensures { IfOk result (λ found. MatchOption found (NoClass text.now)
        (λ r. ClassAtom config.now text.now (atom_tree r.0) r.1.now)) }
{
    let Some(((negated, items), rest)) = class(alloc, text)? else {
        return Ok(None);
    };
    let set = class_set(sets, config, negated, &items)?;
    Ok(Some((AtomTree::Set(set), rest)))
}

/// Returns the atom of a `.`.
fn dot<'a>(
    sets: &mut AtomSets,
    rest: &'a [char],
    config: &Config,
) -> Result<Option<(AtomTree, &'a [char])>, AllocError>
    ensures { IfOk result (λ found. MatchOption found (NoPlainAtom config.now (46 ∷ rest.now))
        (λ r. PlainAtom config.now (46 ∷ rest.now) (atom_tree r.0) r.1.now)) }
{
    if !is_dot_allowed(config) {
        return Ok(None);
    }
    let set = dot_set(sets, config)?;
    Ok(Some((AtomTree::Set(set), rest)))
}

/// Returns the atom of a literal.
fn literal<'a>(
    sets: &mut AtomSets,
    c: char,
    rest: &'a [char],
    config: &Config,
) -> Result<Option<(AtomTree, &'a [char])>, AllocError>
    requires special { (c ≡ 46 → ⊥) × (c ≡ 94 → ⊥) × (c ≡ 36 → ⊥) × (c ≡ 92 → ⊥) × (c ≡ 91 → ⊥) }
    ensures { IfOk result (λ found. MatchOption found (NoPlainAtom config.now (c ∷ rest.now))
        (λ r. PlainAtom config.now (c ∷ rest.now) (atom_tree r.0) r.1.now)) }
{
    if !is_literal(c) {
        return Ok(None);
    }
    let set = literal_set(sets, config, c)?;
    Ok(Some((AtomTree::Set(set), rest)))
}

/// Parses an atom other than a group, and returns the text after it, or `None` if there is none.
pub(crate) fn plain_atom<'a>(
    alloc: Global,
    sets: &mut AtomSets,
    text: &'a [char],
    config: &Config,
) -> Result<Option<(AtomTree, &'a [char])>, AllocError>
    ensures { IfOk result (λ found. MatchOption found (NoPlainAtom config.now text.now)
        (λ r. PlainAtom config.now text.now (atom_tree r.0) r.1.now)) }
{
    let Some((c, rest)) = first(text) else {
        return Ok(None);
    };
    match c {
        '.' => dot(sets, rest, config),
        '^' => Ok(Some((AtomTree::Look(config.line_start()), rest))),
        '$' => Ok(Some((AtomTree::Look(config.line_end()), rest))),
        '\\' => escape(sets, rest, config),
        '[' => class_atom(alloc, sets, rest, config),
        _ => literal(sets, c, rest, config),
    }
}
