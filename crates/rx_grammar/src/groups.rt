//! Heads of groups, and settings.

ghost use Rattle.std.specs.Prelude.{◌≡◌, ◌≢◌, AllPairs, ◌∷◌, ◌++◌, MatchOption, IfOk};
ghost use Rattle.rx_grammar.specs.Groups.{is_name_start, IsName, opened};
ghost use Rattle.rx_grammar.specs.Input.{Begins};
ghost use Rattle.rx_grammar.specs.Heads.{capture_of, NameOpening, NoNameOpening, IsFlagLetter, NoFlagLetter, FlagsAfter, NoFlagsAfter, FlagsChange, NoFlags, NoName, IsHead, NoHead};

use crate::flags::Flag;
use crate::input::{CharacterTest, eat, first, split_front};
use crate::syntax::Config;
use std::alloc::{AllocError, Global};

/// What a group captures.
#[derive(Debug, Drop)]
pub(crate) enum GroupKind {
    /// The group has a number, and possibly a name.
    Numbered(Option<String>),
    /// The group has no number.
    Unnumbered,
}

impl GroupKind {
    /// Returns the number of numbered groups that the group is, 0 or 1.
    pub(crate) fn count(&self) -> u32
        ensures { result ≡ opened 0 (capture_of self.now) }
    {
        match self {
            GroupKind::Numbered(_) => 1,
            GroupKind::Unnumbered => 0,
        }
    }
}

/// What a parenthesis starts.
#[derive(Debug, Drop)]
pub(crate) enum Head {
    /// A setting, with the settings after it.
    Setting(Config),
    /// A group, with the settings inside it and what it captures.
    Group(Config, GroupKind),
}

/// Parses the letter of a flag.
fn flag_letter(text: &[char]) -> Option<(Flag, &[char])>
    ensures { MatchOption result (NoFlagLetter text.now) (λ r. IsFlagLetter text.now r.0 r.1.now) }
{
    let Some((letter, rest)) = first(text) else {
        return None;
    };
    match letter {
        'i' => Some((Flag::CaseInsensitive, rest)),
        'm' => Some((Flag::MultiLine, rest)),
        's' => Some((Flag::DotMatchesNewLine, rest)),
        'U' => Some((Flag::SwapGreed, rest)),
        _ => None,
    }
}

/// Parses the letters of flags, and appends the flags to `flags`. `None` if a flag is repeated.
fn flag_letters(
    text: &[char],
    mut flags: Vec<Flag>,
) -> Result<Option<(Vec<Flag>, &[char])>, AllocError>
    requires { AllPairs (λ a b. a ≢ b) flags.items }
    ensures { IfOk result (λ found. MatchOption found (NoFlagsAfter flags.items text.now)
        (λ r. FlagsAfter flags.items r.0.items text.now r.1.now)) }
{
    let mut rest = text;
    while let Some((flag, behind)) = flag_letter(rest) {
        if flags.contains(&flag) {
            return Ok(None);
        }
        flags.push(flag)?;
        rest = behind;
    }
    Ok(Some((flags, rest)))
}

/// Parses flags and applies them to the settings: those before a `-` are turned on, those after it
/// off.
fn flag_changes<'a>(
    alloc: Global,
    text: &'a [char],
    config: &Config,
) -> Result<Option<(Config, &'a [char])>, AllocError>
    ensures { IfOk result (λ found. MatchOption found (NoFlags text.now)
        (λ r. FlagsChange config.now text.now r.0 r.1.now)) }
{
    let Some((on, rest)) = flag_letters(text, Vec::new(alloc))? else {
        return Ok(None);
    };
    let count = on.len();
    let changed = config.with_flags(true, &on);
    let Some(behind) = eat(rest, '-') else {
        return Ok(if count == 0 {
            None
        } else {
            Some((changed, rest))
        });
    };
    let Some((all, last)) = flag_letters(behind, on)? else {
        return Ok(None);
    };
    if all.len() == count {
        return Ok(None);
    }
    Ok(Some((changed.with_flags(false, &all[count..]), last)))
}

/// Returns whether a name may start with the character.
pub(crate) fn is_name_start(c: char) -> bool
    ensures { result ≡ is_name_start c }
{
    c.is_ascii_alphabetic() || c == '_'
}

/// Parses a name and the `>` after it.
fn group_name(text: &[char]) -> Option<(&[char], &[char])>
    ensures { MatchOption result (NoName text.now)
        (λ r. IsName r.0.now × (text.now ≡ r.0.now ++ 62 ∷ r.1.now)) }
{
    let (front, rest) = split_front(text, CharacterTest::NameCharacter);
    let Some((start, _)) = first(front) else {
        return None;
    };
    if !is_name_start(start) {
        return None;
    }
    match eat(rest, '>') {
        Some(behind) => Some((front, behind)),
        None => None,
    }
}

/// Parses `P<` or `<`.
fn before_name(text: &[char]) -> Option<&[char]>
    ensures { MatchOption result (NoNameOpening text.now) (λ rest. NameOpening text.now rest.now) }
{
    match eat(text, 'P') {
        Some(behind) => eat(behind, '<'),
        None => eat(text, '<'),
    }
}

/// Parses what follows `(?` if that is flags.
fn flagged_head<'a>(
    alloc: Global,
    text: &'a [char],
    config: &Config,
) -> Result<Option<(Head, &'a [char])>, AllocError>
    requires colon { Begins 58 text.now → ⊥ }
    requires name { NoNameOpening text.now }
    ensures { IfOk result (λ found. MatchOption found (NoHead config.now (40 ∷ 63 ∷ text.now))
        (λ r. IsHead config.now (40 ∷ 63 ∷ text.now) r.0 r.1.now)) }
{
    let Some((changed, rest)) = flag_changes(alloc, text, config)? else {
        return Ok(None);
    };
    if let Some(behind) = eat(rest, ')') {
        return Ok(Some((Head::Setting(changed), behind)));
    }
    match eat(rest, ':') {
        Some(behind) => Ok(Some((Head::Group(changed, GroupKind::Unnumbered), behind))),
        None => Ok(None),
    }
}

/// Parses what follows `(?`.
fn marked_head<'a>(
    alloc: Global,
    text: &'a [char],
    config: &Config,
) -> Result<Option<(Head, &'a [char])>, AllocError>
    ensures { IfOk result (λ found. MatchOption found (NoHead config.now (40 ∷ 63 ∷ text.now))
        (λ r. IsHead config.now (40 ∷ 63 ∷ text.now) r.0 r.1.now)) }
{
    if let Some(rest) = eat(text, ':') {
        return Ok(Some((Head::Group(config.copied(), GroupKind::Unnumbered), rest)));
    }
    let Some(inside) = before_name(text) else {
        return flagged_head(alloc, text, config);
    };
    let Some((name, rest)) = group_name(inside) else {
        return Ok(None);
    };
    let captures = GroupKind::Numbered(Some(name.iter().copied().collect(alloc)?));
    Ok(Some((Head::Group(config.copied(), captures), rest)))
}

/// Parses a setting or the head of a group. `None` if the text starts with neither.
pub(crate) fn group_head<'a>(
    alloc: Global,
    text: &'a [char],
    config: &Config,
) -> Result<Option<(Head, &'a [char])>, AllocError>
    ensures { IfOk result (λ found. MatchOption found (NoHead config.now text.now)
        (λ r. IsHead config.now text.now r.0 r.1.now)) }
{
    let Some(inside) = eat(text, '(') else {
        return Ok(None);
    };
    match eat(inside, '?') {
        Some(behind) => marked_head(alloc, behind, config),
        None => Ok(Some((
            Head::Group(config.copied(), GroupKind::Numbered(None)),
            inside,
        ))),
    }
}
