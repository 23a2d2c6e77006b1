//! Several edits of a text as one.
ghost use Rattle.std.specs.Prelude.{◌≡◌, ◌⊎◌, ℕ, List, map, true, false, chars, IsUtf8, Err, IfOk, IfErr, IfNone, IfSome, OnOk};
ghost use Rattle.ropey.specs.Chunks.{text_of};
ghost use Rattle.rope_search_templates.specs.Substitutions.{told};
ghost use Rattle.rope_search_templates.specs.Substitutions as places;
ghost use Rattle.rope_search_reports.specs.Changes.{AreChanges};
ghost use Rattle.rope_search.specs.Edits.{AcceptsEdits, PayloadsAreUtf8, IsFirstAgainst, LieInOrder, LiesBehind, MakeOf, in_full, lines_of_edits};

use crate::limits::Limits;
use rope_search_io::Fault;
use rope_search_reports::{Position, places_of};
use rope_search_templates::{Replacement, Substitution, substitute_all};
use ropey::Rope;
use simdutf8::compat::from_utf8;
use std::alloc::Global;

/// One of several edits that are made as one. The positions of all are those of the text before any
/// of them.
#[derive(Clone, Copy, Debug)]
pub struct Edit<'a> {
    /// Where the replaced part starts.
    pub from: Position,
    /// Where it ends.
    pub to: Position,
    /// The new bytes. They need not be UTF-8.
    pub text: &'a [u8],
}

/// Returns the byte offsets between which an edit is, or `None` if one of its positions is nowhere,
/// the second is before the first, or the first is before `at`.
fn span_behind(text: &Rope, at: usize, edit: &Edit<'_>) -> Option<(usize, usize)>
    ensures span { IfSome result (λ span.
        LiesBehind (text_of text.now) at (in_full edit.now) span.0 span.1) }
    ensures none { IfNone result ((start end : ℕ)
        → LiesBehind (text_of text.now) at (in_full edit.now) start end → ⊥) }
{
    // For the proof: a law, and the text's facts.
    rope_search_reports::laws::one_place();
    let _ = text.len_bytes();
    let (from, to) = places_of(text, edit.from, edit.to)?;
    let (start, end) = (from.byte_idx, to.byte_idx);
    if start < at || end < start {
        return None;
    }
    Some((start, end))
}

/// Returns the text of an edit, and whether its bytes and those of the edits before it are UTF-8.
/// If its own aren't, the text is empty.
fn text_in<'a>(edit: &Edit<'a>, is_utf8: bool) -> (&'a str, bool)
    ensures text { IsUtf8 result.0.now }
    ensures utf8 { result.1 ≡ true → (is_utf8 ≡ true) × IsUtf8 edit.now.text.now
        × (chars result.0.now ≡ chars edit.now.text.now) }
    ensures broken { result.1 ≡ false → (is_utf8 ≡ false) ⊎ ¬ (IsUtf8 edit.now.text.now) }
{
    match from_utf8(edit.text) {
        Ok(text) => (text, is_utf8),
        Err(_) => ("", false),
    }
}

/// Returns the byte offsets and the text of each edit. Errors: `Fault::Range` if one is nowhere or
/// not after the one before it, otherwise `Fault::Utf8` if the bytes of one aren't UTF-8;
/// `Fault::Memory`.
fn substitutions_of<'a>(
    alloc: Global,
    text: &Rope,
    edits: &[Edit<'a>],
) -> Result<Vec<Substitution<'a>>, Fault>
    ensures lie { IfOk result (λ made.
        LieInOrder (text_of text.now) 0 (map in_full edits.now) (map told made.items)) }
    ensures texts { IfOk result (λ made. places.AreUtf8 made.items) }
    ensures utf8 { OnOk result (PayloadsAreUtf8 (map in_full edits.now)) }
    ensures range { result ≡ Err Fault.Range → (all : List places.Substitution)
        → LieInOrder (text_of text.now) 0 (map in_full edits.now) all → ⊥ }
    ensures broken { result ≡ Err Fault.Utf8 → ¬ (PayloadsAreUtf8 (map in_full edits.now)) }
    ensures placed { result ≡ Err Fault.Utf8 → (all : List places.Substitution)
        × LieInOrder (text_of text.now) 0 (map in_full edits.now) all }
    ensures fault { IfErr result (λ fault.
        (fault ≡ Fault.Range) ⊎ ((fault ≡ Fault.Utf8) ⊎ (fault ≡ Fault.Memory))) }
{
    // For the proof: a law, and the text's facts.
    rope_search_reports::laws::one_place();
    let _ = text.len_bytes();
    let mut substitutions = Vec::with_capacity(alloc, edits.len())?;
    // Where the last edit ends, and whether all texts so far are UTF-8.
    let (mut at, mut is_utf8) = (0, true);
    for edit in edits {
        let Some((start, end)) = span_behind(text, at, edit) else {
            return Err(Fault::Range);
        };
        let (inserted, is_known) = text_in(edit, is_utf8);
        substitutions.push_reserved(Substitution {
            start,
            end,
            text: inserted,
        });
        at = end;
        is_utf8 = is_known;
    }
    if !is_utf8 {
        return Err(Fault::Utf8);
    }
    Ok(substitutions)
}

/// Returns the text with all edits made, and the changes, one for each. Errors: the first reason to
/// refuse the edits; `Fault::Memory`.
pub fn edited(
    alloc: Global,
    limits: Limits,
    text: &Rope,
    edits: &[Edit<'_>],
) -> Result<Replacement, Fault>
    ensures made { IfOk result (λ new. MakeOf (text_of text.now) (map in_full edits.now)
        (text_of new.text) new.changes.items) }
    ensures changes { IfOk result (λ new. AreChanges new.changes.items 0 0 (text_of text.now)
        (text_of new.text) (lines_of_edits (map in_full edits.now))) }
    ensures accepted { OnOk result
        (AcceptsEdits limits.text (text_of text.now) (map in_full edits.now)) }
    ensures fault { IfErr result (λ fault. (fault ≡ Fault.Memory)
        ⊎ IsFirstAgainst limits.text (text_of text.now) (map in_full edits.now) fault) }
{
    // For the proof: laws, and the text's facts.
    rope_search_templates::laws::substitutions_are_changes();
    rope_search_reports::laws::one_place();
    let _ = text.len_bytes();
    let substitutions = substitutions_of(alloc, text, edits)?;
    substitute_all(alloc, limits.text, text, &substitutions)
}
