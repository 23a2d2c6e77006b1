//! Substitutions of parts of a text, with offsets in the text before any of them.
ghost use Rattle.std.specs.Prelude.{◌≡◌, ◌^◌, ◌<◌, ◌≤◌, ◌⊎◌, map, Err, IfOk, IfErr, OnOk};
ghost use Rattle.str_indices.specs.Text.{byte_len};
ghost use Rattle.ropey.specs.Chunks.{text_of};
ghost use Rattle.rope_search_changes.specs.Text.{bytes_of};
ghost use Rattle.rope_search_templates.specs.Substitutions.{AreUtf8, SubstitutionsFollow, changes_by, substituted, told};

use crate::left::Left;
use crate::replacing::{BYTES_PER_EDIT, Replacement};
use rope_search_changes::Change;
use rope_search_io::Fault;
use ropey::{Rope, RopeBuilder};
use std::alloc::Global;

/// A part of a text, and its replacement.
#[derive(Clone, Copy, Debug)]
pub struct Substitution<'a> {
    /// The byte offset at which the part starts.
    pub start: usize,
    /// The byte offset at which the part ends.
    pub end: usize,
    /// The replacement.
    pub text: &'a str,
}

/// Returns the changes of substitutions. Fails with `Fault::Size` if the new text would exceed the
/// limit of bytes, or with `Fault::Memory`.
fn changes_by(
    alloc: Global,
    limit: usize,
    text: &Rope,
    substitutions: &[Substitution<'_>],
) -> Result<Vec<Change>, Fault>
    requires follow { SubstitutionsFollow (bytes_of (text_of text.now)) 0
        (map told substitutions.now) }
    requires utf8 { AreUtf8 substitutions.now }
    requires limit { limit < 2 ^ 63 }
    ensures changes { IfOk result (λ changes.
        changes.items ≡ changes_by 0 0 (map told substitutions.now)) }
    ensures fits { OnOk result (byte_len (substituted (bytes_of (text_of text.now)) 0
        (map told substitutions.now)) ≤ limit) }
    ensures size { result ≡ Err Fault.Size → limit < byte_len
        (substituted (bytes_of (text_of text.now)) 0 (map told substitutions.now)) }
    ensures fault { IfErr result (λ fault. (fault ≡ Fault.Size) ⊎ (fault ≡ Fault.Memory)) }
{
    let text_len = text.len_bytes();
    let mut changes = Vec::with_capacity(alloc, substitutions.len())?;
    // The end of the last part, in the old and in the new text.
    let (mut at, mut at_new) = (0, 0);
    for substitution in substitutions {
        let new_start = at_new + (substitution.start - at);
        let len = substitution.text.len();
        if limit < new_start || limit - new_start < len {
            return Err(Fault::Size);
        }
        at = substitution.end;
        at_new = new_start + len;
        changes.push_reserved(Change {
            old_end: at,
            new_start,
            new_end: at_new,
        });
    }
    if limit - at_new < text_len - at {
        return Err(Fault::Size);
    }
    Ok(changes)
}

/// Returns the text with all substitutions, which shares the text between them with the old one.
/// The last comes first, so that the offsets of the others stay valid.
fn edited(text: &Rope, substitutions: &[Substitution<'_>]) -> Result<Rope, Fault>
    requires follow { SubstitutionsFollow (bytes_of (text_of text.now)) 0
        (map told substitutions.now) }
    requires utf8 { AreUtf8 substitutions.now }
    ensures text { IfOk result (λ new. text_of new ≡
        substituted (bytes_of (text_of text.now)) 0 (map told substitutions.now)) }
    ensures fault { IfErr result (λ fault. fault ≡ Fault.Memory) }
{
    // Needed by the proof only.
    let _ = text.len_bytes();
    let mut new = text.clone()?;
    let mut left = substitutions.len();
    while left > 0 {
        left -= 1;
        let substitution = substitutions[left];
        let range = substitution.start..substitution.end;
        let Ok(()) = new.byte_replace(range, substitution.text) else {
            return Err(Fault::Memory);
        };
    }
    Ok(new)
}

/// Returns the text with all substitutions, built from its start to its end.
fn rebuilt(alloc: Global, text: &Rope, substitutions: &[Substitution<'_>]) -> Result<Rope, Fault>
    requires follow { SubstitutionsFollow (bytes_of (text_of text.now)) 0
        (map told substitutions.now) }
    requires utf8 { AreUtf8 substitutions.now }
    requires fits { byte_len (substituted (bytes_of (text_of text.now)) 0
        (map told substitutions.now)) < 2 ^ 63 }
    ensures text { IfOk result (λ new. text_of new ≡
        substituted (bytes_of (text_of text.now)) 0 (map told substitutions.now)) }
    ensures fault { IfErr result (λ fault. fault ≡ Fault.Memory) }
{
    // Needed by the proof only.
    let _ = text.len_bytes();
    let mut left = Left::of(text);
    let mut builder = RopeBuilder::new(alloc);
    // The end of the last part.
    let mut at = 0;
    for substitution in substitutions {
        left.copy(substitution.start - at, &mut builder)?;
        let Ok(()) = builder.append(substitution.text) else {
            return Err(Fault::Memory);
        };
        left.skip(substitution.end - substitution.start);
        at = substitution.end;
    }
    left.copy(text.len_bytes() - at, &mut builder)?;
    match builder.finish() {
        Ok(new) => Ok(new),
        Err(_) => Err(Fault::Memory),
    }
}

/// Returns the text with all substitutions: edited at each if they are few, else rebuilt in one
/// pass.
fn with_substitutions(
    alloc: Global,
    text: &Rope,
    substitutions: &[Substitution<'_>],
) -> Result<Rope, Fault>
    requires follow { SubstitutionsFollow (bytes_of (text_of text.now)) 0
        (map told substitutions.now) }
    requires utf8 { AreUtf8 substitutions.now }
    requires fits { byte_len (substituted (bytes_of (text_of text.now)) 0
        (map told substitutions.now)) < 2 ^ 63 }
    ensures text { IfOk result (λ new. text_of new ≡
        substituted (bytes_of (text_of text.now)) 0 (map told substitutions.now)) }
    ensures fault { IfErr result (λ fault. fault ≡ Fault.Memory) }
{
    if substitutions.len() <= text.len_bytes() / BYTES_PER_EDIT {
        return edited(text, substitutions);
    }
    rebuilt(alloc, text, substitutions)
}

/// Returns a text with all substitutions, and the changes.
///
/// # Requires
///
/// The parts are in order and don't overlap, though two may touch, and start and end at character
/// boundaries.
///
/// # Errors
///
/// `Fault::Size` if the new text would exceed the limit of bytes, before any of it is built;
/// `Fault::Memory`.
///
/// # Complexity
///
/// `O(log n)` for each substitution, plus the bytes of the replacements; if there are more than one
/// in 2,048 bytes of the text, linear in the text instead.
pub fn substitute_all(
    alloc: Global,
    limit: usize,
    text: &Rope,
    substitutions: &[Substitution<'_>],
) -> Result<Replacement, Fault>
    requires follow { SubstitutionsFollow (bytes_of (text_of text.now)) 0
        (map told substitutions.now) }
    requires utf8 { AreUtf8 substitutions.now }
    requires limit { limit < 2 ^ 63 }
    ensures text { IfOk result (λ new. text_of new.text ≡
        substituted (bytes_of (text_of text.now)) 0 (map told substitutions.now)) }
    ensures changes { IfOk result (λ new.
        new.changes.items ≡ changes_by 0 0 (map told substitutions.now)) }
    ensures fits { OnOk result (byte_len (substituted (bytes_of (text_of text.now)) 0
        (map told substitutions.now)) ≤ limit) }
    ensures size { result ≡ Err Fault.Size → limit < byte_len
        (substituted (bytes_of (text_of text.now)) 0 (map told substitutions.now)) }
    ensures fault { IfErr result (λ fault. (fault ≡ Fault.Size) ⊎ (fault ≡ Fault.Memory)) }
{
    let changes = changes_by(alloc, limit, text, substitutions)?;
    let text = with_substitutions(alloc, text, substitutions)?;
    Ok(Replacement { text, changes })
}
