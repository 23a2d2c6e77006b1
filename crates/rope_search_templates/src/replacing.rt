//! All matches of a text replaced.
ghost use Rattle.std.specs.Prelude.{◌≡◌, ◌+◌, ◌-◌, ◌*◌, ◌^◌, ◌<◌, ◌↔◌, min, IsTrue, IfOk, IfErr};
ghost use Rattle.str_indices.specs.Text.{byte_len};
ghost use Rattle.ropey.specs.Chunks.{text_of};
ghost use Rattle.rope_search_changes.specs.Text.{bytes_of};
ghost use Rattle.rope_search_changes.specs.Replacement.{AreMatchesIn, changes_of, replaced};
ghost use Rattle.rope_search_templates.specs.Matches.{matched};

use crate::left::Left;
use crate::matches::Matches;
use crate::parts::Parts;
use crate::templates::Template;
use crate::told::Told;
use rope_search_changes::Change;
use rope_search_io::Fault;
use ropey::{Rope, RopeBuilder};
use std::alloc::Global;

/// A text is edited if it has at least this number of bytes for each part to replace, and else
/// rebuilt. An edit costs about as much as building that much text.
pub(crate) const BYTES_PER_EDIT: usize = 2048;

/// A text whose matches are replaced.
#[derive(Drop)]
pub struct Replacement {
    /// The new text.
    pub text: Rope,
    /// The changes that make it of the old one, one for each match, from the first on.
    pub changes: Vec<Change>,
}

/// Returns the most bytes that a text of `text_len` bytes has once `count` spans in it are replaced
/// by a template of `template_len` bytes, or `usize::MAX` if that is less. A byte of the template
/// makes at most itself and the bytes of the span.
fn most_bytes(text_len: usize, template_len: usize, count: usize) -> usize
    ensures { result
        ≡ min (template_len * text_len + text_len + template_len * count) (2 ^ 64 - 1) }
{
    template_len
        .saturating_mul(text_len)
        .saturating_add(text_len)
        .saturating_add(template_len.saturating_mul(count))
}

/// Returns whether the text with all these matches replaced would have more bytes than the limit.
/// Builds nothing.
///
/// # Complexity
///
/// `O(1)` if only the spans of the matches are known and the limit is far from the text's length;
/// otherwise `O(1)` for each match and each piece of the template, up to the match where the result
/// is known.
pub fn is_over(limit: usize, text: &Rope, template: &Template<'_>, matches: &Matches) -> bool
    requires { AreMatchesIn (bytes_of (text_of text.now)) (matched matches.now) }
    ensures { IsTrue result ↔ limit <
        byte_len (replaced (bytes_of (text_of text.now)) template.now 0 (matched matches.now)) }
{
    let text_len = text.len_bytes();
    if let Matches::Spans(spans) = matches {
        if most_bytes(text_len, template.len_bytes(), spans.len()) < limit {
            return false;
        }
    }
    // How many bytes the text behind the last match may have, and where that starts.
    let (mut room, mut at) = (limit, 0);
    for index in 0..matches.len() {
        let found = matches.at(index);
        let (start, end) = found.span();
        let gap = start - at;
        if room < gap {
            return true;
        }
        let Some(len) = template.len_within(room - gap, found) else {
            return true;
        };
        room -= gap + len;
        at = end;
    }
    room < text_len - at
}

/// The text with these matches replaced by edits, which shares what lies between them with the old
/// text, and the changes.
fn edited(
    alloc: Global,
    text: &Rope,
    template: &Template<'_>,
    matches: &Matches,
) -> Result<Replacement, Fault>
    requires matches { AreMatchesIn (bytes_of (text_of text.now)) (matched matches.now) }
    requires fits { byte_len (replaced (bytes_of (text_of text.now)) template.now 0
        (matched matches.now)) < 2 ^ 63 }
    ensures text { IfOk result (λ new. text_of new.text ≡
        replaced (bytes_of (text_of text.now)) template.now 0 (matched matches.now)) }
    ensures changes { IfOk result (λ new. new.changes.items ≡
        changes_of (bytes_of (text_of text.now)) template.now 0 0 (matched matches.now)) }
    ensures fault { IfErr result (λ fault. fault ≡ Fault.Memory) }
{
    // For its facts alone.
    let _ = text.len_bytes();
    let mut new = text.clone()?;
    let mut parts = Parts::of(text);
    let mut told = Told::new(alloc, matches.len())?;
    for index in 0..matches.len() {
        let found = matches.at(index);
        let (start, end) = found.span();
        let change = told.tell(template, &mut parts, found)?;
        let range = change.new_start..change.new_start + (end - start);
        let Ok(()) = new.byte_replace(range, told.text.as_str()) else {
            return Err(Fault::Memory);
        };
    }
    let Told { changes, .. } = told;
    Ok(Replacement { text: new, changes })
}

/// The text with these matches replaced, built anew from its start to its end, and the changes.
fn rebuilt(
    alloc: Global,
    text: &Rope,
    template: &Template<'_>,
    matches: &Matches,
) -> Result<Replacement, Fault>
    requires matches { AreMatchesIn (bytes_of (text_of text.now)) (matched matches.now) }
    requires fits { byte_len (replaced (bytes_of (text_of text.now)) template.now 0
        (matched matches.now)) < 2 ^ 63 }
    ensures text { IfOk result (λ new. text_of new.text ≡
        replaced (bytes_of (text_of text.now)) template.now 0 (matched matches.now)) }
    ensures changes { IfOk result (λ new. new.changes.items ≡
        changes_of (bytes_of (text_of text.now)) template.now 0 0 (matched matches.now)) }
    ensures fault { IfErr result (λ fault. fault ≡ Fault.Memory) }
{
    // For its facts alone.
    let _ = text.len_bytes();
    let mut left = Left::of(text);
    let mut builder = RopeBuilder::new(alloc);
    let mut parts = Parts::of(text);
    let mut told = Told::new(alloc, matches.len())?;
    for index in 0..matches.len() {
        let found = matches.at(index);
        let (start, end) = found.span();
        left.copy(start - told.at, &mut builder)?;
        told.tell(template, &mut parts, found)?;
        let Ok(()) = builder.append(told.text.as_str()) else {
            return Err(Fault::Memory);
        };
        left.skip(end - start);
    }
    left.copy(text.len_bytes() - told.at, &mut builder)?;
    let Told { changes, .. } = told;
    match builder.finish() {
        Ok(text) => Ok(Replacement { text, changes }),
        Err(_) => Err(Fault::Memory),
    }
}

/// The text with all these matches replaced by what the template stands for at each, and the
/// changes. It may be refused with `Fault::Memory` alone.
pub fn replace_all(
    alloc: Global,
    text: &Rope,
    template: &Template<'_>,
    matches: &Matches,
) -> Result<Replacement, Fault>
    requires matches { AreMatchesIn (bytes_of (text_of text.now)) (matched matches.now) }
    requires fits { byte_len (replaced (bytes_of (text_of text.now)) template.now 0
        (matched matches.now)) < 2 ^ 63 }
    ensures text { IfOk result (λ new. text_of new.text ≡
        replaced (bytes_of (text_of text.now)) template.now 0 (matched matches.now)) }
    ensures changes { IfOk result (λ new. new.changes.items ≡
        changes_of (bytes_of (text_of text.now)) template.now 0 0 (matched matches.now)) }
    ensures fault { IfErr result (λ fault. fault ≡ Fault.Memory) }
{
    if matches.len() <= text.len_bytes() / BYTES_PER_EDIT {
        return edited(alloc, text, template, matches);
    }
    rebuilt(alloc, text, template, matches)
}
