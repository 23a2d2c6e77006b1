//! Several edits as C passes them: the positions and the text length of each, and all texts joined.
ghost use Rattle.std.specs.Prelude.{◌≡◌, ◌⊎◌, map, Err, IfOk, IfErr, OnOk};
ghost use Rattle.rope_search.specs.Edits.{in_full};
ghost use Rattle.rope_search_c.specs.Edits.{Fit, cut};

use rope_search::{Edit, Fault, Position};
use std::alloc::Global;

/// One of several edits, whose texts are joined.
#[repr(C)]
#[derive(Clone, Copy, Debug, PartialEq, Eq)]
pub struct TextEdit {
    /// Where the replaced part starts.
    pub from: Position,
    /// Where it ends.
    pub to: Position,
    /// The number of bytes of the text that replaces it.
    pub len: usize,
}

/// Returns the edits, each with its part of the bytes. Errors: `Fault::Range` if their lengths
/// don't add up to the number of bytes; `Fault::Memory`.
pub fn edits_of<'a>(
    alloc: Global,
    edits: &[TextEdit],
    bytes: &'a [u8],
) -> Result<Vec<Edit<'a>>, Fault>
    ensures edits { IfOk result (λ made. map in_full made.items ≡ cut edits.now bytes.now) }
    ensures fit { OnOk result (Fit edits.now bytes.now) }
    ensures range { result ≡ Err Fault.Range → Fit edits.now bytes.now → ⊥ }
    ensures fault { IfErr result (λ fault. (fault ≡ Fault.Range) ⊎ (fault ≡ Fault.Memory)) }
{
    let mut made = Vec::with_capacity(alloc, edits.len())?;
    let mut left = bytes;
    for edit in edits {
        if left.len() < edit.len {
            return Err(Fault::Range);
        }
        let (text, behind) = left.split_at(edit.len);
        made.push_reserved(Edit {
            from: edit.from,
            to: edit.to,
            text,
        });
        left = behind;
    }
    if !left.is_empty() {
        return Err(Fault::Range);
    }
    Ok(made)
}
