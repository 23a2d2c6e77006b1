//! Which bytes of a text a call replaced.
ghost use Rattle.std.specs.Prelude.{◌≡◌, ◌+◌, ◌-◌, ◌≤◌, ◌++◌, List, ℕ, length, take, drop};
ghost use Rattle.rope_search_reports.specs.Turned.{Lead};
ghost use Rattle.rope_search.specs.TextChanges.{range_from, range_in, ranges_in};

use rope_search_reports::Change;

/// A range of the old text and the range of the new text that replaced it, in bytes. Either may be
/// empty.
#[repr(C)]
#[derive(Clone, Copy, Debug, PartialEq, Eq)]
pub struct TextChange {
    /// Where the old range starts, in the old text.
    pub old_start: usize,
    /// Where it ends.
    pub old_end: usize,
    /// Where the new range starts, in the new text.
    pub new_start: usize,
    /// Where it ends.
    pub new_end: usize,
}

impl TextChange {
    /// Returns the range of a change; the one before it ends at these offsets of the two texts.
    fn from_change(change: Change, at: usize, at_new: usize) -> TextChange
        requires behind { at_new ≤ change.new_start }
        requires ordered { at + (change.new_start - at_new) ≤ change.old_end }
        ensures { result ≡ range_from at at_new change }
    {
        TextChange {
            old_start: at + (change.new_start - at_new),
            old_end: change.old_end,
            new_start: change.new_start,
            new_end: change.new_end,
        }
    }

    /// Returns the range itself, or its reverse.
    fn directed(self, is_back: bool) -> TextChange
        ensures { result ≡ range_in is_back self }
    {
        if !is_back {
            return self;
        }
        TextChange {
            old_start: self.new_start,
            old_end: self.new_end,
            new_start: self.old_start,
            new_end: self.old_end,
        }
    }
}

/// Writes the ranges of changes, or of their reverse, to the front of a buffer, as many as fit.
pub fn put_ranges(changes: &[Change], is_back: bool, out: &mut [TextChange])
    requires { (old : List ℕ) × (new : List ℕ) × Lead changes.now old new }
    ensures { out.new ≡ take (length out.old) (ranges_in is_back changes.now)
        ++ drop (length (ranges_in is_back changes.now)) out.old }
{
    // Where the last change ends, in both texts.
    let (mut at, mut at_new) = (0, 0);
    let count = changes.len().min(out.len());
    for k in 0..count {
        let range = TextChange::from_change(changes[k], at, at_new);
        at = range.old_end;
        at_new = range.new_end;
        out[k] = range.directed(is_back);
    }
}
