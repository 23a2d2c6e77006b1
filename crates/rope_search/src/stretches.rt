//! Which rows of a report a call replaced.
ghost use Rattle.std.specs.Prelude.{◌≡◌, ◌≤◌, List, ℕ, [], ◌∷◌};
ghost use Rattle.ropey.specs.Chunks.{text_of};
ghost use Rattle.rope_search_reports.specs.Text.{bytes_of, line_count};
ghost use Rattle.rope_search_reports.specs.Changes.{AreChanges};
ghost use Rattle.rope_search_reports.specs.Patches.{AreInTurn, made_by, patched};
ghost use Rattle.rope_search_reports.specs.Report.{IsReport, line_texts};
ghost use Rattle.rope_search_reports.specs.Turned.{Lead, lines_put};
ghost use Rattle.rope_search.specs.Stretches.{IsStretch, ReplacesIn, hull_of, lines_spanned};
ghost use Rattle.rope_search.specs.Stretches as stretches;

use rope_search_reports::{Change, Patch};
use ropey::Rope;

/// Replaced rows of a report: the rows before them are unchanged, and so are those after them,
/// which may have moved.
#[repr(C)]
#[derive(Clone, Copy, Debug, PartialEq, Eq)]
pub struct Stretch {
    /// The first row that was replaced, or where rows were added or removed.
    pub first: usize,
    /// The number of rows removed from the old report, from the first on.
    pub removed: usize,
    /// The number of rows of the new report in their place.
    pub added: usize,
}

impl Stretch {
    /// Returns the stretch of no rows.
    pub(crate) fn none() -> Stretch
        ensures { result ≡ stretches.none }
    {
        Stretch {
            first: 0,
            removed: 0,
            added: 0,
        }
    }

    /// Returns the stretch of all rows of a report, from the old and the new number of rows.
    pub(crate) fn whole(removed: usize, added: usize) -> Stretch
        ensures { result ≡ stretches.whole_stretch removed added }
    {
        Stretch {
            first: 0,
            removed,
            added,
        }
    }
}

/// Returns the change from where the first of the changes starts to where the last ends.
fn hull(changes: &[Change]) -> Option<Change>
    ensures { result ≡ hull_of changes.now }
{
    let first = changes.first()?;
    let last = changes.last()?;
    Some(Change {
        old_end: last.old_end,
        new_start: first.new_start,
        new_end: last.new_end,
    })
}

/// Returns the lines that a change touches, in the old and in the new text.
fn lines_by(old: &Rope, new: &Rope, change: Change) -> Stretch
    requires { Lead (change ∷ []) (text_of old.now) (text_of new.now) }
    ensures lines { IsStretch (line_texts (text_of old.now)) (line_texts (text_of new.now)) result }
    ensures added { result.added ≤ lines_put (bytes_of (text_of new.now)) (change ∷ []) }
{
    // For the proof: laws, and the texts' facts.
    rope_search_reports::laws::changes_keep_lines();
    rope_search_reports::laws::tails_keep_lines();
    rope_search_reports::laws::changes_put_lines();
    rope_search_reports::laws::places_are_in_lines();
    let _ = old.len_lines();
    let _ = new.len_lines();
    let _ = new.len_bytes();
    let first = new.byte_to_line(change.new_start);
    let gone = old.byte_to_line(change.old_end) + 1;
    let end = new.byte_to_line(change.new_end) + 1;
    Stretch {
        first,
        removed: gone - first,
        added: end - first,
    }
}

/// Returns the rows of a report that changes replace: those of the lines from where the first
/// change starts to where the last ends. Requires changes that lead from the old text to the new
/// one. `O(log n)`.
pub(crate) fn stretch_of(old: &Rope, new: &Rope, changes: &[Change]) -> Stretch
    requires { Lead changes.now (text_of old.now) (text_of new.now) }
    ensures rows { (pattern : List ℕ)
        → ReplacesIn (text_of old.now) (text_of new.now) pattern result }
    ensures added { result.added
        ≤ lines_spanned (bytes_of (text_of new.now)) changes.now }
{
    // For the proof: a law.
    rope_search_reports::laws::one_list_of_matches();
    match hull(changes) {
        None => Stretch::none(),
        Some(change) => lines_by(old, new, change),
    }
}

/// Returns the rows of a report that patches replace, as `stretch_of` does. The patch of a single
/// change has them, without a look-up.
pub fn stretch_by(old: &Rope, new: &Rope, changes: &[Change], patches: &[Patch]) -> Stretch
    requires led { Lead changes.now (text_of old.now) (text_of new.now) }
    requires turn { AreInTurn 0 (line_count (text_of old.now)) patches.now }
    requires few { (n : ℕ) → AreChanges changes.now 0 0 (text_of old.now) (text_of new.now) n
        → made_by patches.now ≤ n }
    ensures rows { (pattern : List ℕ) → ((rows : List (List (ℕ × ℕ)))
        → IsReport (text_of old.now) pattern rows
        → IsReport (text_of new.now) pattern (patched 0 rows patches.now))
        → ReplacesIn (text_of old.now) (text_of new.now) pattern result }
    ensures added { result.added ≤ lines_spanned (bytes_of (text_of new.now)) changes.now }
{
    // For the proof: laws, and the text's facts.
    rope_search_reports::laws::one_list_of_matches();
    let _ = new.len_bytes();
    if changes.len() != 1 || patches.len() != 1 {
        return stretch_of(old, new, changes);
    }
    let patch = &patches[0];
    Stretch {
        first: patch.first,
        removed: patch.end - patch.first,
        added: patch.made.len(),
    }
}
