//! The expansions of a template for one match after the other, and their changes.
ghost use Rattle.std.specs.Prelude.{◌≡◌, ◌<◌, ◌≤◌, ◌^◌, IfOk, OnOk, string_bytes, vec_len, vec_capacity};
ghost use Rattle.std.specs.Str.{chars};
ghost use Rattle.ropey.specs.Chunks.{text_of};
ghost use Rattle.rope_search_changes.specs.Text.{bytes_of};
ghost use Rattle.rope_search_changes.specs.Replacement.{HasSpansIn, expand, whole};
ghost use Rattle.rope_search_templates.specs.Matches.{groups_in};
ghost use Rattle.rope_search_templates.specs.Told.{IsToldNext, IsToldOf, IsToldOfNone, change_at};

use crate::matches::Match;
use crate::parts::Parts;
use crate::templates::Template;
use rope_search_changes::Change;
use std::alloc::{AllocError, Global};

/// The expansion of a template for a match, and the changes of the matches up to that one. The
/// template is read once for each match, or only once if its expansion is always the same.
#[derive(Drop)]
pub(crate) struct Told {
    /// The text.
    pub(crate) text: String,
    // Whether that is the expansion for every match.
    is_same: bool,
    /// The changes.
    pub(crate) changes: Vec<Change>,
    /// Where the last match ends.
    pub(crate) at: usize,
    // Where its replacement ends in the new text.
    at_new: usize,
}

impl Told {
    /// Returns the state before the first match, with room for `count` changes.
    pub(crate) fn new(alloc: Global, count: usize) -> Result<Told, AllocError>
        ensures { IfOk result (IsToldOfNone count) }
    {
        let changes = Vec::with_capacity(alloc, count)?;
        Ok(Told {
            text: String::new(alloc),
            is_same: false,
            changes,
            at: 0,
            at_new: 0,
        })
    }

    /// Sets the text to the expansion of the template for a match of a text.
    fn show(
        &mut self,
        template: &Template<'_>,
        parts: &mut Parts<'_>,
        found: Match<'_>,
    ) -> Result<(), AllocError>
        requires told { IsToldOf template.now self.old }
        requires spans { HasSpansIn (bytes_of (text_of parts.old)) (groups_in found) }
        ensures text { OnOk result (chars (string_bytes self.new.text) ≡
            expand (bytes_of (text_of parts.old)) (groups_in found.entry) template.now) }
        ensures told { OnOk result (IsToldOf template.now self.new) }
        ensures changes { self.new.changes ≡ self.old.changes }
        ensures at { self.new.at ≡ self.old.at }
        ensures at_new { self.new.at_new ≡ self.old.at_new }
        ensures parts { parts.new ≡ parts.old }
    {
        if self.is_same {
            return Ok(());
        }
        self.text.clear();
        template.expand(parts, found, &mut self.text)?;
        self.is_same = template.is_same();
        Ok(())
    }

    /// Expands the template for the next match of a text, and returns the change of that.
    pub(crate) fn tell(
        &mut self,
        template: &Template<'_>,
        parts: &mut Parts<'_>,
        found: Match<'_>,
    ) -> Result<Change, AllocError>
        requires told { IsToldOf template.now self.old }
        requires spans { HasSpansIn (bytes_of (text_of parts.old)) (groups_in found) }
        requires behind { self.old.at ≤ (whole (groups_in found)).0 }
        requires fits { (change_at (bytes_of (text_of parts.old)) template.now
            self.old.at self.old.at_new (groups_in found)).new_end < 2 ^ 63 }
        requires room { vec_len self.old.changes < vec_capacity self.old.changes }
        ensures told { IfOk result (IsToldNext (bytes_of (text_of parts.old)) template.now
            (groups_in found.entry) self.old self.new) }
        ensures parts { parts.new ≡ parts.old }
    {
        self.show(template, parts, found)?;
        let (start, end) = found.span();
        let new_start = self.at_new + (start - self.at);
        let change = Change {
            old_end: end,
            new_start,
            new_end: new_start + self.text.as_str().len(),
        };
        self.at = end;
        self.at_new = change.new_end;
        self.changes.push_reserved(change);
        Ok(change)
    }
}
