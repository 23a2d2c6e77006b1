//! Laws of replacing. Each function does nothing: its contract is the law.
ghost use Rattle.rope_search_templates.specs.Laws.{FirstGroupsAreEnough, SpansAreEnough};
ghost use Rattle.rope_search_templates.specs.Substitutions.{SubstitutedIsText, SubstitutionsAreChanges};

/// A template that names no group except the whole match needs only the spans of matches: with
/// these it makes the same text by the same changes.
pub fn spans_are_enough()
    ensures { SpansAreEnough }
{}

/// A template needs only the groups up to the last one that it names: with these it makes the same
/// text by the same changes.
pub fn first_groups_are_enough()
    ensures { FirstGroupsAreEnough }
{}

/// Substitutions are changes: the text outside their parts stays, in order, and the changes may
/// search as many lines as the new texts have.
pub fn substitutions_are_changes()
    ensures { SubstitutionsAreChanges }
{}

/// Substitutions of texts for parts of a text make a text.
pub fn substituted_is_text()
    ensures { SubstitutedIsText }
{}
