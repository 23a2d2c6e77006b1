//! Laws of a session's commands and replies. Each function here does nothing: its contract is a
//! proved law of the definitions that the other contracts use.

ghost use Rattle.std.specs.Prelude.{ℕ, List};
ghost use Rattle.rope_search.specs.Order.{Order, PrintText, ListMatches};
ghost use Rattle.rope_search.specs.Session.{State};
ghost use Rattle.rope_search.specs.declared.commands.CommandOf.{CommandOf};
ghost use Rattle.rope_search.specs.declared.commands.Payload.{Payload};
ghost use Rattle.rope_search.specs.TextChanges.{TextChangesMakeText};
ghost use Rattle.rope_search.specs.Laws.{AllHoldTexts, Known, StepsHoldTexts, HasOneReading, HasOneStep, HasOneCost, EndsAtBadLine, HasAnswer, HasOneShow, StandsForSome, UndoUndoesEdit, UndoUndoesReplace, ReplaceKeepsTheRest, RedoRedoesUndo, RepliesAlike, FindsAlike, FindsBoundaries, EditsHavePlaces, KeptIsAnew, PatternsAreTaken, OthersStay, ListsBoundaries, NoneIsNowhereOrTurned};
ghost use Rattle.rope_search.specs.LineColumns.{ReportsHaveColumns};
ghost use Rattle.rope_search.specs.Pending.{FirstRowsAreOfReport};
ghost use Rattle.rope_search.specs.Step.{Answer};

/// The columns of a report's rows are columns of their lines' texts, so they have equivalents in
/// bytes and in characters.
pub fn reports_have_columns()
    ensures { ReportsHaveColumns }
{
    rope_search_reports::laws::matches_at_boundaries();
}

/// Each input has exactly one reading: a list of commands, and how it ends.
pub fn one_reading()
    ensures { (input : List ℕ) → HasOneReading input }
{}

/// Apart from `error memory`, each command in each session that holds texts has exactly one reply
/// and exactly one session after it.
pub fn one_step()
    ensures { (limit : ℕ) (session : State) (order : Order) → AllHoldTexts session
        → HasOneStep limit session order }
{
    known();
}

/// The texts and patterns of a session are texts and patterns: of a new session, and after each
/// command.
pub fn steps_hold_texts()
    ensures { StepsHoldTexts }
{
    known();
}

/// Each command in each session that holds texts has exactly one cost.
pub fn one_cost()
    ensures { (limit : ℕ) (session : State) (order : Order) → AllHoldTexts session
        → HasOneCost limit session order }
{
    known();
}

/// What follows a line that is not a command does not change what may be written.
pub fn ends_at_bad_line()
    ensures { (limit : ℕ) (input : List ℕ) → EndsAtBadLine limit input }
{}

/// Each input, whatever its bytes, has an answer.
pub fn has_answer()
    ensures { (limit : ℕ) (input : List ℕ) → HasAnswer limit input }
{
    known();
    rope_search_reports::laws::has_report();
}

/// Each answer in a session that holds texts is shown in exactly one way.
pub fn one_show()
    ensures { (session : State) (answer : Answer) → AllHoldTexts session
        → HasOneShow session answer }
{
    rope_search_reports::laws::has_report();
    rope_search_reports::laws::one_report();
}

/// Every command represents some command of the definition, under every limit and whatever was kept
/// of its payload. So the promises of `Session::apply`, which are about the commands that one
/// represents, apply to each.
pub fn stands_for_some()
    ensures { (limit : ℕ) (command : CommandOf Payload) → StandsForSome limit command }
{}

/// An edit and then an undo restore the text and the pattern, and so the report.
pub fn undo_undoes_edit()
    ensures { UndoUndoesEdit }
{}

/// A replacement and then an undo restore them too.
pub fn undo_undoes_replace()
    ensures { UndoUndoesReplace }
{}

/// An undo and then a redo restore the text and the pattern, and so the report.
pub fn redo_redoes_undo()
    ensures { RedoRedoesUndo }
{}

/// If the chosen buffers of two sessions have the same text and the same pattern, `list` and
/// `print` have the same answers, whatever was edited before in either session.
pub fn replies_alike()
    ensures list { RepliesAlike ListMatches }
    ensures print { RepliesAlike PrintText }
{
    rope_search_reports::laws::one_report();
}

/// So has `next` from the same position, unless it is refused for memory.
pub fn finds_alike()
    ensures { FindsAlike }
{
    known();
}

/// Each match that `next` returns starts at or after the position's offset, and starts and ends at
/// boundaries of the text. The returned positions are those of its two offsets.
pub fn finds_at_boundaries()
    ensures { FindsBoundaries }
{
    rope_search_reports::laws::finds_are_in_text();
}

/// The matches that `replace` replaces are all matches of the pattern in the whole text. They
/// follow each other, and each starts and ends at a boundary of the text. All text outside them
/// stays, in order. Their number is returned.
pub fn replace_keeps_the_rest()
    ensures { ReplaceKeepsTheRest }
{
    rope_search_reports::laws::groups_follow_each_other();
    rope_search_reports::laws::replacements_are_changes();
}

/// The positions of an accepted edit are those of two offsets in the text, the second not before
/// the first.
pub fn edits_have_places()
    ensures { EditsHavePlaces }
{}

/// The report that a session keeps is the one that setting its pattern again would make.
pub fn kept_is_anew()
    ensures { KeptIsAnew }
{
    rope_search_reports::laws::one_report();
}

/// If the pattern of a buffer that holds texts is set again, it is refused for no reason but
/// memory.
pub fn patterns_are_taken()
    ensures { PatternsAreTaken }
{
    rope_search_reports::laws::one_of_three();
}

/// No command, whatever its answer, changes a buffer that is not chosen.
pub fn others_stay()
    ensures { OthersStay }
{}

/// After any commands, each match of the report starts and ends at a boundary of the text, and its
/// columns are those of two positions of its line.
pub fn matches_at_boundaries()
    ensures { ListsBoundaries }
{
    known();
    rope_search_reports::laws::matches_at_boundaries();
}

/// There is no part of the text between two positions, and an edit is refused, exactly if one of
/// them is nowhere in the text or the second is before the first.
pub fn none_is_nowhere_or_turned()
    ensures { NoneIsNowhereOrTurned }
{
    rope_search_reports::laws::one_place();
}

/// The facts about offsets in texts, patterns, searches and replacements that these laws need.
pub(crate) fn known()
    ensures { Known }
{
    rope_search_reports::laws::one_place();
    rope_search_reports::laws::pattern_or_not();
    rope_search_reports::laws::one_of_three();
    rope_search_reports::laws::finds_one();
    rope_search_reports::laws::has_find();
    rope_search_reports::laws::one_list_of_groups();
    rope_search_reports::laws::has_groups();
    rope_search_reports::laws::replaced_is_text();
}

/// The old text with each range of `Buffer::text_changes` replaced by the new text's range is the
/// new text.
pub fn text_changes_make_text()
    ensures { TextChangesMakeText }
{}

/// The pending rows of a buffer are the first rows of the report of its current text and its
/// pending pattern.
pub fn pending_rows_are_of_report()
    ensures { FirstRowsAreOfReport }
{
    rope_search_reports::laws::one_list_of_matches();
}
