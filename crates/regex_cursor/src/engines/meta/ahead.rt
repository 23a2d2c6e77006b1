//! Finds where a match starts whose end is known, before the program is reversed: runs the forward
//! automaton from one offset after the other, to see whether a match begins there.

ghost use Rattle.std.specs.Prelude.{◌≡◌, ◌≤◌, IfErr, IfOk, IfSome};
ghost use Rattle.rx_util.specs.declared.search.Anchored.TheVariants.{No, Yes};
ghost use Rattle.rx_util.specs.declared.search.MatchError.{MatchError};
ghost use Rattle.rx_input.specs.Cursors.{IsSameContent};
ghost use Rattle.regex_cursor.specs.Backs.{EndsLast, IsWhole, StartsAt, freed};
ghost use Rattle.regex_cursor.specs.Regexes.{search_by};
ghost use Rattle.regex_cursor.specs.Strategies.{AreKeptFor, HasStart};

use super::cache::Kept;
use super::left::{Told, put_back};
use super::strategy::Strategy;
use rx_input::{Cursor, Input};
use rx_matches::halves::whole;
use rx_util::{Anchored, HalfMatch, Match, MatchError, PatternID};

/// Returns the match found in an input that isn't anchored, as `Strategy::whole_match` does: it
/// starts at the first offset from which the automaton finds one. Once that took as long as
/// reversing the program, searches backward. Outlined, because it isn't called once the program is
/// reversed.
pub(super) fn whole_match<C: Cursor>(
    strategy: &Strategy,
    kept: &mut Kept,
    input: &mut Input<C>,
    pattern: PatternID,
) -> Result<Option<Match>, MatchError>
    requires serve { AreKeptFor strategy.now kept.old }
    requires ordered { input.old.asked.span.start ≤ input.old.asked.span.end }
    requires unanchored { input.old.asked.anchored ≡ No }
    requires known { EndsLast strategy.now.vm.program strategy.now.vm.utf8_empty input.old pattern }
    ensures whole { IfOk result (λ found. IfSome found
        (λ m. IsWhole strategy.now.vm.program strategy.now.vm.utf8_empty input.old m)) }
    ensures pattern { IfOk result (λ found. IfSome found (λ m. m.pattern ≡ pattern)) }
    ensures serve { AreKeptFor strategy.now kept.new }
    ensures core { kept.new.core ≡ kept.old.core }
    ensures asked { input.new.asked ≡ input.old.asked }
    ensures same { IsSameContent input.old.cursor input.new.cursor }
    ensures refused { IfErr result (λ error. error ≡ MatchError.Memory) }
{
    let end = input.end();
    match find_start(strategy, kept, input)? {
        Some(start) => Ok(Some(whole(HalfMatch::new(pattern, end), start))),
        None => kept.whole_match(input, pattern, strategy.config().get_hybrid()),
    }
}

/// Returns where the match found in an input that isn't anchored starts, if there is one. Returns
/// `None` if the automaton quits or gives up, or after it took long enough. The only error is
/// `Memory`.
fn find_start<C: Cursor>(
    strategy: &Strategy,
    kept: &mut Kept,
    input: &mut Input<C>,
) -> Result<Option<usize>, MatchError>
    requires serve { AreKeptFor strategy.now kept.old }
    requires ordered { input.old.asked.span.start ≤ input.old.asked.span.end }
    requires unanchored { input.old.asked.anchored ≡ No }
    ensures start { IfOk result (λ found. IfSome found
        (StartsAt strategy.now.vm.program (search_by strategy.now.vm input.old))) }
    ensures before { IfOk result
        (λ found. IfSome found (λ start. start ≤ input.old.asked.span.end)) }
    ensures serve { AreKeptFor strategy.now kept.new }
    ensures core { kept.new.core ≡ kept.old.core }
    ensures asked { input.new.asked ≡ input.old.asked }
    ensures same { IsSameContent input.old.cursor input.new.cursor }
    ensures refused { IfErr result (λ error. error ≡ MatchError.Memory) }
{
    let whole = input.get_span();
    input.set_anchored(Anchored::Yes);
    let start = first_place(strategy, kept, input);
    input.set_anchored(Anchored::No);
    put_back(input, whole);
    start
}

/// Returns the first offset from which an anchored input's span has a match, otherwise the span's
/// end. Returns `None` if the automaton quits or gives up; once it has read as many bytes as the
/// span has, because finds that read more make the further matches be listed, which takes longer
/// than to follow threads over the span; and after it took long enough: then the program should be
/// reversed. The start of the input's span afterwards isn't specified. The only error is `Memory`.
fn first_place<C: Cursor>(
    strategy: &Strategy,
    kept: &mut Kept,
    input: &mut Input<C>,
) -> Result<Option<usize>, MatchError>
    requires serve { AreKeptFor strategy.now kept.old }
    requires anchored { input.old.asked.anchored ≡ Yes }
    ensures start { IfOk result (λ found. IfSome found (StartsAt strategy.now.vm.program
        (freed (search_by strategy.now.vm input.old)))) }
    ensures before { IfOk result
        (λ found. IfSome found (λ start. start ≤ input.old.asked.span.end)) }
    ensures serve { AreKeptFor strategy.now kept.new }
    ensures core { kept.new.core ≡ kept.old.core }
    ensures asked { HasStart input.old.asked input.new.asked }
    ensures same { IsSameContent input.old.cursor input.new.cursor }
    ensures refused { IfErr result (λ error. error ≡ MatchError.Memory) }
{
    let end = input.end();
    let mut place = input.start().max(input.get_slice().start);
    let limit = kept.step_limit(end.saturating_sub(place));
    while place < end {
        if !kept.may_step_below(limit) {
            return Ok(None);
        }
        input.set_start(place);
        let told = strategy.ask_automaton(kept, input)?;
        kept.note_step(input);
        match told {
            Told::Unknown => return Ok(None),
            Told::Ends(_) => return Ok(Some(place)),
            Told::NoMatch => place += 1,
        }
    }
    Ok(Some(end))
}
