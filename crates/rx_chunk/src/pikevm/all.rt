//! Searches for all matches.

ghost use Rattle.std.specs.Prelude.{◌≡◌, ◌<◌, ◌^◌, IfOk, IfErr, OnErr, Some, length};
ghost use Rattle.std.specs.Option.{ForSome};
ghost use Rattle.rx_util.specs.declared.search.MatchError.{MatchError};
ghost use Rattle.rx_util.specs.declared.search.MatchKind.{MatchKind};
ghost use Rattle.rx_steps.specs.Caches.{IsCacheOf};
ghost use Rattle.rx_steps.specs.Searching.{answer_slots};
ghost use Rattle.rx_steps.specs.SearchingAll.{IsAnswerAllAt, pattern_match};
ghost use Rattle.rx_steps.specs.Threads.{no_slots};
ghost use Rattle.rx_chunk.specs.Engines.{IsAnswerAt, IsEngine, StopsAs, noted_whole};
ghost use Rattle.rx_chunk.specs.Searches.{AsksTheSame, ServesOn, search_by};

use super::PikeVM;
use rx_input::{Cursor, Input};
use rx_steps as search;
use rx_steps::clear_slots;
use rx_util::{Match, MatchError, NonMaxUsize, PatternID};

/// Writes the offsets of a match into the two slots of its pattern's group 0, as far as there are
/// slots. All others become `None`.
fn put_whole(slots: &mut [Option<NonMaxUsize>], found: Match)
    requires start { found.span.start < 2 ^ 63 }
    requires end { found.span.end < 2 ^ 63 }
    ensures { slots.new
        ≡ answer_slots (length slots.old) (Some (noted_whole (pattern_match found))) }
{
    clear_slots(slots);
    let number = found.pattern().as_usize();
    let len = slots.len();
    if number >= len {
        return;
    }
    if 2 * number >= len {
        return;
    }
    slots[2 * number] = NonMaxUsize::new(found.start());
    if 2 * number + 1 >= len {
        return;
    }
    slots[2 * number + 1] = NonMaxUsize::new(found.end());
}

/// Returns the best of all matches of an engine's program, with this `earliest`.
fn best_of_all<C: Cursor>(
    vm: &PikeVM,
    cache: &mut search::Cache,
    input: &mut Input<C>,
    earliest: bool,
) -> Result<Option<Match>, MatchError>
    requires made { IsCacheOf vm.now.program cache.old }
    ensures answer { IfOk result (λ found. IsAnswerAllAt earliest vm.now.program
        (search_by vm.now input.old) input.new.position found) }
    ensures serves { ServesOn vm.now input.old cache.old cache.new }
    ensures asks { AsksTheSame input.old input.new }
    ensures engine { IsEngine vm.now }
    ensures bound { length input.old.cursor.content < 2 ^ 63 }
    ensures refused { IfErr result (λ error. error ≡ MatchError.Memory) }
{
    let _at = input.position(); // for the proof: how long the haystack may be
    let utf8_empty = vm.utf8_empty();
    search::search_all(vm.program(), cache, input, utf8_empty, earliest)
}

/// Searches as `search_slots` does with an engine for all matches, with this `earliest`. Only the
/// whole match is captured.
pub(super) fn seek_all<C: Cursor>(
    vm: &PikeVM,
    cache: &mut search::Cache,
    input: &mut Input<C>,
    earliest: bool,
    slots: &mut [Option<NonMaxUsize>],
) -> Result<Option<PatternID>, MatchError>
    requires made { IsCacheOf vm.now.program cache.old }
    requires all { vm.now.match_kind ≡ MatchKind.All }
    ensures answer { IfOk result (λ pattern. IsAnswerAt earliest vm.now
        (search_by vm.now input.old) input.new.position pattern slots.new) }
    ensures stops { IfOk result (λ pattern. ForSome pattern (λ _. StopsAs vm.now.match_kind
        earliest vm.now.program (search_by vm.now input.old) input.new.position)) }
    ensures none { OnErr result (slots.new ≡ no_slots (length slots.new)) }
    ensures serves { ServesOn vm.now input.old cache.old cache.new }
    ensures asks { AsksTheSame input.old input.new }
    ensures engine { IsEngine vm.now }
    ensures refused { IfErr result (λ error. error ≡ MatchError.Memory) }
{
    clear_slots(slots);
    let Some(found) = best_of_all(vm, cache, input, earliest)? else {
        return Ok(None);
    };
    put_whole(slots, found);
    Ok(Some(found.pattern()))
}
