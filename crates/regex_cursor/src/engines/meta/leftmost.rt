//! Searches for the leftmost match by the engines of a regex: first a scan for the literals that
//! matches begin with, then the automaton, and the PikeVM for what these leave.

ghost use Rattle.std.specs.Prelude.{◌≡◌, ℕ, ◌*◌, ◌≤◌, IfOk, IfErr, IfSome, OnOk, OnErr, None, Some, true, false, length};
ghost use Rattle.std.specs.Option.{ForSome};
ghost use Rattle.rx_util.specs.declared.search.Anchored.TheVariants.{No};
ghost use Rattle.rx_util.specs.declared.search.MatchError.{MatchError};
ghost use Rattle.rx_util.specs.declared.search.MatchKind.{MatchKind};
ghost use Rattle.rx_input.specs.Cursors.{IsSameContent};
ghost use Rattle.rx_input.specs.Searchers.{EndsInside};
ghost use Rattle.rx_steps.specs.Threads.{no_slots};
ghost use Rattle.rx_engine.specs.Engines.{IsEngine};
ghost use Rattle.rx_chunk.specs.Engines.{EngineFinds, TellsWhether, end_noted, start_noted};
ghost use Rattle.rx_chunk.specs.Iterating.{EndsAhead, IsFoundNext, IsNextAnswer, StartsFrom};
ghost use Rattle.regex_cursor.specs.Backs.{EndsLast, IsWhole};
ghost use Rattle.regex_cursor.specs.Regexes.{HoldsMatches, IsCacheOf, TellsHalf, TellsMatch, TellsSlots, TellsWhole, search_by};
ghost use Rattle.regex_cursor.specs.Strategies.{IsPart, regex_of};

use super::cache::Cache;
use super::left::{Left, Part, clear_few, half_of, note_nothing, put_back, put_match};
use super::strategy::Strategy;
use rx_chunk::pikevm;
use rx_input::{Cursor, Input};
use rx_matches::halves::is_empty_at_last;
use rx_util::{Anchored, Captures, HalfMatch, Match, MatchError, NonMaxUsize, PatternID};

/// Returns whether there is a match, for `Strategy::is_match`.
pub(super) fn is_match<C: Cursor>(
    strategy: &Strategy,
    cache: &mut Cache,
    input: &mut Input<C>,
) -> Result<bool, MatchError>
    requires made { IsCacheOf (regex_of strategy.now) cache.old }
    requires first { strategy.now.vm.match_kind ≡ MatchKind.LeftmostFirst }
    ensures answer { IfOk result (λ yes. TellsWhether (EngineFinds strategy.now.vm)
        (search_by strategy.now.vm input.old) yes) }
    ensures made { IsCacheOf (regex_of strategy.now) cache.new }
    ensures asked { input.new.asked ≡ input.old.asked }
    ensures same { IsSameContent input.old.cursor input.new.cursor }
    ensures refused { IfErr result (λ error. error ≡ MatchError.Memory) }
{
    match strategy.ask(&mut cache.kept, input)? {
        Left::Nothing => Ok(false),
        Left::Match(_) => Ok(true),
        Left::Found(_) => Ok(true),
        Left::In(part) => {
            if part.pattern.is_some() {
                return Ok(true);
            }
            let whole = part.cut(input);
            let yes = pikevm::is_match(strategy.vm(), &mut cache.kept.vm, input);
            put_back(input, whole);
            yes
        }
    }
}

/// Returns the match found, for `Strategy::find`.
pub(super) fn find<C: Cursor>(
    strategy: &Strategy,
    cache: &mut Cache,
    input: &mut Input<C>,
) -> Result<Option<Match>, MatchError>
    requires made { IsCacheOf (regex_of strategy.now) cache.old }
    requires first { strategy.now.vm.match_kind ≡ MatchKind.LeftmostFirst }
    ensures answer { IfOk result (λ found. TellsMatch strategy.now.vm input.old found) }
    ensures inside { IfOk result
        (λ found. ForSome found (λ m. EndsInside input.old m.span.end)) }
    ensures made { IsCacheOf (regex_of strategy.now) cache.new }
    ensures asked { input.new.asked ≡ input.old.asked }
    ensures same { IsSameContent input.old.cursor input.new.cursor }
    ensures refused { IfErr result (λ error. error ≡ MatchError.Memory) }
{
    match strategy.ask(&mut cache.kept, input)? {
        Left::Nothing => Ok(None),
        Left::Match(span) => Ok(Some(Match::new(PatternID::ZERO, span))),
        Left::Found(found) => Ok(Some(found)),
        Left::In(part) => {
            let pattern = part.pattern;
            let whole = part.cut(input);
            let found = find_in(strategy, cache, input, pattern);
            put_back(input, whole);
            found
        }
    }
}

/// Returns the pattern and the end of the match found, for `Strategy::find_half`. If the automaton
/// reports them, there is no search for the match's start.
pub(super) fn find_half<C: Cursor>(
    strategy: &Strategy,
    cache: &mut Cache,
    input: &mut Input<C>,
) -> Result<Option<HalfMatch>, MatchError>
    requires made { IsCacheOf (regex_of strategy.now) cache.old }
    requires first { strategy.now.vm.match_kind ≡ MatchKind.LeftmostFirst }
    ensures answer { IfOk result (λ half. TellsHalf strategy.now.vm input.old half) }
    ensures inside { IfOk result
        (λ half. ForSome half (λ h. EndsInside input.old h.offset)) }
    ensures made { IsCacheOf (regex_of strategy.now) cache.new }
    ensures asked { input.new.asked ≡ input.old.asked }
    ensures same { IsSameContent input.old.cursor input.new.cursor }
    ensures refused { IfErr result (λ error. error ≡ MatchError.Memory) }
{
    match strategy.ask(&mut cache.kept, input)? {
        Left::Nothing => Ok(None),
        Left::Match(span) => Ok(Some(HalfMatch::new(PatternID::ZERO, span.end))),
        Left::Found(found) => Ok(half_of(Some(found))),
        Left::In(part) => {
            if let Some(pattern) = part.pattern {
                return Ok(Some(HalfMatch::new(pattern, part.span.end)));
            }
            let whole = part.cut(input);
            let found = pikevm::find(strategy.vm(), &mut cache.kept.vm, input);
            put_back(input, whole);
            Ok(half_of(found?))
        }
    }
}

/// Returns the match found in a part, which is an input's span. If its end and its pattern are
/// known, searches for its start. If those searches quit, or nothing is known, uses the PikeVM.
fn find_in<C: Cursor>(
    strategy: &Strategy,
    cache: &mut Cache,
    input: &mut Input<C>,
    pattern: Option<PatternID>,
) -> Result<Option<Match>, MatchError>
    requires made { IsCacheOf (regex_of strategy.now) cache.old }
    requires first { strategy.now.vm.match_kind ≡ MatchKind.LeftmostFirst }
    requires ordered { input.old.asked.span.start ≤ input.old.asked.span.end }
    requires known { IfSome pattern
        (EndsLast strategy.now.vm.program strategy.now.vm.utf8_empty input.old) }
    ensures answer { IfOk result (λ found. TellsMatch strategy.now.vm input.old found) }
    ensures inside { IfOk result
        (λ found. ForSome found (λ m. EndsInside input.old m.span.end)) }
    ensures made { IsCacheOf (regex_of strategy.now) cache.new }
    ensures asked { input.new.asked ≡ input.old.asked }
    ensures same { IsSameContent input.old.cursor input.new.cursor }
    ensures refused { IfErr result (λ error. error ≡ MatchError.Memory) }
{
    let Some(pattern) = pattern else {
        return walk_to_match(strategy, cache, input);
    };
    match strategy.whole_match(&mut cache.kept, input, pattern)? {
        Some(found) => Ok(Some(found)),
        None => walk_to_match(strategy, cache, input),
    }
}

/// Returns the match found in an input's span, by the PikeVM.
fn walk_to_match<C: Cursor>(
    strategy: &Strategy,
    cache: &mut Cache,
    input: &mut Input<C>,
) -> Result<Option<Match>, MatchError>
    requires made { IsCacheOf (regex_of strategy.now) cache.old }
    ensures answer { IfOk result (λ found. TellsMatch strategy.now.vm input.old found) }
    ensures inside { IfOk result
        (λ found. ForSome found (λ m. EndsInside input.old m.span.end)) }
    ensures made { IsCacheOf (regex_of strategy.now) cache.new }
    ensures asked { input.new.asked ≡ input.old.asked }
    ensures same { IsSameContent input.old.cursor input.new.cursor }
    ensures refused { IfErr result (λ error. error ≡ MatchError.Memory) }
{
    let found = pikevm::find(strategy.vm(), &mut cache.kept.vm, input);
    cache.kept.note_walk(input);
    found
}

/// Returns the pattern of the match found, with its offsets in slots, for `Strategy::search_slots`.
pub(super) fn search_slots<C: Cursor>(
    strategy: &Strategy,
    cache: &mut Cache,
    input: &mut Input<C>,
    slots: &mut [Option<NonMaxUsize>],
) -> Result<Option<PatternID>, MatchError>
    requires made { IsCacheOf (regex_of strategy.now) cache.old }
    requires first { strategy.now.vm.match_kind ≡ MatchKind.LeftmostFirst }
    ensures answer { IfOk result
        (λ pattern. TellsSlots strategy.now.vm input.old pattern slots.new) }
    ensures none { OnErr result (slots.new ≡ no_slots (length slots.new)) }
    ensures made { IsCacheOf (regex_of strategy.now) cache.new }
    ensures asked { input.new.asked ≡ input.old.asked }
    ensures same { IsSameContent input.old.cursor input.new.cursor }
    ensures refused { IfErr result (λ error. error ≡ MatchError.Memory) }
{
    clear_few(slots);
    match strategy.ask(&mut cache.kept, input)? {
        Left::Nothing => Ok(None),
        Left::Match(span) => {
            put_match(slots, span);
            Ok(Some(PatternID::ZERO))
        }
        Left::Found(found) => slots_of_found(strategy, cache, input, slots, found),
        Left::In(part) => slots_of_part(strategy, cache, input, slots, part),
    }
}

/// Returns the pattern of a match that is known, and writes its offsets into slots, which are empty
/// before.
fn slots_of_found<C: Cursor>(
    strategy: &Strategy,
    cache: &mut Cache,
    input: &mut Input<C>,
    slots: &mut [Option<NonMaxUsize>],
    found: Match,
) -> Result<Option<PatternID>, MatchError>
    requires made { IsCacheOf (regex_of strategy.now) cache.old }
    requires first { strategy.now.vm.match_kind ≡ MatchKind.LeftmostFirst }
    requires clear { slots.old ≡ no_slots (length slots.old) }
    requires found { IsWhole strategy.now.vm.program strategy.now.vm.utf8_empty input.old found }
    ensures answer { IfOk result
        (λ pattern. TellsSlots strategy.now.vm input.old pattern slots.new) }
    ensures none { OnErr result (slots.new ≡ no_slots (length slots.new)) }
    ensures made { IsCacheOf (regex_of strategy.now) cache.new }
    ensures asked { input.new.asked ≡ input.old.asked }
    ensures same { IsSameContent input.old.cursor input.new.cursor }
    ensures refused { IfErr result (λ error. error ≡ MatchError.Memory) }
{
    if !asks_whole(slots.len()) {
        return slots_of_part(strategy, cache, input, slots, Part::of(found));
    }
    // For the proof: how long the haystack may be, and what the engine is.
    let _at = input.position();
    let _vm = strategy.vm();
    if !is_first(found.pattern()) {
        return Ok(Some(found.pattern()));
    }
    put_match(slots, found.span());
    Ok(Some(PatternID::ZERO))
}

/// Returns the pattern of the match found in a part of an input's span, and writes its offsets into
/// slots, which are empty before.
fn slots_of_part<C: Cursor>(
    strategy: &Strategy,
    cache: &mut Cache,
    input: &mut Input<C>,
    slots: &mut [Option<NonMaxUsize>],
    part: Part,
) -> Result<Option<PatternID>, MatchError>
    requires made { IsCacheOf (regex_of strategy.now) cache.old }
    requires first { strategy.now.vm.match_kind ≡ MatchKind.LeftmostFirst }
    requires clear { slots.old ≡ no_slots (length slots.old) }
    requires part { IsPart strategy.now.vm.program (search_by strategy.now.vm input.old) part }
    ensures answer { IfOk result
        (λ pattern. TellsSlots strategy.now.vm input.old pattern slots.new) }
    ensures none { OnErr result (slots.new ≡ no_slots (length slots.new)) }
    ensures made { IsCacheOf (regex_of strategy.now) cache.new }
    ensures asked { input.new.asked ≡ input.old.asked }
    ensures same { IsSameContent input.old.cursor input.new.cursor }
    ensures refused { IfErr result (λ error. error ≡ MatchError.Memory) }
{
    let pattern = part.pattern;
    let whole = part.cut(input);
    let found = slots_in(strategy, cache, input, slots, pattern);
    put_back(input, whole);
    found
}

/// Returns whether this number of slots is only for the offsets of one whole match.
fn asks_whole(slots: usize) -> bool
    ensures { result ≡ true → slots ≤ 2 }
{
    slots <= 2
}

/// Returns whether the first two slots are those of a pattern's whole match: it is the first
/// pattern. Those of others follow.
fn is_first(pattern: PatternID) -> bool
    ensures first { result ≡ true → pattern ≡ 0 }
    ensures other { result ≡ false → pattern ≡ 0 → ⊥ }
{
    pattern == PatternID::ZERO
}

/// Returns the pattern of the match found in a part, which is an input's span, and writes its
/// offsets into slots, which are empty before. Uses `find_in` if no other group is requested, and
/// returns at once if none of its offsets is.
fn slots_in<C: Cursor>(
    strategy: &Strategy,
    cache: &mut Cache,
    input: &mut Input<C>,
    slots: &mut [Option<NonMaxUsize>],
    pattern: Option<PatternID>,
) -> Result<Option<PatternID>, MatchError>
    requires made { IsCacheOf (regex_of strategy.now) cache.old }
    requires first { strategy.now.vm.match_kind ≡ MatchKind.LeftmostFirst }
    requires clear { slots.old ≡ no_slots (length slots.old) }
    requires ordered { input.old.asked.span.start ≤ input.old.asked.span.end }
    requires known { IfSome pattern
        (EndsLast strategy.now.vm.program strategy.now.vm.utf8_empty input.old) }
    ensures answer { IfOk result
        (λ pattern. TellsSlots strategy.now.vm input.old pattern slots.new) }
    ensures none { OnErr result (slots.new ≡ no_slots (length slots.new)) }
    ensures made { IsCacheOf (regex_of strategy.now) cache.new }
    ensures asked { input.new.asked ≡ input.old.asked }
    ensures same { IsSameContent input.old.cursor input.new.cursor }
    ensures refused { IfErr result (λ error. error ≡ MatchError.Memory) }
{
    let _vm = strategy.vm(); // for the proof: what the engine is
    let Some(pattern) = pattern else {
        return walk_to_slots(strategy, cache, input, slots);
    };
    if !asks_whole(slots.len()) {
        return walk_to_slots(strategy, cache, input, slots);
    }
    if !is_first(pattern) {
        return Ok(Some(pattern));
    }
    match strategy.whole_match(&mut cache.kept, input, pattern)? {
        Some(found) => {
            put_match(slots, found.span());
            Ok(Some(PatternID::ZERO))
        }
        None => walk_to_slots(strategy, cache, input, slots),
    }
}

/// Returns the pattern of the match found in an input's span, with its offsets in slots, by the
/// PikeVM.
fn walk_to_slots<C: Cursor>(
    strategy: &Strategy,
    cache: &mut Cache,
    input: &mut Input<C>,
    slots: &mut [Option<NonMaxUsize>],
) -> Result<Option<PatternID>, MatchError>
    requires made { IsCacheOf (regex_of strategy.now) cache.old }
    ensures answer { IfOk result
        (λ pattern. TellsSlots strategy.now.vm input.old pattern slots.new) }
    ensures none { OnErr result (slots.new ≡ no_slots (length slots.new)) }
    ensures made { IsCacheOf (regex_of strategy.now) cache.new }
    ensures asked { input.new.asked ≡ input.old.asked }
    ensures same { IsSameContent input.old.cursor input.new.cursor }
    ensures refused { IfErr result (λ error. error ≡ MatchError.Memory) }
{
    let found = pikevm::search_slots(strategy.vm(), &mut cache.kept.vm, input, slots);
    cache.kept.note_walk(input);
    found
}

/// Returns the number of slots of captures.
fn slot_count(caps: &mut Captures) -> usize
    ensures count { result ≡ length caps.old.slots }
    ensures same { caps.new ≡ caps.old }
{
    caps.slots_mut().len()
}

/// Notes the match found, for `Strategy::search`.
pub(super) fn search<C: Cursor>(
    strategy: &Strategy,
    cache: &mut Cache,
    input: &mut Input<C>,
    caps: &mut Captures,
) -> Result<(), MatchError>
    requires made { IsCacheOf (regex_of strategy.now) cache.old }
    requires first { strategy.now.vm.match_kind ≡ MatchKind.LeftmostFirst }
    ensures answer { OnOk result
        (TellsSlots strategy.now.vm input.old caps.new.pattern caps.new.slots) }
    ensures whole { HoldsMatches strategy.now.vm caps.old
        → OnOk result (TellsWhole strategy.now.vm input.old caps.new) }
    ensures groups { caps.new.groups ≡ caps.old.groups }
    ensures slot_len { length caps.new.slots ≡ length caps.old.slots }
    ensures no_answer { OnErr result (caps.new.pattern ≡ None) }
    ensures none { OnErr result (caps.new.slots ≡ no_slots (length caps.new.slots)) }
    ensures made { IsCacheOf (regex_of strategy.now) cache.new }
    ensures asked { input.new.asked ≡ input.old.asked }
    ensures same { IsSameContent input.old.cursor input.new.cursor }
    ensures refused { IfErr result (λ error. error ≡ MatchError.Memory) }
{
    let slots = slot_count(caps);
    if slots > 2 || input.get_earliest() {
        return search_groups(strategy, cache, input, caps);
    }
    search_whole(strategy, cache, input, caps)
}

/// Does the same, with other groups than the whole match: by the PikeVM, between the match's ends.
fn search_groups<C: Cursor>(
    strategy: &Strategy,
    cache: &mut Cache,
    input: &mut Input<C>,
    caps: &mut Captures,
) -> Result<(), MatchError>
    requires made { IsCacheOf (regex_of strategy.now) cache.old }
    requires first { strategy.now.vm.match_kind ≡ MatchKind.LeftmostFirst }
    ensures answer { OnOk result
        (TellsSlots strategy.now.vm input.old caps.new.pattern caps.new.slots) }
    ensures whole { HoldsMatches strategy.now.vm caps.old
        → OnOk result (TellsWhole strategy.now.vm input.old caps.new) }
    ensures groups { caps.new.groups ≡ caps.old.groups }
    ensures slot_len { length caps.new.slots ≡ length caps.old.slots }
    ensures no_answer { OnErr result (caps.new.pattern ≡ None) }
    ensures none { OnErr result (caps.new.slots ≡ no_slots (length caps.new.slots)) }
    ensures made { IsCacheOf (regex_of strategy.now) cache.new }
    ensures asked { input.new.asked ≡ input.old.asked }
    ensures same { IsSameContent input.old.cursor input.new.cursor }
    ensures refused { IfErr result (λ error. error ≡ MatchError.Memory) }
{
    note_nothing(caps);
    match strategy.find_part(&mut cache.kept, input)? {
        None => Ok(()),
        Some(part) => {
            let whole = part.cut(input);
            let told = pikevm::search(strategy.vm(), &mut cache.kept.vm, input, caps);
            put_back(input, whole);
            told
        }
    }
}

/// Does the same if only the whole match is requested: as `search_slots` finds it.
fn search_whole<C: Cursor>(
    strategy: &Strategy,
    cache: &mut Cache,
    input: &mut Input<C>,
    caps: &mut Captures,
) -> Result<(), MatchError>
    requires made { IsCacheOf (regex_of strategy.now) cache.old }
    requires first { strategy.now.vm.match_kind ≡ MatchKind.LeftmostFirst }
    requires exact { input.old.asked.earliest ≡ false }
    ensures answer { OnOk result
        (TellsSlots strategy.now.vm input.old caps.new.pattern caps.new.slots) }
    ensures whole { HoldsMatches strategy.now.vm caps.old
        → OnOk result (TellsWhole strategy.now.vm input.old caps.new) }
    ensures groups { caps.new.groups ≡ caps.old.groups }
    ensures slot_len { length caps.new.slots ≡ length caps.old.slots }
    ensures no_answer { OnErr result (caps.new.pattern ≡ None) }
    ensures none { OnErr result (caps.new.slots ≡ no_slots (length caps.new.slots)) }
    ensures made { IsCacheOf (regex_of strategy.now) cache.new }
    ensures asked { input.new.asked ≡ input.old.asked }
    ensures same { IsSameContent input.old.cursor input.new.cursor }
    ensures refused { IfErr result (λ error. error ≡ MatchError.Memory) }
{
    note_nothing(caps);
    // For the proof: how long the haystack may be, and what the engine is.
    let _at = input.position();
    let _vm = strategy.vm();
    let found = search_slots(strategy, cache, input, caps.slots_mut())?;
    caps.set_pattern(found);
    Ok(())
}

/// Returns the pattern of the next match, with its offsets in slots, for `Strategy::next_slots`.
pub(super) fn next_slots<C: Cursor>(
    strategy: &Strategy,
    cache: &mut Cache,
    input: &mut Input<C>,
    slots: &mut [Option<NonMaxUsize>],
    last_match_end: Option<usize>,
) -> Result<Option<PatternID>, MatchError>
    requires made { IsCacheOf (regex_of strategy.now) cache.old }
    requires first { strategy.now.vm.match_kind ≡ MatchKind.LeftmostFirst }
    requires slots { 2 * length strategy.now.vm.groups ≤ length slots.old }
    ensures answer { IfOk result (λ pattern. IsNextAnswer (EngineFinds strategy.now.vm)
        (search_by strategy.now.vm input.old) last_match_end pattern slots.new) }
    ensures none { OnErr result (slots.new ≡ no_slots (length slots.new)) }
    ensures made { IsCacheOf (regex_of strategy.now) cache.new }
    ensures same { (start : ℕ) × StartsFrom input.old input.new start }
    ensures engine { IsEngine strategy.now.vm }
    ensures refused { IfErr result (λ error. error ≡ MatchError.Memory) }
{
    clear_few(slots);
    let _vm = strategy.vm(); // for the proof: what the engine is
    if slots.len() <= 2 {
        return next_whole(strategy, cache, input, slots, last_match_end);
    }
    let Some(part) = strategy.next_part(&mut cache.kept, input, last_match_end)? else {
        return Ok(None);
    };
    let ends_known = part.pattern.is_some();
    let whole = part.cut(input);
    let found = walk_to_next(strategy, cache, input, slots, last_match_end, ends_known);
    put_back(input, whole);
    found
}

/// Returns the pattern of the next match, with its offsets in slots, by the PikeVM. If it is known
/// where the match ends, it mostly begins where the span starts. This is tried first, because it
/// takes one thread instead of one from each offset.
fn walk_to_next<C: Cursor>(
    strategy: &Strategy,
    cache: &mut Cache,
    input: &mut Input<C>,
    slots: &mut [Option<NonMaxUsize>],
    last_match_end: Option<usize>,
    ends_known: bool,
) -> Result<Option<PatternID>, MatchError>
    requires made { IsCacheOf (regex_of strategy.now) cache.old }
    requires first { strategy.now.vm.match_kind ≡ MatchKind.LeftmostFirst }
    requires slots { 2 * length strategy.now.vm.groups ≤ length slots.old }
    requires ordered { input.old.asked.span.start ≤ input.old.asked.span.end }
    ensures answer { IfOk result (λ pattern. IsNextAnswer (EngineFinds strategy.now.vm)
        (search_by strategy.now.vm input.old) last_match_end pattern slots.new) }
    ensures none { OnErr result (slots.new ≡ no_slots (length slots.new)) }
    ensures made { IsCacheOf (regex_of strategy.now) cache.new }
    ensures same { (start : ℕ) × StartsFrom input.old input.new start }
    ensures refused { IfErr result (λ error. error ≡ MatchError.Memory) }
{
    if ends_known && !input.get_anchored().is_anchored() {
        if let Some(pattern) = next_here(strategy, cache, input, slots, last_match_end)? {
            return Ok(Some(pattern));
        }
    }
    let vm = strategy.vm();
    let found = pikevm::next_slots(vm, &mut cache.kept.vm, input, slots, last_match_end);
    cache.kept.note_walk(input);
    found
}

/// Returns whether the slots have two different offsets for a pattern's match.
fn differ(pattern: PatternID, slots: &[Option<NonMaxUsize>]) -> bool
    ensures { result ≡ true
        → start_noted pattern slots.now ≡ end_noted pattern slots.now → ⊥ }
{
    let number = pattern.as_usize();
    if number >= slots.len() {
        return false;
    }
    match (slots.get(2 * number), slots.get(2 * number + 1)) {
        (Some(start), Some(end)) => start != end,
        _ => false,
    }
}

/// Returns the pattern of the next match in an anchored input, with its offsets in slots: by a
/// single thread, or else by the PikeVM.
fn next_anchored<C: Cursor>(
    strategy: &Strategy,
    cache: &mut Cache,
    input: &mut Input<C>,
    slots: &mut [Option<NonMaxUsize>],
    last_match_end: Option<usize>,
) -> Result<Option<PatternID>, MatchError>
    requires made { IsCacheOf (regex_of strategy.now) cache.old }
    requires first { strategy.now.vm.match_kind ≡ MatchKind.LeftmostFirst }
    requires slots { 2 * length strategy.now.vm.groups ≤ length slots.old }
    ensures answer { IfOk result (λ pattern. IsNextAnswer (EngineFinds strategy.now.vm)
        (search_by strategy.now.vm input.old) last_match_end pattern slots.new) }
    ensures none { OnErr result (slots.new ≡ no_slots (length slots.new)) }
    ensures made { IsCacheOf (regex_of strategy.now) cache.new }
    ensures same { (start : ℕ) × StartsFrom input.old input.new start }
    ensures refused { IfErr result (λ error. error ≡ MatchError.Memory) }
{
    let vm = strategy.vm();
    let _groups = vm.group_info(); // for the proof: what the engine is
    if let Some(pattern) = cache.search_alone(vm, input, slots) {
        // An empty match may have to be skipped.
        if differ(pattern, slots) {
            return Ok(Some(pattern));
        }
    }
    let found = pikevm::next_slots(vm, &mut cache.kept.vm, input, slots, last_match_end);
    cache.kept.note_walk(input);
    found
}

/// Returns the pattern of the next match in an input that isn't anchored, with its offsets in
/// slots, if an anchored search finds one.
fn next_here<C: Cursor>(
    strategy: &Strategy,
    cache: &mut Cache,
    input: &mut Input<C>,
    slots: &mut [Option<NonMaxUsize>],
    last_match_end: Option<usize>,
) -> Result<Option<PatternID>, MatchError>
    requires made { IsCacheOf (regex_of strategy.now) cache.old }
    requires first { strategy.now.vm.match_kind ≡ MatchKind.LeftmostFirst }
    requires slots { 2 * length strategy.now.vm.groups ≤ length slots.old }
    requires ordered { input.old.asked.span.start ≤ input.old.asked.span.end }
    requires unanchored { input.old.asked.anchored ≡ No }
    ensures answer { IfOk result (λ found. IfSome found (λ pattern.
        IsNextAnswer (EngineFinds strategy.now.vm) (search_by strategy.now.vm input.old)
        last_match_end (Some pattern) slots.new)) }
    ensures none { OnErr result (slots.new ≡ no_slots (length slots.new)) }
    ensures made { IsCacheOf (regex_of strategy.now) cache.new }
    ensures asked { input.new.asked ≡ input.old.asked }
    ensures same { IsSameContent input.old.cursor input.new.cursor }
    ensures refused { IfErr result (λ error. error ≡ MatchError.Memory) }
{
    let span = input.get_span();
    input.set_anchored(Anchored::Yes);
    let found = next_anchored(strategy, cache, input, slots, last_match_end);
    input.set_anchored(Anchored::No);
    put_back(input, span);
    found
}

/// Does the same for slots of the whole match only, which are empty before: as `find_next` finds
/// it.
fn next_whole<C: Cursor>(
    strategy: &Strategy,
    cache: &mut Cache,
    input: &mut Input<C>,
    slots: &mut [Option<NonMaxUsize>],
    last_match_end: Option<usize>,
) -> Result<Option<PatternID>, MatchError>
    requires made { IsCacheOf (regex_of strategy.now) cache.old }
    requires first { strategy.now.vm.match_kind ≡ MatchKind.LeftmostFirst }
    requires slots { 2 * length strategy.now.vm.groups ≤ length slots.old }
    requires few { length slots.old ≤ 2 }
    requires clear { slots.old ≡ no_slots (length slots.old) }
    ensures answer { IfOk result (λ pattern. IsNextAnswer (EngineFinds strategy.now.vm)
        (search_by strategy.now.vm input.old) last_match_end pattern slots.new) }
    ensures none { OnErr result (slots.new ≡ no_slots (length slots.new)) }
    ensures made { IsCacheOf (regex_of strategy.now) cache.new }
    ensures same { (start : ℕ) × StartsFrom input.old input.new start }
    ensures refused { IfErr result (λ error. error ≡ MatchError.Memory) }
{
    // For the proof: how long the haystack may be, and what the engine is.
    let _at = input.position();
    let _vm = strategy.vm();
    let Some(found) = find_next(strategy, cache, input, last_match_end)? else {
        return Ok(None);
    };
    put_match(slots, found.span());
    Ok(Some(found.pattern()))
}

/// Returns the next match, for `Strategy::find_next`. An empty one where the last one ended is
/// skipped, and the search continues one byte after the span's start.
pub(super) fn find_next<C: Cursor>(
    strategy: &Strategy,
    cache: &mut Cache,
    input: &mut Input<C>,
    last_match_end: Option<usize>,
) -> Result<Option<Match>, MatchError>
    requires made { IsCacheOf (regex_of strategy.now) cache.old }
    requires first { strategy.now.vm.match_kind ≡ MatchKind.LeftmostFirst }
    ensures answer { IfOk result (λ found. IsFoundNext (EngineFinds strategy.now.vm)
        (search_by strategy.now.vm input.old) last_match_end found) }
    ensures ahead { IfOk result (λ found. ForSome found (λ m. EndsAhead last_match_end
        (search_by strategy.now.vm input.old) m.span.end)) }
    ensures made { IsCacheOf (regex_of strategy.now) cache.new }
    ensures same { (start : ℕ) × StartsFrom input.old input.new start }
    ensures refused { IfErr result (λ error. error ≡ MatchError.Memory) }
{
    if input.get_earliest() {
        return find_next_whole(strategy, cache, input, last_match_end);
    }
    let Some(found) = find(strategy, cache, input)? else {
        return Ok(None);
    };
    if !is_empty_at_last(&found, last_match_end) {
        return Ok(Some(found));
    }
    let start = input.start();
    input.set_start(start + 1);
    find(strategy, cache, input)
}

/// Does the same by the PikeVM, which ignores `earliest`.
fn find_next_whole<C: Cursor>(
    strategy: &Strategy,
    cache: &mut Cache,
    input: &mut Input<C>,
    last_match_end: Option<usize>,
) -> Result<Option<Match>, MatchError>
    requires made { IsCacheOf (regex_of strategy.now) cache.old }
    requires first { strategy.now.vm.match_kind ≡ MatchKind.LeftmostFirst }
    ensures answer { IfOk result (λ found. IsFoundNext (EngineFinds strategy.now.vm)
        (search_by strategy.now.vm input.old) last_match_end found) }
    ensures ahead { IfOk result (λ found. ForSome found (λ m. EndsAhead last_match_end
        (search_by strategy.now.vm input.old) m.span.end)) }
    ensures made { IsCacheOf (regex_of strategy.now) cache.new }
    ensures same { (start : ℕ) × StartsFrom input.old input.new start }
    ensures refused { IfErr result (λ error. error ≡ MatchError.Memory) }
{
    let Some(part) = strategy.next_part(&mut cache.kept, input, last_match_end)? else {
        return Ok(None);
    };
    let whole = part.cut(input);
    let found = pikevm::find_next(strategy.vm(), &mut cache.kept.vm, input, last_match_end);
    cache.kept.note_walk(input);
    put_back(input, whole);
    found
}
