//! All matches in order, in time linear in the input: by single finds, which are fast, as long as
//! these read little more than the text before them; from there on from a list, which two passes
//! over the rest make, however far finds would read.

ghost use Rattle.std.specs.Prelude.{◌≡◌, ◌↔◌, ◌+◌, ◌-◌, ◌*◌, ◌<◌, ◌≤◌, ℕ, [], ◌∷◌, All, IfErr, IfOk, IfSome, IsSome, IsTrue, OnErr, None, Some, false, true, length, max, option_map, take};
ghost use Rattle.std.specs.Option.{ForSome};
ghost use Rattle.rx_util.specs.declared.search.MatchError.{MatchError};
ghost use Rattle.rx_util.specs.declared.search.MatchKind.{MatchKind};
ghost use Rattle.rx_util.specs.declared.search.Span.{Span};
ghost use Rattle.rx_input.specs.Cursors.{IsSameContent};
ghost use Rattle.rx_walks.specs.ProgramFinds.{highest, lowest};
ghost use Rattle.rx_program.specs.Programs.{character_program};
ghost use Rattle.rx_literals.specs.Literals.{IsLiteralOf};
ghost use Rattle.rx_steps.specs.Searching.{search_of};
ghost use Rattle.rx_steps.specs.Threads.{no_slots};
ghost use Rattle.rx_chunk.specs.Engines.{EngineFinds, whole_span};
ghost use Rattle.rx_chunk.specs.Iterating.{StartsFrom};
ghost use Rattle.rx_lists.specs.Lists.{Listed, places_in};
ghost use Rattle.regex_cursor.specs.Linear.{AreBehind, FindAlike, GivesSlots, HasListed};
ghost use Rattle.regex_cursor.specs.Linear.{IsListedFor, IsRestOf};
ghost use Rattle.regex_cursor.specs.Linear.{TellsWhatComes, all_places, left_of, linear_from};
ghost use Rattle.regex_cursor.specs.Linear.{passed_over, places_read};
ghost use Rattle.regex_cursor.specs.Literals.{AsksInSlice};
ghost use Rattle.regex_cursor.specs.Regexes.{IsCacheOf, search_by};

use super::cache::Cache;
use super::exact::{asks_in_slice, next_occurrence};
use super::regex::Regex;
use counters::Counter;
use rx_chunk::pikevm::match_in;
use rx_input::{Cursor, Input};
use rx_lists::{ListedMatch, list_matches};
use rx_literals::Prefilter;
use rx_steps::{clear_slots, last_place};
use rx_util::{HalfMatch, MatchError, MatchKind, NonMaxUsize, PatternID};
use std::marker::Model;
use std::snapshot::Snapshot;

/// How often finds may read the offsets before them, besides all offsets once: the next find may
/// read to the end, as for `.*x` in each short line.
const TIMES: usize = 3;

/// How many more offsets they may read.
const BESIDES: usize = 10;

/// Listed matches, and how many of them were taken.
#[derive(Drop)]
struct ListedRest {
    regex: Snapshot<Regex>,
    slot_len: usize,
    listed: Vec<ListedMatch>,
    taken: usize,
}

impl Model for ListedRest {
    ghost use Rattle.std.specs.Prelude.{◌≡◌, All, drop, length};
    ghost use Rattle.regex_cursor.specs.Linear.{FurtherMatches};

    ghost Value = { FurtherMatches };

    ghost view = { λ r. record {
      engine = r.regex.value.engine;
      slot_len = r.slot_len;
      found = drop r.taken r.listed.items;
    } };

    ghost invariant = { λ r. All (λ l. length l.slots ≡ r.slot_len) r.listed.items };
}

/// Returns how many of the matches listed from an offset on are skipped after a match that ended
/// there.
fn passed_at(listed: &[ListedMatch], end: usize) -> usize
    ensures { result ≡ passed_over end listed.now }
{
    match listed.first() {
        Some(first) if first.end() == end => 1,
        _ => 0,
    }
}

/// Lists the matches after one that ended where the input's span starts, each with this number of
/// slots. The only error is `Memory`.
fn list_behind<C: Cursor>(
    re: &Regex,
    input: &mut Input<C>,
    slot_len: usize,
    read: &mut Counter,
) -> Result<ListedRest, MatchError>
    ensures behind { re.now.engine.match_kind ≡ MatchKind.LeftmostFirst → IfOk result
        (λ rest. AreBehind re.now.engine (search_by re.now.engine input.old)
        input.old.asked.span.start slot_len rest.found) }
    ensures engine { IfOk result (λ rest. rest.engine ≡ re.now.engine) }
    ensures slot_len { IfOk result (λ rest. rest.slot_len ≡ slot_len) }
    ensures same { IsSameContent input.old.cursor input.new.cursor }
    ensures asked { input.new.asked ≡ input.old.asked }
    ensures refused { IfErr result (λ error. error ≡ MatchError.Memory) }
    ensures counted { read.new
        ≤ read.old + 6 * places_in (search_by re.now.engine input.old) }
{
    let vm = re.vm();
    let program = vm.program();
    let end = input.start();
    let inside = vm.utf8_empty();
    let listed = list_matches(program.allocator(), program, slot_len, input, inside, read)?;
    let taken = passed_at(&listed, end);
    Ok(ListedRest {
        regex: Snapshot::of(re),
        slot_len,
        listed,
        taken,
    })
}

impl ListedRest {
    /// Takes the next match: returns its pattern and its end, and writes its offsets into the
    /// slots.
    fn take(&mut self, slots: &mut [Option<NonMaxUsize>]) -> Option<HalfMatch>
        requires few { length slots.old ≤ self.old.slot_len }
        ensures none { result ≡ None → (self.old.found ≡ []) × (slots.new ≡ slots.old) }
        ensures same { result ≡ None → self.new ≡ self.old }
        ensures some { IfSome result (λ half. (l : Listed)
            × (self.old.found ≡ l ∷ self.new.found) × (half.pattern ≡ l.pattern)
            × (half.offset ≡ l.end) × (slots.new ≡ take (length slots.old) l.slots)) }
        ensures engine { self.new.engine ≡ self.old.engine }
        ensures slot_len { self.new.slot_len ≡ self.old.slot_len }
    {
        let one = self.listed.get(self.taken)?;
        let half = HalfMatch::new(one.pattern(), one.end());
        let count = slots.len();
        slots.copy_from_slice(&one.slots()[..count]);
        self.taken += 1;
        Some(half)
    }
}

/// Returns the last offset inside an input's span, its slice and its haystack; it is computed once.
/// The input's position may change.
fn last_inside<C: Cursor>(known: &mut Option<usize>, input: &mut Input<C>) -> usize
    requires known { IfSome known.old (λ place. place ≡ highest (search_of true input.old)) }
    ensures last { result ≡ highest (search_of true input.old) }
    ensures known { known.new ≡ Some result }
    ensures same { IsSameContent input.old.cursor input.new.cursor }
    ensures asked { input.new.asked ≡ input.old.asked }
{
    if let Some(place) = *known {
        return place;
    }
    input.move_to(last_place(input));
    let place = input.position();
    *known = Some(place);
    place
}

/// Adds to the count of offsets.
fn add_places(read: &mut Counter, count: usize)
    ensures { read.new ≡ read.old + count }
{
    for _ in 0..count {
        read.add();
    }
}

/// Counts what finds read that began at an offset: this number of offsets, but at most three times
/// those from there to the last one, which one find reads forward, backward, and by following
/// threads.
fn count_find(finds_read: &mut usize, read: &mut Counter, places: usize, from: usize, last: usize)
    ensures counted { read.new + finds_read.old ≡ read.old + finds_read.new }
    ensures few { finds_read.new ≤ finds_read.old + 3 * (last + 1 - from) }
{
    let ahead = last.saturating_add(1).saturating_sub(from);
    let room = usize::MAX - *finds_read;
    let count = places.min(ahead.saturating_mul(TIMES)).min(room);
    *finds_read += count;
    add_places(read, count);
}

/// A find, or the two for one match: whether it counts, where it began, and how many offsets it
/// read.
#[derive(Clone, Copy, Debug)]
struct Find {
    counts: bool,
    from: usize,
    places: usize,
}

/// Counts what finds read, if it counts.
fn count_if<C: Cursor>(
    find: Find,
    known: &mut Option<usize>,
    input: &mut Input<C>,
    finds_read: &mut usize,
    read: &mut Counter,
)
    requires known { IfSome known.old (λ place. place ≡ highest (search_of true input.old)) }
    ensures counted { read.new + finds_read.old ≡ read.old + finds_read.new }
    ensures few { find.counts ≡ true → finds_read.new
        ≤ finds_read.old + 3 * (highest (search_of true input.old) + 1 - find.from) }
    ensures none { find.counts ≡ false → finds_read.new ≡ finds_read.old }
    ensures known { IfSome known.new (λ place. place ≡ highest (search_of true input.old)) }
    ensures same { IsSameContent input.old.cursor input.new.cursor }
    ensures asked { input.new.asked ≡ input.old.asked }
{
    if !find.counts {
        return;
    }
    let last = last_inside(known, input);
    count_find(finds_read, read, find.places, find.from, last);
}

/// Returns where the match in these slots ends.
fn end_in(pattern: PatternID, slots: &[Option<NonMaxUsize>]) -> usize
    requires ordered { ForSome (whole_span pattern slots.now) (λ span. span.start ≤ span.end) }
    ensures { (span : Span) → whole_span pattern slots.now ≡ Some span → result ≡ span.end }
{
    match match_in(pattern, slots) {
        Some(found) => found.end(),
        None => 0,
    }
}

/// Returns the next match by finds, with its end.
fn find_on<C: Cursor>(
    re: &Regex,
    cache: &mut Cache,
    input: &mut Input<C>,
    slots: &mut [Option<NonMaxUsize>],
    last_end: Option<usize>,
) -> Result<Option<HalfMatch>, MatchError>
    requires made { IsCacheOf re.now cache.old }
    requires slots { 2 * length re.now.engine.groups ≤ length slots.old }
    ensures answer { IfOk result (λ half. TellsWhatComes (EngineFinds re.now.engine)
        (search_by re.now.engine input.old) last_end half slots.new) }
    ensures none { OnErr result (slots.new ≡ no_slots (length slots.new)) }
    ensures made { IsCacheOf re.now cache.new }
    ensures same { (start : ℕ) × StartsFrom input.old input.new start }
    ensures refused { IfErr result (λ error. error ≡ MatchError.Memory) }
{
    let _groups = re.group_info(); // for the proof: what the regex is
    match re.next_slots_with(cache, input, slots, last_end)? {
        Some(pattern) => Ok(Some(HalfMatch::new(pattern, end_in(pattern, slots)))),
        None => Ok(None),
    }
}

/// All matches of a regex in an input, in order, leftmost first, in time linear in the input,
/// however far single finds would read. It uses finds as long as these read at most all offsets
/// once, three times those before them, and ten more. From there on it lists the rest by two
/// passes, which takes the memory of `rx_lists::list_matches`. Before, it takes none.
///
/// Contracts see the input, whose span starts where the last match ended, that offset, whether it
/// has ended, how much finds read, and what was listed.
#[derive(Drop)]
pub struct LinearMatches<C: Cursor> {
    input: Input<C>,
    last_end: Option<usize>,
    is_over: bool,
    // The first offset of the whole, and the last one, once it is computed.
    first: usize,
    last: Option<usize>,
    finds_read: usize,
    rest: Option<ListedRest>,
}

impl<C: Cursor> Model for LinearMatches<C> {
    ghost use Rattle.std.specs.Prelude.{◌≡◌, IfSome, true};
    ghost use Rattle.rx_walks.specs.ProgramFinds.{highest};
    ghost use Rattle.rx_steps.specs.Searching.{search_of};
    ghost use Rattle.regex_cursor.specs.Linear.{IsLinear, LinearState};

    ghost Value = { LinearState };

    ghost view = { λ m. record {
      input = m.input;
      last_end = m.last_end;
      is_over = m.is_over;
      first = m.first;
      finds_read = m.finds_read;
      rest = m.rest;
    } };

    ghost invariant = { λ m. IsLinear (record {
      input = m.input;
      last_end = m.last_end;
      is_over = m.is_over;
      first = m.first;
      finds_read = m.finds_read;
      rest = m.rest;
    }) × IfSome m.last (λ place. place ≡ highest (search_of true m.input)) };
}

impl<C: Cursor> LinearMatches<C> {
    /// Returns all matches in an input, before the first one. `O(1)`.
    pub fn new(input: Input<C>) -> LinearMatches<C>
        ensures { result ≡ linear_from input }
    {
        let first = input.get_slice().start.max(input.start());
        LinearMatches {
            input,
            last_end: None,
            is_over: false,
            first,
            last: None,
            finds_read: 0,
            rest: None,
        }
    }

    /// Returns whether the further matches were listed, so that they are taken from the list.
    /// `O(1)`.
    pub fn is_listed(&self) -> bool
        ensures { IsTrue result ↔ IsSome self.now.rest }
    {
        self.rest.is_some()
    }

    /// Returns whether the further matches should be listed: finds have read more than is allowed,
    /// and the match kind is leftmost.
    fn is_due(&self, kind: MatchKind) -> bool
        ensures some { result ≡ true → self.now.is_over ≡ false → IsSome self.now.last_end }
        ensures leftmost { result ≡ true → kind ≡ MatchKind.LeftmostFirst }
        ensures alone { result ≡ true → self.now.rest ≡ None }
        ensures room { result ≡ false → self.now.is_over ≡ false → self.now.rest ≡ None
            → kind ≡ MatchKind.LeftmostFirst → self.now.finds_read
            ≤ 3 * (lowest (search_of true self.now.input) - self.now.first)
            + all_places self.now + 10 }
    {
        let from = self.input.get_slice().start.max(self.input.start());
        let behind = from.saturating_sub(self.first).saturating_mul(TIMES);
        // It is known once a find was counted.
        let all = match self.last {
            Some(last) => last.saturating_add(1).saturating_sub(self.first),
            None => 0,
        };
        let may_read = behind.saturating_add(all).saturating_add(BESIDES);
        self.finds_read > may_read && self.rest.is_none() && kind == MatchKind::LeftmostFirst
    }

    /// Advances past the next match; ends if there was none.
    fn go_on(&mut self, half: Option<HalfMatch>) -> Option<PatternID>
        requires over { self.old.is_over ≡ true }
        requires alone { self.old.rest ≡ None }
        requires within { IfSome half (λ h. h.offset ≤ self.old.input.asked.span.end) }
        requires behind { IfSome half (λ h.
            self.old.first ≤ max self.old.input.asked.slice.start h.offset) }
        ensures pattern { result ≡ option_map (λ h. h.pattern) half }
        ensures none { half ≡ None → self.new ≡ self.old }
        ensures input { IfSome half (λ h. StartsFrom self.old.input self.new.input h.offset) }
        ensures last_end { IfSome half (λ h. self.new.last_end ≡ Some h.offset) }
        ensures on { IfSome half (λ h. self.new.is_over ≡ false) }
        ensures first { self.new.first ≡ self.old.first }
        ensures read { self.new.finds_read ≡ self.old.finds_read }
        ensures rest { self.new.rest ≡ None }
    {
        let half = half?;
        self.input.set_start(half.offset());
        self.last_end = Some(half.offset());
        self.is_over = false;
        Some(half.pattern())
    }

    /// Returns the next match, from the list.
    fn next_listed(
        &mut self,
        mut rest: ListedRest,
        slots: &mut [Option<NonMaxUsize>],
    ) -> Option<PatternID>
        requires on { self.old.is_over ≡ false }
        requires alone { self.old.rest ≡ None }
        requires few { length slots.old ≤ rest.slot_len }
        requires clear { slots.old ≡ no_slots (length slots.old) }
        requires rest { IsRestOf self.old rest }
        ensures next { GivesSlots (EngineFinds rest.engine) (left_of rest.engine self.old) result
            slots.new (left_of rest.engine self.new) }
        ensures same { (start : ℕ) × StartsFrom self.old.input self.new.input start }
        ensures first { self.new.first ≡ self.old.first }
        ensures read { self.new.finds_read ≡ self.old.finds_read }
        ensures rest { IfSome self.new.rest (λ r. r.engine ≡ rest.engine) }
        ensures slot_len { IfSome self.new.rest (λ r. r.slot_len ≡ rest.slot_len) }
        ensures listed { IsSome self.new.rest }
    {
        self.is_over = true;
        let half = rest.take(slots);
        let pattern = self.go_on(half);
        self.rest = Some(rest);
        pattern
    }

    /// Returns the next match, by finds, which are counted or not.
    fn next_found(
        &mut self,
        re: &Regex,
        cache: &mut Cache,
        slots: &mut [Option<NonMaxUsize>],
        counts: bool,
        read: &mut Counter,
    ) -> Result<Option<PatternID>, MatchError>
        requires made { IsCacheOf re.now cache.old }
        requires slots { 2 * length re.now.engine.groups ≤ length slots.old }
        requires on { self.old.is_over ≡ false }
        requires alone { self.old.rest ≡ None }
        requires room { counts ≡ true → self.old.finds_read
            ≤ 3 * (lowest (search_of true self.old.input) - self.old.first)
            + all_places self.old + 10 }
        ensures next { IfOk result (λ pattern. GivesSlots (EngineFinds re.now.engine)
            (left_of re.now.engine self.old) pattern slots.new
            (left_of re.now.engine self.new)) }
        ensures none { OnErr result (slots.new ≡ no_slots (length slots.new)) }
        ensures stops { OnErr result (self.new.is_over ≡ true) }
        ensures made { IsCacheOf re.now cache.new }
        ensures same { (start : ℕ) × StartsFrom self.old.input self.new.input start }
        ensures first { self.new.first ≡ self.old.first }
        ensures alone { self.new.rest ≡ None }
        ensures counted { read.new + self.old.finds_read ≡ read.old + self.new.finds_read }
        ensures uncounted { counts ≡ false → self.new.finds_read ≡ self.old.finds_read }
        ensures few { self.new.finds_read ≤ 4 * all_places self.old + 10 }
        ensures refused { IfErr result (λ error. error ≡ MatchError.Memory) }
    {
        let from = self.input.get_slice().start.max(self.input.start());
        let before = cache.places_read();
        self.is_over = true;
        let found = find_on(re, cache, &mut self.input, slots, self.last_end);
        let places = cache.places_read().saturating_sub(before).saturating_add(1);
        let find = Find {
            counts,
            from,
            places,
        };
        count_if(
            find,
            &mut self.last,
            &mut self.input,
            &mut self.finds_read,
            read,
        );
        Ok(self.go_on(found?))
    }

    /// Returns the next match, if each match is a literal: its next occurrence in the span, without
    /// an engine or a cache. What is read is counted.
    fn next_literal(
        &mut self,
        re: &Regex,
        needle: &Prefilter,
        slots: &mut [Option<NonMaxUsize>],
        read: &mut Counter,
    ) -> Option<PatternID>
        requires literal { IsLiteralOf needle.now (character_program re.now.engine.program) }
        requires first { re.now.engine.match_kind ≡ MatchKind.LeftmostFirst }
        requires asks { AsksInSlice self.old.input.asked }
        requires on { self.old.is_over ≡ false }
        requires alone { self.old.rest ≡ None }
        requires room { self.old.finds_read
            ≤ 3 * (lowest (search_of true self.old.input) - self.old.first)
            + all_places self.old + 10 }
        ensures next { GivesSlots (EngineFinds re.now.engine) (left_of re.now.engine self.old)
            result slots.new (left_of re.now.engine self.new) }
        ensures same { (start : ℕ) × StartsFrom self.old.input self.new.input start }
        ensures first { self.new.first ≡ self.old.first }
        ensures alone { self.new.rest ≡ None }
        ensures counted { read.new + self.old.finds_read ≡ read.old + self.new.finds_read }
        ensures few { self.new.finds_read ≤ 4 * all_places self.old + 10 }
    {
        let from = self.input.get_slice().start.max(self.input.start());
        self.is_over = true;
        let (found, end) = next_occurrence(re, needle, &mut self.input, slots, self.last_end);
        let find = Find {
            counts: true,
            from,
            places: end.saturating_sub(from),
        };
        count_if(
            find,
            &mut self.last,
            &mut self.input,
            &mut self.finds_read,
            read,
        );
        self.go_on(found)
    }

    /// Lists the further matches, each with this number of slots. The only error is `Memory`, after
    /// which it ends.
    fn list_rest(
        &mut self,
        re: &Regex,
        slot_len: usize,
        read: &mut Counter,
    ) -> Result<ListedRest, MatchError>
        requires leftmost { re.now.engine.match_kind ≡ MatchKind.LeftmostFirst }
        requires on { self.old.is_over ≡ false }
        requires some { IsSome self.old.last_end }
        requires alone { self.old.rest ≡ None }
        ensures rest { IfOk result (λ rest. IsRestOf self.new rest) }
        ensures engine { IfOk result (λ rest. rest.engine ≡ re.now.engine) }
        ensures slot_len { IfOk result (λ rest. rest.slot_len ≡ slot_len) }
        ensures same { IsSameContent self.old.input.cursor self.new.input.cursor }
        ensures asked { self.new.input.asked ≡ self.old.input.asked }
        ensures last_end { self.new.last_end ≡ self.old.last_end }
        ensures goes_on { IfOk result (λ _. self.new.is_over ≡ false) }
        ensures stops { OnErr result (self.new.is_over ≡ true) }
        ensures first { self.new.first ≡ self.old.first }
        ensures read { self.new.finds_read ≡ self.old.finds_read }
        ensures alone { self.new.rest ≡ None }
        ensures counted { read.new ≤ read.old + 6 * all_places self.old }
        ensures refused { IfErr result (λ error. error ≡ MatchError.Memory) }
    {
        let listed = list_behind(re, &mut self.input, slot_len, read);
        self.is_over = listed.is_err();
        listed
    }

    /// Lists the further matches, and takes the first of them.
    fn list_and_next(
        &mut self,
        re: &Regex,
        slots: &mut [Option<NonMaxUsize>],
        read: &mut Counter,
    ) -> Result<Option<PatternID>, MatchError>
        requires leftmost { re.now.engine.match_kind ≡ MatchKind.LeftmostFirst }
        requires on { self.old.is_over ≡ false }
        requires some { IsSome self.old.last_end }
        requires alone { self.old.rest ≡ None }
        requires clear { slots.old ≡ no_slots (length slots.old) }
        ensures next { IfOk result (λ pattern. GivesSlots (EngineFinds re.now.engine)
            (left_of re.now.engine self.old) pattern slots.new
            (left_of re.now.engine self.new)) }
        ensures none { OnErr result (slots.new ≡ no_slots (length slots.new)) }
        ensures stops { OnErr result (self.new.is_over ≡ true) }
        ensures same { (start : ℕ) × StartsFrom self.old.input self.new.input start }
        ensures first { self.new.first ≡ self.old.first }
        ensures read { self.new.finds_read ≡ self.old.finds_read }
        ensures alike { IsListedFor re.now.engine self.new }
        ensures listed { HasListed (length slots.new) self.new }
        ensures kept { IfOk result (λ _. IsSome self.new.rest) }
        ensures counted { read.new ≤ read.old + 6 * all_places self.old }
        ensures refused { IfErr result (λ error. error ≡ MatchError.Memory) }
    {
        let rest = self.list_rest(re, slots.len(), read)?;
        Ok(self.next_listed(rest, slots))
    }

    /// Returns the next match if the further matches were listed: from that list, or, if more slots
    /// are requested than it has, by finds, which are not counted, and the list is dropped.
    fn next_kept(
        &mut self,
        rest: ListedRest,
        re: &Regex,
        cache: &mut Cache,
        slots: &mut [Option<NonMaxUsize>],
        read: &mut Counter,
    ) -> Result<Option<PatternID>, MatchError>
        requires made { IsCacheOf re.now cache.old }
        requires slots { 2 * length re.now.engine.groups ≤ length slots.old }
        requires on { self.old.is_over ≡ false }
        requires alone { self.old.rest ≡ None }
        requires clear { slots.old ≡ no_slots (length slots.old) }
        requires rest { IsRestOf self.old rest }
        requires alike { FindAlike rest.engine re.now.engine }
        ensures next { IfOk result (λ pattern. GivesSlots (EngineFinds re.now.engine)
            (left_of re.now.engine self.old) pattern slots.new
            (left_of re.now.engine self.new)) }
        ensures none { OnErr result (slots.new ≡ no_slots (length slots.new)) }
        ensures stops { OnErr result (self.new.is_over ≡ true) }
        ensures made { IsCacheOf re.now cache.new }
        ensures same { (start : ℕ) × StartsFrom self.old.input self.new.input start }
        ensures first { self.new.first ≡ self.old.first }
        ensures read { self.new.finds_read ≡ self.old.finds_read }
        ensures alike { IsListedFor re.now.engine self.new }
        ensures listed { HasListed (length slots.new) self.new }
        ensures kept { length slots.old ≤ rest.slot_len → IsSome self.new.rest }
        ensures counted { read.new ≡ read.old }
        ensures refused { IfErr result (λ error. error ≡ MatchError.Memory) }
    {
        if slots.len() <= rest.slot_len {
            return Ok(self.next_listed(rest, slots));
        }
        self.next_found(re, cache, slots, false, read)
    }

    /// Returns the next match if the further matches were listed, or should be now. Separate from
    /// finds, because a function pays for the room of a list at each call.
    fn next_by_list(
        &mut self,
        re: &Regex,
        cache: &mut Cache,
        slots: &mut [Option<NonMaxUsize>],
        read: &mut Counter,
    ) -> Result<Option<PatternID>, MatchError>
        requires made { IsCacheOf re.now cache.old }
        requires slots { 2 * length re.now.engine.groups ≤ length slots.old }
        requires on { self.old.is_over ≡ false }
        requires leftmost { self.old.rest ≡ None
            → re.now.engine.match_kind ≡ MatchKind.LeftmostFirst }
        requires some { self.old.rest ≡ None → IsSome self.old.last_end }
        requires alike { IsListedFor re.now.engine self.old }
        ensures next { IfOk result (λ pattern. GivesSlots (EngineFinds re.now.engine)
            (left_of re.now.engine self.old) pattern slots.new
            (left_of re.now.engine self.new)) }
        ensures none { OnErr result (slots.new ≡ no_slots (length slots.new)) }
        ensures stops { OnErr result (self.new.is_over ≡ true) }
        ensures made { IsCacheOf re.now cache.new }
        ensures same { (start : ℕ) × StartsFrom self.old.input self.new.input start }
        ensures first { self.new.first ≡ self.old.first }
        ensures alike { IsListedFor re.now.engine self.new }
        ensures listed { HasListed (length slots.new) self.new }
        ensures counted { HasListed (length slots.old) self.old → IfOk result (λ _.
            read.new + places_read self.old ≤ read.old + places_read self.new) }
        ensures bound { HasListed (length slots.old) self.old
            → read.new + places_read self.old ≤ read.old + 10 * all_places self.old + 10 }
        ensures refused { IfErr result (λ error. error ≡ MatchError.Memory) }
    {
        clear_slots(slots);
        match self.rest.take() {
            Some(rest) => self.next_kept(rest, re, cache, slots, read),
            None => self.list_and_next(re, slots, read),
        }
    }

    /// Returns the pattern of the next match, the first or the one after the last, and writes its
    /// offsets into the slots, as many as there are; all others are empty. An empty match where the
    /// last one ended is skipped. It is a whole match, also if `earliest` is set. Returns `None`
    /// after the last match, and after an error.
    ///
    /// # Requires
    ///
    /// The cache is for this regex, and remains so. There are at least two slots for each pattern
    /// of the regex. The regex finds the same as that of the call before.
    ///
    /// # Errors
    ///
    /// `Memory` only: then all slots are empty.
    ///
    /// # Complexity
    ///
    /// If the regex finds the leftmost match, `read` counts the offsets read: of one find at most
    /// three times those ahead. If the number of slots is the same each time, all calls together
    /// count at most ten times the number of offsets inside span, slice and haystack, plus ten. If
    /// more are requested than were listed, the list is rebuilt.
    pub fn next_slots(
        &mut self,
        re: &Regex,
        cache: &mut Cache,
        slots: &mut [Option<NonMaxUsize>],
        read: &mut Counter,
    ) -> Result<Option<PatternID>, MatchError>
        requires made { IsCacheOf re.now cache.old }
        requires slots { 2 * length re.now.engine.groups ≤ length slots.old }
        requires alike { IsListedFor re.now.engine self.old }
        ensures next { self.old.is_over ≡ false → IfOk result (λ pattern.
            GivesSlots (EngineFinds re.now.engine) (left_of re.now.engine self.old) pattern
            slots.new (left_of re.now.engine self.new)) }
        ensures over { self.old.is_over ≡ true → IfOk result (λ pattern. pattern ≡ None) }
        ensures stays_over { self.old.is_over ≡ true → self.new.is_over ≡ true }
        ensures still { self.old.is_over ≡ true → self.new ≡ self.old }
        ensures stops { OnErr result (self.new.is_over ≡ true) }
        ensures none { OnErr result (slots.new ≡ no_slots (length slots.new)) }
        ensures made { IsCacheOf re.now cache.new }
        ensures same { (start : ℕ) × StartsFrom self.old.input self.new.input start }
        ensures first { self.new.first ≡ self.old.first }
        ensures alike { IsListedFor re.now.engine self.new }
        ensures listed { self.old.is_over ≡ false → HasListed (length slots.new) self.new }
        ensures refused { IfErr result (λ error. error ≡ MatchError.Memory) }
        ensures counted { re.now.engine.match_kind ≡ MatchKind.LeftmostFirst
            → HasListed (length slots.old) self.old → IfOk result (λ _.
            read.new + places_read self.old ≤ read.old + places_read self.new) }
        ensures bound { re.now.engine.match_kind ≡ MatchKind.LeftmostFirst
            → HasListed (length slots.old) self.old
            → read.new + places_read self.old ≤ read.old + 10 * all_places self.old + 10 }
    {
        if self.is_over {
            clear_slots(slots);
            return Ok(None);
        }
        let kind = re.vm().match_kind();
        if self.rest.is_some() || self.is_due(kind) {
            return self.next_by_list(re, cache, slots, read);
        }
        if let Some(needle) = re.whole_literal() {
            if asks_in_slice(&self.input) {
                return Ok(self.next_literal(re, needle, slots, read));
            }
        }
        let counts = kind == MatchKind::LeftmostFirst;
        self.next_found(re, cache, slots, counts, read)
    }
}
