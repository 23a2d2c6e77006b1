//! The engine that follows all paths through a program at once.
//!
//! Each search requires a cache for its engine, and `Memory` is its only error.

ghost use Rattle.std.specs.Prelude.{◌≡◌, ℕ, ◌+◌, ◌*◌, ◌<◌, ◌≤◌, ◌^◌, map, IfOk, IfErr, IsTrue, OnOk, OnErr, None, Some, length, option_map, true, false};
ghost use Rattle.std.specs.Option.{ForSome};
ghost use Rattle.rx_util.specs.declared.search.MatchError.{MatchError};
ghost use Rattle.rx_util.specs.Groups.{slot_len};
ghost use Rattle.rx_util.specs.Captured.{nothing_noted, place_in, group_span, match_found};
ghost use Rattle.rx_grammar.specs.Postorder.{tree_of};
ghost use Rattle.rx_grammar.specs.Settings.{default_settings};
ghost use Rattle.rx_input.specs.Searchers.{EndsInside};
ghost use Rattle.rx_util.specs.declared.search.MatchKind.{MatchKind};
ghost use Rattle.rx_steps.specs.Searching.{IsFirstEnd, IsAnswerAt as IsFirstAnswerAt};
ghost use Rattle.rx_steps.specs.Standing.{StopsAt};
ghost use Rattle.rx_steps.specs.Threads.{no_slots};
ghost use Rattle.rx_steps.specs.Caches.{IsCacheOf};
ghost use Rattle.rx_chunk.specs.Engines.{nothing_set, settings_over, IsEngine, AreRefused, IsBuiltOf, IsBuiltOfAll, IsBuiltOfTrees, IsRefused, IsRefusedOfAll, EngineFinds, IsAnswerAt, IsFoundAt, StopsAs, TellsWhether, by_default, end_noted, start_noted, whole_span};
ghost use Rattle.rx_chunk.specs.Iterating.{EndsAhead, HasNotedNext, IsFoundNext, IsNextAnswer};
ghost use Rattle.rx_chunk.specs.Iterating.{StartsFrom, StartsThereOrNext, matches_from};
ghost use Rattle.rx_chunk.specs.FindMatches.{cache_of, engine_of, left_of};
ghost use Rattle.rx_chunk.specs.Searches.{AsksTheSame, HoldsMatches, ServesOn, StopsInTime, TellsMatch, TellsSlots, TellsSlotsAt, TellsWhole, search_by};

use all::seek_all;
use rx_engine::Compiled;
use rx_grammar::{Hir, syntax};
use rx_input::{Cursor, Input};
use rx_program::{BuildError, Program};
use rx_steps as search;
use rx_util::{Captures, GroupInfo, Match, MatchError, MatchKind, NonMaxUsize, PatternID, Span};
use std::alloc::{AllocError, Global};
use std::marker::Model;

mod all;
mod config;
mod find_matches;

pub use config::Config;
pub use find_matches::FindMatches;

/// Builds a `PikeVM` from a pattern, or from several.
#[derive(Debug, Drop)]
pub struct Builder {
    builder: rx_engine::Builder,
}

impl Model for Builder {
    ghost use Rattle.rx_chunk.specs.Engines.{Wanted};

    ghost Value = { Wanted };

    ghost view = { λ b. b.builder };
}

impl Builder {
    /// Returns a builder with default settings.
    pub fn new() -> Builder
        ensures { result ≡ record { settings = nothing_set; syntax = default_settings } }
    {
        Builder {
            builder: rx_engine::Builder::new(),
        }
    }

    /// Returns a copy. The only error is `Memory`.
    pub fn clone(&self) -> Result<Builder, MatchError>
        ensures same { IfOk result (λ builder. builder ≡ self.now) }
        ensures refused { IfErr result (λ error. error ≡ MatchError.Memory) }
    {
        Ok(Builder {
            builder: self.builder.clone()?,
        })
    }

    /// Sets the settings that are set in `config`, and keeps the others. Drops a prefilter, because
    /// a PikeVM uses none.
    pub fn configure(&mut self, config: Config) -> &mut Builder
        ensures set { result.now ≡ record self.old {
          settings = settings_over config.engine self.old.settings;
        } }
        ensures same_reference { result.ghost_name ≡ self.entry.ghost_name }
    {
        self.builder.configure(config.of_engine());
        self
    }

    /// Replaces all settings of the syntax.
    pub fn syntax(&mut self, config: syntax::Config) -> &mut Builder
        ensures set { result.now ≡ record self.old { syntax = config } }
        ensures same_reference { result.ghost_name ≡ self.entry.ghost_name }
    {
        self.builder.syntax(config);
        self
    }

    /// Builds the engine of a pattern, in time and memory proportional to its weight and to the
    /// automata of its sets.
    ///
    /// # Errors
    ///
    /// - `TooLong` for a pattern of more than 65,536 bytes
    /// - `Nesting` for a text that is a pattern only with a greater nest limit
    /// - `Outside` for a text outside the grammar
    /// - `Size` for a pattern that exceeds the size limit, or, without one, a weight of
    ///   2,147,483,646
    /// - `Memory`, which may replace any result
    pub fn build(&self, alloc: Global, pattern: &str) -> Result<PikeVM, BuildError>
        ensures built { IfOk result (λ vm. IsBuiltOf pattern.now self.now vm) }
        ensures refused { IfErr result (λ error. IsRefused pattern.now self.now error) }
    {
        Ok(PikeVM {
            compiled: self.builder.build(alloc, pattern)?,
        })
    }

    /// Builds the engine of patterns that are searched for together, in time and memory as for all
    /// of them. If matches of several start at the same offset, the earliest pattern is preferred.
    /// Without a pattern there is never a match.
    ///
    /// # Errors
    ///
    /// Those of [`build`](Self::build), for the first pattern that is refused; then `Size` if the
    /// patterns together, plus 1 unless there is exactly one, weigh too much.
    pub fn build_many(&self, alloc: Global, patterns: &[&str]) -> Result<PikeVM, BuildError>
        ensures built { IfOk result
            (λ vm. IsBuiltOfAll (map (λ text. text.now) patterns.now) self.now vm) }
        ensures refused { IfErr result
            (λ error. IsRefusedOfAll (map (λ text. text.now) patterns.now) self.now error) }
    {
        Ok(PikeVM {
            compiled: self.builder.build_many(alloc, patterns)?,
        })
    }

    /// Builds the engine from syntax trees, as [`build_many`](Self::build_many) does from patterns.
    /// The settings of the syntax are those with which they were parsed.
    ///
    /// # Errors
    ///
    /// `Size` if they are too large; `Memory`.
    pub fn build_many_from_hir(&self, alloc: Global, hirs: &[&Hir]) -> Result<PikeVM, BuildError>
        ensures built { IfOk result (λ vm. IsBuiltOfTrees
            (map (λ hir. tree_of hir.now) hirs.now) self.now.settings vm) }
        ensures refused { IfErr result (λ error. AreRefused
            (map (λ hir. tree_of hir.now) hirs.now) self.now.settings error) }
    {
        Ok(PikeVM {
            compiled: self.builder.build_many_from_hir(alloc, hirs)?,
        })
    }
}

/// An engine that searches for a pattern, or for several. Contracts see their program, which match
/// it reports, the groups that it captures, and whether it skips empty matches inside a character.
///
/// # Examples
///
/// ```rust
/// let vm = PikeVM::new(rt.alloc(), r"(?<name>\w+)@(\w+)")?;
/// let mut cache = vm.create_cache()?;
/// let mut caps = vm.create_captures()?;
/// let pieces: [&[u8]; 3] = [b"a frog@pond, ", b"to", b"ad@road"];
/// let mut input = Input::new(ChunkCursor::new(&pieces));
/// pikevm::search(&vm, &mut cache, &mut input, &mut caps)?;
/// assert_eq!(rt; caps.get_group(0), Some(Span { start: 2, end: 11 }));
/// ```
#[derive(Debug)]
pub struct PikeVM {
    compiled: Compiled,
}

// Written out, so that crates above needn't prove how the fields are dropped.
impl Drop for PikeVM {
    fn drop(self) {
        let PikeVM {
            compiled: _compiled,
        } = self;
    }
}

impl Model for PikeVM {
    ghost use Rattle.rx_chunk.specs.Engines.{Engine};

    ghost Value = { Engine };

    ghost view = { λ vm. vm.compiled };
}

impl PikeVM {
    /// Builds the engine of a pattern with default settings. Errors are those of
    /// [`Builder::build`].
    pub fn new(alloc: Global, pattern: &str) -> Result<PikeVM, BuildError>
        ensures built { IfOk result (λ vm. IsBuiltOf pattern.now by_default vm) }
        ensures refused { IfErr result (λ error. IsRefused pattern.now by_default error) }
    {
        Builder::new().build(alloc, pattern)
    }

    /// Builds the engine of patterns that are searched for together, with default settings. Errors
    /// are those of [`Builder::build_many`].
    pub fn new_many(alloc: Global, patterns: &[&str]) -> Result<PikeVM, BuildError>
        ensures built { IfOk result
            (λ vm. IsBuiltOfAll (map (λ text. text.now) patterns.now) by_default vm) }
        ensures refused { IfErr result
            (λ error. IsRefusedOfAll (map (λ text. text.now) patterns.now) by_default error) }
    {
        Builder::new().build_many(alloc, patterns)
    }

    /// Returns a copy that shares program and groups. `O(1)`. The only error is `Memory`.
    pub fn clone(&self) -> Result<PikeVM, MatchError>
        ensures same { IfOk result (λ vm. vm ≡ self.now) }
        ensures refused { IfErr result (λ error. error ≡ MatchError.Memory) }
    {
        Ok(PikeVM {
            compiled: self.compiled.clone()?,
        })
    }

    /// Returns a cache for searches with this engine. Its memory is proportional to the program's
    /// states and those of their automata. The only error is `Memory`.
    pub fn create_cache(&self) -> Result<Cache, MatchError>
        ensures made { IfOk result (λ cache. IsCacheOf self.now.program cache) }
        ensures refused { IfErr result (λ error. error ≡ MatchError.Memory) }
    {
        Cache::new(self.program().allocator(), self)
    }

    /// Returns captures of no match, with slots for all groups. `O(n)` in the number of groups. The
    /// only error is `Memory`.
    pub fn create_captures(&self) -> Result<Captures, MatchError>
        ensures made { IfOk result (λ caps. caps
            ≡ nothing_noted self.now.groups (slot_len self.now.groups)) }
        ensures room { IfOk result
            (λ caps. 2 * length self.now.groups ≤ length caps.slots) }
        ensures refused { IfErr result (λ error. error ≡ MatchError.Memory) }
    {
        self.compiled.create_captures()
    }

    /// Returns the groups of its patterns. `O(1)`.
    pub fn group_info(&self) -> &GroupInfo
        ensures groups { result.now ≡ self.now.groups }
        ensures engine { IsEngine self.now }
        ensures patterns { length self.now.program.patterns ≡ length self.now.groups }
    {
        self.compiled.group_info()
    }

    /// Returns the program, which other engines share. `O(1)`.
    pub fn program(&self) -> &Program
        ensures program { result.now ≡ self.now.program }
        ensures engine { IsEngine self.now }
    {
        self.compiled.program()
    }

    /// Returns the number of groups of its patterns, captured or not, including the whole match of
    /// each. `O(1)`.
    pub fn captures_len(&self) -> usize
        ensures len { result ≡ self.now.captures_len }
        ensures engine { IsEngine self.now }
    {
        self.compiled.captures_len()
    }

    /// Returns the number of groups in every match, captured or not, including the whole match.
    /// `None` if matches differ in that, or if there is no pattern. `O(1)`.
    pub fn static_captures_len(&self) -> Option<usize>
        ensures len { result ≡ self.now.static_captures_len }
        ensures engine { IsEngine self.now }
    {
        self.compiled.static_captures_len()
    }

    /// Returns which of all matches it reports. `O(1)`.
    pub fn match_kind(&self) -> MatchKind
        ensures { result ≡ self.now.match_kind }
    {
        self.compiled.match_kind()
    }

    /// Returns whether empty matches inside a character are skipped, also by the engines that share
    /// the program.
    pub fn utf8_empty(&self) -> bool
        ensures { result ≡ self.now.utf8_empty }
    {
        self.compiled.utf8_empty()
    }
}

/// Memory that searches with an engine reuse. It is for the engine that it was made or reset for,
/// and remains usable after each search, also after an error.
#[derive(Debug)]
pub struct Cache {
    room: search::Cache,
    // Slots for the whole match of each pattern.
    places: Vec<Option<NonMaxUsize>>,
}

// Written out, so that crates above needn't prove how the fields are dropped.
impl Drop for Cache {
    fn drop(self) {
        let Cache {
            room: _room,
            places: _places,
        } = self;
    }
}

impl Model for Cache {
    ghost use Rattle.rx_steps.specs.Caches.{CacheView};

    ghost Value = { CacheView };

    ghost view = { λ c. c.room };
}

impl Cache {
    /// Returns a cache for searches with an engine, as [`PikeVM::create_cache`] does. The only
    /// error is `Memory`.
    pub fn new(alloc: Global, vm: &PikeVM) -> Result<Cache, MatchError>
        ensures made { IfOk result (λ cache. IsCacheOf vm.now.program cache) }
        ensures refused { IfErr result (λ error. error ≡ MatchError.Memory) }
    {
        let room = search::Cache::new(alloc, vm.program())?;
        let places = vec![in alloc; None; vm.group_info().implicit_slot_len()]?;
        Ok(Cache { room, places })
    }

    /// Returns a copy for the same engine, with what this one has cached. The only error is
    /// `Memory`.
    pub fn clone(&self) -> Result<Cache, MatchError>
        ensures same { IfOk result (λ cache. cache ≡ record self.now { followed = 0 }) }
        ensures refused { IfErr result (λ error. error ≡ MatchError.Memory) }
    {
        let room = self.room.clone()?;
        let places = self.places.clone()?;
        Ok(Cache { room, places })
    }

    /// Makes this a cache for searches with another engine. The only error is `Memory`, which
    /// leaves the cache unchanged.
    pub fn reset(&mut self, vm: &PikeVM) -> Result<(), MatchError>
        ensures made { OnOk result (IsCacheOf vm.now.program self.new) }
        ensures kept { OnErr result (self.new ≡ self.old) }
        ensures refused { IfErr result (λ error. error ≡ MatchError.Memory) }
    {
        let places = vec![in *self.places.allocator(); None; vm.group_info().implicit_slot_len()]?;
        let made = self.room.reset(vm.program());
        if made.is_ok() {
            self.places = places;
        }
        made
    }

    /// Returns the approximate number of bytes of its lists. No contract fixes it.
    pub fn memory_usage(&self) -> usize {
        self.room.memory_usage()
    }
}

/// Searches for a match, returns its pattern, and writes its offsets into the slots, as many as
/// there are. All other slots become `None`.
///
/// With one pattern, the slots of group k are 2k and 2k + 1. With several, those of pattern p's
/// group 0 are 2p and 2p + 1, and those of the other groups follow these of all patterns, as
/// `group_info` reports. If the input is set to `earliest`, the search stops at the first end of a
/// match, and the slots are those of what is found up to there. The settings of the input stay.
///
/// # Requires
///
/// The cache is for this engine, which it remains.
///
/// # Errors
///
/// `Memory`; all slots are then `None`.
///
/// # Complexity
///
/// The search stops once a match is found and no path is left to follow. An engine for all matches
/// searches the whole span unless it is anchored, and captures only the whole match. Each node of
/// the program is followed at most once at each offset (`serves`). That takes time proportional to
/// the program times the haystack, and, except for all matches, times the slots.
pub fn search_slots<C: Cursor>(
    vm: &PikeVM,
    cache: &mut Cache,
    input: &mut Input<C>,
    slots: &mut [Option<NonMaxUsize>],
) -> Result<Option<PatternID>, MatchError>
    requires made { IsCacheOf vm.now.program cache.old }
    ensures answer { IfOk result (λ pattern. TellsSlots vm.now input.old pattern slots.new) }
    ensures answer_at { IfOk result
        (λ pattern. TellsSlotsAt vm.now input.old input.new.position pattern slots.new) }
    ensures stops { IfOk result
        (λ pattern. ForSome pattern (λ _. StopsInTime vm.now input.old input.new.position)) }
    ensures none { OnErr result (slots.new ≡ no_slots (length slots.new)) }
    ensures serves { ServesOn vm.now input.old cache.old cache.new }
    ensures asks { AsksTheSame input.old input.new }
    ensures refused { IfErr result (λ error. error ≡ MatchError.Memory) }
{
    let earliest = input.get_earliest();
    seek(vm, &mut cache.room, input, earliest, slots)
}

/// Searches as `search_slots` does, with this `earliest`.
fn seek<C: Cursor>(
    vm: &PikeVM,
    cache: &mut search::Cache,
    input: &mut Input<C>,
    earliest: bool,
    slots: &mut [Option<NonMaxUsize>],
) -> Result<Option<PatternID>, MatchError>
    requires made { IsCacheOf vm.now.program cache.old }
    ensures answer { IfOk result (λ pattern. IsAnswerAt earliest vm.now
        (search_by vm.now input.old) input.new.position pattern slots.new) }
    ensures stops { IfOk result (λ pattern. ForSome pattern (λ _. StopsAs vm.now.match_kind
        earliest vm.now.program (search_by vm.now input.old) input.new.position)) }
    ensures none { OnErr result (slots.new ≡ no_slots (length slots.new)) }
    ensures serves { ServesOn vm.now input.old cache.old cache.new }
    ensures asks { AsksTheSame input.old input.new }
    ensures engine { IsEngine vm.now }
    ensures bound { length input.old.cursor.content < 2 ^ 63 }
    ensures refused { IfErr result (λ error. error ≡ MatchError.Memory) }
{
    let _at = input.position(); // for the proof: how long the haystack may be
    match vm.match_kind() {
        MatchKind::LeftmostFirst => seek_first(vm, cache, input, earliest, slots),
        MatchKind::All => seek_all(vm, cache, input, earliest, slots),
    }
}

/// Searches for the leftmost match, whatever the engine's match kind, with this `earliest`.
fn seek_first<C: Cursor>(
    vm: &PikeVM,
    cache: &mut search::Cache,
    input: &mut Input<C>,
    earliest: bool,
    slots: &mut [Option<NonMaxUsize>],
) -> Result<Option<PatternID>, MatchError>
    requires made { IsCacheOf vm.now.program cache.old }
    ensures answer { IfOk result (λ pattern. IsFirstAnswerAt earliest vm.now.program
        (search_by vm.now input.old) input.new.position pattern slots.new) }
    ensures stops { IfOk result (λ pattern. ForSome pattern (λ _. StopsAt earliest vm.now.program
        (search_by vm.now input.old) input.new.position)) }
    ensures none { OnErr result (slots.new ≡ no_slots (length slots.new)) }
    ensures serves { ServesOn vm.now input.old cache.old cache.new }
    ensures asks { AsksTheSame input.old input.new }
    ensures engine { IsEngine vm.now }
    ensures bound { length input.old.cursor.content < 2 ^ 63 }
    ensures refused { IfErr result (λ error. error ≡ MatchError.Memory) }
{
    let _at = input.position(); // for the proof: how long the haystack may be
    let utf8_empty = vm.utf8_empty();
    search::search_slots(vm.program(), cache, input, utf8_empty, earliest, slots)
}

/// Searches for a match and stores it in captures, as [`search_slots`] does in slots.
///
/// Group 0 is the whole match if the captures have the engine's groups and at least two slots for
/// each pattern, as those that the engine makes.
///
/// # Requires
///
/// The cache is for this engine.
///
/// # Errors
///
/// `Memory`; the captures are then of no match, and all slots are `None`.
pub fn search<C: Cursor>(
    vm: &PikeVM,
    cache: &mut Cache,
    input: &mut Input<C>,
    caps: &mut Captures,
) -> Result<(), MatchError>
    requires made { IsCacheOf vm.now.program cache.old }
    ensures answer { OnOk result
        (TellsSlots vm.now input.old caps.new.pattern caps.new.slots) }
    ensures whole { HoldsMatches vm.now caps.old
        → OnOk result (TellsWhole vm.now input.old caps.new) }
    ensures stops { OnOk result
        (ForSome caps.new.pattern (λ _. StopsInTime vm.now input.old input.new.position)) }
    ensures groups { caps.new.groups ≡ caps.old.groups }
    ensures slot_len { length caps.new.slots ≡ length caps.old.slots }
    ensures no_answer { OnErr result (caps.new.pattern ≡ None) }
    ensures none { OnErr result (caps.new.slots ≡ no_slots (length caps.new.slots)) }
    ensures serves { ServesOn vm.now input.old cache.old cache.new }
    ensures asks { AsksTheSame input.old input.new }
    ensures refused { IfErr result (λ error. error ≡ MatchError.Memory) }
{
    let earliest = input.get_earliest();
    note(vm, cache, input, earliest, caps)
}

/// Searches as `search` does, with this `earliest`.
fn note<C: Cursor>(
    vm: &PikeVM,
    cache: &mut Cache,
    input: &mut Input<C>,
    earliest: bool,
    caps: &mut Captures,
) -> Result<(), MatchError>
    requires made { IsCacheOf vm.now.program cache.old }
    ensures answer { OnOk result (IsAnswerAt earliest vm.now
        (search_by vm.now input.old) input.new.position caps.new.pattern
        caps.new.slots) }
    ensures stops { OnOk result (ForSome caps.new.pattern (λ _. StopsAs vm.now.match_kind
        earliest vm.now.program (search_by vm.now input.old) input.new.position)) }
    ensures groups { caps.new.groups ≡ caps.old.groups }
    ensures slot_len { length caps.new.slots ≡ length caps.old.slots }
    ensures no_answer { OnErr result (caps.new.pattern ≡ None) }
    ensures none { OnErr result (caps.new.slots ≡ no_slots (length caps.new.slots)) }
    ensures serves { ServesOn vm.now input.old cache.old cache.new }
    ensures asks { AsksTheSame input.old input.new }
    ensures engine { IsEngine vm.now }
    ensures bound { length input.old.cursor.content < 2 ^ 63 }
    ensures refused { IfErr result (λ error. error ≡ MatchError.Memory) }
{
    caps.set_pattern(None);
    let pattern = seek(vm, &mut cache.room, input, earliest, caps.slots_mut())?;
    caps.set_pattern(pattern);
    Ok(())
}

/// Returns whether there is a match. Stops at the first end of one, and takes time at most
/// proportional to the program times the haystack. Requires a cache for this engine. The only error
/// is `Memory`.
pub fn is_match<C: Cursor>(
    vm: &PikeVM,
    cache: &mut Cache,
    input: &mut Input<C>,
) -> Result<bool, MatchError>
    requires made { IsCacheOf vm.now.program cache.old }
    ensures answer { IfOk result (λ yes. TellsWhether (EngineFinds vm.now)
        (search_by vm.now input.old) yes) }
    ensures stops { IfOk result (λ yes. IsTrue yes → IsFirstEnd vm.now.program
        (search_by vm.now input.old) input.new.position) }
    ensures serves { ServesOn vm.now input.old cache.old cache.new }
    ensures asks { AsksTheSame input.old input.new }
    ensures refused { IfErr result (λ error. error ≡ MatchError.Memory) }
{
    let pattern = seek_first(vm, &mut cache.room, input, true, &mut [])?;
    Ok(pattern.is_some())
}

/// Returns slots for the whole match of each pattern: `slots`, grown if there are too few.
fn whole_slots<'s>(
    vm: &PikeVM,
    slots: &'s mut Vec<Option<NonMaxUsize>>,
) -> Result<&'s mut [Option<NonMaxUsize>], AllocError>
    ensures room { IfOk result (λ slots. 2 * length vm.now.groups ≤ length slots.now) }
{
    let wanted = vm.group_info().implicit_slot_len();
    if slots.len() < wanted {
        slots.resize(wanted, None)?;
    }
    Ok(slots)
}

/// Returns the offset in a slot.
fn place_in(slots: &[Option<NonMaxUsize>], slot: usize) -> Option<usize>
    ensures { result ≡ place_in slots.now slot }
{
    match slots.get(slot) {
        Some(Some(place)) => Some(place.get()),
        _ => None,
    }
}

/// Returns the offsets in the two slots of a pattern's group 0.
fn whole_places(pattern: PatternID, slots: &[Option<NonMaxUsize>]) -> (Option<usize>, Option<usize>)
    ensures { result ≡ (start_noted pattern slots.now, end_noted pattern slots.now) }
{
    let number = pattern.as_usize();
    if number >= slots.len() {
        return (None, None);
    }
    (place_in(slots, 2 * number), place_in(slots, 2 * number + 1))
}

/// Returns the match of a pattern, given the slots of its group 0, or `None` if one of them is
/// empty. Requires a match that doesn't end before it starts, as after a search.
pub fn match_in(pattern: PatternID, slots: &[Option<NonMaxUsize>]) -> Option<Match>
    requires ordered { ForSome (whole_span pattern slots.now) (λ span. span.start ≤ span.end) }
    ensures { result ≡ option_map (λ span. record { pattern = pattern; span = span })
        (whole_span pattern slots.now) }
{
    match whole_places(pattern, slots) {
        (Some(start), Some(end)) => Some(Match::new(pattern, Span { start, end })),
        _ => None,
    }
}

/// Searches for a match and returns it. It ends in the span. Requires a cache for this engine. The
/// only error is `Memory`.
pub fn find<C: Cursor>(
    vm: &PikeVM,
    cache: &mut Cache,
    input: &mut Input<C>,
) -> Result<Option<Match>, MatchError>
    requires made { IsCacheOf vm.now.program cache.old }
    ensures answer { IfOk result (λ found. TellsMatch vm.now input.old found) }
    ensures inside { IfOk result
        (λ found. ForSome found (λ m. EndsInside input.old m.span.end)) }
    ensures stops { IfOk result
        (λ found. ForSome found (λ _. StopsInTime vm.now input.old input.new.position)) }
    ensures serves { ServesOn vm.now input.old cache.old cache.new }
    ensures asks { AsksTheSame input.old input.new }
    ensures refused { IfErr result (λ error. error ≡ MatchError.Memory) }
{
    let earliest = input.get_earliest();
    look_for(vm, cache, input, earliest)
}

/// Searches as `find` does, with this `earliest`.
fn look_for<C: Cursor>(
    vm: &PikeVM,
    cache: &mut Cache,
    input: &mut Input<C>,
    earliest: bool,
) -> Result<Option<Match>, MatchError>
    requires made { IsCacheOf vm.now.program cache.old }
    ensures answer { IfOk result (λ found. IsFoundAt earliest vm.now
        (search_by vm.now input.old) input.new.position found) }
    ensures stops { IfOk result (λ found. ForSome found (λ _. StopsAs vm.now.match_kind
        earliest vm.now.program (search_by vm.now input.old) input.new.position)) }
    ensures serves { ServesOn vm.now input.old cache.old cache.new }
    ensures asks { AsksTheSame input.old input.new }
    ensures bound { OnOk result (length input.old.cursor.content < 2 ^ 63) }
    ensures refused { IfErr result (λ error. error ≡ MatchError.Memory) }
{
    let slots = whole_slots(vm, &mut cache.places)?;
    let found = seek(vm, &mut cache.room, input, earliest, slots)?;
    let Some(pattern) = found else {
        return Ok(None);
    };
    Ok(match_in(pattern, slots))
}

/// Returns whether the match of a pattern in the slots is empty and at the end of the last one.
fn is_empty_at_last(
    pattern: PatternID,
    slots: &[Option<NonMaxUsize>],
    last_match_end: Option<usize>,
) -> bool
    ensures here { result ≡ true → (start_noted pattern slots.now ≡ end_noted pattern slots.now)
        × (last_match_end ≡ end_noted pattern slots.now) }
    ensures elsewhere { result ≡ false
        → start_noted pattern slots.now ≡ end_noted pattern slots.now
        → last_match_end ≡ end_noted pattern slots.now → ⊥ }
{
    let (start, end) = whole_places(pattern, slots);
    start == end && last_match_end == end
}

/// Searches for the next match after one that ended at `last_match_end`, returns its pattern, and
/// writes its offsets into the slots, as many as there are. All other slots become `None`.
///
/// An empty match there is skipped, and the search continues one byte after the start of the span.
/// The whole match is reported even if the input is set to `earliest`.
///
/// # Requires
///
/// The cache is for this engine, and there are at least two slots for each of its patterns.
///
/// # Errors
///
/// `Memory`; all slots are then `None`.
pub fn next_slots<C: Cursor>(
    vm: &PikeVM,
    cache: &mut Cache,
    input: &mut Input<C>,
    slots: &mut [Option<NonMaxUsize>],
    last_match_end: Option<usize>,
) -> Result<Option<PatternID>, MatchError>
    requires made { IsCacheOf vm.now.program cache.old }
    requires slots { 2 * length vm.now.groups ≤ length slots.old }
    ensures answer { IfOk result (λ pattern. IsNextAnswer (EngineFinds vm.now)
        (search_by vm.now input.old) last_match_end pattern slots.new) }
    ensures none { OnErr result (slots.new ≡ no_slots (length slots.new)) }
    ensures made { IsCacheOf vm.now.program cache.new }
    ensures same { (start : ℕ) × StartsFrom input.old input.new start }
    ensures start { StartsThereOrNext input.old input.new }
    ensures engine { IsEngine vm.now }
    ensures refused { IfErr result (λ error. error ≡ MatchError.Memory) }
{
    next_in(vm, &mut cache.room, input, slots, last_match_end)
}

/// Searches as `next_slots` does.
fn next_in<C: Cursor>(
    vm: &PikeVM,
    cache: &mut search::Cache,
    input: &mut Input<C>,
    slots: &mut [Option<NonMaxUsize>],
    last_match_end: Option<usize>,
) -> Result<Option<PatternID>, MatchError>
    requires made { IsCacheOf vm.now.program cache.old }
    requires slots { 2 * length vm.now.groups ≤ length slots.old }
    ensures answer { IfOk result (λ pattern. IsNextAnswer (EngineFinds vm.now)
        (search_by vm.now input.old) last_match_end pattern slots.new) }
    ensures none { OnErr result (slots.new ≡ no_slots (length slots.new)) }
    ensures made { IsCacheOf vm.now.program cache.new }
    ensures same { (start : ℕ) × StartsFrom input.old input.new start }
    ensures start { StartsThereOrNext input.old input.new }
    ensures engine { IsEngine vm.now }
    ensures refused { IfErr result (λ error. error ≡ MatchError.Memory) }
{
    let Some(pattern) = seek(vm, cache, input, false, slots)? else {
        return Ok(None);
    };
    if !is_empty_at_last(pattern, slots, last_match_end) {
        return Ok(Some(pattern));
    }
    let start = input.start();
    input.set_start(start + 1);
    seek(vm, cache, input, false, slots)
}

/// Returns the next match, as [`next_slots`] finds it. Requires a cache for this engine. The only
/// error is `Memory`.
pub fn find_next<C: Cursor>(
    vm: &PikeVM,
    cache: &mut Cache,
    input: &mut Input<C>,
    last_match_end: Option<usize>,
) -> Result<Option<Match>, MatchError>
    requires made { IsCacheOf vm.now.program cache.old }
    ensures answer { IfOk result (λ found. IsFoundNext (EngineFinds vm.now)
        (search_by vm.now input.old) last_match_end found) }
    ensures ahead { IfOk result (λ found. ForSome found (λ m. EndsAhead last_match_end
        (search_by vm.now input.old) m.span.end)) }
    ensures made { IsCacheOf vm.now.program cache.new }
    ensures same { (start : ℕ) × StartsFrom input.old input.new start }
    ensures start { StartsThereOrNext input.old input.new }
    ensures refused { IfErr result (λ error. error ≡ MatchError.Memory) }
{
    let slots = whole_slots(vm, &mut cache.places)?;
    let Some(pattern) = next_in(vm, &mut cache.room, input, slots, last_match_end)? else {
        return Ok(None);
    };
    Ok(match_in(pattern, slots))
}

/// Stores the next match in captures with all its groups, as [`next_slots`] finds it. Requires a
/// cache for this engine, and captures of its groups with at least two slots for each pattern. The
/// only error is `Memory`; the captures are then of no match.
pub fn search_next<C: Cursor>(
    vm: &PikeVM,
    cache: &mut Cache,
    input: &mut Input<C>,
    caps: &mut Captures,
    last_match_end: Option<usize>,
) -> Result<(), MatchError>
    requires made { IsCacheOf vm.now.program cache.old }
    requires groups { caps.old.groups ≡ vm.now.groups }
    requires slots { 2 * length vm.now.groups ≤ length caps.old.slots }
    ensures answer { OnOk result (HasNotedNext (EngineFinds vm.now)
        (search_by vm.now input.old) last_match_end caps.new) }
    ensures ordered { OnOk result (ForSome (group_span caps.new 0)
        (λ span. span.start ≤ span.end)) }
    ensures ahead { OnOk result (ForSome (match_found caps.new) (λ m. EndsAhead last_match_end
        (search_by vm.now input.old) m.span.end)) }
    ensures groups { caps.new.groups ≡ caps.old.groups }
    ensures slot_len { length caps.new.slots ≡ length caps.old.slots }
    ensures no_answer { OnErr result (caps.new.pattern ≡ None) }
    ensures made { IsCacheOf vm.now.program cache.new }
    ensures same { (start : ℕ) × StartsFrom input.old input.new start }
    ensures start { StartsThereOrNext input.old input.new }
    ensures refused { IfErr result (λ error. error ≡ MatchError.Memory) }
{
    caps.set_pattern(None);
    let found = next_slots(vm, cache, input, caps.slots_mut(), last_match_end)?;
    caps.set_pattern(found);
    Ok(())
}

/// Returns an iterator over the matches in an input. An empty match at the end of the previous one
/// is skipped. Requires a cache for this engine, which is usable again once the iterator is
/// dropped.
pub fn find_iter<'r, 'c, C: Cursor>(
    vm: &'r PikeVM,
    cache: &'c mut Cache,
    input: Input<C>,
) -> FindMatches<'r, 'c, C>
    requires made { IsCacheOf vm.now.program cache.old }
    ensures left { left_of result ≡ matches_from (search_by vm.now input) }
    ensures engine { engine_of result ≡ vm.now }
    ensures same_cache { (cache_of result).ghost_name ≡ cache.entry.ghost_name }
{
    FindMatches::new(vm, cache, input)
}
