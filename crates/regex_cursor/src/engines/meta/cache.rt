//! What a search keeps for the next one.

ghost use Rattle.std.specs.Prelude.{◌≡◌, ◌≤◌, IfErr, IfOk, IfSome, OnErr, OnOk, Some, length};
ghost use Rattle.rx_util.specs.declared.search.Anchored.TheVariants.{No};
ghost use Rattle.rx_util.specs.declared.search.MatchError.{MatchError};
ghost use Rattle.rx_input.specs.Cursors.{IsSameContent};
ghost use Rattle.rx_program.specs.Programs.{character_program};
ghost use Rattle.rx_literals.specs.Endings.{EndsWithSlice};
ghost use Rattle.rx_steps.specs.Caches as steps;
ghost use Rattle.rx_steps.specs.Searching.{IsAnswer};
ghost use Rattle.rx_dfa.specs.Searching.{IsHalfAnswer};
ghost use Rattle.regex_cursor.specs.Backs.{EndsLast, IsWhole};
ghost use Rattle.regex_cursor.specs.Regexes.{IsCacheOf, search_by};
ghost use Rattle.regex_cursor.specs.Configs.{capacity_of};
ghost use Rattle.regex_cursor.specs.Cores.{AreCachesOf};
ghost use Rattle.regex_cursor.specs.Strategies.{IsLeft};

use super::back::Back;
use super::left::Left;
use super::regex::Regex;
use super::shared::Core;
use rx_chunk::pikevm::{self, PikeVM};
use rx_dfa::try_search_fwd;
use rx_input::{Cursor, Input};
use rx_util::{HalfMatch, Match, MatchError, NonMaxUsize, PatternID};
use std::alloc::{AllocError, Global};
use std::marker::Model;
use std::rc::Rc;

/// How often the automaton's states may be cleared for lack of room, however little searches
/// advance.
const CLEARS: usize = 3;

/// How many bytes searches must have advanced for each clearing, if there were more: about ten for
/// each state that there is room for, because making one takes as long as the PikeVM takes for some
/// bytes.
const BYTES_A_CLEAR: usize = 50_000;

/// How many bytes, for each state of the program, forward searches may read to find the starts of
/// matches whose ends are known, before the program is reversed: that takes about as long.
const BYTES_A_STATE: usize = 35;

/// The PikeVM takes as long for a byte as those searches for this number of bytes.
const BYTES_A_WALKED: usize = 4;

/// The greatest number of failed tries in a row. A try checks whether a match begins at the first
/// offset at which one can begin.
const TRIES: usize = 32;

/// The number of failed tries that each successful one makes up for: a failed one takes about half
/// as long as the backward search for a match's start that a successful one saves.
const TRIES_A_MATCH: usize = 2;

/// A failed try counts once more for each time that it read this number of bytes, so that long ones
/// soon end.
const BYTES_A_TRY: usize = 16;

/// The number of searches by the automaton without a try after which there is one again.
const UNTRIED: usize = 64;

/// What a search with a regex keeps for the next one, so that memory is allocated once. It remains
/// usable for the regex that it was created or reset for, also after a search that failed.
/// Contracts see the program of that regex, whether it skips empty matches inside a character, and
/// how many bytes the automaton's states may take.
#[derive(Debug)]
pub struct Cache {
    // In a box, so that caches and their owners are small and cheap to move.
    pub(super) kept: Box<Kept>,
    // For searches by a single thread, once there was one.
    one_pass: Option<Box<rx_onepass::Cache>>,
}

// Written out, so that crates above needn't prove how the fields are dropped.
impl Drop for Cache {
    fn drop(self) {
        let Cache {
            kept: _kept,
            one_pass: _one_pass,
        } = self;
    }
}

/// What a cache keeps for each engine.
#[derive(Debug, Drop)]
pub(super) struct Kept {
    // What it was made for.
    core: Rc<Core>,
    pub(super) vm: pikevm::Cache,
    // The states of the core's automaton that searches reached.
    automaton: rx_dfa::Cache,
    // How many bytes the automaton advanced.
    passed: usize,
    // The reversed program, once that pays.
    back: Option<Back>,
    // How many bytes forward searches read to find the starts of matches whose ends were known.
    walked: usize,
    // How many offsets all searches read.
    read: usize,
    // The number of failed tries that are left.
    tries: usize,
    // The number of searches by the automaton since the last try.
    untried: usize,
}

impl Kept {
    /// Moves it into a box.
    fn boxed(self, alloc: Global) -> Result<Box<Kept>, AllocError>
        ensures { IfOk result (λ boxed. boxed.value ≡ self) }
    {
        Ok(Box::new(alloc, self)?)
    }

    /// Returns whether the automaton may be faster than the PikeVM: its states stay in the cache
    /// for long enough.
    pub(super) fn pays(&self) -> bool {
        let clears = self.automaton.clear_count();
        clears < CLEARS || self.passed >= clears.saturating_mul(BYTES_A_CLEAR)
    }

    /// Notes that the automaton advanced by this number of bytes.
    pub(super) fn pass(&mut self, bytes: usize)
        ensures core { self.new.core ≡ self.old.core }
        ensures vm { self.new.vm ≡ self.old.vm }
        ensures automaton { self.new.automaton ≡ self.old.automaton }
        ensures back { self.new.back ≡ self.old.back }
    {
        self.passed = self.passed.saturating_add(bytes);
        self.read = self.read.saturating_add(bytes);
        self.untried = self.untried.saturating_add(1);
    }

    /// Returns whether to try if a match begins at the first offset at which one can begin: mostly
    /// one did, or the last try was long ago.
    pub(super) fn may_try(&self) -> bool {
        self.tries > 0 || self.untried >= UNTRIED
    }

    /// Notes that a try succeeded.
    pub(super) fn note_success(&mut self)
        ensures core { self.new.core ≡ self.old.core }
        ensures vm { self.new.vm ≡ self.old.vm }
        ensures automaton { self.new.automaton ≡ self.old.automaton }
        ensures back { self.new.back ≡ self.old.back }
    {
        self.untried = 0;
        self.tries = self.tries.saturating_add(TRIES_A_MATCH).min(TRIES);
    }

    /// Notes that a try failed, and the number of bytes that it read.
    pub(super) fn note_failure(&mut self, bytes: usize)
        ensures core { self.new.core ≡ self.old.core }
        ensures vm { self.new.vm ≡ self.old.vm }
        ensures automaton { self.new.automaton ≡ self.old.automaton }
        ensures back { self.new.back ≡ self.old.back }
    {
        self.untried = 0;
        let cost = (bytes / BYTES_A_TRY).saturating_add(1);
        self.tries = self.tries.saturating_sub(cost);
    }

    /// Notes that a search read this number of offsets.
    pub(super) fn note_read(&mut self, places: usize)
        ensures core { self.new.core ≡ self.old.core }
        ensures vm { self.new.vm ≡ self.old.vm }
        ensures automaton { self.new.automaton ≡ self.old.automaton }
        ensures back { self.new.back ≡ self.old.back }
    {
        self.read = self.read.saturating_add(places);
    }

    /// Notes that the PikeVM read an input from its span's start to its position.
    pub(super) fn note_walk<C: Cursor>(&mut self, input: &Input<C>)
        ensures core { self.new.core ≡ self.old.core }
        ensures vm { self.new.vm ≡ self.old.vm }
        ensures automaton { self.new.automaton ≡ self.old.automaton }
        ensures back { self.new.back ≡ self.old.back }
    {
        self.note_read(input.position().saturating_sub(input.start()));
    }

    /// Returns whether a match's start may be searched for forward, from one offset after the
    /// other: the program isn't reversed, and reversing it wouldn't pay yet.
    pub(super) fn may_step(&self) -> bool {
        self.back.is_none() && !self.pays_to_turn()
    }

    /// Returns whether forward searches for starts took about as long as reversing the program.
    fn pays_to_turn(&self) -> bool {
        self.walked >= self.bytes_before_turning()
    }

    /// Returns how many bytes forward searches for starts read before the program is reversed.
    fn bytes_before_turning(&self) -> usize {
        self.core.states().saturating_mul(BYTES_A_STATE)
    }

    /// Returns how many bytes forward searches for starts may have read once they have read this
    /// number more; fewer if the program is reversed before that.
    pub(super) fn step_limit(&self, bytes: usize) -> usize {
        let limit = self.walked.saturating_add(bytes);
        limit.min(self.bytes_before_turning())
    }

    /// Returns whether a match's start may be searched for forward: the program isn't reversed, and
    /// the limit isn't reached.
    pub(super) fn may_step_below(&self, limit: usize) -> bool {
        self.back.is_none() && self.walked < limit
    }

    /// Notes that a match's start was tried at the start of an input's span, by reading from there
    /// to the position.
    pub(super) fn note_step<C: Cursor>(&mut self, input: &Input<C>)
        ensures core { self.new.core ≡ self.old.core }
        ensures vm { self.new.vm ≡ self.old.vm }
        ensures automaton { self.new.automaton ≡ self.old.automaton }
        ensures back { self.new.back ≡ self.old.back }
    {
        let bytes = input.position().saturating_sub(input.start()).max(1);
        self.walked = self.walked.saturating_add(bytes);
    }

    /// Returns how many offsets searches read.
    fn places_read(&self) -> usize {
        self.read
    }

    /// Returns the pattern and the end of the match, by the automaton whose states are made as
    /// searches reach them.
    pub(super) fn search_half<C: Cursor>(
        &mut self,
        input: &mut Input<C>,
    ) -> Result<Option<HalfMatch>, MatchError>
        requires serve { AreCachesOf self.old.core.value self.old.vm self.old.automaton
            self.old.back }
        ensures answer { IfOk result (IsHalfAnswer self.old.core.value.vm.program
            (search_by self.old.core.value.vm input.old)) }
        ensures serve { AreCachesOf self.new.core.value self.new.vm self.new.automaton
            self.new.back }
        ensures core { self.new.core ≡ self.old.core }
        ensures asked { input.new.asked ≡ input.old.asked }
        ensures same { IsSameContent input.old.cursor input.new.cursor }
    {
        let core = &self.core;
        try_search_fwd(core.program(), core.dfa(), &mut self.automaton, input)
    }

    /// Reverses the program once that pays, if a match's start is to be found in this number of
    /// bytes more. The only error is `Memory`.
    fn turn(&mut self, bytes: usize) -> Result<(), MatchError>
        requires serve { AreCachesOf self.old.core.value self.old.vm self.old.automaton
            self.old.back }
        ensures serve { AreCachesOf self.new.core.value self.new.vm self.new.automaton
            self.new.back }
        ensures core { self.new.core ≡ self.old.core }
        ensures refused { IfErr result (λ error. error ≡ MatchError.Memory) }
    {
        if self.back.is_some() {
            return Ok(());
        }
        self.walked = self.walked.saturating_add(bytes);
        if !self.pays_to_turn() {
            return Ok(());
        }
        self.turn_now()
    }

    // Separate, because a function pays for the room of what it makes at each call.
    fn turn_now(&mut self) -> Result<(), MatchError>
        requires serve { AreCachesOf self.old.core.value self.old.vm self.old.automaton
            self.old.back }
        ensures serve { AreCachesOf self.new.core.value self.new.vm self.new.automaton
            self.new.back }
        ensures core { self.new.core ≡ self.old.core }
        ensures refused { IfErr result (λ error. error ≡ MatchError.Memory) }
    {
        let back = Back::of(self.core.vm(), self.core.config())?;
        self.back = Some(back);
        Ok(())
    }

    /// Returns the match found in an input that isn't anchored, given that it ends where the span
    /// does, and its pattern, by a backward search from there; `None` if that doesn't pay. If
    /// `hybrid` is off, no automaton is used. The only error is `Memory`.
    pub(super) fn whole_match<C: Cursor>(
        &mut self,
        input: &mut Input<C>,
        pattern: PatternID,
        hybrid: bool,
    ) -> Result<Option<Match>, MatchError>
        requires serve { AreCachesOf self.old.core.value self.old.vm self.old.automaton
            self.old.back }
        requires ordered { input.old.asked.span.start ≤ input.old.asked.span.end }
        requires unanchored { input.old.asked.anchored ≡ No }
        ensures whole { IfOk result (λ found. EndsLast self.old.core.value.vm.program
            self.old.core.value.vm.utf8_empty input.old pattern
            → IfSome found (λ m. IsWhole self.old.core.value.vm.program
            self.old.core.value.vm.utf8_empty input.old m)) }
        ensures pattern { IfOk result (λ found. IfSome found (λ m. m.pattern ≡ pattern)) }
        ensures serve { AreCachesOf self.new.core.value self.new.vm self.new.automaton
            self.new.back }
        ensures core { self.new.core ≡ self.old.core }
        ensures asked { input.new.asked ≡ input.old.asked }
        ensures same { IsSameContent input.old.cursor input.new.cursor }
        ensures refused { IfErr result (λ error. error ≡ MatchError.Memory) }
    {
        let bytes = input.end() - input.start();
        // Until the program is reversed, the PikeVM reads them.
        self.turn(bytes.saturating_mul(BYTES_A_WALKED))?;
        let utf8_empty = self.core.vm().utf8_empty();
        match &mut self.back {
            Some(back) => {
                self.read = self.read.saturating_add(bytes);
                back.whole_match(input, utf8_empty, pattern, hybrid)
            }
            None => Ok(None),
        }
    }
}

impl Kept {
    /// Returns what is left of a search in an input that isn't anchored, for a program whose
    /// matches all end where the slice does, by the reverse automaton from there. Returns `None` if
    /// the span continues after that, or if it doesn't pay yet. The only error is `Memory`.
    pub(super) fn search_last<C: Cursor>(
        &mut self,
        input: &mut Input<C>,
    ) -> Result<Option<Left>, MatchError>
        requires serve { AreCachesOf self.old.core.value self.old.vm self.old.automaton
            self.old.back }
        requires ordered { input.old.asked.span.start ≤ input.old.asked.span.end }
        requires unanchored { input.old.asked.anchored ≡ No }
        ensures left { IfOk result (λ told.
            EndsWithSlice (character_program self.old.core.value.vm.program)
            → IfSome told (IsLeft self.old.core.value.vm.program
            (search_by self.old.core.value.vm input.old))) }
        ensures serve { AreCachesOf self.new.core.value self.new.vm self.new.automaton
            self.new.back }
        ensures core { self.new.core ≡ self.old.core }
        ensures asked { input.new.asked ≡ input.old.asked }
        ensures same { IsSameContent input.old.cursor input.new.cursor }
        ensures refused { IfErr result (λ error. error ≡ MatchError.Memory) }
    {
        let bytes = input.end() - input.start();
        self.turn(bytes)?;
        let utf8_empty = self.core.vm().utf8_empty();
        match &mut self.back {
            Some(back) => {
                self.read = self.read.saturating_add(bytes);
                back.search_last(input, utf8_empty)
            }
            None => Ok(None),
        }
    }
}

/// Puts a cache for searches by a single thread into a box.
fn boxed(alloc: Global, cache: rx_onepass::Cache) -> Result<Box<rx_onepass::Cache>, AllocError>
    ensures { IfOk result (λ boxed. boxed.value ≡ cache) }
{
    Ok(Box::new(alloc, cache)?)
}

impl Model for Cache {
    ghost use Rattle.std.specs.Prelude.{IfSome};
    ghost use Rattle.rx_onepass.specs.Caches as onepass;
    ghost use Rattle.regex_cursor.specs.Regexes.{CacheView};
    ghost use Rattle.regex_cursor.specs.Configs.{capacity_of};
    ghost use Rattle.regex_cursor.specs.Cores.{AreCachesOf};

    ghost Value = { CacheView };

    ghost view = { λ c. record {
      program = c.kept.value.core.value.vm.program;
      utf8_empty = c.kept.value.core.value.vm.utf8_empty;
      capacity = capacity_of c.kept.value.core.value.settings;
    } };

    ghost invariant = { λ c. AreCachesOf c.kept.value.core.value c.kept.value.vm
        c.kept.value.automaton c.kept.value.back
        × IfSome c.one_pass
        (λ boxed. onepass.IsCacheOf c.kept.value.core.value.vm.program boxed.value) };
}

impl Cache {
    /// Returns a cache for searches with a regex.
    ///
    /// # Errors
    ///
    /// `Memory` only.
    ///
    /// # Complexity
    ///
    /// Memory proportional to the states of the pattern's program and of its sets' automata.
    pub fn new(alloc: Global, re: &Regex) -> Result<Cache, MatchError>
        ensures made { IfOk result (λ cache. IsCacheOf re.now cache) }
        ensures refused { IfErr result (λ error. error ≡ MatchError.Memory) }
    {
        Cache::over(alloc, re.strategy().core().clone()?)
    }

    /// Returns a cache for searches with a regex of this core.
    fn over(alloc: Global, core: Rc<Core>) -> Result<Cache, MatchError>
        ensures program { IfOk result (λ cache. cache.program ≡ core.value.vm.program) }
        ensures utf8_empty { IfOk result (λ cache. cache.utf8_empty ≡ core.value.vm.utf8_empty) }
        ensures capacity { IfOk result
            (λ cache. cache.capacity ≡ capacity_of core.value.settings) }
        ensures refused { IfErr result (λ error. error ≡ MatchError.Memory) }
    {
        let vm = pikevm::Cache::new(alloc, core.vm())?;
        Cache::with_vm(alloc, core, vm)
    }

    /// Returns the same, given the cache of the PikeVM.
    fn with_vm(alloc: Global, core: Rc<Core>, vm: pikevm::Cache) -> Result<Cache, MatchError>
        requires { steps.IsCacheOf core.value.vm.program vm }
        ensures program { IfOk result (λ cache. cache.program ≡ core.value.vm.program) }
        ensures utf8_empty { IfOk result (λ cache. cache.utf8_empty ≡ core.value.vm.utf8_empty) }
        ensures capacity { IfOk result
            (λ cache. cache.capacity ≡ capacity_of core.value.settings) }
        ensures refused { IfErr result (λ error. error ≡ MatchError.Memory) }
    {
        let automaton = rx_dfa::Cache::new(alloc, core.program(), core.dfa())?;
        let kept = Kept {
            core,
            vm,
            automaton,
            passed: 0,
            back: None,
            walked: 0,
            read: 0,
            tries: TRIES,
            untried: 0,
        };
        Ok(Cache {
            kept: kept.boxed(alloc)?,
            one_pass: None,
        })
    }

    /// Returns an empty cache for the same regex. The only error is `Memory`.
    pub fn clone(&self) -> Result<Cache, MatchError>
        ensures same { IfOk result (λ cache. cache ≡ self.now) }
        ensures refused { IfErr result (λ error. error ≡ MatchError.Memory) }
    {
        let core = self.kept.core.clone()?;
        Cache::over(core.program().allocator(), core)
    }

    /// Makes the cache one for searches with this regex. The only error is `Memory`, which leaves
    /// the cache as it was.
    pub fn reset(&mut self, re: &Regex) -> Result<(), MatchError>
        ensures made { OnOk result (IsCacheOf re.now self.new) }
        ensures kept { OnErr result (self.new ≡ self.old) }
        ensures refused { IfErr result (λ error. error ≡ MatchError.Memory) }
    {
        let alloc = self.kept.core.program().allocator();
        *self = Cache::new(alloc, re)?;
        Ok(())
    }

    /// Makes what searches by a single thread keep, if it isn't there.
    fn make_one_pass(&mut self) -> Result<(), MatchError>
        ensures { self.new ≡ self.old }
    {
        if self.one_pass.is_none() {
            let program = self.kept.core.program();
            let alloc = program.allocator();
            let made = rx_onepass::Cache::new(alloc, program)?;
            self.one_pass = Some(boxed(alloc, made)?);
        }
        Ok(())
    }

    /// Returns the pattern of the match found in an anchored input, with its offsets in slots, by a
    /// single thread. `None` says nothing; the slots are then unspecified.
    pub(super) fn search_alone<C: Cursor>(
        &mut self,
        vm: &PikeVM,
        input: &mut Input<C>,
        slots: &mut [Option<NonMaxUsize>],
    ) -> Option<PatternID>
        requires program { self.old.program ≡ vm.now.program }
        ensures answer { IfSome result (λ pattern. IsAnswer vm.now.program
            (search_by vm.now input.old) (Some pattern) slots.new) }
        ensures len { length slots.new ≡ length slots.old }
        ensures cache { self.new ≡ self.old }
        ensures asked { input.new.asked ≡ input.old.asked }
        ensures same { IsSameContent input.old.cursor input.new.cursor }
    {
        // Without memory, the PikeVM searches.
        self.make_one_pass().ok()?;
        let one_pass = self.one_pass.as_mut()?;
        let (program, utf8_empty) = (vm.program(), vm.utf8_empty());
        let found = rx_onepass::search_slots(program, one_pass, input, utf8_empty, slots);
        self.kept.note_walk(input);
        found
    }

    /// Returns how many offsets searches with it read.
    pub(super) fn places_read(&self) -> usize {
        self.kept.places_read()
    }

    /// Returns about how many bytes its lists take, without the reversed program. No contract
    /// specifies the number.
    pub fn memory_usage(&self) -> usize {
        let kept = &self.kept;
        let one_pass = match &self.one_pass {
            Some(one_pass) => one_pass.memory_usage(),
            None => 0,
        };
        kept.vm
            .memory_usage()
            .saturating_add(kept.automaton.memory_usage())
            .saturating_add(one_pass)
    }
}
