//! The states of an automaton that searches have reached, and the table of the steps between them.

ghost use Rattle.std.specs.Prelude.{◌≡◌, ◌⊎◌, ◌+◌, ◌*◌, ◌<◌, ◌≤◌, ◌++◌, ◌∷◌, [], ℕ, true, false};
ghost use Rattle.std.specs.Prelude.{None, Some, length, replicate, set, slice_get, All};
ghost use Rattle.std.specs.Prelude.{IfSome, IfOk, IfErr, OnOk, OnErr};
ghost use Rattle.rx_util.specs.declared.search.MatchError.{MatchError};
ghost use Rattle.rx_dfa.specs.declared.states.AutomatonState.{AutomatonState};
ghost use Rattle.rx_dfa.specs.Alphabets.{column_count};
ghost use Rattle.rx_dfa.specs.Automata.{directed, directed_by};
ghost use Rattle.rx_dfa.specs.Caches.{GivesUpLate, HasFirst, HasNoRoom, IsBare, IsCacheOf};
ghost use Rattle.rx_dfa.specs.Caches.{IsEntryTo, IsNewState, IsSameState, KeepNumbers};
ghost use Rattle.rx_dfa.specs.Caches.{counted, size_of, size_of_parts, used_with};
ghost use Rattle.rx_dfa.specs.DenseTables.{HasOneFirst};
ghost use Rattle.rx_dfa.specs.Directions.{backward, forward};
ghost use Rattle.rx_dfa.specs.States.{IsFirstState, IsStateOf, IsStep};
ghost use Rattle.rx_dfa.specs.Tables.{HasStepped, HoldsBy, IsCacheBy};

use crate::alphabet::Alphabet;
use crate::automaton::{Automaton, Way};
use crate::behind::Behind;
use crate::maker::Maker;
use crate::states::{Ahead, AutomatonState, Starting};
use crate::table::Table;
use rx_program::{Program, ReverseProgram};
use rx_steps::Node;
use rx_util::MatchError;
use std::alloc::{AllocError, Global};
use std::collections::HashMap;
use std::marker::Model;
use std::mem::size_of;

/// Entries from here on lead to states after a match end.
pub(crate) const ENDS: u32 = 0x8000_0000;
/// Entries from here on lead to dead states, or are one of the next two.
pub(crate) const STOPS: u32 = 0xC000_0000;
/// The entry of a step before which a search must quit.
pub(crate) const QUIT: u32 = 0xFFFF_FFFE;
/// The entry of a step that isn't known.
pub(crate) const UNKNOWN: u32 = 0xFFFF_FFFF;

/// How often a search clears the cache before it gives up.
pub(crate) const CLEARS: usize = 3;

/// How many bytes searches must read for each clear of the cache, if it was cleared that often: to
/// compute as many states as have room takes about as long as to follow threads through these.
const BYTES_A_CLEAR: usize = 50_000;

/// The bytes of a node of a state.
pub(crate) const NODE_BYTES: usize = size_of::<Node>();
/// The bytes of an entry of a row.
pub(crate) const ENTRY_BYTES: usize = size_of::<u32>();
/// The bytes of a state without its nodes and its row.
pub(crate) const STATE_BYTES: usize = size_of::<AutomatonState>();

/// What searches with an automaton keep between searches. Contracts see the number of nodes of each
/// state of its program, the length of a row, the rows, the state of each row, the approximate
/// number of bytes of all states, and how often the last search cleared them.
#[derive(Debug)]
pub struct Cache {
    pub(crate) maker: Maker,
    pub(crate) width: usize,
    // A row for each state, with an entry for each column.
    pub(crate) table: Vec<u32>,
    pub(crate) states: Vec<AutomatonState>,
    // The number of a state by its hash; the last one if several have the same hash.
    pub(crate) numbers: HashMap<u64, usize>,
    // The approximate number of bytes of the states.
    pub(crate) used: usize,
    // How often this search cleared the cache, and all searches together.
    pub(crate) cleared: usize,
    pub(crate) clear_count: usize,
    // The numbers of start states, by how threads start and what precedes.
    pub(crate) firsts: [usize; 15],
}

// Written out, so that crates above needn't prove how the fields are dropped.
impl Drop for Cache {
    fn drop(self) {
        let Cache {
            maker: _maker,
            width: _width,
            table: _table,
            states: _states,
            numbers: _numbers,
            used: _used,
            cleared: _cleared,
            clear_count: _clear_count,
            firsts: _firsts,
        } = self;
    }
}

impl Model for Cache {
    ghost use Rattle.rx_dfa.specs.Caches.{AreNumbered, CacheView};

    ghost Value = { CacheView };

    ghost view = { λ c. record {
      widths = c.maker.stepper.widths;
      width = c.width;
      table = c.table.items;
      states = c.states.items;
      used = c.used;
      cleared = c.cleared;
    } };

    ghost invariant = { λ c. AreNumbered c.states.items c.numbers };
}

/// Returns the index in `firsts` of a start state's number.
fn kept_at(starting: &Starting, behind: &Behind) -> usize {
    let side = behind.number();
    match starting {
        Starting::Never => side,
        Starting::Once(_) => side + 5,
        Starting::Always(_) => side + 10,
    }
}

/// Returns the approximate number of bytes of a state with this many nodes and entries.
fn size_of_parts(nodes: usize, entries: usize) -> usize
    ensures { result ≡ counted (size_of_parts nodes entries) }
{
    let row = entries.saturating_mul(ENTRY_BYTES);
    nodes
        .saturating_mul(NODE_BYTES)
        .saturating_add(row)
        .saturating_add(2 * STATE_BYTES)
}

/// Adds a row of unknown entries.
fn push_row(table: &mut Vec<u32>, width: usize) -> Result<(), AllocError>
    ensures { OnOk result (table.new.items ≡ table.old.items ++ replicate width UNKNOWN) }
{
    for _ in 0..width {
        table.push(UNKNOWN)?;
    }
    Ok(())
}

impl Cache {
    /// Returns a cache for searches with an automaton.
    #[tactic(auto, using(crate::proofs::TableLaws::cache_begun))]
    pub(crate) fn of(alloc: Global, way: &Way, alphabet: &Alphabet) -> Result<Cache, MatchError>
        ensures made { IfOk result (λ cache. IsCacheOf (directed_by way.now) alphabet.now cache) }
        ensures refused { IfErr result (λ error. error ≡ MatchError.Memory) }
    {
        Ok(Cache {
            maker: Maker::new(alloc, way)?,
            width: alphabet.column_count(),
            table: Vec::new(alloc),
            states: Vec::new(alloc),
            numbers: HashMap::new(alloc),
            used: 0,
            cleared: 0,
            clear_count: 0,
            firsts: [0; 15],
        })
    }

    /// Returns a cache for forward searches with the automaton of a program.
    ///
    /// # Errors
    ///
    /// `Memory`.
    pub fn new(alloc: Global, program: &Program, alphabet: &Alphabet) -> Result<Cache, MatchError>
        ensures made { IfOk result (λ cache. IsCacheOf (forward program.now) alphabet.now cache) }
        ensures refused { IfErr result (λ error. error ≡ MatchError.Memory) }
    {
        Cache::of(alloc, &Way::Forward(program), alphabet)
    }

    /// Returns a cache for backward searches with the automaton of a reverse program.
    ///
    /// # Errors
    ///
    /// `Memory`.
    pub fn new_back(
        alloc: Global,
        reverse: &ReverseProgram,
        alphabet: &Alphabet,
    ) -> Result<Cache, MatchError>
        ensures made { IfOk result (λ cache. IsCacheOf (backward reverse.now) alphabet.now cache) }
        ensures refused { IfErr result (λ error. error ≡ MatchError.Memory) }
    {
        Cache::of(alloc, &Way::Back(reverse), alphabet)
    }

    /// Makes the cache an empty one for searches with this automaton.
    ///
    /// # Errors
    ///
    /// `Memory`; the cache is unchanged then.
    #[tactic(auto, using(crate::proofs::TableLaws::cache_begun))]
    pub fn reset(&mut self, program: &Program, alphabet: &Alphabet) -> Result<(), MatchError>
        ensures made { OnOk result (IsCacheOf (forward program.now) alphabet.now self.new) }
        ensures kept { OnErr result (self.new ≡ self.old) }
        ensures refused { IfErr result (λ error. error ≡ MatchError.Memory) }
    {
        self.maker = Maker::new(self.maker.allocator(), &Way::Forward(program))?;
        self.width = alphabet.column_count();
        self.clear();
        self.clear_count = 0;
        Ok(())
    }

    /// Returns the approximate number of bytes of the states: their nodes, their rows of the table,
    /// and other data of each.
    pub fn memory_usage(&self) -> usize
        ensures { result ≡ self.now.used }
    {
        self.used
    }

    /// Returns how often searches cleared the cache since it was made or reset. No contract fixes
    /// this number.
    pub fn clear_count(&self) -> usize {
        self.clear_count
    }

    /// Returns whether it pays to compute states, given how many bytes searches read since the
    /// cache was made or reset: it was seldom cleared, and otherwise these searches would be faster
    /// if they followed threads. No contract fixes this.
    pub fn pays(&self, read: usize) -> bool {
        let clears = self.clear_count;
        clears < CLEARS || read >= clears.saturating_mul(BYTES_A_CLEAR)
    }

    /// Removes all states.
    fn clear(&mut self)
        ensures widths { self.new.widths ≡ self.old.widths }
        ensures width { self.new.width ≡ self.old.width }
        ensures table { self.new.table ≡ [] }
        ensures states { self.new.states ≡ [] }
        ensures used { self.new.used ≡ 0 }
        ensures cleared { self.new.cleared ≡ self.old.cleared }
    {
        self.table.clear();
        self.states.clear();
        self.numbers.clear();
        self.used = 0;
    }

    /// Removes all states to make room for another one, and counts that.
    fn clear_for_room(&mut self, _automaton: &Automaton, _state: &AutomatonState)
        requires few { self.old.cleared < CLEARS }
        requires full { HasNoRoom _automaton.now.alphabet.now.capacity self.old _state.now }
        ensures widths { self.new.widths ≡ self.old.widths }
        ensures width { self.new.width ≡ self.old.width }
        ensures table { self.new.table ≡ [] }
        ensures states { self.new.states ≡ [] }
        ensures used { self.new.used ≡ 0 }
        ensures cleared { self.new.cleared ≡ self.old.cleared + 1 }
    {
        self.cleared += 1;
        self.clear_count = self.clear_count.saturating_add(1);
        self.clear();
    }

    /// Resets the count of clears for a new search.
    fn begin(&mut self)
        ensures { self.new ≡ record self.old { cleared = 0 } }
    {
        self.cleared = 0;
    }

    /// Returns whether the state with a number equals this one.
    fn is_at(&self, number: usize, state: &AutomatonState) -> bool
        requires states { All IsBare self.now.states }
        requires state { IsBare state.now }
        ensures same { result ≡ true → (x : AutomatonState)
            × (slice_get self.now.states number ≡ Some x) × IsSameState state.now x }
        ensures differs { result ≡ false → (x : AutomatonState)
            → slice_get self.now.states number ≡ Some x → IsSameState state.now x → ⊥ }
    {
        match self.states.get(number) {
            Some(known) => known.is_same(state),
            None => false,
        }
    }

    /// Returns the number of a state that equals this one, by comparing all.
    fn find_among_all(&self, state: &AutomatonState) -> Option<usize>
        requires states { All IsBare self.now.states }
        requires state { IsBare state.now }
        ensures some { IfSome result (λ number. (x : AutomatonState)
            × (slice_get self.now.states number ≡ Some x) × IsSameState state.now x) }
        ensures none { result ≡ None → IsNewState self.now.states state.now }
    {
        for number in 0..self.states.len() {
            if self.is_at(number, state) {
                return Some(number);
            }
        }
        None
    }

    /// Returns the number of a state that equals this one. It is found by its hash; if another
    /// state has the same hash, by comparing all.
    pub(crate) fn find(&self, state: &AutomatonState) -> Option<usize>
        requires states { All IsBare self.now.states }
        requires state { IsBare state.now }
        ensures some { IfSome result (λ number. (x : AutomatonState)
            × (slice_get self.now.states number ≡ Some x) × IsSameState state.now x) }
        ensures none { result ≡ None → IsNewState self.now.states state.now }
    {
        let number = *self.numbers.get(&state.hash())?;
        if self.is_at(number, state) {
            return Some(number);
        }
        self.find_among_all(state)
    }

    /// Returns the approximate number of bytes of a state.
    fn size_of(&self, state: &AutomatonState) -> usize
        ensures { result ≡ counted (size_of self.now.width state.now) }
    {
        size_of_parts(state.threads.len(), self.width)
    }

    /// Returns the approximate number of bytes of all states and a further one.
    fn used_with(&self, state: &AutomatonState) -> usize
        ensures { result ≡ used_with self.now state.now }
    {
        self.used.saturating_add(self.size_of(state))
    }

    /// Adds a state with a row of unknown entries. After an error any part of both may be added.
    fn push_state(&mut self, state: AutomatonState) -> Result<(), AllocError>
        ensures table { OnOk result
            (self.new.table ≡ self.old.table ++ replicate self.old.width UNKNOWN) }
        ensures states { OnOk result (self.new.states ≡ self.old.states ++ state ∷ []) }
        ensures widths { self.new.widths ≡ self.old.widths }
        ensures width { self.new.width ≡ self.old.width }
        ensures cleared { self.new.cleared ≡ self.old.cleared }
    {
        push_row(&mut self.table, self.width)?;
        if self
            .numbers
            .insert(state.hash(), self.states.len())
            .is_err()
        {
            return Err(AllocError);
        }
        self.states.push(state)?;
        Ok(())
    }

    /// Adds a state that isn't there, and returns its number. After an error there is no state.
    pub(crate) fn add(
        &mut self,
        automaton: &Automaton,
        state: AutomatonState,
    ) -> Result<usize, MatchError>
        requires made { HoldsBy automaton.now self.old }
        requires state { IsStateOf (directed automaton.now) state }
        requires is_new { IsNewState self.old.states state }
        ensures made { HoldsBy automaton.now self.new }
        ensures number { IfOk result (λ number.
            slice_get self.new.states number ≡ Some state) }
        ensures kept { OnOk result (KeepNumbers self.old.states self.new.states) }
        ensures table { OnOk result
            (self.new.table ≡ self.old.table ++ replicate self.old.width UNKNOWN) }
        ensures states { OnOk result (self.new.states ≡ self.old.states ++ state ∷ []) }
        ensures last { IfOk result (λ number. number ≡ length self.old.states) }
        ensures used { OnOk result (self.new.used ≡ used_with self.old state) }
        ensures emptied { OnErr result (self.new.states ≡ []) }
        ensures cleared { self.new.cleared ≡ self.old.cleared }
        ensures refused { IfErr result (λ error. error ≡ MatchError.Memory) }
    {
        let number = self.states.len();
        let used = self.used_with(&state);
        match self.push_state(state) {
            Ok(()) => {
                self.used = used;
                Ok(number)
            }
            Err(_) => {
                self.clear();
                Err(MatchError::Memory)
            }
        }
    }

    /// Returns whether a further state fits. There is always room for two.
    fn has_room(&self, automaton: &Automaton, state: &AutomatonState) -> bool
        ensures room { result ≡ true → (length self.now.states < 2)
            ⊎ (used_with self.now state.now ≤ automaton.now.alphabet.now.capacity) }
        ensures full { result ≡ false
            → HasNoRoom automaton.now.alphabet.now.capacity self.now state.now }
    {
        self.states.len() < 2 || self.used_with(state) <= automaton.alphabet.capacity()
    }

    /// Returns the number of a state, which is added if it isn't there, and whether the cache was
    /// cleared for it. Gives up if this search has cleared the cache too often.
    #[tactic(auto, using(crate::proofs::StateLaws::new_in_none, crate::proofs::TableLaws::none_bounded, crate::proofs::TableLaws::more_bounded, crate::proofs::TableLaws::one_bounded, crate::proofs::TableLaws::cache_empty))]
    pub(crate) fn number_of(
        &mut self,
        automaton: &Automaton,
        state: AutomatonState,
        at: usize,
    ) -> Result<(usize, bool), MatchError>
        requires made { IsCacheBy automaton.now self.old }
        requires state { IsStateOf (directed automaton.now) state }
        ensures made { IsCacheBy automaton.now self.new }
        ensures number { IfOk result (λ told. (x : AutomatonState)
            × (slice_get self.new.states told.0 ≡ Some x) × IsSameState state x) }
        ensures kept { IfOk result (λ told. told.1 ≡ false
            → KeepNumbers self.old.states self.new.states) }
        ensures cleared { self.new.cleared ≤ self.old.cleared + 1 }
        ensures refused { IfErr result (λ error.
            (error ≡ MatchError.Memory) ⊎ (error ≡ MatchError.GaveUp at)) }
        ensures late { IfErr result (GivesUpLate self.new) }
    {
        if let Some(number) = self.find(&state) {
            return Ok((number, false));
        }
        if self.has_room(automaton, &state) {
            let number = self.add(automaton, state)?;
            return Ok((number, false));
        }
        if self.cleared >= CLEARS {
            return Err(MatchError::GaveUp { offset: at });
        }
        self.clear_for_room(automaton, &state);
        let number = self.add(automaton, state)?;
        Ok((number, true))
    }
}

impl Cache {
    /// Returns the number in `firsts`, if it is that of this start state.
    pub(crate) fn kept_first(&self, starting: &Starting, behind: &Behind) -> Option<usize>
        ensures { IfSome result
            (HasFirst self.now.states starting.now behind.now) }
    {
        let number = *self.firsts.get(kept_at(starting, behind))?;
        let state = self.states.get(number)?;
        if state.is_first(starting, behind) {
            Some(number)
        } else {
            None
        }
    }

    /// Returns whether the state with a number is this start state.
    fn is_first_at(&self, number: usize, starting: &Starting, behind: &Behind) -> bool
        requires { number < length self.now.states }
        ensures yes { result ≡ true → (x : AutomatonState)
            → slice_get self.now.states number ≡ Some x
            → IsFirstState starting.now behind.now x }
        ensures no { result ≡ false → (x : AutomatonState)
            → slice_get self.now.states number ≡ Some x
            → IsFirstState starting.now behind.now x → ⊥ }
    {
        self.states[number].is_first(starting, behind)
    }

    /// Returns the number of a start state, by comparing all states.
    pub(crate) fn find_first(&self, starting: &Starting, behind: &Behind) -> Option<usize>
        ensures some { IfSome result
            (HasFirst self.now.states starting.now behind.now) }
        ensures none { result ≡ None
            → HasOneFirst self.now.states starting.now behind.now → ⊥ }
    {
        for number in 0..self.states.len() {
            if self.is_first_at(number, starting, behind) {
                return Some(number);
            }
        }
        None
    }

    /// Notes the number of a start state in `firsts`.
    pub(crate) fn keep_first(&mut self, starting: &Starting, behind: &Behind, number: usize)
        ensures { self.new ≡ self.old }
    {
        if let Some(kept) = self.firsts.get_mut(kept_at(starting, behind)) {
            *kept = number;
        }
    }
}

impl Cache {
    /// Returns the entry of a state in a column.
    pub(crate) fn entry(&self, number: usize, column: usize) -> u32
        requires rows { length self.now.table ≡ length self.now.states * self.now.width }
        requires number { number < length self.now.states }
        requires column { column < self.now.width }
        ensures { slice_get self.now.table (number * self.now.width + column) ≡ Some result }
    {
        self.table[number * self.width + column]
    }

    /// Sets the entry of a state in a column.
    pub(crate) fn set_entry(&mut self, number: usize, column: usize, entry: u32)
        requires rows { length self.old.table ≡ length self.old.states * self.old.width }
        requires number { number < length self.old.states }
        requires column { column < self.old.width }
        ensures table { self.new.table
            ≡ set self.old.table (number * self.old.width + column) entry }
        ensures states { self.new.states ≡ self.old.states }
        ensures widths { self.new.widths ≡ self.old.widths }
        ensures width { self.new.width ≡ self.old.width }
        ensures used { self.new.used ≡ self.old.used }
        ensures cleared { self.new.cleared ≡ self.old.cleared }
    {
        self.table[number * self.width + column] = entry;
    }

    /// Returns the entry that leads to a state, or `UNKNOWN` if the offset of its row is too large
    /// for an entry.
    pub(crate) fn entry_to(&self, next: usize) -> u32
        requires rows { length self.now.table ≡ length self.now.states * self.now.width }
        requires next { next < length self.now.states }
        ensures { (y : AutomatonState) → slice_get self.now.states next ≡ Some y
            → IsEntryTo self.now.width y next result }
    {
        let state = &self.states[next];
        let row = next * self.width;
        if row >= (QUIT - STOPS) as usize {
            return UNKNOWN;
        }
        if state.is_over() {
            STOPS + row as u32
        } else if state.ended.is_some() {
            ENDS + row as u32
        } else {
            row as u32
        }
    }

    /// Returns the number of the state to whose row an entry leads.
    pub(crate) fn number_at(&self, entry: u32) -> usize
        requires { 0 < self.now.width }
        ensures plain { (number : ℕ) → entry ≡ number * self.now.width → entry < ENDS
            → result ≡ number }
        ensures ends { (number : ℕ) → entry ≡ ENDS + number * self.now.width
            → entry < STOPS → result ≡ number }
        ensures over { (number : ℕ) → entry ≡ STOPS + number * self.now.width
            → result ≡ number }
    {
        let row = if entry >= STOPS {
            entry - STOPS
        } else if entry >= ENDS {
            entry - ENDS
        } else {
            entry
        };
        row as usize / self.width
    }

    /// Computes the state to which the one with a number leads.
    ///
    /// # Errors
    ///
    /// `Memory`.
    pub(crate) fn next_state(
        &mut self,
        automaton: &Automaton,
        number: usize,
        ahead: &Ahead,
    ) -> Result<AutomatonState, MatchError>
        requires made { HoldsBy automaton.now self.old }
        requires number { number < length self.old.states }
        ensures step { IfOk result (λ next. (x : AutomatonState)
            → slice_get self.old.states number ≡ Some x
            → IsStep (directed automaton.now) automaton.now.alphabet.now.asked x ahead.now next) }
        ensures state { IfOk result (λ next. IsStateOf (directed automaton.now) next) }
        ensures made { HoldsBy automaton.now self.new }
        ensures states { self.new.states ≡ self.old.states }
        ensures table { self.new.table ≡ self.old.table }
        ensures used { self.new.used ≡ self.old.used }
        ensures cleared { self.new.cleared ≡ self.old.cleared }
        ensures refused { IfErr result (λ error. error ≡ MatchError.Memory) }
    {
        let state = &self.states[number];
        self.maker.next_state(automaton, state, ahead)
    }

    /// Computes the step from a state in a column and enters it in the table. Returns the number of
    /// the next state, or `None` if a search must quit.
    fn make_step(
        &mut self,
        automaton: &Automaton,
        number: usize,
        column: usize,
        at: usize,
    ) -> Result<Option<usize>, MatchError>
        requires made { IsCacheBy automaton.now self.old }
        requires number { number < length self.old.states }
        requires column { column < self.old.width }
        ensures made { IsCacheBy automaton.now self.new }
        ensures step { IfOk result (λ next. (x : AutomatonState)
            → slice_get self.old.states number ≡ Some x
            → HasStepped automaton.now self.new.states x column next) }
        ensures refused { IfErr result (λ error.
            (error ≡ MatchError.Memory) ⊎ (error ≡ MatchError.GaveUp at)) }
        ensures late { IfErr result (GivesUpLate self.new) }
    {
        let ahead = automaton.alphabet.ahead(column);
        if automaton.alphabet.quits_at(ahead.seen) {
            self.set_entry(number, column, QUIT);
            return Ok(None);
        }
        let state = self.next_state(automaton, number, &ahead)?;
        let (next, was_cleared) = self.number_of(automaton, state, at)?;
        if !was_cleared {
            let entry = self.entry_to(next);
            self.set_entry(number, column, entry);
        }
        Ok(Some(next))
    }
}

impl Table for Cache {
    ghost is_whole = { false };

    ghost shown = { λ cache. cache };

    fn known(&self) -> &Cache {
        self
    }

    #[inline(always)]
    fn step(
        &mut self,
        automaton: &Automaton,
        number: usize,
        column: usize,
        at: usize,
    ) -> Result<Option<usize>, MatchError> {
        let entry = self.entry(number, column);
        if entry == UNKNOWN {
            return self.make_step(automaton, number, column, at);
        }
        if entry == QUIT {
            return Ok(None);
        }
        Ok(Some(self.number_at(entry)))
    }

    #[inline(always)]
    fn first(
        &mut self,
        automaton: &Automaton,
        starting: Starting,
        side: Behind,
        at: usize,
    ) -> Result<usize, MatchError> {
        self.begin();
        if let Some(number) = self.kept_first(&starting, &side) {
            return Ok(number);
        }
        let state = AutomatonState::first(automaton.way.allocator(), starting, side);
        let number = match self.number_of(automaton, state, at) {
            Ok((number, _)) => number,
            Err(error) => return Err(error),
        };
        self.keep_first(&starting, &side, number);
        Ok(number)
    }
}
