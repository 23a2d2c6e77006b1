//! Computes all states that searches can reach, and all steps between them.

ghost use Rattle.std.specs.Prelude.{◌≡◌, ◌+◌, ◌*◌, ◌<◌, ◌≤◌, ℕ, false, true, Some, length, max, slice_get, IfOk, OnOk};
ghost use Rattle.rx_dfa.specs.Automata.{IsAutomaton, directed};
ghost use Rattle.rx_dfa.specs.declared.states.AutomatonState.{AutomatonState};
ghost use Rattle.rx_dfa.specs.Alphabets.{ahead_in, column_count};
ghost use Rattle.rx_dfa.specs.Caches.{IsEntry, IsSameState, IsWithin, KeepNumbers};
ghost use Rattle.rx_dfa.specs.DenseTables.{AreKnown, Grows, HasAllStarts, HasOneFirst, HasStarts, HasStartsFrom, HaveRows, IsKnownAt};
ghost use Rattle.rx_dfa.specs.States.{IsStateOf};
ghost use Rattle.rx_dfa.specs.Tables.{HoldsBy};

use crate::automaton::{Automaton, Way};
use crate::behind::Behind;
use crate::cache::{Cache, QUIT, UNKNOWN};
use crate::states::{AutomatonState, Starting};
use rx_util::StateID;
use std::alloc::AllocError;

impl Cache {
    /// Returns the number of a state, which is added if it isn't there, whatever its size.
    fn found_or_added(
        &mut self,
        automaton: &Automaton,
        state: AutomatonState,
    ) -> Result<usize, AllocError>
        requires made { HoldsBy automaton.now self.old }
        requires state { IsStateOf (directed automaton.now) state }
        ensures made { HoldsBy automaton.now self.new }
        ensures number { IfOk result (λ number. (x : AutomatonState)
            × (slice_get self.new.states number ≡ Some x) × IsSameState state x) }
        ensures few { IfOk result (λ number.
            length self.new.states ≤ max (length self.old.states) (number + 1)) }
        ensures grows { OnOk result (Grows self.old self.new) }
    {
        if let Some(number) = self.find(&state) {
            return Ok(number);
        }
        match self.add(automaton, state) {
            Ok(number) => Ok(number),
            Err(_) => Err(AllocError),
        }
    }

    /// Adds a start state.
    fn add_first(
        &mut self,
        automaton: &Automaton,
        starting: Starting,
        side: Behind,
    ) -> Result<(), AllocError>
        requires made { HoldsBy automaton.now self.old }
        ensures made { HoldsBy automaton.now self.new }
        ensures first { OnOk result (HasOneFirst self.new.states starting side) }
        ensures kept { OnOk result (KeepNumbers self.old.states self.new.states) }
    {
        let state = AutomatonState::first(automaton.way.allocator(), starting, side);
        let number = self.found_or_added(automaton, state)?;
        self.keep_first(&starting, &side, number);
        Ok(())
    }

    /// Adds the start states of a forward search whose threads start in a state of the program, for
    /// what precedes.
    fn add_all_firsts(
        &mut self,
        automaton: &Automaton,
        start: StateID,
        side: Behind,
    ) -> Result<(), AllocError>
        requires made { HoldsBy automaton.now self.old }
        ensures made { HoldsBy automaton.now self.new }
        ensures starts { OnOk result (HasStarts false self.new.states start side) }
        ensures kept { OnOk result (KeepNumbers self.old.states self.new.states) }
    {
        self.add_first(automaton, Starting::Never, side)?;
        self.add_first(automaton, Starting::Once(start), side)?;
        self.add_first(automaton, Starting::Always(start), side)?;
        Ok(())
    }

    /// Adds the start states for threads that start in a state of the program, for what precedes. A
    /// backward search starts its threads once.
    fn add_starts(
        &mut self,
        automaton: &Automaton,
        start: StateID,
        side: Behind,
    ) -> Result<(), AllocError>
        requires made { HoldsBy automaton.now self.old }
        ensures made { HoldsBy automaton.now self.new }
        ensures starts { OnOk result
            (HasStarts (directed automaton.now).is_back self.new.states start side) }
        ensures kept { OnOk result (KeepNumbers self.old.states self.new.states) }
    {
        match automaton.way {
            Way::Forward(_) => self.add_all_firsts(automaton, start, side),
            Way::Back(_) => self.add_first(automaton, Starting::Once(start), side),
        }
    }

    /// Adds the start states for everything that may precede.
    fn add_sides(&mut self, automaton: &Automaton, start: StateID) -> Result<(), AllocError>
        requires is { IsAutomaton automaton.now }
        requires made { HoldsBy automaton.now self.old }
        ensures made { HoldsBy automaton.now self.new }
        ensures starts { OnOk result (HasStartsFrom (directed automaton.now)
            automaton.now.alphabet.now self.new.states start) }
        ensures kept { OnOk result (KeepNumbers self.old.states self.new.states) }
    {
        for column in 0..automaton.alphabet.column_count() {
            let side = automaton.side(automaton.alphabet.byte(column));
            self.add_starts(automaton, start, side)?;
        }
        Ok(())
    }

    /// Adds the start states of each pattern.
    fn add_patterns(&mut self, automaton: &Automaton) -> Result<(), AllocError>
        requires is { IsAutomaton automaton.now }
        requires made { HoldsBy automaton.now self.old }
        ensures made { HoldsBy automaton.now self.new }
        ensures starts { OnOk result ((k q : ℕ)
            → slice_get (directed automaton.now).bytes.patterns k ≡ Some q
            → HasStartsFrom (directed automaton.now) automaton.now.alphabet.now
            self.new.states q) }
    {
        for start in automaton.way.patterns() {
            self.add_sides(automaton, *start)?;
        }
        Ok(())
    }

    /// Adds all start states.
    pub(crate) fn add_all_starts(&mut self, automaton: &Automaton) -> Result<(), AllocError>
        requires is { IsAutomaton automaton.now }
        requires made { HoldsBy automaton.now self.old }
        ensures made { HoldsBy automaton.now self.new }
        ensures starts { OnOk result (HasAllStarts (directed automaton.now)
            automaton.now.alphabet.now self.new.states) }
    {
        self.add_patterns(automaton)?;
        self.add_sides(automaton, automaton.way.start())?;
        Ok(())
    }
}

impl Cache {
    /// Computes the entry of a state in a column and adds the state to which it leads. Returns
    /// `UNKNOWN` if the offset of that state's row is too large for an entry.
    fn entry_made(
        &mut self,
        automaton: &Automaton,
        number: usize,
        column: usize,
    ) -> Result<u32, AllocError>
        requires made { HoldsBy automaton.now self.old }
        requires number { number < length self.old.states }
        requires column { column < column_count automaton.now.alphabet.now }
        ensures made { HoldsBy automaton.now self.new }
        ensures grows { OnOk result (Grows self.old self.new) }
        ensures entry { IfOk result (λ entry. (x : AutomatonState)
            → slice_get self.old.states number ≡ Some x
            → IsEntry (directed automaton.now) automaton.now.alphabet.now self.new.width
            self.new.states x (ahead_in automaton.now.alphabet.now column) entry) }
        ensures rows { IfOk result (λ entry. (entry ≡ UNKNOWN → ⊥) → HaveRows self.old self.new) }
    {
        let ahead = automaton.alphabet.ahead(column);
        if automaton.alphabet.quits_at(ahead.seen) {
            return Ok(QUIT);
        }
        let state = match self.next_state(automaton, number, &ahead) {
            Ok(state) => state,
            Err(_) => return Err(AllocError),
        };
        let next = self.found_or_added(automaton, state)?;
        Ok(self.entry_to(next))
    }

    /// Enters the step from a state in a column. Returns false if the offset of the next state's
    /// row is too large for an entry.
    fn fill(
        &mut self,
        automaton: &Automaton,
        number: usize,
        column: usize,
    ) -> Result<bool, AllocError>
        requires made { HoldsBy automaton.now self.old }
        requires number { number < length self.old.states }
        requires column { column < column_count automaton.now.alphabet.now }
        ensures made { HoldsBy automaton.now self.new }
        ensures grows { OnOk result (Grows self.old self.new) }
        ensures known { IfOk result (λ is_known. is_known ≡ true
            → IsKnownAt self.new.table (number * self.new.width + column)) }
        ensures rows { IfOk result (λ is_known. is_known ≡ true → HaveRows self.old self.new) }
    {
        let entry = self.entry_made(automaton, number, column)?;
        if entry == UNKNOWN {
            return Ok(false);
        }
        self.set_entry(number, column, entry);
        Ok(true)
    }

    /// Enters all steps from a state; those from the states before it must be known. Returns false
    /// if the offset of a row is too large for an entry.
    fn fill_row(&mut self, automaton: &Automaton, number: usize) -> Result<bool, AllocError>
        requires made { HoldsBy automaton.now self.old }
        requires number { number < length self.old.states }
        requires known { AreKnown self.old number }
        ensures made { HoldsBy automaton.now self.new }
        ensures known { IfOk result
            (λ is_known. is_known ≡ true → AreKnown self.new (number + 1)) }
        ensures kept { OnOk result (KeepNumbers self.old.states self.new.states) }
        ensures rows { IfOk result (λ is_known. is_known ≡ true → HaveRows self.old self.new) }
    {
        for column in 0..automaton.alphabet.column_count() {
            let is_known = self.fill(automaton, number, column)?;
            if !is_known {
                return Ok(false);
            }
        }
        Ok(true)
    }

    /// Returns whether there are at most `state_limit` states that take at most about `size_limit`
    /// bytes.
    fn is_within(&self, state_limit: usize, size_limit: usize) -> bool
        ensures { result ≡ true → IsWithin state_limit size_limit self.now }
    {
        self.states.len() <= state_limit && self.memory_usage() <= size_limit
    }

    /// Computes all reachable states and all steps. Returns false if there are more than
    /// `state_limit` states, if they take more than about `size_limit` bytes, or if the offset of a
    /// row is too large for an entry.
    pub(crate) fn close(
        &mut self,
        automaton: &Automaton,
        state_limit: usize,
        size_limit: usize,
    ) -> Result<bool, AllocError>
        requires made { HoldsBy automaton.now self.old }
        ensures made { HoldsBy automaton.now self.new }
        ensures kept { OnOk result (KeepNumbers self.old.states self.new.states) }
        ensures known { IfOk result (λ is_closed. is_closed ≡ true
            → AreKnown self.new (length self.new.states)) }
        ensures limit { IfOk result (λ is_closed. is_closed ≡ true
            → IsWithin state_limit size_limit self.new) }
        ensures rows { IfOk result (λ is_closed. is_closed ≡ true → HaveRows self.old self.new) }
    {
        let mut number = 0;
        while number < self.states.len() {
            if !self.is_within(state_limit, size_limit) {
                return Ok(false);
            }
            let is_known = self.fill_row(automaton, number)?;
            if !is_known {
                return Ok(false);
            }
            number += 1;
        }
        Ok(self.is_within(state_limit, size_limit))
    }
}
