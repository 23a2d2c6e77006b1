//! Automata all of whose states and steps are computed at once. A search takes no memory.

ghost use Rattle.std.specs.Prelude.{◌≡◌, ◌<◌, true, Some, length, slice_get, IfSome, IfOk, IfErr, IsTrue, OnOk};
ghost use Rattle.rx_input.specs.Cursors.{IsSameContent};
ghost use Rattle.rx_walks.specs.Finds.{is_anchored};
ghost use Rattle.rx_program.specs.Programs.{ByteProgram};
ghost use Rattle.rx_steps.specs.Reversed.{IsHalfAnswerBack, IsReverseOf};
ghost use Rattle.rx_steps.specs.Searching.{anchoring_of, search_of};
ghost use Rattle.rx_dfa.specs.declared.states.AutomatonState.{AutomatonState};
ghost use Rattle.rx_dfa.specs.Alphabets.{IsAlphabetBack, IsAlphabetOf, column_count};
ghost use Rattle.rx_dfa.specs.Automata.{IsAutomaton, directed};
ghost use Rattle.rx_dfa.specs.Back.{IsDenseRefusalBack};
ghost use Rattle.rx_dfa.specs.Caches.{HasFirst, IsWithin};
ghost use Rattle.rx_dfa.specs.DenseTables.{IsClosedOf, IsQuit};
ghost use Rattle.rx_dfa.specs.Directions.{backward, forward};
ghost use Rattle.rx_dfa.specs.Searching.{IsHalfAnswer};
ghost use Rattle.rx_dfa.specs.Tables.{HasStepped, HoldsBy, IsBeginning, IsTable};

use crate::alphabet::Alphabet;
use crate::automaton::{Automaton, Way};
use crate::back::search_back;
use crate::behind::Behind;
use crate::cache::{Cache, QUIT};
use crate::search::search;
use crate::states::Starting;
use crate::table::Table;
use rx_input::{Cursor, Input};
use rx_program::{Program, ReverseProgram};
use rx_util::{HalfMatch, MatchError};
use std::alloc::{AllocError, Global};
use std::marker::Model;

/// The table of an automaton with all its states and steps. Contracts see it as a cache.
#[derive(Debug, Drop)]
pub struct DenseTable {
    cache: Cache,
}

impl Model for DenseTable {
    ghost use Rattle.rx_dfa.specs.Caches.{CacheView};

    ghost Value = { CacheView };

    ghost view = { λ c. c.cache };
}

/// Returns an empty cache of an automaton.
fn new_cache(alloc: Global, automaton: &Automaton) -> Result<Cache, AllocError>
    ensures { IfOk result (HoldsBy automaton.now) }
{
    match Cache::of(alloc, &automaton.way, automaton.alphabet) {
        Ok(cache) => Ok(cache),
        Err(_) => Err(AllocError),
    }
}

impl DenseTable {
    /// Computes the states and steps of an automaton. Returns `None` if there are more states than
    /// `state_limit`, if they take more than about `size_limit` bytes, or if entries of 32 bits
    /// can't lead to all of them.
    fn of(
        alloc: Global,
        automaton: &Automaton,
        state_limit: usize,
        size_limit: usize,
    ) -> Result<Option<DenseTable>, AllocError>
        requires { IsAutomaton automaton.now }
        ensures made { IfOk result (λ closed. IfSome closed
            (IsClosedOf (directed automaton.now) automaton.now.alphabet.now)) }
        ensures limit { IfOk result (λ closed. IfSome closed (IsWithin state_limit size_limit)) }
    {
        let mut cache = new_cache(alloc, automaton)?;
        cache.add_all_starts(automaton)?;
        let is_closed = cache.close(automaton, state_limit, size_limit)?;
        if is_closed {
            Ok(Some(DenseTable { cache }))
        } else {
            Ok(None)
        }
    }

    /// Computes the states and steps of a program's automaton. Returns `None` if there are more
    /// states than `state_limit`, if they take more than about `size_limit` bytes, or if entries of
    /// 32 bits can't lead to all of them.
    ///
    /// # Requires
    ///
    /// The alphabet is that of the program.
    ///
    /// # Errors
    ///
    /// Out of memory.
    ///
    /// # Complexity
    ///
    /// A step of the program's threads from each state before each class of bytes.
    pub fn new(
        alloc: Global,
        program: &Program,
        alphabet: &Alphabet,
        state_limit: usize,
        size_limit: usize,
    ) -> Result<Option<DenseTable>, AllocError>
        requires { IsAlphabetOf program.now alphabet.now }
        ensures made { IfOk result
            (λ closed. IfSome closed (IsClosedOf (forward program.now) alphabet.now)) }
        ensures limit { IfOk result (λ closed. IfSome closed (IsWithin state_limit size_limit)) }
    {
        let automaton = Automaton {
            way: Way::Forward(program),
            alphabet,
        };
        DenseTable::of(alloc, &automaton, state_limit, size_limit)
    }

    /// Computes the states and steps of a reverse program's automaton, as `new` does, with the same
    /// requirement and errors.
    pub fn new_back(
        alloc: Global,
        reverse: &ReverseProgram,
        alphabet: &Alphabet,
        state_limit: usize,
        size_limit: usize,
    ) -> Result<Option<DenseTable>, AllocError>
        requires { IsAlphabetBack reverse.now alphabet.now }
        ensures made { IfOk result
            (λ closed. IfSome closed (IsClosedOf (backward reverse.now) alphabet.now)) }
        ensures limit { IfOk result (λ closed. IfSome closed (IsWithin state_limit size_limit)) }
    {
        let automaton = Automaton {
            way: Way::Back(reverse),
            alphabet,
        };
        DenseTable::of(alloc, &automaton, state_limit, size_limit)
    }

    /// Returns the approximate number of bytes of the states, as for a cache.
    pub fn memory_usage(&self) -> usize
        ensures { result ≡ self.now.used }
    {
        self.cache.memory_usage()
    }

    /// Returns the states and the steps between them.
    fn cache(&self) -> &Cache
        ensures { result.now ≡ self.now }
    {
        &self.cache
    }

    /// Returns the number of the state to which a column leads, or `None` if a search must quit.
    fn step(&self, automaton: &Automaton, number: usize, column: usize) -> Option<usize>
        requires closed { IsTable true automaton.now self.now }
        requires number { number < length self.now.states }
        requires column { column < column_count automaton.now.alphabet.now }
        ensures { (x : AutomatonState) → slice_get self.now.states number ≡ Some x
            → HasStepped automaton.now self.now.states x column result }
    {
        let entry = self.cache.entry(number, column);
        if entry == QUIT {
            return None;
        }
        Some(self.cache.number_at(entry))
    }

    /// Returns the number of a start state.
    fn first(&self, automaton: &Automaton, starting: &Starting, side: &Behind) -> usize
        requires closed { IsTable true automaton.now self.now }
        requires begins { IsBeginning automaton.now starting.now side.now }
        ensures { HasFirst self.now.states starting.now side.now result }
    {
        if let Some(number) = self.cache.kept_first(starting, side) {
            return number;
        }
        match self.cache.find_first(starting, side) {
            Some(number) => number,
            None => unreachable!(),
        }
    }

    /// Searches forward: returns the pattern and the end of the match that the program finds.
    ///
    /// # Requires
    ///
    /// The alphabet is that of the program, and this is the table for both.
    ///
    /// # Errors
    ///
    /// `Quit` for a byte of the slice that is 128 or more, if the program has word assertions.
    ///
    /// # Complexity
    ///
    /// A table lookup for each byte, and no memory.
    pub fn try_search_fwd<C: Cursor>(
        &self,
        program: &Program,
        alphabet: &Alphabet,
        input: &mut Input<C>,
    ) -> Result<Option<HalfMatch>, MatchError>
        requires alphabet { IsAlphabetOf program.now alphabet.now }
        requires closed { IsClosedOf (forward program.now) alphabet.now self.now }
        ensures answer { IfOk result
            (IsHalfAnswer program.now (search_of alphabet.now.utf8_empty input.old)) }
        ensures same { IsSameContent input.old.cursor input.new.cursor }
        ensures asked { input.new.asked ≡ input.old.asked }
        ensures refused { IfErr result
            (IsQuit alphabet.now.asked (search_of alphabet.now.utf8_empty input.old)) }
    {
        let automaton = Automaton {
            way: Way::Forward(program),
            alphabet,
        };
        let mut table = self;
        search(&mut table, &automaton, program, input)
    }

    /// Searches backward with a reverse program. Of the matches that end at the end of the span, or
    /// of the haystack if that is less, and are inside span and slice, returns the least start with
    /// the least pattern for it, as the forward program finds them. `utf8_empty` skips an empty
    /// match inside a character.
    ///
    /// # Requires
    ///
    /// The alphabet is that of the reverse program, and this is the table for both.
    ///
    /// # Errors
    ///
    /// - `UnsupportedAnchored` if the input isn't anchored
    /// - `Quit` for a byte of the slice that is 128 or more, with its offset, if the program has
    ///   word assertions
    ///
    /// # Complexity
    ///
    /// Reads from the end of the span to its start, or until no thread is left: a table lookup for
    /// each byte, and no memory.
    pub fn try_search_back<C: Cursor>(
        &self,
        reverse: &ReverseProgram,
        alphabet: &Alphabet,
        input: &mut Input<C>,
        utf8_empty: bool,
    ) -> Result<Option<HalfMatch>, MatchError>
        requires alphabet { IsAlphabetBack reverse.now alphabet.now }
        requires closed { IsClosedOf (backward reverse.now) alphabet.now self.now }
        ensures answer { IfOk result (λ found. (p : ByteProgram) → IsReverseOf p reverse.now
            → IsHalfAnswerBack p (search_of utf8_empty input.old) found) }
        ensures anchored { OnOk result
            (IsTrue (is_anchored (anchoring_of input.old.asked.anchored))) }
        ensures same { IsSameContent input.old.cursor input.new.cursor }
        ensures asked { input.new.asked ≡ input.old.asked }
        ensures refused { IfErr result
            (IsDenseRefusalBack alphabet.now.asked (search_of utf8_empty input.old)) }
    {
        let automaton = Automaton {
            way: Way::Back(reverse),
            alphabet,
        };
        let mut table = self;
        search_back(&mut table, &automaton, reverse, input, utf8_empty)
    }
}

impl Table for &DenseTable {
    ghost is_whole = { true };

    ghost shown = { λ closed. closed.now };

    fn known(&self) -> &Cache {
        DenseTable::cache(self)
    }

    #[inline(always)]
    fn step(
        &mut self,
        automaton: &Automaton,
        number: usize,
        column: usize,
        _at: usize,
    ) -> Result<Option<usize>, MatchError> {
        Ok(DenseTable::step(self, automaton, number, column))
    }

    #[inline(always)]
    fn first(
        &mut self,
        automaton: &Automaton,
        starting: Starting,
        side: Behind,
        _at: usize,
    ) -> Result<usize, MatchError> {
        Ok(DenseTable::first(self, automaton, &starting, &side))
    }
}
