//! The engine that searches with a dense automaton, whose states are all computed when it is built.

ghost use Rattle.std.specs.Prelude.{◌≡◌, ◌+◌, ◌≤◌, true, map, max, IfErr, IfOk, IsTrue, OnOk};
ghost use Rattle.rx_util.specs.declared.search.MatchError.{MatchError};
ghost use Rattle.rx_input.specs.Cursors.{IsSameContent};
ghost use Rattle.rx_walks.specs.Finds.{is_anchored};
ghost use Rattle.rx_steps.specs.Reversed.{IsHalfAnswerBack, IsRefusalBack, IsReverseOf};
ghost use Rattle.rx_steps.specs.Searching.{anchoring_of, search_of};
ghost use Rattle.rx_grammar.specs.Postorder.{tree_of};
ghost use Rattle.rx_engine.specs.Engines.{AreRefused, IsBuiltOf, IsBuiltOfAll, IsBuiltOfTrees, IsRefused, IsRefusedOfAll, by_default, nothing_set};
ghost use Rattle.rx_dfa.specs.BackTables.{used_by};
ghost use Rattle.rx_dfa.specs.Caches.{counted};
ghost use Rattle.rx_dfa.specs.DenseTables.{IsClosedOf, IsQuit};
ghost use Rattle.rx_dfa.specs.Directions.{forward};
ghost use Rattle.rx_dfa.specs.Alphabets.{IsAlphabetOf};
ghost use Rattle.rx_dfa.specs.Searching.{IsHalfAnswer};

use crate::alphabet::{Alphabet, CACHE_CAPACITY};
use crate::back_table::BackTable;
use crate::dense_table::DenseTable;
use crate::reverse::reverse_of;
use rx_engine::{Builder, Compiled};
use rx_grammar::Hir;
use rx_input::{Cursor, Input};
use rx_program::{BuildError, Program};
use rx_util::{HalfMatch, MatchError};
use std::alloc::{AllocError, Global};
use std::marker::Model;
use std::rc::Rc;

/// An automaton with all its states and steps, and the reverse program with those of its automaton.
#[derive(Debug, Drop)]
struct Automaton {
    dfa: Alphabet,
    closed: DenseTable,
    back: BackTable,
}

impl Model for Automaton {
    ghost use Rattle.rx_dfa.specs.Dense.{AutomatonView};

    ghost Value = { AutomatonView };

    ghost view = { λ a. record { dfa = a.dfa; closed = a.closed; back = a.back } };
}

/// An engine that searches for patterns with a dense automaton, whose states are all computed when
/// it is built. Contracts see the engine of the patterns and its automaton, with the reverse
/// program for backward searches.
#[derive(Debug)]
pub struct Regex {
    compiled: Compiled,
    automaton: Rc<Automaton>,
}

// Written out, so that crates above needn't prove how the fields are dropped.
impl Drop for Regex {
    fn drop(self) {
        let Regex {
            compiled: _compiled,
            automaton: _automaton,
        } = self;
    }
}

impl Model for Regex {
    ghost use Rattle.rx_dfa.specs.Dense.{DenseView, IsDense};

    ghost Value = { DenseView };

    ghost view = { λ re. record { engine = re.compiled; automaton = re.automaton.value } };

    ghost invariant = { λ re.
        IsDense (record { engine = re.compiled; automaton = re.automaton.value }) };
}

/// Computes all states and steps of a program's automaton. More states than entries can lead to
/// count as out of memory.
fn closed_of(alloc: Global, program: &Program, dfa: &Alphabet) -> Result<DenseTable, AllocError>
    requires { IsAlphabetOf program.now dfa.now }
    ensures { IfOk result (IsClosedOf (forward program.now) dfa.now) }
{
    match DenseTable::new(alloc, program, dfa, usize::MAX, usize::MAX)? {
        Some(closed) => Ok(closed),
        None => Err(AllocError),
    }
}

/// Computes the automaton of an engine's program, which an engine and its clones share.
fn shared_automaton(alloc: Global, compiled: &Compiled) -> Result<Rc<Automaton>, AllocError>
    ensures dfa { IfOk result (λ automaton. IsAlphabetOf compiled.now.program automaton.value.dfa) }
    ensures utf8_empty { IfOk result (λ automaton. automaton.value.dfa.utf8_empty ≡ true) }
    ensures closed { IfOk result (λ automaton.
        IsClosedOf (forward compiled.now.program) automaton.value.dfa automaton.value.closed) }
    ensures reverse { IfOk result (λ automaton.
        IsReverseOf compiled.now.program automaton.value.back.reverse) }
    ensures limit { IfOk result (λ automaton. used_by automaton.value.back.closed
        ≤ max CACHE_CAPACITY automaton.value.closed.used) }
{
    let reverse = reverse_of(compiled)?;
    let dfa = Alphabet::new(alloc, compiled.program(), true, usize::MAX)?;
    let closed = closed_of(alloc, compiled.program(), &dfa)?;
    let size_limit = CACHE_CAPACITY.max(closed.memory_usage());
    let back = BackTable::new(alloc, reverse, size_limit)?;
    Ok(Rc::new(alloc, Automaton { dfa, closed, back })?)
}

impl Regex {
    /// Builds the engine from compiled patterns.
    fn over(alloc: Global, compiled: Compiled) -> Result<Regex, AllocError>
        requires { compiled.utf8_empty ≡ true }
        ensures { IfOk result (λ re. re.engine ≡ compiled) }
    {
        let automaton = shared_automaton(alloc, &compiled)?;
        Ok(Regex {
            compiled,
            automaton,
        })
    }

    /// Builds the engine of a pattern with default settings.
    ///
    /// # Errors
    ///
    /// Those of `pikevm::Builder::build`. `Memory` may come after a long time, because the
    /// automaton may have very many more states than the program.
    ///
    /// # Complexity
    ///
    /// Memory proportional to the automaton's states times the program's classes of bytes. The
    /// reverse automaton may take as much, or about two megabytes; if it would take more, it isn't
    /// built.
    pub fn new(alloc: Global, pattern: &str) -> Result<Regex, BuildError>
        ensures built { IfOk result (λ re. IsBuiltOf pattern.now by_default re.engine) }
        ensures refused { IfErr result (λ error. IsRefused pattern.now by_default error) }
    {
        let compiled = Compiled::new(alloc, pattern)?;
        Ok(Regex::over(alloc, compiled)?)
    }

    /// Builds the engine of patterns that are searched for together, with default settings. If
    /// matches of several start at the same offset, the earliest pattern is preferred. Without a
    /// pattern there is never a match.
    ///
    /// # Errors
    ///
    /// Those of `pikevm::Builder::build_many`.
    ///
    /// # Complexity
    ///
    /// As for `new`.
    pub fn new_many(alloc: Global, patterns: &[&str]) -> Result<Regex, BuildError>
        ensures built { IfOk result (λ re.
            IsBuiltOfAll (map (λ text. text.now) patterns.now) by_default re.engine) }
        ensures refused { IfErr result (λ error.
            IsRefusedOfAll (map (λ text. text.now) patterns.now) by_default error) }
    {
        let compiled = Compiled::new_many(alloc, patterns)?;
        Ok(Regex::over(alloc, compiled)?)
    }

    /// Builds the engine from syntax trees, as `new_many` does from patterns.
    ///
    /// # Errors
    ///
    /// `BuildError::Size` if they weigh more than 2,147,483,646 together; `Memory`.
    pub fn build_from_hirs(alloc: Global, hirs: &[&Hir]) -> Result<Regex, BuildError>
        ensures built { IfOk result (λ re. IsBuiltOfTrees
            (map (λ hir. tree_of hir.now) hirs.now) nothing_set re.engine) }
        ensures refused { IfErr result (λ error. AreRefused
            (map (λ hir. tree_of hir.now) hirs.now) nothing_set error) }
    {
        let compiled = Builder::new().build_many_from_hir(alloc, hirs)?;
        Ok(Regex::over(alloc, compiled)?)
    }

    /// Returns a copy that shares program and automaton. `O(1)`.
    ///
    /// # Errors
    ///
    /// `Memory`.
    pub fn clone(&self) -> Result<Regex, MatchError>
        ensures same { IfOk result (λ re. re ≡ self.now) }
        ensures refused { IfErr result (λ error. error ≡ MatchError.Memory) }
    {
        Ok(Regex {
            compiled: self.compiled.clone()?,
            automaton: self.automaton.clone()?,
        })
    }

    /// Returns the approximate number of bytes of the automata's states, forward and reverse: their
    /// nodes, their rows of the tables, and other data of each.
    pub fn memory_usage(&self) -> usize
        ensures { result ≡ counted (self.now.automaton.closed.used
            + used_by self.now.automaton.back.closed) }
    {
        let closed = self.automaton.closed.memory_usage();
        closed.saturating_add(self.automaton.back.memory_usage())
    }
}

/// Searches forward: returns the pattern and the end of the match that is found.
///
/// # Errors
///
/// `Quit` for a byte of the slice that is 128 or more, if the pattern has word assertions (`dfa`:
/// the program contains `\b` or `\B` then).
///
/// # Complexity
///
/// A table lookup for each byte, and no memory.
pub fn try_search_fwd<C: Cursor>(
    re: &Regex,
    input: &mut Input<C>,
) -> Result<Option<HalfMatch>, MatchError>
    ensures answer { IfOk result (IsHalfAnswer re.now.engine.program
        (search_of re.now.engine.utf8_empty input.old)) }
    ensures same { IsSameContent input.old.cursor input.new.cursor }
    ensures asked { input.new.asked ≡ input.old.asked }
    ensures refused { IfErr result (IsQuit re.now.automaton.dfa.asked
        (search_of re.now.engine.utf8_empty input.old)) }
    ensures dfa { IsAlphabetOf re.now.engine.program re.now.automaton.dfa }
{
    let automaton = &re.automaton;
    automaton
        .closed
        .try_search_fwd(re.compiled.program(), &automaton.dfa, input)
}

/// Searches backward on an anchored input. Of the matches that end at the end of the span, or of
/// the haystack if that is less, and are inside span and slice, returns the least start with the
/// least pattern for it; with `Anchored::Pattern`, only matches of that pattern count.
///
/// # Errors
///
/// `UnsupportedAnchored` if the input isn't anchored; `Memory`.
///
/// # Complexity
///
/// Reads down to the span's start, or until no match can start any more: a table lookup for each
/// byte, and no memory. If the automaton would quit or has too many states, threads are followed
/// instead, with memory proportional to the program.
pub fn try_search_rev<C: Cursor>(
    re: &Regex,
    input: &mut Input<C>,
) -> Result<Option<HalfMatch>, MatchError>
    ensures answer { IfOk result (IsHalfAnswerBack re.now.engine.program
        (search_of re.now.engine.utf8_empty input.old)) }
    ensures anchored { OnOk result (IsTrue (is_anchored (anchoring_of input.old.asked.anchored))) }
    ensures same { IsSameContent input.old.cursor input.new.cursor }
    ensures asked { input.new.asked ≡ input.old.asked }
    ensures refused { IfErr result (IsRefusalBack
        (search_of re.now.engine.utf8_empty input.old)) }
{
    re.automaton.back.search(input, re.compiled.utf8_empty())
}
