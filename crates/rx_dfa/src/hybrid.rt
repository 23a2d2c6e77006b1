//! The engine that searches with a lazy automaton, whose states are computed when a search reaches
//! them.

ghost use Rattle.std.specs.Prelude.{◌≡◌, ◌+◌, true, map, IfErr, IfOk, IsTrue, OnErr, OnOk};
ghost use Rattle.rx_util.specs.declared.search.MatchError.{MatchError};
ghost use Rattle.rx_program.specs.declared.error.BuildError.{BuildError};
ghost use Rattle.rx_input.specs.Cursors.{IsSameContent};
ghost use Rattle.rx_walks.specs.Finds.{is_anchored};
ghost use Rattle.rx_steps.specs.Reversed.{IsHalfAnswerBack, IsRefusalBack};
ghost use Rattle.rx_steps.specs.Searching.{anchoring_of, search_of};
ghost use Rattle.rx_grammar.specs.Postorder.{tree_of};
ghost use Rattle.rx_engine.specs.Engines.{AreRefused, IsBuiltOf, IsBuiltOfAll, IsBuiltOfTrees, IsRefused, IsRefusedOfAll, by_default, nothing_set};
ghost use Rattle.rx_dfa.specs.Caches.{GivesUpLate, counted};
ghost use Rattle.rx_dfa.specs.Hybrid.{HasCapacity, IsHybridCacheOf};
ghost use Rattle.rx_dfa.specs.Alphabets.{IsAlphabetOf};
ghost use Rattle.rx_dfa.specs.Passing.{IsRefusal};
ghost use Rattle.rx_dfa.specs.Searching.{IsHalfAnswer};

use crate::alphabet::{Alphabet, CACHE_CAPACITY};
use crate::back_cache::{BackCache, search_back};
use crate::reverse::reverse_of;
use crate::{cache as states, search};
use rx_engine::{Builder, Compiled};
use rx_grammar::Hir;
use rx_input::{Cursor, Input};
use rx_program::{BuildError, ReverseProgram};
use rx_util::{HalfMatch, MatchError};
use std::alloc::{AllocError, Global};
use std::marker::Model;
use std::rc::Rc;

/// An engine that searches for patterns with an automaton whose states are in a cache. Contracts
/// see the engine of the patterns, the alphabet of its program, and the reverse program with its
/// alphabet for backward searches.
#[derive(Debug)]
pub struct Regex {
    compiled: Compiled,
    dfa: Rc<Alphabet>,
    // The reverse program and its alphabet.
    reverse: Rc<ReverseProgram>,
    back: Rc<Alphabet>,
}

// Written out, so that crates above needn't prove how the fields are dropped.
impl Drop for Regex {
    fn drop(self) {
        let Regex {
            compiled: _compiled,
            dfa: _dfa,
            reverse: _reverse,
            back: _back,
        } = self;
    }
}

impl Model for Regex {
    ghost use Rattle.rx_dfa.specs.Hybrid.{HybridView, IsHybrid};

    ghost Value = { HybridView };

    ghost view = { λ re. record {
      engine = re.compiled;
      dfa = re.dfa.value;
      reverse = re.reverse.value;
      back = re.back.value;
    } };

    ghost invariant = { λ re. IsHybrid (record {
      engine = re.compiled;
      dfa = re.dfa.value;
      reverse = re.reverse.value;
      back = re.back.value;
    }) };
}

/// Returns the alphabet of an engine's program, which an engine and its clones share.
fn shared_dfa(
    alloc: Global,
    compiled: &Compiled,
    capacity: usize,
) -> Result<Rc<Alphabet>, AllocError>
    ensures made { IfOk result (λ dfa. IsAlphabetOf compiled.now.program dfa.value) }
    ensures utf8_empty { IfOk result (λ dfa. dfa.value.utf8_empty ≡ true) }
    ensures capacity { IfOk result (λ dfa. dfa.value.capacity ≡ capacity) }
{
    let dfa = Alphabet::new(alloc, compiled.program(), true, capacity)?;
    Ok(Rc::new(alloc, dfa)?)
}

impl Regex {
    /// Builds the engine from compiled patterns.
    fn over(alloc: Global, compiled: Compiled, capacity: usize) -> Result<Regex, AllocError>
        requires { compiled.utf8_empty ≡ true }
        ensures engine { IfOk result (λ re. re.engine ≡ compiled) }
        ensures capacity { IfOk result (HasCapacity capacity) }
    {
        let dfa = shared_dfa(alloc, &compiled, capacity)?;
        let reverse = Rc::new(alloc, reverse_of(&compiled)?)?;
        let back = Rc::new(alloc, Alphabet::new_back(alloc, &reverse, capacity)?)?;
        Ok(Regex {
            compiled,
            dfa,
            reverse,
            back,
        })
    }

    /// Builds the engine of a pattern with default settings. The states in its caches may take
    /// about two megabytes.
    ///
    /// # Errors
    ///
    /// Those of `pikevm::Builder::build`.
    pub fn new(alloc: Global, pattern: &str) -> Result<Regex, BuildError>
        ensures built { IfOk result (λ re. IsBuiltOf pattern.now by_default re.engine) }
        ensures capacity { IfOk result (HasCapacity CACHE_CAPACITY) }
        ensures refused { IfErr result (λ error. IsRefused pattern.now by_default error) }
    {
        let compiled = Compiled::new(alloc, pattern)?;
        Ok(Regex::over(alloc, compiled, CACHE_CAPACITY)?)
    }

    /// Builds the engine of patterns that are searched for together, with default settings. If
    /// matches of several start at the same offset, the earliest pattern is preferred. Without a
    /// pattern there is never a match.
    ///
    /// # Errors
    ///
    /// Those of `pikevm::Builder::build_many`.
    pub fn new_many(alloc: Global, patterns: &[&str]) -> Result<Regex, BuildError>
        ensures built { IfOk result (λ re.
            IsBuiltOfAll (map (λ text. text.now) patterns.now) by_default re.engine) }
        ensures capacity { IfOk result (HasCapacity CACHE_CAPACITY) }
        ensures refused { IfErr result (λ error.
            IsRefusedOfAll (map (λ text. text.now) patterns.now) by_default error) }
    {
        Regex::with_capacity(alloc, patterns, CACHE_CAPACITY)
    }

    /// Builds the engine of patterns, as `new_many` does and with the same errors, with caches
    /// whose states may take about `capacity` bytes. There is always room for two states.
    pub fn with_capacity(
        alloc: Global,
        patterns: &[&str],
        capacity: usize,
    ) -> Result<Regex, BuildError>
        ensures built { IfOk result (λ re.
            IsBuiltOfAll (map (λ text. text.now) patterns.now) by_default re.engine) }
        ensures capacity { IfOk result (HasCapacity capacity) }
        ensures refused { IfErr result (λ error.
            IsRefusedOfAll (map (λ text. text.now) patterns.now) by_default error) }
    {
        let compiled = Compiled::new_many(alloc, patterns)?;
        Ok(Regex::over(alloc, compiled, capacity)?)
    }

    /// Builds the engine from syntax trees, as `new_many` does from patterns.
    ///
    /// # Errors
    ///
    /// `BuildError::Size` if they weigh more than 2,147,483,646 together; `Memory`.
    pub fn build_from_hirs(alloc: Global, hirs: &[&Hir]) -> Result<Regex, BuildError>
        ensures built { IfOk result (λ re. IsBuiltOfTrees
            (map (λ hir. tree_of hir.now) hirs.now) nothing_set re.engine) }
        ensures capacity { IfOk result (HasCapacity CACHE_CAPACITY) }
        ensures refused { IfErr result (λ error. AreRefused
            (map (λ hir. tree_of hir.now) hirs.now) nothing_set error) }
    {
        let compiled = Builder::new().build_many_from_hir(alloc, hirs)?;
        Ok(Regex::over(alloc, compiled, CACHE_CAPACITY)?)
    }

    /// Returns a copy that shares program and automaton. `O(1)`.
    ///
    /// # Errors
    ///
    /// `Memory`.
    pub fn clone(&self) -> Result<Regex, MatchError>
        ensures same { IfOk result (λ re. re ≡ self.now) }
        ensures refused { IfErr result (λ error. error ≡ MatchError.Memory) }
    {
        Ok(Regex {
            compiled: self.compiled.clone()?,
            dfa: self.dfa.clone()?,
            reverse: self.reverse.clone()?,
            back: self.back.clone()?,
        })
    }

    /// Returns a cache for searches with this engine.
    ///
    /// # Errors
    ///
    /// `Memory`.
    pub fn create_cache(&self) -> Result<Cache, MatchError>
        ensures made { IfOk result (IsHybridCacheOf self.now) }
        ensures refused { IfErr result (λ error. error ≡ MatchError.Memory) }
    {
        Cache::new(self.compiled.program().allocator(), self)
    }
}

/// What searches with an engine keep between searches: the states that they reached, forward and
/// backward. It can be used with the engine that it was made or reset for, also after an error.
/// Contracts see both.
#[derive(Debug)]
pub struct Cache {
    states: states::Cache,
    back: BackCache,
}

// Written out, so that crates above needn't prove how the fields are dropped.
impl Drop for Cache {
    fn drop(self) {
        let Cache {
            states: _states,
            back: _back,
        } = self;
    }
}

impl Model for Cache {
    ghost use Rattle.rx_dfa.specs.Hybrid.{HybridCacheView};

    ghost Value = { HybridCacheView };

    ghost view = { λ c. record { states = c.states; back = c.back } };
}

impl Cache {
    /// Returns a cache for searches with an engine, as `create_cache` does.
    ///
    /// # Errors
    ///
    /// `Memory`.
    pub fn new(alloc: Global, re: &Regex) -> Result<Cache, MatchError>
        ensures made { IfOk result (IsHybridCacheOf re.now) }
        ensures refused { IfErr result (λ error. error ≡ MatchError.Memory) }
    {
        Ok(Cache {
            states: states::Cache::new(alloc, re.compiled.program(), &re.dfa)?,
            back: BackCache::new(alloc, &re.reverse, &re.back)?,
        })
    }

    /// Returns a copy with all known states, which takes as much memory as these.
    ///
    /// # Errors
    ///
    /// `Memory`.
    pub fn clone(&self) -> Result<Cache, MatchError>
        ensures same { IfOk result (λ cache. cache ≡ self.now) }
        ensures refused { IfErr result (λ error. error ≡ MatchError.Memory) }
    {
        Ok(Cache {
            states: self.states.clone()?,
            back: self.back.clone()?,
        })
    }

    /// Makes the cache one for searches with this engine.
    ///
    /// # Errors
    ///
    /// `Memory`; the cache is unchanged then.
    pub fn reset(&mut self, re: &Regex) -> Result<(), MatchError>
        ensures made { OnOk result (IsHybridCacheOf re.now self.new) }
        ensures kept { OnErr result (self.new ≡ self.old) }
        ensures refused { IfErr result (λ error. error ≡ MatchError.Memory) }
    {
        let back = BackCache::new(re.compiled.program().allocator(), &re.reverse, &re.back)?;
        self.states.reset(re.compiled.program(), &re.dfa)?;
        self.back = back;
        Ok(())
    }

    /// Returns the approximate number of bytes of the states, forward and backward: their nodes,
    /// their rows of the tables, and other data of each. If there are more than two states of one
    /// direction, these take at most the capacity.
    pub fn memory_usage(&self) -> usize
        ensures { result ≡ counted (self.now.states.used + self.now.back.states.used) }
    {
        self.states
            .memory_usage()
            .saturating_add(self.back.memory_usage())
    }
}

/// Searches forward: returns the pattern and the end of the match that is found.
///
/// Errors and complexity are those of the crate's `try_search_fwd` (`dfa`: the program contains
/// `\b` or `\B` if a byte makes it quit).
///
/// # Requires
///
/// The cache is for this engine, for which it remains one, also after an error: it has at most two
/// states, or as many as the capacity has room for.
pub fn try_search_fwd<C: Cursor>(
    re: &Regex,
    cache: &mut Cache,
    input: &mut Input<C>,
) -> Result<Option<HalfMatch>, MatchError>
    requires made { IsHybridCacheOf re.now cache.old }
    ensures answer { IfOk result (IsHalfAnswer re.now.engine.program
        (search_of re.now.engine.utf8_empty input.old)) }
    ensures made { IsHybridCacheOf re.now cache.new }
    ensures same { IsSameContent input.old.cursor input.new.cursor }
    ensures asked { input.new.asked ≡ input.old.asked }
    ensures refused { IfErr result (IsRefusal re.now.dfa.asked
        (search_of re.now.engine.utf8_empty input.old)) }
    ensures late { IfErr result (GivesUpLate cache.new.states) }
    ensures dfa { IsAlphabetOf re.now.engine.program re.now.dfa }
{
    search::try_search_fwd(re.compiled.program(), &re.dfa, &mut cache.states, input)
}

/// Searches backward on an anchored input. Of the matches that end at the end of the span, or of
/// the haystack if that is less, and are inside span and slice, returns the least start with the
/// least pattern for it; with `Anchored::Pattern`, only matches of that pattern count.
///
/// # Requires
///
/// The cache is for this engine, for which it remains one, also after an error.
///
/// # Errors
///
/// `UnsupportedAnchored` if the input isn't anchored; `Memory`.
///
/// # Complexity
///
/// Reads down to the span's start, or until no match can start any more: a table lookup for each
/// byte whose step is known. If the automaton would quit or give up, threads are followed instead.
pub fn try_search_rev<C: Cursor>(
    re: &Regex,
    cache: &mut Cache,
    input: &mut Input<C>,
) -> Result<Option<HalfMatch>, MatchError>
    requires made { IsHybridCacheOf re.now cache.old }
    ensures answer { IfOk result (IsHalfAnswerBack re.now.engine.program
        (search_of re.now.engine.utf8_empty input.old)) }
    ensures anchored { OnOk result (IsTrue (is_anchored (anchoring_of input.old.asked.anchored))) }
    ensures made { IsHybridCacheOf re.now cache.new }
    ensures states { cache.new.states ≡ cache.old.states }
    ensures same { IsSameContent input.old.cursor input.new.cursor }
    ensures asked { input.new.asked ≡ input.old.asked }
    ensures refused { IfErr result (IsRefusalBack
        (search_of re.now.engine.utf8_empty input.old)) }
{
    search_back(
        &re.reverse,
        &re.back,
        &mut cache.back,
        input,
        re.compiled.utf8_empty(),
    )
}
