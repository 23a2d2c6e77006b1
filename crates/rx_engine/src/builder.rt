//! Building what an engine holds of patterns.

ghost use Rattle.std.specs.Prelude.{◌≡◌, ◌<◌, [], ◌∷◌, IfOk, IfErr, Some, length, map, slice_get};
ghost use Rattle.std.specs.Str.{chars};
ghost use Rattle.rx_util.specs.declared.search.MatchError.{MatchError};
ghost use Rattle.rx_grammar.specs.Grammar.{Spells};
ghost use Rattle.rx_grammar.specs.Settings.{default_settings};
ghost use Rattle.rx_grammar.specs.Postorder.{tree_of};
ghost use Rattle.rx_engine.specs.Engines.{AreRefused, EngineSettings, IsBuiltOf, IsBuiltOfAll, IsBuiltOfTrees, IsRefused, IsRefusedAt, IsRefusedOfAll, Spell, nothing_set, refusal_of, settings_over};

use crate::compiled::Compiled;
use crate::config::Config;
use crate::groups::{count_groups, groups_of, static_captures_len};
use rx_grammar::{Hir, SyntaxError, parse, syntax};
use rx_program::{BuildError, Program, compile};
use rx_util::{MatchError, PatternID};
use std::alloc::{AllocError, Global};
use std::marker::Model;
use std::rc::Rc;

/// Builds what an engine holds of patterns.
#[derive(Debug, Drop)]
pub struct Builder {
    config: Config,
    syntax: syntax::Config,
}

impl Model for Builder {
    ghost use Rattle.rx_engine.specs.Engines.{Wanted};

    ghost Value = { Wanted };

    ghost view = { λ b. record { settings = b.config; syntax = b.syntax } };
}

impl Builder {
    /// Returns a builder with default settings.
    pub fn new() -> Builder
        ensures { result ≡ record { settings = nothing_set; syntax = default_settings } }
    {
        Builder {
            config: Config::new(),
            syntax: syntax::Config::new(),
        }
    }

    /// Returns a copy.
    ///
    /// # Errors
    ///
    /// `Memory`.
    pub fn clone(&self) -> Result<Builder, MatchError>
        ensures same { IfOk result (λ builder. builder ≡ self.now) }
        ensures refused { IfErr result (λ error. error ≡ MatchError.Memory) }
    {
        Ok(Builder {
            config: self.config.clone()?,
            syntax: self.syntax.clone()?,
        })
    }

    /// Sets the settings that are set in `config`, and keeps the others.
    pub fn configure(&mut self, config: Config) -> &mut Builder
        ensures set { result.now ≡ record self.old {
          settings = settings_over config self.old.settings;
        } }
        ensures same_reference { result.ghost_name ≡ self.entry.ghost_name }
    {
        self.config = config.or(&self.config);
        self
    }

    /// Replaces all settings of the syntax.
    pub fn syntax(&mut self, config: syntax::Config) -> &mut Builder
        ensures set { result.now ≡ record self.old { syntax = config } }
        ensures same_reference { result.ghost_name ≡ self.entry.ghost_name }
    {
        self.syntax = config;
        self
    }

    /// Builds what an engine holds of a pattern.
    ///
    /// # Errors
    ///
    /// - `TooLong` for a pattern of more than 65,536 bytes
    /// - `Nesting` for a text that is a pattern only with a greater nest limit
    /// - `Outside` for a text outside the grammar
    /// - `Size` for a pattern that exceeds the size limit, or, without one, a weight of
    ///   2,147,483,646
    /// - `Memory`, which may replace any result
    ///
    /// # Complexity
    ///
    /// Time and memory proportional to the pattern's weight and to the automata of its sets.
    pub fn build(&self, alloc: Global, pattern: &str) -> Result<Compiled, BuildError>
        ensures built { IfOk result (λ compiled. IsBuiltOf pattern.now self.now compiled) }
        ensures refused { IfErr result (λ error. IsRefused pattern.now self.now error) }
    {
        self.build_many(alloc, &[pattern])
    }

    /// Builds what an engine holds of patterns that are searched for together. If matches of
    /// several start at the same offset, the earliest pattern is preferred. Without a pattern there
    /// is never a match.
    ///
    /// # Errors
    ///
    /// Those of [`build`](Self::build), for the first pattern that is refused; then `Size` if the
    /// patterns together, plus 1 unless there is exactly one, weigh too much.
    ///
    /// # Complexity
    ///
    /// As for `build`, over all patterns.
    pub fn build_many(&self, alloc: Global, patterns: &[&str]) -> Result<Compiled, BuildError>
        ensures built { IfOk result (λ compiled.
            IsBuiltOfAll (map (λ text. text.now) patterns.now) self.now compiled) }
        ensures refused { IfErr result (λ error.
            IsRefusedOfAll (map (λ text. text.now) patterns.now) self.now error) }
    {
        let hirs = spelled(alloc, patterns, &self.syntax)?;
        let borrowed = borrowed(alloc, &hirs)?;
        self.build_many_from_hir(alloc, &borrowed)
    }

    /// Builds from a syntax tree, as [`build`](Self::build) does from a pattern. The settings of
    /// the syntax are those with which it was parsed.
    ///
    /// # Errors
    ///
    /// `Size` if it is too large; `Memory`.
    pub fn build_from_hir(&self, alloc: Global, hir: &Hir) -> Result<Compiled, BuildError>
        ensures built { IfOk result (λ compiled.
            IsBuiltOfTrees (tree_of hir.now ∷ []) self.now.settings compiled) }
        ensures refused { IfErr result (λ error.
            AreRefused (tree_of hir.now ∷ []) self.now.settings error) }
    {
        self.build_many_from_hir(alloc, &[hir])
    }

    /// Builds from syntax trees, as [`build_many`](Self::build_many) does from patterns.
    ///
    /// # Errors
    ///
    /// Those of [`build_from_hir`](Self::build_from_hir).
    pub fn build_many_from_hir(&self, alloc: Global, hirs: &[&Hir]) -> Result<Compiled, BuildError>
        ensures built { IfOk result (λ compiled. IsBuiltOfTrees
            (map (λ hir. tree_of hir.now) hirs.now) self.now.settings compiled) }
        ensures refused { IfErr result (λ error. AreRefused
            (map (λ hir. tree_of hir.now) hirs.now) self.now.settings error) }
    {
        let which_captures = self.config.get_which_captures();
        let groups = groups_of(alloc, hirs, which_captures)?;
        let Some(captures_len) = count_groups(hirs) else {
            return Err(BuildError::Memory);
        };
        let terminator = self.config.get_line_terminator();
        let limit = self.config.get_nfa_size_limit();
        let program = compile(alloc, hirs, terminator, limit)?;
        Ok(Compiled {
            program: shared(alloc, program)?,
            match_kind: self.config.get_match_kind(),
            groups,
            which_captures,
            captures_len,
            static_captures_len: static_captures_len(hirs),
            utf8_empty: self.config.get_utf8_empty(),
        })
    }
}

/// Returns the error of building, given the error of parsing the pattern with this number.
fn refusal(number: usize, error: SyntaxError) -> BuildError
    ensures { result ≡ refusal_of number error }
{
    match error {
        SyntaxError::Memory => BuildError::Memory,
        _ => BuildError::Syntax {
            pattern: PatternID::new(number),
            error,
        },
    }
}

/// Parses the pattern with this number.
fn tree(
    alloc: Global,
    number: usize,
    pattern: &str,
    settings: &syntax::Config,
) -> Result<Hir, BuildError>
    ensures spells { IfOk result (λ hir. Spells (chars pattern.now) settings.now (tree_of hir)) }
    ensures refused { IfErr result (λ error. IsRefusedAt number pattern.now settings.now error) }
{
    match parse(alloc, pattern, settings) {
        Ok(hir) => Ok(hir),
        Err(error) => Err(refusal(number, error)),
    }
}

/// Returns the text of the pattern with this number.
fn text_at<'p>(patterns: &[&'p str], number: usize) -> &'p str
    requires { number < length patterns.now }
    ensures { slice_get (map (λ text. text.now) patterns.now) number ≡ Some result.now }
{
    patterns[number]
}

/// Parses patterns with these settings. Its errors are those of building with any settings of the
/// engine.
pub fn spelled(
    alloc: Global,
    patterns: &[&str],
    settings: &syntax::Config,
) -> Result<Vec<Hir>, BuildError>
    ensures spell { IfOk result (λ hirs.
        Spell (map (λ text. text.now) patterns.now) settings.now (map tree_of hirs.items)) }
    ensures refused { IfErr result (λ error. (limits : EngineSettings)
        → IsRefusedOfAll (map (λ text. text.now) patterns.now)
        (record { settings = limits; syntax = settings.now }) error) }
{
    let mut hirs = Vec::with_capacity(alloc, patterns.len())?;
    for number in 0..patterns.len() {
        let hir = tree(alloc, number, text_at(patterns, number), settings)?;
        let Ok(()) = hirs.push(hir) else {
            return Err(BuildError::Memory);
        };
    }
    Ok(hirs)
}

/// Returns a reference to each tree.
pub fn borrowed<'h>(alloc: Global, hirs: &'h [Hir]) -> Result<Vec<&'h Hir>, AllocError>
    ensures { IfOk result (λ borrowed.
        map (λ hir. tree_of hir.now) borrowed.items ≡ map tree_of hirs.now) }
{
    let mut borrowed = Vec::with_capacity(alloc, hirs.len())?;
    for hir in hirs {
        borrowed.push(hir)?;
    }
    Ok(borrowed)
}

/// Returns a program that clones share.
fn shared(alloc: Global, program: Program) -> Result<Rc<Program>, AllocError>
    ensures { IfOk result (λ rc. rc.value ≡ program) }
{
    Ok(Rc::new(alloc, program)?)
}
