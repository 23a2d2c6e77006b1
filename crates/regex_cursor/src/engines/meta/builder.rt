//! Builds regexes.

ghost use Rattle.std.specs.Prelude.{◌≡◌, [], ◌∷◌, IfErr, IfOk, map};
ghost use Rattle.rx_util.specs.declared.search.MatchError.{MatchError};
ghost use Rattle.rx_program.specs.declared.error.BuildError.{BuildError};
ghost use Rattle.rx_grammar.specs.Postorder.{tree_of};
ghost use Rattle.regex_cursor.specs.Configs.{default_regex, engine_settings, regex_settings_over};
ghost use Rattle.regex_cursor.specs.Regexes.{AreRefusedUnder, IsRefusedUnder, IsRegexOfAllUnder, IsRegexOfTrees, IsRegexUnder, TreesAreRefused};

use super::config::Config;
use super::regex::Regex;
use super::strategy::Strategy;
use rx_chunk::pikevm::{self, PikeVM};
use rx_engine::{borrowed, spelled};
use rx_grammar::{Hir, syntax};
use rx_program::BuildError;
use rx_util::MatchError;
use std::alloc::Global;
use std::marker::Model;

/// Builds a `Regex` from a pattern, or from several, with settings.
#[derive(Debug, Drop)]
pub struct Builder {
    config: Config,
    syntax: syntax::Config,
}

impl Model for Builder {
    ghost use Rattle.regex_cursor.specs.Configs.{RegexWanted};

    ghost Value = { RegexWanted };

    ghost view = { λ b. record { settings = b.config; syntax = b.syntax } };
}

impl Builder {
    /// Returns a builder with default settings.
    pub fn new() -> Builder
        ensures { result ≡ default_regex }
    {
        Builder {
            config: Config::new(),
            syntax: syntax::Config::new(),
        }
    }

    /// Returns a builder with the same settings. The only error is `Memory`.
    pub fn clone(&self) -> Result<Builder, MatchError>
        ensures same { IfOk result (λ builder. builder ≡ self.now) }
        ensures refused { IfErr result (λ error. error ≡ MatchError.Memory) }
    {
        Ok(Builder {
            config: self.config.clone()?,
            syntax: self.syntax.clone()?,
        })
    }

    /// Builds the regex of a pattern.
    ///
    /// # Errors
    ///
    /// - `TooLong` for a pattern of more than 65,536 bytes
    /// - `Nesting` for a text that is a pattern only with a greater nest limit
    /// - `Outside` for a text outside the grammar
    /// - `Size` for a pattern that exceeds the size limit, which by default is a weight of 262,144
    /// - `Memory`, which may replace any result
    ///
    /// # Complexity
    ///
    /// Time and memory proportional to the pattern's weight and to the automata of its sets.
    pub fn build(&self, alloc: Global, pattern: &str) -> Result<Regex, BuildError>
        ensures built { IfOk result (λ re. IsRegexUnder pattern.now self.now re) }
        ensures refused { IfErr result (λ error. IsRefusedUnder pattern.now self.now error) }
    {
        self.build_many(alloc, &[pattern])
    }

    /// Builds the regex of patterns that are searched for together. If matches of several start at
    /// the same offset, those of an earlier pattern are preferred. Without a pattern it never finds
    /// a match.
    ///
    /// # Errors
    ///
    /// Those of `build`, for the first pattern whose text is refused; then `Size` if the patterns
    /// together, plus 1 unless there is exactly one, weigh too much.
    ///
    /// # Complexity
    ///
    /// Time and memory as for all patterns.
    pub fn build_many(&self, alloc: Global, patterns: &[&str]) -> Result<Regex, BuildError>
        ensures built { IfOk result
            (λ re. IsRegexOfAllUnder (map (λ text. text.now) patterns.now) self.now re) }
        ensures refused { IfErr result
            (λ error. AreRefusedUnder (map (λ text. text.now) patterns.now) self.now error) }
    {
        let hirs = spelled(alloc, patterns, &self.syntax)?;
        let borrowed = borrowed(alloc, &hirs)?;
        self.build_many_from_hir(alloc, &borrowed)
    }

    /// Builds the regex of a parsed pattern, as `build` does, with the syntax settings that it was
    /// parsed with.
    ///
    /// # Errors
    ///
    /// `Size` if it is too large; `Memory`.
    pub fn build_from_hir(&self, alloc: Global, hir: &Hir) -> Result<Regex, BuildError>
        ensures built { IfOk result
            (λ re. IsRegexOfTrees (tree_of hir.now ∷ []) self.now.settings re) }
        ensures refused { IfErr result
            (λ error. TreesAreRefused (tree_of hir.now ∷ []) self.now.settings error) }
    {
        self.build_many_from_hir(alloc, &[hir])
    }

    /// Builds the regex of parsed patterns, as `build_many` does, with the errors of
    /// `build_from_hir`.
    pub fn build_many_from_hir(&self, alloc: Global, hirs: &[&Hir]) -> Result<Regex, BuildError>
        ensures built { IfOk result (λ re. IsRegexOfTrees
            (map (λ hir. tree_of hir.now) hirs.now) self.now.settings re) }
        ensures refused { IfErr result (λ error. TreesAreRefused
            (map (λ hir. tree_of hir.now) hirs.now) self.now.settings error) }
    {
        let vm = self.engine().build_many_from_hir(alloc, hirs)?;
        self.regex_of(alloc, vm)
    }

    /// Sets the settings that are set in `config`, and keeps the others.
    pub fn configure(&mut self, config: Config) -> &mut Builder
        ensures set { result.now ≡ record self.old {
          settings = regex_settings_over config self.old.settings;
        } }
        ensures same_reference { result.ghost_name ≡ self.entry.ghost_name }
    {
        self.config.take_over(config);
        self
    }

    /// Replaces all settings of the syntax.
    pub fn syntax(&mut self, config: syntax::Config) -> &mut Builder
        ensures set { result.now ≡ record self.old { syntax = config } }
        ensures same_reference { result.ghost_name ≡ self.entry.ghost_name }
    {
        self.syntax = config;
        self
    }

    /// Returns the builder of the engine for any search. It is used with parsed patterns.
    fn engine(&self) -> pikevm::Builder
        ensures { result.settings ≡ engine_settings self.now.settings }
    {
        let mut builder = pikevm::Builder::new();
        builder.configure(self.config.of_engine());
        builder
    }

    /// Returns the regex of a PikeVM, with the other engines for its program.
    fn regex_of(&self, alloc: Global, vm: PikeVM) -> Result<Regex, BuildError>
        ensures engine { IfOk result (λ re. re.engine ≡ vm) }
        ensures settings { IfOk result (λ re. re.settings ≡ self.now.settings) }
        ensures refused { IfErr result (λ error. error ≡ BuildError.Memory) }
    {
        let Ok(config) = self.config.clone() else {
            return Err(BuildError::Memory);
        };
        let strategy = Strategy::new(alloc, vm, config)?;
        Ok(Regex::over(alloc, strategy)?)
    }
}
