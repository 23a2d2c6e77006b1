//! Settings of a PikeVM.

ghost use Rattle.std.specs.Prelude.{◌≡◌, IfErr, IfOk, Some, option_map, unwrap_or, true};
ghost use Rattle.rx_util.specs.declared.search.MatchError.{MatchError};
ghost use Rattle.rx_util.specs.declared.search.MatchKind.{MatchKind};
ghost use Rattle.rx_util.specs.declared.captures.WhichCaptures.{WhichCaptures};
ghost use Rattle.rx_chunk.specs.Configs.{none_set, prefilter_of};
ghost use Rattle.rx_chunk.specs.Engines.{size_limit_of};

use rx_literals::Prefilter;
use rx_util::{MatchError, MatchKind, WhichCaptures};
use std::marker::Model;

/// Settings of a PikeVM. A setting that isn't set has its default. Contracts see the settings of
/// its engine, and the literals of the prefilter.
#[derive(Debug, Drop)]
pub struct Config {
    engine: rx_engine::Config,
    prefilter: Option<Option<Prefilter>>,
}

impl Model for Config {
    ghost use Rattle.rx_chunk.specs.Configs.{PikeSettings};

    ghost Value = { PikeSettings };

    ghost view = { λ c. record { engine = c.engine; prefilter = c.prefilter } };
}

impl Config {
    /// Returns settings with none set.
    pub fn new() -> Config
        ensures { result ≡ none_set }
    {
        Config {
            engine: rx_engine::Config::new(),
            prefilter: None,
        }
    }

    /// Returns a copy.
    ///
    /// # Errors
    ///
    /// `Memory`.
    pub fn clone(&self) -> Result<Config, MatchError>
        ensures same { IfOk result (λ config. config ≡ self.now) }
        ensures refused { IfErr result (λ error. error ≡ MatchError.Memory) }
    {
        Ok(Config {
            engine: self.engine.clone()?,
            prefilter: cloned(&self.prefilter)?,
        })
    }

    /// Sets which of all matches a search reports.
    pub fn match_kind(mut self, kind: MatchKind) -> Config
        ensures { result ≡ record self { engine = record self.engine { match_kind = Some kind } } }
    {
        self.engine = self.engine.match_kind(kind);
        self
    }

    /// Sets a prefilter, or none. It is only stored: a PikeVM uses none, so its builder drops it.
    /// No result depends on it.
    pub fn prefilter(mut self, prefilter: Option<Prefilter>) -> Config
        ensures { result ≡ record self { prefilter = Some prefilter } }
    {
        self.prefilter = Some(prefilter);
        self
    }

    /// Sets whether empty matches inside a character are skipped.
    pub fn utf8_empty(mut self, yes: bool) -> Config
        ensures { result ≡ record self { engine = record self.engine { utf8_empty = Some yes } } }
    {
        self.engine = self.engine.utf8_empty(yes);
        self
    }

    /// Sets the byte that ends lines for `^` and `$` with `(?m)`. For `.` it is a setting of the
    /// syntax.
    pub fn line_terminator(mut self, byte: u8) -> Config
        ensures { result ≡ record self {
          engine = record self.engine { line_terminator = Some byte };
        } }
    {
        self.engine = self.engine.line_terminator(byte);
        self
    }

    /// Sets the size limit of programs: a pattern is refused if 40 times its weight exceeds it.
    /// Without a limit, the weight may be at most 2,147,483,646.
    pub fn nfa_size_limit(mut self, limit: Option<usize>) -> Config
        ensures { result ≡ record self {
          engine = record self.engine { nfa_size_limit = Some limit };
        } }
    {
        self.engine = self.engine.nfa_size_limit(limit);
        self
    }

    /// Sets which groups are captured: all, or for `Implicit` and `None` only group 0 of each
    /// pattern.
    ///
    /// The weight of a pattern is the same. A search writes as many slots as it is given; slots
    /// past those of the captured groups have no meaning.
    pub fn which_captures(mut self, which: WhichCaptures) -> Config
        ensures { result ≡ record self {
          engine = record self.engine { which_captures = Some which };
        } }
    {
        self.engine = self.engine.which_captures(which);
        self
    }

    /// Returns which of all matches a search reports, by default the leftmost.
    pub fn get_match_kind(&self) -> MatchKind
        ensures { result ≡ unwrap_or self.now.engine.match_kind MatchKind.LeftmostFirst }
    {
        self.engine.get_match_kind()
    }

    /// Returns the prefilter, by default none.
    pub fn get_prefilter(&self) -> Option<&Prefilter>
        ensures { option_map (λ prefilter. prefilter.now) result ≡ prefilter_of self.now }
    {
        match &self.prefilter {
            Some(Some(prefilter)) => Some(prefilter),
            _ => None,
        }
    }

    /// Returns whether empty matches inside a character are skipped, by default true.
    pub fn get_utf8_empty(&self) -> bool
        ensures { result ≡ unwrap_or self.now.engine.utf8_empty true }
    {
        self.engine.get_utf8_empty()
    }

    /// Returns the byte that ends lines for `^` and `$` with `(?m)`, by default LF.
    pub fn get_line_terminator(&self) -> u8
        ensures { result ≡ unwrap_or self.now.engine.line_terminator 10 }
    {
        self.engine.get_line_terminator()
    }

    /// Returns the size limit of programs, by default none.
    pub fn get_nfa_size_limit(&self) -> Option<usize>
        ensures { result ≡ size_limit_of self.now.engine }
    {
        self.engine.get_nfa_size_limit()
    }

    /// Returns which groups are captured, by default all.
    pub fn get_which_captures(&self) -> WhichCaptures
        ensures { result ≡ unwrap_or self.now.engine.which_captures WhichCaptures.All }
    {
        self.engine.get_which_captures()
    }

    /// Returns the settings of the engine.
    pub(super) fn of_engine(self) -> rx_engine::Config
        ensures { result ≡ self.engine }
    {
        self.engine
    }
}

/// Returns a copy of a prefilter.
fn cloned(prefilter: &Option<Option<Prefilter>>) -> Result<Option<Option<Prefilter>>, MatchError>
    ensures same { IfOk result (λ copy. copy ≡ prefilter.now) }
    ensures refused { IfErr result (λ error. error ≡ MatchError.Memory) }
{
    match prefilter {
        None => Ok(None),
        Some(None) => Ok(Some(None)),
        Some(Some(prefilter)) => Ok(Some(Some(prefilter.clone()?))),
    }
}

impl Default for Config {
    fn default() -> Config
        ensures { result ≡ none_set }
    {
        Config::new()
    }
}
