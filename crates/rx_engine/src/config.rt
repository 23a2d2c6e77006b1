//! Settings of engines.

ghost use Rattle.std.specs.Prelude.{◌≡◌, IfErr, IfOk, Some, unwrap_or, true};
ghost use Rattle.rx_util.specs.declared.search.MatchError.{MatchError};
ghost use Rattle.rx_util.specs.declared.search.MatchKind.{MatchKind};
ghost use Rattle.rx_util.specs.declared.captures.WhichCaptures.{WhichCaptures};
ghost use Rattle.rx_engine.specs.Engines.{nothing_set, settings_over, size_limit_of};

use rx_util::{MatchError, MatchKind, WhichCaptures};
use std::marker::Model;

/// Settings of an engine. A setting that isn't set has its default.
#[derive(Debug, Drop, PartialEq, Eq)]
pub struct Config {
    match_kind: Option<MatchKind>,
    utf8_empty: Option<bool>,
    line_terminator: Option<u8>,
    nfa_size_limit: Option<Option<usize>>,
    which_captures: Option<WhichCaptures>,
}

impl Model for Config {
    ghost use Rattle.rx_engine.specs.Engines.{EngineSettings};

    ghost Value = { EngineSettings };

    ghost view = { λ c. record {
      match_kind = c.match_kind;
      utf8_empty = c.utf8_empty;
      line_terminator = c.line_terminator;
      nfa_size_limit = c.nfa_size_limit;
      which_captures = c.which_captures;
    } };

    ghost inverse = { λ s. record {
      match_kind = s.match_kind;
      utf8_empty = s.utf8_empty;
      line_terminator = s.line_terminator;
      nfa_size_limit = s.nfa_size_limit;
      which_captures = s.which_captures;
    } };
}

impl Config {
    /// Returns settings with none set.
    pub fn new() -> Config
        ensures { result ≡ nothing_set }
    {
        Config {
            match_kind: None,
            utf8_empty: None,
            line_terminator: None,
            nfa_size_limit: None,
            which_captures: None,
        }
    }

    /// Returns a copy.
    ///
    /// # Errors
    ///
    /// `Memory`.
    pub fn clone(&self) -> Result<Config, MatchError>
        ensures same { IfOk result (λ config. config ≡ self.now) }
        ensures refused { IfErr result (λ error. error ≡ MatchError.Memory) }
    {
        Ok(Config {
            match_kind: self.match_kind,
            utf8_empty: self.utf8_empty,
            line_terminator: self.line_terminator,
            nfa_size_limit: self.nfa_size_limit,
            which_captures: self.which_captures,
        })
    }

    /// Sets which of all matches a search reports.
    pub fn match_kind(mut self, kind: MatchKind) -> Config
        ensures { result ≡ record self { match_kind = Some kind } }
    {
        self.match_kind = Some(kind);
        self
    }

    /// Sets whether empty matches inside a character are skipped.
    pub fn utf8_empty(mut self, yes: bool) -> Config
        ensures { result ≡ record self { utf8_empty = Some yes } }
    {
        self.utf8_empty = Some(yes);
        self
    }

    /// Sets the byte that ends lines for `^` and `$` with `(?m)`. For `.` it is a setting of the
    /// syntax.
    pub fn line_terminator(mut self, byte: u8) -> Config
        ensures { result ≡ record self { line_terminator = Some byte } }
    {
        self.line_terminator = Some(byte);
        self
    }

    /// Sets the size limit of programs: a pattern is refused if 40 times its weight exceeds it.
    /// Without a limit, the weight may be at most 2,147,483,646.
    pub fn nfa_size_limit(mut self, limit: Option<usize>) -> Config
        ensures { result ≡ record self { nfa_size_limit = Some limit } }
    {
        self.nfa_size_limit = Some(limit);
        self
    }

    /// Sets which groups are captured: all, or for `Implicit` and `None` only group 0 of each
    /// pattern.
    ///
    /// The weight of a pattern is the same. A search writes as many slots as it is given; slots
    /// past those of the captured groups have no meaning.
    pub fn which_captures(mut self, which: WhichCaptures) -> Config
        ensures { result ≡ record self { which_captures = Some which } }
    {
        self.which_captures = Some(which);
        self
    }

    /// Returns which of all matches a search reports, by default the leftmost.
    pub fn get_match_kind(&self) -> MatchKind
        ensures { result ≡ unwrap_or self.now.match_kind MatchKind.LeftmostFirst }
    {
        self.match_kind.unwrap_or(MatchKind::LeftmostFirst)
    }

    /// Returns whether empty matches inside a character are skipped, by default true.
    pub fn get_utf8_empty(&self) -> bool
        ensures { result ≡ unwrap_or self.now.utf8_empty true }
    {
        self.utf8_empty.unwrap_or(true)
    }

    /// Returns the byte that ends lines for `^` and `$` with `(?m)`, by default LF.
    pub fn get_line_terminator(&self) -> u8
        ensures { result ≡ unwrap_or self.now.line_terminator 10 }
    {
        self.line_terminator.unwrap_or(b'\n')
    }

    /// Returns the size limit of programs, by default none.
    pub fn get_nfa_size_limit(&self) -> Option<usize>
        ensures { result ≡ size_limit_of self.now }
    {
        self.nfa_size_limit.unwrap_or(None)
    }

    /// Returns which groups are captured, by default all.
    pub fn get_which_captures(&self) -> WhichCaptures
        ensures { result ≡ unwrap_or self.now.which_captures WhichCaptures.All }
    {
        self.which_captures.unwrap_or(WhichCaptures::All)
    }

    /// Returns these settings, with those of `others` where they aren't set.
    pub(crate) fn or(&self, others: &Config) -> Config
        ensures { result ≡ settings_over self.now others.now }
    {
        Config {
            match_kind: self.match_kind.or(others.match_kind),
            utf8_empty: self.utf8_empty.or(others.utf8_empty),
            line_terminator: self.line_terminator.or(others.line_terminator),
            nfa_size_limit: self.nfa_size_limit.or(others.nfa_size_limit),
            which_captures: self.which_captures.or(others.which_captures),
        }
    }
}

impl Default for Config {
    fn default() -> Config
        ensures { result ≡ nothing_set }
    {
        Config::new()
    }
}
