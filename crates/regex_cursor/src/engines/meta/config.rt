//! The settings of a regex.

ghost use Rattle.std.specs.Prelude.{◌≡◌, IfErr, IfOk, None, Some, option_map, unwrap_or, true};
ghost use Rattle.rx_util.specs.declared.search.MatchError.{MatchError};
ghost use Rattle.regex_cursor.specs.Configs.{auto_prefilter_of, capacity_of, dfa_of, dfa_size_limit_of, dfa_state_limit_of, engine_settings, hybrid_of, line_terminator_of, match_kind_of, nfa_size_limit_of, none_set, prefilter_of, regex_settings_over, utf8_empty_of, which_captures_of};

use rx_chunk::pikevm;
use rx_dfa::CACHE_CAPACITY;
use rx_literals::Prefilter;
use rx_util::{MatchError, MatchKind, WhichCaptures};
use std::marker::Model;

/// The default limit on the size of a program: 40 times its weight is at most this, so patterns may
/// have a weight of 262,144.
const NFA_SIZE_LIMIT: usize = 10_485_760;

/// The default limit on the number of states of a program, and of an automaton, for making all its
/// states with the regex.
const DFA_STATE_LIMIT: usize = 30;

/// The default limit on the approximate number of bytes of these states.
const DFA_SIZE_LIMIT: usize = 40_960;

/// The settings of a regex. One that wasn't set has its default.
#[derive(Debug, Drop)]
pub struct Config {
    match_kind: Option<MatchKind>,
    utf8_empty: Option<bool>,
    auto_prefilter: Option<bool>,
    prefilter: Option<Option<Prefilter>>,
    which_captures: Option<WhichCaptures>,
    nfa_size_limit: Option<Option<usize>>,
    onepass_size_limit: Option<Option<usize>>,
    hybrid_cache_capacity: Option<usize>,
    hybrid: Option<bool>,
    dfa: Option<bool>,
    dfa_size_limit: Option<Option<usize>>,
    dfa_state_limit: Option<Option<usize>>,
    backtrack: Option<bool>,
    byte_classes: Option<bool>,
    line_terminator: Option<u8>,
}

impl Model for Config {
    ghost use Rattle.regex_cursor.specs.Configs.{RegexSettings};

    ghost Value = { RegexSettings };

    ghost view = { λ c. record {
      match_kind = c.match_kind;
      utf8_empty = c.utf8_empty;
      auto_prefilter = c.auto_prefilter;
      prefilter = c.prefilter;
      which_captures = c.which_captures;
      nfa_size_limit = c.nfa_size_limit;
      onepass_size_limit = c.onepass_size_limit;
      hybrid_cache_capacity = c.hybrid_cache_capacity;
      hybrid = c.hybrid;
      dfa = c.dfa;
      dfa_size_limit = c.dfa_size_limit;
      dfa_state_limit = c.dfa_state_limit;
      backtrack = c.backtrack;
      byte_classes = c.byte_classes;
      line_terminator = c.line_terminator;
    } };
}

impl Config {
    /// Returns settings with none set.
    pub fn new() -> Config
        ensures { result ≡ none_set }
    {
        Config {
            match_kind: None,
            utf8_empty: None,
            auto_prefilter: None,
            prefilter: None,
            which_captures: None,
            nfa_size_limit: None,
            onepass_size_limit: None,
            hybrid_cache_capacity: None,
            hybrid: None,
            dfa: None,
            dfa_size_limit: None,
            dfa_state_limit: None,
            backtrack: None,
            byte_classes: None,
            line_terminator: None,
        }
    }

    /// Returns the same settings. The only error is `Memory`.
    pub fn clone(&self) -> Result<Config, MatchError>
        ensures same { IfOk result (λ config. config ≡ self.now) }
        ensures refused { IfErr result (λ error. error ≡ MatchError.Memory) }
    {
        Ok(Config {
            match_kind: self.match_kind,
            utf8_empty: self.utf8_empty,
            auto_prefilter: self.auto_prefilter,
            prefilter: cloned(&self.prefilter)?,
            which_captures: self.which_captures,
            nfa_size_limit: self.nfa_size_limit,
            onepass_size_limit: self.onepass_size_limit,
            hybrid_cache_capacity: self.hybrid_cache_capacity,
            hybrid: self.hybrid,
            dfa: self.dfa,
            dfa_size_limit: self.dfa_size_limit,
            dfa_state_limit: self.dfa_state_limit,
            backtrack: self.backtrack,
            byte_classes: self.byte_classes,
            line_terminator: self.line_terminator,
        })
    }

    /// Sets which of all matches a search finds. Under `All` only the PikeVM searches, and reads
    /// all of the span unless the search is anchored or any match may be returned; and the only
    /// group that is stored is the whole match.
    pub fn match_kind(mut self, kind: MatchKind) -> Config
        ensures { result ≡ record self { match_kind = Some kind } }
    {
        self.match_kind = Some(kind);
        self
    }

    /// Sets whether empty matches inside a character are skipped.
    pub fn utf8_empty(mut self, yes: bool) -> Config
        ensures { result ≡ record self { utf8_empty = Some yes } }
    {
        self.utf8_empty = Some(yes);
        self
    }

    /// Sets whether the literals that matches begin with are extracted from the patterns and
    /// scanned for before an engine runs. It changes no match.
    pub fn auto_prefilter(mut self, yes: bool) -> Config
        ensures { result ≡ record self { auto_prefilter = Some yes } }
    {
        self.auto_prefilter = Some(yes);
        self
    }

    /// Sets the caller's literals, or none. They are scanned for before an engine runs, instead of
    /// those extracted from the patterns, if the patterns alone show that each match begins with
    /// one of them; otherwise they are only stored. It changes no match.
    pub fn prefilter(mut self, prefilter: Option<Prefilter>) -> Config
        ensures { result ≡ record self { prefilter = Some prefilter } }
    {
        self.prefilter = Some(prefilter);
        self
    }

    /// Sets which groups are stored, in captures and by `group_info`. `captures_len` counts the
    /// others too.
    pub fn which_captures(mut self, which: WhichCaptures) -> Config
        ensures { result ≡ record self { which_captures = Some which } }
    {
        self.which_captures = Some(which);
        self
    }

    /// Sets the limit on the size of the program: patterns are refused if 40 times their weight is
    /// above it. Without one they are refused if the weight is above 2,147,483,646.
    pub fn nfa_size_limit(mut self, limit: Option<usize>) -> Config
        ensures { result ≡ record self { nfa_size_limit = Some limit } }
    {
        self.nfa_size_limit = Some(limit);
        self
    }

    /// Sets a limit for an engine that doesn't exist: it has no effect.
    pub fn onepass_size_limit(mut self, limit: Option<usize>) -> Config
        ensures { result ≡ record self { onepass_size_limit = Some limit } }
    {
        self.onepass_size_limit = Some(limit);
        self
    }

    /// Sets the approximate maximum number of bytes of the states that a cache keeps. It changes no
    /// match.
    pub fn hybrid_cache_capacity(mut self, capacity: usize) -> Config
        ensures { result ≡ record self { hybrid_cache_capacity = Some capacity } }
    {
        self.hybrid_cache_capacity = Some(capacity);
        self
    }

    /// Sets the approximate maximum number of bytes of all states of an automaton that is made with
    /// the regex. It changes no match.
    pub fn dfa_size_limit(mut self, limit: Option<usize>) -> Config
        ensures { result ≡ record self { dfa_size_limit = Some limit } }
    {
        self.dfa_size_limit = Some(limit);
        self
    }

    /// Sets the maximum number of states of an automaton that is made with the regex, and of its
    /// program. It changes no match.
    pub fn dfa_state_limit(mut self, limit: Option<usize>) -> Config
        ensures { result ≡ record self { dfa_state_limit = Some limit } }
    {
        self.dfa_state_limit = Some(limit);
        self
    }

    /// Sets whether bytes that no pattern distinguishes share a column of a table. They always do:
    /// it has no effect.
    pub fn byte_classes(mut self, yes: bool) -> Config
        ensures { result ≡ record self { byte_classes = Some yes } }
    {
        self.byte_classes = Some(yes);
        self
    }

    /// Sets the byte at which lines end for `^` and `$` under `(?m)`. The one that `.` doesn't
    /// match is a setting of the syntax.
    pub fn line_terminator(mut self, byte: u8) -> Config
        ensures { result ≡ record self { line_terminator = Some byte } }
    {
        self.line_terminator = Some(byte);
        self
    }

    /// Sets whether to use the automaton whose states are made on demand. It changes no match.
    pub fn hybrid(mut self, yes: bool) -> Config
        ensures { result ≡ record self { hybrid = Some yes } }
    {
        self.hybrid = Some(yes);
        self
    }

    /// Sets whether all states of an automaton are made with the regex, if they are few. It changes
    /// no match.
    pub fn dfa(mut self, yes: bool) -> Config
        ensures { result ≡ record self { dfa = Some yes } }
    {
        self.dfa = Some(yes);
        self
    }

    /// Sets whether to use an engine that doesn't exist: it has no effect.
    pub fn backtrack(mut self, yes: bool) -> Config
        ensures { result ≡ record self { backtrack = Some yes } }
    {
        self.backtrack = Some(yes);
        self
    }

    /// Returns which of all matches a search finds: by default the leftmost one.
    pub fn get_match_kind(&self) -> MatchKind
        ensures { result ≡ match_kind_of self.now }
    {
        self.match_kind.unwrap_or(MatchKind::LeftmostFirst)
    }

    /// Returns whether empty matches inside a character are skipped: by default they are.
    pub fn get_utf8_empty(&self) -> bool
        ensures { result ≡ utf8_empty_of self.now }
    {
        self.utf8_empty.unwrap_or(true)
    }

    /// Returns whether literals are extracted from the patterns: by default they are.
    pub fn get_auto_prefilter(&self) -> bool
        ensures { result ≡ auto_prefilter_of self.now }
    {
        self.auto_prefilter.unwrap_or(true)
    }

    /// Returns the caller's literals: by default there are none.
    pub fn get_prefilter(&self) -> Option<&Prefilter>
        ensures { option_map (λ prefilter. prefilter.now) result
            ≡ prefilter_of self.now }
    {
        match &self.prefilter {
            Some(Some(prefilter)) => Some(prefilter),
            _ => None,
        }
    }

    /// Returns which groups are stored: by default all.
    pub fn get_which_captures(&self) -> WhichCaptures
        ensures { result ≡ which_captures_of self.now }
    {
        self.which_captures.unwrap_or(WhichCaptures::All)
    }

    /// Returns the limit on the size of the program: by default 10,485,760, which is a weight of
    /// 262,144.
    pub fn get_nfa_size_limit(&self) -> Option<usize>
        ensures { result ≡ nfa_size_limit_of self.now }
    {
        self.nfa_size_limit.unwrap_or(Some(NFA_SIZE_LIMIT))
    }

    /// Returns the approximate maximum number of bytes of the states that a cache keeps: by default
    /// 2,097,152.
    pub fn get_hybrid_cache_capacity(&self) -> usize
        ensures { result ≡ capacity_of self.now }
    {
        self.hybrid_cache_capacity.unwrap_or(CACHE_CAPACITY)
    }

    /// Returns the approximate maximum number of bytes of all states of an automaton: by default
    /// 40,960.
    pub fn get_dfa_size_limit(&self) -> Option<usize>
        ensures { result ≡ dfa_size_limit_of self.now }
    {
        self.dfa_size_limit.unwrap_or(Some(DFA_SIZE_LIMIT))
    }

    /// Returns the maximum number of states of such an automaton: by default 30.
    pub fn get_dfa_state_limit(&self) -> Option<usize>
        ensures { result ≡ dfa_state_limit_of self.now }
    {
        self.dfa_state_limit.unwrap_or(Some(DFA_STATE_LIMIT))
    }

    /// Returns whether bytes share columns, as was set: by default they do.
    pub fn get_byte_classes(&self) -> bool
        ensures { result ≡ unwrap_or self.now.byte_classes true }
    {
        self.byte_classes.unwrap_or(true)
    }

    /// Returns the byte at which lines end for `^` and `$` under `(?m)`: by default LF.
    pub fn get_line_terminator(&self) -> u8
        ensures { result ≡ line_terminator_of self.now }
    {
        self.line_terminator.unwrap_or(b'\n')
    }

    /// Returns whether to use the automaton whose states are made on demand: by default yes.
    pub fn get_hybrid(&self) -> bool
        ensures { result ≡ hybrid_of self.now }
    {
        self.hybrid.unwrap_or(true)
    }

    /// Returns whether all states of a small automaton are made with the regex: by default they
    /// are.
    pub fn get_dfa(&self) -> bool
        ensures { result ≡ dfa_of self.now }
    {
        self.dfa.unwrap_or(true)
    }

    /// Sets the settings that are set in others, and keeps the rest.
    pub(super) fn take_over(&mut self, new: Config)
        ensures { self.new ≡ regex_settings_over new self.old }
    {
        self.match_kind = new.match_kind.or(self.match_kind);
        self.utf8_empty = new.utf8_empty.or(self.utf8_empty);
        self.auto_prefilter = new.auto_prefilter.or(self.auto_prefilter);
        self.prefilter = new.prefilter.or(self.prefilter.take());
        self.which_captures = new.which_captures.or(self.which_captures);
        self.nfa_size_limit = new.nfa_size_limit.or(self.nfa_size_limit);
        self.onepass_size_limit = new.onepass_size_limit.or(self.onepass_size_limit);
        self.hybrid_cache_capacity = new.hybrid_cache_capacity.or(self.hybrid_cache_capacity);
        self.hybrid = new.hybrid.or(self.hybrid);
        self.dfa = new.dfa.or(self.dfa);
        self.dfa_size_limit = new.dfa_size_limit.or(self.dfa_size_limit);
        self.dfa_state_limit = new.dfa_state_limit.or(self.dfa_state_limit);
        self.backtrack = new.backtrack.or(self.backtrack);
        self.byte_classes = new.byte_classes.or(self.byte_classes);
        self.line_terminator = new.line_terminator.or(self.line_terminator);
    }

    /// Returns the settings of the engine for any search.
    pub(super) fn of_engine(&self) -> pikevm::Config
        ensures { result.engine ≡ engine_settings self.now }
    {
        pikevm::Config::new()
            .match_kind(self.get_match_kind())
            .utf8_empty(self.get_utf8_empty())
            .line_terminator(self.get_line_terminator())
            .nfa_size_limit(self.get_nfa_size_limit())
            .which_captures(self.get_which_captures())
    }
}

/// Returns the same literals, if any are set.
fn cloned(prefilter: &Option<Option<Prefilter>>) -> Result<Option<Option<Prefilter>>, MatchError>
    ensures same { IfOk result (λ copy. copy ≡ prefilter.now) }
    ensures refused { IfErr result (λ error. error ≡ MatchError.Memory) }
{
    match prefilter {
        None => Ok(None),
        Some(None) => Ok(Some(None)),
        Some(Some(prefilter)) => Ok(Some(Some(prefilter.clone()?))),
    }
}

impl Default for Config {
    fn default() -> Config
        ensures { result ≡ none_set }
    {
        Config::new()
    }
}
