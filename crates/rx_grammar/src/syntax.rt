//! The settings of parsing.

ghost use Rattle.std.specs.Prelude.{◌≡◌, if◌then◌else◌};
ghost use Rattle.rx_grammar.specs.Settings.{default_settings, with_flag, with_flags};

use crate::flags::Flag;
use crate::hir::Look;
use std::marker::Model;

/// The settings of parsing. Flags in the pattern change the first four for a part of it.
#[derive(Debug, Clone, Drop)]
pub struct Config {
    case_insensitive: bool,
    multi_line: bool,
    dot_matches_new_line: bool,
    swap_greed: bool,
    nest_limit: u32,
    line_terminator: u8,
}

impl Model for Config {
    ghost use Rattle.rx_grammar.specs.Settings.{Settings};

    ghost Value = { Settings };

    ghost view = { λ c. record {
      case_insensitive = c.case_insensitive;
      multi_line = c.multi_line;
      dot_matches_new_line = c.dot_matches_new_line;
      swap_greed = c.swap_greed;
      nest_limit = c.nest_limit;
      line_terminator = c.line_terminator;
    } };
}

impl Config {
    /// Returns the default settings: all flags off, a nest limit of 250, LF as the line terminator.
    pub fn new() -> Config
        ensures { result ≡ default_settings }
    {
        Config {
            case_insensitive: false,
            multi_line: false,
            dot_matches_new_line: false,
            swap_greed: false,
            nest_limit: 250,
            line_terminator: b'\n',
        }
    }

    /// Sets whether letters match in any case, as with `(?i)`.
    pub fn case_insensitive(mut self, yes: bool) -> Config
        ensures { result ≡ record self { case_insensitive = yes } }
    {
        self.case_insensitive = yes;
        self
    }

    /// Sets whether `^` and `$` also match at the ends of lines, as with `(?m)`.
    pub fn multi_line(mut self, yes: bool) -> Config
        ensures { result ≡ record self { multi_line = yes } }
    {
        self.multi_line = yes;
        self
    }

    /// Sets whether `.` also matches the line terminator, as with `(?s)`.
    pub fn dot_matches_new_line(mut self, yes: bool) -> Config
        ensures { result ≡ record self { dot_matches_new_line = yes } }
    {
        self.dot_matches_new_line = yes;
        self
    }

    /// Sets whether repetitions are lazy, and greedy with `?`, as with `(?U)`.
    pub fn swap_greed(mut self, yes: bool) -> Config
        ensures { result ≡ record self { swap_greed = yes } }
    {
        self.swap_greed = yes;
        self
    }

    /// Sets how deeply groups and repetitions may be nested.
    pub fn nest_limit(mut self, limit: u32) -> Config
        ensures { result ≡ record self { nest_limit = limit } }
    {
        self.nest_limit = limit;
        self
    }

    /// Sets the line terminator, which `.` doesn't match. If it is 128 or more, a pattern with such
    /// a `.` is refused.
    pub fn line_terminator(mut self, byte: u8) -> Config
        ensures { result ≡ record self { line_terminator = byte } }
    {
        self.line_terminator = byte;
        self
    }

    /// Returns a copy.
    pub(crate) fn copied(&self) -> Config
        ensures { result ≡ self.now }
    {
        Config {
            case_insensitive: self.case_insensitive,
            multi_line: self.multi_line,
            dot_matches_new_line: self.dot_matches_new_line,
            swap_greed: self.swap_greed,
            nest_limit: self.nest_limit,
            line_terminator: self.line_terminator,
        }
    }

    /// Returns the assertion of `^`.
    pub(crate) fn line_start(&self) -> Look
        ensures { result ≡ (if self.now.multi_line then Look.StartLine else Look.Start) }
    {
        if self.multi_line {
            Look::StartLine
        } else {
            Look::Start
        }
    }

    /// Returns the assertion of `$`.
    pub(crate) fn line_end(&self) -> Look
        ensures { result ≡ (if self.now.multi_line then Look.EndLine else Look.End) }
    {
        if self.multi_line {
            Look::EndLine
        } else {
            Look::End
        }
    }

    /// Returns the settings with a flag turned on or off.
    fn with_flag(self, on: bool, flag: Flag) -> Config
        ensures { result ≡ with_flag on self flag }
    {
        match flag {
            Flag::CaseInsensitive => self.case_insensitive(on),
            Flag::MultiLine => self.multi_line(on),
            Flag::DotMatchesNewLine => self.dot_matches_new_line(on),
            Flag::SwapGreed => self.swap_greed(on),
        }
    }

    /// Returns the settings with all these flags turned on or off.
    pub(crate) fn with_flags(&self, on: bool, flags: &[Flag]) -> Config
        ensures { result ≡ with_flags on self.now flags.now }
    {
        let mut changed = self.copied();
        for flag in flags {
            changed = changed.with_flag(on, *flag);
        }
        changed
    }

    /// Returns whether letters match in any case.
    pub fn get_case_insensitive(&self) -> bool
        ensures { result ≡ self.now.case_insensitive }
    {
        self.case_insensitive
    }

    /// Returns whether `^` and `$` also match at the ends of lines.
    pub fn get_multi_line(&self) -> bool
        ensures { result ≡ self.now.multi_line }
    {
        self.multi_line
    }

    /// Returns whether `.` also matches the line terminator.
    pub fn get_dot_matches_new_line(&self) -> bool
        ensures { result ≡ self.now.dot_matches_new_line }
    {
        self.dot_matches_new_line
    }

    /// Returns whether repetitions are lazy, and greedy with `?`.
    pub fn get_swap_greed(&self) -> bool
        ensures { result ≡ self.now.swap_greed }
    {
        self.swap_greed
    }

    /// Returns how deeply groups and repetitions may be nested.
    pub fn get_nest_limit(&self) -> u32
        ensures { result ≡ self.now.nest_limit }
    {
        self.nest_limit
    }

    /// Returns the line terminator, which `.` doesn't match.
    pub fn get_line_terminator(&self) -> u8
        ensures { result ≡ self.now.line_terminator }
    {
        self.line_terminator
    }
}

impl Default for Config {
    fn default() -> Config
        ensures { result ≡ default_settings }
    {
        Config::new()
    }
}
