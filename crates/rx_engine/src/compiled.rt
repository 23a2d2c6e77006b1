//! What an engine holds of patterns.

ghost use Rattle.std.specs.Prelude.{◌≡◌, ◌*◌, ◌≤◌, IfOk, IfErr, length, map};
ghost use Rattle.rx_util.specs.declared.search.MatchError.{MatchError};
ghost use Rattle.rx_util.specs.Groups.{slot_len};
ghost use Rattle.rx_util.specs.Captured.{nothing_noted};
ghost use Rattle.rx_engine.specs.Engines.{IsBuiltOf, IsBuiltOfAll, IsEngine, IsRefused, IsRefusedOfAll, by_default};

use crate::builder::Builder;
use rx_program::{BuildError, Program};
use rx_util::{Captures, GroupInfo, MatchError, MatchKind, WhichCaptures};
use std::alloc::Global;
use std::marker::Model;
use std::rc::Rc;

/// Patterns as engines hold them. Contracts see their program, which match is reported, the groups
/// that are captured and which kind these are, the number of all groups, the number of groups in
/// every match, and whether empty matches inside a character are skipped.
#[derive(Debug, Drop)]
pub struct Compiled {
    pub(crate) program: Rc<Program>,
    pub(crate) match_kind: MatchKind,
    pub(crate) groups: GroupInfo,
    pub(crate) which_captures: WhichCaptures,
    pub(crate) captures_len: usize,
    pub(crate) static_captures_len: Option<usize>,
    pub(crate) utf8_empty: bool,
}

impl Model for Compiled {
    ghost use Rattle.rx_engine.specs.Engines.{Engine, IsEngine};

    ghost Value = { Engine };

    ghost view = { λ c. record {
      program = c.program.value;
      match_kind = c.match_kind;
      groups = c.groups;
      which_captures = c.which_captures;
      captures_len = c.captures_len;
      static_captures_len = c.static_captures_len;
      utf8_empty = c.utf8_empty;
    } };

    ghost invariant = { λ c. IsEngine (record {
      program = c.program.value;
      match_kind = c.match_kind;
      groups = c.groups;
      which_captures = c.which_captures;
      captures_len = c.captures_len;
      static_captures_len = c.static_captures_len;
      utf8_empty = c.utf8_empty;
    }) };
}

impl Compiled {
    /// Compiles a pattern with default settings.
    ///
    /// # Errors
    ///
    /// Those of [`Builder::build`](crate::Builder::build).
    pub fn new(alloc: Global, pattern: &str) -> Result<Compiled, BuildError>
        ensures built { IfOk result (λ compiled. IsBuiltOf pattern.now by_default compiled) }
        ensures refused { IfErr result (λ error. IsRefused pattern.now by_default error) }
    {
        Builder::new().build(alloc, pattern)
    }

    /// Compiles patterns that are searched for together, with default settings.
    ///
    /// # Errors
    ///
    /// Those of [`Builder::build_many`](crate::Builder::build_many).
    pub fn new_many(alloc: Global, patterns: &[&str]) -> Result<Compiled, BuildError>
        ensures built { IfOk result (λ compiled.
            IsBuiltOfAll (map (λ text. text.now) patterns.now) by_default compiled) }
        ensures refused { IfErr result (λ error.
            IsRefusedOfAll (map (λ text. text.now) patterns.now) by_default error) }
    {
        Builder::new().build_many(alloc, patterns)
    }

    /// Returns a copy that shares program and groups. `O(1)`.
    ///
    /// # Errors
    ///
    /// `Memory`.
    pub fn clone(&self) -> Result<Compiled, MatchError>
        ensures same { IfOk result (λ compiled. compiled ≡ self.now) }
        ensures refused { IfErr result (λ error. error ≡ MatchError.Memory) }
    {
        Ok(Compiled {
            program: self.program.clone()?,
            match_kind: self.match_kind,
            groups: self.groups.clone()?,
            which_captures: self.which_captures,
            captures_len: self.captures_len,
            static_captures_len: self.static_captures_len,
            utf8_empty: self.utf8_empty,
        })
    }

    /// Returns the program. `O(1)`.
    pub fn program(&self) -> &Program
        ensures program { result.now ≡ self.now.program }
        ensures engine { IsEngine self.now }
    {
        &self.program
    }

    /// Returns which of all matches a search reports. `O(1)`.
    pub fn match_kind(&self) -> MatchKind
        ensures { result ≡ self.now.match_kind }
    {
        self.match_kind
    }

    /// Returns the groups that are captured. `O(1)`.
    pub fn group_info(&self) -> &GroupInfo
        ensures groups { result.now ≡ self.now.groups }
        ensures engine { IsEngine self.now }
        ensures patterns { length self.now.program.patterns ≡ length self.now.groups }
    {
        &self.groups
    }

    /// Returns the number of groups of all patterns, captured or not, including the whole match of
    /// each. `O(1)`.
    pub fn captures_len(&self) -> usize
        ensures len { result ≡ self.now.captures_len }
        ensures engine { IsEngine self.now }
    {
        self.captures_len
    }

    /// Returns the number of groups in every match, captured or not, including the whole match.
    /// `None` if matches differ in that, or if there is no pattern. `O(1)`.
    pub fn static_captures_len(&self) -> Option<usize>
        ensures len { result ≡ self.now.static_captures_len }
        ensures engine { IsEngine self.now }
    {
        self.static_captures_len
    }

    /// Returns whether empty matches inside a character are skipped.
    pub fn utf8_empty(&self) -> bool
        ensures { result ≡ self.now.utf8_empty }
    {
        self.utf8_empty
    }

    /// Returns captures of no match, with slots for all groups that are captured. `O(n)` in the
    /// number of groups.
    ///
    /// # Errors
    ///
    /// `Memory`.
    pub fn create_captures(&self) -> Result<Captures, MatchError>
        ensures made { IfOk result (λ caps. caps
            ≡ nothing_noted self.now.groups (slot_len self.now.groups)) }
        ensures room { IfOk result
            (λ caps. 2 * length self.now.groups ≤ length caps.slots) }
        ensures refused { IfErr result (λ error. error ≡ MatchError.Memory) }
    {
        Captures::all(self.program.allocator(), &self.groups)
    }
}
