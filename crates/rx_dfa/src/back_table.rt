//! Backward searches with the dense table of a reverse program, and by following its threads if the
//! table quits or is too large to exist.

ghost use Rattle.std.specs.Prelude.{◌≡◌, ◌≤◌, IsTrue, IfErr, IfOk, OnOk};
ghost use Rattle.rx_input.specs.Cursors.{IsSameContent};
ghost use Rattle.rx_walks.specs.Finds.{is_anchored};
ghost use Rattle.rx_program.specs.Programs.{ByteProgram};
ghost use Rattle.rx_steps.specs.Reversed.{IsHalfAnswerBack, IsRefusalBack, IsReverseOf};
ghost use Rattle.rx_steps.specs.Searching.{anchoring_of, search_of};
ghost use Rattle.rx_dfa.specs.BackTables.{used_by};

use crate::alphabet::Alphabet;
use crate::dense_table::DenseTable;
use rx_input::{Cursor, Input};
use rx_program::ReverseProgram;
use rx_steps::{ReverseCache, search_rev};
use rx_util::{HalfMatch, MatchError};
use std::alloc::{AllocError, Global};
use std::marker::Model;

/// A reverse program, and all states and steps of its automaton, unless they are too large.
#[derive(Debug, Drop)]
pub(crate) struct BackTable {
    reverse: ReverseProgram,
    alphabet: Alphabet,
    closed: Option<DenseTable>,
}

impl Model for BackTable {
    ghost use Rattle.rx_dfa.specs.BackTables.{BackTableView, IsBackTable};

    ghost Value = { BackTableView };

    ghost view = { λ b. record { reverse = b.reverse; alphabet = b.alphabet; closed = b.closed } };

    ghost invariant = { λ b. IsBackTable
        (record { reverse = b.reverse; alphabet = b.alphabet; closed = b.closed }) };
}

impl BackTable {
    /// Makes the table of a reverse program, unless it takes more than about `size_limit` bytes.
    pub(crate) fn new(
        alloc: Global,
        reverse: ReverseProgram,
        size_limit: usize,
    ) -> Result<BackTable, AllocError>
        ensures reverse { IfOk result (λ back. back.reverse ≡ reverse) }
        ensures limit { IfOk result (λ back. used_by back.closed ≤ size_limit) }
    {
        let alphabet = Alphabet::new_back(alloc, &reverse, size_limit)?;
        let closed = DenseTable::new_back(alloc, &reverse, &alphabet, usize::MAX, size_limit)?;
        Ok(BackTable {
            reverse,
            alphabet,
            closed,
        })
    }

    /// Returns the approximate number of bytes of the states.
    pub(crate) fn memory_usage(&self) -> usize
        ensures { result ≡ used_by self.now.closed }
    {
        match &self.closed {
            Some(closed) => closed.memory_usage(),
            None => 0,
        }
    }

    /// Searches by following threads.
    fn walk<C: Cursor>(
        &self,
        input: &mut Input<C>,
        utf8_empty: bool,
    ) -> Result<Option<HalfMatch>, MatchError>
        ensures answer { IfOk result (λ found. (p : ByteProgram) → IsReverseOf p self.now.reverse
            → IsHalfAnswerBack p (search_of utf8_empty input.old) found) }
        ensures anchored { OnOk result
            (IsTrue (is_anchored (anchoring_of input.old.asked.anchored))) }
        ensures same { IsSameContent input.old.cursor input.new.cursor }
        ensures asked { input.new.asked ≡ input.old.asked }
        ensures refused { IfErr result (IsRefusalBack (search_of utf8_empty input.old)) }
    {
        let mode = input.get_anchored();
        if !mode.is_anchored() {
            return Err(MatchError::UnsupportedAnchored { mode });
        }
        let mut room = ReverseCache::new(self.reverse.allocator(), &self.reverse)?;
        search_rev(&self.reverse, &mut room, input, utf8_empty)
    }

    /// Searches backward. Of the matches that end at the end of the span, or of the haystack if
    /// that is less, and are inside span and slice, returns the least start with the least pattern
    /// for it, as the forward program finds them. `utf8_empty` skips an empty match inside a
    /// character.
    ///
    /// # Errors
    ///
    /// `UnsupportedAnchored` if the input isn't anchored; `Memory`.
    pub(crate) fn search<C: Cursor>(
        &self,
        input: &mut Input<C>,
        utf8_empty: bool,
    ) -> Result<Option<HalfMatch>, MatchError>
        ensures answer { IfOk result (λ found. (p : ByteProgram) → IsReverseOf p self.now.reverse
            → IsHalfAnswerBack p (search_of utf8_empty input.old) found) }
        ensures anchored { OnOk result
            (IsTrue (is_anchored (anchoring_of input.old.asked.anchored))) }
        ensures same { IsSameContent input.old.cursor input.new.cursor }
        ensures asked { input.new.asked ≡ input.old.asked }
        ensures refused { IfErr result (IsRefusalBack (search_of utf8_empty input.old)) }
    {
        let Some(closed) = &self.closed else {
            return self.walk(input, utf8_empty);
        };
        match closed.try_search_back(&self.reverse, &self.alphabet, input, utf8_empty) {
            Err(MatchError::Quit { .. }) => self.walk(input, utf8_empty),
            told => told,
        }
    }
}
