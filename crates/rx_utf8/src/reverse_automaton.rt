//! A set of characters with its reverse automaton.

ghost use Rattle.std.specs.Prelude.{◌≡◌, [], length, get_or, All, IfOk};
ghost use Rattle.rx_utf8.specs.Automata.{step_of, ReadsSet, IsReverseReader, IsAutomatonRow};
ghost use Rattle.rx_utf8.specs.Blocks.{rows_of};

use crate::byte_ranges::{ByteRange, look_up};
use crate::subsets::rows_back;
use rx_sets::{CharacterSet, Range};
use rx_walks::laws_back::transposed_reads_last;
use std::alloc::{AllocError, Global};
use std::marker::Model;
use std::rc::Rc;

/// A set of characters with an automaton over bytes that reads them from the last byte to the
/// first. Contracts see the set's ranges and the rows of the automaton's states (`Reader`).
#[derive(Debug, Drop)]
pub struct ReverseAutomaton {
    set: Rc<CharacterSet>,
    rows: Vec<Vec<ByteRange>>,
}

impl Model for ReverseAutomaton {
    ghost use Rattle.rx_utf8.specs.Automata.{Reader, IsReverseReader};

    ghost Value = { Reader };

    ghost use Rattle.rx_utf8.specs.Blocks.{rows_of};

    ghost view = { λ a. record { ranges = a.set.value; rows = rows_of a.rows.items } };

    ghost invariant = { λ a.
        IsReverseReader (record { ranges = a.set.value; rows = rows_of a.rows.items }) };
}

impl ReverseAutomaton {
    /// Builds the reverse automaton of a set, whose forward automaton has these rows.
    pub(crate) fn new(
        alloc: Global,
        set: &Rc<CharacterSet>,
        forward: &[Vec<ByteRange>],
    ) -> Result<ReverseAutomaton, AllocError>
        requires reads { ReadsSet set.now.value (rows_of forward.now) }
        requires disjoint { All IsAutomatonRow (rows_of forward.now) }
        ensures { IfOk result (λ automaton. automaton.ranges ≡ set.now.value) }
    {
        transposed_reads_last();
        let rows = rows_back(alloc, forward)?;
        let set = set.clone()?;
        Ok(ReverseAutomaton { set, rows })
    }

    /// Returns the set.
    pub fn set(&self) -> &Rc<CharacterSet>
        ensures { result.now.value ≡ self.now.ranges }
    {
        &self.set
    }

    /// Returns the maximal ranges of the set, by ordinals.
    pub fn ranges(&self) -> &[Range]
        ensures ranges { result.now ≡ self.now.ranges }
        ensures reader { IsReverseReader self.now }
    {
        self.set.ranges()
    }

    /// Returns where a byte leads from a state, in a haystack that is read backward: nowhere
    /// (`None`), to the start of a character (`Some(None)`), or to a state. Reading starts at state
    /// 0, to which no byte leads.
    pub fn step(&self, state: usize, byte: u8) -> Option<Option<usize>>
        ensures { result ≡ step_of self.now state byte }
    {
        match self.rows.get(state) {
            Some(row) => look_up(row, byte),
            None => None,
        }
    }

    /// Returns the ranges of bytes that lead on from a state: disjoint, and in order.
    pub fn row(&self, state: usize) -> &[ByteRange]
        ensures row { result.now ≡ get_or self.now.rows state [] }
        ensures disjoint { IsAutomatonRow result.now }
    {
        match self.rows.get(state) {
            Some(row) => row,
            None => &[],
        }
    }

    /// Returns the number of states.
    pub fn state_count(&self) -> usize
        ensures { result ≡ length self.now.rows }
    {
        self.rows.len()
    }
}
