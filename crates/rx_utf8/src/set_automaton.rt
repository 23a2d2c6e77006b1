//! A set of characters with its automaton.

ghost use Rattle.std.specs.Prelude.{◌≡◌, [], length, get_or, All, IfOk};
ghost use Rattle.rx_utf8.specs.Automata.{step_of, ReadsSet, IsReader, IsAutomatonRow};
ghost use Rattle.rx_utf8.specs.Blocks.{pick, ReadsAll, rows_of};

use crate::blocks::{prepared, target};
use crate::byte_ranges::{ByteRange, look_up, push_byte};
use crate::code_points::{continuation_len, lead_bits, pick, push_shifted, shifted};
use crate::reverse_automaton::ReverseAutomaton;
use rx_sets::{CharacterSet, Range};
use rx_walks::laws::first_character_stands;
use std::alloc::{AllocError, Global};
use std::marker::Model;
use std::rc::Rc;

/// Returns the rows of the automaton that reads these code points, given by their number of bytes.
fn rows_for(
    alloc: Global,
    one: &[Range],
    two: &[Range],
    three: &[Range],
    four: &[Range],
) -> Result<Vec<Vec<ByteRange>>, AllocError>
    ensures reads { IfOk result (λ rows. ReadsAll (pick one.now two.now three.now four.now)
        (rows_of rows.items)) }
    ensures disjoint { IfOk result (λ rows. All IsAutomatonRow (rows_of rows.items)) }
{
    first_character_stands();
    let mut rows = prepared(alloc)?;
    let mut start = Vec::new(alloc);
    for code in 0..256_u32 {
        let byte = code as u8;
        let rest = continuation_len(byte);
        let codes = pick(one, two, three, four, rest);
        if let Some(next) = target(&mut rows, codes, rest, lead_bits(byte))? {
            push_byte(&mut start, byte, next)?;
        }
    }
    rows[0] = start;
    Ok(rows)
}

/// Returns the rows of the automaton of a set.
fn rows_of_set(alloc: Global, ranges: &[Range]) -> Result<Vec<Vec<ByteRange>>, AllocError>
    ensures reads { IfOk result (λ rows. ReadsSet ranges.now (rows_of rows.items)) }
    ensures disjoint { IfOk result (λ rows. All IsAutomatonRow (rows_of rows.items)) }
{
    let one = shifted(alloc, ranges, 0, 0x7F, 0)?;
    let two = shifted(alloc, ranges, 0x80, 0x7FF, 0)?;
    let mut three = shifted(alloc, ranges, 0x800, 0xD7FF, 0)?;
    push_shifted(&mut three, ranges, 0xD800, 0xF7FF, 0x800)?;
    let four = shifted(alloc, ranges, 0xF800, 0x10_F7FF, 0x800)?;
    rows_for(alloc, &one, &two, &three, &four)
}

/// A set of characters with an automaton over bytes that reads them. Contracts see the set's ranges
/// and the rows of the automaton's states (`Reader`).
#[derive(Debug, Drop)]
pub struct SetAutomaton {
    set: Rc<CharacterSet>,
    rows: Vec<Vec<ByteRange>>,
}

impl Model for SetAutomaton {
    ghost use Rattle.rx_utf8.specs.Automata.{Reader, IsReader};

    ghost Value = { Reader };

    ghost use Rattle.rx_utf8.specs.Blocks.{rows_of};

    ghost view = { λ a. record { ranges = a.set.value; rows = rows_of a.rows.items } };

    ghost invariant = { λ a.
        IsReader (record { ranges = a.set.value; rows = rows_of a.rows.items }) };
}

impl SetAutomaton {
    /// Builds the automaton of a set.
    ///
    /// # Errors
    ///
    /// Out of memory.
    pub fn new(alloc: Global, set: Rc<CharacterSet>) -> Result<SetAutomaton, AllocError>
        ensures { IfOk result (λ automaton. automaton.ranges ≡ set.value) }
    {
        let rows = rows_of_set(alloc, set.ranges())?;
        Ok(SetAutomaton { set, rows })
    }

    /// Builds the reverse automaton of the set. Takes time proportional to this automaton's ranges,
    /// and for each of its own states, of which there are some four thousand at most, to the ranges
    /// that lead into its level.
    ///
    /// # Errors
    ///
    /// Out of memory.
    pub fn reversed(&self, alloc: Global) -> Result<ReverseAutomaton, AllocError>
        ensures { IfOk result (λ automaton. automaton.ranges ≡ self.now.ranges) }
    {
        ReverseAutomaton::new(alloc, &self.set, &self.rows)
    }

    /// Returns the set.
    pub fn set(&self) -> &Rc<CharacterSet>
        ensures { result.now.value ≡ self.now.ranges }
    {
        &self.set
    }

    /// Returns the maximal ranges of the set, by ordinals.
    pub fn ranges(&self) -> &[Range]
        ensures ranges { result.now ≡ self.now.ranges }
        ensures reader { IsReader self.now }
    {
        self.set.ranges()
    }

    /// Returns where a byte leads from a state: nowhere (`None`), to the end of a character
    /// (`Some(None)`), or to a state. Reading starts at state 0.
    pub fn step(&self, state: usize, byte: u8) -> Option<Option<usize>>
        ensures { result ≡ step_of self.now state byte }
    {
        match self.rows.get(state) {
            Some(row) => look_up(row, byte),
            None => None,
        }
    }

    /// Returns the ranges of bytes that lead on from a state: disjoint, and in order.
    pub fn row(&self, state: usize) -> &[ByteRange]
        ensures row { result.now ≡ get_or self.now.rows state [] }
        ensures disjoint { IsAutomatonRow result.now }
    {
        match self.rows.get(state) {
            Some(row) => row,
            None => &[],
        }
    }

    /// Returns the number of states.
    pub fn state_count(&self) -> usize
        ensures { result ≡ length self.now.rows }
    {
        self.rows.len()
    }
}
