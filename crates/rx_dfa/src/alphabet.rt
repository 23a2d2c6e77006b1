//! The alphabet of a program's automaton.

ghost use Rattle.std.specs.Prelude.{◌≡◌, ◌<◌, None, Some, true, false, slice_get, IfOk, IfSome};
ghost use Rattle.rx_dfa.specs.Behind.{quits};
ghost use Rattle.rx_dfa.specs.Classes.{class_of};
ghost use Rattle.rx_dfa.specs.States.{ahead_of_end};
ghost use Rattle.rx_dfa.specs.Alphabets.{IsAlphabetBack, IsAlphabetOf, column_count, ahead_in};

use crate::behind::{byte_that_quits, quits_at};
use crate::classes::ByteClasses;
use crate::states::Ahead;
use rx_program::{Program, ReverseProgram};
use rx_steps::AskedLooks;
use std::alloc::{AllocError, Global};
use std::marker::Model;

/// The approximate number of bytes that the states in a cache may take by default.
pub const CACHE_CAPACITY: usize = 2_097_152;

/// What an automaton needs to know of its program: the look-around assertions in it, its classes of
/// bytes, and whether empty matches inside a character are skipped; and the approximate number of
/// bytes that its states may take. Contracts see these four.
#[derive(Debug)]
pub struct Alphabet {
    asked: AskedLooks,
    classes: ByteClasses,
    utf8_empty: bool,
    capacity: usize,
}

// Written out, so that crates above needn't prove how the fields are dropped.
impl Drop for Alphabet {
    fn drop(self) {
        let Alphabet {
            asked: _asked,
            classes: _classes,
            utf8_empty: _utf8_empty,
            capacity: _capacity,
        } = self;
    }
}

impl Model for Alphabet {
    ghost use Rattle.rx_dfa.specs.Alphabets.{AlphabetView};

    ghost Value = { AlphabetView };

    ghost view = { λ d. record {
      asked = d.asked;
      classes = d.classes;
      utf8_empty = d.utf8_empty;
      capacity = d.capacity;
    } };
}

impl Alphabet {
    /// Returns the alphabet of a program. `utf8_empty` skips empty matches inside a character.
    ///
    /// # Errors
    ///
    /// Out of memory.
    ///
    /// # Complexity
    ///
    /// Time proportional to the program's states and the ranges of their automata; a few hundred
    /// bytes.
    pub fn new(
        alloc: Global,
        program: &Program,
        utf8_empty: bool,
        capacity: usize,
    ) -> Result<Alphabet, AllocError>
        ensures made { IfOk result (λ alphabet. IsAlphabetOf program.now alphabet) }
        ensures utf8_empty { IfOk result (λ alphabet. alphabet.utf8_empty ≡ utf8_empty) }
        ensures capacity { IfOk result (λ alphabet. alphabet.capacity ≡ capacity) }
    {
        let asked = AskedLooks::of(program.states());
        let classes = ByteClasses::new(alloc, program, asked)?;
        Ok(Alphabet {
            asked,
            classes,
            utf8_empty,
            capacity,
        })
    }

    /// Returns the alphabet of a reverse program. Empty matches inside a character are not skipped.
    ///
    /// # Errors
    ///
    /// Out of memory.
    ///
    /// # Complexity
    ///
    /// As for `new`.
    pub fn new_back(
        alloc: Global,
        reverse: &ReverseProgram,
        capacity: usize,
    ) -> Result<Alphabet, AllocError>
        ensures made { IfOk result (IsAlphabetBack reverse.now) }
        ensures capacity { IfOk result (λ alphabet. alphabet.capacity ≡ capacity) }
    {
        let asked = AskedLooks::of_back(reverse.states());
        let classes = ByteClasses::new_back(alloc, reverse, asked)?;
        Ok(Alphabet {
            asked,
            classes,
            utf8_empty: false,
            capacity,
        })
    }

    /// Returns which look-around assertions the program contains.
    pub(crate) fn asked(&self) -> AskedLooks
        ensures { result ≡ self.now.asked }
    {
        self.asked
    }

    /// Returns the approximate number of bytes that the states may take.
    pub(crate) fn capacity(&self) -> usize
        ensures { result ≡ self.now.capacity }
    {
        self.capacity
    }

    /// Returns whether empty matches inside a character are skipped.
    pub(crate) fn utf8_empty(&self) -> bool
        ensures { result ≡ self.now.utf8_empty }
    {
        self.utf8_empty
    }

    /// Returns the column of a byte.
    #[inline(always)]
    pub(crate) fn class(&self, byte: u8) -> usize
        ensures { result ≡ class_of self.now.classes byte }
    {
        self.classes.class(byte)
    }

    /// Returns whether a search must quit before this byte; `None` is the end of the slice.
    pub(crate) fn quits_at(&self, seen: Option<u8>) -> bool
        ensures { result ≡ quits self.now.asked seen }
    {
        quits_at(self.asked, seen)
    }

    /// Returns the byte if a search must quit before it.
    pub(crate) fn byte_that_quits(&self, seen: Option<u8>) -> Option<u8>
        ensures none { result ≡ None → quits self.now.asked seen ≡ false }
        ensures some { IfSome result
            (λ b. (seen ≡ Some b) × (quits self.now.asked (Some b) ≡ true)) }
    {
        byte_that_quits(self.asked, seen)
    }

    /// Returns a byte of a column's class, or `None` for the columns of the end of the slice.
    pub(crate) fn byte(&self, column: usize) -> Option<u8>
        ensures { result ≡ slice_get self.now.classes.bytes column }
    {
        self.classes.byte(column)
    }

    /// Returns the number of columns: one for each class, and two for the end of the slice.
    pub(crate) fn column_count(&self) -> usize
        ensures { result ≡ column_count self.now }
    {
        self.classes.column_count()
    }

    /// Returns the column of the end of the slice, by whether a match may begin there.
    pub(crate) fn end_column(&self, may_begin: bool) -> usize
        ensures inside { result < column_count self.now }
        ensures end { ahead_in self.now result ≡ ahead_of_end may_begin }
    {
        if may_begin {
            self.classes.column_count() - 2
        } else {
            self.classes.column_count() - 1
        }
    }

    /// Returns what follows the position in a column.
    pub(crate) fn ahead(&self, column: usize) -> Ahead
        ensures { result ≡ ahead_in self.now column }
    {
        match self.classes.byte(column) {
            Some(byte) => Ahead::of(self.utf8_empty, byte),
            None => Ahead::of_end(column == self.classes.column_count() - 2),
        }
    }
}
