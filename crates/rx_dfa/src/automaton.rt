//! The automaton of a program.

ghost use Rattle.std.specs.Prelude.{◌≡◌};
ghost use Rattle.rx_dfa.specs.Automata.{directed, directed_by};
ghost use Rattle.rx_dfa.specs.Behind.{behind_of};
ghost use Rattle.rx_dfa.specs.DenseTables.{MayBeByte};

use crate::alphabet::Alphabet;
use crate::behind::Behind;
use rx_program::{Program, ReverseProgram};
use rx_util::StateID;
use std::alloc::Global;

/// A program and the direction in which it reads.
#[derive(Clone, Copy)]
pub(crate) enum Way<'a> {
    /// Forward.
    Forward(&'a Program),
    /// Backward, with a reverse program.
    Back(&'a ReverseProgram),
}

impl<'a> Way<'a> {
    /// Returns the allocator of the program's lists.
    pub(crate) fn allocator(&self) -> Global {
        match self {
            Way::Forward(program) => program.allocator(),
            Way::Back(reverse) => reverse.allocator(),
        }
    }

    /// Returns the line terminator.
    pub(crate) fn line_terminator(&self) -> u8
        ensures { result ≡ (directed_by self.now).bytes.line_terminator }
    {
        match self {
            Way::Forward(program) => program.line_terminator(),
            Way::Back(reverse) => reverse.line_terminator(),
        }
    }

    /// Returns the start state for a search that names no pattern.
    pub(crate) fn start(&self) -> StateID
        ensures { result ≡ (directed_by self.now).bytes.start }
    {
        match self {
            Way::Forward(program) => program.start(),
            Way::Back(reverse) => reverse.start(),
        }
    }

    /// Returns the start state of each pattern.
    pub(crate) fn patterns(&self) -> &[StateID]
        ensures { result.now ≡ (directed_by self.now).bytes.patterns }
    {
        match self {
            Way::Forward(program) => program.patterns(),
            Way::Back(reverse) => reverse.patterns(),
        }
    }
}

/// The automaton of a program: the program with its direction, and its alphabet. All steps are
/// computed from these.
#[derive(Clone, Copy)]
pub(crate) struct Automaton<'a> {
    pub(crate) way: Way<'a>,
    pub(crate) alphabet: &'a Alphabet,
}

impl<'a> Automaton<'a> {
    /// Returns what precedes a position after this byte, or at the start of the slice, as far as
    /// the program's assertions depend on it.
    pub(crate) fn side(&self, byte: Option<u8>) -> Behind
        ensures side { result ≡ behind_of self.now.alphabet.now.asked
            (directed self.now).bytes.line_terminator byte }
        ensures byte { MayBeByte byte }
    {
        Behind::of(self.alphabet.asked(), self.way.line_terminator(), byte)
    }
}
