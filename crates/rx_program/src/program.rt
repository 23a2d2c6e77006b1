//! Compiled programs.

ghost use Rattle.std.specs.Prelude.{◌≡◌, All};
ghost use Rattle.rx_program.specs.Programs.{ReadsItsSet, character_program, IsByteProgram, HasWalksOfProgram};

use crate::states::State;
use rx_util::StateID;
use std::alloc::Global;
use std::marker::Model;

/// Patterns compiled to states over bytes, by `compile`. Contracts see the states, the start
/// states, and the line terminator (`ByteProgram`); `character_program` is the corresponding
/// program over characters.
#[derive(Debug, Drop)]
pub struct Program {
    states: Vec<State>,
    start: StateID,
    patterns: Vec<StateID>,
    line_terminator: u8,
}

impl Model for Program {
    ghost use Rattle.std.specs.Prelude.{All};
    ghost use Rattle.rx_program.specs.Programs.{ByteProgram, ReadsItsSet};

    ghost Value = { ByteProgram };

    ghost view = { λ p. record {
      states = p.states.items;
      start = p.start;
      patterns = p.patterns.items;
      line_terminator = p.line_terminator;
    } };

    ghost invariant = { λ p. All ReadsItsSet p.states.items };
}

impl Program {
    /// Returns a program of these states. Searches that name no pattern start in the first one.
    pub(crate) fn new(states: Vec<State>, patterns: Vec<StateID>, line_terminator: u8) -> Program
        requires { All ReadsItsSet states.items }
        ensures { result ≡ record {
          states = states.items;
          start = 0;
          patterns = patterns.items;
          line_terminator = line_terminator;
        } }
    {
        Program {
            states,
            start: StateID::ZERO,
            patterns,
            line_terminator,
        }
    }

    /// Returns the allocator of the lists.
    pub fn allocator(&self) -> Global {
        *self.states.allocator()
    }

    /// Returns the states, by number.
    pub fn states(&self) -> &[State]
        ensures states { result.now ≡ self.now.states }
        ensures reads { All ReadsItsSet result.now }
    {
        &self.states
    }

    /// Returns the start state of searches that name no pattern.
    pub fn start(&self) -> StateID
        ensures { result ≡ self.now.start }
    {
        self.start
    }

    /// Returns the start state of each pattern.
    pub fn patterns(&self) -> &[StateID]
        ensures { result.now ≡ self.now.patterns }
    {
        &self.patterns
    }

    /// Returns the line terminator.
    pub fn line_terminator(&self) -> u8
        ensures { result ≡ self.now.line_terminator }
    {
        self.line_terminator
    }

    /// A law, for the proof only: in each search the walks of the program over bytes are those of
    /// the program over characters.
    pub fn walks_are_those_of_characters(&self)
        ensures reads { IsByteProgram self.now }
        ensures walks { HasWalksOfProgram self.now (character_program self.now) }
    {
        let _states = self.states(); // for the proof: each automaton reads its set
    }
}
