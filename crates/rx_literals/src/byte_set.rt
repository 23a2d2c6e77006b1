//! The bytes that the matches of a program begin with, and where the first of them is in a span.

ghost use Rattle.std.specs.Prelude.{◌≡◌, ℕ, length, map, IfOk, IfSome};
ghost use Rattle.rx_input.specs.Cursors.{IsSameContent};
ghost use Rattle.rx_program.specs.Programs.{character_program, node_of};
ghost use Rattle.rx_literals.specs.declared.ending.Told.{Told};
ghost use Rattle.rx_literals.specs.ByteSets.{BeginWithMembers, FirstMemberBetween, FirstMemberInSpan};
ghost use Rattle.rx_literals.specs.ByteSets.{HasMoreMembers, LeadsOrReads, MarksBegin, MatchesBeginIn};
ghost use Rattle.rx_literals.specs.Endings.{MarksGrow};

use crate::ending::{ROUNDS, Told, mark, mark_all};
use crate::first_bytes::COMMON;
use crate::literal::left_in_piece;
use rx_input::{Cursor, Input};
use rx_program::{Program, State};
use rx_utf8::SetAutomaton;
use std::alloc::{AllocError, Global};
use std::marker::Model;

/// Adds the bytes with which the characters of a set begin.
fn put_first_bytes(members: &mut [bool; 256], automaton: &SetAutomaton)
    ensures begin { BeginWithMembers members.new automaton.now.ranges }
    ensures more { HasMoreMembers members.old members.new }
{
    let _ranges = automaton.ranges(); // for the proof alone: it reads its set
    for byte in 0..256_usize {
        if automaton.step(0, byte as u8).is_some() {
            members[byte] = true;
        }
    }
}

/// Marks the states to which the empty edges of a state lead, and adds the bytes with which the
/// characters that it reads begin.
fn mark_or_read(marks: &mut [bool], members: &mut [bool; 256], state: &State) -> Told
    ensures closed { result ≡ Told.Closed → marks.new ≡ marks.old }
    ensures leads { result ≡ Told.Closed → LeadsOrReads members.new marks.new (node_of state.now) }
    ensures grows { MarksGrow marks.old marks.new }
    ensures more { HasMoreMembers members.old members.new }
{
    let more = match state {
        State::Match(_) => return Told::Match,
        State::Look(_, next) => mark(marks, *next),
        State::Empty(next) => mark(marks, *next),
        State::Capture(_, next) => mark(marks, *next),
        State::Ranges(automaton, _) => {
            put_first_bytes(members, automaton);
            false
        }
        State::BinaryUnion(first, second) => mark_all(marks, &[*first, *second]),
        State::Union(alternates) => mark_all(marks, alternates),
    };
    if more { Told::More } else { Told::Closed }
}

/// Iterates over the states once: marks those to which the empty edges of marked states lead, and
/// adds the bytes with which the characters that marked states read begin.
fn go_through(marks: &mut [bool], members: &mut [bool; 256], states: &[State]) -> Told
    ensures closed { result ≡ Told.Closed
        → MarksBegin (map node_of states.now) members.new marks.new }
    ensures grows { MarksGrow marks.old marks.new }
{
    let mut told = Told::Closed;
    for (index, state) in states.iter().enumerate() {
        if index < marks.len() && !marks[index] {
            continue;
        }
        match mark_or_read(marks, members, state) {
            Told::Match => return Told::Match,
            Told::More => told = Told::More,
            Told::Closed => {}
        }
    }
    told
}

/// Returns whether no member is common in texts.
fn are_rare(members: &[bool; 256]) -> bool {
    for byte in COMMON {
        if members[usize::from(*byte)] {
            return false;
        }
    }
    true
}

/// A set of bytes: each match of a program begins with a member. Contracts see it as a list that
/// has, for each byte, whether it is a member.
#[derive(Debug, Drop)]
pub struct ByteSet {
    members: [bool; 256],
    is_rare: bool,
}

impl Model for ByteSet {
    ghost use Rattle.std.specs.Prelude.{Bool, List};

    ghost Value = { List Bool };

    ghost view = { λ b. b.members };
}

impl ByteSet {
    /// Returns the bytes that the matches of a program begin with; `None` if a match may be empty,
    /// or if too many empty edges come before the first character.
    ///
    /// # Errors
    ///
    /// `AllocError`, if memory ran out; it takes a byte for each state.
    ///
    /// # Complexity
    ///
    /// Time proportional to the states, and to the sets that are read first.
    pub fn of(alloc: Global, program: &Program) -> Result<Option<ByteSet>, AllocError>
        ensures { IfOk result (λ made. IfSome made
            (λ set. MatchesBeginIn set (character_program program.now))) }
    {
        let states = program.states();
        let mut marks = vec![in alloc; false; states.len()]?;
        let mut members = [false; 256];
        mark(&mut marks, program.start());
        for _ in 0..ROUNDS {
            match go_through(&mut marks, &mut members, states) {
                Told::Match => return Ok(None),
                Told::More => {}
                Told::Closed => {
                    let is_rare = are_rare(&members);
                    return Ok(Some(ByteSet { members, is_rare }));
                }
            }
        }
        Ok(None)
    }

    /// Returns whether no member is common in texts, so that a search for one skips far. `O(1)`.
    pub fn is_rare(&self) -> bool {
        self.is_rare
    }

    /// Returns the offset of the first member in `hay`.
    fn find_in(&self, hay: &[u8]) -> Option<usize>
        ensures { FirstMemberBetween self.now hay.now 0 (length hay.now) result }
    {
        for (index, byte) in hay.iter().enumerate() {
            if self.members[usize::from(*byte)] {
                return Some(index);
            }
        }
        None
    }

    /// Returns the offset of the first member in the span; `None` if there is none. Only the
    /// position of the input changes. It allocates nothing.
    ///
    /// # Complexity
    ///
    /// Time proportional to the bytes and chunks of the span up to that offset.
    pub fn find<C: Cursor>(&self, input: &mut Input<C>) -> Option<usize>
        ensures found { FirstMemberInSpan self.now input.old result }
        ensures same { IsSameContent input.old.cursor input.new.cursor }
        ensures asked { input.new.asked ≡ input.old.asked }
    {
        let mut at = input.start();
        loop {
            input.move_to(at);
            let hay = left_in_piece(input);
            let len = hay.len();
            if len == 0 {
                return None;
            }
            if let Some(index) = self.find_in(hay) {
                return Some(at + index);
            }
            at += len;
        }
    }
}
