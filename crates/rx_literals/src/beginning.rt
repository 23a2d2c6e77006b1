//! The literals that the matches of a program begin with.

ghost use Rattle.std.specs.Prelude.{◌≡◌, ◌++◌, ℕ, List, [], ◌∷◌, Some, map, string_bytes, IfOk, IsTrue, OnOk};
ghost use Rattle.std.specs.Option.{ForSome};
ghost use Rattle.memchr.specs.Find.{OccursAt};
ghost use Rattle.rx_walks.specs.Programs.{pass, set};
ghost use Rattle.rx_program.specs.Programs.{character_program, node_of};
ghost use Rattle.rx_literals.specs.Beginnings.{MatchesBeginWith};
ghost use Rattle.rx_literals.specs.Needles.{OneOccursAt};
ghost use Rattle.rx_literals.specs.Ways.{StemsGoOn, StemsLeadTo, StandFor, readings};

use crate::first_bytes::FirstBytes;
use crate::members::few_members;
use crate::needle_table::TABLE_LEN;
use crate::prefilter::Prefilter;
use memchr::arch::all::is_prefix;
use rx_program::{Program, State};
use rx_sets::Range;
use rx_util::{MatchKind, StateID};
use std::alloc::{AllocError, Global};
use std::collections::VecDeque;
use std::marker::Model;

/// The maximum number of states that are passed.
const STEPS: usize = 256;

/// The maximum number of beginnings.
const BEGINNINGS: usize = 16;

/// A literal with more bytes isn't extended.
const LONG: usize = 60;

/// A literal with this number of bytes isn't extended at a branch.
const ENOUGH: usize = 3;

/// The same for a single literal: searching for one is faster than for several.
const ENOUGH_ALONE: usize = 2;

/// A literal that matches begin with, as far as it was read, and the state after it. Contracts see
/// it as a stem.
#[derive(Drop)]
struct Beginning {
    literal: String,
    at: StateID,
}

impl Model for Beginning {
    ghost use Rattle.std.specs.Prelude.{string_bytes};
    ghost use Rattle.rx_literals.specs.Ways.{Stem};

    ghost Value = { Stem };

    ghost view = { λ b. record { literal = string_bytes b.literal; node = b.at } };
}

/// Beginnings; each match has one of them.
#[derive(Drop)]
struct Beginnings {
    alloc: Global,
    list: VecDeque<Beginning>,
}

impl Beginnings {
    /// Appends one.
    fn put(&mut self, literal: String, at: StateID) -> Result<(), AllocError>
        ensures { OnOk result (self.new.list.items ≡ self.old.list.items
            ++ record { literal = string_bytes literal; node = at } ∷ []) }
    {
        self.list.push_back(Beginning { literal, at })?;
        Ok(())
    }

    /// Keeps a beginning unchanged, and returns that it wasn't extended.
    fn leave(&mut self, beginning: Beginning) -> Result<bool, AllocError>
        ensures { OnOk result (self.new.list.items ≡ self.old.list.items ++ beginning ∷ []) }
    {
        self.list.push_back(beginning)?;
        Ok(false)
    }

    /// Follows the only epsilon transition to this state, and returns that the beginning was
    /// extended.
    fn go_to(&mut self, beginning: Beginning, next: StateID) -> Result<bool, AllocError>
        ensures { OnOk result (self.new.list.items ≡ self.old.list.items
            ++ record { literal = beginning.literal; node = next } ∷ []) }
    {
        self.put(beginning.literal, next)?;
        Ok(true)
    }

    /// Returns whether this number of branches may be followed after a literal, which isn't in the
    /// list.
    fn has_room(&self, literal: &String, ways: usize) -> bool {
        if ways <= 1 {
            return literal.len() <= LONG;
        }
        let enough = if self.list.is_empty() {
            ENOUGH_ALONE
        } else {
            ENOUGH
        };
        literal.len() < enough && self.list.len().saturating_add(ways) <= BEGINNINGS
    }

    /// Follows epsilon transitions to these states if there is room, and returns whether it did.
    fn branch(&mut self, beginning: Beginning, states: &[StateID]) -> Result<bool, AllocError>
        ensures { OnOk result (StemsGoOn (Some (pass states.now)) beginning self.old.list.items
            self.new.list.items) }
    {
        if !self.has_room(&beginning.literal, states.len()) {
            return self.leave(beginning);
        }
        for state in states {
            let literal = beginning.literal.clone()?;
            self.put(literal, *state)?;
        }
        Ok(true)
    }

    /// Reads each of these characters.
    fn read(
        &mut self,
        literal: &String,
        characters: &[char],
        next: StateID,
    ) -> Result<(), AllocError>
        ensures { OnOk result (self.new.list.items ≡ self.old.list.items
            ++ readings (string_bytes literal.now) characters.now next) }
    {
        for c in characters {
            let mut longer = literal.clone()?;
            longer.push(*c)?;
            self.put(longer, next)?;
        }
        Ok(())
    }

    /// Reads each member of a set, if they are few and there is room, and returns whether it did.
    fn read_set(
        &mut self,
        beginning: Beginning,
        ranges: &[Range],
        next: StateID,
    ) -> Result<bool, AllocError>
        ensures { OnOk result (StemsGoOn (Some (set ranges.now next)) beginning self.old.list.items
            self.new.list.items) }
    {
        match few_members(self.alloc, ranges)? {
            Some(characters) if self.has_room(&beginning.literal, characters.len()) => {
                self.read(&beginning.literal, &characters, next)?;
                Ok(true)
            }
            _ => self.leave(beginning),
        }
    }

    /// Extends a beginning that ends at this state, and returns whether it was extended.
    fn go_on_at(&mut self, state: &State, beginning: Beginning) -> Result<bool, AllocError>
        ensures { OnOk result (StemsGoOn (Some (node_of state.now)) beginning self.old.list.items
            self.new.list.items) }
    {
        match state {
            State::Empty(next) => self.go_to(beginning, *next),
            State::Look(_, next) => self.go_to(beginning, *next),
            State::Capture(_, next) => self.go_to(beginning, *next),
            State::Ranges(automaton, next) => self.read_set(beginning, automaton.ranges(), *next),
            State::BinaryUnion(first, second) => self.branch(beginning, &[*first, *second]),
            State::Union(alternates) => self.branch(beginning, alternates),
            State::Match(_) => self.leave(beginning),
        }
    }

    /// Extends a beginning, and returns whether it was extended.
    fn go_on(&mut self, program: &Program, beginning: Beginning) -> Result<bool, AllocError>
        ensures { OnOk result (StemsLeadTo (character_program program.now)
            (beginning ∷ self.old.list.items) self.new.list.items) }
    {
        match program.states().get(beginning.at.as_usize()) {
            Some(state) => self.go_on_at(state, beginning),
            None => self.leave(beginning),
        }
    }

    /// Extends the first one, and returns whether it was extended.
    fn step(&mut self, program: &Program) -> Result<bool, AllocError>
        ensures { OnOk result (StemsLeadTo (character_program program.now) self.old.list.items
            self.new.list.items) }
    {
        match self.list.pop_front() {
            Some(beginning) => self.go_on(program, beginning),
            None => Ok(false),
        }
    }

    /// Returns the beginnings of a program's matches, as far as they are read.
    fn of(alloc: Global, program: &Program) -> Result<Beginnings, AllocError>
        ensures { IfOk result (λ beginnings. StemsLeadTo (character_program program.now)
            (record { literal = []; node = program.now.start } ∷ []) beginnings.list.items) }
    {
        let mut beginnings = Beginnings {
            alloc,
            list: VecDeque::new(alloc),
        };
        beginnings.put(String::new(alloc), program.start())?;
        let mut ended: usize = 0;
        for _ in 0..STEPS {
            if beginnings.step(program)? {
                ended = 0;
            } else {
                ended = ended.saturating_add(1);
            }
            if ended >= beginnings.list.len() {
                return Ok(beginnings);
            }
        }
        Ok(beginnings)
    }

    /// Returns the literals.
    fn literals(self) -> Result<Vec<String>, AllocError>
        ensures { IfOk result (λ literals. map (λ literal. string_bytes literal) literals.items
            ≡ map (λ stem. stem.literal) self.list.items) }
    {
        let mut literals = Vec::new(self.alloc);
        let mut list = self.list;
        while let Some(beginning) = list.pop_front() {
            literals.push(beginning.literal)?;
        }
        Ok(literals)
    }
}

/// Returns whether a literal begins with another one.
fn begins_with(literal: &String, other: &String) -> bool
    ensures { IsTrue result → OccursAt (string_bytes literal.now) (string_bytes other.now) 0 }
{
    is_prefix(literal.as_bytes(), other.as_bytes())
}

/// Returns whether each text that begins with a literal begins with one of these too.
fn begins_with_one(literals: &[String], literal: &String) -> bool
    ensures { IsTrue result → (bytes : List ℕ) (i : ℕ) → OccursAt bytes (string_bytes literal.now) i
        → OneOccursAt bytes i (map (λ other. string_bytes other) literals.now) }
{
    for other in literals {
        if begins_with(literal, other) {
            return true;
        }
    }
    false
}

/// Returns whether a literal begins with these bytes.
fn begins_with_bytes(literal: &String, bytes: &[u8]) -> bool
    ensures { IsTrue result → OccursAt (string_bytes literal.now) bytes.now 0 }
{
    is_prefix(literal.as_bytes(), bytes)
}

/// Returns whether each text that begins with a literal begins with one of these needles too.
fn begins_with_needle(needles: &[Vec<u8>], literal: &String) -> bool
    ensures { IsTrue result → (bytes : List ℕ) (i : ℕ) → OccursAt bytes (string_bytes literal.now) i
        → OneOccursAt bytes i (map (λ needle. needle.items) needles.now) }
{
    for needle in needles {
        if begins_with_bytes(literal, needle) {
            return true;
        }
    }
    false
}

/// Returns whether each text that begins with one of these literals begins with one of these
/// needles too.
fn begin_with_needles(needles: &[Vec<u8>], literals: &[String]) -> bool
    ensures { IsTrue result → StandFor (map (λ needle. needle.items) needles.now)
        (map (λ literal. string_bytes literal) literals.now) }
{
    for literal in literals {
        if !begins_with_needle(needles, literal) {
            return false;
        }
    }
    true
}

/// Adds a literal to these, unless it begins with one of them.
fn keep(kept: &mut Vec<String>, literal: String) -> Result<(), AllocError>
    ensures { OnOk result (StandFor (map (λ other. string_bytes other) kept.new.items)
        (string_bytes literal ∷ map (λ other. string_bytes other) kept.old.items)) }
{
    if begins_with_one(kept, &literal) {
        return Ok(());
    }
    kept.push(literal)?;
    Ok(())
}

/// Returns the literals, the last one first, without those that begin with a later one.
fn without_longer(alloc: Global, mut literals: Vec<String>) -> Result<Vec<String>, AllocError>
    ensures { IfOk result (λ kept. StandFor (map (λ literal. string_bytes literal) kept.items)
        (map (λ literal. string_bytes literal) literals.items)) }
{
    let mut kept = Vec::new(alloc);
    while let Some(literal) = literals.pop() {
        keep(&mut kept, literal)?;
    }
    Ok(kept)
}

/// Returns a prefilter of these literals, if scanning for them pays.
fn prefilter_of(
    alloc: Global,
    kind: MatchKind,
    literals: &[String],
) -> Result<Option<Prefilter>, AllocError>
    ensures { IfOk result (λ made. ForSome made
        (λ prefilter. prefilter ≡ map (λ literal. string_bytes literal) literals.now)) }
{
    let mut needles = Vec::new(alloc);
    for literal in literals {
        needles.push(literal.as_bytes())?;
    }
    if !pay(&needles) {
        return Ok(None);
    }
    Prefilter::new(alloc, kind, &needles)
}

/// Returns whether scanning for these needles before an engine runs pays: for a single one always;
/// for several if they have at least three bytes, or if they have at least two and scanning for
/// those that they begin with pays.
fn pay(needles: &[&[u8]]) -> bool {
    if needles.len() == 1 || needles.iter().all(|needle| needle.len() >= TABLE_LEN) {
        return true;
    }
    match FirstBytes::of(needles) {
        Some(first) => {
            needles.iter().all(|needle| needle.len() >= 2) && first.pay_for(needles.len())
        }
        None => false,
    }
}

impl Prefilter {
    /// Returns a prefilter of the literals that each match of a program begins with: one literal,
    /// or several, one of which each match begins with. Returns `None` if there are no such
    /// literals in the program, or scanning for them wouldn't pay.
    ///
    /// It reads the characters at the beginning of a pattern, also in groups, between look-around
    /// assertions, and in a repetition of at least one. At an alternation, a set with at most four
    /// members, or an optional part, each branch is followed until a literal has three bytes, or a
    /// single one has two. There are at most 16 literals, each of at most 64 bytes. If there are
    /// several, each has at least three bytes; or each has at least two, and they begin with at
    /// most three different bytes, none of which is common in texts, or one is and there are at
    /// most three literals.
    ///
    /// # Errors
    ///
    /// Out of memory.
    ///
    /// # Complexity
    ///
    /// Time for at most 256 states, and memory for the literals.
    pub fn from_program(
        alloc: Global,
        kind: MatchKind,
        program: &Program,
    ) -> Result<Option<Prefilter>, AllocError>
        ensures { IfOk result (λ made. ForSome made
            (λ prefilter. MatchesBeginWith prefilter (character_program program.now))) }
    {
        let beginnings = Beginnings::of(alloc, program)?;
        let literals = beginnings.literals()?;
        let kept = without_longer(alloc, literals)?;
        let shortest = without_longer(alloc, kept)?;
        prefilter_of(alloc, kind, &shortest)
    }

    /// Returns whether the prefilter may be used for a program: if it is known from the patterns
    /// alone that each match begins with one of the needles. Then nothing matches if no needle
    /// occurs, and the first match doesn't start before the first needle. If this isn't known,
    /// neither is guaranteed.
    ///
    /// It reads the beginnings of the program's matches as `from_program` does, so it may return
    /// `false` for needles for which it holds.
    ///
    /// # Errors
    ///
    /// Out of memory.
    ///
    /// # Complexity
    ///
    /// Time for at most 256 states, and memory for the literals that are read.
    pub fn serves(&self, alloc: Global, program: &Program) -> Result<bool, AllocError>
        ensures { IfOk result (λ serves. IsTrue serves
            → MatchesBeginWith self.now (character_program program.now)) }
    {
        let beginnings = Beginnings::of(alloc, program)?;
        let literals = beginnings.literals()?;
        Ok(begin_with_needles(self.needles(), &literals))
    }
}
