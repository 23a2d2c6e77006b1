//! Literals that each match of a program contains, anywhere.

ghost use Rattle.std.specs.Prelude.{◌≡◌, ◌∷◌, [], map, string_bytes, IfOk, IfSome, IsTrue};
ghost use Rattle.std.specs.Option.{ForSome};
ghost use Rattle.rx_program.specs.Programs.{character_program, node_of};
ghost use Rattle.rx_literals.specs.declared.ending.Told.{Told};
ghost use Rattle.rx_literals.specs.Endings.{MarksGrow, MayCome};
ghost use Rattle.rx_literals.specs.Requirements.{LeadsToMarked, MarksStopAt, MatchesContain, PassesNode, ReadsLiteral};

use crate::ending::{ROUNDS, Told, mark, mark_all};
use crate::exact::read_at;
use crate::first_bytes::is_common;
use crate::prefilter::Prefilter;
use rx_program::{Program, State};
use rx_util::{MatchKind, StateID};
use std::alloc::{AllocError, Global};

/// The maximum number of states of a program from which literals are extracted.
const STATES: usize = 256;

/// The maximum number of characters of a literal: a needle has at most four times as many bytes.
const CHARACTERS: usize = 16;

/// Marks the targets of a state's edges, unless a match ends at it.
fn mark_edges(marks: &mut [bool], state: &State) -> Told
    ensures closed { result ≡ Told.Closed → marks.new ≡ marks.old }
    ensures leads { result ≡ Told.Closed → LeadsToMarked marks.new (node_of state.now) }
    ensures grows { MarksGrow marks.old marks.new }
{
    let more = match state {
        State::Match(_) => return Told::Match,
        State::Look(_, next) => mark(marks, *next),
        State::Empty(next) => mark(marks, *next),
        State::Capture(_, next) => mark(marks, *next),
        State::Ranges(_, next) => mark(marks, *next),
        State::BinaryUnion(first, second) => mark_all(marks, &[*first, *second]),
        State::Union(alternates) => mark_all(marks, alternates),
    };
    if more { Told::More } else { Told::Closed }
}

/// Returns whether the edges of a state are left out: walks stop at it, or it isn't marked.
fn is_left_out(marks: &[bool], index: usize, stop: usize) -> bool
    ensures { IsTrue result → MayCome marks.now index → index ≡ stop }
{
    index == stop || index < marks.len() && !marks[index]
}

/// Iterates over the states once, and marks the targets of the edges of marked ones, except those
/// of the state at which walks stop.
fn go_through_but(marks: &mut [bool], states: &[State], stop: usize) -> Told
    ensures closed { result ≡ Told.Closed → MarksStopAt (map node_of states.now) stop marks.new }
    ensures grows { MarksGrow marks.old marks.new }
{
    let mut told = Told::Closed;
    for (index, state) in states.iter().enumerate() {
        if is_left_out(marks, index, stop) {
            continue;
        }
        match mark_edges(marks, state) {
            Told::Match => return Told::Match,
            Told::More => told = Told::More,
            Told::Closed => {}
        }
    }
    told
}

/// Returns whether each path from the start of a program to a match is known to pass the state with
/// this number: without its edges no match is reached.
fn each_match_passes(alloc: Global, program: &Program, stop: usize) -> Result<bool, AllocError>
    ensures { IfOk result (λ passes. IsTrue passes
        → PassesNode (character_program program.now) stop) }
{
    let states = program.states();
    let mut marks = vec![in alloc; false; states.len()]?;
    mark(&mut marks, program.start());
    for _ in 0..ROUNDS {
        match go_through_but(&mut marks, states, stop) {
            Told::Match => return Ok(false),
            Told::More => {}
            Told::Closed => return Ok(true),
        }
    }
    Ok(false)
}

/// Returns the characters that each path reads, in order, from a state on.
fn read_from(alloc: Global, program: &Program, at: StateID) -> Result<String, AllocError>
    ensures { IfOk result (λ literal.
        ReadsLiteral (character_program program.now) at (string_bytes literal)) }
{
    let mut literal = String::new(alloc);
    let mut next = at;
    for _ in 0..CHARACTERS {
        match read_at(program, next) {
            Some(read) => {
                literal.push(read.0)?;
                next = read.1;
            }
            None => return Ok(literal),
        }
    }
    Ok(literal)
}

/// Returns whether scanning for a literal pays: it has at least two bytes, or one that isn't common
/// in texts.
fn pays(literal: &[u8]) -> bool {
    literal.len() >= 2 || literal.iter().all(|byte| !is_common(*byte))
}

/// Returns the literal that is read from the state with this number on, if it has more than `len`
/// bytes, scanning for it pays, and each match of the program is known to contain it.
fn required_at(
    alloc: Global,
    program: &Program,
    index: usize,
    len: usize,
) -> Result<Option<String>, AllocError>
    ensures { IfOk result (λ made. IfSome made (λ literal.
        MatchesContain (string_bytes literal ∷ []) (character_program program.now))) }
{
    let literal = read_from(alloc, program, StateID::new(index))?;
    if literal.len() <= len || !pays(literal.as_bytes()) {
        return Ok(None);
    }
    if each_match_passes(alloc, program, index)? {
        Ok(Some(literal))
    } else {
        Ok(None)
    }
}

/// Returns the longest literal that each match of a program is known to contain, if scanning for
/// one pays; of several with the same length the first.
fn longest_required(alloc: Global, program: &Program) -> Result<Option<String>, AllocError>
    ensures { IfOk result (λ made. IfSome made (λ literal.
        MatchesContain (string_bytes literal ∷ []) (character_program program.now))) }
{
    let mut longest = None;
    let mut len = 0;
    for index in 0..program.states().len() {
        if let Some(literal) = required_at(alloc, program, index, len)? {
            len = literal.len();
            longest = Some(literal);
        }
    }
    Ok(longest)
}

impl Prefilter {
    /// Returns a prefilter of a literal that each match of a program contains, anywhere in the
    /// match, such as `=>` for `\w+\s*=>\s*\w+` or `;` for `.*;`. Returns `None` if none is found,
    /// or scanning for it wouldn't pay.
    ///
    /// A literal is a sequence of at most 16 characters that a pattern reads in every match: not in
    /// a branch, nor in an optional part. The longest is used; a single byte that is common in
    /// texts isn't. If a program has more than 256 states, none is extracted.
    ///
    /// # Errors
    ///
    /// Out of memory.
    ///
    /// # Complexity
    ///
    /// Time at most linear in the states, times the number of states from which a literal is read.
    pub fn required(alloc: Global, program: &Program) -> Result<Option<Prefilter>, AllocError>
        ensures { IfOk result (λ made. ForSome made
            (λ prefilter. MatchesContain prefilter (character_program program.now))) }
    {
        if program.states().len() > STATES {
            return Ok(None);
        }
        match longest_required(alloc, program)? {
            Some(literal) => {
                Prefilter::new(alloc, MatchKind::LeftmostFirst, &[literal.as_bytes()])
            }
            None => Ok(None),
        }
    }
}
