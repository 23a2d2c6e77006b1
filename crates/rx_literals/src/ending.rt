//! Whether all matches of a program end at the slice's end.

ghost use Rattle.std.specs.Prelude.{◌≡◌, ◌<◌, ℕ, false, map, slice_get, IfOk, IsTrue, Some};
ghost use Rattle.rx_program.specs.Programs.{character_program, node_of};
ghost use Rattle.rx_literals.specs.declared.ending.Told.{Told};
ghost use Rattle.rx_literals.specs.Endings.{MarksAreClosed, EndsWithSlice, MarksGrow, LeadsToMarks, MayCome};

use rx_grammar::Look;
use rx_program::{Program, State};
use rx_util::StateID;
use std::alloc::{AllocError, Global};

/// The maximum number of passes over the states. Most edges lead to states with greater numbers, so
/// a few suffice.
pub(crate) const ROUNDS: usize = 16;

/// The result of a pass over the states.
#[derive(Clone, Copy, Debug)]
pub(crate) enum Told {
    /// A match ends at a marked state.
    Match,
    /// More were marked.
    More,
    /// No edge leads from marked states to others, except those that require the slice's end.
    Closed,
}

/// Marks a state, and returns whether it wasn't marked.
pub(crate) fn mark(marks: &mut [bool], state: StateID) -> bool
    ensures kept { result ≡ false → marks.new ≡ marks.old }
    ensures marked { MayCome marks.new state }
    ensures grows { MarksGrow marks.old marks.new }
{
    let at = state.as_usize();
    if at >= marks.len() || marks[at] {
        return false;
    }
    marks[at] = true;
    true
}

/// Marks states, and returns whether one of them wasn't marked.
pub(crate) fn mark_all(marks: &mut [bool], states: &[StateID]) -> bool
    ensures kept { result ≡ false → marks.new ≡ marks.old }
    ensures marked { (k r : ℕ) → slice_get states.now k ≡ Some r → MayCome marks.new r }
    ensures grows { MarksGrow marks.old marks.new }
{
    let mut more = false;
    for state in states {
        if mark(marks, *state) {
            more = true;
        }
    }
    more
}

/// Marks the targets of a state's edges, unless a match ends at it.
fn mark_next(marks: &mut [bool], state: &State) -> Told
    ensures closed { result ≡ Told.Closed → marks.new ≡ marks.old }
    ensures leads { result ≡ Told.Closed → LeadsToMarks marks.new (node_of state.now) }
    ensures grows { MarksGrow marks.old marks.new }
{
    let more = match state {
        State::Match(_) => return Told::Match,
        State::Look(Look::End, _) => false,
        State::Look(_, next) => mark(marks, *next),
        State::Empty(next) => mark(marks, *next),
        State::Capture(_, next) => mark(marks, *next),
        State::Ranges(_, next) => mark(marks, *next),
        State::BinaryUnion(first, second) => mark_all(marks, &[*first, *second]),
        State::Union(alternates) => mark_all(marks, alternates),
    };
    if more { Told::More } else { Told::Closed }
}

/// Iterates over the states once, and marks the targets of the edges of marked ones.
fn go_through(marks: &mut [bool], states: &[State]) -> Told
    ensures closed { result ≡ Told.Closed → MarksAreClosed (map node_of states.now) marks.new }
    ensures grows { MarksGrow marks.old marks.new }
{
    let mut told = Told::Closed;
    for (index, state) in states.iter().enumerate() {
        if index < marks.len() && !marks[index] {
            continue;
        }
        match mark_next(marks, state) {
            Told::Match => return Told::Match,
            Told::More => told = Told::More,
            Told::Closed => {}
        }
    }
    told
}

/// Returns whether each match of a program, unless a particular pattern is requested, is known to
/// end at the slice's end, or at the haystack's if that is less: from the start state all paths to
/// a match pass an assertion of that end.
///
/// # Errors
///
/// Out of memory.
///
/// # Complexity
///
/// Time linear in the states, and one byte of memory for each.
pub fn ends_with_slice(alloc: Global, program: &Program) -> Result<bool, AllocError>
    ensures { IfOk result (λ ends. IsTrue ends → EndsWithSlice (character_program program.now)) }
{
    let states = program.states();
    let mut marks = vec![in alloc; false; states.len()]?;
    mark(&mut marks, program.start());
    for _ in 0..ROUNDS {
        match go_through(&mut marks, states) {
            Told::Match => return Ok(false),
            Told::More => {}
            Told::Closed => return Ok(true),
        }
    }
    Ok(false)
}
