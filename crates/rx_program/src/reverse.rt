//! Reverse programs.

ghost use Rattle.std.specs.Prelude.{◌≡◌, ◌+◌, ◌*◌, ◌<◌, ◌^◌, ◌++◌, ◌∷◌, length, map, All, IfOk, IfSome, OnOk};
ghost use Rattle.rx_walks.specs.Programs.{match, pass};
ghost use Rattle.rx_walks.specs.Reversed.{arrived, back_program, edge_back, indexed, is_match, is_match_of, those};
ghost use Rattle.rx_utf8.specs.Subsets.{lists_of};
ghost use Rattle.rx_program.specs.Arrivals.{unions};
ghost use Rattle.rx_program.specs.Programs.{character_program, node_of};
ghost use Rattle.rx_program.specs.Reversed.{IsReverseByteProgram, ReadsBackwards, ReadsItsSetBack, back_characters_of, back_node_of};

use crate::arrivals::{arrivals, ends, ends_by_pattern};
use crate::automata::ReverseAutomata;
use crate::program::Program;
use crate::reverse_states::ReverseState;
use crate::states::State;
use rx_util::{PatternID, StateID};
use std::alloc::{AllocError, Global};
use std::marker::Model;

/// A reverse program: its walks over a haystack that is read backward are those of the program,
/// from their ends to their starts. It is built by `Program::reversed`. Contracts see the states,
/// the start states, and the line terminator (`ReverseByteProgram`); `back_characters_of` is the
/// corresponding program over characters.
#[derive(Debug, Drop)]
pub struct ReverseProgram {
    states: Vec<ReverseState>,
    start: StateID,
    patterns: Vec<StateID>,
    line_terminator: u8,
}

impl Model for ReverseProgram {
    ghost use Rattle.std.specs.Prelude.{All};
    ghost use Rattle.rx_program.specs.Reversed.{ReverseByteProgram, ReadsItsSetBack};

    ghost Value = { ReverseByteProgram };

    ghost view = { λ p. record {
      states = p.states.items;
      start = p.start;
      patterns = p.patterns.items;
      line_terminator = p.line_terminator;
    } };

    ghost invariant = { λ p. All ReadsItsSetBack p.states.items };
}

impl ReverseProgram {
    /// Returns the allocator of the lists.
    pub fn allocator(&self) -> Global {
        *self.states.allocator()
    }

    /// Returns the states, by number.
    pub fn states(&self) -> &[ReverseState]
        ensures states { result.now ≡ self.now.states }
        ensures reads { All ReadsItsSetBack result.now }
    {
        &self.states
    }

    /// Returns the start state of searches that name no pattern.
    pub fn start(&self) -> StateID
        ensures { result ≡ self.now.start }
    {
        self.start
    }

    /// Returns the start state of each pattern.
    pub fn patterns(&self) -> &[StateID]
        ensures { result.now ≡ self.now.patterns }
    {
        &self.patterns
    }

    /// Returns the line terminator.
    pub fn line_terminator(&self) -> u8
        ensures { result ≡ self.now.line_terminator }
    {
        self.line_terminator
    }

    /// A law, for the proof only: its automata read the characters of their sets from the last byte
    /// to the first, and never return to their first state.
    pub fn reads_backwards(&self)
        ensures { IsReverseByteProgram self.now }
    {
        let _states = self.states(); // for the proof: each automaton reads its set
    }
}

/// Returns the number of the start state at the ends of all matches, for a program with these
/// numbers of states and patterns; `None` if the reverse program has too many states for a `usize`.
fn first_start(states: usize, patterns: usize) -> Option<usize>
    ensures start { IfSome result (λ start. start ≡ 2 * states + patterns) }
    ensures room { IfSome result (λ start. start + patterns + 1 < 2 ^ 64) }
{
    let start = states.checked_mul(2)?.checked_add(patterns)?;
    start.checked_add(patterns)?.checked_add(1)?;
    Some(start)
}

/// Appends a state for each list, with epsilon transitions to its states.
fn push_unions(
    alloc: Global,
    states: &mut Vec<ReverseState>,
    lists: &[Vec<StateID>],
) -> Result<(), AllocError>
    requires { All ReadsItsSetBack states.old.items }
    ensures nodes { OnOk result (map back_node_of states.new.items
        ≡ map back_node_of states.old.items ++ unions (lists_of lists.now)) }
    ensures reads { OnOk result (All ReadsItsSetBack states.new.items) }
{
    for list in lists {
        states.push(ReverseState::union(alloc, list)?)?;
    }
    Ok(())
}

/// Appends for each state one from which backward walks go on when they have reached it.
fn push_arrivals(
    alloc: Global,
    states: &mut Vec<ReverseState>,
    forward: &[State],
    patterns: &[StateID],
) -> Result<(), AllocError>
    requires room { 2 * length forward.now + length patterns.now < 2 ^ 64 }
    requires reads { All ReadsItsSetBack states.old.items }
    ensures nodes { let nodes = map node_of forward.now in
        OnOk result (map back_node_of states.new.items ≡ map back_node_of states.old.items
        ++ indexed (λ q node. pass (arrived nodes patterns.now q)) 0 nodes) }
    ensures reads { OnOk result (All ReadsItsSetBack states.new.items) }
{
    let lists = arrivals(alloc, forward, patterns)?;
    push_unions(alloc, states, &lists)
}

/// Returns the edge of a state, backward to it.
fn edge_back(
    alloc: Global,
    automata: &mut ReverseAutomata,
    state: &State,
    from: StateID,
) -> Result<ReverseState, AllocError>
    ensures node { IfOk result (λ back. back_node_of back ≡ edge_back from (node_of state.now)) }
    ensures reads { IfOk result ReadsItsSetBack }
{
    Ok(match state {
        State::Ranges(automaton, _) => ReverseState::Ranges(automata.automaton(automaton)?, from),
        State::Look(look, _) => ReverseState::Look(*look, from),
        State::Empty(_) => ReverseState::Empty(from),
        State::BinaryUnion(_, _) => ReverseState::Empty(from),
        State::Union(_) => ReverseState::Empty(from),
        State::Capture(_, _) => ReverseState::Empty(from),
        State::Match(_) => ReverseState::Union(Vec::new(alloc)),
    })
}

/// Appends the edges of each state, backward.
fn push_edges_back(
    alloc: Global,
    states: &mut Vec<ReverseState>,
    forward: &[State],
) -> Result<(), AllocError>
    requires { All ReadsItsSetBack states.old.items }
    ensures nodes { OnOk result (map back_node_of states.new.items
        ≡ map back_node_of states.old.items ++ indexed edge_back 0 (map node_of forward.now)) }
    ensures reads { OnOk result (All ReadsItsSetBack states.new.items) }
{
    let mut automata = ReverseAutomata::new(alloc);
    for from in 0..forward.len() {
        states.push(edge_back(alloc, &mut automata, &forward[from], StateID::new(from))?)?;
    }
    Ok(())
}

/// Appends for each pattern the state in which its backward walks end.
fn push_matches(states: &mut Vec<ReverseState>, patterns: &[StateID]) -> Result<(), AllocError>
    requires { All ReadsItsSetBack states.old.items }
    ensures nodes { OnOk result (map back_node_of states.new.items
        ≡ map back_node_of states.old.items ++ indexed (λ k start. match k) 0 patterns.now) }
    ensures reads { OnOk result (All ReadsItsSetBack states.new.items) }
{
    for number in 0..patterns.len() {
        states.push(ReverseState::Match(PatternID::new(number)))?;
    }
    Ok(())
}

/// Appends the start states of backward walks: at the ends of all matches, and at those of each
/// pattern's.
fn push_starts(
    alloc: Global,
    states: &mut Vec<ReverseState>,
    forward: &[State],
    patterns: &[StateID],
) -> Result<(), AllocError>
    requires { All ReadsItsSetBack states.old.items }
    ensures nodes { let nodes = map node_of forward.now in
        OnOk result (map back_node_of states.new.items ≡ map back_node_of states.old.items
        ++ (pass (those is_match 0 nodes)
        ∷ indexed (λ k start. pass (those (is_match_of k) 0 nodes)) 0 patterns.now)) }
    ensures reads { OnOk result (All ReadsItsSetBack states.new.items) }
{
    let all = ends(alloc, forward)?;
    states.push(ReverseState::union(alloc, &all)?)?;
    let lists = ends_by_pattern(alloc, forward, patterns.len())?;
    push_unions(alloc, states, &lists)
}

/// Returns the numbers from `first` on, as many as there are patterns.
fn numbers_from(
    alloc: Global,
    first: usize,
    patterns: &[StateID],
) -> Result<Vec<StateID>, AllocError>
    requires { first + length patterns.now < 2 ^ 64 }
    ensures { IfOk result (λ starts. starts.items ≡ indexed (λ k start. first + k) 0 patterns.now) }
{
    let mut starts = Vec::new(alloc);
    for number in 0..patterns.len() {
        starts.push(StateID::new(first + number))?;
    }
    Ok(starts)
}

impl Program {
    /// Returns the reverse program. In each haystack its walks over bytes, from the haystack's end,
    /// are those of this program, from their ends to their starts: from its start state those of
    /// all patterns, and from each pattern's own those that match this pattern.
    ///
    /// # Errors
    ///
    /// Out of memory.
    ///
    /// # Complexity
    ///
    /// It has twice as many states, plus two for each pattern and one: at most three times as many
    /// as the program. Time and memory are proportional to these and to the reverse automata of the
    /// sets, each of which is built once.
    pub fn reversed(&self) -> Result<ReverseProgram, AllocError>
        ensures characters { IfOk result (λ back. back_characters_of back
            ≡ back_program (character_program self.now)) }
        ensures reads { IfOk result IsReverseByteProgram }
        ensures walks { IfOk result (λ back. ReadsBackwards back (character_program self.now)) }
    {
        let alloc = self.allocator();
        let Some(start) = first_start(self.states().len(), self.patterns().len()) else {
            return Err(AllocError);
        };
        let mut states = Vec::new(alloc);
        push_arrivals(alloc, &mut states, self.states(), self.patterns())?;
        push_edges_back(alloc, &mut states, self.states())?;
        push_matches(&mut states, self.patterns())?;
        push_starts(alloc, &mut states, self.states(), self.patterns())?;
        Ok(ReverseProgram {
            states,
            start: StateID::new(start),
            patterns: numbers_from(alloc, start + 1, self.patterns())?,
            line_terminator: self.line_terminator(),
        })
    }
}
