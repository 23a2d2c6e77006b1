//! The step from the threads at an offset to those at the offset before, with a reverse program.

ghost use Rattle.std.specs.Prelude.{ℕ, ◌≡◌, ◌+◌, ◌≤◌, ◌∷◌, [], All, List, length, map, None, Some, IfOk, OnOk, IfErr, MatchOption, slice_get};
ghost use Rattle.rx_util.specs.declared.search.MatchError.{MatchError};
ghost use Rattle.rx_program.specs.declared.states.State.{State};
ghost use Rattle.rx_utf8.specs.Automata.{step_of};
ghost use Rattle.rx_steps.specs.Nodes.{widths_of, width_of, node_starts, end_from, node_count, IsNodeIn, MayStand, AreCounted};
ghost use Rattle.rx_steps.specs.Threads.{Slots, Waiting, IsThreadOf};
ghost use Rattle.rx_steps.specs.Lists.{IsMade, move_at, noted_at, fan_of, read_next, work_left};
ghost use Rattle.rx_steps.specs.ListsAll.{FollowsAll, nodes_of, end_met_by};
ghost use Rattle.rx_steps.specs.Reversed.{IsNextListBack, byte_program_of, state_of};

use crate::node::Node;
use crate::pending::Pending;
use crate::place::Place;
use crate::started::least;
use crate::stepper::{Closure, Stepper};
use crate::thread_list::ThreadList;
use crate::visited::Visited;
use rx_program::{ReverseProgram, ReverseState};
use rx_utf8::ReverseAutomaton;
use rx_util::{MatchError, PatternID, StateID};
use std::alloc::{AllocError, Global};

/// Returns the state with this number, if there is one.
fn state_at(states: &[ReverseState], id: StateID) -> Option<&ReverseState>
    ensures { MatchOption result (slice_get (map state_of states.now) id ≡ None)
        (λ state. slice_get (map state_of states.now) id ≡ Some (state_of state.now)) }
{
    states.get(id.as_usize())
}

/// Adds a thread at the node to which the byte leads.
fn read(
    automaton: &ReverseAutomaton,
    on: StateID,
    place: &Place,
    node: Node,
    next: &mut ThreadList,
) -> Result<(), AllocError>
    requires slots { next.old.slot_len ≡ 0 }
    ensures made { OnOk result ((i : ℕ) → (noted : Slots) → (w : Waiting) → w.slots ≡ []
        → IsMade (read_next (step_of automaton.now) node.0 on node.1 i place.now.byte) noted None
        w w next.old.threads next.new.threads) }
    ensures threads { OnOk result ((states : List State) → MayStand (slice_get states node.0) 1
        → All (IsThreadOf states) next.old.threads
        → All (IsThreadOf states) next.new.threads) }
    ensures slot_len { next.new.slot_len ≡ next.old.slot_len }
{
    let Some(byte) = place.byte else {
        return Ok(());
    };
    match automaton.step(node.within(), byte) {
        None => {}
        Some(None) => next.push(Node::first(on), &[])?,
        Some(Some(within)) => next.push(Node::new(node.state(), within), &[])?,
    }
    Ok(())
}

/// Makes the move of a state: a match starts, or threads wait at states, or a thread goes into the
/// next list.
fn make_move(
    pending: &mut Pending,
    state: &ReverseState,
    place: &Place,
    node: Node,
    next: &mut ThreadList,
) -> Result<Option<PatternID>, AllocError>
    requires slots { pending.old.slots ≡ [] }
    requires slot_len { next.old.slot_len ≡ 0 }
    ensures made { IfOk result (λ met. (i : ℕ)
        → IsMade (move_at place.now i node (state_of state.now))
        (noted_at place.now (state_of state.now) pending.old.slots) met pending.old pending.new
        next.old.threads next.new.threads) }
    ensures fan { OnOk result
        (pending.new.size ≤ pending.old.size + fan_of (state_of state.now)) }
    ensures threads { OnOk result ((states : List State)
        → slice_get states node.0 ≡ Some (state_of state.now)
        → All (IsThreadOf states) next.old.threads
        → All (IsThreadOf states) next.new.threads) }
    ensures slots { OnOk result (pending.new.slots ≡ []) }
    ensures slot_len { next.new.slot_len ≡ next.old.slot_len }
{
    match state {
        ReverseState::Ranges(automaton, on) => read(automaton, *on, place, node, next)?,
        ReverseState::Look(look, on) => {
            if place.looks.has(*look) {
                pending.push(*on)?;
            }
        }
        ReverseState::Empty(on) => pending.push(*on)?,
        ReverseState::BinaryUnion(first, second) => {
            pending.push(*second)?;
            pending.push(*first)?;
        }
        ReverseState::Union(alternates) => pending.push_all(alternates)?,
        ReverseState::Match(pattern) => return Ok(Some(*pattern)),
    }
    Ok(None)
}

impl Closure {
    /// Follows a node of a reverse program, unless it was seen at this offset.
    fn enter_back(
        &mut self,
        program: &ReverseProgram,
        place: &Place,
        node: Node,
        next: &mut ThreadList,
    ) -> Result<Option<PatternID>, AllocError>
        requires made { self.old.visited.widths ≡ widths_of (byte_program_of program.now) }
        requires node { IsNodeIn (byte_program_of program.now).states node }
        requires slots { self.old.pending.slots ≡ [] }
        requires slot_len { next.old.slot_len ≡ 0 }
        ensures all { IfOk result (λ met. (start : ℕ)
            → FollowsAll (byte_program_of program.now) place.now start
            (node ∷ nodes_of self.old.pending.threads) (nodes_of self.new.pending.threads)
            self.old.visited.ids self.new.visited.ids next.old.threads next.new.threads
            (end_met_by start met)) }
        ensures threads { OnOk result
            (All (IsThreadOf (byte_program_of program.now).states) next.old.threads
            → All (IsThreadOf (byte_program_of program.now).states) next.new.threads) }
        ensures widths { self.new.visited.widths ≡ self.old.visited.widths }
        ensures less { OnOk result
            (work_left (byte_program_of program.now) self.new.visited.ids self.new.pending.size
            ≤ work_left (byte_program_of program.now) self.old.visited.ids self.old.pending.size) }
        ensures counted { AreCounted self.old.visited self.new.visited }
        ensures room { length self.old.visited.ids ≤ node_count (byte_program_of program.now)
            → length self.new.visited.ids ≤ node_count (byte_program_of program.now) }
        ensures slots { OnOk result (self.new.pending.slots ≡ []) }
        ensures slot_len { next.new.slot_len ≡ next.old.slot_len }
    {
        let Some(state) = state_at(program.states(), node.state()) else {
            return Ok(None);
        };
        if !self.visited.insert(node) {
            return Ok(None);
        }
        make_move(&mut self.pending, state, place, node, next)
    }

    /// Follows a thread and all epsilon transitions from it. Returns the least of the patterns
    /// whose matches may start there.
    fn follow_back(
        &mut self,
        program: &ReverseProgram,
        place: &Place,
        node: Node,
        next: &mut ThreadList,
    ) -> Result<Option<PatternID>, AllocError>
        requires made { self.old.visited.widths ≡ widths_of (byte_program_of program.now) }
        requires node { IsNodeIn (byte_program_of program.now).states node }
        requires slot_len { next.old.slot_len ≡ 0 }
        ensures followed { IfOk result (λ met. (start : ℕ)
            → FollowsAll (byte_program_of program.now) place.now start (node ∷ []) []
            self.old.visited.ids self.new.visited.ids next.old.threads next.new.threads
            (end_met_by start met)) }
        ensures threads { OnOk result
            (All (IsThreadOf (byte_program_of program.now).states) next.old.threads
            → All (IsThreadOf (byte_program_of program.now).states) next.new.threads) }
        ensures widths { self.new.visited.widths ≡ self.old.visited.widths }
        ensures counted { AreCounted self.old.visited self.new.visited }
        ensures room { length self.old.visited.ids ≤ node_count (byte_program_of program.now)
            → length self.new.visited.ids ≤ node_count (byte_program_of program.now) }
        ensures slot_len { next.new.slot_len ≡ next.old.slot_len }
    {
        self.pending.begin(&[])?;
        let mut best = self.enter_back(program, place, node, next)?;
        while let Some(state) = self.pending.pop() {
            let met = self.enter_back(program, place, Node::first(state), next)?;
            best = least(best, met);
        }
        Ok(best)
    }
}

/// Returns the number of nodes of a state.
fn width(state: &ReverseState) -> usize
    ensures { result ≡ width_of (state_of state.now) }
{
    match state {
        ReverseState::Ranges(automaton, _) => automaton.state_count(),
        _ => 1,
    }
}

/// Returns the index of each state's first node and the number of all nodes, as a list, and that
/// number.
fn starts_of(alloc: Global, states: &[ReverseState]) -> Result<(Vec<usize>, usize), AllocError>
    ensures starts { IfOk result (λ made. made.0.items
        ≡ node_starts 0 (map width_of (map state_of states.now))) }
    ensures end { IfOk result (λ made. made.1
        ≡ end_from 0 (map width_of (map state_of states.now))) }
{
    let mut starts = Vec::new(alloc);
    let mut end = 0_usize;
    for state in states {
        starts.push(end)?;
        let Some(next) = end.checked_add(width(state)) else {
            return Err(AllocError);
        };
        end = next;
    }
    starts.push(end)?;
    Ok((starts, end))
}

impl Stepper {
    /// Returns room for steps of a reverse program.
    ///
    /// # Errors
    ///
    /// `Memory`.
    ///
    /// # Complexity
    ///
    /// Memory proportional to the program's states and those of their automata.
    pub fn new_back(alloc: Global, program: &ReverseProgram) -> Result<Stepper, MatchError>
        ensures made { IfOk result
            (λ stepper. stepper.widths ≡ widths_of (byte_program_of program.now)) }
        ensures refused { IfErr result (λ error. error ≡ MatchError.Memory) }
    {
        let (starts, end) = starts_of(alloc, program.states())?;
        Ok(Stepper {
            closure: Closure {
                visited: Visited::over(alloc, starts, end)?,
                pending: Pending::new(alloc),
            },
            reached: ThreadList::new(alloc, 0),
        })
    }

    /// Computes into `next` the threads at the offset before, for threads at these nodes at this
    /// one. A match that starts here stops no thread; returns the least pattern of those that start
    /// here. No slots are written.
    ///
    /// # Requires
    ///
    /// This is for the program, and the threads are at nodes of it.
    ///
    /// # Errors
    ///
    /// `Memory`; the contents of `next` are unspecified then.
    ///
    /// # Complexity
    ///
    /// Follows each node at most once, in time proportional to its transitions, and takes no memory
    /// beyond what the program needs.
    pub fn next_list_back(
        &mut self,
        program: &ReverseProgram,
        place: &Place,
        threads: &ThreadList,
        next: &mut ThreadList,
    ) -> Result<Option<PatternID>, MatchError>
        requires made { self.old.widths ≡ widths_of (byte_program_of program.now) }
        requires threads { All (IsThreadOf (byte_program_of program.now).states)
            threads.now.threads }
        ensures list { IfOk result (IsNextListBack (byte_program_of program.now) place.now
            (nodes_of threads.now.threads) (nodes_of next.new.threads)) }
        ensures threads { OnOk result
            (All (IsThreadOf (byte_program_of program.now).states) next.new.threads) }
        ensures slot_len { OnOk result (next.new.slot_len ≡ 0) }
        ensures made { self.new.widths ≡ self.old.widths }
        ensures work { self.new.followed
            ≤ self.old.followed + node_count (byte_program_of program.now) }
        ensures refused { IfErr result (λ error. error ≡ MatchError.Memory) }
    {
        self.closure.visited.clear();
        next.clear(0);
        let mut best = None;
        for index in 0..threads.len() {
            let met = self
                .closure
                .follow_back(program, place, threads.node(index), next)?;
            best = least(best, met);
        }
        Ok(best)
    }
}
