//! The step from the ordered threads at an offset to those at the next one.

ghost use Rattle.std.specs.Prelude.{ℕ, ◌≡◌, ◌+◌, ◌++◌, ◌≤◌, ◌∷◌, [], All, List, length, None, Some, IfOk, OnOk, IfErr, MatchOption, slice_get};
ghost use Rattle.rx_util.specs.declared.search.MatchError.{MatchError};
ghost use Rattle.rx_program.specs.declared.states.State.{State};
ghost use Rattle.rx_walks.specs.Machines.{Machine};
ghost use Rattle.rx_walks.specs.Steps.{Thins};
ghost use Rattle.rx_utf8.specs.Automata.{step_of};
ghost use Rattle.rx_steps.specs.Nodes.{widths_of, node_count, IsNodeIn, MayStand, AreCounted};
ghost use Rattle.rx_steps.specs.Threads.{Slots, Thread, Waiting, IsThreadOf};
ghost use Rattle.rx_steps.specs.Lists.{IsNextList, IsMade, move_at, noted_at, fan_of, MakesMoves, AreUnderWay, AreFollowed, IsThinning, read_next, work_left};
ghost use Rattle.rx_steps.specs.ListsAll.{FollowsAll, IsNextListAll, IsStartedOf, nodes_of, end_met_by};

use crate::node::Node;
use crate::pending::Pending;
use crate::place::Place;
use crate::started::{MetEnd, StartedNode, better, met_end, push_started};
use crate::thread_list::ThreadList;
use crate::visited::Visited;
use rx_program::{Program, State};
use rx_utf8::SetAutomaton;
use rx_util::{MatchError, NonMaxUsize, PatternID, StateID};
use std::alloc::{AllocError, Global};
use std::marker::Model;

/// Returns the state with this number, if there is one.
#[inline(always)]
fn state_at(states: &[State], id: StateID) -> Option<&State>
    ensures { MatchOption result (slice_get states.now id ≡ None)
        (λ state. slice_get states.now id ≡ Some state.now) }
{
    states.get(id.as_usize())
}

/// Adds a thread at the node to which the byte leads.
#[inline(always)]
fn read(
    automaton: &SetAutomaton,
    on: StateID,
    place: &Place,
    node: Node,
    slots: &[Option<NonMaxUsize>],
    next: &mut ThreadList,
) -> Result<(), AllocError>
    requires slots { length slots.now ≡ next.old.slot_len }
    ensures made { OnOk result ((i : ℕ) → (noted : Slots) → (w : Waiting)
        → w.slots ≡ slots.now
        → IsMade (read_next (step_of automaton.now) node.0 on node.1 i place.now.byte) noted None
        w w next.old.threads next.new.threads) }
    ensures threads { OnOk result ((states : List State) → MayStand (slice_get states node.0) 1
        → All (IsThreadOf states) next.old.threads
        → All (IsThreadOf states) next.new.threads) }
    ensures slot_len { next.new.slot_len ≡ next.old.slot_len }
{
    let Some(byte) = place.byte else {
        return Ok(());
    };
    match automaton.step(node.within(), byte) {
        None => {}
        Some(None) => next.push(Node::first(on), slots)?,
        Some(Some(within)) => next.push(Node::new(node.state(), within), slots)?,
    }
    Ok(())
}

/// Makes the move of a state: a match ends, or threads wait at states, or a thread goes into the
/// next list.
#[inline(always)]
fn make_move(
    pending: &mut Pending,
    state: &State,
    place: &Place,
    node: Node,
    next: &mut ThreadList,
) -> Result<Option<PatternID>, AllocError>
    requires slots { length pending.old.slots ≡ next.old.slot_len }
    ensures made { IfOk result (λ met. (i : ℕ) → IsMade (move_at place.now i node state.now)
        (noted_at place.now state.now pending.old.slots) met pending.old pending.new
        next.old.threads next.new.threads) }
    ensures fan { OnOk result (pending.new.size ≤ pending.old.size + fan_of state.now) }
    ensures threads { OnOk result ((states : List State) → slice_get states node.0 ≡ Some state.now
        → All (IsThreadOf states) next.old.threads
        → All (IsThreadOf states) next.new.threads) }
    ensures slots { OnOk result (length pending.new.slots ≡ length pending.old.slots) }
    ensures slot_len { next.new.slot_len ≡ next.old.slot_len }
{
    match state {
        State::Ranges(automaton, on) => read(automaton, *on, place, node, pending.slots(), next)?,
        State::Look(look, on) => {
            if place.looks.has(*look) {
                pending.push(*on)?;
            }
        }
        State::Empty(on) => pending.push(*on)?,
        State::Capture(slot, on) => {
            pending.note(*slot, place.at)?;
            pending.push(*on)?;
        }
        State::BinaryUnion(first, second) => {
            pending.push(*second)?;
            pending.push(*first)?;
        }
        State::Union(alternates) => pending.push_all(alternates)?,
        State::Match(pattern) => return Ok(Some(*pattern)),
    }
    Ok(None)
}

/// The state of an epsilon closure while it is computed.
#[derive(Debug, Drop)]
pub(crate) struct Closure {
    pub(crate) visited: Visited,
    pub(crate) pending: Pending,
}

impl Closure {
    /// Follows a node with the current slots, unless it was seen at this offset.
    #[inline(always)]
    fn enter(
        &mut self,
        program: &Program,
        place: &Place,
        node: Node,
        next: &mut ThreadList,
    ) -> Result<Option<PatternID>, AllocError>
        requires made { self.old.visited.widths ≡ widths_of program.now }
        requires node { IsNodeIn program.now.states node }
        requires slots { length self.old.pending.slots ≡ next.old.slot_len }
        ensures followed { IfOk result (λ met. (m : Machine (ℕ × ℕ) Slots) → (i : ℕ)
            → (threads : List Thread) → (others : List Thread)
            → MakesMoves m i program.now.states place.now
            → AreUnderWay m i threads (widths_of program.now) self.old.visited.ids
            ((self.old.pending.slots, node) ∷ self.old.pending.threads ++ others) next.old.threads
            → AreFollowed m i threads (widths_of program.now) self.new.visited.ids
            (self.new.pending.threads ++ others) next.new.threads self.new.pending.slots met) }
        ensures all { IfOk result (λ met. (start : ℕ) → FollowsAll program.now place.now start
            (node ∷ nodes_of self.old.pending.threads) (nodes_of self.new.pending.threads)
            self.old.visited.ids self.new.visited.ids next.old.threads next.new.threads
            (end_met_by start met)) }
        ensures threads { OnOk result (All (IsThreadOf program.now.states) next.old.threads
            → All (IsThreadOf program.now.states) next.new.threads) }
        ensures widths { self.new.visited.widths ≡ self.old.visited.widths }
        ensures less { OnOk result
            (work_left program.now self.new.visited.ids self.new.pending.size
            ≤ work_left program.now self.old.visited.ids self.old.pending.size) }
        ensures counted { AreCounted self.old.visited self.new.visited }
        ensures room { length self.old.visited.ids ≤ node_count program.now
            → length self.new.visited.ids ≤ node_count program.now }
        ensures slots { OnOk result
            (length self.new.pending.slots ≡ length self.old.pending.slots) }
        ensures slot_len { next.new.slot_len ≡ next.old.slot_len }
    {
        let Some(state) = state_at(program.states(), node.state()) else {
            return Ok(None);
        };
        if !self.visited.insert(node) {
            return Ok(None);
        }
        make_move(&mut self.pending, state, place, node, next)
    }

    /// Follows a thread and all epsilon transitions from it, in order of preference, up to a match
    /// end; the current slots are those of the match then.
    fn follow(
        &mut self,
        program: &Program,
        place: &Place,
        slots: &[Option<NonMaxUsize>],
        node: Node,
        next: &mut ThreadList,
    ) -> Result<Option<PatternID>, AllocError>
        requires made { self.old.visited.widths ≡ widths_of program.now }
        requires node { IsNodeIn program.now.states node }
        requires slots { length slots.now ≡ next.old.slot_len }
        ensures followed { IfOk result (λ met. (m : Machine (ℕ × ℕ) Slots) → (i : ℕ)
            → (threads : List Thread) → (others : List Thread)
            → MakesMoves m i program.now.states place.now
            → AreUnderWay m i threads (widths_of program.now) self.old.visited.ids
            ((slots.now, node) ∷ others) next.old.threads
            → AreFollowed m i threads (widths_of program.now) self.new.visited.ids
            others next.new.threads self.new.pending.slots met) }
        ensures threads { OnOk result (All (IsThreadOf program.now.states) next.old.threads
            → All (IsThreadOf program.now.states) next.new.threads) }
        ensures widths { self.new.visited.widths ≡ self.old.visited.widths }
        ensures counted { AreCounted self.old.visited self.new.visited }
        ensures room { length self.old.visited.ids ≤ node_count program.now
            → length self.new.visited.ids ≤ node_count program.now }
        ensures slot_len { next.new.slot_len ≡ next.old.slot_len }
    {
        self.pending.begin(slots)?;
        if let Some(pattern) = self.enter(program, place, node, next)? {
            return Ok(Some(pattern));
        }
        while let Some(state) = self.pending.pop() {
            if let Some(pattern) = self.enter(program, place, Node::first(state), next)? {
                return Ok(Some(pattern));
            }
        }
        Ok(None)
    }
}

impl Closure {
    /// Follows a thread and all epsilon transitions from it, also past match ends, and returns the
    /// best match end.
    fn follow_all(
        &mut self,
        program: &Program,
        place: &Place,
        from: StartedNode,
        next: &mut ThreadList,
    ) -> Result<Option<MetEnd>, AllocError>
        requires made { self.old.visited.widths ≡ widths_of program.now }
        requires node { IsNodeIn program.now.states from.1 }
        requires slots { next.old.slot_len ≡ 0 }
        ensures followed { IfOk result (λ met. FollowsAll program.now place.now from.0
            (from.1 ∷ []) [] self.old.visited.ids self.new.visited.ids next.old.threads
            next.new.threads met) }
        ensures threads { OnOk result (All (IsThreadOf program.now.states) next.old.threads
            → All (IsThreadOf program.now.states) next.new.threads) }
        ensures widths { self.new.visited.widths ≡ self.old.visited.widths }
        ensures counted { AreCounted self.old.visited self.new.visited }
        ensures room { length self.old.visited.ids ≤ node_count program.now
            → length self.new.visited.ids ≤ node_count program.now }
        ensures slot_len { next.new.slot_len ≡ next.old.slot_len }
    {
        self.pending.begin(&[])?;
        let start = from.start();
        let mut best = met_end(start, self.enter(program, place, from.node(), next)?);
        while let Some(state) = self.pending.pop() {
            let met = self.enter(program, place, Node::first(state), next)?;
            best = better(best, met_end(start, met));
        }
        Ok(best)
    }
}

impl Closure {
    /// Adds a thread, unless there was one at its node before.
    fn put_first(
        &mut self,
        node: Node,
        slots: &[Option<NonMaxUsize>],
        thin: &mut ThreadList,
    ) -> Result<(), AllocError>
        requires slots { length slots.now ≡ thin.old.slot_len }
        ensures thinned { OnOk result ((threads : List Thread) → (others : List Thread)
            → IsThinning threads self.old.visited.widths self.old.visited.ids
            ((slots.now, node) ∷ others) thin.old.threads
            → IsThinning threads self.old.visited.widths self.new.visited.ids others
            thin.new.threads) }
        ensures threads { OnOk result ((states : List State) → IsNodeIn states node
            → All (IsThreadOf states) thin.old.threads
            → All (IsThreadOf states) thin.new.threads) }
        ensures widths { self.new.visited.widths ≡ self.old.visited.widths }
        ensures counted { AreCounted self.old.visited self.new.visited }
        ensures few { length self.new.visited.ids ≤ length self.old.visited.ids + 1 }
        ensures slot_len { thin.new.slot_len ≡ thin.old.slot_len }
    {
        if self.visited.has(node) {
            return Ok(());
        }
        self.visited.insert(node);
        thin.push(node, slots)?;
        Ok(())
    }
}

/// Room for steps. Contracts see the number of nodes of each state of its program, the slots, which
/// are those of the match after a step that met a match end, and the number of nodes that were
/// followed.
#[derive(Debug, Drop)]
pub struct Stepper {
    pub(crate) closure: Closure,
    // Room for the nodes to which one thread leads in a search for all matches.
    pub(crate) reached: ThreadList,
}

impl Model for Stepper {
    ghost use Rattle.rx_steps.specs.Threads.{StepperView};

    ghost Value = { StepperView };

    ghost view = { λ s. record {
      widths = s.closure.visited.widths;
      slots = s.closure.pending.slots;
      followed = s.closure.visited.followed;
    } };
}

impl Stepper {
    /// Returns room for steps of a program.
    ///
    /// # Errors
    ///
    /// `Memory`.
    ///
    /// # Complexity
    ///
    /// Memory proportional to the program's states and those of their automata.
    pub fn new(alloc: Global, program: &Program) -> Result<Stepper, MatchError>
        ensures made { IfOk result (λ stepper. stepper.widths ≡ widths_of program.now) }
        ensures refused { IfErr result (λ error. error ≡ MatchError.Memory) }
    {
        Ok(Stepper {
            closure: Closure {
                visited: Visited::new(alloc, program)?,
                pending: Pending::new(alloc),
            },
            reached: ThreadList::new(alloc, 0),
        })
    }

    /// Returns room for steps of the same program, as `new` does.
    ///
    /// # Errors
    ///
    /// `Memory`.
    pub fn another(&self) -> Result<Stepper, MatchError>
        ensures widths { IfOk result (λ stepper. stepper.widths ≡ self.now.widths) }
        ensures followed { IfOk result (λ stepper. stepper.followed ≡ 0) }
        ensures refused { IfErr result (λ error. error ≡ MatchError.Memory) }
    {
        Ok(Stepper {
            closure: Closure {
                visited: self.closure.visited.another()?,
                pending: Pending::new(self.allocator()),
            },
            reached: ThreadList::new(self.allocator(), 0),
        })
    }

    /// Returns the allocator of the lists.
    pub(crate) fn allocator(&self) -> Global {
        self.closure.visited.allocator()
    }

    /// Returns the approximate number of bytes of the lists.
    pub(crate) fn memory_usage(&self) -> usize {
        self.closure
            .visited
            .memory_usage()
            .saturating_add(self.closure.pending.memory_usage())
            .saturating_add(self.reached.memory_usage())
    }

    /// Returns the slots of the match whose end the last step met.
    pub fn slots(&self) -> &[Option<NonMaxUsize>]
        ensures { result.now ≡ self.now.slots }
    {
        self.closure.pending.slots()
    }

    /// Computes into `next` the threads at the next offset, in order of preference, for these
    /// threads at this one, up to the first match end. Returns the pattern of that match; `slots`
    /// returns its slots. The offset is written into the slots that the program names, if the
    /// threads have these.
    ///
    /// # Requires
    ///
    /// This is for the program, and the threads are at nodes of it.
    ///
    /// # Errors
    ///
    /// `Memory`; the contents of `next` are unspecified then.
    ///
    /// # Complexity
    ///
    /// Follows each node at most once, in time proportional to its transitions and to the slots of
    /// the threads, and takes no memory beyond what the program needs.
    pub fn next_list(
        &mut self,
        program: &Program,
        place: &Place,
        threads: &ThreadList,
        next: &mut ThreadList,
    ) -> Result<Option<PatternID>, MatchError>
        requires made { self.old.widths ≡ widths_of program.now }
        requires threads { All (IsThreadOf program.now.states) threads.now.threads }
        ensures list { IfOk result (λ met. IsNextList program.now place.now threads.now.threads
            next.new.threads met self.new.slots) }
        ensures threads { OnOk result (All (IsThreadOf program.now.states) next.new.threads) }
        ensures slot_len { next.new.slot_len ≡ threads.now.slot_len }
        ensures made { self.new.widths ≡ self.old.widths }
        ensures work { self.new.followed ≤ self.old.followed + node_count program.now }
        ensures refused { IfErr result (λ error. error ≡ MatchError.Memory) }
    {
        self.closure.visited.clear();
        next.clear(threads.slot_len());
        for index in 0..threads.len() {
            let slots = threads.slots(index);
            let node = threads.node(index);
            if let Some(pattern) = self.closure.follow(program, place, slots, node, next)? {
                return Ok(Some(pattern));
            }
        }
        Ok(None)
    }

    /// Computes into `next` the threads at the next offset for these threads at this one, each with
    /// the offset at which it started, also past match ends. Returns the best match end: that with
    /// the least start, then the least pattern. If several threads reach a node, the first in the
    /// list keeps it. No slots are written.
    ///
    /// # Requires
    ///
    /// This is for the program, and the threads are at nodes of it.
    ///
    /// # Errors
    ///
    /// `Memory`; the contents of `next` are unspecified then.
    ///
    /// # Complexity
    ///
    /// Follows each node at most once, in time proportional to its transitions, and takes no memory
    /// beyond what the program needs.
    pub fn next_list_all(
        &mut self,
        program: &Program,
        place: &Place,
        threads: &[StartedNode],
        next: &mut Vec<StartedNode>,
    ) -> Result<Option<MetEnd>, MatchError>
        requires made { self.old.widths ≡ widths_of program.now }
        requires threads { All (IsStartedOf program.now.states) threads.now }
        ensures list { IfOk result (λ met. IsNextListAll program.now place.now threads.now
            next.new.items met) }
        ensures threads { OnOk result (All (IsStartedOf program.now.states) next.new.items) }
        ensures made { self.new.widths ≡ self.old.widths }
        ensures work { self.new.followed ≤ self.old.followed + node_count program.now }
        ensures refused { IfErr result (λ error. error ≡ MatchError.Memory) }
    {
        self.closure.visited.clear();
        next.clear();
        let mut best = None;
        for thread in threads {
            self.reached.clear(0);
            let met = self
                .closure
                .follow_all(program, place, *thread, &mut self.reached)?;
            push_started(next, thread.start(), &self.reached)?;
            best = better(best, met);
        }
        Ok(best)
    }

    /// Copies the threads into `thin`, only the first of several at the same node: a step follows
    /// each node once, so the others lead nowhere. `O(n)` in the threads and their slots.
    ///
    /// # Errors
    ///
    /// `Memory`; the contents of `thin` are unspecified then.
    pub fn thin(&mut self, threads: &ThreadList, thin: &mut ThreadList) -> Result<(), MatchError>
        ensures thin { OnOk result (Thins [] threads.now.threads thin.new.threads) }
        ensures threads { OnOk result ((states : List State)
            → All (IsThreadOf states) threads.now.threads
            → All (IsThreadOf states) thin.new.threads) }
        ensures slot_len { thin.new.slot_len ≡ threads.now.slot_len }
        ensures made { self.new.widths ≡ self.old.widths }
        ensures work { self.new.followed ≤ self.old.followed + length threads.now.threads }
        ensures refused { IfErr result (λ error. error ≡ MatchError.Memory) }
    {
        let closure = &mut self.closure;
        closure.visited.clear();
        thin.clear(threads.slot_len());
        for index in 0..threads.len() {
            closure.put_first(threads.node(index), threads.slots(index), thin)?;
        }
        Ok(())
    }
}
