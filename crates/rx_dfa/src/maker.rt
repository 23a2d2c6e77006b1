//! Computes states from states.

ghost use Rattle.std.specs.Prelude.{◌≡◌, ◌++◌, All, IfOk, IfErr, OnOk};
ghost use Rattle.rx_util.specs.declared.search.MatchError.{MatchError};
ghost use Rattle.rx_steps.specs.Nodes.{widths_of};
ghost use Rattle.rx_steps.specs.Alike.{AreBare};
ghost use Rattle.rx_steps.specs.Threads.{IsThreadOf};
ghost use Rattle.rx_dfa.specs.Automata.{directed, directed_by};
ghost use Rattle.rx_dfa.specs.Behind.{looks_of};
ghost use Rattle.rx_dfa.specs.Directions.{IsList, looks_by, turned_looks};
ghost use Rattle.rx_dfa.specs.States.{started, place_of_step, IsStateOf, IsStep};

use crate::automaton::{Automaton, Way};
use crate::states::{Ahead, AutomatonState};
use rx_steps::{Looks, Node, Place, Stepper, ThreadList};
use rx_util::{MatchError, NonMaxUsize, PatternID, StateID};
use std::alloc::{AllocError, Global};

/// Adds a thread for each of the others, which have no slots.
fn push_all(threads: &mut ThreadList, others: &ThreadList) -> Result<(), AllocError>
    requires slots { threads.old.slot_len ≡ 0 }
    requires bare { AreBare others.now.threads }
    ensures threads { OnOk result
        (threads.new.threads ≡ threads.old.threads ++ others.now.threads) }
    ensures slot_len { threads.new.slot_len ≡ threads.old.slot_len }
{
    for index in 0..others.len() {
        threads.push(others.node(index), &[])?;
    }
    Ok(())
}

/// Returns the assertions that hold at a position, with its two sides swapped.
fn turned(looks: Looks) -> Looks
    ensures { result ≡ turned_looks looks }
{
    Looks {
        start: looks.end,
        end: looks.start,
        start_line: looks.end_line,
        end_line: looks.start_line,
        word_boundary: looks.word_boundary,
        no_word_boundary: looks.no_word_boundary,
    }
}

/// Returns the assertions that hold for a state's step.
fn looks_of(way: &Way, state: &AutomatonState, ahead: &Ahead) -> Looks
    ensures { result ≡ looks_by (directed_by way.now).is_back
        (looks_of (directed_by way.now).bytes.line_terminator state.now.behind ahead.now.seen) }
{
    let looks = state.behind.looks(way.line_terminator(), ahead.seen);
    match way {
        Way::Forward(_) => looks,
        Way::Back(_) => turned(looks),
    }
}

/// Returns the position of a state's step.
fn place_of(way: &Way, state: &AutomatonState, ahead: &Ahead) -> Place
    ensures { result ≡ place_of_step (directed_by way.now) state.now ahead.now }
{
    Place {
        at: NonMaxUsize::new(0).unwrap(),
        byte: ahead.read,
        looks: looks_of(way, state, ahead),
    }
}

/// Returns room for the steps of a program's threads.
fn stepper_of(alloc: Global, way: &Way) -> Result<Stepper, MatchError>
    ensures made { IfOk result
        (λ stepper. stepper.widths ≡ widths_of (directed_by way.now).bytes) }
    ensures refused { IfErr result (λ error. error ≡ MatchError.Memory) }
{
    match way {
        Way::Forward(program) => Stepper::new(alloc, program),
        Way::Back(reverse) => Stepper::new_back(alloc, reverse),
    }
}

/// Room for computing states.
#[derive(Debug, Drop)]
pub(crate) struct Maker {
    alloc: Global,
    stepper: Stepper,
    // The threads before and after a step.
    from: ThreadList,
    next: ThreadList,
}

impl Maker {
    /// Returns room for the steps of a program.
    ///
    /// # Errors
    ///
    /// `Memory`.
    pub(crate) fn new(alloc: Global, way: &Way) -> Result<Maker, MatchError>
        ensures made { IfOk result
            (λ maker. maker.stepper.widths ≡ widths_of (directed_by way.now).bytes) }
        ensures refused { IfErr result (λ error. error ≡ MatchError.Memory) }
    {
        Ok(Maker {
            alloc,
            stepper: stepper_of(alloc, way)?,
            from: ThreadList::new(alloc, 0),
            next: ThreadList::new(alloc, 0),
        })
    }

    /// Returns room for the steps of the same program.
    ///
    /// # Errors
    ///
    /// `Memory`.
    pub(crate) fn another(&self) -> Result<Maker, MatchError>
        ensures made { IfOk result (λ maker. maker.stepper.widths ≡ self.now.stepper.widths) }
        ensures refused { IfErr result (λ error. error ≡ MatchError.Memory) }
    {
        Ok(Maker {
            alloc: self.alloc,
            stepper: self.stepper.another()?,
            from: ThreadList::new(self.alloc, 0),
            next: ThreadList::new(self.alloc, 0),
        })
    }

    /// Returns the allocator.
    pub(crate) fn allocator(&self) -> Global {
        self.alloc
    }

    /// Copies the threads to step from, followed by a thread that starts in a state, if given.
    fn begin(&mut self, threads: &ThreadList, start: Option<StateID>) -> Result<(), AllocError>
        requires { AreBare threads.now.threads }
        ensures from { OnOk result
            (self.new.from.threads ≡ threads.now.threads ++ started start) }
        ensures slot_len { self.new.from.slot_len ≡ 0 }
        ensures stepper { self.new.stepper ≡ self.old.stepper }
    {
        self.from.clear(0);
        push_all(&mut self.from, threads)?;
        if let Some(start) = start {
            self.from.push(Node::first(start), &[])?;
        }
        Ok(())
    }

    /// Makes the step of the copied threads, which have no slots.
    fn step(&mut self, way: &Way, place: &Place) -> Result<Option<PatternID>, MatchError>
        requires made { self.old.stepper.widths ≡ widths_of (directed_by way.now).bytes }
        requires threads { All (IsThreadOf (directed_by way.now).bytes.states)
            self.old.from.threads }
        requires slots { self.old.from.slot_len ≡ 0 }
        ensures list { IfOk result (λ met. IsList (directed_by way.now).is_back
            (directed_by way.now).bytes place.now self.old.from.threads self.new.next.threads met
            self.new.stepper.slots) }
        ensures threads { OnOk result (All (IsThreadOf (directed_by way.now).bytes.states)
            self.new.next.threads) }
        ensures slots { OnOk result (self.new.next.slot_len ≡ 0) }
        ensures made { self.new.stepper.widths ≡ self.old.stepper.widths }
        ensures refused { IfErr result (λ error. error ≡ MatchError.Memory) }
    {
        let stepper = &mut self.stepper;
        match way {
            Way::Forward(program) => stepper.next_list(program, place, &self.from, &mut self.next),
            Way::Back(reverse) => {
                stepper.next_list_back(reverse, place, &self.from, &mut self.next)
            }
        }
    }

    /// Computes the state to which a state leads.
    ///
    /// # Errors
    ///
    /// `Memory`.
    pub(crate) fn next_state(
        &mut self,
        automaton: &Automaton,
        state: &AutomatonState,
        ahead: &Ahead,
    ) -> Result<AutomatonState, MatchError>
        requires made { self.old.stepper.widths ≡ widths_of (directed automaton.now).bytes }
        requires state { IsStateOf (directed automaton.now) state.now }
        ensures step { IfOk result (λ next. IsStep (directed automaton.now)
            automaton.now.alphabet.now.asked state.now ahead.now next) }
        ensures state { IfOk result (λ next. IsStateOf (directed automaton.now) next) }
        ensures made { self.new.stepper.widths ≡ self.old.stepper.widths }
        ensures refused { IfErr result (λ error. error ≡ MatchError.Memory) }
    {
        let start = state.starting.at(ahead.may_begin);
        self.begin(&state.threads, start)?;
        let place = place_of(&automaton.way, state, ahead);
        let ended = self.step(&automaton.way, &place)?;
        let mut threads = ThreadList::new(self.alloc, 0);
        self.stepper.thin(&self.next, &mut threads)?;
        // A law, for the proof only.
        threads.are_bare();
        Ok(AutomatonState {
            threads,
            starting: state.starting.after(&ended),
            behind: automaton.side(ahead.read),
            ended,
        })
    }
}
