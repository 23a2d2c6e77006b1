//! The forward pass: the preferred walk over leading nodes.

ghost use Rattle.std.specs.Prelude.{◌≡◌, ◌+◌, ◌<◌, ◌≤◌, Bool, [], ◌∷◌, All, IfOk, IfErr, IfSome, OnOk, IsSomeAnd, length, slice_get};
ghost use Rattle.rx_util.specs.declared.search.MatchError.{MatchError};
ghost use Rattle.rx_walks.specs.Finds.{IsInside};
ghost use Rattle.rx_walks.specs.Steps.{Steps};
ghost use Rattle.rx_walks.specs.Leading.{Follows};
ghost use Rattle.rx_walks.specs.ProgramFinds.{highest};
ghost use Rattle.rx_input.specs.Inputs.{IsMoved};
ghost use Rattle.rx_input.specs.Cursors.{IsSameContent};
ghost use Rattle.rx_steps.specs.Searching.{search_of};
ghost use Rattle.rx_steps.specs.Threads.{Slots, IsThreadOf, no_slots, first_node};
ghost use Rattle.rx_steps.specs.Lists.{met_at};
ghost use Rattle.rx_steps.specs.Coming.{machine_in};
ghost use Rattle.rx_lists.specs.Bits.{HasNode};
ghost use Rattle.rx_lists.specs.Blocks.{AreBlocks, BlockReaches};
ghost use Rattle.rx_lists.specs.Passes.{IsFirstAmong, IsWalking, outcome_of};

use crate::bits::Bits;
use crate::blocks::Blocks;
use crate::node_index::NodeIndex;
use counters::Counter;
use rx_input::{Cursor, Input};
use rx_program::Program;
use rx_steps::{AskedLooks, Node, Place, Stepper, ThreadList, advance};
use rx_util::{MatchError, PatternID, StateID};
use std::alloc::{AllocError, Global};

/// Returns the index of the first thread at a node of a set.
fn first_among(threads: &ThreadList, index: &NodeIndex, set: &Bits) -> Option<usize>
    ensures { IsFirstAmong threads.now.threads (λ q. HasNode index.now set.now q) result }
{
    for number in 0..threads.len() {
        if index.has(set, threads.node(number)) {
            return Some(number);
        }
    }
    None
}

/// The end of a match, and its pattern.
#[derive(Clone, Copy, Debug)]
pub(crate) struct Ending {
    pub(crate) pattern: PatternID,
    pub(crate) end: usize,
}

/// Returns the match end at an offset, if there is one.
fn ending_at(met: Option<PatternID>, end: usize) -> Option<Ending>
    ensures { (slots : Slots) → outcome_of result slots ≡ met_at end met slots }
{
    match met {
        Some(pattern) => Some(Ending { pattern, end }),
        None => None,
    }
}

/// A walk with a single thread.
#[derive(Debug, Drop)]
pub(crate) struct Walk {
    pub(crate) stepper: Stepper,
    // Whether the program has assertions.
    pub(crate) asks_looks: bool,
    // The thread.
    live: ThreadList,
    // Room for those at the next offset.
    next: ThreadList,
}

impl Walk {
    /// Returns room for walks over a program.
    ///
    /// # Errors
    ///
    /// `Memory`.
    pub(crate) fn new(alloc: Global, program: &Program) -> Result<Walk, MatchError>
        ensures ready { IfOk result (λ walk. IsWalking program.now walk.stepper.widths
            walk.asks_looks) }
        ensures refused { IfErr result (λ error. error ≡ MatchError.Memory) }
    {
        Ok(Walk {
            stepper: Stepper::new(alloc, program)?,
            asks_looks: AskedLooks::of(program.states()).any,
            live: ThreadList::new(alloc, 0),
            next: ThreadList::new(alloc, 0),
        })
    }

    /// Starts at a state, with `slot_len` slots.
    fn begin(&mut self, start: StateID, slot_len: usize) -> Result<(), AllocError>
        ensures live { OnOk result
            (self.new.live.threads ≡ (no_slots slot_len, first_node start) ∷ []) }
        ensures slot_len { self.new.live.slot_len ≡ slot_len }
        ensures stepper { self.new.stepper ≡ self.old.stepper }
        ensures asks_looks { self.new.asks_looks ≡ self.old.asks_looks }
    {
        self.live.clear(slot_len);
        self.live.push_fresh(Node::first(start))
    }

    /// Makes the step from the input's position to the threads at the next offset. Reads one more
    /// offset.
    fn step<C: Cursor>(
        &mut self,
        program: &Program,
        input: &mut Input<C>,
        read: &mut Counter,
    ) -> Result<Option<PatternID>, MatchError>
        requires ready { IsWalking program.now self.old.stepper.widths
            self.old.asks_looks }
        requires threads { All (IsThreadOf program.now.states) self.old.live.threads }
        ensures steps { IfOk result (λ met. (utf8_empty : Bool)
            → IsInside (search_of utf8_empty input.old) input.old.position
            → Steps (machine_in program.now (search_of utf8_empty input.old)) input.old.position []
            self.old.live.threads self.new.next.threads
            (met_at input.old.position met self.new.stepper.slots)) }
        ensures threads { OnOk result (All (IsThreadOf program.now.states) self.new.next.threads) }
        ensures ready { IsWalking program.now self.new.stepper.widths
            self.new.asks_looks }
        ensures slot_len { self.new.next.slot_len ≡ self.old.live.slot_len }
        ensures same { IsMoved input.old input.new input.old.position input.old.asked }
        ensures refused { IfErr result (λ error. error ≡ MatchError.Memory) }
        ensures counted { read.new ≡ read.old + 1 }
    {
        read.add();
        let place = Place::of(input, program.line_terminator(), self.asks_looks);
        self.stepper
            .next_list(program, &place, &self.live, &mut self.next)
    }

    /// Keeps one of the threads at the next offset.
    fn go_on(&mut self, number: usize) -> Result<(), AllocError>
        requires { number < length self.old.next.threads }
        ensures live { OnOk result (IsSomeAnd (slice_get self.old.next.threads number)
            (λ thread. self.new.live.threads ≡ thread ∷ [])) }
        ensures slot_len { self.new.live.slot_len ≡ self.old.next.slot_len }
        ensures stepper { self.new.stepper ≡ self.old.stepper }
        ensures asks_looks { self.new.asks_looks ≡ self.old.asks_looks }
    {
        self.live.clear(self.next.slot_len());
        self.live
            .push(self.next.node(number), self.next.slots(number))
    }

    /// Follows the walk from a state at the input's position, with `slot_len` slots. Returns the
    /// match end that it reaches, if any, and has its slots. The current block must reach back to
    /// that position, and then reaches back to the match end. Reads each offset up to there once,
    /// plus those of recomputed blocks.
    pub(crate) fn follow<C: Cursor>(
        &mut self,
        program: &Program,
        input: &mut Input<C>,
        blocks: &mut Blocks,
        start: StateID,
        slot_len: usize,
        read: &mut Counter,
    ) -> Result<Option<Ending>, MatchError>
        requires ready { IsWalking program.now self.old.stepper.widths
            self.old.asks_looks }
        requires inside { (utf8_empty : Bool)
            → IsInside (search_of utf8_empty input.old) input.old.position }
        requires blocks { (utf8_empty : Bool) → AreBlocks program.now
            (search_of utf8_empty input.old) blocks.old }
        requires reaches { BlockReaches blocks.old.block input.old.position }
        ensures followed { IfOk result (λ found. (utf8_empty : Bool)
            → Follows (machine_in program.now (search_of utf8_empty input.old)) input.old.position
            [] ((no_slots slot_len, first_node start) ∷ [])
            (outcome_of found self.new.stepper.slots)) }
        ensures inside { IfOk result (λ found. IfSome found (λ e.
            (input.old.position ≤ e.end) × ((utf8_empty : Bool)
            → IsInside (search_of utf8_empty input.old) e.end))) }
        ensures ready { IsWalking program.now self.new.stepper.widths
            self.new.asks_looks }
        ensures blocks { OnOk result ((utf8_empty : Bool) → AreBlocks program.now
            (search_of utf8_empty input.old) blocks.new) }
        ensures reaches { IfOk result (λ found. IfSome found (λ e.
            BlockReaches blocks.new.block e.end)) }
        ensures same { IsSameContent input.old.cursor input.new.cursor }
        ensures asked { input.new.asked ≡ input.old.asked }
        ensures refused { IfErr result (λ error. error ≡ MatchError.Memory) }
        ensures counted { IfOk result (λ found. IfSome found (λ e.
            read.new + blocks.old.block.top + input.old.position
            ≤ read.old + blocks.new.block.top + e.end + 1)) }
        ensures bound { (utf8_empty : Bool) → read.new + blocks.old.block.top + input.old.position
            ≤ read.old + blocks.new.block.top + highest (search_of utf8_empty input.old) + 1 }
        ensures last { (utf8_empty : Bool)
            → blocks.new.block.top ≤ highest (search_of utf8_empty input.old) }
    {
        self.begin(start, slot_len)?;
        loop {
            let at = input.position();
            let met = self.step(program, input, read)?;
            if !advance(input) {
                return Ok(ending_at(met, at));
            }
            blocks.come_to(program, input, read)?;
            let set = blocks.set(input.position());
            let Some(number) = first_among(&self.next, &blocks.pass.index, set) else {
                return Ok(ending_at(met, at));
            };
            self.go_on(number)?;
        }
    }
}
