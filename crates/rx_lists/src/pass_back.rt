//! The backward pass over a haystack: the leading nodes at each offset.

ghost use Rattle.std.specs.Prelude.{◌≡◌, ◌+◌, ◌<◌, ◌≤◌, ◌++◌, ◌∷◌, [], Bool, ℕ, List, Some};
ghost use Rattle.std.specs.Prelude.{IfOk, IfErr, IfSome, OnOk, length, slice_get};
ghost use Rattle.rx_util.specs.declared.search.MatchError.{MatchError};
ghost use Rattle.rx_walks.specs.Finds.{IsInside};
ghost use Rattle.rx_walks.specs.ProgramFinds.{lowest};
ghost use Rattle.rx_program.specs.Programs.{ByteProgram};
ghost use Rattle.rx_input.specs.Inputs.{IsMoved};
ghost use Rattle.rx_input.specs.Cursors.{IsSameContent};
ghost use Rattle.rx_steps.specs.Nodes.{widths_of};
ghost use Rattle.rx_steps.specs.Searching.{search_of};
ghost use Rattle.rx_lists.specs.Bits.{HasNode};
ghost use Rattle.rx_lists.specs.Known.{IsSetBefore};
ghost use Rattle.rx_lists.specs.LeadingSets.{HasLeadingSets, AreLeadingSets, IsLeadingSet};
ghost use Rattle.rx_lists.specs.Passes.{IsReady};

use crate::arrivals::Arrivals;
use crate::bits::Bits;
use crate::known::{Known, Sets, shared};
use crate::leading::fill;
use crate::node_index::NodeIndex;
use crate::node_set::{NodeSet, all_nodes};
use counters::Counter;
use rx_input::{Cursor, Input};
use rx_program::Program;
use rx_steps::{AskedLooks, Node, Place};
use rx_util::MatchError;
use std::alloc::{AllocError, Global};
use std::rc::Rc;

/// The leading nodes at each offset of a block.
#[derive(Debug, Drop)]
pub(crate) struct Block {
    // Its last offset.
    pub(crate) top: usize,
    // The leading nodes there, at the offset before, and so on.
    pub(crate) sets: Sets,
}

/// Room for the backward pass.
#[derive(Debug, Drop)]
pub(crate) struct PassBack {
    alloc: Global,
    // All nodes of the program, and their numbers.
    pub(crate) order: Vec<Node>,
    pub(crate) index: NodeIndex,
    // The epsilon transitions of the program, by the states to which they lead.
    pub(crate) arrivals: Arrivals,
    // Whether the program has assertions.
    pub(crate) asks_looks: bool,
    // The leading nodes at the last offset that was passed.
    pub(crate) set: Rc<Bits>,
    // The known sets, and the number of `set`, if it is one of them.
    pub(crate) known: Known,
    pub(crate) number: Option<usize>,
    // Room for the nodes at an offset, and at the next one.
    pub(crate) here: NodeSet,
    pub(crate) beyond: NodeSet,
}

impl PassBack {
    /// Returns room for passes with a program.
    ///
    /// # Errors
    ///
    /// `Memory`.
    pub(crate) fn new(alloc: Global, program: &Program) -> Result<PassBack, MatchError>
        ensures ready { IfOk result (λ pass. IsReady program.now pass) }
        ensures empty { IfOk result (λ pass. (q : ℕ × ℕ)
            → HasNode (widths_of program.now) pass.set.value q → ⊥) }
        ensures refused { IfErr result (λ error. error ≡ MatchError.Memory) }
    {
        let none = Bits::new(alloc, 0)?;
        Ok(PassBack {
            alloc,
            order: all_nodes(alloc, program)?,
            index: NodeIndex::new(alloc, program)?,
            arrivals: Arrivals::new(alloc, program.states())?,
            asks_looks: AskedLooks::of(program.states()).any,
            set: shared(alloc, none)?,
            known: Known::new(alloc),
            number: None,
            here: NodeSet::new(alloc, program)?,
            beyond: NodeSet::new(alloc, program)?,
        })
    }

    /// Returns the number of the set at the offset before, if it is known.
    fn known_before(&self, place: &Place) -> Option<usize>
        requires { (p : ByteProgram) × IsReady p self.now }
        ensures there { IfSome result (λ to. to < length self.now.known.sets) }
        ensures told { (p : ByteProgram) → IsReady p self.now → IfSome result
            (λ to. (here : List ℕ) → slice_get self.now.known.sets to ≡ Some here
            → IsSetBefore p place.now self.now.set.value here) }
    {
        match (self.number, place.byte) {
            (Some(number), Some(byte)) if !self.asks_looks => self.known.before(number, byte),
            _ => None,
        }
    }

    /// Makes the known set with this number the current one.
    fn take(&mut self, number: usize) -> Result<(), AllocError>
        requires { number < length self.old.known.sets }
        ensures taken { OnOk result
            (slice_get self.new.known.sets number ≡ Some self.new.set.value) }
        ensures ready { (p : ByteProgram) → IsReady p self.old → IsReady p self.new }
        ensures known { self.new.known ≡ self.old.known }
    {
        self.set = self.known.set(number).clone()?;
        self.number = Some(number);
        Ok(())
    }

    /// Computes the set at the offset before.
    fn set_before(&mut self, program: &Program, place: &Place) -> Result<Bits, AllocError>
        requires ready { IsReady program.now self.old }
        ensures before { IfOk result (IsSetBefore program.now place.now self.old.set.value) }
        ensures ready { IsReady program.now self.new }
        ensures set { self.new.set ≡ self.old.set }
    {
        self.beyond.load(&self.order, &self.index, &self.set)?;
        fill(
            program,
            place,
            &self.order,
            &self.arrivals,
            &self.beyond,
            &mut self.here,
        )?;
        self.index.set_of(self.alloc, self.here.nodes())
    }

    /// Notes that a known set is that at the offset before the current one.
    fn tell(&mut self, place: &Place, to: usize)
        requires there { to < length self.old.known.sets }
        requires ready { (p : ByteProgram) × IsReady p self.old }
        ensures ready { (p : ByteProgram) → IsReady p self.old → ((here : List ℕ)
            → slice_get self.old.known.sets to ≡ Some here
            → IsSetBefore p place.now self.old.set.value here) → IsReady p self.new }
        ensures sets { self.new.known.sets ≡ self.old.known.sets }
        ensures set { self.new.set ≡ self.old.set }
    {
        if let (Some(number), Some(byte)) = (self.number, place.byte) {
            if !self.asks_looks {
                self.known.tell(number, byte, to);
            }
        }
    }

    /// Removes the known sets if there are as many as allowed.
    fn forget_if_full(&mut self)
        ensures ready { (p : ByteProgram) → IsReady p self.old → IsReady p self.new }
        ensures set { self.new.set ≡ self.old.set }
    {
        if !self.known.is_full() {
            return;
        }
        self.known.clear();
        self.number = None;
    }

    /// Returns the number of a set, which is added if it isn't known.
    fn number_of(&mut self, set: Bits) -> Result<usize, AllocError>
        ensures number { IfOk result (λ number.
            slice_get self.new.known.sets number ≡ Some set) }
        ensures ready { (p : ByteProgram) → IsReady p self.old → IsReady p self.new }
        ensures set { self.new.set ≡ self.old.set }
    {
        self.known.number_of(self.alloc, set)
    }

    /// Computes the set at the offset before, makes it the current one, and notes it.
    fn make_before(&mut self, program: &Program, place: &Place) -> Result<(), AllocError>
        requires ready { IsReady program.now self.old }
        ensures before { OnOk result (IsSetBefore program.now place.now self.old.set.value
            self.new.set.value) }
        ensures ready { IsReady program.now self.new }
    {
        let set = self.set_before(program, place)?;
        self.forget_if_full();
        let to = self.number_of(set)?;
        self.tell(place, to);
        self.take(to)
    }

    /// Passes the input's position: the current set, that of the leading nodes at the next offset,
    /// becomes that at the position. Reads one more offset.
    pub(crate) fn pass<C: Cursor>(
        &mut self,
        program: &Program,
        input: &mut Input<C>,
        read: &mut Counter,
    ) -> Result<(), AllocError>
        requires ready { IsReady program.now self.old }
        ensures leading { OnOk result ((utf8_empty : Bool)
            → IsInside (search_of utf8_empty input.old) input.old.position
            → IsLeadingSet program.now (search_of utf8_empty input.old) (input.old.position + 1)
            self.old.set.value
            → IsLeadingSet program.now (search_of utf8_empty input.old) input.old.position
            self.new.set.value) }
        ensures ready { IsReady program.now self.new }
        ensures same { IsMoved input.old input.new input.old.position input.old.asked }
        ensures counted { read.new ≡ read.old + 1 }
    {
        read.add();
        let place = Place::of(input, program.line_terminator(), self.asks_looks);
        match self.known_before(&place) {
            Some(to) => self.take(to),
            None => self.make_before(program, &place),
        }
    }

    /// Makes a set of leading nodes the current one.
    pub(crate) fn load(&mut self, set: &Rc<Bits>) -> Result<(), AllocError>
        ensures set { OnOk result (self.new.set.value ≡ set.now.value) }
        ensures ready { (p : ByteProgram) → IsReady p self.old → IsReady p self.new }
    {
        self.set = set.clone()?;
        self.number = self.known.find(&self.set);
        Ok(())
    }

    /// Appends the current set.
    pub(crate) fn keep(&self, sets: &mut Sets) -> Result<(), AllocError>
        ensures { OnOk result (sets.new ≡ sets.old ++ self.now.set.value ∷ []) }
    {
        sets.push(self.set.clone()?)
    }

    /// Makes a block from the input's position, whose set is the current one, back to another
    /// offset. Reads all its offsets but the first.
    pub(crate) fn pass_block<C: Cursor>(
        &mut self,
        program: &Program,
        input: &mut Input<C>,
        bottom: usize,
        block: &mut Block,
        read: &mut Counter,
    ) -> Result<(), AllocError>
        requires ready { IsReady program.now self.old }
        requires inside { (utf8_empty : Bool)
            → IsInside (search_of utf8_empty input.old) input.old.position }
        requires bottom { (utf8_empty : Bool) → lowest (search_of utf8_empty input.old) ≤ bottom }
        requires above { bottom ≤ input.old.position }
        requires leading { (utf8_empty : Bool) → IsLeadingSet program.now
            (search_of utf8_empty input.old) input.old.position self.old.set.value }
        requires known { (utf8_empty : Bool) → HasLeadingSets program.now
            (search_of utf8_empty input.old) input.old.position }
        ensures sets { OnOk result ((utf8_empty : Bool) → AreLeadingSets program.now
            (search_of utf8_empty input.old) input.old.position 1 block.new.sets) }
        ensures count { OnOk result (length block.new.sets + bottom
            ≡ input.old.position + 1) }
        ensures top { block.new.top ≡ input.old.position }
        ensures leading { OnOk result ((utf8_empty : Bool) → IsLeadingSet program.now
            (search_of utf8_empty input.old) bottom self.new.set.value) }
        ensures known { OnOk result ((utf8_empty : Bool) → HasLeadingSets program.now
            (search_of utf8_empty input.old) bottom) }
        ensures ready { IsReady program.now self.new }
        ensures bottom { OnOk result (input.new.position ≡ bottom) }
        ensures same { IsSameContent input.old.cursor input.new.cursor }
        ensures asked { input.new.asked ≡ input.old.asked }
        ensures counted { read.new + bottom ≤ read.old + input.old.position }
    {
        block.top = input.position();
        block.sets.clear();
        self.keep(&mut block.sets)?;
        while input.position() > bottom {
            input.move_to(input.position() - 1);
            self.pass(program, input, read)?;
            self.keep(&mut block.sets)?;
        }
        Ok(())
    }
}
