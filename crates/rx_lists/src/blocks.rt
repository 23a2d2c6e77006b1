//! The leading nodes at each offset of a span, one block of offsets at a time.

ghost use Rattle.std.specs.Prelude.{◌≡◌, ◌+◌, ◌-◌, ◌<◌, ◌≤◌, Bool, ℕ, [], Some, IfOk, IfErr, OnOk, max, slice_get};
ghost use Rattle.rx_util.specs.declared.search.MatchError.{MatchError};
ghost use Rattle.rx_walks.specs.Finds.{IsInside};
ghost use Rattle.rx_walks.specs.ProgramFinds.{highest, lowest};
ghost use Rattle.rx_input.specs.Cursors.{IsSameContent};
ghost use Rattle.rx_steps.specs.Searching.{search_of};
ghost use Rattle.rx_lists.specs.Blocks.{AreBlocks, BlockReaches};
ghost use Rattle.rx_lists.specs.LeadingSets.{HasLeadingSets, IsLeadingSet};
ghost use Rattle.rx_lists.specs.Passes.{IsReady};

use crate::bits::Bits;
use crate::known::Sets;
use crate::pass_back::{Block, PassBack};
use counters::Counter;
use rx_input::{Cursor, Input};
use rx_program::Program;
use rx_util::MatchError;
use std::alloc::{AllocError, Global};

// The least distance of kept sets.
const LEAST: usize = 4096;

/// The leading nodes at each offset of a span: the sets at regular distances are kept, and those
/// between are recomputed from these, one block at a time. A block's last offset is one whose set
/// is kept, and so is its first one, except for the block at the span's start.
#[derive(Debug, Drop)]
pub(crate) struct Blocks {
    // Room for the backward pass.
    pub(crate) pass: PassBack,
    // The first and the last offset of the span.
    pub(crate) first: usize,
    pub(crate) last: usize,
    // The distance.
    pub(crate) every: usize,
    // The leading nodes at the last offset, at the one a distance before it, and so on.
    pub(crate) kept: Sets,
    // The current block.
    pub(crate) block: Block,
}

impl Blocks {
    /// Makes the backward pass from the last offset inside, where the input must be, to the first
    /// one, whose block becomes the current one.
    ///
    /// # Errors
    ///
    /// `Memory`.
    pub(crate) fn new<C: Cursor>(
        alloc: Global,
        program: &Program,
        input: &mut Input<C>,
        read: &mut Counter,
    ) -> Result<Blocks, MatchError>
        requires inside { (utf8_empty : Bool)
            → IsInside (search_of utf8_empty input.old) input.old.position }
        requires last { (utf8_empty : Bool)
            → input.old.position ≡ highest (search_of utf8_empty input.old) }
        ensures blocks { IfOk result (λ blocks. (utf8_empty : Bool) → AreBlocks program.now
            (search_of utf8_empty input.old) blocks) }
        ensures reaches { IfOk result (λ blocks. BlockReaches blocks.block input.new.position) }
        ensures first { IfOk result (λ blocks. input.new.position
            ≡ max input.old.asked.slice.start input.old.asked.span.start) }
        ensures same { IsSameContent input.old.cursor input.new.cursor }
        ensures asked { input.new.asked ≡ input.old.asked }
        ensures refused { IfErr result (λ error. error ≡ MatchError.Memory) }
        ensures counted { (utf8_empty : Bool) → read.new + lowest (search_of utf8_empty input.old)
            ≤ read.old + input.old.position + 1 }
    {
        let first = input.get_slice().start.max(input.start());
        let last = input.position();
        let mut blocks = Blocks {
            pass: PassBack::new(alloc, program)?,
            first,
            last,
            every: (last - first).isqrt().max(LEAST),
            kept: Sets::new(alloc),
            block: Block {
                top: last,
                sets: Sets::new(alloc),
            },
        };
        blocks.pass.pass(program, input, read)?;
        blocks.pass_all(program, input, read)?;
        Ok(blocks)
    }

    /// Returns the first offset of the block that ends at an offset.
    fn bottom(&self, top: usize) -> usize
        ensures { result ≡ max self.now.first (top - self.now.every) }
    {
        self.first.max(top.saturating_sub(self.every))
    }

    /// Makes the backward pass over all blocks from the input's position.
    fn pass_all<C: Cursor>(
        &mut self,
        program: &Program,
        input: &mut Input<C>,
        read: &mut Counter,
    ) -> Result<(), AllocError>
        requires ready { IsReady program.now self.old.pass }
        requires inside { (utf8_empty : Bool)
            → IsInside (search_of utf8_empty input.old) input.old.position }
        requires leading { (utf8_empty : Bool) → IsLeadingSet program.now
            (search_of utf8_empty input.old) input.old.position self.old.pass.set.value }
        requires known { (utf8_empty : Bool) → HasLeadingSets program.now
            (search_of utf8_empty input.old) input.old.position }
        requires first { (utf8_empty : Bool)
            → self.old.first ≡ lowest (search_of utf8_empty input.old) }
        requires last { (utf8_empty : Bool)
            → self.old.last ≡ highest (search_of utf8_empty input.old) }
        requires there { input.old.position ≡ self.old.last }
        requires spaced { 0 < self.old.every }
        requires none { self.old.kept ≡ [] }
        ensures blocks { OnOk result ((utf8_empty : Bool) → AreBlocks program.now
            (search_of utf8_empty input.old) self.new) }
        ensures reaches { OnOk result (BlockReaches self.new.block self.old.first) }
        ensures first { OnOk result (input.new.position ≡ self.old.first) }
        ensures same { IsSameContent input.old.cursor input.new.cursor }
        ensures asked { input.new.asked ≡ input.old.asked }
        ensures counted { read.new + self.old.first ≤ read.old + input.old.position }
    {
        loop {
            self.pass.keep(&mut self.kept)?;
            let bottom = self.bottom(input.position());
            self.pass
                .pass_block(program, input, bottom, &mut self.block, read)?;
            if bottom <= self.first {
                return Ok(());
            }
        }
    }

    /// Makes the input's position part of the current block, which must reach back to it:
    /// recomputes its block from the kept set after it, unless it is the current one.
    pub(crate) fn come_to<C: Cursor>(
        &mut self,
        program: &Program,
        input: &mut Input<C>,
        read: &mut Counter,
    ) -> Result<(), AllocError>
        requires blocks { (utf8_empty : Bool) → AreBlocks program.now
            (search_of utf8_empty input.old) self.old }
        requires inside { (utf8_empty : Bool)
            → IsInside (search_of utf8_empty input.old) input.old.position }
        ensures blocks { OnOk result ((utf8_empty : Bool) → AreBlocks program.now
            (search_of utf8_empty input.old) self.new) }
        ensures there { OnOk result (input.old.position ≤ self.new.block.top) }
        ensures reaches { OnOk result ((i : ℕ) → self.old.first ≤ i → input.old.position ≤ i + 1
            → BlockReaches self.old.block i → BlockReaches self.new.block i) }
        ensures position { OnOk result (input.new.position ≡ input.old.position) }
        ensures same { IsSameContent input.old.cursor input.new.cursor }
        ensures asked { input.new.asked ≡ input.old.asked }
        ensures counted { read.new + self.old.block.top ≤ read.old + self.new.block.top }
        ensures last { self.new.block.top ≤ self.old.last }
    {
        let at = input.position();
        if at <= self.block.top {
            return Ok(());
        }
        let number = (self.last - at) / self.every;
        self.pass.load(self.kept.at(number))?;
        let top = self.last - number * self.every;
        input.move_to(top);
        let bottom = self.bottom(top);
        self.pass
            .pass_block(program, input, bottom, &mut self.block, read)?;
        input.move_to(at);
        Ok(())
    }

    /// Returns the leading nodes at an offset of the current block.
    pub(crate) fn set(&self, at: usize) -> &Bits
        requires there { at ≤ self.now.block.top }
        requires reaches { BlockReaches self.now.block at }
        ensures { slice_get self.now.block.sets (self.now.block.top - at)
            ≡ Some result.now }
    {
        self.block.sets.at(self.block.top - at)
    }
}
