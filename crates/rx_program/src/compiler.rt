//! Compiles a tree part by part, with a stack of jobs.

ghost use Rattle.std.specs.Prelude.{◌≡◌, ◌+◌, ◌<◌, ◌^◌, [], length, OnOk};
ghost use Rattle.rx_grammar.specs.Subtrees.{subtrees_of};
ghost use Rattle.rx_grammar.specs.Postorder.{tree_of};
ghost use Rattle.rx_program.specs.Code.{entry_of};
ghost use Rattle.rx_program.specs.Jobs.{IsJob, job_size, DoesJob};

use crate::automata::Automata;
use crate::states::State;
use rx_grammar::Hir;
use std::alloc::{AllocError, Global};

/// A job. A part is named by the number of its root among the tree's nodes; `next` is the state to
/// which it leads.
#[derive(Drop)]
pub(crate) enum Job {
    /// One part.
    Part {
        root: usize,
        next: usize,
    },
    /// One state.
    State(State),
    /// `count` parts in sequence, up to the `last` one, and the number of their states.
    Row {
        count: usize,
        last: usize,
        states: usize,
        next: usize,
    },
    /// `count` alternative parts, up to the `last` one.
    Branches {
        count: usize,
        last: usize,
        next: usize,
    },
    /// `count` copies of a part in sequence.
    Copies {
        count: usize,
        root: usize,
        next: usize,
    },
    /// `count` optional copies of a part, each inside the one before.
    Optional {
        greedy: bool,
        count: usize,
        root: usize,
        next: usize,
    },
}

/// A program under construction. The last job is done first.
#[derive(Drop)]
pub(crate) struct Compiler {
    pub(crate) alloc: Global,
    /// The slots of the current pattern's group k are this number + 2 k and the one after it.
    pub(crate) slots: usize,
    pub(crate) states: Vec<State>,
    pub(crate) jobs: Vec<Job>,
    pub(crate) automata: Automata,
}

/// Returns the first state of `count` parts in sequence: `at`, or `next` if there are none.
pub(crate) fn entry_of(count: usize, at: usize, next: usize) -> usize
    ensures { result ≡ entry_of count at next }
{
    if count == 0 { next } else { at }
}

impl Compiler {
    /// Returns this without states and jobs.
    pub(crate) fn new(alloc: Global, slots: usize) -> Compiler
        ensures slots { result.slots ≡ slots }
        ensures states { result.states.items ≡ [] }
        ensures jobs { result.jobs.items ≡ [] }
    {
        Compiler {
            alloc,
            slots,
            states: Vec::new(alloc),
            jobs: Vec::new(alloc),
            automata: Automata::new(alloc),
        }
    }

    /// Compiles parts in sequence: the last one, and before it the others.
    pub(crate) fn row(
        &mut self,
        hir: &Hir,
        count: usize,
        root: usize,
        size: usize,
        next: usize,
    ) -> Result<(), AllocError>
        requires job { IsJob (subtrees_of (tree_of hir.now)) (Job.Row count root size next) }
        requires room { length self.old.states.items + size + 1 < 2 ^ 64 }
        ensures slots { self.new.slots ≡ self.old.slots }
        ensures done { OnOk result (DoesJob self.old.slots (subtrees_of (tree_of hir.now))
            (Job.Row count root size next) self.old.states.items self.new.states.items
            self.old.jobs.items self.new.jobs.items) }
    {
        if count == 0 {
            return Ok(());
        }
        let part = hir.properties()[root];
        let before = size - part.size;
        let start = self.states.len() + before;
        self.jobs.push(Job::Part { root, next })?;
        self.jobs.push(Job::Row {
            count: count - 1,
            last: root.saturating_sub(part.extent),
            states: before,
            next: start,
        })?;
        Ok(())
    }

    /// Compiles alternative parts: the last one, and before it the others.
    pub(crate) fn branches(
        &mut self,
        hir: &Hir,
        count: usize,
        root: usize,
        next: usize,
    ) -> Result<(), AllocError>
        requires { IsJob (subtrees_of (tree_of hir.now)) (Job.Branches count root next) }
        ensures slots { self.new.slots ≡ self.old.slots }
        ensures done { OnOk result (DoesJob self.old.slots (subtrees_of (tree_of hir.now))
            (Job.Branches count root next) self.old.states.items self.new.states.items
            self.old.jobs.items self.new.jobs.items) }
    {
        if count == 0 {
            return Ok(());
        }
        let part = hir.properties()[root];
        self.jobs.push(Job::Part { root, next })?;
        self.jobs.push(Job::Branches {
            count: count - 1,
            last: root.saturating_sub(part.extent),
            next,
        })?;
        Ok(())
    }

    /// Compiles copies of a part: one, and then the others.
    pub(crate) fn copies(
        &mut self,
        hir: &Hir,
        count: usize,
        root: usize,
        next: usize,
    ) -> Result<(), AllocError>
        requires root { root < length (subtrees_of (tree_of hir.now)) }
        requires room { length self.old.states.items
            + job_size (subtrees_of (tree_of hir.now)) (Job.Copies count root next) + 1 < 2 ^ 64 }
        ensures slots { self.new.slots ≡ self.old.slots }
        ensures done { OnOk result (DoesJob self.old.slots (subtrees_of (tree_of hir.now))
            (Job.Copies count root next) self.old.states.items self.new.states.items
            self.old.jobs.items self.new.jobs.items) }
    {
        if count == 0 {
            return Ok(());
        }
        let after = self.states.len() + hir.properties()[root].size;
        self.jobs.push(Job::Copies {
            count: count - 1,
            root,
            next,
        })?;
        self.jobs.push(Job::Part {
            root,
            next: entry_of(count - 1, after, next),
        })?;
        Ok(())
    }

    /// Compiles optional copies of a part: the first one, and inside it the others.
    pub(crate) fn optional(
        &mut self,
        hir: &Hir,
        greedy: bool,
        count: usize,
        root: usize,
        next: usize,
    ) -> Result<(), AllocError>
        requires root { root < length (subtrees_of (tree_of hir.now)) }
        requires room { length self.old.states.items + job_size (subtrees_of (tree_of hir.now))
            (Job.Optional greedy count root next) + 1 < 2 ^ 64 }
        ensures slots { self.new.slots ≡ self.old.slots }
        ensures done { OnOk result (DoesJob self.old.slots (subtrees_of (tree_of hir.now))
            (Job.Optional greedy count root next) self.old.states.items self.new.states.items
            self.old.jobs.items self.new.jobs.items) }
    {
        if count == 0 {
            return Ok(());
        }
        let inside = self.states.len() + 1;
        let after = inside + hir.properties()[root].size;
        self.states.push(State::fork(greedy, inside, next))?;
        self.jobs.push(Job::Optional {
            greedy,
            count: count - 1,
            root,
            next,
        })?;
        self.jobs.push(Job::Part {
            root,
            next: entry_of(count - 1, after, next),
        })?;
        Ok(())
    }
}
