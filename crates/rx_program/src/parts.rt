//! Compiles a part of a tree: its own states, and jobs for the parts right below it.

ghost use Rattle.std.specs.Prelude.{◌≡◌, ◌+◌, ◌-◌, ◌<◌, ◌^◌, length, OnOk, IfOk};
ghost use Rattle.rx_grammar.specs.Trees.{repeated};
ghost use Rattle.rx_grammar.specs.Subtrees.{subtrees_of};
ghost use Rattle.rx_grammar.specs.Postorder.{tree_of};
ghost use Rattle.rx_grammar.specs.Weights.{size_of};
ghost use Rattle.rx_grammar.specs.Nodes.{properties_of};
ghost use Rattle.rx_program.specs.Jobs.{DoesJob, IsJob, job_size, HasPartsBefore, part_at, sizes_of, starts_of, trees_before};

use crate::compiler::{Compiler, Job, entry_of};
use crate::states::State;
use rx_grammar::{Hir, Node, Properties, Repetition};
use rx_util::StateID;
use std::alloc::{AllocError, Global};

/// Returns the properties of the part with this root.
fn known_of(hir: &Hir, root: usize) -> Properties
    requires { root < length (subtrees_of (tree_of hir.now)) }
    ensures { result ≡ properties_of (part_at (subtrees_of (tree_of hir.now)) root) }
{
    hir.properties()[root]
}

/// Returns the first states of `count` alternative parts, up to the one with this root, whose
/// states end at `end`.
fn branch_starts(
    alloc: Global,
    hir: &Hir,
    count: usize,
    mut root: usize,
    mut end: usize,
) -> Result<Vec<StateID>, AllocError>
    requires row { HasPartsBefore (subtrees_of (tree_of hir.now)) count root }
    requires room { sizes_of (trees_before (subtrees_of (tree_of hir.now)) count root) < end }
    ensures { let trees = trees_before (subtrees_of (tree_of hir.now)) count root in
        IfOk result (λ starts. starts.items ≡ starts_of trees (end - sizes_of trees)) }
{
    let mut starts = Vec::new(alloc);
    for _ in 0..count {
        let part = known_of(hir, root);
        end -= part.size;
        starts.push(StateID::new(end))?;
        root = root.saturating_sub(part.extent);
    }
    starts.reverse();
    Ok(starts)
}

impl Compiler {
    /// Compiles a repetition of the part with this root.
    fn repetition(
        &mut self,
        hir: &Hir,
        repetition: Repetition,
        root: usize,
        next: usize,
    ) -> Result<(), AllocError>
        requires root { root + 1 < length (subtrees_of (tree_of hir.now)) }
        requires is { part_at (subtrees_of (tree_of hir.now)) (root + 1)
            ≡ repeated repetition (part_at (subtrees_of (tree_of hir.now)) root) }
        requires room { length self.old.states.items
            + size_of (part_at (subtrees_of (tree_of hir.now)) (root + 1)) + 1 < 2 ^ 64 }
        ensures slots { self.new.slots ≡ self.old.slots }
        ensures done { OnOk result (DoesJob self.old.slots (subtrees_of (tree_of hir.now))
            (Job.Part (root + 1) next) self.old.states.items self.new.states.items
            self.old.jobs.items self.new.jobs.items) }
    {
        let at = self.states.len();
        let part = hir.properties()[root];
        let least = repetition.min as usize;
        match repetition.max {
            Some(0) => self.states.push(State::Empty(StateID::new(next)))?,
            Some(most) => {
                let further = (most as usize).saturating_sub(least);
                let on = entry_of(further, at + least * part.size, next);
                self.jobs.push(Job::Optional {
                    greedy: repetition.greedy,
                    count: further,
                    root,
                    next,
                })?;
                self.jobs.push(Job::Copies {
                    count: least,
                    root,
                    next: on,
                })?;
            }
            None if least > 0 => {
                let last = at + (least - 1) * part.size;
                let end = at + least * part.size;
                let back = State::fork(repetition.greedy, last, next);
                self.jobs.push(Job::State(back))?;
                self.jobs.push(Job::Copies {
                    count: least,
                    root,
                    next: end,
                })?;
            }
            None if part.may_be_empty => {
                self.states
                    .push(State::fork(repetition.greedy, at + 1, next))?;
                let back = State::fork(repetition.greedy, at + 1, next);
                self.jobs.push(Job::State(back))?;
                self.jobs.push(Job::Part {
                    root,
                    next: at + 1 + part.size,
                })?;
            }
            None => {
                self.states
                    .push(State::fork(repetition.greedy, at + 1, next))?;
                self.jobs.push(Job::Part { root, next: at })?;
            }
        }
        Ok(())
    }

    /// Compiles the part with this root.
    fn part(&mut self, hir: &Hir, root: usize, next: usize) -> Result<(), AllocError>
        requires slots { self.old.slots < 2 ^ 63 }
        requires root { root < length (subtrees_of (tree_of hir.now)) }
        requires room { length self.old.states.items
            + size_of (part_at (subtrees_of (tree_of hir.now)) root) + 1 < 2 ^ 64 }
        ensures slots { self.new.slots ≡ self.old.slots }
        ensures done { OnOk result (DoesJob self.old.slots (subtrees_of (tree_of hir.now))
            (Job.Part root next) self.old.states.items self.new.states.items
            self.old.jobs.items self.new.jobs.items) }
    {
        let at = self.states.len();
        let size = hir.properties()[root].size;
        let on = StateID::new(next);
        match &hir.nodes()[root] {
            Node::Empty => self.states.push(State::Empty(on))?,
            Node::Look(look) => self.states.push(State::Look(*look, on))?,
            Node::Set(set) => {
                let automaton = self.automata.automaton(set)?;
                self.states.push(State::Ranges(automaton, on))?;
            }
            Node::Group(number, _) => {
                let slot = self.slots + 2 * *number as usize;
                self.states
                    .push(State::Capture(slot, StateID::new(at + 1)))?;
                self.jobs.push(Job::State(State::Capture(slot + 1, on)))?;
                self.jobs.push(Job::Part {
                    root: root - 1,
                    next: at + size - 1,
                })?;
            }
            Node::Concat(count) => self.jobs.push(Job::Row {
                count: *count,
                last: root - 1,
                states: size,
                next,
            })?,
            Node::Alternation(count) => {
                let starts = branch_starts(self.alloc, hir, *count, root - 1, at + size)?;
                self.states.push(State::Union(starts))?;
                self.jobs.push(Job::Branches {
                    count: *count,
                    last: root - 1,
                    next,
                })?;
            }
            Node::Repeat(repetition) => self.repetition(hir, *repetition, root - 1, next)?,
        }
        Ok(())
    }

    /// Does a job.
    pub(crate) fn run(&mut self, hir: &Hir, job: Job) -> Result<(), AllocError>
        requires slots { self.old.slots < 2 ^ 63 }
        requires job { IsJob (subtrees_of (tree_of hir.now)) job }
        requires room { length self.old.states.items
            + job_size (subtrees_of (tree_of hir.now)) job + 1 < 2 ^ 64 }
        ensures slots { self.new.slots ≡ self.old.slots }
        ensures done { OnOk result (DoesJob self.old.slots (subtrees_of (tree_of hir.now)) job
            self.old.states.items self.new.states.items self.old.jobs.items self.new.jobs.items) }
    {
        match job {
            Job::Part { root, next } => self.part(hir, root, next),
            Job::State(state) => {
                self.states.push(state)?;
                Ok(())
            }
            Job::Row {
                count,
                last,
                states,
                next,
            } => self.row(hir, count, last, states, next),
            Job::Branches { count, last, next } => self.branches(hir, count, last, next),
            Job::Copies { count, root, next } => self.copies(hir, count, root, next),
            Job::Optional {
                greedy,
                count,
                root,
                next,
            } => self.optional(hir, greedy, count, root, next),
        }
    }
}
