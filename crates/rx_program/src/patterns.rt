//! Compiles patterns to a program.

ghost use Rattle.std.specs.Prelude.{ℕ, ◌≡◌, ◌+◌, ◌-◌, ◌*◌, ◌<◌, ◌↔◌, ◌⊎◌, ◌^◌, [], ◌∷◌, ◌++◌, length, map, All, IfOk, IfErr, IfSome, OnOk};
ghost use Rattle.rx_grammar.specs.Trees.{numbers_of};
ghost use Rattle.rx_grammar.specs.Postorder.{tree_of};
ghost use Rattle.rx_grammar.specs.Weights.{held, pattern_weight, size_of};
ghost use Rattle.rx_walks.specs.Programs.{pass};
ghost use Rattle.rx_program.specs.Code.{pattern_code, pattern_starts, patterns_code, program_of};
ghost use Rattle.rx_program.specs.Sizes.{IsTooLarge, sum_of_weights, told_limit, weight_of_all};
ghost use Rattle.rx_program.specs.Programs.{node_of, ReadsItsSet, character_program, HasWalksOfProgram};

use crate::compiler::{Compiler, Job};
use crate::error::BuildError;
use crate::program::Program;
use crate::sizes::{is_too_large, told_limit};
use crate::states::State;
use rx_grammar::Hir;
use rx_util::{PatternID, StateID};
use std::alloc::{AllocError, Global};

/// The greatest slot.
const GREATEST_SLOT: usize = usize::MAX / 2;

impl Compiler {
    /// Compiles the pattern with this number after the existing states, with the group of the whole
    /// match and the match.
    fn pattern(&mut self, hir: &Hir, number: usize) -> Result<(), AllocError>
        requires number { number < 2 ^ 62 }
        requires slots { self.old.slots < 2 ^ 63 }
        requires idle { self.old.jobs.items ≡ [] }
        requires room { length self.old.states.items + pattern_weight (tree_of hir.now) < 2 ^ 63 }
        requires reads { All ReadsItsSet self.old.states.items }
        ensures slots { OnOk result (self.new.slots ≡ self.old.slots) }
        ensures idle { OnOk result (self.new.jobs.items ≡ []) }
        ensures nodes { OnOk result (map node_of self.new.states.items
            ≡ map node_of self.old.states.items ++ pattern_code self.old.slots number
            (tree_of hir.now) (length self.old.states.items)) }
        ensures reads { OnOk result (All ReadsItsSet self.new.states.items) }
    {
        let root = hir.nodes().len() - 1;
        let start = self.states.len() + 1;
        let end = start + hir.properties()[root].size;
        self.states
            .push(State::Capture(2 * number, StateID::new(start)))?;
        self.jobs
            .push(Job::State(State::Match(PatternID::new(number))))?;
        self.jobs.push(Job::State(State::Capture(2 * number + 1, StateID::new(end + 1))))?;
        self.jobs.push(Job::Part { root, next: end })?;
        while let Some(job) = self.jobs.pop() {
            self.run(hir, job)?;
        }
        Ok(())
    }
}

/// Returns the number of a pattern's states, with those of the whole match.
fn state_count(hir: &Hir) -> usize
    requires { pattern_weight (tree_of hir.now) < 2 ^ 63 }
    ensures { result ≡ 3 + size_of (tree_of hir.now) }
{
    3 + hir.properties()[hir.nodes().len() - 1].size
}

/// Returns the first state of each pattern, in sequence from a state on.
fn pattern_starts(alloc: Global, hirs: &[&Hir], mut at: usize) -> Result<Vec<StateID>, AllocError>
    requires { at + sum_of_weights (map (λ hir. tree_of hir.now) hirs.now) < 2 ^ 63 }
    ensures { IfOk result (λ starts. starts.items
        ≡ pattern_starts (map (λ hir. tree_of hir.now) hirs.now) at) }
{
    let mut starts = Vec::new(alloc);
    for hir in hirs {
        starts.push(StateID::new(at))?;
        at += state_count(hir);
    }
    Ok(starts)
}

/// Returns the slots so far plus those of a pattern's groups, if they aren't too many.
fn slots_after(slots: usize, hir: &Hir) -> Option<usize>
    ensures { IfSome result (λ more. (more ≡ slots + 2 * length (numbers_of (tree_of hir.now)))
        × (more < 2 ^ 63)) }
{
    let more = slots.checked_add(2 * hir.group_count())?;
    if more <= GREATEST_SLOT {
        Some(more)
    } else {
        None
    }
}

impl Compiler {
    /// Compiles patterns in sequence after the existing states.
    fn patterns(&mut self, hirs: &[&Hir]) -> Result<(), AllocError>
        requires slots { self.old.slots < 2 ^ 63 }
        requires idle { self.old.jobs.items ≡ [] }
        requires room { length self.old.states.items
            + sum_of_weights (map (λ hir. tree_of hir.now) hirs.now) < 2 ^ 63 }
        requires reads { All ReadsItsSet self.old.states.items }
        ensures nodes { OnOk result (map node_of self.new.states.items
            ≡ map node_of self.old.states.items ++ patterns_code self.old.slots 0
            (map (λ hir. tree_of hir.now) hirs.now) (length self.old.states.items)) }
        ensures reads { OnOk result (All ReadsItsSet self.new.states.items) }
    {
        for number in 0..hirs.len() {
            self.pattern(hirs[number], number)?;
            let Some(slots) = slots_after(self.slots, hirs[number]) else {
                return Err(AllocError);
            };
            self.slots = slots;
        }
        Ok(())
    }
}

/// Returns the states of a single pattern.
fn states_of_one(alloc: Global, hir: &Hir) -> Result<Vec<State>, AllocError>
    requires { pattern_weight (tree_of hir.now) < 2 ^ 63 }
    ensures nodes { IfOk result (λ states. map node_of states.items
        ≡ pattern_code 0 0 (tree_of hir.now) 0) }
    ensures reads { IfOk result (λ states. All ReadsItsSet states.items) }
{
    let mut compiler = Compiler::new(alloc, 0);
    compiler.pattern(hir, 0)?;
    Ok(compiler.states)
}

/// Returns the states of several patterns, or of none: one with ordered edges to each pattern's
/// start, and the patterns.
fn states_of_several(
    alloc: Global,
    hirs: &[&Hir],
    starts: &[StateID],
) -> Result<Vec<State>, AllocError>
    requires { 1 + sum_of_weights (map (λ hir. tree_of hir.now) hirs.now) < 2 ^ 63 }
    ensures nodes { let trees = map (λ hir. tree_of hir.now) hirs.now in
        IfOk result (λ states. map node_of states.items ≡ pass starts.now
        ∷ patterns_code (2 * length trees - 2) 0 trees 1) }
    ensures reads { IfOk result (λ states. All ReadsItsSet states.items) }
{
    let mut compiler = Compiler::new(alloc, (2 * hirs.len()).saturating_sub(2));
    compiler.states.push(State::Union(starts.to_vec(alloc)?))?;
    compiler.patterns(hirs)?;
    Ok(compiler.states)
}

/// Returns the states of patterns, and the first state of each.
fn states_of(alloc: Global, hirs: &[&Hir]) -> Result<(Vec<State>, Vec<StateID>), AllocError>
    requires { weight_of_all (map (λ hir. tree_of hir.now) hirs.now) < 2 ^ 63 }
    ensures nodes { (terminator : ℕ) → IfOk result (λ made. map node_of made.0.items
        ≡ (program_of (map (λ hir. tree_of hir.now) hirs.now) terminator).nodes) }
    ensures starts { (terminator : ℕ) → IfOk result (λ made. made.1.items
        ≡ (program_of (map (λ hir. tree_of hir.now) hirs.now) terminator).patterns) }
    ensures reads { IfOk result (λ made. All ReadsItsSet made.0.items) }
{
    if hirs.len() == 1 {
        let states = states_of_one(alloc, hirs[0])?;
        return Ok((states, pattern_starts(alloc, hirs, 0)?));
    }
    let starts = pattern_starts(alloc, hirs, 1)?;
    let states = states_of_several(alloc, hirs, &starts)?;
    Ok((states, starts))
}

/// Returns the weight of patterns together, plus 1 unless there is exactly one; at most
/// `usize::MAX`.
fn weight_of_all(hirs: &[&Hir]) -> usize
    ensures { result ≡ held (weight_of_all (map (λ hir. tree_of hir.now) hirs.now)) }
{
    let mut weight: usize = if hirs.len() == 1 { 0 } else { 1 };
    for hir in hirs {
        weight = weight.saturating_add(hir.weight());
    }
    weight
}

/// Compiles patterns to a program. With several patterns, or none, a state above them has ordered
/// edges to each: if matches of several start at the same offset, the earliest pattern is
/// preferred. Without a pattern the program never matches. In each search the walks of the program
/// over bytes are those of the patterns' program over characters.
///
/// The weight of patterns is the sum of theirs, plus 1 unless there is exactly one.
///
/// # Errors
///
/// - `Size` exactly if 40 for each unit of weight exceeds the limit, or, without one, if the weight
///   exceeds 2,147,483,646; this is checked before anything of that size is built
/// - `Memory`
///
/// # Complexity
///
/// Time and memory proportional to the weight and to the automata of the sets.
pub fn compile(
    alloc: Global,
    hirs: &[&Hir],
    line_terminator: u8,
    size_limit: Option<usize>,
) -> Result<Program, BuildError>
    ensures program { IfOk result (λ program. character_program program
        ≡ program_of (map (λ hir. tree_of hir.now) hirs.now) line_terminator) }
    ensures walks { IfOk result (λ program. HasWalksOfProgram program
        (program_of (map (λ hir. tree_of hir.now) hirs.now) line_terminator)) }
    ensures size { (result ≡ Err (BuildError.Size (told_limit size_limit)))
        ↔ IsTooLarge size_limit (weight_of_all (map (λ hir. tree_of hir.now) hirs.now)) }
    ensures errors { IfErr result (λ e. (e ≡ BuildError.Size (told_limit size_limit))
        ⊎ (e ≡ BuildError.Memory)) }
{
    if is_too_large(weight_of_all(hirs), size_limit) {
        return Err(BuildError::Size {
            limit: told_limit(size_limit),
        });
    }
    let (states, starts) = states_of(alloc, hirs)?;
    Ok(Program::new(states, starts, line_terminator))
}
