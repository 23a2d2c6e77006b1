//! The states of an automaton.

ghost use Rattle.std.specs.Prelude.{◌≡◌, false, true, [], IfOk};
ghost use Rattle.rx_dfa.specs.declared.states.Starting.TheVariants.{Never};
ghost use Rattle.rx_steps.specs.Alike.{AreBare};
ghost use Rattle.rx_dfa.specs.Caches.{IsSameState};
ghost use Rattle.rx_dfa.specs.Hashes.{hash_of, mixed, starting_hash, with_end, with_nodes};
ghost use Rattle.rx_dfa.specs.Searching.{met_after};
ghost use Rattle.rx_dfa.specs.States.{start_at, starting_after, ahead_of, ahead_of_end, IsFirstState};

use crate::behind::Behind;
use rx_steps::{Node, ThreadList};
use rx_util::{HalfMatch, PatternID, StateID};
use std::alloc::{AllocError, Global};

/// Whether threads start at an offset and at those after it, and in which state of the program.
#[derive(Clone, Copy, Debug, PartialEq, Eq)]
pub(crate) enum Starting {
    /// Nowhere: a match end was met, or the search is anchored at an earlier offset.
    Never,
    /// Only at this offset.
    Once(StateID),
    /// At this offset and at each following one, until a match end is met.
    Always(StateID),
}

impl Starting {
    /// Returns the state in which a thread starts at an offset, if a match may begin there.
    pub(crate) fn at(&self, may_begin: bool) -> Option<StateID>
        ensures { result ≡ start_at self.now may_begin }
    {
        match self {
            Starting::Never => None,
            Starting::Once(start) | Starting::Always(start) => {
                if may_begin { Some(*start) } else { None }
            }
        }
    }

    /// Returns the hash of this value.
    fn hash(&self) -> u64
        ensures { result ≡ starting_hash self.now }
    {
        match self {
            Starting::Never => mixed(1, 0),
            Starting::Once(start) => mixed(2, start.as_usize()),
            Starting::Always(start) => mixed(3, start.as_usize()),
        }
    }

    /// Returns how threads start after an offset, by whether a match ended there.
    pub(crate) fn after(&self, ended: &Option<PatternID>) -> Starting
        ensures { result ≡ starting_after self.now ended.now }
    {
        match (self, ended) {
            (Starting::Always(start), None) => Starting::Always(*start),
            _ => Starting::Never,
        }
    }
}

/// What a step needs to know of the text after an offset.
#[derive(Clone, Copy, Debug)]
pub(crate) struct Ahead {
    /// The byte to read, or `None` at the end of the span or slice.
    pub(crate) read: Option<u8>,
    /// The byte that assertions see, or `None` at the end of the slice.
    pub(crate) seen: Option<u8>,
    /// Whether a match may begin at the offset.
    pub(crate) may_begin: bool,
}

impl Ahead {
    /// Returns this for a byte that is read.
    pub(crate) fn of(utf8_empty: bool, byte: u8) -> Ahead
        ensures { result ≡ ahead_of utf8_empty byte }
    {
        Ahead {
            read: Some(byte),
            seen: Some(byte),
            may_begin: !utf8_empty || !(128 <= byte && byte < 192),
        }
    }

    /// Returns this for the end of the slice, by whether a match may begin there.
    pub(crate) fn of_end(may_begin: bool) -> Ahead
        ensures { result ≡ ahead_of_end may_begin }
    {
        Ahead {
            read: None,
            seen: None,
            may_begin,
        }
    }
}

/// Returns the last match end after an offset, by the pattern whose match ended there.
pub(crate) fn last_met(
    at: usize,
    ended: &Option<PatternID>,
    met: Option<HalfMatch>,
) -> Option<HalfMatch>
    ensures { result ≡ met_after at ended.now met }
{
    match ended {
        None => met,
        Some(pattern) => Some(HalfMatch::new(*pattern, at)),
    }
}

/// Returns whether two lists of threads have the same nodes.
fn same_nodes(threads: &ThreadList, others: &ThreadList) -> bool
    requires bare { AreBare threads.now.threads }
    requires bare_others { AreBare others.now.threads }
    ensures same { result ≡ true → threads.now.threads ≡ others.now.threads }
    ensures differ { result ≡ false → threads.now.threads ≡ others.now.threads → ⊥ }
{
    if threads.len() != others.len() {
        return false;
    }
    for index in 0..threads.len() {
        if threads.node(index) != others.node(index) {
            return false;
        }
    }
    true
}

/// Returns a hash with a number mixed in. The addend keeps small hashes and numbers from cancelling
/// each other out.
fn mixed(hash: u64, number: usize) -> u64
    ensures { result ≡ mixed hash number }
{
    hash.rotate_left(29)
        .wrapping_add(0xD1B5_4A32_D192_ED03)
        .wrapping_add(number as u64)
        .wrapping_mul(0x9E37_79B9_7F4A_7C15)
}

/// Returns a hash with the pattern mixed in whose match ended.
fn with_end(hash: u64, ended: &Option<PatternID>) -> u64
    ensures { result ≡ with_end hash ended.now }
{
    match ended {
        None => hash,
        Some(pattern) => mixed(hash.wrapping_add(1), pattern.as_usize()),
    }
}

/// Returns a hash with a node mixed in.
fn with_node(hash: u64, node: Node) -> u64
    ensures { result ≡ mixed (mixed hash node.0) node.1 }
{
    mixed(mixed(hash, node.state().as_usize()), node.within())
}

/// Returns a hash with the nodes of threads mixed in.
fn with_nodes(mut hash: u64, threads: &ThreadList) -> u64
    ensures { result ≡ with_nodes hash threads.now.threads }
{
    for index in 0..threads.len() {
        hash = with_node(hash, threads.node(index));
    }
    hash
}

/// What a search knows at an offset: a state of the automaton.
#[derive(Debug, Drop)]
pub(crate) struct AutomatonState {
    /// The threads in order of preference, before epsilon transitions are followed. They have no
    /// slots.
    pub(crate) threads: ThreadList,
    /// How threads start.
    pub(crate) starting: Starting,
    /// What precedes the offset.
    pub(crate) behind: Behind,
    /// The pattern whose match ended at the offset before.
    pub(crate) ended: Option<PatternID>,
}

impl AutomatonState {
    /// Returns the start state for how threads start and what precedes.
    pub(crate) fn first(alloc: Global, starting: Starting, behind: Behind) -> AutomatonState
        ensures { IsFirstState starting behind result }
    {
        AutomatonState {
            threads: ThreadList::new(alloc, 0),
            starting,
            behind,
            ended: None,
        }
    }

    /// Returns a copy.
    pub(crate) fn clone(&self) -> Result<AutomatonState, AllocError>
        ensures { IfOk result (λ state. state ≡ self.now) }
    {
        Ok(AutomatonState {
            threads: self.threads.clone()?,
            starting: self.starting,
            behind: self.behind,
            ended: self.ended,
        })
    }

    /// Returns whether this is the start state for how threads start and what precedes.
    pub(crate) fn is_first(&self, starting: &Starting, behind: &Behind) -> bool
        ensures yes { result ≡ true → IsFirstState starting.now behind.now self.now }
        ensures no { result ≡ false → IsFirstState starting.now behind.now self.now → ⊥ }
    {
        self.threads.len() == 0
            && self.starting == *starting
            && self.behind == *behind
            && self.ended.is_none()
    }

    /// Returns whether the state is dead: it has no thread, and none will start.
    pub(crate) fn is_over(&self) -> bool
        ensures threads { result ≡ true → self.now.threads.threads ≡ [] }
        ensures starting { result ≡ true → self.now.starting ≡ Never }
    {
        self.threads.len() == 0 && self.starting == Starting::Never
    }

    /// Returns whether both are equal.
    pub(crate) fn is_same(&self, other: &AutomatonState) -> bool
        requires bare { AreBare self.now.threads.threads }
        requires bare_other { AreBare other.now.threads.threads }
        ensures same { result ≡ true → IsSameState other.now self.now }
        ensures differs { result ≡ false → IsSameState other.now self.now → ⊥ }
    {
        self.starting == other.starting
            && self.behind == other.behind
            && self.ended == other.ended
            && same_nodes(&self.threads, &other.threads)
    }

    /// Returns the hash by which states are found; equal states have equal hashes.
    pub(crate) fn hash(&self) -> u64
        ensures { result ≡ hash_of self.now }
    {
        let start = mixed(self.starting.hash(), self.behind.number());
        with_nodes(with_end(start, &self.ended), &self.threads)
    }
}
