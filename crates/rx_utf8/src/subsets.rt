//! The reverse of an automaton, made deterministic: its states represent sets of the other one's
//! states.

ghost use Rattle.std.specs.Prelude.{ℕ, ◌≡◌, ◌<◌, ◌≤◌, ◌+◌, [], ◌∷◌, length, get_or, All, IsTrue, IfOk, IfSome, OnOk};
ghost use Rattle.rx_walks.specs.Transposed.{StandsForPlaces, NeverReturns, at_the_end};
ghost use Rattle.rx_utf8.specs.Automata.{look_up, step_in, IsAutomatonRow};
ghost use Rattle.rx_utf8.specs.Blocks.{Extends, rows_of};
ghost use Rattle.rx_utf8.specs.Subsets.{AddsRowsUpTo, IsLeadOf, lists_of};

use crate::byte_ranges::{ByteRange, push_byte, state_number};
use crate::entries::{entries_into, set_sources, set_states};
use rx_walks::laws_back::transposed_reads_alike;
use std::alloc::{AllocError, Global};

/// Returns a hash with a number mixed in.
fn mixed(hash: u64, number: u64) -> u64 {
    hash.rotate_left(29)
        .wrapping_add(0xD1B5_4A32_D192_ED03)
        .wrapping_add(number)
        .wrapping_mul(0x9E37_79B9_7F4A_7C15)
}

/// Returns the hash of a set among those of the states from this one on; equal sets have equal
/// hashes.
fn hash(from: usize, set: &[u16]) -> u64 {
    let mut hash = mixed(0, from as u64);
    for state in set {
        hash = mixed(hash, u64::from(*state));
    }
    hash
}

/// Returns the chain of sets with this hash.
fn chain(hash: u64) -> usize {
    (hash >> 56) as usize
}

/// The hash of a state's set, and the next state in its chain, or 0.
#[derive(Clone, Copy)]
struct Link {
    hash: u64,
    next: u16,
}

/// The sets of states that the states of the automaton represent. The first state represents the
/// end of a character, and has no set.
#[derive(Drop)]
pub(crate) struct Subsets {
    alloc: Global,
    sets: Vec<Vec<u16>>,
    // By state, and by chain the first state in it. It isn't proved that each set is found again:
    // if it weren't, two states might represent the same set.
    links: Vec<Link>,
    heads: Vec<u16>,
    // The last result, which is often the next one too.
    last: u16,
}

impl Subsets {
    /// Returns this with the first state only.
    fn new(alloc: Global) -> Result<Subsets, AllocError>
        ensures { IfOk result (λ subsets. lists_of subsets.sets.items ≡ [] ∷ []) }
    {
        let mut sets = Vec::new(alloc);
        sets.push(Vec::new(alloc))?;
        let mut links = Vec::new(alloc);
        links.push(Link { hash: 0, next: 0 })?;
        Ok(Subsets {
            alloc,
            sets,
            links,
            heads: vec![in alloc; 0; 256]?,
            last: 0,
        })
    }

    /// Returns whether the state is one from `from` on that represents the set.
    fn stands_for(&self, number: u16, from: usize, set: &[u16]) -> bool
        ensures from { IsTrue result → from ≤ number }
        ensures known { IsTrue result → number < length self.now.sets.items }
        ensures set { IsTrue result
            → get_or (lists_of self.now.sets.items) number [] ≡ set.now }
    {
        match self.sets.get(usize::from(number)) {
            Some(known) => from <= usize::from(number) && known.as_slice() == set,
            None => false,
        }
    }

    /// Returns the state from `from` on that represents the set, if it is found.
    fn find(&self, hash: u64, from: usize, set: &[u16]) -> Option<u16>
        ensures from { IfSome result (λ t. from ≤ t) }
        ensures known { IfSome result (λ t. t < length self.now.sets.items) }
        ensures set { IfSome result (λ t. get_or (lists_of self.now.sets.items) t [] ≡ set.now) }
    {
        let mut number = *self.heads.get(chain(hash))?;
        for _ in 0..self.links.len() {
            if number == 0 {
                return None;
            }
            let link = *self.links.get(usize::from(number))?;
            if link.hash == hash && self.stands_for(number, from, set) {
                return Some(number);
            }
            number = link.next;
        }
        None
    }

    /// Puts a state at the head of its chain, and makes it the last result.
    fn link(&mut self, hash: u64, number: u16) -> Result<(), AllocError>
        ensures { self.new.sets ≡ self.old.sets }
    {
        self.last = number;
        let Some(head) = self.heads.get_mut(chain(hash)) else {
            return Ok(());
        };
        let next = *head;
        *head = number;
        self.links.push(Link { hash, next })?;
        Ok(())
    }

    /// Returns the state from `from` on that represents the set, which is added if there is none.
    fn number(&mut self, from: usize, set: &[u16]) -> Result<u16, AllocError>
        requires { from ≤ length self.old.sets.items }
        ensures kept { OnOk result (Extends (lists_of self.old.sets.items)
            (lists_of self.new.sets.items)) }
        ensures from { IfOk result (λ t. from ≤ t) }
        ensures known { IfOk result (λ t. t < length self.new.sets.items) }
        ensures set { IfOk result (λ t. get_or (lists_of self.new.sets.items) t [] ≡ set.now) }
    {
        if self.stands_for(self.last, from, set) {
            return Ok(self.last);
        }
        let hash = hash(from, set);
        if let Some(number) = self.find(hash, from, set) {
            self.last = number;
            return Ok(number);
        }
        let number = self.sets.len();
        self.sets.push(set.to_vec(self.alloc)?)?;
        let number = state_number(number)?;
        self.link(hash, number)?;
        Ok(number)
    }

    /// Returns where a byte leads backward that leads on from the states of the set.
    fn lead(&mut self, from: usize, set: &[u16]) -> Result<Option<Option<u16>>, AllocError>
        requires { from ≤ length self.old.sets.items }
        ensures kept { OnOk result (Extends (lists_of self.old.sets.items)
            (lists_of self.new.sets.items)) }
        ensures lead { IfOk result (IsLeadOf (lists_of self.new.sets.items) from set.now) }
    {
        if set.is_empty() {
            return Ok(None);
        }
        if set.contains(&0) {
            return Ok(Some(None));
        }
        Ok(Some(Some(self.number(from, set)?)))
    }
}

/// Sets the row of a state from the lists of states from which each byte leads into its set; the
/// row leads to states from `from` on.
fn set_row(
    row: &mut Vec<ByteRange>,
    lists: &[Vec<u16>],
    subsets: &mut Subsets,
    from: usize,
) -> Result<(), AllocError>
    requires lists { length lists.now ≡ 256 }
    requires from { from ≤ length subsets.old.sets.items }
    ensures kept { OnOk result (Extends (lists_of subsets.old.sets.items)
        (lists_of subsets.new.sets.items)) }
    ensures leads { OnOk result ((b : ℕ) → b < 256
        → IsLeadOf (lists_of subsets.new.sets.items) from (get_or (lists_of lists.now) b [])
        (look_up row.new.items b)) }
    ensures disjoint { OnOk result (IsAutomatonRow row.new.items) }
{
    row.clear();
    for code in 0..256_u32 {
        if let Some(next) = subsets.lead(from, &lists[code as usize])? {
            push_byte(row, code as u8, next)?;
        }
    }
    Ok(())
}

/// The rows so far, and room for further ones.
#[derive(Drop)]
struct Maker {
    alloc: Global,
    rows: Vec<Vec<ByteRange>>,
    subsets: Subsets,
    // The states in a set of the level.
    states: Vec<bool>,
    // For each byte the states from which it leads into the set.
    lists: Vec<Vec<u16>>,
    // The current row, which is copied once its length is known.
    row: Vec<ByteRange>,
}

impl Maker {
    /// Returns this without rows, for the reverse of an automaton with this number of states.
    fn new(alloc: Global, state_count: usize) -> Result<Maker, AllocError>
        ensures rows { IfOk result (λ maker. maker.rows.items ≡ []) }
        ensures sets { IfOk result (λ maker. lists_of maker.subsets.sets.items ≡ [] ∷ []) }
        ensures states { IfOk result (λ maker. length maker.states.items ≡ state_count) }
        ensures lists { IfOk result (λ maker. length maker.lists.items ≡ 256) }
    {
        let mut lists = Vec::with_capacity(alloc, 256)?;
        for _ in 0..256_u32 {
            lists.push(Vec::new(alloc))?;
        }
        Ok(Maker {
            alloc,
            rows: Vec::new(alloc),
            subsets: Subsets::new(alloc)?,
            states: vec![in alloc; false; state_count]?,
            lists,
            row: Vec::new(alloc),
        })
    }

    /// Adds the rows of the states whose sets are there.
    fn add_level(&mut self, forward: &[Vec<ByteRange>]) -> Result<(), AllocError>
        requires forward { All IsAutomatonRow (rows_of forward.now) }
        requires states { length self.old.states.items ≡ length forward.now }
        requires lists { length self.old.lists.items ≡ 256 }
        requires some { 0 < length (lists_of self.old.subsets.sets.items) }
        requires within { length (rows_of self.old.rows.items)
            ≤ length (lists_of self.old.subsets.sets.items) }
        requires disjoint { All IsAutomatonRow (rows_of self.old.rows.items) }
        ensures states { OnOk result (length self.new.states.items ≡ length forward.now) }
        ensures lists { OnOk result (length self.new.lists.items ≡ 256) }
        ensures rows { OnOk result (AddsRowsUpTo (length forward.now)
            (step_in (rows_of forward.now))
            (lists_of self.old.subsets.sets.items) (rows_of self.old.rows.items)
            (length (lists_of self.old.subsets.sets.items))
            (lists_of self.new.subsets.sets.items) (rows_of self.new.rows.items)) }
    {
        let from = self.rows.len();
        let to = self.subsets.sets.len();
        // Only ranges that lead into some set are kept, so that each set doesn't check the others
        // again.
        set_states(&mut self.states, &self.subsets.sets[from..to]);
        let entries = entries_into(self.alloc, forward, from == 0, &self.states)?;
        for state in from..to {
            set_states(&mut self.states, &self.subsets.sets[state..state + 1]);
            set_sources(&mut self.lists, &entries, state == 0, &self.states)?;
            set_row(&mut self.row, &self.lists, &mut self.subsets, to)?;
            let row = self.row.to_vec(self.alloc)?;
            self.rows.push(row)?;
        }
        Ok(())
    }
}

/// Returns the rows of the automaton that reads backward, over at most four bytes, what the one
/// with these rows reads. It has a level of states for each byte that was read.
pub(crate) fn rows_back(
    alloc: Global,
    forward: &[Vec<ByteRange>],
) -> Result<Vec<Vec<ByteRange>>, AllocError>
    requires { All IsAutomatonRow (rows_of forward.now) }
    ensures reads { IfOk result (λ rows. (n : ℕ) × StandsForPlaces n (step_in (rows_of forward.now))
        (step_in (rows_of rows.items)) 4 at_the_end 0) }
    ensures never_returns { IfOk result (λ rows. NeverReturns (step_in (rows_of rows.items))) }
    ensures disjoint { IfOk result (λ rows. All IsAutomatonRow (rows_of rows.items)) }
{
    transposed_reads_alike();
    let mut maker = Maker::new(alloc, forward.len())?;
    for _ in 0..4_u32 {
        maker.add_level(forward)?;
    }
    Ok(maker.rows)
}
