//! The ranges of bytes that lead to some positions in an automaton, and for each byte the states
//! from which it leads there. A position is a state, or the end of a character.

ghost use Rattle.std.specs.Prelude.{ℕ, ◌≡◌, ◌<◌, ◌++◌, [], ◌∷◌, ◌&&◌, ◌||◌, nat_lt, length, get_or, cond, false, OnOk, IfOk};
ghost use Rattle.rx_walks.specs.Reversed.{has};
ghost use Rattle.rx_utf8.specs.Blocks.{rows_of};
ghost use Rattle.rx_utf8.specs.Subsets.{covers, entries_from, entries_of, in_some, is_place, lists_of, sources};

use crate::byte_ranges::{ByteRange, state_number};
use std::alloc::{AllocError, Global};

/// A range of bytes in the row of a state.
#[derive(Clone, Copy)]
pub(crate) struct Entry {
    /// The state.
    pub(crate) source: u16,
    /// The bytes, and the state to which they lead.
    pub(crate) range: ByteRange,
}

/// Returns whether this is one of the positions: the end, if `end`, or a state of the set.
fn is_place(end: bool, states: &[bool], next: Option<u16>) -> bool
    ensures { result ≡ is_place end states.now next }
{
    match next {
        None => end,
        Some(state) => match states.get(usize::from(state)) {
            Some(is_one) => *is_one,
            None => false,
        },
    }
}

/// Adds the states with these numbers, as far as they exist.
fn insert(states: &mut Vec<bool>, numbers: &[u16])
    ensures len { length states.new.items ≡ length states.old.items }
    ensures states { (s : ℕ) → get_or states.new.items s false ≡ (get_or states.old.items s false
        || (nat_lt s (length states.old.items) && has numbers.now s)) }
{
    for number in numbers {
        let state = usize::from(*number);
        if state < states.len() {
            states[state] = true;
        }
    }
}

/// Sets the states to those in one of the sets.
pub(crate) fn set_states(states: &mut Vec<bool>, sets: &[Vec<u16>])
    ensures len { length states.new.items ≡ length states.old.items }
    ensures states { (s : ℕ) → get_or states.new.items s false
        ≡ (nat_lt s (length states.old.items) && in_some (lists_of sets.now) s) }
{
    states.fill(false);
    for set in sets {
        insert(states, set);
    }
}

/// Appends the ranges of a row that lead to one of the positions.
fn push_entries(
    entries: &mut Vec<Entry>,
    source: u16,
    row: &[ByteRange],
    end: bool,
    states: &[bool],
) -> Result<(), AllocError>
    ensures { OnOk result (entries.new.items
        ≡ entries.old.items ++ entries_of (is_place end states.now) source row.now) }
{
    for range in row {
        if is_place(end, states, range.next) {
            entries.push(Entry {
                source,
                range: *range,
            })?;
        }
    }
    Ok(())
}

/// Returns the ranges of the rows that lead to one of the positions.
pub(crate) fn entries_into(
    alloc: Global,
    rows: &[Vec<ByteRange>],
    end: bool,
    states: &[bool],
) -> Result<Vec<Entry>, AllocError>
    ensures { IfOk result (λ entries. entries.items
        ≡ entries_from (is_place end states.now) 0 (rows_of rows.now)) }
{
    let mut entries = Vec::new(alloc);
    for source in 0..rows.len() {
        push_entries(
            &mut entries,
            state_number(source)?,
            &rows[source],
            end,
            states,
        )?;
    }
    Ok(entries)
}

/// Clears all lists.
fn clear(lists: &mut Vec<Vec<u16>>)
    ensures len { length lists.new.items ≡ length lists.old.items }
    ensures lists { (b : ℕ) → get_or (lists_of lists.new.items) b [] ≡ [] }
{
    for list in lists.iter_mut() {
        list.clear();
    }
}

/// Appends a state to the lists of the bytes in a range.
fn push_source(lists: &mut Vec<Vec<u16>>, range: ByteRange, source: u16) -> Result<(), AllocError>
    requires { length lists.old.items ≡ 256 }
    ensures len { length lists.new.items ≡ 256 }
    ensures lists { OnOk result ((b : ℕ) → get_or (lists_of lists.new.items) b []
        ≡ get_or (lists_of lists.old.items) b [] ++ cond (covers range b) (source ∷ []) []) }
{
    for byte in usize::from(range.first)..usize::from(range.last) + 1 {
        lists[byte].push(source)?;
    }
    Ok(())
}

/// Sets the lists to the states from which each byte leads to one of the positions.
pub(crate) fn set_sources(
    lists: &mut Vec<Vec<u16>>,
    entries: &[Entry],
    end: bool,
    states: &[bool],
) -> Result<(), AllocError>
    requires { length lists.old.items ≡ 256 }
    ensures len { length lists.new.items ≡ 256 }
    ensures lists { OnOk result ((b : ℕ) → get_or (lists_of lists.new.items) b []
        ≡ sources (is_place end states.now) entries.now b) }
{
    clear(lists);
    for entry in entries {
        if is_place(end, states, entry.range.next) {
            push_source(lists, entry.range, entry.source)?;
        }
    }
    Ok(())
}
