//! The members of sets that have few.

ghost use Rattle.std.specs.Prelude.{◌≡◌, ℕ, true, Contains, IfOk, IsTrue, OnOk};
ghost use Rattle.std.specs.Char.{IsScalar};
ghost use Rattle.std.specs.Option.{ForSome};
ghost use Rattle.rx_sets.specs.Sets.{in_range, ordinal};
ghost use Rattle.rx_literals.specs.Ways.{HasMembers};

use rx_sets::{Range, from_ordinal};
use std::alloc::{AllocError, Global};

/// A set with more members isn't read.
const MEMBERS: usize = 4;

/// An upper bound on the number of characters.
const CHARACTERS: u32 = 0x11_0000;

/// Appends the character with this ordinal, if there is one.
fn put_member(members: &mut Vec<char>, index: u32) -> Result<(), AllocError>
    ensures kept { OnOk result ((c : ℕ) → Contains members.old.items c
        → Contains members.new.items c) }
    ensures put { OnOk result ((c : ℕ) → IsScalar c → ordinal c ≡ index
        → Contains members.new.items c) }
{
    if let Some(c) = from_ordinal(index) {
        members.push(c)?;
    }
    Ok(())
}

/// Appends the members of a range, if there are few in all, and returns whether there are.
fn put_members(members: &mut Vec<char>, range: &Range) -> Result<bool, AllocError>
    ensures kept { OnOk result ((c : ℕ) → Contains members.old.items c
        → Contains members.new.items c) }
    ensures put { IfOk result (λ few. IsTrue few → (c : ℕ) → IsScalar c
        → in_range (ordinal c) range.now ≡ true → Contains members.new.items c) }
{
    let (first, last) = *range;
    if last >= CHARACTERS || last.saturating_sub(first) as usize >= MEMBERS {
        return Ok(false);
    }
    for ordinal in first..last + 1 {
        put_member(members, ordinal)?;
    }
    Ok(members.len() <= MEMBERS)
}

/// Returns the members of a set of ranges, if they are few.
pub(crate) fn few_members(alloc: Global, ranges: &[Range]) -> Result<Option<Vec<char>>, AllocError>
    ensures { IfOk result (λ some. ForSome some (λ members. HasMembers ranges.now members.items)) }
{
    let mut members = Vec::new(alloc);
    for range in ranges {
        if !put_members(&mut members, range)? {
            return Ok(None);
        }
    }
    Ok(Some(members))
}
