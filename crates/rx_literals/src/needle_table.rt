//! The first three bytes of needles, if they begin with many different bytes, or with common ones.

ghost use Rattle.std.specs.Prelude.{◌≡◌, ◌+◌, ◌<◌, ◌≤◌, ◌↔◌, ℕ, List, IfSome, IsTrue, get_or, length, map};
ghost use Rattle.memchr.specs.Find.{IsFirst};
ghost use Rattle.rx_literals.specs.NeedleTables.{BeginInTable, MayOccurAt};

use std::marker::Model;

/// The number of bytes of a needle that a table has.
pub(crate) const TABLE_LEN: usize = 3;

/// For each byte by how many offsets a search moves on if it is the third byte at an offset: by 0
/// if a needle has it third, so that one may occur there; by 1 if one has it second; by 2 if one
/// has it first; otherwise by 3.
#[derive(Debug, Drop)]
pub(crate) struct NeedleTable {
    shifts: [u8; 256],
}

impl Model for NeedleTable {
    ghost use Rattle.std.specs.Prelude.{ℕ, List};

    ghost Value = { List ℕ };

    ghost view = { λ t. t.shifts };
}

/// Lets a search move on past a byte by at most this number of offsets.
fn put_byte(shifts: &mut [u8; 256], byte: u8, shift: u8)
    ensures put { get_or shifts.new byte 3 ≤ shift }
    ensures less { (b : ℕ) → get_or shifts.new b 3 ≤ get_or shifts.old b 3 }
{
    let index = usize::from(byte);
    if shifts[index] > shift {
        shifts[index] = shift;
    }
}

impl NeedleTable {
    /// Adds the first three bytes of a needle, and returns whether it has that many.
    fn put(&mut self, needle: &[u8]) -> bool
        ensures has { IsTrue result → MayOccurAt self.new needle.now 0 }
        ensures keeps { (other : List ℕ) → MayOccurAt self.old other 0
            → MayOccurAt self.new other 0 }
    {
        if needle.len() < TABLE_LEN {
            return false;
        }
        put_byte(&mut self.shifts, needle[0], 2);
        put_byte(&mut self.shifts, needle[1], 1);
        put_byte(&mut self.shifts, needle[2], 0);
        true
    }

    /// Returns the table of these needles, or `None` if one has fewer than three bytes.
    pub(crate) fn of(needles: &[&[u8]]) -> Option<NeedleTable>
        ensures { IfSome result
            (λ table. BeginInTable table (map (λ needle. needle.now) needles.now)) }
    {
        let mut table = NeedleTable { shifts: [3; 256] };
        for needle in needles {
            if !table.put(needle) {
                return None;
            }
        }
        Some(table)
    }

    /// Returns whether a needle may occur at an offset, whose third byte is one of a needle.
    fn may_occur(&self, hay: &[u8], at: usize) -> bool
        requires inside { at + 2 < length hay.now }
        requires third { get_or self.now (get_or hay.now (at + 2) 0) 3 ≡ 0 }
        ensures { IsTrue result ↔ MayOccurAt self.now hay.now at }
    {
        self.shifts[usize::from(hay[at])] <= 2 && self.shifts[usize::from(hay[at + 1])] <= 1
    }

    /// Returns the first offset of `hay`, from one on, at which a needle may occur.
    pub(crate) fn find_from(&self, hay: &[u8], from: usize) -> Option<usize>
        requires { from ≤ length hay.now }
        ensures { IsFirst (MayOccurAt self.now hay.now) from (length hay.now) result }
    {
        let end = hay.len().saturating_sub(2);
        let mut at = from;
        while at < end {
            let shift = self.shifts[usize::from(hay[at + 2])];
            if shift > 0 {
                at += usize::from(shift.min(3));
            } else if self.may_occur(hay, at) {
                return Some(at);
            } else {
                at += 1;
            }
        }
        None
    }
}
