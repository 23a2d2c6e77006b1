//! Ranges of bytes that lead to a state, and rows of them.

ghost use Rattle.std.specs.Prelude.{ℕ, ◌≡◌, ◌+◌, ◌<◌, cond, nat_eq, Some, IfOk, OnOk, MatchBool};
ghost use Rattle.rx_utf8.specs.Automata.{look_up, IsAutomatonRow, RiseWithin};

use std::alloc::AllocError;

/// Bytes that lead to the same state.
#[derive(Debug, Clone, Copy, PartialEq, Eq)]
pub struct ByteRange {
    /// The first byte.
    pub first: u8,
    /// The last byte, inclusive.
    pub last: u8,
    /// The number of the state to which they lead; `None` if they end a character.
    pub next: Option<u16>,
}

/// Returns the number of a state as 16 bits, because rows have hundreds of them. An automaton has
/// at most some 22,000 states, so this never fails.
pub(crate) fn state_number(state: usize) -> Result<u16, AllocError>
    ensures { IfOk result (λ number. number ≡ state) }
{
    match u16::try_from(state) {
        Ok(number) => Ok(number),
        Err(_) => Err(AllocError),
    }
}

/// Returns the state to which a range leads as an index.
fn place(next: Option<u16>) -> Option<usize>
    ensures { result ≡ next }
{
    match next {
        Some(state) => Some(usize::from(state)),
        None => None,
    }
}

impl ByteRange {
    /// Returns whether the byte follows the range and leads to the same state.
    fn takes_in(self, byte: u8, next: Option<u16>) -> bool
        ensures { MatchBool result ((self.last + 1 ≡ byte) × (self.next ≡ next)) (Unit {0}) }
    {
        u32::from(self.last) + 1 == u32::from(byte) && self.next == next
    }
}

/// Returns where a byte leads in a row, whose ranges must be in order.
pub(crate) fn look_up(row: &[ByteRange], byte: u8) -> Option<Option<usize>>
    requires { IsAutomatonRow row.now }
    ensures { result ≡ look_up row.now byte }
{
    for range in row {
        if byte < range.first {
            return None;
        }
        if byte <= range.last {
            return Some(place(range.next));
        }
    }
    None
}

/// Appends a byte that leads to this state. If the last range ends right before it and leads there,
/// it is extended.
pub(crate) fn push_byte(
    row: &mut Vec<ByteRange>,
    byte: u8,
    next: Option<u16>,
) -> Result<(), AllocError>
    requires { RiseWithin 0 byte row.old.items }
    ensures rises { OnOk result (RiseWithin 0 (byte + 1) row.new.items) }
    ensures leads { OnOk result ((b : ℕ) → look_up row.new.items b
        ≡ cond (nat_eq b byte) (Some next) (look_up row.old.items b)) }
{
    let len = row.len();
    if len > 0 && row[len - 1].takes_in(byte, next) {
        row[len - 1].last = byte;
        return Ok(());
    }
    row.push(ByteRange {
        first: byte,
        last: byte,
        next,
    })?;
    Ok(())
}
