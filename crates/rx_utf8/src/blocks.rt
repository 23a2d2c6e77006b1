//! The states of blocks of characters, which have the same first bytes.

ghost use Rattle.std.specs.Prelude.{ℕ, ◌≡◌, ◌<◌, ◌≤◌, ◌+◌, ◌-◌, ◌*◌, ◌++◌, [], ◌∷◌, length, cond, Some, None, All, IfOk, OnOk, IfSome};
ghost use Rattle.rx_sets.specs.Sets.{in_ranges};
ghost use Rattle.rx_utf8.specs.Automata.{look_up, step_in, IsAutomatonRow, RiseWithin};
ghost use Rattle.rx_utf8.specs.Blocks.{Extends, prepared, limit, size, AllBetween, Fits, rows_of, any_next};

use crate::byte_ranges::{ByteRange, push_byte, state_number};
use rx_sets::Range;
use std::alloc::{AllocError, Global};

/// Returns whether the code point is in one of the ranges.
fn contains(ranges: &[Range], code: u32) -> bool
    ensures { result ≡ in_ranges ranges.now code }
{
    ranges
        .iter()
        .any(|range| range.0 <= code && code <= range.1)
}

/// Returns whether all code points between these are in the ranges, or none; `None` if neither is
/// clear.
fn cover(ranges: &[Range], low: u32, high: u32) -> Option<bool>
    ensures { IfSome result (λ all. AllBetween (in_ranges ranges.now) low high all) }
{
    for range in ranges {
        if range.0 <= low && high <= range.1 {
            return Some(true);
        }
        if range.0 <= high && low <= range.1 {
            return None;
        }
    }
    Some(false)
}

/// Returns the ranges from the first one on that doesn't end below this code point.
fn ranges_from(mut ranges: &[Range], low: u32) -> &[Range]
    ensures { (c : ℕ) → low ≤ c → in_ranges result.now c ≡ in_ranges ranges.now c }
{
    while let [first, rest @ ..] = ranges
        && first.1 < low
    {
        ranges = rest;
    }
    ranges
}

/// Returns the ranges up to the last one that doesn't start above this code point.
fn ranges_up_to(mut ranges: &[Range], high: u32) -> &[Range]
    ensures { (c : ℕ) → c ≤ high → in_ranges result.now c ≡ in_ranges ranges.now c }
{
    while let [rest @ .., last] = ranges
        && high < last.0
    {
        ranges = rest;
    }
    ranges
}

/// Returns the number of code points with `rest` bytes to come.
fn size(rest: u32) -> u32
    requires { rest ≤ 3 }
    ensures { result ≡ size rest }
{
    match rest {
        0 => 1,
        1 => 64,
        2 => 4096,
        _ => 262_144,
    }
}

/// Returns whether a code point is in the ranges, and the end, at most `high`, of a run of code
/// points from it on of which all are in them, or none.
fn run(ranges: &[Range], code: u32, high: u32) -> (bool, u32)
    requires { code ≤ high }
    ensures from { code ≤ result.1 }
    ensures to { result.1 ≤ high }
    ensures alike { AllBetween (in_ranges ranges.now) code result.1 result.0 }
{
    let mut last = high;
    for range in ranges {
        if range.0 <= code && code <= range.1 {
            return (true, range.1.min(high));
        }
        if code < range.0 && range.0 <= last {
            last = range.0 - 1;
        }
    }
    (false, last)
}

/// Returns the row of a state that reads the last byte of a character, after bytes with this value.
fn last_row(alloc: Global, ranges: &[Range], value: u32) -> Result<Vec<ByteRange>, AllocError>
    requires { value < limit 1 }
    ensures leads { IfOk result (λ row. (b : ℕ) → 128 ≤ b → b < 192 → look_up row.items b
        ≡ cond (in_ranges ranges.now (value * 64 + (b - 128))) (Some None) None) }
    ensures rises { IfOk result (λ row. RiseWithin 128 192 row.items) }
{
    let mut row = Vec::new(alloc);
    let low = value * 64;
    let high = low + 63;
    let mut code = low;
    while code <= high {
        let (is_in, last) = run(ranges, code, high);
        if is_in {
            row.push(ByteRange {
                first: (code - low) as u8 + 128,
                last: (last - low) as u8 + 128,
                next: None,
            })?;
        }
        code = last + 1;
    }
    Ok(row)
}

/// Appends a row, copied to an allocation of its length, because an automaton has hundreds of short
/// ones. Returns the number of its state.
fn push_row(rows: &mut Vec<Vec<ByteRange>>, row: Vec<ByteRange>) -> Result<u16, AllocError>
    ensures rows { OnOk result (rows_of rows.new.items
        ≡ rows_of rows.old.items ++ (row.items ∷ [])) }
    ensures number { IfOk result (λ number. number ≡ length (rows_of rows.old.items)) }
{
    let number = state_number(rows.len())?;
    let row = row.to_vec(*rows.allocator())?;
    rows.push(row)?;
    Ok(number)
}

/// Returns where bytes lead whose value so far is `value`, with `rest` bytes to come.
pub(crate) fn target(
    rows: &mut Vec<Vec<ByteRange>>,
    ranges: &[Range],
    rest: u32,
    value: u32,
) -> Result<Option<Option<u16>>, AllocError>
    requires rest { rest ≤ 3 }
    requires value { value < limit rest }
    requires prepared { Extends prepared (rows_of rows.old.items) }
    requires disjoint { All IsAutomatonRow (rows_of rows.old.items) }
    ensures grows { OnOk result (Extends (rows_of rows.old.items) (rows_of rows.new.items)) }
    ensures fits { IfOk result (λ t. Fits (step_in (rows_of rows.new.items))
        (length (rows_of rows.new.items)) (in_ranges ranges.now) rest value t) }
    ensures kept { OnOk result (All IsAutomatonRow (rows_of rows.new.items)) }
{
    if rest == 0 {
        return Ok(if contains(ranges, value) {
            Some(None)
        } else {
            None
        });
    }
    let low = value * size(rest);
    let high = low + (size(rest) - 1);
    match cover(ranges, low, high) {
        Some(false) => return Ok(None),
        Some(true) => return Ok(Some(Some(rest as u16))),
        None => {}
    }
    // Only the ranges inside the block are passed on, so that its parts don't check the others
    // again.
    let part = ranges_up_to(ranges_from(ranges, low), high);
    if rest == 1 {
        let row = last_row(*rows.allocator(), part, value)?;
        return Ok(Some(Some(push_row(rows, row)?)));
    }
    let mut row = Vec::new(*rows.allocator());
    for byte in 128..192 {
        if let Some(next) = target(rows, part, rest - 1, value * 64 + (byte as u32 - 128))? {
            push_byte(&mut row, byte, next)?;
        }
    }
    Ok(Some(Some(push_row(rows, row)?)))
}

/// Appends a row that leads from each continuation byte to this state.
fn push_any(rows: &mut Vec<Vec<ByteRange>>, next: Option<u16>) -> Result<(), AllocError>
    ensures { OnOk result (rows_of rows.new.items ≡ rows_of rows.old.items
        ++ (any_next next ∷ [])) }
{
    let mut row = Vec::new(*rows.allocator());
    row.push(ByteRange {
        first: 128,
        last: 191,
        next,
    })?;
    rows.push(row)?;
    Ok(())
}

/// Returns the first rows of each automaton: the first one to be set later, and those of the states
/// that read one, two or three bytes, whatever they are.
pub(crate) fn prepared(alloc: Global) -> Result<Vec<Vec<ByteRange>>, AllocError>
    ensures { IfOk result (λ rows. rows_of rows.items ≡ prepared) }
{
    let mut rows = Vec::new(alloc);
    rows.push(Vec::new(alloc))?;
    push_any(&mut rows, None)?;
    push_any(&mut rows, Some(1))?;
    push_any(&mut rows, Some(2))?;
    Ok(rows)
}
