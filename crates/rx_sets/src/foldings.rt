//! Ranges of the items of a class, and of their simple case foldings.

ghost use Rattle.std.specs.Prelude.{◌≡◌, ◌≢◌, ℕ, ◌↔◌, ◌&&◌, IsTrue, OnOk, Contains};
ghost use Rattle.unicode.specs.CaseFolding.{simple_fold};
ghost use Rattle.rx_sets.specs.Sets.{is_scalar, FoldsInto, FoldedIf};
ghost use Rattle.rx_sets.specs.Unions.{Adds, OneOf, Between, LeadsOut, InSpan};

use crate::character_set::{Range, is_scalar, ordinal, ordinal_of_code};
use crate::items::ClassItem;
use std::alloc::AllocError;
use unicode::case::fold_pairs;

/// Returns the pairs of code points with the same simple case folding whose first part is from
/// `low` to `high`.
fn pairs_between(low: char, high: char) -> &'static [(u32, u32)]
    ensures { (a b : ℕ) → Contains result.now (a, b) ↔
        ((a ≢ b) × (simple_fold a ≡ simple_fold b) × Between low high a) }
{
    let pairs = fold_pairs();
    let (_, rest) = pairs.split_at(pairs.partition_point(|pair| pair.0 < low as u32));
    let (between, _) = rest.split_at(rest.partition_point(|pair| pair.0 <= high as u32));
    between
}

/// Returns whether both parts are scalar values.
fn are_scalars(pair: (u32, u32)) -> bool
    ensures { result ≡ (is_scalar pair.0 && is_scalar pair.1) }
{
    is_scalar(pair.0) && is_scalar(pair.1)
}

/// Returns whether the code point is from `low` to `high`.
fn is_between(low: char, high: char, code: u32) -> bool
    ensures { IsTrue result ↔ Between low high code }
{
    low as u32 <= code && code <= high as u32
}

/// Appends the second part of a pair of scalar values, unless it is itself from `low` to `high`.
fn push_second(
    ranges: &mut Vec<Range>,
    low: char,
    high: char,
    pair: (u32, u32),
) -> Result<(), AllocError>
    ensures { OnOk result (Adds ranges.old.items ranges.new.items (λ c. LeadsOut low high c pair)) }
{
    if is_between(low, high, pair.1) || !are_scalars(pair) {
        return Ok(());
    }
    let other = ordinal_of_code(pair.1);
    ranges.push((other, other))?;
    Ok(())
}

/// Appends the second part of each pair of scalar values, unless it is itself from `low` to `high`.
/// So ranges that are already closed stay short.
fn push_seconds(
    ranges: &mut Vec<Range>,
    low: char,
    high: char,
    pairs: &[(u32, u32)],
) -> Result<(), AllocError>
    ensures { OnOk result (Adds ranges.old.items ranges.new.items
        (λ c. OneOf (LeadsOut low high c) pairs.now)) }
{
    for pair in pairs {
        push_second(ranges, low, high, *pair)?;
    }
    Ok(())
}

/// Appends the scalar values from `low` to `high`.
fn push_span(ranges: &mut Vec<Range>, low: char, high: char) -> Result<(), AllocError>
    ensures { OnOk result (Adds ranges.old.items ranges.new.items (Between low high)) }
{
    ranges.push((ordinal(low), ordinal(high)))?;
    Ok(())
}

/// Appends the scalar values with the same simple case folding as one from `low` to `high`.
fn push_folded(ranges: &mut Vec<Range>, low: char, high: char) -> Result<(), AllocError>
    ensures { OnOk result (Adds ranges.old.items ranges.new.items (FoldsInto (Between low high))) }
{
    push_span(ranges, low, high)?;
    push_seconds(ranges, low, high, pairs_between(low, high))
}

/// Appends the scalar values from `low` to `high`, closed under folding if `fold` is true.
pub(crate) fn push_folded_if(
    ranges: &mut Vec<Range>,
    fold: bool,
    low: char,
    high: char,
) -> Result<(), AllocError>
    ensures { OnOk result (Adds ranges.old.items ranges.new.items
        (FoldedIf fold (Between low high))) }
{
    if fold {
        push_folded(ranges, low, high)
    } else {
        push_span(ranges, low, high)
    }
}

/// Appends the scalar values of the item, unless it is a letter class.
fn push_item(ranges: &mut Vec<Range>, fold: bool, item: ClassItem) -> Result<(), AllocError>
    ensures { OnOk result (Adds ranges.old.items ranges.new.items (λ c. InSpan fold c item)) }
{
    match item {
        ClassItem::Span(low, high) => push_folded_if(ranges, fold, low, high),
        ClassItem::Perl(_, _) => Ok(()),
    }
}

/// Appends the scalar values of the items that are no letter classes.
pub(crate) fn push_items(
    ranges: &mut Vec<Range>,
    fold: bool,
    items: &[ClassItem],
) -> Result<(), AllocError>
    ensures { OnOk result (Adds ranges.old.items ranges.new.items
        (λ c. OneOf (InSpan fold c) items.now)) }
{
    for item in items {
        push_item(ranges, fold, *item)?;
    }
    Ok(())
}
