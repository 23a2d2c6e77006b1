//! Whether patterns are too large.

ghost use Rattle.std.specs.Prelude.{ℕ, ◌≡◌, ◌<◌, IsTrue, ◌↔◌};
ghost use Rattle.rx_grammar.specs.Weights.{held};
ghost use Rattle.rx_program.specs.Sizes.{IsTooLarge, told_limit};

/// The bytes for each unit of weight.
const BYTES: usize = 40;

/// The greatest weight without a limit.
const GREATEST_WEIGHT: usize = 2_147_483_646;

/// The limit in an error without a limit.
const GREATEST_LIMIT: usize = 85_899_345_840;

/// Returns whether patterns of this weight, capped at `usize::MAX`, exceed the limit.
pub(crate) fn is_too_large(weight: usize, size_limit: Option<usize>) -> bool
    ensures { (w : ℕ) → weight ≡ held w → IsTrue result ↔ IsTooLarge size_limit w }
{
    match size_limit {
        Some(limit) => weight > limit / BYTES,
        None => weight > GREATEST_WEIGHT,
    }
}

/// Returns the limit for an error.
pub(crate) fn told_limit(size_limit: Option<usize>) -> usize
    ensures { result ≡ told_limit size_limit }
{
    size_limit.unwrap_or(GREATEST_LIMIT)
}
