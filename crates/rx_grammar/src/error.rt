//! Errors of parsing.

ghost use Rattle.std.specs.Prelude.{◌≡◌};
ghost use Rattle.rx_grammar.specs.declared.error.SyntaxError.TheVariants.{Memory};

use std::alloc::AllocError;
use thiserror::Error;

/// Why a pattern is refused.
#[derive(Debug, Clone, Copy, PartialEq, Eq, Error)]
pub enum SyntaxError {
    /// The pattern has more than 65,536 bytes. This is checked first.
    #[error("the pattern has more than 65,536 bytes")]
    TooLong,
    /// The pattern is only valid with a greater nest limit: its groups and repetitions are nested
    /// too deeply.
    #[error("the pattern is nested too deeply")]
    Nesting,
    /// The pattern isn't in the grammar, whatever the nest limit.
    #[error("the pattern isn't in the grammar")]
    Outside,
    /// Out of memory.
    #[error("there was no memory for the pattern")]
    Memory,
}

impl From<AllocError> for SyntaxError {
    ghost from_gives = { λ _ e. e ≡ Memory };

    fn from(_: AllocError) -> Self {
        SyntaxError::Memory
    }
}
