//! Why patterns are refused.

ghost use Rattle.std.specs.Prelude.{◌≡◌, IsTrue, ◌↔◌};
ghost use Rattle.rx_program.specs.Errors.{pattern_in, limit_in, syntax_in};
ghost use Rattle.rx_program.specs.declared.error.BuildError.TheVariants.{Memory};

use rx_grammar::SyntaxError;
use rx_util::PatternID;
use std::alloc::AllocError;
use thiserror::Error;

/// Why patterns can't be compiled.
#[derive(Debug, Clone, Copy, PartialEq, Eq, Error)]
pub enum BuildError {
    /// A pattern isn't valid.
    #[error("{error}")]
    Syntax {
        /// The first pattern that isn't valid.
        pattern: PatternID,
        /// Why it isn't valid.
        error: SyntaxError,
    },
    /// The patterns weigh too much.
    #[error("the patterns are too large")]
    Size {
        /// The limit in bytes; a program counts as 40 bytes for each unit of weight.
        limit: usize,
    },
    /// Out of memory.
    #[error("there was no memory for the program")]
    Memory,
}

impl From<AllocError> for BuildError {
    ghost from_gives = { λ _ e. e ≡ Memory };

    fn from(_: AllocError) -> Self {
        BuildError::Memory
    }
}

impl BuildError {
    /// Returns the first pattern that isn't valid.
    pub fn pattern(&self) -> Option<PatternID>
        ensures { result ≡ pattern_in self.now }
    {
        match self {
            BuildError::Syntax { pattern, .. } => Some(*pattern),
            _ => None,
        }
    }

    /// Returns why that pattern isn't valid.
    pub fn syntax_error(&self) -> Option<SyntaxError>
        ensures { result ≡ syntax_in self.now }
    {
        match self {
            BuildError::Syntax { error, .. } => Some(*error),
            _ => None,
        }
    }

    /// Returns the limit that the patterns exceed, in bytes.
    pub fn size_limit(&self) -> Option<usize>
        ensures { result ≡ limit_in self.now }
    {
        match self {
            BuildError::Size { limit } => Some(*limit),
            _ => None,
        }
    }

    /// Returns whether this is `Memory`.
    pub fn is_memory(&self) -> bool
        ensures { IsTrue result ↔ (self.now ≡ Memory) }
    {
        match self {
            BuildError::Memory => true,
            _ => false,
        }
    }
}
