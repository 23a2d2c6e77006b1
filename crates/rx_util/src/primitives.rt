//! Identifiers of patterns and states, and offsets as slots store them.

ghost use Rattle.std.specs.Prelude.{ℕ, ◌≡◌, ◌+◌, ◌^◌, ◌<◌, SomeIff};

use std::marker::Model;

/// The identifier of a pattern: its index among those that are searched for together. Contracts see
/// the number, which is any `usize`.
#[derive(Clone, Copy, Debug, Default, PartialEq, Eq, PartialOrd, Ord, Hash)]
pub struct PatternID {
    value: usize,
}

impl Model for PatternID {
    ghost Value = { ℕ };

    ghost view = { λ id. id.value };

    ghost inverse = { λ n. record { value = n } };
}

impl PatternID {
    /// The first pattern.
    pub const ZERO: PatternID = PatternID { value: 0 };

    /// Returns the pattern with this number.
    pub fn new(value: usize) -> PatternID
        ensures { result ≡ value }
    {
        PatternID { value }
    }

    /// Returns the number.
    pub fn as_usize(&self) -> usize
        ensures { result ≡ self.now }
    {
        self.value
    }
}

/// The identifier of a state of a program or an automaton. Contracts see the number, which is any
/// `usize`.
#[derive(Clone, Copy, Debug, Default, PartialEq, Eq, PartialOrd, Ord, Hash)]
pub struct StateID {
    value: usize,
}

impl Model for StateID {
    ghost Value = { ℕ };

    ghost view = { λ id. id.value };

    ghost inverse = { λ n. record { value = n } };
}

impl StateID {
    /// The first state.
    pub const ZERO: StateID = StateID { value: 0 };

    /// Returns the state with this number.
    pub fn new(value: usize) -> StateID
        ensures { result ≡ value }
    {
        StateID { value }
    }

    /// Returns the number.
    pub fn as_usize(&self) -> usize
        ensures { result ≡ self.now }
    {
        self.value
    }
}

/// A `usize` other than `usize::MAX`: an offset as slots store it. Contracts see the number.
#[derive(Clone, Copy, Debug, PartialEq, Eq, PartialOrd, Ord, Hash)]
pub struct NonMaxUsize {
    value: usize,
}

impl Model for NonMaxUsize {
    ghost Value = { ℕ };

    ghost view = { λ place. place.value };

    ghost invariant = { λ place. place.value + 1 < 2 ^ 64 };

    ghost inverse = { λ n. record { value = n } };
}

impl NonMaxUsize {
    /// Returns the number, or `None` for `usize::MAX`.
    pub fn new(value: usize) -> Option<NonMaxUsize>
        ensures { SomeIff result (value + 1 < 2 ^ 64) value }
    {
        if value < usize::MAX {
            Some(NonMaxUsize { value })
        } else {
            None
        }
    }

    /// Returns the number.
    pub fn get(self) -> usize
        ensures value { result ≡ self }
        ensures bound { result + 1 < 2 ^ 64 }
    {
        self.value
    }
}
