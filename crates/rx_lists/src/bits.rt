//! Sets of numbers in bits.

ghost use Rattle.std.specs.Prelude.{◌≡◌, ◌≢◌, ◌<◌, ◌≤◌, ◌*◌, ℕ, true, false, IfOk, IsTrue, length};
ghost use Rattle.rx_lists.specs.Bits.{has_bit};

use std::alloc::{AllocError, Global};
use std::marker::Model;

/// A set of numbers below a bound, one bit for each. Contracts see the words.
#[derive(Debug, Drop)]
pub(crate) struct Bits {
    words: Vec<u64>,
}

impl Model for Bits {
    ghost use Rattle.std.specs.Prelude.{List, ℕ};

    ghost Value = { List ℕ };

    ghost view = { λ b. b.words.items };
}

impl Bits {
    /// Returns the empty set, with room for the numbers below a bound.
    pub(crate) fn new(alloc: Global, bound: usize) -> Result<Bits, AllocError>
        ensures room { IfOk result (λ bits. bound ≤ 64 * length bits) }
        ensures none { IfOk result (λ bits. (n : ℕ) → has_bit bits n ≡ false) }
    {
        let mut words = Vec::new(alloc);
        words.resize(bound / 64 + 1, 0)?;
        Ok(Bits { words })
    }

    /// Adds a number for which there is room.
    pub(crate) fn insert(&mut self, number: usize)
        requires { number < 64 * length self.old }
        ensures there { has_bit self.new number ≡ true }
        ensures others { (n : ℕ) → n ≢ number → has_bit self.new n ≡ has_bit self.old n }
        ensures room { length self.new ≡ length self.old }
    {
        let word = self.words[number / 64];
        self.words[number / 64] = word | 1_u64 << (number % 64);
    }

    /// Returns whether a number is a member.
    pub(crate) fn has(&self, number: usize) -> bool
        ensures { result ≡ has_bit self.now number }
    {
        match self.words.get(number / 64) {
            Some(word) => *word >> (number % 64) & 1 == 1,
            None => false,
        }
    }

    /// Returns whether both sets have the same words.
    pub(crate) fn is_same(&self, other: &Bits) -> bool
        ensures { IsTrue result → self.now ≡ other.now }
    {
        self.words == other.words
    }
}
