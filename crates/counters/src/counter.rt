//! A number that only contracts read.
use std::marker::Model;
use std::mem;
use std::snapshot::Snapshot;

/// Counts from 0. It takes no bytes at run time, so only contracts can read it, and it never
/// overflows.
#[derive(Drop)]
pub struct Counter {
    chain: Snapshot<Chain>,
}

// One link for each step counted. No value but `Start` is ever made.
#[derive(Drop)]
enum Chain {
    Start,
    OneMore(Snapshot<Chain>),
}

impl Model for Counter {
    ghost use Rattle.std.specs.Prelude.{ℕ};
    ghost use Rattle.counters.specs.Chains.{links_of};

    ghost Value = { ℕ };

    ghost view = { λ counter. links_of counter.chain.value };
}

impl Counter {
    ghost use Rattle.std.specs.Prelude.{◌≡◌, ◌+◌};

    /// Returns a counter at 0.
    #[inline(always)]
    pub fn new() -> Counter
        ensures { result ≡ 0 }
    {
        Counter {
            chain: Snapshot::of(&Chain::Start),
        }
    }

    /// Counts one more.
    #[inline(always)]
    pub fn add(&mut self)
        ensures { self.new ≡ self.old + 1 }
    {
        let before = mem::replace(&mut self.chain, Snapshot::of(&Chain::Start));
        self.chain = Snapshot::of(&Chain::OneMore(before));
    }
}

const _: () = prove!(size_of::<Counter>() == 0);
