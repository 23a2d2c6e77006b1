//! Copies of caches.

ghost use Rattle.std.specs.Prelude.{◌≡◌, IfOk, IfErr};
ghost use Rattle.rx_util.specs.declared.search.MatchError.{MatchError};
ghost use Rattle.rx_dfa.specs.declared.states.AutomatonState.{AutomatonState};
ghost use Rattle.rx_dfa.specs.Caches.{AreNumbered};

use crate::cache::Cache;
use crate::states::AutomatonState;
use rx_util::MatchError;
use std::alloc::{AllocError, Global};
use std::collections::HashMap;

/// Returns copies of the states.
fn copies(alloc: Global, states: &[AutomatonState]) -> Result<Vec<AutomatonState>, AllocError>
    ensures { IfOk result (λ copies. copies.items ≡ states.now) }
{
    let mut copies = Vec::new(alloc);
    for state in states {
        let Ok(()) = copies.push(state.clone()?) else {
            return Err(AllocError);
        };
    }
    Ok(copies)
}

/// Returns the map from hashes to the states' numbers; the last one if several have the same hash.
fn numbers_of(alloc: Global, states: &[AutomatonState]) -> Result<HashMap<u64, usize>, AllocError>
    ensures { IfOk result (AreNumbered states.now) }
{
    let mut numbers = HashMap::new(alloc);
    for number in 0..states.len() {
        if numbers.insert(states[number].hash(), number).is_err() {
            return Err(AllocError);
        }
    }
    Ok(numbers)
}

impl Cache {
    /// Returns a copy with all known states, which takes as much memory as these.
    ///
    /// # Errors
    ///
    /// `Memory`.
    pub fn clone(&self) -> Result<Cache, MatchError>
        ensures same { IfOk result (λ cache. cache ≡ self.now) }
        ensures refused { IfErr result (λ error. error ≡ MatchError.Memory) }
    {
        let alloc = self.maker.allocator();
        let states = copies(alloc, &self.states)?;
        let numbers = numbers_of(alloc, &states)?;
        Ok(Cache {
            maker: self.maker.another()?,
            width: self.width,
            table: self.table.to_vec(alloc)?,
            states,
            numbers,
            used: self.used,
            cleared: self.cleared,
            clear_count: self.clear_count,
            firsts: self.firsts,
        })
    }
}
