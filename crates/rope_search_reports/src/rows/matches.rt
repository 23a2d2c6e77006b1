//! The matches of a row, in two words.
ghost use Rattle.std.specs.Prelude.{◌≡◌, IfOk};
ghost use Rattle.rope_search_reports.specs.Finders.{matches_in};

use std::alloc::{AllocError, Global};
use std::slice;

/// The matches of a row, each as two columns. A report has a row for each line, and most lines have
/// no match or one; so it takes two words, and a single match only the memory it needs.
#[derive(Drop)]
pub(crate) enum Found {
    /// None.
    Nothing,
    /// One match.
    One(Box<(usize, usize)>),
    /// At least two, from left to right.
    Many(Box<Vec<(usize, usize)>>),
}

const _: () = prove!(size_of::<Found>() == 16);

/// Returns a list of them without spare capacity.
fn many(alloc: Global, matches: &[(usize, usize)]) -> Result<Found, AllocError>
    ensures { IfOk result (λ found. matches_in found ≡ matches.now) }
{
    let mut list = Vec::with_capacity(alloc, matches.len())?;
    list.extend_from_slice(matches)?;
    Ok(Found::Many(Box::new(alloc, list)?))
}

impl Found {
    /// Returns these matches.
    pub(super) fn of(alloc: Global, matches: &[(usize, usize)]) -> Result<Found, AllocError>
        ensures { IfOk result (λ found. matches_in found ≡ matches.now) }
    {
        match matches {
            [] => Ok(Found::Nothing),
            [one] => Ok(Found::One(Box::new(alloc, *one)?)),
            _ => many(alloc, matches),
        }
    }

    /// Returns the matches as a slice.
    pub(super) fn as_slice(&self) -> &[(usize, usize)]
        ensures { result.now ≡ matches_in self.now }
    {
        match self {
            Found::Nothing => &[],
            Found::One(one) => slice::from_ref(&**one),
            Found::Many(list) => list.as_slice(),
        }
    }
}
