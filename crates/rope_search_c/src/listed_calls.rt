//! The calls for the matches in a report.
ghost use Rattle.std.specs.Prelude.{◌≡◌, false, MatchOption};
ghost use Rattle.rope_search_c.specs.Listed.{TellsListIndex, TellsListedBefore, TellsListedFrom};

use crate::handles::Handle;
use crate::listed::Listed;
use rope_search::Position;
use std::alloc::Global;

/// Writes the first match of the chosen buffer's report that starts at a position or after it, and
/// returns whether there is one. The position need not be one of the text. Without such a match,
/// without a pattern and on a closed handle it returns false, and `listed` is unchanged.
///
/// # Complexity
///
/// Linear in the rows from the position's line to the match's.
#[unsafe(no_mangle)]
pub extern "C" fn rope_search_listed_from(
    alloc: Global,
    handle: &mut Handle,
    position: Position,
    listed: &mut Listed,
) -> bool
    ensures same { handle.new.held ≡ handle.old.held }
    ensures told { MatchOption handle.old.held ((result ≡ false) × (listed.new ≡ listed.old))
        (λ old. TellsListedFrom old position result listed.old listed.new) }
{
    let Some(session) = handle.take(alloc) else {
        return false;
    };
    let is_found = session.listed_from(position, listed);
    *handle = Handle::of(session);
    is_found
}

/// Writes the last match of the chosen buffer's report that starts before a position, and returns
/// whether there is one. The position need not be one of the text. Without such a match, without a
/// pattern and on a closed handle it returns false, and `listed` is unchanged.
///
/// # Complexity
///
/// Linear in the rows from the match's line to the position's.
#[unsafe(no_mangle)]
pub extern "C" fn rope_search_listed_before(
    alloc: Global,
    handle: &mut Handle,
    position: Position,
    listed: &mut Listed,
) -> bool
    ensures same { handle.new.held ≡ handle.old.held }
    ensures told { MatchOption handle.old.held ((result ≡ false) × (listed.new ≡ listed.old))
        (λ old. TellsListedBefore old position result listed.old listed.new) }
{
    let Some(session) = handle.take(alloc) else {
        return false;
    };
    let is_found = session.listed_before(position, listed);
    *handle = Handle::of(session);
    is_found
}

/// Writes the number of matches in the chosen buffer's report before the match of a line and a
/// number in its row, from 0, and the number of all, and returns whether there is such a match.
/// Without such a match, without a pattern and on a closed handle it returns false, and both
/// outputs are unchanged.
///
/// # Complexity
///
/// Linear in the rows of the report.
#[unsafe(no_mangle)]
pub extern "C" fn rope_search_list_index(
    alloc: Global,
    handle: &mut Handle,
    line: usize,
    number: usize,
    index: &mut usize,
    count: &mut usize,
) -> bool
    ensures same { handle.new.held ≡ handle.old.held }
    ensures told { MatchOption handle.old.held
        ((result ≡ false) × (index.new ≡ index.old) × (count.new ≡ count.old))
        (λ old. TellsListIndex old line number result index.old index.new count.old count.new) }
{
    let Some(session) = handle.take(alloc) else {
        return false;
    };
    let is_listed = session.list_index(line, number, index, count);
    *handle = Handle::of(session);
    is_listed
}
