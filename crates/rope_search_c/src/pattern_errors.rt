//! Why bytes aren't a pattern, as C gets it.
ghost use Rattle.std.specs.Prelude.{◌≡◌, ◌↔◌};
ghost use Rattle.std.specs.Str.{IsUtf8};
ghost use Rattle.rope_search_c.specs.PatternErrors.{TellsError};
ghost use Rattle.rope_search_c.specs.PatternErrors as errors;

use rope_search::{Mistake, Reason, pattern_error};
use std::alloc::Global;

/// Why bytes aren't a pattern, and where.
#[repr(C)]
#[derive(Clone, Copy, Debug, PartialEq, Eq)]
pub struct PatternReason {
    /// The number of the reason; 0 if they are a pattern, or are refused for another reason.
    pub reason: u32,
    /// The byte offset of the character that can't be there, or the length of a text that ends too
    /// early; 0 if there is no reason.
    pub place: usize,
}

/// Returns the number of a mistake in a pattern.
fn mistake_number(mistake: Mistake) -> u32
    ensures { result ≡ errors.mistake_number mistake }
{
    match mistake {
        Mistake::OpenGroup => 2,
        Mistake::NoOpenGroup => 3,
        Mistake::NothingToRepeat => 4,
        Mistake::Count => 5,
        Mistake::LargeCount => 6,
        Mistake::CountOrder => 7,
        Mistake::Escape => 8,
        Mistake::Scalar => 9,
        Mistake::OpenClass => 10,
        Mistake::ClassItem => 11,
        Mistake::RangeOrder => 12,
        Mistake::GroupHead => 13,
        Mistake::RepeatedName => 14,
        Mistake::Dot => 15,
    }
}

/// Returns the number of the reason for which bytes aren't a pattern.
fn reason_number(reason: Reason) -> u32
    ensures { result ≡ errors.reason_number reason }
{
    match reason {
        Reason::TooLong => 0,
        Reason::Nesting => 1,
        Reason::Outside(mistake) => mistake_number(mistake),
    }
}

/// Writes where and why `rope_search_set_pattern` refuses bytes with 4, and returns 0; the reason
/// is 0 if it doesn't. Returns 3 exactly if they aren't UTF-8, or 7 if out of memory; `error` is
/// then unchanged. Needs no session.
#[unsafe(no_mangle)]
pub extern "C" fn rope_search_pattern_error(
    alloc: Global,
    pattern: &[u8],
    error: &mut PatternReason,
) -> u32
    ensures told { TellsError pattern.now result error.old error.new }
    ensures utf8 { (result ≡ 3) ↔ ¬ (IsUtf8 pattern.now) }
{
    match pattern_error(alloc, pattern) {
        Ok(None) => {
            *error = PatternReason {
                reason: 0,
                place: 0,
            };
            0
        }
        Ok(Some(refusal)) => {
            *error = PatternReason {
                reason: reason_number(refusal.reason),
                place: refusal.place,
            };
            0
        }
        Err(fault) => u32::from(fault.rank()),
    }
}
