//! Where and why a pattern is refused.

ghost use Rattle.std.specs.Prelude.{◌≡◌, ◌↔◌, None, IfOk, IfSome};
ghost use Rattle.std.specs.Str.{IsCharBoundary};
ghost use Rattle.rx_grammar.specs.Refusals.{SpellsSome, IsRefusedAs};

use crate::error::SyntaxError;
use crate::fronts::{Front, Stop};
use crate::patterns::{MAX_BYTES, parse};
use crate::refusals::{Mistake, Reason, Refusal};
use crate::syntax::Config;
use std::alloc::{AllocError, Global};

/// Returns the offset of the first character that nests groups and repetitions too deeply, or the
/// text's length if there is none.
fn deep_place(alloc: Global, text: &str, config: &Config) -> Result<usize, AllocError>
    ensures { IfOk result (λ place. IsCharBoundary text.now place) }
{
    let mut front = Front::new(alloc, config);
    for (place, c) in text.char_indices() {
        if front.take(c) == Err(Stop::Memory) {
            return Err(AllocError);
        }
        if front.depth() > config.get_nest_limit() as usize {
            return Ok(place);
        }
    }
    Ok(text.len())
}

/// Returns the offset of the first character that no pattern can have there, or the text's length
/// if there is none, and what is wrong there.
fn first_mistake(alloc: Global, text: &str, config: &Config) -> Result<(usize, Mistake), AllocError>
    ensures { IfOk result (λ found. IsCharBoundary text.now found.0) }
{
    let mut front = Front::new(alloc, config);
    for (place, c) in text.char_indices() {
        match front.take(c) {
            Ok(()) => {}
            Err(Stop::Memory) => return Err(AllocError),
            Err(Stop::Mistake(mistake)) => return Ok((place, mistake)),
        }
    }
    Ok((text.len(), front.wanted()))
}

/// Explains where and why `parse` refuses a text. Returns `None` exactly if the text is a pattern.
///
/// `reason` is the error of `parse`, with more detail for a text outside the grammar. `place` is a
/// byte offset:
///
/// - for `Nesting`, of the first character that no pattern of these settings, of any length, can
///   have there
/// - outside the grammar, of the first character that no pattern of any nest limit and any length
///   can have there
/// - in both cases, the text's length if there is no such character, because the text ends too
///   early
/// - for `TooLong`, of the first character not wholly in the first 65,536 bytes
///
/// It is proved that `place` is a character boundary, and tested that it is the first such one.
///
/// # Errors
///
/// Out of memory only, which may replace any result.
///
/// # Complexity
///
/// Time and memory proportional to the text, as for `parse`, plus at most the square of the number
/// of names.
pub fn explain(alloc: Global, text: &str, config: &Config) -> Result<Option<Refusal>, AllocError>
    ensures none { IfOk result (λ found. (found ≡ None) ↔ SpellsSome text.now config.now) }
    ensures reason { IfOk result (λ found. IfSome found
        (λ refusal. IsRefusedAs refusal.reason text.now config.now)) }
    ensures place { IfOk result (λ found. IfSome found
        (λ refusal. IsCharBoundary text.now refusal.place)) }
{
    let (place, reason) = match parse(alloc, text, config) {
        Ok(_) => return Ok(None),
        Err(SyntaxError::Memory) => return Err(AllocError),
        Err(SyntaxError::TooLong) => (text.floor_char_boundary(MAX_BYTES), Reason::TooLong),
        Err(SyntaxError::Nesting) => (deep_place(alloc, text, config)?, Reason::Nesting),
        Err(SyntaxError::Outside) => {
            let (place, mistake) = first_mistake(alloc, text, config)?;
            (place, Reason::Outside(mistake))
        }
    };
    Ok(Some(Refusal { place, reason }))
}
