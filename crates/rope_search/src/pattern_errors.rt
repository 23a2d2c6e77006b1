//! Where and why bytes aren't a pattern.
ghost use Rattle.std.specs.Prelude.{◌≡◌, ◌↔◌, ◌⊎◌, ℕ, IsSome, IfSome, IfOk, IfErr, Err};
ghost use Rattle.std.specs.Str.{IsCharBoundary, IsUtf8};
ghost use Rattle.rope_search_reports.specs.Explaining.{IsRefusedAs, default_settings};
ghost use Rattle.rope_search.specs.Order.{SetPattern};
ghost use Rattle.rope_search.specs.Session.{State};
ghost use Rattle.rope_search.specs.Step.{Refuses};

use rope_search_io::Fault;
use rope_search_reports::PATTERN_LEN;
use rope_search_reports::explaining::{Config, Refusal, explain};
use simdutf8::compat::from_utf8;
use std::alloc::Global;

/// Returns where and why bytes are refused as a pattern with `Fault::Pattern`. Returns `None` if
/// they are a pattern, or are refused with `Fault::Limit` because they are more than 65,536 bytes,
/// or a pattern that is too heavy.
///
/// `place` is the byte offset of the first character that no valid pattern could contain there, or
/// the text's length if it ends too early. That a character starts there, or the text ends, is
/// proved; that it is the first such is tested. `reason` is never `Reason::TooLong`.
///
/// # Errors
///
/// `Fault::Utf8` if they aren't UTF-8; `Fault::Memory`, which may replace any result.
///
/// # Complexity
///
/// Time and memory proportional to the text, and to the square of the number of its group names.
pub fn pattern_error(alloc: Global, pattern: &[u8]) -> Result<Option<Refusal>, Fault>
    ensures refused { IfOk result (λ found. (limit : ℕ) (session : State)
        → IsSome found ↔ Refuses limit session (SetPattern pattern.now) Fault.Pattern) }
    ensures reason { IfOk result (λ found. IfSome found
        (λ refusal. IsRefusedAs refusal.reason pattern.now default_settings)) }
    ensures place { IfOk result (λ found. IfSome found
        (λ refusal. IsCharBoundary pattern.now refusal.place)) }
    ensures utf8 { (result ≡ Err Fault.Utf8) ↔ ¬ (IsUtf8 pattern.now) }
    ensures fault { IfErr result (λ fault. (fault ≡ Fault.Utf8) ⊎ (fault ≡ Fault.Memory)) }
{
    let Ok(text) = from_utf8(pattern) else {
        return Err(Fault::Utf8);
    };
    if text.len() > PATTERN_LEN {
        return Ok(None);
    }
    match explain(alloc, text, &Config::new()) {
        Ok(found) => Ok(found),
        Err(_) => Err(Fault::Memory),
    }
}
