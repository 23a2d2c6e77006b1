//! Escaping a text for a pattern.
ghost use Rattle.std.specs.Prelude.{◌≡◌, ◌≢◌, ◌⊎◌, ◌↔◌, ◌<◌, IfErr, IfOk, length, string_bytes};
ghost use Rattle.std.specs.Str.{IsUtf8};
ghost use Rattle.rope_search_reports.specs.Escaping.{SpellsText, escaped_bytes};

use rope_search_io::Fault;
use rope_search_reports::escaping::{SyntaxError, escape as escape_text};
use simdutf8::compat::from_utf8;
use std::alloc::Global;

/// Escapes a text: returns a pattern that matches that text only. It is the text with a backslash
/// before each of `\`, `.`, `+`, `*`, `?`, `(`, `)`, `|`, `[`, `{`, `^` and `$`.
///
/// # Errors
///
/// - `Fault::Utf8` exactly if the bytes aren't UTF-8
/// - `Fault::Limit` exactly if they are, and the pattern would have more than 65,536 bytes
/// - `Fault::Memory`, which may replace the pattern and `Fault::Limit`
///
/// # Complexity
///
/// Time and memory proportional to the text. It has no buffer and searches nothing.
pub fn escape(alloc: Global, text: &[u8]) -> Result<String, Fault>
    ensures escaped { IfOk result (λ pattern. string_bytes pattern ≡ escaped_bytes text.now) }
    ensures spells { IfOk result (λ pattern. SpellsText (string_bytes pattern) text.now) }
    ensures utf8 { (result ≡ Err Fault.Utf8) ↔ ¬ (IsUtf8 text.now) }
    ensures limit { result ≢ Err Fault.Memory → (result ≡ Err Fault.Limit)
        ↔ (IsUtf8 text.now × (65536 < length (escaped_bytes text.now))) }
    ensures fault { IfErr result (λ fault.
        (fault ≡ Fault.Utf8) ⊎ (fault ≡ Fault.Limit) ⊎ (fault ≡ Fault.Memory)) }
{
    let Ok(text) = from_utf8(text) else {
        return Err(Fault::Utf8);
    };
    match escape_text(alloc, text) {
        Ok(pattern) => Ok(pattern),
        Err(SyntaxError::TooLong) => Err(Fault::Limit),
        Err(_) => Err(Fault::Memory),
    }
}
