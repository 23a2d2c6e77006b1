//! Escaping a text.

ghost use Rattle.std.specs.Prelude.{◌≡◌, ◌≢◌, ◌⊎◌, ◌↔◌, ◌<◌, length, IfErr, IfOk, string_bytes};
ghost use Rattle.rx_escape.specs.Escaped.{SpellsText, escaped_bytes, is_meta};

use rx_grammar::SyntaxError;
use std::alloc::{AllocError, Global};

/// The most bytes of a pattern.
const MAX_BYTES: usize = 65_536;

/// Returns whether the character has a meaning of its own in a pattern, outside a class: whether it
/// is one of `\`, `.`, `+`, `*`, `?`, `(`, `)`, `|`, `[`, `{`, `^` and `$`.
pub fn is_meta_character(c: char) -> bool
    ensures { result ≡ is_meta c }
{
    matches!(
        c,
        '\\' | '.' | '+' | '*' | '?' | '(' | ')' | '|' | '[' | '{' | '^' | '$'
    )
}

/// Returns the text with a backslash before each meta character.
fn with_backslashes(alloc: Global, text: &str) -> Result<String, AllocError>
    ensures { IfOk result (λ pattern. string_bytes pattern ≡ escaped_bytes text.now) }
{
    let mut pattern = String::with_capacity(alloc, text.len())?;
    for c in text.chars() {
        if is_meta_character(c) {
            pattern.push('\\')?;
        }
        pattern.push(c)?;
    }
    Ok(pattern)
}

/// Escapes a text: returns a pattern that matches that text only. It is the text with a backslash
/// before each meta character.
///
/// # Errors
///
/// - `TooLong` exactly if the pattern would have more than 65,536 bytes
/// - `Memory`, which may replace any result
///
/// # Complexity
///
/// Time and memory proportional to the text, of which more than 65,536 bytes aren't read.
///
/// # Examples
///
/// ```rust
/// assert!(rt; escape(rt.alloc(), "f(x)^2")?.as_str() == r"f\(x\)\^2");
/// ```
pub fn escape(alloc: Global, text: &str) -> Result<String, SyntaxError>
    ensures escaped { IfOk result (λ pattern. string_bytes pattern ≡ escaped_bytes text.now) }
    ensures spells { IfOk result (λ pattern. SpellsText (string_bytes pattern) text.now) }
    ensures too_long { result ≢ Err SyntaxError.Memory
        → (result ≡ Err SyntaxError.TooLong) ↔ (65536 < length (escaped_bytes text.now)) }
    ensures error { IfErr result (λ e. (e ≡ SyntaxError.TooLong) ⊎ (e ≡ SyntaxError.Memory)) }
{
    if text.len() > MAX_BYTES {
        return Err(SyntaxError::TooLong);
    }
    let pattern = with_backslashes(alloc, text)?;
    if pattern.len() > MAX_BYTES {
        return Err(SyntaxError::TooLong);
    }
    Ok(pattern)
}
