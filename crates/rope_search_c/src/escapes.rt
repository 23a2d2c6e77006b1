//! Escaping a text for a pattern, for C.
ghost use Rattle.std.specs.Prelude.{◌≡◌, ◌↔◌, ◌≤◌, length};
ghost use Rattle.std.specs.Str.{IsUtf8};
ghost use Rattle.rope_search_c.specs.Escapes.{WritesEscaped};
ghost use Rattle.rope_search_c.specs.Reading.{with_front};

use rope_search::escape;
use std::alloc::Global;

/// Copies bytes to the start of a buffer that has room for them.
fn put_bytes(bytes: &[u8], out: &mut [u8])
    requires { length bytes.now ≤ length out.old }
    ensures { out.new ≡ with_front bytes.now out.old }
{
    out[..bytes.len()].copy_from_slice(bytes);
}

/// Escapes a text: writes the number of bytes of a pattern that matches that text only, copies the
/// pattern to the start of `out` if it fits, and returns 0. If it doesn't fit, `out` is unchanged.
/// Returns 3 if the bytes aren't UTF-8, 5 if the pattern would have more than 65,536 bytes, and 7
/// if out of memory; `out` and `pattern_len` are then unchanged. Needs no session.
#[unsafe(no_mangle)]
pub extern "C" fn rope_search_escape(
    alloc: Global,
    text: &[u8],
    out: &mut [u8],
    pattern_len: &mut usize,
) -> u32
    ensures written { WritesEscaped text.now result out.old out.new
        pattern_len.old pattern_len.new }
    ensures utf8 { (result ≡ 3) ↔ ¬ (IsUtf8 text.now) }
{
    match escape(alloc, text) {
        Ok(pattern) => {
            let bytes = pattern.as_bytes();
            *pattern_len = bytes.len();
            if bytes.len() <= out.len() {
                put_bytes(bytes, out);
            }
            0
        }
        Err(fault) => u32::from(fault.rank()),
    }
}
