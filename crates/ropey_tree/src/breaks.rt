//! The line breaks of a rope: LF, CR and CR LF, as counted by `str_indices::lines_crlf`. Ropes call
//! that module only here.

ghost use Rattle.std.specs.Prelude.{◌≡◌, if◌then◌else◌, length};
ghost use Rattle.std.specs.Str.{chars};
ghost use Rattle.str_indices.specs.Text.{breaks};
ghost use Rattle.ropey_tree.specs.Breaks.{is_break};

use crate::leaf::{is_cr_last, is_lf_first};
pub use str_indices::lines_crlf::{count_breaks, first_break, from_byte_idx, to_byte_idx};

/// Returns whether a text of one byte is a line break.
pub(crate) fn is_break(text: &str) -> bool
    requires { length text.now ≡ 1 }
    ensures { breaks is_break (chars text.now) ≡ (if result then 1 else 0) }
{
    is_lf_first(text) || is_cr_last(text)
}
