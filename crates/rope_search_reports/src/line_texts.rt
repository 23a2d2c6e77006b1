//! The text of a line, as a slice of its rope.
ghost use Rattle.std.specs.Prelude.{◌≡◌, ◌<◌};
ghost use Rattle.ropey.specs.Chunks.{text_of};
ghost use Rattle.ropey.specs.Slices.{slice_text};
ghost use Rattle.rope_search_reports.specs.Text.{line_count};
ghost use Rattle.rope_search_reports.specs.Position as position;

use crate::walk::without_break;
use ropey::{Rope, RopeSlice};

/// Returns the text of a line without its break.
///
/// # Requires
///
/// `line_idx < len_lines()`.
///
/// # Complexity
///
/// `O(log n)`.
pub fn line_text(text: &Rope, line_idx: usize) -> RopeSlice<'_>
    requires { line_idx < line_count (text_of text.now) }
    ensures { slice_text result ≡ position.line_text (text_of text.now) line_idx }
{
    // For the proof: the text's facts.
    let _ = text.len_bytes();
    without_break(text.line(line_idx))
}
