//! The start of a line, found by one descent of the tree.
ghost use Rattle.std.specs.Prelude.{◌≡◌, ℕ, ◌+◌, ◌<◌, ◌≤◌, ◌==◌, ◌&&◌, drop, length, slice_index, IfSome};
ghost use Rattle.std.specs.Str.{chars, IsUtf8};
ghost use Rattle.str_indices.specs.Text.{break_ends, char_ends, end_place, ends_up_to};
ghost use Rattle.str_indices.specs.Text.{starts_with_lf};
ghost use Rattle.ropey.specs.Chunks.{is_break};
ghost use Rattle.ropey.specs.Slices.{slice_text};
ghost use Rattle.rope_search_reports.specs.Text.{line_count};
ghost use Rattle.rope_search_reports.specs.Position.{line_start, line_text};
ghost use Rattle.rope_search_reports.specs.Drafts.{StartsIn};

use memchr::memrchr2;
use ropey::{RopeSlice, breaks};
use str_indices::chars;

/// The start of a line: a chunk, its offsets in the text, and the line's offset in the chunk, which
/// may be the chunk's end.
#[derive(Clone, Copy)]
pub(crate) struct LineStart<'a> {
    /// The chunk.
    pub(crate) chunk: &'a str,
    /// The byte offset of the chunk in the text.
    pub(crate) byte_idx: usize,
    /// The character offset of the chunk in the text.
    pub(crate) char_idx: usize,
    /// The byte offset of the line in the chunk.
    pub(crate) at: usize,
}

/// Returns whether a byte is the CR of a CR LF.
fn is_cr_of_cr_lf(bytes: &[u8], at: usize) -> bool
    requires { at < length bytes.now }
    ensures { result
        ≡ ((slice_index bytes.now at == 13) && starts_with_lf (drop (at + 1) bytes.now)) }
{
    bytes[at] == b'\r' && bytes.get(at + 1) == Some(&b'\n')
}

/// Returns where the line that contains an offset starts: after the last break that ends at the
/// offset or before it. Searches backward from the offset, in time linear in the text between the
/// two.
pub(crate) fn line_start_before(text: &str, place: usize) -> usize
    requires { place ≤ length text.now }
    ensures { result ≡ end_place (break_ends is_break (chars text.now))
        (ends_up_to place (break_ends is_break (chars text.now))) (length text.now) }
{
    let bytes = text.as_bytes();
    let Some(last) = memrchr2(b'\n', b'\r', &bytes[..place]) else {
        return 0;
    };
    if is_cr_of_cr_lf(bytes, last) {
        // The offset is between the two breaks, so it is in the line between them.
        return breaks::to_byte_idx(text, breaks::from_byte_idx(text, place));
    }
    last + 1
}

impl<'a> LineStart<'a> {
    /// Returns the start of a line, or the text's end for the index after the last line.
    /// `O(log n)`.
    pub(crate) fn of(text: &RopeSlice<'a>, line_idx: usize) -> LineStart<'a>
        requires { line_idx ≤ line_count (slice_text text.now) }
        ensures { StartsIn (slice_text text.now) line_idx result }
    {
        // For the proof: the text's facts.
        let _ = text.len_bytes();
        let (chunk, byte_idx, char_idx, first) = text.chunk_at_line_break(line_idx);
        LineStart {
            chunk,
            byte_idx,
            char_idx,
            at: breaks::to_byte_idx(chunk, line_idx - first),
        }
    }

    /// Returns the number of characters before the line. If each character of the text takes one
    /// byte, it counts none, otherwise those of the chunk up to the line.
    pub(crate) fn chars_before(&self, text: &RopeSlice<'a>, line_idx: usize) -> usize
        requires starts { StartsIn (slice_text text.now) line_idx self.now }
        requires below { line_idx < line_count (slice_text text.now) }
        ensures { result ≡ ends_up_to (line_start (slice_text text.now) line_idx)
            (char_ends (slice_text text.now)) }
    {
        if text.len_chars() == text.len_bytes() {
            return self.byte_idx + self.at;
        }
        self.char_idx + chars::from_byte_idx(self.chunk, self.at)
    }

    /// Returns the line's text without its break if the line ends in the same chunk, otherwise
    /// `None`. Needs no look-up.
    pub(crate) fn line(&self, text: &RopeSlice<'a>) -> Option<&'a str>
        requires { (line : ℕ) × StartsIn (slice_text text.now) line self.now }
        ensures own { (line : ℕ) → StartsIn (slice_text text.now) line self.now
            → line < line_count (slice_text text.now)
            → IfSome result (λ own. chars own.now ≡ line_text (slice_text text.now) line) }
        ensures utf8 { IfSome result (λ own. IsUtf8 own.now) }
    {
        let rest = &self.chunk[self.at..];
        if let Some(found) = breaks::first_break(rest) {
            return Some(&rest[..found.start]);
        }
        if self.byte_idx + self.chunk.len() < text.len_bytes() {
            return None;
        }
        // It is the last chunk.
        Some(rest)
    }
}
