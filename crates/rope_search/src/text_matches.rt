//! The first matches of a whole text that start at a position or after it.
ghost use Rattle.std.specs.Prelude.{◌≡◌, ◌↔◌, ◌⊎◌, All, map, Err, IfOk, IfErr, OnErr};
ghost use Rattle.ropey.specs.Chunks.{text_of};
ghost use Rattle.rope_search_reports.specs.Position.{IsNowhere};
ghost use Rattle.rope_search_reports.specs.Replacement.{IsSpanIn};
ghost use Rattle.rope_search_reports.specs.Text.{bytes_of};
ghost use Rattle.rope_search_reports.specs.Ticks.{SearchesOneWhole};
ghost use Rattle.rope_search.specs.TextMatches.{CopiesFirst, CopiesMatchesFrom, match_at, starting_from};

use crate::search::Search;
use rope_search_io::Fault;
use rope_search_reports::{Lines, Position, find_spans, place_of, position_of};
use ropey::Rope;

/// A match in a whole text; it may span lines.
#[repr(C)]
#[derive(Clone, Copy, Debug, PartialEq, Eq)]
pub struct TextMatch {
    /// Where it starts.
    pub start: Position,
    /// Where it ends.
    pub end: Position,
}

impl TextMatch {
    /// Returns the match of a span of a text.
    fn at(text: &Rope, span: (usize, usize)) -> TextMatch
        requires { IsSpanIn (bytes_of (text_of text.now)) span }
        ensures { result ≡ match_at (text_of text.now) span }
    {
        TextMatch {
            start: position_of(text, span.0),
            end: position_of(text, span.1),
        }
    }
}

/// Writes the matches of those spans that start at an offset or after it to the start of a buffer,
/// as many as fit, and returns the number of matches that were written.
fn put_matches(text: &Rope, spans: &[(usize, usize)], place: usize, out: &mut [TextMatch]) -> usize
    requires { All (IsSpanIn (bytes_of (text_of text.now))) spans.now }
    ensures { CopiesFirst (map (match_at (text_of text.now)) (starting_from place spans.now))
        result out.old out.new }
{
    let mut count = 0;
    for span in spans {
        if count == out.len() {
            return count;
        }
        if span.0 >= place {
            out[count] = TextMatch::at(text, *span);
            count += 1;
        }
    }
    count
}

impl Search {
    /// Writes the first matches in a whole text that start at a position or after it to the start
    /// of a buffer, as many as fit, and returns the number of matches that were written. Errors,
    /// which leave the buffer unchanged: `Fault::Range` if the position is nowhere in the text;
    /// `Fault::Memory`. The report is unchanged.
    pub fn next_all(
        &mut self,
        tick: &mut Lines,
        text: &Rope,
        from: Position,
        out: &mut [TextMatch],
    ) -> Result<usize, Fault>
        ensures found { IfOk result (λ count. CopiesMatchesFrom (text_of text.now) self.old.finder
            from count out.old out.new) }
        ensures range { (result ≡ Err Fault.Range)
            ↔ IsNowhere (text_of text.now) (from.line, from.column) }
        ensures fault { IfErr result (λ fault. (fault ≡ Fault.Range) ⊎ (fault ≡ Fault.Memory)) }
        ensures err { OnErr result (out.new ≡ out.old) }
        ensures finder { self.new.finder ≡ self.old.finder }
        ensures rows { self.new.rows.items ≡ self.old.rows.items }
        ensures searches { SearchesOneWhole tick.old tick.new }
    {
        let Some(place) = place_of(text, from) else {
            return Err(Fault::Range);
        };
        let spans = find_spans(tick, &mut self.finder, text)?;
        let count = put_matches(text, &spans, place.byte_idx, out);
        Ok(count)
    }
}
