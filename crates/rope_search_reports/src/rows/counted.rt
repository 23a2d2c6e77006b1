//! A regex that counts its searches as they begin, and searches forward only. No other module of
//! the crate has a regex, an input or a cache, so no search is made that isn't counted. What else
//! the crate needs of `regex_cursor` is reexported here.
ghost use Rattle.std.specs.Prelude.{◌≡◌, ℕ, Option, ◌+◌, ◌-◌, ◌*◌, ◌^◌, min, ◌<◌, ◌≤◌, List, length, Some, None, true, false, IfOk, IfErr, IfSome, IfNone, OnErr};
ghost use Rattle.str_indices.specs.Text.{byte_len};
ghost use Rattle.ropey.specs.Slices.{slice_bytes, slice_text};
ghost use Rattle.regex_cursor.specs.Patterns.{AsksFrom, HasNoMatchBetween, TreeFinds};
ghost use Rattle.regex_cursor.specs.PatternLaws.{SaysOfText};
ghost use Rattle.regex_cursor.specs.Regexes.{IsCacheOf, IsRegexOf};
ghost use Rattle.regex_cursor.specs.NextMatches.{TreeFindsNext};
ghost use Rattle.rope_search_reports.specs.Text.{IsText};
ghost use Rattle.rope_search_reports.specs.Finders.{FinderTells, group_told, start_behind};

use super::Lines;
use counters::Counter;
use regex_cursor::engines::meta::{Cache, LinearMatches, Regex};
pub use regex_cursor::{BuildError, Cursor, RopeyCursor};
use regex_cursor::{Input, NonMaxUsize, Span};
use rope_search_io::Fault;
use ropey::RopeSlice;
use std::alloc::Global;
use std::marker::Model;
use std::snapshot::Snapshot;

/// A slot of a search: an offset, or `None`.
pub type Slot = Option<NonMaxUsize>;

/// A regex that is ready to search, with its cache. It searches in three ways: a line, a whole
/// text, and for the first match in a whole text. Each is counted as it begins, and reads its
/// haystack once.
#[derive(Drop)]
pub struct CountedRegex {
    regex: Regex,
    cache: Cache,
}

impl Model for CountedRegex {
    ghost use Rattle.std.specs.Prelude.{ℕ, List};
    ghost use Rattle.regex_cursor.specs.Regexes.{RegexView, IsCacheOf, IsRegexOf};

    ghost Value = { RegexView };

    ghost view = { λ r. r.regex };

    ghost invariant = { λ r. ((text : List ℕ) × IsRegexOf text r.regex) ×
        IsCacheOf r.regex r.cache };
}

/// A search that has begun, and continues after the last match. Contracts see its haystack, where
/// the last match ended, if there was one, whether it has ended, and the regex that began it.
#[derive(Drop)]
pub struct Pass<C: Cursor> {
    matches: LinearMatches<C>,
    // For contracts only.
    by: Snapshot<Regex>,
}

impl<C: Cursor> Model for Pass<C> {
    ghost use Rattle.std.specs.Prelude.{◌≡◌, ◌≤◌, false, length};
    ghost use Rattle.regex_cursor.specs.Patterns.{AsksFrom};
    ghost use Rattle.regex_cursor.specs.Linear.{IsListedFor};
    ghost use Rattle.rope_search_reports.specs.Finders.{PassState, start_behind};

    ghost Value = { PassState };

    ghost view = { λ p. record {
      content = p.matches.input.cursor.content;
      last = p.matches.last_end;
      is_over = p.matches.is_over;
      by = p.by.value;
    } };

    ghost invariant = { λ p. IsListedFor p.by.value.engine p.matches ×
        (p.matches.is_over ≡ false →
        AsksFrom p.matches.input.cursor.content (start_behind p.matches.last_end) p.matches.input ×
        (start_behind p.matches.last_end ≤ length p.matches.input.cursor.content)) };
}

/// Returns an input over a haystack of this length, to be searched from an offset on. Look-around
/// assertions see all of the haystack, and nothing outside of it.
fn input_over<C: Cursor>(cursor: C, len: usize, from: usize) -> Input<C>
    requires len { len ≡ length (C.state cursor).content }
    requires within { from ≤ len }
    ensures { AsksFrom (C.state cursor).content from result }
{
    let mut input = Input::new(cursor);
    let _ = input.slice_span(Span { start: 0, end: len });
    input.set_start(from);
    input
}

/// Returns a group's span, from the offsets in its two slots.
pub fn group_in(slots: &[Slot], group: usize) -> Option<(usize, usize)>
    requires { 2 * group + 1 < length slots.now }
    ensures { result ≡ group_told slots.now group }
{
    match (slots[2 * group], slots[2 * group + 1]) {
        (Some(start), Some(end)) => Some((start.get(), end.get())),
        _ => None,
    }
}

/// Returns the span of the first match in an input's haystack from an offset on. Writes the offsets
/// of its groups into the slots, of which there are at least two. Counts one search of a whole text
/// as it begins.
fn find<C: Cursor>(
    tick: &mut Lines,
    regex: &Regex,
    cache: &mut Cache,
    input: &mut Input<C>,
    slots: &mut [Slot],
) -> Result<Option<(usize, usize)>, Fault>
    requires made { IsCacheOf regex.now cache.old }
    requires slots { 2 ≤ length slots.old }
    ensures found { (text content : List ℕ) (from : ℕ) → (built : IsRegexOf text regex.now)
        → AsksFrom content from input.old → IfOk result (λ span.
        FinderTells (TreeFinds built.tree content from) span slots.new) }
    ensures asks { (content : List ℕ) (from : ℕ) → AsksFrom content from input.old
        → AsksFrom content from input.new }
    ensures made { IsCacheOf regex.now cache.new }
    ensures fault { IfErr result (λ fault. fault ≡ Fault.Memory) }
    ensures count { tick.new.count ≡ tick.old.count }
    ensures wholes { tick.new.wholes ≡ min (tick.old.wholes + 1) (2 ^ 64 - 1) }
    ensures grows { tick.old.wholes ≤ tick.new.wholes }
    ensures looked { tick.new.looked ≡ tick.old.looked }
{
    tick.add_whole();
    match regex.search_slots_with(cache, input, slots) {
        Ok(_) => Ok(group_in(slots, 0)),
        Err(_) => Err(Fault::Memory),
    }
}

impl CountedRegex {
    /// Builds the regex of a pattern with default settings. Errors: as for `Regex::new`.
    pub fn new(alloc: Global, pattern: &str) -> Result<CountedRegex, BuildError>
        ensures built { IfOk result (λ re. IsRegexOf pattern.now re) }
        ensures refused { IfErr result (SaysOfText pattern.now) }
    {
        let regex = Regex::new(alloc, pattern)?;
        match regex.create_cache() {
            Ok(cache) => Ok(CountedRegex { regex, cache }),
            Err(_) => Err(BuildError::Memory),
        }
    }

    /// Returns an offset such that nothing matches from `from` up to it, found by a scan for the
    /// literals that each match begins with, not by a search. Returns `None` if no such literals
    /// are known. Time is linear in the text between the two.
    pub fn no_match_before<C: Cursor + Drop>(
        &self,
        cursor: C,
        len: usize,
        from: usize,
    ) -> Option<usize>
        requires len { len ≡ length (C.state cursor).content }
        requires within { from ≤ len }
        ensures no_match { (text : List ℕ) → (built : IsRegexOf text self.now)
            → IfSome result (λ place.
            HasNoMatchBetween built.tree (C.state cursor).content from place) }
        ensures within { IfSome result (λ place. place ≤ len) }
    {
        self.regex
            .no_match_before(&mut input_over(cursor, len, from))
    }

    /// Returns the span of the first match in a whole text from an offset on. Counts one search of
    /// a whole text as it begins. Errors: `Fault::Memory`.
    pub fn first_in(
        &mut self,
        tick: &mut Lines,
        text: RopeSlice<'_>,
        from: usize,
    ) -> Result<Option<(usize, usize)>, Fault>
        requires { from ≤ byte_len (slice_text text) }
        ensures found { (text' : List ℕ) → (built : IsRegexOf text' self.old)
            → IfOk result (λ span. (slots : List (Option ℕ)) ×
            FinderTells (TreeFinds built.tree (slice_bytes text.entry) from) span slots) }
        ensures same { self.new ≡ self.old }
        ensures fault { IfErr result (λ fault. fault ≡ Fault.Memory) }
        ensures count { tick.new.count ≡ tick.old.count }
        ensures wholes { tick.new.wholes ≡ min (tick.old.wholes + 1) (2 ^ 64 - 1) }
        ensures grows { tick.old.wholes ≤ tick.new.wholes }
        ensures looked { tick.new.looked ≡ tick.old.looked }
    {
        let len = text.len_bytes();
        let mut input = input_over(RopeyCursor::at(text, from), len, from);
        find(
            tick,
            &self.regex,
            &mut self.cache,
            &mut input,
            &mut [None; 2],
        )
    }

    /// Returns the search of an input, before its first match.
    fn begun<C: Cursor>(&self, input: Input<C>) -> Pass<C>
        requires { AsksFrom input.cursor.content 0 input }
        ensures { result ≡ record {
          content = input.cursor.content;
          last = None;
          is_over = false;
          by = self.now;
        } }
    {
        Pass {
            matches: LinearMatches::new(input),
            by: Snapshot::of(&self.regex),
        }
    }

    /// Begins the search of a line of `len` bytes, which the cursor shows. Counts one row.
    pub fn in_line<C: Cursor>(&self, tick: &mut Lines, cursor: C, len: usize) -> Pass<C>
        requires { len ≡ length (C.state cursor).content }
        ensures begins { result ≡ record {
          content = (C.state cursor).content;
          last = None;
          is_over = false;
          by = self.now;
        } }
        ensures count { tick.new.count ≡ min (tick.old.count + 1) (2 ^ 64 - 1) }
        ensures grows { tick.old.count ≤ tick.new.count }
        ensures wholes { tick.new.wholes ≡ tick.old.wholes }
        ensures looked { tick.new.looked ≡ tick.old.looked }
    {
        tick.add_row();
        self.begun(input_over(cursor, len, 0))
    }

    /// Begins the search of a whole text. Counts one search of a whole text.
    pub fn in_text<'t>(&self, tick: &mut Lines, text: RopeSlice<'t>) -> Pass<RopeyCursor<'t>>
        ensures begins { result ≡ record {
          content = slice_bytes text.entry;
          last = None;
          is_over = false;
          by = self.now;
        } }
        ensures scalars { IsText (slice_text text.entry) }
        ensures count { tick.new.count ≡ tick.old.count }
        ensures wholes { tick.new.wholes ≡ min (tick.old.wholes + 1) (2 ^ 64 - 1) }
        ensures grows { tick.old.wholes ≤ tick.new.wholes }
        ensures looked { tick.new.looked ≡ tick.old.looked }
    {
        tick.add_whole();
        let len = text.len_bytes();
        self.begun(input_over(RopeyCursor::new(text), len, 0))
    }

    /// Returns the span of the next match of a search: the first, or the one after the last, except
    /// an empty match at the end of the last. Writes the offsets of its groups into the slots, of
    /// which there are at least two. After the last match and after an error it returns `None`. All
    /// calls together take time linear in the haystack, times the pattern's weight. Requires the
    /// regex that began the search. Errors: `Fault::Memory`.
    pub fn next<C: Cursor>(
        &mut self,
        pass: &mut Pass<C>,
        slots: &mut [Slot],
    ) -> Result<Option<(usize, usize)>, Fault>
        requires slots { 2 ≤ length slots.old }
        requires by { pass.old.by ≡ self.old }
        ensures found { pass.old.is_over ≡ false
            → (text : List ℕ) → (built : IsRegexOf text self.old) → IfOk result (λ span.
            FinderTells (TreeFindsNext built.tree pass.old.content pass.old.last) span slots.new) }
        ensures goes_on { IfOk result (λ span. IfSome span (λ span. pass.new ≡ record {
          content = pass.old.content;
          last = Some span.1;
          is_over = false;
          by = pass.old.by;
        })) }
        ensures ends { IfOk result (λ span. IfNone span (pass.new.is_over ≡ true)) }
        ensures stops { OnErr result (pass.new.is_over ≡ true) }
        ensures over { pass.old.is_over ≡ true → IfOk result (λ span. span ≡ None) }
        ensures same { self.new ≡ self.old }
        ensures fault { IfErr result (λ fault. fault ≡ Fault.Memory) }
    {
        let matches = &mut pass.matches;
        let mut read = Counter::new();
        match matches.next_slots(&self.regex, &mut self.cache, slots, &mut read) {
            Ok(Some(_)) => Ok(group_in(slots, 0)),
            Ok(None) => Ok(None),
            Err(_) => Err(Fault::Memory),
        }
    }
}
