//! Lists of all matches, however far single searches for them would read.

ghost use Rattle.std.specs.Prelude.{◌≡◌, ◌+◌, ◌*◌, ◌≤◌, ◌++◌, ◌∷◌, [], All, IfErr, IfOk, OnOk, Some, length, map};
ghost use Rattle.std.specs.Option.{ForSome};
ghost use Rattle.rx_util.specs.declared.search.MatchError.{MatchError};
ghost use Rattle.rx_util.specs.declared.search.MatchKind.{MatchKind};
ghost use Rattle.rx_util.specs.Groups.{slot_len};
ghost use Rattle.rx_util.specs.declared.search.Span.{Span};
ghost use Rattle.rx_chunk.specs.Engines.{match_of, whole_span};
ghost use Rattle.rx_chunk.specs.Iterating.{captured_of};
ghost use Rattle.rx_lists.specs.Lists.{places_in};
ghost use Rattle.regex_cursor.specs.Listing.{IsWhole, TellsAll, captures_listed, leftmost_first, match_listed};
ghost use Rattle.regex_cursor.specs.Linear.{all_places, linear_from};
ghost use Rattle.regex_cursor.specs.Regexes.{IsCacheOf, search_by};

use super::cache::Cache;
use super::linear::LinearMatches;
use super::regex::Regex;
use counters::Counter;
use rx_chunk::pikevm::match_in;
use rx_input::{Cursor, Input};
use rx_lists::{ListedMatch, list_matches};
use rx_util::{Captures, GroupInfo, Match, MatchError, MatchKind, NonMaxUsize, PatternID};
use std::alloc::{AllocError, Global};

/// Appends a listed match.
fn push_match(found: &mut Vec<Match>, listed: &ListedMatch) -> Result<(), AllocError>
    requires whole { IsWhole listed.now }
    ensures { OnOk result (map (λ m. Some m) found.new.items
        ≡ map (λ m. Some m) found.old.items ++ match_listed listed.now ∷ []) }
{
    if let Some(one) = match_in(listed.pattern(), listed.slots()) {
        found.push(one)?;
    }
    Ok(())
}

/// Returns the listed matches.
fn matches_of(alloc: Global, listed: &[ListedMatch]) -> Result<Vec<Match>, AllocError>
    requires whole { All IsWhole listed.now }
    ensures { IfOk result (λ found. map (λ m. Some m) found.items
        ≡ map match_listed listed.now) }
{
    let mut found = Vec::new(alloc);
    for one in listed {
        push_match(&mut found, one)?;
    }
    Ok(found)
}

/// Returns a listed match as captures.
fn captures_of(
    alloc: Global,
    groups: &GroupInfo,
    listed: &ListedMatch,
) -> Result<Captures, MatchError>
    requires room { length listed.now.slots ≡ slot_len groups.now }
    ensures noted { IfOk result (λ caps. caps ≡ captures_listed groups.now listed.now) }
    ensures refused { IfErr result (λ error. error ≡ MatchError.Memory) }
{
    let mut caps = Captures::all(alloc, groups)?;
    caps.slots_mut().copy_from_slice(listed.slots());
    caps.set_pattern(Some(listed.pattern()));
    Ok(caps)
}

/// Appends a listed match as captures.
fn push_captures(
    alloc: Global,
    found: &mut Vec<Captures>,
    groups: &GroupInfo,
    listed: &ListedMatch,
) -> Result<(), MatchError>
    requires room { length listed.now.slots ≡ slot_len groups.now }
    ensures noted { OnOk result (found.new.items
        ≡ found.old.items ++ captures_listed groups.now listed.now ∷ []) }
    ensures refused { IfErr result (λ error. error ≡ MatchError.Memory) }
{
    let caps = captures_of(alloc, groups, listed)?;
    found.push(caps).map_err(|_| MatchError::Memory)
}

/// Returns the captures of each listed match.
fn all_captures_of(
    alloc: Global,
    groups: &GroupInfo,
    listed: &[ListedMatch],
) -> Result<Vec<Captures>, MatchError>
    requires room { All (λ l. length l.slots ≡ slot_len groups.now) listed.now }
    ensures noted { IfOk result (λ found. found.items
        ≡ map (captures_listed groups.now) listed.now) }
    ensures refused { IfErr result (λ error. error ≡ MatchError.Memory) }
{
    let mut found = Vec::new(alloc);
    for one in listed {
        push_captures(alloc, &mut found, groups, one)?;
    }
    Ok(found)
}

/// Returns `count` empty slots.
fn empty_slots(alloc: Global, count: usize) -> Result<Vec<Option<NonMaxUsize>>, AllocError>
    ensures { IfOk result (λ slots. length slots.items ≡ count) }
{
    let mut slots = Vec::new(alloc);
    slots.resize(count, None)?;
    Ok(slots)
}

/// Appends the match whose offsets are in the slots.
fn push_place(
    found: &mut Vec<Match>,
    pattern: PatternID,
    slots: &[Option<NonMaxUsize>],
) -> Result<(), AllocError>
    requires ordered { ForSome (whole_span pattern slots.now) (λ span. span.start ≤ span.end) }
    ensures { OnOk result ((span : Span) → whole_span pattern slots.now ≡ Some span
        → found.new.items
        ≡ found.old.items ++ record { pattern = pattern; span = span } ∷ []) }
{
    if let Some(one) = match_in(pattern, slots) {
        found.push(one)?;
    }
    Ok(())
}

/// Collects all matches into a list, from the first on.
fn collect<C: Cursor>(
    alloc: Global,
    re: &Regex,
    cache: &mut Cache,
    left: &mut LinearMatches<C>,
    slots: &mut [Option<NonMaxUsize>],
    read: &mut Counter,
) -> Result<Vec<Match>, MatchError>
    requires first { re.now.engine.match_kind ≡ MatchKind.LeftmostFirst }
    requires made { IsCacheOf re.now cache.old }
    requires slots { 2 * length re.now.engine.groups ≤ length slots.old }
    requires fresh { left.old ≡ linear_from left.old.input }
    ensures all { IfOk result (λ found. TellsAll re.now.engine
        (search_by re.now.engine left.old.input) match_of found.items) }
    ensures refused { IfErr result (λ error. error ≡ MatchError.Memory) }
    ensures counted { read.new ≤ read.old + 10 * all_places left.old + 10 }
{
    let _groups = re.group_info(); // for the proof: what the regex is
    let mut found = Vec::new(alloc);
    loop {
        match left.next_slots(re, cache, slots, read)? {
            Some(pattern) => push_place(&mut found, pattern, slots)?,
            None => return Ok(found),
        }
    }
}

impl Regex {
    /// Lists all matches in an input, as `find_iter` does, also if its `earliest` is set: of those
    /// that start first the one that the pattern prefers, and so on from its end. It does the same
    /// under `MatchKind::All`, for which the iterators return others.
    ///
    /// # Errors
    ///
    /// `Memory` only.
    ///
    /// # Complexity
    ///
    /// However far single searches would read, it reads at most ten times the number of offsets
    /// inside span, slice and haystack, plus ten; `read` counts them. It uses single finds, as
    /// `LinearMatches` does, with a cache and memory for the matches; if finds read too much, also
    /// `rx_lists::list_matches`.
    pub fn all_matches<C: Cursor + Drop>(
        &self,
        alloc: Global,
        input: Input<C>,
        read: &mut Counter,
    ) -> Result<Vec<Match>, MatchError>
        ensures all { IfOk result (λ found. TellsAll (leftmost_first self.now.engine)
            (search_by self.now.engine input) match_of found.items) }
        ensures iterated { self.now.engine.match_kind ≡ MatchKind.LeftmostFirst
            → IfOk result (λ found. TellsAll self.now.engine
            (search_by self.now.engine input) match_of found.items) }
        ensures refused { IfErr result (λ error. error ≡ MatchError.Memory) }
        ensures counted { read.new
            ≤ read.old + 10 * places_in (search_by self.now.engine input) + 10 }
    {
        match self.vm().match_kind() {
            MatchKind::LeftmostFirst => self.matches_in_turn(alloc, input, read),
            MatchKind::All => self.matches_listed(alloc, input, read),
        }
    }

    /// Does the same match by match, for leftmost matches.
    fn matches_in_turn<C: Cursor + Drop>(
        &self,
        alloc: Global,
        input: Input<C>,
        read: &mut Counter,
    ) -> Result<Vec<Match>, MatchError>
        requires first { self.now.engine.match_kind ≡ MatchKind.LeftmostFirst }
        ensures all { IfOk result (λ found. TellsAll self.now.engine
            (search_by self.now.engine input) match_of found.items) }
        ensures refused { IfErr result (λ error. error ≡ MatchError.Memory) }
        ensures counted { read.new
            ≤ read.old + 10 * places_in (search_by self.now.engine input) + 10 }
    {
        let mut cache = self.create_cache()?;
        let mut slots = empty_slots(alloc, self.group_info().implicit_slot_len())?;
        let mut left = LinearMatches::new(input);
        collect(alloc, self, &mut cache, &mut left, &mut slots, read)
    }

    /// Does the same by two passes only, for all kinds of matches.
    fn matches_listed<C: Cursor + Drop>(
        &self,
        alloc: Global,
        mut input: Input<C>,
        read: &mut Counter,
    ) -> Result<Vec<Match>, MatchError>
        ensures all { IfOk result (λ found. TellsAll (leftmost_first self.now.engine)
            (search_by self.now.engine input) match_of found.items) }
        ensures refused { IfErr result (λ error. error ≡ MatchError.Memory) }
        ensures counted { read.new
            ≤ read.old + 6 * places_in (search_by self.now.engine input) }
    {
        let vm = self.vm();
        let slots = vm.group_info().implicit_slot_len();
        let inside = vm.utf8_empty();
        let listed = list_matches(alloc, vm.program(), slots, &mut input, inside, read)?;
        Ok(matches_of(alloc, &listed)?)
    }

    /// Lists all matches as `captures_iter` does, leftmost first as in `all_matches`, each with all
    /// its groups in its own captures.
    ///
    /// # Errors
    ///
    /// `Memory` only.
    ///
    /// # Complexity
    ///
    /// Uses two passes only, so it reads at most six times the number of offsets inside span, slice
    /// and haystack; `read` counts them. Memory for the captures and for `rx_lists::list_matches`.
    pub fn all_captures<C: Cursor + Drop>(
        &self,
        alloc: Global,
        mut input: Input<C>,
        read: &mut Counter,
    ) -> Result<Vec<Captures>, MatchError>
        ensures all { IfOk result (λ found. TellsAll (leftmost_first self.now.engine)
            (search_by self.now.engine input)
            (captured_of self.now.engine.groups (slot_len self.now.engine.groups)) found.items) }
        ensures iterated { self.now.engine.match_kind ≡ MatchKind.LeftmostFirst
            → IfOk result (λ found. TellsAll self.now.engine (search_by self.now.engine input)
            (captured_of self.now.engine.groups (slot_len self.now.engine.groups)) found.items) }
        ensures refused { IfErr result (λ error. error ≡ MatchError.Memory) }
        ensures counted { read.new
            ≤ read.old + 6 * places_in (search_by self.now.engine input) }
    {
        let vm = self.vm();
        let groups = vm.group_info();
        let slots = groups.slot_len();
        let inside = vm.utf8_empty();
        let listed = list_matches(alloc, vm.program(), slots, &mut input, inside, read)?;
        all_captures_of(alloc, groups, &listed)
    }
}
