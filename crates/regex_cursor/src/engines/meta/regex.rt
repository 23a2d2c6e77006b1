//! Regular expressions.

ghost use Rattle.std.specs.Prelude.{◌≡◌, ◌<◌, ◌≤◌, ◌^◌, ℕ, List, IfErr, IfOk, IfSome, None, false, OnErr, OnOk, length, ◌*◌, map};
ghost use Rattle.std.specs.Iterator.{size};
ghost use Rattle.std.specs.Option.{ForSome};
ghost use Rattle.rx_input.specs.Cursors.{IsSameContent};
ghost use Rattle.rx_input.specs.Searchers.{EndsInside};
ghost use Rattle.rx_util.specs.declared.search.MatchError.{MatchError};
ghost use Rattle.rx_util.specs.declared.search.MatchKind.{MatchKind};
ghost use Rattle.rx_util.specs.Captured.{nothing_noted};
ghost use Rattle.rx_util.specs.Groups.{slot_len};
ghost use Rattle.rx_program.specs.Programs.{character_program};
ghost use Rattle.rx_literals.specs.Literals.{IsLiteralOf};
ghost use Rattle.rx_steps.specs.Threads.{no_slots};
ghost use Rattle.rx_chunk.specs.Iterating.{IsNextAnswer, StartsFrom};
ghost use Rattle.regex_cursor.specs.Capturing as capturing;
ghost use Rattle.regex_cursor.specs.Splitting as splitting;
ghost use Rattle.regex_cursor.specs.SplittingFew as few;
ghost use Rattle.regex_cursor.specs.Iterating.{GivesAll, left_of, matches_from, matches_left, regex_of};
ghost use Rattle.regex_cursor.specs.Patterns.{HasNoMatchBetween};
ghost use Rattle.regex_cursor.specs.Configs.{WantsNoLiterals, default_regex, none_set};
ghost use Rattle.regex_cursor.specs.Strategies.{regex_of as regex_with};
ghost use Rattle.regex_cursor.specs.Regexes.{AreRefusedAsRegex, EngineFinds, HasNoFindBetween, HasRoom, HoldsMatches, IsCacheOf, IsRefusedAsRegex, IsRegex, IsRegexOf, IsRegexOfAll, TellsHalf, TellsMatch, TellsSlots, TellsWhether, TellsWhole, search_by};

use super::builder::Builder;
use super::cache::Cache;
use super::captures_matches::CapturesMatches;
use super::config::Config;
use super::find_matches::FindMatches;
use super::left::{find_literal, note_nothing};
use super::split::Split;
use super::split_n::SplitN;
use super::starts::no_byte_before;
use super::strategy::Strategy;
use rx_chunk::pikevm::PikeVM;
use rx_input::{Cursor, Input};
use rx_literals::Prefilter;
use rx_program::BuildError;
use rx_steps::clear_slots;
use rx_util::{Captures, GroupInfo, HalfMatch, Match, MatchError, NonMaxUsize, PatternID};
use std::alloc::{AllocError, Global};
use std::marker::Model;
use std::rc::Rc;

/// A regular expression, or several, to search for in haystacks that are split into chunks.
/// Contracts see its settings and its engine: the program, the match kind, the groups of each
/// pattern, and whether empty matches inside a character are skipped.
///
/// The plain calls create a cache each, which takes memory and time proportional to the pattern's
/// program; those named `_with` take one, and need neither.
#[derive(Debug)]
pub struct Regex {
    strategy: Rc<Strategy>,
}

// Written out, so that crates above needn't prove how the fields are dropped.
impl Drop for Regex {
    fn drop(self) {
        let Regex {
            strategy: _strategy,
        } = self;
    }
}

impl Model for Regex {
    ghost use Rattle.regex_cursor.specs.Regexes.{RegexView};

    ghost Value = { RegexView };

    ghost view = { λ re. record {
      engine = re.strategy.value.vm;
      settings = re.strategy.value.settings;
    } };
}

impl Regex {
    /// Returns the regex for a pattern, with the default settings.
    ///
    /// # Errors
    ///
    /// Those of `Builder::build`.
    pub fn new(alloc: Global, pattern: &str) -> Result<Regex, BuildError>
        ensures built { IfOk result (λ re. IsRegexOf pattern.now re) }
        ensures refused { IfErr result (λ error. IsRefusedAsRegex pattern.now error) }
    {
        Regex::builder().build(alloc, pattern)
    }

    /// Returns the regex for patterns that are searched for together, with the default settings.
    ///
    /// # Errors
    ///
    /// Those of `Builder::build_many`.
    pub fn new_many(alloc: Global, patterns: &[&str]) -> Result<Regex, BuildError>
        ensures built { IfOk result (IsRegexOfAll (map (λ text. text.now) patterns.now)) }
        ensures refused { IfErr result
            (AreRefusedAsRegex (map (λ text. text.now) patterns.now)) }
    {
        Regex::builder().build_many(alloc, patterns)
    }

    /// Returns settings with none set.
    pub fn config() -> Config
        ensures { result ≡ none_set }
    {
        Config::new()
    }

    /// Returns a builder in which nothing is set.
    pub fn builder() -> Builder
        ensures { result ≡ default_regex }
    {
        Builder::new()
    }

    /// Returns a regex with these engines. The only error is lack of memory.
    pub(super) fn over(alloc: Global, strategy: Strategy) -> Result<Regex, AllocError>
        ensures { IfOk result (λ re. re ≡ regex_with strategy) }
    {
        Ok(Regex {
            strategy: Rc::new(alloc, strategy)?,
        })
    }

    /// Returns the engines.
    pub(super) fn strategy(&self) -> &Rc<Strategy>
        ensures { regex_with result.now.value ≡ self.now }
    {
        &self.strategy
    }

    /// Returns the PikeVM, which can do any search.
    pub(super) fn vm(&self) -> &PikeVM
        ensures { result.now ≡ self.now.engine }
    {
        self.strategy.vm()
    }

    /// Returns the literal that each match is, if it is known and the match kind is leftmost-first.
    pub(super) fn whole_literal(&self) -> Option<&Prefilter>
        ensures first { IfSome result
            (λ needle. self.now.engine.match_kind ≡ MatchKind.LeftmostFirst) }
        ensures is_literal { IfSome result
            (λ needle. IsLiteralOf needle.now (character_program self.now.engine.program)) }
    {
        self.strategy.whole_literal()
    }

    /// Returns the same regex, which shares the compiled program. The only error is `Memory`.
    /// `O(1)`.
    pub fn clone(&self) -> Result<Regex, MatchError>
        ensures same { IfOk result (λ re. re ≡ self.now) }
        ensures refused { IfErr result (λ error. error ≡ MatchError.Memory) }
    {
        Ok(Regex {
            strategy: self.strategy.clone()?,
        })
    }

    /// Returns whether there is a match. The only error is `Memory`.
    pub fn is_match<C: Cursor + Drop>(&self, mut input: Input<C>) -> Result<bool, MatchError>
        ensures answer { IfOk result (λ yes. TellsWhether (EngineFinds self.now.engine)
            (search_by self.now.engine input) yes) }
        ensures refused { IfErr result (λ error. error ≡ MatchError.Memory) }
    {
        let mut cache = self.create_cache()?;
        self.strategy.is_match(&mut cache, &mut input)
    }

    /// Returns the match that is found, as `search` does.
    pub fn find<C: Cursor + Drop>(&self, input: Input<C>) -> Result<Option<Match>, MatchError>
        ensures answer { IfOk result (λ found. TellsMatch self.now.engine input found) }
        ensures inside { IfOk result (λ found. ForSome found (λ m. EndsInside input m.span.end)) }
        ensures refused { IfErr result (λ error. error ≡ MatchError.Memory) }
    {
        self.search(input)
    }

    /// Stores the match found with all its groups, as `search_captures` does.
    pub fn captures<C: Cursor + Drop>(
        &self,
        input: Input<C>,
        caps: &mut Captures,
    ) -> Result<(), MatchError>
        ensures answer { OnOk result
            (TellsSlots self.now.engine input caps.new.pattern caps.new.slots) }
        ensures whole { HoldsMatches self.now.engine caps.old
            → OnOk result (TellsWhole self.now.engine input caps.new) }
        ensures groups { caps.new.groups ≡ caps.old.groups }
        ensures slot_len { length caps.new.slots ≡ length caps.old.slots }
        ensures no_answer { OnErr result (caps.new.pattern ≡ None) }
        ensures none { OnErr result (caps.new.slots ≡ no_slots (length caps.new.slots)) }
        ensures refused { IfErr result (λ error. error ≡ MatchError.Memory) }
    {
        self.search_captures(input, caps)
    }

    /// Returns an iterator over all matches in an input, which are whole matches even if `earliest`
    /// is set. An empty match where the previous one ended is skipped. Their number fits a `usize`,
    /// so `count` may be called. The only error is `Memory`.
    pub fn find_iter<'r, C: Cursor + Drop>(
        &'r self,
        input: Input<C>,
    ) -> Result<FindMatches<'r, C>, MatchError>
        ensures left { IfOk result
            (λ m. left_of m ≡ matches_from (search_by self.now.engine input)) }
        ensures regex { IfOk result (λ m. regex_of m ≡ self.now) }
        ensures all { IfOk result (λ m. GivesAll self.now (search_by self.now.engine input) m) }
        ensures few { IfOk result (λ m. size (matches_left (left_of m)) < 2 ^ 64) }
        ensures refused { IfErr result (λ error. error ≡ MatchError.Memory) }
    {
        let cache = self.create_cache()?;
        Ok(FindMatches::new(self, cache, input))
    }

    /// Returns an iterator over all matches in an input with their groups, as `find_iter` does.
    /// Each item owns its captures. The only error is `Memory`.
    pub fn captures_iter<'r, C: Cursor + Drop>(
        &'r self,
        input: Input<C>,
    ) -> Result<CapturesMatches<'r, C>, MatchError>
        ensures left { IfOk result
            (λ m. capturing.left_of m ≡ matches_from (search_by self.now.engine input)) }
        ensures regex { IfOk result (λ m. capturing.regex_of m ≡ self.now) }
        ensures all { IfOk result
            (λ m. capturing.GivesAll self.now (search_by self.now.engine input) m) }
        ensures few { IfOk result (λ m. size (matches_left (capturing.left_of m)) < 2 ^ 64) }
        ensures refused { IfErr result (λ error. error ≡ MatchError.Memory) }
    {
        let cache = self.create_cache()?;
        let caps = self.create_captures()?;
        Ok(CapturesMatches::new(self, cache, caps, input))
    }

    /// Returns an iterator over the parts between the matches, from 0 to the end of the input's
    /// span or of the haystack, whichever is less. Their number fits a `usize`, so `count` may be
    /// called. The only error is `Memory`.
    pub fn split<'r, C: Cursor + Drop>(
        &'r self,
        input: Input<C>,
    ) -> Result<Split<'r, C>, MatchError>
        ensures left { IfOk result (λ m. splitting.left_of m
            ≡ splitting.parts_of (matches_from (search_by self.now.engine input))) }
        ensures regex { IfOk result (λ m. splitting.regex_of m ≡ self.now) }
        ensures gaps { IfOk result
            (λ m. splitting.GivesGaps self.now (search_by self.now.engine input) m) }
        ensures few { IfOk result
            (λ m. size (splitting.parts_left (splitting.left_of m)) < 2 ^ 64) }
        ensures refused { IfErr result (λ error. error ≡ MatchError.Memory) }
    {
        let cache = self.create_cache()?;
        Ok(Split::new(self, cache, input))
    }

    /// Returns an iterator over the same parts, at most `limit` of them: the last of that number
    /// extends to the end. The only error is `Memory`.
    pub fn splitn<'r, C: Cursor + Drop>(
        &'r self,
        input: Input<C>,
        limit: usize,
    ) -> Result<SplitN<'r, C>, MatchError>
        ensures left { IfOk result (λ m. few.left_of m ≡ record {
          parts = splitting.parts_of (matches_from (search_by self.now.engine input));
          limit = limit;
        }) }
        ensures regex { IfOk result (λ m. few.regex_of m ≡ self.now) }
        ensures gaps { IfOk result
            (λ m. few.GivesFewGaps self.now (search_by self.now.engine input) limit m) }
        ensures refused { IfErr result (λ error. error ≡ MatchError.Memory) }
    {
        let cache = self.create_cache()?;
        Ok(SplitN::new(self, cache, input, limit))
    }

    /// Returns the match found, which ends in the span. Under leftmost-first it is, of the matches
    /// that start first, the one that the pattern prefers; under `MatchKind::All`, of those with
    /// the greatest end, the one that starts first, and of these that of the first pattern. If
    /// `earliest` is set, only whether there is a match, and that it ends in the span, is promised.
    ///
    /// # Errors
    ///
    /// `Memory` only.
    pub fn search<C: Cursor + Drop>(&self, mut input: Input<C>) -> Result<Option<Match>, MatchError>
        ensures answer { IfOk result (λ found. TellsMatch self.now.engine input found) }
        ensures inside { IfOk result (λ found. ForSome found (λ m. EndsInside input m.span.end)) }
        ensures refused { IfErr result (λ error. error ≡ MatchError.Memory) }
    {
        let mut cache = self.create_cache()?;
        self.search_with(&mut cache, &mut input)
    }

    /// Returns the pattern and the end of the match found, as `search_half_with` does.
    pub fn search_half<C: Cursor + Drop>(
        &self,
        mut input: Input<C>,
    ) -> Result<Option<HalfMatch>, MatchError>
        ensures answer { IfOk result (λ half. TellsHalf self.now.engine input half) }
        ensures inside { IfOk result (λ half. ForSome half (λ h. EndsInside input h.offset)) }
        ensures refused { IfErr result (λ error. error ≡ MatchError.Memory) }
    {
        let mut cache = self.create_cache()?;
        self.search_half_with(&mut cache, &mut input)
    }

    /// Stores the match found with all its groups, as `search_captures_with` does.
    pub fn search_captures<C: Cursor + Drop>(
        &self,
        mut input: Input<C>,
        caps: &mut Captures,
    ) -> Result<(), MatchError>
        ensures answer { OnOk result
            (TellsSlots self.now.engine input caps.new.pattern caps.new.slots) }
        ensures whole { HoldsMatches self.now.engine caps.old
            → OnOk result (TellsWhole self.now.engine input caps.new) }
        ensures groups { caps.new.groups ≡ caps.old.groups }
        ensures slot_len { length caps.new.slots ≡ length caps.old.slots }
        ensures no_answer { OnErr result (caps.new.pattern ≡ None) }
        ensures none { OnErr result (caps.new.slots ≡ no_slots (length caps.new.slots)) }
        ensures refused { IfErr result (λ error. error ≡ MatchError.Memory) }
    {
        note_nothing(caps);
        let mut cache = self.create_cache()?;
        self.search_captures_with(&mut cache, &mut input, caps)
    }

    /// Writes the offsets of the match found into slots, as `search_slots_with` does.
    pub fn search_slots<C: Cursor + Drop>(
        &self,
        mut input: Input<C>,
        slots: &mut [Option<NonMaxUsize>],
    ) -> Result<Option<PatternID>, MatchError>
        ensures answer { IfOk result
            (λ pattern. TellsSlots self.now.engine input pattern slots.new) }
        ensures none { OnErr result (slots.new ≡ no_slots (length slots.new)) }
        ensures refused { IfErr result (λ error. error ≡ MatchError.Memory) }
    {
        clear_slots(slots);
        let mut cache = self.create_cache()?;
        self.search_slots_with(&mut cache, &mut input, slots)
    }

    /// Returns the match found, as `search` does, with a cache. The input keeps its span, slice,
    /// anchoring and `earliest`.
    ///
    /// # Errors
    ///
    /// `Memory` only.
    ///
    /// # Requires
    ///
    /// The cache is for this regex, and remains so.
    pub fn search_with<C: Cursor>(
        &self,
        cache: &mut Cache,
        input: &mut Input<C>,
    ) -> Result<Option<Match>, MatchError>
        requires made { IsCacheOf self.now cache.old }
        ensures answer { IfOk result (λ found. TellsMatch self.now.engine input.old found) }
        ensures inside { IfOk result
            (λ found. ForSome found (λ m. EndsInside input.old m.span.end)) }
        ensures made { IsCacheOf self.now cache.new }
        ensures asked { input.new.asked ≡ input.old.asked }
        ensures same { IsSameContent input.old.cursor input.new.cursor }
        ensures refused { IfErr result (λ error. error ≡ MatchError.Memory) }
    {
        self.strategy.find(cache, input)
    }

    /// Returns the pattern and the end of the match that `search_with` finds. If `earliest` is set,
    /// only whether there is a match, and that it ends in the span, is promised. The input keeps
    /// its span, slice, anchoring and `earliest`.
    ///
    /// # Errors
    ///
    /// `Memory` only.
    ///
    /// # Requires
    ///
    /// The cache is for this regex, and remains so.
    pub fn search_half_with<C: Cursor>(
        &self,
        cache: &mut Cache,
        input: &mut Input<C>,
    ) -> Result<Option<HalfMatch>, MatchError>
        requires made { IsCacheOf self.now cache.old }
        ensures answer { IfOk result (λ half. TellsHalf self.now.engine input.old half) }
        ensures inside { IfOk result
            (λ half. ForSome half (λ h. EndsInside input.old h.offset)) }
        ensures made { IsCacheOf self.now cache.new }
        ensures asked { input.new.asked ≡ input.old.asked }
        ensures same { IsSameContent input.old.cursor input.new.cursor }
        ensures refused { IfErr result (λ error. error ≡ MatchError.Memory) }
    {
        self.strategy.find_half(cache, input)
    }

    /// Stores the match found in captures: its pattern, and its offsets in as many slots as they
    /// have. In captures that the regex made, group 0 is then the whole match. If `earliest` is
    /// set, only whether there is a match is promised. The input keeps its span, slice, anchoring
    /// and `earliest`.
    ///
    /// # Errors
    ///
    /// `Memory` only: then no pattern is stored, and all slots are empty.
    ///
    /// # Requires
    ///
    /// The cache is for this regex, and remains so.
    pub fn search_captures_with<C: Cursor>(
        &self,
        cache: &mut Cache,
        input: &mut Input<C>,
        caps: &mut Captures,
    ) -> Result<(), MatchError>
        requires made { IsCacheOf self.now cache.old }
        ensures answer { OnOk result
            (TellsSlots self.now.engine input.old caps.new.pattern caps.new.slots) }
        ensures whole { HoldsMatches self.now.engine caps.old
            → OnOk result (TellsWhole self.now.engine input.old caps.new) }
        ensures groups { caps.new.groups ≡ caps.old.groups }
        ensures slot_len { length caps.new.slots ≡ length caps.old.slots }
        ensures no_answer { OnErr result (caps.new.pattern ≡ None) }
        ensures none { OnErr result (caps.new.slots ≡ no_slots (length caps.new.slots)) }
        ensures made { IsCacheOf self.now cache.new }
        ensures asked { input.new.asked ≡ input.old.asked }
        ensures same { IsSameContent input.old.cursor input.new.cursor }
        ensures refused { IfErr result (λ error. error ≡ MatchError.Memory) }
    {
        self.strategy.search(cache, input, caps)
    }

    /// Returns the pattern of the match found, if there is one, and writes its offsets into the
    /// slots, as many as there are; all others become empty. Group k of a single pattern has the
    /// slots 2k and 2k + 1. With several patterns, the whole match of pattern p has the slots 2p
    /// and 2p + 1, and the further groups follow, pattern by pattern. If `earliest` is set, only
    /// whether there is a match is promised, and that all slots are empty if there is none. The
    /// input keeps its span, slice, anchoring and `earliest`.
    ///
    /// # Errors
    ///
    /// `Memory` only: then all slots are empty.
    ///
    /// # Requires
    ///
    /// The cache is for this regex, and remains so.
    pub fn search_slots_with<C: Cursor>(
        &self,
        cache: &mut Cache,
        input: &mut Input<C>,
        slots: &mut [Option<NonMaxUsize>],
    ) -> Result<Option<PatternID>, MatchError>
        requires made { IsCacheOf self.now cache.old }
        ensures answer { IfOk result
            (λ pattern. TellsSlots self.now.engine input.old pattern slots.new) }
        ensures none { OnErr result (slots.new ≡ no_slots (length slots.new)) }
        ensures made { IsCacheOf self.now cache.new }
        ensures asked { input.new.asked ≡ input.old.asked }
        ensures same { IsSameContent input.old.cursor input.new.cursor }
        ensures refused { IfErr result (λ error. error ≡ MatchError.Memory) }
    {
        self.strategy.search_slots(cache, input, slots)
    }

    /// Returns the pattern of the next match, given where the last one ended, if there was one, and
    /// writes its offsets into the slots, as many as there are; all others become empty. An empty
    /// match where the last one ended is skipped, and the search continues one byte after the
    /// span's start. It is a whole match, even if `earliest` is set. The input keeps its slice,
    /// anchoring, `earliest` and the span's end; the span's start may change.
    ///
    /// # Errors
    ///
    /// `Memory` only: then all slots are empty.
    ///
    /// # Requires
    ///
    /// The cache is for this regex, and remains so. There are at least two slots for each pattern.
    pub fn next_slots_with<C: Cursor>(
        &self,
        cache: &mut Cache,
        input: &mut Input<C>,
        slots: &mut [Option<NonMaxUsize>],
        last_match_end: Option<usize>,
    ) -> Result<Option<PatternID>, MatchError>
        requires made { IsCacheOf self.now cache.old }
        requires slots { 2 * length self.now.engine.groups ≤ length slots.old }
        ensures answer { IfOk result (λ pattern. IsNextAnswer (EngineFinds self.now.engine)
            (search_by self.now.engine input.old) last_match_end pattern slots.new) }
        ensures none { OnErr result (slots.new ≡ no_slots (length slots.new)) }
        ensures made { IsCacheOf self.now cache.new }
        ensures same { (start : ℕ) × StartsFrom input.old input.new start }
        ensures refused { IfErr result (λ error. error ≡ MatchError.Memory) }
    {
        self.strategy
            .next_slots(cache, input, slots, last_match_end)
    }

    /// Returns an offset of the input's span up to which nothing matches: no part of the haystack
    /// from the span's start up to there has a match, searched by itself. It is the offset of the
    /// first literal that each match begins with or contains, or else of the first byte that
    /// matches begin with; if the span has none, the span's end, which may exceed the haystack's.
    /// `None` if neither literals nor bytes are known, or if one of the bytes is common in texts.
    /// Only the position of the input changes.
    ///
    /// # Complexity
    ///
    /// It allocates nothing. With one literal, or with bytes, it takes time proportional to the
    /// bytes and chunks up to the offset.
    pub fn no_match_before<C: Cursor>(&self, input: &mut Input<C>) -> Option<usize>
        ensures no_match { (text : List ℕ) → (built : IsRegexOf text self.now)
            → IfSome result (λ place. HasNoMatchBetween built.tree input.old.cursor.content
            input.old.asked.span.start place) }
        ensures no_find { IfSome result (λ place. HasNoFindBetween self.now.engine
            input.old.cursor.content input.old.asked.span.start place) }
        ensures within { IfSome result (λ place. place ≤ input.old.asked.span.end) }
        ensures asked { input.new.asked ≡ input.old.asked }
        ensures same { IsSameContent input.old.cursor input.new.cursor }
    {
        if let Some(bytes) = self.strategy.rare_first_bytes() {
            return Some(no_byte_before(bytes, input));
        }
        let prefilter = self.strategy.prefilter()?;
        match find_literal(prefilter, input) {
            Some(span) => Some(span.start),
            None => Some(input.end()),
        }
    }

    /// Returns empty captures with slots for all groups. The only error is `Memory`. `O(n)` in the
    /// number of groups.
    pub fn create_captures(&self) -> Result<Captures, MatchError>
        ensures made { IfOk result (λ caps. caps
            ≡ nothing_noted self.now.engine.groups (slot_len self.now.engine.groups)) }
        ensures holds { IfOk result (λ caps. HoldsMatches self.now.engine caps) }
        ensures room { IfOk result (λ caps. HasRoom self.now caps) }
        ensures refused { IfErr result (λ error. error ≡ MatchError.Memory) }
    {
        self.vm().create_captures()
    }

    /// Returns a cache for searches with it, as `Cache::new` does. The only error is `Memory`.
    pub fn create_cache(&self) -> Result<Cache, MatchError>
        ensures made { IfOk result (λ cache. IsCacheOf self.now cache) }
        ensures refused { IfErr result (λ error. error ≡ MatchError.Memory) }
    {
        Cache::new(self.strategy.program().allocator(), self)
    }

    /// Returns the number of patterns. `O(1)`.
    pub fn pattern_len(&self) -> usize
        ensures { result ≡ length self.now.engine.groups }
    {
        self.group_info().pattern_len()
    }

    /// Returns the number of groups of all patterns, including the whole match of each, and those
    /// that aren't stored. `O(1)`.
    pub fn captures_len(&self) -> usize
        ensures { result ≡ self.now.engine.captures_len }
    {
        self.vm().captures_len()
    }

    /// Returns the number of groups in each match, including the whole match, whether they are
    /// stored or not. `None` if matches differ in it, as those of `(a)|b` do, or if there is no
    /// pattern. What may be repeated zero times counts as different, unless it has no group.
    /// `O(1)`.
    pub fn static_captures_len(&self) -> Option<usize>
        ensures len { result ≡ self.now.engine.static_captures_len }
        ensures regex { IsRegex self.now }
    {
        self.vm().static_captures_len()
    }

    /// Returns the groups of its patterns that are stored. `O(1)`.
    pub fn group_info(&self) -> &GroupInfo
        ensures groups { result.now ≡ self.now.engine.groups }
        ensures regex { IsRegex self.now }
    {
        self.vm().group_info()
    }

    /// Returns the settings that it was built with. `O(1)`.
    pub fn get_config(&self) -> &Config
        ensures { result.now ≡ self.now.settings }
    {
        self.strategy.config()
    }

    /// Returns whether literals that matches begin with are searched for before an engine runs.
    /// `false` if `auto_prefilter` is off and no `prefilter` is set, and under `MatchKind::All`.
    /// `O(1)`.
    pub fn is_accelerated(&self) -> bool
        ensures unwanted { WantsNoLiterals self.now.settings → result ≡ false }
        ensures all { self.now.engine.match_kind ≡ MatchKind.All → result ≡ false }
    {
        self.strategy.is_accelerated()
    }

    /// Returns about how many bytes the states and tables of its program and of its automaton take.
    /// No contract specifies the number. `O(n)` in the number of the program's states.
    pub fn memory_usage(&self) -> usize {
        self.strategy.memory_usage()
    }
}
