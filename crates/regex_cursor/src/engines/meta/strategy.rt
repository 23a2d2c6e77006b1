//! The engines of a regex, and how it chooses among them. Under `MatchKind::All` only the PikeVM
//! searches. For the leftmost match, literals are searched for first, then the automaton runs, and
//! the PikeVM searches what these leave.

ghost use Rattle.std.specs.Prelude.{◌≡◌, ℕ, ◌*◌, ◌<◌, ◌≤◌, ◌^◌, IfOk, IfErr, IfSome, OnOk, OnErr, None, false, length};
ghost use Rattle.std.specs.Option.{ForSome};
ghost use Rattle.rx_util.specs.declared.search.MatchError.{MatchError};
ghost use Rattle.rx_util.specs.declared.search.MatchKind.{MatchKind};
ghost use Rattle.rx_util.specs.Captured.{group_span, match_found};
ghost use Rattle.rx_input.specs.Cursors.{IsSameContent};
ghost use Rattle.rx_input.specs.Searchers.{EndsInside};
ghost use Rattle.rx_walks.specs.Finds.{from_place_on};
ghost use Rattle.rx_program.specs.Programs.{character_program};
ghost use Rattle.rx_literals.specs.ByteSets.{MatchesBeginIn};
ghost use Rattle.rx_literals.specs.Literals.{IsLiteralOf};
ghost use Rattle.rx_literals.specs.Requirements.{MatchesContain};
ghost use Rattle.rx_dfa.specs.Searching.{IsHalfAnswer};
ghost use Rattle.rx_steps.specs.Threads.{no_slots};
ghost use Rattle.rx_engine.specs.Engines.{IsEngine};
ghost use Rattle.rx_chunk.specs.Engines.{EngineFinds, TellsWhether};
ghost use Rattle.rx_chunk.specs.Iterating.{EndsAhead, HasNotedNext, IsFoundNext, IsNextAnswer, StartsFrom};
ghost use Rattle.regex_cursor.specs.Backs.{EndsLast, IsWhole};
ghost use Rattle.regex_cursor.specs.Regexes.{HoldsMatches, IsCacheOf, TellsHalf, TellsMatch, TellsSlots, TellsWhole, search_by};
ghost use Rattle.regex_cursor.specs.Configs.{WantsNoLiterals};
ghost use Rattle.regex_cursor.specs.Literals.{AreLiteralsOf, no_literals};
ghost use Rattle.regex_cursor.specs.Strategies.{AreKeptFor, IsLeft, IsNextLeft, IsPart, IsPartLeft, IsStart, IsTold, regex_of};

use super::cache::{Cache, Kept};
use super::config::Config;
use super::dense::{bytes_of_states, closed_of};
use super::exact::{asks_in_slice, find_occurrence};
use super::left::{Left, Part, Start, Told, find_literal, half_of, put_back, start_of_literal};
use super::literals::Literals;
use super::shared::Core;
use super::starts::first_byte;
use super::{ahead, leftmost, starts};
use rx_chunk::pikevm::{self, PikeVM};
use rx_dfa::DenseTable;
use rx_input::{Cursor, Input};
use rx_literals::{ByteSet, Prefilter, ends_with_slice};
use rx_matches::halves::{starts_first, whole};
use rx_program::Program;
use rx_util::{Captures, HalfMatch, Match, MatchError, MatchKind, NonMaxUsize, PatternID};
use std::alloc::{AllocError, Global};
use std::marker::Model;
use std::rc::Rc;

/// The engines of a regex, which it shares with its clones.
#[derive(Debug, Drop)]
pub(super) struct Strategy {
    core: Rc<Core>,
    // If program and automaton are small.
    closed: Option<DenseTable>,
    literals: Literals,
    // Whether it is known that each match ends where the slice does.
    ends_last: bool,
}

impl Model for Strategy {
    ghost use Rattle.regex_cursor.specs.Strategies.{Engines, AreEngines};

    ghost Value = { Engines };

    ghost view = { λ s. record {
      vm = s.core.value.vm;
      dfa = s.core.value.dfa;
      settings = s.core.value.settings;
      closed = s.closed;
      literals = s.literals;
      ends_last = s.ends_last;
    } };

    ghost invariant = { λ s. AreEngines (record {
      vm = s.core.value.vm;
      dfa = s.core.value.dfa;
      settings = s.core.value.settings;
      closed = s.closed;
      literals = s.literals;
      ends_last = s.ends_last;
    }) };
}

/// Returns how many bytes the automaton advanced in a search of an input that ended with this
/// result.
fn bytes_of<C: Cursor>(answer: &Result<Option<HalfMatch>, MatchError>, input: &Input<C>) -> usize {
    let place = match answer {
        Err(MatchError::GaveUp { offset }) => *offset,
        _ => input.position(),
    };
    place.saturating_sub(input.start())
}

impl Strategy {
    /// Returns the engines over a PikeVM: the automaton of its program, with all its states if they
    /// are few, and the literals that matches begin with or are, if they are known; each as far as
    /// the settings allow it. By default it takes time proportional to the program's states and the
    /// ranges of their automata.
    pub(super) fn new(alloc: Global, vm: PikeVM, config: Config) -> Result<Strategy, AllocError>
        ensures vm { IfOk result (λ strategy. strategy.vm ≡ vm) }
        ensures settings { IfOk result (λ strategy. strategy.settings ≡ config) }
    {
        let core = Rc::new(alloc, Core::new(alloc, vm, config)?)?;
        Strategy::over(alloc, core)
    }

    /// Returns the engines over what a regex shares with its caches. Several functions build them,
    /// each of which owns little, so that each is proved quickly.
    fn over(alloc: Global, core: Rc<Core>) -> Result<Strategy, AllocError>
        ensures vm { IfOk result (λ strategy. strategy.vm ≡ core.value.vm) }
        ensures settings { IfOk result (λ strategy. strategy.settings ≡ core.value.settings) }
    {
        let literals = Literals::of(alloc, core.program(), core.config())?;
        Strategy::with_literals(alloc, core, literals)
    }

    /// Returns the same, given the literals of the program.
    fn with_literals(
        alloc: Global,
        core: Rc<Core>,
        literals: Literals,
    ) -> Result<Strategy, AllocError>
        requires literals { AreLiteralsOf core.value.vm.program literals }
        requires unwanted { WantsNoLiterals core.value.settings → literals ≡ no_literals }
        ensures vm { IfOk result (λ strategy. strategy.vm ≡ core.value.vm) }
        ensures settings { IfOk result (λ strategy. strategy.settings ≡ core.value.settings) }
    {
        let closed = closed_of(alloc, core.program(), core.dfa(), core.config())?;
        let ends_last = ends_with_slice(alloc, core.program())?;
        Ok(Strategy {
            core,
            closed,
            literals,
            ends_last,
        })
    }

    /// Returns what its caches are made for.
    pub(super) fn core(&self) -> &Rc<Core>
        ensures vm { result.now.value.vm ≡ self.now.vm }
        ensures settings { result.now.value.settings ≡ self.now.settings }
    {
        &self.core
    }

    /// Returns the PikeVM, which can do any search.
    pub(super) fn vm(&self) -> &PikeVM
        ensures vm { result.now ≡ self.now.vm }
        ensures engine { IsEngine self.now.vm }
    {
        self.core.vm()
    }

    /// Returns the program that its engines search for.
    pub(super) fn program(&self) -> &Program
        ensures { result.now ≡ self.now.vm.program }
    {
        self.core.program()
    }

    /// Returns the settings.
    pub(super) fn config(&self) -> &Config
        ensures { result.now ≡ self.now.settings }
    {
        self.core.config()
    }

    /// Returns whether literals are searched for before an engine runs.
    pub(super) fn is_accelerated(&self) -> bool
        ensures unwanted { WantsNoLiterals self.now.settings → result ≡ false }
        ensures all { self.now.vm.match_kind ≡ MatchKind.All → result ≡ false }
    {
        match self.vm().match_kind() {
            MatchKind::LeftmostFirst => self.has_literals(),
            MatchKind::All => false,
        }
    }

    /// Returns whether literals are known that matches begin with, or are.
    fn has_literals(&self) -> bool
        ensures { WantsNoLiterals self.now.settings → result ≡ false }
    {
        self.literals.beginnings.is_some() || self.literals.whole.is_some()
    }

    /// Returns about how many bytes the states and tables take that are made with the regex, of the
    /// program and of the automaton.
    pub(super) fn memory_usage(&self) -> usize {
        let states = bytes_of_states(self.program());
        match &self.closed {
            Some(closed) => states.saturating_add(closed.memory_usage()),
            None => states,
        }
    }

    /// Returns whether the automaton may be used: its states are all made already, or may be made
    /// as searches reach them, and that pays.
    fn may_ask_automaton(&self, kept: &Kept) -> bool {
        self.closed.is_some() || self.config().get_hybrid() && kept.pays()
    }

    /// Returns the prefilter of literals that each match begins with or contains, if one is known.
    pub(super) fn prefilter(&self) -> Option<&Prefilter>
        ensures contained { IfSome result
            (λ needles. MatchesContain needles.now (character_program self.now.vm.program)) }
    {
        match &self.literals.beginnings {
            Some(beginnings) => Some(beginnings),
            None => self.literals.required.as_ref(),
        }
    }

    /// Returns the bytes that matches begin with, if they are known and no literals are that they
    /// begin with.
    pub(super) fn first_bytes(&self) -> Option<&ByteSet>
        ensures begin { IfSome result
            (λ bytes. MatchesBeginIn bytes.now (character_program self.now.vm.program)) }
    {
        self.literals.first.as_ref()
    }

    /// Returns the same bytes, unless one of them is common in texts, or a literal is known that
    /// each match contains: otherwise a search for them skips few lines.
    pub(super) fn rare_first_bytes(&self) -> Option<&ByteSet>
        ensures begin { IfSome result
            (λ bytes. MatchesBeginIn bytes.now (character_program self.now.vm.program)) }
    {
        match self.first_bytes() {
            Some(bytes) if bytes.is_rare() && self.literals.required.is_none() => Some(bytes),
            _ => None,
        }
    }

    /// Returns whether literals or bytes are known that matches begin with.
    pub(super) fn knows_beginnings(&self) -> bool {
        self.literals.beginnings.is_some() || self.literals.first.is_some()
    }

    /// Returns the literal that each match is, if it is known and the match kind is leftmost-first.
    pub(super) fn whole_literal(&self) -> Option<&Prefilter>
        ensures first { IfSome result
            (λ needle. self.now.vm.match_kind ≡ MatchKind.LeftmostFirst) }
        ensures is_literal { IfSome result
            (λ needle. IsLiteralOf needle.now (character_program self.now.vm.program)) }
    {
        match self.vm().match_kind() {
            MatchKind::LeftmostFirst => self.literals.whole.as_ref(),
            MatchKind::All => None,
        }
    }

    /// Returns the pattern and the end of the match, by the automaton. If all its states are made
    /// already, the cached ones aren't used.
    fn search_half<C: Cursor>(
        &self,
        kept: &mut Kept,
        input: &mut Input<C>,
    ) -> Result<Option<HalfMatch>, MatchError>
        requires serve { AreKeptFor self.now kept.old }
        ensures answer { IfOk result (IsHalfAnswer self.now.vm.program
            (search_by self.now.vm input.old)) }
        ensures serve { AreKeptFor self.now kept.new }
        ensures core { kept.new.core ≡ kept.old.core }
        ensures asked { input.new.asked ≡ input.old.asked }
        ensures same { IsSameContent input.old.cursor input.new.cursor }
    {
        match &self.closed {
            Some(closed) => closed.try_search_fwd(self.program(), self.core.dfa(), input),
            None => kept.search_half(input),
        }
    }

    /// Returns what is left of a search for the PikeVM: searches for the literals that matches are
    /// or begin with, if they are known, and runs the automaton from there. The only error is
    /// `Memory`.
    pub(super) fn ask<C: Cursor>(
        &self,
        kept: &mut Kept,
        input: &mut Input<C>,
    ) -> Result<Left, MatchError>
        requires serve { AreKeptFor self.now kept.old }
        ensures left { IfOk result (IsLeft self.now.vm.program (search_by self.now.vm input.old)) }
        ensures serve { AreKeptFor self.now kept.new }
        ensures core { kept.new.core ≡ kept.old.core }
        ensures asked { input.new.asked ≡ input.old.asked }
        ensures same { IsSameContent input.old.cursor input.new.cursor }
        ensures bound { length input.old.cursor.content < 2 ^ 63 }
        ensures refused { IfErr result (λ error. error ≡ MatchError.Memory) }
    {
        let _at = input.position(); // for the proof: how long the haystack may be
        if input.is_done() {
            return Ok(Left::Nothing);
        }
        match self.first_start(input, kept.may_try()) {
            Start::Nowhere => {
                kept.note_read(input.end().saturating_sub(input.start()));
                Ok(Left::Nothing)
            }
            Start::At(span) => {
                kept.note_read(span.end.saturating_sub(input.start()));
                Ok(Left::Match(span))
            }
            Start::From(place) => self.ask_from(place, kept, input),
        }
    }

    /// Returns what the automaton leaves of a search from an offset of the span on.
    fn ask_from<C: Cursor>(
        &self,
        place: usize,
        kept: &mut Kept,
        input: &mut Input<C>,
    ) -> Result<Left, MatchError>
        requires behind { input.old.asked.span.start ≤ place }
        requires before { place ≤ input.old.asked.span.end }
        requires serve { AreKeptFor self.now kept.old }
        ensures left { IfOk result (IsLeft self.now.vm.program
            (from_place_on (search_by self.now.vm input.old) place)) }
        ensures serve { AreKeptFor self.now kept.new }
        ensures core { kept.new.core ≡ kept.old.core }
        ensures asked { input.new.asked ≡ input.old.asked }
        ensures same { IsSameContent input.old.cursor input.new.cursor }
        ensures refused { IfErr result (λ error. error ≡ MatchError.Memory) }
    {
        let whole = input.get_span();
        kept.note_read(place - whole.start);
        input.set_start(place);
        let left = self.ask_rest(kept, input);
        put_back(input, whole);
        left
    }

    /// Returns what is left of a search, if literals show nothing more: by a backward search from
    /// the slice's end, if all matches end there, and otherwise by the automaton.
    fn ask_rest<C: Cursor>(&self, kept: &mut Kept, input: &mut Input<C>) -> Result<Left, MatchError>
        requires ordered { input.old.asked.span.start ≤ input.old.asked.span.end }
        requires serve { AreKeptFor self.now kept.old }
        ensures left { IfOk result (IsLeft self.now.vm.program (search_by self.now.vm input.old)) }
        ensures serve { AreKeptFor self.now kept.new }
        ensures core { kept.new.core ≡ kept.old.core }
        ensures asked { input.new.asked ≡ input.old.asked }
        ensures same { IsSameContent input.old.cursor input.new.cursor }
        ensures refused { IfErr result (λ error. error ≡ MatchError.Memory) }
    {
        match self.ask_back(kept, input)? {
            Some(left) => Ok(left),
            None => starts::ask_forward(self, kept, input),
        }
    }

    /// Returns what a backward search from the slice's end leaves, if all matches end there, the
    /// search isn't anchored, and it pays. Only the automaton is used, because following threads
    /// takes longer than the forward search. The only error is `Memory`.
    fn ask_back<C: Cursor>(
        &self,
        kept: &mut Kept,
        input: &mut Input<C>,
    ) -> Result<Option<Left>, MatchError>
        requires ordered { input.old.asked.span.start ≤ input.old.asked.span.end }
        requires serve { AreKeptFor self.now kept.old }
        ensures left { IfOk result (λ told. IfSome told
            (IsLeft self.now.vm.program (search_by self.now.vm input.old))) }
        ensures serve { AreKeptFor self.now kept.new }
        ensures core { kept.new.core ≡ kept.old.core }
        ensures asked { input.new.asked ≡ input.old.asked }
        ensures same { IsSameContent input.old.cursor input.new.cursor }
        ensures refused { IfErr result (λ error. error ≡ MatchError.Memory) }
    {
        if !self.ends_last || !self.config().get_hybrid() || input.get_anchored().is_anchored() {
            return Ok(None);
        }
        kept.search_last(input)
    }

    /// Returns what the automaton finds: no match, or where the match ends. The result is unknown
    /// if it quits or gives up, or if any match will do: the automaton continues to the end of the
    /// match that it finds, but the PikeVM stops at the first end. The only error is `Memory`.
    pub(super) fn ask_automaton<C: Cursor>(
        &self,
        kept: &mut Kept,
        input: &mut Input<C>,
    ) -> Result<Told, MatchError>
        requires serve { AreKeptFor self.now kept.old }
        ensures told { IfOk result (IsTold self.now.vm.program (search_by self.now.vm input.old)) }
        ensures serve { AreKeptFor self.now kept.new }
        ensures core { kept.new.core ≡ kept.old.core }
        ensures asked { input.new.asked ≡ input.old.asked }
        ensures same { IsSameContent input.old.cursor input.new.cursor }
        ensures refused { IfErr result (λ error. error ≡ MatchError.Memory) }
    {
        if input.get_earliest() || !self.may_ask_automaton(kept) {
            return Ok(Told::Unknown);
        }
        let answer = self.search_half(kept, input);
        kept.pass(bytes_of(&answer, input));
        match answer {
            Ok(Some(half)) => Ok(Told::Ends(half)),
            Ok(None) => Ok(Told::NoMatch),
            Err(MatchError::Memory) => Err(MatchError::Memory),
            Err(_) => Ok(Told::Unknown),
        }
    }

    /// Returns the match found in an input, given that it ends where the span does, and its
    /// pattern. It starts at the span's start if the input is anchored, or if it is empty and the
    /// span is too; otherwise where the forward automaton or a backward search finds its start.
    /// `None` if neither does. The only error is `Memory`.
    pub(super) fn whole_match<C: Cursor>(
        &self,
        kept: &mut Kept,
        input: &mut Input<C>,
        pattern: PatternID,
    ) -> Result<Option<Match>, MatchError>
        requires serve { AreKeptFor self.now kept.old }
        requires ordered { input.old.asked.span.start ≤ input.old.asked.span.end }
        requires known { EndsLast self.now.vm.program self.now.vm.utf8_empty input.old pattern }
        ensures whole { IfOk result (λ found. IfSome found
            (λ m. IsWhole self.now.vm.program self.now.vm.utf8_empty input.old m)) }
        ensures pattern { IfOk result (λ found. IfSome found (λ m. m.pattern ≡ pattern)) }
        ensures serve { AreKeptFor self.now kept.new }
        ensures core { kept.new.core ≡ kept.old.core }
        ensures asked { input.new.asked ≡ input.old.asked }
        ensures same { IsSameContent input.old.cursor input.new.cursor }
        ensures bound { length input.old.cursor.content < 2 ^ 63 }
        ensures refused { IfErr result (λ error. error ≡ MatchError.Memory) }
    {
        let _at = input.position(); // for the proof: how long the haystack may be
        let end = input.end();
        if starts_first(input, end) {
            return Ok(Some(whole(HalfMatch::new(pattern, end), input.start())));
        }
        if kept.may_step() {
            return ahead::whole_match(self, kept, input, pattern);
        }
        kept.whole_match(input, pattern, self.config().get_hybrid())
    }

    /// Returns the match, if each match is one literal, or where it may begin, by what matches
    /// begin with. The span must not be done. The position may move. `tries` is whether a match
    /// mostly begins at the first byte that matches can begin with.
    fn first_start<C: Cursor>(&self, input: &mut Input<C>, tries: bool) -> Start
        requires { input.old.asked.span.start ≤ input.old.asked.span.end }
        ensures start { IsStart self.now.vm.program (search_by self.now.vm input.old) result }
        ensures asked { input.new.asked ≡ input.old.asked }
        ensures same { IsSameContent input.old.cursor input.new.cursor }
    {
        match &self.literals.whole {
            Some(needle) => start_of_literal(needle, input),
            None => self.first_beginning(input, tries),
        }
    }

    /// Returns where a match can begin, by the literals or bytes that matches begin with, which are
    /// searched for unless the search is anchored.
    fn first_beginning<C: Cursor>(&self, input: &mut Input<C>, tries: bool) -> Start
        requires { input.old.asked.span.start ≤ input.old.asked.span.end }
        ensures start { IsStart self.now.vm.program (search_by self.now.vm input.old) result }
        ensures asked { input.new.asked ≡ input.old.asked }
        ensures same { IsSameContent input.old.cursor input.new.cursor }
    {
        match &self.literals.beginnings {
            Some(prefilter) if !input.get_anchored().is_anchored() => {
                match find_literal(prefilter, input) {
                    Some(span) => Start::From(span.start),
                    None => Start::Nowhere,
                }
            }
            _ => first_byte(self, input, tries),
        }
    }

    /// Returns whether there is a match. The cache must be for the regex, and remains so. The only
    /// error is `Memory`.
    pub(super) fn is_match<C: Cursor>(
        &self,
        cache: &mut Cache,
        input: &mut Input<C>,
    ) -> Result<bool, MatchError>
        requires made { IsCacheOf (regex_of self.now) cache.old }
        ensures answer { IfOk result (λ yes. TellsWhether (EngineFinds self.now.vm)
            (search_by self.now.vm input.old) yes) }
        ensures made { IsCacheOf (regex_of self.now) cache.new }
        ensures asked { input.new.asked ≡ input.old.asked }
        ensures same { IsSameContent input.old.cursor input.new.cursor }
        ensures refused { IfErr result (λ error. error ≡ MatchError.Memory) }
    {
        match self.vm().match_kind() {
            MatchKind::LeftmostFirst => leftmost::is_match(self, cache, input),
            MatchKind::All => pikevm::is_match(self.vm(), &mut cache.kept.vm, input),
        }
    }

    /// Returns the match found, which ends in the span. The cache must be for the regex, and
    /// remains so. The only error is `Memory`.
    pub(super) fn find<C: Cursor>(
        &self,
        cache: &mut Cache,
        input: &mut Input<C>,
    ) -> Result<Option<Match>, MatchError>
        requires made { IsCacheOf (regex_of self.now) cache.old }
        ensures answer { IfOk result (λ found. TellsMatch self.now.vm input.old found) }
        ensures inside { IfOk result
            (λ found. ForSome found (λ m. EndsInside input.old m.span.end)) }
        ensures made { IsCacheOf (regex_of self.now) cache.new }
        ensures asked { input.new.asked ≡ input.old.asked }
        ensures same { IsSameContent input.old.cursor input.new.cursor }
        ensures refused { IfErr result (λ error. error ≡ MatchError.Memory) }
    {
        match self.vm().match_kind() {
            MatchKind::LeftmostFirst => leftmost::find(self, cache, input),
            MatchKind::All => pikevm::find(self.vm(), &mut cache.kept.vm, input),
        }
    }

    /// Returns the pattern and the end of the match that `find` finds.
    pub(super) fn find_half<C: Cursor>(
        &self,
        cache: &mut Cache,
        input: &mut Input<C>,
    ) -> Result<Option<HalfMatch>, MatchError>
        requires made { IsCacheOf (regex_of self.now) cache.old }
        ensures answer { IfOk result (λ half. TellsHalf self.now.vm input.old half) }
        ensures inside { IfOk result
            (λ half. ForSome half (λ h. EndsInside input.old h.offset)) }
        ensures made { IsCacheOf (regex_of self.now) cache.new }
        ensures asked { input.new.asked ≡ input.old.asked }
        ensures same { IsSameContent input.old.cursor input.new.cursor }
        ensures refused { IfErr result (λ error. error ≡ MatchError.Memory) }
    {
        match self.vm().match_kind() {
            MatchKind::LeftmostFirst => leftmost::find_half(self, cache, input),
            MatchKind::All => {
                let found = pikevm::find(self.vm(), &mut cache.kept.vm, input)?;
                Ok(half_of(found))
            }
        }
    }

    /// Returns the pattern of the match found, and writes its offsets into the slots, as many as
    /// there are; all others become empty. The cache must be for the regex, and remains so. The
    /// only error is `Memory`: then all slots are empty.
    pub(super) fn search_slots<C: Cursor>(
        &self,
        cache: &mut Cache,
        input: &mut Input<C>,
        slots: &mut [Option<NonMaxUsize>],
    ) -> Result<Option<PatternID>, MatchError>
        requires made { IsCacheOf (regex_of self.now) cache.old }
        ensures answer { IfOk result
            (λ pattern. TellsSlots self.now.vm input.old pattern slots.new) }
        ensures none { OnErr result (slots.new ≡ no_slots (length slots.new)) }
        ensures made { IsCacheOf (regex_of self.now) cache.new }
        ensures asked { input.new.asked ≡ input.old.asked }
        ensures same { IsSameContent input.old.cursor input.new.cursor }
        ensures refused { IfErr result (λ error. error ≡ MatchError.Memory) }
    {
        match self.vm().match_kind() {
            MatchKind::LeftmostFirst => leftmost::search_slots(self, cache, input, slots),
            MatchKind::All => pikevm::search_slots(self.vm(), &mut cache.kept.vm, input, slots),
        }
    }

    /// Stores the match found in captures, as `search_slots` does. If these are of the regex's
    /// groups, with at least two slots for each pattern, group 0 is then the whole match. The cache
    /// must be for the regex, and remains so. The only error is `Memory`: then no pattern is
    /// stored, and all slots are empty.
    pub(super) fn search<C: Cursor>(
        &self,
        cache: &mut Cache,
        input: &mut Input<C>,
        caps: &mut Captures,
    ) -> Result<(), MatchError>
        requires made { IsCacheOf (regex_of self.now) cache.old }
        ensures answer { OnOk result
            (TellsSlots self.now.vm input.old caps.new.pattern caps.new.slots) }
        ensures whole { HoldsMatches self.now.vm caps.old
            → OnOk result (TellsWhole self.now.vm input.old caps.new) }
        ensures groups { caps.new.groups ≡ caps.old.groups }
        ensures slot_len { length caps.new.slots ≡ length caps.old.slots }
        ensures no_answer { OnErr result (caps.new.pattern ≡ None) }
        ensures none { OnErr result (caps.new.slots ≡ no_slots (length caps.new.slots)) }
        ensures made { IsCacheOf (regex_of self.now) cache.new }
        ensures asked { input.new.asked ≡ input.old.asked }
        ensures same { IsSameContent input.old.cursor input.new.cursor }
        ensures refused { IfErr result (λ error. error ≡ MatchError.Memory) }
    {
        match self.vm().match_kind() {
            MatchKind::LeftmostFirst => leftmost::search(self, cache, input, caps),
            MatchKind::All => pikevm::search(self.vm(), &mut cache.kept.vm, input, caps),
        }
    }

    /// Returns the part of an input's span that contains the match found there, from its start to
    /// its end as far as these are known; `None` if there is no match. The only error is `Memory`.
    pub(super) fn find_part<C: Cursor>(
        &self,
        kept: &mut Kept,
        input: &mut Input<C>,
    ) -> Result<Option<Part>, MatchError>
        requires serve { AreKeptFor self.now kept.old }
        ensures part { IfOk result
            (IsPartLeft self.now.vm.program (search_by self.now.vm input.old)) }
        ensures serve { AreKeptFor self.now kept.new }
        ensures core { kept.new.core ≡ kept.old.core }
        ensures asked { input.new.asked ≡ input.old.asked }
        ensures same { IsSameContent input.old.cursor input.new.cursor }
        ensures refused { IfErr result (λ error. error ≡ MatchError.Memory) }
    {
        match self.ask(kept, input)? {
            Left::In(part) => {
                let shorter = self.shorten(kept, input, part)?;
                Ok(Some(shorter))
            }
            left => Ok(left.part()),
        }
    }

    /// Shortens a part that contains the match found to the match itself, if its start is found
    /// without the PikeVM. The only error is `Memory`.
    fn shorten<C: Cursor>(
        &self,
        kept: &mut Kept,
        input: &mut Input<C>,
        part: Part,
    ) -> Result<Part, MatchError>
        requires serve { AreKeptFor self.now kept.old }
        requires part { IsPart self.now.vm.program (search_by self.now.vm input.old) part }
        ensures part { IfOk result
            (IsPart self.now.vm.program (search_by self.now.vm input.old)) }
        ensures serve { AreKeptFor self.now kept.new }
        ensures core { kept.new.core ≡ kept.old.core }
        ensures asked { input.new.asked ≡ input.old.asked }
        ensures same { IsSameContent input.old.cursor input.new.cursor }
        ensures refused { IfErr result (λ error. error ≡ MatchError.Memory) }
    {
        let Some(pattern) = part.pattern else {
            return Ok(part);
        };
        let whole = part.cut(input);
        let found = self.whole_match(kept, input, pattern);
        put_back(input, whole);
        match found? {
            Some(found) => Ok(Part::of(found)),
            None => Ok(part),
        }
    }

    /// Returns the part of an input's span in which the next match is found that is found in the
    /// span, given where the last one ended, if there was one; `None` if there are no more. The
    /// only error is `Memory`.
    pub(super) fn next_part<C: Cursor>(
        &self,
        kept: &mut Kept,
        input: &mut Input<C>,
        last_match_end: Option<usize>,
    ) -> Result<Option<Part>, MatchError>
        requires serve { AreKeptFor self.now kept.old }
        ensures next { IfOk result (IsNextLeft self.now.vm.program
            (search_by self.now.vm input.old) last_match_end) }
        ensures serve { AreKeptFor self.now kept.new }
        ensures core { kept.new.core ≡ kept.old.core }
        ensures asked { input.new.asked ≡ input.old.asked }
        ensures same { IsSameContent input.old.cursor input.new.cursor }
        ensures refused { IfErr result (λ error. error ≡ MatchError.Memory) }
    {
        match self.find_part(kept, input)? {
            None => Ok(None),
            Some(part) => Ok(Some(part.behind(last_match_end, input.get_span()))),
        }
    }

    /// Returns the pattern of the next match, given where the last one ended, if there was one, and
    /// writes its offsets into the slots, at least two for each pattern; all others become empty.
    /// An empty match where the last one ended is skipped, and the search continues one byte after
    /// the span's start. The cache must be for the regex, and remains so. The only error is
    /// `Memory`: then all slots are empty.
    pub(super) fn next_slots<C: Cursor>(
        &self,
        cache: &mut Cache,
        input: &mut Input<C>,
        slots: &mut [Option<NonMaxUsize>],
        last_match_end: Option<usize>,
    ) -> Result<Option<PatternID>, MatchError>
        requires made { IsCacheOf (regex_of self.now) cache.old }
        requires slots { 2 * length self.now.vm.groups ≤ length slots.old }
        ensures answer { IfOk result (λ pattern. IsNextAnswer (EngineFinds self.now.vm)
            (search_by self.now.vm input.old) last_match_end pattern slots.new) }
        ensures none { OnErr result (slots.new ≡ no_slots (length slots.new)) }
        ensures made { IsCacheOf (regex_of self.now) cache.new }
        ensures same { (start : ℕ) × StartsFrom input.old input.new start }
        ensures engine { IsEngine self.now.vm }
        ensures refused { IfErr result (λ error. error ≡ MatchError.Memory) }
    {
        let last = last_match_end;
        match self.vm().match_kind() {
            MatchKind::LeftmostFirst => leftmost::next_slots(self, cache, input, slots, last),
            MatchKind::All => {
                pikevm::next_slots(self.vm(), &mut cache.kept.vm, input, slots, last)
            }
        }
    }

    /// Returns the next match, as `next_slots` finds it. The cache must be for the regex, and
    /// remains so. The only error is `Memory`.
    pub(super) fn find_next<C: Cursor>(
        &self,
        cache: &mut Cache,
        input: &mut Input<C>,
        last_match_end: Option<usize>,
    ) -> Result<Option<Match>, MatchError>
        requires made { IsCacheOf (regex_of self.now) cache.old }
        ensures answer { IfOk result (λ found. IsFoundNext (EngineFinds self.now.vm)
            (search_by self.now.vm input.old) last_match_end found) }
        ensures ahead { IfOk result (λ found. ForSome found (λ m. EndsAhead last_match_end
            (search_by self.now.vm input.old) m.span.end)) }
        ensures made { IsCacheOf (regex_of self.now) cache.new }
        ensures same { (start : ℕ) × StartsFrom input.old input.new start }
        ensures refused { IfErr result (λ error. error ≡ MatchError.Memory) }
    {
        let last = last_match_end;
        if let Some(needle) = self.whole_literal() {
            if asks_in_slice(input) {
                return Ok(find_occurrence(needle, input));
            }
        }
        match self.vm().match_kind() {
            MatchKind::LeftmostFirst => leftmost::find_next(self, cache, input, last),
            MatchKind::All => pikevm::find_next(self.vm(), &mut cache.kept.vm, input, last),
        }
    }

    /// Stores the next match, as `next_slots` finds it, with all its groups, in captures of the
    /// regex's groups with at least two slots for each pattern. The cache must be for the regex,
    /// and remains so. The only error is `Memory`: then no pattern is stored.
    pub(super) fn search_next<C: Cursor>(
        &self,
        cache: &mut Cache,
        input: &mut Input<C>,
        caps: &mut Captures,
        last_match_end: Option<usize>,
    ) -> Result<(), MatchError>
        requires made { IsCacheOf (regex_of self.now) cache.old }
        requires groups { caps.old.groups ≡ self.now.vm.groups }
        requires slots { 2 * length self.now.vm.groups ≤ length caps.old.slots }
        ensures answer { OnOk result (HasNotedNext (EngineFinds self.now.vm)
            (search_by self.now.vm input.old) last_match_end caps.new) }
        ensures ordered { OnOk result (ForSome (group_span caps.new 0)
            (λ span. span.start ≤ span.end)) }
        ensures ahead { OnOk result (ForSome (match_found caps.new) (λ m. EndsAhead last_match_end
            (search_by self.now.vm input.old) m.span.end)) }
        ensures groups { caps.new.groups ≡ caps.old.groups }
        ensures slot_len { length caps.new.slots ≡ length caps.old.slots }
        ensures no_answer { OnErr result (caps.new.pattern ≡ None) }
        ensures made { IsCacheOf (regex_of self.now) cache.new }
        ensures same { (start : ℕ) × StartsFrom input.old input.new start }
        ensures refused { IfErr result (λ error. error ≡ MatchError.Memory) }
    {
        caps.set_pattern(None);
        let found = self.next_slots(cache, input, caps.slots_mut(), last_match_end)?;
        caps.set_pattern(found);
        Ok(())
    }
}
