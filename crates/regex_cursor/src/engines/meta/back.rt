//! Backward searches from where a match ends to where it starts.

ghost use Rattle.std.specs.Prelude.{◌≡◌, ◌+◌, ◌≤◌, IfErr, IfOk, IfSome, None, length, min};
ghost use Rattle.rx_util.specs.declared.search.Anchored.TheVariants.{No};
ghost use Rattle.rx_util.specs.declared.search.MatchError.{MatchError};
ghost use Rattle.rx_input.specs.Cursors.{IsSameContent};
ghost use Rattle.rx_walks.specs.Backward.{back_from};
ghost use Rattle.rx_program.specs.Programs.{ByteProgram, character_program};
ghost use Rattle.rx_literals.specs.Endings.{EndsWithSlice};
ghost use Rattle.rx_dfa.specs.Alphabets.{IsAlphabetBack};
ghost use Rattle.rx_dfa.specs.BackCaches.{IsBackCacheOf};
ghost use Rattle.rx_steps.specs.Reversed.{IsHalfAnswerBack, IsReverseOf};
ghost use Rattle.rx_steps.specs.Searching.{search_of};
ghost use Rattle.regex_cursor.specs.Backs.{EndsLast, IsWhole};
ghost use Rattle.regex_cursor.specs.Strategies.{IsLeft};

use super::config::Config;
use super::left::Left;
use rx_chunk::pikevm::PikeVM;
use rx_dfa::{Alphabet, BackCache, search_back};
use rx_input::{Cursor, Input};
use rx_matches::halves::{turn_back, turn_forward, whole};
use rx_program::ReverseProgram;
use rx_program::laws::{programs_are_above_patterns, programs_keep_patterns};
use rx_util::{HalfMatch, Match, MatchError, PatternID};
use std::alloc::AllocError;
use std::marker::Model;

/// Returns the reversed program of a PikeVM.
fn turned(vm: &PikeVM) -> Result<ReverseProgram, AllocError>
    ensures { IfOk result (IsReverseOf vm.now.program) }
{
    // Laws, for the proof only.
    programs_are_above_patterns();
    programs_keep_patterns();
    let reverse = vm.program().reversed()?;
    Ok(reverse)
}

/// A reversed program with its automaton, and what searches with it keep. Contracts see the
/// program.
#[derive(Debug, Drop)]
pub(super) struct Back {
    reverse: ReverseProgram,
    dfa: Alphabet,
    cache: BackCache,
    // What searches keep that only follow threads, once a regex without `hybrid` searched backward.
    walks: Option<BackCache>,
}

impl Model for Back {
    ghost use Rattle.std.specs.Prelude.{IfSome};
    ghost use Rattle.rx_program.specs.Reversed.{ReverseByteProgram};
    ghost use Rattle.rx_dfa.specs.Alphabets.{IsAlphabetBack};
    ghost use Rattle.rx_dfa.specs.BackCaches.{IsBackCacheOf};

    ghost Value = { ReverseByteProgram };

    ghost view = { λ b. b.reverse };

    ghost invariant = { λ b. IsAlphabetBack b.reverse b.dfa
        × IsBackCacheOf b.reverse b.dfa b.cache
        × IfSome b.walks (IsBackCacheOf b.reverse b.dfa) };
}

/// Takes the cache of searches that only follow threads, or makes it. The only error is `Memory`.
fn taken_or_made(
    walks: &mut Option<BackCache>,
    reverse: &ReverseProgram,
    dfa: &Alphabet,
) -> Result<BackCache, MatchError>
    requires alphabet { IsAlphabetBack reverse.now dfa.now }
    requires kept { IfSome walks.old (IsBackCacheOf reverse.now dfa.now) }
    ensures made { IfOk result (IsBackCacheOf reverse.now dfa.now) }
    ensures taken { walks.new ≡ None }
    ensures refused { IfErr result (λ error. error ≡ MatchError.Memory) }
{
    if let Some(cache) = walks.take() {
        return Ok(cache);
    }
    let mut cache = BackCache::new(reverse.allocator(), reverse, dfa)?;
    cache.walk_alone();
    Ok(cache)
}

/// Searches backward with a reversed program from the end of a match, in an input that isn't
/// anchored. The only error is `Memory`.
fn search_from<C: Cursor>(
    reverse: &ReverseProgram,
    dfa: &Alphabet,
    cache: &mut BackCache,
    input: &mut Input<C>,
    utf8_empty: bool,
    end: usize,
) -> Result<Option<HalfMatch>, MatchError>
    requires alphabet { IsAlphabetBack reverse.now dfa.now }
    requires made { IsBackCacheOf reverse.now dfa.now cache.old }
    requires unanchored { input.old.asked.anchored ≡ No }
    requires end { input.old.asked.span.start ≤ end + 1 }
    requires span { input.old.asked.span.start ≤ input.old.asked.span.end + 1 }
    ensures answer { IfOk result (λ found. (p : ByteProgram) → IsReverseOf p reverse.now
        → IsHalfAnswerBack p (back_from (search_of utf8_empty input.old) end) found) }
    ensures made { IsBackCacheOf reverse.now dfa.now cache.new }
    ensures same { IsSameContent input.old.cursor input.new.cursor }
    ensures asked { input.new.asked ≡ input.old.asked }
    ensures refused { IfErr result (λ error. error ≡ MatchError.Memory) }
{
    let last = turn_back(input, end);
    let back = search_back(reverse, dfa, cache, input, utf8_empty);
    turn_forward(input, last);
    back
}

/// Moves an input to the end of its span, and one byte further on if slice and haystack continue
/// there.
fn enter_behind<C: Cursor>(input: &mut Input<C>) -> usize
    ensures place { result ≡ min (input.old.asked.span.end + 1)
        (min input.old.asked.slice.end (length input.old.cursor.content)) }
    ensures same { IsSameContent input.old.cursor input.new.cursor }
    ensures asked { input.new.asked ≡ input.old.asked }
{
    let behind = input.end().saturating_add(1);
    input.move_to(behind.min(input.get_slice().end));
    input.position()
}

impl Back {
    /// Reverses the program of a PikeVM. Its automaton has as much room for its states as that of
    /// the program. The only error is `Memory`.
    pub(super) fn of(vm: &PikeVM, config: &Config) -> Result<Back, MatchError>
        ensures program { IfOk result (IsReverseOf vm.now.program) }
        ensures refused { IfErr result (λ error. error ≡ MatchError.Memory) }
    {
        let reverse = turned(vm)?;
        let alloc = reverse.allocator();
        let dfa = Alphabet::new_back(alloc, &reverse, config.get_hybrid_cache_capacity())?;
        let cache = BackCache::new(alloc, &reverse, &dfa)?;
        Ok(Back {
            reverse,
            dfa,
            cache,
            walks: None,
        })
    }

    /// Searches backward from the end of a match, in an input that isn't anchored: by the
    /// automaton, or by following threads only if `hybrid` is off. The only error is `Memory`.
    fn search<C: Cursor>(
        &mut self,
        input: &mut Input<C>,
        utf8_empty: bool,
        end: usize,
        hybrid: bool,
    ) -> Result<Option<HalfMatch>, MatchError>
        requires unanchored { input.old.asked.anchored ≡ No }
        requires end { input.old.asked.span.start ≤ end + 1 }
        requires span { input.old.asked.span.start ≤ input.old.asked.span.end + 1 }
        ensures answer { IfOk result (λ found. (p : ByteProgram) → IsReverseOf p self.old
            → IsHalfAnswerBack p (back_from (search_of utf8_empty input.old) end) found) }
        ensures program { self.new ≡ self.old }
        ensures same { IsSameContent input.old.cursor input.new.cursor }
        ensures asked { input.new.asked ≡ input.old.asked }
        ensures refused { IfErr result (λ error. error ≡ MatchError.Memory) }
    {
        if hybrid {
            let cache = &mut self.cache;
            return search_from(&self.reverse, &self.dfa, cache, input, utf8_empty, end);
        }
        self.walk_back(input, utf8_empty, end)
    }

    // By following threads only. Outlined, because a function pays for the room of a cache at each
    // call.
    fn walk_back<C: Cursor>(
        &mut self,
        input: &mut Input<C>,
        utf8_empty: bool,
        end: usize,
    ) -> Result<Option<HalfMatch>, MatchError>
        requires unanchored { input.old.asked.anchored ≡ No }
        requires end { input.old.asked.span.start ≤ end + 1 }
        requires span { input.old.asked.span.start ≤ input.old.asked.span.end + 1 }
        ensures answer { IfOk result (λ found. (p : ByteProgram) → IsReverseOf p self.old
            → IsHalfAnswerBack p (back_from (search_of utf8_empty input.old) end) found) }
        ensures program { self.new ≡ self.old }
        ensures same { IsSameContent input.old.cursor input.new.cursor }
        ensures asked { input.new.asked ≡ input.old.asked }
        ensures refused { IfErr result (λ error. error ≡ MatchError.Memory) }
    {
        let mut walks = taken_or_made(&mut self.walks, &self.reverse, &self.dfa)?;
        let back = search_from(&self.reverse, &self.dfa, &mut walks, input, utf8_empty, end);
        self.walks = Some(walks);
        back
    }

    /// Returns the match found in an input that isn't anchored, given that it ends where the span
    /// does, and its pattern. Uses the automaton, or only follows threads if `hybrid` is off. The
    /// only error is `Memory`.
    pub(super) fn whole_match<C: Cursor>(
        &mut self,
        input: &mut Input<C>,
        utf8_empty: bool,
        pattern: PatternID,
        hybrid: bool,
    ) -> Result<Option<Match>, MatchError>
        requires ordered { input.old.asked.span.start ≤ input.old.asked.span.end }
        requires unanchored { input.old.asked.anchored ≡ No }
        ensures whole { IfOk result (λ found. (p : ByteProgram) → IsReverseOf p self.old
            → EndsLast p utf8_empty input.old pattern
            → IfSome found (λ m. IsWhole p utf8_empty input.old m)) }
        ensures pattern { IfOk result (λ found. IfSome found (λ m. m.pattern ≡ pattern)) }
        ensures program { self.new ≡ self.old }
        ensures same { IsSameContent input.old.cursor input.new.cursor }
        ensures asked { input.new.asked ≡ input.old.asked }
        ensures refused { IfErr result (λ error. error ≡ MatchError.Memory) }
    {
        let end = input.end();
        let half = HalfMatch::new(pattern, end);
        match self.search(input, utf8_empty, end, hybrid)? {
            Some(back) if back.offset() <= end => Ok(Some(whole(half, back.offset()))),
            _ => Ok(None),
        }
    }

    /// Returns what is left of a search in an input that isn't anchored, for a program whose
    /// matches all end at the slice's end, or at the haystack's if that is less. If the span ends
    /// before that, there is no match; otherwise the automaton searches backward from there.
    /// Returns `None` if the span continues after it, and if searches only follow threads, because
    /// the forward automaton is faster than that. The only error is `Memory`.
    pub(super) fn search_last<C: Cursor>(
        &mut self,
        input: &mut Input<C>,
        utf8_empty: bool,
    ) -> Result<Option<Left>, MatchError>
        requires ordered { input.old.asked.span.start ≤ input.old.asked.span.end }
        requires unanchored { input.old.asked.anchored ≡ No }
        ensures left { IfOk result (λ told. (p : ByteProgram) → IsReverseOf p self.old
            → EndsWithSlice (character_program p)
            → IfSome told (IsLeft p (search_of utf8_empty input.old))) }
        ensures program { self.new ≡ self.old }
        ensures same { IsSameContent input.old.cursor input.new.cursor }
        ensures asked { input.new.asked ≡ input.old.asked }
        ensures refused { IfErr result (λ error. error ≡ MatchError.Memory) }
    {
        if self.cache.walks_alone() {
            return Ok(None);
        }
        let end = input.end();
        let place = enter_behind(input);
        if place > end {
            return Ok(Some(Left::Nothing));
        }
        if place < end {
            return Ok(None);
        }
        match self.search(input, utf8_empty, end, true)? {
            Some(back) if back.offset() <= end => {
                let half = HalfMatch::new(back.pattern(), end);
                Ok(Some(Left::Found(whole(half, back.offset()))))
            }
            Some(_) => Ok(None),
            None => Ok(Some(Left::Nothing)),
        }
    }
}
