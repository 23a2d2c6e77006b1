//! Backward searches with the automaton of a reverse program, and by following its threads if that
//! quits or gives up, or doesn't pay.

ghost use Rattle.std.specs.Prelude.{◌≡◌, IsTrue, IfErr, IfOk, OnOk};
ghost use Rattle.rx_util.specs.declared.search.MatchError.{MatchError};
ghost use Rattle.rx_input.specs.Cursors.{IsSameContent};
ghost use Rattle.rx_walks.specs.Finds.{is_anchored};
ghost use Rattle.rx_program.specs.Programs.{ByteProgram};
ghost use Rattle.rx_steps.specs.Reversed.{IsHalfAnswerBack, IsRefusalBack, IsReverseOf};
ghost use Rattle.rx_steps.specs.Searching.{anchoring_of, search_of};
ghost use Rattle.rx_dfa.specs.Alphabets.{IsAlphabetBack};
ghost use Rattle.rx_dfa.specs.BackCaches.{IsBackCacheOf};

use crate::alphabet::Alphabet;
use crate::back::try_search_back;
use crate::cache::Cache;
use rx_input::{Cursor, Input};
use rx_program::ReverseProgram;
use rx_steps::{ReverseCache, search_rev};
use rx_util::{HalfMatch, MatchError};
use std::alloc::Global;
use std::marker::Model;

/// What backward searches with a reverse program keep between searches: the states of its automaton
/// that they reached, and room for following threads. Contracts see both.
#[derive(Debug)]
pub struct BackCache {
    states: Cache,
    room: ReverseCache,
    // Whether the caller chose to follow threads without the automaton.
    is_alone: bool,
    // How many bytes searches read, with the automaton or without.
    read: usize,
}

// Written out, so that crates above needn't prove how the fields are dropped.
impl Drop for BackCache {
    fn drop(self) {
        let BackCache {
            states: _states,
            room: _room,
            is_alone: _is_alone,
            read: _read,
        } = self;
    }
}

impl Model for BackCache {
    ghost use Rattle.rx_dfa.specs.BackCaches.{BackCacheView};

    ghost Value = { BackCacheView };

    ghost view = { λ c. record { states = c.states; room = c.room } };
}

impl BackCache {
    /// Returns a cache for backward searches with a program.
    ///
    /// # Errors
    ///
    /// `Memory`.
    ///
    /// # Complexity
    ///
    /// Memory proportional to the program's states and those of their automata; and about the
    /// capacity of the alphabet as searches reach states.
    pub fn new(
        alloc: Global,
        reverse: &ReverseProgram,
        alphabet: &Alphabet,
    ) -> Result<BackCache, MatchError>
        ensures made { IfOk result (IsBackCacheOf reverse.now alphabet.now) }
        ensures refused { IfErr result (λ error. error ≡ MatchError.Memory) }
    {
        Ok(BackCache {
            states: Cache::new_back(alloc, reverse, alphabet)?,
            room: ReverseCache::new(alloc, reverse)?,
            is_alone: false,
            read: 0,
        })
    }

    /// Returns a copy with all known states, which takes as much memory as the cache.
    ///
    /// # Errors
    ///
    /// `Memory`.
    pub fn clone(&self) -> Result<BackCache, MatchError>
        ensures same { IfOk result (λ cache. cache ≡ self.now) }
        ensures refused { IfErr result (λ error. error ≡ MatchError.Memory) }
    {
        Ok(BackCache {
            states: self.states.clone()?,
            room: self.room.clone()?,
            is_alone: self.is_alone,
            read: self.read,
        })
    }

    /// Makes searches follow threads without the automaton from now on.
    pub fn walk_alone(&mut self)
        ensures { self.new ≡ self.old }
    {
        self.is_alone = true;
    }

    /// Returns whether the next search follows threads without the automaton: always after
    /// `walk_alone`, and otherwise as long as its states were cleared too often for the bytes that
    /// searches read.
    pub fn walks_alone(&self) -> bool {
        self.is_alone || !self.states.pays(self.read)
    }

    /// Counts the bytes of a search that has moved the input from the end of its span to its
    /// position; none if the span has no end.
    fn note_read<C: Cursor>(&mut self, input: &Input<C>)
        ensures { self.new ≡ self.old }
    {
        let end = input.end();
        if end < usize::MAX {
            let bytes = end.saturating_sub(input.position());
            self.read = self.read.saturating_add(bytes);
        }
    }

    /// Returns the approximate number of bytes of the automaton's states: their nodes, their rows
    /// of the table, and other data of each.
    pub fn memory_usage(&self) -> usize
        ensures { result ≡ self.now.states.used }
    {
        self.states.memory_usage()
    }
}

/// Searches backward with a reverse program. Of the matches that end at the end of the span, or of
/// the haystack if that is less, and are inside span and slice, returns the least start with the
/// least pattern for it, as the forward program finds them. `utf8_empty` skips an empty match
/// inside a character.
///
/// It uses the automaton, and follows threads if that quits or gives up, or if its states were
/// cleared too often for the bytes that searches read.
///
/// # Requires
///
/// The cache is for this program and alphabet, for which it remains one, also after an error.
///
/// # Errors
///
/// `UnsupportedAnchored` if the input isn't anchored; `Memory`.
///
/// # Complexity
///
/// Reads from the end of the span to its start, or until no thread is left.
pub fn search_back<C: Cursor>(
    reverse: &ReverseProgram,
    alphabet: &Alphabet,
    cache: &mut BackCache,
    input: &mut Input<C>,
    utf8_empty: bool,
) -> Result<Option<HalfMatch>, MatchError>
    requires alphabet { IsAlphabetBack reverse.now alphabet.now }
    requires made { IsBackCacheOf reverse.now alphabet.now cache.old }
    ensures answer { IfOk result (λ found. (p : ByteProgram) → IsReverseOf p reverse.now
        → IsHalfAnswerBack p (search_of utf8_empty input.old) found) }
    ensures anchored { OnOk result
        (IsTrue (is_anchored (anchoring_of input.old.asked.anchored))) }
    ensures made { IsBackCacheOf reverse.now alphabet.now cache.new }
    ensures same { IsSameContent input.old.cursor input.new.cursor }
    ensures asked { input.new.asked ≡ input.old.asked }
    ensures refused { IfErr result (IsRefusalBack (search_of utf8_empty input.old)) }
{
    if !cache.walks_alone() {
        match try_search_back(reverse, alphabet, &mut cache.states, input, utf8_empty) {
            Ok(found) => {
                cache.note_read(input);
                return Ok(found);
            }
            Err(MatchError::Memory) => return Err(MatchError::Memory),
            Err(_) => {}
        }
    }
    let answer = search_rev(reverse, &mut cache.room, input, utf8_empty);
    cache.note_read(input);
    answer
}
