//! Prefilters: a few literals that are scanned for before an engine runs.

ghost use Rattle.std.specs.Prelude.{◌≡◌, ◌≤◌, ◌<◌, ◌↔◌, ℕ, All, IfErr, IfOk, IsTrue, List, MatchOption, [], ◌∷◌, length, map};
ghost use Rattle.rx_util.specs.declared.search.MatchError.{MatchError};
ghost use Rattle.rx_literals.specs.Needles.{AreNeedles, FoundAt, FoundBetween, IsNeedle};
ghost use Rattle.rx_literals.specs.FirstBytes.{BeginAmong};
ghost use Rattle.rx_literals.specs.NeedleTables.{BeginInTable};
ghost use Rattle.rx_literals.specs.Prefilters.{SearchesNeedles, AreParts};

use crate::first_bytes::FirstBytes;
use crate::needle_table::NeedleTable;
use memchr::arch::all::is_prefix;
use memchr::memchr;
use memchr::memmem::Finder;
use rx_util::{MatchError, MatchKind, Span};
use std::alloc::{AllocError, Global};
use std::marker::Model;
use std::rc::Rc;

/// The maximum number of needles of a prefilter.
const NEEDLES: usize = 16;

/// The maximum number of bytes of a needle.
const NEEDLE_LEN: usize = 64;

/// How to search for needles in one chunk.
#[derive(Debug, Drop)]
pub(crate) enum Searcher {
    /// There is one, of one byte.
    Byte(u8),
    /// There is one.
    One(Finder<'static>),
    /// There may be more, and they begin with few different bytes.
    First(FirstBytes),
    /// There may be more, and each has three bytes or more.
    Table(NeedleTable),
    /// There may be more: each offset is tried.
    Several,
}

/// The needles, and how to search for them.
#[derive(Debug, Drop)]
pub(crate) struct Parts {
    needles: Vec<Vec<u8>>,
    // An upper bound on the length of the needles.
    longest: usize,
    searcher: Searcher,
}

impl Model for Parts {
    ghost use Rattle.std.specs.Prelude.{ℕ, List, map};
    ghost use Rattle.rx_literals.specs.Prefilters.{AreParts};

    ghost Value = { List (List ℕ) };

    ghost view = { λ p. map (λ needle. needle.items) p.needles.items };

    ghost invariant = { λ p. AreParts (map (λ needle. needle.items) p.needles.items) p.longest
        p.searcher };
}

/// Returns whether a prefilter may have this needle.
fn is_needle(needle: &[u8]) -> bool
    ensures { IsTrue result ↔ IsNeedle needle.now }
{
    !needle.is_empty() && needle.len() <= NEEDLE_LEN
}

/// Returns whether a prefilter may have these needles.
fn are_needles(needles: &[&[u8]]) -> bool
    ensures { IsTrue result ↔ AreNeedles (map (λ needle. needle.now) needles.now) }
{
    if needles.is_empty() || needles.len() > NEEDLES {
        return false;
    }
    for needle in needles {
        if !is_needle(needle) {
            return false;
        }
    }
    true
}

/// Returns copies of the needles.
fn copied(alloc: Global, needles: &[&[u8]]) -> Result<Vec<Vec<u8>>, AllocError>
    ensures { IfOk result (λ copies. map (λ copy. copy.items) copies.items
        ≡ map (λ needle. needle.now) needles.now) }
{
    let mut copies = Vec::new(alloc);
    for needle in needles {
        copies.push(Vec::from_slice(alloc, needle)?)?;
    }
    Ok(copies)
}

/// Returns an upper bound on the length of the needles.
fn longest_of(needles: &[&[u8]]) -> usize
    ensures longest { All (λ needle. length needle ≤ result)
        (map (λ needle. needle.now) needles.now) }
    ensures some { 1 ≤ result }
{
    let mut longest = 1;
    for needle in needles {
        longest = needle.len().max(longest);
    }
    longest
}

/// Returns the searcher for one needle.
fn searcher_of_one(alloc: Global, needle: &[u8]) -> Result<Searcher, AllocError>
    ensures { IfOk result (λ searcher. SearchesNeedles searcher (needle.now ∷ [])) }
{
    if needle.len() == 1 {
        return Ok(Searcher::Byte(needle[0]));
    }
    Ok(Searcher::One(Finder::new(needle).into_owned(alloc)?))
}

/// Returns the searcher for needles that begin with many different bytes, or with common ones.
fn searcher_by_table(needles: &[&[u8]]) -> Searcher
    ensures { SearchesNeedles result (map (λ needle. needle.now) needles.now) }
{
    match NeedleTable::of(needles) {
        Some(table) => Searcher::Table(table),
        None => Searcher::Several,
    }
}

/// Returns the searcher for needles that begin with few bytes.
fn searcher_by_first(first: FirstBytes, needles: &[&[u8]]) -> Searcher
    requires { BeginAmong first (map (λ needle. needle.now) needles.now) }
    ensures { SearchesNeedles result (map (λ needle. needle.now) needles.now) }
{
    if !first.pay_for(needles.len()) {
        if let Some(table) = NeedleTable::of(needles) {
            return Searcher::Table(table);
        }
    }
    Searcher::First(first)
}

/// Returns the searcher for the needles.
fn searcher_of(alloc: Global, needles: &[&[u8]]) -> Result<Searcher, AllocError>
    ensures { IfOk result (λ searcher. SearchesNeedles searcher
        (map (λ needle. needle.now) needles.now)) }
{
    if needles.len() == 1 {
        return searcher_of_one(alloc, needles[0]);
    }
    match FirstBytes::of(needles) {
        Some(first) => Ok(searcher_by_first(first, needles)),
        None => Ok(searcher_by_table(needles)),
    }
}

/// Returns the first occurrence of a byte in `hay`.
#[inline(always)]
fn find_byte(byte: u8, hay: &[u8]) -> Option<Span>
    ensures { FoundBetween hay.now ((byte ∷ []) ∷ []) 0 (length hay.now) result }
{
    match memchr(byte, hay) {
        Some(start) => Some(Span {
            start,
            end: start + 1,
        }),
        None => None,
    }
}

/// Returns the first occurrence of a needle, which mustn't be empty, in `hay`.
fn find_one(finder: &Finder<'static>, hay: &[u8]) -> Option<Span>
    requires { 1 ≤ length finder.now }
    ensures { FoundBetween hay.now (finder.now ∷ []) 0 (length hay.now) result }
{
    match finder.find(hay) {
        Some(start) => Some(Span {
            start,
            end: start + finder.needle().len(),
        }),
        None => None,
    }
}

impl Parts {
    /// Returns the parts of a prefilter with these needles, which must be allowed.
    fn new(alloc: Global, needles: &[&[u8]]) -> Result<Parts, AllocError>
        requires { AreNeedles (map (λ needle. needle.now) needles.now) }
        ensures { IfOk result (λ parts. parts ≡ map (λ needle. needle.now) needles.now) }
    {
        let searcher = searcher_of(alloc, needles)?;
        Ok(Parts {
            needles: copied(alloc, needles)?,
            longest: longest_of(needles),
            searcher,
        })
    }

    /// Returns the occurrence at an offset of `hay` of the first needle that occurs there.
    fn find_at(&self, hay: &[u8], at: usize) -> Option<Span>
        requires { at < length hay.now }
        ensures { FoundAt hay.now at self.now result }
    {
        for needle in &self.needles {
            if is_prefix(&hay[at..], needle) {
                return Some(Span {
                    start: at,
                    end: at + needle.len(),
                });
            }
        }
        None
    }

    /// Returns the first occurrence of a needle in `hay`, by trying each offset.
    fn try_each(&self, hay: &[u8]) -> Option<Span>
        ensures { FoundBetween hay.now self.now 0 (length hay.now) result }
    {
        for at in 0..hay.len() {
            if let Some(span) = self.find_at(hay, at) {
                return Some(span);
            }
        }
        None
    }

    /// Returns the first occurrence of a needle in `hay`, by trying the offsets of the bytes that
    /// the needles begin with.
    fn try_first(&self, first: &FirstBytes, hay: &[u8]) -> Option<Span>
        requires { BeginAmong first.now self.now }
        ensures { FoundBetween hay.now self.now 0 (length hay.now) result }
    {
        let mut from = 0;
        while let Some(at) = first.find_from(hay, from) {
            if let Some(found) = self.find_at(hay, at) {
                return Some(found);
            }
            from = at + 1;
        }
        None
    }

    /// Returns the first occurrence of a needle in `hay`, by trying the offsets at which the table
    /// has the next three bytes.
    fn try_table(&self, table: &NeedleTable, hay: &[u8]) -> Option<Span>
        requires { BeginInTable table.now self.now }
        ensures { FoundBetween hay.now self.now 0 (length hay.now) result }
    {
        let mut next = 0;
        while let Some(at) = table.find_from(hay, next) {
            match self.find_at(hay, at) {
                Some(found) => return Some(found),
                None => next = at + 1,
            }
        }
        None
    }

    /// A law, for the proof only: a prefilter may have these needles.
    fn needles_are_lawful(&self)
        ensures { AreNeedles self.now }
    {
        let _needles = &self.needles;
    }

    /// Returns the least offset of `hay` at which a needle occurs, and the first needle that does
    /// there.
    #[inline(always)]
    fn find(&self, hay: &[u8]) -> Option<Span>
        ensures { FoundBetween hay.now self.now 0 (length hay.now) result }
    {
        match &self.searcher {
            Searcher::Byte(byte) => find_byte(*byte, hay),
            Searcher::One(finder) => find_one(finder, hay),
            Searcher::First(first) => self.try_first(first, hay),
            Searcher::Table(table) => self.try_table(table, hay),
            Searcher::Several => self.try_each(hay),
        }
    }
}

/// Literals that are scanned for before an engine runs: at most 16 needles, in order, each of 1 to
/// 64 bytes. Contracts see the needles.
#[derive(Debug, Drop)]
pub struct Prefilter {
    parts: Rc<Parts>,
}

impl Model for Prefilter {
    ghost use Rattle.std.specs.Prelude.{ℕ, List};

    ghost Value = { List (List ℕ) };

    ghost view = { λ p. p.parts.value };
}

impl Prefilter {
    /// Returns a prefilter of these needles, or `None` if there is no needle, an empty one, more
    /// than 16, or one of more than 64 bytes. What it finds doesn't depend on the match kind.
    ///
    /// # Errors
    ///
    /// Out of memory.
    ///
    /// # Complexity
    ///
    /// `O(n)` in the bytes of the needles.
    pub fn new(
        alloc: Global,
        _kind: MatchKind,
        needles: &[&[u8]],
    ) -> Result<Option<Prefilter>, AllocError>
        ensures { IfOk result (λ made. MatchOption made
            (AreNeedles (map (λ needle. needle.now) needles.now) → ⊥)
            (λ prefilter. prefilter ≡ map (λ needle. needle.now) needles.now)) }
    {
        if !are_needles(needles) {
            return Ok(None);
        }
        let parts = Rc::new(alloc, Parts::new(alloc, needles)?)?;
        Ok(Some(Prefilter { parts }))
    }

    /// Returns a prefilter that shares the needles. The only error is `Memory`. `O(1)`.
    pub fn clone(&self) -> Result<Prefilter, MatchError>
        ensures same { IfOk result (λ prefilter. prefilter ≡ self.now) }
        ensures refused { IfErr result (λ error. error ≡ MatchError.Memory) }
    {
        Ok(Prefilter {
            parts: self.parts.clone()?,
        })
    }

    /// A law, for the proof only: a prefilter may have these needles.
    pub fn needles_are_lawful(&self)
        ensures { AreNeedles self.now }
    {
        self.parts.needles_are_lawful();
    }

    /// Returns an upper bound on the length of the needles.
    pub(crate) fn max_needle_len(&self) -> usize
        ensures longest { All (λ needle. length needle ≤ result) self.now }
        ensures some { 1 ≤ result }
    {
        self.parts.longest
    }

    /// Returns the needles, in their order.
    pub(crate) fn needles(&self) -> &[Vec<u8>]
        ensures needles { map (λ needle. needle.items) result.now ≡ self.now }
        ensures are { AreNeedles self.now }
    {
        &self.parts.needles
    }

    /// Returns the least offset of `hay` at which a needle occurs, and the first needle that does
    /// there.
    #[inline(always)]
    pub(crate) fn find_in(&self, hay: &[u8]) -> Option<Span>
        ensures { FoundBetween hay.now self.now 0 (length hay.now) result }
    {
        self.parts.find(hay)
    }
}
