//! Groups of patterns, their slots, and the spans that a search stores in them.

ghost use Rattle.std.specs.Prelude.{ℕ, ◌≡◌, [], ◌+◌, ◌*◌, ◌^◌, ◌<◌, ◌≤◌, ◌↔◌, length, replicate, Option, Some, None, IsTrue, IsSome, IfOk, IfErr, IfSome, MatchOption, option_map, slice_get, string_bytes};
ghost use Rattle.std.specs.Option.{option_copied, ForSome};
ghost use Rattle.rx_util.specs.declared.search.MatchError.{MatchError};
ghost use Rattle.rx_util.specs.Groups.{names_of, named_groups, name_among, group_len, name_of, HasDistinctNames, slot_len, first_slot, noted_groups};

use crate::primitives::{NonMaxUsize, PatternID};
use crate::search::{Match, MatchError, Span};
use std::alloc::{AllocError, Global};
use std::marker::Model;
use std::rc::Rc;

/// Which groups a program captures. Groups keep the numbers and names that they have in the
/// pattern.
#[derive(Clone, Copy, Debug, PartialEq, Eq, Hash)]
pub enum WhichCaptures {
    /// All groups.
    All,
    /// Only group 0, the whole match.
    Implicit,
    /// The same as `Implicit`.
    None,
}

/// The groups of patterns and the layout of their slots.
#[derive(Debug, Drop)]
struct GroupInfoInner {
    /// By pattern, the names of its groups from group 1 on.
    names: Vec<Vec<Option<String>>>,
    /// By pattern, the first slot of its group 1, or where that would be.
    starts: Vec<usize>,
    /// The number of slots.
    slot_len: usize,
}

/// Returns whether the group has this name.
fn is_named(group: &Option<String>, name: &str) -> bool
    ensures { IsTrue result ↔ (option_map string_bytes group.now ≡ Some name.now) }
{
    match group {
        Some(own) => own.as_str() == name,
        None => false,
    }
}

/// Returns the number of the group with this name, given the groups from group 1 on.
fn group_named(groups: &[Option<String>], name: &str) -> Option<usize>
    ensures { MatchOption result
        ((g : ℕ) → name_among (names_of groups.now) g ≡ Some name.now → ⊥)
        (λ g. name_among (names_of groups.now) g ≡ Some name.now) }
{
    for (k, group) in groups.iter().enumerate() {
        if is_named(group, name) {
            return Some(k + 1);
        }
    }
    None
}

/// Returns the name of a group.
fn text_of(group: &Option<String>) -> Option<&str>
    ensures { option_copied result ≡ option_map string_bytes group.now }
{
    match group {
        Some(name) => Some(name),
        None => None,
    }
}

/// Returns the name of a group, given the groups from group 1 on.
fn name_of_group(groups: &[Option<String>], group: usize) -> Option<&str>
    ensures { option_copied result ≡ name_among (names_of groups.now) group }
{
    if group == 0 || group > groups.len() {
        return None;
    }
    text_of(&groups[group - 1])
}

/// The groups of patterns: their number, their names, and the slots in which a search stores their
/// spans. Contracts see, for each pattern, the names of its groups from group 1 on.
///
/// Group 0 is the whole match and has no name. Each group has two slots, one for the start and one
/// for the end. The slots of the groups 0 come first, pattern by pattern, then those of the other
/// groups, pattern by pattern. A clone shares the data, in `O(1)`.
#[derive(Debug, Drop)]
pub struct GroupInfo {
    inner: Rc<GroupInfoInner>,
}

impl Model for GroupInfo {
    ghost use Rattle.rx_util.specs.Groups.{GroupNames, named_groups};
    ghost use Rattle.rx_util.specs.Slots.{IsLaidOut};

    ghost Value = { GroupNames };

    ghost view = { λ info. named_groups info.inner.value.names.items };

    ghost invariant = { λ info. IsLaidOut (named_groups info.inner.value.names.items)
        info.inner.value.starts.items info.inner.value.slot_len };
}

impl Clone for GroupInfo {
    ghost is_clone = { λ info copy. copy ≡ info };

    fn clone(&self) -> Result<GroupInfo, AllocError> {
        let inner = self.inner.clone()?;
        Ok(GroupInfo { inner })
    }
}

/// Returns the number of slots with those of more groups, or `None` if it exceeds `usize::MAX`.
fn slots_after(slots: usize, groups: usize) -> Option<usize>
    ensures { IfSome result (λ more. (more ≡ slots + 2 * groups) × (more < 2 ^ 64)) }
{
    slots.checked_add(groups.checked_mul(2)?)
}

/// Returns the names of `count` patterns that have only group 0.
fn without_further_groups(
    alloc: Global,
    count: usize,
) -> Result<Vec<Vec<Option<String>>>, AllocError>
    ensures { IfOk result (λ names. named_groups names.items ≡ replicate count []) }
{
    let mut names = Vec::new(alloc);
    for _ in 0..count {
        names.push(Vec::new(alloc))?;
    }
    Ok(names)
}

impl GroupInfo {
    /// Returns the groups that are captured: all of them, or only the groups 0 for `Implicit` and
    /// `None`. `O(n)` in the number of patterns.
    ///
    /// # Requires
    ///
    /// As [`new`](Self::new).
    ///
    /// # Errors
    ///
    /// As [`new`](Self::new).
    pub fn noted(
        alloc: Global,
        which: WhichCaptures,
        names: Vec<Vec<Option<String>>>,
    ) -> Result<GroupInfo, AllocError>
        requires distinct { HasDistinctNames (named_groups names.items) }
        ensures { IfOk result (λ info. info ≡ noted_groups which (named_groups names.items)) }
    {
        match which {
            WhichCaptures::All => GroupInfo::new(alloc, names),
            WhichCaptures::Implicit | WhichCaptures::None => {
                GroupInfo::new(alloc, without_further_groups(alloc, names.len())?)
            }
        }
    }

    /// Returns the groups of patterns, given for each pattern the names of its groups from group 1
    /// on. `O(n)` in the number of patterns.
    ///
    /// # Requires
    ///
    /// No two groups of a pattern have the same name.
    ///
    /// # Errors
    ///
    /// Out of memory, also if the number of slots exceeds `usize::MAX`.
    pub fn new(alloc: Global, names: Vec<Vec<Option<String>>>) -> Result<GroupInfo, AllocError>
        requires distinct { HasDistinctNames (named_groups names.items) }
        ensures { IfOk result (λ info. info ≡ named_groups names.items) }
    {
        let mut starts = Vec::new(alloc);
        let Some(mut slot_len) = slots_after(0, names.len()) else {
            return Err(AllocError);
        };
        for pattern in &names {
            starts.push(slot_len)?;
            let Some(more) = slots_after(slot_len, pattern.len()) else {
                return Err(AllocError);
            };
            slot_len = more;
        }
        let inner = Rc::new(
            alloc,
            GroupInfoInner {
                names,
                starts,
                slot_len,
            },
        )?;
        Ok(GroupInfo { inner })
    }

    /// Returns the names of a pattern's groups from group 1 on.
    fn further_names(&self, pid: PatternID) -> Option<&[Option<String>]>
        ensures names { option_map (λ names. names_of names.now) result ≡ slice_get self.now pid }
        ensures distinct { HasDistinctNames self.now }
    {
        let names = self.inner.names.get(pid.as_usize())?;
        Some(names)
    }

    /// Returns the number of patterns. `O(1)`.
    pub fn pattern_len(&self) -> usize
        ensures { result ≡ length self.now }
    {
        self.inner.names.len()
    }

    /// Returns the number of a pattern's groups, including group 0, or 0 if there is no such
    /// pattern. `O(1)`.
    pub fn group_len(&self, pid: PatternID) -> usize
        ensures { result ≡ group_len self.now pid }
    {
        match self.further_names(pid) {
            Some(names) => names.len() + 1,
            None => 0,
        }
    }

    /// Returns the number of slots. `O(1)`.
    pub fn slot_len(&self) -> usize
        ensures { result ≡ slot_len self.now }
    {
        self.inner.slot_len
    }

    /// Returns the number of slots of the groups 0, which come first. `O(1)`.
    pub fn implicit_slot_len(&self) -> usize
        ensures len { result ≡ 2 * length self.now }
        ensures few { result ≤ slot_len self.now }
    {
        2 * self.inner.names.len()
    }

    /// Returns the index of a pattern's group by its name. `O(n)` in the number of the pattern's
    /// groups.
    pub fn to_index(&self, pid: PatternID, name: &str) -> Option<usize>
        ensures { (group : ℕ) → (result ≡ Some group) ↔
            (name_of self.now pid group ≡ Some name.now) }
    {
        group_named(self.further_names(pid)?, name)
    }

    /// Returns the name of a pattern's group, or `None` if there is no such group or it has no
    /// name. `O(1)`.
    pub fn to_name(&self, pid: PatternID, group_index: usize) -> Option<&str>
        ensures { option_copied result ≡ name_of self.now pid group_index }
    {
        name_of_group(self.further_names(pid)?, group_index)
    }

    /// Returns the first of a group's two slots, which are adjacent, or `None` if there is no such
    /// group. `O(1)`.
    pub fn slot(&self, pid: PatternID, group_index: usize) -> Option<usize>
        ensures slot { result ≡ first_slot self.now pid group_index }
        ensures in_range { (slot : ℕ) → result ≡ Some slot → slot + 1 < slot_len self.now }
    {
        let inner = &self.inner;
        if group_index >= self.group_len(pid) {
            return None;
        }
        if group_index == 0 {
            return Some(2 * pid.as_usize());
        }
        Some(inner.starts[pid.as_usize()] + 2 * (group_index - 1))
    }

    /// Returns the two slots of a group, or `None` if there is no such group. `O(1)`.
    pub fn slots(&self, pid: PatternID, group_index: usize) -> Option<(usize, usize)>
        ensures { result ≡
            option_map (λ slot. (slot, slot + 1)) (first_slot self.now pid group_index) }
    {
        let slot = self.slot(pid, group_index)?;
        Some((slot, slot + 1))
    }
}

/// The pattern that a search has matched, and the spans of its groups in slots. Contracts see the
/// groups, the pattern, and for each slot an optional byte offset. There are at most as many slots
/// as the groups have.
#[derive(Debug, Drop)]
pub struct Captures {
    group_info: GroupInfo,
    pattern: Option<PatternID>,
    slots: Vec<Option<NonMaxUsize>>,
}

impl Model for Captures {
    ghost use Rattle.std.specs.Prelude.{◌≤◌, length};
    ghost use Rattle.rx_util.specs.Groups.{slot_len};
    ghost use Rattle.rx_util.specs.Captured.{Captured};

    ghost Value = { Captured };

    ghost view = { λ caps. record {
      groups = caps.group_info;
      pattern = caps.pattern;
      slots = caps.slots.items;
    } };

    ghost invariant = { λ caps. length caps.slots.items ≤ slot_len caps.group_info };
}

impl Captures {
    ghost use Rattle.std.specs.Borrow.{sem};
    ghost use Rattle.rx_util.specs.Captured.{nothing_noted, place_in, group_span, group_name, match_found};
    ghost use Rattle.rx_util.specs.Lending.{LendsSlots};

    /// Returns captures of no match, with `len` slots.
    fn with_slots(alloc: Global, group_info: &GroupInfo, len: usize) -> Result<Captures, MatchError>
        requires few { len ≤ slot_len group_info.now }
        ensures made { IfOk result (λ caps. caps ≡ nothing_noted group_info.now len) }
        ensures refused { IfErr result (λ error. error ≡ MatchError.Memory) }
    {
        let slots = vec![in alloc; None; len]?;
        let group_info = group_info.clone()?;
        Ok(Captures {
            group_info,
            pattern: None,
            slots,
        })
    }

    /// Returns captures of no match, with slots for all groups. Shares `group_info`. `O(n)` in the
    /// number of slots.
    ///
    /// # Errors
    ///
    /// `Memory`.
    pub fn all(alloc: Global, group_info: &GroupInfo) -> Result<Captures, MatchError>
        ensures made { IfOk result (λ caps. caps ≡
            nothing_noted group_info.now (slot_len group_info.now)) }
        ensures refused { IfErr result (λ error. error ≡ MatchError.Memory) }
    {
        Captures::with_slots(alloc, group_info, group_info.slot_len())
    }

    /// Returns captures of no match, with slots for the whole match of each pattern. Shares
    /// `group_info`. `O(n)` in the number of patterns.
    ///
    /// # Errors
    ///
    /// `Memory`.
    pub fn matches(alloc: Global, group_info: &GroupInfo) -> Result<Captures, MatchError>
        ensures made { IfOk result (λ caps. caps ≡
            nothing_noted group_info.now (2 * length group_info.now)) }
        ensures refused { IfErr result (λ error. error ≡ MatchError.Memory) }
    {
        Captures::with_slots(alloc, group_info, group_info.implicit_slot_len())
    }

    /// Returns whether there is a match. `O(1)`.
    pub fn is_match(&self) -> bool
        ensures { IsTrue result ↔ IsSome self.now.pattern }
    {
        self.pattern.is_some()
    }

    /// Returns the pattern that matched. `O(1)`.
    pub fn pattern(&self) -> Option<PatternID>
        ensures { result ≡ self.now.pattern }
    {
        self.pattern
    }

    /// Sets or clears the pattern that matched. The slots are unchanged. `O(1)`.
    pub fn set_pattern(&mut self, pid: Option<PatternID>)
        ensures { self.new ≡ record self.old { pattern = pid } }
    {
        self.pattern = pid;
    }

    /// Returns the offset in a slot.
    fn place(&self, slot: usize) -> Option<usize>
        ensures { result ≡ place_in self.now.slots slot }
    {
        match self.slots.get(slot) {
            Some(Some(place)) => Some(place.get()),
            _ => None,
        }
    }

    /// Returns the whole match: the pattern, and the span of group 0. `None` if there is no match
    /// or one of the two slots is empty. `O(1)`.
    ///
    /// # Requires
    ///
    /// The span doesn't end before it starts.
    pub fn get_match(&self) -> Option<Match>
        requires { ForSome (group_span self.now 0) (λ span. span.start ≤ span.end) }
        ensures { result ≡ match_found self.now }
    {
        let pattern = self.pattern?;
        let span = self.get_group(0)?;
        Some(Match::new(pattern, span))
    }

    /// Returns the span of a group of the matched pattern. `None` if there is no match, no such
    /// group, or one of the group's two slots is empty. `O(1)`.
    pub fn get_group(&self, index: usize) -> Option<Span>
        ensures { result ≡ group_span self.now index }
    {
        let (first, second) = self.group_info.slots(self.pattern?, index)?;
        let start = self.place(first)?;
        let end = self.place(second)?;
        Some(Span { start, end })
    }

    /// Returns the number of the matched pattern's group with this name.
    fn group_named(&self, name: &str) -> Option<usize>
        ensures { (group : ℕ) → (result ≡ Some group) ↔
            (group_name self.now group ≡ Some name.now) }
    {
        self.group_info.to_index(self.pattern?, name)
    }

    /// Returns the span of the matched pattern's group with this name, as
    /// [`get_group`](Self::get_group) does. `None` also if no group has this name. `O(n)` in the
    /// number of the pattern's groups.
    pub fn get_group_by_name(&self, name: &str) -> Option<Span>
        ensures named { (group : ℕ) → group_name self.now group ≡ Some name.now →
            result ≡ group_span self.now group }
        ensures unnamed { ((group : ℕ) → group_name self.now group ≡ Some name.now → ⊥) →
            result ≡ None }
    {
        let index = self.group_named(name)?;
        self.get_group(index)
    }

    /// Returns the slots for writing. `O(1)`.
    pub fn slots_mut(&mut self) -> &mut [Option<NonMaxUsize>]
        ensures* writes_back { sem 𝓛 (LendsSlots self.entry result) }
        ensures slots { result.now ≡ self.old.slots }
        ensures few { length self.old.slots ≤ slot_len self.old.groups }
    {
        self.slots.as_mut_slice()
    }

    /// Returns the groups of the patterns. `O(1)`.
    pub fn group_info(&self) -> &GroupInfo
        ensures { result.now ≡ self.now.groups }
    {
        &self.group_info
    }

    /// Returns a copy with slots of its own, which shares the groups. `O(n)` in the number of
    /// slots.
    ///
    /// # Errors
    ///
    /// `Memory`.
    pub fn clone(&self) -> Result<Captures, MatchError>
        ensures same { IfOk result (λ caps. caps ≡ self.now) }
        ensures refused { IfErr result (λ error. error ≡ MatchError.Memory) }
    {
        let group_info = self.group_info.clone()?;
        let slots = self.slots.clone()?;
        Ok(Captures {
            group_info,
            pattern: self.pattern,
            slots,
        })
    }
}
