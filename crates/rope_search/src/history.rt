//! The texts of a buffer: the current one, earlier ones, and those that can be redone.
ghost use Rattle.std.specs.Prelude.{◌≡◌, ◌+◌, ◌-◌, ◌<◌, ◌≤◌, ◌↔◌, List, ℕ, [], ◌∷◌, ◌++◌, length, take, drop, slice_index_or, vec_len, MatchOption, None, Some, true, false, IfOk, IfErr, IfSome, IsOk, OnOk, OnErr};
ghost use Rattle.str_indices.specs.Text.{byte_len};
ghost use Rattle.ropey.specs.Chunks.{text_of};
ghost use Rattle.rope_search_reports.specs.Text.{IsText};
ghost use Rattle.rope_search_reports.specs.Turned.{Lead, listed};
ghost use Rattle.rope_search.specs.Histories.{LeadOn, text_at, changes_at};
ghost use Rattle.rope_search.specs.TextChanges.{AreTextChanges, ranges_in, whole_change};
ghost use Rattle.rope_search.specs.UndoSteps.{changes_with_steps, first_kept};
ghost use Rattle.rope_search.specs.JoinedSteps.{AreComposed, JoinsChanges, number_joined};
ghost use Rattle.rope_search.specs.Joints.{version_changes, version_texts};

use crate::joins::composed;
use rope_search_io::Fault;
use rope_search_reports::{Change, Changes};
use ropey::Rope;
use std::alloc::{AllocError, Global};
use std::marker::Model;
use std::mem;

/// A text of a history.
#[derive(Drop)]
pub struct Version {
    /// The text.
    pub text: Rope,
    /// The changes that led to it from the text before; none for the first text.
    pub changes: Changes,
}

/// One or more texts, from the oldest on, one of which is current, and the changes from each to the
/// next. The texts share the memory of what they have in common; a change is stored as offsets
/// only. The changes that were made or undone last are known also after their text is dropped.
#[derive(Drop)]
pub struct History {
    versions: Vec<Version>,
    current: usize,
    // Whether the current text was last reached by an undo.
    is_back: bool,
    // The changes that were made or undone last, if no text of the list has them.
    apart: Option<Changes>,
}

impl Model for History {
    ghost use Rattle.std.specs.Prelude.{◌<◌, map, option_map, vec_len};
    ghost use Rattle.ropey.specs.Chunks.{text_of};
    ghost use Rattle.rope_search_reports.specs.Turned.{listed};
    ghost use Rattle.rope_search.specs.declared.history.Version.{Version};
    ghost use Rattle.rope_search.specs.Histories.{Texts, LeadOn, LeadSomewhere, changes_last};

    ghost Value = { Texts };

    ghost view = { λ h. record {
      texts = map (λ (v : Version). text_of v.text) h.versions.items;
      changes = map (λ (v : Version). listed v.changes) h.versions.items;
      current = h.current;
      is_back = h.is_back;
      last = changes_last (option_map listed h.apart) h.is_back
          (map (λ (v : Version). listed v.changes) h.versions.items) h.current;
    } };

    ghost invariant = { λ h. (h.current < vec_len h.versions)
        × LeadOn (map (λ (v : Version). text_of v.text) h.versions.items)
        (map (λ (v : Version). listed v.changes) h.versions.items)
        × LeadSomewhere (changes_last (option_map listed h.apart) h.is_back
        (map (λ (v : Version). listed v.changes) h.versions.items) h.current) };
}

/// Truncates the list to `len` versions, then appends one.
fn push_at(versions: &mut Vec<Version>, len: usize, version: Version) -> Result<(), AllocError>
    requires { len ≤ vec_len versions.old }
    ensures ok { OnOk result
        (versions.new.items ≡ take len versions.old.items ++ version ∷ []) }
    ensures err { OnErr result (versions.new.items ≡ versions.old.items) }
{
    if len == versions.len() {
        versions.push(version)?;
        return Ok(());
    }
    versions.truncate(len);
    versions.push_reserved(version);
    Ok(())
}

/// Truncates the list to `len` versions, and returns the changes that led to the first that is
/// dropped.
fn cut_off(versions: &mut Vec<Version>, len: usize) -> Option<Changes>
    requires { len ≤ vec_len versions.old }
    ensures items { versions.new.items ≡ take len versions.old.items }
    ensures changes { MatchOption result (vec_len versions.old ≤ len) (λ changes.
        (len < vec_len versions.old)
        × ((d : Version) → changes ≡ (slice_index_or versions.old.items len d).changes)) }
{
    if versions.len() == len {
        return None;
    }
    versions.truncate(len + 1);
    match versions.pop() {
        Some(Version { changes, .. }) => Some(changes),
        None => None,
    }
}

/// Drops the first `count` versions of a list. `O(n)`.
fn drop_first(versions: &mut Vec<Version>, count: usize)
    requires { count ≤ vec_len versions.old }
    ensures { versions.new.items ≡ drop count versions.old.items }
{
    let left = versions.len() - count;
    versions.reverse();
    versions.truncate(left);
    versions.reverse();
}

/// Returns the changes to keep apart after versions are dropped: those kept apart before; otherwise
/// those of what was undone; otherwise those that led to the current version, if none before it is
/// left.
fn apart_of(
    apart: Option<Changes>,
    is_back: bool,
    undone: Option<Changes>,
    led: Changes,
    is_later: bool,
) -> Option<Changes>
    ensures kept { (apart ≡ None → ⊥) → result ≡ apart }
    ensures undone { apart ≡ None → is_back ≡ true → result ≡ undone }
    ensures later { apart ≡ None → is_back ≡ false → is_later ≡ true → result ≡ None }
    ensures first { apart ≡ None → is_back ≡ false → is_later ≡ false → result ≡ Some led }
{
    if apart.is_some() {
        return apart;
    }
    if is_back {
        return undone;
    }
    if is_later {
        return None;
    }
    Some(led)
}

/// Moves `count` versions from `at` on to the end.
fn move_to_end(versions: &mut Vec<Version>, at: usize, count: usize)
    requires within { at + count ≤ vec_len versions.old }
    ensures items { versions.new.items ≡ take at versions.old.items
        ++ drop (at + count) versions.old.items ++ take count (drop at versions.old.items) }
    ensures len { vec_len versions.new ≡ vec_len versions.old }
{
    versions.slice_mut(at..).rotate_left(count);
}

/// Drops `count` versions from `at` on. `O(n)`.
fn remove(versions: &mut Vec<Version>, at: usize, count: usize)
    requires within { at + count ≤ vec_len versions.old }
    ensures items { versions.new.items ≡ take at versions.old.items
        ++ drop (at + count) versions.old.items }
{
    move_to_end(versions, at, count);
    versions.truncate(versions.len() - count);
}

/// Returns the changes; a single one without a list.
fn packed(mut changes: Vec<Change>) -> Changes
    ensures { listed result ≡ changes.items }
{
    if changes.len() == 1 {
        return Changes::One(changes[0]);
    }
    changes.shrink_to_fit();
    Changes::Many(changes)
}

/// Returns the changes that lead from the text of the first version to that of the last: those of
/// all steps between them, composed. Each step takes time linear in these. Errors: `Fault::Memory`
/// only.
fn changes_between(alloc: Global, versions: &[Version]) -> Result<Changes, Fault>
    requires some { 0 < length versions.now }
    requires led { LeadOn (version_texts versions.now) (version_changes versions.now) }
    ensures lead { IfOk result (λ changes. Lead (listed changes)
        (text_at (version_texts versions.now) 0)
        (text_at (version_texts versions.now) (length versions.now - 1))) }
    ensures composed { IfOk result (λ changes.
        AreComposed (drop 1 (version_changes versions.now)) (listed changes)) }
    ensures fault { IfErr result (λ fault. fault ≡ Fault.Memory) }
{
    // For the proof: the text's facts.
    let _ = versions[0].text.len_bytes();
    let mut changes = Vec::new(alloc);
    for k in 1..versions.len() {
        let version = &versions[k];
        let _ = version.text.len_bytes();
        changes = composed(alloc, changes.as_slice(), version.changes.as_slice())?;
    }
    Ok(packed(changes))
}

impl History {
    /// Returns a history of one text; the changes lead to it from a text that isn't kept. Errors:
    /// `Fault::Memory` only.
    fn of_changes(alloc: Global, text: Rope, changes: Changes) -> Result<History, Fault>
        requires { (old : List ℕ) × Lead (listed changes) old (text_of text) }
        ensures ok { IfOk result (λ history. history ≡ record {
          texts = text_of text ∷ [];
          changes = [] ∷ [];
          current = 0;
          is_back = false;
          last = listed changes;
        }) }
        ensures fault { IfErr result (λ fault. fault ≡ Fault.Memory) }
    {
        let mut versions = Vec::new(alloc);
        versions.push(Version {
            text,
            changes: Changes::Many(Vec::new(alloc)),
        })?;
        Ok(History {
            versions,
            current: 0,
            is_back: false,
            apart: Some(changes),
        })
    }

    /// Returns a history of one text. Errors: `Fault::Memory` only.
    pub fn new(alloc: Global, text: Rope) -> Result<History, Fault>
        ensures ok { IfOk result (λ history. history ≡ record {
          texts = text_of text ∷ [];
          changes = [] ∷ [];
          current = 0;
          is_back = false;
          last = [];
        }) }
        ensures fault { IfErr result (λ fault. fault ≡ Fault.Memory) }
    {
        History::of_changes(alloc, text, Changes::Many(Vec::new(alloc)))
    }

    /// Returns a history of one text that replaces another one. Errors: `Fault::Memory` only.
    pub fn replacing(alloc: Global, old: &Rope, text: Rope) -> Result<History, Fault>
        ensures ok { IfOk result (λ history. history ≡ record {
          texts = text_of text ∷ [];
          changes = [] ∷ [];
          current = 0;
          is_back = false;
          last = whole_change (byte_len (text_of old.now)) (byte_len (text_of text)) ∷ [];
        }) }
        ensures scalars { IsText (text_of old.now) }
        ensures ranges { OnOk result (AreTextChanges (text_of old.now) (text_of text)
            (ranges_in false
            (whole_change (byte_len (text_of old.now)) (byte_len (text_of text)) ∷ []))) }
        ensures fault { IfErr result (λ fault. fault ≡ Fault.Memory) }
    {
        let change = Change {
            old_end: old.len_bytes(),
            new_start: 0,
            new_end: text.len_bytes(),
        };
        History::of_changes(alloc, text, Changes::One(change))
    }

    /// Returns a text by its number, from the oldest on.
    fn text(&self, number: usize) -> &Rope
        requires { number < length self.now.texts }
        ensures text { text_of result.now ≡ text_at self.now.texts number }
        ensures scalars { IsText (text_at self.now.texts number) }
    {
        let text = &self.versions[number].text;
        // For the proof: the text's facts.
        let _ = text.len_bytes();
        text
    }

    /// Returns the current text.
    pub fn current(&self) -> &Rope
        ensures text { text_of result.now ≡ text_at self.now.texts self.now.current }
        ensures inside { self.now.current < length self.now.texts }
        ensures led { LeadOn self.now.texts self.now.changes }
    {
        &self.versions[self.current].text
    }

    /// Returns the changes that led to the current text from the one before; none for the first
    /// text.
    pub fn last_changes(&self) -> &Changes
        ensures { listed result.now ≡ changes_at self.now.changes self.now.current }
    {
        &self.versions[self.current].changes
    }

    /// Returns the text before the current one, if there is one.
    pub fn previous(&self) -> Option<&Rope>
        ensures text { IfSome result (λ text. text_of text.now ≡
            text_at self.now.texts (self.now.current - 1)) }
        ensures none { (result ≡ None) ↔ (self.now.current ≡ 0) }
    {
        if self.current == 0 {
            return None;
        }
        Some(&self.versions[self.current - 1].text)
    }

    /// Returns the text after the current one, with the changes that lead to it, if there is one.
    pub fn next(&self) -> Option<&Version>
        ensures text { IfSome result (λ version. text_of version.now.text ≡
            text_at self.now.texts (self.now.current + 1)) }
        ensures changes { IfSome result (λ version. listed version.now.changes ≡
            changes_at self.now.changes (self.now.current + 1)) }
        ensures none { (result ≡ None) ↔ (length self.now.texts ≤ self.now.current + 1) }
    {
        self.versions.get(self.current + 1)
    }

    /// Returns the number of texts before the current one.
    pub fn undo_steps(&self) -> usize
        ensures { result ≡ self.now.current }
    {
        self.current
    }

    /// Returns the number of the text to which the next step forward leads, or would lead.
    pub fn next_step(&self) -> usize
        ensures { result ≡ self.now.current + 1 }
    {
        self.current + 1
    }

    /// Returns the number of texts after the current one.
    pub fn redo_steps(&self) -> usize
        ensures { result ≡ length self.now.texts - (self.now.current + 1) }
    {
        self.versions.len() - (self.current + 1)
    }

    /// Returns whether the current text was last reached by an undo.
    pub fn is_back(&self) -> bool
        ensures { result ≡ self.now.is_back }
    {
        self.is_back
    }

    /// Returns the changes that were made or undone last.
    pub fn last(&self) -> &[Change]
        ensures changes { result.now ≡ self.now.last }
        ensures led { (old : List ℕ) × (new : List ℕ) × Lead self.now.last old new }
    {
        if let Some(changes) = &self.apart {
            return changes.as_slice();
        }
        let number = if self.is_back {
            self.current + 1
        } else {
            self.current
        };
        match self.versions.get(number) {
            Some(version) => version.changes.as_slice(),
            None => &[],
        }
    }

    /// Drops all texts except the current one and at most `steps` before it, with their changes. It
    /// never fails: if there is no memory for a shorter list, the list keeps its room.
    pub fn keep(&mut self, alloc: Global, steps: usize)
        ensures { self.new ≡ record self.old {
          texts = drop (first_kept self.old.current steps)
              (take (self.old.current + 1) self.old.texts);
          changes = changes_with_steps self.old.changes self.old.current steps;
          current = self.old.current - first_kept self.old.current steps;
        } }
    {
        let first = self.current.saturating_sub(steps);
        let undone = cut_off(&mut self.versions, self.current + 1);
        drop_first(&mut self.versions, first);
        self.versions.shrink_to_fit();
        // The first text keeps no changes.
        let none = Changes::Many(Vec::new(alloc));
        let led = mem::replace(&mut self.versions[0].changes, none);
        let apart = mem::replace(&mut self.apart, None);
        self.apart = apart_of(apart, self.is_back, undone, led, first < self.current);
        self.current -= first;
    }

    /// Joins the last `steps` steps into one by dropping the `steps - 1` texts directly before the
    /// current one. With fewer than two steps nothing changes. Errors: `Fault::Memory` only; the
    /// history is then unchanged.
    pub fn join(&mut self, alloc: Global, steps: usize) -> Result<(), Fault>
        requires { steps ≤ self.old.current }
        ensures texts { OnOk result (self.new.texts
            ≡ take (number_joined self.old.current steps) self.old.texts
            ++ drop self.old.current self.old.texts) }
        ensures current { OnOk result
            (self.new.current ≡ number_joined self.old.current steps) }
        ensures changes { OnOk result
            (JoinsChanges self.old.changes self.old.current steps self.new.changes) }
        ensures is_back { self.new.is_back ≡ self.old.is_back }
        ensures last { self.new.last ≡ self.old.last }
        ensures few { steps ≤ 1 → IsOk result }
        ensures fault { IfErr result (λ fault. fault ≡ Fault.Memory) }
        ensures err { OnErr result (self.new ≡ self.old) }
    {
        if steps <= 1 {
            return Ok(());
        }
        let before = self.current - steps;
        let changes = changes_between(alloc, &self.versions[before..self.current + 1])?;
        let led = mem::replace(&mut self.versions[self.current].changes, changes);
        let apart = mem::replace(&mut self.apart, None);
        self.apart = apart_of(apart, self.is_back, None, led, false);
        remove(&mut self.versions, before + 1, steps - 1);
        self.current = before + 1;
        Ok(())
    }

    /// Makes the text before the current one current.
    pub fn step_back(&mut self)
        requires { 0 < self.old.current }
        ensures texts { self.new ≡ record self.old {
          current = self.old.current - 1;
          is_back = true;
          last = changes_at self.old.changes self.old.current;
        } }
        ensures scalars { IsText (text_at self.old.texts self.old.current) }
        ensures ranges { AreTextChanges (text_at self.old.texts self.old.current)
            (text_at self.old.texts (self.old.current - 1))
            (ranges_in self.new.is_back self.new.last) }
    {
        // For the proof: the texts' facts.
        let _ = self.text(self.current);
        let _ = self.text(self.current - 1);
        self.current -= 1;
        self.is_back = true;
        self.apart = None;
    }

    /// Makes the text after the current one current.
    pub fn step_forward(&mut self)
        requires { self.old.current + 1 < length self.old.texts }
        ensures texts { self.new ≡ record self.old {
          current = self.old.current + 1;
          is_back = false;
          last = changes_at self.old.changes (self.old.current + 1);
        } }
        ensures scalars { IsText (text_at self.old.texts self.old.current) }
        ensures ranges { AreTextChanges (text_at self.old.texts self.old.current)
            (text_at self.old.texts (self.old.current + 1))
            (ranges_in self.new.is_back self.new.last) }
    {
        // For the proof: the texts' facts.
        let _ = self.text(self.current);
        let _ = self.text(self.current + 1);
        self.current += 1;
        self.is_back = false;
        self.apart = None;
    }

    /// Replaces all texts after the current one by another text, and makes that current. The
    /// changes lead to it from the current text. Errors: `Fault::Memory` only; the history is then
    /// unchanged.
    pub fn add(&mut self, text: Rope, changes: Changes) -> Result<(), Fault>
        requires { Lead (listed changes) (text_at self.old.texts self.old.current) (text_of text) }
        ensures ok { OnOk result (self.new ≡ record {
          texts = take (self.old.current + 1) self.old.texts ++ text_of text ∷ [];
          changes = take (self.old.current + 1) self.old.changes ++ listed changes ∷ [];
          current = self.old.current + 1;
          is_back = false;
          last = listed changes;
        }) }
        ensures current { OnOk result
            (text_at self.new.texts self.new.current ≡ text_of text) }
        ensures scalars { IsText (text_at self.old.texts self.old.current) }
        ensures ranges { OnOk result (AreTextChanges (text_at self.old.texts self.old.current)
            (text_of text) (ranges_in false (listed changes))) }
        ensures fault { IfErr result (λ fault. fault ≡ Fault.Memory) }
        ensures err { OnErr result (self.new ≡ self.old) }
    {
        // For the proof: the texts' facts.
        let _ = self.text(self.current);
        let _ = text.len_bytes();
        let next = self.current + 1;
        push_at(&mut self.versions, next, Version { text, changes })?;
        self.current = next;
        self.is_back = false;
        self.apart = None;
        Ok(())
    }
}
