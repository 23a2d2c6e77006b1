//! The sets of a pattern's atoms.

ghost use Rattle.std.specs.Prelude.{◌≡◌, ◌≢◌, ◌↔◌, [], ◌∷◌, ◌++◌, Contains, IsTrue, IfOk, OnOk, IfSome};
ghost use Rattle.rx_sets.specs.Sets.{IsSetOf, FoldedIf, InPerl};
ghost use Rattle.rx_sets.specs.Items.{InItems, InClass};
ghost use Rattle.rx_sets.specs.Unions.{Adds, OneOf, InLetters};

use crate::character_set::{CharacterSet, Range, is_same};
use crate::foldings::{push_folded_if, push_items};
use crate::items::{ClassItem, ClassPerlKind};
use crate::letter_set::LetterSet;
use std::alloc::{AllocError, Global};
use std::rc::Rc;

/// The letter classes.
const LETTER_CLASSES: [(ClassPerlKind, bool); 6] = [
    (ClassPerlKind::Digit, false),
    (ClassPerlKind::Digit, true),
    (ClassPerlKind::Space, false),
    (ClassPerlKind::Space, true),
    (ClassPerlKind::Word, false),
    (ClassPerlKind::Word, true),
];

/// Returns the letter class if it is the only item.
fn only_letters(items: &[ClassItem]) -> Option<(ClassPerlKind, bool)>
    ensures { IfSome result (λ r. items.now ≡ ClassItem.Perl r.0 r.1 ∷ []) }
{
    match items {
        [ClassItem::Perl(kind, negated)] => Some((*kind, *negated)),
        _ => None,
    }
}

/// Returns whether the item is this letter class.
fn is_letters(item: ClassItem, kind: ClassPerlKind, negated: bool) -> bool
    ensures { IsTrue result ↔ (item ≡ ClassItem.Perl kind negated) }
{
    match item {
        ClassItem::Perl(found, opposite) => found == kind && opposite == negated,
        ClassItem::Span(_, _) => false,
    }
}

/// Returns whether the letter class is among the items.
fn has_letters(items: &[ClassItem], kind: ClassPerlKind, negated: bool) -> bool
    ensures { IsTrue result ↔ Contains items.now (ClassItem.Perl kind negated) }
{
    for item in items {
        if is_letters(*item, kind, negated) {
            return true;
        }
    }
    false
}

/// Appends the ranges of a set.
fn push_set(ranges: &mut Vec<Range>, set: &CharacterSet) -> Result<(), AllocError>
    ensures { OnOk result (ranges.new.items ≡ ranges.old.items ++ set.now) }
{
    ranges.extend_from_slice(set.ranges())
}

/// Returns the set of one character, closed under folding if `fold` is true.
fn character_set(alloc: Global, fold: bool, c: char) -> Result<CharacterSet, AllocError>
    ensures { IfOk result (λ set. IsSetOf set (FoldedIf fold (λ d. d ≡ c))) }
{
    let mut ranges = Vec::new(alloc);
    push_folded_if(&mut ranges, fold, c, c)?;
    CharacterSet::from_ranges(ranges)
}

/// Returns the set of all characters.
fn any_set(alloc: Global) -> Result<CharacterSet, AllocError>
    ensures { IfOk result (λ set. IsSetOf set (λ d. Unit {0})) }
{
    let none = CharacterSet::empty(alloc);
    none.complement()
}

/// Returns the set of all characters but one.
fn all_but(alloc: Global, c: char) -> Result<CharacterSet, AllocError>
    ensures { IfOk result (λ set. IsSetOf set (λ d. d ≢ c)) }
{
    let one = character_set(alloc, false, c)?;
    one.complement()
}

/// The most sets of classes in brackets that are kept for sharing.
const KEPT_CLASSES: usize = 8;

/// Makes the sets of a pattern's atoms.
///
/// The set of a letter class is made once and shared. The set of a class in brackets is shared with
/// an equal one among the last few, so a pattern that repeats a class takes memory for one.
///
/// # Examples
///
/// ```rust
/// let mut sets = AtomSets::new(rt.alloc());
/// let items = [
///     ClassItem::Span('a', 'f'),
///     ClassItem::Perl(ClassPerlKind::Digit, false),
/// ];
/// let set = sets.class(true, true, &items)?;
/// assert!(rt; !set.contains(ordinal('D')));
/// assert!(rt; !set.contains(ordinal('7')));
/// assert!(rt; set.contains(ordinal('x')));
/// ```
#[derive(Drop)]
pub struct AtomSets {
    alloc: Global,
    letters: Vec<LetterSet>,
    classes: Vec<Rc<CharacterSet>>,
}

impl AtomSets {
    /// Returns a maker that has made no set yet.
    pub fn new(alloc: Global) -> AtomSets {
        AtomSets {
            alloc,
            letters: Vec::new(alloc),
            classes: Vec::new(alloc),
        }
    }

    /// Returns the set, shared with an equal one that is kept.
    fn shared(&mut self, set: CharacterSet) -> Result<Rc<CharacterSet>, AllocError>
        ensures { IfOk result (λ shared. shared.value ≡ set) }
    {
        for kept in &self.classes {
            if is_same(kept.ranges(), set.ranges()) {
                return kept.clone();
            }
        }
        if self.classes.len() >= KEPT_CLASSES {
            self.classes.clear();
        }
        let made = Rc::new(self.alloc, set)?;
        self.classes.push(made.clone()?)?;
        Ok(made)
    }

    /// Returns the set of a letter class, closed under folding if `fold` is true.
    fn letters(
        &mut self,
        fold: bool,
        kind: ClassPerlKind,
        negated: bool,
    ) -> Result<Rc<CharacterSet>, AllocError>
        ensures { IfOk result (λ set. IsSetOf set.value (FoldedIf fold (InPerl kind negated))) }
    {
        for letters in &self.letters {
            if letters.is_of(fold, kind, negated) {
                return letters.share();
            }
        }
        let made = LetterSet::new(self.alloc, fold, kind, negated)?;
        let set = made.share()?;
        self.letters.push(made)?;
        Ok(set)
    }

    /// Returns the set of a letter class outside brackets.
    pub fn perl(
        &mut self,
        kind: ClassPerlKind,
        negated: bool,
    ) -> Result<Rc<CharacterSet>, AllocError>
        ensures { IfOk result (λ set. IsSetOf set.value (InPerl kind negated)) }
    {
        self.letters(false, kind, negated)
    }

    /// Returns the set of a literal, closed under folding if `fold` is true.
    pub fn literal(&self, fold: bool, c: char) -> Result<Rc<CharacterSet>, AllocError>
        ensures { IfOk result (λ set. IsSetOf set.value (FoldedIf fold (λ d. d ≡ c))) }
    {
        let set = character_set(self.alloc, fold, c)?;
        Ok(Rc::new(self.alloc, set)?)
    }

    /// Returns the set of all characters.
    pub fn any(&self) -> Result<Rc<CharacterSet>, AllocError>
        ensures { IfOk result (λ set. IsSetOf set.value (λ d. Unit {0})) }
    {
        Ok(Rc::new(self.alloc, any_set(self.alloc)?)?)
    }

    /// Returns the set of all characters but one.
    pub fn all_but(&self, c: char) -> Result<Rc<CharacterSet>, AllocError>
        ensures { IfOk result (λ set. IsSetOf set.value (λ d. d ≢ c)) }
    {
        Ok(Rc::new(self.alloc, all_but(self.alloc, c)?)?)
    }

    /// Appends the set of a letter class if that is among the items.
    fn push_letters(
        &mut self,
        ranges: &mut Vec<Range>,
        fold: bool,
        items: &[ClassItem],
        kind: ClassPerlKind,
        negated: bool,
    ) -> Result<(), AllocError>
        ensures { OnOk result (Adds ranges.old.items ranges.new.items
            (λ c. InLetters fold items.now c (kind, negated))) }
    {
        if !has_letters(items, kind, negated) {
            return Ok(());
        }
        let set = self.letters(fold, kind, negated)?;
        push_set(ranges, &set)
    }

    /// Appends the sets of the letter classes among the items, each once.
    fn push_all_letters(
        &mut self,
        ranges: &mut Vec<Range>,
        fold: bool,
        items: &[ClassItem],
    ) -> Result<(), AllocError>
        ensures { OnOk result (Adds ranges.old.items ranges.new.items
            (λ c. OneOf (InLetters fold items.now c) LETTER_CLASSES)) }
    {
        for letters in &LETTER_CLASSES {
            self.push_letters(ranges, fold, items, letters.0, letters.1)?;
        }
        Ok(())
    }

    /// Returns the union of a class's items, closed under folding if `fold` is true.
    fn union(&mut self, fold: bool, items: &[ClassItem]) -> Result<CharacterSet, AllocError>
        ensures { IfOk result (λ set. IsSetOf set (FoldedIf fold (λ d. InItems d items.now))) }
    {
        let mut ranges = Vec::new(self.alloc);
        push_items(&mut ranges, fold, items)?;
        self.push_all_letters(&mut ranges, fold, items)?;
        CharacterSet::from_ranges(ranges)
    }

    /// Returns the same set, shared if the only item is a letter class.
    fn named(&mut self, fold: bool, items: &[ClassItem]) -> Result<Rc<CharacterSet>, AllocError>
        ensures { IfOk result (λ set. IsSetOf set.value
            (FoldedIf fold (λ d. InItems d items.now))) }
    {
        if let Some((kind, negated)) = only_letters(items) {
            return self.letters(fold, kind, negated);
        }
        let set = self.union(fold, items)?;
        self.shared(set)
    }

    /// Returns the set of a class in brackets. If `fold` is true, it is closed under folding before
    /// it is negated.
    pub fn class(
        &mut self,
        fold: bool,
        negated: bool,
        items: &[ClassItem],
    ) -> Result<Rc<CharacterSet>, AllocError>
        ensures { IfOk result (λ set. IsSetOf set.value (InClass fold negated items.now)) }
    {
        let named = self.named(fold, items)?;
        if !negated {
            return Ok(named);
        }
        self.shared(named.complement()?)
    }
}
