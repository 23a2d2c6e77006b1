//! The sets of the letter classes `\d`, `\s` and `\w`.

ghost use Rattle.std.specs.Prelude.{◌≡◌, IfOk, OnOk, IsTrue};
ghost use Rattle.unicode.specs.Rows.{in_ranges, HasExactly};
ghost use Rattle.rx_sets.specs.Sets.{IsSetOf, FoldedIf, in_kind, InPerl};
ghost use Rattle.rx_sets.specs.Unions.{Adds, Between, scalars_below};

use crate::character_set::{CharacterSet, Range, push_part};
use crate::items::ClassPerlKind;
use std::alloc::{AllocError, Global};
use std::marker::Model;
use std::rc::Rc;
use unicode::perl::{digit_ranges, space_ranges, word_ranges};

/// Returns the number of scalar values below a code point.
fn scalars_below(code: u32) -> u32
    ensures { result ≡ scalars_below code }
{
    if code < 0xD800 {
        code
    } else if code < 0xE000 {
        0xD800
    } else {
        code - 0x800
    }
}

/// Appends the scalar values from `low` to `high`, which are code points.
fn push_codes(ranges: &mut Vec<Range>, low: u32, high: u32) -> Result<(), AllocError>
    ensures { OnOk result (Adds ranges.old.items ranges.new.items (Between low high)) }
{
    let end = high.min(0x10_FFFF) + 1;
    push_part(ranges, scalars_below(low), scalars_below(end))
}

/// Returns the scalar values in these ranges of code points.
fn set_of_codes(alloc: Global, codes: &[(u32, u32)]) -> Result<CharacterSet, AllocError>
    ensures { IfOk result (λ set. IsSetOf set (λ c. IsTrue (in_ranges codes.now c))) }
{
    let mut ranges = Vec::new(alloc);
    for range in codes {
        push_codes(&mut ranges, range.0, range.1)?;
    }
    CharacterSet::from_ranges(ranges)
}

/// Returns the code points of a letter class that isn't negated, as ranges.
fn kind_ranges(alloc: Global, kind: ClassPerlKind) -> Result<Vec<(u32, u32)>, AllocError>
    ensures { IfOk result (λ codes. HasExactly codes.items (in_kind kind)) }
{
    match kind {
        ClassPerlKind::Digit => digit_ranges(alloc),
        ClassPerlKind::Space => space_ranges(alloc),
        ClassPerlKind::Word => word_ranges(alloc),
    }
}

/// Returns the set of a letter class that isn't negated.
fn kind_set(alloc: Global, kind: ClassPerlKind) -> Result<CharacterSet, AllocError>
    ensures { IfOk result (λ set. IsSetOf set (λ c. IsTrue (in_kind kind c))) }
{
    let codes = kind_ranges(alloc, kind)?;
    set_of_codes(alloc, &codes)
}

/// Returns the set of a letter class.
fn perl_set(alloc: Global, kind: ClassPerlKind, negated: bool) -> Result<CharacterSet, AllocError>
    ensures { IfOk result (λ set. IsSetOf set (InPerl kind negated)) }
{
    let set = kind_set(alloc, kind)?;
    if negated { set.complement() } else { Ok(set) }
}

/// Returns the set of a letter class, closed under folding if `fold` is true.
fn letter_set(
    alloc: Global,
    fold: bool,
    kind: ClassPerlKind,
    negated: bool,
) -> Result<CharacterSet, AllocError>
    ensures { IfOk result (λ set. IsSetOf set (FoldedIf fold (InPerl kind negated))) }
{
    let set = perl_set(alloc, kind, negated)?;
    if fold {
        set.closed_under_folding()
    } else {
        Ok(set)
    }
}

/// The set of a letter class, closed under folding or not, for sharing.
#[derive(Drop)]
pub(crate) struct LetterSet {
    fold: bool,
    kind: ClassPerlKind,
    negated: bool,
    set: Rc<CharacterSet>,
}

impl Model for LetterSet {
    ghost use Rattle.std.specs.Prelude.{List};
    ghost use Rattle.rx_sets.specs.Sets.{Range, IsSetOf, FoldedIf, InPerl};

    ghost Value = { List Range };

    ghost view = { λ s. s.set.value };

    ghost invariant = { λ s. IsSetOf s.set.value (FoldedIf s.fold (InPerl s.kind s.negated)) };
}

impl LetterSet {
    /// Returns the set, made from its table.
    pub(crate) fn new(
        alloc: Global,
        fold: bool,
        kind: ClassPerlKind,
        negated: bool,
    ) -> Result<LetterSet, AllocError>
        ensures { IfOk result (λ set. IsSetOf set (FoldedIf fold (InPerl kind negated))) }
    {
        let set = Rc::new(alloc, letter_set(alloc, fold, kind, negated)?)?;
        Ok(LetterSet {
            fold,
            kind,
            negated,
            set,
        })
    }

    /// Returns whether it is the set of this letter class.
    pub(crate) fn is_of(&self, fold: bool, kind: ClassPerlKind, negated: bool) -> bool
        ensures { IsTrue result → IsSetOf self.now (FoldedIf fold (InPerl kind negated)) }
    {
        self.fold == fold && self.kind == kind && self.negated == negated
    }

    /// Returns one more owner of the set.
    pub(crate) fn share(&self) -> Result<Rc<CharacterSet>, AllocError>
        ensures { IfOk result (λ set. set.value ≡ self.now) }
    {
        self.set.clone()
    }
}
