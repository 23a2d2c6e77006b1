//! The sets of a pattern's atoms with its settings.

ghost use Rattle.std.specs.Prelude.{◌≡◌, IfOk};
ghost use Rattle.rx_grammar.specs.Sets.{IsSetOf, Folded};
ghost use Rattle.rx_grammar.specs.Classes.{InClass};
ghost use Rattle.rx_grammar.specs.Grammar.{InDot};

use crate::syntax::Config;
use rx_sets::{AtomSets, CharacterSet, ClassItem};
use std::alloc::AllocError;
use std::rc::Rc;

/// Returns the set of a literal.
pub(crate) fn literal_set(
    sets: &AtomSets,
    config: &Config,
    c: char,
) -> Result<Rc<CharacterSet>, AllocError>
    ensures { IfOk result (λ set. IsSetOf set.value (Folded config.now (λ d. d ≡ c))) }
{
    sets.literal(config.get_case_insensitive(), c)
}

/// Returns the set of `.`, which case folding doesn't change.
pub(crate) fn dot_set(sets: &AtomSets, config: &Config) -> Result<Rc<CharacterSet>, AllocError>
    ensures { IfOk result (λ set. IsSetOf set.value (InDot config.now)) }
{
    if config.get_dot_matches_new_line() {
        sets.any()
    } else {
        sets.all_but(char::from(config.get_line_terminator()))
    }
}

/// Returns the set of a class in brackets.
pub(crate) fn class_set(
    sets: &mut AtomSets,
    config: &Config,
    negated: bool,
    items: &[ClassItem],
) -> Result<Rc<CharacterSet>, AllocError>
    ensures { IfOk result (λ set. IsSetOf set.value (InClass config.now negated items.now)) }
{
    sets.class(config.get_case_insensitive(), negated, items)
}
