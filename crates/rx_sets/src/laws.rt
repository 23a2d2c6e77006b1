//! A law of the definitions that this crate's contracts cite. The function does nothing: its
//! contract is the law.

ghost use Rattle.std.specs.Prelude.{List};
ghost use Rattle.rx_sets.specs.Sets.{Range};
ghost use Rattle.rx_sets.specs.Laws.{HaveOneSet};

/// Sets with the same members have the same list of maximal ranges.
pub fn a_set_has_one_list_of_ranges()
    ensures { (ranges others : List Range) → HaveOneSet ranges others }
{}
