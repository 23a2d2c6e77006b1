//! Laws of the definitions that the contracts of this crate cite. Each function does nothing: its
//! contract is the law.

ghost use Rattle.ropey_tree.specs.Laws.{CountsAreOfTheText};

/// The sum of the counts of leaf texts is the counts of the whole text: no break is counted twice
/// or lost, because no CR LF spans two leaves.
pub fn counts_of_a_cutting()
    ensures { CountsAreOfTheText }
{}
