//! Laws of finds among all matches. Each function does nothing: its contract is the law.

ghost use Rattle.std.specs.Prelude.{ℕ, Bool};
ghost use Rattle.rx_walks.specs.Looks.{Look};
ghost use Rattle.rx_walks.specs.Finds.{PatternMatch};
ghost use Rattle.rx_walks.specs.Programs.{Program};
ghost use Rattle.rx_walks.specs.Iterating.{MatchesLeft};
ghost use Rattle.rx_walks.specs.MatchesAll.{FindsAgree, FirstMatchesAllGrow, IteratorsGiveAllInOrder, MatchesAllStandAtBoundaries};

/// There is a find among all matches exactly if there is a leftmost-first find.
pub fn finds_agree<S>()
    ensures { (member : S → ℕ → Bool) (is_word : ℕ → Bool) (p : Program Look S)
        → FindsAgree member is_word p }
{}

/// After the first matches of the list exactly one match or none is next: with it they are the
/// first matches too, and if none is next they are the whole list.
pub fn first_matches_all_grow<S>()
    ensures { (member : S → ℕ → Bool) (is_word : ℕ → Bool) (p : Program Look S)
        → FirstMatchesAllGrow member is_word p }
{}

/// In UTF-8 each match of the list starts and ends at character boundaries, if empty matches inside
/// a character are skipped.
pub fn matches_all_at_boundaries<S>()
    ensures { (member : S → ℕ → Bool) (is_word : ℕ → Bool) (p : Program Look S)
        → MatchesAllStandAtBoundaries member is_word p }
{}

/// An iterator over matches, whatever it returns of each, gives the first matches of the list until
/// it ends or has an error, all of the list if it ends without an error, and nothing after an
/// error.
pub fn iterators_give_all_in_order<S, A, E, I: Iterator<Item = Result<A, E>>>()
    ensures { (member : S → ℕ → Bool) (is_word : ℕ → Bool) (p : Program Look S)
        (item_of : PatternMatch → A) (left : I → MatchesLeft)
        → IteratorsGiveAllInOrder member is_word p item_of left I.next_gives }
{}
