//! Laws of walks and finds. Each function does nothing: its contract is the law.

ghost use Rattle.rx_walks.specs.Laws.{BytesRefine, CutSpansTell, FindsAllStandAtBoundaries, FindsAllAtMostOne, FindsAllExist, FindsAllLieInside, FindsStandAtBoundaries, FindsAtMostOne, FindsExist, FindsLieInside, FindsStayInCutSpans, FirstCharacterStands, FourBytesTell, LastCharacterStands, MatchesAllAreOneList, MatchesAreOneList, OneByteTells, PathsAgree, PathsHaveWalks, ProgramIsSearched, ProgramIsSearchedForAll, ProgramIsSearchedKeeping, ProgramWalksAgree, ProgramsFind, ProgramsFindAll, ProgramsReadForward, SearchesFind, SearchesFindAll, StepsKeepBest, WalksAgree, WalksTakeNoPairTwice};
ghost use Rattle.rx_walks.specs.Iterating.{IteratorsGiveInOrder, MatchesLeft};
ghost use Rattle.rx_walks.specs.MatchLaws.{FirstMatchesGrow, MatchesAllExist, MatchesAllRise, MatchesAreFound, MatchesStandAtBoundaries, MatchesExist, MatchesRise};
ghost use Rattle.rx_walks.specs.Machines.{Machine, Outcome};
ghost use Rattle.rx_walks.specs.Programs.{Haystack, Node, Notes, Program};
ghost use Rattle.rx_walks.specs.Likenesses.{Keeping};
ghost use Rattle.rx_walks.specs.Looks.{Look};
ghost use Rattle.rx_walks.specs.Bytes.{Automaton};
ghost use Rattle.std.specs.Prelude.{ℕ, List, Option, Bool};

/// A walk is a path that takes no pair of node and offset twice.
pub fn walks_take_no_pair_twice<Q, N>()
    ensures { (m : Machine Q N) → WalksTakeNoPairTwice m }
{}

/// In each search a program has at most one find.
pub fn finds_at_most_one<S>()
    ensures { (member : S → ℕ → Bool) (is_word : ℕ → Bool) (p : Program Look S)
        → FindsAtMostOne member is_word p }
{}

/// In each search for all matches a program has at most one find.
pub fn finds_all_at_most_one<S>()
    ensures { (member : S → ℕ → Bool) (is_word : ℕ → Bool) (p : Program Look S)
        → FindsAllAtMostOne member is_word p }
{}

/// In each search a program has a find: a match, or none.
pub fn finds_exist<S>()
    ensures { (member : S → ℕ → Bool) (is_word : ℕ → Bool) (p : Program Look S)
        → FindsExist member is_word p }
{}

/// In each search for all matches a program has a find.
pub fn finds_all_exist<S>()
    ensures { (member : S → ℕ → Bool) (is_word : ℕ → Bool) (p : Program Look S)
        → FindsAllExist member is_word p }
{}

/// In each search a program has at most one list of matches.
pub fn matches_are_one_list<S>()
    ensures { (member : S → ℕ → Bool) (is_word : ℕ → Bool) (p : Program Look S)
        → MatchesAreOneList member is_word p }
{}

/// The same for `MatchKind::All`.
pub fn matches_all_are_one_list<S>()
    ensures { (member : S → ℕ → Bool) (is_word : ℕ → Bool) (p : Program Look S)
        → MatchesAllAreOneList member is_word p }
{}

/// In each search a program has a list of matches.
pub fn matches_exist<S>()
    ensures { (member : S → ℕ → Bool) (is_word : ℕ → Bool) (p : Program Look S)
        → MatchesExist member is_word p }
{}

/// The same for `MatchKind::All`.
pub fn matches_all_exist<S>()
    ensures { (member : S → ℕ → Bool) (is_word : ℕ → Bool) (p : Program Look S)
        → MatchesAllExist member is_word p }
{}

/// Each match of that list is a find from some offset on, so that what holds of finds holds of it.
pub fn matches_are_found<S>()
    ensures { (member : S → ℕ → Bool) (is_word : ℕ → Bool) (p : Program Look S)
        → MatchesAreFound member is_word p }
{}

/// Matches are in order and don't overlap, and there is at most one more of them than the haystack
/// has bytes.
pub fn matches_rise<S>()
    ensures { (member : S → ℕ → Bool) (is_word : ℕ → Bool) (p : Program Look S)
        → MatchesRise member is_word p }
{}

/// The same for `MatchKind::All`.
pub fn matches_all_rise<S>()
    ensures { (member : S → ℕ → Bool) (is_word : ℕ → Bool) (p : Program Look S)
        → MatchesAllRise member is_word p }
{}

/// After the first matches of the list exactly one match or none is next: with it they are the
/// first matches too, and if none is next they are the whole list.
pub fn first_matches_grow<S>()
    ensures { (member : S → ℕ → Bool) (is_word : ℕ → Bool) (p : Program Look S)
        → FirstMatchesGrow member is_word p }
{}

/// An iterator over matches, whatever it returns of each, gives the first matches of the list until
/// it ends or has an error, all of the list if it ends without an error, and nothing after an
/// error.
pub fn iterators_give_in_order<S, A, E, I: Iterator<Item = Result<A, E>>>()
    ensures { (member : S → ℕ → Bool) (is_word : ℕ → Bool) (p : Program Look S)
        (item_of : Outcome Notes → A) (left : I → MatchesLeft)
        → IteratorsGiveInOrder member is_word p item_of left I.next_gives }
{}

/// The first character of any bytes is the one whose UTF-8 they start with.
pub fn first_character_stands()
    ensures { FirstCharacterStands }
{}

/// The last character of any bytes is the one whose UTF-8 they end with.
pub fn last_character_stands()
    ensures { LastCharacterStands }
{}

/// Four bytes on each side of an offset decide whether an assertion holds.
pub fn four_bytes_tell()
    ensures { FourBytesTell }
{}

/// One byte on each side decides it, if it is ASCII or the assertion isn't about words.
pub fn one_byte_tells()
    ensures { OneByteTells }
{}

/// A find starts at a possible offset, ends there or after it, inside haystack, slice and span, and
/// the offset in each slot is between both.
pub fn finds_lie_inside<S>()
    ensures { (member : S → ℕ → Bool) (is_word : ℕ → Bool) (p : Program Look S)
        → FindsLieInside member is_word p }
{}

/// With the span cut at the end of a find, the find is the same, with the same notes.
pub fn finds_stay_in_cut_spans<S>()
    ensures { (member : S → ℕ → Bool) (is_word : ℕ → Bool) (p : Program Look S)
        → FindsStayInCutSpans member is_word p }
{}

/// If there is a find in such a span, there is one in the whole span.
pub fn cut_spans_tell<S>()
    ensures { (member : S → ℕ → Bool) (is_word : ℕ → Bool) (p : Program Look S)
        → CutSpansTell member is_word p }
{}

/// A find among all matches is inside, too.
pub fn finds_all_lie_inside<S>()
    ensures { (member : S → ℕ → Bool) (is_word : ℕ → Bool) (p : Program Look S)
        → FindsAllLieInside member is_word p }
{}

/// In UTF-8 a find starts and ends at character boundaries, and the offsets in its slots are such,
/// if empty matches inside a character are skipped.
pub fn finds_at_boundaries<S>()
    ensures { (member : S → ℕ → Bool) (is_word : ℕ → Bool) (p : Program Look S)
        → FindsStandAtBoundaries member is_word p }
{}

/// The same for a find among all matches.
pub fn finds_all_at_boundaries<S>()
    ensures { (member : S → ℕ → Bool) (is_word : ℕ → Bool) (p : Program Look S)
        → FindsAllStandAtBoundaries member is_word p }
{}

/// The same for each match of the list.
pub fn matches_at_boundaries<S>()
    ensures { (member : S → ℕ → Bool) (is_word : ℕ → Bool) (p : Program Look S)
        → MatchesStandAtBoundaries member is_word p }
{}

/// One step from an offset keeps the best walk.
pub fn steps_keep_best<Q, N>()
    ensures { (m : Machine Q N) → StepsKeepBest m }
{}

/// The search loop finds the least walk of the least start that counts.
pub fn searches_find<C, B, N>()
    ensures { (c : Machine C N) (b : Machine B N) (f : C → B) → SearchesFind c b f }
{}

/// The search loop for all matches finds the greatest end.
pub fn searches_find_all<C, B, N>()
    ensures { (c : Machine C N) (b : Machine B N) (f : C → B) → SearchesFindAll c b f }
{}

/// There is a path exactly if there is a walk.
pub fn paths_have_walks<Q, N>()
    ensures { (m : Machine Q N) → PathsHaveWalks m }
{}

/// A machine that reads in smaller steps, without branches, has the same walks.
pub fn walks_agree<C, B, N>()
    ensures { (c : Machine C N) (b : Machine B N) (f : C → B) → WalksAgree c b f }
{}

/// It has the same paths.
pub fn paths_agree<C, B, N>()
    ensures { (c : Machine C N) (b : Machine B N) (f : C → B) → PathsAgree c b f }
{}

/// A program's machine over bytes reads in smaller steps what its machine over characters reads.
pub fn bytes_refine<L, S, N>()
    ensures { (put : ℕ → ℕ → N → N) (first : S → List ℕ → Option ℕ) (step : ℕ → Automaton)
        (nodes : List (Node L S)) (h : Haystack L) → BytesRefine put first step nodes h }
{}

/// In each search the walks of a program over bytes are those of the program over characters.
pub fn program_walks_agree<S>()
    ensures { (member : S → ℕ → Bool) (is_word : ℕ → Bool) (p : Program Look S)
        (step : ℕ → Automaton) → ProgramWalksAgree member is_word p step }
{}

/// The search loop of a program over bytes finds what the program over characters does.
pub fn programs_find<L, S, N>()
    ensures { (put : ℕ → ℕ → N → N) (member : S → ℕ → Bool) (step : ℕ → Automaton)
        (nodes : List (Node L S)) (holds : L → ℕ → Bool)
        → ProgramsFind put member step nodes holds }
{}

/// The search loop for all matches of a program over bytes finds the greatest end.
pub fn programs_find_all<L, S, N>()
    ensures { (put : ℕ → ℕ → N → N) (member : S → ℕ → Bool) (step : ℕ → Automaton)
        (nodes : List (Node L S)) (holds : L → ℕ → Bool)
        → ProgramsFindAll put member step nodes holds }
{}

/// The search loop of a program over bytes, from its start node, finds what the program finds.
pub fn program_is_searched<S>()
    ensures { (member : S → ℕ → Bool) (is_word : ℕ → Bool) (p : Program Look S)
        (step : ℕ → Automaton) → ProgramIsSearched member is_word p step }
{}

/// The same if its walks keep a list in place of their notes, and writing to the list corresponds
/// to noting.
pub fn program_is_searched_keeping<S, T>()
    ensures { (keeping : Keeping (List T)) (member : S → ℕ → Bool) (is_word : ℕ → Bool)
        (p : Program Look S) (step : ℕ → Automaton)
        → ProgramIsSearchedKeeping keeping member is_word p step }
{}

/// The search loop for all matches finds what the program finds among all.
pub fn program_is_searched_for_all<S>()
    ensures { (member : S → ℕ → Bool) (is_word : ℕ → Bool) (p : Program Look S)
        (step : ℕ → Automaton) → ProgramIsSearchedForAll member is_word p step }
{}

/// Both machines of a program read forward.
pub fn programs_read_forward<L, S, N>()
    ensures { (put : ℕ → ℕ → N → N) (member : S → ℕ → Bool) (step : ℕ → Automaton)
        (nodes : List (Node L S)) (h : Haystack L) → ProgramsReadForward put member step nodes h }
{}
