//! Laws of reverse programs and reverse automata. Each function does nothing: its contract is the
//! law.

ghost use Rattle.rx_walks.specs.Transposed.{ReadsAlike, ReadsOn, TransposedReadsLast};
ghost use Rattle.rx_walks.specs.BackLaws.{FindsBackAtMostOne, FindsMatchBack, FindsStartBack, FindsStartFirst, NothingIsFoundOutside, OwnersKeepPatterns, PathsAreCut, PathsAreTrails, ProgramIsSearchedBack, ProgramTurns, ProgramTurnsInBytes, ReadersFindAll, ReadsTurn};
ghost use Rattle.rx_walks.specs.Laws.{IsDecidable};
ghost use Rattle.rx_walks.specs.Programs.{Haystack, Node, Program};
ghost use Rattle.rx_walks.specs.Looks.{Look};
ghost use Rattle.rx_walks.specs.Bytes.{Automaton};
ghost use Rattle.std.specs.Prelude.{ℕ, List, Option, Bool};

/// A reverse automaton reads the characters that bytes end with.
pub fn transposed_reads_last()
    ensures { (member : ℕ → Bool) (step back : Automaton) → TransposedReadsLast member step back }
{}

/// What its states represent stays so if others are added and the first one's row is set.
pub fn transposed_reads_on()
    ensures { (step back back' : Automaton) → ReadsOn step back back' }
{}

/// It stays so if the same positions are given by another test.
pub fn transposed_reads_alike()
    ensures { (step back : Automaton) → ReadsAlike step back }
{}

/// Equality of numbers is decidable.
pub fn numbers_are_told()
    ensures { IsDecidable ℕ }
{}

/// Equality of pairs of numbers is decidable, such as a program's node and a state of its
/// automaton.
pub fn pairs_are_told()
    ensures { IsDecidable (ℕ × ℕ) }
{}

/// A path of a program is one edge after the other.
pub fn paths_are_trails<L, S, N>()
    ensures { (put : ℕ → ℕ → N → N) (first : S → List ℕ → Option ℕ) (nodes : List (Node L S))
        (h : Haystack L) → PathsAreTrails put first nodes h }
{}

/// If walks stop at an offset, there are the paths that end there or before it.
pub fn paths_are_cut<S>()
    ensures { (member : S → ℕ → Bool) (nodes : List (Node Look S)) (h : Haystack Look)
        → PathsAreCut member nodes h }
{}

/// A character that is read forward up to an offset is read from there on in the reversed haystack.
pub fn reads_turn<L, S>()
    ensures { (member : S → ℕ → Bool) (h : Haystack L) → ReadsTurn member h }
{}

/// A find starts at the first offset at which a match may begin and from which a path leads to a
/// match end.
pub fn finds_start_first<S>()
    ensures { (member : S → ℕ → Bool) (is_word : ℕ → Bool) (p : Program Look S)
        → FindsStartFirst member is_word p }
{}

/// The search loop for all matches finds the greatest end, whatever reads characters.
pub fn readers_find_all<L, S, N>()
    ensures { (put : ℕ → ℕ → N → N) (first : S → List ℕ → Option ℕ) (step : ℕ → Automaton)
        (nodes : List (Node L S)) (h : Haystack L) → ReadersFindAll put first step nodes h }
{}

/// In each search there is at most one backward find.
pub fn finds_back_at_most_one<S>()
    ensures { (member : S → ℕ → Bool) (is_word : ℕ → Bool) (p : Program Look S)
        → FindsBackAtMostOne member is_word p }
{}

/// From the end of a find, the backward search finds its start.
pub fn finds_start_back<S>()
    ensures { (member : S → ℕ → Bool) (is_word : ℕ → Bool) (p : Program Look S)
        → FindsStartBack member is_word p }
{}

/// The paths of a program are those of the reverse program over the reversed haystack.
pub fn program_turns<L, S, N>()
    ensures { (put : ℕ → ℕ → N → N) (member : S → ℕ → Bool) (p : Program L S) (h : Haystack L)
        → ProgramTurns put member p h }
{}

/// The same for its bytes, if its automata read characters backward.
pub fn program_turns_in_bytes<S>()
    ensures { (member : S → ℕ → Bool) (p : Program Look S) (step : ℕ → Automaton)
        → ProgramTurnsInBytes member p step }
{}

/// The search loop over the reversed haystack finds what is found backward.
pub fn program_is_searched_back<S>()
    ensures { (member : S → ℕ → Bool) (is_word : ℕ → Bool) (p : Program Look S)
        (step : ℕ → Automaton) → ProgramIsSearchedBack member is_word p step }
{}

/// If edges stay in their pattern, so do walks.
pub fn owners_keep_patterns<S>()
    ensures { (member : S → ℕ → Bool) (is_word : ℕ → Bool) (p : Program Look S)
        → OwnersKeepPatterns member is_word p }
{}

/// From the end of a find, the backward search finds the same match.
pub fn finds_match_back<S>()
    ensures { (member : S → ℕ → Bool) (is_word : ℕ → Bool) (p : Program Look S)
        → FindsMatchBack member is_word p }
{}

/// If the span or the slice starts past the haystack's end, nothing is found.
pub fn nothing_is_found_outside<S>()
    ensures { (member : S → ℕ → Bool) (is_word : ℕ → Bool) (p : Program Look S)
        → NothingIsFoundOutside member is_word p }
{}
