//! Laws of nodes that lead to a match. Each function does nothing: its contract is the law.

ghost use Rattle.rx_walks.specs.LeadLaws.{FollowedIsLeast, LeadsIsKnown, LeastIsFollowed, StartsCountWhereTheyLead, ListingsAreMatches, ByteListingsAreMatches, ListingsExist, LeadsIsToldBack, BytesAreStepped};
ghost use Rattle.rx_walks.specs.LeadBackLaws.{BytesComeAlike, ListsHoldReached, ListsTellLeads, ReverseTellsLeads};
ghost use Rattle.rx_walks.specs.Machines.{Machine};
ghost use Rattle.rx_walks.specs.Programs.{Node, Haystack, Program};
ghost use Rattle.rx_walks.specs.Likenesses.{Keeping};
ghost use Rattle.rx_walks.specs.Looks.{Look};
ghost use Rattle.rx_walks.specs.Bytes.{Automaton};
ghost use Rattle.std.specs.Prelude.{ℕ, Bool, List, Option};

/// Whether a node at an offset leads to a match is decidable.
pub fn leads_is_known<Q, N>()
    ensures { (m : Machine Q N) → LeadsIsKnown m }
{}

/// The nodes that lead at an offset follow from those that lead at the next.
pub fn leads_is_told_back<Q, N>()
    ensures { (m : Machine Q N) → LeadsIsToldBack m }
{}

/// The walk followed over leading nodes is the least walk.
pub fn followed_is_least<Q, N>()
    ensures { (m : Machine Q N) → FollowedIsLeast m }
{}

/// The least walk is followed from every leading node.
pub fn least_is_followed<Q, N>()
    ensures { (m : Machine Q N) → LeastIsFollowed m }
{}

/// A start counts exactly if a match may begin there and its node leads.
pub fn starts_count_where_they_lead<S>()
    ensures { (member : S → ℕ → Bool) (is_word : ℕ → Bool) (p : Program Look S)
        → StartsCountWhereTheyLead member is_word p }
{}

/// A list built with leading nodes is the list of matches.
pub fn listings_are_matches<S>()
    ensures { (member : S → ℕ → Bool) (is_word : ℕ → Bool) (p : Program Look S)
        → ListingsAreMatches member is_word p }
{}

/// The same for a list built over bytes, with what is kept of the matches.
pub fn byte_listings_are_matches<S, T>()
    ensures { (keeping : Keeping (List T)) (member : S → ℕ → Bool) (is_word : ℕ → Bool)
        (p : Program Look S) (step : ℕ → Automaton)
        → ByteListingsAreMatches keeping member is_word p step }
{}

/// Leading nodes give a list.
pub fn listings_exist<S>()
    ensures { (member : S → ℕ → Bool) (is_word : ℕ → Bool) (p : Program Look S)
        → ListingsExist member is_word p }
{}

/// A program over bytes reads them one by one.
pub fn bytes_are_stepped<L, S, N>()
    ensures { (put : ℕ → ℕ → N → N) (step : ℕ → Automaton) (nodes : List (Node L S))
        (h : Haystack L) → BytesAreStepped put step nodes h }
{}

/// The reverse program, started at every offset, reaches exactly the leading nodes.
pub fn reverse_tells_leads<L, S, N>()
    ensures { (put : ℕ → ℕ → N → N) (member : S → ℕ → Bool) (p : Program L S) (h : Haystack L)
        → ReverseTellsLeads put member p h }
{}

/// The threads of a search that starts one at every offset are at all nodes that walks reach.
pub fn lists_hold_reached<Q, N>()
    ensures { (m : Machine Q N) → ListsHoldReached m }
{}

/// A program over bytes reaches the nodes that the program over characters does.
pub fn bytes_come_alike<L, S, N>()
    ensures { (put : ℕ → ℕ → N → N) (first : S → List ℕ → Option ℕ) (step : ℕ → Automaton)
        (nodes : List (Node L S)) (h : Haystack L) → BytesComeAlike put first step nodes h }
{}

/// The threads of the search with the reverse program give the leading nodes.
pub fn lists_tell_leads<L, S, N>()
    ensures { (put : ℕ → ℕ → N → N) (member : S → ℕ → Bool) (step : ℕ → Automaton)
        (p : Program L S) (h : Haystack L) → ListsTellLeads put member step p h }
{}
