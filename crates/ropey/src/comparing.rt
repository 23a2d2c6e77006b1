//! Comparing, hashing and displaying ropes. Each uses the text alone, however it is split into
//! chunks.

ghost use Rattle.std.specs.Prelude.{◌≡◌, ◌↔◌, nat_eq, refl, IsTrue, Some};
ghost use Rattle.std.specs.Str.{chars};
ghost use Rattle.std.specs.Cmp.Lexicographic.{pointwise, slice_cmp};
ghost use Rattle.std.specs.Cmp.Rules.{comparing, hashing};
ghost use Rattle.std.specs.Ordering.{nat_cmp, on, as_partial_cmp};
ghost use Rattle.std.proofs.Common.{rules};
ghost use Rattle.ropey.specs.Chunks.{text_of};
ghost use Rattle.ropey.specs.Comparing.{text_bytes, hash_writes};

use crate::rope::Rope;
use std::cmp::Ordering;
use std::fmt;
use std::hash::{Hash, Hasher};

/// Ropes are equal if their texts are. `O(n)`, or `O(1)` if their lengths differ.
impl PartialEq for Rope {
    ghost eq = { on text_bytes (pointwise nat_eq) };

    ghost laws = { Prim.search (comparing, rules) };

    fn eq(&self, other: &Self) -> bool {
        self.whole() == other.whole()
    }
}

impl Eq for Rope {
    ghost laws = { Prim.search (comparing, rules) };
}

impl PartialOrd for Rope {
    ghost partial_cmp = { as_partial_cmp (on text_bytes (slice_cmp nat_cmp)) };

    ghost laws = { Prim.search (comparing, rules) };

    fn partial_cmp(&self, other: &Self) -> Option<Ordering> {
        Some(self.cmp(other))
    }
}

/// Compares ropes by the bytes of their texts, which is the order of the scalar values. `O(n)`.
impl Ord for Rope {
    ghost cmp = { on text_bytes (slice_cmp nat_cmp) };

    ghost total = { Prim.search (comparing, rules) };

    ghost matches_partial_cmp = { λ x y. refl };

    ghost matches_eq = { Prim.search (comparing, rules) };

    fn cmp(&self, other: &Self) -> Ordering {
        self.whole().cmp(&other.whole())
    }
}

/// Hashes as the slice of the whole text does: the text in blocks of 256 bytes, the last one
/// shorter and possibly empty, then 0xFF. `O(n)`.
impl Hash for Rope {
    ghost hash_input = { λ rope. hash_writes (text_bytes rope) };

    ghost respects_eq = { Prim.search (hashing, rules) };

    fn hash<H: Hasher>(&self, state: &mut H) {
        self.whole().hash(state);
    }
}

/// Writes the text's bytes, chunk by chunk. `O(n)`.
impl fmt::Display for Rope {
    ghost output = { λ rope. Some (text_bytes rope) };

    fn fmt<W: fmt::Write>(&self, f: &mut fmt::Formatter<W>) -> fmt::Result {
        fmt::Display::fmt(&self.whole(), f)
    }
}

impl Rope {
    /// Returns whether the rope's text equals `text`. `O(n)`, or `O(1)` if their lengths differ.
    pub fn eq_str(&self, text: &str) -> bool
        ensures { IsTrue result ↔ (text_of self.now ≡ chars text.now) }
    {
        self.whole().eq_str(text)
    }
}
