//! The bytes that needles begin with, if they are few.

ghost use Rattle.std.specs.Prelude.{◌≡◌, ◌≤◌, ℕ, true, length, map, IfSome};
ghost use Rattle.memchr.specs.Find.{IsFirst, IsFirstByte, Passes};
ghost use Rattle.rx_literals.specs.FirstBytes.{BeginAmong, is_among};

use memchr::{memchr, memchr2, memchr3};

/// Letters that are common in texts.
pub(crate) const COMMON: &[u8] = b" etaoinsr";

/// The maximum number of needles if one of the bytes is common in texts.
const FEW: usize = 3;

/// Returns whether a byte is common in texts.
pub(crate) fn is_common(byte: u8) -> bool {
    COMMON.contains(&byte)
}

/// The bytes that needles begin with, at least one and at most as many as `memchr` searches for at
/// once.
#[derive(Clone, Copy, Debug)]
pub(crate) enum FirstBytes {
    One(u8),
    Two(u8, u8),
    Three(u8, u8, u8),
}

impl FirstBytes {
    /// Adds a byte, which may be among them. Returns `None` if there would be four.
    fn with(self, byte: u8) -> Option<FirstBytes>
        ensures has { IfSome result (λ more. is_among more byte ≡ true) }
        ensures keeps { IfSome result (λ more. (x : ℕ) → is_among self x ≡ true
            → is_among more x ≡ true) }
    {
        match self {
            FirstBytes::One(a) if a == byte => Some(self),
            FirstBytes::One(a) => Some(FirstBytes::Two(a, byte)),
            FirstBytes::Two(a, b) if a == byte || b == byte => Some(self),
            FirstBytes::Two(a, b) => Some(FirstBytes::Three(a, b, byte)),
            FirstBytes::Three(a, b, c) if a == byte || b == byte || c == byte => Some(self),
            FirstBytes::Three(_, _, _) => None,
        }
    }

    /// Returns the bytes that these needles begin with; `None` if there are more than three, no
    /// needle, or an empty one.
    pub(crate) fn of(needles: &[&[u8]]) -> Option<FirstBytes>
        ensures { IfSome result
            (λ first. BeginAmong first (map (λ needle. needle.now) needles.now)) }
    {
        let mut first = FirstBytes::One(*needles.first()?.first()?);
        for needle in needles {
            first = first.with(*needle.first()?)?;
        }
        Some(first)
    }

    /// Returns whether one of them is common in texts.
    fn has_common(&self) -> bool {
        match *self {
            FirstBytes::One(a) => is_common(a),
            FirstBytes::Two(a, b) => is_common(a) || is_common(b),
            FirstBytes::Three(a, b, c) => is_common(a) || is_common(b) || is_common(c),
        }
    }

    /// Returns whether more than one of them is common in texts.
    fn are_common(&self) -> bool {
        match *self {
            FirstBytes::One(_) => false,
            FirstBytes::Two(a, b) => is_common(a) && is_common(b),
            FirstBytes::Three(a, b, c) => {
                (is_common(a) && (is_common(b) || is_common(c))) || (is_common(b) && is_common(c))
            }
        }
    }

    /// Returns whether scanning for them pays if there is this number of needles: none of them is
    /// common in texts, or one is and there are at most three needles.
    pub(crate) fn pay_for(&self, needles: usize) -> bool {
        !self.are_common() && (needles <= FEW || !self.has_common())
    }

    /// Returns the offset in `hay` of the first of these bytes.
    fn find(&self, hay: &[u8]) -> Option<usize>
        ensures { IsFirstByte (is_among self.now) hay.now result }
    {
        match *self {
            FirstBytes::One(a) => memchr(a, hay),
            FirstBytes::Two(a, b) => memchr2(a, b, hay),
            FirstBytes::Three(a, b, c) => memchr3(a, b, c, hay),
        }
    }

    /// Returns the first offset in `hay`, from a given one on, that has one of these bytes.
    pub(crate) fn find_from(&self, hay: &[u8], from: usize) -> Option<usize>
        requires { from ≤ length hay.now }
        ensures { IsFirst (Passes (is_among self.now) hay.now) from (length hay.now) result }
    {
        match self.find(&hay[from..]) {
            Some(further) => Some(from + further),
            None => None,
        }
    }
}
