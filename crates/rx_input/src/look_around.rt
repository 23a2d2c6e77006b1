//! The bytes around a position.

ghost use Rattle.std.specs.Prelude.{◌≡◌, ◌≤◌, take, drop};

use std::marker::Model;

/// The number of bytes on each side that decide a look-around assertion: the length of the longest
/// character.
pub(crate) const SIDE: usize = 4;

/// The bytes around a position, and the position among them.
#[derive(Debug, Drop)]
pub struct LookAround {
    bytes: [u8; 2 * SIDE],
    len: usize,
    position: usize,
}

impl Model for LookAround {
    ghost use Rattle.std.specs.Prelude.{◌≤◌, take};
    ghost use Rattle.rx_input.specs.Inputs.{Seen};

    ghost Value = { Seen };

    ghost view = { λ l. record { bytes = take l.len l.bytes; position = l.position } };

    ghost invariant = { λ l. (l.len ≤ 8) × (l.position ≤ l.len) };
}

impl LookAround {
    // Returns the first `len` bytes of an array, and the position among them.
    pub(crate) fn new(bytes: [u8; 2 * SIDE], len: usize, position: usize) -> LookAround
        requires len { len ≤ 8 }
        requires position { position ≤ len }
        ensures bytes { result.bytes ≡ take len bytes }
        ensures position { result.position ≡ position }
    {
        LookAround {
            bytes,
            len,
            position,
        }
    }

    /// Returns the bytes.
    pub fn bytes(&self) -> &[u8]
        ensures { result.now ≡ self.now.bytes }
    {
        &self.bytes[..self.len]
    }

    /// Returns the number of bytes before the position.
    pub fn position(&self) -> usize
        ensures { result ≡ self.now.position }
    {
        self.position
    }

    /// Returns the bytes before the position.
    pub fn before(&self) -> &[u8]
        ensures { result.now ≡ take self.now.position self.now.bytes }
    {
        &self.bytes[..self.position]
    }

    /// Returns the bytes after the position.
    pub fn after(&self) -> &[u8]
        ensures { result.now ≡ drop self.now.position self.now.bytes }
    {
        &self.bytes[self.position..self.len]
    }
}
