//! Checking UTF-8 without keeping the bytes.
ghost use Rattle.std.specs.Prelude.{◌≡◌, ◌+◌, ◌≤◌, ◌<◌, ◌↔◌, ◌∷◌, [], List, ℕ, length, take, IsTrue, IsUtf8};
ghost use Rattle.rope_search_io.specs.Utf8Judge.{Continues, Feeds, len_by_first};

use std::marker::Model;

/// Checks whether bytes that come in parts are UTF-8. Keeps at most a part of one character, and
/// allocates nothing.
#[derive(Drop)]
pub struct Utf8Judge {
    part: [u8; 4],
    len: usize,
    dead: bool,
}

impl Model for Utf8Judge {
    ghost use Rattle.std.specs.Prelude.{◌<◌, slice_index, take};
    ghost use Rattle.rope_search_io.specs.Utf8Judge.{Judging, len_by_first};

    ghost Value = { Judging };

    ghost view = { λ j. record { part = take j.len j.part; dead = j.dead } };

    ghost invariant = { λ j. (j.len < 4)
        × (0 < j.len → j.len < len_by_first (slice_index j.part 0)) };
}

/// Returns the number of bytes of a character, given its first byte.
const fn width(first: u8) -> usize
    ensures value { result ≡ len_by_first first }
    ensures few { result ≤ 4 }
{
    match first {
        0..0x80 => 1,
        0x80..0xe0 => 2,
        0xe0..0xf0 => 3,
        _ => 4,
    }
}

/// Returns whether these bytes are UTF-8.
fn is_text(bytes: &[u8]) -> bool
    ensures { IsTrue result ↔ IsUtf8 bytes.now }
{
    str::from_utf8(bytes).is_ok()
}

/// Returns the length of the longest prefix that is UTF-8.
fn text_len(bytes: &[u8]) -> usize
    ensures within { result ≤ length bytes.now }
    ensures front { IsUtf8 (take result bytes.now) }
{
    match str::from_utf8(bytes) {
        Ok(_) => bytes.len(),
        Err(error) => error.valid_up_to(),
    }
}

impl Utf8Judge {
    /// Returns a judge of no bytes.
    pub fn new() -> Utf8Judge
        ensures { (more : List ℕ) → Continues result more ↔ IsUtf8 more }
    {
        Utf8Judge {
            part: [0; 4],
            len: 0,
            dead: false,
        }
    }

    /// Adds bytes after those so far. `O(n)` in their number.
    pub fn feed(&mut self, bytes: &[u8])
        ensures { Feeds self.old self.new bytes.now }
    {
        let (last, rest) = bytes.split_at(self.lacking().min(bytes.len()));
        self.push_all(last);
        if self.len > 0 {
            self.push_all(rest);
            return;
        }
        // All bytes but the last, which may be a part of a character, are checked at once.
        let tail = &rest[text_len(rest)..];
        self.push_all(tail);
    }

    /// Returns whether all bytes so far are UTF-8. They aren't if they end inside a character.
    pub fn is_utf8(&self) -> bool
        ensures { IsTrue result ↔ Continues self.now [] }
    {
        !self.dead && self.len == 0
    }

    // Returns the number of bytes that the current character lacks.
    fn lacking(&self) -> usize {
        if self.len == 0 {
            return 0;
        }
        width(self.part[0]) - self.len
    }

    // Adds these bytes one by one.
    fn push_all(&mut self, bytes: &[u8])
        ensures { Feeds self.old self.new bytes.now }
    {
        for byte in bytes {
            self.push(*byte);
        }
    }

    // Adds one byte.
    fn push(&mut self, byte: u8)
        ensures { (more : List ℕ) → Continues self.old (byte ∷ more) ↔ Continues self.new more }
    {
        if self.dead {
            return;
        }
        let len = self.len + 1;
        self.part[self.len] = byte;
        if len < width(self.part[0]) {
            self.len = len;
            return;
        }
        self.dead = !is_text(&self.part[..len]);
        self.len = 0;
    }
}
