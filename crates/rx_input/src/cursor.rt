//! Cursors: haystacks that are read chunk by chunk.

ghost use Rattle.std.specs.Prelude.{◌≡◌, ◌↔◌, ◌<◌, length, true, false};
ghost use Rattle.std.specs.Bool.{OnTrue, OnFalse};
ghost use Rattle.rx_input.specs.Cursors.{CursorState, IsLawful, IsNext, piece_of, told_length};

/// A haystack in chunks, and the current chunk. The haystack may have any bytes, and may be split
/// anywhere, also inside a character.
pub trait Cursor {
    // The haystack and the current chunk.
    ghost state: { Self → CursorState };

    /// Returns the current chunk. It is empty only if the haystack is.
    fn chunk(&self) -> &[u8]
        ensures chunk { result.now ≡ piece_of (state self.now) }
        ensures lawful { IsLawful (state self.now) };

    /// Returns whether no chunk splits a character. No match depends on it.
    fn utf8_aware(&self) -> bool {
        true
    }

    /// Moves to the next chunk, and returns whether there is one. At the end of the haystack
    /// nothing changes.
    fn advance(&mut self) -> bool
        ensures moved { OnTrue result (IsNext (state self.old) (state self.new)) }
        ensures refused { OnFalse result (state self.new ≡ state self.old) }
        ensures at_end { (result ≡ false)
            ↔ ((state self.old).end ≡ length (state self.old).content) }
        ensures lawful { IsLawful (state self.new) };

    /// Moves to the previous chunk, and returns whether there is one. At the start of the haystack
    /// nothing changes.
    fn backtrack(&mut self) -> bool
        ensures moved { OnTrue result (IsNext (state self.new) (state self.old)) }
        ensures refused { OnFalse result (state self.new ≡ state self.old) }
        ensures at_start { (result ≡ false) ↔ ((state self.old).start ≡ 0) }
        ensures lawful { IsLawful (state self.new) };

    /// Returns the number of bytes of the haystack, or `None` if the cursor doesn't report it.
    fn total_bytes(&self) -> Option<usize>
        ensures { result ≡ told_length (state self.now) };

    /// Returns the byte offset of the current chunk in the haystack.
    fn offset(&self) -> usize
        ensures offset { result ≡ (state self.now).start }
        ensures lawful { IsLawful (state self.now) };
}

impl<C: Cursor> Cursor for &mut C {
    ghost state = { λ cursor. C.state cursor.now };

    fn chunk(&self) -> &[u8] {
        C::chunk(self)
    }

    fn utf8_aware(&self) -> bool {
        C::utf8_aware(self)
    }

    fn advance(&mut self) -> bool {
        C::advance(self)
    }

    fn backtrack(&mut self) -> bool {
        C::backtrack(self)
    }

    fn total_bytes(&self) -> Option<usize> {
        C::total_bytes(self)
    }

    fn offset(&self) -> usize {
        C::offset(self)
    }
}

impl Cursor for &[u8] {
    ghost use Rattle.rx_input.specs.Cursors.{whole_cursor};

    ghost state = { λ bytes. whole_cursor bytes.now };

    fn chunk(&self) -> &[u8] {
        self
    }

    fn advance(&mut self) -> bool {
        false
    }

    fn backtrack(&mut self) -> bool {
        false
    }

    fn total_bytes(&self) -> Option<usize> {
        Some(self.len())
    }

    fn offset(&self) -> usize {
        0
    }
}

impl Cursor for &str {
    ghost use Rattle.rx_input.specs.Cursors.{whole_cursor};

    ghost state = { λ text. whole_cursor text.now };

    fn chunk(&self) -> &[u8] {
        self.as_bytes()
    }

    fn advance(&mut self) -> bool {
        false
    }

    fn backtrack(&mut self) -> bool {
        false
    }

    fn total_bytes(&self) -> Option<usize> {
        Some(self.len())
    }

    fn offset(&self) -> usize {
        0
    }
}
