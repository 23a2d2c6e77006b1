//! Moving a cursor to an offset, and reading there.

ghost use Rattle.std.specs.Prelude.{◌≡◌, ◌+◌, ◌-◌, ◌≤◌, length, min, take, drop, slice_get, ◌^◌, ◌<◌};
ghost use Rattle.rx_input.specs.Cursors.{IsSameContent};
ghost use Rattle.rx_input.specs.Inputs.{HoldsPlace};

use crate::cursor::Cursor;

/// Moves back until the chunk starts at or before the offset.
fn back_to<C: Cursor>(cursor: &mut C, at: usize)
    ensures same { IsSameContent (C.state cursor.old) (C.state cursor.new) }
    ensures reached { (C.state cursor.new).start ≤ at }
{
    while at < cursor.offset() {
        cursor.backtrack();
    }
}

/// Moves forward until the chunk contains the byte at the offset, or is the last one. Returns the
/// position in the chunk: that of the offset, or of the end of the haystack if that is less.
fn on_to<C: Cursor>(cursor: &mut C, at: usize) -> usize
    requires { (C.state cursor.old).start ≤ at }
    ensures same { IsSameContent (C.state cursor.old) (C.state cursor.new) }
    ensures holds { HoldsPlace (C.state cursor.new)
        (min at (length (C.state cursor.new).content)) }
    ensures index { (C.state cursor.new).start + result
        ≡ min at (length (C.state cursor.new).content) }
{
    loop {
        let index = at - cursor.offset();
        let len = cursor.chunk().len();
        if index < len || !cursor.advance() {
            return index.min(len);
        }
    }
}

/// Moves to the chunk that contains the byte at the offset, or to the last one. Returns the
/// position in the chunk: that of the offset, or of the end of the haystack if that is less.
pub(crate) fn move_to<C: Cursor>(cursor: &mut C, at: usize) -> usize
    ensures same { IsSameContent (C.state cursor.old) (C.state cursor.new) }
    ensures holds { HoldsPlace (C.state cursor.new)
        (min at (length (C.state cursor.new).content)) }
    ensures index { (C.state cursor.new).start + result
        ≡ min at (length (C.state cursor.new).content) }
{
    back_to(cursor, at);
    on_to(cursor, at)
}

/// Returns the byte at an offset. May change the current chunk.
fn byte_at<C: Cursor>(cursor: &mut C, at: usize) -> Option<u8>
    ensures same { IsSameContent (C.state cursor.old) (C.state cursor.new) }
    ensures byte { result ≡ slice_get (C.state cursor.old).content at }
{
    let index = move_to(cursor, at);
    cursor.chunk().get(index).copied()
}

/// Reads bytes from an offset on, one by one, until `buf` is full or the haystack ends. Returns
/// their number.
fn read_bytes<C: Cursor>(cursor: &mut C, from: usize, buf: &mut [u8]) -> usize
    requires { from + length buf.old < 2 ^ 64 }
    ensures same { IsSameContent (C.state cursor.old) (C.state cursor.new) }
    ensures bytes { take result buf.new
        ≡ take (length buf.old) (drop from (C.state cursor.old).content) }
    ensures count { result ≤ length buf.new }
    ensures room { length buf.new ≡ length buf.old }
{
    for index in 0..buf.len() {
        match byte_at(cursor, from + index) {
            Some(byte) => buf[index] = byte,
            None => return index,
        }
    }
    buf.len()
}

/// Reads bytes from an offset on, until `buf` is full or the haystack ends. Returns their number.
/// May change the current chunk.
pub(crate) fn read_at<C: Cursor>(cursor: &mut C, from: usize, buf: &mut [u8]) -> usize
    requires { from + length buf.old < 2 ^ 64 }
    ensures same { IsSameContent (C.state cursor.old) (C.state cursor.new) }
    ensures bytes { take result buf.new
        ≡ take (length buf.old) (drop from (C.state cursor.old).content) }
    ensures count { result ≤ length buf.new }
    ensures room { length buf.new ≡ length buf.old }
{
    let index = move_to(cursor, from);
    let chunk = cursor.chunk();
    let len = buf.len();
    if chunk.len() - index < len {
        return read_bytes(cursor, from, buf);
    }
    buf.copy_from_slice(&chunk[index..index + len]);
    len
}
