//! Uses of each public type of `ropey`.

use ropey::{Ends, Error, Rope, RopeBuilder, RopeSlice, TextRange};
use std::alloc::{AllocError, Global};
use std::test::Fail;

/// Returns whether there is a part, and it is this text.
fn is_text(part: Option<RopeSlice<'_>>, text: &str) -> bool {
    match part {
        Some(part) => part.as_str() == Some(text),
        None => false,
    }
}

/// Returns whether a rope of nine characters has the right results for its last character, and
/// after it.
fn tells_its_end(rope: &Rope) -> bool {
    rope.try_char_to_utf16_cu(9) == Ok(10)
        && rope.try_char_to_byte(10) == Err(Error::CharIndexOutOfBounds(10, 9))
        && rope.get_char(8) == Some('🐸')
}

#[test]
fn rope(rt: HostRuntime) -> Result<(), Fail> {
    let rope = Rope::from_str(rt.alloc(), "one\r\ntwo🐸")?;
    assert_eq!(rt; rope.len_bytes(), 12);
    assert_eq!(rt; rope.len_chars(), 9);
    assert_eq!(rt; rope.len_utf16_cu(), 10);
    assert_eq!(rt; rope.len_lines(), 2);
    assert!(rt; rope.try_line_to_byte(1) == Ok(5));
    assert!(rt; rope.try_char_to_byte(9) == Ok(12));

    // A clone shares all of its source.
    let copy = rope.clone()?;
    assert!(rt; tells_its_end(&copy));
    let text = copy.to_text()?;
    assert!(rt; text.as_str() == "one\r\ntwo🐸");
    Ok(())
}

#[test]
fn an_edited_rope(rt: HostRuntime) -> Result<(), Fail> {
    let mut rope = Rope::from_str(rt.alloc(), "ab\r\ncd")?;
    rope.try_insert(3, "x")?;
    assert!(rt; rope.eq_str("ab\rx\ncd"));
    rope.try_remove(3..4)?;
    assert!(rt; rope.eq_str("ab\r\ncd"));
    rope.try_replace(2..4, "é")?;
    assert!(rt; rope.eq_str("abécd"));
    assert!(rt;
        rope.try_byte_replace(3..4, "c") == Err(Error::ByteRangeNotCharBoundary(Some(3), Some(4)))
    );
    rope.try_byte_replace(2..4, "c")?;
    assert!(rt; rope.eq_str("abccd"));
    Ok(())
}

/// Returns a rope of two parts; a CR LF spans their boundary.
fn of_parts(alloc: Global) -> Result<Rope, Error> {
    let mut builder = RopeBuilder::new(alloc);
    builder.append("one\r")?;
    builder.append("\ntwo")?;
    builder.finish()
}

/// Returns a rope of a text and a slice.
fn with_slice(alloc: Global, slice: RopeSlice<'_>) -> Result<Rope, Error> {
    let mut builder = RopeBuilder::new(alloc);
    builder.append("three ")?;
    builder.append_slice(slice)?;
    builder.finish()
}

#[test]
fn rope_builder(rt: HostRuntime) -> Result<(), Fail> {
    let rope = of_parts(rt.alloc())?;
    assert!(rt; rope.len_lines() == 2);
    match rope.get_line(1) {
        Some(line) => assert!(rt; with_slice(rt.alloc(), line)?.eq_str("three two")),
        None => assert!(rt; false),
    }
    Ok(())
}

/// Returns whether the bytes of `aé` are yielded from its start on, and backward from its end.
fn gives_bytes(rope: &Rope) -> bool {
    let mut bytes = rope.bytes();
    let mut back = rope.bytes_at(rope.len_bytes()).reversed();
    bytes.len() == 3
        && bytes.next() == Some(b'a')
        && bytes.next() == Some(0xC3)
        && bytes.prev() == Some(0xC3)
        && back.next() == Some(0xA9)
}

/// Returns whether its characters are too, and a reversed clone goes backward.
fn gives_chars(rope: &Rope) -> Result<bool, AllocError> {
    let mut chars = rope.chars();
    let mut is_so = chars.next() == Some('a');
    let mut back = chars.clone()?.reversed();
    is_so = is_so && back.next() == Some('a') && back.next() == None;
    Ok(is_so && chars.next() == Some('é') && rope.chars_at(rope.len_chars()).prev() == Some('é'))
}

#[test]
fn bytes_and_chars(rt: HostRuntime) -> Result<(), Fail> {
    let rope = Rope::from_str(rt.alloc(), "aé")?;
    assert!(rt; gives_bytes(&rope) && gives_chars(&rope)?);
    Ok(())
}

/// Returns whether three lines, the last of which is empty, are yielded from the start on, and
/// backward from the end.
fn gives_lines(rope: &Rope) -> bool {
    let mut lines = rope.lines();
    let mut back = rope.lines_at(rope.len_lines()).reversed();
    is_text(lines.next(), "one\r\n")
        && lines.len() == 2
        && is_text(back.next(), "")
        && is_text(back.next(), "two\n")
}

/// Returns whether they are found by their numbers.
fn has_lines(rope: &Rope) -> bool {
    let is_first = rope.len_lines() == 3 && rope.line(0).as_str() == Some("one\r\n");
    is_first && is_text(rope.get_line(1), "two\n") && rope.get_line(3).is_none()
}

#[test]
fn lines(rt: HostRuntime) -> Result<(), Fail> {
    let rope = Rope::from_str(rt.alloc(), "one\r\ntwo\n")?;
    assert!(rt; gives_lines(&rope) && has_lines(&rope));
    Ok(())
}

/// Returns whether a rope of one chunk yields it, backward from its end, and from its start on.
fn gives_chunk(rope: &Rope, text: &str) -> bool {
    let (mut behind, byte, char, line) = rope.chunks_at_byte(rope.len_bytes());
    let mut ahead = rope.chunks_at_char(0).0;
    (byte, char, line) == (8, 8, 1)
        && behind.prev() == Some(text)
        && behind.reversed().prev() == Some(text)
        && ahead.next() == Some(text)
        && rope.chunks_at_line_break(rope.len_lines()).1 == 8
}

#[test]
fn chunks(rt: HostRuntime) -> Result<(), Fail> {
    let rope = Rope::from_chunks(rt.alloc(), ["one\r\n", "two"])?;
    assert!(rt; gives_chunk(&rope, "one\r\ntwo") && rope.chunks().next() == Some("one\r\ntwo"));
    let empty = Rope::new(rt.alloc());
    assert!(rt; empty.chunks().next().is_none());
    Ok(())
}

/// Returns whether a slice counts in its own text: this one starts with the LF, which is a break
/// for it.
fn counts_its_own(slice: RopeSlice<'_>) -> bool {
    let copy = slice;
    slice.len_chars() == 5
        && slice.len_lines() == 2
        && slice.as_str() == Some("\ntwo🐸")
        && is_text(slice.get_slice(1..=3), "two")
        && copy.get_char(4) == Some('🐸')
}

/// Returns whether the parts inside a rope exist. If a `get_` method returns a slice, the condition
/// of the plain method holds.
fn has_parts(rope: &Rope) -> bool {
    if rope.get_slice(..5).is_none() || rope.get_byte_slice(8..).is_none() {
        return false;
    }
    rope.get_slice(4..10).is_none()
        && rope.get_byte_slice(9..).is_none()
        && rope.slice(..5).as_str() == Some("one\r\n")
        && rope.byte_slice(8..).as_str() == Some("🐸")
}

#[test]
fn rope_slice(rt: HostRuntime) -> Result<(), Fail> {
    let rope = Rope::from_str(rt.alloc(), "one\r\ntwo🐸")?;
    assert!(rt; counts_its_own(rope.get_slice(4..).unwrap_or(RopeSlice::new(None))));
    assert!(rt; has_parts(&rope));
    Ok(())
}

/// Returns the first character of a range.
fn first_char<R: TextRange>(rope: &Rope, char_range: R) -> Option<char> {
    rope.get_slice(char_range)?.get_char(0)
}

/// Returns whether ranges of each form begin where they should.
fn take_ranges(rope: &Rope) -> bool {
    first_char(rope, 1..2) == Some('n')
        && first_char(rope, 1..=2) == Some('n')
        && first_char(rope, 2..) == Some('e')
        && first_char(rope, ..2) == Some('o')
        && first_char(rope, ..=2) == Some('o')
        && first_char(rope, ..) == Some('o')
        && first_char(rope, ..=3).is_none()
}

/// Returns whether a range that was iterated to its end is empty.
fn is_empty_where_spent(rope: &Rope) -> bool {
    let mut spent = 1..=1;
    spent.next() == Some(1) && spent.next().is_none() && is_text(rope.get_slice(spent), "")
}

/// Checks the bounds of ranges.
fn tell_ends() -> bool {
    let ends = (1..=2).ends();
    let open = Ends {
        start: None,
        end: None,
    };
    ends.start == Some(1) && ends.end == Some(3) && (..).ends() == open
}

#[test]
fn text_range(rt: HostRuntime) -> Result<(), Fail> {
    let rope = Rope::from_str(rt.alloc(), "one")?;
    assert!(rt; take_ranges(&rope) && is_empty_where_spent(&rope) && tell_ends());
    Ok(())
}

#[test]
fn error(rt: HostRuntime) -> Result<(), Fail> {
    let rope = Rope::from_str(rt.alloc(), "one")?;
    let refused = rope.try_byte_to_char(4);
    assert!(rt; refused == Err(Error::ByteIndexOutOfBounds(4, 3)));
    let Err(error) = refused else { return Ok(()) };
    let message = format!(in rt.alloc(); "{error}")?;
    assert!(rt; message.as_str() == "byte index 4 is past the 3 bytes of the text");
    Ok(())
}
