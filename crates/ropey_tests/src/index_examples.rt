//! Uses of the modules of `str_indices`.

use str_indices::byte_chunk::{ByteChunk, Chunk};
use str_indices::{Counter, chars, lines, lines_crlf, lines_lf, utf16};

/// A character index of an editor is a byte index into its text. A byte inside a character belongs
/// to it.
fn are_characters(text: &str) -> bool {
    chars::count(text) == 4
        && chars::to_byte_idx(text, 2) == 3
        && chars::from_byte_idx(text, 3) == 2
        && chars::from_byte_idx(text, 5) == 2
}

/// A column of a language server counts UTF-16 code units. The second unit of a pair has the
/// character's start.
fn are_code_units(text: &str) -> bool {
    utf16::count(text) == 5
        && utf16::count_surrogates(text) == 1
        && utf16::to_byte_idx(text, 4) == 7
        && utf16::to_byte_idx(text, 3) == 3
        && utf16::from_byte_idx(text, 7) == 4
}

/// The line of a byte, and where a line starts.
fn are_lines(text: &str) -> bool {
    lines::count_breaks(text) == 2
        && lines::from_byte_idx(text, 9) == 1
        && lines::to_byte_idx(text, 2) == 11
        && lines_crlf::count_breaks(text) == 1
        && lines_lf::to_byte_idx(text, 1) == 5
}

/// A text splits into its first line, the break, and the rest.
fn fall_apart(text: &str) -> bool {
    match lines::first_break(text) {
        Some(at) => &text[..at.start] == "one" && &text[at.end..] == "two",
        None => false,
    }
}

#[test]
fn indices(rt: HostRuntime) {
    assert!(rt; are_characters("né🐸!"));
    assert!(rt; are_code_units("né🐸!"));
    assert!(rt; are_lines("one\r\ntwo\u{2028}three"));
    assert!(rt; fall_apart("one\r\ntwo"));
}

/// The lines of code that the README shows.
#[test]
fn readme(rt: HostRuntime) {
    let text = "one\r\ntwo🐸three";
    assert_eq!(rt; lines::count_breaks(text), 1);
    assert_eq!(rt; lines::to_byte_idx(text, 1), 5);
    assert_eq!(rt; lines::first_break(text), Some(3..5));
    assert_eq!(rt; chars::from_byte_idx(text, 8), 8);
    assert_eq!(rt; utf16::to_byte_idx(text, 9), 8);
}

/// Returns which bytes of eight are LF: 1 in their lanes, the first byte in the lowest.
fn are_lanes(chunk: usize) -> bool {
    chunk.cmp_eq_byte(b'\n') == 0x0000_0101_0000_0100
        && chunk.cmp_eq_byte(b'\n').first_nonzero() == 1
        && chunk.cmp_eq_byte(b'\r').first_nonzero() == usize::SIZE
}

/// The first tab of sixteen bytes.
fn has_tabs(chunk: Chunk) -> bool {
    chunk.cmp_eq_byte(b'\t').first_nonzero() == 4
        && chunk.cmp_eq_byte(b'\n').first_nonzero() == Chunk::SIZE
}

/// Chunks, and a kernel by chunks of 16 bytes, with the first 3 bytes one by one. Only a contract
/// reads `turns`.
#[test]
fn chunks(rt: HostRuntime) {
    assert!(rt; are_lanes(usize::load("a\nbc\n\nde".as_bytes(), 0)));
    assert!(rt; has_tabs(Chunk::load("name\t\tvalue\tunit".as_bytes(), 0)));
    let mut turns = Counter::new();
    assert!(rt; lines_lf::count_breaks_impl::<Chunk>("a\nb\n", 3, &mut turns) == 2);
}
