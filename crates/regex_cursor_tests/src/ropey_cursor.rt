//! Cursors over ropes.

use regex_cursor::{Cursor, RopeyCursor};
use ropey::Rope;
use std::test::Fail;

/// Returns whether a cursor shows this text in one chunk.
fn shows(cursor: &RopeyCursor, text: &str) -> bool {
    cursor.chunk() == text.as_bytes()
        && cursor.total_bytes() == Some(text.len())
        && cursor.offset() == 0
        && cursor.utf8_aware()
}

/// A text of one chunk, which the cursor visits.
#[test]
fn ropey_cursor(rt: HostRuntime) -> Result<(), Fail> {
    let rope = Rope::from_str(rt.alloc(), "one two")?;
    let mut cursor = RopeyCursor::new(rope.slice(..));
    assert!(rt; shows(&cursor, "one two") && !cursor.advance());
    assert!(rt; shows(&cursor.clone()?, "one two"));
    Ok(())
}
