//! An example of prefilters.

use regex_cursor::{ChunkCursor, Input, MatchKind, Prefilter, Span, literal};
use std::test::Fail;

/// One of two needles, found across the boundary of two chunks.
#[test]
fn prefilter(rt: HostRuntime) -> Result<(), Fail> {
    let chunks: [&[u8]; 3] = [b"one fo", b"", b"ur two"];
    let needles: [&[u8]; 2] = [b"four", b"two"];
    let mut input = Input::new(ChunkCursor::new(&chunks));
    if let Some(prefilter) = Prefilter::new(rt.alloc(), MatchKind::LeftmostFirst, &needles)? {
        let found = literal::find(&prefilter, &mut input);
        assert!(rt; found == Some(Span { start: 4, end: 8 }));
    }
    Ok(())
}
