//! All matches of a regex, in order.

use counters::Counter;
use regex_cursor::engines::meta::{LinearMatches, Regex};
use regex_cursor::{ChunkCursor, Input, PatternID};
use std::test::Fail;

/// Matches come in order, by finds, and from a list once these have read too much.
#[test]
fn linear_matches(rt: HostRuntime) -> Result<(), Fail> {
    let alloc = rt.alloc();
    let re = Regex::new(alloc, "a*b|a")?;
    let content: [&[u8]; 3] = [b"aaaaaaaaaaaa", b"", b"aaaaaaaaaaaa"];
    let mut left = LinearMatches::new(Input::new(ChunkCursor::new(&content)));
    let mut cache = re.create_cache()?;
    let mut slots = Vec::new(alloc);
    slots.resize(re.group_info().implicit_slot_len(), None)?;
    let mut read = Counter::new();
    let first = left.next_slots(&re, &mut cache, &mut slots, &mut read)?;
    assert!(rt; first == Some(PatternID::ZERO) && !left.is_listed());
    left.next_slots(&re, &mut cache, &mut slots, &mut read)?;
    let third = left.next_slots(&re, &mut cache, &mut slots, &mut read)?;
    assert!(rt; third == Some(PatternID::ZERO) && left.is_listed());
    Ok(())
}
