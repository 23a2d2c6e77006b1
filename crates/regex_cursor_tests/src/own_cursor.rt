//! A custom cursor, and a search over it.

ghost use Rattle.std.specs.Prelude.{◌≡◌};

use regex_cursor::engines::{dfa, hybrid};
use regex_cursor::{Anchored, Cursor, Input, MatchKind, Prefilter, Span, literal};
use std::marker::Model;
use std::test::Fail;

/// A haystack that is shown byte by byte, so that chunks split characters, and whose length isn't
/// known.
#[derive(Drop)]
struct Bytewise<'a> {
    bytes: &'a [u8],
    at: usize,
}

impl<'a> Model for Bytewise<'a> {
    ghost use Rattle.std.specs.Prelude.{◌+◌, ◌-◌, ◌≤◌, length, min, false};
    ghost use Rattle.rx_input.specs.Cursors.{CursorState};

    ghost Value = { CursorState };

    ghost view = { λ c. record {
      content = c.bytes.now;
      is_sized = false;
      start = c.at;
      end = min (c.at + 1) (length c.bytes.now);
    } };

    ghost invariant = { λ c. c.at ≤ length c.bytes.now - 1 };
}

impl<'a> Bytewise<'a> {
    fn new(bytes: &'a [u8]) -> Bytewise<'a>
        ensures content { result.content ≡ bytes.now }
        ensures start { result.start ≡ 0 }
    {
        Bytewise { bytes, at: 0 }
    }
}

impl<'a> Cursor for Bytewise<'a> {
    ghost state = { λ cursor. cursor };

    fn chunk(&self) -> &[u8] {
        &self.bytes[self.at..(self.at + 1).min(self.bytes.len())]
    }

    fn utf8_aware(&self) -> bool {
        false
    }

    fn advance(&mut self) -> bool {
        let is_more = self.at + 1 < self.bytes.len();
        if is_more {
            self.at += 1;
        }
        is_more
    }

    fn backtrack(&mut self) -> bool {
        let is_more = 0 < self.at;
        if is_more {
            self.at -= 1;
        }
        is_more
    }

    fn total_bytes(&self) -> Option<usize> {
        // For the proof: the cursor's facts.
        let _at = self.at;
        None
    }

    fn offset(&self) -> usize {
        self.at
    }
}

/// A needle that spans many chunks, which split its characters.
#[test]
fn a_literal_in_a_cursor_of_ones_own(rt: HostRuntime) -> Result<(), Fail> {
    let needles: [&[u8]; 2] = ["éé".as_bytes(), "été".as_bytes()];
    if let Some(prefilter) = Prefilter::new(rt.alloc(), MatchKind::LeftmostFirst, &needles)? {
        let mut input = Input::new(Bytewise::new("aé été".as_bytes()));
        let found = literal::find(&prefilter, &mut input);
        assert!(rt; found == Some(Span { start: 4, end: 9 }));
        let mut empty = Input::new(Bytewise::new(b""));
        assert!(rt; literal::find(&prefilter, &mut empty).is_none());
    }
    Ok(())
}

/// Searches backward from the end of a haystack whose length isn't known.
#[test]
fn back_in_a_cursor_of_ones_own(rt: HostRuntime) -> Result<(), Fail> {
    let mut input = Input::new(Bytewise::new("aé été".as_bytes()));
    input.set_anchored(Anchored::Yes);
    let re = dfa::Regex::new(rt.alloc(), "t?é")?;
    let found = dfa::try_search_rev(&re, &mut input)?;
    assert!(rt; found.map(|found| found.offset()) == Some(6));
    let re = hybrid::Regex::new(rt.alloc(), "t?é")?;
    let found = hybrid::try_search_rev(&re, &mut re.create_cache()?, &mut input)?;
    assert!(rt; found.map(|found| found.offset()) == Some(6));
    Ok(())
}
