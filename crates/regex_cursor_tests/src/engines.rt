//! Examples of whole matches by the engines with automata.

use regex_cursor::engines::{dfa, hybrid};
use regex_cursor::{Input, Match, Span};
use std::test::Fail;

/// Returns the span of a match, if there is one.
fn span_of(found: Option<Match>) -> Option<Span> {
    found.map(|found| found.span())
}

/// A match by states that are made on demand, and the memory that they use.
#[test]
fn by_some_states(rt: HostRuntime) -> Result<(), Fail> {
    let re = hybrid::Regex::new(rt.alloc(), "[a-z]+")?;
    let mut cache = re.create_cache()?;
    let found = hybrid::try_search(&re, &mut cache, &mut Input::new("12ab"))?;
    assert!(rt; span_of(found) == Some(Span { start: 2, end: 4 }));
    assert!(rt; cache.memory_usage() > 0);
    Ok(())
}

/// A match by states that are all made in advance, and no match.
#[test]
fn by_all_states(rt: HostRuntime) -> Result<(), Fail> {
    let re = dfa::Regex::new(rt.alloc(), "[a-z]+")?;
    let found = dfa::try_search(&re, &mut Input::new("12ab"))?;
    assert!(rt; span_of(found) == Some(Span { start: 2, end: 4 }));
    assert!(rt; span_of(dfa::try_search(&re, &mut Input::new("12"))?) == None);
    Ok(())
}
