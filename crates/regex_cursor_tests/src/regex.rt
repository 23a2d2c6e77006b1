//! An example for each public type of `regex_cursor`.

ghost use Rattle.regex_cursor.specs.Regexes.{IsCacheOf};

use regex_cursor::engines::meta::{
    Builder, Cache, CapturesMatches, Config, FindMatches, Regex, Split,
};
use regex_cursor::util::syntax;
use regex_cursor::{
    BuildError, ChunkCursor, Input, Match, MatchError, RopeyCursor, Span, WhichCaptures,
};
use ropey::Rope;
use std::alloc::Global;
use std::test::Fail;

/// A search over a rope, then over one of its lines, with groups and a cache that is reused.
#[test]
fn regex(rt: HostRuntime) -> Result<(), Fail> {
    let rope = Rope::from_str(rt.alloc(), "a frog@pond,\na toad@road\n")?;
    let re = Regex::new(rt.alloc(), r"(?<name>\w+)@(\w+)")?;
    let found = re.find(Input::new(RopeyCursor::new(rope.slice(..))))?;
    assert!(rt; found.map(|found| found.span()) == Some(Span { start: 2, end: 11 }));
    let mut cache = re.create_cache()?;
    let mut caps = re.create_captures()?;
    if let Some(line) = rope.get_line(1) {
        let mut input = Input::new(RopeyCursor::new(line));
        re.search_captures_with(&mut cache, &mut input, &mut caps)?;
    }
    assert!(rt; caps.get_group_by_name("name") == Some(Span { start: 2, end: 6 }));
    Ok(())
}

/// Returns the span of the match that an iterator yields, if it yields one.
fn span_of(item: Option<Result<Match, MatchError>>) -> Result<Option<Span>, MatchError> {
    match item {
        Some(Ok(found)) => Ok(Some(found.span())),
        Some(Err(error)) => Err(error),
        None => Ok(None),
    }
}

/// Matches in order. The input is moved forward and back: an empty match is found where the last
/// match didn't end.
#[test]
fn find_matches(rt: HostRuntime) -> Result<(), Fail> {
    let re = Regex::new(rt.alloc(), "x*")?;
    let mut found: FindMatches<&str> = re.find_iter(Input::new("-xx"))?;
    assert!(rt; found.regex().captures_len() == 1);
    found.input().set_span(1..3);
    assert!(rt; span_of(found.next())? == Some(Span { start: 1, end: 3 }));
    found.input().set_span(0..3);
    assert!(rt; span_of(found.next())? == Some(Span { start: 0, end: 0 }));
    Ok(())
}

/// Returns the span of group 1 of the match that an iterator yields, if it yields one.
fn first_group(found: &mut CapturesMatches<ChunkCursor>) -> Result<Option<Span>, MatchError> {
    match found.next() {
        Some(caps) => Ok(caps?.get_group(1)),
        None => Ok(None),
    }
}

/// Matches with their groups. An iterator that has ended yields no more.
#[test]
fn captures_matches(rt: HostRuntime) -> Result<(), Fail> {
    let chunks: [&[u8]; 2] = [b"a frog@po", b"nd"];
    let re = Regex::new(rt.alloc(), r"\w+@(\w+)")?;
    let mut found = re.captures_iter(Input::new(ChunkCursor::new(&chunks)))?;
    assert!(rt; found.regex().captures_len() == 2);
    assert!(rt; first_group(&mut found)? == Some(Span { start: 7, end: 11 }));
    assert!(rt; found.next().is_none());
    Ok(())
}

/// Returns the first part in `a,b,c`, after the input was moved forward and back, past the first
/// match.
fn first_part(re: &Regex) -> Result<Option<Span>, MatchError> {
    let mut parts: Split<&str> = re.split(Input::new("a,b,c"))?;
    parts.input().set_span(4..5);
    parts.input().set_span(2..5);
    match parts.next() {
        Some(part) => Ok(Some(part?)),
        None => Ok(None),
    }
}

/// Parts start at 0, wherever the input was moved to.
#[test]
fn parts(rt: HostRuntime) -> Result<(), Fail> {
    let re = Regex::new(rt.alloc(), ",")?;
    assert!(rt; first_part(&re)? == Some(Span { start: 0, end: 3 }));
    assert!(rt; re.split(Input::new("a,b,c"))?.count() == 3);
    Ok(())
}

/// Returns a regex with settings, built by a clone of a builder.
fn under_settings(alloc: Global) -> Result<Regex, Fail> {
    let mut builder = Builder::new();
    builder.configure(Config::new().line_terminator(b';').hybrid(false));
    builder.configure(Regex::config().which_captures(WhichCaptures::Implicit));
    builder.syntax(syntax::Config::new().multi_line(true));
    Ok(builder.clone()?.build(alloc, "^(b)")?)
}

/// Returns whether a regex keeps these settings, and counts patterns and groups.
fn are_kept(re: &Regex) -> bool {
    let config = re.get_config();
    let are_set = config.get_line_terminator() == b';' && !config.get_hybrid() && config.get_dfa();
    are_set && re.pattern_len() == 1 && re.captures_len() == 2 && re.group_info().slot_len() == 2
}

/// A regex with settings, which it keeps, and the end of the match that it finds.
#[test]
fn builder(rt: HostRuntime) -> Result<(), Fail> {
    let re = under_settings(rt.alloc())?;
    assert!(rt; are_kept(&re));
    let half = re.search_half(Input::new("a;b"))?;
    assert!(rt; half.map(|half| half.offset()) == Some(3));
    Ok(())
}

/// Why there is no regex: here the pattern isn't in the grammar.
#[test]
fn build_error(rt: HostRuntime) -> Result<(), Fail> {
    let refused: Option<BuildError> = Regex::builder().build(rt.alloc(), "(").err();
    assert!(rt; refused.is_some_and(|error| error.syntax_error().is_some()));
    Ok(())
}

/// Returns the match found in an input with a borrowed cache.
fn found_with(
    re: &Regex,
    cache: &mut Cache,
    input: &mut Input<&str>,
) -> Result<Option<Span>, MatchError>
    requires { IsCacheOf re.now cache.old }
    ensures { IsCacheOf re.now cache.new }
{
    let found = re.search_with(cache, input)?;
    Ok(found.map(|found| found.span()))
}

/// Searches once with each of two regexes; the cache is reset for the second.
fn in_turn(
    first: &Regex,
    second: &Regex,
    cache: &mut Cache,
) -> Result<(Option<Span>, Option<Span>), MatchError>
    requires { IsCacheOf first.now cache.old }
{
    let mut input = Input::new("bax");
    let found = found_with(first, cache, &mut input)?;
    cache.reset(second)?;
    Ok((found, found_with(second, cache, &mut input)?))
}

fn with_one_cache(
    alloc: Global,
    first: &Regex,
    second: &Regex,
) -> Result<(Option<Span>, Option<Span>), MatchError> {
    let mut cache = Cache::new(alloc, first)?;
    in_turn(first, second, &mut cache)
}

/// Returns whether there is a match, by a search for any match.
fn has_any(re: &Regex) -> Result<bool, MatchError> {
    let mut input = Input::new("bax");
    input.set_earliest(true);
    Ok(re.find(input)?.is_some())
}

/// A cache that was made for one regex and is reset for another one; and a search for any match,
/// whose only specified result is whether there is one.
#[test]
fn cache(rt: HostRuntime) -> Result<(), Fail> {
    let first = Regex::new(rt.alloc(), "x")?;
    let second = Regex::new(rt.alloc(), "a")?;
    let found = with_one_cache(rt.alloc(), &first, &second)?;
    assert!(rt;
        found
            == (
                Some(Span { start: 2, end: 3 }),
                Some(Span { start: 1, end: 2 })
            )
    );
    assert!(rt; first.create_cache()?.memory_usage() > 0 && has_any(&second)?);
    Ok(())
}
