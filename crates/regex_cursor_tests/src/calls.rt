//! Examples of calls of a `Regex`, of its builder and of its iterators.

use regex_cursor::engines::meta::{Builder, CapturesMatches, Config, Regex};
use regex_cursor::util::syntax;
use regex_cursor::{Input, MatchError, RopeyCursor, Span, parse};
use ropey::Rope;
use std::alloc::Global;
use std::test::Fail;

/// Returns the match of `git nix`, in any case, from byte 1 on, by a cursor that begins there.
fn git_nix(alloc: Global, text: &str) -> Result<Option<Span>, Fail> {
    let mut builder = Regex::builder();
    builder.syntax(
        syntax::Config::new()
            .case_insensitive(true)
            .multi_line(true),
    );
    let re = builder.build(alloc, "git nix")?;
    let rope = Rope::from_str(alloc, text)?;
    let slice = rope.slice(..);
    let cursor = RopeyCursor::at(slice, slice.len_bytes().min(1));
    let found = re.find(Input::new(cursor).range(1..))?;
    Ok(found.map(|found| found.span()))
}

/// Settings of the syntax apply in a rope from an offset on.
#[test]
fn from_a_place_on(rt: HostRuntime) -> Result<(), Fail> {
    assert!(rt; git_nix(rt.alloc(), "x")? == None);
    assert!(rt; git_nix(rt.alloc(), "xgit nix")? == Some(Span { start: 1, end: 8 }));
    assert!(rt; git_nix(rt.alloc(), "git nix\nGit Nix")? == Some(Span { start: 8, end: 15 }));
    Ok(())
}

/// Returns a regex of two trees, with default settings.
fn of_trees(alloc: Global) -> Result<Regex, Fail> {
    let first = parse(alloc, "b", &syntax::Config::new())?;
    let second = parse(alloc, "ab", &syntax::Config::new())?;
    let mut builder = Builder::new();
    builder.configure(Config::default());
    Ok(builder.build_many_from_hir(alloc, &[&first, &second])?)
}

/// It finds the second one, which starts first.
#[test]
fn build_many_from_hir(rt: HostRuntime) -> Result<(), Fail> {
    let re = of_trees(rt.alloc())?;
    assert!(rt; re.pattern_len() == 2);
    let found = re.find(Input::new("cab"))?;
    assert!(rt; found.map(|found| found.span()) == Some(Span { start: 1, end: 3 }));
    Ok(())
}

/// Returns the span of group 1 of the next match, if there is one.
fn next_group(found: &mut CapturesMatches<&str>) -> Result<Option<Span>, MatchError> {
    match found.next() {
        Some(caps) => Ok(caps?.get_group(1)),
        None => Ok(None),
    }
}

/// Groups of matches in an input whose position was moved.
#[test]
fn moved_captures(rt: HostRuntime) -> Result<(), Fail> {
    let re = Regex::new(rt.alloc(), "a(.)")?;
    let mut found = re.captures_iter(Input::new("abac"))?;
    found.input().set_start(1);
    assert!(rt; next_group(&mut found)? == Some(Span { start: 3, end: 4 }));
    Ok(())
}
