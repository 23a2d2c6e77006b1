//! Matches of a searcher, in order, by a custom finder.

ghost use Rattle.std.specs.Prelude.{◌≡◌, IfOk};
ghost use Rattle.std.specs.Option.{ForSome};
ghost use Rattle.rx_input.specs.Searchers.{EndsInside};

use rx_chunk::pikevm::{self, PikeVM};
use rx_input::Input;
use rx_input::iter::Searcher;
use rx_util::{HalfMatch, Match, MatchError, Span};
use std::alloc::Global;
use std::test::Fail;

/// Returns the match found by an engine, with its own cache.
fn find(alloc: Global, vm: &PikeVM, input: &mut Input<&str>) -> Result<Option<Match>, MatchError>
    ensures asked { input.new.asked ≡ input.old.asked }
    ensures inside { IfOk result (λ found. ForSome found
        (λ m. EndsInside input.old m.span.end)) }
{
    let mut cache = vm.create_cache()?;
    let mut caps = vm.create_captures()?;
    pikevm::search(vm, &mut cache, input, &mut caps)?;
    Ok(caps.get_match())
}

/// Returns where the match found by an engine ends.
fn find_end(
    alloc: Global,
    vm: &PikeVM,
    input: &mut Input<&str>,
) -> Result<Option<HalfMatch>, MatchError>
    ensures asked { input.new.asked ≡ input.old.asked }
    ensures inside { IfOk result (λ found. ForSome found
        (λ m. EndsInside input.old m.offset)) }
{
    match find(alloc, vm, input)? {
        Some(found) => Ok(Some(HalfMatch::new(found.pattern(), found.end()))),
        None => Ok(None),
    }
}

/// Returns the next match of a searcher.
fn next_match(
    alloc: Global,
    vm: &PikeVM,
    searcher: &mut Searcher<Input<&str>>,
) -> Result<Option<Match>, MatchError> {
    searcher.try_advance(|input| find(alloc, vm, input))
}

/// An empty match where the one before ended is skipped.
#[test]
fn empty_matches(rt: HostRuntime) -> Result<(), Fail> {
    let alloc = rt.alloc();
    let vm = PikeVM::new(alloc, "x*")?;
    let mut searcher = Searcher::new(Input::new("xせ"));
    for wanted in [Some((0, 1)), Some((4, 4)), None] {
        let found = next_match(alloc, &vm, &mut searcher)?;
        let found = found.map(|found| (found.start(), found.end()));
        assert!(rt; found == wanted, "{found:?}");
    }
    assert_eq!(rt; searcher.input().get_span(), Span { start: 5, end: 4 });
    Ok(())
}

/// So is a half match that ends there.
#[test]
fn half_matches(rt: HostRuntime) -> Result<(), Fail> {
    let alloc = rt.alloc();
    let vm = PikeVM::new(alloc, "x*")?;
    let searcher = Searcher::new(Input::new("xせx"));
    let mut ends = 0;
    for found in searcher.into_half_matches_iter(|input| find_end(alloc, &vm, input)) {
        let end = found?.offset();
        assert!(rt; [1, 5].get(ends).copied() == Some(end), "{end}");
        ends = ends.saturating_add(1);
    }
    assert_eq!(rt; ends, 2);
    Ok(())
}
