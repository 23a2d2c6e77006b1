//! Examples of the parts of a pattern's tree and of its program, and of why a text isn't a pattern.

use regex_cursor::nfa::{Program, State, compile};
use regex_cursor::util::hir::{CharacterSet, Look, Node, Repetition};
use regex_cursor::util::syntax::Config;
use regex_cursor::{Hir, Mistake, Reason, Refusal, explain, parse};
use std::test::Fail;

/// Where and why a text is refused, and that a pattern isn't refused.
#[test]
fn refusal(rt: HostRuntime) -> Result<(), Fail> {
    let why: Option<Refusal> = explain(rt.alloc(), "a)", &Config::new())?;
    let reason = Reason::Outside(Mistake::NoOpenGroup);
    assert!(rt; why == Some(Refusal { place: 1, reason }));
    assert!(rt; explain(rt.alloc(), "a", &Config::default())? == None);
    Ok(())
}

/// Returns the set of characters that a node reads.
fn set_of(node: &Node) -> Option<&CharacterSet> {
    match node {
        Node::Set(set) => Some(set),
        _ => None,
    }
}

/// Returns the minimum number of repetitions at a node.
fn least_of(node: &Node) -> Option<u32> {
    match node {
        Node::Repeat(Repetition { min, .. }) => Some(*min),
        _ => None,
    }
}

/// Each part of a pattern comes after those below it.
#[test]
fn tree(rt: HostRuntime) -> Result<(), Fail> {
    let hir: Hir = parse(rt.alloc(), "[a-c]{2,}", &Config::new())?;
    let set = hir.nodes().first().and_then(set_of);
    assert!(rt; set.is_some_and(|set| set.contains(98) && !set.contains(100)));
    assert!(rt; hir.nodes().last().and_then(least_of) == Some(2));
    let hir = parse(rt.alloc(), "^", &Config::new())?;
    assert!(rt; matches!(hir.nodes().first(), Some(Node::Look(Look::Start))));
    Ok(())
}

/// The last state of a program ends a match.
#[test]
fn program(rt: HostRuntime) -> Result<(), Fail> {
    let hir = parse(rt.alloc(), "a|b", &Config::new())?;
    let program: Program = compile(rt.alloc(), &[&hir], b'\n', None)?;
    assert!(rt; matches!(program.states().last(), Some(State::Match(_))));
    Ok(())
}
