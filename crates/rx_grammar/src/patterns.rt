//! Parsing a whole pattern.

ghost use Rattle.std.specs.Prelude.{◌≡◌, ◌≢◌, ◌<◌, ◌≤◌, ◌↔◌, All, AllPairs, Contains, MatchBool, length, chars, encode_utf8_all, map, IfOk, IfErr};
ghost use Rattle.rx_grammar.specs.Postorder.{tree_of, names_in};
ghost use Rattle.rx_grammar.specs.Grammar.{Spells, NeverSpells, IsTooDeep};
ghost use Rattle.rx_grammar.specs.Nodes.{kind_of};
ghost use Rattle.rx_grammar.specs.Stacks.{IsReason};

use crate::error::SyntaxError;
use crate::hir::{Hir, Node};
use crate::parser::Parser;
use crate::syntax::Config;
use std::alloc::{AllocError, Global};

/// The most bytes of a pattern.
pub(crate) const MAX_BYTES: usize = 65_536;

/// Returns whether the name is among the names.
fn stands_in(name: &str, names: &[&str]) -> bool
    ensures { MatchBool result (Contains (map (λ name. name.now) names.now) name.now)
        (All (λ other. other ≢ name.now) (map (λ name. name.now) names.now)) }
{
    for other in names {
        if *other == name {
            return true;
        }
    }
    false
}

/// Returns whether no two groups among the nodes have the same name.
fn has_distinct_names(alloc: Global, nodes: &[Node]) -> Result<bool, AllocError>
    ensures { IfOk result (λ distinct. MatchBool distinct
        (AllPairs (λ a b. a ≢ b) (names_in (map kind_of nodes.now)))
        (AllPairs (λ a b. a ≢ b) (names_in (map kind_of nodes.now)) → ⊥)) }
{
    let mut names: Vec<&str> = Vec::new(alloc);
    for node in nodes {
        if let Some(name) = node.name() {
            if stands_in(name, &names) {
                return Ok(false);
            }
            names.push(name)?;
        }
    }
    Ok(true)
}

/// Parses a pattern of at most 65,536 bytes.
fn parse_characters(alloc: Global, text: &[char], config: &Config) -> Result<Hir, SyntaxError>
    requires size { length (encode_utf8_all text.now) ≤ 65536 }
    requires short { length text.now ≤ 65536 }
    ensures spells { IfOk result (λ hir. Spells text.now config.now (tree_of hir)) }
    ensures refused { IfErr result (λ e. IsReason e text.now config.now) }
{
    let mut parser = Parser::new(alloc, config);
    parser.read(text)?;
    let (trees, depth) = parser.finish()?;
    let distinct = has_distinct_names(alloc, trees.nodes())?;
    if !distinct {
        return Err(SyntaxError::Outside);
    }
    if depth > config.get_nest_limit() as usize {
        return Err(SyntaxError::Nesting);
    }
    Ok(trees.into_hir())
}

/// Parses a pattern.
///
/// # Errors
///
/// - `TooLong` exactly if the text has more than 65,536 bytes
/// - `Nesting` exactly if the text is a pattern only with a greater nest limit
/// - `Outside` exactly if it is shorter and no pattern with any nest limit
/// - `Memory`, which may replace the tree and the last two
///
/// # Examples
///
/// ```rust
/// let hir: Hir = parse(rt.alloc(), "^(?<word>a)*?", &Config::new())?;
/// assert!(rt; hir.group_count() == 1);
/// ```
pub fn parse(alloc: Global, text: &str, config: &Config) -> Result<Hir, SyntaxError>
    ensures spells { IfOk result (λ hir. Spells (chars text.now) config.now (tree_of hir)) }
    ensures too_long { (result ≡ Err SyntaxError.TooLong) ↔ (65536 < length text.now) }
    ensures nesting { result ≢ Err SyntaxError.Memory
        → (result ≡ Err SyntaxError.Nesting) ↔ IsTooDeep (chars text.now) config.now }
    ensures outside { result ≢ Err SyntaxError.Memory → (result ≡ Err SyntaxError.Outside)
        ↔ ((length text.now ≤ 65536) × NeverSpells (chars text.now) config.now) }
{
    if text.len() > MAX_BYTES {
        return Err(SyntaxError::TooLong);
    }
    let characters: Vec<char> = text.chars().collect(alloc)?;
    parse_characters(alloc, &characters, config)
}
