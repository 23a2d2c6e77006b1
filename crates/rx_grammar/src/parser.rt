//! The parser, which reads a pattern part by part.

ghost use Rattle.std.specs.Prelude.{ℕ, ◌≡◌, ◌+◌, ◌≤◌, ◌<◌, ◌^◌, [], ◌∷◌, length, OnOk, MatchResult};
ghost use Rattle.rx_grammar.specs.Trees.{Tree};
ghost use Rattle.rx_grammar.specs.Stacks.{IsRefusedWhere, NoPostfixes};
ghost use Rattle.rx_grammar.specs.Weights.{held};
ghost use Rattle.rx_grammar.specs.Resuming.{PatternPlace, NoEnds, with_branch};
ghost use Rattle.rx_grammar.specs.Input.{Begins};
ghost use Rattle.rx_grammar.specs.Heads.{capture_of};
ghost use Rattle.rx_grammar.specs.Places.{place_at_start, opened_at, ParserIsAt, IsAtSomePlace, ItemRead, EndsLevel, IsAtomPlace, PartRead, TextRead, IsFinished};

use crate::atoms::plain_atom;
use crate::error::SyntaxError;
use crate::groups::{GroupKind, Head, group_head};
use crate::input::first;
use crate::syntax::Config;
use crate::trees::TreeStack;
use rx_sets::AtomSets;
use std::alloc::{AllocError, Global};

/// The stack heights at which the trees of a group and those of its last branch start, and the
/// depth of its items, capped at `usize::MAX`.
#[derive(Debug, Drop)]
pub(crate) struct Heights {
    group: usize,
    branch: usize,
    depth: usize,
}

/// The state around an open group, and what the group captures. Its number is the number of groups
/// up to it.
#[derive(Debug, Drop)]
pub(crate) struct Around {
    heights: Heights,
    config: Config,
    number: u32,
    captures: GroupKind,
}

/// A parser that has read a part of a pattern.
#[derive(Drop)]
pub(crate) struct Parser {
    alloc: Global,
    config: Config,
    groups: u32,
    heights: Heights,
    around: Vec<Around>,
    trees: TreeStack,
    sets: AtomSets,
}

impl Parser {
    /// Returns a parser that has read nothing.
    pub(crate) fn new(alloc: Global, config: &Config) -> Parser
        ensures stands { ParserIsAt result [] (place_at_start config.now) }
        ensures groups { result.groups ≡ 0 }
    {
        Parser {
            alloc,
            config: config.copied(),
            groups: 0,
            heights: Heights {
                group: 0,
                branch: 0,
                depth: 0,
            },
            around: Vec::new(alloc),
            trees: TreeStack::new(alloc),
            sets: AtomSets::new(alloc),
        }
    }

    /// Reads the postfixes after an atom of this depth, which then is an item. Returns the text
    /// after them.
    fn finish_item<'a>(&mut self, text: &'a [char], depth: usize) -> Result<&'a [char], SyntaxError>
        requires stands { (place : PatternPlace) × (tree : Tree)
            × ParserIsAt self.old (tree ∷ []) place }
        ensures reads { (place : PatternPlace) (tree : Tree) (deep : ℕ)
            → ParserIsAt self.old (tree ∷ []) place → depth ≡ held deep → MatchResult result
            (λ rest. ItemRead self.old self.new place tree deep text.now rest.now)
            (λ e. IsRefusedWhere e (NoPostfixes place.settings.swap_greed tree deep text.now)) }
    {
        let swap_greed = self.config.get_swap_greed();
        let (deep, rest) = self.trees.read_postfixes(text, depth, swap_greed)?;
        self.heights.depth = self.heights.depth.max(deep);
        Ok(rest)
    }

    /// Reads an atom other than a group, with its postfixes.
    fn read_atom<'a>(&mut self, text: &'a [char]) -> Result<&'a [char], SyntaxError>
        requires stands { IsAtSomePlace self.old }
        requires atom { IsAtomPlace text.now }
        ensures reads { (place : PatternPlace) → ParserIsAt self.old [] place → MatchResult result
            (λ rest. PartRead self.old self.new place text.now rest.now)
            (λ e. IsRefusedWhere e (NoEnds place text.now)) }
    {
        let Some((tree, behind)) = plain_atom(self.alloc, &mut self.sets, text, &self.config)?
        else {
            return Err(SyntaxError::Outside);
        };
        self.trees.push_atom(tree)?;
        self.finish_item(behind, 0)
    }

    /// Ends the branch.
    fn end_branch(&mut self) -> Result<(), AllocError>
        requires stands { IsAtSomePlace self.old }
        ensures ends { (place : PatternPlace) → ParserIsAt self.old [] place → OnOk result
            (ParserIsAt self.new [] (record place { level = with_branch place.level })) }
        ensures kept { self.new.groups ≡ self.old.groups }
    {
        self.trees.join_items(self.heights.branch)?;
        self.heights.branch = self.trees.height();
        Ok(())
    }

    /// Ends the group, or the whole pattern, and joins its branches into one tree.
    fn end_level(&mut self) -> Result<(), AllocError>
        requires stands { IsAtSomePlace self.old }
        ensures ends { (place : PatternPlace) → ParserIsAt self.old [] place → OnOk result
            (EndsLevel self.old self.new place) }
    {
        self.end_branch()?;
        self.trees.join_branches(self.heights.group)?;
        Ok(())
    }

    /// Reads what a parenthesis starts.
    fn read_head<'a>(&mut self, text: &'a [char]) -> Result<&'a [char], SyntaxError>
        requires stands { IsAtSomePlace self.old }
        requires parenthesis { Begins 40 text.now }
        requires room { self.old.groups + length text.now < 2 ^ 32 }
        ensures reads { (place : PatternPlace) → ParserIsAt self.old [] place → MatchResult result
            (λ rest. PartRead self.old self.new place text.now rest.now)
            (λ e. IsRefusedWhere e (NoEnds place text.now)) }
    {
        let Some((head, rest)) = group_head(self.alloc, text, &self.config)? else {
            return Err(SyntaxError::Outside);
        };
        match head {
            Head::Setting(config) => {
                self.config = config;
                Ok(rest)
            }
            Head::Group(config, captures) => {
                self.open(config, captures)?;
                Ok(rest)
            }
        }
    }

    /// Opens a group.
    fn open(&mut self, config: Config, captures: GroupKind) -> Result<(), AllocError>
        requires stands { IsAtSomePlace self.old }
        requires room { self.old.groups + 1 < 2 ^ 32 }
        ensures opens { (place : PatternPlace) → ParserIsAt self.old [] place → OnOk result
            (ParserIsAt self.new [] (opened_at place config (capture_of captures))) }
        ensures groups { OnOk result (self.new.groups ≤ self.old.groups + 1) }
    {
        self.groups += captures.count();
        let height = self.trees.height();
        let inside = Heights {
            group: height,
            branch: height,
            depth: 0,
        };
        let around = Around {
            heights: std::mem::replace(&mut self.heights, inside),
            config: std::mem::replace(&mut self.config, config),
            number: self.groups,
            captures,
        };
        self.around.push(around)?;
        Ok(())
    }

    /// Closes the innermost group, and reads its postfixes.
    fn close<'a>(&mut self, rest: &'a [char]) -> Result<&'a [char], SyntaxError>
        requires stands { IsAtSomePlace self.old }
        ensures reads { (place : PatternPlace) → ParserIsAt self.old [] place → MatchResult result
            (λ rest'. PartRead self.old self.new place (41 ∷ rest.now) rest'.now)
            (λ e. IsRefusedWhere e (NoEnds place (41 ∷ rest.now))) }
    {
        self.end_level()?;
        let Some(
            Around {
                heights,
                config: outside,
                number,
                captures,
            },
        ) = self.around.pop()
        else {
            return Err(SyntaxError::Outside);
        };
        let depth = self.heights.depth.saturating_add(1);
        self.heights = heights;
        self.config = outside;
        self.trees.push_group(number, captures)?;
        self.finish_item(rest, depth)
    }

    /// Reads one part of a pattern, and returns the text after it.
    pub(crate) fn read_part<'a>(
        &mut self,
        c: char,
        rest: &'a [char],
        text: &'a [char],
    ) -> Result<&'a [char], SyntaxError>
        requires stands { IsAtSomePlace self.old }
        requires text { text.now ≡ c ∷ rest.now }
        requires room { self.old.groups + length text.now < 2 ^ 32 }
        ensures reads { (place : PatternPlace) → ParserIsAt self.old [] place → MatchResult result
            (λ after. PartRead self.old self.new place text.now after.now)
            (λ e. IsRefusedWhere e (NoEnds place text.now)) }
    {
        match c {
            '|' => {
                self.end_branch()?;
                Ok(rest)
            }
            '(' => self.read_head(text),
            ')' => self.close(rest),
            _ => self.read_atom(text),
        }
    }

    /// Reads a whole text.
    pub(crate) fn read(&mut self, text: &[char]) -> Result<(), SyntaxError>
        requires stands { IsAtSomePlace self.old }
        requires room { self.old.groups + length text.now < 2 ^ 32 }
        ensures reads { (place : PatternPlace) → ParserIsAt self.old [] place → MatchResult result
            (λ _. TextRead self.new place text.now)
            (λ e. IsRefusedWhere e (NoEnds place text.now)) }
    {
        let mut rest = text;
        while let Some((c, behind)) = first(rest) {
            rest = self.read_part(c, behind, rest)?;
        }
        Ok(())
    }

    /// Ends the pattern, in which no group may be open. Returns the stack with its one tree, and
    /// the depth, capped at `usize::MAX`.
    pub(crate) fn finish(mut self) -> Result<(TreeStack, usize), SyntaxError>
        requires stands { IsAtSomePlace self }
        ensures ends { (place : PatternPlace) → ParserIsAt self [] place → MatchResult result
            (λ r. IsFinished place r.0 r.1) (λ e. IsRefusedWhere e (NoEnds place [])) }
    {
        if !self.around.is_empty() {
            return Err(SyntaxError::Outside);
        }
        self.end_level()?;
        Ok((self.trees, self.heights.depth))
    }
}
