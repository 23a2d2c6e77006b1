//! The literals that a program's matches begin with, are, or contain.

ghost use Rattle.std.specs.Prelude.{◌≡◌, IfOk, IfSome, None, false};
ghost use Rattle.rx_program.specs.Programs.{character_program};
ghost use Rattle.rx_literals.specs.Beginnings.{MatchesBeginWith};
ghost use Rattle.rx_literals.specs.ByteSets.{MatchesBeginIn};
ghost use Rattle.rx_literals.specs.Literals.{IsLiteralOf};
ghost use Rattle.rx_literals.specs.Requirements.{MatchesContain};
ghost use Rattle.regex_cursor.specs.Configs.{WantsNoLiterals, auto_prefilter_of, prefilter_of};
ghost use Rattle.regex_cursor.specs.Literals.{AreLiteralsOf, no_literals};

use super::config::Config;
use rx_literals::{ByteSet, Prefilter};
use rx_program::Program;
use rx_util::MatchKind;
use std::alloc::{AllocError, Global};

/// The greatest number of states of a program for which first bytes are computed: each set takes
/// 256 steps of its automaton, and a long alternation begins with many sets.
const STATES: usize = 1_000;

/// What is known of the literals in a program's matches.
#[derive(Debug, Drop)]
pub(super) struct Literals {
    /// Literals such that each match begins with one of them, if they are known.
    pub(super) beginnings: Option<Prefilter>,
    /// The literal that each match is, if it is known.
    pub(super) whole: Option<Prefilter>,
    /// A literal that each match contains, if one is known, and `beginnings` are not.
    pub(super) required: Option<Prefilter>,
    /// The bytes that matches begin with, if they are known and `beginnings` are not.
    pub(super) first: Option<ByteSet>,
}

impl Literals {
    /// Returns the literals of a program, as far as the settings allow a search for them. By
    /// default it takes time proportional to the program's states and the ranges of their automata.
    pub(super) fn of(
        alloc: Global,
        program: &Program,
        config: &Config,
    ) -> Result<Literals, AllocError>
        ensures literals { IfOk result (AreLiteralsOf program.now) }
        ensures unwanted { IfOk result
            (λ literals. WantsNoLiterals config.now → literals ≡ no_literals) }
    {
        let beginnings = beginnings_of(alloc, program, config)?;
        let whole = literal_of(alloc, program, config)?;
        let required = required_of(alloc, program, config, &beginnings)?;
        let first = first_of(alloc, program, config, &beginnings)?;
        Ok(Literals {
            beginnings,
            whole,
            required,
            first,
        })
    }
}

/// Returns the caller's own literals, if they are set and each match begins with one of them.
fn given(alloc: Global, program: &Program, config: &Config) -> Result<Option<Prefilter>, AllocError>
    ensures begins { IfOk result (λ given. IfSome given
        (λ needles. MatchesBeginWith needles (character_program program.now))) }
    ensures unwanted { IfOk result (λ given. prefilter_of config.now ≡ None → given ≡ None) }
{
    let Some(prefilter) = config.get_prefilter() else {
        return Ok(None);
    };
    if !prefilter.serves(alloc, program)? {
        return Ok(None);
    }
    match prefilter.clone() {
        Ok(prefilter) => Ok(Some(prefilter)),
        Err(_) => Err(AllocError),
    }
}

/// Returns literals such that each match begins with one of them: the caller's own, or those read
/// from the program.
fn beginnings_of(
    alloc: Global,
    program: &Program,
    config: &Config,
) -> Result<Option<Prefilter>, AllocError>
    ensures begins { IfOk result (λ beginnings. IfSome beginnings
        (λ needles. MatchesBeginWith needles (character_program program.now))) }
    ensures unwanted { IfOk result
        (λ beginnings. WantsNoLiterals config.now → beginnings ≡ None) }
{
    match given(alloc, program, config)? {
        Some(prefilter) => Ok(Some(prefilter)),
        None if config.get_auto_prefilter() => {
            Prefilter::from_program(alloc, MatchKind::LeftmostFirst, program)
        }
        None => Ok(None),
    }
}

/// Returns the literal that each match is, if it can be read from the program.
fn literal_of(
    alloc: Global,
    program: &Program,
    config: &Config,
) -> Result<Option<Prefilter>, AllocError>
    ensures is_literal { IfOk result (λ literal. IfSome literal
        (λ needles. IsLiteralOf needles (character_program program.now))) }
    ensures unwanted { IfOk result
        (λ literal. auto_prefilter_of config.now ≡ false → literal ≡ None) }
{
    if config.get_auto_prefilter() {
        Prefilter::of_literal(alloc, program)
    } else {
        Ok(None)
    }
}

/// Returns a literal that each match contains, if one can be read from the program; `None` if it is
/// known what matches begin with.
fn required_of(
    alloc: Global,
    program: &Program,
    config: &Config,
    beginnings: &Option<Prefilter>,
) -> Result<Option<Prefilter>, AllocError>
    ensures contained { IfOk result (λ required. IfSome required
        (λ needles. MatchesContain needles (character_program program.now))) }
    ensures unwanted { IfOk result
        (λ required. auto_prefilter_of config.now ≡ false → required ≡ None) }
{
    if beginnings.is_none() && config.get_auto_prefilter() {
        Prefilter::required(alloc, program)
    } else {
        Ok(None)
    }
}

/// Returns the bytes that the program's matches begin with; `None` if literals are known that they
/// begin with, if the settings want none, if there is no such set, or if the program is large.
fn first_of(
    alloc: Global,
    program: &Program,
    config: &Config,
    beginnings: &Option<Prefilter>,
) -> Result<Option<ByteSet>, AllocError>
    ensures begin { IfOk result (λ first. IfSome first
        (λ bytes. MatchesBeginIn bytes (character_program program.now))) }
    ensures unwanted { IfOk result
        (λ first. auto_prefilter_of config.now ≡ false → first ≡ None) }
{
    let is_small = program.states().len() <= STATES;
    if config.get_auto_prefilter() && beginnings.is_none() && is_small {
        ByteSet::of(alloc, program)
    } else {
        Ok(None)
    }
}
