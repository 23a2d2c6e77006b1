//! Which look-around assertions a program contains.

ghost use Rattle.std.specs.Prelude.{◌≡◌, ◌↔◌, ◌||◌, IsTrue, map};
ghost use Rattle.rx_walks.specs.Looks.{asks_characters};
ghost use Rattle.rx_program.specs.Code.{place_of};
ghost use Rattle.rx_steps.specs.Asked.{AsksSome, asks_for, is_look, is_of_lines};
ghost use Rattle.rx_steps.specs.Reversed.{state_of};

use rx_grammar::Look;
use rx_program::{ReverseState, State};

/// The kinds of look-around assertions that a program contains.
#[derive(Clone, Copy, Debug, Default, PartialEq, Eq)]
pub struct AskedLooks {
    /// Any.
    pub any: bool,
    /// `^` and `$` in multi-line mode.
    pub lines: bool,
    /// `\b` and `\B`.
    pub words: bool,
}

/// Returns whether this is a line assertion.
fn is_line_look(look: Look) -> bool
    ensures { result ≡ is_of_lines (place_of look) }
{
    match look {
        Look::StartLine | Look::EndLine => true,
        Look::Start | Look::End | Look::WordUnicode | Look::WordUnicodeNegate => false,
    }
}

/// Returns whether this is a word assertion.
fn is_word_look(look: Look) -> bool
    ensures { result ≡ asks_characters (place_of look) }
{
    match look {
        Look::WordUnicode | Look::WordUnicodeNegate => true,
        Look::Start | Look::End | Look::StartLine | Look::EndLine => false,
    }
}

impl AskedLooks {
    /// Adds an assertion.
    fn with_look(self, look: Look) -> AskedLooks
        ensures any { result.any ≡ (is_look (place_of look) || self.any) }
        ensures lines { result.lines ≡ (is_of_lines (place_of look) || self.lines) }
        ensures words { result.words ≡ (asks_characters (place_of look) || self.words) }
    {
        AskedLooks {
            any: true,
            lines: is_line_look(look) || self.lines,
            words: is_word_look(look) || self.words,
        }
    }

    /// Adds the assertion of a state, if it is one.
    fn with(self, state: &State) -> AskedLooks
        ensures any { result.any ≡ (asks_for is_look state.now || self.any) }
        ensures lines { result.lines ≡ (asks_for is_of_lines state.now || self.lines) }
        ensures words { result.words ≡ (asks_for asks_characters state.now || self.words) }
    {
        match state {
            State::Look(look, _) => self.with_look(*look),
            _ => self,
        }
    }

    /// Returns the kinds of assertions in these states. `O(n)` in the states.
    pub fn of(states: &[State]) -> AskedLooks
        ensures any { IsTrue result.any ↔ AsksSome states.now is_look }
        ensures lines { IsTrue result.lines ↔ AsksSome states.now is_of_lines }
        ensures words { IsTrue result.words ↔ AsksSome states.now asks_characters }
    {
        let mut asked = AskedLooks::default();
        for state in states {
            asked = asked.with(state);
        }
        asked
    }

    /// Adds the assertion of a state of a reverse program, if it is one.
    fn with_back(self, state: &ReverseState) -> AskedLooks
        ensures any { result.any ≡ (asks_for is_look (state_of state.now) || self.any) }
        ensures lines { result.lines
            ≡ (asks_for is_of_lines (state_of state.now) || self.lines) }
        ensures words { result.words
            ≡ (asks_for asks_characters (state_of state.now) || self.words) }
    {
        match state {
            ReverseState::Look(look, _) => self.with_look(*look),
            _ => self,
        }
    }

    /// Returns the kinds of assertions in these states of a reverse program. `O(n)` in the states.
    pub fn of_back(states: &[ReverseState]) -> AskedLooks
        ensures any { IsTrue result.any ↔ AsksSome (map state_of states.now) is_look }
        ensures lines { IsTrue result.lines ↔ AsksSome (map state_of states.now) is_of_lines }
        ensures words { IsTrue result.words
            ↔ AsksSome (map state_of states.now) asks_characters }
    {
        let mut asked = AskedLooks::default();
        for state in states {
            asked = asked.with_back(state);
        }
        asked
    }
}
