//! Heads of groups and settings, character by character.

use crate::flags::Flag;
use crate::refusals::Mistake;

/// A group's head, or a setting, that isn't finished yet.
#[derive(Debug, Clone, Copy, PartialEq, Eq)]
pub(crate) enum Head {
    /// Only its `(`.
    Start,
    /// `(?`.
    Marked,
    /// `(?P`.
    NameMark,
    /// `(?P<` or `(?<`.
    NameStart,
    /// One of these and a part of a name.
    Name,
    /// `(?` and flags.
    Flags(Flags),
}

/// Flags that aren't finished yet.
#[derive(Debug, Clone, Copy, PartialEq, Eq)]
pub(crate) struct Flags {
    case_insensitive: bool,
    multi_line: bool,
    dot_matches_new_line: bool,
    swap_greed: bool,
    turns_off: bool,
    may_end: bool,
    dot: Option<bool>,
}

/// Returns the flag of a letter.
fn flag_of(letter: char) -> Option<Flag> {
    match letter {
        'i' => Some(Flag::CaseInsensitive),
        'm' => Some(Flag::MultiLine),
        's' => Some(Flag::DotMatchesNewLine),
        'U' => Some(Flag::SwapGreed),
        _ => None,
    }
}

impl Flags {
    /// Returns no flags.
    pub(crate) fn none() -> Flags {
        Flags {
            case_insensitive: false,
            multi_line: false,
            dot_matches_new_line: false,
            swap_greed: false,
            turns_off: false,
            may_end: false,
            dot: None,
        }
    }

    /// Returns whether the flags may end here.
    pub(crate) fn may_end(self) -> bool {
        self.may_end
    }

    /// Returns whether `.` matches the line terminator after the flags, given whether it did
    /// before.
    pub(crate) fn dot(self, before: bool) -> bool {
        self.dot.unwrap_or(before)
    }

    /// Returns whether all four letters were read.
    fn are_all(self) -> bool {
        self.case_insensitive && self.multi_line && self.dot_matches_new_line && self.swap_greed
    }

    /// Records the letter of a flag, and returns whether it was already there.
    fn note(&mut self, flag: Flag) -> bool {
        let noted = match flag {
            Flag::CaseInsensitive => &mut self.case_insensitive,
            Flag::MultiLine => &mut self.multi_line,
            Flag::DotMatchesNewLine => &mut self.dot_matches_new_line,
            Flag::SwapGreed => &mut self.swap_greed,
        };
        std::mem::replace(noted, true)
    }

    /// Reads one more character: a letter, or the `-` after which flags are turned off.
    pub(crate) fn take(mut self, c: char) -> Result<Flags, Mistake> {
        if c == '-' && !self.turns_off && !self.are_all() {
            self.turns_off = true;
            self.may_end = false;
            return Ok(self);
        }
        let Some(flag) = flag_of(c) else {
            return Err(Mistake::GroupHead);
        };
        if self.note(flag) {
            return Err(Mistake::GroupHead);
        }
        if flag == Flag::DotMatchesNewLine {
            self.dot = Some(!self.turns_off);
        }
        self.may_end = true;
        Ok(self)
    }
}
