//! Prefixes of patterns, which some text completes to a pattern. They are read character by
//! character. A character is refused if the text with it is no such prefix.

mod classes;
mod counts;
mod escapes;
mod heads;

use crate::groups::is_name_start;
use crate::input::CharacterTest;
use crate::refusals::Mistake;
use crate::syntax::Config;
use classes::Class;
use counts::Count;
use escapes::{Escape, Escaped};
use heads::{Flags, Head};
use std::alloc::{AllocError, Global};

/// Why a character is refused.
#[derive(Debug, Clone, Copy, PartialEq, Eq)]
pub(crate) enum Stop {
    /// No pattern has it there.
    Mistake(Mistake),
    /// Out of memory.
    Memory,
}

impl From<Mistake> for Stop {
    fn from(mistake: Mistake) -> Stop {
        Stop::Mistake(mistake)
    }
}

impl From<AllocError> for Stop {
    fn from(_: AllocError) -> Stop {
        Stop::Memory
    }
}

/// The innermost group, or the whole pattern, so far.
#[derive(Debug, Clone, Copy)]
struct Level {
    depth: usize,
    dot_matches_new_line: bool,
}

/// What a prefix ends in.
#[derive(Debug, Clone, Copy)]
enum State {
    /// Nothing that can be repeated.
    Start,
    /// An item of this depth.
    Item(usize),
    /// An item that ends in a count, which a `?` makes lazy.
    Counted(usize),
    /// A count in braces, and the depth of the item with it.
    Count(usize, Count),
    /// An escape outside a class.
    Escape(Escape),
    /// A class.
    Class(Class),
    /// A group's head, or a setting.
    Head(Head),
}

/// A prefix of a pattern.
#[derive(Drop)]
pub(crate) struct Front {
    alloc: Global,
    has_ascii_terminator: bool,
    state: State,
    level: Level,
    around: Vec<Level>,
    name: String,
    names: Vec<String>,
    depth: usize,
}

impl Front {
    /// Returns the empty prefix.
    pub(crate) fn new(alloc: Global, config: &Config) -> Front {
        Front {
            alloc,
            has_ascii_terminator: config.get_line_terminator() < 128,
            state: State::Start,
            level: Level {
                depth: 0,
                dot_matches_new_line: config.get_dot_matches_new_line(),
            },
            around: Vec::new(alloc),
            name: String::new(alloc),
            names: Vec::new(alloc),
            depth: 0,
        }
    }

    /// Returns the least depth of nesting of a pattern with this prefix.
    pub(crate) fn depth(&self) -> usize {
        self.depth
    }

    /// Returns what is missing if the text ends here: the innermost part that isn't finished.
    pub(crate) fn wanted(&self) -> Mistake {
        match self.state {
            State::Start | State::Item(_) | State::Counted(_) | State::Head(Head::Start) => {
                Mistake::OpenGroup
            }
            State::Count(_, _) => Mistake::Count,
            State::Escape(_) => Mistake::Escape,
            State::Class(class) => class.wanted(),
            State::Head(_) => Mistake::GroupHead,
        }
    }

    /// Reads one more character.
    pub(crate) fn take(&mut self, c: char) -> Result<(), Stop> {
        self.state = match self.state {
            State::Start => self.after_nothing(c)?,
            State::Counted(depth) if c == '?' => State::Item(depth),
            State::Item(depth) | State::Counted(depth) => self.after_item(c, depth)?,
            State::Count(depth, count) => match count.take(c)? {
                Some(count) => State::Count(depth, count),
                None => State::Counted(depth),
            },
            State::Escape(escape) => match escape.take(c, 0)? {
                Escaped::Open(escape) => State::Escape(escape),
                _ => State::Item(0),
            },
            State::Class(class) => match class.take(c)? {
                Some(class) => State::Class(class),
                None => State::Item(0),
            },
            State::Head(head) => self.in_head(c, head)?,
        };
        Ok(())
    }

    /// Reads a character where an item may start.
    fn after_nothing(&mut self, c: char) -> Result<State, Stop> {
        match c {
            '*' | '+' | '?' | '{' => Err(Stop::Mistake(Mistake::NothingToRepeat)),
            '|' => Ok(State::Start),
            '(' => Ok(State::Head(Head::Start)),
            ')' => self.close(),
            '[' => Ok(State::Class(Class::Start)),
            '\\' => Ok(State::Escape(Escape::Start)),
            '.' if !self.is_dot_allowed() => Err(Stop::Mistake(Mistake::Dot)),
            _ => Ok(State::Item(0)),
        }
    }

    /// Reads a character after an item of this depth.
    fn after_item(&mut self, c: char, depth: usize) -> Result<State, Stop> {
        let deep = depth.saturating_add(1);
        match c {
            '*' | '+' | '?' => {
                self.note(deep);
                Ok(State::Counted(deep))
            }
            '{' => {
                self.note(deep);
                Ok(State::Count(deep, Count::Start))
            }
            _ => self.after_nothing(c),
        }
    }

    /// Returns whether `.` is allowed here.
    fn is_dot_allowed(&self) -> bool {
        self.has_ascii_terminator || self.level.dot_matches_new_line
    }

    /// Records an item of this depth in the innermost group.
    fn note(&mut self, depth: usize) {
        self.level.depth = self.level.depth.max(depth);
        self.depth = self.depth.max(self.around.len().saturating_add(depth));
    }

    /// Opens a group.
    fn open(&mut self, dot_matches_new_line: bool) -> Result<State, Stop> {
        self.note(1);
        let inside = Level {
            depth: 0,
            dot_matches_new_line,
        };
        let outside = std::mem::replace(&mut self.level, inside);
        let Ok(()) = self.around.push(outside) else {
            return Err(Stop::Memory);
        };
        Ok(State::Start)
    }

    /// Closes the innermost group.
    fn close(&mut self) -> Result<State, Stop> {
        let Some(outside) = self.around.pop() else {
            return Err(Stop::Mistake(Mistake::NoOpenGroup));
        };
        let depth = self.level.depth.saturating_add(1);
        self.level = outside;
        self.note(depth);
        Ok(State::Item(depth))
    }

    /// Reads a character in a group's head or a setting.
    fn in_head(&mut self, c: char, head: Head) -> Result<State, Stop> {
        let dot = self.level.dot_matches_new_line;
        match (head, c) {
            (Head::Start, '?') => Ok(State::Head(Head::Marked)),
            (Head::Start, _) => {
                self.open(dot)?;
                self.after_nothing(c)
            }
            (Head::Marked, ':') => self.open(dot),
            (Head::Marked, 'P') => self.named(Head::NameMark),
            (Head::Marked, '<') => self.named(Head::NameStart),
            (Head::Marked, _) => Ok(State::Head(Head::Flags(Flags::none().take(c)?))),
            (Head::NameMark, '<') => Ok(State::Head(Head::NameStart)),
            (Head::NameMark, _) => Err(Stop::Mistake(Mistake::GroupHead)),
            (Head::NameStart | Head::Name, _) => self.in_name(c, head),
            (Head::Flags(flags), ':') if flags.may_end() => self.open(flags.dot(dot)),
            (Head::Flags(flags), ')') if flags.may_end() => {
                self.level.dot_matches_new_line = flags.dot(dot);
                Ok(State::Start)
            }
            (Head::Flags(flags), _) => Ok(State::Head(Head::Flags(flags.take(c)?))),
        }
    }

    /// Starts a name: what follows can only be a named group.
    fn named(&mut self, head: Head) -> Result<State, Stop> {
        self.note(1);
        Ok(State::Head(head))
    }

    /// Reads a character of a name, or the `>` after it.
    fn in_name(&mut self, c: char, head: Head) -> Result<State, Stop> {
        if head == Head::Name && c == '>' {
            self.end_name()?;
            return self.open(self.level.dot_matches_new_line);
        }
        let is_taken = if head == Head::Name {
            CharacterTest::NameCharacter.passes(c)
        } else {
            is_name_start(c)
        };
        if !is_taken {
            return Err(Stop::Mistake(Mistake::GroupHead));
        }
        self.name.push(c)?;
        Ok(State::Head(Head::Name))
    }

    /// Ends a group's name.
    fn end_name(&mut self) -> Result<(), Stop> {
        let name = std::mem::replace(&mut self.name, String::new(self.alloc));
        if self.names.contains(&name) {
            return Err(Stop::Mistake(Mistake::RepeatedName));
        }
        let Ok(()) = self.names.push(name) else {
            return Err(Stop::Memory);
        };
        Ok(())
    }
}
