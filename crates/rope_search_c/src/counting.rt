//! A session that counts its searches, and its commands, which return a status.
ghost use Rattle.std.specs.Prelude.{◌≡◌, ◌^◌, ◌≤◌, ◌↔◌, ◌⊎◌, Err, None, IfOk, IfErr};
ghost use Rattle.rope_search.specs.declared.commands.CommandOf.TheVariants.{Text as SetText, Edit as EditText, Undo as UndoEdit, Redo as RedoEdit, Fork as ForkBuffer, Pattern as SetPattern, Off as DropPattern, Next as FindNext, Replace as ReplaceAll, Use as UseBuffer};
ghost use Rattle.rope_search.specs.Session.{opened_session};
ghost use Rattle.rope_search.specs.Stands.{ForOrders};
ghost use Rattle.rope_search_c.specs.Calls.{Carries, DoesAndCounts, DoesOrder, DoesAndFinds, Forgets, TellsFound};
ghost use Rattle.rope_search_c.specs.Calls as calls;
ghost use Rattle.rope_search_c.specs.Edits.{MakesEdits};

use crate::edits::{TextEdit, edits_of};
use crate::matches::Match;
use rope_search::{
    ArrivingText, CallerInC, Command, Fault, Limits, Lines, Payload, Position, Reply, Session,
};
use std::alloc::Global;

/// A session, the counts of its searches, and a text that arrives in parts, if one does.
#[derive(Drop)]
pub struct CountingSession {
    pub(crate) session: Session,
    pub(crate) lines: Lines,
    pub(crate) arriving: Option<ArrivingText>,
}

/// Returns 0 for success, otherwise the rank of the fault.
pub(crate) fn status_of<T: Drop>(answer: Result<T, Fault>) -> u32
    ensures { result ≡ calls.status_of answer }
{
    match answer {
        Ok(_) => 0,
        Err(fault) => u32::from(fault.rank()),
    }
}

/// Returns the number in a command's reply, otherwise 0.
fn number_of(answer: Result<Reply, Fault>) -> usize
    ensures { result ≡ calls.number_of answer }
{
    match answer {
        Ok(Reply::Number(number)) => number,
        _ => 0,
    }
}

/// Returns the match in a reply, or that there is none.
fn match_of(answer: Result<Reply, Fault>) -> Match
    ensures { TellsFound answer result }
{
    match answer {
        Ok(Reply::Found(start, stop)) => Match {
            found: true,
            start,
            stop,
        },
        _ => {
            let none = Position { line: 0, column: 0 };
            Match {
                found: false,
                start: none,
                stop: none,
            }
        }
    }
}

impl CountingSession {
    /// Returns a session of one buffer, with an empty text and no pattern, whose texts have at most
    /// `limit` bytes; its counts begin at 0. Errors: `Fault::Size` for a limit above `isize::MAX`;
    /// `Fault::Memory`.
    pub(crate) fn new(
        alloc: Global,
        caller: CallerInC,
        limit: usize,
    ) -> Result<Box<CountingSession>, Fault>
        ensures session { IfOk result (λ new. new.value.session ≡ opened_session limit) }
        ensures rows { IfOk result (λ new. new.value.lines.count ≡ 0) }
        ensures wholes { IfOk result (λ new. new.value.lines.wholes ≡ 0) }
        ensures arriving { IfOk result (λ new. new.value.arriving ≡ None) }
        ensures size { (result ≡ Err Fault.Size) ↔ (2 ^ 63 ≤ limit) }
        ensures fault { IfErr result (λ fault. (fault ≡ Fault.Size) ⊎ (fault ≡ Fault.Memory)) }
    {
        if limit > isize::MAX as usize {
            return Err(Fault::Size);
        }
        let session = Session::new(alloc, Limits { text: limit })?;
        let lines = Lines::for_caller_in_c(caller);
        let counting = CountingSession {
            session,
            lines,
            arriving: None,
        };
        let Ok(counting) = Box::new(alloc, counting) else {
            return Err(Fault::Memory);
        };
        Ok(counting)
    }

    /// Executes a command on the chosen buffer, as `Session::apply` does.
    fn apply(&mut self, command: Command<'_>) -> Result<Reply, Fault>
        ensures { ForOrders self.old.session.limit command.entry (λ order.
            Carries self.old order result self.new) }
    {
        self.session.apply(&mut self.lines, command)
    }

    pub(crate) fn set_text(&mut self, text: &[u8]) -> u32
        ensures { DoesOrder self.old (SetText text.now) result self.new }
    {
        status_of(self.apply(Command::Text(Payload::Kept(text))))
    }

    pub(crate) fn edit(&mut self, from: Position, to: Position, text: &[u8]) -> u32
        ensures { DoesOrder self.old (EditText from to text.now) result self.new }
    {
        status_of(self.apply(Command::Edit(from, to, Payload::Kept(text))))
    }

    pub(crate) fn edit_all(&mut self, alloc: Global, edits: &[TextEdit], text: &[u8]) -> u32
        ensures { MakesEdits self.old edits.now text.now result self.new }
    {
        let edits = match edits_of(alloc, edits, text) {
            Ok(edits) => edits,
            Err(fault) => return u32::from(fault.rank()),
        };
        status_of(self.session.edit_all(&mut self.lines, &edits))
    }

    pub(crate) fn undo(&mut self) -> u32
        ensures { DoesOrder self.old UndoEdit result self.new }
    {
        status_of(self.apply(Command::Undo))
    }

    pub(crate) fn redo(&mut self) -> u32
        ensures { DoesOrder self.old RedoEdit result self.new }
    {
        status_of(self.apply(Command::Redo))
    }

    pub(crate) fn set_pattern(&mut self, pattern: &[u8]) -> u32
        ensures { DoesOrder self.old (SetPattern pattern.now) result self.new }
    {
        status_of(self.apply(Command::Pattern(Payload::Kept(pattern))))
    }

    pub(crate) fn off(&mut self) -> u32
        ensures { DoesOrder self.old DropPattern result self.new }
    {
        status_of(self.apply(Command::Off))
    }

    pub(crate) fn choose(&mut self, number: u64) -> u32
        ensures { DoesOrder self.old (UseBuffer number) result self.new }
    {
        status_of(self.apply(Command::Use(number)))
    }

    pub(crate) fn next(&mut self, from: Position, found: &mut Match) -> u32
        ensures { DoesAndFinds self.old (FindNext from) result found.new self.new }
    {
        let answer = self.apply(Command::Next(from));
        *found = match_of(answer);
        status_of(answer)
    }

    pub(crate) fn replace(&mut self, template: &[u8], count: &mut usize) -> u32
        ensures { DoesAndCounts self.old (ReplaceAll template.now) result count.new self.new }
    {
        let answer = self.apply(Command::Replace(Payload::Kept(template)));
        *count = number_of(answer);
        status_of(answer)
    }

    pub(crate) fn fork(&mut self, number: &mut usize) -> u32
        ensures { DoesAndCounts self.old ForkBuffer result number.new self.new }
    {
        let answer = self.apply(Command::Fork);
        *number = number_of(answer);
        status_of(answer)
    }

    pub(crate) fn forget(&mut self) -> u32
        ensures { Forgets self.old result self.new }
    {
        self.session.forget();
        0
    }
}
