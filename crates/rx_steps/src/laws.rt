//! Laws of steps. Each function does nothing: its contract is the law.

ghost use Rattle.rx_program.specs.Programs.{ByteProgram};
ghost use Rattle.rx_steps.specs.Alike.{StepsAreAlike, StepsEnd};
ghost use Rattle.rx_steps.specs.AlikeBack.{StartsAreMetUnread, StepsBackAreAlike, StepsBackAreThinned};
ghost use Rattle.rx_steps.specs.Unread.{EndsAreMetUnread};

/// The step of threads without slots is the same at all positions that are alike, in any haystack:
/// the program's automata step alike over the next byte, and the same of the program's assertions
/// hold.
pub fn steps_are_alike()
    ensures { (p : ByteProgram) → StepsAreAlike p }
{}

/// If no byte is read, a step leaves no thread.
pub fn steps_end()
    ensures { (p : ByteProgram) → StepsEnd p }
{}

/// A step of threads without slots meets the same match end if the next byte isn't read, though
/// assertions see it.
pub fn ends_are_met_unread()
    ensures { (p : ByteProgram) → EndsAreMetUnread p }
{}

/// A backward step is the same at all positions that are alike.
pub fn steps_back_are_alike()
    ensures { (p : ByteProgram) → StepsBackAreAlike p }
{}

/// A backward step meets the same match start if the byte isn't read, though assertions see it.
pub fn starts_are_met_unread()
    ensures { (p : ByteProgram) → StartsAreMetUnread p }
{}

/// A backward step needs only the first of several threads at the same node.
pub fn steps_back_are_thinned()
    ensures { (p : ByteProgram) → StepsBackAreThinned p }
{}
