//! A pending pattern of a session's chosen buffer.
ghost use Rattle.std.specs.Prelude.{◌≡◌, ◌-◌, ◌↔◌, ◌⊎◌, length, min, chars, None, Err, IfOk, IfErr, OnOk, OnErr};
ghost use Rattle.rope_search_reports.specs.Ticks.{MakesAsMany, MakesAtMost};
ghost use Rattle.rope_search.specs.Order.{SetPattern};
ghost use Rattle.rope_search.specs.Pending.{Advances, Begins, Cancels, CompletesWindow, HasFewInWindow, StateAdvances, lines_left};
ghost use Rattle.rope_search.specs.Session.{chosen_in};
ghost use Rattle.rope_search.specs.Step.{Accepts, IsFirstRefusal};
ghost use Rattle.rope_search.specs.TextsKept.{ChangesChosen};

use crate::session::Session;
use rope_search_io::Fault;
use rope_search_reports::{Lines, Row};
use simdutf8::compat::from_utf8;

impl Session {
    /// Makes a pattern of the chosen buffer pending, as `Buffer::begin_pattern` does. Its pattern
    /// and its report stay, and nothing is searched yet.
    ///
    /// # Errors
    ///
    /// They leave the session as it was: those of `Command::Pattern`.
    pub fn begin_pattern(&mut self, pattern: &[u8]) -> Result<(), Fault>
        ensures begins { OnOk result (ChangesChosen (Begins (chars pattern.now)) self.old self.new) }
        ensures accepted { OnOk result
            (Accepts self.old.limit self.old.state (SetPattern pattern.now)) }
        ensures refused { IfErr result (λ fault. (fault ≡ Fault.Memory)
            ⊎ IsFirstRefusal self.old.limit self.old.state (SetPattern pattern.now) fault) }
        ensures state { self.new.state ≡ self.old.state }
        ensures limit { self.new.limit ≡ self.old.limit }
        ensures err { OnErr result (self.new ≡ self.old) }
    {
        // A law, for the proof alone.
        rope_search_reports::laws::one_of_three();
        let Ok(pattern) = from_utf8(pattern) else {
            return Err(Fault::Utf8);
        };
        self.buffers[self.chosen].begin_pattern(pattern)
    }

    /// Searches up to `max_lines` further lines of the chosen buffer's text for its pending
    /// pattern, as `Buffer::advance` does, and returns whether all lines are done. The buffer is
    /// then as `Command::Pattern` leaves it.
    ///
    /// # Errors
    ///
    /// They leave the session as it was: `Fault::Nothing` without a pending pattern, else
    /// `Fault::Memory`.
    pub fn advance(&mut self, tick: &mut Lines, max_lines: usize) -> Result<bool, Fault>
        ensures advances { IfOk result (λ is_done.
            ChangesChosen (Advances max_lines is_done) self.old self.new) }
        ensures state { IfOk result (λ is_done.
            StateAdvances self.old.state (chosen_in self.old) is_done self.new.state) }
        ensures nothing { (result ≡ Err Fault.Nothing) ↔ ((chosen_in self.old).pending ≡ None) }
        ensures fault { IfErr result (λ fault.
            (fault ≡ Fault.Nothing) ⊎ (fault ≡ Fault.Memory)) }
        ensures limit { self.new.limit ≡ self.old.limit }
        ensures err { OnErr result (self.new ≡ self.old) }

        // A row is made for each line that is searched.
        ensures unsearched { result ≡ Err Fault.Nothing → tick.new ≡ tick.old }
        ensures rows { MakesAtMost max_lines tick.old tick.new }
        ensures each { OnOk result
            (MakesAsMany (min max_lines (lines_left (chosen_in self.old))) tick.old tick.new) }
    {
        self.buffers[self.chosen].advance(tick, max_lines)
    }

    /// Searches those of the lines `from` up to `to` of the chosen buffer's text that are not done
    /// for its pending pattern, and returns their rows, as `Buffer::window` does.
    ///
    /// # Errors
    ///
    /// `Fault::Nothing` without a pending pattern, else `Fault::Memory`. The session is as it was,
    /// whatever is answered.
    pub fn window(&mut self, tick: &mut Lines, from: usize, to: usize) -> Result<Vec<Row>, Fault>
        ensures rows { IfOk result (λ made.
            CompletesWindow (chosen_in self.old) from to made.items) }
        ensures few { IfOk result (λ made. HasFewInWindow (chosen_in self.old) from to made.items) }
        ensures nothing { (result ≡ Err Fault.Nothing) ↔ ((chosen_in self.old).pending ≡ None) }
        ensures fault { IfErr result (λ fault.
            (fault ≡ Fault.Nothing) ⊎ (fault ≡ Fault.Memory)) }
        ensures same { self.new ≡ self.old }

        // A row is made for each line that is not done.
        ensures unsearched { result ≡ Err Fault.Nothing → tick.new ≡ tick.old }
        ensures count { MakesAtMost (min (to - from) (lines_left (chosen_in self.old)))
            tick.old tick.new }
        ensures each { IfOk result (λ made.
            MakesAsMany (length made.items) tick.old tick.new) }
    {
        self.buffers[self.chosen].window(tick, from, to)
    }

    /// Drops the chosen buffer's pending pattern, if there is one. All else stays.
    pub fn cancel(&mut self)
        ensures cancels { ChangesChosen Cancels self.old self.new }
        ensures state { self.new.state ≡ self.old.state }
        ensures limit { self.new.limit ≡ self.old.limit }
    {
        self.buffers[self.chosen].cancel();
    }
}
