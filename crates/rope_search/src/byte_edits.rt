//! Edits by byte offsets.
ghost use Rattle.std.specs.Prelude.{◌≡◌, ℕ, ◌≤◌, ◌↔◌, ◌⊎◌, length, chars, Err, IfOk, IfErr, OnOk, OnErr};
ghost use Rattle.rope_search_reports.specs.Position.{IsAt};
ghost use Rattle.rope_search_reports.specs.Ticks.{MakesAtMost};
ghost use Rattle.rope_search.specs.ByteEdits.{AreAtBytes, AreNoRange, ForBytes};
ghost use Rattle.rope_search.specs.Changed.{Replaces, TellsAfter};
ghost use Rattle.rope_search.specs.Cost.{SearchesFor, rows_anew};
ghost use Rattle.rope_search.specs.Histories.{KeepsEdit};
ghost use Rattle.rope_search.specs.Order.{EditText};
ghost use Rattle.rope_search.specs.Pending.{KeepsPending};
ghost use Rattle.rope_search.specs.Places.{GetsTooLong, IsEdit};
ghost use Rattle.rope_search.specs.Session.{current_text, chosen_buffer};
ghost use Rattle.rope_search.specs.Step.{Step};
ghost use Rattle.rope_search.specs.TextsKept.{KeepsAfter, TellsText};

use crate::buffer::Buffer;
use crate::commands::{Command, Payload, Reply};
use crate::session::Session;
use rope_search_io::Fault;
use rope_search_reports::{Lines, Position};

impl Buffer {
    /// Returns the position that is at a byte of the current text: none is inside a character or
    /// between the CR and the LF of a break. `O(log n)`.
    ///
    /// # Errors
    ///
    /// `Fault::Range` if no position is at the byte.
    fn position_at(&self, byte_idx: usize) -> Result<Position, Fault>
        ensures at { IfOk result (λ told.
            IsAt (current_text self.now.state) (told.line, told.column) byte_idx) }
        ensures range { IfErr result (λ fault. (spot : ℕ × ℕ)
            → IsAt (current_text self.now.state) spot byte_idx → ⊥) }
        ensures fault { IfErr result (λ fault. fault ≡ Fault.Range) }
    {
        // The text's facts, for the proof alone.
        let _ = self.text().len_bytes();
        let Ok(position) = self.position_of(byte_idx) else {
            return Err(Fault::Range);
        };
        // Between a CR and an LF, too, a byte has a position, which is nowhere.
        let Ok(there) = self.byte_of(position) else {
            return Err(Fault::Range);
        };
        if there != byte_idx {
            return Err(Fault::Range);
        }
        Ok(position)
    }

    /// Returns the positions that are at two bytes of the current text. `O(log n)`.
    ///
    /// # Errors
    ///
    /// `Fault::Range` if no position is at one of them.
    pub(crate) fn positions_at(&self, from: usize, to: usize) -> Result<(Position, Position), Fault>
        ensures at { IfOk result (λ told.
            AreAtBytes (current_text self.now.state) from to told.0 told.1) }
        ensures range { IfErr result (λ fault. (start stop : Position)
            → AreAtBytes (current_text self.now.state) from to start stop → ⊥) }
        ensures fault { IfErr result (λ fault. fault ≡ Fault.Range) }
    {
        let Ok(start) = self.position_at(from) else {
            return Err(Fault::Range);
        };
        let Ok(stop) = self.position_at(to) else {
            return Err(Fault::Range);
        };
        Ok((start, stop))
    }

    /// Replaces the bytes from one offset to another by a text, as `edit` does between the
    /// positions at these bytes. It parts no CR LF.
    ///
    /// # Errors
    ///
    /// They leave the buffer as it was. `Fault::Range` if an offset is past the text, inside a
    /// character or between the CR and the LF of a break, or the second one is before the first,
    /// else `Fault::Size` if the new text would have more bytes than the limit; `Fault::Memory`.
    ///
    /// # Complexity
    ///
    /// That of `edit`.
    pub fn edit_bytes(
        &mut self,
        tick: &mut Lines,
        from: usize,
        to: usize,
        inserted: &str,
    ) -> Result<(), Fault>
        ensures ok { OnOk result (ForBytes (current_text self.old.state) from to (λ start stop.
            IsEdit self.old.state start stop (chars inserted.now) self.new.state)) }
        ensures kept { OnOk result (ForBytes (current_text self.old.state) from to (λ start stop.
            KeepsEdit self.old start stop (chars inserted.now) self.new)) }
        ensures text_changes { OnOk result (TellsText self.old self.new) }
        ensures pending { OnOk result (KeepsPending self.old self.new) }
        ensures changed { OnOk result (Replaces self.old.state self.new.state self.new.changed) }
        ensures added { OnOk result
            (self.new.changed.added ≤ rows_anew self.old.state (chars inserted.now)) }
        ensures limit { self.new.limit ≡ self.old.limit }
        ensures range { (result ≡ Err Fault.Range)
            ↔ AreNoRange (current_text self.old.state) from to }
        ensures size { (result ≡ Err Fault.Size)
            ↔ ForBytes (current_text self.old.state) from to (λ start stop.
            GetsTooLong self.old.limit (current_text self.old.state) start stop
            (length inserted.now)) }
        ensures fault { IfErr result (λ fault.
            (fault ≡ Fault.Range) ⊎ ((fault ≡ Fault.Size) ⊎ (fault ≡ Fault.Memory))) }
        ensures err { OnErr result (self.new ≡ self.old) }

        // It makes at most as many rows as what it inserts has lines.
        ensures range_unsearched { result ≡ Err Fault.Range → tick.new ≡ tick.old }
        ensures size_unsearched { result ≡ Err Fault.Size → tick.new ≡ tick.old }
        ensures rows { MakesAtMost (rows_anew self.old.state (chars inserted.now))
            tick.old tick.new }
    {
        // The text's facts, for the proof alone.
        let _ = self.text().len_bytes();
        let Ok((start, stop)) = self.positions_at(from, to) else {
            return Err(Fault::Range);
        };
        self.edit(tick, start, stop, inserted)
    }
}

impl Session {
    /// Replaces the bytes of the chosen buffer's text from one offset to another, as
    /// `Buffer::edit_bytes` does, and answers as `Command::Edit` between the positions at these
    /// bytes.
    ///
    /// # Errors
    ///
    /// They leave the session as it was. `Fault::Range` if an offset is past the text, inside a
    /// character or between the CR and the LF of a break, or the second one is before the first,
    /// else `Fault::Utf8` if the bytes are not UTF-8, else `Fault::Size` if the new text would have
    /// more bytes than the limit; `Fault::Memory`.
    ///
    /// # Complexity
    ///
    /// That of `Command::Edit`.
    pub fn edit_bytes(
        &mut self,
        tick: &mut Lines,
        from: usize,
        to: usize,
        text: &[u8],
    ) -> Result<Reply, Fault>
        ensures step { (start stop : Position)
            → AreAtBytes (current_text (chosen_buffer self.old.state)) from to start stop
            → Step self.old.limit self.old.state (EditText start stop text.now) result
            self.new.state }
        ensures searches { (start stop : Position)
            → AreAtBytes (current_text (chosen_buffer self.old.state)) from to start stop
            → SearchesFor self.old.limit self.old.state (EditText start stop text.now)
            tick.old tick.new }
        ensures changed { (start stop : Position)
            → AreAtBytes (current_text (chosen_buffer self.old.state)) from to start stop
            → TellsAfter self.old.state (EditText start stop text.now) result self.new.state
            self.old.changed self.new.changed }
        ensures kept { (start stop : Position)
            → AreAtBytes (current_text (chosen_buffer self.old.state)) from to start stop
            → KeepsAfter self.old (EditText start stop text.now) result self.new }
        ensures limit { self.new.limit ≡ self.old.limit }
        ensures range { AreNoRange (current_text (chosen_buffer self.old.state)) from to
            → result ≡ Err Fault.Range }
        ensures same { AreNoRange (current_text (chosen_buffer self.old.state)) from to
            → self.new ≡ self.old }
        ensures unsearched { AreNoRange (current_text (chosen_buffer self.old.state)) from to
            → tick.new ≡ tick.old }
    {
        // The text's facts, for the proof alone.
        let _ = self.buffer().text().len_bytes();
        let Ok((start, stop)) = self.buffer().positions_at(from, to) else {
            return Err(Fault::Range);
        };
        if to < from {
            return Err(Fault::Range);
        }
        self.apply(tick, Command::Edit(start, stop, Payload::Kept(text)))
    }
}
