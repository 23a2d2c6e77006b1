//! A rope that grows by bytes.
ghost use Rattle.std.specs.Prelude.{◌≡◌, ◌≤◌, ◌<◌, ◌⊎◌, ◌↔◌, ◌++◌, ◌∷◌, [], List, ℕ, length, chars, Err, IsUtf8, OnOk, OnErr, IfOk, IfErr};
ghost use Rattle.ropey.specs.Chunks.{text_of};
ghost use Rattle.ropey.specs.Reading.{BeginsText, IsCutAt};
ghost use Rattle.rope_search_io.specs.Utf8Judge.{Continues};
ghost use Rattle.rope_search_texts.specs.Arriving.{StopsText};

use crate::boxed_builder::BoxedBuilder;
use arrayvec::ArrayVec;
use rope_search_io::{Fault, Utf8Judge};
use ropey::Rope;
use simdutf8::compat::from_utf8;
use std::alloc::Global;
use std::marker::Model;
use std::mem;

/// The bytes of a character, of which the last is still missing, or none.
type Part = ArrayVec<u8, 4>;

/// A text in the leaves of a rope, whose bytes come in parts that may end inside a character.
/// Contracts see the bytes so far.
#[derive(Drop)]
pub struct GrowingText {
    text: BoxedBuilder,
    // The bytes after the text: those of a character that isn't whole yet.
    part: Part,
}

impl Model for GrowingText {
    ghost use Rattle.std.specs.Prelude.{◌≡◌, ◌<◌, ◌++◌, [], List, ℕ, true, IsUtf8, length, encode_utf8_all};
    ghost use Rattle.std.specs.Str.{all_scalars};

    ghost Value = { List ℕ };

    ghost view = { λ t. encode_utf8_all t.text ++ t.part.items };

    ghost invariant = { λ t. (all_scalars t.text ≡ true) × (IsUtf8 t.part.items → t.part.items ≡ [])
        × (length t.part.items < 4) };
}

/// Returns the longest text at the front of bytes that some text begins with. What follows it is a
/// part of a character.
fn longest_text(bytes: &[u8]) -> Result<&str, Fault>
    ensures text { IfOk result (λ text. (rest : List ℕ) × IsCutAt bytes.now text.now rest) }
    ensures refused { IfErr result (λ fault. fault ≡ Fault.Utf8) }
    ensures none { OnErr result (BeginsText bytes.now → ⊥) }
{
    match from_utf8(bytes) {
        Ok(text) => Ok(text),
        Err(error) => {
            if error.error_len().is_some() {
                return Err(Fault::Utf8);
            }
            // SAFETY: `from_utf8` has found this prefix valid.
            Ok(unsafe { str::from_utf8_unchecked(&bytes[..error.valid_up_to()]) })
        }
    }
}

/// Appends the longest text at the front of these bytes, and returns what follows it: a part of a
/// character, or nothing. After an error the text is as it was.
fn append_text(text: &mut BoxedBuilder, bytes: &[u8]) -> Result<Part, Fault>
    ensures text { IfOk result (λ rest. (front : List ℕ) × IsCutAt bytes.now front rest.items
        × (text.new ≡ text.old ++ chars front)) }
    ensures kept { OnErr result (text.new ≡ text.old) }
    ensures stops { IfErr result (λ fault. StopsText fault bytes.now) }
{
    let front = longest_text(bytes)?;
    if text.append(front).is_err() {
        return Err(Fault::Memory);
    }
    Ok(part_of(&bytes[front.len()..]))
}

/// Returns these bytes, at most four.
fn part_of(bytes: &[u8]) -> Part
    requires { length bytes.now ≤ 4 }
    ensures { result.items ≡ bytes.now }
{
    let mut part = ArrayVec::new();
    // There is room for them.
    let _ = part.try_extend_from_slice(bytes);
    part
}

/// Returns the number of bytes before the last character, if that is cut off; else of all bytes.
fn len_before_cut(bytes: &[u8]) -> usize
    ensures { result ≤ length bytes.now }
{
    for back in 1..bytes.len().min(3) + 1 {
        let at = bytes.len() - back;
        if bytes[at] >= 0xc0 {
            return if width(bytes[at]) > back {
                at
            } else {
                bytes.len()
            };
        }
    }
    bytes.len()
}

/// Returns the number of bytes of a character, given its first byte.
const fn width(first: u8) -> usize
    ensures { result ≤ 4 }
{
    match first {
        0..0x80 => 1,
        0x80..0xe0 => 2,
        0xe0..0xf0 => 3,
        _ => 4,
    }
}

impl GrowingText {
    /// Returns the empty text. Allocates nothing.
    pub fn new(alloc: Global) -> GrowingText
        ensures { result ≡ [] }
    {
        GrowingText {
            text: BoxedBuilder::new(alloc),
            part: ArrayVec::new(),
        }
    }

    /// Returns the number of bytes so far. `O(1)`.
    pub fn len(&self) -> usize
        ensures { result ≡ length self.now }
    {
        self.text.len_bytes() + self.part.len()
    }

    /// Returns a judge of the bytes so far, which checks whether they and those that follow are
    /// UTF-8. `O(1)`.
    pub fn judge(&self) -> Utf8Judge
        ensures { (more : List ℕ) → Continues result more ↔ IsUtf8 (self.now ++ more) }
    {
        let mut judge = Utf8Judge::new();
        judge.feed(self.part.as_slice());
        judge
    }

    /// Appends bytes. `O(n)` in their number.
    ///
    /// # Errors
    ///
    /// `Fault::Utf8` if no text begins with the bytes so far and these; `Fault::Memory`. Which
    /// bytes the text has after that isn't specified.
    pub fn append(&mut self, bytes: &[u8]) -> Result<(), Fault>
        ensures bytes { OnOk result (self.new ≡ self.old ++ bytes.now) }
        ensures stops { IfErr result (λ fault. StopsText fault (self.old ++ bytes.now)) }
    {
        // The character that an earlier part began comes first, and one that is cut off last.
        let (first, rest) = bytes.split_at(self.lacking().min(bytes.len()));
        self.push_all(first)?;
        let (whole, last) = rest.split_at(len_before_cut(rest));
        self.push_text(whole)?;
        self.push_all(last)?;
        Ok(())
    }

    /// Returns the rope of the text.
    ///
    /// # Errors
    ///
    /// `Fault::Utf8` if the bytes aren't UTF-8; `Fault::Memory`.
    pub fn finish(self) -> Result<Rope, Fault>
        ensures text { IfOk result (λ rope. text_of rope ≡ chars self) }
        ensures utf8 { OnOk result (IsUtf8 self) }
        ensures none { result ≡ Err Fault.Utf8 → IsUtf8 self → ⊥ }
        ensures fault { IfErr result (λ fault. (fault ≡ Fault.Utf8) ⊎ (fault ≡ Fault.Memory)) }
    {
        if !self.part.is_empty() {
            return Err(Fault::Utf8);
        }
        match self.text.finish() {
            Ok(rope) => Ok(rope),
            Err(_) => Err(Fault::Memory),
        }
    }

    // Returns the number of bytes that the current character lacks.
    fn lacking(&self) -> usize {
        match self.part.as_slice() {
            [] => 0,
            [first, ..] => width(*first).saturating_sub(self.part.len()),
        }
    }

    // Appends these bytes at once, if no character is begun.
    fn push_text(&mut self, bytes: &[u8]) -> Result<(), Fault>
        ensures bytes { OnOk result (self.new ≡ self.old ++ bytes.now) }
        ensures stops { IfErr result (λ fault. StopsText fault (self.old ++ bytes.now)) }
    {
        if !self.part.is_empty() {
            return self.push_all(bytes);
        }
        self.part = append_text(&mut self.text, bytes)?;
        Ok(())
    }

    // Appends these bytes one by one.
    fn push_all(&mut self, bytes: &[u8]) -> Result<(), Fault>
        ensures bytes { OnOk result (self.new ≡ self.old ++ bytes.now) }
        ensures stops { IfErr result (λ fault. StopsText fault (self.old ++ bytes.now)) }
    {
        for byte in bytes {
            self.push(*byte)?;
        }
        Ok(())
    }

    // Appends one byte.
    fn push(&mut self, byte: u8) -> Result<(), Fault>
        ensures bytes { OnOk result (self.new ≡ self.old ++ byte ∷ []) }
        ensures stops { IfErr result (λ fault. StopsText fault (self.old ++ byte ∷ [])) }
    {
        let mut bytes = mem::replace(&mut self.part, ArrayVec::new());
        bytes.push(byte);
        self.part = append_text(&mut self.text, bytes.as_slice())?;
        Ok(())
    }
}
