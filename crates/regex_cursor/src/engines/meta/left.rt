//! What one engine finds out about a search, and what it leaves to the next one.

ghost use Rattle.std.specs.Prelude.{◌≡◌, ◌<◌, ◌≤◌, ◌^◌, ℕ, Bool, IsTrue, None, Some, false, length, option_map};
ghost use Rattle.unicode.specs.Perl.{is_word_char};
ghost use Rattle.rx_util.specs.declared.search.Span.{Span};
ghost use Rattle.rx_util.specs.Captured.{nothing_noted};
ghost use Rattle.rx_input.specs.Cursors.{IsSameContent};
ghost use Rattle.rx_input.specs.Inputs.{IsSpan};
ghost use Rattle.rx_walks.specs.Finds.{Search};
ghost use Rattle.rx_steps.specs.Searching.{answer_slots, search_of};
ghost use Rattle.rx_steps.specs.Threads.{no_slots};
ghost use Rattle.rx_program.specs.Programs.{ByteProgram, character_program};
ghost use Rattle.rx_literals.specs.Needles.{AreNeedles, FoundInSpan};
ghost use Rattle.rx_literals.specs.Literals.{FindsLiteral, IsLiteralOf, literal_match};
ghost use Rattle.rx_chunk.specs.Engines.{Finds};
ghost use Rattle.regex_cursor.specs.Regexes.{half_of};
ghost use Rattle.regex_cursor.specs.Strategies.{HoldsNext, IsLeft, IsPart, IsPartLeft, IsStart, IsTold};

use rx_input::{Cursor, Input};
use rx_literals::{Prefilter, literal};
use rx_steps::clear_slots;
use rx_util::{Anchored, Captures, HalfMatch, Match, NonMaxUsize, PatternID, Span};

/// What a literal shows of a search whose span isn't done.
#[derive(Clone, Copy, Debug)]
pub(super) enum Start {
    /// There is no match.
    Nowhere,
    /// The match takes this span, and has no other groups: it is the literal.
    At(Span),
    /// The match begins at this offset or after it.
    From(usize),
}

/// The automaton's result of a search.
#[derive(Clone, Copy, Debug)]
pub(super) enum Told {
    /// There is no match.
    NoMatch,
    /// There is a match of this pattern, and it ends at this offset.
    Ends(HalfMatch),
    /// It isn't known: the automaton isn't used, quit or gave up.
    Unknown,
}

/// A part of a search's span, whose result is that of the span.
#[derive(Clone, Copy, Debug)]
pub(super) struct Part {
    pub(super) span: Span,
    /// The pattern of the match, if it is known that there is one; then the match ends where the
    /// part does.
    pub(super) pattern: Option<PatternID>,
}

/// What is left of a search for the PikeVM.
#[derive(Clone, Copy, Debug)]
pub(super) enum Left {
    /// Nothing: there is no match.
    Nothing,
    /// Nothing: the match takes this span, and has no other groups.
    Match(Span),
    /// Its groups: it is this match.
    Found(Match),
    /// The search of this part of the span.
    In(Part),
}

impl Told {
    /// Returns what is left of a search of this span.
    pub(super) fn left_in(self, span: Span) -> Left
        requires { span.start ≤ span.end }
        ensures { (p : ByteProgram) (s : Search) → s.start ≡ span.start → s.end ≡ span.end
            → IsTold p s self → IsLeft p s result }
    {
        match self {
            Told::NoMatch => Left::Nothing,
            Told::Ends(half) => Left::In(Part {
                span: Span {
                    start: span.start,
                    end: half.offset(),
                },
                pattern: Some(half.pattern()),
            }),
            Told::Unknown => Left::In(Part {
                span,
                pattern: None,
            }),
        }
    }
}

impl Left {
    /// Returns the part that contains the match, if there is one.
    pub(super) fn part(self) -> Option<Part>
        ensures { (p : ByteProgram) (s : Search) → IsLeft p s self → IsPartLeft p s result }
    {
        match self {
            Left::Nothing => None,
            Left::Match(span) => Some(Part {
                span,
                pattern: Some(PatternID::ZERO),
            }),
            Left::Found(found) => Some(Part::of(found)),
            Left::In(part) => Some(part),
        }
    }
}

impl Part {
    /// Returns the part that a match takes.
    pub(super) fn of(found: Match) -> Part
        ensures { result ≡ record { span = found.span; pattern = Some found.pattern } }
    {
        Part {
            span: found.span(),
            pattern: Some(found.pattern()),
        }
    }

    /// Returns whether a match in the part may end where the last match did, if there was one.
    fn may_end_at(&self, last_match_end: Option<usize>) -> bool
        ensures known { (k : ℕ) → self.now.pattern ≡ Some k
            → last_match_end ≡ Some self.now.span.end → IsTrue result }
        ensures unknown { (end : ℕ) → self.now.pattern ≡ None → last_match_end ≡ Some end
            → self.now.span.start ≤ end → IsTrue result }
    {
        match last_match_end {
            None => false,
            Some(end) if self.pattern.is_some() => end == self.span.end,
            Some(end) => self.span.start <= end,
        }
    }

    /// Returns the part to search for the next match, given where the last match ended, if there
    /// was one: all of the search's span, if an empty match may have to be skipped.
    pub(super) fn behind(&self, last_match_end: Option<usize>, whole: Span) -> Part
        ensures { (p : ByteProgram) (s : Search) → s.start ≡ whole.start → s.end ≡ whole.end
            → IsPart p s self.now → HoldsNext p s last_match_end result.span }
    {
        if self.may_end_at(last_match_end) {
            Part {
                span: whole,
                pattern: None,
            }
        } else {
            *self
        }
    }

    /// Makes the part an input's span, and returns the span that it had.
    pub(super) fn cut<C: Cursor>(&self, input: &mut Input<C>) -> Span
        requires { self.now.span.start ≤ self.now.span.end }
        ensures whole { result ≡ input.old.asked.span }
        ensures same { IsSameContent input.old.cursor input.new.cursor }
        ensures asked { input.new.asked ≡ record input.old.asked { span = self.now.span } }
    {
        let whole = input.get_span();
        put_back(input, self.span);
        whole
    }
}

/// Returns the pattern and the end of a match.
pub(super) fn half_of(found: Option<Match>) -> Option<HalfMatch>
    ensures { result ≡ option_map half_of found }
{
    match found {
        Some(found) => Some(HalfMatch::new(found.pattern(), found.end())),
        None => None,
    }
}

/// Sets an input's span, for `cut` and to undo it.
pub(super) fn put_back<C: Cursor>(input: &mut Input<C>, span: Span)
    requires { IsSpan span }
    ensures same { IsSameContent input.old.cursor input.new.cursor }
    ensures asked { input.new.asked ≡ record input.old.asked { span = span } }
{
    input.set_span(span);
}

/// Returns whether a span is inside another one.
fn lies_in(span: Span, slice: Span) -> bool
    ensures from { IsTrue result → slice.start ≤ span.start }
    ensures to { IsTrue result → span.end ≤ slice.end }
{
    slice.start <= span.start && span.end <= slice.end
}

/// Returns what an occurrence of the literal shows, if each match is that literal. An occurrence
/// outside of the slice shows nothing.
fn start_at<C: Cursor>(found: Option<Span>, input: &Input<C>) -> Start
    requires { input.now.asked.span.start ≤ input.now.asked.span.end }
    ensures { (p : ByteProgram) (s : Search) → s.start ≡ input.now.asked.span.start
        → s.end ≡ input.now.asked.span.end
        → (found ≡ None → Finds p s None)
        → ((span : Span) → found ≡ Some span → input.now.asked.slice.start ≤ span.start
        → span.end ≤ input.now.asked.slice.end
        → FindsLiteral (character_program p) is_word_char s span)
        → IsStart p s result }
{
    match found {
        None => Start::Nowhere,
        Some(span) if lies_in(span, input.get_slice()) => Start::At(span),
        Some(_) => Start::From(input.start()),
    }
}

/// Returns the first occurrence of a literal of a prefilter in the span. The position may move.
pub(super) fn find_literal<C: Cursor>(prefilter: &Prefilter, input: &mut Input<C>) -> Option<Span>
    ensures needles { AreNeedles prefilter.now }
    ensures found { FoundInSpan prefilter.now input.old result }
    ensures same { IsSameContent input.old.cursor input.new.cursor }
    ensures asked { input.new.asked ≡ input.old.asked }
{
    prefilter.needles_are_lawful(); // for the proof only
    literal::find(prefilter, input)
}

/// Returns what a literal shows of a search, if each match is that literal. Scans the span for it,
/// or only its start if the search is anchored. The span must not be done. The position may move.
pub(super) fn start_of_literal<C: Cursor>(needle: &Prefilter, input: &mut Input<C>) -> Start
    requires { input.old.asked.span.start ≤ input.old.asked.span.end }
    ensures start { (p : ByteProgram) (utf8_empty : Bool)
        → IsLiteralOf needle.now (character_program p)
        → IsStart p (search_of utf8_empty input.old) result }
    ensures asked { input.new.asked ≡ input.old.asked }
    ensures same { IsSameContent input.old.cursor input.new.cursor }
{
    needle.needles_are_lawful(); // for the proof only
    match input.get_anchored() {
        Anchored::No => {
            let found = literal::find(needle, input);
            start_at(found, input)
        }
        Anchored::Yes => {
            let found = literal::prefix(needle, input);
            start_at(found, input)
        }
        Anchored::Pattern(_) => Start::From(input.start()),
    }
}

/// Writes the offsets of a match that takes a span, and has no other groups, into the slots.
pub(super) fn put_match(slots: &mut [Option<NonMaxUsize>], span: Span)
    requires start { span.start < 2 ^ 63 }
    requires end { span.end < 2 ^ 63 }
    ensures { slots.new ≡ answer_slots (length slots.old) (Some (literal_match span)) }
{
    if slots.len() == 2 {
        put_both(slots, span);
    } else {
        put_first(slots, span);
    }
}

/// Does the same for two slots.
fn put_both(slots: &mut [Option<NonMaxUsize>], span: Span)
    requires two { length slots.old ≡ 2 }
    requires start { span.start < 2 ^ 63 }
    requires end { span.end < 2 ^ 63 }
    ensures { slots.new ≡ answer_slots (length slots.old) (Some (literal_match span)) }
{
    let start = NonMaxUsize::new(span.start);
    let end = NonMaxUsize::new(span.end);
    slots[0] = start;
    slots[1] = end;
}

/// Does the same for any number of slots: clears all, then writes the first two.
fn put_first(slots: &mut [Option<NonMaxUsize>], span: Span)
    requires start { span.start < 2 ^ 63 }
    requires end { span.end < 2 ^ 63 }
    ensures { slots.new ≡ answer_slots (length slots.old) (Some (literal_match span)) }
{
    clear_slots(slots);
    let len = slots.len();
    if len == 0 {
        return;
    }
    slots[0] = NonMaxUsize::new(span.start);
    if len == 1 {
        return;
    }
    slots[1] = NonMaxUsize::new(span.end);
}

/// Clears slots, as `clear_slots` does, but without a loop if there are two, as for whole matches.
pub(super) fn clear_few(slots: &mut [Option<NonMaxUsize>])
    ensures all { slots.new ≡ no_slots (length slots.old) }
    ensures none { slots.new ≡ no_slots (length slots.new) }
{
    if slots.len() == 2 {
        clear_both(slots);
    } else {
        clear_slots(slots);
    }
}

/// Clears two slots.
fn clear_both(slots: &mut [Option<NonMaxUsize>])
    requires two { length slots.old ≡ 2 }
    ensures all { slots.new ≡ no_slots (length slots.old) }
    ensures none { slots.new ≡ no_slots (length slots.new) }
{
    slots[0] = None;
    slots[1] = None;
}

/// Notes that there is no match.
pub(super) fn note_nothing(caps: &mut Captures)
    ensures nothing { caps.new ≡ nothing_noted caps.old.groups (length caps.old.slots) }
    ensures none { caps.new.slots ≡ no_slots (length caps.new.slots) }
{
    caps.set_pattern(None);
    clear_slots(caps.slots_mut());
}
