//! Classes of bytes that a program doesn't distinguish.

ghost use Rattle.std.specs.Prelude.{◌≡◌, ◌+◌, ◌-◌, ◌<◌, length, map, slice_get, All, IfOk, true, false};
ghost use Rattle.unicode.specs.Perl.{is_word_char};
ghost use Rattle.rx_steps.specs.Reversed.{byte_program_of, state_of};
ghost use Rattle.rx_dfa.specs.Classes.{HasCut, HasMoreCuts, RowIsCut, AutomatonIsCut, StateIsCut, WordsAreCut, LooksAreCut, AreClasses, AreClassesOf, class_of};

use rx_program::{Program, ReverseProgram, ReverseState, State};
use rx_steps::AskedLooks;
use rx_utf8::{ByteRange, ReverseAutomaton, SetAutomaton};
use std::alloc::{AllocError, Global};
use std::marker::Model;
use unicode::perl::is_word_code;

/// Cuts before and after a range of bytes.
fn cut(cuts: &mut [bool; 257], first: u8, last: u8)
    ensures first { HasCut cuts.new first }
    ensures behind { HasCut cuts.new (last + 1) }
    ensures more { HasMoreCuts cuts.old cuts.new }
{
    cuts[usize::from(first)] = true;
    cuts[usize::from(last) + 1] = true;
}

/// Cuts before and after each range of a row.
fn cut_row(cuts: &mut [bool; 257], row: &[ByteRange])
    ensures cut { RowIsCut cuts.new row.now }
    ensures more { HasMoreCuts cuts.old cuts.new }
{
    for range in row {
        cut(cuts, range.first, range.last);
    }
}

/// Cuts before and after each range of an automaton.
fn cut_ranges(cuts: &mut [bool; 257], automaton: &SetAutomaton)
    ensures cut { AutomatonIsCut cuts.new automaton.now }
    ensures more { HasMoreCuts cuts.old cuts.new }
{
    for number in 0..automaton.state_count() {
        cut_row(cuts, automaton.row(number));
    }
}

/// Cuts before and after each range of a state's automaton, if it has one.
fn cut_state(cuts: &mut [bool; 257], state: &State)
    ensures cut { StateIsCut cuts.new state.now }
    ensures more { HasMoreCuts cuts.old cuts.new }
{
    if let State::Ranges(automaton, _) = state {
        cut_ranges(cuts, automaton);
    }
}

/// Cuts before and after each range of a reverse automaton.
fn cut_ranges_back(cuts: &mut [bool; 257], automaton: &ReverseAutomaton)
    ensures cut { AutomatonIsCut cuts.new automaton.now }
    ensures more { HasMoreCuts cuts.old cuts.new }
{
    for number in 0..automaton.state_count() {
        cut_row(cuts, automaton.row(number));
    }
}

/// Cuts before and after each range of the automaton of a state of a reverse program, if it has
/// one.
fn cut_state_back(cuts: &mut [bool; 257], state: &ReverseState)
    ensures cut { StateIsCut cuts.new (state_of state.now) }
    ensures more { HasMoreCuts cuts.old cuts.new }
{
    if let ReverseState::Ranges(automaton, _) = state {
        cut_ranges_back(cuts, automaton);
    }
}

/// Returns whether one of this byte and the byte below it is a word character and the other isn't.
fn do_words_meet(byte: usize) -> bool
    requires above { 0 < byte }
    requires below { byte < 128 }
    ensures { result ≡ false → is_word_char (byte - 1) ≡ is_word_char byte }
{
    is_word_code(byte as u32 - 1) != is_word_code(byte as u32)
}

/// Cuts before a byte if `is_cut`.
fn cut_before(cuts: &mut [bool; 257], byte: usize, is_cut: bool)
    requires { byte < 257 }
    ensures cut { is_cut ≡ true → HasCut cuts.new byte }
    ensures more { HasMoreCuts cuts.old cuts.new }
{
    if is_cut {
        cuts[byte] = true;
    }
}

/// Cuts at each change between ASCII word characters and others, if the program has word
/// assertions.
fn cut_words(cuts: &mut [bool; 257], are_asked: bool)
    ensures cut { are_asked ≡ true → WordsAreCut cuts.new 128 }
    ensures more { HasMoreCuts cuts.old cuts.new }
{
    if !are_asked {
        return;
    }
    for byte in 1..128_usize {
        cut_before(cuts, byte, do_words_meet(byte));
    }
}

/// Cuts before and after the line terminator, if the program has line assertions.
fn cut_lines(cuts: &mut [bool; 257], are_asked: bool, line_terminator: u8)
    ensures first { are_asked ≡ true → HasCut cuts.new line_terminator }
    ensures behind { are_asked ≡ true → HasCut cuts.new (line_terminator + 1) }
    ensures more { HasMoreCuts cuts.old cuts.new }
{
    if are_asked {
        cut(cuts, line_terminator, line_terminator);
    }
}

/// Returns the cuts that assertions and the encoding of characters need.
fn look_cuts(asked: AskedLooks, line_terminator: u8) -> [bool; 257]
    ensures { LooksAreCut asked line_terminator result }
{
    let mut cuts = [false; 257];
    cut(&mut cuts, 128, 191);
    cut_lines(&mut cuts, asked.lines, line_terminator);
    cut_words(&mut cuts, asked.words);
    cuts
}

/// Returns the cuts of a program.
fn cuts_of(program: &Program, asked: AskedLooks) -> [bool; 257]
    ensures looks { LooksAreCut asked program.now.line_terminator result }
    ensures states { All (StateIsCut result) program.now.states }
{
    let mut cuts = look_cuts(asked, program.line_terminator());
    for state in program.states() {
        cut_state(&mut cuts, state);
    }
    cuts
}

/// Returns the cuts of a reverse program.
fn cuts_of_back(reverse: &ReverseProgram, asked: AskedLooks) -> [bool; 257]
    ensures looks { LooksAreCut asked reverse.now.line_terminator result }
    ensures states { All (StateIsCut result) (map state_of reverse.now.states) }
{
    let mut cuts = look_cuts(asked, reverse.line_terminator());
    for state in reverse.states() {
        cut_state_back(&mut cuts, state);
    }
    cuts
}

/// The class of each byte, and a representative byte of each class. Contracts see both as lists.
#[derive(Debug, Drop)]
pub(crate) struct ByteClasses {
    of: [u8; 256],
    bytes: Vec<u8>,
}

impl Model for ByteClasses {
    ghost use Rattle.rx_dfa.specs.Classes.{ByteClassesView};

    ghost Value = { ByteClassesView };

    ghost view = { λ c. record { of = c.of; bytes = c.bytes.items } };
}

impl ByteClasses {
    /// Returns the classes between cuts.
    fn between(alloc: Global, cuts: &[bool; 257]) -> Result<ByteClasses, AllocError>
        ensures { IfOk result (λ classes. AreClasses cuts.now classes 256) }
    {
        let mut of = [0_u8; 256];
        let mut bytes = Vec::new(alloc);
        bytes.push(0_u8)?;
        let mut class = 0_u8;
        for byte in 1..256_usize {
            if cuts[byte] {
                class += 1;
                bytes.push(byte as u8)?;
            }
            of[byte] = class;
        }
        Ok(ByteClasses { of, bytes })
    }

    /// Returns the classes of a program with these assertions. `O(n)` in the ranges of its
    /// automata.
    pub(crate) fn new(
        alloc: Global,
        program: &Program,
        asked: AskedLooks,
    ) -> Result<ByteClasses, AllocError>
        ensures { IfOk result (λ classes. AreClassesOf program.now asked classes) }
    {
        let cuts = cuts_of(program, asked);
        let classes = ByteClasses::between(alloc, &cuts)?;
        Ok(classes)
    }

    /// Returns the classes of a reverse program with these assertions. `O(n)` in the ranges of its
    /// automata.
    pub(crate) fn new_back(
        alloc: Global,
        reverse: &ReverseProgram,
        asked: AskedLooks,
    ) -> Result<ByteClasses, AllocError>
        ensures { IfOk result (AreClassesOf (byte_program_of reverse.now) asked) }
    {
        let cuts = cuts_of_back(reverse, asked);
        let classes = ByteClasses::between(alloc, &cuts)?;
        Ok(classes)
    }

    /// Returns the number of classes plus two, for the end of the slice.
    pub(crate) fn column_count(&self) -> usize
        ensures { result ≡ length self.now.bytes + 2 }
    {
        self.bytes.len() + 2
    }

    /// Returns the class of a byte.
    #[inline(always)]
    pub(crate) fn class(&self, byte: u8) -> usize
        ensures { result ≡ class_of self.now byte }
    {
        usize::from(self.of[usize::from(byte)])
    }

    /// Returns the representative byte of a class, or `None` for a number past the last class.
    pub(crate) fn byte(&self, class: usize) -> Option<u8>
        ensures { result ≡ slice_get self.now.bytes class }
    {
        self.bytes.get(class).copied()
    }
}
