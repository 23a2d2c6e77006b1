//! Laws of the definitions that this crate's contracts cite. Each function does nothing: its
//! contract is the law, for every text.

ghost use Rattle.std.specs.Prelude.{ℕ, Bool, length};
ghost use Rattle.str_indices.specs.Text.{NoCrLfBetween, is_line_break, is_crlf_break, is_lf_break, breaks, break_ends, char_ends, unit_ends, units, surrogate_pairs};
ghost use Rattle.str_indices.specs.FirstBreak.{GoesOnBehindFirstBreak};
ghost use Rattle.str_indices.specs.Laws.{JoinsEnds, JoinsBreaks, LosesBreakInCrLf, LosesNoBreak, AddsUp, UnitsAreCharsAndPairs, FewerBreaks, NoMoreThanBytes, RisesWithPlace, RisesWithIndex, UnitStartsRise, EndsAreBoundaries, UnitStartsAreBoundaries, ComesBack, SecondUnitComesBackToFirst, OtherUnitsComeBack, EndsAndPlacesAgree, LastEndIsBefore, LastUnitStartIsBefore, CharsAndBoundariesAgree, UnitsAndBoundariesAgree, CharsGoToLastBoundary, UnitsGoToLastBoundary, AnyTexts, EndsAddUp, PlacesAddUp, UnitStartsAddUp, EndsBehind};

/// Joining two texts adds up their line breaks. If CR is a break, and the first text ends in CR and
/// the second starts with LF, that is one break less.
pub fn breaks_of_joined_texts()
    ensures any { (is_break : ℕ → Bool) → JoinsBreaks is_break }
    ensures lines { LosesBreakInCrLf is_line_break }
    ensures lines_crlf { LosesBreakInCrLf is_crlf_break }
    ensures lines_lf { LosesNoBreak is_lf_break }
{}

/// If no CR LF is split between two texts, the break ends of the joined text are those of the
/// first, then those of the second moved by the first one's bytes.
pub fn break_ends_of_joined_texts()
    ensures { (is_break : ℕ → Bool) → JoinsEnds is_break }
{}

/// After the first line break of a text, its breaks are those of the rest.
pub fn breaks_behind_the_first()
    ensures { (is_break : ℕ → Bool) → GoesOnBehindFirstBreak is_break }
{}

/// Characters, code units and surrogate pairs of two joined texts add up.
pub fn counts_of_joined_texts()
    ensures chars { AddsUp length }
    ensures units { AddsUp units }
    ensures surrogates { AddsUp surrogate_pairs }
{}

/// The code units of a text are its characters plus its surrogate pairs.
pub fn units_are_chars_and_pairs()
    ensures { UnitsAreCharsAndPairs }
{}

/// A text has at most as many breaks by LF as by LF and CR, and at most as many of those as Unicode
/// breaks.
pub fn schemes_of_breaks()
    ensures lf { FewerBreaks is_lf_break is_crlf_break }
    ensures crlf { FewerBreaks is_crlf_break is_line_break }
{}

/// No text has more characters, code units or line breaks than bytes.
pub fn counts_are_at_most_bytes()
    ensures chars { NoMoreThanBytes length }
    ensures units { NoMoreThanBytes units }
    ensures lines { (is_break : ℕ → Bool) → NoMoreThanBytes (breaks is_break) }
{}

/// `from_byte_idx` is monotone.
pub fn from_byte_idx_is_monotone()
    ensures chars { RisesWithPlace char_ends }
    ensures units { RisesWithPlace unit_ends }
    ensures lines { (is_break : ℕ → Bool) → RisesWithPlace (break_ends is_break) }
{}

/// `to_byte_idx` is monotone.
pub fn to_byte_idx_is_monotone()
    ensures chars { RisesWithIndex char_ends }
    ensures units { UnitStartsRise }
    ensures lines { (is_break : ℕ → Bool) → RisesWithIndex (break_ends is_break) }
{}

/// `to_byte_idx` returns a character boundary.
pub fn to_byte_idx_is_a_boundary()
    ensures chars { EndsAreBoundaries char_ends }
    ensures units { UnitStartsAreBoundaries }
    ensures lines { (is_break : ℕ → Bool) → EndsAreBoundaries (break_ends is_break) }
{}

/// `from_byte_idx` of `to_byte_idx` is the smaller of the index and the count. For the second unit
/// of a surrogate pair it is the index of the first.
pub fn conversion_there_and_back()
    ensures chars { ComesBack char_ends }
    ensures lines { (is_break : ℕ → Bool) → ComesBack (break_ends is_break) }
    ensures second_unit { SecondUnitComesBackToFirst }
    ensures other_units { OtherUnitsComeBack }
{}

/// For k up to the count, the k-th end is at or before an offset exactly if at least k ends are.
pub fn ends_and_places_agree()
    ensures chars { EndsAndPlacesAgree char_ends }
    ensures lines { (is_break : ℕ → Bool) → EndsAndPlacesAgree (break_ends is_break) }
{}

/// A character boundary is at or before `to_byte_idx` of an index exactly if `from_byte_idx` of the
/// boundary is at most the index.
pub fn boundaries_and_indices_agree()
    ensures chars { CharsAndBoundariesAgree }
    ensures units { UnitsAndBoundariesAgree }
{}

/// `to_byte_idx` of `from_byte_idx` is at most the offset and the text's length. For characters and
/// code units it is the last boundary at or before the offset.
pub fn place_there_and_back()
    ensures lines { (is_break : ℕ → Bool) → LastEndIsBefore (break_ends is_break) }
    ensures chars { LastEndIsBefore char_ends }
    ensures units { LastUnitStartIsBefore }
    ensures nearest_char { CharsGoToLastBoundary }
    ensures nearest_unit { UnitsGoToLastBoundary }
{}

/// The ends up to an offset in a part of a text are those before the part plus those up to that
/// offset in it. For lines, no CR LF may be split at either side of the part.
pub fn ends_of_a_part()
    ensures chars { EndsAddUp AnyTexts length char_ends }
    ensures units { EndsAddUp AnyTexts units unit_ends }
    ensures lines { (is_break : ℕ → Bool)
        → EndsAddUp NoCrLfBetween (breaks is_break) (break_ends is_break) }
{}

/// The offset of an end in a part of a text is its offset in the part plus the bytes before the
/// part. For lines, no CR LF may be split at either side of the part.
pub fn places_of_a_part()
    ensures chars { PlacesAddUp AnyTexts length char_ends }
    ensures units { UnitStartsAddUp }
    ensures lines { (is_break : ℕ → Bool)
        → PlacesAddUp NoCrLfBetween (breaks is_break) (break_ends is_break) }
{}

/// The ends up to an offset after a character boundary are those up to the boundary plus those of
/// the text from there on. A CR LF split by the boundary ends after it, as its LF alone does.
pub fn ends_behind_a_boundary()
    ensures chars { EndsBehind char_ends }
    ensures units { EndsBehind unit_ends }
    ensures lines { (is_break : ℕ → Bool) → EndsBehind (break_ends is_break) }
{}
