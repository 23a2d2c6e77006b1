//! Laws of the definitions that this crate's contracts cite. Each function does nothing: its
//! contract is the law.

ghost use Rattle.ropey_walk.specs.Laws.{NoCuttingCutsCrLf, EqualWhereTextsAre};

/// No CR LF is split between two chunks of a rope or a slice.
pub fn chunks_cut_no_cr_lf()
    ensures { NoCuttingCutsCrLf }
{}

/// `==` on slices and ropes, which compares bytes, is equality of their texts.
pub fn equal_where_texts_are()
    ensures { EqualWhereTextsAre }
{}
