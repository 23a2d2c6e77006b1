//! Laws of the definitions that this crate's contracts cite. Each function does nothing: its
//! contract is the law.

ghost use Rattle.ropey.specs.Laws.{NoCuttingCutsCrLf, EqualWhereTextsAre, RemovalUndoesInsertion, AppendUndoesSplit};

/// No CR LF is split between two chunks of a rope.
pub fn chunks_cut_no_cr_lf()
    ensures { NoCuttingCutsCrLf }
{
    ropey_walk::laws::chunks_cut_no_cr_lf();
}

/// `==` on ropes, which compares bytes, is equality of their texts.
pub fn equal_where_texts_are()
    ensures { EqualWhereTextsAre }
{
    ropey_walk::laws::equal_where_texts_are();
}

/// Removing the inserted characters undoes an insertion.
pub fn removal_undoes_insertion()
    ensures { RemovalUndoesInsertion }
{}

/// Appending what `split_off` returned undoes the split.
pub fn append_undoes_split()
    ensures { AppendUndoesSplit }
{}
