//! What holds of the definitions that the contracts cite.

ghost use Rattle.frame_store.specs.Entry.{KnownKindLaw, OtherEntryLaw, UndoKindLaw, SetValueLaw, UnsetValueLaw};
ghost use Rattle.frame_store.specs.Undo.{TrailLaw, AppendLaw, FilterLaw, PlainLaw, LengthLaw, OtherKindLaw};
ghost use Rattle.frame_store.specs.Rows.{AreRows};

/// The way back undoes any writes to registers whose old values were all pushed before them. Only undo records count,
/// so that it does so whatever other records stand between them.
pub fn undo_laws()
    ensures trail { TrailLaw }
    ensures appended { AppendLaw }
    ensures filtered { FilterLaw }
    ensures plain { PlainLaw }
    ensures lengths { LengthLaw }
{}

/// What a record stands for: by its kind, and where it is an undo record, which value it keeps.
pub fn entry_laws()
    ensures known { KnownKindLaw }
    ensures other { OtherEntryLaw }
    ensures undo { UndoKindLaw }
    ensures set { SetValueLaw }
    ensures unset { UnsetValueLaw }
    ensures no_undo { OtherKindLaw }
{}

/// Worked examples.
pub fn worked_rows()
    ensures { AreRows }
{}
