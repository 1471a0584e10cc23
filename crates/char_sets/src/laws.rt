// A law on the definitions, and worked rows.
ghost use Rattle.char_sets.specs.Laws.{RangesFold};
ghost use Rattle.char_sets.specs.Rows.{WorkedRows, WorkedUnicode};

/// In a class that takes any case, a range holds of a character where one of the same folding lies in it.
pub fn ranges_fold()
    ensures { RangesFold }
{}

/// The definitions computed on small classes.
pub fn worked_rows()
    ensures { WorkedRows }
{}

/// The same in UTF, with foldings and properties of Unicode.
pub fn worked_unicode()
    ensures { WorkedUnicode }
{}
