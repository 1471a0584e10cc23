//! Worked rows.
ghost use Rattle.pat_check.specs.Rows.{WorkedRows};

/// The definitions computed: lengths, patterns that can be empty, first bytes, sizes and named newlines.
pub fn worked_rows()
    ensures { WorkedRows }
{}
