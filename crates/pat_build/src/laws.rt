//! Worked rows.
ghost use Rattle.pat_build.specs.Rows.{WorkedRows};

/// Nineteen patterns computed from the definition, each as pcre2pattern has it.
pub fn worked_rows()
    ensures { WorkedRows }
{}
