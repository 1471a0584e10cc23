//! Worked rows of the definitions.
ghost use Rattle.test_run.specs.Worked.{WorkedRows};

/// Scripts computed from the definition, each as pcre2test has it.
pub fn worked_rows()
    ensures { WorkedRows }
{}
