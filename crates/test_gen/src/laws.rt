//! Worked rows of the definitions.
ghost use Rattle.test_gen.specs.Worked.{WorkedLines};

/// The first lines that are made, computed from their definition.
pub fn worked_lines()
    ensures { WorkedLines }
{}
