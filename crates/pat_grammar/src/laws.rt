//! Laws on the definitions.
ghost use Rattle.pat_grammar.specs.Laws.{ReadingsAreBounded};

/// What a pattern is read as has its references, calls, lookarounds and conditions in the pattern, and
/// at most 501 atomic groups and lookarounds stand in each other.
pub fn readings_are_bounded()
    ensures { ReadingsAreBounded }
{}
