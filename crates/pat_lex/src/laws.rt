//! Laws on the definitions, and worked rows.
ghost use Rattle.pat_lex.specs.Laws.{QuotedBytes, PlainBytes, ClassBytes, LiteralsAreCharacters};
ghost use Rattle.pat_lex.specs.Rows.{WorkedRows};

/// Tokens computed from the definition, each as pcre2pattern has it.
pub fn worked_rows()
    ensures { WorkedRows }
{}

/// Between `\Q` and `\E` every byte but a backslash stands for itself, in UTF every one of ASCII (pcre2pattern,
/// "Backslash").
pub fn quoted_bytes_stand_for_themselves()
    ensures { QuotedBytes }
{}

/// Outside classes a byte that is no metacharacter stands for itself, where nothing is ignored (pcre2pattern,
/// "Characters and metacharacters").
pub fn plain_bytes_stand_for_themselves()
    ensures { PlainBytes }
{}

/// In a class a byte that is none of its metacharacters stands for itself, where nothing is ignored (pcre2pattern,
/// "Square brackets and character classes").
pub fn class_bytes_stand_for_themselves()
    ensures { ClassBytes }
{}

/// In UTF the character that stands for itself is the one that begins there.
pub fn literals_are_characters()
    ensures { LiteralsAreCharacters }
{}
