//! What a line of a script is.
use pat_tree::ByteList;
use test_modifiers::{Modifiers, Refusal};

/// A pattern (pcre2test, "PATTERN SYNTAX").
#[derive(Debug, Drop)]
pub struct PatternEntry {
    /// The text between the delimiters. Lines are joined by line feeds.
    pub pattern: ByteList,
    /// Those of its list over the defaults.
    pub modifiers: Modifiers,
}

/// A subject line (pcre2test, "SUBJECT LINE SYNTAX").
#[derive(Debug, Drop)]
pub struct SubjectEntry {
    /// What the line writes.
    pub subject: ByteList,
    /// Those of its own list.
    pub modifiers: Modifiers,
}

/// A command (pcre2test, "COMMAND LINES").
#[derive(Debug, Drop)]
pub enum Command {
    /// `#pattern`, with its list.
    PatternDefaults(Modifiers),
    /// `#subject`, with its list.
    SubjectDefaults(Modifiers),
}

/// What a line of a script is.
#[derive(Debug, Drop)]
pub enum Entry {
    /// A line of a pattern that isn't closed yet.
    More,
    /// A comment, a blank line, or a subject line of a refused pattern: it is only echoed.
    Note,
    Pattern(PatternEntry),
    Subject(SubjectEntry),
    Command(Command),
    Refused(Refusal),
    /// The blank line after subject lines.
    EndOfSubjects,
}
