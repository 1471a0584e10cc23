//! The options of pcre2grep, by whether they take a value and by what they set in the plan.
use crate::plan::{BinaryMode, HelpKind, NameMode, OffsetMode};

/// The options that turn something on.
#[derive(Clone, Copy, Debug, PartialEq, Eq)]
pub enum Flag {
    Count,
    TotalCount,
    FixedStrings,
    IgnoreCase,
    Utf,
    LineNumber,
    Quiet,
    NoMessages,
    InvertMatch,
    WordRegex,
    LineRegex,
    Recursive,
}

/// An option that takes no value.
#[derive(Clone, Copy, Debug, PartialEq, Eq)]
pub enum PlainOption {
    Switch(Flag),
    Names(NameMode),
    Binary(BinaryMode),
    Offsets(OffsetMode),
    Help(HelpKind),
    /// It is accepted, and has no effect.
    NoEffect,
}

/// An option whose value is a number.
#[derive(Clone, Copy, Debug, PartialEq, Eq)]
pub enum NumberOption {
    AfterContext,
    BeforeContext,
    Context,
    MatchLimit,
    FrameLimit,
    BufferSize,
    MaxBufferSize,
    MaxCount,
}

/// An option whose value is a pattern for the names of files or of directories.
#[derive(Clone, Copy, Debug, PartialEq, Eq)]
pub enum FilterOption {
    Include,
    Exclude,
    IncludeDir,
    ExcludeDir,
}

/// An option that takes a value.
#[derive(Clone, Copy, Debug, PartialEq, Eq)]
pub enum ValuedOption {
    Number(NumberOption),
    /// A pattern for names.
    Filter(FilterOption),
    /// A pattern.
    Regex,
    /// The name of a file of patterns.
    File,
    /// The name of standard input.
    Label,
    OmSeparator,
    BinaryFiles,
    Newline,
}

/// An option of pcre2grep (pcre2grep, "OPTIONS" and "OPTIONS WITH DATA").
#[derive(Clone, Copy, Debug, PartialEq, Eq)]
pub enum GrepOption {
    Plain(PlainOption),
    /// It may have the number of a group as its value, which only stands joined to it.
    OnlyMatching,
    Valued(ValuedOption),
}
