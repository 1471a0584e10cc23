//! What the words of pcre2grep ask for.
use pat_tree::{ByteList, Newline, NumberList, TextList};
use pcre_io::{Name, NameList};

/// How a binary file is treated (pcre2grep, "OPTIONS", `--binary-files`).
#[derive(Clone, Copy, Debug, PartialEq, Eq)]
pub enum BinaryMode {
    /// It is searched, and a match is only told.
    Binary,
    /// It is treated as text.
    Text,
    /// It counts as a file in which nothing matches.
    WithoutMatch,
}

/// Whether names of files are shown (pcre2grep, "OPTIONS", `-H`, `-h`, `-l` and `-L`).
#[derive(Clone, Copy, Debug, PartialEq, Eq)]
pub enum NameMode {
    /// Where there are two or more files.
    Auto,
    /// Always.
    With,
    /// Never.
    Without,
    /// Alone, of each file in which a line is selected.
    Matching,
    /// Alone, of each file in which no line is selected.
    NotMatching,
}

/// Whether places of matches are shown in place of lines (pcre2grep, "OPTIONS", `--line-offsets` and `--file-offsets`).
#[derive(Clone, Copy, Debug, PartialEq, Eq)]
pub enum OffsetMode {
    /// Lines are shown.
    NoOffsets,
    /// From the beginning of the line.
    Lines,
    /// From the beginning of the file.
    File,
}

/// A text that is asked for in place of a search.
#[derive(Clone, Copy, Debug, PartialEq, Eq)]
pub enum HelpKind {
    /// How the tool is called.
    Help,
    /// Which version it is.
    Version,
}

/// What the words of pcre2grep ask for (pcre2grep, "OPTIONS").
#[derive(Debug, Drop)]
pub struct GrepPlan {
    /// The patterns of `-e` in order, or the one that is a word of its own.
    pub patterns: TextList,
    /// The files of `-f` in order, in which further patterns stand.
    pub pattern_files: NameList,
    /// How many words there are before the first that names a file.
    pub files_from: usize,
    /// How many lines are shown after a selected line.
    pub after_context: u32,
    /// How many lines are shown before a selected line.
    pub before_context: u32,
    /// How binary files are treated.
    pub binary: BinaryMode,
    /// Whether names of files are shown.
    pub names: NameMode,
    /// The name of standard input.
    pub label: Name,
    /// The groups that are shown in place of lines, 0 for the whole match. Empty without `-o`.
    pub only_matching: NumberList,
    /// What stands between the groups of one match.
    pub om_separator: ByteList,
    /// Whether places of matches are shown in place of lines.
    pub offsets: OffsetMode,
    /// `-c`: the number of selected lines is shown for each file, in place of lines.
    pub count: bool,
    /// `-t`: the number of selected lines in all files is shown at the end.
    pub total_count: bool,
    /// `-F`: each line of a pattern is a fixed string.
    pub fixed_strings: bool,
    /// `-i`: letters match in any case.
    pub ignore_case: bool,
    /// `-u`: patterns and inputs are UTF-8.
    pub utf: bool,
    /// `-n`: the numbers of lines are shown.
    pub line_number: bool,
    /// `-q`: nothing is shown.
    pub quiet: bool,
    /// `-s`: no message tells of files that can't be opened or read.
    pub no_messages: bool,
    /// `-v`: the lines in which nothing matches are selected.
    pub invert_match: bool,
    /// `-w`: patterns match whole words.
    pub word_regex: bool,
    /// `-x`: patterns match whole lines.
    pub line_regex: bool,
    /// The greatest number of steps at one start place.
    pub match_limit: u32,
    /// The greatest number of units that a path may hold.
    pub frame_limit: u32,
    /// The greatest number of bytes in a line, from 1 to 1,073,741,824.
    pub max_buffer_size: u32,
    /// The greatest number of lines selected in a file, at least 1.
    pub max_count: Option<u32>,
    /// What ends a line.
    pub newline: Newline,
    /// The text that is asked for in place of a search.
    pub help: Option<HelpKind>,
    /// `-r`: the files in directories are searched.
    pub recursive: bool,
    /// The patterns of `--include` in order, one of which the name of a file must match, where there are any.
    pub include: TextList,
    /// The patterns of `--exclude` in order, none of which the name of a file may match.
    pub exclude: TextList,
    /// The patterns of `--include-dir` in order, one of which the name of a directory must match, where there are any.
    pub include_dir: TextList,
    /// The patterns of `--exclude-dir` in order, none of which the name of a directory may match.
    pub exclude_dir: TextList,
}
