//! The options by their letters and names.
ghost use Rattle.std.specs.Prelude.{◌≡◌, ◌<◌, OnSome};
ghost use Rattle.grep_args.specs.Table.{by_letter, by_name, by_later_name};

use crate::options::{FilterOption, Flag, GrepOption, NumberOption, PlainOption, ValuedOption};
use crate::plan::{BinaryMode, HelpKind, NameMode, OffsetMode};

/// The option of a letter, each of which is ASCII.
pub fn by_letter(letter: u8) -> Option<GrepOption>
    ensures option { result ≡ by_letter letter }
    ensures ascii { OnSome result (letter < 128) }
{
    match letter {
        b'A' => Some(GrepOption::Valued(ValuedOption::Number(NumberOption::AfterContext))),
        b'B' => Some(GrepOption::Valued(ValuedOption::Number(NumberOption::BeforeContext))),
        b'C' => Some(GrepOption::Valued(ValuedOption::Number(NumberOption::Context))),
        b'F' => Some(GrepOption::Plain(PlainOption::Switch(Flag::FixedStrings))),
        b'H' => Some(GrepOption::Plain(PlainOption::Names(NameMode::With))),
        b'I' => Some(GrepOption::Plain(PlainOption::Binary(BinaryMode::WithoutMatch))),
        b'L' => Some(GrepOption::Plain(PlainOption::Names(NameMode::NotMatching))),
        b'N' => Some(GrepOption::Valued(ValuedOption::Newline)),
        b'V' => Some(GrepOption::Plain(PlainOption::Help(HelpKind::Version))),
        b'a' => Some(GrepOption::Plain(PlainOption::Binary(BinaryMode::Text))),
        b'c' => Some(GrepOption::Plain(PlainOption::Switch(Flag::Count))),
        b'e' => Some(GrepOption::Valued(ValuedOption::Regex)),
        b'f' => Some(GrepOption::Valued(ValuedOption::File)),
        b'h' => Some(GrepOption::Plain(PlainOption::Names(NameMode::Without))),
        b'i' => Some(GrepOption::Plain(PlainOption::Switch(Flag::IgnoreCase))),
        b'l' => Some(GrepOption::Plain(PlainOption::Names(NameMode::Matching))),
        b'm' => Some(GrepOption::Valued(ValuedOption::Number(NumberOption::MaxCount))),
        b'n' => Some(GrepOption::Plain(PlainOption::Switch(Flag::LineNumber))),
        b'o' => Some(GrepOption::OnlyMatching),
        b'q' => Some(GrepOption::Plain(PlainOption::Switch(Flag::Quiet))),
        b'r' => Some(GrepOption::Plain(PlainOption::Switch(Flag::Recursive))),
        b's' => Some(GrepOption::Plain(PlainOption::Switch(Flag::NoMessages))),
        b't' => Some(GrepOption::Plain(PlainOption::Switch(Flag::TotalCount))),
        b'u' => Some(GrepOption::Plain(PlainOption::Switch(Flag::Utf))),
        b'v' => Some(GrepOption::Plain(PlainOption::Switch(Flag::InvertMatch))),
        b'w' => Some(GrepOption::Plain(PlainOption::Switch(Flag::WordRegex))),
        b'x' => Some(GrepOption::Plain(PlainOption::Switch(Flag::LineRegex))),
        _ => None,
    }
}

// The option of a long name of the later rows. A match of all names takes four times as long to prove as one of half of
// them.
fn by_later_name(name: &str) -> Option<GrepOption>
    ensures { result ≡ by_later_name name.now }
{
    match name {
        "label" => Some(GrepOption::Valued(ValuedOption::Label)),
        "line-offsets" => Some(GrepOption::Plain(PlainOption::Offsets(OffsetMode::Lines))),
        "file-offsets" => Some(GrepOption::Plain(PlainOption::Offsets(OffsetMode::File))),
        "match-limit" => Some(GrepOption::Valued(ValuedOption::Number(NumberOption::MatchLimit))),
        "frame-limit" => Some(GrepOption::Valued(ValuedOption::Number(NumberOption::FrameLimit))),
        "max-buffer-size" => Some(GrepOption::Valued(ValuedOption::Number(
            NumberOption::MaxBufferSize,
        ))),
        "max-count" => Some(GrepOption::Valued(ValuedOption::Number(NumberOption::MaxCount))),
        "newline" => Some(GrepOption::Valued(ValuedOption::Newline)),
        "line-number" => Some(GrepOption::Plain(PlainOption::Switch(Flag::LineNumber))),
        "only-matching" => Some(GrepOption::OnlyMatching),
        "om-separator" => Some(GrepOption::Valued(ValuedOption::OmSeparator)),
        "quiet" => Some(GrepOption::Plain(PlainOption::Switch(Flag::Quiet))),
        "recursive" => Some(GrepOption::Plain(PlainOption::Switch(Flag::Recursive))),
        "include" => Some(GrepOption::Valued(ValuedOption::Filter(FilterOption::Include))),
        "exclude" => Some(GrepOption::Valued(ValuedOption::Filter(FilterOption::Exclude))),
        "include-dir" => Some(GrepOption::Valued(ValuedOption::Filter(FilterOption::IncludeDir))),
        "exclude-dir" => Some(GrepOption::Valued(ValuedOption::Filter(FilterOption::ExcludeDir))),
        "no-messages" => Some(GrepOption::Plain(PlainOption::Switch(Flag::NoMessages))),
        "invert-match" => Some(GrepOption::Plain(PlainOption::Switch(Flag::InvertMatch))),
        "word-regex" | "word-regexp" => Some(GrepOption::Plain(PlainOption::Switch(
            Flag::WordRegex,
        ))),
        "line-regex" | "line-regexp" => Some(GrepOption::Plain(PlainOption::Switch(
            Flag::LineRegex,
        ))),
        "buffer-size" => Some(GrepOption::Valued(ValuedOption::Number(NumberOption::BufferSize))),
        "line-buffered" | "no-jit" => Some(GrepOption::Plain(PlainOption::NoEffect)),
        "help" => Some(GrepOption::Plain(PlainOption::Help(HelpKind::Help))),
        "version" => Some(GrepOption::Plain(PlainOption::Help(HelpKind::Version))),
        _ => None,
    }
}

/// The option of a long name.
pub fn by_name(name: &str) -> Option<GrepOption>
    ensures { result ≡ by_name name.now }
{
    match name {
        "after-context" => Some(GrepOption::Valued(ValuedOption::Number(
            NumberOption::AfterContext,
        ))),
        "before-context" => Some(GrepOption::Valued(ValuedOption::Number(
            NumberOption::BeforeContext,
        ))),
        "context" => Some(GrepOption::Valued(ValuedOption::Number(NumberOption::Context))),
        "text" => Some(GrepOption::Plain(PlainOption::Binary(BinaryMode::Text))),
        "binary-files" => Some(GrepOption::Valued(ValuedOption::BinaryFiles)),
        "count" => Some(GrepOption::Plain(PlainOption::Switch(Flag::Count))),
        "total-count" => Some(GrepOption::Plain(PlainOption::Switch(Flag::TotalCount))),
        "regex" | "regexp" => Some(GrepOption::Valued(ValuedOption::Regex)),
        "file" => Some(GrepOption::Valued(ValuedOption::File)),
        "fixed-strings" => Some(GrepOption::Plain(PlainOption::Switch(Flag::FixedStrings))),
        "with-filename" => Some(GrepOption::Plain(PlainOption::Names(NameMode::With))),
        "no-filename" => Some(GrepOption::Plain(PlainOption::Names(NameMode::Without))),
        "ignore-case" => Some(GrepOption::Plain(PlainOption::Switch(Flag::IgnoreCase))),
        "utf" => Some(GrepOption::Plain(PlainOption::Switch(Flag::Utf))),
        "files-with-matches" => Some(GrepOption::Plain(PlainOption::Names(NameMode::Matching))),
        "files-without-match" => Some(GrepOption::Plain(PlainOption::Names(NameMode::NotMatching))),
        _ => by_later_name(name),
    }
}
