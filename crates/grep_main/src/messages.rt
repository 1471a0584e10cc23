//! Messages of a run, and the texts that are asked for in place of a search.
ghost use Rattle.std.specs.Prelude.{◌≡◌, [], ◌++◌, map, string_bytes, slice_index_or};
ghost use Rattle.grep_output.specs.Messages.{message};
ghost use Rattle.grep_main.specs.Refusals.{usage_text, usage_message, refused_message, pattern_message};
ghost use Rattle.grep_main.specs.Refusals.{filter_message, filter_name, help_text};
ghost use Rattle.grep_main.specs.PatternFiles.{missing_message};
ghost use Rattle.tool_io.specs.Writes.{Writes};

use grep_args::{FilterOption, HelpKind, UsageKind};
use grep_core::write_message;
use itoa::Buffer;
use pcre_io::{IoError, Sink};
use pcre2_errors::fault_text;
use tool_io::write_texts;

// What is at fault, before the word that is told.
fn usage_start(kind: UsageKind) -> &'static [u8]
    ensures { result.now ≡ usage_text kind [] }
{
    match kind {
        UsageKind::UnknownOption => b"unknown option ",
        UsageKind::MissingValue => b"missing value for ",
        UsageKind::BadNumber => b"bad number in ",
        UsageKind::BadValue => b"bad value in ",
        UsageKind::Exclude => b"options exclude each other",
        UsageKind::NoPattern => b"no pattern",
    }
}

// A word, or the empty one where there are fewer.
fn word_at(words: &[String], word: usize) -> &[u8]
    ensures { result.now ≡ slice_index_or (map string_bytes words.now) word [] }
{
    match words.get(word) {
        Some(word) => word.as_bytes(),
        None => b"",
    }
}

// The word that is told of a fault: none where the words are at fault together.
fn usage_word(words: &[String], kind: UsageKind, word: usize) -> &[u8]
    ensures { usage_text kind (slice_index_or (map string_bytes words.now) word [])
        ≡ usage_text kind [] ++ result.now }
{
    match kind {
        UsageKind::Exclude | UsageKind::NoPattern => b"",
        _ => word_at(words, word),
    }
}

// Writes a fault with the word that is told of it.
fn write_fault<E: Sink>(err: &mut E, start: &[u8], word: &[u8]) -> Result<(), IoError>
    ensures { Writes (message (start.now ++ word.now)) (E.tells err.old) (E.tells err.new) result }
{
    write_texts(err, &[b"pcre2grep: ", start, word, b"\n"])
}

/// Writes which word is at fault, and how.
pub fn write_usage<E: Sink>(
    err: &mut E,
    words: &[String],
    kind: UsageKind,
    word: usize,
) -> Result<(), IoError>
    ensures { Writes (usage_message (map string_bytes words.now)
        (record { kind = kind; word = word })) (E.tells err.old) (E.tells err.new) result }
{
    write_fault(err, usage_start(kind), usage_word(words, kind, word))
}

// Writes which pattern of a kind is refused, and why.
fn write_refused<E: Sink>(
    err: &mut E,
    kind: &'static [u8],
    index: u64,
    number: i32,
    at: usize,
) -> Result<(), IoError>
    ensures { Writes (refused_message kind.now index (record { number = number; at = at }))
        (E.tells err.old) (E.tells err.new) result }
{
    let mut place = Buffer::new();
    let mut fault = Buffer::new();
    let mut offset = Buffer::new();
    write_texts(
        err,
        &[
            b"pcre2grep: ",
            kind,
            b" ",
            place.format(index).as_bytes(),
            b": error ",
            fault.format(number).as_bytes(),
            b" at offset ",
            offset.format(at).as_bytes(),
            b": ",
            fault_text(number),
            b"\n",
        ],
    )
}

/// Writes which pattern is refused, and why.
pub fn write_bad_pattern<E: Sink>(
    err: &mut E,
    pattern: u64,
    number: i32,
    at: usize,
) -> Result<(), IoError>
    ensures { Writes (pattern_message (record {
      number = pattern;
      fault =
          record { number = number; at = at };
    })) (E.tells err.old) (E.tells err.new) result }
{
    write_refused(err, b"pattern", pattern, number, at)
}

// The option of a pattern for names.
fn filter_name(option: FilterOption) -> &'static [u8]
    ensures { result.now ≡ filter_name option }
{
    match option {
        FilterOption::Include => b"--include",
        FilterOption::Exclude => b"--exclude",
        FilterOption::IncludeDir => b"--include-dir",
        FilterOption::ExcludeDir => b"--exclude-dir",
    }
}

/// Writes which pattern for names is refused, and why.
pub fn write_bad_filter<E: Sink>(
    err: &mut E,
    option: FilterOption,
    index: u64,
    number: i32,
    at: usize,
) -> Result<(), IoError>
    ensures { Writes (filter_message (record {
      option = option;
      index = index;
      fault =
          record { number = number; at = at };
    })) (E.tells err.old) (E.tells err.new) result }
{
    write_refused(err, filter_name(option), index, number, at)
}

/// Writes a text that is asked for in place of a search.
pub fn write_help<O: Sink>(out: &mut O, kind: HelpKind) -> Result<(), IoError>
    ensures { Writes (help_text kind) (O.tells out.old) (O.tells out.new) result }
{
    match kind {
        HelpKind::Help => write_texts(out, &[b"usage: pcre2grep [options] [pattern] [files]\n"]),
        HelpKind::Version => write_texts(out, &[b"pcre2grep 8-bit profile\n"]),
    }
}

/// Writes that a file can't be opened.
pub fn write_missing<E: Sink>(err: &mut E, name: &str) -> Result<(), IoError>
    ensures { Writes (missing_message name.now) (E.tells err.old) (E.tells err.new) result }
{
    write_message(err, name, b"cannot be opened")
}
