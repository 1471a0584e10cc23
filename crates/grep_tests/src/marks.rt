//! The lines of a data file.
use crate::wrong::Wrong;

/// What a number of bytes is said of.
#[derive(Clone, Copy)]
pub enum Limit {
    /// Every read of the input after so many bytes fails.
    Input,
    /// The output has room for so many bytes.
    Output,
    /// The messages have room for so many bytes.
    Messages,
}

/// What a name is, beside what the files say.
#[derive(Clone, Copy)]
pub enum Manner {
    /// Neither a file nor a directory.
    Other,
    /// Neither opened nor listed.
    Closed,
    /// Nor asked for its kind.
    Refused,
}

/// A line of a data file.
#[derive(Clone, Copy)]
pub enum Line<'a> {
    /// An empty line, or a comment.
    Nothing,
    /// The name of a file, and after how many bytes every read of it fails.
    File(&'a str, Option<u64>),
    /// A name of this manner.
    Named(Manner, &'a str),
    /// A line of a file, so many times.
    Content(&'a str, usize),
    /// The words of a row.
    Command(&'a str),
    /// A line of the input, so many times.
    Input(&'a str, usize),
    /// After how many bytes a stream of the row fails.
    Limited(Limit, u64),
    /// The greatest pieces of reads and writes.
    Pieces(&'a str),
    /// A line of the output.
    Output(&'a str),
    /// A line of the messages.
    Message(&'a str),
    /// The status, which ends a row.
    Status(u8),
}

// The text after a mark.
fn after<'a>(line: &'a str, mark: &str) -> Option<&'a str> {
    let rest = line.strip_prefix(mark)?;
    if rest.is_empty() {
        Some(rest)
    } else {
        rest.strip_prefix(' ')
    }
}

fn number(text: &str) -> Result<u64, Wrong> {
    match text.parse() {
        Ok(number) => Ok(number),
        Err(_) => Err(Wrong::Because("this wants a number")),
    }
}

// The text after a mark, and how many times the line stands there: as `<*20 text` or `< text`.
fn counted<'a>(line: &'a str, mark: &str) -> Result<Option<(&'a str, usize)>, Wrong> {
    if let Some(text) = after(line, mark) {
        return Ok(Some((text, 1)));
    }
    let Some(rest) = line.strip_prefix(mark) else {
        return Ok(None);
    };
    let Some(rest) = rest.strip_prefix('*') else {
        return Ok(None);
    };
    let (times, text) = rest.split_once(' ').unwrap_or((rest, ""));
    match times.parse() {
        Ok(times) => Ok(Some((text, times))),
        Err(_) => Err(Wrong::Because("this wants a number")),
    }
}

// A line of a stream or a file.
fn stream_line(line: &str) -> Result<Option<Line<'_>>, Wrong> {
    if let Some((text, times)) = counted(line, "|")? {
        return Ok(Some(Line::Content(text, times)));
    }
    if let Some((text, times)) = counted(line, "<")? {
        return Ok(Some(Line::Input(text, times)));
    }
    if let Some(text) = after(line, ">") {
        return Ok(Some(Line::Output(text)));
    }
    if let Some(text) = after(line, "!") {
        return Ok(Some(Line::Message(text)));
    }
    Ok(None)
}

fn file_line(text: &str) -> Result<Line<'_>, Wrong> {
    match text.split_once(" fails after ") {
        Some((name, at)) => Ok(Line::File(name, Some(number(at)?))),
        None => Ok(Line::File(text, None)),
    }
}

// A line that says of a name what it is.
fn named(line: &str) -> Option<Line<'_>> {
    if let Some(name) = line.strip_prefix("other ") {
        Some(Line::Named(Manner::Other, name))
    } else if let Some(name) = line.strip_prefix("closed ") {
        Some(Line::Named(Manner::Closed, name))
    } else if let Some(name) = line.strip_prefix("refused ") {
        Some(Line::Named(Manner::Refused, name))
    } else {
        None
    }
}

// A line that sets what a run is made over.
fn setting(line: &str) -> Result<Option<Line<'_>>, Wrong> {
    if let Some(text) = line.strip_prefix("file ") {
        return Ok(Some(file_line(text)?));
    }
    if let Some(line) = named(line) {
        return Ok(Some(line));
    }
    if let Some(text) = line.strip_prefix("input fails after ") {
        return Ok(Some(Line::Limited(Limit::Input, number(text)?)));
    }
    if let Some(text) = line.strip_prefix("output has room for ") {
        return Ok(Some(Line::Limited(Limit::Output, number(text)?)));
    }
    if let Some(text) = line.strip_prefix("messages have room for ") {
        return Ok(Some(Line::Limited(Limit::Messages, number(text)?)));
    }
    if let Some(text) = line.strip_prefix("pieces of ") {
        return Ok(Some(Line::Pieces(text)));
    }
    Ok(None)
}

fn status_line(text: &str) -> Result<Line<'_>, Wrong> {
    match text.parse() {
        Ok(status) => Ok(Line::Status(status)),
        Err(_) => Err(Wrong::Because("this wants a status, 0 to 255")),
    }
}

/// Reads a line.
///
/// # Errors
///
/// Where it has no known mark, or a number isn't one.
pub fn line_from(line: &str) -> Result<Line<'_>, Wrong> {
    if line.is_empty() || after(line, "#").is_some() {
        return Ok(Line::Nothing);
    }
    if let Some(words) = after(line, "$ pcre2grep") {
        return Ok(Line::Command(words));
    }
    if let Some(text) = line.strip_prefix("= ") {
        return status_line(text);
    }
    if let Some(line) = stream_line(line)? {
        return Ok(line);
    }
    match setting(line)? {
        Some(line) => Ok(line),
        None => Err(Wrong::Because("no mark that is known begins this line")),
    }
}
