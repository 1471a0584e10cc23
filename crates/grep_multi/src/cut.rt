//! Lines of a text that is held.
ghost use Rattle.std.specs.Prelude.{◌≡◌, ◌≤◌, ◌<◌, ◌+◌, ◌^◌, length};
ghost use Rattle.grep_multi.specs.Given.{Cuts, Extends, IsLine, past};

use byte_lanes::{EndKind, find_line_end};
use line_feed::Line;

/// Where a line of a text begins.
#[derive(Clone, Copy, Debug, PartialEq, Eq)]
pub struct LineStart {
    /// How many bytes stand before it.
    pub at: usize,
    /// How many lines stand before it.
    pub lines: u64,
}

impl LineStart {
    /// Where the line behind one that begins here does.
    pub fn past(&self, line: &Line<'_>) -> LineStart
        requires within { self.now.at + (length line.now.bytes.now + length line.now.end.now) < 2 ^ 63 }
        requires few { self.now.lines < 2 ^ 63 }
        ensures { result ≡ past self.now line.now }
    {
        LineStart {
            at: self.at + (line.bytes.len() + line.end.len()),
            lines: self.lines + 1,
        }
    }
}

/// How far lines of a text reach.
#[derive(Clone, Copy, Debug, PartialEq, Eq)]
pub struct Reach {
    /// Where the next line begins, or the text ends.
    pub behind: LineStart,
    /// Whether the last one has a newline.
    pub has_newline: bool,
}

/// The line that begins at a place of a text.
pub fn line_at<'a>(text: &'a [u8], kind: EndKind, from: LineStart) -> Line<'a>
    requires some { from.at < length text.now }
    requires few { from.lines ≤ from.at }
    ensures { IsLine kind text.now from result }
{
    let rest = &text[from.at..];
    let end = find_line_end(rest, 0, kind);
    Line {
        bytes: &rest[..end.at],
        end: &rest[end.at..end.at + end.len],
        number: from.lines + 1,
        offset: from.at as u64,
    }
}

// How far the line that begins at a place reaches.
pub fn cut_line(text: &[u8], kind: EndKind, from: LineStart) -> Reach
    requires some { from.at < length text.now }
    requires few { from.lines ≤ from.at }
    ensures { Cuts kind text.now from result }
{
    let end = find_line_end(&text[from.at..], 0, kind);
    Reach {
        behind: LineStart {
            at: from.at + end.at + end.len,
            lines: from.lines + 1,
        },
        has_newline: end.len > 0,
    }
}

// Lines, with those behind them that begin before a place.
pub fn extend(text: &[u8], kind: EndKind, mut reach: Reach, to: usize) -> Reach
    requires within { to ≤ length text.now }
    requires reach { reach.behind.at ≤ length text.now }
    requires few { reach.behind.lines ≤ reach.behind.at }
    ensures { Extends kind text.now to reach result }
{
    'line: while reach.behind.at < to {
        reach = cut_line(text, kind, reach.behind);
    }
    reach
}
