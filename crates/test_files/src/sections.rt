//! The sections of a data file: a line `== NAME` begins each, and `== end` ends the file.

use crate::report::{Place, Report};
use std::alloc::AllocError;

/// The lines below a heading.
#[derive(Clone, Copy)]
pub struct Section<'a> {
    pub file: &'a str,
    /// What stands after `==`, which may be nothing.
    pub name: &'a str,
    /// The number of its first line.
    pub line: usize,
    /// Its lines, with a newline between them and none after the last.
    pub body: &'a str,
}

impl<'a> Section<'a> {
    /// How many newlines stand between its lines: the index of its last line.
    pub fn last(&self) -> usize {
        newlines(self.body)
    }

    /// A line of the section by its index, as a place.
    pub fn place(&self, index: usize) -> Place<'a> {
        Place {
            file: self.file,
            line: self.line.saturating_add(index),
        }
    }
}

/// How many newlines stand in a text.
pub fn newlines(text: &str) -> usize {
    text.bytes().filter(|b| *b == b'\n').count()
}

// What a file's text is before its last line, which says that the file is whole.
pub fn whole(text: &str) -> Option<&str> {
    match text.rsplit_once("\n==") {
        Some((body, " end\n")) => Some(body),
        _ => None,
    }
}

// The section without the notes that it begins with.
fn without_notes(section: Section<'_>) -> Section<'_> {
    let mut rest = section;
    for _ in 0..section.body.len() {
        match rest.body.split_once('\n') {
            Some((note, body)) if note.starts_with('#') => {
                rest.body = body;
                rest.line = rest.line.saturating_add(1);
            }
            _ => break,
        }
    }
    rest
}

/// The section whose heading's rest and lines are a part of a file, which begins at a line. None where it has no lines.
pub fn section_of<'a>(file: &'a str, line: usize, part: &'a str) -> Option<Section<'a>> {
    let (name, body) = part.split_once('\n')?;
    let section = without_notes(Section {
        file,
        name: name.trim(),
        line: line.saturating_add(1),
        body,
    });
    if section.body.starts_with('#') {
        return None;
    }
    Some(section)
}

/// Tells a line before the first heading that isn't a note.
pub fn check_head(file: &str, head: &str, report: &mut Report) -> Result<(), AllocError> {
    for (i, line) in head.split('\n').enumerate() {
        if !line.starts_with('#') {
            let line = i.saturating_add(1);
            let place = Place { file, line };
            report.tell(
                place,
                format_args!("a file begins with notes, lines of `# ..`"),
            )?;
        }
    }
    Ok(())
}
