//! What is written of a script beside what is wanted.

use crate::lines::{Kind, marked};
use std::alloc::AllocError;
use test_files::{Report, Section};

// The text after its first line that is this one.
fn after_line<'a>(text: &'a str, line: &str) -> Option<&'a str> {
    let mut rest = text;
    for _ in 0..text.len() {
        match rest.split_once('\n') {
            Some((first, after)) if first == line => return Some(after),
            Some((_, after)) => rest = after,
            None => break,
        }
    }
    None
}

// The first line of what is left of a text.
fn first_of(text: &str) -> &str {
    match text.split_once('\n') {
        Some((first, _)) => first,
        None => "nothing more",
    }
}

// What is left of the written text after a line that is wanted, if it is the next one.
fn after_wanted<'a>(rest: &'a str, wanted: &str) -> Option<&'a str> {
    match rest.split_once('\n') {
        Some((first, after)) if first == wanted => Some(after),
        _ => None,
    }
}

/// What is left of the written text, and whether it was left behind at a difference.
#[derive(Clone, Copy)]
struct Rest<'a> {
    text: &'a str,
    lost: bool,
}

// Whether a line that is wanted comes next. After a difference none is.
fn is_next(rest: Rest<'_>, wanted: &str) -> bool {
    !rest.lost && after_wanted(rest.text, wanted).is_some()
}

// What is left after a line of a transcript. A line of the script is looked for where it doesn't come next.
fn after<'a>(rest: Rest<'a>, kind: Kind, wanted: &str) -> Rest<'a> {
    let found = if is_next(rest, wanted) {
        after_wanted(rest.text, wanted)
    } else if kind == Kind::Answer {
        None
    } else {
        after_line(rest.text, wanted)
    };
    match found {
        Some(text) => Rest { text, lost: false },
        None => Rest { lost: true, ..rest },
    }
}

/// Counts the lines of the script as rows, and tells each difference. After one, lines are compared again from the next
/// line of the script on.
///
/// # Errors
///
/// Memory lacked.
pub fn compare(
    section: &Section<'_>,
    written: &str,
    report: &mut Report,
) -> Result<(), AllocError> {
    let mut rest = Rest {
        text: written,
        lost: false,
    };
    for (i, line) in section.body.split('\n').enumerate() {
        let (kind, wanted) = marked(line);
        if kind != Kind::Answer {
            report.count_row();
        }
        if !rest.lost && !is_next(rest, wanted) {
            report.tell_difference(section.place(i), wanted, first_of(rest.text))?;
        }
        rest = after(rest, kind, wanted);
    }
    if !rest.lost && !rest.text.is_empty() {
        report.tell_difference(
            section.place(section.last()),
            "nothing more",
            first_of(rest.text),
        )?;
    }
    Ok(())
}
