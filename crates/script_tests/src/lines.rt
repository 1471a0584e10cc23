//! The lines of a transcript, by their marks.

use std::alloc::{AllocError, Global};
use test_files::{Report, Section};

/// What a line of a transcript is.
#[derive(Clone, Copy, PartialEq, Eq)]
pub enum Kind {
    /// `>`: a line of the script.
    Script,
    /// `~`: its last line, which no newline ends.
    Unended,
    /// Without a mark: what is written.
    Answer,
}

/// What a line is, and its text without the mark.
pub fn marked(line: &str) -> (Kind, &str) {
    if let Some(text) = line.strip_prefix('>') {
        (Kind::Script, text)
    } else if let Some(text) = line.strip_prefix('~') {
        (Kind::Unended, text)
    } else {
        (Kind::Answer, line)
    }
}

/// The script of a transcript.
///
/// # Errors
///
/// Memory lacked.
pub fn script_of(alloc: Global, body: &str) -> Result<Vec<u8>, AllocError> {
    let mut script = Vec::new(alloc);
    for line in body.split('\n') {
        let (kind, text) = marked(line);
        if kind != Kind::Answer {
            script.extend_from_slice(text.as_bytes())?;
        }
        if kind == Kind::Script {
            script.push(b'\n')?;
        }
    }
    Ok(script)
}

// Why a line can't stand after these lines of a transcript.
fn fault_of(line: &str, begun: bool, ended: bool) -> Option<&'static str> {
    let (kind, _) = marked(line);
    if line.is_empty() {
        Some("an empty line: an empty line of the script is written `>`")
    } else if line.starts_with('#') {
        Some("a note may stand only before a section's first line")
    } else if kind == Kind::Answer && !begun {
        Some("an answer before the first line of the script")
    } else if kind != Kind::Answer && ended {
        Some("a line of the script after its last one")
    } else {
        None
    }
}

/// Whether the lines of a section are a transcript. Each that isn't part of one is told.
///
/// # Errors
///
/// Memory lacked.
pub fn is_transcript(section: &Section<'_>, report: &mut Report) -> Result<bool, AllocError> {
    let mut good = true;
    let mut begun = false;
    let mut ended = false;
    for (i, line) in section.body.split('\n').enumerate() {
        if let Some(why) = fault_of(line, begun, ended) {
            report.tell(section.place(i), why)?;
            good = false;
        }
        let (kind, _) = marked(line);
        begun = begun || kind != Kind::Answer;
        ended = ended || kind == Kind::Unended;
    }
    Ok(good)
}
