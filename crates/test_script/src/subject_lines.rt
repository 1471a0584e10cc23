//! Subject lines.
ghost use Rattle.std.specs.Prelude.{◌≡◌, ◌≤◌, length, IfOk, IfSome, Some};
ghost use Rattle.test_script.specs.Script.{trimmed, is_blank_line, is_subject_note, subject_read, subject_entry};

use crate::entries::{Entry, SubjectEntry};
use crate::subjects::{Written, subject_text};
use pat_tree::{ByteList, Memory};
use std::alloc::Global;
use test_modifiers::{ListError, Modifiers, Refusal, Space, after, begins_white, read_list};

/// A line without white space at its begin and its end.
pub fn trimmed(line: &[u8]) -> &[u8]
    ensures { result.now ≡ trimmed line.now }
{
    Space::White.without_begin(Space::White.without_end(line))
}

/// Whether a line is white space alone.
pub fn is_blank_line(line: &[u8]) -> bool
    ensures { result ≡ is_blank_line line.now }
{
    trimmed(line).is_empty()
}

/// Whether a subject line is `\=` and white space alone at its begin.
fn is_subject_note(line: &[u8]) -> bool
    ensures { result ≡ is_subject_note line.now }
{
    line.starts_with(b"\\=".as_slice()) && begins_white(after(line, 2))
}

/// A subject line by what it writes.
fn subject_read(alloc: Global, line: &[u8], written: Written) -> Result<Entry, Memory>
    requires { IfSome written.list (λ from. from ≤ length line.now) }
    ensures { IfOk result (λ entry.
        entry ≡ subject_read line.now (Some (written.bytes.items, written.list))) }
{
    let Written { bytes, list } = written;
    let read = match list {
        Some(from) => read_list(alloc, after(line, from), false),
        None => Ok(Modifiers::none()),
    };
    match read {
        Ok(modifiers) => Ok(Entry::Subject(SubjectEntry {
            subject: ByteList::from_vec(bytes),
            modifiers,
        })),
        Err(ListError::Refused(refusal)) => Ok(Entry::Refused(refusal)),
        Err(ListError::Memory) => Err(Memory),
    }
}

/// A subject line without white space at its begin and its end, where its pattern has UTF or not.
pub fn subject_entry(alloc: Global, utf: bool, line: &[u8]) -> Result<Entry, Memory>
    ensures { IfOk result (λ entry. entry ≡ subject_entry utf line.now) }
{
    if is_subject_note(line) {
        return Ok(Entry::Note);
    }
    match subject_text(alloc, utf, line)? {
        Some(written) => subject_read(alloc, line, written),
        None => Ok(Entry::Refused(Refusal::BadSubject)),
    }
}
