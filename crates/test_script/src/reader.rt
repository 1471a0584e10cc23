//! The lines of a script, one at a time.
ghost use Rattle.std.specs.Prelude.{◌≡◌, ◌++◌, ◌∷◌, [], drop, OnErr};
ghost use Rattle.test_script.specs.Script.{is_command, is_note};

use crate::closing::{after_backslash, closing_place, is_delimiter, pattern_text, push_line};
use crate::entries::{Command, Entry, PatternEntry};
use crate::subject_lines::{is_blank_line, subject_entry, trimmed};
use pat_tree::{ByteList, Memory};
use std::alloc::Global;
use std::marker::Model;
use test_modifiers::{ListError, Modifiers, Refusal, after, begins_white, is_white, read_list};

/// What the next line can be.
#[derive(Debug, Drop)]
enum Awaits {
    /// A pattern, a command or a note.
    Anything,
    /// More of a pattern: its delimiter, and its lines so far, each with a line feed.
    Closing { delimiter: u8, text: Vec<u8> },
    /// A subject line of a pattern.
    Subject { utf: bool },
    /// A subject line of a refused pattern.
    Skipped,
}

/// A reader of a script's lines in order. It keeps the defaults that commands set, and what the next line can be.
#[derive(Debug, Drop)]
pub struct ScriptReader {
    alloc: Global,
    defaults: Modifiers,
    awaits: Awaits,
}

impl Model for ScriptReader {
    ghost use Rattle.test_script.specs.Script.{Script};
    ghost use Rattle.test_script.specs.Readers.{awaits_of};

    ghost Value = { Script };

    ghost view = { λ reader.
        record { defaults = reader.defaults; awaits = awaits_of reader.awaits } };
}

/// Whether the text after `#` makes a note of the line.
fn is_note(text: &[u8]) -> bool
    ensures { result ≡ is_note text.now }
{
    match text {
        [] => true,
        [b, ..] => is_white(*b) || *b == b'!',
    }
}

/// Whether the text after `#` begins with a command's word.
fn is_command(word: &[u8], text: &[u8]) -> bool
    ensures { result ≡ is_command word.now text.now }
{
    text.starts_with(word) && begins_white(after(text, word.len()))
}

impl ScriptReader {
    ghost use Rattle.std.specs.Prelude.{◌≡◌, ◌++◌, [], length, drop, IfOk, OnErr, true};
    ghost use Rattle.test_modifiers.specs.Lists.{list_of};
    ghost use Rattle.test_script.specs.Script.{beginning, closing, subject, pattern_with, pattern_line};
    ghost use Rattle.test_script.specs.Script.{defaults_line, command_line, begun_line, first_line, subject_line};
    ghost use Rattle.test_script.specs.Script.{skipped_line, line_of};

    /// A reader before the first line, with these defaults. Takes no memory.
    pub fn new(alloc: Global, defaults: Modifiers) -> ScriptReader
        ensures { result ≡ beginning defaults }
    {
        ScriptReader {
            alloc,
            defaults,
            awaits: Awaits::Anything,
        }
    }

    /// A pattern that is closed, with the list after it.
    fn pattern_with(&mut self, text: Vec<u8>, list: &[u8]) -> Result<Entry, Memory>
        ensures entry { IfOk result (λ entry.
            pattern_with self.old text.items (list_of true list.now) ≡ (entry, self.new)) }
        ensures refused { OnErr result (self.new ≡ self.old) }
    {
        match read_list(self.alloc, list, true) {
            Ok(own) => {
                let modifiers = own.over(self.defaults.copied(self.alloc)?);
                let utf = modifiers.utf.unwrap_or(false);
                self.awaits = Awaits::Subject { utf };
                Ok(Entry::Pattern(PatternEntry {
                    pattern: ByteList::from_vec(text),
                    modifiers,
                }))
            }
            Err(ListError::Refused(refusal)) => {
                self.awaits = Awaits::Skipped;
                Ok(Entry::Refused(refusal))
            }
            Err(ListError::Memory) => Err(Memory),
        }
    }

    /// The first line of a pattern, after its delimiter.
    fn first_pattern_line(&mut self, delimiter: u8, line: &[u8]) -> Result<Entry, Memory>
        ensures entry { IfOk result (λ entry.
            pattern_line self.old delimiter [] line.now ≡ (entry, self.new)) }
        ensures refused { OnErr result (self.new ≡ self.old) }
    {
        match closing_place(delimiter, line) {
            Some(at) => {
                let (list, backslash) = after_backslash(after(line, at + 1));
                let text = pattern_text(self.alloc, &[], &line[..at], backslash)?;
                self.pattern_with(text, list)
            }
            None => {
                let mut text = Vec::new(self.alloc);
                push_line(&mut text, line)?;
                self.awaits = Awaits::Closing { delimiter, text };
                Ok(Entry::More)
            }
        }
    }

    /// A command that sets defaults, of patterns or of subjects, by its list.
    fn defaults_line(&mut self, pattern: bool, list: &[u8]) -> Result<Entry, Memory>
        ensures entry { IfOk result (λ entry.
            defaults_line self.old pattern list.now ≡ (entry, self.new)) }
        ensures refused { OnErr result (self.new ≡ self.old) }
    {
        match read_list(self.alloc, list, pattern) {
            Ok(list) => {
                let defaults = self.defaults.copied(self.alloc)?;
                self.defaults = list.copied(self.alloc)?.over(defaults);
                Ok(Entry::Command(if pattern {
                    Command::PatternDefaults(list)
                } else {
                    Command::SubjectDefaults(list)
                }))
            }
            Err(ListError::Refused(refusal)) => Ok(Entry::Refused(refusal)),
            Err(ListError::Memory) => Err(Memory),
        }
    }

    /// A line that begins with `#`, after it.
    fn command_line(&mut self, text: &[u8]) -> Result<Entry, Memory>
        ensures entry { IfOk result (λ entry. command_line self.old text.now ≡ (entry, self.new)) }
        ensures refused { OnErr result (self.new ≡ self.old) }
    {
        if is_note(text) {
            Ok(Entry::Note)
        } else if is_command(b"pattern", text) {
            self.defaults_line(true, after(text, 7))
        } else if is_command(b"subject", text) {
            self.defaults_line(false, after(text, 7))
        } else {
            Ok(Entry::Refused(Refusal::BadLine))
        }
    }

    /// A line outside of an entry.
    fn first_line(&mut self, line: &[u8]) -> Result<Entry, Memory>
        ensures entry { IfOk result (λ entry. first_line self.old line.now ≡ (entry, self.new)) }
        ensures refused { OnErr result (self.new ≡ self.old) }
    {
        if is_blank_line(line) {
            return Ok(Entry::Note);
        }
        match line {
            [] => Ok(Entry::Note),
            [b'#', text @ ..] => self.command_line(text),
            [delimiter, text @ ..] if is_delimiter(*delimiter) => {
                self.first_pattern_line(*delimiter, text)
            }
            _ => Ok(Entry::Refused(Refusal::BadLine)),
        }
    }

    /// The next line of the script, without its newline: what it is after the lines before it (pcre2test, "INPUT DATA
    /// FORMAT", "COMMAND LINES", "PATTERN SYNTAX" and "SUBJECT LINE SYNTAX"). After a refusal for want of memory the
    /// reader is as it was.
    #[tactic(auto, unfolding(crate::specs::Script::line_of))]
    pub fn feed(&mut self, line: &[u8]) -> Result<Entry, Memory>
        ensures entry { IfOk result (λ entry. line_of self.old line.now ≡ (entry, self.new)) }
        ensures refused { OnErr result (self.new ≡ self.old) }
    {
        match &mut self.awaits {
            Awaits::Anything => self.first_line(line),
            Awaits::Closing { delimiter, text } => match closing_place(*delimiter, line) {
                Some(at) => {
                    let (list, backslash) = after_backslash(after(line, at + 1));
                    let whole = pattern_text(self.alloc, text.as_slice(), &line[..at], backslash)?;
                    self.pattern_with(whole, list)
                }
                None => {
                    push_line(text, line)?;
                    Ok(Entry::More)
                }
            },
            Awaits::Subject { utf } => {
                let line = trimmed(line);
                if line.is_empty() {
                    self.awaits = Awaits::Anything;
                    Ok(Entry::EndOfSubjects)
                } else {
                    subject_entry(self.alloc, *utf, line)
                }
            }
            Awaits::Skipped if is_blank_line(line) => {
                self.awaits = Awaits::Anything;
                Ok(Entry::EndOfSubjects)
            }
            Awaits::Skipped => Ok(Entry::Note),
        }
    }
}
