//! Rows, as the lines of a section make them.
use crate::marks::{Limit, Line, Manner, line_from};
use crate::runs::Piece;
use crate::words::words_of;
use crate::wrong::Wrong;
use std::alloc::Global;
use test_files::unescaped;

/// A file in memory: its name, its bytes, and after how many of them every read fails.
#[derive(Drop)]
pub struct File {
    pub name: String,
    pub bytes: Vec<u8>,
    pub fail_at: Option<u64>,
}

/// A name that is no file's to open, or no directory's to list.
#[derive(Drop)]
pub struct Named {
    pub manner: Manner,
    pub name: String,
}

/// A run, and what it is to write and answer.
#[derive(Drop)]
pub struct Row {
    /// The line of its words, counted from 0 in its section.
    pub line: usize,
    pub words: Vec<String>,
    /// Files of this row alone.
    pub files: Vec<File>,
    /// Names of a manner in this row alone.
    pub names: Vec<Named>,
    /// The input, where the row has one of its own.
    pub input: Option<Vec<u8>>,
    /// After how many bytes every read of the input fails.
    pub fail_at: Option<u64>,
    /// The room of the output, in bytes.
    pub room: Option<u64>,
    /// The room of the messages, in bytes.
    pub message_room: Option<u64>,
    /// The greatest pieces of reads and writes: the row is run once for each.
    pub pieces: Vec<Piece>,
    pub out: Vec<u8>,
    pub err: Vec<u8>,
    pub status: u8,
}

impl Row {
    fn new(alloc: Global, line: usize, words: Vec<String>) -> Row {
        Row {
            line,
            words,
            files: Vec::new(alloc),
            names: Vec::new(alloc),
            input: None,
            fail_at: None,
            room: None,
            message_room: None,
            pieces: Vec::new(alloc),
            out: Vec::new(alloc),
            err: Vec::new(alloc),
            status: 0,
        }
    }

    fn limit(&mut self, limit: Limit, bytes: u64) {
        match limit {
            Limit::Input => self.fail_at = Some(bytes),
            Limit::Output => self.room = Some(bytes),
            Limit::Messages => self.message_room = Some(bytes),
        }
    }

    fn add_pieces(&mut self, text: &str) -> Result<(), Wrong> {
        for number in text.split(' ') {
            match Piece::from_text(number) {
                Some(piece) => self.pieces.push(piece)?,
                None => return Err(Wrong::Because("a piece has 1 byte or more")),
            }
        }
        Ok(())
    }

    fn add_input(&mut self, alloc: Global, text: &str, times: usize) -> Result<(), Wrong> {
        let mut input = self.input.take().unwrap_or(Vec::new(alloc));
        append(alloc, &mut input, text, times)?;
        self.input = Some(input);
        Ok(())
    }
}

// The bytes of a line: a newline follows them, unless a single backslash ends the text.
fn line_of(alloc: Global, text: &str) -> Result<Vec<u8>, Wrong> {
    if let Some(mut bytes) = unescaped(alloc, text)? {
        bytes.push(b'\n')?;
        return Ok(bytes);
    }
    if let Some(text) = text.strip_suffix('\\')
        && let Some(bytes) = unescaped(alloc, text)?
    {
        return Ok(bytes);
    }
    Err(Wrong::Because("a backslash begins no escape"))
}

// Adds a line to a stream or a file, so many times.
fn append(alloc: Global, to: &mut Vec<u8>, text: &str, times: usize) -> Result<(), Wrong> {
    let line = line_of(alloc, text)?;
    for _ in 0..times {
        to.extend_from_slice(line.as_slice())?;
    }
    Ok(())
}

fn add_file(
    alloc: Global,
    files: &mut Vec<File>,
    name: &str,
    fail_at: Option<u64>,
) -> Result<(), Wrong> {
    let file = File {
        name: String::from_str(alloc, name)?,
        bytes: Vec::new(alloc),
        fail_at,
    };
    files.push(file)?;
    Ok(())
}

fn add_name(
    alloc: Global,
    names: &mut Vec<Named>,
    manner: Manner,
    name: &str,
) -> Result<(), Wrong> {
    let name = String::from_str(alloc, name)?;
    names.push(Named { manner, name })?;
    Ok(())
}

// Adds a line to the last file.
fn add_content(
    alloc: Global,
    files: &mut Vec<File>,
    text: &str,
    times: usize,
) -> Result<(), Wrong> {
    match files.last_mut() {
        Some(file) => append(alloc, &mut file.bytes, text, times),
        None => Err(Wrong::Because("no file was named for this line")),
    }
}

/// A section as far as it was read: the files, the names of a manner and the input of its rows, and
/// the row that has no status yet.
#[derive(Drop)]
pub struct Reading {
    alloc: Global,
    pub files: Vec<File>,
    pub names: Vec<Named>,
    pub input: Vec<u8>,
    // whether a line of the input goes on with it
    goes_on: bool,
    row: Option<Row>,
}

impl Reading {
    pub fn new(alloc: Global) -> Reading {
        Reading {
            alloc,
            files: Vec::new(alloc),
            names: Vec::new(alloc),
            input: Vec::new(alloc),
            goes_on: false,
            row: None,
        }
    }

    /// The line of the row that has no status yet.
    pub fn open_row(&self) -> Option<usize> {
        match &self.row {
            Some(row) => Some(row.line),
            None => None,
        }
    }

    /// Takes the next line of the section, and answers the row that it ends.
    ///
    /// # Errors
    ///
    /// For want of memory, and where the line isn't of the form or can't stand here.
    pub fn take(&mut self, index: usize, line: &str) -> Result<Option<Row>, Wrong> {
        match line_from(line)? {
            Line::Nothing => Ok(None),
            Line::Command(words) => {
                self.begin(index, words)?;
                Ok(None)
            }
            Line::Status(status) => Ok(Some(self.end(status)?)),
            line => {
                match &mut self.row {
                    Some(row) => take_in_row(self.alloc, row, line)?,
                    None => self.take_outside(line)?,
                }
                Ok(None)
            }
        }
    }

    fn begin(&mut self, index: usize, words: &str) -> Result<(), Wrong> {
        if self.row.is_some() {
            return Err(Wrong::Because("the row before this one has no status"));
        }
        let words = words_of(self.alloc, words)?;
        self.row = Some(Row::new(self.alloc, index, words));
        self.goes_on = false;
        Ok(())
    }

    fn end(&mut self, status: u8) -> Result<Row, Wrong> {
        match self.row.take() {
            Some(mut row) => {
                row.status = status;
                if row.pieces.is_empty() {
                    row.pieces.push(Piece::SMALL)?;
                }
                Ok(row)
            }
            None => Err(Wrong::Because("no row has this status")),
        }
    }

    // Takes a line that holds for the rows after it.
    fn take_outside(&mut self, line: Line<'_>) -> Result<(), Wrong> {
        match line {
            Line::File(name, fail_at) => add_file(self.alloc, &mut self.files, name, fail_at),
            Line::Named(manner, name) => add_name(self.alloc, &mut self.names, manner, name),
            Line::Content(text, times) => add_content(self.alloc, &mut self.files, text, times),
            Line::Input(text, times) => {
                if !self.goes_on {
                    self.input.clear();
                    self.goes_on = true;
                }
                append(self.alloc, &mut self.input, text, times)
            }
            _ => Err(Wrong::Because("no row is begun by `$ pcre2grep`")),
        }
    }
}

// Takes a line of a row.
fn take_in_row(alloc: Global, row: &mut Row, line: Line<'_>) -> Result<(), Wrong> {
    match line {
        Line::File(name, fail_at) => add_file(alloc, &mut row.files, name, fail_at),
        Line::Named(manner, name) => add_name(alloc, &mut row.names, manner, name),
        Line::Content(text, times) => add_content(alloc, &mut row.files, text, times),
        Line::Input(text, times) => row.add_input(alloc, text, times),
        Line::Output(text) => append(alloc, &mut row.out, text, 1),
        Line::Message(text) => append(alloc, &mut row.err, text, 1),
        Line::Pieces(text) => row.add_pieces(text),
        Line::Limited(limit, bytes) => {
            row.limit(limit, bytes);
            Ok(())
        }
        Line::Nothing | Line::Command(_) | Line::Status(_) => Ok(()),
    }
}
