//! The words of a command line, written as for a shell.
use crate::wrong::Wrong;
use std::alloc::Global;
use std::mem;
use test_files::unescaped;

// Where in a command line a byte stands.
#[derive(Clone, Copy)]
enum Within {
    Blanks,
    Word,
    // after a dollar sign
    Dollar,
    // '..'
    Quotes,
    // $'..'
    Escapes,
}

// A command line that is read byte by byte.
#[derive(Drop)]
struct Command {
    alloc: Global,
    words: Vec<String>,
    word: Vec<u8>,
    escapes: Vec<u8>,
    within: Within,
}

// Whether a shell takes a byte as it stands outside of quotes.
fn is_plain(byte: u8) -> bool {
    byte >= 128 || byte.is_ascii_alphanumeric() || b"_./=,:+@%^-".contains(&byte)
}

fn text_of(bytes: Vec<u8>) -> Result<String, Wrong> {
    match String::from_utf8(bytes) {
        Ok(text) => Ok(text),
        Err(_) => Err(Wrong::Because("a word isn't UTF-8")),
    }
}

impl Command {
    fn read(&mut self, byte: u8) -> Result<(), Wrong> {
        match self.within {
            Within::Blanks => self.read_plain(byte)?,
            Within::Word if byte == b' ' => self.close()?,
            Within::Word => self.read_plain(byte)?,
            Within::Dollar if byte == b'\'' => self.within = Within::Escapes,
            Within::Dollar => return Err(Wrong::Because("a dollar sign goes before a quote")),
            Within::Quotes if byte == b'\'' => self.within = Within::Word,
            Within::Quotes => self.word.push(byte)?,
            Within::Escapes if byte == b'\'' => self.close_escapes()?,
            Within::Escapes => self.escapes.push(byte)?,
        }
        Ok(())
    }

    // Reads a byte outside of quotes.
    fn read_plain(&mut self, byte: u8) -> Result<(), Wrong> {
        match byte {
            b' ' => {}
            b'\'' => self.within = Within::Quotes,
            b'$' => self.within = Within::Dollar,
            _ if is_plain(byte) => {
                self.word.push(byte)?;
                self.within = Within::Word;
            }
            _ => return Err(Wrong::Because("a shell takes a character otherwise: quote it")),
        }
        Ok(())
    }

    fn close_escapes(&mut self) -> Result<(), Wrong> {
        let text = text_of(mem::replace(&mut self.escapes, Vec::new(self.alloc)))?;
        match unescaped(self.alloc, text.as_str())? {
            Some(bytes) => self.word.extend_from_slice(bytes.as_slice())?,
            None => return Err(Wrong::Because("$'..' has a bad escape; \\x27 is a quote")),
        }
        self.within = Within::Word;
        Ok(())
    }

    fn close(&mut self) -> Result<(), Wrong> {
        let word = mem::replace(&mut self.word, Vec::new(self.alloc));
        self.words.push(text_of(word)?)?;
        self.within = Within::Blanks;
        Ok(())
    }
}

/// The words of a command line. Each is bare, in `'..'`, in `$'..'` with escapes, or made of such
/// parts. A bare part has letters, digits, `_./=,:+@%^-` and characters that aren't ASCII.
///
/// # Errors
///
/// For want of memory, and where the line isn't of this form or a word isn't UTF-8.
pub fn words_of(alloc: Global, line: &str) -> Result<Vec<String>, Wrong> {
    let mut command = Command {
        alloc,
        words: Vec::new(alloc),
        word: Vec::new(alloc),
        escapes: Vec::new(alloc),
        within: Within::Blanks,
    };
    for byte in line.bytes() {
        command.read(byte)?;
    }
    match command.within {
        Within::Blanks => {}
        Within::Word => command.close()?,
        _ => return Err(Wrong::Because("a quote isn't closed")),
    }
    Ok(command.words)
}
