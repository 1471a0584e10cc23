//! The lines that are written.
ghost use Rattle.test_gen.specs.Texts.{made_text, pattern_text, ends_text, replaced_text, generated_text};
ghost use Rattle.tool_io.specs.Writes.{Writes};

use crate::counts::{count_ends, count_matches, count_replacements};
use itoa::Buffer;
use pcre_io::{IoError, Sink};
use std::alloc::Global;
use tool_io::write_texts;

// Writes how many lines are made.
fn write_made<O: Sink>(out: &mut O, lines: u32) -> Result<(), IoError>
    ensures { Writes (made_text lines) (O.tells out.old) (O.tells out.new) result }
{
    let mut number = Buffer::new();
    write_texts(out, &[b"lines: ", number.format(lines).as_bytes(), b"\n"])
}

// Writes what a pattern finds.
fn write_pattern<O: Sink>(
    alloc: Global,
    out: &mut O,
    number: u32,
    text: &[u8],
    lines: u32,
) -> Result<(), IoError>
    ensures { Writes (pattern_text number text.now lines) (O.tells out.old) (O.tells out.new)
        result }
{
    let Ok(finds) = count_matches(alloc, text, lines) else {
        return Err(IoError::Memory);
    };
    let mut which = Buffer::new();
    let mut matched = Buffer::new();
    let mut characters = Buffer::new();
    write_texts(
        out,
        &[
            b"pattern ",
            which.format(number).as_bytes(),
            b": ",
            matched.format(finds.lines).as_bytes(),
            b" lines, ",
            characters.format(finds.characters).as_bytes(),
            b" characters\n",
        ],
    )
}

// Writes how many ends the DFA matcher finds.
fn write_ends<O: Sink>(alloc: Global, out: &mut O, text: &[u8], lines: u32) -> Result<(), IoError>
    ensures { Writes (ends_text text.now lines) (O.tells out.old) (O.tells out.new) result }
{
    let Ok(count) = count_ends(alloc, text, lines) else {
        return Err(IoError::Memory);
    };
    let mut number = Buffer::new();
    write_texts(
        out,
        &[b"dfa: ", number.format(count).as_bytes(), b" ends\n"],
    )
}

// Writes how many matches are replaced.
fn write_replaced<O: Sink>(
    alloc: Global,
    out: &mut O,
    text: &[u8],
    replacement: &[u8],
    lines: u32,
) -> Result<(), IoError>
    ensures { Writes (replaced_text text.now replacement.now lines) (O.tells out.old)
        (O.tells out.new) result }
{
    let Ok(count) = count_replacements(alloc, text, replacement, lines) else {
        return Err(IoError::Memory);
    };
    let mut number = Buffer::new();
    write_texts(
        out,
        &[b"substitute: ", number.format(count).as_bytes(), b"\n"],
    )
}

/// Makes so many lines of twelve letters, tries four patterns, the DFA matcher and a replacement on
/// each of them, and writes what they come to (docs/pcre2test.md, `-gen`).
///
/// # Errors
///
/// Failed where a write was refused, and Memory; then a part of the text was written.
pub fn write_generated<O: Sink>(alloc: Global, out: &mut O, lines: u32) -> Result<(), IoError>
    ensures { Writes (generated_text lines) (O.tells out.old) (O.tells out.new) result }
{
    write_made(out, lines)?;
    write_pattern(alloc, out, 1, b"b+a", lines)?;
    write_pattern(alloc, out, 2, b"(?<=-)b(?=a)", lines)?;
    write_pattern(alloc, out, 3, b"(\\w)\\w*\\1", lines)?;
    write_pattern(alloc, out, 4, b"(?>b*)a-", lines)?;
    write_ends(alloc, out, b"b+a?", lines)?;
    write_replaced(alloc, out, b"-", b"+", lines)
}
