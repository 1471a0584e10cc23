//! Messages about an input.
ghost use Rattle.std.specs.Prelude.{◌≡◌, codes, Err};
ghost use Rattle.grep_match.specs.Matches.{Tried};
ghost use Rattle.grep_output.specs.Messages.{error_message, ended_message, message, message_on, line_said};
ghost use Rattle.grep_output.specs.Ends.{ended_of};
ghost use Rattle.tool_io.specs.Writes.{Writes};

use crate::ended::Ended;
use itoa::Buffer;
use pcre_io::{IoError, Sink};
use tool_io::write_texts;

/// Writes that a line, whose number is from 1, met a match error (pcre2grep, "MATCHING ERRORS").
pub fn write_error<E: Sink>(err: &mut E, name: &str, line: u64, error: i32) -> Result<(), IoError>
    ensures { (t : Tried) → t.row.number ≡ line → t.matches ≡ Err error
        → Writes (error_message name.now t) (E.tells err.old) (E.tells err.new) result }
{
    let mut number = Buffer::new();
    let mut code = Buffer::new();
    write_texts(
        err,
        &[
            b"pcre2grep: ",
            name.as_bytes(),
            b": line ",
            number.format(line).as_bytes(),
            b": error ",
            code.format(error).as_bytes(),
            b"\n",
        ],
    )
}

/// Writes a message about an input or a file of patterns.
pub fn write_message<E: Sink>(err: &mut E, name: &str, text: &[u8]) -> Result<(), IoError>
    ensures { Writes (message_on name.now text.now) (E.tells err.old) (E.tells err.new) result }
{
    write_texts(err, &[b"pcre2grep: ", name.as_bytes(), b": ", text, b"\n"])
}

// Writes that a line is too long.
fn write_too_long<E: Sink>(err: &mut E, name: &str, line: u64) -> Result<(), IoError>
    ensures { Writes (message_on name.now (line_said line (codes " is too long"))) (E.tells err.old)
        (E.tells err.new) result }
{
    let mut number = Buffer::new();
    write_texts(
        err,
        &[
            b"pcre2grep: ",
            name.as_bytes(),
            b": line ",
            number.format(line).as_bytes(),
            b" is too long\n",
        ],
    )
}

/// Writes why the scan of an input ended before the input did (pcre2grep, "DIAGNOSTICS"). `-s`
/// leaves out that it couldn't be read.
pub fn write_ended<E: Sink>(
    err: &mut E,
    is_silent: bool,
    name: &str,
    ended: Ended,
) -> Result<(), IoError>
    ensures { Writes (ended_message is_silent name.now (ended_of ended)) (E.tells err.old)
        (E.tells err.new) result }
{
    match ended {
        Ended::End | Ended::Early => Ok(()),
        Ended::ReadFault if is_silent => Ok(()),
        Ended::ReadFault => write_message(err, name, b"read error"),
        Ended::TooMuch => write_message(err, name, b"input too large"),
        Ended::TooLong { line } => write_too_long(err, name, line),
    }
}

/// Writes that there were too many match errors (pcre2grep, "MATCHING ERRORS").
pub fn write_too_many<E: Sink>(err: &mut E) -> Result<(), IoError>
    ensures { Writes (message (codes "too many match errors")) (E.tells err.old) (E.tells err.new)
        result }
{
    write_texts(err, &[b"pcre2grep: too many match errors\n"])
}
