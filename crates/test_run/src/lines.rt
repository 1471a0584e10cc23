//! Lines about patterns and script lines.
ghost use Rattle.std.specs.Prelude.{◌≡◌};
ghost use Rattle.test_lines.specs.Lines.{error_line, failed_line, fault_line, fault_place, groups_line};
ghost use Rattle.test_lines.specs.Lines.{lookbehind_line, info_text, place_text, refusal_line, refusal_place};
ghost use Rattle.test_lines.specs.Lines.{unreplaced_line};
ghost use Rattle.tool_io.specs.Writes.{Writes};

use itoa::Buffer;
use pcre_io::{IoError, Sink};
use pcre2_api::{Info, MatchError, SubstError, fault_text};
use test_modifiers::Refusal;
use tool_io::write_texts;

/// Writes why a pattern is refused.
pub fn write_fault<O: Sink>(out: &mut O, number: i32, at: usize) -> Result<(), IoError>
    ensures { Writes (fault_line number at) (O.tells out.old) (O.tells out.new) result }
{
    let mut shown = Buffer::new();
    let mut place = Buffer::new();
    write_texts(
        out,
        &[
            b"Failed: error ",
            shown.format(number).as_bytes(),
            b" at offset ",
            place.format(at).as_bytes(),
            b": ",
            fault_text(number),
            b"\n",
        ],
    )
}

// The place of a fault of UTF-8, where it is one.
fn place_text(at: Option<usize>, room: &mut Buffer) -> &[u8]
    ensures { result.now ≡ place_text at }
{
    match at {
        Some(at) => room.format(at).as_bytes(),
        None => b"",
    }
}

/// Writes why a call fails: its number, its text, and the place of a fault of UTF-8.
pub fn write_error<O: Sink>(
    out: &mut O,
    number: i32,
    text: &[u8],
    at: Option<usize>,
) -> Result<(), IoError>
    ensures { Writes (error_line number text.now at) (O.tells out.old) (O.tells out.new) result }
{
    let mut shown = Buffer::new();
    let mut place = Buffer::new();
    write_texts(
        out,
        &[
            b"Failed: error ",
            shown.format(number).as_bytes(),
            b": ",
            text,
            place_text(at, &mut place),
            b"\n",
        ],
    )
}

// The place of a fault of UTF-8 in the subject.
fn fault_place(e: MatchError) -> Option<usize>
    ensures { result ≡ fault_place e }
{
    match e {
        MatchError::BadUtf { at } => Some(at),
        _ => None,
    }
}

/// Writes why a search gives neither a match nor that there is none.
pub fn write_failed<O: Sink>(out: &mut O, e: MatchError) -> Result<(), IoError>
    ensures { Writes (failed_line e) (O.tells out.old) (O.tells out.new) result }
{
    write_error(out, e.number(), e.text(), fault_place(e))
}

// The place of a fault of UTF-8 in the subject or in the replacement.
fn refusal_place(e: SubstError) -> Option<usize>
    ensures { result ≡ refusal_place e }
{
    match e {
        SubstError::BadUtf { at } | SubstError::ReplacementUtf { at } => Some(at),
        _ => None,
    }
}

/// Writes why a subject isn't rewritten.
pub fn write_unreplaced<O: Sink>(out: &mut O, e: SubstError) -> Result<(), IoError>
    ensures { Writes (unreplaced_line e) (O.tells out.old) (O.tells out.new) result }
{
    write_error(out, e.number(), e.text(), refusal_place(e))
}

// Writes how many groups a pattern has.
fn write_groups<O: Sink>(out: &mut O, groups: u32) -> Result<(), IoError>
    ensures { Writes (groups_line groups) (O.tells out.old) (O.tells out.new) result }
{
    let mut number = Buffer::new();
    write_texts(
        out,
        &[
            b"Capture group count = ",
            number.format(groups).as_bytes(),
            b"\n",
        ],
    )
}

// Writes how far a match looks before its start, where it does.
fn write_lookbehind<O: Sink>(out: &mut O, most: u32) -> Result<(), IoError>
    ensures { Writes (lookbehind_line most) (O.tells out.old) (O.tells out.new) result }
{
    if most == 0 {
        return Ok(());
    }
    let mut number = Buffer::new();
    write_texts(
        out,
        &[b"Max lookbehind = ", number.format(most).as_bytes(), b"\n"],
    )
}

/// Writes what is told of a pattern.
pub fn write_info<O: Sink>(out: &mut O, info: Info) -> Result<(), IoError>
    ensures { Writes (info_text info) (O.tells out.old) (O.tells out.new) result }
{
    write_groups(out, info.groups)?;
    write_lookbehind(out, info.max_lookbehind)?;
    if info.can_be_empty {
        write_texts(out, &[b"May match empty string\n"])?;
    }
    Ok(())
}

/// Writes why a line is refused.
pub fn write_refusal<O: Sink>(out: &mut O, refusal: &Refusal) -> Result<(), IoError>
    ensures { Writes (refusal_line refusal.now) (O.tells out.old) (O.tells out.new) result }
{
    match refusal {
        Refusal::BadLine => write_texts(out, &[b"** bad script line\n"]),
        Refusal::UnknownModifier(name) => {
            write_texts(out, &[b"** unknown modifier ", name.bytes(), b"\n"])
        }
        Refusal::BadModifierValue(name) => {
            write_texts(out, &[b"** bad modifier value ", name.bytes(), b"\n"])
        }
        Refusal::BadSubject => write_texts(out, &[b"** bad subject\n"]),
    }
}
