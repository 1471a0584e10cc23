//! Texts of subjects, as they are shown.
ghost use Rattle.std.specs.Prelude.{◌≡◌, ◌<◌, ◌%◌, true, IsTrue, IsUtf8};
ghost use Rattle.test_lines.specs.Shown.{is_plain, hex_digit, code_of, char_code_of, shown_byte, shown_bytes};
ghost use Rattle.test_lines.specs.Shown.{shown_char, shown_chars, shown, number_before};
ghost use Rattle.tool_io.specs.Writes.{Writes};

use itoa::Buffer;
use pcre_io::{IoError, Sink};
use pcre2_api::is_text;
use tool_io::{text_if, write_texts};
use uni_text::char_at;

/// Whether a character is shown as it is.
pub fn is_plain(code: u32) -> bool
    ensures plain { result ≡ is_plain code }
    ensures small { IsTrue result → code < 127 }
{
    matches!(code, 32..=126)
}

// A digit of a number below 16.
fn hex_digit(n: u8) -> u8
    requires { n < 16 }
    ensures { result ≡ hex_digit n }
{
    if n < 10 { b'0' + n } else { b'a' + (n - 10) }
}

// Writes a byte that isn't shown as it is, by its code.
fn write_code<O: Sink>(out: &mut O, byte: u8) -> Result<(), IoError>
    ensures { Writes (code_of byte) (O.tells out.old) (O.tells out.new) result }
{
    let high = hex_digit(byte / 16);
    let low = hex_digit(byte % 16);
    write_texts(out, &[&[b'\\', b'x', high, low]])
}

fn write_byte<O: Sink>(out: &mut O, byte: u8) -> Result<(), IoError>
    ensures { Writes (shown_byte byte) (O.tells out.old) (O.tells out.new) result }
{
    if is_plain(byte as u32) {
        write_texts(out, &[&[byte]])
    } else {
        write_code(out, byte)
    }
}

// The last digit of a number in base 16.
fn last_digit(n: u32) -> u8
    ensures { result ≡ hex_digit (n % 16) }
{
    hex_digit((n % 16) as u8)
}

// Writes a character that isn't shown as it is, by its code.
fn write_char_code<O: Sink>(out: &mut O, code: u32) -> Result<(), IoError>
    ensures { Writes (char_code_of code) (O.tells out.old) (O.tells out.new) result }
{
    write_texts(
        out,
        &[
            b"\\x{",
            text_if(1_048_575 < code, &[last_digit(code / 1_048_576)]),
            text_if(65_535 < code, &[last_digit(code / 65_536)]),
            text_if(4_095 < code, &[last_digit(code / 4_096)]),
            text_if(255 < code, &[last_digit(code / 256)]),
            &[last_digit(code / 16), last_digit(code)],
            b"}",
        ],
    )
}

fn write_char<O: Sink>(out: &mut O, code: u32) -> Result<(), IoError>
    ensures { Writes (shown_char code) (O.tells out.old) (O.tells out.new) result }
{
    if is_plain(code) {
        write_texts(out, &[&[code as u8]])
    } else {
        write_char_code(out, code)
    }
}

fn write_bytes<O: Sink>(out: &mut O, text: &[u8]) -> Result<(), IoError>
    ensures { Writes (shown_bytes text.now) (O.tells out.old) (O.tells out.new) result }
{
    for byte in text {
        write_byte(out, *byte)?;
    }
    Ok(())
}

fn write_chars<O: Sink>(out: &mut O, text: &[u8]) -> Result<(), IoError>
    requires { IsUtf8 text.now }
    ensures { Writes (shown_chars text.now) (O.tells out.old) (O.tells out.new) result }
{
    let mut at = 0;
    'chars: while at < text.len() {
        let (code, after) = char_at(text, at, true);
        write_char(out, code)?;
        at = after;
    }
    Ok(())
}

// Writes a text in UTF.
fn write_in_utf<O: Sink>(out: &mut O, text: &[u8]) -> Result<(), IoError>
    ensures { Writes (shown true text.now) (O.tells out.old) (O.tells out.new) result }
{
    if is_text(text) {
        write_chars(out, text)
    } else {
        write_bytes(out, text)
    }
}

/// Writes a text: characters from 32 to 126 as they are, and others by their codes (pcre2test,
/// "DEFAULT OUTPUT FROM pcre2test"). Outside UTF each byte is a character.
pub fn write_shown<O: Sink>(out: &mut O, text: &[u8], utf: bool) -> Result<(), IoError>
    ensures { Writes (shown utf text.now) (O.tells out.old) (O.tells out.new) result }
{
    if utf {
        write_in_utf(out, text)
    } else {
        write_bytes(out, text)
    }
}

/// Writes the number of a group, right in two places, and what stands after it.
pub fn write_number<O: Sink>(out: &mut O, n: u32) -> Result<(), IoError>
    ensures { Writes (number_before n) (O.tells out.old) (O.tells out.new) result }
{
    write_count(out, u64::from(n))
}

/// Writes a number of replacements in the same way.
pub fn write_count<O: Sink>(out: &mut O, n: u64) -> Result<(), IoError>
    ensures { Writes (number_before n) (O.tells out.old) (O.tells out.new) result }
{
    let mut number = Buffer::new();
    write_texts(
        out,
        &[text_if(n < 10, b" "), number.format(n).as_bytes(), b": "],
    )
}
