//! How many columns a text takes as it is shown.
ghost use Rattle.std.specs.Prelude.{◌≡◌, ◌<◌, ◌≤◌, ◌*◌, length, IsUtf8};
ghost use Rattle.test_lines.specs.Callouts.{columns};
ghost use Rattle.test_lines.specs.Shown.{char_code_of, shown_byte, shown_bytes, shown_char, shown_chars};

use crate::shown::is_plain;
use pcre2_api::is_text;
use uni_text::char_at;

fn byte_columns(byte: u8) -> usize
    ensures value { result ≡ length (shown_byte byte) }
    ensures most { result ≤ 4 }
{
    if is_plain(u32::from(byte)) { 1 } else { 4 }
}

// The columns of a code point that is shown by its digits.
fn code_columns(code: u32) -> usize
    ensures value { result ≡ length (char_code_of code) }
    ensures most { result ≤ 10 }
{
    match code {
        0..=255 => 6,
        256..=4_095 => 7,
        4_096..=65_535 => 8,
        65_536..=1_048_575 => 9,
        _ => 10,
    }
}

fn char_columns(code: u32) -> usize
    ensures value { result ≡ length (shown_char code) }
    ensures most { result ≤ 10 }
{
    if is_plain(code) {
        1
    } else {
        code_columns(code)
    }
}

fn columns_of_bytes(text: &[u8]) -> usize
    requires { length text.now < 4294967295 }
    ensures value { result ≡ length (shown_bytes text.now) }
    ensures most { result ≤ 10 * length text.now }
{
    let mut n = 0;
    for byte in text {
        n += byte_columns(*byte);
    }
    n
}

fn columns_of_chars(text: &[u8]) -> usize
    requires valid { IsUtf8 text.now }
    requires short { length text.now < 4294967295 }
    ensures value { result ≡ length (shown_chars text.now) }
    ensures most { result ≤ 10 * length text.now }
{
    let mut n = 0;
    let mut at = 0;
    'chars: while at < text.len() {
        let (code, after) = char_at(text, at, true);
        n += char_columns(code);
        at = after;
    }
    n
}

/// How many columns a text takes as it is shown, in UTF or outside it.
pub fn columns(text: &[u8], utf: bool) -> usize
    requires { length text.now < 4294967295 }
    ensures value { result ≡ columns utf text.now }
    ensures most { result ≤ 42949672950 }
{
    if utf && is_text(text) {
        columns_of_chars(text)
    } else {
        columns_of_bytes(text)
    }
}
