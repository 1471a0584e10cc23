//! The escapes of subject lines. A place is a number of bytes from the text's begin.
ghost use Rattle.std.specs.Prelude.{◌≡◌, ◌+◌, ◌<◌, ◌≤◌, true, false, length, IfSome, MatchOption};
ghost use Rattle.test_script.specs.Subjects.{control_of, character, coded, digits, octal, is_braced, braced};
ghost use Rattle.test_script.specs.Subjects.{hexadecimal, braced_octal, escape, piece_at};
ghost use Rattle.test_script.specs.Pieces.{piece_seen, place_after};

use byte_lanes::number;
use token_parts::{Run, byte, run_end, stands};

/// What stands at a place of a subject line, with the place after it.
#[derive(Clone, Copy)]
pub enum Piece {
    /// The text's end.
    End,
    /// What writes a byte.
    Byte { b: u8, to: usize },
    /// What writes a character in UTF-8.
    Char { c: char, to: usize },
    /// `\[`.
    Opens(usize),
    /// `\=`.
    Lists(usize),
    /// No escape that there is.
    Wrong,
}

/// The control character that a letter writes.
fn control_of(c: u8) -> Option<u8>
    ensures { result ≡ control_of c }
{
    match c {
        b'a' => Some(7),
        b'b' => Some(8),
        b'e' => Some(27),
        b'f' => Some(12),
        b'n' => Some(b'\n'),
        b'r' => Some(b'\r'),
        b't' => Some(b'\t'),
        b'v' => Some(11),
        _ => None,
    }
}

/// A character by its code, in UTF in its encoding.
fn character(utf: bool, code: u32, to: usize) -> Piece
    ensures value { piece_seen result ≡ character utf code to }
    ensures place { place_after result ≤ to }
{
    if utf {
        match char::from_u32(code) {
            Some(c) => Piece::Char { c, to },
            None => Piece::Wrong,
        }
    } else {
        match u8::try_from(code) {
            Ok(b) => Piece::Byte { b, to },
            Err(_) => Piece::Wrong,
        }
    }
}

/// The same where the code may be more than a number of 32 bits.
fn coded(utf: bool, code: Option<u32>, to: usize) -> Piece
    ensures value { piece_seen result ≡ coded utf code to }
    ensures place { place_after result ≤ to }
{
    match code {
        Some(code) => character(utf, code, to),
        None => Piece::Wrong,
    }
}

/// The number that digits between two places write.
fn digits(text: &[u8], radix: u32, from: usize, to: usize) -> Option<u32>
    requires order { from ≤ to }
    requires within { to ≤ length text.now }
    requires some { 1 ≤ radix }
    requires few { radix ≤ 36 }
    ensures { result ≡ digits text.now radix from to }
{
    number(&text[from..to], radix)
}

/// `\` and up to three octal digits.
#[tactic(auto, unfolding(crate::specs::Subjects::octal))]
fn octal(utf: bool, text: &[u8], at: usize) -> Piece
    requires { at + 1 ≤ length text.now }
    ensures value { piece_seen result ≡ octal utf text.now at }
    ensures place { place_after result ≤ length text.now }
{
    let to = run_end(text, Run::Digits(8), at + 1).min(at + 4);
    coded(utf, digits(text, 8, at + 1, to), to)
}

/// A character by digits in braces at a place. None where none are there.
fn braced(utf: bool, text: &[u8], radix: u32, at: usize) -> Option<Piece>
    requires within { at ≤ length text.now }
    requires some { 1 ≤ radix }
    requires few { radix ≤ 16 }
    ensures value { MatchOption result (is_braced text.now radix at ≡ false) (λ found.
        (is_braced text.now radix at ≡ true) × (piece_seen found ≡ braced utf text.now radix at)) }
    ensures place { IfSome result (λ found. place_after found ≤ length text.now) }
{
    if !stands(text, b'{', at) {
        return None;
    }
    let to = run_end(text, Run::Digits(radix), at + 1);
    if stands(text, b'}', to) {
        Some(coded(utf, digits(text, radix, at + 1, to), to + 1))
    } else {
        None
    }
}

/// `\x`: a character in braces, else a byte by up to two digits.
#[tactic(auto, unfolding(crate::specs::Subjects::hexadecimal))]
fn hexadecimal(utf: bool, text: &[u8], at: usize) -> Piece
    requires { at + 2 ≤ length text.now }
    ensures value { piece_seen result ≡ hexadecimal utf text.now at }
    ensures place { place_after result ≤ length text.now }
{
    match braced(utf, text, 16, at + 2) {
        Some(found) => found,
        None => {
            let to = run_end(text, Run::Digits(16), at + 2).min(at + 4);
            coded(false, digits(text, 16, at + 2, to), to)
        }
    }
}

/// `\o`: a character in braces.
#[tactic(auto, unfolding(crate::specs::Subjects::braced_octal))]
fn braced_octal(utf: bool, text: &[u8], at: usize) -> Piece
    requires { at + 2 ≤ length text.now }
    ensures value { piece_seen result ≡ braced_octal utf text.now at }
    ensures place { place_after result ≤ length text.now }
{
    match braced(utf, text, 8, at + 2) {
        Some(found) => found,
        None => Piece::Wrong,
    }
}

/// A backslash at a place, with this byte after it.
#[tactic(auto, unfolding(crate::specs::Subjects::escape))]
fn escape(utf: bool, text: &[u8], at: usize, c: u8) -> Piece
    requires { at + 2 ≤ length text.now }
    ensures value { piece_seen result ≡ escape utf text.now at c }
    ensures place { place_after result ≤ length text.now }
{
    if let Some(b) = control_of(c) {
        return Piece::Byte { b, to: at + 2 };
    }
    match c {
        b'0'..=b'7' => octal(utf, text, at),
        b'x' => hexadecimal(utf, text, at),
        b'o' => braced_octal(utf, text, at),
        b'=' => Piece::Lists(at + 2),
        b'[' => Piece::Opens(at + 2),
        _ if c.is_ascii_alphanumeric() => Piece::Wrong,
        _ => Piece::Byte { b: c, to: at + 2 },
    }
}

/// What stands at a place of a subject line (pcre2test, "SUBJECT LINE SYNTAX").
#[tactic(auto, unfolding(crate::specs::Subjects::piece_at))]
pub fn piece_at(utf: bool, text: &[u8], at: usize) -> Piece
    requires { at ≤ length text.now }
    ensures value { piece_seen result ≡ piece_at utf text.now at }
    ensures place { place_after result ≤ length text.now }
{
    match byte(text, at) {
        None => Piece::End,
        Some(b'\\') => match byte(text, at + 1) {
            None => Piece::End,
            Some(c) => escape(utf, text, at, c),
        },
        Some(b) => Piece::Byte { b, to: at + 1 },
    }
}
