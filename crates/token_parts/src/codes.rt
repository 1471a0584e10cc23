//! What writes a character by its code (pcre2pattern, "Non-printing characters").
ghost use Rattle.std.specs.Prelude.{◌≡◌, ◌+◌, ◌<◌, ◌≤◌, length};
ghost use Rattle.token_parts.specs.Tell.{IsSound};
ghost use Rattle.token_parts.specs.Codes.{control, greatest, octal, braced, hexadecimal, coded};

use crate::bytes::{Run, byte, numeral, run_end, stands};
use crate::fault::{BAD_CODE_DIGITS, BAD_CONTROL, CODE_TOO_LARGE, Fault, SURROGATE_CODE};
use crate::token::{LexFlags, Lexed, Token};

/// `\c`: the control character of a printable one.
#[tactic(auto, unfolding(crate::specs::Codes::control))]
fn control(text: &[u8], at: usize) -> Lexed
    requires { at + 2 ≤ length text.now }
    ensures value { result ≡ control text.now at }
    ensures sound { IsSound text.now at result }
{
    match byte(text, at + 2) {
        Some(c @ 32..=126) => {
            let code = c.to_ascii_uppercase() ^ 64;
            Ok((Token::Literal(u32::from(code)), at + 3))
        }
        _ => Err(Fault::new(BAD_CONTROL, at)),
    }
}

/// The greatest code of a character.
fn greatest(flags: LexFlags) -> u64
    ensures value { result ≡ greatest flags }
{
    if flags.utf { 0x10_FFFF } else { 255 }
}

/// A character by the up to three octal digits from a place on; 0 where there are none. Fault 134: the code is past the
/// greatest.
#[tactic(auto, unfolding(crate::specs::Codes::octal))]
pub fn octal(text: &[u8], flags: LexFlags, at: usize, from: usize) -> Lexed
    requires order { at < from }
    requires within { from ≤ length text.now }
    ensures value { result ≡ octal text.now flags at from }
    ensures sound { IsSound text.now at result }
{
    let to = run_end(text, Run::Digits(8), from).min(from + 3);
    let code = numeral(text, 8, from, to);
    if code > greatest(flags) {
        Err(Fault::new(CODE_TOO_LARGE, at))
    } else {
        Ok((Token::Literal(code as u32), to))
    }
}

/// A code in digits between braces.
#[tactic(auto, unfolding(crate::specs::Codes::braced))]
fn braced(text: &[u8], flags: LexFlags, radix: u32, at: usize) -> Lexed
    requires within { at + 3 ≤ length text.now }
    requires one { 0 < radix }
    requires most { radix ≤ 16 }
    ensures value { result ≡ braced text.now flags radix at }
    ensures sound { IsSound text.now at result }
{
    let to = run_end(text, Run::Digits(radix), at + 3);
    let code = numeral(text, radix, at + 3, to);
    if code > greatest(flags) {
        Err(Fault::new(CODE_TOO_LARGE, at))
    } else if to == at + 3 || !stands(text, b'}', to) {
        Err(Fault::new(BAD_CODE_DIGITS, at))
    } else if flags.utf && (0xD800 <= code && code <= 0xDFFF) {
        Err(Fault::new(SURROGATE_CODE, at))
    } else {
        Ok((Token::Literal(code as u32), to + 1))
    }
}

/// `\x`: a code in braces, or in up to two hexadecimal digits.
#[tactic(auto, using(crate::proofs::Numerals::numeral_small), unfolding(crate::specs::Codes::hexadecimal))]
fn hexadecimal(text: &[u8], flags: LexFlags, at: usize) -> Lexed
    requires { at + 2 ≤ length text.now }
    ensures value { result ≡ hexadecimal text.now flags at }
    ensures sound { IsSound text.now at result }
{
    if stands(text, b'{', at + 2) {
        return braced(text, flags, 16, at);
    }
    let to = run_end(text, Run::Digits(16), at + 2).min(at + 4);
    let code = numeral(text, 16, at + 2, to);
    Ok((Token::Literal(code as u32), to))
}

/// `\c`, `\o` or `\x`, by its letter: a character by its code. Faults: 102 no printable character after `\c`, 134 a
/// code past the greatest, 135 no digits or no closing brace, 173 a surrogate.
#[tactic(auto, unfolding(crate::specs::Codes::coded))]
pub fn coded(text: &[u8], flags: LexFlags, c: u8, at: usize) -> Lexed
    requires { at + 2 ≤ length text.now }
    ensures value { result ≡ coded text.now flags c at }
    ensures sound { IsSound text.now at result }
{
    if c == b'c' {
        control(text, at)
    } else if c == b'x' {
        hexadecimal(text, flags, at)
    } else if stands(text, b'{', at + 2) {
        braced(text, flags, 8, at)
    } else {
        Err(Fault::new(BAD_CODE_DIGITS, at))
    }
}
