//! Callouts (pcre2pattern, "Callouts").
ghost use Rattle.std.specs.Prelude.{◌≡◌, ◌+◌, ◌<◌, ◌≤◌, length, drop, IfSome};
ghost use Rattle.token_parts.specs.Tell.{IsSound};
ghost use Rattle.token_parts.specs.Callouts.{string_end, closer, numbered_callout, string_callout, callout};

use crate::bytes::{Run, byte, numeral, run_end, stands};
use crate::fault::{
    CALLOUT_NUMBER_TOO_BIG, Fault, MALFORMED_CALLOUT, PATTERN_TOO_LARGE, UNCLOSED_GROUP,
};
use crate::token::{Lexed, Token};

/// Where the string that begins at a place ends: at the first delimiter that doesn't stand twice.
#[tactic(auto, using(crate::proofs::Strings::string_more, crate::proofs::Strings::string_all))]
fn string_end(text: &[u8], close: u8, from: usize) -> Option<usize>
    requires { from ≤ length text.now }
    ensures value { result ≡ string_end close from (drop from text.now) }
    ensures past { IfSome result (λ to. from ≤ to) }
    ensures within { IfSome result (λ to. to < length text.now) }
{
    let mut i = from;
    while i < text.len() {
        if text[i] != close {
            i += 1;
        } else if stands(text, close, i + 1) {
            i += 2;
        } else {
            return Some(i);
        }
    }
    None
}

/// What closes a string.
fn closer(opener: u8) -> u8
    ensures { result ≡ closer opener }
{
    if opener == b'{' { b'}' } else { opener }
}

/// A callout with a number, which is 0 where none stands there.
#[tactic(auto, unfolding(crate::specs::Callouts::numbered_callout))]
fn numbered_callout(text: &[u8], at: usize) -> Lexed
    requires { at + 3 ≤ length text.now }
    ensures value { result ≡ numbered_callout text.now at }
    ensures sound { IsSound text.now at result }
{
    let to = run_end(text, Run::Digits(10), at + 3);
    let number = numeral(text, 10, at + 3, to);
    if number > 255 {
        Err(Fault::new(CALLOUT_NUMBER_TOO_BIG, at))
    } else if stands(text, b')', to) {
        let token = Token::CalloutItem {
            number: number as u8,
            text_from: 0,
            text_to: 0,
        };
        Ok((token, to + 1))
    } else {
        Err(Fault::new(MALFORMED_CALLOUT, at))
    }
}

/// A callout with a string. A text in which the string's end is no number of 32 bits is refused.
#[tactic(auto, unfolding(crate::specs::Callouts::string_callout))]
fn string_callout(text: &[u8], at: usize, opener: u8) -> Lexed
    requires { at + 4 ≤ length text.now }
    ensures value { result ≡ string_callout text.now at opener }
    ensures sound { IsSound text.now at result }
{
    let Some(to) = string_end(text, closer(opener), at + 4) else {
        return Err(Fault::new(MALFORMED_CALLOUT, at));
    };
    if to > u32::MAX as usize {
        Err(Fault::new(PATTERN_TOO_LARGE, 0))
    } else if stands(text, b')', to + 1) {
        let token = Token::CalloutItem {
            number: 0,
            text_from: (at + 4) as u32,
            text_to: to as u32,
        };
        Ok((token, to + 2))
    } else {
        Err(Fault::new(MALFORMED_CALLOUT, at))
    }
}

/// `(?C`: a callout with a number up to 255, or with a string. Faults: 114 at the pattern's end, 138 a greater number,
/// 139 a form that isn't closed, 120 a string that ends past 4,294,967,295.
#[tactic(auto, unfolding(crate::specs::Callouts::callout))]
pub fn callout(text: &[u8], at: usize) -> Lexed
    requires { at + 3 ≤ length text.now }
    ensures value { result ≡ callout text.now at }
    ensures sound { IsSound text.now at result }
{
    match byte(text, at + 3) {
        None => Err(Fault::new(UNCLOSED_GROUP, text.len())),
        Some(b'0'..=b'9' | b')') => numbered_callout(text, at),
        Some(c @ (b'`' | b'\'' | b'"' | b'^' | b'%' | b'#' | b'$' | b'{')) => string_callout(
            text, at, c,
        ),
        Some(_) => Err(Fault::new(MALFORMED_CALLOUT, at)),
    }
}
