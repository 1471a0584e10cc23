//! Which group a backreference or a call is of (pcre2pattern, "Backreferences", "Groups as subroutines").
ghost use Rattle.std.specs.Prelude.{◌≡◌, ◌+◌, ◌<◌, ◌≤◌, length, IfOk, IfErr};
ghost use Rattle.token_parts.specs.Tell.{IsTold, IsTarget, IsSound};
ghost use Rattle.token_parts.specs.Targets.{digits_start, begins_number, numbered, enclosed, named_reference};
ghost use Rattle.token_parts.specs.Targets.{named_call, group_escape, name_escape, numbered_call, numbered_escape};

use crate::bytes::{Run, is_digit, numeral, run_end, stands};
use crate::codes::octal;
use crate::fault::{
    Fault, GROUP_NUMBER_TOO_BIG, MALFORMED_REFERENCE, RELATIVE_ZERO, UNCLOSED_GROUP,
};
use crate::names::name_end;
use crate::token::{LexFlags, Lexed, Target, Token};

/// The greatest number of a group (pcre2limits).
const GREATEST_GROUP: u64 = 65_535;

/// Past a sign.
#[tactic(auto, unfolding(crate::specs::Targets::digits_start))]
fn digits_start(text: &[u8], i: usize) -> usize
    requires { i ≤ length text.now }
    ensures value { result ≡ digits_start text.now i }
    ensures past { i ≤ result }
    ensures within { result ≤ length text.now }
{
    if stands(text, b'+', i) || stands(text, b'-', i) {
        i + 1
    } else {
        i
    }
}

/// Whether a number with or without a sign begins at the place.
#[tactic(auto, unfolding(crate::specs::Targets::begins_number))]
pub fn begins_number(text: &[u8], i: usize) -> bool
    requires { i ≤ length text.now }
    ensures value { result ≡ begins_number text.now i }
{
    is_digit(text, digits_start(text, i))
}

/// The number of a group, or how many groups on or back, and the place after it.
#[tactic(auto, unfolding(crate::specs::Targets::numbered))]
pub(crate) fn numbered(text: &[u8], at: usize, from: usize) -> Result<(Target, usize), Fault>
    requires at { at ≤ length text.now }
    requires from { from ≤ length text.now }
    ensures value { result ≡ numbered text.now at from }
    ensures found { IfOk result
        (λ r. (from ≤ r.1) × (r.1 ≤ length text.now) × IsTarget text.now r.0) }
    ensures told { IfErr result (IsTold text.now) }
{
    let digits = digits_start(text, from);
    let to = run_end(text, Run::Digits(10), digits);
    let number = numeral(text, 10, digits, to);
    if number > GREATEST_GROUP {
        Err(Fault::new(GROUP_NUMBER_TOO_BIG, at))
    } else if stands(text, b'+', from) {
        if number == 0 {
            Err(Fault::new(RELATIVE_ZERO, at))
        } else {
            Ok((Target::Plus(number as u32), to))
        }
    } else if stands(text, b'-', from) {
        if number == 0 {
            Err(Fault::new(RELATIVE_ZERO, at))
        } else {
            Ok((Target::Minus(number as u32), to))
        }
    } else {
        Ok((Target::Number(number as u32), to))
    }
}

/// The number or the name after `\g{`, `\g<` or `\g'`, and the place after what closes it.
#[tactic(auto, unfolding(crate::specs::Targets::enclosed))]
fn enclosed(text: &[u8], utf: bool, at: usize, close: u8) -> Result<(Target, usize), Fault>
    requires { at + 3 ≤ length text.now }
    ensures value { result ≡ enclosed text.now utf at close }
    ensures found { IfOk result
        (λ r. (at < r.1) × (r.1 ≤ length text.now) × IsTarget text.now r.0) }
    ensures told { IfErr result (IsTold text.now) }
{
    if begins_number(text, at + 3) {
        let (target, to) = numbered(text, at, at + 3)?;
        if stands(text, close, to) {
            Ok((target, to + 1))
        } else {
            Err(Fault::new(MALFORMED_REFERENCE, at))
        }
    } else if stands(text, b'+', at + 3) || stands(text, b'-', at + 3) {
        Err(Fault::new(MALFORMED_REFERENCE, at))
    } else {
        let to = name_end(text, utf, at, at + 3, close)?;
        Ok((Target::Named { from: at + 3, to }, to + 1))
    }
}

/// A reference by the name that begins at `from`, which a character closes. Its faults are those of names.
#[tactic(auto, unfolding(crate::specs::Targets::named_reference))]
pub fn named_reference(text: &[u8], utf: bool, at: usize, from: usize, close: u8) -> Lexed
    requires order { at ≤ from }
    requires within { from ≤ length text.now }
    ensures value { result ≡ named_reference text.now utf at from close }
    ensures sound { IsSound text.now at result }
{
    let to = name_end(text, utf, at, from, close)?;
    Ok((Token::Reference(Target::Named { from, to }), to + 1))
}

/// A call by the name that begins at `from`, with `)` after it. Its faults are those of names.
#[tactic(auto, unfolding(crate::specs::Targets::named_call))]
pub fn named_call(text: &[u8], utf: bool, at: usize, from: usize) -> Lexed
    requires order { at ≤ from }
    requires within { from ≤ length text.now }
    ensures value { result ≡ named_call text.now utf at from }
    ensures sound { IsSound text.now at result }
{
    let to = name_end(text, utf, at, from, b')')?;
    Ok((Token::CallTo(Target::Named { from, to }), to + 1))
}

/// `\g`: in braces or bare a reference, in angle brackets or quotes a call. Faults: 169 neither a number nor a name, or
/// a number that isn't closed, 161 past the greatest number, 126 a relative zero, and those of names.
#[tactic(auto, unfolding(crate::specs::Targets::group_escape))]
pub fn group_escape(text: &[u8], utf: bool, at: usize) -> Lexed
    requires { at + 2 ≤ length text.now }
    ensures value { result ≡ group_escape text.now utf at }
    ensures sound { IsSound text.now at result }
{
    if stands(text, b'{', at + 2) {
        let (target, after) = enclosed(text, utf, at, b'}')?;
        Ok((Token::Reference(target), after))
    } else if stands(text, b'<', at + 2) {
        let (target, after) = enclosed(text, utf, at, b'>')?;
        Ok((Token::CallTo(target), after))
    } else if stands(text, b'\'', at + 2) {
        let (target, after) = enclosed(text, utf, at, b'\'')?;
        Ok((Token::CallTo(target), after))
    } else if begins_number(text, at + 2) {
        let (target, after) = numbered(text, at, at + 2)?;
        Ok((Token::Reference(target), after))
    } else {
        Err(Fault::new(MALFORMED_REFERENCE, at))
    }
}

/// `\k`: a reference by a name in braces, angle brackets or quotes. Faults: 169 none of these, and those of names.
#[tactic(auto, unfolding(crate::specs::Targets::name_escape))]
pub fn name_escape(text: &[u8], utf: bool, at: usize) -> Lexed
    requires { at + 2 ≤ length text.now }
    ensures value { result ≡ name_escape text.now utf at }
    ensures sound { IsSound text.now at result }
{
    if stands(text, b'{', at + 2) {
        named_reference(text, utf, at, at + 3, b'}')
    } else if stands(text, b'<', at + 2) {
        named_reference(text, utf, at, at + 3, b'>')
    } else if stands(text, b'\'', at + 2) {
        named_reference(text, utf, at, at + 3, b'\'')
    } else {
        Err(Fault::new(MALFORMED_REFERENCE, at))
    }
}

/// `(?n)`, `(?+n)` or `(?-n)`: a call by a number. Faults: 161 past the greatest, 126 a relative zero, 114 at the
/// pattern's end where it isn't closed.
#[tactic(auto, unfolding(crate::specs::Targets::numbered_call))]
pub fn numbered_call(text: &[u8], at: usize) -> Lexed
    requires { at + 2 ≤ length text.now }
    ensures value { result ≡ numbered_call text.now at }
    ensures sound { IsSound text.now at result }
{
    let (target, to) = numbered(text, at, at + 2)?;
    if stands(text, b')', to) {
        Ok((Token::CallTo(target), to + 1))
    } else {
        Err(Fault::new(UNCLOSED_GROUP, text.len()))
    }
}

/// `\1` and further digits: a reference, or a code in octal digits where too few groups were opened before.
#[tactic(auto, unfolding(crate::specs::Targets::numbered_escape))]
pub fn numbered_escape(text: &[u8], flags: LexFlags, at: usize) -> Lexed
    requires { at + 2 ≤ length text.now }
    ensures value { result ≡ numbered_escape text.now flags at }
    ensures sound { IsSound text.now at result }
{
    let to = run_end(text, Run::Digits(10), at + 1);
    let number = numeral(text, 10, at + 1, to);
    let is_reference = number < 10
        || (stands(text, b'8', at + 1) || stands(text, b'9', at + 1))
        || number <= u64::from(flags.groups);
    if !is_reference {
        octal(text, flags, at, at + 1)
    } else if number > GREATEST_GROUP {
        Err(Fault::new(GROUP_NUMBER_TOO_BIG, at))
    } else {
        Ok((Token::Reference(Target::Number(number as u32)), to))
    }
}
