//! The tests of conditional groups (pcre2pattern, "Conditional groups").
ghost use Rattle.std.specs.Prelude.{◌≡◌, ◌+◌, ◌<◌, ◌≤◌, length};
ghost use Rattle.token_parts.specs.Tell.{longest_name, IsSound, IsTest};
ghost use Rattle.token_parts.specs.Conditions.{named_test, test_closed, quoted_test, call_test, bare_test};
ghost use Rattle.token_parts.specs.Conditions.{numbered_test, plain_test, condition};

use crate::bytes::{Run, begins, byte, numeral, run_end, stands};
use crate::fault::{Fault, LEFT_OUT, MALFORMED_CONDITION, UNCLOSED_GROUP};
use crate::names::name_end;
use crate::targets::{begins_number, numbered};
use crate::token::{CondText, Lexed, Target, Token};

/// A test that is a name, of which `DEFINE`, `R` and `Rn` have meanings of their own.
#[tactic(auto, unfolding(crate::specs::Conditions::named_test))]
fn named_test(text: &[u8], from: usize, to: usize) -> CondText
    requires order { from < to }
    requires within { to ≤ length text.now }
    requires short { to ≤ from + longest_name }
    ensures value { result ≡ named_test text.now from to }
    ensures well { IsTest text.now result }
{
    let word = &text[from..to];
    if word == b"DEFINE".as_slice() {
        CondText::Define
    } else if word == b"R".as_slice() {
        CondText::InCall
    } else if stands(text, b'R', from) && run_end(text, Run::Digits(10), from + 1) == to {
        let number = numeral(text, 10, from + 1, to).min(u64::from(u32::MAX));
        CondText::InCallOf(Target::Number(number as u32))
    } else {
        CondText::Group(Target::Named { from, to })
    }
}

/// A test that begins 3 bytes on and ends at a place, with what closes it.
#[tactic(auto, unfolding(crate::specs::Conditions::test_closed))]
fn test_closed(text: &[u8], at: usize, cond: CondText, to: usize) -> Lexed
    requires order { at + 3 ≤ to }
    requires within { to ≤ length text.now }
    requires well { IsTest text.now cond }
    ensures value { result ≡ test_closed text.now at cond to }
    ensures sound { IsSound text.now at result }
{
    if stands(text, b')', to) {
        let from = at + 3;
        Ok((Token::CondStart { cond, from, to }, to + 1))
    } else {
        Err(Fault::new(MALFORMED_CONDITION, at))
    }
}

/// `<name>` or `'name'`
#[tactic(auto, unfolding(crate::specs::Conditions::quoted_test))]
fn quoted_test(text: &[u8], utf: bool, at: usize, close: u8) -> Lexed
    requires { at + 4 ≤ length text.now }
    ensures value { result ≡ quoted_test text.now utf at close }
    ensures sound { IsSound text.now at result }
{
    let to = name_end(text, utf, at, at + 4, close)?;
    test_closed(
        text,
        at,
        CondText::Group(Target::Named { from: at + 4, to }),
        to + 1,
    )
}

/// `R&name`
#[tactic(auto, unfolding(crate::specs::Conditions::call_test))]
fn call_test(text: &[u8], utf: bool, at: usize) -> Lexed
    requires { at + 5 ≤ length text.now }
    ensures value { result ≡ call_test text.now utf at }
    ensures sound { IsSound text.now at result }
{
    let to = name_end(text, utf, at, at + 5, b')')?;
    let cond = CondText::InCallOf(Target::Named { from: at + 5, to });
    let from = at + 3;
    Ok((Token::CondStart { cond, from, to }, to + 1))
}

/// `name`, `R`, `Rn` or `DEFINE`
#[tactic(auto, unfolding(crate::specs::Conditions::bare_test))]
fn bare_test(text: &[u8], utf: bool, at: usize) -> Lexed
    requires { at + 3 ≤ length text.now }
    ensures value { result ≡ bare_test text.now utf at }
    ensures sound { IsSound text.now at result }
{
    let to = name_end(text, utf, at, at + 3, b')')?;
    let cond = named_test(text, at + 3, to);
    let from = at + 3;
    Ok((Token::CondStart { cond, from, to }, to + 1))
}

/// `n`, `+n` or `-n`
#[tactic(auto, unfolding(crate::specs::Conditions::numbered_test))]
fn numbered_test(text: &[u8], at: usize) -> Lexed
    requires { at + 3 ≤ length text.now }
    ensures value { result ≡ numbered_test text.now at }
    ensures sound { IsSound text.now at result }
{
    let (target, to) = numbered(text, at, at + 3)?;
    test_closed(text, at, CondText::Group(target), to)
}

/// A test that is no lookaround.
#[tactic(auto, unfolding(crate::specs::Conditions::plain_test))]
fn plain_test(text: &[u8], utf: bool, at: usize) -> Lexed
    requires { at + 3 ≤ length text.now }
    ensures value { result ≡ plain_test text.now utf at }
    ensures sound { IsSound text.now at result }
{
    if begins_number(text, at + 3) {
        numbered_test(text, at)
    } else if stands(text, b'+', at + 3) || stands(text, b'-', at + 3) {
        Err(Fault::new(MALFORMED_CONDITION, at))
    } else if stands(text, b'<', at + 3) {
        quoted_test(text, utf, at, b'>')
    } else if stands(text, b'\'', at + 3) {
        quoted_test(text, utf, at, b'\'')
    } else if begins(text, b"R&", at + 3) {
        call_test(text, utf, at)
    } else if begins(text, b"VERSION=", at + 3) || begins(text, b"VERSION>", at + 3) {
        Err(Fault::new(LEFT_OUT, at))
    } else {
        bare_test(text, utf, at)
    }
}

/// `(?(`: the start of a conditional group. Faults: 114 at the pattern's end, 128 a sign without digits or a test that
/// isn't closed, 195 a test of the version, and those of the test's name or number.
#[tactic(auto, unfolding(crate::specs::Conditions::condition))]
pub fn condition(text: &[u8], utf: bool, at: usize) -> Lexed
    requires { at + 3 ≤ length text.now }
    ensures value { result ≡ condition text.now utf at }
    ensures sound { IsSound text.now at result }
{
    match byte(text, at + 3) {
        None => Err(Fault::new(UNCLOSED_GROUP, text.len())),
        Some(b'?' | b'*') => {
            let (cond, from, to) = (CondText::Lookaround, at + 2, at + 2);
            Ok((Token::CondStart { cond, from, to }, to))
        }
        Some(_) => plain_test(text, utf, at),
    }
}
