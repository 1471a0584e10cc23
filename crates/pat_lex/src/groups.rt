//! What an opening parenthesis begins (pcre2pattern, "Groups", "Assertions", "Conditional groups").
ghost use Rattle.std.specs.Prelude.{◌≡◌, ◌+◌, ◌<◌, ◌≤◌, ℕ, List, length, IfSome};
ghost use Rattle.token_parts.specs.Tell.{IsSound, IsKind};
ghost use Rattle.pat_lex.specs.Groups.{opened_by, named_group, angle, python, whole_call, special, group};

use crate::verbs::{look, star_word};
use token_parts::{
    Fault, Lexed, OpenKind, Target, Token, UNCLOSED_GROUP, UNKNOWN_GROUP, begins_number, byte,
    callout, comment, condition, is_letter, name_end, named_call, named_reference, numbered_call,
    setting, stands,
};

/// The group that one character after `(?` opens.
#[tactic(auto, unfolding(crate::specs::Groups::opened_by))]
fn opened_by(c: u8) -> Option<OpenKind>
    ensures value { result ≡ opened_by c }
    ensures well { IfSome result (λ kind. (text : List ℕ) → IsKind text kind) }
{
    match c {
        b':' => Some(OpenKind::Plain),
        b'|' => Some(OpenKind::BranchReset),
        b'>' => Some(OpenKind::Atomic),
        b'=' => Some(look(true, true, true)),
        b'!' => Some(look(true, false, true)),
        b'*' => Some(look(true, true, false)),
        _ => None,
    }
}

/// A named group, whose name begins at a place.
#[tactic(auto, unfolding(crate::specs::Groups::named_group))]
fn named_group(text: &[u8], utf: bool, at: usize, from: usize, close: u8) -> Lexed
    requires order { at ≤ from }
    requires within { from ≤ length text.now }
    ensures value { result ≡ named_group text.now utf at from close }
    ensures sound { IsSound text.now at result }
{
    let to = name_end(text, utf, at, from, close)?;
    Ok((Token::Open(OpenKind::Named { from, to }), to + 1))
}

/// `(?<`: a lookbehind, or a named group.
#[tactic(auto, unfolding(crate::specs::Groups::angle))]
fn angle(text: &[u8], utf: bool, at: usize) -> Lexed
    requires { at + 3 ≤ length text.now }
    ensures value { result ≡ angle text.now utf at }
    ensures sound { IsSound text.now at result }
{
    if stands(text, b'=', at + 3) {
        Ok((Token::Open(look(false, true, true)), at + 4))
    } else if stands(text, b'!', at + 3) {
        Ok((Token::Open(look(false, false, true)), at + 4))
    } else if stands(text, b'*', at + 3) {
        Ok((Token::Open(look(false, true, false)), at + 4))
    } else {
        named_group(text, utf, at, at + 3, b'>')
    }
}

/// `(?P`: a named group, or a reference or a call by a name.
#[tactic(auto, unfolding(crate::specs::Groups::python))]
fn python(text: &[u8], utf: bool, at: usize) -> Lexed
    requires { at + 3 ≤ length text.now }
    ensures value { result ≡ python text.now utf at }
    ensures sound { IsSound text.now at result }
{
    if stands(text, b'<', at + 3) {
        named_group(text, utf, at, at + 4, b'>')
    } else if stands(text, b'=', at + 3) {
        named_reference(text, utf, at, at + 4, b')')
    } else if stands(text, b'>', at + 3) {
        named_call(text, utf, at, at + 4)
    } else if at + 3 == text.len() {
        Err(Fault::new(UNCLOSED_GROUP, text.len()))
    } else {
        Err(Fault::new(UNKNOWN_GROUP, at))
    }
}

/// `(?R)`: a call of the whole pattern.
#[tactic(auto, unfolding(crate::specs::Groups::whole_call))]
fn whole_call(text: &[u8], at: usize) -> Lexed
    requires { at + 3 ≤ length text.now }
    ensures value { result ≡ whole_call text.now at }
    ensures sound { IsSound text.now at result }
{
    if stands(text, b')', at + 3) {
        Ok((Token::CallTo(Target::Number(0)), at + 4))
    } else {
        Err(Fault::new(UNCLOSED_GROUP, text.len()))
    }
}

/// `(?` and the byte after it.
#[tactic(auto, unfolding(crate::specs::Groups::special))]
fn special(text: &[u8], utf: bool, c: u8, at: usize) -> Lexed
    requires { at + 3 ≤ length text.now }
    ensures value { result ≡ special text.now utf c at }
    ensures sound { IsSound text.now at result }
{
    if let Some(kind) = opened_by(c) {
        return Ok((Token::Open(kind), at + 3));
    }
    match c {
        b'#' => comment(text, at),
        b'<' => angle(text, utf, at),
        b'\'' => named_group(text, utf, at, at + 3, b'\''),
        b'P' => python(text, utf, at),
        b'&' => named_call(text, utf, at, at + 3),
        b'R' => whole_call(text, at),
        b'C' => callout(text, at),
        b'(' => condition(text, utf, at),
        _ if begins_number(text, at + 2) => numbered_call(text, at),
        _ => setting(text, at),
    }
}

/// An opening parenthesis. An asterisk with neither a letter nor a colon after it is a quantifier after it.
#[tactic(auto, unfolding(crate::specs::Groups::group))]
pub(crate) fn group(text: &[u8], utf: bool, at: usize) -> Lexed
    requires { at < length text.now }
    ensures value { result ≡ group text.now utf at }
    ensures sound { IsSound text.now at result }
{
    if stands(text, b'?', at + 1) {
        match byte(text, at + 2) {
            Some(c) => special(text, utf, c, at),
            None => Err(Fault::new(UNCLOSED_GROUP, text.len())),
        }
    } else if stands(text, b'*', at + 1)
        && (is_letter(text, at + 2) || stands(text, b':', at + 2))
    {
        star_word(text, at)
    } else {
        Ok((Token::Open(OpenKind::Capture), at + 1))
    }
}
