//! Classes (pcre2pattern, "Square brackets and character classes", "POSIX character classes").
ghost use Rattle.std.specs.Prelude.{◌≡◌, ◌+◌, ◌<◌, ◌≤◌, length, drop, IfSome};
ghost use Rattle.token_parts.specs.Tell.{IsSound};
ghost use Rattle.pat_lex.specs.Classes.{posix_set, mark_again, posix_end, ignored_end, all_ignored_end, class_start};
ghost use Rattle.pat_lex.specs.Classes.{posix, bracket, longer_in_class, class_escape, in_class};

use crate::characters::literal;
use crate::escapes::{everywhere, property};
use crate::faults::{
    BACKSLASH_AT_END, COLLATING_ELEMENT, NOT_IN_CLASS, POSIX_OUTSIDE, UNKNOWN_ESCAPE,
    UNKNOWN_POSIX_NAME,
};
use pat_tree::SetName;
use token_parts::{Fault, LEFT_OUT, LexFlags, Lexed, Token, byte, coded, octal, stands};

/// The set of a name between `[:` and `:]`.
#[tactic(auto, unfolding(crate::specs::Classes::posix_set))]
fn posix_set(name: &[u8]) -> Option<SetName>
    ensures { result ≡ posix_set name.now }
{
    if name == b"alpha".as_slice() {
        Some(SetName::Alpha)
    } else if name == b"lower".as_slice() {
        Some(SetName::Lower)
    } else if name == b"upper".as_slice() {
        Some(SetName::Upper)
    } else if name == b"alnum".as_slice() {
        Some(SetName::Alnum)
    } else if name == b"ascii".as_slice() {
        Some(SetName::Ascii)
    } else if name == b"blank".as_slice() {
        Some(SetName::Blank)
    } else if name == b"cntrl".as_slice() {
        Some(SetName::Cntrl)
    } else if name == b"digit".as_slice() {
        Some(SetName::Digit)
    } else if name == b"graph".as_slice() {
        Some(SetName::Graph)
    } else if name == b"print".as_slice() {
        Some(SetName::Print)
    } else if name == b"punct".as_slice() {
        Some(SetName::Punct)
    } else if name == b"space".as_slice() {
        Some(SetName::Space)
    } else if name == b"word".as_slice() {
        Some(SetName::Word)
    } else if name == b"xdigit".as_slice() {
        Some(SetName::Xdigit)
    } else {
        None
    }
}

/// Where the mark of a POSIX item stands again with `]` after it.
#[tactic(auto, using(crate::proofs::Marks::mark_more, crate::proofs::Marks::mark_all))]
fn mark_again(text: &[u8], mark: u8, from: usize) -> Option<usize>
    requires { from ≤ length text.now }
    ensures value { result ≡ mark_again mark from (drop from text.now) }
    ensures past { IfSome result (λ to. from ≤ to) }
    ensures within { IfSome result (λ to. to + 2 ≤ length text.now) }
{
    let mut i = from;
    while i + 1 < text.len() {
        let c = text[i];
        let d = text[i + 1];
        if c == b'\\' && (d == b']' || d == b'\\') {
            i += 2;
        } else if c == b']' || (c == b'[' && d == mark) {
            return None;
        } else if c == mark && d == b']' {
            return Some(i);
        } else {
            i += 1;
        }
    }
    None
}

/// Where the second mark of `[:name:]`, `[.x.]` or `[=x=]` stands, if the bracket begins one.
#[tactic(auto, unfolding(crate::specs::Classes::posix_end))]
fn posix_end(text: &[u8], bracket: usize) -> Option<usize>
    requires { bracket < length text.now }
    ensures value { result ≡ posix_end text.now bracket }
    ensures past { IfSome result (λ to. bracket + 2 ≤ to) }
    ensures within { IfSome result (λ to. to + 2 ≤ length text.now) }
{
    match byte(text, bracket + 1) {
        Some(mark @ (b':' | b'.' | b'=')) => mark_again(text, mark, bracket + 2),
        _ => None,
    }
}

/// Past one `\E`, an empty `\Q\E`, or a blank under xx; the place itself where none stands there.
#[tactic(auto, unfolding(crate::specs::Classes::ignored_end))]
fn ignored_end(text: &[u8], flags: LexFlags, i: usize) -> usize
    requires { i ≤ length text.now }
    ensures value { result ≡ ignored_end text.now flags i }
    ensures past { i ≤ result }
    ensures within { result ≤ length text.now }
{
    let escape = stands(text, b'\\', i);
    if escape && stands(text, b'E', i + 1) {
        i + 2
    } else if escape
        && stands(text, b'Q', i + 1)
        && (stands(text, b'\\', i + 2) && stands(text, b'E', i + 3))
    {
        i + 4
    } else if flags.extended_more && (stands(text, b' ', i) || stands(text, b'\t', i)) {
        i + 1
    } else {
        i
    }
}

/// Past all that is ignored at a place of a class.
#[tactic(auto, using(token_parts::proofs::Places::skip_here, token_parts::proofs::Places::skip_later, token_parts::proofs::Places::skip_all), unfolding(crate::specs::Classes::all_ignored_end))]
fn all_ignored_end(text: &[u8], flags: LexFlags, from: usize) -> usize
    requires { from ≤ length text.now }
    ensures value { result ≡ all_ignored_end text.now flags from }
    ensures past { from ≤ result }
    ensures within { result ≤ length text.now }
{
    let mut i = from;
    for _turn in from..text.len() {
        let next = ignored_end(text, flags, i);
        if next == i {
            return i;
        }
        i = next;
    }
    i
}

/// `[` outside a class. A POSIX item that stands as a whole class is refused. A `^` negates the class also after what
/// is ignored there.
#[tactic(auto, unfolding(crate::specs::Classes::class_start))]
pub(crate) fn class_start(text: &[u8], flags: LexFlags, at: usize) -> Lexed
    requires { at < length text.now }
    ensures value { result ≡ class_start text.now flags at }
    ensures sound { IsSound text.now at result }
{
    if posix_end(text, at).is_some() {
        let number = if stands(text, b':', at + 1) {
            POSIX_OUTSIDE
        } else {
            COLLATING_ELEMENT
        };
        return Err(Fault::new(number, at));
    }
    let first = all_ignored_end(text, flags, at + 1);
    if stands(text, b'^', first) {
        Ok((Token::ClassStart { negated: true }, first + 1))
    } else {
        Ok((Token::ClassStart { negated: false }, at + 1))
    }
}

/// A POSIX item in a class, whose second mark is given.
#[tactic(auto, unfolding(crate::specs::Classes::posix))]
fn posix(text: &[u8], at: usize, to: usize) -> Lexed
    requires order { at + 2 ≤ to }
    requires within { to + 2 ≤ length text.now }
    ensures value { result ≡ posix text.now at to }
    ensures sound { IsSound text.now at result }
{
    if !stands(text, b':', at + 1) {
        return Err(Fault::new(COLLATING_ELEMENT, at));
    }
    let name = &text[at + 2..to];
    let not = stands(name, b'^', 0);
    let set = if not {
        posix_set(&name[1..])
    } else {
        posix_set(name)
    };
    match set {
        Some(set) => Ok((Token::Set { set, not }, to + 2)),
        None => Err(Fault::new(UNKNOWN_POSIX_NAME, at)),
    }
}

/// `[` in a class: a POSIX item, or a character.
#[tactic(auto, unfolding(crate::specs::Classes::bracket))]
fn bracket(text: &[u8], at: usize) -> Lexed
    requires { at < length text.now }
    ensures value { result ≡ bracket text.now at }
    ensures sound { IsSound text.now at result }
{
    match posix_end(text, at) {
        Some(to) => posix(text, at, to),
        None => Ok((Token::Literal(u32::from(b'[')), at + 1)),
    }
}

/// An escape in a class that goes on after its letter, or that is refused, or a character that stands for itself.
#[tactic(auto, unfolding(crate::specs::Classes::longer_in_class))]
fn longer_in_class(text: &[u8], flags: LexFlags, c: u8, at: usize) -> Lexed
    requires { at + 2 ≤ length text.now }
    ensures value { result ≡ longer_in_class text.now flags c at }
    ensures sound { IsSound text.now at result }
{
    match c {
        b'b' => Ok((Token::Literal(0x08), at + 2)),
        b'c' | b'o' | b'x' => coded(text, flags, c, at),
        b'0'..=b'7' => octal(text, flags, at, at + 1),
        b'8' | b'9' => Ok((Token::Literal(u32::from(c)), at + 2)),
        b'p' => property(text, false, at),
        b'P' => property(text, true, at),
        b'B' | b'R' | b'N' | b'X' | b'A' | b'Z' | b'z' | b'G' | b'K' | b'g' | b'k' => {
            Err(Fault::new(NOT_IN_CLASS, at))
        }
        b'C' | b'L' | b'l' | b'U' | b'u' => Err(Fault::new(LEFT_OUT, at)),
        b'A'..=b'Z' | b'a'..=b'z' => Err(Fault::new(UNKNOWN_ESCAPE, at)),
        _ => literal(text, flags.utf, c, at + 1),
    }
}

/// The token of a backslash in a class.
#[tactic(auto, unfolding(crate::specs::Classes::class_escape))]
fn class_escape(text: &[u8], flags: LexFlags, at: usize) -> Lexed
    requires { at < length text.now }
    ensures value { result ≡ class_escape text.now flags at }
    ensures sound { IsSound text.now at result }
{
    let Some(c) = byte(text, at + 1) else {
        return Err(Fault::new(BACKSLASH_AT_END, at));
    };
    if let Some(token) = everywhere(c) {
        return Ok((token, at + 2));
    }
    longer_in_class(text, flags, c, at)
}

/// The token in a class that begins with this byte.
#[tactic(auto, unfolding(crate::specs::Classes::in_class))]
pub(crate) fn in_class(text: &[u8], flags: LexFlags, c: u8, at: usize) -> Lexed
    requires { at < length text.now }
    ensures value { result ≡ in_class text.now flags c at }
    ensures sound { IsSound text.now at result }
{
    match c {
        b']' => Ok((Token::ClassEnd, at + 1)),
        b'-' => Ok((Token::Hyphen, at + 1)),
        b'[' => bracket(text, at),
        b'\\' => class_escape(text, flags, at),
        b' ' | b'\t' if flags.extended_more => Ok((Token::Passed, at + 1)),
        _ => literal(text, flags.utf, c, at),
    }
}
