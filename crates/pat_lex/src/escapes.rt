//! What follows a backslash (pcre2pattern, "Backslash").
ghost use Rattle.std.specs.Prelude.{◌≡◌, ◌+◌, ◌<◌, ◌≤◌, ℕ, List, false, length, IfSome};
ghost use Rattle.token_parts.specs.Tell.{IsSound, IsWell, is_end};
ghost use Rattle.pat_lex.specs.Escapes.{everywhere, outside, property, property_named, not_newline, longer, escape};

use crate::characters::literal;
use crate::faults::{BACKSLASH_AT_END, MALFORMED_PROPERTY, UNKNOWN_ESCAPE};
use crate::quantifiers::braces;
use pat_tree::SetName;
use token_parts::{
    Fault, LEFT_OUT, LexFlags, Lexed, Run, Token, byte, coded, group_escape, is_letter,
    name_escape, numbered_escape, octal, run_end, stands,
};

/// A set, or its complement.
fn set_of(set: SetName, not: bool) -> Token
    ensures { result ≡ Token.Set set not }
{
    Token::Set { set, not }
}

/// An escape of one letter that means the same in a class.
#[tactic(auto, unfolding(crate::specs::Escapes::everywhere))]
pub(crate) fn everywhere(c: u8) -> Option<Token>
    ensures value { result ≡ everywhere c }
    ensures inside { IfSome result (λ token. is_end token ≡ false) }
    ensures well { IfSome result (λ token. (text : List ℕ) → IsWell text token) }
{
    let token = match c {
        b'a' => Token::Literal(0x07),
        b'e' => Token::Literal(0x1B),
        b'f' => Token::Literal(0x0C),
        b'n' => Token::Literal(0x0A),
        b'r' => Token::Literal(0x0D),
        b't' => Token::Literal(0x09),
        b'd' => set_of(SetName::Digit, false),
        b'D' => set_of(SetName::Digit, true),
        b's' => set_of(SetName::Space, false),
        b'S' => set_of(SetName::Space, true),
        b'w' => set_of(SetName::Word, false),
        b'W' => set_of(SetName::Word, true),
        b'h' => set_of(SetName::H, false),
        b'H' => set_of(SetName::H, true),
        b'v' => set_of(SetName::V, false),
        b'V' => set_of(SetName::V, true),
        b'Q' => Token::QuoteOn,
        b'E' => Token::QuoteOff,
        _ => return None,
    };
    Some(token)
}

/// An escape of one letter that has another meaning in a class, or none.
#[tactic(auto, unfolding(crate::specs::Escapes::outside))]
fn outside(c: u8) -> Option<Token>
    ensures value { result ≡ outside c }
    ensures inside { IfSome result (λ token. is_end token ≡ false) }
    ensures well { IfSome result (λ token. (text : List ℕ) → IsWell text token) }
{
    let token = match c {
        b'b' => Token::Boundary { not: false },
        b'B' => Token::Boundary { not: true },
        b'A' => Token::SubjectStart,
        b'Z' => Token::EndOrNewline,
        b'z' => Token::SubjectEnd,
        b'G' => Token::StartGiven,
        b'K' => Token::KeepOut,
        b'R' => Token::LineBreak,
        _ => return None,
    };
    Some(token)
}

/// `\p` or `\P`: a property by a letter, or by a name in braces.
#[tactic(auto, unfolding(crate::specs::Escapes::property))]
pub(crate) fn property(text: &[u8], not: bool, at: usize) -> Lexed
    requires { at + 2 ≤ length text.now }
    ensures value { result ≡ property text.now not at }
    ensures sound { IsSound text.now at result }
{
    if stands(text, b'{', at + 2) {
        if stands(text, b'^', at + 3) {
            property_named(text, at, at + 4, !not)
        } else {
            property_named(text, at, at + 3, not)
        }
    } else if is_letter(text, at + 2) {
        Ok((
            Token::Property {
                from: at + 2,
                to: at + 3,
                not,
            },
            at + 3,
        ))
    } else {
        Err(Fault::new(MALFORMED_PROPERTY, at))
    }
}

/// A property whose name begins at a place and goes to a brace.
#[tactic(auto, unfolding(crate::specs::Escapes::property_named))]
fn property_named(text: &[u8], at: usize, from: usize, not: bool) -> Lexed
    requires order { at ≤ from }
    requires within { from ≤ length text.now }
    ensures value { result ≡ property_named text.now at from not }
    ensures sound { IsSound text.now at result }
{
    let to = run_end(text, Run::Until(b'}'), from);
    if stands(text, b'}', to) {
        Ok((Token::Property { from, to, not }, to + 1))
    } else {
        Err(Fault::new(MALFORMED_PROPERTY, at))
    }
}

/// `\N`. A brace after it must begin a quantifier.
#[tactic(auto, unfolding(crate::specs::Escapes::not_newline, crate::specs::Quantifiers::is_counted))]
fn not_newline(text: &[u8], at: usize) -> Lexed
    requires { at + 2 ≤ length text.now }
    ensures value { result ≡ not_newline text.now at }
    ensures sound { IsSound text.now at result }
{
    if stands(text, b'{', at + 2) && braces(text, at + 2).is_none() {
        Err(Fault::new(LEFT_OUT, at))
    } else {
        Ok((Token::NotNewline, at + 2))
    }
}

/// An escape that goes on after its letter, or that is refused, or a character that stands for itself.
#[tactic(auto, unfolding(crate::specs::Escapes::longer))]
fn longer(text: &[u8], flags: LexFlags, c: u8, at: usize) -> Lexed
    requires { at + 2 ≤ length text.now }
    ensures value { result ≡ longer text.now flags c at }
    ensures sound { IsSound text.now at result }
{
    match c {
        b'c' | b'o' | b'x' => coded(text, flags, c, at),
        b'0' => octal(text, flags, at, at + 1),
        b'1'..=b'9' => numbered_escape(text, flags, at),
        b'p' => property(text, false, at),
        b'P' => property(text, true, at),
        b'g' => group_escape(text, flags.utf, at),
        b'k' => name_escape(text, flags.utf, at),
        b'N' => not_newline(text, at),
        b'C' | b'X' | b'L' | b'l' | b'U' | b'u' => Err(Fault::new(LEFT_OUT, at)),
        b'A'..=b'Z' | b'a'..=b'z' => Err(Fault::new(UNKNOWN_ESCAPE, at)),
        _ => literal(text, flags.utf, c, at + 1),
    }
}

/// The token of a backslash outside classes.
#[tactic(auto, unfolding(crate::specs::Escapes::escape))]
pub(crate) fn escape(text: &[u8], flags: LexFlags, at: usize) -> Lexed
    requires { at < length text.now }
    ensures value { result ≡ escape text.now flags at }
    ensures sound { IsSound text.now at result }
{
    let Some(c) = byte(text, at + 1) else {
        return Err(Fault::new(BACKSLASH_AT_END, at));
    };
    if let Some(token) = everywhere(c) {
        return Ok((token, at + 2));
    }
    if let Some(token) = outside(c) {
        return Ok((token, at + 2));
    }
    longer(text, flags, c, at)
}
