//! What a backslash begins (pcre2api, "Creating a new string with substitutions"; pcre2pattern,
//! "Backslash").
ghost use Rattle.std.specs.Prelude.{◌≡◌, ◌+◌, ◌<◌, ◌≤◌, List, ℕ, length, IfOk, IfSome, Ok};
ghost use Rattle.token_parts.specs.Bytes.{begins};
ghost use Rattle.token_parts.specs.Codes.{coded};
ghost use Rattle.subst_plan.specs.Reading.{control_of, forcing_of, character, literal_of, code_read, code_flags};
ghost use Rattle.subst_plan.specs.Reading.{quote_end, quoted, escape};
ghost use Rattle.subst_plan.specs.Plans.{IsIn, IsAfter};

use crate::faults::PlanError;
use crate::pieces::{Case, Forcing, Piece};
use pat_tree::Newline;
use token_parts::{LexFlags, Token, byte, coded};

/// The control character that a letter writes.
fn control_of(c: u8) -> Option<u8>
    ensures { result ≡ control_of c }
{
    match c {
        b'a' => Some(7),
        b'e' => Some(27),
        b'f' => Some(12),
        b'n' => Some(b'\n'),
        b'r' => Some(b'\r'),
        b't' => Some(b'\t'),
        _ => None,
    }
}

/// The case that a letter forces.
fn forcing_of(c: u8) -> Option<Forcing>
    ensures { result ≡ forcing_of c }
{
    match c {
        b'U' => Some(Forcing::All(Case::Upper)),
        b'L' => Some(Forcing::All(Case::Lower)),
        b'E' => Some(Forcing::Off),
        b'u' => Some(Forcing::Next(Case::Upper)),
        b'l' => Some(Forcing::Next(Case::Lower)),
        _ => None,
    }
}

/// A character by its code, in UTF in its encoding.
fn character(utf: bool, code: u32) -> Option<Piece>
    ensures value { result ≡ character utf code }
    ensures within { IfSome result (λ piece. (text : List ℕ) → IsIn text piece) }
{
    if utf {
        match char::from_u32(code) {
            Some(c) => Some(Piece::Char(c)),
            None => None,
        }
    } else {
        match u8::try_from(code) {
            Ok(b) => Some(Piece::Byte(b)),
            Err(_) => None,
        }
    }
}

/// The code of a token that is a character.
fn literal_of(token: Token) -> Option<u32>
    ensures { result ≡ literal_of token }
{
    match token {
        Token::Literal(code) => Some(code),
        _ => None,
    }
}

/// What codes in a replacement are read by: as in a pattern.
fn code_flags(utf: bool) -> LexFlags
    ensures { result ≡ code_flags utf }
{
    LexFlags {
        utf,
        extended: false,
        extended_more: false,
        quoting: false,
        in_class: false,
        newline: Newline::Lf,
        groups: 0,
    }
}

/// `\x` or `\o` at a place, by its letter, as in a pattern.
fn code_at(text: &[u8], utf: bool, c: u8, at: usize) -> Result<(Piece, usize), PlanError>
    requires { at + 2 ≤ length text.now }
    ensures value { result ≡ code_read utf (coded text.now (code_flags utf) c at) }
    ensures place { IfOk result (IsAfter text.now at) }
{
    let Ok((token, to)) = coded(text, code_flags(utf), c, at) else {
        return Err(PlanError::BadEscape);
    };
    let Some(code) = literal_of(token) else {
        return Err(PlanError::BadEscape);
    };
    match character(utf, code) {
        Some(piece) => Ok((piece, to)),
        None => Err(PlanError::BadEscape),
    }
}

/// Whether `\E` stands at a place.
fn is_ending(text: &[u8], at: usize) -> bool
    requires { at ≤ length text.now }
    ensures { result ≡ begins text.now "\\E" at }
{
    text[at..].starts_with(b"\\E".as_slice())
}

/// Where a quoted text ends that begins at a place: at `\E` or at the end.
#[tactic(auto, using(crate::proofs::Runs::quote_here, crate::proofs::Runs::quote_later, crate::proofs::Runs::quote_all))]
fn quote_end(text: &[u8], from: usize) -> usize
    requires { from ≤ length text.now }
    ensures value { result ≡ quote_end text.now from }
    ensures past { from ≤ result }
    ensures within { result ≤ length text.now }
{
    for i in from..text.len() {
        if is_ending(text, i) {
            return i;
        }
    }
    text.len()
}

/// The text of `\Q`, from the place after it, and the place after its `\E`.
fn quoted(text: &[u8], from: usize) -> (Piece, usize)
    requires { from ≤ length text.now }
    ensures value { quoted text.now from ≡ Ok result }
    ensures place { IsIn text.now result.0 }
    ensures after { (from ≤ result.1) × (result.1 ≤ length text.now) }
{
    let to = quote_end(text, from);
    (Piece::Text { from, to }, text.len().min(to + 2))
}

/// A backslash at a place: what it begins, and the place after that.
#[tactic(auto, unfolding(crate::specs::Reading::escape))]
pub fn escape(text: &[u8], utf: bool, at: usize) -> Result<(Piece, usize), PlanError>
    requires { at < length text.now }
    ensures value { result ≡ escape text.now utf at }
    ensures place { IfOk result (IsAfter text.now at) }
{
    let Some(c) = byte(text, at + 1) else {
        return Err(PlanError::BadEscape);
    };
    if let Some(b) = control_of(c) {
        return Ok((Piece::Byte(b), at + 2));
    }
    if let Some(forcing) = forcing_of(c) {
        return Ok((Piece::Force(forcing), at + 2));
    }
    match c {
        b'Q' => Ok(quoted(text, at + 2)),
        b'x' | b'o' => code_at(text, utf, c, at),
        _ if c.is_ascii_alphanumeric() => Err(PlanError::BadEscape),
        _ => {
            let piece = Piece::Text {
                from: at + 1,
                to: at + 2,
            };
            Ok((piece, at + 2))
        }
    }
}
