//! The token that begins at a place of a pattern.
ghost use Rattle.std.specs.Prelude.{◌≡◌, ◌+◌, ◌<◌, ◌≤◌, length, IfOk, IfErr, IsTrue};
ghost use Rattle.token_parts.specs.Tell.{IsSound, IsWell, Moves, is_own};
ghost use Rattle.pat_lex.specs.Tokens.{quoted, rest, plain, token_at};

use crate::characters::literal;
use crate::classes::{class_start, in_class};
use crate::escapes::escape;
use crate::groups::group;
use crate::quantifiers::{braces, counted, with_mode};
use token_parts::{Fault, LexFlags, Lexed, Token, blank_end, byte, is_extended, stands};

/// The token between `\Q` and `\E` that begins with this byte.
#[tactic(auto, unfolding(crate::specs::Tokens::quoted))]
fn quoted(text: &[u8], utf: bool, c: u8, at: usize) -> Lexed
    requires { at < length text.now }
    ensures value { result ≡ quoted text.now utf c at }
    ensures sound { IsSound text.now at result }
{
    if c == b'\\' && stands(text, b'E', at + 1) {
        Ok((Token::QuoteOff, at + 2))
    } else {
        literal(text, utf, c, at)
    }
}

/// A quantifier, what is passed over, or a character.
#[tactic(auto, unfolding(crate::specs::Tokens::rest))]
fn rest(text: &[u8], flags: LexFlags, c: u8, at: usize) -> Lexed
    requires { at < length text.now }
    ensures value { result ≡ rest text.now flags c at }
    ensures sound { IsSound text.now at result }
{
    match c {
        b'*' => with_mode(text, flags, 0, None, at + 1),
        b'+' => with_mode(text, flags, 1, None, at + 1),
        b'?' => with_mode(text, flags, 0, Some(1), at + 1),
        b'{' => match braces(text, at) {
            Some(counts) => counted(text, flags, counts, at),
            None => literal(text, flags.utf, c, at),
        },
        _ => {
            let after = blank_end(text, flags, at);
            if is_extended(flags) && at < after {
                Ok((Token::Passed, after))
            } else {
                literal(text, flags.utf, c, at)
            }
        }
    }
}

/// The token outside classes that begins with this byte.
#[tactic(auto, unfolding(crate::specs::Tokens::plain))]
fn plain(text: &[u8], flags: LexFlags, c: u8, at: usize) -> Lexed
    requires { at < length text.now }
    ensures value { result ≡ plain text.now flags c at }
    ensures sound { IsSound text.now at result }
{
    match c {
        b'\\' => escape(text, flags, at),
        b'(' => group(text, flags.utf, at),
        b')' => Ok((Token::Close, at + 1)),
        b'|' => Ok((Token::Bar, at + 1)),
        b'[' => class_start(text, flags, at),
        b'.' => Ok((Token::Dot, at + 1)),
        b'^' => Ok((Token::Caret, at + 1)),
        b'$' => Ok((Token::Dollar, at + 1)),
        _ => rest(text, flags, c, at),
    }
}

/// The token that begins at a place, and the place after it; or the fault of that token alone
/// (pcre2pattern). What depends on the tokens before it, such as whether a quantifier may stand
/// there, isn't tested. A character that stands for itself is a byte, or under `utf` a code point
/// of UTF-8; a byte that isn't followed by all that it says is then taken alone, which UTF-8 has
/// nowhere. No memory is taken.
#[tactic(auto, using(crate::proofs::Moving::moves_inside), unfolding(crate::specs::Tokens::token_at))]
pub fn next_token(text: &[u8], at: usize, flags: LexFlags) -> Result<(Token, usize), Fault>
    requires { at ≤ length text.now }

    // The token is the one that the grammar gives there, and so is the fault.
    ensures value { result ≡ token_at text.now flags at }

    // The end is a token exactly at the text's length. Every other token is followed by a later place within the text.
    ensures moves { IfOk result (λ r. Moves text.now at r.0 r.1) }

    // A token's parts stand in the text, its numbers fit, and its minimum isn't past its maximum.
    ensures well { IfOk result (λ r. IsWell text.now r.0) }

    // A fault has a number of the list of a token's own faults, and a place in the text or at its end.
    ensures number { IfErr result (λ f. IsTrue (is_own f.number)) }
    ensures place { IfErr result (λ f. f.at ≤ length text.now) }
{
    let Some(c) = byte(text, at) else {
        return Ok((Token::End, at));
    };
    if flags.quoting {
        quoted(text, flags.utf, c, at)
    } else if flags.in_class {
        in_class(text, flags, c, at)
    } else {
        plain(text, flags, c, at)
    }
}
