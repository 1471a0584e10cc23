//! Characters that stand for themselves.
ghost use Rattle.std.specs.Prelude.{◌≡◌, ◌<◌, length};
ghost use Rattle.token_parts.specs.Tell.{IsSound};
ghost use Rattle.pat_lex.specs.Characters.{literal};

use token_parts::{Lexed, Token, character};

/// The character that begins with this byte: without UTF the byte, and in UTF a code point in the bytes of RFC 3629,
/// section
/// 3.
pub(crate) fn literal(text: &[u8], utf: bool, c: u8, at: usize) -> Lexed
    requires { at < length text.now }
    ensures value { result ≡ literal text.now utf c at }
    ensures sound { IsSound text.now at result }
{
    let (code, after) = character(text, utf, c, at);
    Ok((Token::Literal(code), after))
}
