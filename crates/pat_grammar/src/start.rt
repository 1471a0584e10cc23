//! The start items of a pattern (pcre2pattern, "Special start-of-pattern items").
ghost use Rattle.std.specs.Prelude.{◌≡◌, ◌+◌, ◌≤◌, length, Ok, IfOk, IfErr};
ghost use Rattle.pat_grammar.specs.Reading.{begins_limit, started, start, state_from};
ghost use Rattle.pat_grammar.specs.Places.{Refuses, IsListed, IsInText};

use crate::cursor::{Cursor, Place};
use crate::error::ReadError;
use crate::options::with_item;
use pat_lex::Token;
use pat_tree::Options;

/// Whether `(*LIMIT_MATCH=` begins at a place.
fn begins_limit(text: &[u8], at: usize) -> bool
    requires { at ≤ length text.now }
    ensures { result ≡ begins_limit text.now at }
{
    text[at..].starts_with(b"(*LIMIT_MATCH=".as_slice())
}

/// The place after the start items, and the options under them.
pub fn started(text: &[u8], options: Options) -> Result<(usize, Options), ReadError>
    ensures ok { IfOk result (λ r. started text.now (length text.now + 1) (start options)
        ≡ Ok (state_from r.0 r.1)) }
    ensures within { IfOk result (λ r. r.0 ≤ length text.now) }
    ensures bad { IfErr result (Refuses (started text.now (length text.now + 1) (start options))) }
    ensures number { IfErr result IsListed }
    ensures place { IfErr result (IsInText text.now) }
{
    let mut at = 0;
    let mut options = options;
    'items: loop {
        let place = Place { at, quoting: false };
        let cursor = Cursor {
            text,
            place,
            options,
            groups: 0,
        };
        match cursor.next(place, false) {
            Ok((token, after)) => {
                let Token::Start(item) = token else {
                    return Ok((at, options));
                };
                options = with_item(item, options);
                at = after;
            }
            Err(fault) => {
                if begins_limit(text, at) {
                    return Err(ReadError::from(fault));
                }
                return Ok((at, options));
            }
        }
    }
}
