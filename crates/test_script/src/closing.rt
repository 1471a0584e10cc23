//! Where a pattern is closed.
ghost use Rattle.std.specs.Prelude.{◌≡◌, ◌+◌, ◌<◌, ◌++◌, ◌∷◌, [], length, IfOk, OnOk, OnErr, IfSome, if◌then◌else◌};
ghost use Rattle.test_script.specs.Script.{is_delimiter, closing_place, last_backslash, after_backslash};

use std::alloc::{AllocError, Global};

/// Whether a pattern may stand between two of this character (pcre2test, "PATTERN SYNTAX").
pub fn is_delimiter(b: u8) -> bool
    ensures { result ≡ is_delimiter b }
{
    matches!(
        b,
        b'/' | b'!'
            | b'\''
            | b'`'
            | b'-'
            | b'='
            | b'_'
            | b':'
            | b';'
            | b','
            | b'%'
            | b'&'
            | b'@'
            | b'~'
            | b'"'
    )
}

/// The place in a line of the character that closes a pattern, if it is there: the first that no backslash stands
/// before. Backslashes count in pairs.
pub fn closing_place(delimiter: u8, line: &[u8]) -> Option<usize>
    ensures value { result ≡ closing_place delimiter line.now }
    ensures within { IfSome result (λ n. n < length line.now) }
{
    let mut at = 0;
    while at < line.len() {
        if line[at] == delimiter {
            return Some(at);
        }
        at += if line[at] == b'\\' { 2 } else { 1 };
    }
    None
}

/// A list without the backslash before it that belongs to the pattern, and whether there was one.
pub fn after_backslash(rest: &[u8]) -> (&[u8], bool)
    ensures list { result.0.now ≡ after_backslash rest.now }
    ensures backslash { last_backslash rest.now ≡ (if result.1 then 92 ∷ [] else []) }
{
    match rest {
        [b'\\', list @ ..] => (list, true),
        _ => (rest, false),
    }
}

/// A pattern's text: its lines so far, what stands before the closing character, and perhaps a last backslash.
pub fn pattern_text(
    alloc: Global,
    before: &[u8],
    line: &[u8],
    backslash: bool,
) -> Result<Vec<u8>, AllocError>
    ensures { IfOk result (λ text.
        text.items ≡ before.now ++ line.now ++ (if backslash then 92 ∷ [] else [])) }
{
    let mut text = Vec::from_slice(alloc, before)?;
    text.extend_from_slice(line)?;
    if backslash {
        text.push(b'\\')?;
    }
    Ok(text)
}

/// Adds a line with its line feed. The text is unchanged after a refusal.
pub fn push_line(text: &mut Vec<u8>, line: &[u8]) -> Result<(), AllocError>
    ensures ok { OnOk result (text.new.items ≡ text.old.items ++ line.now ++ 10 ∷ []) }
    ensures refused { OnErr result (text.new.items ≡ text.old.items) }
{
    let len = text.len();
    text.extend_from_slice(line)?;
    if text.push(b'\n').is_err() {
        text.truncate(len);
        return Err(AllocError);
    }
    Ok(())
}
