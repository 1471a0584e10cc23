//! The marks of matches and of failures (pcre2pattern, "Recording which path was taken"; pcre2_get_mark). The answers
//! of the C library, 10.42.
ghost use Rattle.std.specs.Prelude.{◌<◌, length};

use crate::substitutions::cut;
use pcre2_api::{Code, MatchError, MatchOptions, NoCallouts, Options, Scratch};
use std::alloc::Global;
use std::test::Fail;

/// A pattern, a subject, and the name of its match's mark after `+` or of its failure's after `-`.
type Row = &'static str;

const ROWS: &[Row] = &[
    "X(*MARK:A)Y|X(*MARK:B)Z :: XY :: +A",
    "X(*MARK:A)Y|X(*MARK:B)Z :: XZ :: +B",
    "X(*MARK:A)Y|X(*MARK:B)Z :: XP :: -B",
    "X(*MARK:A)Y|X(*MARK:B)Z :: Q :: -",
    "a(*:A)(*:B)b :: ab :: +B",
    "a(*:A)b|ac :: ac :: +",
    "a(*:A)(*F)|ab(*F:B) :: ab :: -B",
    "a(*ACCEPT:A)b :: a :: +A",
    "a(*:A)(*ACCEPT)b :: a :: +A",
    "(?=a(*:A))a :: a :: +A",
    "(?!a(*:A)b)ac :: ac :: +",
];

fn signed(alloc: Global, sign: u8, name: Option<&[u8]>) -> Result<Vec<u8>, Fail> {
    let mut text = Vec::new(alloc);
    text.push(sign)?;
    text.extend_from_slice(name.unwrap_or(b""))?;
    Ok(text)
}

// The name of a mark of the pattern's.
fn name_of(code: &Code, mark: Option<u32>) -> Option<&[u8]> {
    match mark {
        Some(id) => code.mark_name(id),
        None => None,
    }
}

// The mark of a match or of its failure, as in a row.
fn told(alloc: Global, code: &Code, subject: &[u8]) -> Result<Vec<u8>, Fail>
    requires short { length subject.now < 1000 }
{
    let mut scratch = Scratch::new(alloc);
    match code.match_at(
        subject,
        0,
        &MatchOptions::PLAIN,
        &mut scratch,
        &mut NoCallouts,
    ) {
        Ok(found) => signed(alloc, b'+', found.mark()),
        Err(MatchError::NoMatch { mark }) => signed(alloc, b'-', name_of(code, mark)),
        Err(fault) => Err(Fail::from(fault)),
    }
}

fn is_told_by(alloc: Global, code: &Code, subject: &[u8], answer: &str) -> Result<bool, Fail> {
    if subject.len() >= 1000 {
        return Ok(false);
    }
    let told = told(alloc, code, subject)?;
    Ok(told.as_slice() == answer.as_bytes())
}

fn is_told(alloc: Global, row: &str) -> Result<bool, Fail> {
    let (pattern, rest) = cut(row);
    let (subject, answer) = cut(rest);
    let code = Code::compile(alloc, pattern.as_bytes(), Options::PLAIN)?;
    is_told_by(alloc, &code, subject.as_bytes(), answer)
}

#[test]
fn marks(rt: HostRuntime) -> Result<(), Fail> {
    for row in ROWS {
        let is_told = is_told(rt.alloc(), row)?;
        assert!(&rt; is_told);
    }
    Ok(())
}
