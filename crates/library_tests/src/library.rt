//! The library as a program uses it.
ghost use Rattle.std.specs.Prelude.{◌<◌, length, IfOk, IfSome};

use pcre2_api::{
    Code, Found, MatchError, MatchOptions, NoCallouts, Options, Scratch, SubstOptions, Substituted,
};
use std::alloc::Global;
use std::test::Fail;

/// A month of a year, in the digits of the text.
#[derive(Drop)]
struct Month {
    year: Vec<u8>,
    month: Vec<u8>,
}

/// The month that a match tells.
fn month_of(alloc: Global, found: &Found<'_>) -> Result<Option<Month>, Fail> {
    let Some(year) = found.group_named(b"year") else {
        return Ok(None);
    };
    let Some(month) = found.group_named(b"month") else {
        return Ok(None);
    };
    let year = year.to_vec(alloc)?;
    let month = month.to_vec(alloc)?;
    Ok(Some(Month { year, month }))
}

/// Adds the month that the first match from a start on tells. Gives where to go on, or none where
/// there is no match.
fn add_month(
    alloc: Global,
    code: &Code,
    text: &[u8],
    start: usize,
    scratch: &mut Scratch,
    months: &mut Vec<Month>,
) -> Result<Option<usize>, Fail>
    requires { length text.now < 4294967295 }
    ensures onward { IfOk result (λ next. IfSome next (λ place. start < place)) }
{
    match code.match_at(text, start, &MatchOptions::PLAIN, scratch, &mut NoCallouts) {
        Ok(found) => {
            if let Some(month) = month_of(alloc, &found)? {
                months.push(month)?;
            }
            // an empty match would be found at the same place again
            let is_empty = found.start() == found.end();
            let next = if is_empty {
                found.end() + 1
            } else {
                found.end()
            };
            Ok(Some(next))
        }
        Err(MatchError::NoMatch { .. }) => Ok(None),
        Err(e) => Err(Fail::from(e)),
    }
}

/// Adds the months of all matches, in order.
fn add_months(alloc: Global, code: &Code, text: &[u8], months: &mut Vec<Month>) -> Result<(), Fail>
    requires { length text.now < 4294967295 }
{
    let mut scratch = Scratch::new(alloc);
    let mut start = 0;
    while start <= text.len() {
        match add_month(alloc, code, text, start, &mut scratch, months)? {
            Some(next) => start = next,
            None => break,
        }
    }
    Ok(())
}

/// All months in a text, in order.
fn months(alloc: Global, text: &[u8]) -> Result<Vec<Month>, Fail>
    requires { length text.now < 4294967295 }
{
    let pattern = b"(?<year>\\d{4})-(?<month>\\d\\d)";
    let code = Code::compile(alloc, pattern, Options::PLAIN)?;
    let mut months = Vec::new(alloc);
    add_months(alloc, &code, text, &mut months)?;
    Ok(months)
}

fn is_month(month: &Month, wanted: &(&[u8], &[u8])) -> bool {
    month.year.as_slice() == wanted.0 && month.month.as_slice() == wanted.1
}

fn are(months: &[Month], wanted: &[(&[u8], &[u8])]) -> bool {
    if months.len() != wanted.len() {
        return false;
    }
    for i in 0..wanted.len() {
        if !is_month(&months[i], &wanted[i]) {
            return false;
        }
    }
    true
}

#[test]
fn months_are_collected(rt: HostRuntime) -> Result<(), Fail> {
    static WANTED: [(&[u8], &[u8]); 2] = [(b"2023", b"11"), (b"2024", b"02")];
    let found = months(rt.alloc(), b"from 2023-11 to 2024-02, not 20240-3")?;
    assert!(&rt; are(found.as_slice(), &WANTED));
    let none = months(rt.alloc(), b"")?;
    assert!(&rt; none.is_empty());
    Ok(())
}

/// The text with what a compiled pattern matches replaced.
fn rewritten_by(
    alloc: Global,
    code: &Code,
    text: &[u8],
    how: &SubstOptions,
    replacement: &[u8],
) -> Result<Substituted, Fail>
    requires { length text.now < 4294967295 }
{
    let mut scratch = Scratch::new(alloc);
    let plain = MatchOptions::PLAIN;
    Ok(code.substitute(alloc, text, 0, &plain, how, replacement, &mut scratch)?)
}

/// The text with what a pattern matches replaced.
fn rewritten(
    alloc: Global,
    text: &[u8],
    pattern: &[u8],
    how: &SubstOptions,
    replacement: &[u8],
) -> Result<Substituted, Fail>
    requires { length text.now < 4294967295 }
{
    let code = Code::compile(alloc, pattern, Options::PLAIN)?;
    rewritten_by(alloc, &code, text, how, replacement)
}

/// The text with its dates the other way round, and how many there are: `2026-11-28` becomes
/// `28.11.2026`.
fn turned_dates(alloc: Global, text: &[u8]) -> Result<Substituted, Fail>
    requires { length text.now < 4294967295 }
{
    let pattern = b"(?<year>\\d{4})-(?<month>\\d\\d)-(?<day>\\d\\d)";
    let how = SubstOptions {
        global: true,
        ..SubstOptions::PLAIN
    };
    rewritten(alloc, text, pattern, &how, b"$day.$month.$year")
}

/// Names with their first letters in upper case. Where there is no first name it says so.
fn proper_names(alloc: Global, text: &[u8]) -> Result<Substituted, Fail>
    requires { length text.now < 4294967295 }
{
    let pattern = b"(?<last>\\w+),(?: (?<first>\\w+))?";
    let how = SubstOptions {
        global: true,
        extended: true,
        ..SubstOptions::PLAIN
    };
    rewritten(alloc, text, pattern, &how, b"\\u${first:-N.N.} \\u$last")
}

fn is_done(done: &Substituted, text: &[u8], count: u64) -> bool {
    done.text.bytes() == text && done.count == count
}

#[test]
fn texts_are_rewritten(rt: HostRuntime) -> Result<(), Fail> {
    let dates = turned_dates(rt.alloc(), b"from 2025-11-28 to 2026-11-28!")?;
    assert!(&rt; is_done(&dates, b"from 28.11.2025 to 28.11.2026!", 2));
    let names = proper_names(rt.alloc(), b"lovelace, ada; turing,; hopper, grace")?;
    assert!(&rt; is_done(&names, b"Ada Lovelace; N.N. Turing; Grace Hopper", 3));
    Ok(())
}
