//! What searches find with branch resets (pcre2pattern, "Duplicate group numbers"). The answers are
//! those of the C library, 10.42.
ghost use Rattle.std.specs.Prelude.{◌<◌, length};

use pcre2_api::{Code, Found, MatchError, MatchOptions, NoCallouts, Options, Scratch};
use std::alloc::{AllocError, Global};
use std::process::Abort;
use std::test::Fail;

/// A pattern, ` on `, a subject, ` => `, and the places of the first match and of the groups that are
/// set in it, as `0-3 1:0-2`, or `no`.
type Row = &'static str;

fn push_groups(text: &mut String, found: &Found<'_>) -> Result<(), AllocError> {
    for n in 1..=found.top() {
        if let Some(span) = found.span(n) {
            write!(text, " {n}:{}-{}", span.from, span.to)?;
        }
    }
    Ok(())
}

fn push_match(text: &mut String, found: &Found<'_>) -> Result<(), AllocError> {
    write!(text, "{}-{}", found.start(), found.end())?;
    push_groups(text, found)
}

// What is told of the first match, as in a row.
fn told(alloc: Global, code: &Code, subject: &[u8], scratch: &mut Scratch) -> Result<String, Fail>
    requires short { length subject.now < 1000 }
{
    let mut text = String::new(alloc);
    match code.match_at(subject, 0, &MatchOptions::PLAIN, scratch, &mut NoCallouts) {
        Ok(found) => push_match(&mut text, &found)?,
        Err(MatchError::NoMatch { .. }) => text.push_str("no")?,
        Err(e) => return Err(e.into()),
    }
    Ok(text)
}

fn is_told_by(
    alloc: Global,
    code: &Code,
    subject: &[u8],
    expected: &str,
    scratch: &mut Scratch,
) -> Result<bool, Fail> {
    if subject.len() >= 1000 {
        return Ok(false);
    }
    let told = told(alloc, code, subject, scratch)?;
    Ok(told.as_str() == expected)
}

fn is_told(alloc: Global, row: Row, scratch: &mut Scratch) -> Result<bool, Fail> {
    let (head, expected) = row.split_once(" => ").unwrap_or((row, ""));
    let (pattern, subject) = head.split_once(" on ").unwrap_or((head, ""));
    let code = Code::compile(alloc, pattern.as_bytes(), Options::PLAIN)?;
    is_told_by(alloc, &code, subject.as_bytes(), expected, scratch)
}

fn check_all(rt: &impl Abort, alloc: Global, rows: &[Row]) -> Result<(), Fail> {
    let mut scratch = Scratch::new(alloc);
    for row in rows {
        let is_told = is_told(alloc, row, &mut scratch)?;
        assert!(rt; is_told, "{row}");
    }
    Ok(())
}

const GROUPS_OF_BRANCH_RESETS_SHARE_NUMBERS: &[Row] = &[
    "(?|(a)|(b))(c) on bc => 0-2 1:0-1 2:1-2",
    "(?|(a)|(b))(c) on ac => 0-2 1:0-1 2:1-2",
    "(?|(a)(b)|(c))(d) on abd => 0-3 1:0-1 2:1-2 3:2-3",
    "(?|(a)(b)|(c))(d) on cd => 0-2 1:0-1 3:1-2",
    "(?|(a)|(b)(c))(d) on ad => 0-2 1:0-1 3:1-2",
    "(?|a|(b))(c) on ac => 0-2 2:1-2",
    r"(?|(a)|(b))\1 on abb => 1-3 1:1-2",
    r"(?|(a)|(b))\1 on ab => no",
    r"(?|(a)(x)?|(b))\2?c on axxc => 0-4 1:0-1 2:1-2",
    "(?|(?|(a)|(b))|(?|(c)(d)|(e)))(f) on bf => 0-2 1:0-1 3:1-2",
    "(?|(?|(a)|(b))|(?|(c)(d)|(e)))(f) on cdf => 0-3 1:0-1 2:1-2 3:2-3",
    r"(x)(?|(a)|(b))\2\g{-1} on xbbb => 0-4 1:0-1 2:1-2",
    r"(x)(?|(a)|(b))\2\g{-1} on xabb => no",
    "(?|(a)|(b)){2}(c) on abc => 0-3 1:1-2 2:2-3",
    r"(?|(?<n>a)|(?<n>b))\k<n> on bb => 0-2 1:0-1",
    r"(?|(?<n>a)|(b))(?<m>c)\k<n>\k<m> on bcbc => 0-4 1:0-1 2:1-2",
    "(?|(a)|(b))(?(1)c|d) on bc => 0-2 1:0-1",
    "(?|(a)|(b))(?(1)c|d) on ad => no",
    "(?|(a)|b)(?(1)c|d) on bd => 0-2",
    r"(?|(a+)|(b+))+\1c on aabbbc => 0-6 1:3-4",
    "(?>(?|(a)|(ab)))c on abc => no",
    r"(?=(?|(a)b|(ab)c))\1 on abc => 0-1 1:0-1",
    r"(?<=(?|(a)|(b)))c\1 on bcb => 1-3 1:0-1",
    "(?|a(.)b|d(.)o|h(.)l)(.) on hello => 0-4 1:1-2 2:3-4",
    "(?i)(?|(a)|(b(?-i)c))(d) on BcD => 0-3 1:0-2 2:2-3",
    r"(?n)(?|(a)|(?<n>b))\1 on bb => 0-2 1:0-1",
    "(?|(a)|(b)|(c)(d)|)(e) on e => 0-1 3:0-1",
    r"(a)(?|(b)(c)|(d))(e)\4 on abcee => 0-5 1:0-1 2:1-2 3:2-3 4:3-4",
    r"(a)(?|(b)(c)|(d))(e)\4 on adee => 0-4 1:0-1 2:1-2 4:2-3",
    "(?(?=a)(?|(a)|(b))|(?|(c)|(d)))(e) on de => 0-2 2:0-1 3:1-2",
    r"(?|(?(?=(a))a|b)|(c))\1 on aa => 0-2 1:0-1",
    "(?|(a(?|(b)|(c))d)|(e))(f) on acdf => 0-4 1:0-3 2:1-2 3:3-4",
];

#[test]
fn groups_of_branch_resets_share_numbers(rt: HostRuntime) -> Result<(), Fail> {
    check_all(&rt, rt.alloc(), GROUPS_OF_BRANCH_RESETS_SHARE_NUMBERS)
}

const NAMES_OF_BRANCH_RESETS: &[Row] = &[
    "(?|(?<n>a)|(?<n>b))(?(<n>)c|d) on bc => 0-2 1:0-1",
    "(?|(?<n>a)|(?<n>b))?(?(<n>)c|d) on d => 0-1",
    r"(?|(?<n>a)(x)|(?<n>b))\k<n>\2?c on bbc => 0-3 1:0-1",
    r"(?J)(?|(?<n>a)|(?<n>b))(?<n>c)?\k<n> on bb => 0-2 1:0-1",
    r"(?J)(?|(?<n>a)|(b))(?<n>c)\k<n> on bcb => 0-3 1:0-1 2:1-2",
    r"(?J)(?|(?<n>a)|(b))(?<n>c)\k<n> on bcc => no",
    r"(?J)(?|(?<n>a)(?<m>b)|(?<n>c)(?<m>d))\k<m>\k<n> on cddc => 0-4 1:0-1 2:1-2",
    r"(?J)(?|(?<n>a)(b)|(c)(?<n>d))\k<n>e on cdde => no",
    r"(?J)(?:(?<n>a)|(?|(?<m>b)|(?<m>c)))\g{m} on cc => 0-2 2:0-1",
    r"(?=(?|(?<n>a)|(?<n>b))c)\w\w(?!\k<n>) on bcbca => 2-4 1:2-3",
    "(?|(?'n'a+)|(?P<n>b+))(?P=n) on abbbb => 1-5 1:1-3",
];

#[test]
fn names_of_branch_resets(rt: HostRuntime) -> Result<(), Fail> {
    check_all(&rt, rt.alloc(), NAMES_OF_BRANCH_RESETS)
}
