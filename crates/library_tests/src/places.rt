//! The groups of first matches, and what is told of patterns and errors. The answers are those of the
//! C library, 10.42.
ghost use Rattle.std.specs.Prelude.{◌<◌, length};

use crate::rows::parts;
use pcre2_api::{
    Code, CompileError, Found, MatchError, MatchOptions, NoCallouts, Options, Scratch, Span,
    fault_text,
};
use std::alloc::{AllocError, Global};
use std::process::Abort;
use std::test::Fail;

/// A pattern, a subject, and the texts of the groups of its first match up to the greatest set one,
/// each with a bar after it and `~` for an unset one, or why there is no match.
type Row = &'static str;

/// The options of a match, its start, and a row.
type Case = (MatchOptions, usize, Row);

const PLAIN: MatchOptions = MatchOptions::PLAIN;

// What is told of a match, as in a row.
fn told(
    alloc: Global,
    code: &Code,
    subject: &[u8],
    start: usize,
    options: &MatchOptions,
) -> Result<Vec<u8>, AllocError>
    requires short { length subject.now < 1000 }
{
    let mut scratch = Scratch::new(alloc);
    let mut text = Vec::new(alloc);
    match code.match_at(subject, start, options, &mut scratch, &mut NoCallouts) {
        Ok(found) => {
            for n in 0..=found.top() {
                text.extend_from_slice(found.group(n).unwrap_or(b"~"))?;
                text.push(b'|')?;
            }
        }
        Err(e) => text.extend_from_slice(e.text())?,
    }
    Ok(text)
}

fn is_told_by(
    alloc: Global,
    code: &Code,
    subject: &[u8],
    start: usize,
    options: &MatchOptions,
    answer: &str,
) -> Result<bool, Fail> {
    if subject.len() >= 1000 {
        return Ok(false);
    }
    let told = told(alloc, code, subject, start, options)?;
    Ok(told.as_slice() == answer.as_bytes())
}

fn is_told(alloc: Global, start: usize, options: &MatchOptions, row: Row) -> Result<bool, Fail> {
    let (pattern, subject, answer) = parts(row);
    let code = Code::compile(alloc, pattern.as_bytes(), Options::PLAIN)?;
    is_told_by(alloc, &code, subject.as_bytes(), start, options, answer)
}

fn check_all(rt: &impl Abort, alloc: Global, rows: &[Row]) -> Result<(), Fail> {
    for row in rows {
        let is_told = is_told(alloc, 0, &PLAIN, row)?;
        assert!(rt; is_told);
    }
    Ok(())
}

fn check_cases(rt: &impl Abort, alloc: Global, cases: &[Case]) -> Result<(), Fail> {
    for (options, start, row) in cases {
        let is_told = is_told(alloc, *start, options, row)?;
        assert!(rt; is_told);
    }
    Ok(())
}

#[test]
fn common_patterns_match(rt: HostRuntime) -> Result<(), Fail> {
    static ROWS: [Row; 24] = [
        "colou?r :: the color :: color|",
        "colou?r :: colour :: colour|",
        "colou?r :: colr :: no match",
        "colou?r :: ccolor :: color|",
        "(a)(b)?c :: ac :: ac|a|",
        "(a)(b)?c :: abc :: abc|a|b|",
        "(a)(b)?c :: xxabc :: abc|a|b|",
        "(a)(b)?c :: b :: no match",
        "(?:ab)*c :: ababc :: ababc|",
        "(?:ab)*c :: c :: c|",
        "(?:ab)*c :: abab :: no match",
        "(a*)* :: aab :: aa||",
        "(a*)* :: b :: ||",
        "(a*)+ :: aab :: aa||",
        "(a*)+ :: b :: ||",
        r"foo\Kbar :: foobar :: bar|",
        r"foo\Kbar :: foo :: no match",
        r"(\w+)@(\w+)\.com :: me@site.com :: me@site.com|me|site|",
        r"(\w+)@(\w+)\.com :: x me@site.org you@other.com :: you@other.com|you|other|",
        r"(\w+)@(\w+)\.com :: @.com :: no match",
        "[a-f0-9]{5}[0-9] :: abcdef12345 :: bcdef1|",
        "[a-f0-9]{5}[0-9] :: abcde :: no match",
        "[a-f0-9]{5}[0-9] :: 12a456 :: 12a456|",
        r"^\s*fn\s+(\w+) :: fn main :: fn main|main|",
    ];
    check_all(&rt, rt.alloc(), &ROWS)
}

#[test]
fn long_first_runs_are_found(rt: HostRuntime) -> Result<(), Fail> {
    static ROWS: [Row; 14] = [
        r"(\w+)@(\w+)\.com :: a bc def ghij :: no match",
        r"(\w+)@(\w+)\.com :: a bc @ .com de@f.com :: de@f.com|de|f|",
        r"\w{3,}@ :: ab@ cd ef@ ghi@ :: ghi@|",
        r"\w{3,}@ :: ab@ abcd@ :: abcd@|",
        r"\w{3,}@ :: ab@ abc :: no match",
        r"\w*@ :: ab cd@ :: cd@|",
        r"\w*@ :: ab @ :: @|",
        r"\d+,x :: 1 22,y 3,x :: 3,x|",
        "[a-f0-9]{5}[0-9] :: 12g34 567xabcde9 :: abcde9|",
        "[a-f0-9]{5}[0-9] :: abcd abcde abcdef abcd5 :: no match",
        r"\d{3} :: 12 34 567 :: 567|",
        r"\d{3} :: 12 34 56 :: no match",
        r"(\d{2,3})- :: 1- 12 x123- :: 123-|123|",
        r"(?:\d{2}) ;|(\d) :: 1 2 ; :: 1|1|",
    ];
    check_all(&rt, rt.alloc(), &ROWS)
}

#[test]
fn captures_and_references_match(rt: HostRuntime) -> Result<(), Fail> {
    static ROWS: [Row; 24] = [
        r"^\s*fn\s+(\w+) :: fn :: no match",
        r"^\s*fn\s+(\w+) :: let fn x :: no match",
        "(a|ab)(c|bcd)(d*) :: abcd :: abcd|a|bcd||",
        "(a|ab)(c|bcd)(d*) :: acd :: acd|a|c|d|",
        "(a|ab)(c|bcd)(d*) :: abd :: no match",
        "(a+|b)*?c :: aabac :: aabac|a|",
        "(a+|b)*?c :: c :: c|",
        "(a+|b)*?c :: aab :: no match",
        "(?:(a)|b)* :: aba :: aba|a|",
        "(?:(a)|b)* :: bb :: bb|",
        "(?:(a)|b)* :: c :: |",
        "(a)|(b) :: a :: a|a|",
        "(a)|(b) :: b :: b|~|b|",
        "(a)|(b) :: c :: no match",
        "^(.)(.)?$ :: a :: a|a|",
        "^(.)(.)?$ :: ab :: ab|a|b|",
        "^(.)(.)?$ :: abc :: no match",
        r"(.)\1 :: abba :: bb|b|",
        r"(.)\1 :: abc :: no match",
        r"(.)\1 :: aa :: aa|a|",
        r"(a)(b)\2\1 :: abba :: abba|a|b|",
        r"(a)(b)\2\1 :: abab :: no match",
        r"(a)?\1b :: aab :: aab|a|",
        r"(a)?\1b :: b :: no match",
    ];
    check_all(&rt, rt.alloc(), &ROWS)
}

#[test]
fn quantifiers_and_classes_match(rt: HostRuntime) -> Result<(), Fail> {
    static ROWS: [Row; 24] = [
        r"(a)?\1b :: ab :: no match",
        "a{2,3} :: a :: no match",
        "a{2,3} :: aa :: aa|",
        "a{2,3} :: aaaa :: aaa|",
        "a{2,3}?b :: aaab :: aaab|",
        "a{2,3}?b :: ab :: no match",
        "a{,2} :: a{,2} :: a|",
        "a{ 1 , 2 }b :: aaab :: aab|",
        "x{0}y :: xy :: y|",
        "x{0}y :: y :: y|",
        "[^a-c]+ :: abcdef :: def|",
        "[^a-c]+ :: abc :: no match",
        "[^a-c]+ ::  :: no match",
        "[[:digit:]]+ :: ab123c :: 123|",
        "[[:digit:]]+ :: abc :: no match",
        r"[\w-]+ :: -a_b- :: -a_b-|",
        r"[\w-]+ :: ! :: no match",
        "[]a]+ :: a]]b :: a]]|",
        "[]a]+ :: b :: no match",
        r"[a\]]+ :: a]]b :: a]]|",
        r"[a\]]+ :: b :: no match",
        r"\bfoo\b :: foo :: foo|",
        r"\bfoo\b :: a foo b :: foo|",
        r"\bfoo\b :: food :: no match",
    ];
    check_all(&rt, rt.alloc(), &ROWS)
}

#[test]
fn assertions_and_settings_match(rt: HostRuntime) -> Result<(), Fail> {
    static ROWS: [Row; 24] = [
        r"\Bo :: foo :: o|",
        r"\Bo :: o :: no match",
        r"\d+\D+\d+ :: 12ab34 :: 12ab34|",
        r"\d+\D+\d+ :: 1234 :: no match",
        r"\Aab :: ab :: ab|",
        r"\Aab :: xab :: no match",
        r"ab\z :: ab :: ab|",
        r"ab\z :: abx :: no match",
        r"ab\Z :: ab :: ab|",
        r"ab\Z :: xab :: ab|",
        "(?i)AbC :: xABC :: ABC|",
        "(?i)AbC :: abd :: no match",
        "(?i:a)b :: Ab :: Ab|",
        "(?i:a)b :: AB :: no match",
        "a(?i)b|c :: aB :: aB|",
        "a(?i)b|c :: C :: C|",
        "a(?i)b|c :: A :: no match",
        "(?x) a b # c :: ab :: ab|",
        "(?x) a b # c :: a b :: no match",
        "(?s)a.b :: axb :: axb|",
        "(?U)a+ :: aaa :: a|",
        "(?U)a+? :: aaa :: aaa|",
        r"(?<n>a)(?<m>b)\k<n> :: aba :: aba|a|b|",
        r"(?<n>a)(?<m>b)\k<n> :: abb :: no match",
    ];
    check_all(&rt, rt.alloc(), &ROWS)
}

#[test]
fn names_escapes_and_empty_branches_match(rt: HostRuntime) -> Result<(), Fail> {
    static ROWS: [Row; 24] = [
        r"(?J)(?:(?<n>foo)|(?<n>bar))\k<n> :: barbar :: barbar|~|bar|",
        r"(?J)(?:(?<n>foo)|(?<n>bar))\k<n> :: foofoo :: foofoo|foo|",
        r"(?J)(?:(?<n>foo)|(?<n>bar))\k<n> :: foobar :: no match",
        r"\x41\102\o{103} :: ABC :: ABC|",
        r"\x41\102\o{103} :: abc :: no match",
        r"\Qa.b\E+ :: a.bbb :: a.bbb|",
        r"\Qa.b\E+ :: axb :: no match",
        r"\N+ :: abc :: abc|",
        "a|b| :: b :: b|",
        "a|b| :: c :: |",
        "a|b| ::  :: |",
        "(|a)+ :: aaa :: ||",
        "(|a)+ :: b :: ||",
        "(a|)+b :: aab :: aab||",
        "(a|)+b :: b :: b||",
        "((a)|(b))* :: ab :: ab|b|a|b|",
        "((a)|(b))* :: ba :: ba|a|a|b|",
        "((((a)))) :: a :: a|a|a|a|a|",
        "(?:a(b)?)* :: abaab :: abaab|b|",
        "(?:a(b)?)* :: a :: a|",
        "(x)*?y :: xxy :: xxy|x|",
        "(x)*?y :: y :: y|",
        ".*b :: aabab :: aabab|",
        ".*b :: aaa :: no match",
    ];
    check_all(&rt, rt.alloc(), &ROWS)
}

#[test]
fn repeats_and_ends_match(rt: HostRuntime) -> Result<(), Fail> {
    static ROWS: [Row; 24] = [
        ".*?b :: aabab :: aab|",
        ".*?b :: aaa :: no match",
        "^ :: a :: |",
        "^ ::  :: |",
        "$ :: a :: |",
        "$ ::  :: |",
        "a$ :: ba :: a|",
        "a$ :: ab :: no match",
        "^.*$ :: abc :: abc|",
        "^.*$ ::  :: |",
        "[a-z]+?[0-9] :: abc1 :: abc1|",
        "[a-z]+?[0-9] :: ABC1 :: no match",
        "(ab|cd){2}(e)? :: abcde :: abcde|cd|e|",
        "(ab|cd){2}(e)? :: cdab :: cdab|ab|",
        "(ab|cd){2}(e)? :: ab :: no match",
        r"\/ :: a/b :: /|",
        r"(\d+)-(\d+) :: 12-34 :: 12-34|12|34|",
        r"(\d+)-(\d+) :: 1- :: no match",
        "([a-c]+)([b-d]+) :: abcd :: abcd|abc|d|",
        "([a-c]+)([b-d]+) :: ad :: ad|a|d|",
        r"[\x00-\x20] :: a b ::  |",
        r"[\x00-\x20] :: ab :: no match",
        "(?:) :: a :: |",
        r"\Ga :: ba :: no match",
    ];
    check_all(&rt, rt.alloc(), &ROWS)
}

const NOT_BOL: MatchOptions = MatchOptions {
    notbol: true,
    ..PLAIN
};

const NOT_EOL: MatchOptions = MatchOptions {
    noteol: true,
    ..PLAIN
};

const NOT_EMPTY: MatchOptions = MatchOptions {
    notempty: true,
    ..PLAIN
};

const NOT_AT_START: MatchOptions = MatchOptions {
    notempty_atstart: true,
    ..PLAIN
};

const ANCHORED: MatchOptions = MatchOptions {
    anchored: true,
    ..PLAIN
};

const AT_END: MatchOptions = MatchOptions {
    endanchored: true,
    ..PLAIN
};

const FEW_STEPS: MatchOptions = MatchOptions {
    match_limit: 1000,
    ..PLAIN
};

const FEW_UNITS: MatchOptions = MatchOptions {
    frame_limit: 10,
    ..PLAIN
};

#[test]
fn matches_go_by_their_options(rt: HostRuntime) -> Result<(), Fail> {
    static CASES: [Case; 16] = [
        (PLAIN, 1, "a+ :: aab :: a|"),
        (PLAIN, 3, "a+ :: aab :: no match"),
        (PLAIN, 1, "a+ :: baa :: aa|"),
        (PLAIN, 1, "^a :: aa :: no match"),
        (PLAIN, 1, r"\Ga :: ba :: a|"),
        (NOT_BOL, 0, "^a :: a :: no match"),
        (NOT_EOL, 0, "a$ :: a :: no match"),
        (NOT_EMPTY, 0, "a* :: b :: no match"),
        (NOT_EMPTY, 0, "a* :: ba :: a|"),
        (NOT_AT_START, 0, "a* :: ba :: a|"),
        (NOT_AT_START, 0, "a* :: b :: |"),
        (ANCHORED, 0, "a :: ba :: no match"),
        (ANCHORED, 0, "a :: ab :: a|"),
        (AT_END, 0, "a|ab :: ab :: ab|"),
        (AT_END, 0, "a :: ab :: no match"),
        (AT_END, 0, "a+? :: aa :: aa|"),
    ];
    check_cases(&rt, rt.alloc(), &CASES)
}

#[test]
fn each_error_has_its_meaning(rt: HostRuntime) -> Result<(), Fail> {
    static CASES: [Case; 5] = [
        (PLAIN, 0, "b :: aaaaaaaaaaaaaaaaaaaaaaaa :: no match"),
        (PLAIN, 25, "a :: aaaaaaaaaaaaaaaaaaaaaaaa :: bad offset"),
        (PLAIN, 3, "(a)? :: ab :: bad offset"),
        (
            FEW_STEPS,
            0,
            "(a+)+[bc] :: aaaaaaaaaaaaaaaaaaaaaaaa :: match limit exceeded",
        ),
        (
            FEW_UNITS,
            0,
            "(a|b)*c :: aaaaaaaaaaaaaaaaaaaaaaaa :: frame limit exceeded",
        ),
    ];
    check_cases(&rt, rt.alloc(), &CASES)
}

/// A pattern, the number of its fault, and the fault's place.
type Refusal = (&'static [u8], i32, usize);

fn refused(rt: &impl Abort, alloc: Global, rows: &[Refusal]) -> Result<(), Fail> {
    for row in rows {
        let (pattern, number, at) = *row;
        let fault = Code::compile(alloc, pattern, Options::PLAIN).err();
        assert!(rt; fault == Some(CompileError::Bad { number, at }));
    }
    Ok(())
}

#[test]
fn patterns_are_refused_at_their_faults(rt: HostRuntime) -> Result<(), Fail> {
    static ROWS: [Refusal; 10] = [
        (b"(?<year>\\d{4}", 114, 13),
        (b"a(", 114, 2),
        (b"a{3,1}", 104, 1),
        (b"[z-a]", 108, 1),
        (b"(?<n>a)(?<n>b)", 143, 7),
        (b"a**", 109, 2),
        (b"(a)\\2", 115, 3),
        (b"x\\X", 195, 1),
        (b"a)", 122, 1),
        (b"[a", 106, 2),
    ];
    refused(&rt, rt.alloc(), &ROWS)
}

#[test]
fn lookbehinds_are_refused_at_their_parentheses(rt: HostRuntime) -> Result<(), Fail> {
    static ROWS: [Refusal; 19] = [
        (b"(?<=(?1))(a+)", 125, 0),
        (b"a(?<!(?1))b(c|d+)", 125, 1),
        (b"(a)(?1)\\1(?<=b+)c", 125, 9),
        (b"(?<=a+)b", 125, 0),
        (b"(?<=ab|c*)d", 125, 0),
        (b"(?<*a|b+)c", 125, 0),
        (b"(a+)(?<=\\1)b", 125, 4),
        (b"(?<=a)(?<!b+)c", 125, 6),
        (b"(?<=(?<=a+)b)c", 125, 4),
        (b"(?<=(?<!a+)b)c", 125, 4),
        (b"(?<=a{65535}b)c", 187, 0),
        (b"(?<=a{65535}b|c+)d", 187, 0),
        (b"(?<=a{65535}|b+)c", 125, 0),
        (b"(?<=a{1,256})b", 187, 0),
        (b"(?<=a{2,300}|b+)c", 187, 0),
        (b"(?<=b+|a{2,300})c", 125, 0),
        (b"(?<=a+)b(", 114, 9),
        (b"(?<=(a*))b)", 122, 10),
        (b"(?<=", 114, 4),
    ];
    refused(&rt, rt.alloc(), &ROWS)
}

// The C library tells the place past a word, the inner of two lookbehinds, and the lookbehind before the reference.
#[test]
fn the_leftmost_lookbehind_is_told_last(rt: HostRuntime) -> Result<(), Fail> {
    static ROWS: [Refusal; 4] = [
        (b"a(*nlb:b*)c", 125, 1),
        (b"(?<=(?<=b{1,2})a+)c", 125, 0),
        (b"(?<=(?<!b*)a|c+)d", 125, 0),
        (b"(?<=(a*))b\\2", 115, 10),
    ];
    refused(&rt, rt.alloc(), &ROWS)
}

static NAMES: [(&[u8], Option<&[u8]>); 3] = [(b"n", Some(b"bar")), (b"m", None), (b"other", None)];

fn are_named(found: &Found<'_>) -> bool {
    for (name, text) in &NAMES {
        if found.group_named(name) != *text {
            return false;
        }
    }
    true
}

fn is_at_bar(found: &Found<'_>) -> bool {
    let bar = Span { from: 2, to: 5 };
    let is_there = (found.start(), found.end(), found.top()) == (2, 5, 2);
    is_there && found.span(2) == Some(bar) && found.span(4).is_none() && found.mark().is_none()
}

fn finds_bar(alloc: Global, code: &Code) -> Result<bool, Fail> {
    let mut scratch = Scratch::new(alloc);
    match code.match_at(b"a bar", 0, &PLAIN, &mut scratch, &mut NoCallouts) {
        Ok(found) => Ok(are_named(&found) && is_at_bar(&found)),
        Err(e) => Err(Fail::from(e)),
    }
}

fn groups_are_named(alloc: Global) -> Result<bool, Fail> {
    let pattern = b"(?J)(?:(?<n>foo)|(?<n>bar))(?<m>x)?";
    let code = Code::compile(alloc, pattern, Options::PLAIN)?;
    finds_bar(alloc, &code)
}

#[test]
fn groups_are_found_by_name(rt: HostRuntime) -> Result<(), Fail> {
    let are_named = groups_are_named(rt.alloc())?;
    assert!(&rt; are_named);
    Ok(())
}

fn is_told_of(code: &Code) -> bool {
    let info = code.info();
    (info.groups, info.max_lookbehind, info.can_be_empty) == (1, 1, true)
        && code.mark_name(0).is_none()
        && code.first_byte().is_none()
        && !code.options().anchored
}

#[test]
fn a_pattern_tells_of_itself(rt: HostRuntime) -> Result<(), Fail> {
    let code = Code::compile(rt.alloc(), b"(?i)\\b(a)?", Options::PLAIN)?;
    assert!(&rt; is_told_of(&code));
    Ok(())
}

#[test]
fn a_first_byte_is_told(rt: HostRuntime) -> Result<(), Fail> {
    let code = Code::compile(rt.alloc(), b"(cat|cow|coyote)s?", Options::PLAIN)?;
    assert!(&rt; code.first_byte() == Some(b'c'));
    Ok(())
}

#[test]
fn the_greatest_branch_of_a_lookbehind_is_told(rt: HostRuntime) -> Result<(), Fail> {
    static ROWS: [(&'static [u8], u32); 7] = [
        (b"(?<=ab|c)d", 2),
        (b"(?<=a{1,3}|b)(?<!c?)d", 3),
        (b"(?<=a?)b(?<=\\R)", 2),
        (b"(?<=(?<!a{2,255})b)c", 255),
        (b"(?<=(?1))b(c|dd)", 2),
        (b"(?<=a{0})b", 0),
        (b"\\b(?<=a{0})b", 1),
    ];
    for (pattern, most) in &ROWS {
        let code = Code::compile(rt.alloc(), pattern, Options::PLAIN)?;
        assert!(&rt; code.info().max_lookbehind == *most);
    }
    Ok(())
}

#[test]
fn match_errors_have_numbers_and_texts(rt: HostRuntime) -> Result<(), Fail> {
    static FAULTS: [(i32, &[u8]); 2] = [
        (114, b"missing closing parenthesis"),
        (-8, b"invalid UTF-8 in pattern"),
    ];
    static ROWS: [(MatchError, i32, &'static [u8]); 6] = [
        (MatchError::BadOffset, -33, b"bad offset"),
        (
            MatchError::BadUtfOffset,
            -36,
            b"offset is not at a character",
        ),
        (MatchError::Callout(7), -37, b"error in callout"),
        (MatchError::MatchLimit, -47, b"match limit exceeded"),
        (MatchError::RecurseLoop, -52, b"recursion at the same place"),
        (MatchError::FrameLimit, -63, b"frame limit exceeded"),
    ];
    for (number, text) in &FAULTS {
        assert!(&rt; fault_text(*number) == *text);
    }
    for row in &ROWS {
        assert!(&rt; row.0.number() == row.1 && row.0.text() == row.2);
    }
    Ok(())
}
