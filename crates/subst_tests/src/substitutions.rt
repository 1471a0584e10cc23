//! Substitutions. The rows are those of pcre2test 10.42, but that the faults of a replacement come
//! before any search, that an empty replacement is one, that CRLF is no newline under NUL, and that a
//! name may have 128 bytes, in UTF of letters past ASCII.
ghost use Rattle.std.specs.Prelude.{◌<◌, length};

use pcre2_api::{
    Code, MatchOptions, Options, PartialMode, Scratch, SubstError, SubstOptions, Substituted,
};
use std::alloc::Global;
use std::process::Abort;
use std::test::Fail;

/// A pattern, options (g global, x extended, l literal, e unset groups are empty, n unknown groups
/// are unset, o the replacements alone), a replacement, a subject, and what becomes of it: the number
/// of replacements and the text, or why it is refused.
#[derive(Clone, Copy)]
struct Row<'a> {
    pattern: &'a [u8],
    letters: &'a str,
    replacement: &'a [u8],
    subject: &'a [u8],
    answer: &'a [u8],
}

/// A row whose parts have ` :: ` between them.
type Line = &'static str;

const PLAIN: MatchOptions = MatchOptions::PLAIN;

/// The first match alone.
const FIRST: &[Line] = &[
    "b :: - :: <$0> :: abcb :: 1 a<b>cb",
    "b :: - ::  :: abc :: 1 ac",
    "x :: - :: y :: abc :: 0 abc",
    " :: - :: - :: abc :: 1 -abc",
    " :: - :: - ::  :: 1 -",
    "abc :: - :: $0$0 :: abc :: 1 abcabc",
    "(a)(b) :: - :: $2$1 :: xaby :: 1 xbay",
    r"(\d+)-(\d+) :: - :: $2:$1 :: 12-34 :: 1 34:12",
    r"(?<y>\d+)-(?<m>\d+) :: - :: $m/${y} :: on 2026-11 and 2025-12 :: 1 on 11/2026 and 2025-12",
    "a|(b) :: - :: $1 :: a :: Unset",
    "(a)|(b) :: - :: $2 :: a :: Unset",
    "(a)|(b) :: - :: $1 :: a :: 1 a",
    "b :: - :: $1 :: abc :: NoGroup",
    "b :: - :: $name :: abc :: NoGroup",
    "b :: - :: $ :: abc :: BadReplacement",
    "b :: - :: ${1 :: abc :: MissingBrace",
    "b :: - :: ${1x} :: abc :: MissingBrace",
    "b :: x :: ${1:=x} :: abc :: BadSyntax",
    r"b :: x :: \i :: abc :: BadEscape",
    "x :: - :: $ :: abc :: BadReplacement",
    "x :: - :: $9 :: abc :: 0 abc",
    r"a\Kb :: - :: - :: ab :: 1 a-",
    "(?=b) :: - :: - :: ab :: 1 a-b",
    "$ :: - :: E :: abc :: 1 abcE",
    "^ :: - :: B :: abc :: 1 Babc",
    "c$ :: - :: - :: abc :: 1 ab-",
    r"(a)(x)? :: x :: \u$1${2:-none} :: abc :: 1 Anonebc",
    "(a)(x)? :: x :: ${2:+yes:no} :: abc :: 1 nobc",
    r"(a)(x)? :: x :: ${2:-\U$1}b :: abc :: 1 ABbc",
    "(a)(x)? :: - :: $2 :: abc :: Unset",
    "(a)(x)? :: e :: {$2 :: abc :: 1 {bc",
    "(a)(x)? :: n :: $3 :: abc :: Unset",
    "(a)(x)? :: ne :: <$3> :: abc :: 1 <>bc",
    r"b :: l :: $0\U :: abc :: 1 a$0\Uc",
    r"b :: lx :: $0\U :: abc :: 1 a$0\Uc",
    "b :: o :: <$0> :: abc :: 1 <b>",
    "x :: o :: <$0> :: abc :: 0 ",
    "(?J)(?<n>a)|(?<n>b) :: - :: <$n> :: b :: 1 <b>",
    "(?J)(?<n>a)|(?<n>b)|c :: - :: <$n> :: c :: Unset",
    "(?J)(?<n>a)|(?<n>b)|c :: e :: <$n> :: c :: 1 <>",
    r"(?i)b :: x :: \l$0\u$0 :: aBc :: 1 abBc",
    "(?<a23456789012345678901234567890123456789012345678901234567890123456789012345678901\
     23456789012345678901234567890123456789012345678>b) :: - :: <${a234567890123456789012\
     345678901234567890123456789012345678901234567890123456789012345678901234567890123456\
     7890123456789012345678}> :: abc :: 1 a<b>c",
];

/// All matches, among them empty ones.
const ALL: &[Line] = &[
    "b :: g :: x :: abcb :: 2 axcx",
    "b :: g ::  :: abcb :: 2 ac",
    "b :: go :: x :: abcb :: 2 xx",
    "b :: g :: $0$0 :: abcb :: 2 abbcbb",
    "x* :: g :: - :: abc :: 4 -a-b-c-",
    "x* :: g :: - :: abxd :: 5 -a-b--d-",
    "b* :: g :: <$0> :: abb :: 3 <>a<bb><>",
    "b* :: g :: <$0> :: abbcb :: 5 <>a<bb><>c<b><>",
    " :: g :: - :: abc :: 4 -a-b-c-",
    " :: g :: - ::  :: 1 -",
    "(?<=a)|b :: g :: <$0> :: aabb :: 4 a<>a<><b><b>",
    r"a\Kb? :: g :: - :: aab :: 2 a-a-",
    r"a\K :: g :: - :: aab :: 2 a-a-b",
    "$ :: g :: E :: abc :: 1 abcE",
    "(?m)^ :: g :: > :: a\nb\n :: 2 >a\n>b\n",
    "(?m)$ :: g :: < :: a\nb\n :: 3 a<\nb<\n<",
    "(*CRLF)(?m)^ :: g :: > :: a\r\nb\r\n :: 2 >a\r\n>b\r\n",
    "(*CRLF)x* :: g :: . :: a\r\nb :: 4 .a.\r\n.b.",
    "(*ANYCRLF)x* :: g :: . :: a\r\nb\rc\nd :: 8 .a.\r\n.b.\r.c.\n.d.",
    "(*ANY)x* :: g :: . :: \r\n\n\r :: 4 .\r\n.\n.\r.",
    "(*LF)x* :: g :: . :: a\r\nb :: 5 .a.\r.\n.b.",
    "(*CR)x* :: g :: . :: \r\n :: 3 .\r.\n.",
    "(*CRLF)x* :: g :: . :: \r\r\n\n :: 4 .\r.\r\n.\n.",
    "(*NUL)x* :: g :: . :: \r\n :: 3 .\r.\n.",
    "(a)|(b) :: ge :: <$1$2> :: abc :: 2 <a><b>c",
    "(a)|(b) :: g :: <$1> :: aab :: Unset",
    "(a)|(b) :: gx :: ${1:-b} :: abc :: 2 abc",
    "(a)|(b) :: gx :: ${1:+A:B} :: abcab :: 4 ABcAB",
    r"\w+ :: gx :: \u\L$0 :: hELLO big WORLD :: 3 hello big world",
    r"\w+ :: gx :: \U$0 :: hello big world :: 3 HELLO BIG WORLD",
    r"(\w)(\w*) :: gx :: \U$1\E$2 :: hello big world :: 3 Hello Big World",
];

/// All matches, with what patterns and replacements are made of.
const FORMS: &[Line] = &[
    r"\w :: gx :: \u :: ab :: 2 ",
    r"a :: gx :: \Ub$0 :: xaxaX :: 2 xBAxBAX",
    r"(\w)\1 :: g :: ($1) :: aabbcdde :: 3 (a)(b)c(d)e",
    "(?|(a)|(b)) :: g :: <$1> :: abc :: 2 <a><b>c",
    "\\s+ :: g ::   :: a  b \t c  :: 3 a b c ",
    r"(?<w>\w+) :: go :: $w; :: one two three :: 3 one;two;three;",
    "^ :: g :: > :: abc :: 1 >abc",
    r"\G. :: g :: <$0> :: abc :: 3 <a><b><c>",
    r"\Ga :: g :: b :: aaba :: 2 bbba",
    r"\b :: g :: | :: ab cd :: 4 |ab| |cd|",
    r"\B :: g :: | :: abc :: 2 a|b|c",
    "(?=a) :: g :: - :: aba :: 2 -ab-a",
    "(?<=a) :: g :: - :: aba :: 2 a-ba-",
    "(?!a) :: g :: - :: aba :: 2 a-ba-",
    "a?? :: g :: - :: aa :: 5 -----",
    "(a?)(b?) :: g :: ($2$1) :: abba :: 4 (ba)(b)(a)()",
    ". :: g :: $$ :: abc :: 3 $$$",
    "[aeiou] :: g :: <$0> :: education :: 5 <e>d<u>c<a>t<i><o>n",
    "a{2} :: g :: x :: aaaaa :: 2 xxa",
    "aa? :: g :: x :: aaaaa :: 3 xxx",
    "x :: g :: y :: abc :: 0 abc",
    "x :: go :: y :: abc :: 0 ",
    "b :: gl :: $0 :: abcb :: 2 a$0c$0",
    "(b)|c :: g :: $1 :: abc :: Unset",
    "(b)|c :: ge :: <$1> :: abc :: 2 a<b><>",
    r"b :: gx :: ${0:+\:\}} :: abcb :: 2 a:}c:}",
    r"b :: gx :: \Q$0\U\E$0 :: abcb :: 2 a$0\Ubc$0\Ub",
    "b :: gx :: a\\tb\\x{41}\\n :: abc :: 1 aa\tbA\nc",
    "b|(x) :: gn :: $7 :: abc :: Unset",
    "b|(x) :: gne :: <$7> :: abc :: 1 a<>c",
    "(a)|b|(c) :: gx :: ${1:-${2:-none}} :: abc :: 3 anonec",
    "a(?=b)|(?<=b)c :: g :: - :: abcac :: 2 -b-ac",
    "(?s). :: g :: - :: \r\n :: 2 --",
    ". :: g :: - :: \r\na :: 2 -\n-",
    "\\R :: g :: N :: a\r\nb\nc\r :: 3 aNbNcN",
];

/// The part of a row that stands first, and the rest.
pub(crate) fn cut(line: &str) -> (&str, &str) {
    line.split_once(" :: ").unwrap_or((line, ""))
}

fn row_of(line: &str) -> Row<'_> {
    let (pattern, rest) = cut(line);
    let (letters, rest) = cut(rest);
    let (replacement, rest) = cut(rest);
    let (subject, answer) = cut(rest);
    Row {
        pattern: pattern.as_bytes(),
        letters,
        replacement: replacement.as_bytes(),
        subject: subject.as_bytes(),
        answer: answer.as_bytes(),
    }
}

/// The options that letters stand for.
fn how_of(letters: &str) -> SubstOptions {
    let letters = letters.as_bytes();
    SubstOptions {
        global: letters.contains(&b'g'),
        extended: letters.contains(&b'x'),
        literal: letters.contains(&b'l'),
        unset_empty: letters.contains(&b'e'),
        unknown_unset: letters.contains(&b'n'),
        replacement_only: letters.contains(&b'o'),
    }
}

fn text_of(alloc: Global, done: &Substituted) -> Result<Vec<u8>, Fail> {
    let count = format!(in alloc; "{} ", done.count)?;
    let mut text = count.as_bytes().to_vec(alloc)?;
    text.extend_from_slice(done.text.bytes())?;
    Ok(text)
}

fn error_text(alloc: Global, error: SubstError) -> Result<Vec<u8>, Fail> {
    let text = format!(in alloc; "{error:?}")?;
    Ok(text.as_bytes().to_vec(alloc)?)
}

// What becomes of the subject, as in a row.
fn told(
    alloc: Global,
    code: &Code,
    row: &Row<'_>,
    start: usize,
    options: &MatchOptions,
) -> Result<Vec<u8>, Fail>
    requires short { length row.now.subject.now < 1000 }
{
    let how = how_of(row.letters);
    let mut scratch = Scratch::new(alloc);
    match code.substitute(
        alloc,
        row.subject,
        start,
        options,
        &how,
        row.replacement,
        &mut scratch,
    ) {
        Ok(done) => text_of(alloc, &done),
        Err(e) => error_text(alloc, e),
    }
}

fn is_told_by(
    alloc: Global,
    code: &Code,
    row: &Row<'_>,
    start: usize,
    options: &MatchOptions,
) -> Result<bool, Fail> {
    if row.subject.len() >= 1000 {
        return Ok(false);
    }
    let told = told(alloc, code, row, start, options)?;
    Ok(told.as_slice() == row.answer)
}

fn is_told(
    alloc: Global,
    row: &Row<'_>,
    start: usize,
    options: &MatchOptions,
) -> Result<bool, Fail> {
    let code = Code::compile(alloc, row.pattern, Options::PLAIN)?;
    is_told_by(alloc, &code, row, start, options)
}

fn check_all(
    rt: &impl Abort,
    alloc: Global,
    options: &MatchOptions,
    lines: &[Line],
) -> Result<(), Fail> {
    for line in lines {
        let is_told = is_told(alloc, &row_of(line), 0, options)?;
        assert!(rt; is_told);
    }
    Ok(())
}

#[test]
fn the_first_match_is_replaced(rt: HostRuntime) -> Result<(), Fail> {
    check_all(&rt, rt.alloc(), &PLAIN, FIRST)
}

#[test]
fn all_matches_are_replaced(rt: HostRuntime) -> Result<(), Fail> {
    check_all(&rt, rt.alloc(), &PLAIN, ALL)
}

#[test]
fn all_forms_are_replaced(rt: HostRuntime) -> Result<(), Fail> {
    check_all(&rt, rt.alloc(), &PLAIN, FORMS)
}

/// Starts, with what is replaced from there on.
const LATER: &[(usize, Line)] = &[
    (2, "a :: g :: x :: aaaa :: 2 aaxx"),
    (2, "a :: go :: x :: aaaa :: 2 xx"),
    (4, " :: g :: - :: aaaa :: 1 aaaa-"),
    (2, "^a :: g :: x :: aaaa :: 0 aaaa"),
    (1, r"\Ga :: g :: x :: aaba :: 1 axba"),
    (1, "(?<=a)b :: g :: x :: abab :: 2 axax"),
    (5, "a :: g :: $ :: aaaa :: BadOffset"),
];

#[test]
fn text_before_the_start_is_kept(rt: HostRuntime) -> Result<(), Fail> {
    for (start, line) in LATER {
        let is_told = is_told(rt.alloc(), &row_of(line), *start, &PLAIN)?;
        assert!(&rt; is_told);
    }
    Ok(())
}

/// Characters, and the faults of a replacement after those of the subject.
const IN_UTF: &[Line] = &[
    "(*UTF)x* :: g :: - :: éx€ :: 4 -é--€-",
    "(*UTF). :: g :: <$0> :: éx :: 2 <é><x>",
    "(*UTF)a :: - :: $ :: a :: BadReplacement",
    "(*UTF)(?<é>.) :: g :: $é; :: xé :: 2 x;é;",
    "(*UTF)(?<é>.) :: gx :: ${é:+<${é}>:} :: xé :: 2 <x><é>",
    "(*UTF)(?<é>.) :: - :: $éa :: x :: NoGroup",
    "(*UTF)(?<a>.) :: - :: $a\u{301} :: x :: 1 x\u{301}",
];

#[test]
fn characters_are_replaced_in_utf(rt: HostRuntime) -> Result<(), Fail> {
    check_all(&rt, rt.alloc(), &PLAIN, IN_UTF)
}

/// Bytes that aren't UTF-8: in UTF those of the subject are told before those of the replacement, and
/// these before the faults of its syntax.
const BYTES: &[Row<'static>] = &[
    Row {
        pattern: b".+",
        letters: "x",
        replacement: b"\\U$0",
        subject: b"stra\xdfe",
        answer: b"1 STRA\xdfE",
    },
    Row {
        pattern: b"x*",
        letters: "g",
        replacement: b"-",
        subject: b"\xc3\xa9",
        answer: b"3 -\xc3-\xa9-",
    },
    Row {
        pattern: b"(*UTF).",
        letters: "-",
        replacement: b"x",
        subject: b"a\xff",
        answer: b"BadUtf { at: 1 }",
    },
    Row {
        pattern: b"(*UTF)a",
        letters: "-",
        replacement: b"\xff$",
        subject: b"\xff",
        answer: b"BadUtf { at: 0 }",
    },
    Row {
        pattern: b"(*UTF)a",
        letters: "-",
        replacement: b"b\xff$",
        subject: b"a",
        answer: b"ReplacementUtf { at: 1 }",
    },
    Row {
        pattern: b"(*UTF)a",
        letters: "l",
        replacement: b"\xc3",
        subject: b"b",
        answer: b"ReplacementUtf { at: 0 }",
    },
    Row {
        pattern: b"a",
        letters: "-",
        replacement: b"\xff",
        subject: b"a\xfe",
        answer: b"1 \xff\xfe",
    },
];

#[test]
fn bytes_are_replaced_or_refused_in_utf(rt: HostRuntime) -> Result<(), Fail> {
    for row in BYTES {
        let is_told = is_told(rt.alloc(), row, 0, &PLAIN)?;
        assert!(&rt; is_told);
    }
    Ok(())
}

/// Replacements where the second search meets the limit.
const LIMITED: &[Line] = &[
    "a|(x+x+)+y :: - :: - :: axxxxxxxx :: 1 -xxxxxxxx",
    "a|(x+x+)+y :: g :: - :: axxxxxxxx :: MatchLimit",
    "a|(x+x+)+y :: g :: $2 :: axxxxxxxx :: NoGroup",
    "a|(x+x+)+y :: g :: $ :: axxxxxxxx :: BadReplacement",
];

#[test]
fn a_later_search_may_fail(rt: HostRuntime) -> Result<(), Fail> {
    let few = MatchOptions {
        match_limit: 40,
        ..PLAIN
    };
    check_all(&rt, rt.alloc(), &few, LIMITED)
}

#[test]
fn partial_matching_is_taken_as_off(rt: HostRuntime) -> Result<(), Fail> {
    let hard = MatchOptions {
        partial: PartialMode::Hard,
        ..PLAIN
    };
    check_all(&rt, rt.alloc(), &hard, &["bc? :: g :: x :: ab :: 1 ax"])
}

/// Each refusal of a replacement.
const REFUSED: &[Line] = &[
    "(a)|b :: g :: $ :: ab :: BadReplacement",
    "(a)|b :: g :: ${1 :: ab :: MissingBrace",
    r"(a)|b :: x :: \i :: ab :: BadEscape",
    "(a)|b :: x :: ${1:x} :: ab :: BadSyntax",
    "(a)|b :: g :: $2 :: ab :: NoGroup",
    "(a)|b :: g :: $1 :: ab :: Unset",
];

#[test]
fn each_refused_replacement_has_its_meaning(rt: HostRuntime) -> Result<(), Fail> {
    check_all(&rt, rt.alloc(), &PLAIN, REFUSED)
}

/// Refusals with their numbers and texts.
const REFUSALS: &[(SubstError, i32, &[u8])] = &[
    (SubstError::BadOffset, -33, b"bad offset"),
    (SubstError::BadReplacement, -35, b"bad replacement"),
    (SubstError::BadEscape, -57, b"bad escape in replacement"),
    (
        SubstError::MissingBrace,
        -58,
        b"missing brace in replacement",
    ),
    (SubstError::BadSyntax, -59, b"bad substitution"),
    (SubstError::MatchLimit, -47, b"match limit exceeded"),
    (SubstError::FrameLimit, -63, b"frame limit exceeded"),
    (SubstError::NoGroup, -49, b"no such group"),
    (SubstError::Unset, -55, b"group is unset"),
];

#[test]
fn refusals_have_numbers_and_texts(rt: HostRuntime) {
    for (refusal, number, text) in REFUSALS {
        assert!(&rt; refusal.number() == *number && refusal.text() == *text);
    }
}
