//! Matches by all ends. The rows are those of pcre2test 10.42 under `dfa` and `no_auto_possess`.
ghost use Rattle.std.specs.Prelude.{◌≡◌, ◌<◌, length};

use crate::rows::parts;
use pcre2_api::{Code, DfaError, DfaFound, Lists, MatchOptions, Options, PartialMode, Steps};
use std::alloc::Global;
use std::marker::Brand;
use std::process::Abort;
use std::sync::ledger::{Blank, Ledger};
use std::test::Fail;

/// A pattern, a subject, and the texts of all ends at the first place that has any, the longest first,
/// each with a bar after it, or why there are none.
type Row = &'static str;

/// The options of a match, its start, and a row.
type Case = (MatchOptions, usize, Row);

/// How a row is matched.
#[derive(Clone, Copy)]
struct How<'a> {
    compiling: &'a Options,
    start: usize,
    options: &'a MatchOptions,
}

const AS_IT_IS: How<'static> = How {
    compiling: &Options::PLAIN,
    start: 0,
    options: &MatchOptions::PLAIN,
};

const IN_UTF: How<'static> = How {
    compiling: &UTF,
    ..AS_IT_IS
};

const IN_UCP: How<'static> = How {
    compiling: &UCP,
    ..AS_IT_IS
};

const UTF: Options = Options {
    utf: true,
    ..Options::PLAIN
};

const UCP: Options = Options { ucp: true, ..UTF };

const PLAIN: MatchOptions = MatchOptions::PLAIN;

const SOFT: MatchOptions = MatchOptions {
    partial: PartialMode::Soft,
    ..PLAIN
};

const HARD: MatchOptions = MatchOptions {
    partial: PartialMode::Hard,
    ..PLAIN
};

const SHORTEST: MatchOptions = MatchOptions {
    dfa_shortest: true,
    ..PLAIN
};

const NOT_EMPTY: MatchOptions = MatchOptions {
    notempty: true,
    ..PLAIN
};

const AT_END: MatchOptions = MatchOptions {
    endanchored: true,
    ..PLAIN
};

const NOT_AT_START: MatchOptions = MatchOptions {
    notempty_atstart: true,
    ..PLAIN
};

fn counted<L: Ledger>(
    alloc: Global,
    code: &Code,
    subject: &[u8],
    how: How<'_>,
    lists: &mut Lists,
    blank: Blank,
) -> Result<DfaFound, DfaError>
    requires name { blank.name ≡ L.name }
    requires parts { blank.parts ≡ L.parts }
    requires one { blank.parts ≡ 1 }
    requires short { length subject.now < 1000 }
{
    let mut steps: Steps<L> = Steps::new(blank);
    code.dfa_match(alloc, subject, how.start, how.options, lists, &mut steps)
}

// A match with a counter of its own for the tests of classes.
fn found(
    alloc: Global,
    code: &Code,
    subject: &[u8],
    how: How<'_>,
    lists: &mut Lists,
) -> Result<DfaFound, DfaError>
    requires short { length subject.now < 1000 }
{
    counted::<Brand>(alloc, code, subject, how, lists, Blank::new(1))
}

fn texts(alloc: Global, subject: &[u8], found: &DfaFound) -> Result<Vec<u8>, Fail> {
    let mut text = Vec::new(alloc);
    for end in found.ends.as_slice() {
        text.extend_from_slice(subject.get(found.start..*end as usize).unwrap_or(b"?"))?;
        text.push(b'|')?;
    }
    Ok(text)
}

fn error_text(alloc: Global, error: DfaError) -> Result<Vec<u8>, Fail> {
    let text = format!(in alloc; "{error:?}")?;
    Ok(text.as_bytes().to_vec(alloc)?)
}

// What is told of a match, as in a row.
fn told(
    alloc: Global,
    code: &Code,
    subject: &[u8],
    how: How<'_>,
    lists: &mut Lists,
) -> Result<Vec<u8>, Fail>
    requires short { length subject.now < 1000 }
{
    match found(alloc, code, subject, how, lists) {
        Ok(found) => texts(alloc, subject, &found),
        Err(e) => error_text(alloc, e),
    }
}

fn is_told_by(
    alloc: Global,
    code: &Code,
    subject: &[u8],
    how: How<'_>,
    answer: &str,
    lists: &mut Lists,
) -> Result<bool, Fail> {
    if subject.len() >= 1000 {
        return Ok(false);
    }
    let told = told(alloc, code, subject, how, lists)?;
    Ok(told.as_slice() == answer.as_bytes())
}

fn is_told_of(
    alloc: Global,
    pattern: &str,
    subject: &[u8],
    how: How<'_>,
    answer: &str,
    lists: &mut Lists,
) -> Result<bool, Fail> {
    let code = Code::compile(alloc, pattern.as_bytes(), *how.compiling)?;
    is_told_by(alloc, &code, subject, how, answer, lists)
}

fn is_told(alloc: Global, how: How<'_>, row: &str, lists: &mut Lists) -> Result<bool, Fail> {
    let (pattern, subject, answer) = parts(row);
    is_told_of(alloc, pattern, subject.as_bytes(), how, answer, lists)
}

// The same lists serve all rows.
fn check_all(rt: &impl Abort, alloc: Global, how: How<'_>, rows: &[&str]) -> Result<(), Fail> {
    let mut lists = Lists::new(alloc);
    for row in rows {
        let is_told = is_told(alloc, how, row, &mut lists)?;
        assert!(rt; is_told);
    }
    Ok(())
}

fn check_cases(rt: &impl Abort, alloc: Global, cases: &[Case]) -> Result<(), Fail> {
    for (options, start, row) in cases {
        let how = How {
            start: *start,
            options,
            ..AS_IT_IS
        };
        check_all(rt, alloc, how, &[*row])?;
    }
    Ok(())
}

#[test]
fn all_ends_are_found(rt: HostRuntime) -> Result<(), Fail> {
    static ROWS: [Row; 49] = [
        "cat(er(pillar)?)? :: the caterpillar catchment :: caterpillar|cater|cat|",
        "cat(er(pillar)?)? :: a cat :: cat|",
        "cat(er(pillar)?)? :: ca :: NoMatch",
        "cat(er(pillar)?)? :: cater cat :: cater|cat|",
        "a|ab|abc :: abc :: abc|ab|a|",
        "a|ab|abc :: xab :: ab|a|",
        "a|ab|abc :: xyz :: NoMatch",
        "abc|ab|a :: abc :: abc|ab|a|",
        "abc|ab|a :: ab :: ab|a|",
        "a* :: aaa :: aaa|aa|a||",
        "a* :: baa :: |",
        "a* ::  :: |",
        "a*? :: aaa :: aaa|aa|a||",
        "a*? :: b :: |",
        "a+? :: xaaa :: aaa|aa|a|",
        "a+b? :: aab :: aab|aa|a|",
        "a+b? :: caac :: aa|a|",
        "a{2,4} :: aaaaa :: aaaa|aaa|aa|",
        "a{2,4} :: aba :: NoMatch",
        "a{2,4} :: aa :: aa|",
        "a{2,4}? :: aaaaa :: aaaa|aaa|aa|",
        "a{3} :: aaaaa :: aaa|",
        "a{0}b :: ab :: b|",
        "a{0}b :: a :: NoMatch",
        "(a|ab)(c|bcd)(d*) :: abcd :: abcd|abc|",
        "(a|ab)(c|bcd)(d*) :: acdd :: acdd|acd|ac|",
        "(a|b)* :: abba :: abba|abb|ab|a||",
        "(a|b)* :: c :: |",
        "(a|b)*?c :: abcabc :: abc|",
        "(ab|a|b)+ :: abab :: abab|aba|ab|a|",
        "(a*)* :: aab :: aa|a||",
        "(a*)+b :: aaab :: aaab|",
        "(a*)+b :: aac :: NoMatch",
        "(a|a)*b :: aaaab :: aaaab|",
        "(a|a)*b :: aaac :: NoMatch",
        "(x+x+)+y :: xxxxy :: xxxxy|",
        "(x+x+)+y :: xxxxx :: NoMatch",
        "(|a)+ :: aab :: aa|a||",
        "(?:a?){3} :: aaaa :: aaa|aa|a||",
        "(?:a?){3} :: b :: |",
        "(?:ab?){2,3} :: abaab :: abaab|abaa|aba|",
        "(?:ab?){2,3} :: aaaa :: aaa|aa|",
        "(?:a{1,2}){2} :: aaaaa :: aaaa|aaa|aa|",
        r"\d+ :: ab123 :: 123|12|1|",
        r"\d+ :: x :: NoMatch",
        r"\w+\s\w+ :: on the road :: on the|on th|on t|",
        "[a-c]+[^a] :: abcd :: abcd|abc|ab|",
        "[a-c]+[^a] :: aaa :: NoMatch",
        "[^b]+ :: aabcc :: aa|a|",
    ];
    check_all(&rt, rt.alloc(), AS_IT_IS, &ROWS)
}

#[test]
fn all_ends_are_found_in_lines(rt: HostRuntime) -> Result<(), Fail> {
    static ROWS: [Row; 48] = [
        ". ::  :: NoMatch",
        ". :: q :: q|",
        ".* :: ab\ncd :: ab|a||",
        "(?s).* :: ab\nc :: ab\nc|ab\n|ab|a||",
        "^ab :: abab :: ab|",
        "^ab :: xab :: NoMatch",
        "(?m)^b :: a\nb :: b|",
        "ab$ :: ab :: ab|",
        "ab$ :: abc :: NoMatch",
        "(?m)a$ :: a\nb :: a|",
        r"\Aab|b :: ab :: ab|",
        r"\Aab|b :: cb :: b|",
        "a\\z|a\\Z :: a\n :: a|",
        r"a\z|a\Z :: aa :: a|",
        r"\bfoo\b :: a foo b :: foo|",
        r"\bfoo\b :: food foo :: foo|",
        r"\Bo+ :: foo o :: oo|o|",
        "\\R+ :: a\r\n\n :: \r\n\n|\r\n|",
        "a\\R? :: a\r\nb :: a\r\n|a|",
        "(?i)ab+ :: xABbB :: ABbB|ABb|AB|",
        "(?i)[a-c]+ :: zAbCd :: AbC|Ab|A|",
        "(a(b(c)?)?)?d? :: abcd :: abcd|abc|ab|a||",
        "(a(b(c)?)?)?d? :: abd :: abd|ab|a||",
        "(ab*){1,2}? :: abbab :: abbab|abba|abb|ab|a|",
        "x(a|b|cd)+?y? :: xacdby :: xacdby|xacdb|xacd|xa|",
        "(?:(?:a|b)c){2,} :: acbcacd :: acbcac|acbc|",
        "(?(DEFINE)a)b :: ab :: b|",
        "(?(R)a|b) :: ab :: b|",
        "(?(R)a)c :: ac :: c|",
        r"\Ga+ :: aab :: aa|a|",
        r"\x61{2}|a :: aaa :: aa|a|",
        r"[[:alpha:]]+\d* :: ab12c :: ab12|ab1|ab|a|",
        "\\h+\\H :: a \tb ::  \tb|",
        r"\N{1,3} :: abcd :: abc|ab|a|",
        "(?x) a b # c :: ab :: ab|",
        r"\Qa.b\E+ :: a.bb :: a.bb|a.b|",
        "(?:) :: a :: |",
        "a||b :: ab :: a||",
        "a||b :: b :: b||",
        "(?<n>a)(?:b|c)+ :: abcb :: abcb|abc|ab|",
        "(?|(a)|(ab))b? :: abb :: abb|ab|a|",
        r"\D\S\W :: a-+ , :: a-+|",
        "\\v|\\V{2} :: ab\n :: ab|",
        "(?U)a+ :: aaa :: aaa|aa|a|",
        "a{2,} :: aaaa :: aaaa|aaa|aa|",
        "a{2,} :: a :: NoMatch",
        "(a{0,2}b){2} :: aabab :: aabab|",
        "(a{0,2}b){2} :: bb :: bb|",
    ];
    check_all(&rt, rt.alloc(), AS_IT_IS, &ROWS)
}

#[test]
fn what_is_not_supported_is_refused(rt: HostRuntime) -> Result<(), Fail> {
    static ROWS: [Row; 10] = [
        r"(a)\1 :: a :: Item",
        r"a\Kb :: a :: Item",
        "(*napla:a) :: a :: Item",
        "(a)(?(1)b) :: a :: Cond",
        "(a)(?(R1)b) :: a :: Cond",
        r"(a)(?(1)b)\1 :: a :: Cond",
        r"(a)\1(?(1)b) :: a :: Item",
        "a{60000}b{9000} :: a :: TooLarge",
        "(?=a)a{60000}b{9000} :: a :: TooLarge",
        "(?<=a(?(R1)b|c))(d) :: a :: Cond",
    ];
    check_all(&rt, rt.alloc(), AS_IT_IS, &ROWS)
}

#[test]
fn options_take_ends_away(rt: HostRuntime) -> Result<(), Fail> {
    static CASES: [Case; 8] = [
        (PLAIN, 0, "a* :: aab :: aa|a||"),
        (SHORTEST, 0, "a* :: aab :: |"),
        (NOT_EMPTY, 0, "a* :: aab :: aa|a|"),
        (AT_END, 0, "a* :: aab :: |"),
        (AT_END, 3, "a* :: aab :: |"),
        (NOT_AT_START, 2, "a* :: aab :: |"),
        (PLAIN, 1, "a* :: aab :: a||"),
        (PLAIN, 3, "a* :: aa :: BadOffset"),
    ];
    check_cases(&rt, rt.alloc(), &CASES)
}

// A partial match is told by its places.
#[test]
fn a_partial_match_runs_to_the_end(rt: HostRuntime) -> Result<(), Fail> {
    static CASES: [Case; 12] = [
        (SOFT, 0, "abc :: xab :: Partial { start: 1, end: 3 }"),
        (HARD, 0, "abc :: xab :: Partial { start: 1, end: 3 }"),
        (PLAIN, 0, "abc :: xab :: NoMatch"),
        (SOFT, 0, "abc :: xax :: NoMatch"),
        (HARD, 0, "abc :: xax :: NoMatch"),
        (HARD, 0, "a|abc :: xab :: Partial { start: 1, end: 3 }"),
        (HARD, 0, "b+? :: xab :: Partial { start: 2, end: 3 }"),
        (HARD, 0, "b$ :: xab :: Partial { start: 2, end: 3 }"),
        (HARD, 0, r"ab\b :: xab :: Partial { start: 1, end: 3 }"),
        (SOFT, 0, "(?<=b)c :: xab :: Partial { start: 3, end: 3 }"),
        (SOFT, 0, "b(?=c) :: xab :: Partial { start: 2, end: 3 }"),
        (SOFT, 0, r"(a)\1 :: xab :: Item"),
    ];
    check_cases(&rt, rt.alloc(), &CASES)
}

#[test]
fn ends_go_before_a_soft_partial_match(rt: HostRuntime) -> Result<(), Fail> {
    check_cases(&rt, rt.alloc(), &[(SOFT, 0, "a|ab+ :: abb :: abb|ab|a|")])
}

#[test]
fn all_ends_are_found_in_utf(rt: HostRuntime) -> Result<(), Fail> {
    static ROWS: [Row; 24] = [
        "é+ :: xééa :: éé|é|",
        ". :: € :: €|",
        ". :: 😀 :: 😀|",
        ".+ :: aé€ :: aé€|aé|a|",
        ".{2} :: 😀é :: 😀é|",
        ".{2} :: 😀 :: NoMatch",
        "é|éè?a* :: béèaa :: éèaa|éèa|éè|é|",
        "[è-ê]+ :: aèéë :: èé|è|",
        "[^a]+ :: a€é :: €é|€|",
        "(?i)é+ :: aÉéb :: Éé|É|",
        "(?i)σ+ :: Σς :: Σς|Σ|",
        r"\p{Greek}+ :: xαβ :: αβ|α|",
        r"\p{L}\P{L}* :: 1Ж12 :: Ж12|Ж1|Ж|",
        r"\bxé\b :: xé :: NoMatch",
        r"\w+ :: aé :: a|",
        "\\R+ :: a\u{2028}\u{85}b :: \u{2028}\u{85}|\u{2028}|",
        "\\h+ :: a\u{a0}\u{2003} :: \u{a0}\u{2003}|\u{a0}|",
        "(é|éé)+ :: ééé :: ééé|éé|é|",
        "é*? :: éé :: éé|é||",
        "$ :: é :: |",
        "é$ :: éé :: é|",
        "(?:€a?){2} :: €€a€ :: €€a|€€|",
        r"\B :: éa :: |",
        r"\D\S :: 1é€ :: é€|",
    ];
    check_all(&rt, rt.alloc(), IN_UTF, &ROWS)
}

#[test]
fn all_ends_are_found_by_properties(rt: HostRuntime) -> Result<(), Fail> {
    static ROWS: [Row; 3] = [
        r"\bxé\b :: xé :: xé|",
        r"\b\w+\b :: -éa  :: éa|",
        r"\w+ :: aé :: aé|a|",
    ];
    check_all(&rt, rt.alloc(), IN_UCP, &ROWS)
}

#[test]
fn all_ends_begin_at_a_character(rt: HostRuntime) -> Result<(), Fail> {
    static ROWS: [(&[u8], usize, &str); 6] = [
        (b"\xc3\xa9", 1, "BadUtfOffset"),
        (b"\xc3\xa9", 2, "NoMatch"),
        (b"\xc3\xa9", 3, "BadOffset"),
        (b"a\xff", 0, "BadUtf { at: 1 }"),
        (b"\xff", 2, "BadOffset"),
        (b"\xc3\xa9\xff", 1, "BadUtf { at: 2 }"),
    ];
    let mut lists = Lists::new(rt.alloc());
    for (subject, start, answer) in &ROWS {
        let how = How {
            start: *start,
            ..IN_UTF
        };
        let is_told = is_told_of(rt.alloc(), ".", subject, how, answer, &mut lists)?;
        assert!(&rt; is_told);
    }
    Ok(())
}

#[test]
fn nested_parts_have_ends_of_their_own(rt: HostRuntime) -> Result<(), Fail> {
    static ROWS: [Row; 62] = [
        "(?=a)a :: aaa :: a|",
        "(?=ab)a.* :: abc :: abc|ab|a|",
        "(?=ab)a.* :: acabd :: abd|ab|a|",
        "(?!ab)a.? :: abac :: ac|a|",
        "(?!ab)a.? :: ab :: NoMatch",
        "a(?=b) :: ab :: a|",
        "a(?=b) :: ac :: NoMatch",
        "a(?!b) :: ab :: NoMatch",
        "a(?!b) :: abac :: a|",
        "(?>a+)b :: aaab :: aaab|",
        "(?>a+)a :: aaa :: NoMatch",
        "(?>a|ab|abc)c :: abcc :: abcc|",
        "(?>a|ab|abc) :: abc :: abc|",
        "(?>a|ab)(?>c|bcd) :: abcd :: abc|",
        r"^a++\w! :: aaab! :: aaab!|",
        r"^a++\w! :: aaa! :: NoMatch",
        "a*+b :: aaab :: aaab|",
        "a?+a :: aa :: aa|",
        "(?>)a :: a :: a|",
        "(?>a?)b :: ab :: ab|",
        "(?>a?)b :: b :: b|",
        "(?:(?>a?))*b :: aab :: aab|",
        "(?:(?>))*a :: a :: a|",
        "(?:(?=a))*a :: aa :: a|",
        "(?=(?=a)ab)a. :: ab :: ab|",
        "(?=(?!ac)a).+ :: acab :: ab|a|",
        "(?!(?!a)b)b :: b :: NoMatch",
        "(?!(?=a))b :: ab :: b|",
        "(?(?=a)ab|cd) :: ab :: ab|",
        "(?(?=a)ab|cd) :: cd :: cd|",
        "(?(?=a)ab|cd) :: ad :: NoMatch",
        "(?(?=ab)a) :: ab :: a|",
        "(?(?=ab)a) :: b :: |",
        "(?(?!a)b|a)+ :: abba :: abba|abb|ab|a|",
        "(?(?!a)b)c :: bc :: bc|",
        "(?(?!a)b)c :: ac :: NoMatch",
        "(?(?=a)(?>a+)|b+)c :: aac :: aac|",
        "(?(?=(?=a)a.)..|b) :: acb :: ac|",
        r"(?=a|b)\w+ :: cab :: ab|a|",
        r"(?=.*c)\w+ :: abcd :: abcd|abc|ab|a|",
        r"(?=.*c)\w+ :: abd :: NoMatch",
        r"(?!.*c)\w+ :: abcd :: d|",
        r"(?>\w+\b)! :: ab! :: ab!|",
        "(?>(a|b)*)c :: ababc :: ababc|",
        "(a|(?>bc|b)d)+ :: abcdbda :: abcdbda|abcdbd|abcd|a|",
        "(?=a) :: b :: NoMatch",
        "(?=)a :: a :: a|",
        "(?!)a :: a :: NoMatch",
        "(?=(*FAIL))a :: a :: NoMatch",
        "(?>(*FAIL)|a) :: a :: a|",
        "(?>a{2,3}){2} :: aaaaaa :: aaaaaa|",
        "(?>a{2,3}?)a :: aaaa :: aaaa|",
        r"(?=a(?>b+)c)\w+ :: abbc :: abbc|abb|ab|a|",
        r"(?=^|b)\w :: ab :: a|",
        "(?>\\R)\\n :: \r\n\n :: \r\n\n|",
        "(?=\\R)\\r :: \r\n :: \r|",
        "x(?=(?:a|b)*c) :: xabac :: x|",
        "(?>x(?=a))a :: xa :: xa|",
        r"(?:(?=a)\w|b)+ :: abac :: aba|ab|a|",
        r"(?=(a)(?=b))\w(b) :: ab :: ab|",
        "(?(?=.b)(?(?=a)ab|bb)|c) :: bb :: bb|",
        "(?(?=.b)(?(?=a)ab|bb)|c) :: c :: c|",
    ];
    check_all(&rt, rt.alloc(), AS_IT_IS, &ROWS)
}

#[test]
fn lookbehinds_begin_before_their_place(rt: HostRuntime) -> Result<(), Fail> {
    static ROWS: [Row; 67] = [
        "(?<=a)b :: ab :: b|",
        "(?<=a)b :: bb :: NoMatch",
        "(?<=a)b* :: aabb :: |",
        "(?<!a)b+ :: abbb :: bb|b|",
        "(?<!a)b :: ab :: NoMatch",
        "(?<!a)b :: cb :: b|",
        "(?<=ab)c.? :: abcd :: cd|c|",
        "(?<=ab)c :: ac :: NoMatch",
        "(?<=ab|c)d+ :: cdd :: dd|d|",
        "(?<=ab|c)d+ :: abd :: d|",
        "(?<=ab|c)d+ :: bd :: NoMatch",
        "(?<=c|ab)d+ :: abdd :: dd|d|",
        "(?<!ab|c)d :: abdcd :: NoMatch",
        "(?<!ab|c)d :: abdcdd :: d|",
        "(?<!c|ab)d :: add :: d|",
        "(?<=^a)b :: ab :: b|",
        "(?<=^a)b :: aab :: NoMatch",
        "(?<=a|^)b+ :: bbab :: bb|b|",
        "(?<=)a :: a :: a|",
        "(?<!)a :: a :: NoMatch",
        "a(?<=a) :: aa :: a|",
        "a+(?<=aa) :: aaa :: aaa|aa|",
        "a+(?<!aa)b :: aab :: NoMatch",
        r"\w+(?<=[bd]) :: abcde :: abcd|ab|",
        r"\w+(?<![bd]) :: abcd :: abc|a|",
        "(?<=a{3})b :: aaab :: b|",
        "(?<=a{3})b :: aab :: NoMatch",
        "(?<=(a|b)c)d :: bcd :: d|",
        "(?<=(?:ab|cd)e)f :: cdef :: f|",
        "(?<=(?<=a)b)c :: abc :: c|",
        "(?<=(?<!a)b)c :: abcbc :: c|",
        "(?<=(?<!a)b)c :: abc :: NoMatch",
        "(?<=a(?=b))b.? :: abc :: bc|b|",
        "(?<=(?=ab).)b :: ab :: b|",
        "(?<=(?>a|b))c :: bc :: c|",
        r"(?=(?<=a)b)\w+ :: abc :: bc|b|",
        "(?>(?<=a)b+)c :: abbc :: bbc|",
        "(?(?<=a)b|c)+ :: bacb :: NoMatch",
        "(?(?<=a)b|c) :: ab :: b|",
        "(?(?<=a)b|c) :: cb :: c|",
        "(?(?<!a)b|c)+ :: bac :: b|",
        "(?(?<=a)b)c :: abc :: bc|",
        "(?(?<=a)b)c :: ac :: NoMatch",
        "(?(?<!a)b)c :: ac :: c|",
        "(?(?<!a)b)c :: bc :: bc|",
        "(?(?<!ab|c)d|e)+ :: abecdd :: e|",
        "a(?(?<=a)|b)c :: abc :: NoMatch",
        "(?(?<=^)a|b)+ :: ab :: ab|a|",
        "(?(?<=ab|c)d|e) :: abd :: d|",
        "(?(?<=ab|c)d|e) :: de :: e|",
        r"(?<=\d{3}(?<!999))foo :: 999foo123foo :: foo|",
        "(?<=foo)bar(?=baz) :: foobarbaz :: bar|",
        "(?<![cd]{2})[ab]+ :: cdacb :: b|",
        r"(?<=\b)a :: a :: a|",
        "(?<=\\n)^a :: x\na :: NoMatch",
        r"(?<=.)\b :: ab :: |",
        "(?<=a)(?<=b)c :: abc :: NoMatch",
        "(?<=b)(?<!a)c :: bc :: c|",
        "(?<!^)a+ :: aaa :: aa|a|",
        "(?:(?<=a)b|a)+ :: abab :: abab|aba|ab|a|",
        "(?:(?<!a)b|a)+ :: abba :: a|",
        "(?<=(*FAIL))a :: a :: NoMatch",
        "(?<!(*FAIL))a :: a :: a|",
        "(?<=(?(?=a)a|b))c :: bc :: c|",
        "(?<=(?(?=a)a|b))c :: cc :: NoMatch",
        "x(?<=(?<=y)x)z :: yxz :: xz|",
        "(?<=a)b(?<=ab)(?<!b)c|abc :: abc :: abc|",
    ];
    check_all(&rt, rt.alloc(), AS_IT_IS, &ROWS)
}

#[test]
fn lookbehinds_count_characters(rt: HostRuntime) -> Result<(), Fail> {
    static ROWS: [Row; 6] = [
        r"(?<=\x{e9})b :: éb :: b|",
        r"(?<=\x{e9}\x{20ac})b+ :: é€bb :: bb|b|",
        r"(?<!\x{20ac})b :: €bb :: b|",
        "(?<=..)b :: €béb :: b|",
        r"(?<=\x{20ac}|\x{e9}a)b :: éab :: b|",
        r"(?(?<=\x{20ac})b|\x{20ac})+ :: €b :: €b|€|",
    ];
    check_all(&rt, rt.alloc(), IN_UTF, &ROWS)
}

// 250 groups, each in a possessive repeat: 500 atomic groups in each other.
#[test]
fn the_deepest_groups_are_matched(rt: HostRuntime) -> Result<(), Fail> {
    let alloc = rt.alloc();
    let (opened, closed) = ("(?>".repeat(alloc, 250)?, ")?+".repeat(alloc, 250)?);
    let row = format!(in alloc; "{opened}a{closed} :: aa :: a|")?;
    check_all(&rt, alloc, AS_IT_IS, &[row.as_str()])
}
