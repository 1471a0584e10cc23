//! What searches find with groups that keep their first way, with lookarounds and with conditional groups
//! (pcre2pattern, "Atomic grouping and possessive quantifiers", "Assertions", "Non-atomic assertions", "Conditional
//! groups"). The answers are those of the C library, 10.42.
use super::searching::searched;
use frame_machine::Scratch;
use match_drive::MatchAnswer;
use pat_tree::{MatchOptions, Options};
use std::alloc::Global;
use std::process::Abort;
use std::test::Fail;

/// A pattern, a subject, the match's text, and what group 1 captured.
type Row = (
    &'static [u8],
    &'static [u8],
    Option<(usize, usize)>,
    Option<(u64, u64)>,
);

fn case(rt: &impl Abort, alloc: Global, row: &Row, scratch: &mut Scratch) -> Result<(), Fail> {
    let (pattern, subject, text, group) = *row;
    let options = Options::PLAIN;
    assert!(rt; subject.len() < 100);
    let found = searched(
        alloc,
        pattern,
        options,
        subject,
        0,
        &MatchOptions::PLAIN,
        scratch,
    )?;
    match text {
        None => assert!(rt; found.0 == (MatchAnswer::NoMatch { mark: None })),
        Some((keep, to)) => {
            let answer = MatchAnswer::Match {
                keep,
                to,
                mark: None,
            };
            assert!(rt; found.0 == answer);
            assert!(rt; found.1.map(|span| (span.from, span.to)) == group);
        }
    }
    Ok(())
}

fn cases(rt: &impl Abort, alloc: Global, rows: &[Row]) -> Result<(), Fail> {
    let mut scratch = Scratch::new(alloc);
    for row in rows {
        case(rt, alloc, row, &mut scratch)?;
    }
    Ok(())
}

const ATOMIC_GROUPS_KEEP_THEIR_FIRST_WAY: &[Row] = &[
    (b"(?>a*)a", b"aaa", None, None),
    (b"(?>a*)b", b"aaab", Some((0, 4)), None),
    (b"(?>a|ab)c", b"abc", None, None),
    (b"(?>ab|a)c", b"abc", Some((0, 3)), None),
    (b"(?>ab|a)c", b"ac", Some((0, 2)), None),
    (b"x(?>a+?)b", b"xaab", None, None),
    (b"(?>(a+))b", b"aab", Some((0, 3)), Some((0, 2))),
    (
        b"(?>(a|ab)(c|bcd))(d*)",
        b"abcd",
        Some((0, 4)),
        Some((0, 1)),
    ),
    (b"(?>a*+)b", b"aab", Some((0, 3)), None),
    (b"(?>(?>a|b)+)c", b"abac", Some((0, 4)), None),
    (b"((?>a+)b)+", b"aabab", Some((0, 5)), Some((3, 5))),
    (b"(?i:(?>A)b)c", b"aBc", Some((0, 3)), None),
    (b"(?>)x", b"x", Some((0, 1)), None),
    (b"(?>|a)b", b"ab", Some((1, 2)), None),
    (b"(*atomic:a|ab)b", b"abb", Some((0, 2)), None),
    (b"(?>a(?i)b)c", b"aBc", Some((0, 3)), None),
    (b"(?>a(?i)b)c", b"aBC", None, None),
    (b"(?>\\d+)(?=\\.)", b"12.3", Some((0, 2)), None),
    (b"(?>a\\Kb)c", b"abc", Some((1, 3)), None),
    (b"(?>(a)|b)*c", b"abac", Some((0, 4)), Some((2, 3))),
    (b"(?>(a)|b){2}?", b"ab", Some((0, 2)), Some((0, 1))),
    (b"(?>a){0}b", b"b", Some((0, 1)), None),
];

#[test]
fn atomic_groups_keep_their_first_way(rt: HostRuntime) -> Result<(), Fail> {
    cases(&rt, rt.alloc(), ATOMIC_GROUPS_KEEP_THEIR_FIRST_WAY)
}

const POSSESSIVE_QUANTIFIERS_GIVE_NOTHING_BACK: &[Row] = &[
    (b"a++a", b"aaa", None, None),
    (b"a*+b", b"aab", Some((0, 3)), None),
    (b"a?+a", b"a", None, None),
    (b"a?+a", b"aa", Some((0, 2)), None),
    (b"[ab]{1,2}+b", b"abb", Some((0, 3)), None),
    (b"(a|b)++b", b"abab", None, None),
    (b"(ab)*+c", b"ababc", Some((0, 5)), Some((2, 4))),
    (b"(a)++(b)", b"aab", Some((0, 3)), Some((1, 2))),
    (b"(?U)a++b", b"aab", Some((0, 3)), None),
    (b"(?U)a*+a", b"aa", None, None),
    (b"\\R++\\n", b"\r\n\n", None, None),
    (b"(a+)?+b", b"aab", Some((0, 3)), Some((0, 2))),
    (b".*+\\n", b"ab\n", Some((0, 3)), None),
    (b"(\\w)\\1++x", b"aaax", Some((0, 4)), Some((0, 1))),
];

#[test]
fn possessive_quantifiers_give_nothing_back(rt: HostRuntime) -> Result<(), Fail> {
    cases(&rt, rt.alloc(), POSSESSIVE_QUANTIFIERS_GIVE_NOTHING_BACK)
}

const LOOKAHEADS_TAKE_NOTHING: &[Row] = &[
    (b"a(?=b)", b"acab", Some((2, 3)), None),
    (b"a(?!b)", b"abac", Some((2, 3)), None),
    (b"(?=(a+))\\1b", b"aab", Some((0, 3)), Some((0, 2))),
    (b"(?=(a+?))(\\1ab)", b"aab", Some((0, 3)), Some((0, 1))),
    (b"(?=(?>a+))a*b", b"aab", Some((0, 3)), None),
    (b"(?!(a)b)a", b"ac", Some((0, 1)), None),
    (b"(?=(a)|b)", b"b", Some((0, 0)), None),
    (b"(?=a)*b", b"ab", Some((1, 2)), None),
    (b"(?=(a))?", b"b", Some((0, 0)), None),
    (b"(?=(a)){0}a", b"a", Some((0, 1)), None),
    (b"(?=(a)){0,5}a", b"a", Some((0, 1)), Some((0, 1))),
    (b"(?=(.))+?b", b"ab", Some((1, 2)), Some((1, 2))),
    (b"(?!a)+.", b"ab", Some((1, 2)), None),
    (b"(?!a)?a", b"a", Some((0, 1)), None),
    (b"(?=a)++a", b"a", Some((0, 1)), None),
    (b"foo(?=(bar|baz))", b"foobaz", Some((0, 3)), Some((3, 6))),
    (b"(?=.*\\d)(?=.*[a-z])\\w+", b"1a2", Some((0, 3)), None),
    (b"(?=.*\\d)(?=.*[a-z])\\w+", b"12", None, None),
    (b"^(?!.*x)(a|b)*$", b"abab", Some((0, 4)), Some((3, 4))),
    (b"^(?!.*x)(a|b)*$", b"abxb", None, None),
    (b"(?=)a", b"a", Some((0, 1)), None),
    (b"(?!)a", b"a", None, None),
    (b"a|(?!)", b"b", None, None),
    (b"(?=a(?=b(?=c)))", b"aabc", Some((1, 1)), None),
    (b"(?!(?!a))a", b"a", Some((0, 1)), None),
    (b"(?=(?!(a)b)(a))a\\2", b"aa", Some((0, 2)), None),
    (b"(*pla:b).", b"ab", Some((1, 2)), None),
    (
        b"(*positive_lookahead:(b)).",
        b"ab",
        Some((1, 2)),
        Some((1, 2)),
    ),
    (b"(*nla:a).", b"ab", Some((1, 2)), None),
    (b"(*negative_lookahead:a|b).", b"abc", Some((2, 3)), None),
    (b"(?=(?i)B)b", b"b", Some((0, 1)), None),
    (b"((?=ab|(a))a)+", b"aab", Some((0, 2)), Some((1, 2))),
    (b"(a(?=b|(c)))*", b"ab", Some((0, 1)), Some((0, 1))),
    (b"(?:a(?!c))+", b"aaac", Some((0, 2)), None),
];

#[test]
fn lookaheads_take_nothing(rt: HostRuntime) -> Result<(), Fail> {
    cases(&rt, rt.alloc(), LOOKAHEADS_TAKE_NOTHING)
}

const OTHER_WAYS_OF_A_LOOKAHEAD_ARE_TRIED: &[Row] = &[
    (b"(?*a+?)aa(?=b)", b"aab", Some((0, 2)), None),
    (b"(?=(a+?))a*?\\1b", b"aaab", Some((0, 4)), Some((0, 1))),
    (b"(?*(a+?))a\\1b", b"aaab", Some((0, 4)), Some((0, 2))),
    (b"(?=(a+?))a\\1b", b"aaab", Some((1, 4)), Some((1, 2))),
    (b"(*napla:(.)).*?\\1", b"abb", Some((0, 1)), Some((0, 1))),
    (b"^(?*(.*)b)\\1c", b"aab", None, None),
    (
        b"(*non_atomic_positive_lookahead:.*(b))a",
        b"aab",
        Some((0, 1)),
        Some((2, 3)),
    ),
    (b"^(?*.*(\\w)).\\1", b"abcb", Some((0, 2)), Some((3, 4))),
    (b"^(?=.*(\\w)).\\1", b"abcb", Some((0, 2)), Some((3, 4))),
];

#[test]
fn other_ways_of_a_lookahead_are_tried(rt: HostRuntime) -> Result<(), Fail> {
    cases(&rt, rt.alloc(), OTHER_WAYS_OF_A_LOOKAHEAD_ARE_TRIED)
}

const LOOKBEHINDS_LOOK_AT_WHAT_STANDS_BEFORE: &[Row] = &[
    (b"(?<=a)b", b"ab", Some((1, 2)), None),
    (b"(?<=a)b", b"cb", None, None),
    (b"(?<=ab|c)d", b"cd", Some((1, 2)), None),
    (b"(?<=ab|c)d", b"abd", Some((2, 3)), None),
    (b"(?<=ab|c)d", b"bd", None, None),
    (b"(?<!a)b", b"ab", None, None),
    (b"(?<!a)b", b"abcb", Some((3, 4)), None),
    (b"(?<=a{3})b", b"aab", None, None),
    (b"(?<=a{3})b", b"aaab", Some((3, 4)), None),
    (b"(?<=(a|b))c", b"bc", Some((1, 2)), Some((0, 1))),
    (b"(?<!(a))b", b"cb", Some((1, 2)), None),
    (b"(?<=^a)b", b"ab", Some((1, 2)), None),
    (b"(?<=^a)b", b"cab", None, None),
    (b"(?<=\\ba)b", b"-ab", Some((2, 3)), None),
    (b"a(?<=ab)", b"ab", None, None),
    (b"(?<=)a", b"a", Some((0, 1)), None),
    (b"(?<!)a", b"a", None, None),
    (b"(?<=(?<=a)b)c", b"abc", Some((2, 3)), None),
    (b"(?<=(?=ab)a)b", b"ab", Some((1, 2)), None),
    (b"(?<=(?<!a)b)c", b"abc", None, None),
    (b"(?<*a|ba)c", b"bac", Some((2, 3)), None),
    (b"(*plb:a)b", b"ab", Some((1, 2)), None),
    (b"(*negative_lookbehind:a)b", b"ab", None, None),
    (b"(?<=a)*b", b"ab", Some((1, 2)), None),
    (b"(?<=a)+b", b"cb", None, None),
    (b"x*(?<=xx)y", b"xxxy", Some((0, 4)), None),
    (b"(?<=\\d{2})(\\w)", b"a12b", Some((3, 4)), Some((3, 4))),
    (b"(?<=(a)\\1)b", b"aab", Some((2, 3)), Some((0, 1))),
];

#[test]
fn lookbehinds_look_at_what_stands_before(rt: HostRuntime) -> Result<(), Fail> {
    cases(&rt, rt.alloc(), LOOKBEHINDS_LOOK_AT_WHAT_STANDS_BEFORE)
}

const LOOKBEHINDS_STAND_IN_OTHER_PARTS: &[Row] = &[
    (b"(?=x(?<=ax))x", b"ax", Some((1, 2)), None),
    (b"(?=x(?<=ax))x", b"bx", None, None),
    (b"a(?!(?<=a)b)(.)", b"abac", Some((2, 4)), Some((3, 4))),
    (b"(?<=(?>a|b)b)c", b"abc", Some((2, 3)), None),
    (b"(?<=(?>a|b)b)c", b"bc", None, None),
    (b"(?<=(?=(b))b)c", b"bc", Some((1, 2)), Some((0, 1))),
    (b"((?<=a)|b)c", b"bac", Some((2, 3)), Some((2, 2))),
    (b"(?:(?<=a)b|(?<=b)c)+", b"abcb", Some((1, 3)), None),
    (b"(?<=\\Gab)c", b"abc", Some((2, 3)), None),
    (b"a\\K(?<=a)b", b"ab", Some((1, 2)), None),
    (b"(?<=a|bc|def)x", b"bcx", Some((2, 3)), None),
    (b"(?<=a|bc|def)x", b"defx", Some((3, 4)), None),
    (b"(?<=a|bc|def)x", b"efx", None, None),
    (b"(?<!a|bc)(x)", b"axbcxcx", Some((6, 7)), Some((6, 7))),
    (b"(a)(?<!ba)b", b"bab", None, None),
    (b"(a)(?<!ba)b", b"cab", Some((1, 3)), Some((1, 2))),
    (b"(\\w)(?<!\\1\\1)c", b"aac", None, None),
    (b"(\\w)(?<!\\1\\1)c", b"bac", Some((1, 3)), Some((1, 2))),
    (b"(?<=(.)\\1)c", b"abbc", Some((3, 4)), Some((1, 2))),
    (b"(*nlb:a)(b)", b"cb", Some((1, 2)), Some((1, 2))),
    (b"(*naplb:a|(b))c", b"bc", Some((1, 2)), Some((0, 1))),
    (
        b"(*napla:.*(?<=(b)).)a",
        b"aabxa",
        Some((0, 1)),
        Some((2, 3)),
    ),
    (b"(?*a+?)aa(?<*a{2})b", b"aab", Some((0, 3)), None),
    (b"(?<*(a)b|a(b))(?<=\\2)c", b"abc", Some((2, 3)), None),
    (b"(?<=(a)b|a(b))(?<=\\2)c", b"abc", None, None),
];

#[test]
fn lookbehinds_stand_in_other_parts(rt: HostRuntime) -> Result<(), Fail> {
    cases(&rt, rt.alloc(), LOOKBEHINDS_STAND_IN_OTHER_PARTS)
}

const CONDITIONS_CHOOSE_A_BRANCH: &[Row] = &[
    (b"(a)?(?(1)b|c)", b"ac", Some((1, 2)), None),
    (b"(a)?(?(1)b|c)", b"ab", Some((0, 2)), Some((0, 1))),
    (b"(a)?(?(1)b)", b"ac", Some((0, 0)), None),
    (b"^(a)?(?(1)b|c)$", b"c", Some((0, 1)), None),
    (b"(?<n>a)?(?(<n>)b|c)d", b"abd", Some((0, 3)), Some((0, 1))),
    (b"(?<n>a)?(?('n')b|c)d", b"acd", Some((1, 3)), None),
    (b"(?<n>a)?(?(n)b|c)", b"cab", Some((0, 1)), None),
    (b"(a)(b)?(?(-1)c|d)", b"ad", Some((0, 2)), Some((0, 1))),
    (b"(a)(b)?(?(-2)c|d)", b"ac", Some((0, 2)), Some((0, 1))),
    (b"(?(+1)a|b)(c)?", b"bc", Some((0, 2)), Some((1, 2))),
    (b"(?:(?(+1)a|b)(c)?)+", b"bca", Some((0, 3)), Some((1, 2))),
    (b"(?(R)a|b)", b"ab", Some((1, 2)), None),
    (b"(a)(?(R1)b|c)", b"abac", Some((2, 4)), Some((2, 3))),
    (b"(?<n>a)(?(R&n)b|c)", b"ac", Some((0, 2)), Some((0, 1))),
    (b"(?(DEFINE)(a))b", b"ab", Some((1, 2)), None),
    (
        b"(?(DEFINE)(?<n>a|b))c(?(<n>)d|e)",
        b"cdce",
        Some((2, 4)),
        None,
    ),
    (b"(?(1)a|b)(c)?", b"a", None, None),
    (b"(?(1)a)(c)?", b"c", Some((0, 1)), Some((0, 1))),
    (
        b"(?J)(?:(?<n>a)|(?<n>b))(?(<n>)c|d)",
        b"bc",
        Some((0, 2)),
        None,
    ),
    (
        b"(?J)(?:(?<n>a)|(?<n>b)|e)(?(<n>)c|d)",
        b"ed",
        Some((0, 2)),
        None,
    ),
    (
        b"(?:(a)|b)(?(1)c|d)*e",
        b"accce",
        Some((0, 5)),
        Some((0, 1)),
    ),
    (b"(?:(a)|b)(?(1)c|d)++e", b"bdde", Some((0, 4)), None),
    (b"(a)?(?(1)b++|c)b", b"abbb", None, None),
    (b"(?>(a)?)(?(1)b|a)", b"ab", Some((0, 2)), Some((0, 1))),
    (b"(a)?(?(1)(?=b)|c)", b"ab", Some((0, 1)), Some((0, 1))),
    (b"(?(1)|a)()", b"a", Some((0, 1)), Some((1, 1))),
    (b"(?<R>a)?(?(R)b|c)", b"ab", Some((0, 2)), Some((0, 1))),
    (b"(?<R1>a)?(?(R1)b|c)", b"cab", Some((0, 1)), None),
    (b"(?i)(A)?(?(1)B|C)", b"ab", Some((0, 2)), Some((0, 1))),
    (b"((?(1)a|b))+", b"baa", Some((0, 3)), Some((2, 3))),
    (b"(?(1)(?-i)a|(?i)B)(c)?", b"b", Some((0, 1)), None),
    (b"(a)?(?(1)b|c){2}", b"abb", Some((0, 3)), Some((0, 1))),
    (b"(a)?(?(1)b|c){2}?d", b"ccd", Some((0, 3)), None),
    (b"^((a)|b)*(?(2)c|d)$", b"abc", Some((0, 3)), Some((1, 2))),
    (b"^((a)|b)*(?(2)c|d)$", b"bbd", Some((0, 3)), Some((1, 2))),
    (
        b"^(?:(a)|(b)|c)(?(1)x|(?(2)y|z))$",
        b"by",
        Some((0, 2)),
        None,
    ),
    (
        b"^(?:(a)|(b)|c)(?(1)x|(?(2)y|z))$",
        b"cz",
        Some((0, 2)),
        None,
    ),
];

#[test]
fn conditions_choose_a_branch(rt: HostRuntime) -> Result<(), Fail> {
    cases(&rt, rt.alloc(), CONDITIONS_CHOOSE_A_BRANCH)
}

const LOOKAROUNDS_CHOOSE_A_BRANCH: &[Row] = &[
    (b"(?(?=a)ab|cd)", b"ab", Some((0, 2)), None),
    (b"(?(?=a)ab|cd)", b"cd", Some((0, 2)), None),
    (b"(?(?=a)ab|cd)", b"ac", None, None),
    (b"(?(?=a)ab|cd)", b"xcd", Some((1, 3)), None),
    (b"(?(?!a)b|ac)", b"b", Some((0, 1)), None),
    (b"(?(?!a)b|ac)", b"ac", Some((0, 2)), None),
    (b"(?(?!a)b|ac)", b"ab", Some((1, 2)), None),
    (b"x(?(?<=ax)b|c)", b"axb", Some((1, 3)), None),
    (b"x(?(?<=ax)b|c)", b"xc", Some((0, 2)), None),
    (b"x(?(?<=ax)b|c)", b"axc", None, None),
    (b"x(?(?<=ax)b|c)", b"bxb", None, None),
    (b"x(?(?<!ax)b|c)", b"xb", Some((0, 2)), None),
    (b"x(?(?<!ax)b|c)", b"axc", Some((1, 3)), None),
    (b"x(?(?<!ax)b|c)", b"axb", None, None),
    (b"(?(?=(a))b|c)", b"c", Some((0, 1)), None),
    (b"(?(?=(a))b|c)", b"ac", Some((1, 2)), None),
    (b"(?(?=(a))a|c)b", b"ab", Some((0, 2)), Some((0, 1))),
    (b"(?(?=(a))a|c)b", b"cb", Some((0, 2)), None),
    (b"(?(?!(b))a|(bb|b))", b"baab", Some((0, 1)), Some((0, 1))),
    (b"(?(?!(b))a|(bb|b))", b"a", Some((0, 1)), None),
    (b"(?(?=a))b", b"b", Some((0, 1)), None),
    (b"(?(?=a))b", b"ab", Some((1, 2)), None),
    (b"^(?(?=a)a)b", b"ab", Some((0, 2)), None),
    (b"(?(?=a|b)\\w\\w|.)", b"ax", Some((0, 2)), None),
    (b"(?(?=a|b)\\w\\w|.)", b"xa", Some((0, 1)), None),
    (b"(?(?=a|b)\\w\\w|.)", b"bx", Some((0, 2)), None),
    (b"(?:(?(?=a)ab|c))+d", b"abcabd", Some((0, 6)), None),
    (b"(?:(?(?=a)ab|c))+d", b"cd", Some((0, 2)), None),
    (b"(?:(?(?=a)ab|c))+d", b"d", None, None),
    (b"(?(?=a)(?(?=ab)abc|ax)|y)", b"abc", Some((0, 3)), None),
    (b"(?(?=a)(?(?=ab)abc|ax)|y)", b"ax", Some((0, 2)), None),
    (b"(?(?=a)(?(?=ab)abc|ax)|y)", b"y", Some((0, 1)), None),
    (b"(?(?=a)(?(?=ab)abc|ax)|y)", b"ab", None, None),
    (b"(?(?<=^)a|b)c", b"ac", Some((0, 2)), None),
    (b"(?(?<=^)a|b)c", b"xbc", Some((1, 3)), None),
    (b"(?(?<=^)a|b)c", b"xac", None, None),
    (b"a(?(?=b)b|c)++c", b"abbc", None, None),
    (b"a(?(?=b)b|c)++c", b"abcc", None, None),
    (
        b"(?(?=\\d{2}-)\\d{2}-|\\d)(x)",
        b"12-x",
        Some((0, 4)),
        Some((3, 4)),
    ),
    (
        b"(?(?=\\d{2}-)\\d{2}-|\\d)(x)",
        b"1x",
        Some((0, 2)),
        Some((1, 2)),
    ),
    (
        b"(?(?=\\d{2}-)\\d{2}-|\\d)(x)",
        b"123x",
        Some((2, 4)),
        Some((3, 4)),
    ),
    (b"(?(*pla:a)a|b)b", b"ab", Some((0, 2)), None),
    (b"(?(*negative_lookbehind:a)b|c)", b"ac", Some((1, 2)), None),
    (b"(?(?#x)(?=a)a|b)c", b"ac", Some((0, 2)), None),
    (b"(?(?=a)\\w|b(?(?!c)d|ce))", b"ax", Some((0, 1)), None),
    (b"(?(?=a)\\w|b(?(?!c)d|ce))", b"bd", Some((0, 2)), None),
    (b"(?(?=a)\\w|b(?(?!c)d|ce))", b"bc", None, None),
    (b"(?i)(?(?=A)ab|C)", b"AB", Some((0, 2)), None),
    (b"(?i)(?(?=A)ab|C)", b"c", Some((0, 1)), None),
    (b"(?(?=(?i)a)A|b)", b"A", Some((0, 1)), None),
    (b"(?(?=(?i)a)A|b)", b"a", None, None),
    (b"(?(?=(?i)a)A|b)", b"b", Some((0, 1)), None),
    (b"(?(?=a(?=b))a|c)", b"ab", Some((0, 1)), None),
    (b"(?(?=a(?=b))a|c)", b"cb", Some((0, 1)), None),
    (b"(?(?=a(?=b))a|c)", b"ac", Some((1, 2)), None),
    (
        b"(a)?(?(?=b)(?(1)b|bc))$",
        b"ab",
        Some((0, 2)),
        Some((0, 1)),
    ),
    (b"(a)?(?(?=b)(?(1)b|bc))$", b"bc", Some((0, 2)), None),
    (b"(a)?(?(?=b)(?(1)b|bc))$", b"b", Some((1, 1)), None),
    (b"(?(?=.*b)\\w{3}|\\w)", b"aab", Some((0, 3)), None),
    (b"(?(?=.*b)\\w{3}|\\w)", b"aac", Some((0, 1)), None),
    (b"(?(?<=(a))b|c)", b"ab", Some((1, 2)), Some((0, 1))),
    (b"(?(?<=(a))b|c)", b"c", Some((0, 1)), None),
    (b"(?(?<=(a))b|c)", b"b", None, None),
    (b"(?(?!x(y))x|(x)y)", b"xa", Some((0, 1)), None),
    (b"(?(?!x(y))x|(x)y)", b"xy", Some((0, 2)), Some((1, 2))),
    (b"(?(?=a)a|b){2}c", b"bac", Some((0, 3)), None),
    (b"(?(?=a)a|b){2}c", b"aac", Some((0, 3)), None),
];

#[test]
fn lookarounds_choose_a_branch(rt: HostRuntime) -> Result<(), Fail> {
    cases(&rt, rt.alloc(), LOOKAROUNDS_CHOOSE_A_BRANCH)
}
