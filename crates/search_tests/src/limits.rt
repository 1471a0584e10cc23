//! The least limits under which searches are answered, where what follows a repeat or begins a branch refuses the place
//! at once (pcre2api, "The match context").
use super::searching::searched;
use frame_machine::Scratch;
use match_drive::MatchAnswer;
use pat_tree::{MatchOptions, Options};
use std::alloc::Global;
use std::process::Abort;
use std::test::Fail;

/// A pattern, a subject, the text of the match, and how many Steps and units it takes at least.
type Row = (
    &'static [u8],
    &'static [u8],
    Option<(usize, usize)>,
    u32,
    u32,
);

/// What is answered under these limits.
fn limited(
    rt: &impl Abort,
    alloc: Global,
    row: &Row,
    limits: (u32, u32),
    scratch: &mut Scratch,
) -> Result<MatchAnswer, Fail> {
    let mut matching = MatchOptions::PLAIN;
    matching.match_limit = limits.0;
    matching.frame_limit = limits.1;
    assert!(rt; row.1.len() < 100);
    let found = searched(alloc, row.0, Options::PLAIN, row.1, 0, &matching, scratch)?;
    Ok(found.0)
}

fn case(rt: &impl Abort, alloc: Global, row: &Row, scratch: &mut Scratch) -> Result<(), Fail> {
    let (steps, units) = (row.3, row.4);
    assert!(rt; steps > 0 && units > 0);
    let answer = match row.2 {
        None => MatchAnswer::NoMatch { mark: None },
        Some((keep, to)) => MatchAnswer::Match {
            keep,
            to,
            mark: None,
        },
    };
    assert!(rt; limited(rt, alloc, row, (steps, units), scratch)? == answer);
    let few_steps = limited(rt, alloc, row, (steps - 1, 99), scratch)?;
    assert!(rt; few_steps == MatchAnswer::MatchLimit);
    let few_units = limited(rt, alloc, row, (99, units - 1), scratch)?;
    assert!(rt; few_units == MatchAnswer::FrameLimit);
    Ok(())
}

fn cases(rt: &impl Abort, alloc: Global, rows: &[Row]) -> Result<(), Fail> {
    let mut scratch = Scratch::new(alloc);
    for row in rows {
        case(rt, alloc, row, &mut scratch)?;
    }
    Ok(())
}

const EACH_SHORTER_RUN_IS_A_STEP: &[Row] = &[
    (b"\\w+;", b"ab;", Some((0, 3)), 1, 1),
    (b"\\w+;", b"abc", None, 3, 1),
    (b"a+ab", b"aaab", Some((0, 4)), 2, 1),
    (b".*\\.h", b"x.h.c", Some((0, 3)), 5, 1),
    (b"[^ ]+ [^ ]+ s", b"ab cd s", Some((0, 7)), 2, 2),
    (b"a{2,}b", b"aaaac", None, 3, 1),
    (b"a*b+c", b"aabx", None, 4, 1),
    (b"(\\w+)\\.", b"ab", None, 2, 3),
    (b"(?:\\w+);", b"ab", None, 2, 1),
    (b"(a{2,})b", b"aaaac", None, 3, 3),
    (b"(a{2,3})b", b"aaaac", None, 2, 3),
    (b"(\\w+)\\.(\\w+)\\(", b"ab.cd(", Some((0, 6)), 2, 6),
    (b"(\\w+)\\.(\\w+)\\(", b"ab.cd", None, 4, 6),
    (b"((a+))b", b"aac", None, 2, 5),
    (b"(?:(a+)b)*c", b"aabaac", Some((5, 6)), 6, 8),
    (b"(?:a+b)*c", b"aabaa", None, 6, 4),
];

#[test]
fn each_shorter_run_is_a_step(rt: HostRuntime) -> Result<(), Fail> {
    cases(&rt, rt.alloc(), EACH_SHORTER_RUN_IS_A_STEP)
}

const EACH_LONGER_RUN_IS_A_STEP: &[Row] = &[
    (b"a+?b", b"aaab", Some((0, 4)), 3, 1),
    (b"a+?b", b"aac", None, 2, 1),
    (b"(a+?)b", b"aaab", Some((0, 4)), 3, 3),
    (b"a{1,3}?b", b"aaab", Some((0, 4)), 3, 1),
    (b"a{1,2}?b", b"aab", Some((0, 3)), 2, 1),
    (b".*?\\.h", b"x.c.h", Some((0, 5)), 4, 1),
];

#[test]
fn each_longer_run_is_a_step(rt: HostRuntime) -> Result<(), Fail> {
    cases(&rt, rt.alloc(), EACH_LONGER_RUN_IS_A_STEP)
}

const EACH_BRANCH_IS_A_STEP: &[Row] = &[
    (b"(?:ab|cd|ef)x", b"efx", Some((0, 3)), 3, 1),
    (b"(?:ab|cd|ef)x", b"efy", None, 3, 1),
    (b"foo|bar|baz", b"baz", Some((0, 3)), 3, 1),
    (b"(a|b|c)d", b"cd", Some((0, 2)), 3, 2),
    (b"ab|ac|ad", b"xad", Some((1, 3)), 3, 1),
    (b"ab|a", b"ab", Some((0, 2)), 1, 1),
    (b"a|ab", b"ab", Some((0, 1)), 1, 1),
    (b"ab|a\\d|a", b"ax", Some((0, 1)), 3, 1),
    (b"abc|abd", b"abx", None, 2, 1),
    (b"abc|ab\\w", b"abx", Some((0, 3)), 2, 1),
];

#[test]
fn each_branch_is_a_step(rt: HostRuntime) -> Result<(), Fail> {
    cases(&rt, rt.alloc(), EACH_BRANCH_IS_A_STEP)
}

const AN_ASSERTION_REFUSES_A_PLACE: &[Row] = &[
    (b"^.{2,4}$", b"abcd", Some((0, 4)), 1, 1),
    (b"^.{2,4}$", b"abc\n", Some((0, 3)), 1, 1),
    (b"^.{2,4}$", b"abcdef", None, 3, 1),
    (b"(?ms)^.{1,4}$", b"a\nbcd", Some((0, 1)), 4, 1),
    (b"a+\\b", b"aab", None, 2, 1),
    (b".+\\b", b"ab c--", Some((0, 4)), 3, 1),
    (b"(a+)\\z", b"aab", None, 2, 3),
    (b"(a+)\\z", b"aabaa", Some((3, 5)), 2, 3),
    (b"a+?\\b", b"aa-", Some((0, 2)), 2, 1),
    (b"(a+?)$", b"aa", Some((0, 2)), 2, 3),
    (b"(?:^b|\\bc|c)", b"xc", Some((1, 2)), 3, 1),
    (b"a+(\\b)", b"aab", None, 2, 2),
];

#[test]
fn an_assertion_refuses_a_place(rt: HostRuntime) -> Result<(), Fail> {
    cases(&rt, rt.alloc(), AN_ASSERTION_REFUSES_A_PLACE)
}

const A_GROUP_THAT_FOLLOWS_HOLDS_A_UNIT: &[Row] = &[
    (b"\\w+(=)", b"ab=", Some((0, 3)), 1, 3),
    (b"\\w+(=)", b"ab", None, 2, 2),
    (b".*(b)", b"abcc", Some((0, 2)), 4, 3),
    (b".*(?:bc)", b"abcd", Some((0, 3)), 4, 1),
    (b".*?(\\d)", b"ab1", Some((0, 3)), 3, 3),
    (b"(a*)(b)", b"aac", None, 3, 4),
    (b"(a*)(b)", b"aab", Some((0, 3)), 1, 5),
];

#[test]
fn a_group_that_follows_holds_a_unit(rt: HostRuntime) -> Result<(), Fail> {
    cases(&rt, rt.alloc(), A_GROUP_THAT_FOLLOWS_HOLDS_A_UNIT)
}

const A_MISSING_BYTE_IS_NO_MATCH_WITHIN_THE_LIMITS: &[Row] = &[
    (b"\\w+;", b"abcdefgh", None, 8, 1),
    (b"(?i)\\w+k", b"abc", None, 3, 1),
    (b"(?i)\\w+k", b"abK", Some((0, 3)), 2, 1),
    (b"a*(?:;|=)", b"aa", None, 9, 2),
    (b"a*(?:;|=)", b"aa=", Some((0, 3)), 3, 2),
    (b"a+;?=", b"aa", None, 4, 1),
    (b"a+;?=", b"aa=", Some((0, 3)), 2, 1),
    (b"a+(?=;)", b"aa", None, 2, 2),
    (b"a+(?!;)", b"aa", Some((0, 2)), 1, 2),
    (b"(?>a+);", b"aa", None, 1, 3),
];

#[test]
fn a_missing_byte_is_no_match_within_the_limits(rt: HostRuntime) -> Result<(), Fail> {
    cases(
        &rt,
        rt.alloc(),
        A_MISSING_BYTE_IS_NO_MATCH_WITHIN_THE_LIMITS,
    )
}

const THE_FIRST_PLACE_OF_A_RUN_MEETS_THE_LIMITS: &[Row] = &[
    (b"\\w+@", b"abcd ef@", Some((5, 8)), 4, 1),
    (b"\\w+@", b"ab abcd", None, 4, 1),
    (b"(\\w+)@", b"abcd ef@", Some((5, 8)), 4, 3),
    (b"(\\w+)@", b"ab abcd", None, 4, 3),
    (b"(\\w+)\\.(\\w+)\\(", b"ab.cd.ef(", Some((3, 9)), 4, 6),
    (b".*\\.h", b"x.c\ny.h", Some((4, 7)), 4, 1),
    (b"((a+)b?)c", b"aaabac", Some((4, 6)), 7, 6),
    (b"(?:x*)\\b", b"--xx", Some((2, 4)), 1, 1),
    (b"a+(?<=aaa)b", b"aab aaab", Some((4, 8)), 2, 3),
    (b"a{2,}b", b"aaaac aab", Some((6, 9)), 3, 1),
    (b"[^ ]+ [^ ]+ s", b"ab cd x ef s", Some((6, 12)), 4, 2),
    (b"(\\w+)_", b"abcdefgh ij kl_", Some((12, 15)), 8, 3),
    (b"(\\w+)_", b"abc d_", Some((4, 6)), 3, 3),
    (
        b"(\\w+)_(\\w+)\\(",
        b"abcdef gh ij_kl(",
        Some((10, 16)),
        6,
        6,
    ),
    (b"(\\w+)_(\\w+)\\(", b"abcde ab_c", None, 5, 5),
    (b"[ab]{2,}b", b"aaaac aab", Some((6, 9)), 3, 1),
    (b"([ab]{2,})b", b"abbbaac aaaaaa aab", Some((0, 4)), 4, 3),
    (b"([ab]+)bc", b"aaaaaaa ab abbc", Some((11, 15)), 7, 3),
];

// The first place of a run takes the most Steps and units. Where it passes a limit, no later one is
// asked.
#[test]
fn the_first_place_of_a_run_meets_the_limits(rt: HostRuntime) -> Result<(), Fail> {
    cases(&rt, rt.alloc(), THE_FIRST_PLACE_OF_A_RUN_MEETS_THE_LIMITS)
}

const FORMS_WITH_BRANCHES_HOLD_UNITS: &[Row] = &[
    (b"a++b", b"aab", Some((0, 3)), 1, 3),
    (b"a++a", b"aaa", None, 1, 3),
    (b"(?:ab)++c", b"ababc", Some((0, 5)), 3, 4),
    (b"(?>a|ab)c", b"ac", Some((0, 2)), 1, 3),
    (b"(?=ab|ac)a", b"ac", Some((0, 1)), 2, 2),
    (b"(?!ab|ac)a", b"ad", Some((0, 1)), 2, 2),
    (b"(?*a|ab)a", b"ab", Some((0, 1)), 1, 2),
    (b"(?*(a)|(ab))ab\\2", b"abab", Some((0, 4)), 2, 4),
    (b"(?<*a|b)c", b"bc", Some((1, 2)), 2, 2),
    (b"(a)?(?(1)b|c)", b"ab", Some((0, 2)), 1, 3),
    (b"(a)?(?(1)b|c)", b"c", Some((0, 1)), 1, 2),
    (b"(?<n>a)?(?(<n>)b|c)", b"ab", Some((0, 2)), 1, 3),
    (b"(?(?=a|b)b|c)", b"b", Some((0, 1)), 2, 2),
    (b"(?(?=a|b)b|c)", b"c", Some((0, 1)), 2, 2),
    (b"(?(?=a)b|(c+))", b"c", Some((0, 1)), 1, 2),
    (b"(?(?!a)b|(a+))", b"a", Some((0, 1)), 1, 4),
    (b"(?(?<!a|b)c|d)", b"c", Some((0, 1)), 2, 2),
    (b"(?|(a)|(b))c", b"bc", Some((0, 2)), 2, 2),
    (b"(?|(a)|(b)(c)|d)e", b"bce", Some((0, 3)), 2, 5),
];

// A test of a condition that fails gives the unit of entering it back.
#[test]
fn forms_with_branches_hold_units(rt: HostRuntime) -> Result<(), Fail> {
    cases(&rt, rt.alloc(), FORMS_WITH_BRANCHES_HOLD_UNITS)
}
