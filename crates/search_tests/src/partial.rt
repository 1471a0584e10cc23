//! Partial matches over all start places (pcre2partial).
use crate::searching::searched;
use frame_machine::Scratch;
use match_drive::MatchAnswer;
use pat_tree::{MatchOptions, Options, PartialMode};
use std::alloc::Global;
use std::process::Abort;
use std::test::Fail;

/// A pattern, a subject, a start, and the answers under the soft rule and under the hard one.
type Row = (
    &'static [u8],
    &'static [u8],
    usize,
    MatchAnswer,
    MatchAnswer,
);

const NONE: MatchAnswer = MatchAnswer::NoMatch { mark: None };

macro_rules! found {
    ($keep:expr, $to:expr) => {
        MatchAnswer::Match {
            keep: $keep,
            to: $to,
            mark: None,
        }
    };
}

macro_rules! partial {
    ($start:expr) => {
        MatchAnswer::Partial {
            start: $start,
            mark: None,
        }
    };
}

fn case(
    rt: &impl Abort,
    alloc: Global,
    row: &Row,
    mode: PartialMode,
    expected: MatchAnswer,
) -> Result<(), Fail> {
    let (pattern, subject, start, _, _) = *row;
    let matching = MatchOptions {
        partial: mode,
        ..MatchOptions::PLAIN
    };
    assert!(rt; subject.len() < 100);
    assert!(rt; start <= subject.len());
    let mut scratch = Scratch::new(alloc);
    let found = searched(
        alloc,
        pattern,
        Options::PLAIN,
        subject,
        start,
        &matching,
        &mut scratch,
    )?;
    assert!(rt; found.0 == expected);
    Ok(())
}

fn cases(rt: &impl Abort, alloc: Global, rows: &[Row]) -> Result<(), Fail> {
    for row in rows {
        case(rt, alloc, row, PartialMode::Soft, row.3)?;
        case(rt, alloc, row, PartialMode::Hard, row.4)?;
    }
    Ok(())
}

const A_PARTIAL_MATCH_IS_THE_FIRST_THAT_COUNTS: &[Row] = &[
    (b"abc", b"xab", 0, partial!(1), partial!(1)),
    (b"abc", b"xabab", 0, partial!(3), partial!(3)),
    (b"aab|ab", b"xaa", 0, partial!(1), partial!(1)),
    (b"abcd|c", b"abc", 0, found!(2, 3), partial!(0)),
    (b"abc", b"ab", 2, NONE, NONE),
    (b"abc", b"ab", 1, NONE, NONE),
    (b"abc", b"abd", 0, NONE, NONE),
    (b"dog(?:sbody)?", b"dog", 0, found!(0, 3), partial!(0)),
    (b"dog(?:sbody)??", b"dog", 0, found!(0, 3), found!(0, 3)),
    (b"a+b", b"xxaaa", 0, partial!(2), partial!(2)),
    (b".+z", b"abc", 0, partial!(0), partial!(0)),
    (b"^abc", b"xab", 0, NONE, NONE),
    (b"^abc", b"ab", 0, partial!(0), partial!(0)),
    (b"\\Aab", b"ba", 0, NONE, NONE),
    (b"(?m)^ab", b"x\na", 0, partial!(2), partial!(2)),
    (b"\\Gab", b"aa", 1, partial!(1), partial!(1)),
    (b"c*+d", b"abcc", 0, partial!(2), partial!(2)),
    (b"(?<=ab)c", b"ab", 0, partial!(2), partial!(2)),
    (b"(?<=ab)c", b"ab", 2, partial!(2), partial!(2)),
    (b"(?<=ab)c", b"xb", 0, NONE, NONE),
    (b"(?<!x)c", b"a", 0, partial!(1), partial!(1)),
    (b"\\bc", b"a", 1, partial!(1), partial!(1)),
    (b"\\bc", b"a.", 2, partial!(2), partial!(2)),
    (b"a\\b", b"xa", 0, found!(1, 2), partial!(1)),
    (b"(?:x|y)?", b"ab", 0, found!(0, 0), found!(0, 0)),
    (b"x?$", b"ab", 0, found!(2, 2), partial!(2)),
    (b"ab\\Kc", b"xab", 0, partial!(1), partial!(1)),
    (b"(?=abc)ab", b"xab", 0, partial!(1), partial!(1)),
    (b"a(?!bc)", b"ab", 0, found!(0, 1), partial!(0)),
    (b"(*NOTEMPTY)a*", b"", 0, partial!(0), partial!(0)),
];

#[test]
fn a_partial_match_is_the_first_that_counts(rt: HostRuntime) -> Result<(), Fail> {
    cases(&rt, rt.alloc(), A_PARTIAL_MATCH_IS_THE_FIRST_THAT_COUNTS)
}

const VERBS_SAY_WHICH_PLACE_COMES_NEXT: &[Row] = &[
    (b"a(*COMMIT)bc|b", b"ab", 0, partial!(0), partial!(0)),
    (b"a(*PRUNE)bc|b", b"ab", 0, found!(1, 2), partial!(0)),
    (b"aa(*SKIP)ab|a", b"aaa", 0, found!(2, 3), partial!(0)),
    (b"a(*FAIL)|ab", b"aa", 0, partial!(1), partial!(1)),
    (b"a(*ACCEPT)b", b"a", 0, found!(0, 1), found!(0, 1)),
    (b"(?:a(*ACCEPT)|b)c", b"b", 0, partial!(0), partial!(0)),
    (b"(?(DEFINE)(a))b(?1)c", b"ba", 0, partial!(0), partial!(0)),
    (b"(a)(?(1)b|c)", b"xa", 0, partial!(1), partial!(1)),
];

#[test]
fn verbs_say_which_place_comes_next(rt: HostRuntime) -> Result<(), Fail> {
    cases(&rt, rt.alloc(), VERBS_SAY_WHICH_PLACE_COMES_NEXT)
}
