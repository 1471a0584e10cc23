//! Partial matches at the first place of a subject (pcre2partial). Each row is run under the soft rule and
//! under the hard one.
use crate::places::{Change, Row, cases};
use Change::{Captured, Partially, Steps};
use frame_machine::{PlaceAnswer, Signal};
use pat_tree::PartialMode;
use std::alloc::Global;
use std::process::Abort;
use std::test::Fail;

/// A pattern, a subject, and the answers under the soft rule and under the hard one.
type Pair = (&'static [u8], &'static [u8], PlaceAnswer, PlaceAnswer);

const FAILED: PlaceAnswer = PlaceAnswer::Failed {
    signal: Signal::Exhausted,
    hit_end: false,
};

const HIT: PlaceAnswer = PlaceAnswer::Failed {
    signal: Signal::Exhausted,
    hit_end: true,
};

const PARTIAL: PlaceAnswer = PlaceAnswer::Partial;

macro_rules! found {
    ($keep:expr, $to:expr) => {
        PlaceAnswer::Matched {
            keep: $keep,
            to: $to,
            mark: None,
        }
    };
}

static SOFT: [Change; 1] = [Partially(PartialMode::Soft)];

static HARD: [Change; 1] = [Partially(PartialMode::Hard)];

fn pairs(rt: &impl Abort, alloc: Global, rows: &[Pair]) -> Result<(), Fail> {
    for row in rows {
        let (pattern, subject, soft, hard) = *row;
        cases(rt, alloc, &[(pattern, subject, soft, &SOFT)])?;
        cases(rt, alloc, &[(pattern, subject, hard, &HARD)])?;
    }
    Ok(())
}

const AN_ITEM_AT_THE_END_TELLS_A_PARTIAL_MATCH: &[Pair] = &[
    (b"abc", b"ab", HIT, PARTIAL),
    (b"abc", b"ax", FAILED, FAILED),
    (b"abc", b"abc", found!(0, 3), found!(0, 3)),
    (b"abc", b"", FAILED, FAILED),
    (b"a?b", b"", FAILED, FAILED),
    (b"a?", b"", found!(0, 0), PARTIAL),
    (b"ab|a", b"a", found!(0, 1), PARTIAL),
    (b"a|ab", b"a", found!(0, 1), found!(0, 1)),
    (b"dog(?:sbody)?", b"dog", found!(0, 3), PARTIAL),
    (b"dog(?:sbody)??", b"dog", found!(0, 3), found!(0, 3)),
    (b"[ab].", b"a", HIT, PARTIAL),
    (b"a\\Kb", b"a", HIT, PARTIAL),
    (b"(?:a|b)(?>c|d)", b"b", HIT, PARTIAL),
    (b"(a(?1)?b)", b"aa", HIT, PARTIAL),
    (b"(?(?=ab)ab|x)", b"a", HIT, PARTIAL),
    (b"(?(?=ab)x|a)", b"a", found!(0, 1), PARTIAL),
    (b"(*CRLF)a.", b"a\r", found!(0, 2), PARTIAL),
    (b"(*CRLF)a.", b"ab", found!(0, 2), found!(0, 2)),
    (b"(*CRLF)a\\N+b", b"a\r", HIT, PARTIAL),
    (b"(*LF)a.", b"a\r", found!(0, 2), found!(0, 2)),
];

#[test]
fn an_item_at_the_end_tells_a_partial_match(rt: HostRuntime) -> Result<(), Fail> {
    pairs(&rt, rt.alloc(), AN_ITEM_AT_THE_END_TELLS_A_PARTIAL_MATCH)
}

const RUNS_TELL_THAT_THEY_REACH_THE_END: &[Pair] = &[
    (b"a*", b"aa", found!(0, 2), PARTIAL),
    (b"a{2}", b"aa", found!(0, 2), found!(0, 2)),
    (b"a{1,2}", b"aa", found!(0, 2), found!(0, 2)),
    (b"a{1,3}", b"aa", found!(0, 2), PARTIAL),
    (b"a{3}", b"aa", HIT, PARTIAL),
    (b"a{3}?", b"aa", HIT, PARTIAL),
    (b"a{2}?", b"aa", found!(0, 2), found!(0, 2)),
    (b"a+?", b"aa", found!(0, 1), found!(0, 1)),
    (b"a+?$", b"aa", found!(0, 2), PARTIAL),
    (b"a*b", b"aa", HIT, PARTIAL),
    (b"a*b", b"aac", FAILED, FAILED),
    (b"a*?b", b"aa", HIT, PARTIAL),
    (b"a{0,2}?b", b"aa", HIT, PARTIAL),
    (b"a*+b", b"aa", HIT, PARTIAL),
    (b"a++", b"aa", found!(0, 2), PARTIAL),
    (b"a{2}+", b"aa", found!(0, 2), found!(0, 2)),
    (b"a{3}+", b"aa", HIT, PARTIAL),
    (b"(?>a+?)b", b"a", HIT, PARTIAL),
    (b".*b", b"axx", HIT, PARTIAL),
    (b"(?:ab)*", b"aba", found!(0, 2), PARTIAL),
];

#[test]
fn runs_tell_that_they_reach_the_end(rt: HostRuntime) -> Result<(), Fail> {
    pairs(&rt, rt.alloc(), RUNS_TELL_THAT_THEY_REACH_THE_END)
}

const ASSERTIONS_AND_REFERENCES_TELL_A_PARTIAL_MATCH: &[Pair] = &[
    (b"a$", b"a", found!(0, 1), PARTIAL),
    (b"a$", b"a\n", found!(0, 1), PARTIAL),
    (b"a$", b"ab", FAILED, FAILED),
    (b"a\\Z", b"a\n", found!(0, 1), PARTIAL),
    (b"a\\z", b"a\n", FAILED, FAILED),
    (b"a\\z", b"a", found!(0, 1), PARTIAL),
    (b"(?m)a$", b"a\n", found!(0, 1), found!(0, 1)),
    (b"(?m)a$", b"a", found!(0, 1), PARTIAL),
    (b"(*CRLF)a$", b"a\r", HIT, PARTIAL),
    (b"a\\b", b"a", found!(0, 1), PARTIAL),
    (b"a\\B", b"a", HIT, PARTIAL),
    (b"\\b", b"", HIT, PARTIAL),
    (b"^", b"", found!(0, 0), found!(0, 0)),
    (b"a\\R", b"a\r", found!(0, 2), PARTIAL),
    (b"a\\R", b"a\r\n", found!(0, 3), found!(0, 3)),
    (b"a\\R", b"a", HIT, PARTIAL),
    (b"(?=ab)a", b"a", HIT, PARTIAL),
    (b"(?!ab)a", b"a", found!(0, 1), PARTIAL),
    (b"(?<!a)b", b"", HIT, PARTIAL),
    (b"(?<=a)b", b"", FAILED, FAILED),
    (b"a(?<=ab)", b"a", FAILED, FAILED),
    (b"(ab)\\1", b"aba", HIT, PARTIAL),
    (b"(ab)\\1", b"abx", FAILED, FAILED),
    (b"(ab)\\1c", b"ab", HIT, PARTIAL),
    (b"(?i)(ab)\\1", b"abA", HIT, PARTIAL),
    (b"(a)?b\\1", b"b", FAILED, FAILED),
    (b"a(*COMMIT)b", b"ax", COMMITTED, COMMITTED),
    (b"a(*COMMIT)b", b"a", COMMITTED_AT_END, PARTIAL),
];

#[test]
fn assertions_and_references_tell_a_partial_match(rt: HostRuntime) -> Result<(), Fail> {
    pairs(
        &rt,
        rt.alloc(),
        ASSERTIONS_AND_REFERENCES_TELL_A_PARTIAL_MATCH,
    )
}

const COMMITTED: PlaceAnswer = PlaceAnswer::Failed {
    signal: Signal::Commit,
    hit_end: false,
};

const COMMITTED_AT_END: PlaceAnswer = PlaceAnswer::Failed {
    signal: Signal::Commit,
    hit_end: true,
};

const LIMITS_AND_CAPTURES_STAY_UNDER_PARTIAL_MATCHING: &[Row] = &[
    (
        b"(a*)\\1",
        b"aab",
        found!(0, 2),
        &[Partially(PartialMode::Soft), Captured(0, 1)],
    ),
    (
        b"(a*)\\1",
        b"aab",
        found!(0, 2),
        &[Partially(PartialMode::Hard), Captured(0, 1)],
    ),
    (
        b"(a+)*zz",
        b"aaaaaaaaaaaaaaaaaaaaaaaaaaaaaa",
        PlaceAnswer::MatchLimit,
        &[Partially(PartialMode::Soft), Steps(1000)],
    ),
    (
        b"a*b",
        b"aaa",
        PARTIAL,
        &[Partially(PartialMode::Hard), Steps(0)],
    ),
    (
        b"a*b",
        b"aaa",
        PlaceAnswer::MatchLimit,
        &[Partially(PartialMode::Soft), Steps(3)],
    ),
    (
        b"a*b",
        b"aaa",
        HIT,
        &[Partially(PartialMode::Soft), Steps(4)],
    ),
    (
        b"a*?b",
        b"aaa",
        HIT,
        &[Partially(PartialMode::Soft), Steps(4)],
    ),
    (
        b"a*?b",
        b"aaa",
        PlaceAnswer::MatchLimit,
        &[Partially(PartialMode::Soft), Steps(3)],
    ),
];

#[test]
fn limits_and_captures_stay_under_partial_matching(rt: HostRuntime) -> Result<(), Fail> {
    cases(
        &rt,
        rt.alloc(),
        LIMITS_AND_CAPTURES_STAY_UNDER_PARTIAL_MATCHING,
    )
}
