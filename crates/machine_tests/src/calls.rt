//! Calls of groups at the first place of a subject (pcre2pattern, "Recursive patterns", "Groups as subroutines").
use crate::places::{Change, Row, cases, placed};
use Change::{Captured, Steps, Units};
use frame_machine::{PlaceAnswer, Scratch, Signal};
use frame_store::Span;
use pat_tree::MatchOptions;
use std::alloc::Global;
use std::process::Abort;
use std::test::Fail;

const FAILED: PlaceAnswer = PlaceAnswer::Failed {
    signal: Signal::Exhausted,
    hit_end: false,
};

macro_rules! found {
    ($keep:expr, $to:expr) => {
        PlaceAnswer::Matched {
            keep: $keep,
            to: $to,
            mark: None,
        }
    };
}

const A_CALL_GIVES_CAPTURES_BACK: &[Row] = &[
    (b"(a(?1)?b)", b"aabb", found!(0, 4), &[Captured(0, 4)]),
    (b"(a(?1)?b)", b"aaabbbb", found!(0, 6), &[Captured(0, 6)]),
    (b"(a(?1)?b)", b"aa", FAILED, &[]),
    (b"a(?R)?b", b"aabb", found!(0, 4), &[]),
    (b"(a|b)(?1)", b"ab", found!(0, 2), &[Captured(0, 1)]),
    (b"(?1)(a|b)", b"ab", found!(0, 2), &[Captured(1, 2)]),
    (
        b"(a)(?1)",
        b"aa",
        found!(0, 2),
        &[Steps(1), Units(6), Captured(0, 1)],
    ),
    (
        b"(a)(?1)",
        b"aa",
        PlaceAnswer::FrameLimit,
        &[Steps(1), Units(5)],
    ),
    (
        b"(a)(?1)",
        b"aa",
        PlaceAnswer::MatchLimit,
        &[Steps(0), Units(6)],
    ),
    // the capture is the same text again
    (
        b"(?=(a))(?1)",
        b"a",
        found!(0, 1),
        &[Units(7), Captured(0, 1)],
    ),
];

// A call is a Step and a unit, and each capture that is given back is a unit.
#[test]
fn a_call_gives_captures_back(rt: HostRuntime) -> Result<(), Fail> {
    cases(&rt, rt.alloc(), A_CALL_GIVES_CAPTURES_BACK)
}

const A_CALL_IS_GONE_BACK_INTO: &[Row] = &[
    (b"(a|ab)(?1)c", b"aabc", found!(0, 4), &[Captured(0, 1)]),
    (b"(a|ab)(?1)c", b"ababc", found!(0, 5), &[Captured(0, 2)]),
    (b"(a+)(?1)b", b"aaab", found!(0, 4), &[Captured(0, 2)]),
    (b"(?>(a|ab)(?1))c", b"aabc", FAILED, &[]),
    (b"(?>(?1))a(?(DEFINE)(a+))", b"aaa", FAILED, &[]),
    (b"(?1)a(?(DEFINE)(a+))", b"aaa", found!(0, 3), &[]),
];

#[test]
fn a_call_is_gone_back_into(rt: HostRuntime) -> Result<(), Fail> {
    cases(&rt, rt.alloc(), A_CALL_IS_GONE_BACK_INTO)
}

const A_CALL_AT_THE_SAME_PLACE_IS_A_LOOP: &[Row] = &[
    (b"((?1)a|b)", b"b", PlaceAnswer::Loop, &[]),
    (b"(?R)", b"a", PlaceAnswer::Loop, &[Steps(2), Units(1)]),
    (
        b"(?R)",
        b"a",
        PlaceAnswer::MatchLimit,
        &[Steps(1), Units(1)],
    ),
    (
        b"(?R)",
        b"a",
        PlaceAnswer::FrameLimit,
        &[Steps(2), Units(0)],
    ),
    (b"((?2)a)((?1)b)", b"ab", PlaceAnswer::Loop, &[]),
    (b"(a?(?1)b|c)", b"aac", PlaceAnswer::Loop, &[]),
    (
        b"(a(?=(?2))(?1)|b)(c?)",
        b"aab",
        found!(0, 3),
        &[Captured(0, 3)],
    ),
    (
        b"(?:(?=(?1))(?1))(a)",
        b"aa",
        found!(0, 2),
        &[Captured(1, 2)],
    ),
];

// A Step is compared first, then the loop, then the unit.
#[test]
fn a_call_at_the_same_place_is_a_loop(rt: HostRuntime) -> Result<(), Fail> {
    cases(&rt, rt.alloc(), A_CALL_AT_THE_SAME_PLACE_IS_A_LOOP)
}

// What a pattern answers on so many letters `a` and letters `b` after them, by this many Steps.
fn nested(
    rt: &impl Abort,
    alloc: Global,
    pattern: &[u8],
    first: usize,
    second: usize,
    steps: u32,
) -> Result<(PlaceAnswer, Option<Span>), Fail> {
    let mut subject = vec![in alloc; b'a'; first]?;
    let rest = vec![in alloc; b'b'; second]?;
    subject.extend_from_slice(&rest)?;
    let mut matching = MatchOptions::PLAIN;
    matching.match_limit = steps;
    let mut scratch = Scratch::new(alloc);
    assert!(rt; subject.len() < 100_000);
    placed(alloc, pattern, &subject, &matching, &mut scratch)
}

#[test]
fn nested_calls_take_two_steps_each(rt: HostRuntime) -> Result<(), Fail> {
    let alloc = rt.alloc();
    let balanced = nested(&rt, alloc, b"^((?>a(?1)?b))$", 30_000, 30_000, 60_000)?;
    assert!(rt; balanced.0 == found!(0, 60_000));
    assert!(rt; balanced.1.map(|span| (span.from, span.to)) == Some((0, 60_000)));
    let few = nested(&rt, alloc, b"^((?>a(?1)?b))$", 30_000, 30_000, 59_999)?;
    assert!(rt; few.0 == PlaceAnswer::MatchLimit);
    let ahead = nested(&rt, alloc, b"(a(?=(?1)?))", 30_000, 0, 60_000)?;
    assert!(rt; ahead.0 == found!(0, 1));
    assert!(rt; ahead.1.map(|span| (span.from, span.to)) == Some((0, 1)));
    Ok(())
}
