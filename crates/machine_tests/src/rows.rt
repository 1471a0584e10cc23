//! Patterns at the first place of a subject, each form by itself.
use crate::places::{Change, Row, cases, placed};
use Change::{Captured, Steps, Units};
use frame_machine::{PlaceAnswer, Scratch, Signal};
use pat_tree::MatchOptions;
use std::test::Fail;

const FAILED: PlaceAnswer = PlaceAnswer::Failed {
    signal: Signal::Exhausted,
    hit_end: false,
};

macro_rules! found {
    ($keep:expr, $to:expr) => {
        PlaceAnswer::Matched {
            keep: $keep,
            to: $to,
            mark: None,
        }
    };
}

const A_PLACE_IS_ANSWERED_BY_ANY_WORKSPACE: &[Row] = &[
    (b"(?:ab)*c", b"ababc", found!(0, 5), &[Steps(3)]),
    (b"(?:ab)*c", b"ababc", PlaceAnswer::MatchLimit, &[Steps(2)]),
    (b"(a)", b"a", found!(0, 1), &[Units(2), Captured(0, 1)]),
    (b"(a)", b"a", PlaceAnswer::FrameLimit, &[Units(1)]),
    (b"(a)", b"b", FAILED, &[]),
    (b"(a*)*", b"aab", found!(0, 2), &[Captured(2, 2)]),
    (b"foo\\Kbar", b"foobar", found!(3, 6), &[]),
    (
        b"(a+)*zz",
        b"aaaaaaaaaaaaaaaaaaaaaaaaaaaaaa",
        PlaceAnswer::MatchLimit,
        &[Steps(1000)],
    ),
];

#[test]
fn a_place_is_answered_by_any_workspace(rt: HostRuntime) -> Result<(), Fail> {
    cases(&rt, rt.alloc(), A_PLACE_IS_ANSWERED_BY_ANY_WORKSPACE)
}

const AN_ATOMIC_GROUP_KEEPS_ITS_FIRST_OUTCOME: &[Row] = &[
    (b"(?>a*)a", b"aaa", FAILED, &[]),
    (b"(?>a|ab)c", b"abc", FAILED, &[]),
    (b"(?>a|ab)c", b"ac", found!(0, 2), &[]),
    (b"(?:aa|a)(?>a)ab", b"aaab", found!(0, 4), &[]),
    (b"(?>(a)b)c|a", b"abd", found!(0, 1), &[]),
    (b"(?>(a)b)c|a", b"abc", found!(0, 3), &[Captured(0, 1)]),
    (b"(?>a)", b"a", found!(0, 1), &[Units(2)]),
    (b"(?>a)", b"a", PlaceAnswer::FrameLimit, &[Units(1)]),
    (b"(?>a|b)", b"b", found!(0, 1), &[Steps(2)]),
    (b"(?>a|b)", b"b", PlaceAnswer::MatchLimit, &[Steps(1)]),
];

// To enter an atomic group and to leave it is a unit each, and each of its branches is a Step.
#[test]
fn an_atomic_group_keeps_its_first_outcome(rt: HostRuntime) -> Result<(), Fail> {
    cases(&rt, rt.alloc(), AN_ATOMIC_GROUP_KEEPS_ITS_FIRST_OUTCOME)
}

const A_POSSESSIVE_RUN_GIVES_NOTHING_BACK: &[Row] = &[
    (b"a++ab", b"aaab", FAILED, &[]),
    (b"a{1,2}+ab", b"aaab", found!(0, 4), &[]),
    (b"a{1,2}+ab", b"aab", FAILED, &[]),
    (b"a?+a", b"a", FAILED, &[]),
    (b"a?+a", b"aa", found!(0, 2), &[]),
    (b"(?>a+?)ab", b"aab", found!(0, 3), &[]),
    (b"(?>a+?)b", b"aab", FAILED, &[]),
    (b"a*+b", b"aaab", found!(0, 4), &[Steps(1), Units(3)]),
    (b"a*+b", b"aaab", PlaceAnswer::FrameLimit, &[Units(2)]),
    (b"a*+b", b"aaab", PlaceAnswer::MatchLimit, &[Steps(0)]),
    (b"a++b", b"ab", found!(0, 2), &[Steps(1), Units(2)]),
    (b"a++b", b"ab", PlaceAnswer::FrameLimit, &[Units(1)]),
    (
        b"a++b",
        b"ab",
        PlaceAnswer::MatchLimit,
        &[Steps(0), Units(1)],
    ),
    (
        b"a++b",
        b"ab",
        PlaceAnswer::FrameLimit,
        &[Steps(0), Units(0)],
    ),
    (b"a++b", b"b", FAILED, &[Steps(0), Units(1)]),
    (b"a++b", b"b", PlaceAnswer::FrameLimit, &[Units(0)]),
    (b"(?>a+?)b", b"ab", found!(0, 2), &[Units(3)]),
    (b"(?>a+?)b", b"ab", PlaceAnswer::FrameLimit, &[Units(2)]),
    (b"(?>a{2,2}?)b", b"aab", found!(0, 3), &[Units(2)]),
    (b"(a++)b", b"aab", found!(0, 3), &[Captured(0, 2)]),
    (b"(?:x|a++|aab)c", b"aabc", found!(0, 4), &[]),
    (b"(?:a++b)+", b"aabab", found!(0, 5), &[]),
    (b"(?:a++b)+a", b"aabab", found!(0, 4), &[]),
    (b"aa(?<=a{2}+)b", b"aab", found!(0, 3), &[]),
    (b"(?=a++b)a", b"aab", found!(0, 1), &[]),
    (
        b"\"(?>[^\"\\\\]++|\\\\.)*+\"",
        b"\"ab\\\"c\"d\"",
        found!(0, 7),
        &[],
    ),
];

// To enter an atomic group over a repeat of one item and to leave it is a unit each, and its shorter runs, if there are
// some, are one more. The run that is handed on is a Step.
#[test]
fn a_possessive_run_gives_nothing_back(rt: HostRuntime) -> Result<(), Fail> {
    cases(&rt, rt.alloc(), A_POSSESSIVE_RUN_GIVES_NOTHING_BACK)
}

const RUNS_FAR_FROM_THE_END_ARE_STEPS: &[Row] = &[
    (b"a{2,9}$", b"aaaaaaaaaaaaa", FAILED, &[Steps(8)]),
    (
        b"a{2,9}$",
        b"aaaaaaaaaaaaa",
        PlaceAnswer::MatchLimit,
        &[Steps(7)],
    ),
    (b"(a{2,9})\\Z", b"aaaaa\naaa", FAILED, &[Steps(4)]),
    (
        b"(a{2,9})\\Z",
        b"aaaaa\naaa",
        PlaceAnswer::MatchLimit,
        &[Steps(3)],
    ),
    (b"a+\\z", b"aaaab", FAILED, &[Steps(4)]),
    (b"a+\\z", b"aaaab", PlaceAnswer::MatchLimit, &[Steps(3)]),
    (b".{2,9}$", b"abcd\n", found!(0, 4), &[Steps(1)]),
    (b"[a\\n]+$", b"aaaa\n\n", found!(0, 6), &[Steps(1)]),
    (b"[a\\n]+?$", b"aaaa\n\n", found!(0, 5), &[Steps(5)]),
    (b"[a\\n]{1,3}$", b"aaaa\n\n", FAILED, &[Steps(3)]),
    (b"(?:a+$|a+)b", b"aaaaaab", found!(0, 7), &[]),
];

// The turns of `a{2,9}$` on more bytes than that are known: 8 runs of 9 to 2 characters, each a Step.
#[test]
fn runs_far_from_the_end_are_steps(rt: HostRuntime) -> Result<(), Fail> {
    cases(&rt, rt.alloc(), RUNS_FAR_FROM_THE_END_ARE_STEPS)
}

const A_LOOKAHEAD_GOES_BACK_TO_ITS_PLACE: &[Row] = &[
    (b"(?=(a+))a", b"aab", found!(0, 1), &[Captured(0, 2)]),
    (
        b"(?=(a+))a",
        b"ab",
        found!(0, 1),
        &[Units(4), Captured(0, 1)],
    ),
    (b"(?=(a+))a", b"ab", PlaceAnswer::FrameLimit, &[Units(3)]),
    (b"(?*a)a", b"a", found!(0, 1), &[Units(1)]),
    (b"(?*a)a", b"a", PlaceAnswer::FrameLimit, &[Units(0)]),
    (b"(?!a)(?!a)b", b"b", found!(0, 1), &[Units(1)]),
    (b"(?!a)(?!a)b", b"b", PlaceAnswer::FrameLimit, &[Units(0)]),
    (b"(?!a)(?!a)b", b"a", FAILED, &[]),
    (b"(?!(a)b)ac", b"ac", found!(0, 2), &[]),
];

// To enter a lookahead and to leave it is a unit each. One that keeps all its outcomes is left without one, and a
// negative one leaves the units as they were.
#[test]
fn a_lookahead_goes_back_to_its_place(rt: HostRuntime) -> Result<(), Fail> {
    cases(&rt, rt.alloc(), A_LOOKAHEAD_GOES_BACK_TO_ITS_PLACE)
}

const A_LOOKBEHIND_BEGINS_BEFORE_ITS_PLACE: &[Row] = &[
    (b"a(?<=a)b", b"ab", found!(0, 2), &[]),
    (b"a(?<=a)b", b"ab", found!(0, 2), &[Units(2)]),
    (b"a(?<=a)b", b"ab", PlaceAnswer::FrameLimit, &[Units(1)]),
    (b"a(?<*a)b", b"ab", found!(0, 2), &[Units(1)]),
    (b"(?<=a)b", b"b", FAILED, &[]),
    (b"(?<!a)b", b"b", found!(0, 1), &[]),
    (b"a(?<!a)b", b"ab", FAILED, &[]),
    (b"a(?<=x|(a))b", b"ab", found!(0, 2), &[Captured(0, 1)]),
    (
        b"a(?<=x|(a))b",
        b"ab",
        found!(0, 2),
        &[Steps(2), Captured(0, 1)],
    ),
    (b"a(?<=x|(a))b", b"ab", PlaceAnswer::MatchLimit, &[Steps(1)]),
    (b"ab(?<!x|ab)c", b"abc", FAILED, &[]),
];

// To enter a lookbehind and to leave it is a unit each, and each of its branches is a Step. There is no character
// before the first place.
#[test]
fn a_lookbehind_begins_before_its_place(rt: HostRuntime) -> Result<(), Fail> {
    cases(&rt, rt.alloc(), A_LOOKBEHIND_BEGINS_BEFORE_ITS_PLACE)
}

const A_LOOKBEHIND_IS_TRIED_BY_ITS_LENGTHS: &[Row] = &[
    (
        b"aa(?<=a{1,2})b",
        b"aab",
        found!(0, 3),
        &[Steps(2), Units(4)],
    ),
    (
        b"aa(?<=a{1,2})b",
        b"aab",
        PlaceAnswer::MatchLimit,
        &[Steps(1)],
    ),
    (
        b"aa(?<=a{1,2})b",
        b"aab",
        PlaceAnswer::FrameLimit,
        &[Units(3)],
    ),
    (
        b"aaa(?<=(a{1,3}?))b",
        b"aaab",
        found!(0, 4),
        &[Captured(0, 3)],
    ),
    (b"ab(?<=ab?|c)d", b"abd", found!(0, 3), &[]),
    (b"aa(?<=(a{1,2}?)(*THEN)|(a))c", b"aac", found!(0, 3), &[]),
    (b"c(?<=a{1,2}|c)b", b"cb", found!(0, 2), &[Steps(3)]),
    (
        b"c(?<=a{1,2}|c)b",
        b"cb",
        PlaceAnswer::MatchLimit,
        &[Steps(2)],
    ),
    (b"(?<=a?)b", b"b", found!(0, 1), &[]),
    (b"(?<=a{1,2})b", b"b", FAILED, &[Steps(0)]),
    (b"ab(?<!a?b)c", b"abc", FAILED, &[]),
    (b"axx(?<=a.{0,2})b", b"axxb", found!(0, 4), &[]),
    (b"axxx(?<=a.{0,2})b", b"axxxb", FAILED, &[]),
    (b"xab(?<=(?:a|xa)(?:b|))c", b"xabc", found!(0, 4), &[]),
    (b"aab(?(?<=a{2,3}b)c|d)", b"aabc", found!(0, 4), &[]),
    (b"ab(?(?<=a{2,3}b)c|d)", b"abd", found!(0, 3), &[]),
    (b"aa(?<*(a{1,2}))b|aa", b"aac", found!(0, 2), &[]),
];

// A try and the handing on of a place are a Step each. Units are those of the lookbehind, of a try with one left, of a
// place handed on with one left, and of leaving.
#[test]
fn a_lookbehind_is_tried_by_its_lengths(rt: HostRuntime) -> Result<(), Fail> {
    cases(&rt, rt.alloc(), A_LOOKBEHIND_IS_TRIED_BY_ITS_LENGTHS)
}

#[test]
fn a_million_turns_take_two_steps_each(rt: HostRuntime) -> Result<(), Fail> {
    let alloc = rt.alloc();
    let mut subject = vec![in alloc; b'a'; 1_000_000]?;
    subject.push(b'c')?;
    let mut scratch = Scratch::new(alloc);
    let mut matching = MatchOptions::PLAIN;
    matching.match_limit = 2_000_003;
    let enough = placed(alloc, b"(?:a|b)*c", &subject, &matching, &mut scratch)?;
    assert!(rt; enough.0 == found!(0, 1_000_001));
    matching.match_limit = 2_000_002;
    let few = placed(alloc, b"(?:a|b)*c", &subject, &matching, &mut scratch)?;
    assert!(rt; few.0 == PlaceAnswer::MatchLimit);
    Ok(())
}
