//! Verbs at the first place of a subject (pcre2pattern, "Backtracking control").
use crate::places::{Change, Row, cases};
use Change::{Captured, Units};
use frame_machine::{PlaceAnswer, Signal};
use std::test::Fail;

macro_rules! failed {
    ($signal:expr) => {
        PlaceAnswer::Failed {
            signal: $signal,
            hit_end: false,
        }
    };
}

macro_rules! found {
    ($keep:expr, $to:expr, $mark:expr) => {
        PlaceAnswer::Matched {
            keep: $keep,
            to: $to,
            mark: $mark,
        }
    };
}

const A_VERB_ENDS_THE_SEARCH_OF_ITS_PLACE: &[Row] = &[
    (b"a(*COMMIT)b", b"ac", failed!(Signal::Commit), &[]),
    (b"a(*PRUNE)b", b"ac", failed!(Signal::Prune), &[]),
    (b"a(*SKIP)b", b"ac", failed!(Signal::Skip(1)), &[]),
    (b"(?:a(*COMMIT)b|ac)", b"ac", failed!(Signal::Commit), &[]),
    (b"(a(*PRUNE)b)|ac", b"ac", failed!(Signal::Prune), &[]),
    (b"(?:a(*SKIP))*b", b"aaac", failed!(Signal::Skip(3)), &[]),
    (b"(?:a(*SKIP))*?b", b"aac", failed!(Signal::Skip(2)), &[]),
    (b"a(?:b(*SKIP))c", b"abd", failed!(Signal::Skip(2)), &[]),
    (
        b"a(*PRUNE)b(*COMMIT)c",
        b"abd",
        failed!(Signal::Commit),
        &[],
    ),
    (b"a(*COMMIT)b(*PRUNE)c", b"ac", failed!(Signal::Commit), &[]),
    (b"a(*COMMIT)(*FAIL)", b"a", failed!(Signal::Commit), &[]),
    (b"a(*COMMIT)b", b"ab", found!(0, 2, None), &[Units(1)]),
    (b"a(*COMMIT)b", b"ab", PlaceAnswer::FrameLimit, &[Units(0)]),
    (b"(*PRUNE:x)a", b"a", found!(0, 1, Some(0)), &[Units(1)]),
    (b"(*COMMIT:x)(a)", b"b", failed!(Signal::Commit), &[]),
];

// A verb that is backtracked onto ends the search of its place. Each is a unit.
#[test]
fn a_verb_ends_the_search_of_its_place(rt: HostRuntime) -> Result<(), Fail> {
    cases(&rt, rt.alloc(), A_VERB_ENDS_THE_SEARCH_OF_ITS_PLACE)
}

const A_VERB_PASSES_SOME_PARTS_AND_IS_CAUGHT_BY_OTHERS: &[Row] = &[
    (b"(?>a(*SKIP)c|ab)", b"ab", failed!(Signal::Skip(1)), &[]),
    (b"(?>a(*COMMIT))b", b"ac", failed!(Signal::Exhausted), &[]),
    (b"(?=a(*COMMIT)b)a", b"ac", failed!(Signal::Commit), &[]),
    (b"(?=a(*COMMIT))ab", b"ac", failed!(Signal::Exhausted), &[]),
    (b"(?!a(*COMMIT)b)a", b"ac", found!(0, 1, None), &[]),
    (b"(?!(?>a(*SKIP)b|a))a", b"ac", found!(0, 1, None), &[]),
    (b"(?!(?=a(*PRUNE)b)a)a", b"ac", found!(0, 1, None), &[]),
    (b"(?(?=a(*COMMIT)b)x|ac)", b"ac", found!(0, 2, None), &[]),
    (b"(?(?!a(*COMMIT)b)ac|x)", b"ac", found!(0, 2, None), &[]),
    (
        b"(?(?=a(*SKIP)b)x|a(*PRUNE)b)",
        b"ac",
        failed!(Signal::Prune),
        &[],
    ),
    (
        b"(?1)c|ac(?(DEFINE)(a(*COMMIT)b))",
        b"ac",
        found!(0, 2, None),
        &[],
    ),
    (
        b"(a(*PRUNE)b|ac)(?(DEFINE)(?1))",
        b"ac",
        failed!(Signal::Prune),
        &[],
    ),
    (
        b"(a)(?!(?1)(*COMMIT)x)a",
        b"aa",
        found!(0, 2, None),
        &[Captured(0, 1)],
    ),
    (
        b"a(?=(?1)|ac)(b(*SKIP)x)?",
        b"ab",
        failed!(Signal::Exhausted),
        &[],
    ),
];

// What an atomic part or a positive assertion has given up is never backtracked onto. Negative assertions, tests and
// calls catch verbs.
#[test]
fn a_verb_passes_some_parts_and_is_caught_by_others(rt: HostRuntime) -> Result<(), Fail> {
    cases(
        &rt,
        rt.alloc(),
        A_VERB_PASSES_SOME_PARTS_AND_IS_CAUGHT_BY_OTHERS,
    )
}

const SKIP_GOES_ON_WHERE_ITS_NAME_WAS_PASSED: &[Row] = &[
    (
        b"a(*MARK:m)b(*SKIP:m)c",
        b"abd",
        failed!(Signal::Skip(1)),
        &[],
    ),
    (b"a(*SKIP:m)b", b"ac", failed!(Signal::Exhausted), &[]),
    (b"a(*SKIP:m)b|ac", b"ac", found!(0, 2, None), &[]),
    (
        b"(*MARK:m)a(*MARK:n)b(*SKIP:m)c",
        b"abd",
        failed!(Signal::Skip(0)),
        &[],
    ),
    (
        b"a(*MARK:m)b(*MARK:m)c(*SKIP:m)d",
        b"abce",
        failed!(Signal::Skip(2)),
        &[],
    ),
    (
        b"a(*MARK:n)b(*PRUNE:m)c(*SKIP:m)d",
        b"abce",
        failed!(Signal::Prune),
        &[],
    ),
    (
        b"(?:a(*MARK:m)x|a)b(*SKIP:m)c",
        b"abd",
        failed!(Signal::Exhausted),
        &[],
    ),
    (
        b"(?>a(*MARK:m))b(*SKIP:m)c|abd",
        b"abd",
        found!(0, 3, None),
        &[],
    ),
    (
        b"a(*MARK:m)(?:b(*SKIP:m)c)|abd",
        b"abd",
        failed!(Signal::Skip(1)),
        &[],
    ),
    (
        b"a(*MARK:m)(?!b(*SKIP:m)c)b",
        b"abd",
        found!(0, 2, Some(0)),
        &[],
    ),
    (b"a(*SKIP:m)b", b"ab", found!(0, 2, None), &[Units(1)]),
    (b"a(*SKIP:m)b", b"ab", PlaceAnswer::FrameLimit, &[Units(0)]),
];

// SKIP of a name goes on where MARK last passed it; other verbs' names are not looked for.
#[test]
fn skip_goes_on_where_its_name_was_passed(rt: HostRuntime) -> Result<(), Fail> {
    cases(&rt, rt.alloc(), SKIP_GOES_ON_WHERE_ITS_NAME_WAS_PASSED)
}
