//! What searches find.
ghost use Rattle.std.specs.Prelude.{◌≡◌, ◌≤◌, ◌<◌, false, length};
ghost use Rattle.char_sets.specs.Table.{IsTableOf};
ghost use Rattle.frame_board.specs.Ready.{AreFactsOf};

use Change::{Captured, Limited};
use char_sets::ClassTable;
use frame_machine::{Ready, Scratch};
use frame_store::Span;
use match_drive::{MatchAnswer, search};
use match_items::View;
use pat_build::read;
use pat_check::{Facts, check};
use pat_tree::{MatchOptions, Options, Tree};
use pcre_io::NoCallouts;
use std::alloc::Global;
use std::process::Abort;
use std::test::Fail;

/// A pattern, a subject, the answer of the search, and what differs from a plain search.
type Row = (&'static [u8], &'static [u8], MatchAnswer, &'static [Change]);

/// What differs from a plain search after which group 1 is unset.
#[derive(Clone, Copy)]
enum Change {
    /// The greatest numbers of Steps and of units.
    Limited(u32, u32),
    /// What group 1 captured.
    Captured(u64, u64),
}

/// How a search is made, and what group 1 captured in its match.
#[derive(Clone, Copy)]
struct Search {
    matching: MatchOptions,
    group: Option<(u64, u64)>,
}

const NOT_FOUND: MatchAnswer = MatchAnswer::NoMatch { mark: None };

const STEPS: MatchAnswer = MatchAnswer::MatchLimit;

const UNITS: MatchAnswer = MatchAnswer::FrameLimit;

macro_rules! found {
    ($keep:expr, $to:expr) => {
        MatchAnswer::Match {
            keep: $keep,
            to: $to,
            mark: None,
        }
    };
}

impl Search {
    fn change(&mut self, change: Change) {
        match change {
            Limited(match_limit, frame_limit) => {
                self.matching.match_limit = match_limit;
                self.matching.frame_limit = frame_limit;
            }
            Captured(from, to) => self.group = Some((from, to)),
        }
    }
}

/// A plain search with these changes.
fn search_with(changes: &[Change]) -> Search {
    let mut search = Search {
        matching: MatchOptions::PLAIN,
        group: None,
    };
    for change in changes {
        search.change(*change);
    }
    search
}

/// What a search of a finished tree answers.
fn answer_of<'a>(
    tree: &'a Tree,
    classes: &'a ClassTable,
    facts: &'a Facts,
    subject: &[u8],
    start: usize,
    matching: &MatchOptions,
    scratch: &mut Scratch,
) -> MatchAnswer
    requires table { IsTableOf tree.now classes.now }
    requires facts { AreFactsOf tree.now facts.now }
    requires start { start ≤ length subject.now }
    requires short { length subject.now < 4294967295 }
    requires bytes { tree.now.options.utf ≡ false }
{
    let ready = Ready {
        tree,
        classes,
        facts,
    };
    let view = View {
        subject,
        start,
        options: tree.options(),
        matching,
    };
    search(&ready, &view, scratch, &mut NoCallouts)
}

/// What a search answers, and what group 1 captured.
pub(crate) fn searched(
    alloc: Global,
    pattern: &[u8],
    options: Options,
    subject: &[u8],
    start: usize,
    matching: &MatchOptions,
    scratch: &mut Scratch,
) -> Result<(MatchAnswer, Option<Span>), Fail>
    requires start { start ≤ length subject.now }
    requires short { length subject.now < 4294967295 }
{
    let tree = read(alloc, pattern, options)?;
    // the rows are searched byte by byte
    if tree.options().utf {
        return Ok((MatchAnswer::NoMatch { mark: None }, None));
    }
    let classes = ClassTable::build(alloc, &tree)?;
    let facts = check(alloc, &tree, &classes)?;
    let answer = answer_of(&tree, &classes, &facts, subject, start, matching, scratch);
    Ok((answer, scratch.span(1)))
}

/// A row is answered by a workspace.
fn case(rt: &impl Abort, alloc: Global, row: &Row, scratch: &mut Scratch) -> Result<(), Fail> {
    let (pattern, subject, expected, changes) = *row;
    let wanted = search_with(changes);
    assert!(rt; subject.len() < 100);
    let (answer, group) = searched(
        alloc,
        pattern,
        Options::PLAIN,
        subject,
        0,
        &wanted.matching,
        scratch,
    )?;
    assert!(rt; answer == expected);
    if matches!(answer, MatchAnswer::Match { .. }) {
        assert!(rt; group.map(|span| (span.from, span.to)) == wanted.group);
    }
    Ok(())
}

/// Each row is answered by a new workspace, and by one that served all the rows before.
fn cases(rt: &impl Abort, alloc: Global, rows: &[Row]) -> Result<(), Fail> {
    let mut used = Scratch::new(alloc);
    for row in rows {
        case(rt, alloc, row, &mut Scratch::new(alloc))?;
        case(rt, alloc, row, &mut used)?;
    }
    Ok(())
}

const LIMITS_ON_STEPS_ARE_EXACT: &[Row] = &[
    (b"(?:ab)*c", b"ababc", found!(0, 5), &[Limited(3, 99)]),
    (
        b"(?:ab)*c",
        b"ababc",
        MatchAnswer::MatchLimit,
        &[Limited(2, 99)],
    ),
    (b"a*b", b"aacab", found!(3, 5), &[Limited(3, 99)]),
    (b"a*b", b"aacab", MatchAnswer::MatchLimit, &[Limited(2, 99)]),
    (b"a*?b", b"aaab", found!(0, 4), &[Limited(4, 99)]),
    (b"a*?b", b"aaab", MatchAnswer::MatchLimit, &[Limited(3, 99)]),
    (b"(?:a|b)c", b"bc", found!(0, 2), &[Limited(2, 99)]),
    (
        b"(?:a|b)c",
        b"bc",
        MatchAnswer::MatchLimit,
        &[Limited(1, 99)],
    ),
    (b"(?:a|b)*c", b"aac", found!(0, 3), &[Limited(7, 99)]),
    (
        b"(?:a|b)*c",
        b"aac",
        MatchAnswer::MatchLimit,
        &[Limited(6, 99)],
    ),
    (b"(?:a|b)*?c", b"aac", found!(0, 3), &[Limited(4, 99)]),
    (
        b"(?:a|b)*?c",
        b"aac",
        MatchAnswer::MatchLimit,
        &[Limited(3, 99)],
    ),
    (b"(*LIMIT_MATCH=3)(?:ab)*c", b"ababc", found!(0, 5), &[]),
    (
        b"(*LIMIT_MATCH=2)(?:ab)*c",
        b"ababc",
        MatchAnswer::MatchLimit,
        &[],
    ),
    (
        b"(*LIMIT_MATCH=9)(?:ab)*c",
        b"ababc",
        MatchAnswer::MatchLimit,
        &[Limited(2, 99)],
    ),
    (
        b"(a+)*zz",
        b"aaaaaaaaaaaaaaaaaaaaaaaaaaaaaa",
        MatchAnswer::MatchLimit,
        &[Limited(1000, 99)],
    ),
];

// Steps are counted anew at each place, and a limit of the pattern only lowers that of the match.
#[test]
fn limits_on_steps_are_exact(rt: HostRuntime) -> Result<(), Fail> {
    cases(&rt, rt.alloc(), LIMITS_ON_STEPS_ARE_EXACT)
}

const LIMITS_ON_UNITS_ARE_EXACT: &[Row] = &[
    (
        b"(a)",
        b"a",
        found!(0, 1),
        &[Captured(0, 1), Limited(99, 2)],
    ),
    (b"(a)", b"a", MatchAnswer::FrameLimit, &[Limited(99, 1)]),
    (
        b"(a)(b)",
        b"ab",
        found!(0, 2),
        &[Captured(0, 1), Limited(99, 4)],
    ),
    (b"(a)(b)", b"ab", MatchAnswer::FrameLimit, &[Limited(99, 3)]),
    (b"a*b", b"aaab", found!(0, 4), &[Limited(99, 1)]),
    (b"a*b", b"aaab", MatchAnswer::FrameLimit, &[Limited(99, 0)]),
    (b"a{3}b", b"aaab", found!(0, 4), &[Limited(99, 0)]),
    (b"a{3}b", b"aaab", MatchAnswer::MatchLimit, &[Limited(0, 0)]),
    (b"(?:a|b)c", b"bc", found!(0, 2), &[Limited(99, 1)]),
    (
        b"(?:a|b)c",
        b"bc",
        MatchAnswer::FrameLimit,
        &[Limited(99, 0)],
    ),
    (
        b"(?:a|b)c",
        b"bc",
        MatchAnswer::MatchLimit,
        &[Limited(0, 0)],
    ),
    (b"(?:a|b)*c", b"aac", found!(0, 3), &[Limited(99, 6)]),
    (
        b"(?:a|b)*c",
        b"aac",
        MatchAnswer::FrameLimit,
        &[Limited(99, 5)],
    ),
    (b"(?:a|b)*?c", b"aac", found!(0, 3), &[Limited(99, 5)]),
    (
        b"(?:a|b)*?c",
        b"aac",
        MatchAnswer::FrameLimit,
        &[Limited(99, 4)],
    ),
    (b"abc", b"xabc", found!(1, 4), &[Limited(0, 0)]),
];

// At one event the Step is compared first, then the unit.
#[test]
fn limits_on_units_are_exact(rt: HostRuntime) -> Result<(), Fail> {
    cases(&rt, rt.alloc(), LIMITS_ON_UNITS_ARE_EXACT)
}

const LIMITS_OF_A_LOOKBEHIND_ARE_EXACT: &[Row] = &[
    (b"(?<=a|b)c", b"bc", found!(1, 2), &[Limited(2, 2)]),
    (
        b"(?<=a|b)c",
        b"bc",
        MatchAnswer::MatchLimit,
        &[Limited(1, 99)],
    ),
    (
        b"(?<=a|b)c",
        b"bc",
        MatchAnswer::FrameLimit,
        &[Limited(99, 1)],
    ),
    (b"(?<!a|b)c", b"dc", found!(1, 2), &[Limited(2, 2)]),
    (
        b"(?<!a|b)c",
        b"dc",
        MatchAnswer::MatchLimit,
        &[Limited(1, 99)],
    ),
    (
        b"(?<!a|b)c",
        b"dc",
        MatchAnswer::FrameLimit,
        &[Limited(99, 1)],
    ),
];

// Each branch of a lookbehind is a Step, and to enter it, to leave it where it is true and to keep a branch are units.
#[test]
fn limits_of_a_lookbehind_are_exact(rt: HostRuntime) -> Result<(), Fail> {
    cases(&rt, rt.alloc(), LIMITS_OF_A_LOOKBEHIND_ARE_EXACT)
}

// Without the `=` nine Steps and two units are taken at most, which the bound of what stands before
// it says within 2 · 3² Steps.
const A_MISSING_TEXT_HIDES_NO_LIMIT: &[Row] = &[
    (b".*.*=.*", b"ab", NOT_FOUND, &[Limited(18, 2)]),
    (b".*.*=.*", b"ab", NOT_FOUND, &[Limited(17, 2)]),
    (b".*.*=.*", b"ab", NOT_FOUND, &[Limited(9, 2)]),
    (b".*.*=.*", b"ab", STEPS, &[Limited(8, 2)]),
    (b".*.*=.*", b"ab", UNITS, &[Limited(18, 1)]),
    (b".*.*=.*", b"a=", found!(0, 2), &[Limited(18, 2)]),
    (b"(.*)=a*a*", b"aaa", NOT_FOUND, &[Limited(4, 3)]),
    (b"(.*)=a*a*", b"aaa", STEPS, &[Limited(3, 3)]),
    (b"(.*)=a*a*", b"aaa", UNITS, &[Limited(4, 2)]),
];

#[test]
fn a_missing_text_hides_no_limit(rt: HostRuntime) -> Result<(), Fail> {
    cases(&rt, rt.alloc(), A_MISSING_TEXT_HIDES_NO_LIMIT)
}

// A million turns take two Steps each, and the exit that they wait for takes a unit more.
#[test]
fn a_million_lazy_turns_take_two_steps_each(rt: HostRuntime) -> Result<(), Fail> {
    let alloc = rt.alloc();
    let mut subject = vec![in alloc; b'a'; 1_000_000]?;
    subject.push(b'c')?;
    let mut scratch = Scratch::new(alloc);
    let mut matching = MatchOptions::PLAIN;
    matching.match_limit = 2_000_000;
    let enough = searched(
        alloc,
        b"(?:a|b)*?c",
        Options::PLAIN,
        &subject,
        0,
        &matching,
        &mut scratch,
    )?;
    assert!(rt; enough.0 == found!(0, 1_000_001));
    matching.match_limit = 1_999_999;
    let few = searched(
        alloc,
        b"(?:a|b)*?c",
        Options::PLAIN,
        &subject,
        0,
        &matching,
        &mut scratch,
    )?;
    assert!(rt; few.0 == MatchAnswer::MatchLimit);
    Ok(())
}
