//! What is known of trees, worked by hand from the rules.
ghost use Rattle.std.specs.Prelude.{◌<◌, false, length};

use crate::build::{Step, tree_of};
use byte_lanes::ByteSet;
use char_sets::ClassTable;
use pat_check::{CheckError, DfaSupport, Facts, check};
use pat_tree::{AnchorKind, Options};
use std::alloc::Global;
use std::process::Abort;
use std::test::Fail;

/// A tree by its steps, the bytes that every match begins with if they are known, whether an empty text can match, the
/// size, and whether the search for all ends serves it.
type Row = (
    &'static [Step],
    Option<&'static [u8]>,
    bool,
    u32,
    DfaSupport,
);

/// Whether a set has these bytes and no other.
pub(crate) fn is_set(set: &ByteSet, bytes: &[u8]) -> bool {
    let mut all = true;
    for b in 0..256u32 {
        let b = b as u8;
        all = all && set.has(b) == bytes.contains(&b);
    }
    all
}

fn begins_as(facts: &Facts, begins: Option<&'static [u8]>) -> bool {
    match (&facts.lead, begins) {
        (None, None) => true,
        (Some(set), Some(bytes)) => is_set(set, bytes),
        _ => false,
    }
}

/// The facts of the tree of these steps.
pub(crate) fn facts_of(
    alloc: Global,
    options: Options,
    steps: &[Step],
) -> Result<Result<Facts, CheckError>, Fail>
    requires count { length steps.now < 90000 }
{
    let tree = tree_of(alloc, options, steps)?;
    let classes = ClassTable::build(alloc, &tree)?;
    Ok(check(alloc, &tree, &classes))
}

/// The facts of the tree of these steps, where it is not refused.
pub(crate) fn known(alloc: Global, options: Options, steps: &[Step]) -> Result<Facts, Fail> {
    if steps.len() >= 1000 {
        return Err(Fail::new("too many steps"));
    }
    match facts_of(alloc, options, steps)? {
        Ok(facts) => Ok(facts),
        Err(fault) => Err(Fail::from(fault)),
    }
}

fn are_facts(facts: &Facts, row: &Row) -> bool {
    let (_, begins, empty, size, dfa) = *row;
    begins_as(facts, begins)
        && facts.can_be_empty == empty
        && facts.size == size
        && facts.dfa == dfa
}

fn check_all(rt: &impl Abort, alloc: Global, rows: &[Row]) -> Result<(), Fail> {
    for row in rows {
        let facts = known(alloc, Options::PLAIN, row.0)?;
        assert!(rt; are_facts(&facts, row));
    }
    Ok(())
}

pub(crate) const A: Step = Step::Char(97);

pub(crate) const B: Step = Step::Char(98);

pub(crate) const C: Step = Step::Char(99);

pub(crate) const CARET: Step = Step::Anchor(AnchorKind::Caret { multi: false });
// `a?`
pub(crate) const MAYBE: Step = Step::Chars(97, 0, Some(1));

#[test]
fn single_nodes_are_known(rt: HostRuntime) -> Result<(), Fail> {
    use DfaSupport::{Item, Yes};
    use Step::*;
    static ROWS: [Row; 18] = [
        // an empty node, `a`, `(?i)K`, a class, `\R`, `^`, `\K`
        (&[Empty], None, true, 1, Yes),
        (&[A], Some(b"a"), false, 1, Yes),
        (&[AnyCase(75)], Some(b"Kk"), false, 1, Yes),
        (&[Char(300)], Some(b""), false, 1, Yes),
        (&[Class], Some(b"\n\x0B\x0C\r"), false, 1, Yes),
        (&[Break], Some(b"\n\x0B\x0C\r\x85"), false, 1, Yes),
        (&[CARET], None, true, 1, Yes),
        (&[KeepOut], None, true, 1, Item),
        // verbs and a callout
        (&[Fail], None, true, 1, Yes),
        (&[Commit], None, true, 1, Item),
        (&[Accept], None, true, 1, Item),
        (&[Callout], None, true, 1, Yes),
        // `a{2,3}`, `a*`, `a{0}`, `a+`, `a?`, `a{65535}`
        (&[Chars(97, 2, Some(3))], Some(b"a"), false, 4, Yes),
        (&[Chars(97, 0, None)], None, true, 2, Yes),
        (&[Chars(97, 0, Some(0))], None, true, 1, Yes),
        (&[Chars(97, 1, None)], Some(b"a"), false, 3, Yes),
        (&[Chars(97, 0, Some(1))], None, true, 2, Yes),
        (&[Chars(97, 9, Some(65535))], Some(b"a"), false, 65536, Yes),
    ];
    check_all(&rt, rt.alloc(), &ROWS)
}

#[test]
fn parts_branches_and_repeats_are_known_by_their_children(rt: HostRuntime) -> Result<(), Fail> {
    use DfaSupport::{Item, Yes};
    use Step::*;
    static ROWS: [Row; 16] = [
        // `ab`, `a?b`, `^a`, `\Ka`, `a|b`, `a|`, `(a)`
        (&[A, B, Seq(2)], Some(b"a"), false, 3, Yes),
        (
            &[Chars(97, 0, Some(1)), B, Seq(2)],
            Some(b"ab"),
            false,
            4,
            Yes,
        ),
        (&[CARET, A, Seq(2)], Some(b"a"), false, 3, Yes),
        (&[KeepOut, A, Seq(2)], Some(b"a"), false, 3, Item),
        (&[A, B, Group(2)], Some(b"ab"), false, 3, Yes),
        (&[A, Empty, Group(2)], None, true, 3, Yes),
        (&[A, Capture(1, 1)], Some(b"a"), false, 2, Yes),
        // `(?>a|b)`, `(?:ab){2,}`, `(?:a|){3}`, `(?:a){0}`, `(?:a){0,2}b`
        (&[A, B, Atomic(2)], Some(b"ab"), false, 3, Yes),
        (&[A, B, Seq(2), Repeat(2, None)], Some(b"a"), false, 10, Yes),
        (
            &[A, Empty, Group(2), Repeat(3, Some(3))],
            None,
            true,
            10,
            Yes,
        ),
        (&[A, Repeat(0, Some(0))], None, true, 1, Yes),
        (
            &[A, Repeat(0, Some(2)), B, Seq(2)],
            Some(b"ab"),
            false,
            5,
            Yes,
        ),
        // a group without branches matches nothing, a sequence without parts an empty text
        (&[Group(0)], Some(b""), false, 1, Yes),
        (&[Seq(0)], None, true, 1, Yes),
        // nodes beside the root don't count: `b`
        (
            &[Chars(97, 1, None), Behind(1), KeepOut, B],
            Some(b"b"),
            false,
            1,
            Yes,
        ),
        // `(?:(?:a{65535}){65535}){2}`
        (
            &[
                A,
                Repeat(65535, Some(65535)),
                Repeat(65535, Some(65535)),
                Repeat(2, Some(2)),
            ],
            Some(b"a"),
            false,
            4294967295,
            Yes,
        ),
    ];
    check_all(&rt, rt.alloc(), &ROWS)
}

#[test]
fn references_calls_and_conditions_are_known(rt: HostRuntime) -> Result<(), Fail> {
    use DfaSupport::{Cond, Item, Yes};
    use Step::*;
    static ROWS: [Row; 23] = [
        // `(a)\1`, `(a?)\1`, `\1(a)`, `(?1)(a)`, `(?:(?1)|b)(a)`
        (
            &[A, Capture(1, 1), Ref(1), Seq(2)],
            Some(b"a"),
            false,
            4,
            Item,
        ),
        (&[MAYBE, Capture(1, 1), Ref(1), Seq(2)], None, true, 5, Item),
        (&[Ref(1), A, Capture(1, 1), Seq(2)], None, false, 4, Item),
        (&[Call(1), A, Capture(1, 1), Seq(2)], None, false, 4, Item),
        (
            &[Call(1), B, Group(2), A, Capture(1, 1), Seq(2)],
            None,
            false,
            6,
            Item,
        ),
        // `a(?R)?`, `(?R)a`, `(a|(?1)b)`, `(a|(?1))`, `(b|(?1)?)`
        (
            &[A, Call(0), Repeat(0, Some(1)), Seq(2)],
            Some(b"a"),
            false,
            4,
            Item,
        ),
        (&[Call(0), A, Seq(2)], None, false, 3, Item),
        (
            &[A, Call(1), B, Seq(2), Capture(1, 2)],
            None,
            false,
            5,
            Item,
        ),
        (&[A, Call(1), Capture(1, 2)], None, false, 3, Item),
        (
            &[B, Call(1), Repeat(0, Some(1)), Capture(1, 2)],
            None,
            true,
            4,
            Item,
        ),
        // `((?2))((?3))(a?)`: one group leads to the next
        (
            &[
                Call(2),
                Capture(1, 1),
                Call(3),
                Capture(2, 1),
                MAYBE,
                Capture(3, 1),
                Seq(3),
            ],
            None,
            true,
            8,
            Item,
        ),
        // two groups of one number, and more than one group named: a reference may be empty
        (
            &[A, Capture(1, 1), B, Capture(1, 1), Ref(1), Seq(2), Group(2)],
            Some(b"ab"),
            false,
            7,
            Item,
        ),
        (
            &[
                Ref(1),
                Ref(1),
                Seq(2),
                A,
                Capture(1, 1),
                B,
                Capture(1, 1),
                Group(3),
            ],
            None,
            true,
            8,
            Item,
        ),
        (
            &[
                EitherRef(1, 2),
                A,
                Capture(1, 1),
                B,
                Capture(2, 1),
                Group(3),
            ],
            None,
            true,
            6,
            Item,
        ),
        // `(a)(?(1)b|c)`, `(?(1)b)(a)`, `(?(R)a|b)`, `(?(R1)a|b)(c)`, `(?(DEFINE)a)b`
        (
            &[A, Capture(1, 1), B, C, IfSet(1), Seq(2)],
            Some(b"a"),
            false,
            6,
            Cond,
        ),
        (
            &[B, IfSetAlone(1), A, Capture(1, 1), Seq(2)],
            Some(b"ab"),
            false,
            5,
            Cond,
        ),
        (&[A, B, IfCalled], Some(b"ab"), false, 3, Yes),
        (
            &[A, B, IfCalledOf(1), C, Capture(1, 1), Seq(2)],
            Some(b"ab"),
            false,
            6,
            Cond,
        ),
        (&[A, Define, B, Seq(2)], Some(b"b"), false, 4, Yes),
        (
            &[Call(1), A, Define, B, Capture(1, 1), Seq(3)],
            None,
            false,
            6,
            Item,
        ),
        // the leftmost decides, a node before its children
        (
            &[A, Capture(1, 1), Ref(1), A, B, IfSet(1), Seq(3)],
            Some(b"a"),
            false,
            7,
            Item,
        ),
        (
            &[A, Capture(1, 1), Ref(1), KeepOut, IfSet(1), Seq(2)],
            Some(b"a"),
            false,
            6,
            Cond,
        ),
        // `a(*ACCEPT)`
        (&[A, Accept, Seq(2)], None, true, 3, Item),
    ];
    check_all(&rt, rt.alloc(), &ROWS)
}

/// The greatest length of a lookbehind's branch, or a fault and the step of its lookbehind.
#[derive(Clone, Copy)]
enum Looks {
    Back(u32),
    Bad(i32, u32),
}

fn are_looks(known: Result<Facts, CheckError>, told: Looks) -> bool {
    match (known, told) {
        (Ok(facts), Looks::Back(back)) => facts.has_lookbehind && facts.greatest_back == back,
        (Err(CheckError::Bad { number, at }), Looks::Bad(number_told, at_told)) => {
            number == number_told && at == at_told
        }
        _ => false,
    }
}

fn tells_looks(alloc: Global, options: Options, steps: &[Step], told: Looks) -> Result<bool, Fail> {
    if steps.len() >= 1000 {
        return Ok(false);
    }
    Ok(are_looks(facts_of(alloc, options, steps)?, told))
}

#[test]
fn lookbehinds_have_a_length_or_are_refused(rt: HostRuntime) -> Result<(), Fail> {
    use Looks::{Back, Bad};
    use Step::*;
    let plain = Options::PLAIN;
    static ROWS: [(&'static [Step], Looks); 39] = [
        // `(?<=ab|c)d`, `(?<!abc)`, `(?<=a+)b`, `(?<=a?)`, `(?<=a{3})`, `(?<=a{0})`, `(?<=\R)`
        (&[A, B, Seq(2), C, Behind(2), A, Seq(2)], Back(2)),
        (&[A, B, C, Seq(3), NotBehind(1)], Back(3)),
        (&[Chars(97, 1, None), Behind(1), B, Seq(2)], Bad(125, 1)),
        (&[MAYBE, Behind(1)], Back(1)),
        (&[Chars(97, 3, Some(3)), Behind(1)], Back(3)),
        (&[Chars(97, 0, Some(0)), Behind(1)], Back(0)),
        (&[Break, Behind(1)], Back(2)),
        // `(?<=(?:a|bc))`, `(?<=(?:a|b))`, `(?<=(?>ab|cd){2})`, `(?<=(?:a?){2})`
        (&[A, B, C, Seq(2), Group(2), Behind(1)], Back(2)),
        (&[A, B, Group(2), Behind(1)], Back(1)),
        (
            &[
                A,
                B,
                Seq(2),
                C,
                A,
                Seq(2),
                Atomic(2),
                Repeat(2, Some(2)),
                Behind(1),
            ],
            Back(4),
        ),
        (&[MAYBE, Repeat(2, Some(2)), Behind(1)], Back(2)),
        // `(?<=^\K(?=b)(?!c)(*COMMIT)a)`, and an empty branch
        (
            &[
                CARET,
                KeepOut,
                B,
                Ahead(1),
                Commit,
                Callout,
                A,
                Seq(6),
                Behind(1),
            ],
            Back(1),
        ),
        (&[A, Empty, Behind(2)], Back(1)),
        (&[Group(0), Behind(1)], Bad(125, 1)),
        // `(?<=a{1,255})`, `(?<=a{1,256})`, `(?<=a{65535})`, `(?<=a{65535}b)`, `(?<=a{65535}b|c+)`
        (&[Chars(97, 1, Some(255)), Behind(1)], Back(255)),
        (&[Chars(97, 1, Some(256)), Behind(1)], Bad(187, 1)),
        (&[Chars(97, 65535, Some(65535)), Behind(1)], Back(65535)),
        (
            &[Chars(97, 65535, Some(65535)), B, Seq(2), Behind(1)],
            Bad(187, 3),
        ),
        (
            &[
                Chars(97, 65535, Some(65535)),
                B,
                Seq(2),
                Chars(97, 1, None),
                Behind(2),
            ],
            Bad(187, 4),
        ),
        // lengths past 32 bits count as the greatest number
        (
            &[
                A,
                Repeat(65535, Some(65535)),
                Repeat(65535, Some(65535)),
                Repeat(2, Some(2)),
                Behind(1),
            ],
            Bad(187, 4),
        ),
        (
            &[
                A,
                Repeat(65535, Some(65535)),
                Repeat(65535, Some(65535)),
                Repeat(2, Some(3)),
                Behind(1),
            ],
            Bad(187, 4),
        ),
        (
            &[
                A,
                Repeat(65535, Some(65535)),
                Repeat(65535, Some(65535)),
                Repeat(0, Some(3)),
                Behind(1),
            ],
            Bad(187, 4),
        ),
        // `(?<=(a)(?1))`, `(?<=(a)\1)`, `(?<=(a(?1)?))`, `(?<=(?R))`, `(?<=(?1))((?2)?)(b)`
        (&[A, Capture(1, 1), Call(1), Seq(2), Behind(1)], Back(2)),
        (&[A, Capture(1, 1), Ref(1), Seq(2), Behind(1)], Back(2)),
        (
            &[
                A,
                Call(1),
                Repeat(0, Some(1)),
                Seq(2),
                Capture(1, 1),
                Behind(1),
            ],
            Bad(125, 5),
        ),
        (&[Call(0), Behind(1)], Bad(125, 1)),
        (
            &[
                Call(1),
                Behind(1),
                Call(2),
                Repeat(0, Some(1)),
                Capture(1, 1),
                B,
                Capture(2, 1),
                Seq(3),
            ],
            Back(1),
        ),
        // a group that leads to a recursive one: `(?<=(?1))(a(?2){0})((?2)?)`; one that leads back where it takes
        // nothing
        (
            &[
                Call(1),
                Behind(1),
                A,
                Call(2),
                Repeat(0, Some(0)),
                Seq(2),
                Capture(1, 1),
                Call(2),
                Repeat(0, Some(1)),
                Capture(2, 1),
                Seq(3),
            ],
            Back(1),
        ),
        (
            &[
                Call(1),
                Behind(1),
                A,
                Call(1),
                Repeat(0, Some(0)),
                Seq(2),
                Capture(1, 1),
                Seq(2),
            ],
            Bad(125, 1),
        ),
        // `(?<=a(*ACCEPT))`, `(?<=(?=(*ACCEPT))b)`
        (&[A, Accept, Seq(2), Behind(1)], Bad(125, 3)),
        (&[Accept, Ahead(1), B, Seq(2), Behind(1)], Back(1)),
        // two groups of one number, more than one group named, conditions
        (
            &[
                A,
                Capture(1, 1),
                B,
                Capture(1, 1),
                Ref(1),
                Behind(1),
                Seq(3),
            ],
            Bad(125, 5),
        ),
        (
            &[
                A,
                Capture(1, 1),
                B,
                Capture(2, 1),
                EitherRef(1, 2),
                Behind(1),
                Seq(3),
            ],
            Bad(125, 5),
        ),
        (
            &[A, Capture(1, 1), B, C, IfSet(1), Behind(1), Seq(2)],
            Back(1),
        ),
        (
            &[A, Capture(1, 1), B, IfSetAlone(1), Behind(1), Seq(2)],
            Back(1),
        ),
        (&[A, B, Seq(2), Define, C, Seq(2), Behind(1)], Back(1)),
        // the first in the pattern: `(?<=a+)(?<=a{65535}b)` and the other way round, and `(?<=(?<=a+)b+)`
        (
            &[
                Chars(97, 1, None),
                Behind(1),
                Chars(97, 65535, Some(65535)),
                B,
                Seq(2),
                Behind(1),
                Seq(2),
            ],
            Bad(125, 1),
        ),
        (
            &[
                Chars(97, 65535, Some(65535)),
                B,
                Seq(2),
                Behind(1),
                Chars(97, 1, None),
                Behind(1),
                Seq(2),
            ],
            Bad(187, 3),
        ),
        (
            &[
                Chars(97, 1, None),
                Behind(1),
                Chars(98, 1, None),
                Seq(2),
                Behind(1),
            ],
            Bad(125, 4),
        ),
    ];
    for (steps, told) in &ROWS {
        let is_told = tells_looks(rt.alloc(), plain, steps, *told)?;
        assert!(&rt; is_told);
    }
    let unset = Options {
        match_unset_backref: true,
        ..Options::PLAIN
    };
    static UNSET: [(&'static [Step], Looks); 2] = [
        (&[A, Capture(1, 1), Ref(1), Seq(2), Behind(1)], Bad(125, 4)),
        (&[A, Capture(1, 1), Call(1), Seq(2), Behind(1)], Back(2)),
    ];
    for (steps, told) in &UNSET {
        let is_told = tells_looks(rt.alloc(), unset, steps, *told)?;
        assert!(&rt; is_told);
    }
    Ok(())
}
