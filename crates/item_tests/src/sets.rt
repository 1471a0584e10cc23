//! Classes by their tables: sets, ranges and properties, with and without case, UTF and UCP.
ghost use Rattle.std.specs.Prelude.{◌≡◌, ◌<◌, ◌∷◌, [], length, IfOk};

use char_sets::ClassTable;
use pat_tree::{ClassSpec, Draft, Item, ListOf, Node, Options, Part, SetName, Steps, Tree};
use std::alloc::Global;
use std::marker::Brand;
use std::process::Abort;
use std::sync::ledger::{Blank, Ledger};
use std::test::Fail;

type Ranges = &'static [(u32, u32)];

// The sets of the C locale's <ctype.h>, printed once from the C library, and those of the manual page pcre2pattern.
const SETS: &[(SetName, Ranges)] = &[
    (SetName::Digit, &[(0x30, 0x39)]),
    (SetName::Space, &[(0x09, 0x0D), (0x20, 0x20)]),
    (
        SetName::Word,
        &[(0x30, 0x39), (0x41, 0x5A), (0x5F, 0x5F), (0x61, 0x7A)],
    ),
    (SetName::Alpha, &[(0x41, 0x5A), (0x61, 0x7A)]),
    (SetName::Alnum, &[(0x30, 0x39), (0x41, 0x5A), (0x61, 0x7A)]),
    (SetName::Lower, &[(0x61, 0x7A)]),
    (SetName::Upper, &[(0x41, 0x5A)]),
    (SetName::Blank, &[(0x09, 0x09), (0x20, 0x20)]),
    (SetName::Cntrl, &[(0x00, 0x1F), (0x7F, 0x7F)]),
    (SetName::Graph, &[(0x21, 0x7E)]),
    (SetName::Print, &[(0x20, 0x7E)]),
    (
        SetName::Punct,
        &[(0x21, 0x2F), (0x3A, 0x40), (0x5B, 0x60), (0x7B, 0x7E)],
    ),
    (SetName::Ascii, &[(0x00, 0x7F)]),
    (SetName::Xdigit, &[(0x30, 0x39), (0x41, 0x46), (0x61, 0x66)]),
    (
        SetName::H,
        &[
            (0x09, 0x09),
            (0x20, 0x20),
            (0xA0, 0xA0),
            (0x1680, 0x1680),
            (0x180E, 0x180E),
            (0x2000, 0x200A),
            (0x202F, 0x202F),
            (0x205F, 0x205F),
            (0x3000, 0x3000),
        ],
    ),
    (SetName::V, &[(0x0A, 0x0D), (0x85, 0x85), (0x2028, 0x2029)]),
];

pub(crate) fn class(
    alloc: Global,
    negated: bool,
    caseless: bool,
    parts: &[Part],
) -> Result<ClassSpec, Fail>
    ensures { IfOk result (λ spec. spec.parts ≡ parts.now) }
{
    let parts = ListOf::from_vec(Vec::from_slice(alloc, parts)?);
    Ok(ClassSpec {
        negated,
        caseless,
        parts,
    })
}

fn is_listed(ranges: Ranges, c: u32) -> bool {
    ranges.iter().any(|r| r.0 <= c && c <= r.1)
}

// The tree of one class.
fn tree_of(alloc: Global, class: ClassSpec, utf: bool) -> Result<Tree, Fail>
    ensures { IfOk result (λ t. t.classes ≡ class ∷ []) }
{
    let options = Options {
        utf,
        ..Options::PLAIN
    };
    let mut draft = Draft::new(alloc, options);
    let id = draft.add_class(class)?;
    let root = draft.add(Node::One(Item::Class(id)), 0)?;
    let tree = draft.finish(root)?;
    Ok(tree)
}

pub(crate) fn table_of(alloc: Global, class: ClassSpec, utf: bool) -> Result<ClassTable, Fail>
    ensures { IfOk result (λ table. 0 < length table) }
{
    let tree = tree_of(alloc, class, utf)?;
    let table = ClassTable::build(alloc, &tree)?;
    Ok(table)
}

// Each character up to 3001, past the last of a set, and some beyond, by a number below `COUNT`.
const COUNT: u32 = 0x3002 + 5;

fn character(n: u32) -> u32 {
    match n {
        0x3002 => 0xD800,
        0x3003 => 0x10_FFFF,
        0x3004 => 0x11_0000,
        0x3005 => u32::MAX - 1,
        0x3006 => u32::MAX,
        c => c,
    }
}

// Whether the first class of a table takes each character, by a counter of its own: where they are listed, or under
// `others` where they aren't.
fn asks<L: Ledger>(rt: &impl Abort, table: &ClassTable, ranges: Ranges, others: bool, blank: Blank)
    requires name { blank.name ≡ L.name }
    requires parts { blank.parts ≡ L.parts }
    requires one { blank.parts ≡ 1 }
    requires some { 0 < length table.now }
{
    let mut steps = Steps::<L>::new(blank);
    for n in 0..COUNT {
        let c = character(n);
        let took = table.has(0, c, &mut steps);
        assert!(rt; took == (is_listed(ranges, c) != others), "at {c}");
    }
}

/// The parts of a class, whether in any case, and the characters that it takes.
type ClassRow = (&'static [Part], bool, Ranges);

// The class takes the characters of these ranges, or negated all but these.
fn case(rt: &impl Abort, alloc: Global, row: &ClassRow, negated: bool) -> Result<(), Fail> {
    let (parts, caseless, ranges) = *row;
    let class = class(alloc, negated, caseless, parts)?;
    let table = table_of(alloc, class, false)?;
    assert!(rt; table.count() == 1);
    asks::<Brand>(rt, &table, ranges, negated, Blank::new(1));
    Ok(())
}

fn cases(rt: &impl Abort, alloc: Global, rows: &[ClassRow]) -> Result<(), Fail> {
    for row in rows {
        case(rt, alloc, row, false)?;
        case(rt, alloc, row, true)?;
    }
    Ok(())
}

// Whether the first class of a table takes `c`.
fn takes<L: Ledger>(table: &ClassTable, c: u32, blank: Blank) -> bool
    requires name { blank.name ≡ L.name }
    requires parts { blank.parts ≡ L.parts }
    requires one { blank.parts ≡ 1 }
    requires some { 0 < length table.now }
{
    let mut steps = Steps::<L>::new(blank);
    table.has(0, c, &mut steps)
}

// The class of this set, or of its complement, takes the characters of these ranges, or negated all but these.
fn set_case(
    rt: &impl Abort,
    alloc: Global,
    row: &(SetName, Ranges),
    negated: bool,
    not: bool,
) -> Result<(), Fail> {
    let (set, ranges) = *row;
    let ucp = false;
    let class = class(alloc, negated, false, &[Part::Set { set, not, ucp }])?;
    let table = table_of(alloc, class, false)?;
    asks::<Brand>(rt, &table, ranges, negated != not, Blank::new(1));
    Ok(())
}

#[test]
fn sets_have_the_characters_of_the_c_locale(rt: HostRuntime) -> Result<(), Fail> {
    for row in SETS {
        set_case(&rt, rt.alloc(), row, false, false)?;
        set_case(&rt, rt.alloc(), row, false, true)?;
        set_case(&rt, rt.alloc(), row, true, false)?;
        set_case(&rt, rt.alloc(), row, true, true)?;
    }
    Ok(())
}

const W_TO_C: &[Part] = &[Part::Range { from: 87, to: 99 }];

const LOWER_OR_5: &[Part] = &[
    Part::Set {
        set: SetName::Lower,
        not: false,
        ucp: false,
    },
    Part::Range { from: 53, to: 53 },
];

// The ranges are those that pcre2test finds for [W-c] and [[:lower:]5].
const FOLDED: &[ClassRow] = &[
    (W_TO_C, false, &[(87, 99)]),
    (W_TO_C, true, &[(65, 67), (87, 99), (119, 122)]),
    (LOWER_OR_5, true, &[(53, 53), (65, 90), (97, 122)]),
];

#[test]
fn ranges_fold_before_they_are_negated(rt: HostRuntime) -> Result<(), Fail> {
    cases(&rt, rt.alloc(), FOLDED)
}

const ENDS: &[Part] = &[
    Part::Range { from: 250, to: 260 },
    Part::Range { from: 258, to: 300 },
    Part::Range {
        from: 0x11_0000,
        to: u32::MAX,
    },
    Part::Range { from: 9, to: 1 },
];

const GREATEST: &[ClassRow] = &[
    (ENDS, true, &[(250, 300), (0x11_0000, u32::MAX)]),
    (&[], false, &[]),
];

#[test]
fn ranges_go_up_to_the_greatest_number(rt: HostRuntime) -> Result<(), Fail> {
    cases(&rt, rt.alloc(), GREATEST)
}

const TWO_RANGES: &[Part] = &[
    Part::Range { from: 48, to: 57 },
    Part::Range { from: 300, to: 310 },
];

#[test]
fn a_tree_gives_a_table_of_its_classes(rt: HostRuntime) -> Result<(), Fail> {
    cases(
        &rt,
        rt.alloc(),
        &[(TWO_RANGES, false, &[(48, 57), (300, 310)])],
    )
}

// Characters at the edges of a set, and whether it has them without UCP and with it.
type Edges = &'static [(u32, bool, bool)];

// The rows of the manual page pcre2pattern, with the categories that Python's unicodedata knows.
const UCP_EDGES: &[(SetName, Edges)] = &[
    (
        SetName::Digit,
        &[
            (0x39, true, true),
            (0x660, false, true),
            (0xB2, false, false),
        ],
    ),
    (
        SetName::Space,
        &[
            (0xB, true, true),
            (0x85, false, true),
            (0xA0, false, true),
            (0x180E, false, true),
            (0x200B, false, false),
        ],
    ),
    (
        SetName::Word,
        &[
            (0x5F, true, true),
            (0xE9, false, true),
            (0x2160, false, true),
            (0x301, false, true),
            (0x203F, false, true),
            (0x20DD, false, false),
        ],
    ),
    (
        SetName::Alpha,
        &[(0xAA, false, true), (0x660, false, false)],
    ),
    (
        SetName::Alnum,
        &[(0x660, false, true), (0x5F, false, false)],
    ),
    (SetName::Lower, &[(0xDF, false, true), (0xAA, false, false)]),
    (
        SetName::Upper,
        &[(0xC0, false, true), (0x1C5, false, false)],
    ),
    (
        SetName::Blank,
        &[
            (0x9, true, true),
            (0x3000, false, true),
            (0x85, false, false),
        ],
    ),
    (
        SetName::Cntrl,
        &[
            (0x7F, true, true),
            (0x9F, false, true),
            (0xAD, false, false),
        ],
    ),
    (
        SetName::Graph,
        &[
            (0x20, false, false),
            (0xAD, false, true),
            (0x61C, false, false),
            (0x180E, false, false),
            (0x2065, false, false),
            (0x2066, false, false),
            (0x2069, false, false),
            (0x206A, false, true),
        ],
    ),
    (
        SetName::Print,
        &[
            (0x20, true, true),
            (0xA0, false, true),
            (0x2028, false, false),
        ],
    ),
    (
        SetName::Punct,
        &[
            (0x24, true, true),
            (0xD7, false, true),
            (0x20AC, false, false),
            (0x2014, false, true),
        ],
    ),
    (SetName::Ascii, &[(0x7F, true, true), (0x80, false, false)]),
    (
        SetName::Xdigit,
        &[(0x66, true, true), (0xFF21, false, false)],
    ),
    (SetName::H, &[(0x202F, true, true)]),
    (SetName::V, &[(0x2029, true, true)]),
];

// Whether a class of one part takes `c`.
fn takes_part(alloc: Global, part: Part, caseless: bool, utf: bool, c: u32) -> Result<bool, Fail> {
    let spec = class(alloc, false, caseless, &[part])?;
    let table = table_of(alloc, spec, utf)?;
    Ok(takes::<Brand>(&table, c, Blank::new(1)))
}

// Whether the first class of a table takes the characters at the edges of a set that are in it, or under `not` the
// others.
fn asks_edges<L: Ledger>(
    rt: &impl Abort,
    table: &ClassTable,
    edges: Edges,
    ucp: bool,
    not: bool,
    blank: Blank,
)
    requires name { blank.name ≡ L.name }
    requires parts { blank.parts ≡ L.parts }
    requires one { blank.parts ≡ 1 }
    requires some { 0 < length table.now }
{
    let mut steps = Steps::<L>::new(blank);
    for (c, ascii, unicode) in edges {
        let listed = if ucp { *unicode } else { *ascii };
        let took = table.has(0, *c, &mut steps);
        assert!(rt; took == (listed != not), "at {c}");
    }
}

// The class of this set, or of its complement, takes the characters at its edges that are in it, or the others.
fn edges_case(
    rt: &impl Abort,
    alloc: Global,
    row: &(SetName, Edges),
    ucp: bool,
    not: bool,
) -> Result<(), Fail> {
    let (set, edges) = *row;
    let spec = class(alloc, false, false, &[Part::Set { set, not, ucp }])?;
    let table = table_of(alloc, spec, true)?;
    asks_edges::<Brand>(rt, &table, edges, ucp, not, Blank::new(1));
    Ok(())
}

#[test]
fn sets_differ_with_ucp(rt: HostRuntime) -> Result<(), Fail> {
    for row in UCP_EDGES {
        edges_case(&rt, rt.alloc(), row, false, false)?;
        edges_case(&rt, rt.alloc(), row, false, true)?;
        edges_case(&rt, rt.alloc(), row, true, false)?;
        edges_case(&rt, rt.alloc(), row, true, true)?;
    }
    Ok(())
}

// Characters that fold alike, by CaseFolding.txt.
const FOLDS: &[[u32; 3]] = &[
    [0x4B, 0x6B, 0x212A],
    [0x53, 0x73, 0x17F],
    [0x3A3, 0x3C3, 0x3C2],
    [0xC5, 0xE5, 0x212B],
    [0x1C4, 0x1C5, 0x1C6],
];

// In UTF and in any case one of three takes each other. In its own case it takes itself alone, and without UTF what is
// ASCII beside.
fn takes_folded(alloc: Global, one: u32, other: u32) -> Result<bool, Fail> {
    let part = Part::Range { from: one, to: one };
    let same = one == other;
    let is_ascii = one < 128 && other < 128;
    Ok(
        takes_part(alloc, part, true, true, other)?
            && takes_part(alloc, part, false, true, other)? == same
            && takes_part(alloc, part, true, false, other)? == (same || is_ascii),
    )
}

#[test]
fn each_of_three_folds_takes_the_others(rt: HostRuntime) -> Result<(), Fail> {
    for letters in FOLDS {
        for n in 0..9usize {
            let (one, other) = (letters[n / 3], letters[n % 3]);
            assert!(rt;
                takes_folded(rt.alloc(), one, other)?,
                "{one} takes {other}"
            );
        }
    }
    Ok(())
}

const LU: SetName = SetName::Property(13);

// A set, a character, and whether the set has it in its own case and in any case. They are \p{Lu} and [[:upper:]], by
// perl's \p. 13 is the number of Lu.
const CASES: &[(SetName, u32, bool, bool)] = &[
    (LU, 0x41, true, true),
    (LU, 0x61, false, false),
    (LU, 0x391, true, true),
    (LU, 0x3B1, false, false),
    (SetName::Upper, 0x391, true, true),
    (SetName::Upper, 0x3B1, false, true),
    (SetName::Upper, 0x660, false, false),
    (LU, 0xD800, false, false),
    (SetName::Upper, u32::MAX, false, false),
];

// Whether a set by its properties takes `c` or not as is told, and its complement the other way round.
fn takes_set(
    alloc: Global,
    set: SetName,
    c: u32,
    caseless: bool,
    takes: bool,
) -> Result<bool, Fail> {
    let (not, ucp) = (false, true);
    let itself = takes_part(alloc, Part::Set { set, not, ucp }, caseless, true, c)?;
    let not = true;
    let complement = takes_part(alloc, Part::Set { set, not, ucp }, caseless, true, c)?;
    Ok(itself == takes && complement != takes)
}

#[test]
fn properties_stay_in_any_case(rt: HostRuntime) -> Result<(), Fail> {
    for (set, c, exact, any_case) in CASES {
        assert!(rt; takes_set(rt.alloc(), *set, *c, false, *exact)?, "at {c}");
        assert!(rt; takes_set(rt.alloc(), *set, *c, true, *any_case)?, "at {c}");
    }
    Ok(())
}
