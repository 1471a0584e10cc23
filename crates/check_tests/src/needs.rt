//! The text and the bounds that are told of trees, worked by hand from the rules.
use crate::build::Step;
use crate::rows::{A, B, C, CARET, MAYBE, is_set, known};
use byte_lanes::ByteSet;
use pat_check::{Facts, Growth};
use pat_needs::ByteText;
use pat_tree::Options;
use std::alloc::Global;
use std::process::Abort;
use std::test::Fail;

/// The bytes that stand in a text one behind the other; none where it is shorter.
type TextRow = (&'static [u8], &'static [u8], &'static [u8]);

/// A number that grows with the subject, as times and degree.
type GrowthRow = (u32, u32);

/// A tree by its steps, the text that every match takes if one is told, and the bounds of its
/// Steps and of its units.
type NeedRow = (&'static [Step], Option<TextRow>, GrowthRow, GrowthRow);

fn is_next(set: &Option<ByteSet>, bytes: &[u8]) -> bool {
    match set {
        Some(set) => is_set(set, bytes),
        None => bytes.is_empty(),
    }
}

fn is_text(text: &ByteText, row: &TextRow) -> bool {
    is_set(&text.first, row.0) && is_next(&text.second, row.1) && is_next(&text.third, row.2)
}

fn grows_as(growth: Growth, row: GrowthRow) -> bool {
    growth.times == row.0 && growth.degree == row.1
}

fn needs_as(facts: &Facts, row: &NeedRow) -> bool {
    match (&facts.need, &row.1) {
        (None, None) => true,
        (Some(need), Some(text)) => {
            is_text(&need.text, text)
                && grows_as(need.bound.steps, row.2)
                && grows_as(need.bound.units, row.3)
        }
        _ => false,
    }
}

fn check_needs(
    rt: &impl Abort,
    alloc: Global,
    options: Options,
    rows: &[NeedRow],
) -> Result<(), Fail> {
    for row in rows {
        let facts = known(alloc, options, row.0)?;
        assert!(rt; needs_as(&facts, row));
    }
    Ok(())
}

#[test]
fn the_rarest_text_that_every_match_takes_is_told(rt: HostRuntime) -> Result<(), Fail> {
    use Step::*;
    static ROWS: [NeedRow; 35] = [
        // `a+ba+b`, where each repeat has one end that goes on, and `a+aa+b`, where the first has many
        (
            &[Chars(97, 1, None), B, Chars(97, 1, None), B, Seq(4)],
            Some((b"b", b"", b"")),
            (2, 1),
            (2, 0),
        ),
        (
            &[Chars(97, 1, None), A, Chars(97, 1, None), B, Seq(4)],
            Some((b"b", b"", b"")),
            (2, 2),
            (2, 0),
        ),
        // `a`, `(?i)k`, a class, `a?b`, `a+b`, `a{2,3}`, `a*`, `.`
        (&[A], Some((b"a", b"", b"")), (0, 0), (0, 0)),
        (&[AnyCase(107)], Some((b"Kk", b"", b"")), (0, 0), (0, 0)),
        (&[Class], Some((b"\n\x0B\x0C\r", b"", b"")), (0, 0), (0, 0)),
        (&[MAYBE, B, Seq(2)], Some((b"b", b"", b"")), (2, 0), (1, 0)),
        (
            &[Chars(97, 1, None), B, Seq(2)],
            Some((b"b", b"", b"")),
            (1, 1),
            (1, 0),
        ),
        (
            &[Chars(97, 2, Some(3))],
            Some((b"a", b"a", b"")),
            (2, 0),
            (1, 0),
        ),
        (&[Chars(97, 0, None)], None, (0, 0), (0, 0)),
        (&[AnyAll], None, (0, 0), (0, 0)),
        // `ab|cb`, `a|`, `(a)`, `(?>a+)b`, `(?=b)a*`
        (
            &[A, B, Seq(2), C, B, Seq(2), Group(2)],
            Some((b"ac", b"b", b"")),
            (2, 0),
            (2, 0),
        ),
        (&[A, Empty, Group(2)], None, (0, 0), (0, 0)),
        (&[A, Capture(1, 1)], Some((b"a", b"", b"")), (0, 0), (2, 0)),
        (
            &[Chars(97, 1, None), Atomic(1), B, Seq(2)],
            Some((b"b", b"", b"")),
            (1, 1),
            (3, 0),
        ),
        (
            &[B, Ahead(1), Chars(97, 0, None), Seq(2)],
            Some((b"b", b"", b"")),
            (1, 1),
            (3, 0),
        ),
        // `a+b+c`
        (
            &[Chars(97, 1, None), Chars(98, 1, None), C, Seq(3)],
            Some((b"c", b"", b"")),
            (2, 2),
            (2, 0),
        ),
        // `abc`, `abcB`, `ab(b)`, `a+bc`
        (&[A, B, C, Seq(3)], Some((b"a", b"b", b"c")), (0, 0), (0, 0)),
        (
            &[A, B, C, AnyCase(98), Seq(4)],
            Some((b"b", b"c", b"Bb")),
            (0, 0),
            (0, 0),
        ),
        (
            &[A, B, B, Capture(1, 1), Seq(3)],
            Some((b"a", b"b", b"")),
            (0, 0),
            (2, 0),
        ),
        (
            &[Chars(97, 1, None), B, C, Seq(3)],
            Some((b"b", b"c", b"")),
            (1, 1),
            (1, 0),
        ),
        // `(?:a+b)*c`, `(?:ab){3}c`, `(?:ab){2,}c`, `(ab)?c`, `(?:(?:ab){2}){0,5}c`
        (
            &[Chars(97, 1, None), B, Seq(2), Repeat(0, None), C, Seq(2)],
            Some((b"c", b"", b"")),
            (2, 2),
            (2, 1),
        ),
        (
            &[A, B, Seq(2), Repeat(3, Some(3)), C, Seq(2)],
            Some((b"c", b"", b"")),
            (3, 0),
            (3, 0),
        ),
        (
            &[A, B, Seq(2), Repeat(2, None), C, Seq(2)],
            Some((b"c", b"", b"")),
            (2, 1),
            (2, 1),
        ),
        (
            &[A, B, Seq(2), Capture(1, 1), Repeat(0, Some(1)), C, Seq(2)],
            Some((b"c", b"", b"")),
            (1, 0),
            (3, 0),
        ),
        (
            &[
                A,
                B,
                Seq(2),
                Repeat(2, Some(2)),
                Repeat(0, Some(5)),
                C,
                Seq(2),
            ],
            Some((b"c", b"", b"")),
            (15, 0),
            (15, 0),
        ),
        // `(?:a|b)*c`, `(?:[..]|ba)*c`
        (
            &[A, B, Group(2), Repeat(0, None), C, Seq(2)],
            Some((b"c", b"", b"")),
            (3, 1),
            (3, 1),
        ),
        (
            &[Class, B, A, Seq(2), Group(2), Repeat(0, None), C, Seq(2)],
            Some((b"c", b"", b"")),
            (3, 1),
            (3, 1),
        ),
        // repeats of a group that is left more than once: `(?:a*)*b`, `(?:ab|aa)*c`
        (
            &[Chars(97, 0, None), Repeat(0, None), B, Seq(2)],
            None,
            (0, 0),
            (0, 0),
        ),
        (
            &[
                A,
                B,
                Seq(2),
                A,
                A,
                Seq(2),
                Group(2),
                Repeat(0, None),
                C,
                Seq(2),
            ],
            None,
            (0, 0),
            (0, 0),
        ),
        // nothing is needed, and forms without a bound: `(?:a){2,}`, `(?<=b)a`, `(?1)`, an accept,
        // a callout
        (&[A, Repeat(2, None)], None, (0, 0), (0, 0)),
        (&[B, Behind(1), A, Seq(2)], None, (0, 0), (0, 0)),
        (&[A, Call(0), Seq(2)], None, (0, 0), (0, 0)),
        (&[A, Accept, Seq(2)], None, (0, 0), (0, 0)),
        (&[A, Callout, Seq(2)], None, (0, 0), (0, 0)),
        // a lookahead that is gone into again, `(?*b)a`
        (&[B, AheadAnyWay(1), A, Seq(2)], None, (0, 0), (0, 0)),
    ];
    check_needs(&rt, rt.alloc(), Options::PLAIN, &ROWS)
}

#[test]
fn in_utf_the_byte_of_an_ascii_character_is_told(rt: HostRuntime) -> Result<(), Fail> {
    use Step::*;
    let utf = Options {
        utf: true,
        ..Options::PLAIN
    };
    // `a`, `(?i)@`, `(?i)b`, `(?i)k`, `(?i)S`, the Kelvin sign and the long s without regard to case, a class, a class
    // and `b`, `abc`, `(?i)kb` and `(?i)bs`
    static ROWS: [NeedRow; 12] = [
        (&[A], Some((b"a", b"", b"")), (0, 0), (0, 0)),
        (&[AnyCase(64)], Some((b"@", b"", b"")), (0, 0), (0, 0)),
        (&[AnyCase(98)], Some((b"Bb", b"", b"")), (0, 0), (0, 0)),
        (&[AnyCase(107)], Some((b"Kk\xE2", b"", b"")), (0, 0), (0, 0)),
        (&[AnyCase(83)], Some((b"Ss\xC5", b"", b"")), (0, 0), (0, 0)),
        (&[AnyCase(0x212A)], None, (0, 0), (0, 0)),
        (&[AnyCase(0x17F)], None, (0, 0), (0, 0)),
        (&[Class], None, (0, 0), (0, 0)),
        (&[Class, B, Seq(2)], Some((b"b", b"", b"")), (0, 0), (0, 0)),
        (&[A, B, C, Seq(3)], Some((b"a", b"b", b"c")), (0, 0), (0, 0)),
        (
            &[AnyCase(107), AnyCase(98), Seq(2)],
            Some((b"Bb", b"", b"")),
            (0, 0),
            (0, 0),
        ),
        (
            &[AnyCase(98), AnyCase(115), Seq(2)],
            Some((b"Bb", b"Ss\xC5", b"")),
            (0, 0),
            (0, 0),
        ),
    ];
    check_needs(&rt, rt.alloc(), utf, &ROWS)
}

/// A tree by its steps, in UTF or not, and the text at a distance from where every match begins if one is told.
type BeginRow = (&'static [Step], bool, Option<(u16, TextRow)>);

fn begins_as(facts: &Facts, told: &Option<(u16, TextRow)>) -> bool {
    let Some(need) = &facts.need else {
        return false;
    };
    match (&need.begin, told) {
        (None, None) => true,
        (Some(begin), Some((distance, text))) => {
            begin.distance == *distance && is_text(&begin.text, text)
        }
        _ => false,
    }
}

// The options of a row, which is in UTF or not.
fn options_of(utf: bool) -> Options {
    Options {
        utf,
        ..Options::PLAIN
    }
}

#[test]
fn a_text_with_which_every_match_begins_is_told(rt: HostRuntime) -> Result<(), Fail> {
    use Step::*;
    static ROWS: [BeginRow; 22] = [
        // `a`, `ab|cb`, `a+b`, `a*b`, which may begin with both
        (&[A], false, None),
        (
            &[A, B, Seq(2), C, B, Seq(2), Group(2)],
            false,
            Some((0, (b"ac", b"b", b""))),
        ),
        (&[Chars(97, 1, None), B, Seq(2)], false, None),
        (&[Chars(97, 0, None), B, Seq(2)], false, None),
        // in UTF one byte tells more than the first bytes do: `a`, `a|(?i)k`, `a+b`, `(?=b)a*`, `[..]b`
        (&[A], true, Some((0, (b"a", b"", b"")))),
        (
            &[A, AnyCase(107), Group(2)],
            true,
            Some((0, (b"aKk\xE2", b"", b""))),
        ),
        (
            &[Chars(97, 1, None), B, Seq(2)],
            true,
            Some((0, (b"a", b"", b""))),
        ),
        (
            &[B, Ahead(1), Chars(97, 0, None), Seq(2)],
            true,
            Some((0, (b"b", b"", b""))),
        ),
        (&[Class, B, Seq(2)], true, None),
        // `a{4}`, `a{3,}` in UTF
        (
            &[Chars(97, 4, Some(4))],
            false,
            Some((0, (b"a", b"a", b"a"))),
        ),
        (&[Chars(97, 3, None)], true, Some((0, (b"a", b"a", b"a")))),
        // the rarest at a distance: `aaabc`, outside UTF and in it, `..ab`, `a{5}bbb`, `^abc`
        (
            &[A, A, A, B, C, Seq(5), Group(1)],
            false,
            Some((2, (b"a", b"b", b"c"))),
        ),
        (
            &[A, A, A, B, C, Seq(5), Group(1)],
            true,
            Some((2, (b"a", b"b", b"c"))),
        ),
        (
            &[AnyAll, AnyAll, A, B, Seq(4), Group(1)],
            false,
            Some((2, (b"a", b"b", b""))),
        ),
        (
            &[Chars(97, 5, Some(5)), B, B, B, Seq(4), Group(1)],
            false,
            Some((5, (b"b", b"b", b"b"))),
        ),
        (
            &[CARET, A, B, C, Seq(4), Group(1)],
            false,
            Some((0, (b"a", b"b", b"c"))),
        ),
        // no further than 255: `a{255}bbb`, `a{256}bbb`
        (
            &[Chars(97, 255, Some(255)), B, B, B, Seq(4), Group(1)],
            false,
            Some((255, (b"b", b"b", b"b"))),
        ),
        (
            &[Chars(97, 256, Some(256)), B, B, B, Seq(4), Group(1)],
            false,
            Some((0, (b"a", b"a", b"a"))),
        ),
        // not behind what may take more: `a{2,3}bbb`, in UTF `(?i)kbc` and `.bc`, and `aaabc|aaabc`
        (
            &[Chars(97, 2, Some(3)), B, B, B, Seq(4), Group(1)],
            false,
            Some((0, (b"a", b"a", b""))),
        ),
        (
            &[AnyCase(107), B, C, Seq(3), Group(1)],
            true,
            Some((0, (b"Kk\xE2", b"", b""))),
        ),
        (&[AnyAll, B, C, Seq(3), Group(1)], true, None),
        (
            &[A, A, A, B, C, Seq(5), A, A, A, B, C, Seq(5), Group(2)],
            false,
            Some((0, (b"a", b"a", b"a"))),
        ),
    ];
    for row in &ROWS {
        let facts = known(rt.alloc(), options_of(row.1), row.0)?;
        assert!(&rt; begins_as(&facts, &row.2));
    }
    Ok(())
}

/// A tree by its steps, in UTF or not, and whether the text that it needs is the one at a distance from its begin.
type SameRow = (&'static [Step], bool, bool);

fn begins_alike(facts: &Facts, alike: bool) -> bool {
    match &facts.need {
        Some(need) => need.is_begin == alike,
        None => false,
    }
}

#[test]
fn a_needed_text_that_stands_at_the_begin_is_told_as_one(rt: HostRuntime) -> Result<(), Fail> {
    use Step::*;
    // `aaabc`, `a{2,3}bc` and `a`, outside UTF and in it
    static ROWS: [SameRow; 4] = [
        (&[A, A, A, B, C, Seq(5), Group(1)], false, true),
        (
            &[Chars(97, 2, Some(3)), B, C, Seq(3), Group(1)],
            false,
            false,
        ),
        (&[A], false, false),
        (&[A], true, true),
    ];
    for row in &ROWS {
        let facts = known(rt.alloc(), options_of(row.1), row.0)?;
        assert!(&rt; begins_alike(&facts, row.2));
    }
    Ok(())
}

// Whether the set has each byte past ASCII, and of the others these.
fn is_past_ascii(set: &ByteSet, or: &[u8]) -> bool {
    let mut all = true;
    for b in 0..256u32 {
        let b = b as u8;
        all = all && set.has(b) == (b >= 128 || or.contains(&b));
    }
    all
}

/// Every match takes a byte past ASCII or one of these.
fn needs_past_ascii(facts: &Facts, or: &[u8]) -> bool {
    match &facts.need {
        Some(need) => need.text.second.is_none() && is_past_ascii(&need.text.first, or),
        None => false,
    }
}

#[test]
fn in_utf_a_character_past_ascii_begins_past_it(rt: HostRuntime) -> Result<(), Fail> {
    use Step::*;
    // `\u{e9}+`, `(?i)\u{df}`, `a\u{e9}`, `\u{e9}|b`, `(?i)\u{e9}|b`
    static ROWS: [(&'static [Step], &'static [u8]); 5] = [
        (&[Chars(233, 1, None)], b""),
        (&[AnyCase(223)], b""),
        (&[A, Chars(233, 1, None), Seq(2)], b""),
        (&[Chars(233, 1, None), B, Group(2)], b"b"),
        (&[AnyCase(233), B, Group(2)], b"b"),
    ];
    for (steps, or) in &ROWS {
        let facts = known(rt.alloc(), options_of(true), steps)?;
        assert!(&rt; needs_past_ascii(&facts, or));
    }
    Ok(())
}

/// A tree by its steps, and the text further on that is told.
type OtherRow = (&'static [Step], TextRow);

fn tells_other(facts: &Facts, text: &TextRow) -> bool {
    match &facts.need {
        Some(need) => match &need.other {
            Some(other) => is_text(other, text),
            None => text.0.is_empty(),
        },
        None => false,
    }
}

#[test]
fn a_text_behind_the_first_part_that_is_no_item_is_told(rt: HostRuntime) -> Result<(), Fail> {
    use Step::*;
    static ROWS: [OtherRow; 4] = [
        // `abb.*ca`, `ab.*`, `abc`, and `a{3}aaa`, where it is the needed text itself
        (
            &[A, B, B, Chars(46, 0, None), C, A, Seq(6), Group(1)],
            (b"c", b"a", b""),
        ),
        (
            &[A, B, Chars(46, 0, None), Seq(3), Group(1)],
            (b"", b"", b""),
        ),
        (&[A, B, C, Seq(3), Group(1)], (b"", b"", b"")),
        (
            &[Chars(97, 3, Some(3)), A, A, A, Seq(4), Group(1)],
            (b"", b"", b""),
        ),
    ];
    for row in &ROWS {
        let facts = known(rt.alloc(), Options::PLAIN, row.0)?;
        assert!(&rt; tells_other(&facts, &row.1));
    }
    Ok(())
}

/// A tree by its steps, and the bounds of the Steps and of the units of a search without the text.
type LackingRow = (&'static [Step], GrowthRow, GrowthRow);

fn lacks_as(facts: &Facts, row: &LackingRow) -> bool {
    match &facts.need {
        Some(need) => grows_as(need.lacking.steps, row.1) && grows_as(need.lacking.units, row.2),
        None => false,
    }
}

#[test]
fn parts_behind_a_missing_text_take_no_step(rt: HostRuntime) -> Result<(), Fail> {
    use Step::*;
    static ROWS: [LackingRow; 5] = [
        // `a+b+ca+`, `a+bca+`, `ca+a+`, `a+ca+a+ca+`, of whose `c` the later one is looked at, and
        // `(a+ca+)`
        (
            &[
                Chars(97, 1, None),
                Chars(98, 1, None),
                C,
                Chars(97, 1, None),
                Seq(4),
                Group(1),
            ],
            (2, 2),
            (2, 0),
        ),
        (
            &[
                Chars(97, 1, None),
                B,
                C,
                Chars(97, 1, None),
                Seq(4),
                Group(1),
            ],
            (1, 1),
            (1, 0),
        ),
        (
            &[C, Chars(97, 1, None), Chars(97, 1, None), Seq(3), Group(1)],
            (0, 0),
            (0, 0),
        ),
        (
            &[
                Chars(97, 1, None),
                C,
                Chars(97, 1, None),
                Chars(97, 1, None),
                C,
                Chars(97, 1, None),
                Seq(6),
                Group(1),
            ],
            (3, 2),
            (3, 0),
        ),
        (
            &[
                Chars(97, 1, None),
                C,
                Chars(97, 1, None),
                Seq(3),
                Capture(1, 1),
            ],
            (2, 1),
            (4, 0),
        ),
    ];
    for row in &ROWS {
        let facts = known(rt.alloc(), Options::PLAIN, row.0)?;
        assert!(&rt; lacks_as(&facts, row));
    }
    Ok(())
}
