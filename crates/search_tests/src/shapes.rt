//! Where the kit finds the shapes of patterns: where the patterns match, and seldom elsewhere.
use char_sets::ClassTable;
use pat_build::read;
use pat_shape::shape_of;
use pat_tree::Options;
use regex_meta::{Program, Searcher};
use std::alloc::Global;
use std::process::Abort;
use std::test::Fail;

/// A pattern, lines, and where its shape is first found in them.
type Row = (&'static [u8], &'static [u8], Option<(usize, usize)>);

/// How large a program may be.
const SIZE: usize = 1 << 20;

/// What the shape finds; None where the pattern has none.
fn found(
    alloc: Global,
    pattern: &[u8],
    options: Options,
    lines: &[u8],
) -> Option<Option<(usize, usize)>> {
    let tree = read(alloc, pattern, options).ok()?;
    let classes = ClassTable::build(alloc, &tree).ok()?;
    let shape = shape_of(alloc, &tree, &classes, true).ok()??;
    let program = Program::new(alloc, shape, 1, SIZE).ok()?;
    let mut searcher = Searcher::new(alloc, &program).ok()?;
    Some(searcher.find(lines, 0))
}

fn cases(rt: &impl Abort, alloc: Global, options: Options, rows: &[Row]) {
    for row in rows {
        let (pattern, lines, place) = *row;
        assert!(rt; found(alloc, pattern, options, lines) == Some(place));
    }
}

const TEXTS_AND_REPEATS: &[Row] = &[
    (b"fo+bar", b"x\nxfoobar\n", Some((3, 9))),
    (b"fo+bar", b"fbar\nfoo\nbar\n", None),
    (b"(?i)eRr", b"xx ERr", Some((3, 6))),
    (b"a.b", b"a\nb a\rb", Some((4, 7))),
    (b"(?s)a.b", b"a\nb", None),
    (b"a[^x]b", b"a\nb axb a-b", Some((8, 11))),
    (b"a\\Wb", b"a\nb", None),
    (b"xa{2,3}b", b"xab xaaaab xaaab", Some((11, 16))),
    (b"xa{2,}?b", b"xab xaaaaab", Some((4, 11))),
    (b"x(?:ab){2}c", b"xabc xababc", Some((5, 11))),
    (b"x(?:ab|c){0,2}d", b"xabcabd xcd", Some((8, 11))),
    (b"xa{2,500}b", b"xab xaab", Some((4, 8))),
    (b"x(?>a+)b", b"xb xaab", Some((3, 7))),
    (b"xa*+b", b"xa xb", Some((3, 5))),
    (b"(a|b)+c|dd", b"ab dc dd", Some((6, 8))),
    (b"a\\Kb", b"b ab", Some((2, 4))),
    (b"(x)|", b"", Some((0, 0))),
];

#[test]
fn texts_and_repeats_are_found_where_they_match(rt: HostRuntime) -> Result<(), Fail> {
    cases(&rt, rt.alloc(), Options::PLAIN, TEXTS_AND_REPEATS);
    Ok(())
}

const ASSERTIONS: &[Row] = &[
    (b"^ab", b"xab\nab", Some((4, 6))),
    (b"\\Aab", b"xab\nab", Some((4, 6))),
    (b"ab$", b"abx\nxab\n", Some((5, 7))),
    (b"ab\\z", b"abx", None),
    (b"(?m)^ab$", b"abx\nab\nx", Some((4, 6))),
    (b"\\bin", b"win\nin", Some((4, 6))),
    (b"in\\b", b"ink in\nx", Some((4, 6))),
    (b"\\Bin", b"in win", Some((4, 6))),
    (b"(*UCP)\\bin", b"win", Some((1, 3))),
    (b"(?=ab)a", b"b ac", Some((2, 3))),
    (b"(?<!x)ab", b"xab", Some((1, 3))),
];

#[test]
fn assertions_are_seen_where_the_kit_has_them(rt: HostRuntime) -> Result<(), Fail> {
    cases(&rt, rt.alloc(), Options::PLAIN, ASSERTIONS);
    Ok(())
}

const WIDER_ONES: &[Row] = &[
    (b"(a)x\\1", b"xa\nax\n", Some((3, 5))),
    (b"(?1)x(a)", b"x\nbxa\n", Some((2, 5))),
    (b"a\\Rb", b"a\nb a..b\n", Some((4, 8))),
    (b"(x)?(?(1)a|b)c", b"xc bc", Some((3, 5))),
    (b"a(*FAIL)|b", b"ab", Some((1, 2))),
    (b"a(*COMMIT)b(*MARK:m)", b"a ab", Some((2, 4))),
    (b"a(?C1)b", b"a ab", Some((2, 4))),
];

#[test]
fn what_the_kit_has_not_is_wider(rt: HostRuntime) -> Result<(), Fail> {
    cases(&rt, rt.alloc(), Options::PLAIN, WIDER_ONES);
    Ok(())
}

const CHARACTERS: &[Row] = &[
    (b"\xC3\xA9+x", b"ex \xC3\xA9\xC3\xA9x", Some((3, 8))),
    (b"a.b", b"a\nb a\xC3\xA9b", Some((4, 8))),
    (b"a[\xD0\xB1-\xD0\xB4]b", b"a\nb a\xD0\xB2b", Some((4, 8))),
    (b"(?i)k", b"x \xE2\x84\xAA", Some((2, 5))),
    (b"(?i)t", b"x \xE2\x84\xAA", None),
    (b"(?i)\xC3\xA9", b"e \xC3\x89", Some((2, 4))),
    (b"a[^x]b", b"a\nb", None),
    (b"\xC3\xA9\\b", b"\xC3\xA9", Some((0, 2))),
];

#[test]
fn characters_are_found_in_utf(rt: HostRuntime) -> Result<(), Fail> {
    let options = Options {
        utf: true,
        ..Options::PLAIN
    };
    cases(&rt, rt.alloc(), options, CHARACTERS);
    Ok(())
}

#[test]
fn some_patterns_have_no_shape(rt: HostRuntime) -> Result<(), Fail> {
    let alloc = rt.alloc();
    assert!(&rt; found(alloc, b"a(*ACCEPT)b", Options::PLAIN, b"ab").is_none());
    assert!(&rt; found(alloc, b"(?(?=a)a|b)c", Options::PLAIN, b"bc").is_none());
    Ok(())
}
