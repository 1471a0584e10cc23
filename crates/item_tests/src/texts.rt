//! Items, `\R`, references and assertions on UTF-8.
ghost use Rattle.std.specs.Prelude.{◌≡◌, ◌<◌, IsUtf8};

use crate::items::{ItemRow, fits};
use crate::letters;
use crate::sets::{class, table_of};
use char_sets::ClassTable;
use match_items::{ItemRun, Taken, View, anchor, break_step, ref_step, run_len, step, text_back};
use pat_tree::{AnchorKind, Bsr, Item, MatchOptions, Newline, Options, Part, Steps};
use std::marker::Brand;
use std::process::Abort;
use std::sync::ledger::{Blank, Ledger};
use std::test::Fail;

// `a`, e acute, the euro sign, a face of four bytes, the sign of the kelvin, a line separator, `k`.
const TEXT: &str = "a\u{E9}\u{20AC}\u{1F600}\u{212A}\u{2028}k";

// Where they begin, and the end.
const PLACES: [usize; 8] = [0, 1, 3, 6, 10, 13, 16, 17];

fn view_of<'a>(text: &'a str, options: &'a Options) -> View<'a>
    ensures subject { result.subject.now ≡ text.now }
    ensures options { result.options.now ≡ options.now }
    ensures utf8 { IsUtf8 result.subject.now }
{
    View {
        subject: text.as_bytes(),
        start: 0,
        options,
        matching: &MatchOptions::PLAIN,
    }
}

const UTF: Options = Options {
    utf: true,
    ..Options::PLAIN
};

fn options_of(newline: Newline, bsr: Bsr) -> Options {
    Options {
        newline,
        bsr,
        ..UTF
    }
}

// The places are those of `TEXT`, and a run has three characters at most.
fn items<L: Ledger>(rt: &impl Abort, table: &ClassTable, steps: &mut Steps<L>, row: &ItemRow) {
    let (newline, item, taken, counts, reach) = *row;
    let options = options_of(newline, Bsr::Unicode);
    let view = view_of(TEXT, &options);
    assert!(rt; fits(table, item));
    for i in 0..8usize {
        let at = PLACES[i];
        assert!(rt; TEXT.is_char_boundary(at) && TEXT.len() < 100);
        let answer = letters::taken(step(&view, table, &item, at, steps), at);
        let run = run_len(&view, table, &item, at, 3, steps);
        let count = b"0123?"[run.count.min(4) as usize];
        assert!(rt; answer == taken[i] && count == counts[i]);
        assert!(rt; run.at_end == (reach[i] == b'*'));
        assert!(rt; PLACES.get(i + run.count as usize).copied() == Some(run.to));
    }
}

const ANY: Item = Item::AnyAll;

const DOT: Item = Item::NotNewline;

const CLASS: Item = Item::Class(0);

// e acute, and its capital in any case.
const ACUTE: Item = Item::Char {
    c: 0xE9,
    caseless: false,
};

const CAPITAL: Item = Item::Char {
    c: 0xC9,
    caseless: true,
};

// `k`, and `k` in any case.
const K: Item = Item::Char {
    c: 0x6B,
    caseless: false,
};

const ANY_K: Item = Item::Char {
    c: 0x6B,
    caseless: true,
};

// The sign of the kelvin, and in any case.
const KELVIN: Item = Item::Char {
    c: 0x212A,
    caseless: false,
};

const FOLDED: Item = Item::Char {
    c: 0x212A,
    caseless: true,
};

// A text of two characters in three bytes, and whether their run, where CRLF ends a line, reaches
// the end.
fn dots<L: Ledger>(
    rt: &impl Abort,
    table: &ClassTable,
    steps: &mut Steps<L>,
    text: &str,
    at_end: bool,
) {
    let options = options_of(Newline::CrLf, Bsr::Unicode);
    assert!(rt; text.is_char_boundary(0) && text.len() < 100);
    let view = view_of(text, &options);
    let run = ItemRun {
        count: 2,
        to: 3,
        at_end,
    };
    assert!(rt; run_len(&view, table, &DOT, 0, 2, steps) == run);
}

const ITEMS: &[ItemRow] = &[
    (Newline::Any, ANY, b"1234331E", b"33333210", b".....***"),
    (Newline::Any, DOT, b"12343.1E", b"33321010", b"......**"),
    (Newline::Lf, DOT, b"1234331E", b"33333210", b".....***"),
    (Newline::Lf, ACUTE, b".2.....E", b"01000000", b".......*"),
    (Newline::Lf, CAPITAL, b".2.....E", b"01000000", b".......*"),
    (Newline::Lf, K, b"......1E", b"00000010", b"......**"),
    (Newline::Lf, ANY_K, b"....3.1E", b"00001010", b"......**"),
    (Newline::Lf, KELVIN, b"....3..E", b"00001000", b".......*"),
    (Newline::Lf, FOLDED, b"....3.1E", b"00001010", b"......**"),
    (Newline::Lf, CLASS, b"1234.3.E", b"33210100", b".......*"),
];

fn all_items<L: Ledger>(rt: &impl Abort, table: &ClassTable, blank: Blank)
    requires name { blank.name ≡ L.name }
    requires parts { blank.parts ≡ L.parts }
    requires some { 0 < blank.parts }
{
    let mut steps: Steps<L> = Steps::new(blank);
    for row in ITEMS {
        items(rt, table, &mut steps, row);
    }
    dots(rt, table, &mut steps, "\u{E9}\r", true);
    dots(rt, table, &mut steps, "\r\u{E9}", false);
}

#[test]
fn items_take_whole_characters(rt: HostRuntime) -> Result<(), Fail> {
    let all_but_k = class(
        rt.alloc(),
        true,
        true,
        &[Part::Range { from: 107, to: 107 }],
    )?;
    let table = table_of(rt.alloc(), all_but_k, true)?;
    all_items::<Brand>(&rt, &table, Blank::new(1));
    Ok(())
}

// The places of an e acute, U+0085, CR, LF, U+2028, U+2029, and the end.
const BREAKS: [usize; 7] = [0, 2, 4, 5, 6, 9, 12];

fn breaks(rt: &impl Abort, bsr: Bsr, answers: &[u8; 7]) {
    let text = "\u{E9}\u{85}\r\n\u{2028}\u{2029}";
    let options = options_of(Newline::Lf, bsr);
    let view = view_of(text, &options);
    for i in 0..7usize {
        let at = BREAKS[i];
        assert!(rt; text.is_char_boundary(at) && text.len() < 100);
        assert!(rt; letters::taken(break_step(&view, at), at) == answers[i]);
    }
}

#[test]
fn newline_sequences_of_unicode_are_taken_whole(rt: HostRuntime) {
    breaks(&rt, Bsr::Unicode, b".22133E");
    breaks(&rt, Bsr::AnyCrLf, b"..21..E");
}

// A text, the end of its part from 0 on that is to stand again, whether in any case, where, and the
// answer.
type Again = (&'static str, usize, bool, usize, Taken);

const AGAIN: &[Again] = &[
    ("k\u{212A}", 1, true, 1, Taken::Took(4)),
    ("k\u{212A}", 1, false, 1, Taken::No),
    ("\u{212A}K", 3, true, 3, Taken::Took(4)),
    ("s\u{17F}S", 1, true, 1, Taken::Took(3)),
    ("\u{3C3}\u{3C2}", 2, true, 2, Taken::Took(4)),
    ("\u{3C3}\u{3C2}", 2, false, 2, Taken::No),
    ("\u{DF}\u{1E9E}", 2, true, 2, Taken::Took(5)),
    ("\u{DF}ss", 2, true, 2, Taken::No),
    ("\u{E9}\u{20AC}\u{E9}\u{20AC}", 5, false, 5, Taken::Took(10)),
    ("\u{E9}\u{20AC}\u{E9}", 5, false, 5, Taken::AtEnd),
    ("\u{E9}\u{20AC}\u{E8}", 5, false, 5, Taken::No),
    ("\u{E9}\u{20AC}\u{C9}", 5, true, 5, Taken::AtEnd),
    ("\u{E9}", 2, false, 2, Taken::AtEnd),
    ("\u{E9}", 0, false, 2, Taken::Took(2)),
];

#[test]
fn texts_stand_again_by_characters(rt: HostRuntime) {
    for (text, to, caseless, at, answer) in AGAIN {
        let view = view_of(text, &UTF);
        assert!(rt; text.len() < 100 && text.is_char_boundary(0));
        assert!(rt; text.is_char_boundary(*to) && text.is_char_boundary(*at));
        assert!(rt; ref_step(&view, 0, *to, *caseless, *at) == *answer);
    }
}

/// A text, what ends its lines, an assertion, some places, and its answer at each of them.
type Anchors = (
    &'static str,
    Newline,
    AnchorKind,
    &'static [usize],
    &'static [u8],
);

fn anchors(rt: &impl Abort, row: &Anchors) {
    let (text, newline, kind, places, answers) = *row;
    let options = options_of(newline, Bsr::Unicode);
    let view = view_of(text, &options);
    assert!(rt; text.len() < 100 && places.len() == answers.len());
    for i in 0..places.len() {
        let at = places[i];
        assert!(rt; text.is_char_boundary(at));
        assert!(rt; letters::held(anchor(&view, kind, at)) == answers[i]);
    }
}

const WORD: AnchorKind = AnchorKind::Word { ucp: false };

const WORD_OF_UNICODE: AnchorKind = AnchorKind::Word { ucp: true };

const INSIDE_OF_UNICODE: AnchorKind = AnchorKind::NotWord { ucp: true };

const LINE_START: AnchorKind = AnchorKind::Caret { multi: true };

const LINE_END: AnchorKind = AnchorKind::Dollar {
    multi: true,
    end_only: false,
};

// `e`, an accent, an underscore, a space, e acute
const WORDS: &str = "e\u{301}_ \u{E9}";

const EDGES: &[usize] = &[0, 1, 3, 4, 5, 7];

const LETTERS: &str = "\u{3B1}\u{3B2}";

const LINES: &str = "\u{E9}\u{2028}x\u{85}";

const ENDS: &[usize] = &[0, 2, 5, 6, 8];

const LAST: AnchorKind = AnchorKind::EndOrNewline;

const ANCHORS: &[Anchors] = &[
    (WORDS, Newline::Lf, WORD, EDGES, b"++++.E"),
    (WORDS, Newline::Lf, WORD_OF_UNICODE, EDGES, b"+..++*"),
    (WORDS, Newline::Lf, INSIDE_OF_UNICODE, EDGES, b".++..E"),
    (LETTERS, Newline::Lf, WORD_OF_UNICODE, &[0, 2, 4], b"+.*"),
    (LINES, Newline::Any, LINE_START, ENDS, b"+.+.."),
    (LINES, Newline::Any, LINE_END, ENDS, b".+.+*"),
    (LINES, Newline::AnyCrLf, LINE_END, ENDS, b"....*"),
    (LINES, Newline::Any, LAST, ENDS, b"...**"),
];

#[test]
fn words_and_lines_of_unicode_have_edges(rt: HostRuntime) {
    for row in ANCHORS {
        anchors(&rt, row);
    }
}

// Places of `TEXT`, so many characters back from them, and where that is.
const BACK: &[(usize, u32, Option<usize>)] = &[
    (17, 0, Some(17)),
    (17, 1, Some(16)),
    (17, 7, Some(0)),
    (17, 8, None),
    (6, 2, Some(1)),
    (0, 1, None),
];

#[test]
fn places_go_back_by_characters(rt: HostRuntime) {
    let view = view_of(TEXT, &UTF);
    for (at, count, place) in BACK {
        assert!(rt; TEXT.is_char_boundary(*at) && TEXT.len() < 100);
        assert!(rt; text_back(&view, *at, *count) == *place);
    }
}
