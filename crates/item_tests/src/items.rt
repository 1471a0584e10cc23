//! Items, `\R`, references and assertions on bytes.
ghost use Rattle.std.specs.Prelude.{◌≡◌, ◌<◌, false, All, length, IsTrue};
ghost use Rattle.pat_tree.specs.Rules.{class_in};

use crate::letters;
use crate::sets::{class, table_of};
use char_sets::ClassTable;
use match_items::{Taken, View, anchor, break_step, ref_step, run_len, step};
use pat_tree::{AnchorKind, Bsr, Item, MatchOptions, Newline, Options, Part, Steps};
use std::marker::Brand;
use std::process::Abort;
use std::sync::ledger::{Blank, Ledger};
use std::test::Fail;

fn options_of(newline: Newline, bsr: Bsr) -> Options
    ensures { result.utf ≡ false }
{
    Options {
        newline,
        bsr,
        ..Options::PLAIN
    }
}

/// A subject, what `\R` takes, and its answer at each place.
type Breaks = (&'static [u8], Bsr, &'static [u8]);

fn breaks(rt: &impl Abort, row: &Breaks) {
    let (subject, bsr, answers) = *row;
    let options = options_of(Newline::Lf, bsr);
    let view = View {
        subject,
        start: 0,
        options: &options,
        matching: &MatchOptions::PLAIN,
    };
    assert!(rt; subject.len() < 100 && answers.len() == subject.len() + 1);
    for at in 0..answers.len() {
        assert!(rt; letters::taken(break_step(&view, at), at) == answers[at]);
    }
}

const BREAKS: &[Breaks] = &[
    (b"\r\n\x0b\x0c\n\x85x\r", Bsr::Unicode, b"211111.1E"),
    (b"\r\n\x0b\x0c\n\x85x\r", Bsr::AnyCrLf, b"21..1..1E"),
    (b"\r\r\n", Bsr::AnyCrLf, b"121E"),
];

#[test]
fn newline_sequences_are_taken_whole(rt: HostRuntime) {
    for row in BREAKS {
        breaks(&rt, row);
    }
}

/// A subject, what ends its lines, whether neither of its ends is one of a line, an assertion, and its answer at each
/// place. The start given is 2.
type Anchors = (&'static [u8], Newline, bool, AnchorKind, &'static [u8]);

fn anchors(rt: &impl Abort, row: &Anchors) {
    let (subject, newline, closed, kind, answers) = *row;
    let options = options_of(newline, Bsr::Unicode);
    let matching = MatchOptions {
        notbol: closed,
        noteol: closed,
        ..MatchOptions::PLAIN
    };
    let view = View {
        subject,
        start: 2,
        options: &options,
        matching: &matching,
    };
    assert!(rt; subject.len() < 100 && answers.len() == subject.len() + 1);
    for at in 0..answers.len() {
        assert!(rt; letters::held(anchor(&view, kind, at)) == answers[at]);
    }
}

fn all_anchors(rt: &impl Abort, rows: &[Anchors]) {
    for row in rows {
        anchors(rt, row);
    }
}

const CARET: AnchorKind = AnchorKind::Caret { multi: false };

const LINE_START: AnchorKind = AnchorKind::Caret { multi: true };

const DOLLAR: AnchorKind = AnchorKind::Dollar {
    multi: false,
    end_only: false,
};

const END_ONLY: AnchorKind = AnchorKind::Dollar {
    multi: false,
    end_only: true,
};

const LINE_END: AnchorKind = AnchorKind::Dollar {
    multi: true,
    end_only: true,
};

const LINES: &[Anchors] = &[
    (b"a\nb\n", Newline::Lf, false, CARET, b"+...."),
    (b"a\nb\n", Newline::Lf, false, LINE_START, b"+.+.."),
    (b"a\nb\n", Newline::Lf, false, DOLLAR, b"...**"),
    (b"a\nb\n", Newline::Lf, false, END_ONLY, b"....*"),
    (b"a\nb\n", Newline::Lf, false, LINE_END, b".+.+*"),
    (
        b"a\nb\n",
        Newline::Lf,
        false,
        AnchorKind::SubjectStart,
        b"+....",
    ),
    (
        b"a\nb\n",
        Newline::Lf,
        false,
        AnchorKind::SubjectEnd,
        b"....*",
    ),
    (
        b"a\nb\n",
        Newline::Lf,
        false,
        AnchorKind::EndOrNewline,
        b"...**",
    ),
    (
        b"a\nb\n",
        Newline::Lf,
        false,
        AnchorKind::StartGiven,
        b"..+..",
    ),
    (b"a\nb\n", Newline::Lf, true, CARET, b"....."),
    (b"a\nb\n", Newline::Lf, true, LINE_START, b"..+.."),
    (b"a\nb\n", Newline::Lf, true, DOLLAR, b"....."),
    (b"a\nb\n", Newline::Lf, true, LINE_END, b".+.+."),
    (
        b"a\nb\n",
        Newline::Lf,
        true,
        AnchorKind::EndOrNewline,
        b"...**",
    ),
];

#[test]
fn assertions_hold_at_lines_and_ends(rt: HostRuntime) {
    all_anchors(&rt, LINES);
}

const HALVES: &[Anchors] = &[
    (b"a\r", Newline::CrLf, false, LINE_START, b"+.."),
    (b"a\r\n", Newline::CrLf, false, LINE_START, b"+..."),
    (b"a\r", Newline::CrLf, false, DOLLAR, b".E*"),
    (b"a\r\n", Newline::CrLf, false, DOLLAR, b".*.*"),
    (b"a\r", Newline::CrLf, false, LINE_END, b".E*"),
    (b"a\r\n", Newline::CrLf, false, LINE_END, b".+.*"),
    (
        b"a\r",
        Newline::CrLf,
        false,
        AnchorKind::EndOrNewline,
        b".E*",
    ),
    (
        b"a\r\n",
        Newline::CrLf,
        false,
        AnchorKind::EndOrNewline,
        b".*.*",
    ),
    (b"a\r", Newline::CrLf, false, AnchorKind::SubjectEnd, b"..*"),
    (
        b"a\r\n",
        Newline::CrLf,
        false,
        AnchorKind::SubjectEnd,
        b"...*",
    ),
    (b"a\r", Newline::AnyCrLf, false, DOLLAR, b".**"),
    (b"a\r\nb", Newline::AnyCrLf, false, LINE_START, b"+.++."),
];

#[test]
fn a_last_cr_may_be_half_a_newline(rt: HostRuntime) {
    all_anchors(&rt, HALVES);
}

const WORD: AnchorKind = AnchorKind::Word { ucp: false };

const INSIDE: AnchorKind = AnchorKind::NotWord { ucp: false };

const WORDS: &[Anchors] = &[
    (b"a_9 \xe9Z", Newline::Lf, false, WORD, b"+..+.+*"),
    (b"a_9 \xe9Z", Newline::Lf, false, INSIDE, b".++.+.E"),
    (b" ", Newline::Lf, false, WORD, b".E"),
    (b"", Newline::Lf, false, INSIDE, b"*"),
];

#[test]
fn words_have_edges(rt: HostRuntime) {
    all_anchors(&rt, WORDS);
}

/// A subject, the end of its part from 0 on that is to stand again, whether in any case, where, and the answer.
type Again = (&'static [u8], usize, bool, usize, Taken);

const AGAIN: &[Again] = &[
    (b"abab", 2, false, 2, Taken::Took(4)),
    (b"ababc", 2, false, 2, Taken::Took(4)),
    (b"abac", 2, false, 2, Taken::No),
    (b"abAB", 2, false, 2, Taken::No),
    (b"abAB", 2, true, 2, Taken::Took(4)),
    (b"[{", 1, true, 1, Taken::No),
    (b"\xc9\xe9", 1, true, 1, Taken::No),
    (b"aba", 2, false, 2, Taken::AtEnd),
    (b"abc", 2, false, 2, Taken::No),
    (b"ab", 2, false, 2, Taken::AtEnd),
    (b"ab", 0, false, 2, Taken::Took(2)),
];

#[test]
fn texts_stand_again(rt: HostRuntime) {
    for (subject, to, caseless, at, answer) in AGAIN {
        let view = View {
            subject,
            start: 0,
            options: &Options::PLAIN,
            matching: &MatchOptions::PLAIN,
        };
        assert!(rt; subject.len() < 100 && *to <= subject.len() && *at <= subject.len());
        assert!(rt; ref_step(&view, 0, *to, *caseless, *at) == *answer);
    }
}

/// Whether an item's class is one of the table.
pub(crate) fn fits(table: &ClassTable, item: Item) -> bool
    ensures { IsTrue result → All (λ n. n < length table.now) (class_in item) }
{
    match item {
        Item::Class(class) => class < table.count(),
        _ => true,
    }
}

/// What ends a line, and an item; and at each place what the item takes, how many characters its run has, of a few at
/// most, and `*` where the run reaches the end.
pub(crate) type ItemRow = (
    Newline,
    Item,
    &'static [u8; 8],
    &'static [u8; 8],
    &'static [u8; 8],
);

// The places are those of CR LF `aA17` CR, and a run has two characters at most.
fn items<L: Ledger>(rt: &impl Abort, table: &ClassTable, steps: &mut Steps<L>, row: &ItemRow) {
    let (newline, item, taken, counts, reach) = *row;
    let options = options_of(newline, Bsr::Unicode);
    let view = View {
        subject: b"\r\naA17\r",
        start: 0,
        options: &options,
        matching: &MatchOptions::PLAIN,
    };
    assert!(rt; fits(table, item));
    for at in 0..8usize {
        let answer = letters::taken(step(&view, table, &item, at, steps), at);
        let run = run_len(&view, table, &item, at, 2, steps);
        let count = b"012?"[run.count.min(3) as usize];
        assert!(rt; answer == taken[at] && count == counts[at]);
        assert!(rt; run.at_end == (reach[at] == b'*'));
    }
}

const SMALL: Item = Item::Char {
    c: 97,
    caseless: false,
};

const ANY_CASE: Item = Item::Char {
    c: 65,
    caseless: true,
};

const DOT: Item = Item::NotNewline;

const DIGIT: Item = Item::Class(0);

const ITEMS: &[ItemRow] = &[
    (
        Newline::Lf,
        Item::AnyAll,
        b"1111111E",
        b"22222210",
        b"......**",
    ),
    (Newline::Lf, DOT, b"1.11111E", b"10222210", b"......**"),
    (Newline::CrLf, DOT, b".111111E", b"02222210", b".....***"),
    (Newline::AnyCrLf, DOT, b"..1111.E", b"00222100", b".......*"),
    (Newline::Lf, SMALL, b"..1....E", b"00100000", b".......*"),
    (Newline::Lf, ANY_CASE, b"..11...E", b"00210000", b".......*"),
    (Newline::Lf, DIGIT, b"....11.E", b"00002100", b".......*"),
];

fn all_items<L: Ledger>(rt: &impl Abort, table: &ClassTable, blank: Blank)
    requires name { blank.name ≡ L.name }
    requires parts { blank.parts ≡ L.parts }
    requires some { 0 < blank.parts }
{
    let mut steps: Steps<L> = Steps::new(blank);
    for row in ITEMS {
        items(rt, table, &mut steps, row);
    }
}

#[test]
fn items_take_characters_and_run(rt: HostRuntime) -> Result<(), Fail> {
    let digits = class(
        rt.alloc(),
        false,
        false,
        &[Part::Range { from: 48, to: 57 }],
    )?;
    let table = table_of(rt.alloc(), digits, false)?;
    all_items::<Brand>(&rt, &table, Blank::new(1));
    Ok(())
}
