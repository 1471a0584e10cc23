//! What searches find for alternatives that begin with single items, or are made of them (pcre2pattern, "Vertical
//! bar").
use super::searching::searched;
use Ask::{NotEmpty, NotEmptyAtStart, Plain, ToEnd};
use frame_machine::Scratch;
use match_drive::MatchAnswer;
use pat_tree::{MatchOptions, Options};
use std::alloc::Global;
use std::process::Abort;
use std::test::Fail;

/// What is asked of a match.
#[derive(Clone, Copy)]
enum Ask {
    Plain,
    ToEnd,
    NotEmpty,
    NotEmptyAtStart,
}

/// A pattern, a subject, what is asked, and the text of the match.
type Row = (&'static [u8], &'static [u8], Ask, Option<(usize, usize)>);

fn matching(ask: Ask) -> MatchOptions {
    let mut matching = MatchOptions::PLAIN;
    match ask {
        Plain => {}
        ToEnd => matching.endanchored = true,
        NotEmpty => matching.notempty = true,
        NotEmptyAtStart => matching.notempty_atstart = true,
    }
    matching
}

/// A row is answered by a workspace in which an earlier search captured something.
fn case(rt: &impl Abort, alloc: Global, row: &Row, scratch: &mut Scratch) -> Result<(), Fail> {
    let (pattern, subject, ask, expected) = *row;
    assert!(rt; subject.len() < 100);
    let plain = MatchOptions::PLAIN;
    let earlier = searched(alloc, b"(.)", Options::PLAIN, b"q", 0, &plain, scratch)?;
    assert!(rt; earlier.1.is_some());
    let wanted = matching(ask);
    let (answer, group) = searched(alloc, pattern, Options::PLAIN, subject, 0, &wanted, scratch)?;
    let expected = match expected {
        None => MatchAnswer::NoMatch { mark: None },
        Some((keep, to)) => MatchAnswer::Match {
            keep,
            to,
            mark: None,
        },
    };
    assert!(rt; answer == expected);
    assert!(rt; matches!(answer, MatchAnswer::NoMatch { .. }) || group.is_none());
    Ok(())
}

const THE_FIRST_ALTERNATIVE_THAT_COUNTS: &[Row] = &[
    (b"the", b"in the end", Plain, Some((3, 6))),
    (b"t.e", b"toe the tie", Plain, Some((0, 3))),
    (b"t.e", b"toe the tie", ToEnd, Some((8, 11))),
    (b"(?i)[^x]IE", b"xie tie", Plain, Some((4, 7))),
    (b"e", b"xyz", Plain, None),
    (b"ab|abc", b"abc", Plain, Some((0, 2))),
    (b"ab|abc", b"abc", ToEnd, Some((0, 3))),
    (b"abc|ab|b", b"xab", Plain, Some((1, 3))),
    (b"a|b", b"ab", ToEnd, Some((1, 2))),
    (b"a|b", b"abc", ToEnd, None),
    (b"x|", b"ax", Plain, Some((0, 0))),
    (b"x|", b"ax", NotEmpty, Some((1, 2))),
    (b"|x", b"x", NotEmpty, Some((0, 1))),
    (b"|x", b"x", NotEmptyAtStart, Some((0, 1))),
    (b"|x", b"ax", NotEmptyAtStart, Some((1, 1))),
    (b"a\\d+|ab", b"ab", Plain, Some((0, 2))),
    (b"ab\\b|a", b"abc", Plain, Some((0, 1))),
    (b"ab|a\\Kc", b"ac", Plain, Some((1, 2))),
];

#[test]
fn the_first_alternative_that_counts(rt: HostRuntime) -> Result<(), Fail> {
    let mut scratch = Scratch::new(rt.alloc());
    for row in THE_FIRST_ALTERNATIVE_THAT_COUNTS {
        case(&rt, rt.alloc(), row, &mut scratch)?;
    }
    Ok(())
}

/// Patterns that are one sequence, with a text that stands at the same distance from the begin of each match, and some
/// without.
const A_TEXT_BEHIND_THE_BEGIN: &[Row] = &[
    (b"..xq", b"xq axq", Plain, Some((2, 6))),
    (b"[a-f]{3}\\d us=", b"abc us=abc1 us=", Plain, Some((7, 15))),
    (b"o.k=\\d+", b"ok= o1k=7", Plain, Some((4, 9))),
    (b"..q", b"q", Plain, None),
    (b"..q", b"aq", Plain, None),
    (b"..q", b"aaq", Plain, Some((0, 3))),
    (b"..q", b"aaqaaq", ToEnd, Some((3, 6))),
    (b"^..q", b"xaaq", Plain, None),
    (b"^..q", b"aaq", Plain, Some((0, 3))),
    (b"a{2}.\\bq", b"aa aa q", Plain, Some((3, 7))),
    (b"a{2}.\\b=q", b"aa aax=q", Plain, Some((3, 8))),
    (b"a{2,3}q", b"aaaq", Plain, Some((0, 4))),
    (b"..q|z", b"z", Plain, Some((0, 1))),
];

#[test]
fn a_text_behind_the_begin(rt: HostRuntime) -> Result<(), Fail> {
    let mut scratch = Scratch::new(rt.alloc());
    for row in A_TEXT_BEHIND_THE_BEGIN {
        case(&rt, rt.alloc(), row, &mut scratch)?;
    }
    Ok(())
}
