//! Where searches begin in UTF, by the forms of RFC 3629, section 3.
use pcre2_api::{Code, MatchError, Options};
use std::process::Abort;
use std::test::Fail;

/// A subject, a start, and why a search can't begin there, if it can't.
type Row = (&'static [u8], usize, Result<(), MatchError>);

const UTF: Options = Options {
    utf: true,
    ..Options::PLAIN
};

const SUBJECTS: &[Row] = &[
    (b"", 0, Ok(())),
    (b"\x7f\xc2\x80\xdf\xbf", 0, Ok(())),
    (
        b"\xe0\xa0\x80\xed\x9f\xbf\xee\x80\x80\xef\xbf\xbf",
        0,
        Ok(()),
    ),
    (b"\xf0\x90\x80\x80\xf4\x8f\xbf\xbf", 0, Ok(())),
    (b"a\xff", 0, Err(MatchError::BadUtf { at: 1 })),
    (b"\xfe", 0, Err(MatchError::BadUtf { at: 0 })),
    (b"\x80", 0, Err(MatchError::BadUtf { at: 0 })),
    (b"ab\xbf", 0, Err(MatchError::BadUtf { at: 2 })),
    (b"\xc3", 0, Err(MatchError::BadUtf { at: 0 })),
    (b"\xc3x", 0, Err(MatchError::BadUtf { at: 0 })),
    (
        b"\xe2\x82\xac\xe2\x82",
        0,
        Err(MatchError::BadUtf { at: 3 }),
    ),
    (b"\xf0\x9f\x98", 0, Err(MatchError::BadUtf { at: 0 })),
    (b"\xc0\x80", 0, Err(MatchError::BadUtf { at: 0 })),
    (b"\xc1\xbf", 0, Err(MatchError::BadUtf { at: 0 })),
    (b"\xe0\x9f\xbf", 0, Err(MatchError::BadUtf { at: 0 })),
    (b"\xf0\x8f\xbf\xbf", 0, Err(MatchError::BadUtf { at: 0 })),
    (b"x\xed\xa0\x80", 0, Err(MatchError::BadUtf { at: 1 })),
    (b"\xed\xbf\xbf", 0, Err(MatchError::BadUtf { at: 0 })),
    (b"\xf4\x90\x80\x80", 0, Err(MatchError::BadUtf { at: 0 })),
    (b"\xf5\x80\x80\x80", 0, Err(MatchError::BadUtf { at: 0 })),
    (
        b"\xf8\x88\x80\x80\x80",
        0,
        Err(MatchError::BadUtf { at: 0 }),
    ),
    (
        b"\xc3\xa9\xe2\x28\xa1",
        0,
        Err(MatchError::BadUtf { at: 2 }),
    ),
];

const STARTS: &[Row] = &[
    (b"\xc3\xa9a", 0, Ok(())),
    (b"\xc3\xa9a", 1, Err(MatchError::BadUtfOffset)),
    (b"\xc3\xa9a", 2, Ok(())),
    (b"\xc3\xa9a", 3, Ok(())),
    (b"\xc3\xa9a", 4, Err(MatchError::BadOffset)),
    (b"\xf0\x9f\x98\x80", 3, Err(MatchError::BadUtfOffset)),
    (b"\xf0\x9f\x98\x80", 4, Ok(())),
    (b"\xc3\xa9\xff", 1, Err(MatchError::BadUtf { at: 2 })),
    (b"\xff", 2, Err(MatchError::BadOffset)),
];

fn check_all(rt: &impl Abort, code: &Code, rows: &[Row]) {
    for (subject, start, expected) in rows {
        assert!(rt; code.test_start(subject, *start) == *expected);
    }
}

#[test]
fn a_search_begins_at_a_character(rt: HostRuntime) -> Result<(), Fail> {
    let code = Code::compile(rt.alloc(), b".", UTF)?;
    check_all(&rt, &code, SUBJECTS);
    check_all(&rt, &code, STARTS);
    Ok(())
}

#[test]
fn without_utf_a_search_begins_anywhere(rt: HostRuntime) -> Result<(), Fail> {
    let code = Code::compile(rt.alloc(), b".", Options::PLAIN)?;
    for (subject, _, _) in SUBJECTS {
        assert!(&rt; code.test_start(subject, subject.len()).is_ok());
    }
    Ok(())
}
