//! Matches in reserved room.
use pcre2_api::{Code, MatchOptions, Options, ReservedError, Scratch, Span};
use std::alloc::Global;
use std::test::Fail;

/// The options of a match under a frame limit.
fn limited(frame_limit: u32) -> MatchOptions {
    MatchOptions {
        frame_limit,
        ..MatchOptions::PLAIN
    }
}

const FIRST: Option<Span> = Some(Span { from: 0, to: 1 });

/// A subject, a frame limit, and what a match of `(?C1)(a)(?C2)` captures.
type Row = (&'static [u8], u32, Result<Option<Span>, ReservedError>);

static ROWS: [Row; 5] = [
    (b"a", 4, Ok(FIRST)),
    (b"a", 1, Err(ReservedError::FrameLimit)),
    (b"a", 4, Ok(FIRST)),
    (b"b", 4, Err(ReservedError::NoMatch { mark: None })),
    (b"ab", 2, Ok(FIRST)),
];

// What group 1 captures in a match under a frame limit, where the room serves it.
fn is_captured(code: &Code, row: &Row, scratch: &mut Scratch) -> bool {
    let (subject, frame_limit, answer) = *row;
    let options = limited(frame_limit);
    if subject.len() >= 100 || !code.fits(&options, scratch) {
        return false;
    }
    let told = match code.match_reserved(subject, 0, &options, scratch) {
        Ok(found) => Ok(found.span(1)),
        Err(e) => Err(e),
    };
    told == answer
}

fn are_captured(code: &Code, scratch: &mut Scratch) -> bool {
    for row in &ROWS {
        if !is_captured(code, row, scratch) {
            return false;
        }
    }
    true
}

// Makes room for one group and four records, which there isn't before.
fn is_reserved(code: &Code, scratch: &mut Scratch) -> Result<bool, Fail> {
    let fits_before = code.fits(&limited(0), scratch);
    scratch.reserve(1, 4)?;
    Ok(!fits_before && scratch.groups() == 1 && scratch.frames() == 4)
}

fn is_kept(code: &Code, scratch: &Scratch) -> bool {
    !code.fits(&limited(5), scratch) && scratch.peak() <= 4
}

fn takes_no_memory(alloc: Global, code: &Code) -> Result<bool, Fail> {
    let mut scratch = Scratch::new(alloc);
    let is_reserved = is_reserved(code, &mut scratch)?;
    Ok(is_reserved && are_captured(code, &mut scratch) && is_kept(code, &scratch))
}

fn a_match_takes_no_memory(alloc: Global) -> Result<bool, Fail> {
    let code = Code::compile(alloc, b"(?C1)(a)(?C2)", Options::PLAIN)?;
    takes_no_memory(alloc, &code)
}

#[test]
fn matches_in_reserved_room_take_no_memory(rt: HostRuntime) -> Result<(), Fail> {
    let takes_none = a_match_takes_no_memory(rt.alloc())?;
    assert!(&rt; takes_none);
    Ok(())
}
