ghost use Rattle.std.specs.Prelude.{◌≡◌, None};

use byte_lanes::EndKind;
use line_feed::{FeedError, LineFeed};
use pcre_io::{Failed, MemSource, Source};
use std::alloc::Global;
use std::process::Abort;
use std::test::Fail;

/// A line: its bytes, its newline, its number, and where it begins.
type LineRow<'a> = (&'a [u8], &'a [u8], u64, u64);

// Whether the next line is this one.
fn gives<S: Source>(feed: &mut LineFeed, source: &mut S, row: LineRow<'_>) -> bool {
    if !feed.is_live() {
        return false;
    }
    match feed.next(source) {
        Ok(Some(line)) => (line.bytes, line.end, line.number, line.offset) == row,
        _ => false,
    }
}

// Whether there is no further line, and none again.
fn ends<S: Source>(feed: &mut LineFeed, source: &mut S) -> bool {
    for _ in 0..2u8 {
        if !feed.is_live() {
            return false;
        }
        match feed.next(source) {
            Ok(None) => {}
            _ => return false,
        }
    }
    true
}

// Whether the feed answers this error, and goes no further.
fn fails<S: Source>(feed: &mut LineFeed, source: &mut S, error: FeedError) -> bool {
    if !feed.is_live() {
        return false;
    }
    match feed.next(source) {
        Err(e) => e == error && !feed.is_live(),
        _ => false,
    }
}

// Whether the next lines are these, and the end or this fault comes after them.
fn gives_all<S: Source>(
    feed: &mut LineFeed,
    source: &mut S,
    rows: &[LineRow<'_>],
    fault: Option<FeedError>,
) -> bool {
    for row in rows {
        if !gives(feed, source, *row) {
            return false;
        }
    }
    match fault {
        Some(error) => fails(feed, source, error),
        None => ends(feed, source),
    }
}

/// A convention, the most bytes of a line, an input, how many of its bytes are read before a fault, how many a read
/// gives at most, its lines, and the fault that comes after them.
type Input = (
    EndKind,
    usize,
    &'static [u8],
    Option<u64>,
    u32,
    &'static [LineRow<'static>],
    Option<FeedError>,
);

fn is_read(rt: &impl Abort, alloc: Global, row: &Input) -> Result<(), Fail> {
    let (kind, max, bytes, fail_at, piece, rows, fault) = *row;
    assert!(rt; max >= 1 && piece >= 1);
    let mut feed = LineFeed::new(alloc, kind, max);
    let mut source = MemSource::new(bytes.to_vec(alloc)?, fail_at, piece);
    assert!(rt; gives_all(&mut feed, &mut source, rows, fault));
    Ok(())
}

const CR_OR_CRLF: &[LineRow<'static>] = &[
    (b"a", b"\r", 1, 0),
    (b"b", b"\r\n", 2, 2),
    (b"c", b"", 3, 5),
];

const LINE_SEPARATOR: &[LineRow<'static>] = &[(b"a", b"\xe2\x80\xa8", 1, 0), (b"b", b"", 2, 4)];

const CONVENTIONS: &[Input] = &[
    (EndKind::AnyCrLf, 9, b"a\rb\r\nc", None, 1, CR_OR_CRLF, None),
    (
        EndKind::CrLf,
        9,
        b"a\rb\r\n",
        None,
        9,
        &[(b"a\rb", b"\r\n", 1, 0)],
        None,
    ),
    (
        EndKind::AnyUtf,
        9,
        b"a\xe2\x80\xa8b",
        None,
        2,
        LINE_SEPARATOR,
        None,
    ),
];

#[test]
fn lines_of_each_convention(rt: HostRuntime) -> Result<(), Fail> {
    for row in CONVENTIONS {
        is_read(&rt, rt.alloc(), row)?;
    }
    Ok(())
}

const READ_FAULT: Option<FeedError> = Some(FeedError::ReadFault);

const TOO_LONG: Option<FeedError> = Some(FeedError::TooLong { line: 2 });

const FAULTS: &[Input] = &[
    (EndKind::AnyCrLf, 9, b"a\r", Some(2), 9, &[], READ_FAULT),
    (
        EndKind::Cr,
        9,
        b"a\r",
        Some(2),
        9,
        &[(b"a", b"\r", 1, 0)],
        READ_FAULT,
    ),
    (
        EndKind::Lf,
        4,
        b"ab\nabcde\nb\n",
        None,
        9,
        &[(b"ab", b"\n", 1, 0)],
        TOO_LONG,
    ),
];

#[test]
fn lines_before_a_fault_and_lines_too_long(rt: HostRuntime) -> Result<(), Fail> {
    for row in FAULTS {
        is_read(&rt, rt.alloc(), row)?;
    }
    Ok(())
}

// Whether the front of the source is so many bytes.
fn shows<S: Source>(feed: &mut LineFeed, source: &mut S, len: usize) -> bool
    requires { feed.old.number ≡ 0 }
{
    if !feed.is_live() {
        return false;
    }
    match feed.front(source) {
        Ok(shown) => shown.len() == len,
        Err(_) => false,
    }
}

#[test]
fn the_front_and_the_lines_behind_it(rt: HostRuntime) -> Result<(), Fail> {
    let alloc = rt.alloc();
    let mut feed = LineFeed::new(alloc, EndKind::Lf, 9);
    let mut source = MemSource::new(b"one\ntwo".to_vec(alloc)?, Some(7), 3);
    assert!(rt; shows(&mut feed, &mut source, 7));
    assert!(rt; gives_all(&mut feed, &mut source, &[(b"one", b"\n", 1, 0)], READ_FAULT));
    Ok(())
}

#[test]
fn the_front_of_a_long_line(rt: HostRuntime) -> Result<(), Fail> {
    let alloc = rt.alloc();
    let mut feed = LineFeed::new(alloc, EndKind::Lf, 2_000);
    let mut source = MemSource::new(vec![in alloc; 120u8; 1_500]?, None, 600);
    assert!(rt; shows(&mut feed, &mut source, 1_024));
    let line = [120; 1_500];
    assert!(rt; gives_all(&mut feed, &mut source, &[(&line, b"", 1, 0)], None));
    Ok(())
}

// Whether the next line is this one, and these bytes are held behind it.
fn leaves<S: Source>(feed: &mut LineFeed, source: &mut S, row: LineRow<'_>, held: &[u8]) -> bool {
    gives(feed, source, row) && feed.held() == held
}

const ANOTHER: &[LineRow<'static>] = &[(b"a", b"\r", 1, 0), (b"b", b"", 2, 2)];

#[test]
fn bytes_held_and_another_input(rt: HostRuntime) -> Result<(), Fail> {
    let alloc = rt.alloc();
    let mut feed = LineFeed::new(alloc, EndKind::Lf, 9);
    let mut source = MemSource::new(b"ad\ncd\nx".to_vec(alloc)?, None, 9);
    assert!(rt; feed.held().is_empty());
    assert!(rt; leaves(&mut feed, &mut source, (b"ad", b"\n", 1, 0), b"cd\nx"));
    assert!(rt; leaves(&mut feed, &mut source, (b"cd", b"\n", 2, 3), b"x"));
    feed.restart(EndKind::Cr, 9);
    let mut source = MemSource::new(b"a\rb".to_vec(alloc)?, None, 9);
    assert!(rt; feed.held().is_empty());
    assert!(rt; gives_all(&mut feed, &mut source, ANOTHER, None));
    Ok(())
}

/// An input that is held whole, and how many of its bytes are read before a fault; lines of at most `longest` bytes are
/// passed over in its first `within`. These are so many lines of `passed` bytes, and the others come behind them.
struct Passing {
    kind: EndKind,
    bytes: &'static [u8],
    fail_at: Option<u64>,
    within: usize,
    longest: usize,
    passed: usize,
    lines: u64,
    rows: &'static [LineRow<'static>],
    fault: Option<FeedError>,
}

const FIVE: &[u8] = b"ad\n\ncde\nf\ng";

const PASSINGS: &[Passing] = &[
    Passing {
        kind: EndKind::Lf,
        bytes: FIVE,
        fail_at: None,
        within: 11,
        longest: 9,
        passed: 10,
        lines: 4,
        rows: &[(b"g", b"", 5, 10)],
        fault: None,
    },
    Passing {
        kind: EndKind::Lf,
        bytes: FIVE,
        fail_at: Some(11),
        within: 9,
        longest: 9,
        passed: 8,
        lines: 3,
        rows: &[(b"f", b"\n", 4, 8)],
        fault: READ_FAULT,
    },
    Passing {
        kind: EndKind::Lf,
        bytes: b"ad\nc",
        fail_at: None,
        within: 2,
        longest: 9,
        passed: 0,
        lines: 0,
        rows: &[(b"ad", b"\n", 1, 0), (b"c", b"", 2, 3)],
        fault: None,
    },
    Passing {
        kind: EndKind::Lf,
        bytes: b"a\nbcd\ne\n",
        fail_at: None,
        within: 8,
        longest: 2,
        passed: 2,
        lines: 1,
        rows: &[(b"bcd", b"\n", 2, 2), (b"e", b"\n", 3, 6)],
        fault: None,
    },
    Passing {
        kind: EndKind::Lf,
        bytes: b"a\nbcdefghijk\n",
        fail_at: None,
        within: 13,
        longest: 99,
        passed: 2,
        lines: 1,
        rows: &[],
        fault: TOO_LONG,
    },
    Passing {
        kind: EndKind::AnyCrLf,
        bytes: b"a\rb\r\nc\r",
        fail_at: Some(7),
        within: 7,
        longest: 9,
        passed: 5,
        lines: 2,
        rows: &[],
        fault: READ_FAULT,
    },
    Passing {
        kind: EndKind::AnyCrLf,
        bytes: b"a\rb\r\ncd\re",
        fail_at: None,
        within: 9,
        longest: 1,
        passed: 5,
        lines: 2,
        rows: &[(b"cd", b"\r", 3, 5), (b"e", b"", 4, 8)],
        fault: None,
    },
];

// Whether so many bytes, of so many lines, are passed over in the first `within` bytes held.
fn passes(feed: &mut LineFeed, within: usize, longest: usize, passed: usize, lines: u64) -> bool {
    if !feed.is_live() || feed.held().len() < within {
        return false;
    }
    feed.pass(within, longest) == passed && feed.number() == lines
}

fn is_passed(rt: &impl Abort, alloc: Global, p: &Passing) -> Result<(), Fail> {
    let mut feed = LineFeed::new(alloc, p.kind, 9);
    let mut source = MemSource::new(p.bytes.to_vec(alloc)?, p.fail_at, 99);
    assert!(rt; shows(&mut feed, &mut source, p.bytes.len()));
    assert!(rt; passes(&mut feed, p.within, p.longest, p.passed, p.lines));
    assert!(rt; gives_all(&mut feed, &mut source, p.rows, p.fault));
    Ok(())
}

#[test]
fn lines_that_are_passed_over(rt: HostRuntime) -> Result<(), Fail> {
    for passing in PASSINGS {
        is_passed(&rt, rt.alloc(), passing)?;
    }
    Ok(())
}

#[test]
fn many_lines_passed_over_before_a_long_one(rt: HostRuntime) -> Result<(), Fail> {
    let alloc = rt.alloc();
    let mut bytes = Vec::new(alloc);
    for _ in 0..300u16 {
        bytes.extend_from_slice(b"ab\n")?;
    }
    bytes.resize(1_600, 120)?;
    let mut feed = LineFeed::new(alloc, EndKind::Lf, 2_000);
    let mut source = MemSource::new(bytes, None, 2_000);
    assert!(rt; shows(&mut feed, &mut source, 1_024));
    assert!(rt; passes(&mut feed, 1_600, 2_000, 900, 300));
    let line = [120; 700];
    assert!(rt; gives_all(&mut feed, &mut source, &[(&line, b"", 301, 900)], None));
    Ok(())
}

// Zero bytes, of which so many are left, and how often it was read.
#[derive(Drop)]
struct Zeros {
    left: usize,
    reads: u32,
}

impl Source for Zeros {
    ghost tells = { λ s. record { left = None; stop = None; faults = 0 } };

    fn read(&mut self, buf: &mut [u8]) -> Result<usize, Failed> {
        let n = buf.len().min(self.left);
        buf[..n].fill(0);
        self.left -= n;
        self.reads = self.reads.saturating_add(1);
        Ok(n)
    }
}

#[test]
fn the_room_that_was_kept_is_filled_by_one_read(rt: HostRuntime) -> Result<(), Fail> {
    let mut feed = LineFeed::new(rt.alloc(), EndKind::Lf, 9_000);
    let mut source = Zeros {
        left: 9_000,
        reads: 0,
    };
    let line = [0; 9_000];
    assert!(rt; gives(&mut feed, &mut source, (&line, b"", 1, 0)));
    feed.restart(EndKind::Lf, 9_000);
    let mut source = Zeros {
        left: 8_000,
        reads: 0,
    };
    assert!(rt; gives_all(&mut feed, &mut source, &[(&line[..8_000], b"", 1, 0)], None));
    assert!(rt; source.reads == 2);
    Ok(())
}

const TEXT: [u8; 12] = *b"a\r\nb\r\r\nc\n\nd\r";

// The text in up to three pieces, which end at these places.
#[derive(Drop)]
struct Pieces {
    at: usize,
    first: usize,
    second: usize,
}

impl Source for Pieces {
    ghost tells = { λ s. record { left = None; stop = None; faults = 0 } };

    fn read(&mut self, buf: &mut [u8]) -> Result<usize, Failed> {
        let end = self.piece_end();
        match TEXT.get(self.at..end) {
            Some(piece) if piece.len() <= buf.len() => {
                buf[..piece.len()].copy_from_slice(piece);
                self.at = end;
                Ok(piece.len())
            }
            _ => Ok(0),
        }
    }
}

impl Pieces {
    // Where the next piece ends.
    fn piece_end(&self) -> usize {
        if self.at < self.first {
            self.first
        } else if self.at < self.second {
            self.second
        } else {
            TEXT.len()
        }
    }
}

// Whether the text in these pieces gives the lines that begin, end and have their newlines' ends at these places.
fn is_cut(
    alloc: Global,
    kind: EndKind,
    rows: &[(usize, usize, usize)],
    mut source: Pieces,
) -> bool {
    let mut feed = LineFeed::new(alloc, kind, 12);
    let mut number = 0u64;
    for (from, to, next) in rows {
        number = number.saturating_add(1);
        let (Some(bytes), Some(end)) = (TEXT.get(*from..*to), TEXT.get(*to..*next)) else {
            return false;
        };
        if !gives(&mut feed, &mut source, (bytes, end, number, *from as u64)) {
            return false;
        }
    }
    ends(&mut feed, &mut source)
}

/// A convention, and where its lines begin, end and have their newlines' ends.
type Cut = (EndKind, &'static [(usize, usize, usize)]);

const ANY: &[(usize, usize, usize)] = &[
    (0, 1, 3),
    (3, 4, 5),
    (5, 5, 7),
    (7, 8, 9),
    (9, 9, 10),
    (10, 11, 12),
];

const CR: &[(usize, usize, usize)] = &[(0, 1, 2), (2, 4, 5), (5, 5, 6), (6, 11, 12)];

const LF: &[(usize, usize, usize)] = &[(0, 2, 3), (3, 6, 7), (7, 8, 9), (9, 9, 10), (10, 12, 12)];

const CUTS: &[Cut] = &[
    (EndKind::AnyCrLf, ANY),
    (EndKind::Any, ANY),
    (EndKind::AnyUtf, ANY),
    (EndKind::Cr, CR),
    (EndKind::Lf, LF),
    (EndKind::CrLf, &[(0, 1, 3), (3, 5, 7), (7, 12, 12)]),
    (EndKind::Nul, &[(0, 12, 12)]),
];

// Whether a convention cuts each split of the text as it is to.
fn cuts_all(alloc: Global, cut: &Cut) -> bool {
    for first in 0..13usize {
        for second in first..13 {
            let at = 0;
            if !is_cut(alloc, cut.0, cut.1, Pieces { at, first, second }) {
                return false;
            }
        }
    }
    true
}

#[test]
fn every_split_of_a_text(rt: HostRuntime) {
    for cut in CUTS {
        assert!(rt; cuts_all(rt.alloc(), cut));
    }
}
