//! One input, and what is written of it.
ghost use Rattle.std.specs.Prelude.{◌≤◌};

use grep_args::{GrepPlan, read};
use grep_core::{FileEnd, GrepState, Patterns, Stop, grep_file};
use pat_tree::{ByteList, TextList};
use pcre_io::{MemSink, MemSource, Source};
use std::alloc::Global;
use std::process::Abort;
use std::test::Fail;

/// Words with a space between them, after ` < ` an input, after ` > ` what is written to the output,
/// and after ` ! ` the messages.
type Row = &'static str;

pub(crate) fn words_of(alloc: Global, line: &str) -> Result<Vec<String>, Fail> {
    let mut words = Vec::new(alloc);
    for word in line.split(' ') {
        words.push(String::from_str(alloc, word)?)?;
    }
    Ok(words)
}

pub(crate) fn patterns_of(alloc: Global, plan: &GrepPlan) -> Result<Option<Patterns>, Fail> {
    let mut texts = TextList::new(alloc);
    for text in plan.patterns.as_slice() {
        texts.push(ByteList::from_vec(text.bytes().to_vec(alloc)?))?;
    }
    Ok(Patterns::build(alloc, plan, &texts).ok())
}

// Searches an input, or gives none where the words are refused.
fn search(
    alloc: Global,
    line: &str,
    source: &mut MemSource,
    out: &mut MemSink,
    err: &mut MemSink,
) -> Result<Option<(Result<FileEnd, Stop>, GrepState)>, Fail> {
    let words = words_of(alloc, line)?;
    let Ok(plan) = read(alloc, words.as_slice()) else {
        return Ok(None);
    };
    let Some(patterns) = patterns_of(alloc, &plan)? else {
        return Ok(None);
    };
    let mut state = GrepState::new(alloc);
    let answer = grep_file(&patterns, &plan, "f", source, out, err, &mut state);
    Ok(Some((answer, state)))
}

// The words of a row, and its input.
fn run_of(row: &str) -> (&str, &str) {
    row.split_once(" < ").unwrap_or((row, ""))
}

fn is_written(
    alloc: Global,
    line: &str,
    source: &mut MemSource,
    output: &str,
    messages: &str,
    piece: u32,
) -> Result<bool, Fail>
    requires some { 1 ≤ piece }
{
    let mut out = MemSink::new(alloc, None, piece);
    let mut err = MemSink::new(alloc, None, piece);
    let found = search(alloc, line, source, &mut out, &mut err)?;
    let written = out.bytes() == output.as_bytes() && err.bytes() == messages.as_bytes();
    Ok(written && matches!(found, Some((Ok(_), _))))
}

fn is_told(alloc: Global, row: &str, piece: u32) -> Result<bool, Fail>
    requires some { 1 ≤ piece }
{
    let (row, messages) = row.split_once(" ! ").unwrap_or((row, ""));
    let (row, output) = row.split_once(" > ").unwrap_or((row, ""));
    let (line, input) = run_of(row);
    let mut source = MemSource::new(input.as_bytes().to_vec(alloc)?, None, piece);
    is_written(alloc, line, &mut source, output, messages, piece)
}

fn check_all(rt: &impl Abort, alloc: Global, rows: &[Row]) -> Result<(), Fail> {
    for row in rows {
        let by_bytes = is_told(alloc, row, 1)?;
        let by_threes = is_told(alloc, row, 3)?;
        let at_once = is_told(alloc, row, 100)?;
        assert!(rt; by_bytes && by_threes && at_once);
    }
    Ok(())
}

#[test]
fn lines_are_shown_with_context(rt: HostRuntime) -> Result<(), Fail> {
    static ROWS: [Row; 16] = [
        "-n -C 1 x < a\nx\nb\nc\nd\nx\n > 1-a\n2:x\n3-b\n--\n5-d\n6:x\n",
        "-n -C 2 x < a\nx\nb\nc\nd\nx\n > 1-a\n2:x\n3-b\n4-c\n5-d\n6:x\n",
        "-B 1 x < a\nx\nb\nc\nd\nx\n > a\nx\n--\nd\nx\n",
        "-A 1 x < a\nx\nb\nc\nd\nx\n > x\nb\n--\nx\n",
        "-m 1 -A 2 x < a\nx\nb\nc\nd\nx\n > x\nb\nc\n",
        "-v -n x < a\nx\nb\nc\nd\nx\n > 1:a\n3:b\n4:c\n5:d\n",
        "-c x < a\nx\nb\nc\nd\nx\n > 2\n",
        "-cH x < a\nx\nb\nc\nd\nx\n > f:2\n",
        "-l x < a\nx\nb\nc\nd\nx\n > f\n",
        "-L x < a\nx\nb\nc\nd\nx\n",
        "-L y < a\nx\nb\nc\nd\nx\n > f\n",
        "-q x < a\nx\nb\nc\nd\nx\n",
        "-n -e xz -e yq < a\nxz\n\nbb\nyq\nxy\n > 2:xz\n5:yq\n",
        "-v -n -e xz -e yq < a\nxz\n\nbb\nyq\nxy\n > 1:a\n3:\n4:bb\n6:xy\n",
        "-C 1 yq < a\nxz\n\nbb\nyq\nxy\n > bb\nyq\nxy\n",
        "-n -N CRLF z < a\r\nz\r\n\r\nz\r\n > 2:z\r\n4:z\r\n",
    ];
    check_all(&rt, rt.alloc(), &ROWS)
}

#[test]
fn matches_are_shown(rt: HostRuntime) -> Result<(), Fail> {
    static ROWS: [Row; 10] = [
        "-no b* < abb\nc > 1:\n1:bb\n2:\n",
        "-o o < foo\nbar\n > o\no\n",
        "-o1 -o2 (a)(b)? < ab a\n > ab\na\n",
        "-o1 -o2 --om-separator=, (a)(b)? < ab a\n > a,b\na\n",
        "-Ho1 x(y)? < x xy\n > f:\nf:y\n",
        "--line-offsets o < foo\nbar\n > 1:1,1\n1:2,1\n",
        "--file-offsets r < foo\nbar\n > 6,1\n",
        "-F a.b < a.b\nadb\n > a.b\n",
        "-w a < a b\nab\n > a b\n",
        "--match-limit=0 -v a+b < ab\ncb\n > cb\n ! pcre2grep: f: line 1: error -47\n",
    ];
    check_all(&rt, rt.alloc(), &ROWS)
}

/// Two lines without a match, and 21 at which the match limit is met.
const ERRORS: &[u8] =
    b"cb\ncb\nab\nab\nab\nab\nab\nab\nab\nab\nab\nab\nab\nab\nab\nab\nab\nab\nab\nab\nab\nab\nab\n";

fn errors_are_counted(alloc: Global, line: &str) -> Result<bool, Fail> {
    let mut source = MemSource::new(ERRORS.to_vec(alloc)?, None, 100);
    let mut out = MemSink::new(alloc, None, 100);
    let mut err = MemSink::new(alloc, None, 100);
    let Some((answer, state)) = search(alloc, line, &mut source, &mut out, &mut err)? else {
        return Ok(false);
    };
    let counted = state.errors() == 21 && state.total() == 2;
    Ok(counted && out.bytes().is_empty() && matches!(answer, Err(Stop::TooManyErrors)))
}

#[test]
fn lines_before_the_last_match_error_count(rt: HostRuntime) -> Result<(), Fail> {
    let alone = errors_are_counted(rt.alloc(), "--match-limit=0 -v -c a+b")?;
    let total = errors_are_counted(rt.alloc(), "--match-limit=0 -v --total-count a+b")?;
    assert!(rt; alone && total);
    Ok(())
}

/// How many bytes the long inputs have.
const LONG: usize = 300_000;

// How many bytes are left of a source.
fn left_of(rt: &impl Abort, source: &mut MemSource) -> Result<usize, Fail> {
    let mut piece = [0; 4096];
    let mut left: usize = 0;
    for _ in 0..LONG {
        let n = source.read(&mut piece).ok().expect(rt, "a read");
        if n == 0 {
            return Ok(left);
        }
        left = left.saturating_add(n);
    }
    Ok(left)
}

fn ends_well(alloc: Global, line: &str, source: &mut MemSource) -> Result<bool, Fail> {
    let mut out = MemSink::new(alloc, None, 100);
    let mut err = MemSink::new(alloc, None, 100);
    let found = search(alloc, line, source, &mut out, &mut err)?;
    Ok(matches!(found, Some((Ok(_), _))))
}

// How many bytes of a long input are taken, of which a read gives so many at most; or more than all where the run
// doesn't end well.
fn taken_by(rt: &impl Abort, alloc: Global, row: &str, piece: u32) -> Result<usize, Fail>
    requires some { 1 ≤ piece }
{
    let (line, first) = run_of(row);
    let mut bytes = first.as_bytes().to_vec(alloc)?;
    bytes.resize(LONG, b'\n')?;
    let mut source = MemSource::new(bytes, None, piece);
    if !ends_well(alloc, line, &mut source)? {
        return Ok(usize::MAX);
    }
    let left = left_of(rt, &mut source)?;
    Ok(LONG.saturating_sub(left))
}

#[test]
fn the_rest_of_an_input_is_left(rt: HostRuntime) -> Result<(), Fail> {
    // Words and the first lines of a long input of empty ones, and where the scan of it ends.
    static ROWS: [(Row, usize); 12] = [
        ("-q x < b\nx\nc\n", 4),
        ("-l x < b\nx\nc\n", 4),
        ("-L x < b\nx\nc\n", 4),
        ("-m 1 x < b\nx\nx\n", 4),
        ("-m 2 x < b\nx\nx\n", 6),
        ("-m 1 -A 2 x < b\nx\nx\nd\n", 8),
        ("-m 1 -B 2 x < b\nx\nx\nd\n", 4),
        ("-c -m 1 x < b\nx\nx\nd\n", 4),
        ("-o -m 1 -A 2 x < b\nx\nx\nd\n", 4),
        ("-q -v x < x\nx\nb\n", 6),
        ("-I x < x\n\0\n", 0),
        ("x < x\n\0\n", 2),
    ];
    for (row, end) in &ROWS {
        let end = end.saturating_add(65_536);
        let taken = taken_by(&rt, rt.alloc(), row, 1_000_000)?;
        assert!(rt; taken <= end);
    }
    Ok(())
}

#[test]
fn no_bytes_are_waited_for_that_change_nothing(rt: HostRuntime) -> Result<(), Fail> {
    // Words, the first lines of a long input that comes byte by byte, and how many of these bytes are asked for: up to
    // the line that decides, or the first 1,024 where something else is written of a binary input.
    static ROWS: [(Row, usize); 20] = [
        ("-q x < b\nx\nc\n", 4),
        ("-q x < b\nx\0\n", 5),
        ("-q -v x < x\nb\n", 4),
        ("-L x < b\nx\nc\n", 4),
        ("-c -m 1 x < b\nx\nx\n", 4),
        ("-c -m 1 x < b\nx\0\n", 5),
        ("-c -l -m 1 x < b\nx\nx\n", 4),
        ("-t -m 1 x < b\nx\nx\n", 4),
        ("-a -m 1 x < b\nx\nx\n", 4),
        ("-a -m 1 -A 1 x < b\nx\nd\ne\n", 6),
        ("-a -o -m 1 x < b\nx\nx\n", 4),
        ("-a -l x < b\nx\nc\n", 4),
        ("--binary-files=text -m 1 x < b\nx\nx\n", 4),
        ("-N NUL -m 1 x < b\0x\0x\0", 4),
        ("-m 1 x < b\nx\nx\n", 1_024),
        ("-o -m 1 x < b\nx\nx\n", 1_024),
        ("-l x < b\nx\nc\n", 1_024),
        ("-I -q x < b\nx\nc\n", 1_024),
        ("-I -L x < b\nx\nc\n", 1_024),
        ("-I -c -m 1 x < b\nx\nx\n", 1_024),
    ];
    for (row, end) in &ROWS {
        let taken = taken_by(&rt, rt.alloc(), row, 1)?;
        assert!(rt; taken == *end);
    }
    Ok(())
}
