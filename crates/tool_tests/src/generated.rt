//! Seven lines for some numbers of lines.
use pcre_io::{IoError, MemSink};
use test_gen::write_generated;

const NONE: &[u8] =
    b"lines: 0\npattern 1: 0 lines, 0 characters\npattern 2: 0 lines, 0 characters\n\
      pattern 3: 0 lines, 0 characters\npattern 4: 0 lines, 0 characters\ndfa: 0 ends\n\
      substitute: 0\n";

const ONE: &[u8] = b"lines: 1\npattern 1: 1 lines, 4 characters\npattern 2: 1 lines, 1 characters\n\
      pattern 3: 1 lines, 3 characters\npattern 4: 1 lines, 5 characters\ndfa: 4 ends\n\
      substitute: 3\n";

// Counted by Python's `re`.
const MOST: &[u8] = b"lines: 100000\npattern 1: 53822 lines, 124243 characters\n\
      pattern 2: 15387 lines, 15387 characters\npattern 3: 96408 lines, 408569 characters\n\
      pattern 4: 51447 lines, 118487 characters\ndfa: 160952 ends\nsubstitute: 299991\n";

#[test]
fn seven_lines_are_written(rt: HostRuntime) {
    for (count, text) in &[(0, NONE), (1, ONE)] {
        let mut out = MemSink::new(rt.alloc(), None, 100);
        assert!(rt; write_generated(rt.alloc(), &mut out, *count).is_ok());
        assert!(rt; out.bytes() == *text);
    }
}

#[test]
fn two_runs_write_the_same(rt: HostRuntime) {
    for piece in [100, 7] {
        let mut out = MemSink::new(rt.alloc(), None, piece);
        assert!(rt; write_generated(rt.alloc(), &mut out, 100_000).is_ok());
        assert!(rt; out.bytes() == MOST);
    }
}

#[test]
fn a_refused_write_stops(rt: HostRuntime) {
    let mut out = MemSink::new(rt.alloc(), Some(5), 100);
    let written = write_generated(rt.alloc(), &mut out, 1);
    assert!(rt; written == Err(IoError::Failed));
    assert!(rt; out.bytes() == b"lines".as_slice());
}
