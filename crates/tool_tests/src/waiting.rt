//! What is sent on before a read that may wait.
use crate::inputs::{patterns_of, words_of};
use grep_args::read;
use grep_core::{GrepState, grep_file};
use pcre_io::{Failed, IoError, MemSink, MemSource, Sink, Source};
use std::alloc::Global;
use std::cell::Cell;
use std::test::Fail;

/// A source whose reads may wait, or not. It keeps how often the output had been sent on before each of them, as the
/// digits of a number.
#[derive(Drop)]
struct Watched<'a> {
    inner: MemSource,
    waits: bool,
    sent: &'a Cell<u64>,
    seen: u64,
}

impl<'a> Source for Watched<'a> {
    ghost tells = { λ s. ⟦<MemSource as Source>⟧.tells s.inner };

    fn read(&mut self, buf: &mut [u8]) -> Result<usize, Failed> {
        self.seen = self.seen.wrapping_mul(10).wrapping_add(self.sent.get());
        self.inner.read(buf)
    }

    fn may_wait(&self) -> bool {
        self.waits
    }
}

/// A sink that counts how often it was sent on.
#[derive(Drop)]
struct Counted<'a> {
    inner: MemSink,
    sent: &'a Cell<u64>,
}

impl<'a> Sink for Counted<'a> {
    ghost tells = { λ s. ⟦<MemSink as Sink>⟧.tells s.inner };

    fn write(&mut self, bytes: &[u8]) -> Result<usize, IoError> {
        self.inner.write(bytes)
    }

    fn flush(&mut self) -> Result<(), Failed> {
        self.sent.set(self.sent.get().wrapping_add(1));
        self.inner.flush()
    }
}

/// Searches the lines `a`, `x`, `b`, `x`, of which one read gives one, and answers what the source has kept.
fn sent_before(alloc: Global, line: &str, waits: bool) -> Result<Option<u64>, Fail> {
    let words = words_of(alloc, line)?;
    let Ok(plan) = read(alloc, words.as_slice()) else {
        return Ok(None);
    };
    let Some(patterns) = patterns_of(alloc, &plan)? else {
        return Ok(None);
    };
    let sent = Cell::new(0);
    let mut source = Watched {
        inner: MemSource::new(b"a\nx\nb\nx\n".to_vec(alloc)?, None, 2),
        waits,
        sent: &sent,
        seen: 0,
    };
    let mut out = Counted {
        inner: MemSink::new(alloc, None, 100),
        sent: &sent,
    };
    let mut err = MemSink::new(alloc, None, 100);
    let mut state = GrepState::new(alloc);
    let answer = grep_file(
        &patterns,
        &plan,
        "f",
        &mut source,
        &mut out,
        &mut err,
        &mut state,
    );
    Ok(answer.ok().map(|_| source.seen))
}

/// Words, and how often the output was sent on before each read.
type Row = (&'static str, u64);

const ROWS: [Row; 14] = [
    ("-a x", 12345),
    ("-a -v x", 12345),
    ("-a -n -C 1 x", 12345),
    ("-a -o x", 12345),
    ("-a --line-offsets x", 12345),
    ("-a -c x", 12345),
    ("-a -c -v x", 12345),
    ("-a -l x", 12),
    ("-a -L x", 12),
    ("-a -L y", 12345),
    ("-a -q x", 12),
    ("-a -q y", 12345),
    ("-a -m 1 x", 12),
    ("-a -m 1 -A 1 x", 123),
];

#[test]
fn output_is_sent_on_before_a_read_that_may_wait(rt: HostRuntime) -> Result<(), Fail> {
    for (line, seen) in &ROWS {
        assert!(rt; sent_before(rt.alloc(), line, true)? == Some(*seen));
        assert!(rt; sent_before(rt.alloc(), line, false)? == Some(0));
    }
    Ok(())
}
