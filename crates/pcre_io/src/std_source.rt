//! A reader of std as a source.
ghost use Rattle.std.specs.Prelude.{◌≡◌, ◌-◌, length, None, OnErr};
ghost use Rattle.std.specs.Io.{ReadsAtMost};
ghost use Rattle.std.specs.Io.KnownBytes.{ReadConsumes};
ghost use Rattle.pcre_io.specs.Told.{StopsAt};
ghost use Rattle.pcre_io.specs.Causes.{CountsFaults, counted};

use crate::traits::{Failed, Source};
use std::io::Read;

/// Any reader of std. A real one tells nothing of its bytes, and none tells a fault place.
#[derive(Drop)]
pub struct StdSource<R> {
    reader: R,
    may_wait: bool,
    faults: u64,
}

impl<R: Read> StdSource<R> {
    /// A source over a reader. Takes no memory.
    pub fn new(reader: R) -> StdSource<R>
        ensures { ⟦<StdSource<R> as Source>⟧.tells result
            ≡ record { left = R.remaining reader; stop = None; faults = 0 } }
    {
        StdSource {
            reader,
            may_wait: true,
            faults: 0,
        }
    }

    /// A source over a reader whose reads don't wait, as a file's. Takes no memory.
    pub fn of_file(reader: R) -> StdSource<R>
        ensures { ⟦<StdSource<R> as Source>⟧.tells result
            ≡ record { left = R.remaining reader; stop = None; faults = 0 } }
    {
        StdSource {
            reader,
            may_wait: false,
            faults: 0,
        }
    }
}

impl<R: Read> Source for StdSource<R> {
    ghost tells = { λ s. record { left = R.remaining s.reader; stop = None; faults = s.faults } };

    // The clauses of `Source`, and that a read that failed counts as one fault.
    fn read(&mut self, buf: &mut [u8]) -> Result<usize, Failed>
        ensures bound { ReadsAtMost result buf.new }
        ensures bytes { ReadConsumes (R.remaining self.old.reader) (R.remaining self.new.reader)
            result buf.new }
        ensures stop { StopsAt None None result (length buf.old) }
        ensures cause { CountsFaults self.old.faults self.new.faults result }
        ensures once { OnErr result (self.new.faults ≡ counted self.old.faults) }
    {
        match self.reader.read(buf) {
            Ok(count) => Ok(count),
            Err(_) => {
                self.faults = self.faults.saturating_add(1);
                Err(Failed)
            }
        }
    }

    fn may_wait(&self) -> bool {
        self.may_wait
    }
}
