//! A writer of std as a sink.
ghost use Rattle.std.specs.Prelude.{◌≡◌, None};

use crate::traits::{Failed, IoError, Sink};
use std::io::Write;

/// Any writer of std. A write that takes nothing of a piece counts as a fault.
#[derive(Drop)]
pub struct StdSink<W> {
    writer: W,
    faults: u64,
}

impl<W: Write> StdSink<W> {
    /// A sink over a writer. Takes no memory.
    pub fn new(writer: W) -> StdSink<W>
        ensures { ⟦<StdSink<W> as Sink>⟧.tells result
            ≡ record { held = W.contents writer; room = None; piece = None; faults = 0 } }
    {
        StdSink { writer, faults: 0 }
    }
}

impl<W: Write> Sink for StdSink<W> {
    ghost tells = { λ s. record { held = W.contents s.writer; room = None; piece = None; faults = s.faults } };

    fn write(&mut self, bytes: &[u8]) -> Result<usize, IoError> {
        match self.writer.write(bytes) {
            Ok(0) if !bytes.is_empty() => {
                self.faults = self.faults.saturating_add(1);
                Err(IoError::Failed)
            }
            Ok(count) => Ok(count),
            Err(_) => {
                self.faults = self.faults.saturating_add(1);
                Err(IoError::Failed)
            }
        }
    }

    fn flush(&mut self) -> Result<(), Failed> {
        match self.writer.flush() {
            Ok(()) => Ok(()),
            Err(_) => {
                self.faults = self.faults.saturating_add(1);
                Err(Failed)
            }
        }
    }
}
