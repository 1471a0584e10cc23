//! Sources and sinks.
ghost use Rattle.std.specs.Prelude.{◌≡◌, ◌<◌, length, IfOk};
ghost use Rattle.std.specs.Io.{ReadsAtMost, WritesAtMost};
ghost use Rattle.std.specs.Io.KnownBytes.{Keeps, ReadConsumes, WriteAppends};
ghost use Rattle.pcre_io.specs.Told.{StopsAt, LeavesRoom, TakesPiece, Told, Kept};
ghost use Rattle.pcre_io.specs.Causes.{CountsFaults, CountsRefusals};

/// A read failed.
#[derive(Debug, Clone, Copy, PartialEq, Eq)]
pub struct Failed;

/// Why a write, or the opening of a file, was refused.
#[derive(Debug, Clone, Copy, PartialEq, Eq)]
pub enum IoError {
    /// The outside refused, and counted a fault.
    Failed,
    /// Memory lacked.
    Memory,
}

/// Where bytes come from.
pub trait Source {
    /// The bytes that it has left and its fault place, where it tells them, and how many faults it has counted.
    ghost tells: { Self → Told };

    /// Moves the next bytes into `buf`, and says how many. None, with room in `buf`, is the end. A read that failed
    /// counted a fault and moved nothing.
    fn read(&mut self, buf: &mut [u8]) -> Result<usize, Failed>
        ensures bound { ReadsAtMost result buf.new }
        ensures bytes { ReadConsumes (tells self.old).left (tells self.new).left result buf.new }
        ensures stop { StopsAt (tells self.old).stop (tells self.new).stop result (length buf.old) }
        ensures cause { CountsFaults (tells self.old).faults (tells self.new).faults result };

    /// Whether a read may wait for bytes that are still to come, as at a terminal or a pipe. A source that leaves this
    /// out says so.
    fn may_wait(&self) -> bool {
        true
    }
}

/// Where bytes go. A sink may gather what it takes, and send it on later.
pub trait Sink {
    /// The bytes that it holds, its room and its piece, where it tells them, and how many faults it has counted.
    ghost tells: { Self → Kept };

    /// Takes the first bytes of a piece, at least one of a piece that isn't empty, and says how many. A write that was
    /// refused took nothing. One that failed counted a fault, and no other does.
    fn write(&mut self, bytes: &[u8]) -> Result<usize, IoError>
        ensures bound { WritesAtMost result bytes.now }
        ensures some { IfOk result (λ n. 0 < length bytes.now → 0 < n) }
        ensures bytes { WriteAppends (tells self.old).held (tells self.new).held result bytes.now }
        ensures room { LeavesRoom (tells self.old).room (tells self.new).room result
            (length bytes.now) }
        ensures piece { TakesPiece (tells self.old).piece (tells self.new).piece result }
        ensures cause { CountsRefusals (tells self.old).faults (tells self.new).faults result };

    /// Sends on what was gathered, as before a read that may wait. What the sink holds stays. It fails only where a
    /// fault was counted.
    fn flush(&mut self) -> Result<(), Failed>
        ensures bytes { Keeps (tells self.old).held (tells self.new).held }
        ensures room { (tells self.new).room ≡ (tells self.old).room }
        ensures piece { (tells self.new).piece ≡ (tells self.old).piece }
        ensures cause { CountsFaults (tells self.old).faults (tells self.new).faults result };
}
