//! How a scan ends.
use pcre_io::{Failed, IoError, Memory};

/// How the scan of an input ended.
#[derive(Clone, Copy, Debug, PartialEq, Eq)]
pub enum Ended {
    /// At the input's end.
    End,
    /// At a line, or before the first one: nothing after it counts.
    Early,
    /// At a read that failed.
    ReadFault,
    /// Before a line that has more bytes than a line may have.
    TooLong {
        /// Its number, from 1.
        line: u64,
    },
    /// At 2^40 bytes.
    TooMuch,
}

/// What is told of an input that was scanned.
#[derive(Clone, Copy, Debug, PartialEq, Eq)]
pub struct FileEnd {
    /// How many of its lines were selected.
    pub selected: u64,
    pub ended: Ended,
}

/// Why a run can't go on.
#[derive(Clone, Copy, Debug, PartialEq, Eq)]
pub enum Stop {
    /// A write was refused.
    SinkFault,
    /// The 21st match error of a run was met.
    TooManyErrors,
    /// Want of memory.
    Memory,
}

impl From<Memory> for Stop {
    ghost use Rattle.std.specs.Prelude.{◌≡◌};
    ghost use Rattle.grep_output.specs.declared.ended.Stop.TheVariants as told;

    ghost from_gives = { λ _ e. e ≡ told.Memory };

    fn from(_e: Memory) -> Stop {
        Stop::Memory
    }
}

impl From<Failed> for Stop {
    ghost use Rattle.std.specs.Prelude.{◌≡◌};
    ghost use Rattle.grep_output.specs.declared.ended.Stop.TheVariants as told;

    ghost from_gives = { λ _ e. e ≡ told.SinkFault };

    fn from(_e: Failed) -> Stop {
        Stop::SinkFault
    }
}

impl From<IoError> for Stop {
    ghost use Rattle.std.specs.Prelude.{◌≡◌};
    ghost use Rattle.grep_output.specs.Ends.{stop_of};

    ghost from_gives = { λ refusal e. e ≡ stop_of refusal };

    fn from(e: IoError) -> Stop {
        match e {
            IoError::Failed => Stop::SinkFault,
            IoError::Memory => Stop::Memory,
        }
    }
}
