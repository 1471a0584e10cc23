//! Why a script isn't run to its end.
ghost use Rattle.std.specs.Prelude.{◌≡◌};
ghost use Rattle.test_run.specs.Runs.{stop_of, stop_at};

use line_feed::FeedError;
use pcre_io::IoError;

/// Why a script isn't run to its end.
#[derive(Clone, Copy, Debug, PartialEq, Eq)]
pub enum ScriptStop {
    /// A read failed. The lines before it were run.
    ReadFault,
    /// The line of this number, counted from 1, has more than 1,048,576 bytes. Those before it were
    /// run.
    TooLong { line: u64 },
    /// 2^40 bytes were taken. Their whole lines were run.
    TooMuch,
    /// A write was refused.
    SinkFault,
    /// Want of memory.
    Memory,
}

impl From<IoError> for ScriptStop {
    ghost use Rattle.std.specs.Prelude.{◌≡◌};
    ghost use Rattle.test_run.specs.Runs.{stop_of};

    ghost from_gives = { λ refusal e. e ≡ stop_of refusal };

    fn from(e: IoError) -> ScriptStop {
        match e {
            IoError::Failed => ScriptStop::SinkFault,
            IoError::Memory => ScriptStop::Memory,
        }
    }
}

/// Why a script ends where the feed gives no line.
pub(crate) fn stop_at(e: FeedError) -> ScriptStop
    ensures { result ≡ stop_at e }
{
    match e {
        FeedError::ReadFault => ScriptStop::ReadFault,
        FeedError::TooLong { line } => ScriptStop::TooLong { line },
        FeedError::TooMuch => ScriptStop::TooMuch,
        FeedError::Memory => ScriptStop::Memory,
    }
}
