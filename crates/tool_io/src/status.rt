//! A run that only says something.
ghost use Rattle.std.specs.Prelude.{◌≡◌, ◌<◌};
ghost use Rattle.pcre_io.specs.Told.{Kept};
ghost use Rattle.tool_io.specs.Outcomes.{Runs, said, status_of};
ghost use Rattle.tool_io.specs.Printed.{printed};

use crate::write::write_texts;
use pcre_io::{IoError, Sink};

/// Writes a line to the messages, and answers a status below 3; or 3 where memory lacked, and 4 where a write was
/// refused.
pub fn say<E: Sink>(err: &mut E, text: &[u8], status: u8) -> u8
    requires { status < 3 }
    ensures { (out : Kept) → Runs (said text.now status) result (printed out (E.tells err.old))
        (printed out (E.tells err.new)) }
{
    match write_texts(err, &[text, b"\n"]) {
        Ok(()) => status,
        Err(e) => status_of(e),
    }
}

/// The status of a run that a refused write stopped, or want of memory.
pub fn status_of(e: IoError) -> u8
    ensures { result ≡ status_of e }
{
    match e {
        IoError::Memory => 3,
        IoError::Failed => 4,
    }
}
