//! The status of a run.
ghost use Rattle.std.specs.Prelude.{◌≡◌, map, string_bytes, List};
ghost use Rattle.line_feed.specs.Rows.{Input};
ghost use Rattle.line_feed.specs.Hears.{Hears};
ghost use Rattle.tool_io.specs.declared.target.Target.{Target};
ghost use Rattle.tool_io.specs.Asked.{Asked, StandFor};
ghost use Rattle.tool_io.specs.Outcomes.{Runs};
ghost use Rattle.tool_io.specs.Printed.{printed};
ghost use Rattle.grep_main.specs.Asks.{AsksFor};
ghost use Rattle.grep_main.specs.Leaves.{LeavesInput, LeavesUnasked, RunTies};
ghost use Rattle.grep_main.specs.ToolText.{text_of};

use crate::grep::grep;
use grep_core::Stop;
use pcre_io::{FileSet, Sink, Source};
use std::alloc::Global;

/// Runs pcre2grep on the words after its name, and answers its status (pcre2grep, "DIAGNOSTICS").
///
/// `files` are opened by the names among the words, `input` is the standard input, results go to
/// `out` and messages to `err`. At status 3 memory lacked, at status 4 a write failed; then each
/// sink holds a part of its text. At every other status each holds all of it.
pub fn run_grep<F: FileSet, S: Source, O: Sink, E: Sink>(
    alloc: Global,
    words: &[String],
    files: &mut F,
    input: &mut S,
    out: &mut O,
    err: &mut E,
) -> u8
    // The targets that its words ask for stand for the input that the source stands for, and for
    // the files. For these the sinks grew by its text, and the answer is its status; or memory
    // lacked or a write failed, and they grew by a part of it. A file is absent only where it is
    // known to be, or a fault was counted. Where the scan of standard input ends early, little past
    // its last line was taken of it, unless memory lacked. Where no target is standard input, it is
    // left as it was.
    ensures text { let before = F.tells files.old in let after = F.tells files.new in
        (heard : Input) × Hears (S.tells input.old) (S.tells input.new) heard
        × ((asked : List Target) × AsksFor before.contents before.faults after.faults
        (map string_bytes words.now) asked
        × ((given : List Asked) × StandFor before.contents heard asked given
        × Runs (text_of (map string_bytes words.now) given) result
        (printed (O.tells out.old) (E.tells err.old)) (printed (O.tells out.new) (E.tells err.new))
        × RunTies before after given result (LeavesInput (map string_bytes words.now) given
        (S.tells input.old) (S.tells input.new))
        × LeavesUnasked asked (S.tells input.old) (S.tells input.new))) }
    ensures files { (F.tells files.new).contents ≡ (F.tells files.old).contents }
{
    match grep(alloc, words, files, input, out, err) {
        Ok(status) => status,
        Err(Stop::TooManyErrors) => 2,
        Err(Stop::Memory) => 3,
        Err(Stop::SinkFault) => 4,
    }
}
