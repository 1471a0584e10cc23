//! The tool over any source, sinks and files.
ghost use Rattle.std.specs.Prelude.{◌≡◌, map, string_bytes, List};
ghost use Rattle.line_feed.specs.Rows.{Input};
ghost use Rattle.line_feed.specs.Hears.{Hears};
ghost use Rattle.tool_io.specs.declared.target.Target.{Target};
ghost use Rattle.tool_io.specs.Asked.{Asked, StandFor};
ghost use Rattle.tool_io.specs.Outcomes.{Runs};
ghost use Rattle.tool_io.specs.Printed.{printed};
ghost use Rattle.grep_main.specs.Leaves.{LeavesUnasked};
ghost use Rattle.grep_main.specs.Stages.{streams};
ghost use Rattle.pcre2_tools.specs.ToolText.{is_grep, is_test, tool_text, ToolAsks, ToolTies};

use grep_main::run_grep;
use pcre_io::{FileSet, Sink, Source};
use std::alloc::Global;
use test_main::run_test;
use tool_io::say;

fn is_grep(tool: &str) -> bool
    ensures { result ≡ is_grep tool.now }
{
    tool == "pcre2grep"
}

fn is_test(tool: &str) -> bool
    ensures { result ≡ is_test tool.now }
{
    tool == "pcre2test"
}

/// Runs the tool that the first word names, `pcre2grep` or `pcre2test`, and answers its status.
///
/// `files` are opened by the names among the words, `input` is the standard input, results go to `out` and messages to
/// `err`. At status 3 memory lacked, at status 4 a write failed; then each sink holds a part of its text. At every
/// other status each holds all of it.
pub fn run<F: FileSet, S: Source, O: Sink, E: Sink>(
    alloc: Global,
    words: &[String],
    files: &mut F,
    input: &mut S,
    out: &mut O,
    err: &mut E,
) -> u8
    // The targets that the tool asks for stand for the input that the source stands for, and for the files. For these
    // the sinks grew by the tool's text, and the answer is its status; or memory lacked or a write failed, and they
    // grew by a part of it. Unless memory lacked, at most 65,536 bytes past its last line were taken where pcre2grep's
    // scan of the input ends early, and the source that opening pcre2test's file answered stands for its input. A file
    // of which it isn't known is absent only where a fault was counted. An input that is no target is left as it was.
    ensures text { (heard : Input) × Hears (S.tells input.old) (S.tells input.new) heard
        × ((asked : List Target) × ToolAsks (F.tells files.old) (F.tells files.new)
        (map string_bytes words.now) asked
        × ((given : List Asked) × StandFor (F.tells files.old).contents heard asked given
        × Runs (tool_text (map string_bytes words.now) given) result
        (printed (O.tells out.old) (E.tells err.old)) (printed (O.tells out.new) (E.tells err.new))
        × ToolTies F.Src.tells (streams (F.tells files.old) (S.tells input.old)
        (printed (O.tells out.old) (E.tells err.old)))
        (streams (F.tells files.new) (S.tells input.new)
        (printed (O.tells out.new) (E.tells err.new)))
        (map string_bytes words.now) given result
        × LeavesUnasked asked (S.tells input.old) (S.tells input.new))) }
    ensures files { (F.tells files.new).contents ≡ (F.tells files.old).contents }
{
    let [tool, rest @ ..] = words else {
        return say(err, b"unknown tool", 2);
    };
    if is_grep(tool.as_str()) {
        return run_grep(alloc, rest, files, input, out, err);
    }
    if is_test(tool.as_str()) {
        return run_test(alloc, rest, files, input, out, err);
    }
    say(err, b"unknown tool", 2)
}
