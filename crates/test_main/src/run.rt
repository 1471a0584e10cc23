//! A run of pcre2test.
ghost use Rattle.std.specs.Prelude.{◌≡◌, ◌≢◌, false, map, string_bytes, List, Option, Some};
ghost use Rattle.std.specs.List.{list_any};
ghost use Rattle.line_feed.specs.Rows.{Input};
ghost use Rattle.line_feed.specs.Hears.{Hears};
ghost use Rattle.tool_io.specs.Asked.{Asked, Opened, StandFor, is_standard};
ghost use Rattle.tool_io.specs.Absent.{AbsentBy};
ghost use Rattle.pcre_io.specs.Told.{Kept};
ghost use Rattle.tool_io.specs.Outcomes.{Runs};
ghost use Rattle.tool_io.specs.Printed.{printed};
ghost use Rattle.test_main.specs.Opens.{AreGiven, UnlessLacks};
ghost use Rattle.test_main.specs.RunsBy.{RunsBy};
ghost use Rattle.test_main.specs.ToolText.{script_text, generated_outcome, text_on, text_by, text_of, asked_by};
ghost use Rattle.test_main.specs.ToolText.{asked_targets, file_given};

use crate::messages::{write_banner, write_message, write_too_long};
use crate::words::{Script, TestWords, WordsError, read_words};
use pcre_io::{FileSet, IoError, Sink, Source};
use std::alloc::Global;
use test_gen::write_generated;
use test_run::{ScriptStop, run_script};
use test_script::TestPlan;
use tool_io::{status_of, write_texts};

// Runs a script that is there, and answers the status.
fn run_source<S: Source, O: Sink, E: Sink>(
    alloc: Global,
    plan: &TestPlan,
    name: &str,
    source: &mut S,
    out: &mut O,
    err: &mut E,
) -> Result<u8, IoError>
    ensures { (heard : Input) × Hears (S.tells source.old) (S.tells source.new) heard
        × RunsBy (script_text plan.now name.now heard)
        (printed (O.tells out.old) (E.tells err.old))
        (printed (O.tells out.new) (E.tells err.new)) result }
{
    write_banner(out, plan)?;
    match run_script(alloc, plan, source, out) {
        Ok(()) => Ok(0),
        Err(ScriptStop::ReadFault) => {
            write_message(err, name, b"read error")?;
            Ok(2)
        }
        Err(ScriptStop::TooLong { line }) => {
            write_too_long(err, name, line)?;
            Ok(2)
        }
        Err(ScriptStop::TooMuch) => {
            write_message(err, name, b"input too large")?;
            Ok(2)
        }
        Err(ScriptStop::SinkFault) => Err(IoError::Failed),
        Err(ScriptStop::Memory) => Err(IoError::Memory),
    }
}

// Runs the script of a file, where it can be opened.
fn run_file<F: FileSet, O: Sink, E: Sink>(
    alloc: Global,
    plan: &TestPlan,
    name: &str,
    files: &mut F,
    out: &mut O,
    err: &mut E,
) -> Result<u8, IoError>
    ensures runs { let before = F.tells files.old in let after = F.tells files.new in
        (given : Option Input) × Opened before.contents name.now given
        × RunsBy (text_on plan.now name.now given)
        (printed (O.tells out.old) (E.tells err.old))
        (printed (O.tells out.new) (E.tells err.new)) result
        × AbsentBy before.contents before.faults after.faults (file_given name.now given)
        × UnlessLacks result (AreGiven F.Src.tells before.contents (file_given name.now given)) }
    ensures files { (F.tells files.new).contents ≡ (F.tells files.old).contents }
{
    match files.open_file(alloc, name) {
        Ok(mut source) => run_source(alloc, plan, name, &mut source, out, err),
        Err(IoError::Failed) => {
            write_message(err, name, b"cannot be opened")?;
            Ok(1)
        }
        Err(IoError::Memory) => Err(IoError::Memory),
    }
}

// Makes lines, and writes what they come to.
fn run_generated<O: Sink>(alloc: Global, lines: u32, out: &mut O) -> Result<u8, IoError>
    ensures { (err : Kept) → RunsBy (generated_outcome lines) (printed (O.tells out.old) err)
        (printed (O.tells out.new) err) result }
{
    write_generated(alloc, out, lines)?;
    Ok(0)
}

// Runs what the words ask for.
fn run_asked<F: FileSet, S: Source, O: Sink, E: Sink>(
    alloc: Global,
    asked: &TestWords,
    files: &mut F,
    input: &mut S,
    out: &mut O,
    err: &mut E,
) -> Result<u8, IoError>
    ensures runs { let before = F.tells files.old in let after = F.tells files.new in
        (heard : Input) × Hears (S.tells input.old) (S.tells input.new) heard
        × ((given : List Asked) × StandFor before.contents heard
        (asked_by (Some asked.now)) given
        × RunsBy (text_by (Some asked.now) given)
        (printed (O.tells out.old) (E.tells err.old))
        (printed (O.tells out.new) (E.tells err.new)) result
        × AbsentBy before.contents before.faults after.faults given
        × UnlessLacks result (AreGiven F.Src.tells before.contents given)) }
    ensures unused { list_any is_standard (asked_by (Some asked.now)) ≡ false
        → S.tells input.new ≡ S.tells input.old }
    ensures files { (F.tells files.new).contents ≡ (F.tells files.old).contents }
{
    match &asked.script {
        Script::Standard => run_source(alloc, &asked.plan, "(standard input)", input, out, err),
        Script::File(name) => run_file(alloc, &asked.plan, name.as_str(), files, out, err),
        Script::Generated(lines) => run_generated(alloc, *lines, out),
    }
}

// Runs the words.
fn run_words<F: FileSet, S: Source, O: Sink, E: Sink>(
    alloc: Global,
    words: &[String],
    files: &mut F,
    input: &mut S,
    out: &mut O,
    err: &mut E,
) -> Result<u8, IoError>
    ensures runs { let before = F.tells files.old in let after = F.tells files.new in
        (heard : Input) × Hears (S.tells input.old) (S.tells input.new) heard
        × ((given : List Asked) × StandFor before.contents heard
        (asked_targets (map string_bytes words.now)) given
        × RunsBy (text_of (map string_bytes words.now) given)
        (printed (O.tells out.old) (E.tells err.old))
        (printed (O.tells out.new) (E.tells err.new)) result
        × AbsentBy before.contents before.faults after.faults given
        × UnlessLacks result (AreGiven F.Src.tells before.contents given)) }
    ensures unused { list_any is_standard (asked_targets (map string_bytes words.now)) ≡ false
        → S.tells input.new ≡ S.tells input.old }
    ensures files { (F.tells files.new).contents ≡ (F.tells files.old).contents }
{
    match read_words(alloc, words) {
        Ok(asked) => run_asked(alloc, &asked, files, input, out, err),
        Err(WordsError::Refused) => {
            write_texts(err, &[b"pcre2test: bad arguments\n"])?;
            Ok(1)
        }
        Err(WordsError::Memory) => Err(IoError::Memory),
    }
}

/// Runs pcre2test on the words after its name, and answers its status (pcre2test, "COMMAND LINE
/// OPTIONS").
///
/// `files` are opened by the name among the words, `input` is the standard input, results go to
/// `out` and messages to `err`. At status 3 memory lacked, at status 4 a write failed; then each
/// sink holds a part of its text. At every other status each holds all of it.
pub fn run_test<F: FileSet, S: Source, O: Sink, E: Sink>(
    alloc: Global,
    words: &[String],
    files: &mut F,
    input: &mut S,
    out: &mut O,
    err: &mut E,
) -> u8
    // The target that its words ask for stands for the input that the source stands for, or for the
    // file. For this the sinks grew by its text, and the answer is its status; or memory lacked or
    // a write failed, and they grew by a part of it. A file of which it isn't known is absent only
    // where a fault was counted; and unless memory lacked, a file that is there was opened, and its
    // source stands for its input.
    ensures text { let before = F.tells files.old in let after = F.tells files.new in
        (heard : Input) × Hears (S.tells input.old) (S.tells input.new) heard
        × ((given : List Asked) × StandFor before.contents heard
        (asked_targets (map string_bytes words.now)) given
        × Runs (text_of (map string_bytes words.now) given) result
        (printed (O.tells out.old) (E.tells err.old))
        (printed (O.tells out.new) (E.tells err.new))
        × AbsentBy before.contents before.faults after.faults given
        × (result ≢ 3 → AreGiven F.Src.tells before.contents given)) }
    // Standard input that the words don't ask for is left as it was.
    ensures unused { list_any is_standard (asked_targets (map string_bytes words.now)) ≡ false
        → S.tells input.new ≡ S.tells input.old }
    ensures files { (F.tells files.new).contents ≡ (F.tells files.old).contents }
{
    match run_words(alloc, words, files, input, out, err) {
        Ok(status) => status,
        Err(e) => status_of(e),
    }
}
