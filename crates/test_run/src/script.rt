//! A script, line by line.
ghost use Rattle.std.specs.Prelude.{◌≡◌, ◌++◌, IfOk, OnOk, OnErr, Err};
ghost use Rattle.test_script.specs.Script.{beginning, line_of};
ghost use Rattle.tool_io.specs.Texts.{line};
ghost use Rattle.tool_io.specs.Writes.{Writes};
ghost use Rattle.test_run.specs.Courses.{between, refused_text, entry_text, course_after};
ghost use Rattle.test_run.specs.Runs.{IsShort, RunsScript, Sends};
ghost use Rattle.test_run.specs.Searches.{course_of};

use crate::course::Course;
use crate::lines::write_refusal;
use crate::patterns::begin;
use crate::stop::{ScriptStop, stop_at};
use crate::subjects::write_subject;
use byte_lanes::EndKind;
use line_feed::LineFeed;
use pcre_io::{IoError, Sink, Source};
use pcre2_api::Scratch;
use std::alloc::Global;
use test_modifiers::Refusal;
use test_script::{Entry, ScriptReader, TestPlan};
use tool_io::write_texts;

// The greatest length of a line.
const LONGEST_LINE: usize = 1_048_576;

/// A run of a script: its reader, what subject lines are searched for, and the workspace of the
/// searches.
#[derive(Drop)]
struct Run {
    alloc: Global,
    reader: ScriptReader,
    course: Course,
    scratch: Scratch,
}

// Writes why a line is refused, unless the pattern before it was.
fn refuse<O: Sink>(out: &mut O, course: &Course, refusal: &Refusal) -> Result<(), IoError>
    ensures { Writes (refused_text (course_of course.now) refusal.now) (O.tells out.old)
        (O.tells out.new) result }
{
    match course {
        Course::Passed => Ok(()),
        Course::Between | Course::Tests(_) => write_refusal(out, refusal),
    }
}

// Writes what an entry comes to.
fn take_entry<O: Sink>(run: &mut Run, entry: Entry, out: &mut O) -> Result<(), IoError>
    requires { IsShort entry }
    ensures wrote { Writes (entry_text (course_of run.old.course) entry) (O.tells out.old)
        (O.tells out.new) result }
    ensures course { OnOk result (course_of run.new.course
        ≡ course_after (course_of run.old.course) entry) }
    ensures reader { run.new.reader ≡ run.old.reader }
{
    match entry {
        Entry::Pattern(pattern) => {
            run.course = begin(run.alloc, pattern, out)?;
            Ok(())
        }
        Entry::Subject(subject) => {
            write_subject(run.alloc, out, &run.course, &subject, &mut run.scratch)
        }
        Entry::Refused(refusal) => refuse(out, &run.course, &refusal),
        Entry::EndOfSubjects => {
            run.course = Course::Between;
            Ok(())
        }
        Entry::More | Entry::Note | Entry::Command(_) => Ok(()),
    }
}

// What a line is, after those before it.
fn read_line(reader: &mut ScriptReader, text: &[u8]) -> Result<Entry, IoError>
    ensures entry { IfOk result (λ entry. line_of reader.old text.now ≡ (entry, reader.new)) }
    ensures memory { OnErr result (result ≡ Err IoError.Memory) }
{
    match reader.feed(text) {
        Ok(entry) => Ok(entry),
        Err(_) => Err(IoError::Memory),
    }
}

// Writes a line, and what it comes to.
fn take_line<O: Sink>(run: &mut Run, text: &[u8], out: &mut O) -> Result<(), IoError>
    ensures wrote { Writes (line text.now ++ entry_text (course_of run.old.course)
        (line_of run.old.reader text.now).0) (O.tells out.old) (O.tells out.new) result }
    ensures course { OnOk result (course_of run.new.course
        ≡ course_after (course_of run.old.course) (line_of run.old.reader text.now).0) }
    ensures reader { OnOk result (run.new.reader ≡ (line_of run.old.reader text.now).1) }
{
    write_texts(out, &[text, b"\n"])?;
    let entry = read_line(&mut run.reader, text)?;
    take_entry(run, entry, out)
}

fn flush<O: Sink>(out: &mut O) -> Result<(), IoError>
    ensures { Sends (O.tells out.old) (O.tells out.new) result }
{
    match out.flush() {
        Ok(()) => Ok(()),
        Err(_) => Err(IoError::Failed),
    }
}

// Sends on what was gathered, before a read that may wait: who reads on need not wait with it.
#[tactic(auto, using(crate::proofs::Sending::sends_none))]
fn send_on<S: Source, O: Sink>(feed: &mut LineFeed, source: &S, out: &mut O) -> Result<(), IoError>
    ensures same { feed.new ≡ feed.old }
    ensures sent { Sends (O.tells out.old) (O.tells out.new) result }
{
    if source.may_wait() && !feed.holds_line() {
        return flush(out);
    }
    Ok(())
}

// The run before the first line.
fn beginning(alloc: Global, plan: &TestPlan) -> Result<Run, IoError>
    ensures reader { IfOk result (λ run. run.reader ≡ beginning plan.now.defaults) }
    ensures course { IfOk result (λ run. course_of run.course ≡ between) }
    ensures memory { OnErr result (result ≡ Err IoError.Memory) }
{
    match plan.defaults.copied(alloc) {
        Ok(defaults) => Ok(Run {
            alloc,
            reader: ScriptReader::new(alloc, defaults),
            course: Course::Between,
            scratch: Scratch::new(alloc),
        }),
        Err(_) => Err(IoError::Memory),
    }
}

/// Runs a script of pcre2test: writes each of its lines, and after it what it comes to (pcre2test,
/// "INPUT DATA FORMAT" and "DEFAULT OUTPUT FROM pcre2test"). Lines end at LF. The words of the tool
/// give the defaults before the first line.
///
/// # Errors
///
/// ReadFault where a read failed, TooLong before a line of more than 1,048,576 bytes, TooMuch where
/// 2^40 bytes were taken: each after all lines before it. SinkFault where a write was refused, and
/// Memory; then a part of the text was written.
pub fn run_script<S: Source, O: Sink>(
    alloc: Global,
    plan: &TestPlan,
    source: &mut S,
    out: &mut O,
) -> Result<(), ScriptStop>
    // The output grew by the text of the script that the source stands for.
    ensures { RunsScript plan.now (S.tells source.old) (S.tells source.new) (O.tells out.old)
        (O.tells out.new) result }
{
    let mut feed = LineFeed::new(alloc, EndKind::Lf, LONGEST_LINE);
    let mut run = beginning(alloc, plan)?;
    'line: loop {
        send_on(&mut feed, source, out)?;
        match feed.next(source) {
            Ok(Some(line)) => take_line(&mut run, line.bytes, out)?,
            Ok(None) => return Ok(()),
            Err(e) => return Err(stop_at(e)),
        }
    }
}
