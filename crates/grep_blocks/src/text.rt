//! One input that is held whole.
ghost use Rattle.std.specs.Prelude.{◌≡◌, ◌+◌, ◌≤◌, ◌<◌, ◌^◌, ◌&&◌, ◌||◌, nat_eq, nat_lt, if◌then◌else◌, length, take, IfSome};
ghost use Rattle.std.specs.Str.{is_utf8};
ghost use Rattle.line_feed.specs.Rows.{At, End, Ending, Fault, Finish, Input, input_with};
ghost use Rattle.grep_output.specs.Course.{is_lines};
ghost use Rattle.grep_multi.specs.grep_match.Compiled.{patterns_in};
ghost use Rattle.grep_multi.specs.grep_match.PatternTexts.{line_end};
ghost use Rattle.grep_multi.specs.Given.{IsSearch};
ghost use Rattle.grep_multi.specs.Held.{Holds};
ghost use Rattle.grep_output.specs.Ends.{ended_of};
ghost use Rattle.grep_output.specs.InputText.{end_out};
ghost use Rattle.std.specs.List.{list_any};
ghost use Rattle.grep_output.specs.Lines.{is_binary, is_nul};
ghost use Rattle.grep_output.specs.Messages.{ended_message};
ghost use Rattle.grep_output.specs.Scans.{at_finish};
ghost use Rattle.grep_core.specs.OneInput.{GrepsTo, WritesBoth, is_skipped};
ghost use Rattle.tool_io.specs.Printed.{printed};
ghost use Rattle.grep_blocks.specs.BlockText.{block_text};
ghost use Rattle.grep_blocks.specs.Scanned.{CountsTo, begun_at, scan_at, scan_by};

use crate::job::{Course, Job};
use crate::scan::scan;
use grep_args::GrepPlan;
use grep_multi::{Held, LineStart, Mode, Patterns, Search, Workspace, mode_of};
use grep_output::{
    Ended, FileEnd, Show, State, Stop, Treatment, most_selected, show_in, tells_binary,
    treatment_by, write_ended, write_summary, write_too_many,
};
use pat_tree::Newline;
use pcre_io::{IoError, Sink};

// So many of the first bytes tell whether a text is binary.
const FIRST: usize = 1024;

// Where a scan begins.
const START: LineStart = LineStart { at: 0, lines: 0 };

// Whether a zero byte ends a line.
fn is_nul(newline: Newline) -> bool
    ensures { result ≡ is_nul newline }
{
    newline == Newline::Nul
}

// Whether a zero byte is among these.
fn has_zero(bytes: &[u8]) -> bool
    ensures { result ≡ list_any (nat_eq 0) bytes.now }
{
    bytes.iter().any(|byte| *byte == 0)
}

// The first bytes of a text.
fn first_of(text: &[u8]) -> &[u8]
    ensures { result.now ≡ take 1024 text.now }
{
    if text.len() < FIRST {
        text
    } else {
        &text[..FIRST]
    }
}

// Whether a zero byte stands in the first bytes, unless a zero byte ends a line.
fn is_binary(plan: &GrepPlan, text: &[u8]) -> bool
    ensures { (ending : Ending) → result ≡ is_binary plan.now (input_with text.now ending) }
{
    !is_nul(plan.newline) && has_zero(first_of(text))
}

// Whether it counts as without any selected line.
fn is_skipped(treatment: Treatment) -> bool
    ensures { result ≡ is_skipped treatment }
{
    treatment == Treatment::Skipped
}

// How a scan ends that goes to the end of what is held.
fn finish_of(faulted: bool) -> Ended
    ensures { ended_of result ≡ at_finish (At (if faulted then Fault else End)) }
{
    if faulted {
        Ended::ReadFault
    } else {
        Ended::End
    }
}

// Writes what is told of a text that was scanned.
fn write_end<O: Sink, E: Sink>(
    plan: &GrepPlan,
    name: &str,
    mode: Mode,
    is_told: bool,
    end: FileEnd,
    out: &mut O,
    err: &mut E,
) -> Result<(), IoError>
    ensures { WritesBoth (end_out plan.now name.now mode is_told end.selected)
        (ended_message plan.now.no_messages name.now (ended_of end.ended))
        (printed (O.tells out.old) (E.tells err.old))
        (printed (O.tells out.new) (E.tells err.new)) result }
{
    write_summary(out, plan, name, mode, is_told, end.selected)?;
    write_ended(err, plan.no_messages, name, end.ended)?;
    Ok(())
}

// Whether a group of lines was shown: before, or of so many selected blocks.
fn has_shown(before: bool, show: Show, selected: u64) -> bool
    ensures { result ≡ (before || (is_lines show && nat_lt 0 selected)) }
{
    before || (show == Show::Lines && selected > 0)
}

// The number of lines that were selected so far.
fn counted(total: u128, selected: u64) -> u128
    requires { total < 2 ^ 127 }
    ensures { result ≡ total + selected }
{
    total + u128::from(selected)
}

// Scans a text, and counts its selected blocks.
fn scan_counted<O: Sink, E: Sink>(
    job: &Job<'_>,
    out: &mut O,
    err: &mut E,
    work: &mut Workspace,
    state: &mut State,
) -> Result<FileEnd, Stop>
    requires search { IsSearch job.now.search }
    requires errors { state.old.errors ≤ 20 }
    requires total { state.old.total < 2 ^ 127 }
    requires known { IfSome work.old.utf8 (λ b. b ≡ is_utf8 job.now.search.text.now) }
    requires finish { (finish : Finish) × (ended_of job.now.finish ≡ at_finish finish) }
    ensures { (finish : Finish) → ended_of job.now.finish ≡ at_finish finish
        → CountsTo job.now (scan_at job.now finish (begun_at state.old.errors)) state.old state.new
        (printed (O.tells out.old) (E.tells err.old)) (printed (O.tells out.new) (E.tells err.new))
        result }
{
    let mut course = Course {
        from: START,
        gap: START,
        selected: 0,
        errors: state.errors,
    };
    let ended = scan(job, out, err, work, &mut course);
    state.errors = course.errors;
    state.total = counted(state.total, course.selected);
    state.has_shown = has_shown(state.has_shown, job.show, course.selected);
    let ended = ended?;
    Ok(FileEnd {
        selected: course.selected,
        ended,
    })
}

// Scans a text that is treated so. One that counts as without any selected line isn't scanned.
fn scan_as<O: Sink, E: Sink>(
    job: &Job<'_>,
    treatment: Treatment,
    out: &mut O,
    err: &mut E,
    work: &mut Workspace,
    state: &mut State,
) -> Result<FileEnd, Stop>
    requires search { IsSearch job.now.search }
    requires errors { state.old.errors ≤ 20 }
    requires total { state.old.total < 2 ^ 127 }
    requires finish { (finish : Finish) × (ended_of job.now.finish ≡ at_finish finish) }
    ensures { (finish : Finish) → ended_of job.now.finish ≡ at_finish finish
        → CountsTo job.now (scan_by job.now finish treatment state.old) state.old state.new
        (printed (O.tells out.old) (E.tells err.old)) (printed (O.tells out.new) (E.tells err.new))
        result }
{
    if is_skipped(treatment) {
        return Ok(FileEnd {
            selected: 0,
            ended: Ended::Early,
        });
    }
    work.utf8 = None;
    scan_counted(job, out, err, work, state)
}

/// Writes what pcre2grep writes of an input of this name that is held: its selected blocks of lines, or what the plan
/// shows in place of them, to `out`, and messages about it to `err` (pcre2grep, "OPTIONS", -M). Needs a state with at
/// most 20 match errors and a total below 2^127.
///
/// # Errors
///
/// TooManyErrors at the 21st match error of the state, after which nothing more is shown; the state counts the blocks
/// up to it. SinkFault where a write was refused, and want of memory; then each sink holds a part of its text.
pub fn grep_text<O: Sink, E: Sink>(
    patterns: &Patterns,
    plan: &GrepPlan,
    name: &str,
    held: &Held,
    out: &mut O,
    err: &mut E,
    work: &mut Workspace,
    state: &mut State,
) -> Result<FileEnd, Stop>
    requires held { length held.now.text ≤ 16777216 }
    requires errors { state.old.errors ≤ 20 }
    requires total { state.old.total < 2 ^ 127 }
    ensures { (input : Input) → Holds (line_end plan.now) input held.now
        → GrepsTo (block_text plan.now (patterns_in patterns.now) name.now state.old input) state.new
        (printed (O.tells out.old) (E.tells err.old)) (printed (O.tells out.new) (E.tells err.new))
        result }
{
    let text = held.text.as_slice();
    let mode = mode_of(plan);
    let treatment = treatment_by(is_binary(plan, text), plan.binary);
    let is_told = tells_binary(treatment, mode);
    let job = Job {
        search: Search::new(plan, patterns, text),
        name,
        has_shown: state.has_shown,
        show: show_in(is_told, mode),
        most: most_selected(is_told, mode, plan.max_count),
        finish: finish_of(held.faulted),
    };
    match scan_as(&job, treatment, out, err, work, state) {
        Ok(end) => {
            write_end(plan, name, mode, is_told, end, out, err)?;
            Ok(end)
        }
        Err(Stop::TooManyErrors) => {
            write_too_many(err)?;
            Err(Stop::TooManyErrors)
        }
        Err(Stop::SinkFault) => Err(Stop::SinkFault),
        Err(Stop::Memory) => Err(Stop::Memory),
    }
}
