//! One input.
ghost use Rattle.std.specs.Prelude.{◌≡◌, ◌≢◌, ◌+◌, ◌≤◌, ◌<◌, ◌^◌, [], length, nat_eq, IfSome};
ghost use Rattle.grep_watch.specs.Filtered.{Filters};
ghost use Rattle.std.specs.List.{list_any};
ghost use Rattle.pcre_io.specs.Told.{Told};
ghost use Rattle.line_feed.specs.declared.phase.Phase.TheVariants.{Closed};
ghost use Rattle.grep_output.specs.declared.shows.Treatment.TheVariants.{Skipped};
ghost use Rattle.grep_match.specs.Compiled.{patterns_in};
ghost use Rattle.grep_match.specs.Modes as modes;
ghost use Rattle.grep_output.specs.Ends.{ended_of};
ghost use Rattle.grep_output.specs.InputText.{end_out};
ghost use Rattle.grep_output.specs.Lines.{is_nul};
ghost use Rattle.grep_output.specs.Messages.{ended_message};
ghost use Rattle.grep_core.specs.FirstBytes.{is_shown_otherwise, looks_first};
ghost use Rattle.grep_core.specs.WholeScans.{AtLeastOne, IsJob, Stood};
ghost use Rattle.grep_core.specs.OneInput.{Greps, IsNew, is_skipped, TreatsTo, WritesBoth, ScansAs};
ghost use Rattle.grep_core.specs.Work.{standing, work_of};
ghost use Rattle.tool_io.specs.Printed.{printed};

use crate::lines::{Course, Job};
use crate::scan::scan;
use crate::state::{GrepState, Scanner};
use grep_args::{BinaryMode, GrepPlan};
use grep_match::{Mode, Patterns, line_end, mode_of};
use grep_output::{
    EarlierLines, Ended, FileEnd, Stop, Treatment, most_selected, show_in, tells_binary,
    treatment_by, write_ended, write_summary, write_too_many,
};
use grep_watch::Filter;
use line_feed::LineFeed;
use pat_tree::Newline;
use pcre_io::{IoError, Sink, Source};

// Whether a zero byte ends a line.
fn is_nul(newline: Newline) -> bool
    ensures { result ≡ is_nul newline }
{
    newline == Newline::Nul
}

// Whether a zero byte is among these.
fn has_zero(bytes: &[u8]) -> bool
    ensures { result ≡ list_any (nat_eq 0) bytes.now }
{
    bytes.iter().any(|byte| *byte == 0)
}

// Whether another text is written of a binary input than of a text with these lines.
fn is_shown_otherwise(binary: BinaryMode, mode: Mode) -> bool
    ensures { result ≡ is_shown_otherwise binary mode }
{
    match binary {
        BinaryMode::Binary => tells_binary(Treatment::AsBinary, mode),
        BinaryMode::Text => false,
        BinaryMode::WithoutMatch => true,
    }
}

// Whether what is written of an input can depend on its first bytes.
fn looks_first(plan: &GrepPlan, mode: Mode) -> bool
    ensures { result ≡ looks_first plan.now mode }
{
    !is_nul(plan.newline) && is_shown_otherwise(plan.binary, mode)
}

// How an input is scanned. It is binary where a zero byte stands in its first bytes, unless a zero byte ends a line.
// They are waited for only where they count: an input that comes slowly may end long after the answer is known.
fn treatment_of<S: Source>(
    plan: &GrepPlan,
    mode: Mode,
    feed: &mut LineFeed,
    source: &mut S,
) -> Result<Treatment, Stop>
    requires new { IsNew feed.old }
    requires mode { mode ≡ modes.mode plan.now }
    ensures { TreatsTo plan.now feed.old feed.new (S.tells source.old) (S.tells source.new) result }
{
    if !looks_first(plan, mode) {
        return Ok(Treatment::AsText);
    }
    match feed.front(source) {
        Ok(first) => Ok(treatment_by(has_zero(first), plan.binary)),
        Err(_) => Err(Stop::Memory),
    }
}

// Whether it counts as without any selected line.
fn is_skipped(treatment: Treatment) -> bool
    ensures { result ≡ is_skipped treatment }
{
    treatment == Treatment::Skipped
}

// The number of lines that were selected so far.
fn counted(total: u128, selected: u64) -> u128
    requires { total < 2 ^ 127 }
    ensures { result ≡ total + selected }
{
    total + u128::from(selected)
}

// Scans an input, and counts its selected lines. One that counts as without any isn't scanned.
fn scan_as<S: Source, O: Sink, E: Sink>(
    job: &Job<'_>,
    treatment: Treatment,
    scanner: &mut Scanner,
    source: &mut S,
    out: &mut O,
    err: &mut E,
    filter: &mut Option<Filter<'_>>,
) -> Result<FileEnd, Stop>
    requires live { scanner.old.feed.phase ≢ Closed }
    requires max { scanner.old.feed.max ≤ 2 ^ 30 }
    requires longest { scanner.old.feed.max ≤ job.now.plan.now.max_buffer_size }
    requires first { scanner.old.feed.number ≡ 0 }
    requires near { length scanner.old.feed.held ≤ 65536 }
    requires begun { scanner.old.feed.offset ≡ 0 }
    requires errors { scanner.old.state.errors ≤ 20 }
    requires total { scanner.old.state.total < 2 ^ 127 }
    requires filter { IfSome filter.old
        (Filters job.now.plan.now (patterns_in job.now.patterns.now)) }
    ensures filter { IfSome filter.new
        (Filters job.now.plan.now (patterns_in job.now.patterns.now)) }
    ensures scans { (before : Told) → (treatment ≢ Skipped
        → IsJob job.now.plan.now treatment job.now.show job.now.most scanner.old.feed)
        → Stood job.now.plan.now treatment before (S.tells source.old) scanner.old.feed []
        → ScansAs (work_of job.now) treatment
        (standing before scanner.old.state (printed (O.tells out.old) (E.tells err.old)))
        (standing (S.tells source.new) scanner.new.state
        (printed (O.tells out.new) (E.tells err.new))) result }
{
    if is_skipped(treatment) {
        return Ok(FileEnd {
            selected: 0,
            ended: Ended::Early,
        });
    }
    let mut course = Course {
        selected: 0,
        context_to: 0,
        earlier: EarlierLines::new(
            job.alloc,
            job.plan.before_context as usize,
            job.plan.max_buffer_size as usize,
        )?,
    };
    let total = scanner.state.total;
    let ended = scan(job, scanner, source, out, err, &mut course, filter);
    scanner.state.total = counted(total, course.selected);
    let ended = ended?;
    Ok(FileEnd {
        selected: course.selected,
        ended,
    })
}

// Writes what is told of an input that was scanned.
fn write_end<O: Sink, E: Sink>(
    job: &Job<'_>,
    mode: Mode,
    is_told: bool,
    end: FileEnd,
    out: &mut O,
    err: &mut E,
) -> Result<(), IoError>
    ensures { WritesBoth (end_out job.now.plan.now job.now.name.now mode is_told end.selected)
        (ended_message job.now.plan.now.no_messages job.now.name.now (ended_of end.ended))
        (printed (O.tells out.old) (E.tells err.old))
        (printed (O.tells out.new) (E.tells err.new)) result }
{
    write_summary(out, job.plan, job.name, mode, is_told, end.selected)?;
    write_ended(err, job.plan.no_messages, job.name, end.ended)?;
    Ok(())
}

/// As `grep_file`, under a filter of the plan's patterns that is handed from one input to the next. Where there is none,
/// one is made for an input of many lines alone.
///
/// # Errors
///
/// As those of `grep_file`.
pub fn grep_file_by<S: Source, O: Sink, E: Sink>(
    patterns: &Patterns,
    plan: &GrepPlan,
    name: &str,
    source: &mut S,
    out: &mut O,
    err: &mut E,
    state: &mut GrepState,
    filter: &mut Option<Filter<'_>>,
) -> Result<FileEnd, Stop>
    requires max { (1 ≤ plan.now.max_buffer_size) × (plan.now.max_buffer_size ≤ 2 ^ 30) }
    requires most { AtLeastOne plan.now.max_count }
    requires errors { state.old.errors ≤ 20 }
    requires total { state.old.total < 2 ^ 127 }
    requires filter { IfSome filter.old (Filters plan.now (patterns_in patterns.now)) }
    ensures filter { IfSome filter.new (Filters plan.now (patterns_in patterns.now)) }
    ensures greps { Greps plan.now (patterns_in patterns.now) name.now
        (standing (S.tells source.old) state.old (printed (O.tells out.old) (E.tells err.old)))
        (standing (S.tells source.new) state.new (printed (O.tells out.new) (E.tells err.new)))
        result }
{
    let kind = line_end(plan);
    state
        .scanner
        .feed
        .restart(kind, plan.max_buffer_size as usize);
    let mode = mode_of(plan);
    let treatment = treatment_of(plan, mode, &mut state.scanner.feed, source)?;
    let is_told = tells_binary(treatment, mode);
    let job = Job {
        alloc: state.alloc,
        plan,
        patterns,
        name,
        show: show_in(is_told, mode),
        most: most_selected(is_told, mode, plan.max_count),
    };
    match scan_as(
        &job,
        treatment,
        &mut state.scanner,
        source,
        out,
        err,
        filter,
    ) {
        Ok(end) => {
            write_end(&job, mode, is_told, end, out, err)?;
            Ok(end)
        }
        Err(Stop::TooManyErrors) => {
            write_too_many(err)?;
            Err(Stop::TooManyErrors)
        }
        Err(Stop::SinkFault) => Err(Stop::SinkFault),
        Err(Stop::Memory) => Err(Stop::Memory),
    }
}

/// Writes what pcre2grep writes of an input of this name: its selected lines, or what the plan shows in place of them,
/// to `out`, and messages about it to `err`. Under `Auto` no name is shown. Needs a plan whose `max_buffer_size` is
/// from 1 to 1,073,741,824 and whose `max_count`, where given, is at least 1, and a state with at most 20 match errors
/// and a total below 2^127.
///
/// # Errors
///
/// TooManyErrors at the 21st match error of the state, after which nothing more is shown; the state
/// counts the lines up to it. SinkFault where a write was refused, and want of memory; then each sink
/// holds a part of its text, and the state counts the input or a first part of its lines.
pub fn grep_file<S: Source, O: Sink, E: Sink>(
    patterns: &Patterns,
    plan: &GrepPlan,
    name: &str,
    source: &mut S,
    out: &mut O,
    err: &mut E,
    state: &mut GrepState,
) -> Result<FileEnd, Stop>
    requires max { (1 ≤ plan.now.max_buffer_size) × (plan.now.max_buffer_size ≤ 2 ^ 30) }
    requires most { AtLeastOne plan.now.max_count }
    requires errors { state.old.errors ≤ 20 }
    requires total { state.old.total < 2 ^ 127 }
    ensures { Greps plan.now (patterns_in patterns.now) name.now
        (standing (S.tells source.old) state.old (printed (O.tells out.old) (E.tells err.old)))
        (standing (S.tells source.new) state.new (printed (O.tells out.new) (E.tells err.new)))
        result }
{
    let mut none = None;
    grep_file_by(patterns, plan, name, source, out, err, state, &mut none)
}
