//! What is done with one line of an input.
ghost use Rattle.std.specs.Prelude.{◌≡◌, ◌≢◌, List, ◌<◌, ◌≤◌, ◌^◌, ◌&&◌, false, [], ◌∷◌, length};
ghost use Rattle.std.specs.Prelude.{flat_map, if◌then◌else◌, IfOk, Ok, Err, IsTrue};
ghost use Rattle.pcre_io.specs.Told.{Kept};
ghost use Rattle.line_feed.specs.Lines.{row_of};
ghost use Rattle.grep_output.specs.declared.shows.Show.TheVariants.{Lines, Parts};
ghost use Rattle.grep_core.specs.declared.lines.Next.TheVariants as follows;
ghost use Rattle.grep_match.specs.Compiled.{patterns_in};
ghost use Rattle.grep_match.specs.Matches.{Tried, tried_row, matches};
ghost use Rattle.grep_output.specs.Context.{parts_groups};
ghost use Rattle.grep_output.specs.Course.{begins_group, line_as, separator, selected_out};
ghost use Rattle.ordered_search.specs.PlaceAnswer.{Outcome};
ghost use Rattle.grep_match.specs.Found.{Lists, ListsMatches, IsVerdict};
ghost use Rattle.tool_io.specs.Writes.{Writes};
ghost use Rattle.grep_output.specs.declared.state.State.{State};
ghost use Rattle.grep_core.specs.Turns.{course_of, is_full, TakesLine, Passes, Selects};
ghost use Rattle.grep_output.specs.Earlier.{IsShort};
ghost use Rattle.grep_core.specs.Work.{work_of, progress};
ghost use Rattle.grep_watch.specs.Filtered.{IsKnown};
ghost use Rattle.grep_watch.specs.declared.filter.Known.TheVariants as knows;
ghost use Rattle.tool_io.specs.Printed.{printed};

use grep_args::GrepPlan;
use grep_match::{MatchList, Patterns, Verdict, Workspace, search_line};
use grep_output::{EarlierLines, Show, State, Stop, write_error, write_line, write_matches};
use grep_watch::Known;
use line_feed::Line;
use pcre_io::{IoError, Memory, Sink};
use std::alloc::Global;
use tool_io::{text_if, write_texts};

/// What is done with the lines of an input.
#[derive(Clone, Copy)]
pub struct Job<'a> {
    pub alloc: Global,
    pub plan: &'a GrepPlan,
    pub patterns: &'a Patterns,
    pub name: &'a str,
    pub show: Show,
    /// How many lines are selected at most.
    pub most: Option<u32>,
}

/// How a scan stands between two lines.
#[derive(Drop)]
pub struct Course {
    /// How many lines were selected.
    pub selected: u64,
    /// The number of the last line that is shown as context of a selected one, 0 where none was selected.
    pub context_to: u64,
    /// The lines after that which a selected line would show.
    pub earlier: EarlierLines,
}

/// What follows a line.
#[derive(Clone, Copy, Debug, PartialEq, Eq)]
pub enum Next {
    Line,
    /// No further line is selected.
    Context,
}

// The match errors of a run that end it.
const MANY_ERRORS: u32 = 21;

// Only where context is asked for are groups of lines parted.
pub(crate) fn parts_groups(plan: &GrepPlan) -> bool
    ensures { result ≡ parts_groups plan.now }
{
    plan.after_context > 0 || plan.before_context > 0
}

// Whether the lines that a selected line of this number shows don't touch those that were shown before.
fn begins_group(course: &Course, number: u64) -> bool
    requires earlier { length course.now.earlier.rows < number }
    requires context { course.now.context_to ≤ 2 ^ 62 }
    ensures { result ≡ begins_group (course_of course.now) number }
{
    let first = number - course.earlier.len() as u64;
    course.context_to == 0 || course.context_to + 1 < first
}

// Whether what a selected line of this number shows is parted from what was shown before.
fn is_parted(plan: &GrepPlan, has_shown: bool, course: &Course, number: u64) -> bool
    requires earlier { length course.now.earlier.rows < number }
    requires context { course.now.context_to ≤ 2 ^ 62 }
    ensures { result ≡ (parts_groups plan.now && (has_shown
        && begins_group (course_of course.now) number)) }
{
    parts_groups(plan) && has_shown && begins_group(course, number)
}

// Writes the lines before a selected one.
fn write_earlier<O: Sink>(job: &Job<'_>, out: &mut O, earlier: &EarlierLines) -> Result<(), IoError>
    ensures { Writes (flat_map (line_as job.now.plan.now job.now.name.now false) earlier.now.rows)
        (O.tells out.old) (O.tells out.new) result }
{
    for i in 0..earlier.len() {
        if let Some(line) = earlier.line(i) {
            write_line(out, job.plan, job.name, &line, false)?;
        }
    }
    Ok(())
}

// Writes what parts the lines that a selected one shows from those that were shown before.
fn write_separator<O: Sink>(
    job: &Job<'_>,
    out: &mut O,
    has_shown: bool,
    course: &Course,
    number: u64,
) -> Result<(), IoError>
    requires earlier { length course.now.earlier.rows < number }
    requires context { course.now.context_to ≤ 2 ^ 62 }
    ensures { Writes (separator job.now.plan.now job.now.name.now has_shown
        (course_of course.now) number) (O.tells out.old) (O.tells out.new) result }
{
    let is_parted = is_parted(job.plan, has_shown, course, number);
    write_texts(out, &[text_if(is_parted, b"--\n")])
}

// Writes a selected line, with the lines before it, parted from those that were shown before.
fn write_selected<O: Sink>(
    job: &Job<'_>,
    line: &Line<'_>,
    out: &mut O,
    has_shown: bool,
    course: &Course,
) -> Result<(), IoError>
    requires earlier { length course.now.earlier.rows < line.now.number }
    requires context { course.now.context_to ≤ 2 ^ 62 }
    ensures { (t : Tried) → t.row ≡ row_of line.now
        → Writes (selected_out job.now.plan.now job.now.name.now Lines has_shown
        (course_of course.now) t) (O.tells out.old) (O.tells out.new) result }
{
    write_separator(job, out, has_shown, course, line.number)?;
    write_earlier(job, out, &course.earlier)?;
    write_line(out, job.plan, job.name, line, true)
}

// Shows a line that isn't selected where it is context, and keeps it where it may become context.
fn pass<O: Sink>(
    job: &Job<'_>,
    line: &Line<'_>,
    out: &mut O,
    course: &mut Course,
) -> Result<(), Stop>
    requires limit { job.now.show ≡ Lines → course.old.earlier.limit ≡
        job.now.plan.now.before_context }
    requires short { IsShort course.old.earlier.longest (row_of line.now) }
    ensures { (t : Tried) (s : State) (err : Kept) → t.row ≡ row_of line.now
        → Passes (work_of job.now) t (progress course.old s (printed (O.tells out.old) err))
        (progress course.new s (printed (O.tells out.new) err)) result }
{
    if job.show != Show::Lines {
        return Ok(());
    }
    if line.number <= course.context_to {
        write_line(out, job.plan, job.name, line, false)?;
    } else {
        course.earlier.push(job.alloc, line)?;
    }
    Ok(())
}

// Writes what is shown of a selected line: the line, or its matches where it has some.
fn write_shown<O: Sink>(
    job: &Job<'_>,
    line: &Line<'_>,
    out: &mut O,
    found: &MatchList,
    has_shown: bool,
    course: &Course,
) -> Result<(), IoError>
    requires earlier { length course.now.earlier.rows < line.now.number }
    requires context { course.now.context_to ≤ 2 ^ 62 }
    requires offset { line.now.offset ≤ 2 ^ 40 }
    requires found { (os : List Outcome) × Lists job.now.plan.now.only_matching
        (length line.now.bytes.now) found.now os }
    ensures { (t : Tried) → t.row ≡ row_of line.now
        → ListsMatches job.now.plan.now.only_matching (length line.now.bytes.now)
        found.now t.matches
        → Writes (selected_out job.now.plan.now job.now.name.now job.now.show has_shown
        (course_of course.now) t) (O.tells out.old) (O.tells out.new) result }
{
    match job.show {
        Show::Lines => write_selected(job, line, out, has_shown, course),
        Show::Parts => write_matches(out, job.plan, job.name, line, found),
        Show::Nothing => Ok(()),
    }
}

// Whether so many lines are selected at most.
fn is_full(most: Option<u32>, selected: u64) -> bool
    ensures { result ≡ is_full most selected }
{
    match most {
        Some(most) => selected >= u64::from(most),
        None => false,
    }
}

// What follows a selected line, with which so many are selected.
fn next_after(most: Option<u32>, selected: u64) -> Next
    ensures { result ≡ (if is_full most selected then follows.Context
        else follows.Line) }
{
    if is_full(most, selected) {
        Next::Context
    } else {
        Next::Line
    }
}

// Takes a selected line, of which these are the matches.
fn select<O: Sink>(
    job: &Job<'_>,
    line: &Line<'_>,
    out: &mut O,
    found: &MatchList,
    state: &mut State,
    course: &mut Course,
) -> Result<Next, Stop>
    requires earlier { length course.old.earlier.rows < line.now.number }
    requires context { course.old.context_to ≤ 2 ^ 62 }
    requires offset { line.now.offset ≤ 2 ^ 40 }
    requires number { line.now.number ≤ 2 ^ 41 }
    requires few { course.old.selected ≤ 2 ^ 62 }
    requires found { (os : List Outcome) × Lists job.now.plan.now.only_matching
        (length line.now.bytes.now) found.now os }
    ensures { (t : Tried) (err : Kept) → t.row ≡ row_of line.now
        → ListsMatches job.now.plan.now.only_matching (length line.now.bytes.now)
        found.now t.matches
        → Selects (work_of job.now) job.now.most t
        (progress course.old state.old (printed (O.tells out.old) err))
        (progress course.new state.new (printed (O.tells out.new) err)) result }
{
    write_shown(job, line, out, found, state.has_shown, course)?;
    course.selected += 1;
    if job.show == Show::Lines {
        course.earlier.clear();
        course.context_to = line.number + u64::from(job.plan.after_context);
        state.has_shown = true;
    }
    Ok(next_after(job.most, course.selected))
}

// Takes a line with a match error. After the last one that there may be nothing more is shown.
fn take_error<O: Sink, E: Sink>(
    job: &Job<'_>,
    line: &Line<'_>,
    error: i32,
    out: &mut O,
    err: &mut E,
    state: &mut State,
    course: &mut Course,
) -> Result<Next, Stop>
    requires few { state.old.errors ≤ 20 }
    requires limit { job.now.show ≡ Lines → course.old.earlier.limit ≡
        job.now.plan.now.before_context }
    requires short { IsShort course.old.earlier.longest (row_of line.now) }
    ensures { (t : Tried) → t.row ≡ row_of line.now → t.matches ≡ Err error
        → TakesLine (work_of job.now) job.now.most t
        (progress course.old state.old (printed (O.tells out.old) (E.tells err.old)))
        (progress course.new state.new (printed (O.tells out.new) (E.tells err.new))) result }
{
    write_error(err, job.name, line.number, error)?;
    state.errors += 1;
    if state.errors >= MANY_ERRORS {
        return Err(Stop::TooManyErrors);
    }
    pass(job, line, out, course)?;
    Ok(Next::Line)
}

// What the searches on a line answer; none is made where the line is known to have no match.
fn verdict_on(
    job: &Job<'_>,
    line: &[u8],
    is_quiet: bool,
    work: &mut Workspace,
) -> Result<Verdict, Memory>
    requires short { length line.now < 4294967295 }
    requires quiet { IsTrue is_quiet
        → matches job.now.plan.now (patterns_in job.now.patterns.now) line.now ≡ Ok [] }
    ensures { IfOk result (λ v. IsVerdict job.now.plan.now.only_matching (length line.now)
        work.new.found v
        (matches job.now.plan.now (patterns_in job.now.patterns.now) line.now)) }
{
    if is_quiet {
        work.found.clear();
        return Ok(Verdict::NoMatch);
    }
    search_line(job.plan, job.patterns, line, work)
}

// Whether a line is known to have a match, and no more than the line is shown of it.
fn is_enough(known: Known, show: Show) -> bool
    ensures known { IsTrue result → known ≡ knows.Match }
    ensures show { IsTrue result → show ≢ Parts }
{
    match show {
        Show::Parts => false,
        Show::Lines | Show::Nothing => known == Known::Match,
    }
}

// Whether it is known to have none.
fn is_without(known: Known) -> bool
    ensures { IsTrue result → known ≡ knows.NoMatch }
{
    known == Known::NoMatch
}

// Takes a line that has a match, of which no more than the line is shown.
fn take_found<O: Sink>(
    job: &Job<'_>,
    line: &Line<'_>,
    out: &mut O,
    found: &mut MatchList,
    state: &mut State,
    course: &mut Course,
) -> Result<Next, Stop>
    requires show { job.now.show ≢ Parts }
    requires found { (o : Outcome) × (matches job.now.plan.now (patterns_in job.now.patterns.now)
        line.now.bytes.now ≡ Ok (o ∷ [])) }
    requires earlier { length course.old.earlier.rows < line.now.number }
    requires context { course.old.context_to ≤ 2 ^ 62 }
    requires offset { line.now.offset ≤ 2 ^ 40 }
    requires number { line.now.number ≤ 2 ^ 41 }
    requires selected { course.old.selected ≤ 2 ^ 62 }
    requires errors { state.old.errors ≤ 20 }
    requires limit { job.now.show ≡ Lines → course.old.earlier.limit ≡
        job.now.plan.now.before_context }
    requires short { IsShort course.old.earlier.longest (row_of line.now) }
    ensures { (err : Kept) → TakesLine (work_of job.now) job.now.most
        (tried_row job.now.plan.now (patterns_in job.now.patterns.now) (row_of line.now))
        (progress course.old state.old (printed (O.tells out.old) err))
        (progress course.new state.new (printed (O.tells out.new) err)) result }
{
    if !job.plan.invert_match {
        found.clear();
        return select(job, line, out, found, state, course);
    }
    pass(job, line, out, course)?;
    Ok(Next::Line)
}

// Takes a line.
pub(crate) fn take_line<O: Sink, E: Sink>(
    job: &Job<'_>,
    line: &Line<'_>,
    known: Known,
    out: &mut O,
    err: &mut E,
    work: &mut Workspace,
    state: &mut State,
    course: &mut Course,
) -> Result<Next, Stop>
    requires fits { length line.now.bytes.now < 4294967295 }
    requires known { IsKnown job.now.plan.now (patterns_in job.now.patterns.now)
        line.now.bytes.now known }
    requires earlier { length course.old.earlier.rows < line.now.number }
    requires context { course.old.context_to ≤ 2 ^ 62 }
    requires offset { line.now.offset ≤ 2 ^ 40 }
    requires number { line.now.number ≤ 2 ^ 41 }
    requires selected { course.old.selected ≤ 2 ^ 62 }
    requires errors { state.old.errors ≤ 20 }
    requires limit { job.now.show ≡ Lines → course.old.earlier.limit ≡
        job.now.plan.now.before_context }
    requires short { IsShort course.old.earlier.longest (row_of line.now) }
    ensures { TakesLine (work_of job.now) job.now.most
        (tried_row job.now.plan.now (patterns_in job.now.patterns.now) (row_of line.now))
        (progress course.old state.old (printed (O.tells out.old) (E.tells err.old)))
        (progress course.new state.new (printed (O.tells out.new) (E.tells err.new))) result }
{
    if is_enough(known, job.show) {
        return take_found(job, line, out, &mut work.found, state, course);
    }
    let is_match = match verdict_on(job, line.bytes, is_without(known), work)? {
        Verdict::Match => true,
        Verdict::NoMatch => false,
        Verdict::Error(error) => {
            return take_error(job, line, error, out, err, state, course);
        }
    };
    if is_match != job.plan.invert_match {
        return select(job, line, out, &work.found, state, course);
    }
    pass(job, line, out, course)?;
    Ok(Next::Line)
}
