//! Lines that are known to have no match: those that are passed over, kept or written without a search.
ghost use Rattle.std.specs.Prelude.{◌≡◌, ◌≢◌, ℕ, ◌≤◌, ◌^◌};
ghost use Rattle.std.specs.Prelude.{IfOk, OnOk, IsTrue};
ghost use Rattle.pcre_io.specs.Told.{Kept};
ghost use Rattle.line_feed.specs.declared.phase.Phase.TheVariants.{Closed};
ghost use Rattle.grep_output.specs.declared.shows.Show.TheVariants.{Lines};
ghost use Rattle.grep_match.specs.Compiled.{patterns_in};
ghost use Rattle.grep_output.specs.declared.state.State.{State};
ghost use Rattle.grep_core.specs.Turns.{course_of};
ghost use Rattle.grep_core.specs.Work.{work_of, progress};
ghost use Rattle.grep_watch.specs.Watched.{Watches};
ghost use Rattle.grep_core.specs.Unseen.{HidesUnmatched, PassesUnseen, KeepsUnmatched, PrintsUnmatched};
ghost use Rattle.grep_core.specs.Kept.{KeepsLines};
ghost use Rattle.line_feed.specs.Passes.{HoldsLines};
ghost use Rattle.grep_core.specs.Ahead.{TakesRun};
ghost use Rattle.tool_io.specs.Printed.{printed};

use crate::lines::{Course, Job, parts_groups};
use grep_match::is_named;
use grep_output::{EarlierLines, Show, State, Stop};
use grep_watch::Watch;
use line_feed::LineFeed;
use pcre_io::{Memory, Sink};
use std::alloc::Global;
use tool_io::write_texts;

// Where fewer bytes than these for each line to be kept are known to have no match, lines are taken one by one: near a
// match there are few.
const SPARSE: usize = 64;

// Whether of the lines behind so many those without a match are unseen: they aren't selected, aren't
// context of a selected line, and aren't kept for a later one.
fn hides_unmatched(job: &Job<'_>, course: &Course, number: u64) -> bool
    ensures { IsTrue result → HidesUnmatched job.now.plan.now job.now.name.now job.now.show
        (course_of course.now) number }
{
    if job.plan.invert_match {
        return false;
    }
    if job.show != Show::Lines {
        return true;
    }
    job.plan.before_context == 0 && course.earlier.len() == 0 && course.context_to <= number
}

// Passes over lines that are known to have no match, where they are unseen. It reads nothing.
pub(crate) fn pass_unseen(job: &Job<'_>, feed: &mut LineFeed, course: &Course, watch: &mut Watch)
    requires live { feed.old.phase ≢ Closed }
    requires watch { Watches job.now.plan.now (patterns_in job.now.patterns.now) watch.old
        feed.old.held }
    ensures { PassesUnseen (work_of job.now) (course_of course.now) watch.new feed.old feed.new }
{
    if hides_unmatched(job, course, feed.number()) {
        watch.pass(feed);
    }
}

// Whether of each line without a match its bytes and its newline are written and nothing else, and any number of such
// lines may be selected.
fn prints_unmatched(job: &Job<'_>, course: &Course) -> bool
    ensures { IsTrue result → PrintsUnmatched job.now.plan.now job.now.show job.now.most
        (course_of course.now) }
{
    let plan = job.plan;
    if !plan.invert_match || job.show != Show::Lines || job.most.is_some() {
        return false;
    }
    if parts_groups(plan) || is_named(plan.names) || plan.line_number {
        return false;
    }
    course.earlier.len() == 0
}

// Takes whole lines that are known to have no match, where they are selected and written as they stand: all at once, by
// one write. It reads nothing, and may leave some.
fn take_run<O: Sink>(
    job: &Job<'_>,
    feed: &mut LineFeed,
    out: &mut O,
    state: &mut State,
    course: &mut Course,
    watch: &mut Watch,
) -> Result<(), Stop>
    requires live { feed.old.phase ≢ Closed }
    requires selected { course.old.selected ≤ 2 ^ 62 }
    requires errors { state.old.errors ≤ 20 }
    requires watch { Watches job.now.plan.now (patterns_in job.now.patterns.now) watch.old
        feed.old.held }
    ensures watch { OnOk result (Watches job.now.plan.now (patterns_in job.now.patterns.now)
        watch.new feed.new.held) }
    ensures taken { (err : Kept) → TakesRun (work_of job.now) job.now.most feed.old feed.new
        (progress course.old state.old (printed (O.tells out.old) err))
        (progress course.new state.new (printed (O.tells out.new) err)) result }
{
    if !prints_unmatched(job, course) {
        return Ok(());
    }
    let Some(run) = watch.run(feed) else {
        return Ok(());
    };
    write_texts(out, &[&feed.held()[..run.bytes]])?;
    feed.skip(run);
    watch.skip(run.bytes);
    course.selected += run.rows as u64;
    course.context_to = feed.number();
    state.has_shown = true;
    Ok(())
}

// Whether of the lines behind so many those without a match are kept for a later one, and aren't seen otherwise.
fn keeps_unmatched(job: &Job<'_>, course: &Course, number: u64) -> bool
    ensures { IsTrue result → KeepsUnmatched job.now.plan.now job.now.show (course_of course.now)
        number }
{
    if job.plan.invert_match || job.show != Show::Lines {
        return false;
    }
    job.plan.before_context > 0 && course.context_to <= number
}

// Takes so many lines, which the feed holds, and keeps them. Tells how many bytes they have.
fn keep_lines(
    alloc: Global,
    feed: &mut LineFeed,
    lines: u32,
    earlier: &mut EarlierLines,
) -> Result<usize, Memory>
    requires live { feed.old.phase ≢ Closed }
    requires max { feed.old.max ≤ 2 ^ 30 }
    requires longest { feed.old.max ≤ earlier.old.longest }
    requires holds { (within : ℕ) × HoldsLines feed.old within lines }
    ensures { IfOk result (λ bytes. (within : ℕ) → HoldsLines feed.old within lines
        → KeepsLines feed.old feed.new earlier.old earlier.new within lines bytes) }
{
    let mut bytes = 0;
    'line: for _ in 0..lines {
        feed.give_line();
        let line = feed.given_line();
        bytes += line.bytes.len() + line.end.len();
        earlier.push(alloc, &line)?;
    }
    Ok(bytes)
}

// Passes over lines that are known to have no match, and keeps the last ones of them for a later one. It reads nothing,
// and may leave some.
fn pass_kept(
    job: &Job<'_>,
    feed: &mut LineFeed,
    course: &mut Course,
    watch: &mut Watch,
) -> Result<(), Stop>
    requires live { feed.old.phase ≢ Closed }
    requires max { feed.old.max ≤ 2 ^ 30 }
    requires kept { KeepsUnmatched job.now.plan.now job.now.show (course_of course.old)
        feed.old.number }
    requires limit { job.now.show ≡ Lines → course.old.earlier.limit ≡
        job.now.plan.now.before_context }
    requires longest { feed.old.max ≤ course.old.earlier.longest }
    requires watch { Watches job.now.plan.now (patterns_in job.now.patterns.now) watch.old
        feed.old.held }
    ensures watch { OnOk result (Watches job.now.plan.now (patterns_in job.now.patterns.now)
        watch.new feed.new.held) }
    ensures taken { (s : State) (out err : Kept) → s.errors ≤ 20
        → TakesRun (work_of job.now) job.now.most feed.old feed.new
        (progress course.old s (printed out err)) (progress course.new s (printed out err)) result }
{
    let lines = job.plan.before_context;
    let Some(within) = watch.reach(feed) else {
        return Ok(());
    };
    if within / SPARSE < lines as usize {
        return Ok(());
    }
    let Some(passed) = feed.pass_but(within, lines as usize) else {
        return Ok(());
    };
    let kept = keep_lines(job.alloc, feed, lines, &mut course.earlier)?;
    watch.skip(passed);
    watch.skip(kept);
    Ok(())
}

// Takes lines that are known to have no match at once, where they are kept for a later one or written as they stand. It
// reads nothing, and may leave some.
pub(crate) fn take_ahead<O: Sink>(
    job: &Job<'_>,
    feed: &mut LineFeed,
    out: &mut O,
    state: &mut State,
    course: &mut Course,
    watch: &mut Watch,
) -> Result<(), Stop>
    requires live { feed.old.phase ≢ Closed }
    requires max { feed.old.max ≤ 2 ^ 30 }
    requires selected { course.old.selected ≤ 2 ^ 62 }
    requires errors { state.old.errors ≤ 20 }
    requires limit { job.now.show ≡ Lines → course.old.earlier.limit ≡
        job.now.plan.now.before_context }
    requires longest { feed.old.max ≤ course.old.earlier.longest }
    requires watch { Watches job.now.plan.now (patterns_in job.now.patterns.now) watch.old
        feed.old.held }
    ensures watch { OnOk result (Watches job.now.plan.now (patterns_in job.now.patterns.now)
        watch.new feed.new.held) }
    ensures taken { (err : Kept) → TakesRun (work_of job.now) job.now.most feed.old feed.new
        (progress course.old state.old (printed (O.tells out.old) err))
        (progress course.new state.new (printed (O.tells out.new) err)) result }
{
    if keeps_unmatched(job, course, feed.number()) {
        return pass_kept(job, feed, course, watch);
    }
    take_run(job, feed, out, state, course, watch)
}
