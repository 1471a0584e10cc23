//! The scan of a held text, block by block.
ghost use Rattle.std.specs.Prelude.{◌≡◌, List, length, take, IfSome, ◌==◌, true, Err, nat_le, if◌then◌else◌};
ghost use Rattle.grep_output.specs.Ends.{ended_of};
ghost use Rattle.grep_output.specs.Scans.{at_finish, early};
ghost use Rattle.grep_output.specs.Shows.{lines_after};
ghost use Rattle.std.specs.Str.{is_utf8};
ghost use Rattle.line_feed.specs.Rows.{Finish, Row};
ghost use Rattle.ordered_search.specs.PlaceAnswer.{Outcome};
ghost use Rattle.grep_multi.specs.grep_match.Compiled.{patterns_in};
ghost use Rattle.grep_multi.specs.grep_match.Found.{Lists, ListsMatches};
ghost use Rattle.grep_multi.specs.grep_match.Matches.{is_selected};
ghost use Rattle.grep_multi.specs.Blocks.{TriedBlock};
ghost use Rattle.grep_multi.specs.Given.{Gives, IsSearch};
ghost use Rattle.grep_core.specs.Turns.{is_full};
ghost use Rattle.tool_io.specs.Printed.{printed};
ghost use Rattle.tool_io.specs.Writes.{Writes};
ghost use Rattle.grep_blocks.specs.BlockScan.{tried_of};
ghost use Rattle.grep_blocks.specs.BlockText.{rest_out, shown_out};
ghost use Rattle.grep_blocks.specs.Scanned.{IsBegun, IsBlock, IsReady, IsRest, Scans};
ghost use Rattle.grep_blocks.specs.Steps.{IsGap, IsStart, TakesBlock, all_rows, rows_at};

use crate::job::{Course, Job, Next};
use crate::lines::{has_lines, write_block, write_gap, write_rest};
use crate::parts::write_parts;
use grep_multi::{Block, LineStart, MatchList, Verdict, Workspace};
use grep_output::{Ended, Show, Stop, write_error};
use pcre_io::{IoError, Sink};

// The match errors of a run that end it.
const MANY_ERRORS: u32 = 21;

// Writes what is shown behind the last selected block, of so many lines at most.
fn write_behind<O: Sink>(
    job: &Job<'_>,
    out: &mut O,
    course: &Course,
    most: u64,
) -> Result<(), IoError>
    requires { IsStart job.now course.now.gap }
    ensures { Writes (rest_out job.now.search.plan.now job.now.name.now job.now.search.text.now
        (all_rows job.now) job.now.has_shown job.now.show (course.now.selected == 0)
        (take most (rows_at job.now course.now.gap))) (O.tells out.old) (O.tells out.new) result }
{
    if job.show != Show::Lines {
        return Ok(());
    }
    write_rest(job, out, course.selected == 0, course.gap, most)
}

// Writes what is shown of a selected block.
fn write_shown<O: Sink>(
    job: &Job<'_>,
    out: &mut O,
    behind: LineStart,
    found: &MatchList,
    course: &Course,
) -> Result<(), IoError>
    requires ready { IsReady job.now course.now behind }
    requires listed { (os : List Outcome) × Lists job.now.search.plan.now.only_matching
        (length job.now.search.text.now) found.now os }
    ensures { (b : TriedBlock) (gap : List Row) → IsBlock job.now course.now.from behind b
        → IsGap job.now course.now.gap course.now.from gap
        → ListsMatches job.now.search.plan.now.only_matching (length job.now.search.text.now)
        found.now b.matches
        → Writes (shown_out job.now.search.plan.now job.now.name.now job.now.search.text.now
        (all_rows job.now) job.now.has_shown job.now.show (course.now.selected == 0) gap b)
        (O.tells out.old) (O.tells out.new) result }
{
    match job.show {
        Show::Lines => {
            write_gap(job, out, course.selected == 0, course.gap, course.from)?;
            write_block(job, out, course.from, behind)
        }
        Show::Parts => write_parts(job, out, course.from, found),
        Show::Nothing => Ok(()),
    }
}

// Whether so many blocks are selected at most.
fn is_full(most: Option<u32>, selected: u64) -> bool
    ensures { result ≡ is_full most selected }
{
    match most {
        Some(most) => selected >= u64::from(most),
        None => false,
    }
}

// Takes a selected block.
fn select<O: Sink, E: Sink>(
    job: &Job<'_>,
    block: Block,
    found: &MatchList,
    out: &mut O,
    err: &mut E,
    course: &mut Course,
) -> Result<Next, Stop>
    requires ready { IsReady job.now course.old block.reach.behind }
    requires listed { (os : List Outcome) × Lists job.now.search.plan.now.only_matching
        (length job.now.search.text.now) found.now os }
    ensures { (b : TriedBlock) (gap : List Row) → IsBlock job.now course.old.from block.reach.behind b
        → IsGap job.now course.old.gap course.old.from gap
        → ListsMatches job.now.search.plan.now.only_matching (length job.now.search.text.now)
        found.now b.matches → is_selected job.now.search.plan.now (tried_of b) ≡ true
        → TakesBlock job.now b gap block.reach.behind course.old course.new
        (printed (O.tells out.old) (E.tells err.old)) (printed (O.tells out.new) (E.tells err.new))
        result }
{
    write_shown(job, out, block.reach.behind, found, course)?;
    course.selected += 1;
    course.gap = block.reach.behind;
    course.from = block.reach.behind;
    if is_full(job.most, course.selected) {
        return Ok(Next::Context);
    }
    Ok(Next::Block)
}

// Takes a line with a match error. After the last one that there may be nothing more is shown.
fn take_error<O: Sink, E: Sink>(
    job: &Job<'_>,
    block: Block,
    error: i32,
    out: &mut O,
    err: &mut E,
    course: &mut Course,
) -> Result<Next, Stop>
    requires ready { IsReady job.now course.old block.reach.behind }
    ensures { (b : TriedBlock) (gap : List Row) → IsBlock job.now course.old.from block.reach.behind b
        → IsGap job.now course.old.gap course.old.from gap → b.matches ≡ Err error
        → TakesBlock job.now b gap block.reach.behind course.old course.new
        (printed (O.tells out.old) (E.tells err.old)) (printed (O.tells out.new) (E.tells err.new))
        result }
{
    write_error(err, job.name, course.from.lines + 1, error)?;
    course.errors += 1;
    if course.errors >= MANY_ERRORS {
        write_behind(job, out, course, course.from.lines - course.gap.lines)?;
        return Err(Stop::TooManyErrors);
    }
    course.from = block.reach.behind;
    Ok(Next::Block)
}

// Takes a block.
fn take_block<O: Sink, E: Sink>(
    job: &Job<'_>,
    block: Block,
    found: &MatchList,
    out: &mut O,
    err: &mut E,
    course: &mut Course,
) -> Result<Next, Stop>
    requires ready { IsReady job.now course.old block.reach.behind }
    requires gives { Gives job.now.search.kind job.now.search.plan.now
        (patterns_in job.now.search.patterns.now) job.now.search.text.now course.old.from
        found.now block }
    ensures { (gives : Gives job.now.search.kind job.now.search.plan.now
        (patterns_in job.now.search.patterns.now) job.now.search.text.now course.old.from
        found.now block) (gap : List Row) → IsGap job.now course.old.gap course.old.from gap
        → IsRest job.now course.old.from
        → TakesBlock job.now gives.tried gap block.reach.behind course.old course.new
        (printed (O.tells out.old) (E.tells err.old)) (printed (O.tells out.new) (E.tells err.new))
        result }
{
    let is_match = match block.verdict {
        Verdict::Match => true,
        Verdict::NoMatch => false,
        Verdict::Error(error) => return take_error(job, block, error, out, err, course),
    };
    if is_match != job.search.plan.invert_match {
        return select(job, block, found, out, err, course);
    }
    course.from = block.reach.behind;
    Ok(Next::Block)
}

// How a scan ends that goes no further than its last context.
fn end_of(job: &Job<'_>, from: LineStart) -> Ended
    requires { IsStart job.now from }
    ensures { ended_of result ≡ (if nat_le (lines_after job.now.show
        job.now.search.plan.now.after_context) (length (rows_at job.now from)) then early
        else ended_of job.now.finish) }
{
    if job.show != Show::Lines {
        return Ended::Early;
    }
    if has_lines(job, from, u64::from(job.search.plan.after_context)) {
        Ended::Early
    } else {
        job.finish
    }
}

/// Scans the blocks of a text, and writes what is shown of them.
pub fn scan<O: Sink, E: Sink>(
    job: &Job<'_>,
    out: &mut O,
    err: &mut E,
    work: &mut Workspace,
    course: &mut Course,
) -> Result<Ended, Stop>
    requires search { IsSearch job.now.search }
    requires begun { IsBegun job.now course.old }
    requires known { IfSome work.old.utf8 (λ b. b ≡ is_utf8 job.now.search.text.now) }
    requires finish { (finish : Finish) × (ended_of job.now.finish ≡ at_finish finish) }
    ensures { Scans job.now course.old course.new (printed (O.tells out.old) (E.tells err.old))
        (printed (O.tells out.new) (E.tells err.new)) result }
{
    let after = u64::from(job.search.plan.after_context);
    'block: while course.from.at < job.search.text.len() {
        let block = job.search.next(course.from, work)?;
        if take_block(job, block, &work.found, out, err, course)? == Next::Context {
            write_behind(job, out, course, after)?;
            return Ok(end_of(job, course.from));
        }
    }
    write_behind(job, out, course, course.from.lines - course.gap.lines)?;
    Ok(job.finish)
}
