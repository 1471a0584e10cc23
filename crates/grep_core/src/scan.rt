//! The scan of an input, line by line.
ghost use Rattle.std.specs.Prelude.{◌≡◌, ◌≢◌, ℕ, List, ◌<◌, ◌≤◌, ◌^◌, [], length};
ghost use Rattle.std.specs.Prelude.{slice_index};
ghost use Rattle.std.specs.Prelude.{IfSome, OnOk, Ok, None, IsTrue};
ghost use Rattle.pcre_io.specs.Told.{Told};
ghost use Rattle.line_feed.specs.Rows.{Row};
ghost use Rattle.line_feed.specs.declared.phase.Phase.TheVariants.{Closed};
ghost use Rattle.grep_output.specs.declared.shows.Show.TheVariants.{Lines};
ghost use Rattle.grep_core.specs.declared.lines.Next.{Next};
ghost use Rattle.grep_match.specs.Compiled.{patterns_in};
ghost use Rattle.grep_match.specs.PatternTexts.{line_end};
ghost use Rattle.grep_match.specs.Matches.{matches};
ghost use Rattle.grep_output.specs.declared.shows.Treatment.{Treatment};
ghost use Rattle.grep_core.specs.Turns.{Turns, ended_by};
ghost use Rattle.grep_core.specs.Follows.{FollowsOne, Follows, past};
ghost use Rattle.grep_core.specs.Sending.{SendsOn};
ghost use Rattle.grep_core.specs.Work.{work_of, standing, progress, fed, position};
ghost use Rattle.grep_watch.specs.Watched.{Watches};
ghost use Rattle.grep_watch.specs.Filtered.{Filters, IsKnown};
ghost use Rattle.pat_tree.specs.Pattern.{Pattern};
ghost use Rattle.grep_args.specs.declared.plan.GrepPlan.{GrepPlan};
ghost use Rattle.grep_core.specs.Underway.{IsReady, Origin, StandsAt, TakesPart, began_at};
ghost use Rattle.grep_output.specs.LittlePast.{bytes_in};
ghost use Rattle.grep_core.specs.WholeScans.{Stood, IsJob, ScansInput, TakesAll};
ghost use Rattle.tool_io.specs.Printed.{printed};

use crate::filters::filter_by;
use crate::lines::{Course, Job, Next, take_line};
use crate::quiet::{pass_unseen, take_ahead};
use crate::state::Scanner;
use grep_args::GrepPlan;
use grep_match::Patterns;
use grep_output::{Ended, Show, Stop, write_line};
use grep_watch::{Filter, Known, Sieve, Watch, ends_in_lf};
use line_feed::{FeedError, LineFeed};
use pcre_io::{Sink, Source};

/// What a turn of a scan comes to.
enum Turn {
    Took(Next),
    Finished(Ended),
}

/// What a part of a scan comes to.
pub(crate) enum Came {
    /// A line of the wanted number.
    Far,
    /// The last line that may be selected, or how the scan ends before one.
    Done(Option<Ended>),
}

/// A part of the lines: what is known of them, what looks for the first that may have a match, and the number up to which
/// they are taken.
#[derive(Drop)]
struct Part<'a> {
    watch: Watch,
    filter: Option<Filter<'a>>,
    until: u64,
    /// How many lines were taken one by one.
    taken: u64,
}

// So many lines are taken before a filter is made, since that takes as long as the scan of some: most files have fewer.
const LATE: u64 = 2_000;

// So many where few of these were taken one by one.
const LATER: u64 = 32_000;

// So many where each line is searched.
const EARLY: u64 = 256;

// However many patterns there are, at least so many lines are.
const SOON: u64 = 64;

// How a scan ends where the feed gives no line.
fn ended_by(e: FeedError) -> Result<Ended, Stop>
    ensures { result ≡ ended_by e }
{
    match e {
        FeedError::ReadFault => Ok(Ended::ReadFault),
        FeedError::TooLong { line } => Ok(Ended::TooLong { line }),
        FeedError::TooMuch => Ok(Ended::TooMuch),
        FeedError::Memory => Err(Stop::Memory),
    }
}

// Sends on what was gathered, before a read that may wait: who reads on need not wait with it.
fn send_on<S: Source, O: Sink>(feed: &mut LineFeed, source: &S, out: &mut O) -> Result<(), Stop>
    ensures same { feed.new ≡ feed.old }
    ensures sent { SendsOn (O.tells out.old) (O.tells out.new) result }
{
    if source.may_wait() && !feed.holds_line() {
        out.flush()?;
    }
    Ok(())
}

// What is known of a line without a search for the patterns: by the filter, where lines end in LF, or as it is quiet.
fn known_of(filter: &mut Option<Filter<'_>>, by_lf: bool, line: &[u8], is_quiet: bool) -> Known
    requires { IsTrue by_lf → (k : ℕ) → k < length line.now → slice_index line.now k ≢ 10 }
    ensures known { (plan : GrepPlan) (patterns : List Pattern)
        → IfSome filter.old (Filters plan patterns)
        → (IsTrue is_quiet → matches plan patterns line.now ≡ Ok [])
        → IsKnown plan patterns line.now result }
    ensures same { (plan : GrepPlan) (patterns : List Pattern)
        → IfSome filter.old (Filters plan patterns) → IfSome filter.new (Filters plan patterns) }
{
    if is_quiet {
        return Known::NoMatch;
    }
    match filter {
        Some(filter) if by_lf => filter.tell(line),
        _ => Known::Nothing,
    }
}

// Takes the next line, where there is one.
fn take_turn<S: Source, O: Sink, E: Sink>(
    job: &Job<'_>,
    scanner: &mut Scanner,
    source: &mut S,
    out: &mut O,
    err: &mut E,
    course: &mut Course,
    part: &mut Part<'_>,
) -> Result<Turn, Stop>
    requires live { scanner.old.feed.phase ≢ Closed }
    requires max { scanner.old.feed.max ≤ 2 ^ 30 }
    requires numbered { scanner.old.feed.number ≤ scanner.old.feed.offset }
    requires earlier { length course.old.earlier.rows ≤ scanner.old.feed.number }
    requires context { course.old.context_to ≤ 2 ^ 62 }
    requires selected { course.old.selected ≤ 2 ^ 62 }
    requires errors { scanner.old.state.errors ≤ 20 }
    requires limit { job.now.show ≡ Lines → course.old.earlier.limit ≡
        job.now.plan.now.before_context }
    requires longest { scanner.old.feed.max ≤ course.old.earlier.longest }
    requires watch { Watches job.now.plan.now (patterns_in job.now.patterns.now)
        part.old.watch scanner.old.feed.held }
    requires filter { IfSome part.old.filter
        (Filters job.now.plan.now (patterns_in job.now.patterns.now)) }
    ensures filter { IfSome part.new.filter
        (Filters job.now.plan.now (patterns_in job.now.patterns.now)) }
    ensures until { part.new.until ≡ part.old.until }
    ensures turns { Turns (work_of job.now) job.now.most
        (position (fed scanner.old.feed (S.tells source.old))
        (progress course.old scanner.old.state (printed (O.tells out.old) (E.tells err.old))))
        (position (fed scanner.new.feed (S.tells source.new))
        (progress course.new scanner.new.state (printed (O.tells out.new) (E.tells err.new))))
        result }
    ensures watch { (next : Next) → result ≡ Ok (Turn.Took next)
        → Watches job.now.plan.now (patterns_in job.now.patterns.now) part.new.watch
        scanner.new.feed.held }
{
    let watch = &mut part.watch;
    watch.look(&scanner.feed);
    let by_lf = ends_in_lf(&scanner.feed);
    match scanner.feed.next(source) {
        Ok(Some(line)) => {
            let is_quiet = watch.passes(line.bytes);
            watch.leave(&line);
            let known = known_of(&mut part.filter, by_lf, line.bytes, is_quiet);
            let work = &mut scanner.work;
            let state = &mut scanner.state;
            Ok(Turn::Took(take_line(job, &line, known, out, err, work, state, course)?))
        }
        Ok(None) => Ok(Turn::Finished(Ended::End)),
        Err(e) => Ok(Turn::Finished(ended_by(e)?)),
    }
}

// Shows the next line as the context of a selected one, where there is one. Says how the scan ends where there is none.
fn follow_one<S: Source, O: Sink>(
    job: &Job<'_>,
    feed: &mut LineFeed,
    source: &mut S,
    out: &mut O,
) -> Result<Option<Ended>, Stop>
    requires { feed.old.phase ≢ Closed }
    ensures { FollowsOne (work_of job.now) (fed feed.old (S.tells source.old))
        (fed feed.new (S.tells source.new)) (O.tells out.old) (O.tells out.new) result }
{
    match feed.next(source) {
        Ok(Some(line)) => {
            write_line(out, job.plan, job.name, &line, false)?;
            Ok(None)
        }
        Ok(None) => Ok(Some(Ended::End)),
        Err(e) => Ok(Some(ended_by(e)?)),
    }
}

// Shows the lines after the last one that is selected, as its context.
fn follow<S: Source, O: Sink>(
    job: &Job<'_>,
    feed: &mut LineFeed,
    source: &mut S,
    out: &mut O,
) -> Result<Ended, Stop>
    requires { feed.old.phase ≢ Closed }
    ensures { (before : Told) (treated : Treatment) (given : List Row)
        → Stood job.now.plan.now treated before (S.tells source.old) feed.old given
        → feed.old.kind ≡ line_end job.now.plan.now
        → feed.old.max ≡ job.now.plan.now.max_buffer_size → length feed.old.held ≤ 65536
        → feed.old.offset ≡ bytes_in given
        → Follows (work_of job.now) (past before treated given) (S.tells source.new)
        (O.tells out.old) (O.tells out.new) result }
{
    if job.show != Show::Lines {
        return Ok(Ended::Early);
    }
    'line: for _ in 0..job.plan.after_context {
        send_on(feed, source, out)?;
        if let Some(ended) = follow_one(job, feed, source, out)? {
            return Ok(ended);
        }
    }
    Ok(Ended::Early)
}

// Looks for the first line that may have a match, where there is a filter, before a line is taken by itself.
fn sift(part: &mut Part<'_>, feed: &LineFeed)
    ensures watch { (plan : GrepPlan) (patterns : List Pattern)
        → IfSome part.old.filter (Filters plan patterns)
        → Watches plan patterns part.old.watch feed.now.held
        → Watches plan patterns part.new.watch feed.now.held }
    ensures filter { (plan : GrepPlan) (patterns : List Pattern)
        → IfSome part.old.filter (Filters plan patterns)
        → IfSome part.new.filter (Filters plan patterns) }
    ensures until { part.new.until ≡ part.old.until }
{
    part.taken = part.taken.saturating_add(1);
    if let Some(filter) = &mut part.filter {
        filter.look(&mut part.watch, feed);
    }
}

// What is known of the lines: under a filter it alone tells of them.
fn watch_under(filter: &Option<Filter<'_>>, watch: Watch) -> Watch
    ensures { (plan : GrepPlan) (patterns : List Pattern) (held : List ℕ)
        → Watches plan patterns watch held → Watches plan patterns result held }
{
    match filter {
        Some(_) => Watch::blank(),
        None => watch,
    }
}

// Takes the lines of a part, up to the last one that may be selected, or to the end.
fn take_until<S: Source, O: Sink, E: Sink>(
    job: &Job<'_>,
    scanner: &mut Scanner,
    source: &mut S,
    out: &mut O,
    err: &mut E,
    course: &mut Course,
    part: &mut Part<'_>,
) -> Result<Came, Stop>
    requires ready { IsReady job.now scanner.old.feed course.old scanner.old.state
        part.old.watch }
    requires filter { IfSome part.old.filter
        (Filters job.now.plan.now (patterns_in job.now.patterns.now)) }
    ensures filter { OnOk result (IfSome part.new.filter
        (Filters job.now.plan.now (patterns_in job.now.patterns.now))) }
    ensures ready { result ≡ Ok Came.Far
        → IsReady job.now scanner.new.feed course.new scanner.new.state part.new.watch }
    ensures far { result ≡ Ok Came.Far → part.old.until ≤ scanner.new.feed.number }
    ensures live { result ≡ Ok (Came.Done None) → scanner.new.feed.phase ≢ Closed }
    ensures taken { (from : Origin) → IsJob job.now.plan.now from.treated job.now.show
        job.now.most from.feed
        → StandsAt (work_of job.now) job.now.most from
        (position (fed scanner.old.feed (S.tells source.old))
        (progress course.old scanner.old.state (printed (O.tells out.old) (E.tells err.old))))
        → TakesPart (work_of job.now) job.now.most from
        (position (fed scanner.new.feed (S.tells source.new))
        (progress course.new scanner.new.state (printed (O.tells out.new) (E.tells err.new))))
        result }
{
    // A number behind a reference is known to be of its type once it was read: so no count up to it wraps.
    prove!(job.plan.after_context <= u32::MAX);
    'line: while scanner.feed.number() < part.until {
        sift(part, &scanner.feed);
        let watch = &mut part.watch;
        pass_unseen(job, &mut scanner.feed, course, watch);
        take_ahead(
            job,
            &mut scanner.feed,
            out,
            &mut scanner.state,
            course,
            watch,
        )?;
        send_on(&mut scanner.feed, source, out)?;
        match take_turn(job, scanner, source, out, err, course, part)? {
            Turn::Took(Next::Line) => {}
            Turn::Took(Next::Context) => return Ok(Came::Done(None)),
            Turn::Finished(ended) => return Ok(Came::Done(Some(ended))),
        }
    }
    Ok(Came::Far)
}

// Takes the lines behind the first ones, by a filter where there is one. It isn't inlined, since a filter is large.
#[inline(never)]
fn take_rest<S: Source, O: Sink, E: Sink>(
    job: &Job<'_>,
    scanner: &mut Scanner,
    source: &mut S,
    out: &mut O,
    err: &mut E,
    course: &mut Course,
    watch: Watch,
) -> Result<Option<Ended>, Stop>
    requires { IsReady job.now scanner.old.feed course.old scanner.old.state watch }
    ensures live { result ≡ Ok None → scanner.new.feed.phase ≢ Closed }
    ensures taken { (from : Origin) → IsJob job.now.plan.now from.treated job.now.show
        job.now.most from.feed
        → StandsAt (work_of job.now) job.now.most from
        (position (fed scanner.old.feed (S.tells source.old))
        (progress course.old scanner.old.state (printed (O.tells out.old) (E.tells err.old))))
        → TakesAll (work_of job.now) job.now.most from.treated (began_at from)
        (position (fed scanner.new.feed (S.tells source.new))
        (progress course.new scanner.new.state (printed (O.tells out.new) (E.tells err.new))))
        result }
{
    let sieve = Sieve::new(job.alloc, job.plan, job.patterns, &watch);
    let filter = filter_by(job.alloc, &sieve);
    let watch = watch_under(&filter, watch);
    let mut part = Part {
        watch,
        filter,
        until: u64::MAX,
        taken: 0,
    };
    match take_until(job, scanner, source, out, err, course, &mut part)? {
        Came::Done(ended) => Ok(ended),
        Came::Far => unreachable!(),
    }
}

// Takes the lines behind the first ones, up to some line without a filter.
fn take_more<S: Source, O: Sink, E: Sink>(
    job: &Job<'_>,
    scanner: &mut Scanner,
    source: &mut S,
    out: &mut O,
    err: &mut E,
    course: &mut Course,
    watch: Watch,
    until: u64,
) -> Result<Option<Ended>, Stop>
    requires { IsReady job.now scanner.old.feed course.old scanner.old.state watch }
    ensures live { result ≡ Ok None → scanner.new.feed.phase ≢ Closed }
    ensures taken { (from : Origin) → IsJob job.now.plan.now from.treated job.now.show
        job.now.most from.feed
        → StandsAt (work_of job.now) job.now.most from
        (position (fed scanner.old.feed (S.tells source.old))
        (progress course.old scanner.old.state (printed (O.tells out.old) (E.tells err.old))))
        → TakesAll (work_of job.now) job.now.most from.treated (began_at from)
        (position (fed scanner.new.feed (S.tells source.new))
        (progress course.new scanner.new.state (printed (O.tells out.new) (E.tells err.new))))
        result }
{
    let mut part = Part {
        watch,
        filter: None,
        until,
        taken: 0,
    };
    match take_until(job, scanner, source, out, err, course, &mut part)? {
        Came::Done(ended) => Ok(ended),
        Came::Far => take_rest(job, scanner, source, out, err, course, part.watch),
    }
}

// How many lines are taken before a filter is made: fewer where each line is searched, for many patterns above all.
fn late(watch: &Watch, patterns: &Patterns) -> u64 {
    if watch.needed.is_some() {
        return LATE;
    }
    let many = patterns.len() as u64;
    (EARLY / many.max(1)).max(SOON)
}

// Up to which line no filter is made yet, by the first ones.
fn later(part: &Part<'_>) -> u64 {
    if part.taken < part.until / 4 {
        LATER
    } else {
        part.until
    }
}

// What the lines of an input are begun by: a filter that is at hand, or the first of them without any.
fn first_part<'a>(job: &Job<'_>, filter: Option<Filter<'a>>) -> Part<'a>
    ensures watch { (held : List ℕ)
        → Watches job.now.plan.now (patterns_in job.now.patterns.now) result.watch held }
    ensures filter { result.filter ≡ filter.entry }
{
    if filter.is_some() {
        return Part {
            watch: Watch::blank(),
            filter,
            until: u64::MAX,
            taken: 0,
        };
    }
    let watch = Watch::new(job.plan, job.patterns);
    let until = late(&watch, job.patterns);
    Part {
        watch,
        filter,
        until,
        taken: 0,
    }
}

// Takes lines up to the last one that may be selected, or to the end. Says how the scan ends where it ends there.
fn take_lines<S: Source, O: Sink, E: Sink>(
    job: &Job<'_>,
    scanner: &mut Scanner,
    source: &mut S,
    out: &mut O,
    err: &mut E,
    course: &mut Course,
    filter: &mut Option<Filter<'_>>,
) -> Result<Option<Ended>, Stop>
    requires live { scanner.old.feed.phase ≢ Closed }
    requires max { scanner.old.feed.max ≤ 2 ^ 30 }
    requires first { scanner.old.feed.number ≡ 0 }
    requires errors { scanner.old.state.errors ≤ 20 }
    requires selected { course.old.selected ≡ 0 }
    requires context { course.old.context_to ≡ 0 }
    requires earlier { course.old.earlier.rows ≡ [] }
    requires limit { course.old.earlier.limit ≡ job.now.plan.now.before_context }
    requires longest { scanner.old.feed.max ≤ course.old.earlier.longest }
    requires filter { IfSome filter.old
        (Filters job.now.plan.now (patterns_in job.now.patterns.now)) }
    ensures filter { IfSome filter.new
        (Filters job.now.plan.now (patterns_in job.now.patterns.now)) }
    ensures live { result ≡ Ok None → scanner.new.feed.phase ≢ Closed }
    ensures taken { (before : Told) (treated : Treatment)
        → IsJob job.now.plan.now treated job.now.show job.now.most scanner.old.feed
        → Stood job.now.plan.now treated before (S.tells source.old) scanner.old.feed []
        → TakesAll (work_of job.now) job.now.most treated
        (position (fed scanner.old.feed before)
        (progress course.old scanner.old.state (printed (O.tells out.old) (E.tells err.old))))
        (position (fed scanner.new.feed (S.tells source.new))
        (progress course.new scanner.new.state (printed (O.tells out.new) (E.tells err.new))))
        result }
{
    let mut part = first_part(job, filter.take());
    let came = take_until(job, scanner, source, out, err, course, &mut part)?;
    let until = later(&part);
    *filter = part.filter;
    match came {
        Came::Done(ended) => Ok(ended),
        Came::Far => take_more(job, scanner, source, out, err, course, part.watch, until),
    }
}

/// Scans the lines of an input, and writes what is shown of them. A filter that is handed in tells of lines from the
/// first one on.
pub fn scan<S: Source, O: Sink, E: Sink>(
    job: &Job<'_>,
    scanner: &mut Scanner,
    source: &mut S,
    out: &mut O,
    err: &mut E,
    course: &mut Course,
    filter: &mut Option<Filter<'_>>,
) -> Result<Ended, Stop>
    requires live { scanner.old.feed.phase ≢ Closed }
    requires max { scanner.old.feed.max ≤ 2 ^ 30 }
    requires first { scanner.old.feed.number ≡ 0 }
    requires errors { scanner.old.state.errors ≤ 20 }
    requires selected { course.old.selected ≡ 0 }
    requires context { course.old.context_to ≡ 0 }
    requires earlier { course.old.earlier.rows ≡ [] }
    requires limit { course.old.earlier.limit ≡ job.now.plan.now.before_context }
    requires longest { scanner.old.feed.max ≤ course.old.earlier.longest }
    requires filter { IfSome filter.old
        (Filters job.now.plan.now (patterns_in job.now.patterns.now)) }
    ensures filter { IfSome filter.new
        (Filters job.now.plan.now (patterns_in job.now.patterns.now)) }
    // For each state of the source from which the feed came here without giving a line, and where the job is made for
    // the input, this is the scan of the input that the source stands for.
    ensures scans { (before : Told) (treated : Treatment)
        → IsJob job.now.plan.now treated job.now.show job.now.most scanner.old.feed
        → Stood job.now.plan.now treated before (S.tells source.old) scanner.old.feed []
        → ScansInput (work_of job.now) treated
        (standing before scanner.old.state (printed (O.tells out.old) (E.tells err.old)))
        (standing (S.tells source.new) scanner.new.state
        (printed (O.tells out.new) (E.tells err.new))) course.new.selected result }
{
    match take_lines(job, scanner, source, out, err, course, filter)? {
        Some(ended) => Ok(ended),
        None => follow(job, &mut scanner.feed, source, out),
    }
}
