//! Lines of a held text that are shown, with those around them.
ghost use Rattle.std.specs.Prelude.{◌≡◌, ◌≤◌, ◌<◌, ◌+◌, ◌&&◌, List, length, take, drop, flat_map, nat_le, nat_lt};
ghost use Rattle.std.specs.Prelude.{if◌then◌else◌, false, true, max};
ghost use Rattle.line_feed.specs.Rows.{Row};
ghost use Rattle.line_feed.specs.Lines.{row_of};
ghost use Rattle.grep_output.specs.Context.{parts_groups};
ghost use Rattle.grep_output.specs.Texts.{newline_of};
ghost use Rattle.tool_io.specs.Writes.{Writes};
ghost use Rattle.grep_blocks.specs.BlockText.{after_of, block_out, gap_out};
ghost use Rattle.grep_blocks.specs.Steps.{IsGap, IsStart, Skips, line_by, rows_at};

use crate::job::Job;
use grep_args::GrepPlan;
use grep_multi::{LineStart, line_at};
use grep_output::write_line;
use line_feed::Line;
use pcre_io::{IoError, Sink};
use tool_io::{text_if, write_texts};

// The newline of a line as it is shown: a last line without one gets LF.
fn newline_of<'a>(line: &Line<'a>) -> &'a [u8]
    ensures { result.now ≡ newline_of (row_of line.now) }
{
    if line.end.is_empty() { b"\n" } else { line.end }
}

// Writes a line as context, or bare: without name and number.
fn write_one<O: Sink>(
    job: &Job<'_>,
    out: &mut O,
    line: &Line<'_>,
    is_bare: bool,
) -> Result<(), IoError>
    ensures { Writes (line_by job.now is_bare (row_of line.now)) (O.tells out.old) (O.tells out.new)
        result }
{
    if is_bare {
        return write_texts(out, &[line.bytes, newline_of(line)]);
    }
    write_line(out, job.search.plan, job.name, line, false)
}

// Writes so many lines, or those up to the end of the text.
fn write_lines<O: Sink>(
    job: &Job<'_>,
    out: &mut O,
    from: LineStart,
    count: u64,
    is_bare: bool,
) -> Result<(), IoError>
    requires { IsStart job.now from }
    ensures { Writes (flat_map (line_by job.now is_bare) (take count (rows_at job.now from)))
        (O.tells out.old) (O.tells out.new) result }
{
    let mut at = from;
    'line: for _ in 0..count {
        if at.at >= job.search.text.len() {
            return Ok(());
        }
        let line = line_at(job.search.text, job.search.kind, at);
        write_one(job, out, &line, is_bare)?;
        at = at.past(&line);
    }
    Ok(())
}

// Where a line begins before which so many others stand, or the text ends.
fn skip_lines(job: &Job<'_>, from: LineStart, count: u64) -> LineStart
    requires { IsStart job.now from }
    ensures { Skips job.now from count result }
{
    let mut at = from;
    'line: for _ in 0..count {
        if at.at >= job.search.text.len() {
            return at;
        }
        let line = line_at(job.search.text, job.search.kind, at);
        at = at.past(&line);
    }
    at
}

// Whether so many lines begin at a place and behind it.
pub fn has_lines(job: &Job<'_>, from: LineStart, count: u64) -> bool
    requires { IsStart job.now from }
    ensures { result ≡ nat_le count (length (rows_at job.now from)) }
{
    count == 0 || skip_lines(job, from, count - 1).at < job.search.text.len()
}

// Only where context is asked for are groups of lines parted.
fn parts_groups(plan: &GrepPlan) -> bool
    ensures { result ≡ parts_groups plan.now }
{
    plan.after_context > 0 || plan.before_context > 0
}

// How many lines behind a selected block are shown: none behind none.
fn after_of(plan: &GrepPlan, is_first: bool) -> u64
    ensures { result ≡ after_of plan.now is_first }
{
    if is_first {
        0
    } else {
        u64::from(plan.after_context)
    }
}

// Whether lines are parted from those that were shown before: where some between them are left out.
fn is_parted(job: &Job<'_>, is_first: bool, after: u64, behind: u64) -> bool
    ensures { result ≡ (parts_groups job.now.search.plan.now
        && (if is_first then job.now.has_shown else nat_lt after behind)) }
{
    let is_cut = if is_first {
        job.has_shown
    } else {
        after < behind
    };
    parts_groups(job.search.plan) && is_cut
}

// Writes what is shown of the lines between two selected blocks, or before the first: those that are near enough to one,
// and a separator where others between them are left out.
pub fn write_gap<O: Sink>(
    job: &Job<'_>,
    out: &mut O,
    is_first: bool,
    gap: LineStart,
    to: LineStart,
) -> Result<(), IoError>
    requires gap { IsStart job.now gap }
    requires ordered { gap.lines ≤ to.lines }
    ensures { (rows : List Row) → IsGap job.now gap to rows
        → Writes (gap_out job.now.search.plan.now job.now.name.now job.now.has_shown is_first rows)
        (O.tells out.old) (O.tells out.new) result }
{
    let plan = job.search.plan;
    let count = to.lines - gap.lines;
    let after = after_of(plan, is_first);
    let behind = after.max(count.saturating_sub(u64::from(plan.before_context)));
    write_lines(job, out, gap, after.min(count), false)?;
    let is_parted = is_parted(job, is_first, after, behind);
    write_texts(out, &[text_if(is_parted, b"--\n")])?;
    if behind >= count {
        return Ok(());
    }
    let from = skip_lines(job, gap, behind);
    write_lines(job, out, from, count - behind, false)
}

// Writes what is shown of lines behind the last selected block, of which there are so many at most.
pub fn write_rest<O: Sink>(
    job: &Job<'_>,
    out: &mut O,
    is_first: bool,
    gap: LineStart,
    most: u64,
) -> Result<(), IoError>
    requires { IsStart job.now gap }
    ensures { Writes (flat_map (line_by job.now false)
        (take (after_of job.now.search.plan.now is_first) (take most (rows_at job.now gap))))
        (O.tells out.old) (O.tells out.new) result }
{
    let after = after_of(job.search.plan, is_first);
    write_lines(job, out, gap, after.min(most), false)
}

// Writes the lines of a selected block, of which the first alone has name and number.
pub fn write_block<O: Sink>(
    job: &Job<'_>,
    out: &mut O,
    from: LineStart,
    behind: LineStart,
) -> Result<(), IoError>
    requires from { IsStart job.now from }
    requires some { from.at < length job.now.search.text.now }
    requires ordered { from.lines < behind.lines }
    ensures { (rows : List Row) → IsGap job.now from behind rows
        → Writes (block_out job.now.search.plan.now job.now.name.now rows)
        (O.tells out.old) (O.tells out.new) result }
{
    let line = line_at(job.search.text, job.search.kind, from);
    write_line(out, job.search.plan, job.name, &line, true)?;
    write_lines(
        job,
        out,
        from.past(&line),
        behind.lines - from.lines - 1,
        true,
    )
}
