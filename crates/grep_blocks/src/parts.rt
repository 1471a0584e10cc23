//! Matches of a held text that are shown in place of its lines.
ghost use Rattle.std.specs.Prelude.{◌≡◌, ◌≤◌, ◌<◌, ◌+◌, ◌∷◌, List, All, Option, length, map};
ghost use Rattle.ordered_search.specs.Forward.{IsWithin};
ghost use Rattle.ordered_search.specs.PlaceAnswer.{Outcome};
ghost use Rattle.line_feed.specs.Rows.{Row};
ghost use Rattle.grep_multi.specs.grep_match.Found.{Lists, groups_of, place_of};
ghost use Rattle.tool_io.specs.Writes.{Writes};
ghost use Rattle.grep_blocks.specs.BlockText.{match_out, matches_out};
ghost use Rattle.grep_blocks.specs.Steps.{IsLineOf, IsOnward, IsStart, rows_at};

use crate::job::Job;
use frame_store::Span;
use grep_args::OffsetMode;
use grep_multi::{LineStart, MatchList, Place, line_at};
use grep_output::{write_in_line, write_match};
use line_feed::Line;
use pcre_io::{IoError, Sink};

// Where the line begins that a place stands in, of this line and those behind it. The last one has the end of the text.
fn line_with(job: &Job<'_>, from: LineStart, place: usize) -> LineStart
    requires start { IsStart job.now from }
    requires some { from.at < length job.now.search.text.now }
    ensures later { from.at ≤ result.at }
    ensures line { (line : Row) (lines : List Row) → rows_at job.now from ≡ line ∷ lines
        → IsLineOf job.now line lines place result }
{
    let mut at = from;
    'line: loop {
        let line = line_at(job.search.text, job.search.kind, at);
        let next = at.past(&line);
        if place < next.at || next.at >= job.search.text.len() {
            return at;
        }
        at = next;
    }
}

// Writes a match that begins in this line, and of which these are the groups.
fn write_one<O: Sink>(
    job: &Job<'_>,
    out: &mut O,
    at: LineStart,
    place: Place,
    groups: &[Option<Span>],
) -> Result<(), IoError>
    requires start { IsStart job.now at }
    requires ordered { place.keep ≤ place.to }
    requires within { place.to ≤ length job.now.search.text.now }
    requires groups { All (IsWithin (length job.now.search.text.now)) groups.now }
    ensures { (line : Row) (o : Outcome) → line.number ≡ at.lines + 1 → line.offset ≡ at.at
        → place ≡ place_of o → groups.now ≡ groups_of job.now.search.plan.now.only_matching o
        → Writes (match_out job.now.search.plan.now job.now.name.now job.now.search.text.now
        job.now.search.plan.now.offsets line o) (O.tells out.old) (O.tells out.new) result }
{
    let plan = job.search.plan;
    let whole = Line {
        bytes: job.search.text,
        end: b"",
        number: at.lines + 1,
        offset: 0,
    };
    if plan.offsets == OffsetMode::Lines {
        let in_line = Place {
            keep: place.keep.saturating_sub(at.at),
            to: place.to.saturating_sub(at.at),
        };
        return write_in_line(out, plan, job.name, &whole, in_line);
    }
    write_match(out, plan, job.name, &whole, place, groups)
}

// Where the line of a match begins, looked for from that of the one before on.
fn line_of(job: &Job<'_>, from: LineStart, last: LineStart, place: usize) -> LineStart
    requires start { IsStart job.now from }
    requires some { from.at < length job.now.search.text.now }
    requires last { (line : Row) (lines : List Row) → rows_at job.now from ≡ line ∷ lines
        → IsOnward job.now line lines last }
    ensures { (line : Row) (lines : List Row) → rows_at job.now from ≡ line ∷ lines
        → IsLineOf job.now line lines place result }
{
    if place < last.at {
        line_with(job, from, place)
    } else {
        line_with(job, last, place)
    }
}

/// Writes the matches of a block that begins here.
pub fn write_parts<O: Sink>(
    job: &Job<'_>,
    out: &mut O,
    from: LineStart,
    found: &MatchList,
) -> Result<(), IoError>
    requires start { IsStart job.now from }
    requires some { from.at < length job.now.search.text.now }
    requires listed { (os : List Outcome) × Lists job.now.search.plan.now.only_matching
        (length job.now.search.text.now) found.now os }
    ensures { (line : Row) (lines : List Row) (os : List Outcome) → rows_at job.now from ≡ line ∷ lines
        → Lists job.now.search.plan.now.only_matching (length job.now.search.text.now) found.now os
        → Writes (matches_out job.now.search.plan.now job.now.name.now job.now.search.text.now
        line lines os) (O.tells out.old) (O.tells out.new) result }
{
    let width = job.search.plan.only_matching.len();
    let mut groups = found.groups();
    let mut at = from;
    for i in 0..found.len() {
        let place = found.place(i);
        at = line_of(job, from, at, place.keep);
        let (shown, more) = groups.split_at(width);
        write_one(job, out, at, place, shown)?;
        groups = more;
    }
    Ok(())
}
