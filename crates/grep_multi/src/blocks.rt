//! The blocks of lines that matches take.
ghost use Rattle.std.specs.Prelude.{◌≡◌, ◌≤◌, ◌<◌, ◌+◌, ◌∷◌, [], ◌&&◌, not, length, IfOk, IfSome, if◌then◌else◌};
ghost use Rattle.std.specs.Prelude.{None};
ghost use Rattle.std.specs.Str.{is_utf8};
ghost use Rattle.ordered_search.specs.PlaceAnswer.{Outcome};
ghost use Rattle.line_feed.specs.Rows.{Row};
ghost use Rattle.grep_match.specs.Compiled.{patterns_in};
ghost use Rattle.grep_match.specs.Matches.{with_match};
ghost use Rattle.grep_match.specs.Found.{Lists};
ghost use Rattle.pcre2_errors.specs.MatchErrors.{minus};
ghost use Rattle.grep_multi.specs.Blocks.{first_bad, is_past, later_in, matches_with, holds};
ghost use Rattle.grep_multi.specs.Given.{Cuts, EndsAt, Gives, IsBehind, IsSearch, IsTaken, lines_at};

use crate::cut::{LineStart, Reach, cut_line, extend};
use byte_lanes::EndKind;
use grep_args::GrepPlan;
use grep_match::{
    Answer, Patterns, Verdict, Workspace, first_answer, limits, line_end, shows_each,
};
use pat_tree::MatchOptions;
use pcre_io::Memory;
use uni_text::check;

/// The match error of a text that isn't UTF-8.
const NOT_UTF8: i32 = -3;

/// Lines that were tried together: a block, a line with a match error, or a line in which no match begins.
#[derive(Clone, Copy, Debug, PartialEq, Eq)]
pub struct Block {
    /// How far they reach.
    pub reach: Reach,
    /// What the searches answer.
    pub verdict: Verdict,
}

/// A text that is held, and what it is searched for.
#[derive(Clone, Copy)]
pub struct Search<'a> {
    pub plan: &'a GrepPlan,
    pub patterns: &'a Patterns,
    pub text: &'a [u8],
    /// What ends its lines.
    pub kind: EndKind,
    /// Where the first byte is that isn't UTF-8, in a text that must be.
    pub bad: Option<usize>,
}

// Where the first byte is that isn't UTF-8, in a text that must be.
fn first_bad(plan: &GrepPlan, text: &[u8]) -> Option<usize>
    ensures { result ≡ first_bad plan.now text.now }
{
    if !plan.utf {
        return None;
    }
    match check(text) {
        Ok(()) => None,
        Err(bad) => Some(bad.at),
    }
}

// Whether a place is past the newline of the last line.
fn is_past(reach: Reach, place: usize) -> bool
    ensures { (line : Row) → EndsAt line reach → result ≡ is_past place line }
{
    reach.has_newline && reach.behind.at <= place
}

// The error of a line of a text that isn't searched.
fn verdict_at(bad: usize, from: usize, reach: Reach) -> Verdict
    ensures { (line : Row) → line.offset ≡ from → EndsAt line reach
        → result ≡ (if holds bad line then Verdict.Error (minus 3) else Verdict.NoMatch) }
{
    if from <= bad && bad < reach.behind.at {
        Verdict::Error(NOT_UTF8)
    } else {
        Verdict::NoMatch
    }
}

// The later matches of a block, of which the first ends at a place.
fn later(search: &Search<'_>, line: Reach, to: usize, work: &mut Workspace) -> Result<Block, Memory>
    requires search { IsSearch search.now }
    requires begun { to ≤ length search.now.text.now }
    requires within { line.behind.at ≤ length search.now.text.now }
    requires few { line.behind.lines ≤ line.behind.at }
    requires known { IfSome work.old.utf8 (λ b. b ≡ is_utf8 search.now.text.now) }
    ensures known { IfSome work.new.utf8 (λ b. b ≡ is_utf8 search.now.text.now) }
    ensures behind { IfOk result (λ block. IsBehind search.now.text.now line block.reach) }
    ensures taken { IfOk result (λ block. (row : Row) (o : Outcome) → EndsAt row line
        → row.number ≡ line.behind.lines → to ≡ o.to
        → Lists search.now.plan.now.only_matching (length search.now.text.now)
        work.old.found (o ∷ [])
        → let lines = lines_at search.now.kind search.now.text.now line.behind in
        IsTaken search.now.kind search.now.plan.now.only_matching search.now.text.now row lines
        (with_match o (later_in search.now.plan.now (patterns_in search.now.patterns.now)
        search.now.text.now row lines (length search.now.text.now + 1) to to))
        work.new.found block) }
{
    let patterns = search.patterns;
    let wanted = search.plan.only_matching.as_slice();
    let options = MatchOptions {
        notempty: true,
        ..limits(search.plan)
    };
    let mut start = to;
    let mut reach = extend(search.text, search.kind, line, to);
    for _turn in 0..search.text.len() + 1 {
        if is_past(reach, start) {
            return Ok(Block {
                reach,
                verdict: Verdict::Match,
            });
        }
        match first_answer(patterns, search.text, start, &options, wanted, work)? {
            Answer::Found(place) => {
                start = place.to;
                reach = extend(search.text, search.kind, reach, start);
            }
            Answer::Nothing => {
                return Ok(Block {
                    reach,
                    verdict: Verdict::Match,
                });
            }
            Answer::Error(n) => {
                return Ok(Block {
                    reach: line,
                    verdict: Verdict::Error(n),
                });
            }
        }
    }
    Ok(Block {
        reach,
        verdict: Verdict::Match,
    })
}

// The block of a line in which a match begins that ends at a place.
fn block_with(
    search: &Search<'_>,
    line: Reach,
    to: usize,
    work: &mut Workspace,
) -> Result<Block, Memory>
    requires search { IsSearch search.now }
    requires begun { to ≤ length search.now.text.now }
    requires within { line.behind.at ≤ length search.now.text.now }
    requires few { line.behind.lines ≤ line.behind.at }
    requires known { IfSome work.old.utf8 (λ b. b ≡ is_utf8 search.now.text.now) }
    ensures known { IfSome work.new.utf8 (λ b. b ≡ is_utf8 search.now.text.now) }
    ensures behind { IfOk result (λ block. IsBehind search.now.text.now line block.reach) }
    ensures taken { IfOk result (λ block. (row : Row) (o : Outcome) → EndsAt row line
        → row.number ≡ line.behind.lines → to ≡ o.to
        → Lists search.now.plan.now.only_matching (length search.now.text.now)
        work.old.found (o ∷ [])
        → let lines = lines_at search.now.kind search.now.text.now line.behind in
        IsTaken search.now.kind search.now.plan.now.only_matching search.now.text.now row lines
        (matches_with search.now.plan.now (patterns_in search.now.patterns.now)
        search.now.text.now row lines o) work.new.found block) }
{
    if shows_each(search.plan) {
        return later(search, line, to, work);
    }
    let reach = extend(search.text, search.kind, line, to);
    Ok(Block {
        reach,
        verdict: Verdict::Match,
    })
}

// What stands at a line of a text that is searched, of which the list is empty yet.
fn block_at(
    search: &Search<'_>,
    from: LineStart,
    line: Reach,
    work: &mut Workspace,
) -> Result<Block, Memory>
    requires search { IsSearch search.now }
    requires good { search.now.bad ≡ None }
    requires cut { Cuts search.now.kind search.now.text.now from line }
    requires begun { from.at ≤ length search.now.text.now }
    requires few { from.lines ≤ from.at }
    requires empty { work.old.found ≡ record { places = []; groups = [] } }
    requires known { IfSome work.old.utf8 (λ b. b ≡ is_utf8 search.now.text.now) }
    ensures known { IfSome work.new.utf8 (λ b. b ≡ is_utf8 search.now.text.now) }
    ensures gives { IfOk result (Gives search.now.kind search.now.plan.now
        (patterns_in search.now.patterns.now) search.now.text.now from work.new.found) }
{
    let patterns = search.patterns;
    let wanted = search.plan.only_matching.as_slice();
    let options = limits(search.plan);
    match first_answer(patterns, search.text, from.at, &options, wanted, work)? {
        Answer::Found(place) => block_with(search, line, place.to, work),
        Answer::Nothing => Ok(Block {
            reach: line,
            verdict: Verdict::NoMatch,
        }),
        Answer::Error(n) => Ok(Block {
            reach: line,
            verdict: Verdict::Error(n),
        }),
    }
}

impl<'a> Search<'a> {
    /// A search of a text for patterns, by the plan under which they were compiled. Takes no memory.
    pub fn new(plan: &'a GrepPlan, patterns: &'a Patterns, text: &'a [u8]) -> Search<'a>
        requires { length text.now < 4294967295 }
        ensures ready { IsSearch result }
        ensures plan { result.plan.now ≡ plan.now }
        ensures patterns { result.patterns.now ≡ patterns.now }
        ensures text { result.text.now ≡ text.now }
    {
        Search {
            plan,
            patterns,
            text,
            kind: line_end(plan),
            bad: first_bad(plan, text),
        }
    }

    /// What stands at the begin of a line: the block of the first pattern that matches there, the line where none does,
    /// or the line with the match error that ended the searches. A block has the lines up to the one that holds the
    /// last byte before the match's end; where the plan shows each match, it grows by the later ones, which the
    /// workspace lists (pcre2grep, "OPTIONS", -M).
    pub fn next(&self, from: LineStart, work: &mut Workspace) -> Result<Block, Memory>
        requires search { IsSearch self.now }
        requires some { from.at < length self.now.text.now }
        requires few { from.lines ≤ from.at }
        requires known { IfSome work.old.utf8 (λ b. b ≡ is_utf8 self.now.text.now) }
        ensures known { IfSome work.new.utf8 (λ b. b ≡ is_utf8 self.now.text.now) }
        ensures gives { IfOk result (Gives self.now.kind self.now.plan.now
            (patterns_in self.now.patterns.now) self.now.text.now from work.new.found) }
    {
        let line = cut_line(self.text, self.kind, from);
        work.found.clear();
        match self.bad {
            Some(bad) => Ok(Block {
                reach: line,
                verdict: verdict_at(bad, from.at, line),
            }),
            None => block_at(self, from, line, work),
        }
    }
}
