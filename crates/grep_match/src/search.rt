//! What the patterns find in a line.
ghost use Rattle.std.specs.Prelude.{◌≡◌, ◌<◌, ◌≤◌, ◌+◌, ◌||◌, not, [], ◌∷◌, length, Some, IfOk, IfSome, IsTrue};
ghost use Rattle.std.specs.Str.{is_utf8};
ghost use Rattle.pat_tree.specs.declared.options.PartialMode.TheVariants.{Off};
ghost use Rattle.ordered_search.specs.Setting.{Setting};
ghost use Rattle.ordered_search.specs.PlaceAnswer.{Outcome};
ghost use Rattle.pcre2_api.specs.Matched.{IsMatchError};
ghost use Rattle.pat_tree.specs.Pattern.{pattern_of};
ghost use Rattle.grep_match.specs.Compiled.{patterns_in, pattern_in, IsKept};
ghost use Rattle.grep_match.specs.Spelt.{spelling, IsSpelling, StandsNowhere};
ghost use Rattle.grep_match.specs.Matches.{matches, first_answer, limits, later, with_match, shows_each};
ghost use Rattle.pcre2_api.specs.Answers.{pattern_answer, search_answer};
ghost use Rattle.grep_match.specs.Found.{Lists, IsAdded, IsUnfound, IsAnswer, IsVerdict};

use crate::found::{MatchList, Place};
use crate::modes::{Mode, mode_of};
use crate::patterns::{Kept, Patterns};
use grep_args::GrepPlan;
use memchr::memmem;
use pcre_io::Memory;
use pcre2_api::{Code, Found, MatchError, MatchOptions, NoCallouts, Scratch, is_text};
use std::alloc::Global;

/// The number of the match error that a subject isn't UTF-8.
const NOT_UTF8: i32 = -3;

/// What the searches on a line answer.
#[derive(Clone, Copy, Debug, PartialEq, Eq)]
pub enum Verdict {
    Match,
    NoMatch,
    /// The number of the match error that ended them.
    Error(i32),
}

/// What one search answers.
#[derive(Clone, Copy, Debug, PartialEq, Eq)]
pub enum Answer {
    /// Where the match stands.
    Found(Place),
    Nothing,
    /// The number of the match error.
    Error(i32),
}

/// What is needed for searches: their workspace, and a list of matches.
#[derive(Drop)]
pub struct Workspace {
    pub scratch: Scratch,
    pub found: MatchList,
    /// Whether the line is UTF-8, once a pattern has asked for it.
    pub utf8: Option<bool>,
}

impl Workspace {
    /// A workspace with no room. Takes no memory.
    pub fn new(alloc: Global) -> Workspace {
        Workspace {
            scratch: Scratch::new(alloc),
            found: MatchList::new(alloc),
            utf8: None,
        }
    }
}

// Whether a line is UTF-8. It is looked at once for all searches on it.
fn is_utf8(line: &[u8], known: &mut Option<bool>) -> bool
    requires known { IfSome known.old (λ b. b ≡ is_utf8 line.now) }
    ensures value { result ≡ is_utf8 line.now }
    ensures known { known.new ≡ Some result }
{
    match *known {
        Some(utf8) => utf8,
        None => {
            let utf8 = is_text(line);
            *known = Some(utf8);
            utf8
        }
    }
}

// Whether a line can be searched for a pattern: in UTF it must be UTF-8.
fn is_searchable(utf: bool, line: &[u8], known: &mut Option<bool>) -> bool
    requires known { IfSome known.old (λ b. b ≡ is_utf8 line.now) }
    ensures value { result ≡ (not utf || is_utf8 line.now) }
    ensures known { IfSome known.new (λ b. b ≡ is_utf8 line.now) }
{
    if !utf {
        return true;
    }
    is_utf8(line, known)
}

// What a search answers that finds no match: nothing, or the number of its error.
fn error_number(e: MatchError) -> Result<Answer, Memory>
    ensures { (g : Setting) → IsMatchError g e
        → IfOk result (λ a. IsUnfound a (search_answer g)) }
{
    match e {
        MatchError::NoMatch { .. } => Ok(Answer::Nothing),
        MatchError::Memory => Err(Memory),
        _ => Ok(Answer::Error(e.number())),
    }
}

// Notes a match with the groups that are shown.
fn note(found: &Found<'_>, wanted: &[u32], list: &mut MatchList) -> Result<Place, Memory>
    ensures { IfOk result (λ place. IsAdded wanted.now list.old list.new place found.now.outcome) }
{
    let place = Place {
        keep: found.start(),
        to: found.end(),
    };
    list.push_place(place)?;
    for group in wanted {
        list.push_group(found.span(*group))?;
    }
    Ok(place)
}

// Searches for one pattern from a start on.
fn try_pattern(
    code: &Code,
    line: &[u8],
    start: usize,
    options: &MatchOptions,
    wanted: &[u32],
    work: &mut Workspace,
) -> Result<Answer, Memory>
    requires begun { start ≤ length line.now }
    requires short { length line.now < 4294967295 }
    requires off { options.now.«partial» ≡ Off }
    requires known { IfSome work.old.utf8 (λ b. b ≡ is_utf8 line.now) }
    ensures known { IfSome work.new.utf8 (λ b. b ≡ is_utf8 line.now) }
    ensures answer { IfOk result (λ a. IsAnswer wanted.now (length line.now)
        work.old.found work.new.found a (pattern_answer options.now line.now start
        (pattern_of code.now.tree))) }
{
    let utf = code.options().utf;
    if !is_searchable(utf, line, &mut work.utf8) {
        return Ok(Answer::Error(NOT_UTF8));
    }
    match code.match_again(line, start, options, &mut work.scratch, &mut NoCallouts) {
        Ok(found) => Ok(Answer::Found(note(&found, wanted, &mut work.found)?)),
        Err(e) => error_number(e),
    }
}

// Whether a text stands nowhere in a line from a start on.
fn lacks(line: &[u8], start: usize, text: &[u8]) -> bool
    requires { start ≤ length line.now }
    ensures { IsTrue result → StandsNowhere text.now line.now start }
{
    match memmem::find(&line[start..], text) {
        None => true,
        Some(_) => false,
    }
}

// Searches for a fixed string that is kept as its text.
fn try_text(
    patterns: &Patterns,
    text: &[u8],
    line: &[u8],
    start: usize,
    options: &MatchOptions,
    wanted: &[u32],
    work: &mut Workspace,
) -> Result<Answer, Memory>
    requires begun { start ≤ length line.now }
    requires short { length line.now < 4294967295 }
    requires off { options.now.«partial» ≡ Off }
    requires known { IfSome work.old.utf8 (λ b. b ≡ is_utf8 line.now) }
    requires spelt { IsSpelling patterns.now.options text.now }
    ensures known { IfSome work.new.utf8 (λ b. b ≡ is_utf8 line.now) }
    ensures answer { IfOk result (λ a. IsAnswer wanted.now (length line.now)
        work.old.found work.new.found a (pattern_answer options.now line.now start
        (spelling patterns.now.options text.now))) }
{
    if lacks(line, start, text) {
        return Ok(Answer::Nothing);
    }
    let code = patterns.spell(text)?;
    try_pattern(&code, line, start, options, wanted, work)
}

// Searches for a pattern as it is kept.
fn try_kept(
    patterns: &Patterns,
    kept: &Kept,
    line: &[u8],
    start: usize,
    options: &MatchOptions,
    wanted: &[u32],
    work: &mut Workspace,
) -> Result<Answer, Memory>
    requires begun { start ≤ length line.now }
    requires short { length line.now < 4294967295 }
    requires off { options.now.«partial» ≡ Off }
    requires known { IfSome work.old.utf8 (λ b. b ≡ is_utf8 line.now) }
    requires kept { IsKept patterns.now.options kept.now }
    ensures known { IfSome work.new.utf8 (λ b. b ≡ is_utf8 line.now) }
    ensures answer { IfOk result (λ a. IsAnswer wanted.now (length line.now)
        work.old.found work.new.found a (pattern_answer options.now line.now start
        (pattern_in patterns.now.options kept.now))) }
{
    match kept {
        Kept::Code(code) => try_pattern(code, line, start, options, wanted, work),
        Kept::Text(text) => try_text(
            patterns,
            text.as_slice(),
            line,
            start,
            options,
            wanted,
            work,
        ),
    }
}

/// Searches for the patterns in order, from a start on. The first that doesn't answer that there is no match ends it; a
/// match is listed with the groups that are wanted.
pub fn first_answer(
    patterns: &Patterns,
    line: &[u8],
    start: usize,
    options: &MatchOptions,
    wanted: &[u32],
    work: &mut Workspace,
) -> Result<Answer, Memory>
    requires begun { start ≤ length line.now }
    requires short { length line.now < 4294967295 }
    requires off { options.now.«partial» ≡ Off }
    requires known { IfSome work.old.utf8 (λ b. b ≡ is_utf8 line.now) }
    ensures known { IfSome work.new.utf8 (λ b. b ≡ is_utf8 line.now) }
    ensures answer { IfOk result (λ a. IsAnswer wanted.now (length line.now)
        work.old.found work.new.found a (first_answer options.now line.now start
        (patterns_in patterns.now))) }
{
    for kept in patterns.kept() {
        match try_kept(patterns, kept, line, start, options, wanted, work)? {
            Answer::Nothing => {}
            answer => return Ok(answer),
        }
    }
    Ok(Answer::Nothing)
}

/// The limits of a plan.
pub fn limits(plan: &GrepPlan) -> MatchOptions
    ensures { result ≡ limits plan.now }
{
    MatchOptions {
        match_limit: plan.match_limit,
        frame_limit: plan.frame_limit,
        ..MatchOptions::PLAIN
    }
}

// The later matches, from the end of the first one. None of them is empty.
fn later(
    plan: &GrepPlan,
    patterns: &Patterns,
    line: &[u8],
    mut start: usize,
    work: &mut Workspace,
) -> Result<Verdict, Memory>
    requires begun { start ≤ length line.now }
    requires short { length line.now < 4294967295 }
    requires known { IfSome work.old.utf8 (λ b. b ≡ is_utf8 line.now) }
    ensures { IfOk result (λ v. (o : Outcome) → Lists plan.now.only_matching (length line.now)
        work.old.found (o ∷ [])
        → IsVerdict plan.now.only_matching (length line.now) work.new.found v
        (with_match o (later plan.now (patterns_in patterns.now) line.now (length line.now + 1)
        start))) }
{
    let wanted = plan.only_matching.as_slice();
    let options = MatchOptions {
        notempty: true,
        ..limits(plan)
    };
    for _turn in 0..line.len() + 1 {
        match first_answer(patterns, line, start, &options, wanted, work)? {
            Answer::Found(place) => start = place.to,
            Answer::Nothing => return Ok(Verdict::Match),
            Answer::Error(n) => return Ok(Verdict::Error(n)),
        }
    }
    Ok(Verdict::Match)
}

// Whether each match of a line is shown.
pub fn shows_each(plan: &GrepPlan) -> bool
    ensures { result ≡ shows_each plan.now }
{
    mode_of(plan) == Mode::Parts && !plan.invert_match
}

/// Searches for the patterns in a line, and lists its matches: the first one, and where the plan shows each match the
/// later ones.
pub fn search_line(
    plan: &GrepPlan,
    patterns: &Patterns,
    line: &[u8],
    work: &mut Workspace,
) -> Result<Verdict, Memory>
    requires { length line.now < 4294967295 }
    ensures { IfOk result (λ v. IsVerdict plan.now.only_matching (length line.now) work.new.found v
        (matches plan.now (patterns_in patterns.now) line.now)) }
{
    let wanted = plan.only_matching.as_slice();
    work.found.clear();
    work.utf8 = None;
    match first_answer(patterns, line, 0, &limits(plan), wanted, work)? {
        Answer::Nothing => Ok(Verdict::NoMatch),
        Answer::Error(n) => Ok(Verdict::Error(n)),
        Answer::Found(place) => {
            if shows_each(plan) {
                later(plan, patterns, line, place.to, work)
            } else {
                Ok(Verdict::Match)
            }
        }
    }
}
