//! Expressions that are found in each line that a pattern matches.
ghost use Rattle.std.specs.Prelude.{◌≡◌, ◌++◌, ◌∷◌, [], IfOk, IfSome, OnOk, false, true};
ghost use Rattle.pat_tree.specs.declared.options.PartialMode.TheVariants.{Off};
ghost use Rattle.regex_hir.specs.Meaning.{meaning};
ghost use Rattle.grep_match.specs.Compiled.{patterns_in, pattern_in, IsKept};
ghost use Rattle.grep_match.specs.Matches.{shows_each};
ghost use Rattle.grep_match.specs.Wider.{Misses, Finds, NoneMatches, SomeMatches, AreWider, AreExact};

use crate::patterns::{Kept, Patterns};
use crate::search::{limits, shows_each};
use grep_args::GrepPlan;
use pat_tree::Memory;
use pcre2_api::{LineShape, MatchOptions};
use regex_hir::Hir;
use std::alloc::Global;

// Longer lines than the first of these that serves are searched: some patterns pass no limit on short lines alone.
const LENGTHS: [u32; 5] = [65_535, 2_047, 511, 127, 63];

// The alternation of more is too large for a search.
const MOST: usize = 16_384;

/// An expression of which a match begins in each line that has a match of a pattern. It may be found in other lines
/// too.
#[derive(Drop)]
pub struct Wider {
    pub hir: Hir,
    /// So many bytes a line may have on which no search is made.
    pub most: u32,
    /// Whether it must be UTF-8 too: a search of another line gives an error.
    pub utf: bool,
    /// Whether a line in which a match of it begins is known to have one.
    pub is_exact: bool,
}

// Adds a branch to the others.
fn push(branches: &mut Vec<Hir>, hir: Hir) -> Result<(), Memory>
    ensures { OnOk result (branches.new.items ≡ branches.old.items ++ hir ∷ []) }
{
    branches.push(hir)?;
    Ok(())
}

// The shape of a pattern as it is kept.
fn shape_of(
    alloc: Global,
    patterns: &Patterns,
    kept: &Kept,
    most: u32,
    matching: &MatchOptions,
) -> Result<Option<LineShape>, Memory>
    requires off { matching.now.«partial» ≡ Off }
    requires kept { IsKept patterns.now.options kept.now }
    ensures misses { IfOk result (λ o. IfSome o (λ shape.
        Misses (pattern_in patterns.now.options kept.now) matching.now most (meaning shape.hir))) }
    ensures finds { IfOk result (λ o. IfSome o (λ shape. shape.is_exact ≡ true
        → Finds (pattern_in patterns.now.options kept.now) matching.now most
        (meaning shape.hir))) }
{
    match kept {
        Kept::Code(code) => code.shape(alloc, most, matching),
        Kept::Text(text) => match patterns.spell(text.as_slice()) {
            Ok(code) => code.shape(alloc, most, matching),
            Err(_) => Err(Memory),
        },
    }
}

// The expression for lines of at most so many bytes.
fn wider_within(
    alloc: Global,
    patterns: &Patterns,
    matching: &MatchOptions,
    most: u32,
) -> Result<Option<Wider>, Memory>
    requires { matching.now.«partial» ≡ Off }
    ensures misses { IfOk result (λ o. IfSome o
        (NoneMatches matching.now (patterns_in patterns.now))) }
    ensures finds { IfOk result (λ o. IfSome o (λ wider. wider.is_exact ≡ true
        → SomeMatches matching.now (patterns_in patterns.now) wider)) }
{
    let mut branches = Vec::new(alloc);
    let mut utf = false;
    let mut is_exact = true;
    for kept in patterns.kept() {
        let Some(shape) = shape_of(alloc, patterns, kept, most, matching)? else {
            return Ok(None);
        };
        push(&mut branches, shape.hir)?;
        utf |= patterns.is_utf(kept);
        is_exact &= shape.is_exact;
    }
    Ok(Some(Wider {
        hir: Hir::Alternation(branches),
        most,
        utf,
        is_exact,
    }))
}

// Where each match of a line is shown it must be searched.
fn for_plan(plan: &GrepPlan, mut wider: Wider) -> Wider
    ensures hir { result.hir ≡ wider.hir }
    ensures most { result.most ≡ wider.most }
    ensures utf { result.utf ≡ wider.utf }
    ensures exact { result.is_exact ≡ true → wider.is_exact ≡ true }
    ensures first { result.is_exact ≡ true → shows_each plan.now ≡ false }
{
    if shows_each(plan) {
        wider.is_exact = false;
    }
    wider
}

/// An expression that is found in each line that has a match, under the limits of the plan: a line before the one in
/// which it is first found isn't searched, nor where it is exact that line. None where no such expression is known, of
/// more than 16,384 patterns, or for want of memory.
pub fn wider_of(alloc: Global, plan: &GrepPlan, patterns: &Patterns) -> Option<Wider>
    ensures wider { IfSome result (AreWider plan.now (patterns_in patterns.now)) }
    ensures exact { IfSome result (λ wider. wider.is_exact ≡ true
        → AreExact plan.now (patterns_in patterns.now) wider) }
{
    if patterns.len() > MOST {
        return None;
    }
    let matching = limits(plan);
    for most in LENGTHS {
        match wider_within(alloc, patterns, &matching, most) {
            Ok(Some(wider)) => return Some(for_plan(plan, wider)),
            Ok(None) => {}
            Err(_) => return None,
        }
    }
    None
}
