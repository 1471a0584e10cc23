//! A filter that is handed from one input to the next.
ghost use Rattle.std.specs.Prelude.{List, IfSome};
ghost use Rattle.pat_tree.specs.Pattern.{Pattern};
ghost use Rattle.grep_args.specs.declared.plan.GrepPlan.{GrepPlan};
ghost use Rattle.grep_match.specs.Compiled.{patterns_in};
ghost use Rattle.grep_watch.specs.Filtered.{Sifts, Filters};

use grep_args::GrepPlan;
use grep_match::Patterns;
use grep_watch::{Filter, Sieve, Watch};
use std::alloc::Global;

// From so many inputs on a filter is made before the first of them, since it serves all of them.
const MANY: usize = 64;

/// The sieve of a plan's patterns for so many inputs. None for a few of them, since it takes as long as the scan of some
/// lines, where none is known (`Sieve::new`), or for want of memory.
pub fn sieve_for(
    alloc: Global,
    plan: &GrepPlan,
    patterns: &Patterns,
    inputs: usize,
) -> Option<Sieve>
    ensures { IfSome result (Sifts plan.now (patterns_in patterns.now)) }
{
    if inputs < MANY {
        return None;
    }
    let watch = Watch::new(plan, patterns);
    Sieve::new(alloc, plan, patterns, &watch)
}

/// The filter of a sieve, where there is one and memory is there.
pub fn filter_by(alloc: Global, sieve: &Option<Sieve>) -> Option<Filter<'_>>
    ensures { (plan : GrepPlan) (patterns : List Pattern)
        → IfSome sieve.now (Sifts plan patterns) → IfSome result (Filters plan patterns) }
{
    match sieve {
        Some(sieve) => Filter::new(alloc, sieve),
        None => None,
    }
}
