//! The search for the first line that may have a match, in all bytes that a feed holds at once.
ghost use Rattle.std.specs.Prelude.{◌≡◌, ◌≢◌, ℕ, ◌<◌, ◌≤◌, List, length, slice_index, take, IfOk, IfSome, true};
ghost use Rattle.uni_text.specs.Characters.{IsChecked};
ghost use Rattle.pat_tree.specs.Pattern.{Pattern};
ghost use Rattle.grep_args.specs.declared.plan.GrepPlan.{GrepPlan};
ghost use Rattle.grep_match.specs.Compiled.{patterns_in};
ghost use Rattle.grep_match.specs.Wider.{AreWider, AreExact};
ghost use Rattle.regex_hir.specs.Meaning.{meaning};
ghost use Rattle.grep_watch.specs.Watched.{Watches, AreClear};
ghost use Rattle.grep_watch.specs.Filtered.{Sifts, Filters, IsKnown, IsSame, Begins};

use crate::watch::{Watch, are_bytes, valid_len};
use byte_lanes::EndKind;
use grep_args::GrepPlan;
use grep_match::{Patterns, Wider, line_end, wider_of};
use line_feed::LineFeed;
use regex_meta::{Program, Searcher};
use std::alloc::Global;

// So many bytes the table of an expression may take; a larger one makes no filter.
const TABLE: usize = 1 << 22;

// A filter that tells only of lines shorter than this isn't made where a text is known that every match takes.
const SHORT: u32 = 2_047;

// After so many looks in a row that passed fewer bytes than `NEAR` it rests for so many: where nearly each line may
// have a match, a look at each costs more than it saves.
const TRIES: u32 = 16;

const NEAR: usize = 64;

const REST: u32 = 240;

/// An expression that is found in each line with a match, made ready for searches.
#[derive(Drop)]
pub struct Sieve {
    program: Program,
    /// So many bytes a line may have of which it tells.
    most: usize,
    /// Whether a line must be UTF-8 too.
    utf: bool,
    /// Whether a line in which it is found has a match.
    is_exact: bool,
}

/// What is known of a line without a search for the patterns.
#[derive(Clone, Copy, Debug, PartialEq, Eq)]
pub enum Known {
    Nothing,
    NoMatch,
    Match,
}

// How many of so many first bytes are UTF-8, where they must be.
fn checked_len(bytes: &[u8], len: usize, utf: bool) -> usize
    requires { len ≤ length bytes.now }
    ensures within { result ≤ len }
    ensures valid { IsChecked utf (take result bytes.now) }
{
    if utf { valid_len(&bytes[..len]) } else { len }
}

// Whether it tells more than the text that is looked for without it.
fn is_worth(wider: &Wider, watch: &Watch) -> bool {
    wider.most >= SHORT || watch.needed.is_none()
}

impl Sieve {
    /// The sieve of a plan's patterns, where their lines end in LF. None where no such expression is known, where it is
    /// too large, where the text that `watch` looks for tells of longer lines, or for want of memory.
    pub fn new(alloc: Global, plan: &GrepPlan, patterns: &Patterns, watch: &Watch) -> Option<Sieve>
        ensures { IfSome result (Sifts plan.now (patterns_in patterns.now)) }
    {
        if line_end(plan) != EndKind::Lf {
            return None;
        }
        let Some(wider) = wider_of(alloc, plan, patterns) else {
            return None;
        };
        if !is_worth(&wider, watch) {
            return None;
        }
        Sieve::of(alloc, wider)
    }

    // The sieve by an expression.
    fn of(alloc: Global, wider: Wider) -> Option<Sieve>
        ensures { (plan : GrepPlan) (patterns : List Pattern) → AreWider plan patterns wider
            → (wider.is_exact ≡ true → AreExact plan patterns wider)
            → IfSome result (Sifts plan patterns) }
    {
        let (most, utf, is_exact) = (wider.most as usize, wider.utf, wider.is_exact);
        match Program::new(alloc, wider.hir, 1, TABLE) {
            Ok(program) => Some(Sieve {
                program,
                most,
                utf,
                is_exact,
            }),
            Err(_) => None,
        }
    }
}

/// A search by a sieve, with its tables, which grow while it runs.
#[derive(Drop)]
pub struct Filter<'p> {
    searcher: Searcher<'p>,
    most: usize,
    utf: bool,
    is_exact: bool,
    /// How many looks in a row passed few bytes.
    near: u32,
    /// For how many looks it rests.
    rest: u32,
}

impl<'p> Filter<'p> {
    /// A filter by a sieve. None for want of memory.
    pub fn new(alloc: Global, sieve: &'p Sieve) -> Option<Filter<'p>>
        ensures { IfSome result (λ filter. (plan : GrepPlan) (patterns : List Pattern)
            → Sifts plan patterns sieve.now → Filters plan patterns filter) }
    {
        match Searcher::new(alloc, &sieve.program) {
            Ok(searcher) => Some(Filter {
                searcher,
                most: sieve.most,
                utf: sieve.utf,
                is_exact: sieve.is_exact,
                near: 0,
                rest: 0,
            }),
            Err(_) => None,
        }
    }

    // The first place at which a match begins, or the end.
    fn first_begin(&mut self, held: &[u8]) -> usize
        ensures first { Begins (meaning self.old.searcher.program.now.hir) held.now result }
        ensures same { IsSame self.old self.new }
    {
        match self.searcher.find(held, 0) {
            Some((start, _)) => start,
            None => held.len(),
        }
    }

    // In how many first bytes all lines have no match.
    fn clear_len(&mut self, held: &[u8]) -> usize
        ensures clear { (plan : GrepPlan) (patterns : List Pattern)
            → Filters plan patterns self.old
            → AreClear plan patterns self.old.most held.now result }
        ensures same { IsSame self.old self.new }
    {
        are_bytes(held);
        let clear = self.first_begin(held).min(held.len().saturating_sub(1));
        checked_len(held, clear, self.utf)
    }

    // Notes that a look passed so many bytes.
    fn note(&mut self, clear: usize)
        ensures { IsSame self.old self.new }
    {
        if clear >= NEAR {
            self.near = 0;
            return;
        }
        self.near = self.near.saturating_add(1);
        if self.near >= TRIES {
            self.near = 0;
            self.rest = REST;
        }
    }

    /// What it tells of a line without LF.
    pub fn tell(&mut self, line: &[u8]) -> Known
        requires { (k : ℕ) → k < length line.now → slice_index line.now k ≢ 10 }
        ensures known { (plan : GrepPlan) (patterns : List Pattern)
            → Filters plan patterns self.old → IsKnown plan patterns line.now result }
        ensures same { (plan : GrepPlan) (patterns : List Pattern)
            → Filters plan patterns self.old → Filters plan patterns self.new }
    {
        are_bytes(line);
        if !self.is_exact || self.utf || line.len() > self.most {
            return Known::Nothing;
        }
        if self.searcher.is_match(line, 0) {
            Known::Match
        } else {
            Known::NoMatch
        }
    }

    /// Looks for the first line that may have a match, where none is known to have none. `watch` then knows that the
    /// lines before it have none.
    pub fn look(&mut self, watch: &mut Watch, feed: &LineFeed)
        ensures watch { (plan : GrepPlan) (patterns : List Pattern)
            → Filters plan patterns self.old → Watches plan patterns watch.old feed.now.held
            → Watches plan patterns watch.new feed.now.held }
        ensures same { (plan : GrepPlan) (patterns : List Pattern)
            → Filters plan patterns self.old → Filters plan patterns self.new }
    {
        if !watch.wants_filter() {
            return;
        }
        if self.rest > 0 {
            self.rest -= 1;
            return;
        }
        let clear = self.clear_len(feed.held());
        watch.longest = self.most;
        watch.quiet = clear;
        self.note(clear);
    }
}
