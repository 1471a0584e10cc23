//! Lines that are passed over without a search.
ghost use Rattle.std.specs.Prelude.{◌≡◌, ◌≢◌, ◌++◌, ◌∷◌, ◌-◌, ℕ, ◌<◌, ◌≤◌, List, [], length, take, IsTrue, IsUtf8};
ghost use Rattle.std.specs.Prelude.{None, Some, Ok, slice_index, MatchOption};
ghost use Rattle.uni_text.specs.Characters.{IsChecked};
ghost use Rattle.pat_needs.specs.Texts.{sets_of};
ghost use Rattle.pat_tree.specs.Pattern.{Pattern};
ghost use Rattle.grep_args.specs.declared.plan.GrepPlan.{GrepPlan};
ghost use Rattle.grep_match.specs.declared.unsearched.Needed.{Needed};
ghost use Rattle.grep_match.specs.Compiled.{patterns_in};
ghost use Rattle.grep_match.specs.Matches.{matches};
ghost use Rattle.grep_watch.specs.Watched.{IsQuiet, Watches, PassesOver, HasQuietRun, ReachesQuiet, HasAsciiNewlines};
ghost use Rattle.grep_watch.specs.Watched.{EndsInAscii, with_quiet};
ghost use Rattle.line_feed.specs.declared.phase.Phase.TheVariants.{Closed};
ghost use Rattle.byte_lanes.specs.declared.line_end.EndKind.TheVariants.{Lf};

use byte_lanes::EndKind;
use grep_args::GrepPlan;
use grep_match::{Needed, Patterns, needed_text};
use line_feed::{Line, LineFeed, Run};
use uni_text::check;

/// What is known of the bytes that a feed holds.
#[derive(Drop)]
pub struct Watch {
    /// A text that every match takes, where one is known and no filter takes its place.
    pub needed: Option<Needed>,
    /// So many bytes a line may have that a filter has passed.
    pub longest: usize,
    /// In so many first bytes the text stands nowhere, as far as is known, and where lines must be UTF-8 these are.
    /// Under a filter lines whose LF is among them have no match, unless they are too long.
    pub quiet: usize,
}

// Each of them is a byte, which is known of a slice once it was read.
pub(crate) fn are_bytes(bytes: &[u8])
    ensures { (k : ℕ) → k < length bytes.now → slice_index bytes.now k < 256 }
{
    let _bytes = bytes;
}

// How many first bytes are UTF-8.
pub(crate) fn valid_len(bytes: &[u8]) -> usize
    ensures within { result ≤ length bytes.now }
    ensures valid { IsUtf8 (take result bytes.now) }
{
    match check(bytes) {
        Ok(()) => bytes.len(),
        Err(bad) => bad.at,
    }
}

// Whether they are UTF-8, where they must be.
fn is_checked(bytes: &[u8], utf: bool) -> bool
    ensures { IsTrue result → IsChecked utf bytes.now }
{
    !utf || check(bytes).is_ok()
}

// In how many first bytes the text stands nowhere; in UTF only as many as are UTF-8.
fn quiet_len(needed: &Needed, held: &[u8]) -> usize
    ensures quiet { IsQuiet (sets_of needed.now.text) held.now result }
    ensures valid { IsChecked needed.now.utf (take result held.now) }
{
    let found = needed.text.find(held);
    if needed.utf {
        valid_len(&held[..found])
    } else {
        found
    }
}

// Whether the kind has no newline past ASCII.
fn has_ascii_newlines(kind: EndKind) -> bool
    ensures { IsTrue result → HasAsciiNewlines kind }
{
    match kind {
        EndKind::Any | EndKind::AnyUtf => false,
        EndKind::Cr | EndKind::Lf | EndKind::CrLf | EndKind::AnyCrLf | EndKind::Nul => true,
    }
}

/// Whether the lines of a feed end in LF.
pub fn ends_in_lf(feed: &LineFeed) -> bool
    ensures { IsTrue result → feed.now.kind ≡ Lf }
{
    feed.kind() == EndKind::Lf
}

// Whether it is an LF.
fn is_lf(end: &[u8]) -> bool
    ensures { IsTrue result → end.now ≡ 10 ∷ [] }
{
    end.len() == 1 && end[0] == 10
}

// Whether a character begins behind each line that the feed gives, where lines must be UTF-8.
fn gives_whole(needed: &Needed, feed: &LineFeed) -> bool
    ensures { IsTrue result → IsTrue needed.now.utf → HasAsciiNewlines feed.now.kind }
{
    !needed.utf || has_ascii_newlines(feed.kind())
}

// Whether the last byte is ASCII.
fn ends_in_ascii(bytes: &[u8]) -> bool
    ensures { IsTrue result → EndsInAscii bytes.now }
{
    !bytes.is_empty() && bytes[bytes.len() - 1] < 128
}

impl Watch {
    /// Nothing is known yet.
    pub fn new(plan: &GrepPlan, patterns: &Patterns) -> Watch
        ensures { (held : List ℕ) → Watches plan.now (patterns_in patterns.now) result held }
    {
        Watch {
            needed: needed_text(plan, patterns),
            longest: 0,
            quiet: 0,
        }
    }

    /// Nothing is known, and a filter will tell.
    pub fn blank() -> Watch
        ensures { (plan : GrepPlan) (patterns : List Pattern) (held : List ℕ)
            → Watches plan patterns result held }
    {
        Watch {
            needed: None,
            longest: 0,
            quiet: 0,
        }
    }

    /// Looks for the text, where it may begin at the next byte.
    #[tactic(auto, using(crate::proofs::Watching::watches_found))]
    pub fn look(&mut self, feed: &LineFeed)
        ensures { (plan : GrepPlan) (patterns : List Pattern)
            → Watches plan patterns self.old feed.now.held
            → Watches plan patterns self.new feed.now.held }
    {
        if self.quiet > 0 {
            return;
        }
        if let Some(needed) = &self.needed {
            self.quiet = quiet_len(needed, feed.held());
        }
    }

    /// Passes over whole lines that are known to have no match. It reads nothing, and may leave some.
    pub fn pass(&mut self, feed: &mut LineFeed)
        requires live { feed.old.phase ≢ Closed }
        requires watch { (plan : GrepPlan) × (patterns : List Pattern)
            × Watches plan patterns self.old feed.old.held }
        ensures { (plan : GrepPlan) (patterns : List Pattern)
            → Watches plan patterns self.old feed.old.held
            → PassesOver plan patterns self.new feed.old feed.new }
    {
        self.look(feed);
        are_bytes(feed.held());
        if let Some(needed) = &self.needed {
            if gives_whole(needed, feed) {
                let passed = feed.pass(self.quiet, needed.most as usize);
                self.quiet = self.quiet.saturating_sub(passed);
            }
        } else if ends_in_lf(feed) {
            let passed = feed.pass(self.quiet, self.longest);
            self.skip(passed);
        }
    }

    /// Whole lines with which the bytes held begin and that are known to have no match, where it finds some.
    pub fn run(&mut self, feed: &LineFeed) -> Option<Run>
        requires live { feed.now.phase ≢ Closed }
        requires watch { (plan : GrepPlan) × (patterns : List Pattern)
            × Watches plan patterns self.old feed.now.held }
        ensures watch { (plan : GrepPlan) (patterns : List Pattern)
            → Watches plan patterns self.old feed.now.held
            → Watches plan patterns self.new feed.now.held }
        ensures run { MatchOption result (Unit {0}) (λ run.
            (plan : GrepPlan) (patterns : List Pattern)
            → Watches plan patterns self.old feed.now.held
            → HasQuietRun plan patterns self.new feed.now run) }
    {
        self.look(feed);
        are_bytes(feed.held());
        if let Some(needed) = &self.needed {
            if gives_whole(needed, feed) {
                return feed.run(self.quiet, needed.most as usize);
            }
        } else if ends_in_lf(feed) {
            return feed.run(self.quiet, self.longest);
        }
        None
    }

    /// In how many of the first bytes held whole lines are known to have no match, where it is known.
    pub fn reach(&mut self, feed: &LineFeed) -> Option<usize>
        requires { (plan : GrepPlan) × (patterns : List Pattern)
            × Watches plan patterns self.old feed.now.held }
        ensures watch { (plan : GrepPlan) (patterns : List Pattern)
            → Watches plan patterns self.old feed.now.held
            → Watches plan patterns self.new feed.now.held }
        ensures reach { MatchOption result (Unit {0}) (λ within.
            (plan : GrepPlan) (patterns : List Pattern)
            → Watches plan patterns self.old feed.now.held
            → ReachesQuiet plan patterns self.new feed.now within) }
    {
        self.look(feed);
        are_bytes(feed.held());
        if let Some(needed) = &self.needed {
            if gives_whole(needed, feed) {
                let within = self.quiet.min(needed.most as usize);
                return Some(within);
            }
        } else if ends_in_lf(feed) {
            let within = self.quiet.min(self.longest);
            return Some(within);
        }
        None
    }

    /// Goes on behind lines of so many bytes in all.
    pub fn skip(&mut self, bytes: usize)
        ensures { self.new ≡ with_quiet self.old (self.old.quiet - bytes) }
    {
        self.quiet = self.quiet.saturating_sub(bytes);
    }

    /// Whether a line with which the bytes begin need not be searched.
    #[tactic(auto, using(crate::proofs::Watching::watches_none))]
    pub fn passes(&self, line: &[u8]) -> bool
        ensures { IsTrue result
            → (plan : GrepPlan) (patterns : List Pattern) (behind : List ℕ)
            → Watches plan patterns self.now (line.now ++ behind)
            → matches plan patterns line.now ≡ Ok [] }
    {
        are_bytes(line);
        let Some(needed) = &self.needed else {
            return false;
        };
        line.len() <= self.quiet
            && line.len() <= needed.most as usize
            && is_checked(line, needed.utf)
    }

    // Whether a filter may look on: no text is looked for, and nothing is known.
    pub(crate) fn wants_filter(&self) -> bool
        ensures { IsTrue result → self.now.needed ≡ None }
    {
        self.quiet == 0 && self.needed.is_none()
    }

    // Whether lines must be UTF-8.
    fn is_utf(&self) -> bool
        ensures { (some : Needed) → self.now.needed ≡ Some some → result ≡ some.utf }
    {
        match &self.needed {
            Some(needed) => needed.utf,
            None => false,
        }
    }

    // Whether what is known stays known behind the line: a character begins there, where lines must be UTF-8, and under
    // a filter a line.
    fn is_whole(&self, line: &Line<'_>) -> bool
        ensures text { IsTrue result → (some : Needed) → self.now.needed ≡ Some some
            → IsTrue some.utf → EndsInAscii line.now.end.now }
        ensures clear { IsTrue result → self.now.needed ≡ None → line.now.end.now ≡ 10 ∷ [] }
    {
        if self.needed.is_none() {
            return is_lf(line.end);
        }
        !self.is_utf() || ends_in_ascii(line.end)
    }

    // How many of the bytes behind a line are quiet, as far as is known.
    fn quiet_behind(&self, line: &Line<'_>) -> usize
        ensures { (plan : GrepPlan) (patterns : List Pattern) (behind : List ℕ)
            → Watches plan patterns self.now
            (line.now.bytes.now ++ line.now.end.now ++ behind)
            → Watches plan patterns (with_quiet self.now result) behind }
    {
        if !self.is_whole(line) {
            return 0;
        }
        let quiet = self.quiet.saturating_sub(line.bytes.len());
        quiet.saturating_sub(line.end.len())
    }

    /// Goes on behind a line.
    pub fn leave(&mut self, line: &Line<'_>)
        ensures { (plan : GrepPlan) (patterns : List Pattern) (behind : List ℕ)
            → Watches plan patterns self.old
            (line.now.bytes.now ++ line.now.end.now ++ behind)
            → Watches plan patterns self.new behind }
    {
        self.quiet = self.quiet_behind(line);
    }
}
