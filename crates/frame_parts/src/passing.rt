//! Runs of one item, and branches, that are refused at once: the item that has to come next takes
//! nothing there, or the simple assertion doesn't hold.
//!
//! By the definition each is a Step, and holds units on the way to what comes next. Where there is
//! room for these, nothing but the Step is left of it.
ghost use Rattle.std.specs.Prelude.{◌≡◌, ◌<◌, ◌≤◌, ◌+◌, true, false, All, IsTrue, MatchOption};
ghost use Rattle.pat_tree.specs.declared.options.PartialMode.TheVariants.{Off};
ghost use Rattle.match_items.specs.Items.{holds};
ghost use Rattle.frame_state.specs.Steps.{over};
ghost use Rattle.frame_state.specs.Ground.{tree_of, IsPart};
ghost use Rattle.frame_state.specs.Machine.{onward};
ghost use Rattle.frame_state.specs.Validity.{IsMany, IsValid};
ghost use Rattle.frame_state.specs.Stops.{IsFurther};
ghost use Rattle.frame_parts.specs.Passing.{HasNumber, needed_classes, is_of_end, AreFar, PassesFar, IsMissing};
ghost use Rattle.frame_parts.specs.Passing.{BeginsWith, Needs, FailsAt, IsFollower, Reaches};

use crate::items::most_of;
use crate::repeats::{branches_of, is_last};
use frame_state::behind::is_behind;
use frame_state::machine::{Next, Spot};
use frame_state::searchable::Searchable;
use frame_store::kinds::KIND_GROUP_OPEN;
use frame_store::{Span, Store};
use pat_tree::{AnchorKind, Item, Node};

/// What a repeat of one item takes at a place.
fn take_further<S: Searchable>(on: &S, part: u32, at: u64) -> Option<u64>
    requires inside { IsPart (S.searched on.now) part }
    requires many { IsMany (S.searched on.now) (tree_of (S.searched on.now) part) }
    requires place { (S.searched on.now).stands at ≡ true }
    ensures { IsFurther (S.searched on.now) (tree_of (S.searched on.now) part) at result }
{
    match on.node(part) {
        Node::OneRepeat { item, .. } => on.take(item, at),
        _ => unreachable!(),
    }
}

/// A run of one item, or a part of it.
#[derive(Clone, Copy)]
pub(crate) struct Further {
    pub count: u32,
    /// The place after it.
    pub to: u64,
}

/// What a part needs at its place, or it fails.
#[derive(Clone, Copy)]
enum Need {
    /// That the item takes something.
    Takes(Item),
    /// That the simple assertion holds.
    Holds(AnchorKind),
}

/// What is needed next.
#[derive(Clone, Copy)]
struct Follower {
    need: Need,
    /// The units that are held before it is tried.
    units: u32,
}

/// The length of the longest newline, in bytes.
const LONGEST_NEWLINE: u64 = 3;

/// Whether the simple assertion holds nowhere but at the subject's end and before a newline there.
fn is_of_end(kind: AnchorKind) -> bool
    ensures { result ≡ is_of_end kind }
{
    matches!(
        kind,
        AnchorKind::Dollar { multi: false, .. } | AnchorKind::SubjectEnd | AnchorKind::EndOrNewline
    )
}

/// Whether the simple assertion can't hold, as the subject goes on too far behind the place.
fn is_far<S: Searchable>(on: &S, kind: AnchorKind, at: u64) -> bool
    ensures { IsTrue result → holds (S.searched on.now).setting.scene kind at ≡ false }
{
    is_of_end(kind) && at < on.length().saturating_sub(LONGEST_NEWLINE)
}

/// Whether what is needed isn't there.
fn is_missing<S: Searchable>(on: &S, need: &Need, at: u64) -> bool
    requires class { All (λ n. n < (S.searched on.now).class_count) (needed_classes need.now) }
    requires place { (S.searched on.now).stands at ≡ true }
    ensures { IsTrue result → IsMissing (S.searched on.now) need.now at }
{
    match need {
        Need::Takes(item) => on.take(item, at).is_none(),
        Need::Holds(kind) => is_far(on, *kind, at) || !on.holds(*kind, at),
    }
}

/// The last place at which, as at each before it but the first, the subject goes on too far for what
/// is needed; 0 where none is known, as in UTF, where a run may go back by more than a byte.
fn last_far<S: Searchable>(on: &S, need: &Need) -> u64
    ensures { AreFar (S.searched on.now) need.now result }
{
    match need {
        Need::Holds(kind) if is_of_end(*kind) && !on.options().utf => {
            on.length().saturating_sub(LONGEST_NEWLINE + 1)
        }
        _ => 0,
    }
}

/// What a part needs first.
fn first_need<S: Searchable>(on: &S, part: u32) -> Option<Need>
    requires off { (S.searched on.now).setting.matching.partial ≡ Off }
    requires inside { IsPart (S.searched on.now) part }
    ensures { MatchOption result (Unit {0}) (λ need. BeginsWith (S.searched on.now) part need) }
{
    match on.node(part) {
        Node::One(item) => Some(Need::Takes(*item)),
        Node::OneRepeat { item, min, .. } if *min > 0 => Some(Need::Takes(*item)),
        Node::Anchor(kind) => Some(Need::Holds(*kind)),
        _ => None,
    }
}

/// What a branch needs first.
fn leading_need<S: Searchable>(on: &S, part: u32) -> Option<Need>
    requires off { (S.searched on.now).setting.matching.partial ≡ Off }
    requires inside { IsPart (S.searched on.now) part }
    ensures { MatchOption result (Unit {0}) (λ need. BeginsWith (S.searched on.now) part need) }
{
    match on.node(part) {
        Node::Seq(kids) => match kids.as_slice() {
            [] => None,
            [first, ..] => first_need(on, *first),
        },
        _ => first_need(on, part),
    }
}

/// What a part needs first, inside a group of one branch too.
fn need_of<S: Searchable>(on: &S, part: u32) -> Option<Follower>
    requires off { (S.searched on.now).setting.matching.partial ≡ Off }
    requires inside { IsPart (S.searched on.now) part }
    ensures needs { MatchOption result (Unit {0})
        (λ f. Needs (S.searched on.now) part f.need f.units) }
    ensures few { MatchOption result (Unit {0}) (λ f. f.units ≤ 1) }
{
    if let Some(need) = first_need(on, part) {
        return Some(Follower { need, units: 0 });
    }
    let Node::Group { number, branches } = on.node(part) else {
        return None;
    };
    let [branch] = branches.as_slice() else {
        return None;
    };
    let Some(need) = leading_need(on, *branch) else {
        return None;
    };
    match number {
        None => Some(Follower { need, units: 0 }),
        Some(_) => Some(Follower { need, units: 1 }),
    }
}

/// Whether a part is a capturing group.
fn is_capture<S: Searchable>(on: &S, part: u32) -> bool
    requires { IsPart (S.searched on.now) part }
    ensures { IsTrue result → HasNumber (S.searched on.now) part }
{
    matches!(
        on.node(part),
        Node::Group {
            number: Some(_),
            ..
        }
    )
}

/// What follows the capturing group whose frame is the innermost.
fn after_group<S: Searchable>(
    on: &S,
    spot: &Spot,
    store: &Store,
    registers: &[Option<Span>],
) -> Option<Follower>
    requires off { (S.searched on.now).setting.matching.partial ≡ Off }
    requires valid { IsValid (S.searched on.now) (over Next.End spot.now store.now registers.now) }
    ensures { MatchOption result (Unit {0})
        (λ f. IsFollower (S.searched on.now) Next.End spot.now.frame store.now.records registers.now
        f.need f.units) }
{
    if spot.frame == 0 {
        return None;
    }
    let frame = store.get(spot.frame as usize - 1);
    if frame.kind != KIND_GROUP_OPEN {
        return None;
    }
    if !is_capture(on, frame.node) {
        return None;
    }
    let Some(next) = on.next(frame.node) else {
        return None;
    };
    let Some(follower) = need_of(on, next) else {
        return None;
    };
    Some(Follower {
        need: follower.need,
        units: follower.units + 1,
    })
}

/// What follows a part in the innermost frame.
fn after_part<S: Searchable>(
    on: &S,
    at: u32,
    spot: &Spot,
    store: &Store,
    registers: &[Option<Span>],
) -> Option<Follower>
    requires off { (S.searched on.now).setting.matching.partial ≡ Off }
    requires inside { IsPart (S.searched on.now) at }
    requires valid { IsValid (S.searched on.now) (over Next.End spot.now store.now registers.now) }
    ensures { MatchOption result (Unit {0})
        (λ f. IsFollower (S.searched on.now) (onward (S.searched on.now) at)
        spot.now.frame store.now.records registers.now f.need f.units) }
{
    let Some(next) = on.next(at) else {
        if on.settles(at) {
            return None;
        }
        return after_group(on, spot, store, registers);
    };
    need_of(on, next)
}

/// Whether the units are there that are held on the way to a follower, and that of a record before
/// it.
fn has_room(limit: u32, spot: &Spot, follower: &Follower) -> bool
    ensures { IsTrue result → spot.now.units + follower.now.units < limit }
{
    spot.units.saturating_add(follower.units) < limit
}

/// Passes over all runs but the shortest, a Step and a byte for each, as far as the Steps go.
fn pass_all(least: u64, last: u64, spot: &mut Spot) -> u64
    ensures { PassesFar least last spot.old spot.new result }
{
    let runs = last.saturating_sub(least).min(u64::from(spot.left));
    spot.left -= runs as u32;
    last - runs
}

/// Passes over the runs of a greedy repeat that are refused at once, a Step for each, and gives the
/// end of the first that isn't, or of the shortest.
pub(crate) fn pass_fewer<S: Searchable>(
    on: &S,
    at: u32,
    least: u64,
    last: u64,
    spot: &mut Spot,
    store: &Store,
    registers: &[Option<Span>],
) -> u64
    requires valid { IsValid (S.searched on.now)
        (over (Next.Fewer at least last) spot.old store.now registers.now) }
    ensures { Reaches (S.searched on.now)
        (over (Next.Fewer at least last) spot.old store.now registers.now)
        (over (Next.Fewer at least result) spot.new store.now registers.now) }
{
    // At the subject's end what is refused may still tell a partial match.
    if !on.is_off() {
        return last;
    }
    let Some(follower) = after_part(on, at, spot, store, registers) else {
        return last;
    };
    if !has_room(on.unit_limit(), spot, &follower) {
        return last;
    }
    let far = last_far(on, &follower.need);
    let nearest = least.max(far);
    let mut to = last;
    'runs: while nearest < to && spot.left > 0 && is_missing(on, &follower.need, to) {
        spot.left -= 1;
        to = on.before(to);
    }
    if to <= far {
        return pass_all(least, to, spot);
    }
    to
}

/// Passes over the runs of a lazy repeat that are refused at once, a Step for each, and gives the
/// first that isn't, or the longest.
pub(crate) fn pass_more<S: Searchable>(
    on: &S,
    at: u32,
    count: u32,
    last: u64,
    spot: &mut Spot,
    store: &Store,
    registers: &[Option<Span>],
) -> Further
    requires valid { IsValid (S.searched on.now)
        (over (Next.More at count last) spot.old store.now registers.now) }
    ensures { Reaches (S.searched on.now)
        (over (Next.More at count last) spot.old store.now registers.now)
        (over (Next.More at result.count result.to) spot.new store.now registers.now) }
{
    let mut run = Further { count, to: last };
    if !on.is_off() {
        return run;
    }
    let Some(follower) = after_part(on, at, spot, store, registers) else {
        return run;
    };
    if !has_room(on.unit_limit(), spot, &follower) {
        return run;
    }
    let most = most_of(on, at);
    'runs: while spot.left > 0
        && !is_last(most, run.count)
        && is_missing(on, &follower.need, run.to)
    {
        let Some(to) = take_further(on, at, run.to) else {
            return run;
        };
        spot.left -= 1;
        run = Further {
            count: run.count + 1,
            to,
        };
    }
    run
}

/// Whether a branch is known to fail at a place.
fn is_refused<S: Searchable>(on: &S, branch: u32, place: u64) -> bool
    requires off { (S.searched on.now).setting.matching.partial ≡ Off }
    requires inside { IsPart (S.searched on.now) branch }
    requires place { (S.searched on.now).stands place ≡ true }
    ensures { IsTrue result → FailsAt (S.searched on.now) branch place }
{
    let Some(need) = leading_need(on, branch) else {
        return false;
    };
    is_missing(on, &need, place)
}

/// Passes over the branches of a part that fail at once, a Step for each, and gives the first that
/// isn't known to, or the last.
pub(crate) fn pass_branches<S: Searchable>(
    on: &S,
    at: u32,
    index: u32,
    spot: &mut Spot,
    store: &Store,
    registers: &[Option<Span>],
) -> u32
    requires valid { IsValid (S.searched on.now)
        (over (Next.Branch at index) spot.old store.now registers.now) }
    ensures { Reaches (S.searched on.now)
        (over (Next.Branch at index) spot.old store.now registers.now)
        (over (Next.Branch at result) spot.new store.now registers.now) }
{
    if is_behind(on, at) || spot.units >= on.unit_limit() || !on.is_off() {
        return index;
    }
    let branches = branches_of(on, at, index);
    let mut to = index;
    'branches: while to as usize + 1 < branches.len()
        && spot.left > 0
        && is_refused(on, *branches.get(to as usize), spot.place)
    {
        spot.left -= 1;
        to += 1;
    }
    to
}
