//! Alternatives and repeats of a group.
ghost use Rattle.std.specs.Prelude.{◌≡◌, ◌≤◌, ◌<◌, ◌+◌, max, Some, None, true, false, []};
ghost use Rattle.frame_store.specs.Stack.{room};
ghost use Rattle.frame_store.specs.Entry.{entry_of};
ghost use Rattle.pat_tree.specs.Nested as tree;
ghost use Rattle.match_items.specs.Items.{is_none_left};
ghost use Rattle.frame_state.specs.Steps.{over, StepsOn, StopsThere, KeepsPeak, IsShortAt};
ghost use Rattle.frame_state.specs.Ground.{tree_of, IsPart};
ghost use Rattle.frame_state.specs.Machine.{less};
ghost use Rattle.frame_state.specs.Branches.{AreBranches};
ghost use Rattle.frame_state.specs.Validity.{IsValid, HasBranch, IsRepeat};
ghost use Rattle.frame_state.specs.Stops.{turn_entry};

use crate::passing::pass_branches;
use frame_state::behind::{begin_branch, is_behind};
use frame_state::framing::go_on;
use frame_state::machine::{Next, Spot, Stop, hold};
use frame_state::searchable::Searchable;
use frame_store::kinds::{KIND_LATER_BRANCH, KIND_LATER_TURN, KIND_TURN_OPEN, KIND_TURN_OR_EXIT};
use frame_store::{Record, Span, Store};
use pat_tree::{Kids, Node};

/// A repeat of a group.
#[derive(Clone, Copy)]
pub struct Turns {
    pub body: u32,
    pub min: u32,
    pub max: Option<u32>,
    pub lazy: bool,
}

/// A maximum as a wider number.
pub(crate) fn widen(max: Option<u16>) -> Option<u32>
    ensures { result ≡ max }
{
    match max {
        None => None,
        Some(max) => Some(u32::from(max)),
    }
}

/// Whether a maximum is reached after so many.
pub(crate) fn is_last(max: Option<u32>, count: u32) -> bool
    ensures { result ≡ is_none_left (less count max) }
{
    match max {
        None => false,
        Some(max) => max.saturating_sub(count) == 0,
    }
}

/// The repeat of a group that a part is.
pub fn turns_of<S: Searchable>(on: &S, part: u32) -> Turns
    requires inside { IsPart (S.searched on.now) part }
    requires repeat { IsRepeat (S.searched on.now) (tree_of (S.searched on.now) part) }
    ensures is { tree.repeat (tree_of (S.searched on.now) result.body) result.min result.max
        result.lazy ≡ tree_of (S.searched on.now) part }
    ensures body { IsPart (S.searched on.now) result.body }
    ensures alone { (S.searched on.now).rest result.body ≡ [] }
    ensures framed { (S.searched on.now).branch result.body ≡ None }
    ensures unlooked { (S.searched on.now).look_branch result.body ≡ None }
{
    match on.node(part) {
        Node::Repeat {
            body,
            min,
            max,
            lazy,
        } => Turns {
            body: *body,
            min: u32::from(*min),
            max: widen(*max),
            lazy: *lazy,
        },
        _ => unreachable!(),
    }
}

/// The branches of a part that has one of this number.
pub(crate) fn branches_of<S: Searchable>(on: &S, part: u32, index: u32) -> &Kids
    requires inside { IsPart (S.searched on.now) part }
    requires some { HasBranch (S.searched on.now) (tree_of (S.searched on.now) part) index }
    ensures { AreBranches (S.searched on.now) part result.now }
{
    match on.node(part) {
        Node::Group { branches, .. } => branches,
        Node::Atomic(branches) => branches,
        Node::Look { branches, .. } => branches,
        _ => unreachable!(),
    }
}

/// Tries a branch of a part, and leaves those after it.
pub fn branch<S: Searchable>(
    on: &S,
    at: u32,
    index: u32,
    spot: &mut Spot,
    store: &mut Store,
    registers: &[Option<Span>],
) -> Result<Next, Stop>
    requires valid { IsValid (S.searched on.now)
        (over (Next.Branch at index) spot.old store.old registers.now) }
    ensures on { StepsOn (S.searched on.now)
        (over (Next.Branch at index) spot.old store.old registers.now)
        spot.new store.new registers.now result }
    ensures stop { StopsThere (S.searched on.now)
        (over (Next.Branch at index) spot.old store.old registers.now)
        spot.new registers.now result }
    ensures peak { KeepsPeak (S.searched on.now) store.old store.new }
    ensures no_less { room store.old ≤ room store.new }
    ensures short { IsShortAt (S.searched on.now) store.new result }
{
    let index = pass_branches(on, at, index, spot, store, registers);
    let branches = branches_of(on, at, index);
    let behind = is_behind(on, at);
    let first = *branches.get(index as usize);
    if spot.left == 0 {
        return Err(Stop::MatchLimit);
    }
    if index as usize + 1 >= branches.len() {
        spot.left -= 1;
        return Ok(begin_branch(on, behind, first, spot));
    }
    let record = spot.record(KIND_LATER_BRANCH, at, index + 1, 0, 0);
    if let Err(stop) = hold(on.unit_limit(), record, spot, store) {
        return Err(stop);
    }
    spot.left -= 1;
    Ok(begin_branch(on, behind, first, spot))
}

/// Offers a further turn of a repeat after so many turns, and its exit.
pub fn offer<S: Searchable>(
    on: &S,
    at: u32,
    count: u32,
    spot: &mut Spot,
    store: &mut Store,
    registers: &[Option<Span>],
) -> Result<Next, Stop>
    requires valid { IsValid (S.searched on.now)
        (over (Next.Offer at count) spot.old store.old registers.now) }
    ensures on { StepsOn (S.searched on.now)
        (over (Next.Offer at count) spot.old store.old registers.now)
        spot.new store.new registers.now result }
    ensures stop { StopsThere (S.searched on.now)
        (over (Next.Offer at count) spot.old store.old registers.now)
        spot.new registers.now result }
    ensures peak { KeepsPeak (S.searched on.now) store.old store.new }
    ensures no_less { room store.old ≤ room store.new }
    ensures short { IsShortAt (S.searched on.now) store.new result }
{
    let turns = turns_of(on, at);
    if count < turns.min {
        return Ok(Next::Begin(at, count, false));
    }
    if is_last(turns.max, count) {
        return Ok(go_on(on, at));
    }
    if !turns.lazy {
        return Ok(Next::Begin(at, count, true));
    }
    let record = spot.record(KIND_LATER_TURN, at, count, 0, 0);
    if let Err(stop) = hold(on.unit_limit(), record, spot, store) {
        return Err(stop);
    }
    Ok(go_on(on, at))
}

/// The record of a turn after so many turns. Where it exits, the repeat can still end before it.
fn turn_record(spot: &Spot, at: u32, count: u32, exits: bool) -> Record
    ensures { entry_of result ≡ turn_entry spot.now at count exits }
{
    if exits {
        spot.record(KIND_TURN_OR_EXIT, at, count, 0, 0)
    } else {
        spot.record(KIND_TURN_OPEN, at, count, 0, 0)
    }
}

/// Begins a further turn of a repeat after so many turns.
pub fn begin<S: Searchable>(
    on: &S,
    at: u32,
    count: u32,
    exits: bool,
    spot: &mut Spot,
    store: &mut Store,
    registers: &[Option<Span>],
) -> Result<Next, Stop>
    requires valid { IsValid (S.searched on.now)
        (over (Next.Begin at count exits) spot.old store.old registers.now) }
    ensures on { StepsOn (S.searched on.now)
        (over (Next.Begin at count exits) spot.old store.old registers.now)
        spot.new store.new registers.now result }
    ensures stop { StopsThere (S.searched on.now)
        (over (Next.Begin at count exits) spot.old store.old registers.now)
        spot.new registers.now result }
    ensures peak { KeepsPeak (S.searched on.now) store.old store.new }
    ensures no_less { room store.old ≤ room store.new }
    ensures short { IsShortAt (S.searched on.now) store.new result }
{
    let turns = turns_of(on, at);
    if spot.left == 0 {
        return Err(Stop::MatchLimit);
    }
    let record = turn_record(spot, at, count, exits);
    if let Err(stop) = hold(on.unit_limit(), record, spot, store) {
        return Err(stop);
    }
    spot.frame = store.len() as u32;
    spot.left -= 1;
    Ok(Next::Enter(turns.body))
}
