//! Calls of groups, as they begin (pcre2pattern, "Recursive patterns", "Groups as subroutines").
ghost use Rattle.std.specs.Prelude.{◌≡◌, ◌≤◌, ◌<◌, ◌+◌, ◌∷◌, max, length, Option, OnOk, IfOk, IfErr};
ghost use Rattle.pat_tree.specs.declared.nodes.Node.TheVariants as node;
ghost use Rattle.frame_store.specs.Stack.{room};
ghost use Rattle.frame_state.specs.Room.{IsShort};
ghost use Rattle.frame_store.specs.Entry.{CallOpen, entries, entry_of};
ghost use Rattle.ordered_search.specs.Parts.{contains, is_active, is_called, is_called_of};
ghost use Rattle.frame_state.specs.Calls.{AreNested, AreWithin, IsCalling, IsLatest, IsCallee, GoesOn, call_entry};
ghost use Rattle.frame_state.specs.Calls.{call_spot, called_ahead, calls_at};
ghost use Rattle.frame_state.specs.Steps.{over, StepsOn, StopsThere, StopsBy, KeepsPeak, IsShortAt};
ghost use Rattle.frame_state.specs.Ground.{IsNode};
ghost use Rattle.frame_state.specs.Machine.{kept_at};
ghost use Rattle.frame_state.specs.Stops.{IsHeldStop};
ghost use Rattle.frame_state.specs.Validity.{IsValid};

use frame_state::framing::{first_branch, open_frame};
use frame_state::machine::{Next, Spot, Stop, hold};
use frame_state::searchable::Searchable;
use frame_store::kinds::{KIND_CALL_OPEN, KIND_CALLED_GROUP};
use frame_store::{Record, Span, Store};
use pat_tree::{Kids, Node};

/// The record of the latest call that is active in the frame at a height, if there is one.
fn latest_call(store: &Store, frame: u32) -> Option<Record>
    requires nested { AreNested (entries store.now.records) }
    requires within { frame ≤ length store.now.records }
    ensures { IsLatest (entries store.now.records) frame result }
{
    let mut height = frame;
    'frames: while height > 0 {
        let event = *store.get(height as usize - 1);
        if event.kind == KIND_CALL_OPEN {
            return Some(event);
        }
        height = event.link;
    }
    None
}

/// Whether a call of a group that began at a place is active in the frame at a height. A call's record tells how far on
/// the calls around it began, so that the outer ones are mostly not looked at.
fn is_active(store: &Store, frame: u32, group: u16, place: u64) -> bool
    requires nested { AreNested (entries store.now.records) }
    requires within { frame ≤ length store.now.records }
    ensures { result ≡ is_active group place (calls_at (entries store.now.records) frame) }
{
    let mut height = frame;
    'calls: loop {
        match latest_call(store, height) {
            None => return false,
            Some(call) => {
                if call.slot == group && call.place == place {
                    return true;
                }
                if call.from < place {
                    return false;
                }
                height = call.link;
            }
        }
    }
}

/// Whether some call is active in the frame at a height.
pub(crate) fn in_call(store: &Store, frame: u32) -> bool
    requires nested { AreNested (entries store.now.records) }
    requires within { frame ≤ length store.now.records }
    ensures { result ≡ is_called (calls_at (entries store.now.records) frame) }
{
    match latest_call(store, frame) {
        None => false,
        Some(_) => true,
    }
}

/// Whether a number is in a list.
fn is_in(numbers: &[u16], number: u16) -> bool
    ensures { result ≡ contains numbers.now number }
{
    let mut i = 0;
    'numbers: while i < numbers.len() {
        if numbers[i] == number {
            return true;
        }
        i += 1;
    }
    false
}

/// Whether the latest call that is active in the frame at a height is of one of these groups.
pub(crate) fn in_call_of(store: &Store, frame: u32, groups: &[u16]) -> bool
    requires nested { AreNested (entries store.now.records) }
    requires within { frame ≤ length store.now.records }
    ensures { result ≡ is_called_of (calls_at (entries store.now.records) frame) groups.now }
{
    match latest_call(store, frame) {
        None => false,
        Some(call) => is_in(groups, call.slot),
    }
}

/// How far on a call at a place begins, or one that is active in the frame at a height.
fn last_place(store: &Store, frame: u32, place: u64) -> u64
    requires nested { AreNested (entries store.now.records) }
    requires within { frame ≤ length store.now.records }
    ensures here { place ≤ result }
    ensures around { AreWithin result (calls_at (entries store.now.records) frame) }
{
    match latest_call(store, frame) {
        None => place,
        Some(call) => call.from.max(place),
    }
}

/// The record of a call of a group at a part.
fn call_record(spot: &Spot, at: u32, group: u16, last: u64) -> Record
    ensures { entry_of result ≡ CallOpen (record { node = at; link = spot.now.frame })
        (kept_at spot.now) group last }
{
    let mut event = spot.record(KIND_CALL_OPEN, at, 0, last, 0);
    event.slot = group;
    event
}

/// Opens the frame of a call of a group at a part: takes a Step, holds a unit more, and pushes its record.
fn open_call(
    limit: u32,
    at: u32,
    group: u16,
    last: u64,
    spot: &mut Spot,
    store: &mut Store,
) -> Result<(), Stop>
    requires counted { length store.old.records ≤ spot.old.units }
    requires some { 0 < spot.old.left }
    ensures room { OnOk result (spot.old.units < limit) }
    ensures spot { OnOk result (spot.new ≡ call_spot spot.old (length store.old.records)) }
    ensures pushed { OnOk result (entries store.new.records ≡ call_entry spot.old at group last ∷
        entries store.old.records) }
    ensures stop { IfErr result (λ stop. IsHeldStop stop limit spot.old.units) }
    ensures last { spot.new.last ≡ spot.old.last }
    ensures peak { store.new.peak ≤ max store.old.peak limit }
    ensures no_less { room store.old ≤ room store.new }
    ensures short { IfErr result (λ stop. IsShort stop limit store.new) }
{
    let event = call_record(spot, at, group, last);
    if let Err(stop) = hold(limit, event, spot, store) {
        return Err(stop);
    }
    spot.frame = store.len() as u32;
    spot.left -= 1;
    Ok(())
}

/// Calls a group.
pub fn enter_call<S: Searchable>(
    on: &S,
    at: u32,
    group: u16,
    spot: &mut Spot,
    store: &mut Store,
    registers: &[Option<Span>],
) -> Result<Next, Stop>
    requires valid { IsValid (S.searched on.now)
        (over (Next.Enter at) spot.old store.old registers.now) }
    requires node { IsNode (S.searched on.now) at (node.Call group) }
    ensures on { StepsOn (S.searched on.now) (over (Next.Enter at) spot.old store.old registers.now)
        spot.new store.new registers.now result }
    ensures stop { StopsThere (S.searched on.now)
        (over (Next.Enter at) spot.old store.old registers.now) spot.new registers.now result }
    ensures peak { KeepsPeak (S.searched on.now) store.old store.new }
    ensures no_less { room store.old ≤ room store.new }
    ensures short { IsShortAt (S.searched on.now) store.new result }
{
    if spot.left == 0 {
        return Err(Stop::MatchLimit);
    }
    if is_active(store, spot.frame, group, spot.place) {
        return Err(Stop::Loop);
    }
    let last = last_place(store, spot.frame, spot.place);
    if let Err(stop) = open_call(on.unit_limit(), at, group, last, spot, store) {
        return Err(stop);
    }
    match on.group(group) {
        None => Ok(Next::Back),
        Some(part) => run_called(on, part, spot, store, registers),
    }
}

/// Runs the part that is called, in the frame of its call.
fn run_called<S: Searchable>(
    on: &S,
    part: u32,
    spot: &mut Spot,
    store: &mut Store,
    registers: &[Option<Span>],
) -> Result<Next, Stop>
    requires calling { IsCalling (S.searched on.now) spot.old (entries store.old.records)
        registers.now }
    requires callee { IsCallee (S.searched on.now) part }
    ensures on { IfOk result (λ next. GoesOn (S.searched on.now) spot.old
        (called_ahead (S.searched on.now) part spot.old (entries store.old.records) registers.now)
        (over next spot.new store.new registers.now)) }
    ensures stop { StopsBy (S.searched on.now) spot.old
        (called_ahead (S.searched on.now) part spot.old (entries store.old.records) registers.now)
        spot.new registers.now result }
    ensures peak { KeepsPeak (S.searched on.now) store.old store.new }
    ensures no_less { room store.old ≤ room store.new }
    ensures short { IsShortAt (S.searched on.now) store.new result }
{
    match on.node(part) {
        Node::Group { number, branches } => {
            run_group(on, part, *number, branches, spot, store, registers)
        }
        _ => Ok(Next::Enter(part)),
    }
}

/// Runs a group that is called. A capturing one is a frame, whose end is told from that in the course of the pattern.
fn run_group<S: Searchable>(
    on: &S,
    part: u32,
    number: Option<u16>,
    branches: &Kids,
    spot: &mut Spot,
    store: &mut Store,
    registers: &[Option<Span>],
) -> Result<Next, Stop>
    requires calling { IsCalling (S.searched on.now) spot.old (entries store.old.records)
        registers.now }
    requires callee { IsCallee (S.searched on.now) part }
    requires node { IsNode (S.searched on.now) part (node.Group number branches.now) }
    ensures on { IfOk result (λ next. GoesOn (S.searched on.now) spot.old
        (called_ahead (S.searched on.now) part spot.old (entries store.old.records) registers.now)
        (over next spot.new store.new registers.now)) }
    ensures stop { StopsBy (S.searched on.now) spot.old
        (called_ahead (S.searched on.now) part spot.old (entries store.old.records) registers.now)
        spot.new registers.now result }
    ensures peak { KeepsPeak (S.searched on.now) store.old store.new }
    ensures no_less { room store.old ≤ room store.new }
    ensures short { IsShortAt (S.searched on.now) store.new result }
{
    let Some(_) = number else {
        return Ok(Next::Enter(part));
    };
    if let Err(stop) = open_frame(on.unit_limit(), KIND_CALLED_GROUP, part, spot, store) {
        return Err(stop);
    }
    Ok(first_branch(part, branches))
}
