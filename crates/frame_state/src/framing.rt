//! Where the path goes on, and frames around branches: how they are opened, and how an atomic one is left.
ghost use Rattle.std.specs.Prelude.{◌≡◌, ◌≤◌, ◌<◌, ◌+◌, ◌∷◌, max, length, All, OnOk, IfErr};
ghost use Rattle.frame_store.specs.Stack.{room};
ghost use Rattle.frame_state.specs.Room.{IsShort};
ghost use Rattle.frame_store.specs.Captures.{HasGroup};
ghost use Rattle.frame_state.specs.Ground.{IsPart};
ghost use Rattle.frame_state.specs.Machine.{onward, first_next, first_set};
ghost use Rattle.frame_state.specs.Stops.{IsHeldStop, record_at};

use crate::machine::{Next, Spot, Stop, hold};
use crate::searchable::Searchable;
use frame_store::kinds::KIND_ATOMIC_LEFT;
use frame_store::{Record, Span, Store, captured};
use pat_tree::Kids;

/// Opens the frame of a part: holds a unit more, and pushes a record of this kind.
pub fn open_frame(
    limit: u32,
    kind: u8,
    part: u32,
    spot: &mut Spot,
    store: &mut Store,
) -> Result<(), Stop>
    requires { length store.old.records ≤ spot.old.units }
    ensures room { OnOk result (spot.old.units < limit) }
    ensures spot { OnOk result
        (spot.new
        ≡ record spot.old { frame = length store.new.records; units = spot.old.units + 1 }) }
    ensures pushed { OnOk result (store.new.records ≡ record_at spot.old kind part 0 0 0
        ∷ store.old.records) }
    ensures stop { IfErr result (λ stop. IsHeldStop stop limit spot.old.units) }
    ensures last { spot.new.last ≡ spot.old.last }
    ensures peak { store.new.peak ≤ max store.old.peak limit }
    ensures no_less { room store.old ≤ room store.new }
    ensures short { IfErr result (λ stop. IsShort stop limit store.new) }
{
    let event = spot.record(kind, part, 0, 0, 0);
    if let Err(stop) = hold(limit, event, spot, store) {
        return Err(stop);
    }
    spot.frame = store.len() as u32;
    Ok(())
}

/// Leaves an atomic part by its first outcome: holds a unit more, and pushes the record that gives up what else the
/// part could do, which is all that stands past the height.
pub fn leave(
    limit: u32,
    frame: &Record,
    height: usize,
    spot: &mut Spot,
    store: &mut Store,
) -> Result<(), Stop>
    requires { length store.old.records ≤ spot.old.units }
    ensures room { OnOk result (spot.old.units < limit) }
    ensures spot { OnOk result
        (spot.new
        ≡ record spot.old {
          passed = frame.now.passed;
          frame = frame.now.link;
          units = spot.old.units + 1;
        }) }
    ensures pushed { OnOk result
        (store.new.records ≡ record_at (record spot.old { frame = frame.now.link }) KIND_ATOMIC_LEFT
        frame.now.node 0 height 0 ∷ store.old.records) }
    ensures stop { IfErr result (λ stop. IsHeldStop stop limit spot.old.units) }
    ensures last { spot.new.last ≡ spot.old.last }
    ensures peak { store.new.peak ≤ max store.old.peak limit }
    ensures no_less { room store.old ≤ room store.new }
    ensures short { IfErr result (λ stop. IsShort stop limit store.new) }
{
    spot.frame = frame.link;
    let event = spot.record(KIND_ATOMIC_LEFT, frame.node, 0, height as u64, 0);
    if let Err(stop) = hold(limit, event, spot, store) {
        return Err(stop);
    }
    spot.passed = frame.passed;
    Ok(())
}

/// Where the path goes on after a part.
pub fn go_on<S: Searchable>(on: &S, part: u32) -> Next
    requires { IsPart (S.searched on.now) part }
    ensures { result ≡ onward (S.searched on.now) part }
{
    match on.next(part) {
        None => {
            if on.settles(part) {
                return Next::Settle;
            }
            Next::End
        }
        Some(next) => Next::Enter(next),
    }
}

/// Where a group begins.
pub fn first_branch(part: u32, branches: &Kids) -> Next
    ensures { result ≡ first_next part branches.now }
{
    match branches.as_slice() {
        [] => Next::Back,
        [only] => Next::Enter(*only),
        _ => Next::Branch(part, 0),
    }
}

/// The first set group of the list.
pub fn first_set(groups: &[u16], registers: &[Option<Span>]) -> Option<Span>
    requires { All (HasGroup registers.now) groups.now }
    ensures { result ≡ first_set registers.now groups.now }
{
    let mut i = 0;
    'groups: while i < groups.len() {
        if let Some(span) = captured(registers, u32::from(groups[i])) {
            return Some(span);
        }
        i += 1;
    }
    None
}
