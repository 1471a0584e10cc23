//! Calls of groups, as they end: the captures are those of the call's begin again (pcre2pattern, "Recursive patterns").
ghost use Rattle.std.specs.Prelude.{◌≡◌, ◌≤◌, ◌<◌, ◌+◌, ◌∷◌, max, length, All, true, false, Option, IfErr, OnOk};
ghost use Rattle.std.specs.Prelude.{Some, reverse, slice_get};
ghost use Rattle.frame_store.specs.Stack.{room};
ghost use Rattle.frame_state.specs.Room.{IsShort};
ghost use Rattle.frame_store.specs.Captures.{HasGroup, capture, with_capture};
ghost use Rattle.frame_store.specs.Entry.{Undo, entries, site_of};
ghost use Rattle.frame_store.specs.Stack.{past};
ghost use Rattle.frame_store.specs.Undo.{HasSlot, undone};
ghost use Rattle.ordered_search.specs.Stream.{changes, same_span};
ghost use Rattle.frame_state.specs.Calls.{AreRestored, IsReturnStop, trail};
ghost use Rattle.frame_state.specs.Steps.{over, StepsOn, StopsThere, KeepsPeak, IsShortAt};
ghost use Rattle.frame_state.specs.Stops.{IsHeldStop, held_spot};
ghost use Rattle.frame_state.specs.Validity.{IsValid};

use crate::captures::{close_frame, write};
use crate::ends::number_of;
use frame_state::framing::go_on;
use frame_state::machine::{Next, Spot, Stop};
use frame_state::searchable::Searchable;
use frame_store::kinds::{KIND_CALL_OPEN, KIND_CALLED_GROUP};
use frame_store::{Record, Span, Store, captured};

/// Writes the capture of a called group where it has ended, and then its call ends.
pub(crate) fn close_called<S: Searchable>(
    on: &S,
    frame: &Record,
    height: usize,
    spot: &mut Spot,
    store: &mut Store,
    registers: &mut [Option<Span>],
) -> Result<Next, Stop>
    requires valid { IsValid (S.searched on.now) (over Next.End spot.old store.old registers.old) }
    requires frame { spot.old.frame ≡ height + 1 }
    requires at { slice_get (reverse store.old.records) height ≡ Some frame.now }
    requires kind { frame.now.kind ≡ KIND_CALLED_GROUP }
    ensures on { StepsOn (S.searched on.now) (over Next.End spot.old store.old registers.old)
        spot.new store.new registers.new result }
    ensures stop { StopsThere (S.searched on.now) (over Next.End spot.old store.old registers.old)
        spot.new registers.new result }
    ensures peak { KeepsPeak (S.searched on.now) store.old store.new }
    ensures no_less { room store.old ≤ room store.new }
    ensures short { IsShortAt (S.searched on.now) store.new result }
{
    let number = number_of(on, frame.node);
    if let Err(stop) = close_frame(on.unit_limit(), frame, number, spot, store, registers) {
        return Err(stop);
    }
    Ok(Next::End)
}

/// Whether two captures are the same text, or both none.
fn same_span(a: Option<Span>, b: Option<Span>) -> bool
    ensures { result ≡ same_span a b }
{
    match (a, b) {
        (None, None) => true,
        (Some(a), Some(b)) => a.from == b.from && a.to == b.to,
        _ => false,
    }
}

/// Gives a register a value back. Where it changes, it holds a unit more, and leaves an undo record.
fn restore_one(
    limit: u32,
    frame: &Record,
    group: u16,
    value: Option<Span>,
    spot: &mut Spot,
    store: &mut Store,
    registers: &mut [Option<Span>],
) -> Result<(), Stop>
    requires group { HasGroup registers.old group }
    requires counted { length store.old.records ≤ spot.old.units }
    ensures set { OnOk result (registers.new ≡ with_capture registers.old group value) }
    ensures kept { OnOk result (same_span (capture registers.old group) value ≡ true →
        (spot.new ≡ spot.old) × (store.new.records ≡ store.old.records)) }
    ensures room { OnOk result
        (same_span (capture registers.old group) value ≡ false → spot.old.units < limit) }
    ensures spot { OnOk result
        (same_span (capture registers.old group) value ≡ false → spot.new ≡ held_spot spot.old) }
    ensures pushed { OnOk result (same_span (capture registers.old group) value ≡ false →
        entries store.new.records
        ≡ Undo (record { node = frame.now.node; link = frame.now.link }) group
        (capture registers.old group) ∷ entries store.old.records) }
    ensures stop { IfErr result (λ stop. IsHeldStop stop limit spot.old.units) }
    ensures last { spot.new.last ≡ spot.old.last }
    ensures differs { IfErr result (λ stop. same_span (capture registers.old group) value ≡ false) }
    ensures peak { store.new.peak ≤ max store.old.peak limit }
    ensures no_less { room store.old ≤ room store.new }
    ensures short { IfErr result (λ stop. IsShort stop limit store.new) }
{
    let now = captured(registers, u32::from(group));
    if same_span(now, value) {
        return Ok(());
    }
    if let Err(stop) = write(limit, frame, group, value, spot, store, registers) {
        return Err(stop);
    }
    Ok(())
}

/// The number of registers.
fn count(registers: &[Option<Span>]) -> u16
    requires { length registers.now ≤ 65535 }
    ensures { result ≡ length registers.now }
{
    registers.len() as u16
}

/// Gives all registers the values of others back.
fn restore(
    limit: u32,
    frame: &Record,
    entry: &[Option<Span>],
    spot: &mut Spot,
    store: &mut Store,
    registers: &mut [Option<Span>],
) -> Result<(), Stop>
    requires same { length registers.old ≡ length entry.now }
    requires numbered { length entry.now ≤ 65535 }
    requires counted { length store.old.records ≤ spot.old.units }
    requires few { spot.old.units ≤ limit }
    ensures restored { OnOk result (AreRestored (site_of frame.now) entry.now 0
        (trail registers.old (entries store.old.records))
        (trail registers.new (entries store.new.records))) }
    ensures spot { OnOk result
        (spot.new ≡ record spot.old { units = spot.old.units + changes registers.old entry.now }) }
    ensures few { OnOk result (spot.new.units ≤ limit) }
    ensures stop { IfErr result
        (λ stop. IsReturnStop stop limit (spot.old.units + changes registers.old entry.now)) }
    ensures last { spot.new.last ≡ spot.old.last }
    ensures peak { store.new.peak ≤ max store.old.peak limit }
    ensures no_less { room store.old ≤ room store.new }
    ensures short { IfErr result (λ stop. IsShort stop limit store.new) }
{
    let mut group = count(entry);
    'groups: while group > 0 {
        let value = captured(entry, u32::from(group));
        if let Err(stop) = restore_one(limit, frame, group, value, spot, store, registers) {
            return Err(stop);
        }
        group -= 1;
    }
    Ok(())
}

/// Takes over in a bank the captures that stood when only so many of the oldest records did.
fn captures_at(
    store: &mut Store,
    height: usize,
    registers: &[Option<Span>],
    bank: &mut [Option<Span>],
)
    requires within { height ≤ length store.old.records }
    requires slots { All (HasSlot registers.now) (past height (entries store.old.records)) }
    requires same { length bank.old ≡ length registers.now }
    ensures taken { bank.new ≡ undone (past height (entries store.old.records)) registers.now }
    ensures kept { store.new ≡ store.old }
{
    bank.copy_from_slice(registers);
    // Without groups there is nothing to look for.
    if registers.is_empty() {
        return;
    }
    store.give_back(height, bank);
}

/// Leaves a call, which can be backtracked into: its records stay. `bank` serves for the captures at its begin.
pub(crate) fn leave_call<S: Searchable>(
    on: &S,
    frame: &Record,
    height: usize,
    spot: &mut Spot,
    store: &mut Store,
    registers: &mut [Option<Span>],
    bank: &mut [Option<Span>],
) -> Result<Next, Stop>
    requires valid { IsValid (S.searched on.now) (over Next.End spot.old store.old registers.old) }
    requires frame { spot.old.frame ≡ height + 1 }
    requires at { slice_get (reverse store.old.records) height ≡ Some frame.now }
    requires kind { frame.now.kind ≡ KIND_CALL_OPEN }
    requires bank { length bank.old ≡ (S.searched on.now).setting.groups }
    ensures bank { length bank.new ≡ length bank.old }
    ensures on { StepsOn (S.searched on.now) (over Next.End spot.old store.old registers.old)
        spot.new store.new registers.new result }
    ensures stop { StopsThere (S.searched on.now) (over Next.End spot.old store.old registers.old)
        spot.new registers.new result }
    ensures peak { KeepsPeak (S.searched on.now) store.old store.new }
    ensures no_less { room store.old ≤ room store.new }
    ensures short { IsShortAt (S.searched on.now) store.new result }
{
    captures_at(store, height, registers, bank);
    if let Err(stop) = restore(on.unit_limit(), frame, bank, spot, store, registers) {
        return Err(stop);
    }
    spot.frame = frame.link;
    Ok(go_on(on, frame.node))
}
