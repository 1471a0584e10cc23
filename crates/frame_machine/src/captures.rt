//! How a register is written, and what takes it back.
ghost use Rattle.std.specs.Prelude.{◌≡◌, ◌≤◌, ◌<◌, ◌+◌, ◌∷◌, max, length, IfErr, OnOk, Some};
ghost use Rattle.frame_store.specs.Stack.{room};
ghost use Rattle.frame_store.specs.Captures.{HasGroup, capture, with_capture};
ghost use Rattle.frame_store.specs.Entry.{Undo, entries, entry_of};
ghost use Rattle.frame_state.specs.Room.{IsShort};
ghost use Rattle.frame_state.specs.Stops.{IsHeldStop, held_spot};

use frame_state::machine::{Spot, Stop, hold};
use frame_store::kinds::KIND_UNDO;
use frame_store::{Record, Span, Store, captured, set_captured};

/// The record that keeps what a register holds before it is written.
fn undo_record(spot: &Spot, link: u32, node: u32, slot: u16, old: Option<Span>) -> Record
    ensures { entry_of result ≡ Undo (record { node = node; link = link }) slot old }
{
    let mut undo = spot.record(KIND_UNDO, node, 0, 0, 0);
    undo.slot = slot;
    undo.link = link;
    match old {
        None => undo,
        Some(span) => {
            undo.count = 1;
            undo.from = span.from;
            undo.to = span.to;
            undo
        }
    }
}

/// Writes a group's register at the end of a frame: holds a unit more, and leaves an undo record.
pub(crate) fn write(
    limit: u32,
    frame: &Record,
    group: u16,
    value: Option<Span>,
    spot: &mut Spot,
    store: &mut Store,
    registers: &mut [Option<Span>],
) -> Result<(), Stop>
    requires group { HasGroup registers.old group }
    requires counted { length store.old.records ≤ spot.old.units }
    ensures set { OnOk result (registers.new ≡ with_capture registers.old group value) }
    ensures room { OnOk result (spot.old.units < limit) }
    ensures spot { OnOk result (spot.new ≡ held_spot spot.old) }
    ensures pushed { OnOk result
        (entries store.new.records
        ≡ Undo (record { node = frame.now.node; link = frame.now.link }) group
        (capture registers.old group) ∷ entries store.old.records) }
    ensures stop { IfErr result (λ stop. IsHeldStop stop limit spot.old.units) }
    ensures last { spot.new.last ≡ spot.old.last }
    ensures peak { store.new.peak ≤ max store.old.peak limit }
    ensures no_less { room store.old ≤ room store.new }
    ensures short { IfErr result (λ stop. IsShort stop limit store.new) }
{
    let old = captured(registers, u32::from(group));
    let undo = undo_record(spot, frame.link, frame.node, group, old);
    if let Err(stop) = hold(limit, undo, spot, store) {
        return Err(stop);
    }
    set_captured(registers, u32::from(group), value);
    Ok(())
}

/// Writes the capture of a group that ends where the path stands, and leaves its frame.
pub(crate) fn close_frame(
    limit: u32,
    frame: &Record,
    group: u16,
    spot: &mut Spot,
    store: &mut Store,
    registers: &mut [Option<Span>],
) -> Result<(), Stop>
    requires group { HasGroup registers.old group }
    requires counted { length store.old.records ≤ spot.old.units }
    ensures set { OnOk result
        (registers.new
        ≡ with_capture registers.old group
        (Some (record { from = frame.now.place; to = spot.old.place }))) }
    ensures room { OnOk result (spot.old.units < limit) }
    ensures spot { OnOk result
        (spot.new ≡ record spot.old { frame = frame.now.link; units = spot.old.units + 1 }) }
    ensures pushed { OnOk result
        (entries store.new.records
        ≡ Undo (record { node = frame.now.node; link = frame.now.link }) group
        (capture registers.old group) ∷ entries store.old.records) }
    ensures stop { IfErr result (λ stop. IsHeldStop stop limit spot.old.units) }
    ensures last { spot.new.last ≡ spot.old.last }
    ensures peak { store.new.peak ≤ max store.old.peak limit }
    ensures no_less { room store.old ≤ room store.new }
    ensures short { IfErr result (λ stop. IsShort stop limit store.new) }
{
    let text = Span {
        from: frame.place,
        to: spot.place,
    };
    if let Err(stop) = write(limit, frame, group, Some(text), spot, store, registers) {
        return Err(stop);
    }
    spot.frame = frame.link;
    Ok(())
}
