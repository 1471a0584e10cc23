//! The stack of records, and the registers that it gives back.
ghost use Rattle.std.specs.Prelude.{◌≡◌, ◌<◌, length, All};
ghost use Rattle.frame_store.specs.Captures.{HasGroup};
ghost use Rattle.frame_store.specs.Entry.{entries};
ghost use Rattle.frame_store.specs.Undo.{HasSlot};

use frame_store::kinds::{KIND_TURN_OPEN, KIND_UNDO};
use frame_store::{Memory, Record, Registers, Span, Store, captured, set_captured};
use std::alloc::Global;
use std::test::Fail;

/// A record of a kind for a register, which keeps this value.
fn make_record(kind: u8, slot: u16, value: Option<Span>) -> Record
    ensures kind { result.kind ≡ kind }
    ensures slot { result.slot ≡ slot }
{
    let (count, from, to) = match value {
        Some(span) => (1, span.from, span.to),
        None => (0, 0, 0),
    };
    Record {
        kind,
        slot,
        node: 7,
        link: 0,
        mark: 0,
        passed: 0,
        units: 1,
        count,
        place: 3,
        keep: 3,
        early: 3,
        from,
        to,
    }
}

/// A record that is no undo record, told from others by its slot.
fn numbered(slot: u16) -> Record
    ensures kind { result.kind ≡ KIND_TURN_OPEN }
    ensures slot { result.slot ≡ slot }
{
    make_record(KIND_TURN_OPEN, slot, None)
}

/// Whether a store has this height, this greatest height and this record on top.
fn stands(store: &Store, len: usize, peak: usize, top: Option<Record>) -> bool {
    store.len() == len && store.peak() == peak && store.top().copied() == top
}

/// Pushes six records, and says whether each stands on top.
fn rises(store: &mut Store) -> Result<bool, Fail> {
    for slot in 0..6u16 {
        store.push(numbered(slot))?;
        let height = usize::from(slot) + 1;
        if !stands(store, height, height, Some(numbered(slot))) {
            return Ok(false);
        }
    }
    Ok(true)
}

/// Whether the records of a store are those of the numbers from 0 on.
fn are_numbered(store: &Store) -> bool {
    for i in 0..store.len() {
        if *store.get(i) != numbered(i.min(65535) as u16) {
            return false;
        }
    }
    true
}

/// Cuts the records down to a height, and says whether the store has it, and the greatest height as before.
fn falls(store: &mut Store, to: usize) -> bool {
    let peak = store.peak();
    if to > store.len() || !are_numbered(store) {
        return false;
    }
    store.cut(to);
    store.len() == to && store.peak() == peak
}

#[test]
fn a_store_is_a_stack_that_knows_its_greatest_height(rt: HostRuntime) -> Result<(), Fail> {
    let mut store = Store::new(rt.alloc());
    assert!(rt; stands(&store, 0, 0, None));
    assert!(rt; rises(&mut store)? && store.peak() == 6);
    assert!(rt; falls(&mut store, 5) && falls(&mut store, 3) && falls(&mut store, 0));
    store.reserve(2)?;
    store.push_reserved(numbered(8));
    store.push_reserved(numbered(9));
    assert!(rt; stands(&store, 2, 6, Some(numbered(9))));
    Ok(())
}

/// Writes a register, after its old value was pushed.
fn write(
    store: &mut Store,
    registers: &mut [Option<Span>],
    group: u16,
    value: Option<Span>,
) -> Result<(), Memory>
    requires group { HasGroup registers.old group }
    requires slots { All (HasSlot registers.old) (entries store.old.records) }
    ensures slots { All (HasSlot registers.new) (entries store.new.records) }
    ensures count { length registers.new ≡ length registers.old }
{
    let old = captured(registers, u32::from(group));
    store.push(make_record(KIND_UNDO, group, old))?;
    set_captured(registers, u32::from(group), value);
    Ok(())
}

/// Pushes a record that is no undo record.
fn begin_turn(store: &mut Store, registers: &[Option<Span>]) -> Result<(), Memory>
    requires { All (HasSlot registers.now) (entries store.old.records) }
    ensures { All (HasSlot registers.now) (entries store.new.records) }
{
    store.push(numbered(1))?;
    Ok(())
}

fn span(from: u64, to: u64) -> Option<Span> {
    Some(Span { from, to })
}

/// Captures in two groups, with a turn between.
fn make_trail(store: &mut Store, registers: &mut [Option<Span>]) -> Result<(), Memory>
    requires groups { length registers.old ≡ 2 }
    requires slots { All (HasSlot registers.old) (entries store.old.records) }
    ensures slots { All (HasSlot registers.new) (entries store.new.records) }
    ensures count { length registers.new ≡ length registers.old }
{
    write(store, registers, 2, span(4, 6))?;
    write(store, registers, 1, span(0, 2))?;
    begin_turn(store, registers)?;
    write(store, registers, 2, span(6, 9))?;
    write(store, registers, 2, None)
}

/// A height, and what the two registers hold there.
type Held = (usize, Option<Span>, Option<Span>);

const HELD: &[Held] = &[
    (5, Some(Span { from: 0, to: 2 }), None),
    (
        4,
        Some(Span { from: 0, to: 2 }),
        Some(Span { from: 6, to: 9 }),
    ),
    (
        2,
        Some(Span { from: 0, to: 2 }),
        Some(Span { from: 4, to: 6 }),
    ),
    (1, None, Some(Span { from: 4, to: 6 })),
    (0, None, None),
];

/// Whether the way back to a height gives the registers what they held there.
fn gives_back(alloc: Global, row: &Held) -> Result<bool, Fail> {
    let (to, first, second) = *row;
    let mut store = Store::new(alloc);
    let mut registers = Registers::new(alloc);
    registers.grow(2)?;
    make_trail(&mut store, registers.spans.as_mut_slice())?;
    if to > store.len() {
        return Ok(false);
    }
    store.undo_to(to, &mut registers);
    Ok(
        registers.count() == 2
            && (registers.get(1), registers.get(2)) == (first, second)
            && (store.len(), store.peak()) == (to, 5),
    )
}

#[test]
fn undo_gives_registers_back_what_they_held(rt: HostRuntime) -> Result<(), Fail> {
    for row in HELD {
        assert!(rt; gives_back(rt.alloc(), row)?);
    }
    Ok(())
}
