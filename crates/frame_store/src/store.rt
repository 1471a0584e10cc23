ghost use Rattle.std.specs.Prelude.{◌≡◌, ◌+◌, ◌-◌, ◌<◌, ◌≤◌, max, [], ◌∷◌, length, drop, reverse, Some, All, IsOk};
ghost use Rattle.std.specs.Prelude.{OnOk, OnErr, MatchOption, slice_get, vec_capacity};
ghost use Rattle.frame_store.specs.Stack.{room, up_to, past};
ghost use Rattle.frame_store.specs.Entry.{entries, entry_of, kept_value};
ghost use Rattle.frame_store.specs.Undo.{undone, taken_back, HasSlot};

use crate::gains::{Gains, gather, overlay};
use crate::kinds::KIND_UNDO;
use crate::records::Record;
use crate::registers::{Registers, Span, set_captured};
use std::alloc::Global;
use std::error::Error;
use std::fmt;
use std::marker::Model;

/// There was no memory left.
#[derive(Clone, Copy, Debug, PartialEq, Eq)]
pub struct Memory;

impl fmt::Display for Memory {
    fn fmt<W: fmt::Write>(&self, f: &mut fmt::Formatter<W>) -> fmt::Result {
        f.write_str("out of memory")
    }
}

impl Error for Memory {}

/// The records of a search, one on another. Clauses see them as a list, the newest first, beside the number of records
/// that can still be pushed without memory (`spare`) and the greatest number that there has been (`peak`).
#[derive(Drop)]
pub struct Store {
    records: Vec<Record>,
    peak: usize,
    // What the undo records of a stretch give back, so that the next stretch around it needs no second look at them.
    gains: Gains,
}

impl Model for Store {
    ghost use Rattle.std.specs.Prelude.{◌-◌, ◌≤◌, reverse, vec_len, vec_capacity};
    ghost use Rattle.frame_store.specs.Stack.{Stack};
    ghost use Rattle.frame_store.specs.Gains.{IsOf};

    ghost Value = { Stack };

    ghost view = { λ s. record {
      records = reverse s.records.items;
      spare = vec_capacity s.records - vec_len s.records;
      peak = s.peak;
    } };

    ghost invariant = { λ s. (vec_len s.records ≤ s.peak) × IsOf s.gains s.records.items };
}

impl Store {
    /// No records. It allocates nothing until the first is pushed.
    pub fn new(alloc: Global) -> Store
        ensures { result ≡ record { records = []; spare = 0; peak = 0 } }
    {
        Store {
            records: Vec::new(alloc),
            peak: 0,
            gains: Gains::new(alloc),
        }
    }

    /// Makes room for `n` further records, so that as many can be pushed without memory. Want of memory alone refuses
    /// it, and changes nothing.
    pub fn reserve(&mut self, n: usize) -> Result<(), Memory>
        ensures room { OnOk result (n ≤ self.new.spare) }
        ensures no_less { self.old.spare ≤ self.new.spare }
        ensures kept { self.new ≡ record self.old { spare = self.new.spare } }
        ensures succeeds { n ≤ self.old.spare → IsOk result }
        ensures refused { OnErr result (self.new ≡ self.old) }
    {
        if self.records.reserve(n).is_err() {
            return Err(Memory);
        }
        Ok(())
    }

    /// Makes room for so many registers, so that `give_back` needs no second look at the records of a stretch. Want of
    /// memory alone refuses it, and changes nothing.
    pub fn reserve_groups(&mut self, groups: u32) -> Result<(), Memory>
        ensures kept { self.new ≡ self.old }
    {
        self.gains.reserve(groups)
    }

    /// Tells how many registers `give_back` will be called with. It takes no memory.
    pub fn expect_groups(&mut self, groups: u32)
        ensures kept { self.new ≡ self.old }
    {
        self.gains.clear(groups);
    }

    /// Adds a record above the others. Want of memory alone refuses it, where nothing was spare, and changes nothing.
    pub fn push(&mut self, r: Record) -> Result<(), Memory>
        ensures pushed { OnOk result (self.new.records ≡ r ∷ self.old.records) }
        ensures peak { OnOk result (self.new.peak ≡ max self.old.peak (length self.new.records)) }
        ensures succeeds { 0 < self.old.spare → IsOk result }
        ensures refused { OnErr result (self.new ≡ self.old) }

        // It takes memory only where nothing was spare. The length and the spare room together never fall.
        ensures in_room { 0 < self.old.spare → self.new.spare + 1 ≡ self.old.spare }
        ensures room { room self.old ≤ room self.new }
    {
        if self.records.len() == self.records.capacity() && self.records.reserve(1).is_err() {
            return Err(Memory);
        }
        self.push_reserved(r);
        Ok(())
    }

    /// Adds a record above the others, in spare room, so that it needs no memory.
    pub fn push_reserved(&mut self, r: Record)
        requires { 0 < self.old.spare }
        ensures pushed { self.new.records ≡ r ∷ self.old.records }
        ensures spare { self.new.spare + 1 ≡ self.old.spare }
        ensures room { room self.new ≡ room self.old }
        ensures peak { self.new.peak ≡ max self.old.peak (length self.new.records) }
    {
        self.records.push_reserved(r);
        self.peak = self.peak.max(self.records.len());
    }

    /// The newest record, if there is one.
    pub fn top(&self) -> Option<&Record>
        ensures { MatchOption result (self.now.records ≡ [])
            (λ r. self.now.records ≡ r.now ∷ drop 1 self.now.records) }
    {
        self.records.last()
    }

    /// The record number `i`, counted from 0 at the oldest.
    pub fn get(&self, i: usize) -> &Record
        requires { i < length self.now.records }
        ensures { slice_get (reverse self.now.records) i ≡ Some result.now }
    {
        &self.records[i]
    }

    /// Keeps the oldest `to` records, and drops the later ones.
    pub fn cut(&mut self, to: usize)
        requires { to ≤ length self.old.records }
        ensures cut { self.new.records ≡ up_to to self.old.records }
        ensures spare { self.new.spare ≡ self.old.spare + (length self.old.records - to) }
        ensures room { room self.new ≡ room self.old }
        ensures peak { self.new.peak ≡ self.old.peak }
    {
        self.records.truncate(to);
        self.gains.forget_past(to);
    }

    /// The number of records.
    pub fn len(&self) -> usize
        ensures { result ≡ length self.now.records }
    {
        self.records.len()
    }

    /// The greatest number of records that there has been.
    pub fn peak(&self) -> usize
        ensures peak { result ≡ self.now.peak }
        ensures covers { length self.now.records ≤ result }
    {
        self.peak
    }

    /// Gives each register the value that the undo records past the oldest `to` records keep, the newest first, and
    /// leaves the records. Of the records that stood past a greater height at the last call, and stand still, none is
    /// looked at again, where there was room for so many registers.
    pub fn give_back(&mut self, to: usize, registers: &mut [Option<Span>])
        requires within { to ≤ length self.old.records }
        requires slots { All (HasSlot registers.old) (past to (entries self.old.records)) }
        ensures back { registers.new
            ≡ undone (past to (entries self.old.records)) registers.old }
        ensures kept { self.new ≡ self.old }
    {
        if self.gains.values.len() != registers.len() {
            put_back(&self.records[to..], registers);
            return;
        }
        gather(&self.records, to, &mut self.gains);
        overlay(&self.gains.values, registers);
    }

    /// Goes back to the oldest `to` records: gives each register the value that the undo records past them keep, the
    /// newest first, and drops the later records.
    pub fn undo_to(&mut self, to: usize, registers: &mut Registers)
        requires within { to ≤ length self.old.records }
        requires slots { All (HasSlot registers.old.spans.items)
            (past to (entries self.old.records)) }
        ensures undone { registers.new.spans.items
            ≡ undone (past to (entries self.old.records)) registers.old.spans.items }
        ensures no_less { vec_capacity registers.new.spans ≡ vec_capacity registers.old.spans }
        ensures cut { self.new.records ≡ up_to to self.old.records }
        ensures spare { self.new.spare ≡ self.old.spare + (length self.old.records - to) }
        ensures room { room self.new ≡ room self.old }
        ensures peak { self.new.peak ≡ self.old.peak }
    {
        self.undo_spans(to, registers.spans.as_mut_slice());
    }

    /// Goes back as `undo_to` does, with registers that stand as a slice.
    pub fn undo_spans(&mut self, to: usize, registers: &mut [Option<Span>])
        requires within { to ≤ length self.old.records }
        requires slots { All (HasSlot registers.old) (past to (entries self.old.records)) }
        ensures undone { registers.new ≡ undone (past to (entries self.old.records)) registers.old }
        ensures cut { self.new.records ≡ up_to to self.old.records }
        ensures spare { self.new.spare ≡ self.old.spare + (length self.old.records - to) }
        ensures room { room self.new ≡ room self.old }
        ensures peak { self.new.peak ≡ self.old.peak }
    {
        put_back(&self.records[to..], registers);
        self.cut(to);
    }
}

/// Gives each register the value that these undo records keep, the last of them first.
fn put_back(records: &[Record], registers: &mut [Option<Span>])
    requires { All (HasSlot registers.old) (entries (reverse records.now)) }
    ensures { registers.new ≡ undone (entries (reverse records.now)) registers.old }
{
    'records: for i in (0..records.len()).rev() {
        put_back_one(&records[i], registers);
    }
}

/// Gives a register the value that an undo record keeps. Any other record changes nothing.
fn put_back_one(r: &Record, registers: &mut [Option<Span>])
    requires { HasSlot registers.old (entry_of r.now) }
    ensures { registers.new ≡ taken_back (entry_of r.now) registers.old }
{
    if r.kind == KIND_UNDO {
        set_captured(registers, u32::from(r.slot), kept_value(r));
    }
}

/// The value that an undo record keeps.
pub(crate) fn kept_value(r: &Record) -> Option<Span>
    ensures { result ≡ kept_value r.now }
{
    if r.count == 1 {
        Some(Span {
            from: r.from,
            to: r.to,
        })
    } else {
        None
    }
}
