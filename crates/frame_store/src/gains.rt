//! What the undo records of a stretch of a store give back, all at once.
ghost use Rattle.std.specs.Prelude.{◌≡◌, ◌≤◌, ◌-◌, ◌++◌, List, length, drop, reverse};
ghost use Rattle.frame_store.specs.Entry.{Entry, entries, entry_of};
ghost use Rattle.frame_store.specs.Gains.{IsGathered, IsOf, IsBegun, IsForgotten, older_gain, newer_gain, overlaid};
ghost use Rattle.frame_store.specs.Gains.{stretch};

use crate::kinds::KIND_UNDO;
use crate::records::Record;
use crate::registers::Span;
use crate::store::{Memory, kept_value};
use std::alloc::Global;

/// What the undo records from one height to another give back: for each register the value, where they give it one.
/// With the upper height 0 it's of no records, whatever the values are.
#[derive(Drop)]
pub(crate) struct Gains {
    pub(crate) low: usize,
    pub(crate) high: usize,
    pub(crate) values: Vec<Option<Option<Span>>>,
}

impl Gains {
    /// Of no records and no registers. Takes no memory.
    pub(crate) fn new(alloc: Global) -> Gains
        ensures { result.high ≡ 0 }
    {
        Gains {
            low: 0,
            high: 0,
            values: Vec::new(alloc),
        }
    }

    /// Makes room for so many registers. Want of memory alone refuses it.
    pub(crate) fn reserve(&mut self, groups: u32) -> Result<(), Memory>
        ensures low { self.new.low ≡ self.old.low }
        ensures high { self.new.high ≡ self.old.high }
        ensures values { self.new.values.items ≡ self.old.values.items }
    {
        let more = (groups as usize).saturating_sub(self.values.len());
        if self.values.reserve(more).is_err() {
            return Err(Memory);
        }
        Ok(())
    }

    /// Of no records, and of so many registers if there is room for them.
    pub(crate) fn clear(&mut self, groups: u32)
        ensures { self.new.high ≡ 0 }
    {
        self.high = 0;
        let count = groups as usize;
        if self.values.len() != count && count <= self.values.capacity() {
            self.values.clear();
            // There is room.
            let _ = self.values.resize(count, None);
        }
    }

    /// Only the oldest `to` records still stand.
    pub(crate) fn forget_past(&mut self, to: usize)
        ensures low { self.new.low ≡ self.old.low }
        ensures values { self.new.values ≡ self.old.values }
        ensures high { IsForgotten self.old.high to self.new.high }
    {
        if to < self.high {
            self.high = 0;
        }
    }
}

/// The place of an undo record's register among the registers.
fn place_of(r: &Record) -> usize
    ensures { result ≡ r.now.slot - 1 }
{
    usize::from(r.slot).saturating_sub(1)
}

/// Takes in a record that is older than those of the stretch.
fn take_older(r: &Record, values: &mut [Option<Option<Span>>])
    ensures { values.new ≡ older_gain (entry_of r.now) values.old }
{
    let place = place_of(r);
    if r.kind == KIND_UNDO && place < values.len() {
        values[place] = Some(kept_value(r));
    }
}

/// Takes in a record that is newer than those of the stretch.
fn take_newer(r: &Record, values: &mut [Option<Option<Span>>])
    ensures { values.new ≡ newer_gain (entry_of r.now) values.old }
{
    let place = place_of(r);
    if r.kind == KIND_UNDO && place < values.len() && values[place].is_none() {
        values[place] = Some(kept_value(r));
    }
}

/// Takes in records that are older than those of the stretch.
fn gather_older(records: &[Record], values: &mut [Option<Option<Span>>])
    ensures count { length values.new ≡ length values.old }
    ensures gathered { (es : List Entry) → IsGathered values.old es
        → IsGathered values.new (es ++ entries (reverse records.now)) }
{
    'records: for i in (0..records.len()).rev() {
        take_older(&records[i], values);
    }
}

/// Takes in records that are newer than those of the stretch.
fn gather_newer(records: &[Record], values: &mut [Option<Option<Span>>])
    ensures count { length values.new ≡ length values.old }
    ensures gathered { (es : List Entry) → IsGathered values.old es
        → IsGathered values.new (entries (reverse records.now) ++ es) }
{
    'records: for i in 0..records.len() {
        take_newer(&records[i], values);
    }
}

/// Keeps the stretch where it begins at a height or past it, and else begins one at the end.
fn begin_at(records: &[Record], to: usize, gains: &mut Gains)
    requires within { to ≤ length records.now }
    requires of { IsOf gains.old records.now }
    ensures count { length gains.new.values.items ≡ length gains.old.values.items }
    ensures begun { IsBegun gains.new to records.now }
{
    if gains.high > 0 && to <= gains.low {
        return;
    }
    gains.values.fill(None);
    gains.low = records.len();
    gains.high = records.len();
}

/// Takes in the records past a stretch, and those before it from a height on.
fn extend(
    records: &[Record],
    to: usize,
    low: usize,
    high: usize,
    values: &mut [Option<Option<Span>>],
)
    requires least { to ≤ low }
    requires ordered { low ≤ high }
    requires most { high ≤ length records.now }
    requires gathered { IsGathered values.old (stretch low high records.now) }
    ensures count { length values.new ≡ length values.old }
    ensures gathered { IsGathered values.new (entries (reverse (drop to records.now))) }
{
    gather_newer(&records[high..], values);
    gather_older(&records[to..low], values);
}

/// Makes it what the undo records past a height give back.
pub(crate) fn gather(records: &[Record], to: usize, gains: &mut Gains)
    requires within { to ≤ length records.now }
    requires of { IsOf gains.old records.now }
    ensures count { length gains.new.values.items ≡ length gains.old.values.items }
    ensures of { IsOf gains.new records.now }
    ensures gathered { IsGathered gains.new.values.items
        (entries (reverse (drop to records.now))) }
{
    begin_at(records, to, gains);
    let (low, high) = (gains.low, gains.high);
    extend(records, to, low, high, gains.values.as_mut_slice());
    gains.low = to;
    gains.high = records.len();
}

/// Writes the registers that are given a value.
pub(crate) fn overlay(values: &[Option<Option<Span>>], registers: &mut [Option<Span>])
    requires same { length values.now ≡ length registers.old }
    ensures { registers.new ≡ overlaid values.now registers.old }
{
    'registers: for i in 0..registers.len() {
        if let Some(value) = values[i] {
            registers[i] = value;
        }
    }
}
