// One class as a table.
ghost use Rattle.std.specs.Prelude.{◌≡◌, ℕ, IfOk};
ghost use Rattle.char_sets.specs.Sets as spec;
ghost use Rattle.char_sets.specs.Table.{char_in, inside, turned_if};

use crate::bytes::bytes_of;
use crate::named::{NamedSet, sets_of, some_set_has};
use crate::ranges::runs_of;
use crate::runs::{Run, runs_have};
use byte_lanes::ByteSet;
use pat_tree::{ClassSpec, Memory};
use std::alloc::Global;
use std::marker::Model;

/// The characters that one class takes: the bytes among them, and for the rest the runs and the sets that it takes, or
/// under `negated` leaves out.
#[derive(Drop)]
pub(crate) struct Entry {
    bytes: ByteSet,
    runs: Vec<Run>,
    sets: Vec<NamedSet>,
    negated: bool,
}

impl Model for Entry {
    ghost use Rattle.char_sets.specs.Runs.{IsRising};
    ghost use Rattle.char_sets.specs.Table.{CharSet};

    ghost Value = { CharSet };

    ghost view = { λ e. record { bytes = e.bytes; runs = e.runs.items; sets = e.sets.items; negated = e.negated } };

    ghost invariant = { λ e. IsRising e.runs.items };
}

impl Entry {
    /// The table of a class, in UTF or outside it.
    pub(crate) fn of(alloc: Global, class: &ClassSpec, utf: bool) -> Result<Entry, Memory>
        ensures { IfOk result (λ e. (c : ℕ) → char_in e c ≡ spec.takes utf class.now c) }
    {
        let parts = class.parts.as_slice();
        let runs = runs_of(alloc, parts, class.caseless, utf)?;
        let sets = sets_of(alloc, parts, class.caseless)?;
        let bytes = bytes_of(&runs, &sets, class.negated);
        Ok(Entry {
            bytes,
            runs,
            sets,
            negated: class.negated,
        })
    }

    /// The same table.
    pub(crate) fn copied(&self, alloc: Global) -> Result<Entry, Memory>
        ensures { IfOk result (λ e. e ≡ self.now) }
    {
        Ok(Entry {
            bytes: self.bytes.copied(),
            runs: self.runs.to_vec(alloc)?,
            sets: self.sets.to_vec(alloc)?,
            negated: self.negated,
        })
    }

    /// The bytes that the class takes.
    pub(crate) fn bytes(&self) -> &ByteSet
        ensures { result.now ≡ self.now.bytes }
    {
        &self.bytes
    }

    /// Whether the class takes `c`.
    #[inline]
    pub(crate) fn has(&self, c: u32) -> bool
        ensures { result ≡ char_in self.now c }
    {
        if c < 256 {
            return self.bytes.has(c as u8);
        }
        self.has_past(c)
    }

    // Out of line, so that the test of a byte stays short where `has` is written out.
    #[inline(never)]
    fn has_past(&self, c: u32) -> bool
        ensures { result ≡ turned_if self.now.negated (inside self.now.runs self.now.sets c) }
    {
        let inside = runs_have(&self.runs, c) || some_set_has(&self.sets, c as u64);
        inside != self.negated
    }
}
