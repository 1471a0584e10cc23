//! The names of groups.
ghost use Rattle.std.specs.List.Sorted.{IsSearchInRange};
ghost use Rattle.std.specs.Prelude.{◌≡◌, ◌<◌, [], length, OnErr, OnOk, slice_index_or};
ghost use Rattle.pat_tree.specs.Names.{AreInOrder, IsFound, name_cmp, with_name};

use crate::lists::Word;
use crate::memory::Memory;
use std::alloc::Global;
use std::cmp::Ordering;
use std::marker::Model;

/// A name, and a group that has it.
#[derive(Debug, Drop)]
pub struct NameEntry {
    pub name: Word,
    pub group: u16,
}

/// The names of groups with their groups, each pair once, by the bytes of the name and then by the group.
#[derive(Debug, Drop)]
pub struct NameTable {
    entries: Vec<NameEntry>,
}

impl Model for NameTable {
    ghost use Rattle.std.specs.Prelude.{List};
    ghost use Rattle.pat_tree.specs.declared.names.NameEntry.{NameEntry};
    ghost use Rattle.pat_tree.specs.Names.{AreInOrder};

    ghost Value = { List NameEntry };

    ghost view = { λ table. table.entries.items };

    ghost invariant = { λ table. AreInOrder table.entries.items };
}

impl NameTable {
    /// No name. Takes no memory.
    pub(crate) fn new(alloc: Global) -> NameTable
        ensures { result ≡ [] }
    {
        NameTable {
            entries: Vec::new(alloc),
        }
    }

    /// How many pairs there are.
    pub fn len(&self) -> usize
        ensures is { result ≡ length self.now }
        ensures ordered { AreInOrder self.now }
    {
        self.entries.len()
    }

    /// The name of the pair at a place counted from 0.
    pub fn name(&self, i: usize) -> &[u8]
        requires { i < length self.now }
        ensures { (other : _) → result.now ≡ (slice_index_or self.now i other).name }
    {
        let entry = &self.entries[i];
        entry.name.bytes()
    }

    /// The group of the pair at a place counted from 0.
    pub fn group(&self, i: usize) -> u16
        requires { i < length self.now }
        ensures { (other : _) → result ≡ (slice_index_or self.now i other).group }
    {
        self.entries[i].group
    }

    /// The pairs, in order.
    pub fn entries(&self) -> &[NameEntry]
        ensures { result.now ≡ self.now }
    {
        &self.entries
    }

    /// Puts a pair in its place; one that is there changes nothing. The table is unchanged after a refusal.
    pub(crate) fn add(&mut self, alloc: Global, name: &[u8], group: u16) -> Result<(), Memory>
        ensures ok { OnOk result
            (self.new ≡ with_name (record { name = name.now; group = group }) self.old) }
        ensures ordered { AreInOrder self.new }
        ensures refused { OnErr result (self.new ≡ self.old) }
    {
        let Err(place) = find(&self.entries, name, group) else {
            return Ok(());
        };
        let entry = NameEntry {
            name: Word::from_vec(name.to_vec(alloc)?),
            group,
        };
        self.entries.insert(place, entry)?;
        Ok(())
    }
}

/// The place of a pair in the table's order, or where it would stand.
fn find(entries: &[NameEntry], name: &[u8], group: u16) -> Result<usize, usize>
    requires { AreInOrder entries.now }
    ensures within { IsSearchInRange result (length entries.now) }
    ensures is { IsFound result entries.now (record { name = name.now; group = group }) }
{
    entries.binary_search_by(|entry| compare(entry, name, group))
}

/// How an entry stands to a pair in the table's order.
fn compare(entry: &NameEntry, name: &[u8], group: u16) -> Ordering
    ensures { result ≡ name_cmp entry.now (record { name = name.now; group = group }) }
{
    entry.name.bytes().cmp(name).then(entry.group.cmp(&group))
}
