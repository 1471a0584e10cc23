//! The entries of directories.
ghost use Rattle.std.specs.Prelude.{◌≡◌, ◌<◌, ◌∷◌, ◌++◌, [], length, OnErr, OnOk, slice_get, Some};

use crate::memory::Memory;
use crate::names::Name;
use std::alloc::Global;
use std::marker::Model;

/// What a name stands for in a set of files.
#[derive(Clone, Copy, Debug, PartialEq, Eq)]
pub enum Kind {
    /// A file that can be read.
    File,
    /// A directory, which can be listed.
    Dir,
    /// Neither: a link, a device, a pipe, or an entry at which the system lets nobody look.
    Other,
    /// An entry whose name isn't text; it is told under the empty name.
    Unnamed,
}

/// An entry of a directory: its name there, and its kind.
#[derive(Debug, Drop)]
pub struct DirEntry {
    pub name: Name,
    pub kind: Kind,
}

/// A list of entries.
#[derive(Debug, Drop)]
pub struct Listing {
    items: Vec<DirEntry>,
}

impl Model for Listing {
    ghost use Rattle.std.specs.Prelude.{List};
    ghost use Rattle.pcre_io.specs.declared.entries.DirEntry.{DirEntry};

    ghost Value = { List DirEntry };

    ghost view = { λ listing. listing.items.items };
}

impl Listing {
    /// The empty list. Takes no memory.
    pub fn new(alloc: Global) -> Listing
        ensures { result ≡ [] }
    {
        Listing {
            items: Vec::new(alloc),
        }
    }

    /// Adds an entry at the end. The list is unchanged after a refusal.
    pub fn push(&mut self, item: DirEntry) -> Result<(), Memory>
        ensures ok { OnOk result (self.new ≡ self.old ++ item ∷ []) }
        ensures refused { OnErr result (self.new ≡ self.old) }
    {
        self.items.push(item)?;
        Ok(())
    }

    /// How many entries there are.
    pub fn len(&self) -> usize
        ensures { result ≡ length self.now }
    {
        self.items.len()
    }

    /// The entry at a place counted from 0.
    pub fn get(&self, i: usize) -> &DirEntry
        requires { i < length self.now }
        ensures { slice_get self.now i ≡ Some result.now }
    {
        &self.items[i]
    }

    /// The entries.
    pub fn as_slice(&self) -> &[DirEntry]
        ensures { result.now ≡ self.now }
    {
        self.items.as_slice()
    }

    /// The entries, in a vector. Takes no memory.
    pub fn into_vec(self) -> Vec<DirEntry>
        ensures { result.items ≡ self }
    {
        self.items
    }
}
