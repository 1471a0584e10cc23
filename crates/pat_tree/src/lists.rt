//! Small lists over one vector, which contracts see as the list of their items.
ghost use Rattle.std.specs.Prelude.{◌≡◌, ◌<◌, ◌∷◌, ◌++◌, [], length, OnErr, OnOk, slice_get, Some};

use crate::memory::Memory;
use crate::nodes::{NodeId, Part};
use std::alloc::Global;
use std::marker::Model;

/// A list of items of one type.
#[derive(Debug, Drop)]
pub struct ListOf<T> {
    items: Vec<T>,
}

impl<T> Model for ListOf<T> {
    ghost use Rattle.std.specs.Prelude.{List};

    ghost Value = { List T };

    ghost view = { λ list. list.items.items };
}

/// The numbers of nodes.
pub type Kids = ListOf<NodeId>;

/// The numbers of capturing groups.
pub type GroupList = ListOf<u16>;

/// The parts of a class.
pub type PartList = ListOf<Part>;

/// Numbers.
pub type NumberList = ListOf<u32>;

/// Bytes.
pub type ByteList = ListOf<u8>;

/// The bytes of a word.
pub type Word = ListOf<u8>;

/// Texts, each a list of bytes.
pub type TextList = ListOf<ByteList>;

impl<T> ListOf<T> {
    /// The empty list. Takes no memory.
    pub fn new(alloc: Global) -> ListOf<T>
        ensures { result ≡ [] }
    {
        ListOf {
            items: Vec::new(alloc),
        }
    }

    /// The list of a vector's items. Takes no memory.
    pub fn from_vec(items: Vec<T>) -> ListOf<T>
        ensures { result ≡ items.items }
    {
        ListOf { items }
    }

    /// The vector of the items. Takes no memory.
    pub fn into_vec(self) -> Vec<T>
        ensures { result.items ≡ self }
    {
        let ListOf { items } = self;
        items
    }

    /// Adds an item at the end. The list is unchanged after a refusal.
    pub fn push(&mut self, item: T) -> Result<(), Memory>
    where
        T: Drop,
        ensures ok { OnOk result (self.new ≡ self.old ++ item ∷ []) }
        ensures refused { OnErr result (self.new ≡ self.old) }
    {
        self.items.push(item)?;
        Ok(())
    }

    /// How many items there are.
    pub fn len(&self) -> usize
        ensures { result ≡ length self.now }
    {
        self.items.len()
    }

    /// The item at a place counted from 0.
    pub fn get(&self, i: usize) -> &T
        requires { i < length self.now }
        ensures { slice_get self.now i ≡ Some result.now }
    {
        &self.items[i]
    }

    /// The items as a slice.
    pub fn as_slice(&self) -> &[T]
        ensures { result.now ≡ self.now }
    {
        self.items.as_slice()
    }
}

impl ListOf<u8> {
    /// The bytes.
    pub fn bytes(&self) -> &[u8]
        ensures { result.now ≡ self.now }
    {
        self.items.as_slice()
    }
}
