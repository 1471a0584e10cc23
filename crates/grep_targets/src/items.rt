//! The entries of a directory as files and directories, in order.
ghost use Rattle.std.specs.Prelude.{◌≡◌, ◌<◌, ◌++◌, true, length, map, flat_map, All, Contains, IfOk, OnOk};
ghost use Rattle.std.specs.List.{Any};
ghost use Rattle.std.specs.List.Sorted.{IsPermutation, IsStrictlySortedBy};
ghost use Rattle.std.specs.Ordering.{eq_by_cmp};
ghost use Rattle.grep_targets.specs.Paths.{has_unnamed, item_of, item_parts, items_in};

use crate::paths::joined;
use pcre_io::{DirEntry, Kind, Listing, Memory};
use std::alloc::Global;

/// A file or a directory at a path.
#[derive(Debug, PartialEq, Eq, PartialOrd, Ord, Drop)]
pub struct Item {
    pub path: String,
    pub is_directory: bool,
}

/// Whether an entry has no name that is text.
pub fn has_unnamed(entries: &[DirEntry]) -> bool
    ensures { result ≡ has_unnamed entries.now }
{
    let mut rest = entries;
    'entry: loop {
        let [entry, more @ ..] = rest else {
            return false;
        };
        if entry.kind == Kind::Unnamed {
            return true;
        }
        rest = more;
    }
}

// Adds what an entry of a directory stands for.
fn add_entry(
    alloc: Global,
    path: &str,
    entry: &DirEntry,
    items: &mut Vec<Item>,
) -> Result<(), Memory>
    ensures { OnOk result (map item_parts items.new.items
        ≡ map item_parts items.old.items ++ item_of path.now entry.now) }
{
    let is_directory = match entry.kind {
        Kind::File => false,
        Kind::Dir => true,
        Kind::Other | Kind::Unnamed => return Ok(()),
    };
    let path = joined(alloc, path, entry.name.as_str())?;
    items.push(Item { path, is_directory })?;
    Ok(())
}

// What the entries of a directory stand for, from the last one on. Each of them goes when it was read, since there may
// be very many.
fn parts_of(alloc: Global, path: &str, entries: Listing) -> Result<Vec<Item>, Memory>
    ensures { IfOk result (λ items. IsPermutation
        (flat_map (item_of path.now) entries) (map item_parts items.items)) }
{
    let mut items = Vec::new(alloc);
    let mut rest = entries.into_vec();
    'entry: loop {
        let Some(entry) = rest.pop() else {
            return Ok(items);
        };
        add_entry(alloc, path, &entry, &mut items)?;
    }
}

// Puts them in order, each once.
fn put_in_order<T: Ord + Drop>(list: &mut Vec<T>)
    ensures ordered { IsStrictlySortedBy T.cmp list.new.items }
    ensures kept { All (λ x. Any (λ y. eq_by_cmp T.cmp x y ≡ true) list.new.items)
        list.old.items }
    ensures none_new { All (Contains list.old.items) list.new.items }
{
    list.sort_unstable();
    list.dedup();
}

/// The files and directories among the entries of a directory, in order and each once.
pub fn items_in(alloc: Global, path: &str, entries: Listing) -> Result<Vec<Item>, Memory>
    ensures items { IfOk result
        (λ items. map item_parts items.items ≡ items_in path.now entries) }
    ensures few { IfOk result (λ items. length items.items < 18446744073709551616) }
{
    let mut items = parts_of(alloc, path, entries)?;
    put_in_order(&mut items);
    // A length that was read is known to be a number of the machine.
    let _count = items.len();
    Ok(items)
}
