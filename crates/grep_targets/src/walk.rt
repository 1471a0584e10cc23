//! The files below a directory.
ghost use Rattle.std.specs.Prelude.{◌≡◌, ◌≤◌, ◌∷◌, ◌++◌, [], suc, true, map, reverse, string_bytes, OnOk, Option, Some};
ghost use Rattle.pcre_io.specs.Files.{Contents};
ghost use Rattle.grep_targets.specs.Filters.{Filter, filter_in};
ghost use Rattle.grep_targets.specs.Paths.{item_parts};
ghost use Rattle.grep_targets.specs.Targets.{as_item, directory_targets, file_targets, item_targets, listed_targets};
ghost use Rattle.grep_targets.specs.Targets.{unnamed_targets};
ghost use Rattle.grep_targets.specs.Stands.{AreOfDirectory, AreOfItem, AreOfListed};
ghost use Rattle.grep_targets.specs.Walks.{AreOfPending, at_levels, has_failed, pending_parts, pending_targets};
ghost use Rattle.grep_targets.specs.Walks.{weight, Goes, Grows, GrowsBy, HasCauses, Steps, walking};

use crate::filters::NameFilter;
use crate::items::{Item, has_unnamed, items_in};
use crate::lists::TargetList;
use crate::paths::name_from;
use pcre_io::{DirEntry, FileSet, IoError, Listing, Memory, Name};
use std::alloc::Global;
use tool_io::Target;

/// An item that is to be looked at.
#[derive(Drop)]
pub struct Pending {
    pub path: String,
    pub is_directory: bool,
    /// How many levels may be listed from it on.
    pub levels: u32,
}

// Adds one item to the stack.
fn push(stack: &mut Vec<Pending>, item: Item, levels: u32) -> Result<(), Memory>
    ensures { OnOk result (map pending_parts stack.new.items
        ≡ map pending_parts stack.old.items ++ at_levels levels (item_parts item) ∷ []) }
{
    let Item { path, is_directory } = item;
    stack.push(Pending {
        path,
        is_directory,
        levels,
    })?;
    Ok(())
}

// Adds items to the stack, so that the first of them is its top.
fn push_all(stack: &mut Vec<Pending>, mut items: Vec<Item>, levels: u32) -> Result<(), Memory>
    ensures { OnOk result (map pending_parts stack.new.items
        ≡ map pending_parts stack.old.items
        ++ reverse (map (at_levels levels) (map item_parts items.items))) }
{
    'item: loop {
        let Some(item) = items.pop() else {
            return Ok(());
        };
        push(stack, item, levels)?;
    }
}

// Tells whether an entry has no name that is text.
fn tell_unnamed(
    alloc: Global,
    path: &str,
    entries: &[DirEntry],
    told: &mut TargetList,
) -> Result<(), Memory>
    ensures grows { OnOk result (told.new ≡ told.old ++ unnamed_targets path.now entries.now) }
    ensures unfailed { OnOk result (has_failed told.new ≡ has_failed told.old) }
{
    if has_unnamed(entries) {
        told.push(Target::Unnamed(name_from(alloc, path)?))?;
    }
    Ok(())
}

// Tells of a directory's entries what is to be told at once, and puts the others on the stack.
fn take_entries(
    alloc: Global,
    path: &str,
    levels: u32,
    entries: Listing,
    stack: &mut Vec<Pending>,
    told: &mut TargetList,
) -> Result<(), Memory>
    ensures steps { OnOk result ((filter : Filter) (contents : Option Contents)
        → Steps filter contents
        (λ set. listed_targets filter (directory_targets filter set levels) path.now
        (Some entries))
        (weight (suc levels)) (walking (map pending_parts stack.old.items) told.old)
        (walking (map pending_parts stack.new.items) told.new)) }
    ensures goes { OnOk result ((filter : Filter) → Goes filter
        (AreOfListed filter (AreOfDirectory filter levels) path.now (Some entries))
        (walking (map pending_parts stack.old.items) told.old)
        (walking (map pending_parts stack.new.items) told.new)) }
    ensures unfailed { OnOk result (has_failed told.new ≡ has_failed told.old) }
{
    tell_unnamed(alloc, path, entries.as_slice(), told)?;
    let items = items_in(alloc, path, entries)?;
    push_all(stack, items, levels)
}

// Lists a directory, from whose entries on so many levels may be listed.
fn list_directory<F: FileSet>(
    alloc: Global,
    path: String,
    levels: u32,
    files: &mut F,
    stack: &mut Vec<Pending>,
    told: &mut TargetList,
) -> Result<(), Memory>
    ensures steps { OnOk result ((filter : Filter)
        → Steps filter (F.tells files.old).contents
        (λ set. directory_targets filter set (suc levels) (string_bytes path))
        (weight (suc levels)) (walking (map pending_parts stack.old.items) told.old)
        (walking (map pending_parts stack.new.items) told.new)) }
    ensures goes { OnOk result ((filter : Filter) → Goes filter
        (AreOfDirectory filter (suc levels) (string_bytes path))
        (walking (map pending_parts stack.old.items) told.old)
        (walking (map pending_parts stack.new.items) told.new)) }
    ensures causes { OnOk result (HasCauses told.old told.new
        (F.tells files.old).faults (F.tells files.new).faults) }
    ensures same { (F.tells files.new).contents ≡ (F.tells files.old).contents }
    ensures later { (F.tells files.old).faults ≤ (F.tells files.new).faults }
{
    match files.list(alloc, path.as_str()) {
        Ok(entries) => take_entries(alloc, path.as_str(), levels, entries, stack, told),
        Err(IoError::Failed) => told.push(Target::NoList(Name::of(path))),
        Err(IoError::Memory) => Err(Memory),
    }
}

// Lists an allowed directory, unless it is too deep.
fn take_directory<F: FileSet>(
    alloc: Global,
    path: String,
    levels: u32,
    files: &mut F,
    stack: &mut Vec<Pending>,
    told: &mut TargetList,
) -> Result<(), Memory>
    ensures steps { OnOk result ((filter : Filter)
        → Steps filter (F.tells files.old).contents
        (λ set. directory_targets filter set levels (string_bytes path))
        (weight levels) (walking (map pending_parts stack.old.items) told.old)
        (walking (map pending_parts stack.new.items) told.new)) }
    ensures goes { OnOk result ((filter : Filter) → Goes filter
        (AreOfDirectory filter levels (string_bytes path))
        (walking (map pending_parts stack.old.items) told.old)
        (walking (map pending_parts stack.new.items) told.new)) }
    ensures causes { OnOk result (HasCauses told.old told.new
        (F.tells files.old).faults (F.tells files.new).faults) }
    ensures same { (F.tells files.new).contents ≡ (F.tells files.old).contents }
    ensures later { (F.tells files.old).faults ≤ (F.tells files.new).faults }
{
    if levels == 0 {
        told.push(Target::TooDeep(Name::of(path)))
    } else {
        list_directory(alloc, path, levels - 1, files, stack, told)
    }
}

/// Tells of a file, where it is allowed.
pub fn take_file(
    alloc: Global,
    filter: &NameFilter,
    path: String,
    told: &mut TargetList,
) -> Result<(), Memory>
    ensures grows { OnOk result (told.new
        ≡ told.old ++ file_targets (filter_in filter.now) (string_bytes path)) }
    ensures unfailed { OnOk result (has_failed told.new ≡ has_failed told.old) }
{
    if filter.allows_file(alloc, path.as_str())? {
        told.push(Target::File(Name::of(path)))?;
    }
    Ok(())
}

// Looks at one item.
fn take<F: FileSet>(
    alloc: Global,
    filter: &NameFilter,
    pending: Pending,
    files: &mut F,
    stack: &mut Vec<Pending>,
    told: &mut TargetList,
) -> Result<(), Memory>
    ensures steps { OnOk result (Steps (filter_in filter.now) (F.tells files.old).contents
        (λ set. pending_targets (filter_in filter.now) set (pending_parts pending))
        (weight pending.levels) (walking (map pending_parts stack.old.items) told.old)
        (walking (map pending_parts stack.new.items) told.new)) }
    ensures goes { OnOk result (Goes (filter_in filter.now)
        (AreOfPending (filter_in filter.now) (pending_parts pending))
        (walking (map pending_parts stack.old.items) told.old)
        (walking (map pending_parts stack.new.items) told.new)) }
    ensures causes { OnOk result (HasCauses told.old told.new
        (F.tells files.old).faults (F.tells files.new).faults) }
    ensures same { (F.tells files.new).contents ≡ (F.tells files.old).contents }
    ensures later { (F.tells files.old).faults ≤ (F.tells files.new).faults }
{
    let Pending {
        path,
        is_directory,
        levels,
    } = pending;
    if !is_directory {
        take_file(alloc, filter, path, told)
    } else if filter.allows_directory(alloc, path.as_str())? {
        take_directory(alloc, path, levels, files, stack, told)
    } else {
        Ok(())
    }
}

/// Tells of a directory and of what is below it, where so many levels may be listed.
pub fn walk<F: FileSet>(
    alloc: Global,
    filter: &NameFilter,
    path: String,
    levels: u32,
    files: &mut F,
    told: &mut TargetList,
) -> Result<(), Memory>
    ensures grows { OnOk result (Grows (F.tells files.old).contents
        (λ set. item_targets (filter_in filter.now)
        (directory_targets (filter_in filter.now) set levels)
        (as_item (string_bytes path) true))
        told.old told.new) }
    ensures stands { OnOk result (GrowsBy (AreOfItem (filter_in filter.now)
        (AreOfDirectory (filter_in filter.now) levels) (as_item (string_bytes path) true))
        told.old told.new) }
    ensures causes { OnOk result (HasCauses told.old told.new
        (F.tells files.old).faults (F.tells files.new).faults) }
    ensures same { (F.tells files.new).contents ≡ (F.tells files.old).contents }
    ensures later { (F.tells files.old).faults ≤ (F.tells files.new).faults }
{
    let mut stack = Vec::new(alloc);
    let is_directory = true;
    push(&mut stack, Item { path, is_directory }, levels)?;
    'item: loop {
        let Some(pending) = stack.pop() else {
            return Ok(());
        };
        take(alloc, filter, pending, files, &mut stack, told)?;
    }
}
