//! The names of groups.
ghost use Rattle.std.specs.Prelude.{◌≡◌, ◌<◌, [], ◌∷◌, length, map, filter, IfOk};
ghost use Rattle.std.specs.List.{list_any};
ghost use Rattle.pat_grammar.specs.Groups.{has_name, is_elsewhere, is_other, groups_of};

use pat_tree::{GroupList, Memory, NameEntry};
use std::alloc::Global;

/// The name that a group gets, as the places in the pattern between which it stands.
#[derive(Clone, Copy, Debug)]
pub struct Name {
    pub from: usize,
    pub to: usize,
    pub group: u16,
}

/// The list of one group.
pub fn one_group(alloc: Global, group: u16) -> Result<GroupList, Memory>
    ensures { IfOk result (λ groups. groups ≡ group ∷ []) }
{
    let mut groups = GroupList::new(alloc);
    groups.push(group)?;
    Ok(groups)
}

/// Whether an entry has this name.
fn is_called(entry: &NameEntry, wanted: &[u8]) -> bool
    ensures { result ≡ has_name wanted.now entry.now }
{
    entry.name.bytes() == wanted
}

/// Whether a group has this name.
pub fn is_given(names: &[NameEntry], wanted: &[u8]) -> bool
    ensures { result ≡ list_any (has_name wanted.now) names.now }
{
    for entry in names {
        if is_called(entry, wanted) {
            return true;
        }
    }
    false
}

/// Whether an entry gives this name to a group of another number.
fn gives_elsewhere(entry: &NameEntry, wanted: &[u8], group: u16) -> bool
    ensures { result ≡ is_elsewhere wanted.now group entry.now }
{
    is_called(entry, wanted) && entry.group != group
}

/// Whether an entry gives another name to the group of this number.
fn gives_other(entry: &NameEntry, wanted: &[u8], group: u16) -> bool
    ensures { result ≡ is_other wanted.now group entry.now }
{
    entry.group == group && !is_called(entry, wanted)
}

/// Whether a group of another number has this name.
pub fn is_elsewhere(names: &[NameEntry], wanted: &[u8], group: u16) -> bool
    ensures { result ≡ list_any (is_elsewhere wanted.now group) names.now }
{
    for entry in names {
        if gives_elsewhere(entry, wanted, group) {
            return true;
        }
    }
    false
}

/// Whether a group of this number has another name.
pub fn is_other(names: &[NameEntry], wanted: &[u8], group: u16) -> bool
    ensures { result ≡ list_any (is_other wanted.now group) names.now }
{
    for entry in names {
        if gives_other(entry, wanted, group) {
            return true;
        }
    }
    false
}

/// The groups of this name, in the order of the table.
fn groups_with(alloc: Global, names: &[NameEntry], wanted: &[u8]) -> Result<Vec<u16>, Memory>
    ensures { IfOk result
        (λ groups. groups.items ≡ map (λ entry. entry.group)
        (filter (has_name wanted.now) names.now)) }
{
    let mut groups = Vec::new(alloc);
    for entry in names {
        if is_called(entry, wanted) {
            groups.push(entry.group)?;
        }
    }
    Ok(groups)
}

/// The groups of this name, or 0, which is no group.
pub fn groups_of(alloc: Global, known: &[NameEntry], wanted: &[u8]) -> Result<GroupList, Memory>
    ensures is { IfOk result (λ groups. groups ≡ groups_of known.now wanted.now) }
    ensures some { IfOk result (λ groups. 0 < length groups) }
{
    let groups = groups_with(alloc, known, wanted)?;
    if groups.is_empty() {
        let none = one_group(alloc, 0)?;
        return Ok(none);
    }
    Ok(GroupList::from_vec(groups))
}
