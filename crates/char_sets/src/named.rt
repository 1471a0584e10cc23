// The sets with a name that a class takes.
ghost use Rattle.std.specs.Prelude.{◌≡◌, ℕ, ◌||◌, true, if◌then◌else◌, IfOk, OnOk};
ghost use Rattle.std.specs.List.{list_any, Contains};
ghost use Rattle.char_sets.specs.Named.{set_in, set_part_has};
ghost use Rattle.char_sets.specs.Sets.{any_case};

use crate::sets::{any_case, set_has};
use pat_tree::{Memory, Part, SetName};
use std::alloc::Global;

/// The characters of a set, with UCP or without, or those outside it.
#[derive(Clone, Copy, Debug, PartialEq, Eq)]
pub(crate) struct NamedSet {
    pub set: SetName,
    pub reversed: bool,
    pub ucp: bool,
}

/// Whether one of the sets has `c`.
pub(crate) fn some_set_has(sets: &[NamedSet], c: u64) -> bool
    ensures { result ≡ list_any (λ set. set_in set c) sets.now }
{
    sets.iter().any(|set| is_in_set(set, c))
}

pub(crate) fn is_in_set(set: &NamedSet, c: u64) -> bool
    ensures { result ≡ set_in set.now c }
{
    let inside = set_has(set.set, set.ucp, c);
    inside != set.reversed
}

/// The sets among the parts of a class, which takes any case or does not.
pub(crate) fn sets_of(
    alloc: Global,
    parts: &[Part],
    caseless: bool,
) -> Result<Vec<NamedSet>, Memory>
    ensures { IfOk result (λ sets. (c : ℕ) → list_any (λ set. set_in set c) sets.items
        ≡ list_any (λ part. set_part_has caseless c part) parts.now) }
{
    let mut sets = Vec::new(alloc);
    for part in parts {
        add_part(&mut sets, part, caseless)?;
    }
    Ok(sets)
}

/// Adds the set that a part is, if it is one.
fn add_part(sets: &mut Vec<NamedSet>, part: &Part, caseless: bool) -> Result<(), Memory>
    ensures { OnOk result ((c : ℕ) → list_any (λ set. set_in set c) sets.new.items
        ≡ (list_any (λ set. set_in set c) sets.old.items || set_part_has caseless c part.now)) }
{
    match *part {
        Part::Range { .. } => Ok(()),
        Part::Set { set, not, ucp } => {
            let named = NamedSet {
                set: in_case(set, caseless),
                reversed: not,
                ucp,
            };
            add_set(sets, named)?;
            Ok(())
        }
    }
}

fn in_case(set: SetName, caseless: bool) -> SetName
    ensures { result ≡ (if caseless then any_case set else set) }
{
    if caseless { any_case(set) } else { set }
}

/// Adds a set, unless it is there.
fn add_set(sets: &mut Vec<NamedSet>, named: NamedSet) -> Result<(), Memory>
    ensures { OnOk result ((c : ℕ) → list_any (λ set. set_in set c) sets.new.items
        ≡ (list_any (λ set. set_in set c) sets.old.items || set_in named c)) }
{
    if has_set(sets, named) {
        return Ok(());
    }
    sets.push(named)?;
    Ok(())
}

fn has_set(sets: &[NamedSet], named: NamedSet) -> bool
    ensures { result ≡ true → Contains sets.now named }
{
    for set in sets {
        if *set == named {
            return true;
        }
    }
    false
}
