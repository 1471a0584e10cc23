//! Atomic groups (pcre2pattern, "Atomic grouping and possessive quantifiers").
ghost use Rattle.std.specs.Prelude.{◌≡◌, ◌≤◌, ◌+◌, None, Some, map, reverse, slice_get};
ghost use Rattle.pat_tree.specs.declared.nodes.Node.TheVariants as node;
ghost use Rattle.pat_tree.specs.Nested.{row, tree_at};
ghost use Rattle.frame_store.specs.Stack.{room};
ghost use Rattle.frame_state.specs.Steps.{over, StepsOn, StopsThere, KeepsPeak, IsShortAt};
ghost use Rattle.frame_state.specs.Ground.{IsNode};
ghost use Rattle.frame_state.specs.Validity.{IsValid};
ghost use Rattle.ordered_search.specs.Paths.{only_many};

use crate::possessive::{only_repeat, pass_possessive};
use frame_state::framing::{first_branch, go_on, leave, open_frame};
use frame_state::machine::{Next, Spot, Stop};
use frame_state::searchable::Searchable;
use frame_store::kinds::KIND_ATOMIC_OPEN;
use frame_store::{Record, Span, Store};
use pat_tree::Kids;

/// Enters an atomic group.
pub fn enter_atomic<S: Searchable>(
    on: &S,
    at: u32,
    branches: &Kids,
    spot: &mut Spot,
    store: &mut Store,
    registers: &[Option<Span>],
) -> Result<Next, Stop>
    requires valid { IsValid (S.searched on.now)
        (over (Next.Enter at) spot.old store.old registers.now) }
    requires node { IsNode (S.searched on.now) at (node.Atomic branches.now) }
    ensures on { StepsOn (S.searched on.now) (over (Next.Enter at) spot.old store.old registers.now)
        spot.new store.new registers.now result }
    ensures stop { StopsThere (S.searched on.now)
        (over (Next.Enter at) spot.old store.old registers.now) spot.new registers.now result }
    ensures peak { KeepsPeak (S.searched on.now) store.old store.new }
    ensures no_less { room store.old ≤ room store.new }
    ensures short { IsShortAt (S.searched on.now) store.new result }
{
    match only_repeat(on, branches) {
        None => open_atomic(on, at, branches, spot, store, registers),
        Some(repeat) => pass_possessive(on, at, branches, &repeat, spot, store, registers),
    }
}

/// Opens the frame of an atomic group, whose branches are not a repeat of one item alone.
fn open_atomic<S: Searchable>(
    on: &S,
    at: u32,
    branches: &Kids,
    spot: &mut Spot,
    store: &mut Store,
    registers: &[Option<Span>],
) -> Result<Next, Stop>
    requires valid { IsValid (S.searched on.now)
        (over (Next.Enter at) spot.old store.old registers.now) }
    requires node { IsNode (S.searched on.now) at (node.Atomic branches.now) }
    requires other { only_many (row (map (tree_at (S.searched on.now).trees) branches.now)) ≡ None }
    ensures on { StepsOn (S.searched on.now) (over (Next.Enter at) spot.old store.old registers.now)
        spot.new store.new registers.now result }
    ensures stop { StopsThere (S.searched on.now)
        (over (Next.Enter at) spot.old store.old registers.now) spot.new registers.now result }
    ensures peak { KeepsPeak (S.searched on.now) store.old store.new }
    ensures no_less { room store.old ≤ room store.new }
    ensures short { IsShortAt (S.searched on.now) store.new result }
{
    if let Err(stop) = open_frame(on.unit_limit(), KIND_ATOMIC_OPEN, at, spot, store) {
        return Err(stop);
    }
    Ok(first_branch(at, branches))
}

/// Leaves an atomic group by its first outcome.
pub fn leave_atomic<S: Searchable>(
    on: &S,
    frame: &Record,
    height: usize,
    spot: &mut Spot,
    store: &mut Store,
    registers: &[Option<Span>],
) -> Result<Next, Stop>
    requires valid { IsValid (S.searched on.now) (over Next.End spot.old store.old registers.now) }
    requires frame { spot.old.frame ≡ height + 1 }
    requires at { slice_get (reverse store.old.records) height ≡ Some frame.now }
    requires kind { frame.now.kind ≡ KIND_ATOMIC_OPEN }
    ensures on { StepsOn (S.searched on.now) (over Next.End spot.old store.old registers.now)
        spot.new store.new registers.now result }
    ensures stop { StopsThere (S.searched on.now) (over Next.End spot.old store.old registers.now)
        spot.new registers.now result }
    ensures peak { KeepsPeak (S.searched on.now) store.old store.new }
    ensures no_less { room store.old ≤ room store.new }
    ensures short { IsShortAt (S.searched on.now) store.new result }
{
    if let Err(stop) = leave(on.unit_limit(), frame, height, spot, store) {
        return Err(stop);
    }
    Ok(go_on(on, frame.node))
}
