//! What a search takes at most where a needed text stands nowhere.
ghost use Rattle.std.specs.Prelude.{◌≡◌, ◌⊎◌, ℕ, ◌+◌, ◌<◌, ◌≤◌, ◌∷◌, Bool, true, All, List, map, IfSome, length};
ghost use Rattle.char_sets.specs.Sets.{class_has};
ghost use Rattle.char_sets.specs.Table.{IsTableOf};
ghost use Rattle.pat_tree.specs.declared.nodes.Item.{Item};
ghost use Rattle.pat_tree.specs.Nested.{Nested, row, trees};
ghost use Rattle.pat_tree.specs.Parts.{TreeParts, tree_of};
ghost use Rattle.pat_bounds.specs.Bounds as spec;
ghost use Rattle.pat_bounds.specs.BoundTables.{Refines, KeepBounds};
ghost use Rattle.pat_needs.specs.NeedTables.{may_of, IsNeed, IsRun, KeepNeeds, AreNeeds, IsEarly, IsLacking};

use crate::choice::{rarest_of, run_at};
use crate::needs::{Wanted, copy_of, only_parts};
use char_sets::ClassTable;
use pat_bounds::{Bound, in_turn};
use pat_tree::{NodeId, Tree};

/// A text that every match of some parts takes, and how many of these stand behind those that
/// take it.
#[derive(Drop)]
pub(crate) struct Early {
    pub wanted: Wanted,
    pub behind: usize,
}

/// A text that every match takes, and what a search takes at most where it stands nowhere.
#[derive(Drop)]
pub(crate) struct Lacking {
    pub wanted: Wanted,
    pub bound: Bound,
}

/// The rarest text that every match takes, with the bound of a search without it: of a pattern
/// that is one sequence by its parts up to those that take the text.
pub(crate) fn lacking_of(
    tree: &Tree,
    classes: &ClassTable,
    bounds: &[Option<Bound>],
    needs: &[Option<Wanted>],
) -> Option<Lacking>
    requires table { IsTableOf tree.now classes.now }
    requires bounds { length bounds.now ≡ tree.now.root + 1 }
    requires needs { length needs.now ≡ tree.now.root + 1 }
    ensures { KeepBounds (class_has tree.now) (trees tree.now.nodes) bounds.now
        → KeepNeeds (may_of tree.now) tree.now.options.utf true (trees tree.now.nodes) needs.now
        → IfSome result (IsLacking tree.now) }
{
    match lacking_early(tree, classes, bounds, needs) {
        Some(lacking) => Some(lacking),
        None => lacking_whole(&needs[tree.root() as usize], bounds[tree.root() as usize]),
    }
}

/// The same by the bound of the whole pattern.
fn lacking_whole(need: &Option<Wanted>, bound: Option<Bound>) -> Option<Lacking>
    ensures { (tree : TreeParts) → Refines bound (spec.bound (class_has tree) (tree_of tree))
        → IsNeed (may_of tree) tree.options.utf true (tree_of tree) need.now
        → IfSome result (IsLacking tree) }
{
    Some(Lacking {
        wanted: copy_of(need)?,
        bound: bound?,
    })
}

/// The same of a pattern that is one sequence, by the bound of its first parts, where there is one.
fn lacking_early(
    tree: &Tree,
    classes: &ClassTable,
    bounds: &[Option<Bound>],
    needs: &[Option<Wanted>],
) -> Option<Lacking>
    requires table { IsTableOf tree.now classes.now }
    requires bounds { length bounds.now ≡ tree.now.root + 1 }
    requires needs { length needs.now ≡ tree.now.root + 1 }
    ensures { KeepBounds (class_has tree.now) (trees tree.now.nodes) bounds.now
        → KeepNeeds (may_of tree.now) tree.now.options.utf true (trees tree.now.nodes) needs.now
        → IfSome result (IsLacking tree.now) }
{
    let parts = only_parts(tree)?;
    let early = rarest_early(parts, needs)?;
    let first = &parts[..parts.len() - early.behind];
    let bound = in_turn(tree, classes, first, bounds)?;
    Some(Lacking {
        wanted: early.wanted,
        bound,
    })
}

/// Of what is needed of these parts, and of the texts that the items among them take, the rarest.
fn rarest_early(parts: &[NodeId], needs: &[Option<Wanted>]) -> Option<Early>
    requires { All (λ k. k < length needs.now) parts.now }
    ensures behind { IfSome result (λ early. early.behind ≤ length parts.now) }
    ensures takes { (may : Item → ℕ → Bool) (utf : Bool) → (of : ℕ → Nested)
        → AreNeeds may utf true of needs.now parts.now
        → IsEarly may utf (map of parts.now) result }
{
    let choice = rarest_of(parts, needs, true)?;
    let count = parts.len() - choice.at;
    if choice.is_run {
        return early_run(&run_at(parts, needs, choice.at), count);
    }
    early_part(&needs[parts[choice.at] as usize], count)
}

/// What is needed of the first of so many parts.
fn early_part(need: &Option<Wanted>, count: usize) -> Option<Early>
    requires { 0 < count }
    ensures behind { IfSome result (λ early. early.behind ≤ count) }
    ensures takes { (may : Item → ℕ → Bool) (utf : Bool) → (t : Nested) (ts : List Nested)
        → length (t ∷ ts) ≡ count
        → IsNeed may utf true t need.now → IsEarly may utf (t ∷ ts) result }
{
    Some(Early {
        wanted: copy_of(need)?,
        behind: count - 1,
    })
}

/// A text that items take with which so many parts begin.
fn early_run(run: &Option<Wanted>, count: usize) -> Option<Early>
    ensures behind { IfSome result (λ early. early.behind ≤ count) }
    ensures takes { (may : Item → ℕ → Bool) (utf : Bool) → (t : Nested) (ts : List Nested)
        → length (t ∷ ts) ≡ count
        → IsRun may utf (row (t ∷ ts)) run.now → IsEarly may utf (t ∷ ts) result }
{
    let wanted = copy_of(run)?;
    let behind = count.saturating_sub(wanted.text.count());
    Some(Early { wanted, behind })
}
