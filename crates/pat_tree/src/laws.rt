//! Worked rows of the definitions.
ghost use Rattle.std.specs.Prelude.{ℕ, Bool, List, ◌≡◌, ◌||◌, ◌&&◌, not, nat_lt, length, true, false, [], ◌∷◌, Some};
ghost use Rattle.std.specs.Prelude.{None};
ghost use Rattle.pat_tree.specs.declared.nodes.Item.TheVariants.{Char};
ghost use Rattle.pat_tree.specs.declared.nodes.Node.TheVariants.{Call};
ghost use Rattle.pat_tree.specs.Nested.{trees, tree_at, row, one, seq, group, condition, called, assert, no_other};
ghost use Rattle.pat_tree.specs.Refs.{refs, has_group, bad_ref, is_in, IsLeftmost};
ghost use Rattle.pat_tree.specs.Growing.{loose, AreBelow};
ghost use Rattle.pat_tree.specs.Sound.{children};
ghost use Rattle.pat_tree.specs.declared.nodes.Placed.{Placed};
ghost use Rattle.pat_tree.specs.declared.names.NameEntry.{NameEntry};
ghost use Rattle.std.specs.List.{list_any};
ghost use Rattle.pat_tree.specs.Names.{AreInOrder, with_name};
ghost use Rattle.pat_tree.specs.Rows.{placed, reference, named, two_branches, called_condition};

/// Nodes stand for the nested trees of their children, and the last that no node has taken is the whole.
#[tactic(auto, unfolding(crate::specs::Nested::trees, crate::specs::Nested::trees_after, crate::specs::Growing::loose, crate::specs::Growing::loose_after))]
pub fn nodes_stand_for_nested_trees()
    ensures branches { tree_at (trees two_branches) 4
        ≡ group (Some 1)
        (row (seq (row (one (Char 97 false) ∷ one (Char 98 false) ∷ []))
        ∷ one (Char 99 false) ∷ [])) }
    ensures taken { loose two_branches ≡ 4 ∷ [] }
    ensures callout_before_test { tree_at (trees called_condition) 5
        ≡ condition
        (called (record { number = 7; text_from = 0; text_to = 0; item_at = 7; item_len = 5 })
        (assert true true true (row (one (Char 97 false) ∷ [])))) (one (Char 98 false)) no_other }
{}

/// The leftmost place that names no group is the least, whichever node came first. In a call 0 is the whole pattern.
#[tactic(auto, unfolding(crate::specs::Refs::refs))]
pub fn the_leftmost_bad_reference()
    ensures none { bad_ref (has_group two_branches) (refs (reference 1 6 ∷ [])) ≡ None }
    ensures least { bad_ref (has_group two_branches)
        (refs (reference 2 9 ∷ reference 1 3 ∷ reference 3 6 ∷ [])) ≡ Some 6 }
    ensures whole { bad_ref (has_group two_branches) (refs (placed (Call 0) 6 ∷ [])) ≡ None }
    ensures no_group { bad_ref (has_group two_branches) (refs (reference 0 6 ∷ [])) ≡ Some 6 }
{}

/// Names stand by their bytes, then by their groups, each pair once.
pub fn names_in_order()
    ensures first { with_name (named (97 ∷ []) 2) [] ≡ named (97 ∷ []) 2 ∷ [] }
    ensures shorter_first { with_name (named (97 ∷ []) 2) (named (97 ∷ 98 ∷ []) 1 ∷ [])
        ≡ named (97 ∷ []) 2 ∷ named (97 ∷ 98 ∷ []) 1 ∷ [] }
    ensures by_group { with_name (named (97 ∷ []) 2) (named (97 ∷ []) 1 ∷ named (98 ∷ []) 1 ∷ [])
        ≡ named (97 ∷ []) 1 ∷ named (97 ∷ []) 2 ∷ named (98 ∷ []) 1 ∷ [] }
    ensures once { with_name (named (97 ∷ []) 1) (named (97 ∷ []) 1 ∷ []) ≡ named (97 ∷ []) 1 ∷ [] }
{}

/// A node is loose where it was added and no node has it as a child.
#[tactic(auto, using(crate::proofs::Taken::loose_is))]
pub fn a_loose_node_is_no_child()
    ensures { (k : ℕ) (nodes : List Placed) → AreBelow 0 nodes → is_in k (loose nodes)
        ≡ (nat_lt k (length nodes) && not (is_in k (children nodes))) }
{}

/// No place is bad where each group that is named stands; else the bad place names a group that does not stand, and no
/// place before it does.
#[tactic(auto, using(crate::proofs::Named::leftmost_is))]
pub fn a_bad_place_is_the_leftmost()
    ensures { (stands : ℕ → Bool) (named : List (ℕ × ℕ)) → IsLeftmost stands named
        (bad_ref stands named) }
{}

/// A pair takes its place in the order of the table, which then has that pair beside the old ones and no other.
#[tactic(auto, using(crate::proofs::Naming::still_ordered, crate::proofs::Naming::pairs_with))]
pub fn a_pair_takes_its_place()
    ensures ordered { (pair : NameEntry) (table : List NameEntry) → AreInOrder table
        → AreInOrder (with_name pair table) }
    ensures pairs { (test : NameEntry → Bool) (pair : NameEntry) (table : List NameEntry)
        → list_any test (with_name pair table) ≡ (test pair || list_any test table) }
{}
