//! Worked rows of the definitions.
ghost use Rattle.std.specs.Prelude.{◌≡◌, ◌∷◌, ◌++◌, [], codes, true, false, Some, None};
ghost use Rattle.pat_tree.specs.declared.nodes.Cond.TheVariants as test;
ghost use Rattle.pat_tree.specs.declared.nodes.Node.TheVariants as node;
ghost use Rattle.pat_tree.specs.Rows.{named};
ghost use Rattle.pat_save.specs.Image.{image_of, options_bytes, name_bytes, class_bytes, node_bytes, placed_bytes};
ghost use Rattle.pat_save.specs.Image.{record_bytes};
ghost use Rattle.pat_save.specs.Fields.{counted};
ghost use Rattle.pat_save.specs.Rows.{options, no_small_letter, nothing, letters};

/// Images are these bytes: numbers have the least byte first, and a node has none for its children.
#[tactic(auto, unfolding(crate::specs::Image::image_of, pat_tree::specs::Sound::group_numbers))]
pub fn worked_rows()
    ensures none { image_of [] ≡ codes "PCP1" ++ 0 ∷ 0 ∷ 0 ∷ 0 ∷ [] }
    ensures plain { options_bytes (options false None) ≡ 0 ∷ 0 ∷ 0 ∷ 0 ∷ 1 ∷ 0 ∷ 0 ∷ [] }
    ensures utf { options_bytes (options true (Some 258))
        ≡ 0 ∷ 32 ∷ 0 ∷ 0 ∷ 1 ∷ 0 ∷ 1 ∷ 2 ∷ 1 ∷ 0 ∷ 0 ∷ [] }
    ensures name { name_bytes (named (codes "ab") 513) ≡ 1 ∷ 2 ∷ 0 ∷ 0 ∷ 2 ∷ 97 ∷ 98 ∷ [] }
    ensures class { class_bytes no_small_letter ≡ 1 ∷ 2 ∷ 0 ∷ 0 ∷ 0
        ∷ 0 ∷ 97 ∷ 0 ∷ 0 ∷ 0 ∷ 99 ∷ 0 ∷ 0 ∷ 0 ∷ 1 ∷ 1 ∷ 16 ∷ 6 ∷ 0 ∷ [] }
    ensures repeat { node_bytes (node.Repeat 7 2 None true) ≡ 5 ∷ 2 ∷ 0 ∷ 0 ∷ 1 ∷ [] }
    ensures look { node_bytes (node.Look true false true (3 ∷ 4 ∷ []))
        ≡ 8 ∷ 1 ∷ 0 ∷ 1 ∷ 2 ∷ 0 ∷ 0 ∷ 0 ∷ [] }
    ensures condition { node_bytes (node.Cond (test.Assert 3) 4 (Some 5)) ≡ 9 ∷ 4 ∷ 1 ∷ [] }
    ensures reference { node_bytes (node.Ref (1 ∷ 300 ∷ []) true)
        ≡ 11 ∷ 2 ∷ 0 ∷ 0 ∷ 0 ∷ 1 ∷ 0 ∷ 44 ∷ 1 ∷ 1 ∷ [] }
    ensures nothing { record_bytes nothing ≡ options_bytes (options false None)
        ++ (0 ∷ 0 ∷ 0 ∷ 0 ∷ 0 ∷ 0 ∷ 0 ∷ 0 ∷ 0 ∷ 0 ∷ 0 ∷ 0 ∷ 0 ∷ 0 ∷ 0 ∷ 0 ∷ 0 ∷ 0 ∷ 0 ∷ 0
        ∷ 1 ∷ 0 ∷ 0 ∷ 0 ∷ 0 ∷ []) }
    ensures nodes { counted placed_bytes letters.tree.nodes ≡ 5 ∷ 0 ∷ 0 ∷ 0
        ∷ 1 ∷ 0 ∷ 97 ∷ 0 ∷ 0 ∷ 0 ∷ 0 ∷ 1 ∷ 0 ∷ 98 ∷ 0 ∷ 0 ∷ 0 ∷ 0 ∷ 3 ∷ 2 ∷ 0 ∷ 0 ∷ 0
        ∷ 1 ∷ 0 ∷ 99 ∷ 0 ∷ 0 ∷ 0 ∷ 0 ∷ 4 ∷ 1 ∷ 1 ∷ 0 ∷ 2 ∷ 0 ∷ 0 ∷ 0 ∷ [] }
{}
