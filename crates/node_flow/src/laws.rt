//! Laws on the definitions, and worked rows.
ghost use Rattle.std.specs.Prelude.{◌≡◌, [], ◌∷◌, Some, None};
ghost use Rattle.node_flow.specs.Branches.{BranchesAreAround, branch_of};
ghost use Rattle.node_flow.specs.Followers.{rest};
ghost use Rattle.node_flow.specs.Linked.{FollowersHangTogether};
ghost use Rattle.node_flow.specs.LookBranches.{LookBranchesAreAround, look_branch_of};
ghost use Rattle.node_flow.specs.Order.{ChildrenStandInTurn, PartsComeFirst, PartsStandOnce, PartsStandTogether, order};
ghost use Rattle.node_flow.specs.Rows.{group_before_d, condition_before_d, look_before_d, repeat_before_c};

/// What follows parts of `(?:ab|c)d`, `(ab|c)d`, `(?(?=a)b|c)d` and `(?:ab){2}c`, the branches around some of them and
/// around parts of `(?<=(?:a)|(b))d`, and the order of the third.
#[tactic(auto, unfolding(crate::specs::Followers::rest, crate::specs::Followers::rest_among, crate::specs::Around::told_of, crate::specs::Around::told_among, crate::specs::Order::order, crate::specs::Order::orders_after))]
pub fn worked_rows()
    ensures plain { rest (group_before_d None) 7 0 ≡ 1 ∷ 5 ∷ [] }
    ensures last { rest (group_before_d None) 7 1 ≡ 5 ∷ [] }
    ensures capturing { rest (group_before_d (Some 1)) 7 0 ≡ 1 ∷ [] }
    ensures branch { rest (group_before_d (Some 1)) 7 3 ≡ [] }
    ensures group { rest (group_before_d (Some 1)) 7 4 ≡ 5 ∷ [] }
    ensures inner_root { rest (group_before_d None) 4 4 ≡ [] }
    ensures second_branch { rest condition_before_d 6 3 ≡ 5 ∷ [] }
    ensures test { rest condition_before_d 6 1 ≡ [] }
    ensures turn { rest repeat_before_c 5 1 ≡ [] }
    ensures turns { rest repeat_before_c 5 3 ≡ 4 ∷ [] }
    ensures around { branch_of (group_before_d None) 7 1 ≡ Some 2 }
    ensures behind { branch_of (group_before_d None) 7 5 ≡ None }
    ensures choice { branch_of condition_before_d 6 3 ≡ None }
    ensures body { branch_of repeat_before_c 5 1 ≡ None }
    ensures looking { look_branch_of look_before_d 6 0 ≡ Some 1 }
    ensures looking_inside { look_branch_of look_before_d 6 2 ≡ None }
    ensures looked { look_branch_of look_before_d 6 5 ≡ None }
    ensures order { order condition_before_d 6 ≡ 6 ∷ 4 ∷ 1 ∷ 0 ∷ 2 ∷ 3 ∷ 5 ∷ [] }
{}

/// Of every finished tree: nothing follows the whole, what follows a part is inside the tree, the first that follows is
/// followed by the others, and the children of each node are followed as it says.
pub fn followers_hang_together()
    ensures { FollowersHangTogether }
{}

/// Of every finished tree: around the whole is no branch, and around the children of each node is what it says.
pub fn branches_are_around()
    ensures { BranchesAreAround }
{}

/// Of every finished tree: around the whole is no branch of a lookbehind, and around the children of each node is what
/// it says.
pub fn look_branches_are_around()
    ensures { LookBranchesAreAround }
{}

/// Of every finished tree: in its order a part comes before those under it, these stand behind it side by side, and
/// none stands at two places.
pub fn parts_stand_in_order()
    ensures first { PartsComeFirst }
    ensures once { PartsStandOnce }
    ensures together { PartsStandTogether }
    ensures in_turn { ChildrenStandInTurn }
{}
