//! Where the branches of a part begin: those of a lookbehind at earlier places (pcre2pattern, "Lookbehind assertions").
ghost use Rattle.std.specs.Prelude.{◌≡◌, All, true, option_map};
ghost use Rattle.frame_state.specs.Ground.{IsPart, tree_of};
ghost use Rattle.frame_state.specs.Begun.{is_behind, IsFixedPart, begun_place, begun_next, begun_spot, first_begun};
ghost use Rattle.frame_state.specs.Begun.{first_spot, placed};

use crate::machine::{Next, Spot};
use crate::searchable::Searchable;
use pat_tree::{Kids, Node};

/// Whether a part is a lookbehind.
pub fn is_behind<S: Searchable>(on: &S, part: u32) -> bool
    requires { IsPart (S.searched on.now) part }
    ensures { result ≡ is_behind (tree_of (S.searched on.now) part) }
{
    match on.node(part) {
        Node::Look { ahead, .. } => !*ahead,
        _ => false,
    }
}

/// Begins a branch. One of a lookbehind begins so many characters before the place as it is long, if there are so many;
/// where its lengths differ, it is tried from the greatest for which so many stand before.
pub fn begin_branch<S: Searchable>(on: &S, behind: bool, branch: u32, spot: &mut Spot) -> Next
    requires inside { IsPart (S.searched on.now) branch }
    requires fixed { behind ≡ true → IsFixedPart (S.searched on.now) branch }
    requires place { (S.searched on.now).stands spot.old.place ≡ true }
    ensures next { result
        ≡ begun_next behind (begun_place (S.searched on.now) branch spot.old.place) branch }
    ensures spot { spot.new
        ≡ begun_spot behind (begun_place (S.searched on.now) branch spot.old.place) spot.old }
{
    if !behind {
        return Next::Enter(branch);
    }
    let back = on.back(branch);
    if back.least == back.most {
        return begin_back(branch, on.step_back(spot.place, back.most), spot);
    }
    let room = on.room_before(spot.place, back.most);
    if room < back.least {
        return Next::Back;
    }
    Next::Try(branch, room)
}

/// Begins a branch at a place before, if there is one.
pub fn begin_back(branch: u32, to: Option<u64>, spot: &mut Spot) -> Next
    ensures next { result ≡ begun_next true (option_map placed to) branch }
    ensures spot { spot.new ≡ begun_spot true (option_map placed to) spot.old }
{
    match to {
        None => Next::Back,
        Some(place) => {
            spot.place = place;
            spot.early = spot.early.min(place);
            Next::Enter(branch)
        }
    }
}

/// Begins the branches of a part.
pub fn begin_branches<S: Searchable>(
    on: &S,
    behind: bool,
    part: u32,
    branches: &Kids,
    spot: &mut Spot,
) -> Next
    requires inside { All (IsPart (S.searched on.now)) branches.now }
    requires fixed { behind ≡ true → All (IsFixedPart (S.searched on.now)) branches.now }
    requires place { (S.searched on.now).stands spot.old.place ≡ true }
    ensures next { result ≡ first_begun (S.searched on.now) behind part branches.now
        spot.old.place }
    ensures spot { spot.new ≡ first_spot (S.searched on.now) behind branches.now spot.old }
{
    match branches.as_slice() {
        [] => Next::Back,
        [only] => begin_branch(on, behind, *only, spot),
        _ => Next::Branch(part, 0),
    }
}
