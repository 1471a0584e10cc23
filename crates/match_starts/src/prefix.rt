//! The single items that a pattern's branches begin with, tested before the machine goes over the pattern.
ghost use Rattle.std.specs.Prelude.{◌≡◌, ◌<◌, ◌≤◌, All, IfSome, length};
ghost use Rattle.pat_tree.specs.Nested.{tree_at, trees};
ghost use Rattle.pat_tree.specs.Rules.{class_in};
ghost use Rattle.char_sets.specs.Table.{IsTableOf};
ghost use Rattle.match_items.specs.Subjects.{IsText, IsTextPlace};
ghost use Rattle.match_items.specs.Items.{after_item};
ghost use Rattle.match_items.specs.Views.{text_scene, told};
ghost use Rattle.frame_board.specs.Ready.{setting_for};
ghost use Rattle.frame_board.specs.frame_state.Stops.{admitted};
ghost use Rattle.match_starts.specs.Asked.{passed_over};
ghost use Rattle.match_starts.specs.Prefix as prefix;
ghost use Rattle.match_starts.specs.Prefix.{AreBranches, IsFree, row_of};

use crate::search::{is_off, match_limit};
use char_sets::ClassTable;
use frame_board::Ready;
use match_items::{Taken, View, item_step};
use pat_tree::{Item, Node, NodeId, Tree};

/// What the single items that branches begin with tell of a place.
#[derive(Clone, Copy)]
pub enum Tested {
    /// The first branch that fits is made of such items alone, and ends there.
    Took(usize),
    /// In each branch one of them doesn't take what stands there.
    Refused,
    /// Too little.
    Open,
}

/// A pattern's branches, where it is a group of them.
fn branches_of(tree: &Tree) -> &[NodeId]
    ensures { AreBranches tree.now result.now }
{
    match tree.node(tree.root()) {
        Node::Group {
            number: None,
            branches,
        } => branches.as_slice(),
        _ => &[],
    }
}

/// Those that are tested before the machine runs: none where partial matches are looked for, as the subject's end may
/// be reached there, or where so many branches may pass a limit.
pub fn branches_tested<'a>(tree: &'a Tree, view: &View<'_>) -> &'a [NodeId]
    ensures branches { AreBranches tree.now result.now }
    ensures free { 0 < length result.now → IsFree view.now (length result.now) }
{
    let branches = branches_of(tree);
    if !is_off(view)
        || branches.len() > match_limit(view) as usize
        || view.matching.frame_limit == 0
    {
        return &[];
    }
    branches
}

/// The place after what an item takes.
pub fn taken(view: &View<'_>, classes: &ClassTable, item: &Item, at: usize) -> Option<usize>
    requires subject { IsText view.now.options.now view.now.subject.now }
    requires place { IsTextPlace view.now.options.now view.now.subject.now at }
    requires class { All (λ n. n < length classes.now) (class_in item.now) }
    ensures value { result ≡ after_item (text_scene view.now classes.now) item.now at }
    ensures place { IfSome result (λ to. IsTextPlace view.now.options.now view.now.subject.now to) }
{
    match item_step(view, classes, item, at) {
        Taken::Took(to) => Some(to),
        Taken::No | Taken::AtEnd => None,
    }
}

/// Tests the single items that a sequence begins with, each after what the one before it took.
fn test_items(ready: &Ready<'_>, view: &View<'_>, parts: &[NodeId], place: usize) -> Tested
    requires table { IsTableOf ready.now.tree.now ready.now.classes.now }
    requires subject { IsText view.now.options.now view.now.subject.now }
    requires place { IsTextPlace view.now.options.now view.now.subject.now place }
    requires below { All (λ k. k ≤ ready.now.tree.now.root) parts.now }
    ensures { result ≡ prefix.items_tested (text_scene view.now ready.now.classes.now)
        (row_of ready.now.tree.now parts.now) place }
{
    let mut i = 0;
    let mut at = place;
    'parts: while i < parts.len() {
        let Node::One(item) = ready.tree.node(parts[i]) else {
            return Tested::Open;
        };
        let Some(to) = taken(view, ready.classes, item, at) else {
            return Tested::Refused;
        };
        i += 1;
        at = to;
    }
    Tested::Took(at)
}

/// Tests a branch.
fn test_branch(ready: &Ready<'_>, view: &View<'_>, branch: NodeId, place: usize) -> Tested
    requires table { IsTableOf ready.now.tree.now ready.now.classes.now }
    requires subject { IsText view.now.options.now view.now.subject.now }
    requires place { IsTextPlace view.now.options.now view.now.subject.now place }
    requires below { branch ≤ ready.now.tree.now.root }
    ensures { result ≡ prefix.branch_tested (text_scene view.now ready.now.classes.now)
        (tree_at (trees ready.now.tree.now.nodes) branch) place }
{
    match ready.tree.node(branch) {
        Node::Seq(parts) => test_items(ready, view, parts.as_slice(), place),
        _ => test_items(ready, view, &[branch], place),
    }
}

/// Tests branches, up to the first one that isn't refused.
pub fn test_branches(
    ready: &Ready<'_>,
    view: &View<'_>,
    branches: &[NodeId],
    place: usize,
) -> Tested
    requires table { IsTableOf ready.now.tree.now ready.now.classes.now }
    requires subject { IsText view.now.options.now view.now.subject.now }
    requires place { IsTextPlace view.now.options.now view.now.subject.now place }
    requires below { All (λ k. k ≤ ready.now.tree.now.root) branches.now }
    ensures { result ≡ prefix.tested (text_scene view.now ready.now.classes.now)
        (row_of ready.now.tree.now branches.now) place }
{
    let mut i = 0;
    'branches: while i < branches.len() {
        match test_branch(ready, view, branches[i], place) {
            Tested::Refused => i += 1,
            told => return told,
        }
    }
    Tested::Refused
}

/// Whether a match from one place to another counts: it may have to be not empty, or to end with the subject (pcre2api,
/// "Option bits for pcre2_match()").
pub fn is_admitted(ready: &Ready<'_>, view: &View<'_>, place: usize, to: usize) -> bool
    requires { view.now.options.now ≡ ready.now.tree.now.options }
    ensures { result ≡ admitted (setting_for ready.now.tree.now view.now passed_over) place to }
{
    let (options, matching) = (view.options, view.matching);
    let never_empty = options.notempty || matching.notempty;
    let not_at_start = options.notempty_atstart || matching.notempty_atstart;
    let to_end = options.endanchored || matching.endanchored;
    let refused = place == to && (never_empty || not_at_start && place == view.start);
    !refused && !(to_end && to != view.subject.len())
}
