//! The run of one item that a pattern begins with: a start place that fails has those up to the
//! run's end fail with it.
ghost use Rattle.std.specs.Prelude.{◌≡◌, ◌<◌, All, IfSome, IsTrue, false, length};
ghost use Rattle.pat_tree.specs.Parts.{tree_of};
ghost use Rattle.pat_tree.specs.Rules.{class_in};
ghost use Rattle.ordered_search.specs.LaterPlaces as later;
ghost use Rattle.ordered_search.specs.Plain.{IsPlain};
ghost use Rattle.match_drive.specs.Run as run;
ghost use Rattle.match_drive.specs.Run.{BeginsByRun, GoesByRuns};

use match_items::View;
use match_starts::is_off;
use pat_tree::{Cond, Item, Node, NodeId, Tree};

/// Whether what a node takes goes by the place alone, and not by captures and calls; and no verb
/// and no callout stands there.
fn is_plain_node(node: &Node) -> bool
    ensures { result ≡ run.is_plain node.now }
{
    match node {
        Node::Cond { test, .. } => matches!(test, Cond::Never | Cond::Assert(_)),
        Node::Call { .. } | Node::Ref { .. } | Node::VerbNode(_) | Node::Callout { .. } => false,
        _ => true,
    }
}

/// Whether all nodes of a tree go by the place alone.
fn is_plain(tree: &Tree) -> bool
    ensures { IsTrue result → IsPlain (tree_of tree.now) }
{
    for id in 0..tree.root() {
        if !is_plain_node(tree.node(id)) {
            return false;
        }
    }
    is_plain_node(tree.node(tree.root()))
}

/// The part that a node begins with: the first of a sequence, or a group's only branch.
fn first_part(node: &Node) -> Option<NodeId>
    ensures { result ≡ run.first_part node.now }
{
    match node {
        Node::Seq(parts) => parts.as_slice().first().copied(),
        Node::Group { branches, .. } => match branches.as_slice() {
            [only] => Some(*only),
            _ => None,
        },
        _ => None,
    }
}

/// The item of a greedy repeat without a maximum.
fn run_of(node: &Node) -> Option<Item>
    ensures { result ≡ run.run_of node.now }
{
    match node {
        Node::OneRepeat {
            item,
            max: None,
            lazy: false,
            ..
        } => Some(*item),
        _ => None,
    }
}

/// The item that a pattern begins with where it begins with a greedy repeat of one without a
/// maximum.
fn first_run(tree: &Tree) -> Option<Item>
    ensures is { result ≡ later.first_run (tree_of tree.now) }
    ensures class { IfSome result (λ item. All (λ n. n < length tree.now.classes) (class_in item)) }
{
    let mut id = tree.root();
    'parts: while let Some(part) = first_part(tree.node(id)) {
        id = part;
    }
    run_of(tree.node(id))
}

/// The item whose run a pattern begins with, where nothing in the pattern goes by what was captured.
pub(crate) fn plain_run(tree: &Tree) -> Option<Item>
    ensures { IfSome result (BeginsByRun tree.now) }
{
    let item = first_run(tree)?;
    if is_plain(tree) { Some(item) } else { None }
}

/// Whether a search goes by such a run, where a place that fails has all places in the run from
/// there fail: matches of the empty text count. Not in UTF, where places go by characters, and not
/// where partial matches are looked for.
pub(crate) fn goes_by_run(view: &View<'_>) -> bool
    ensures { IsTrue result → GoesByRuns view.now }
{
    let (options, matching) = (view.options, view.matching);
    let any_length = !(options.notempty || matching.notempty);
    let any_start = !(options.notempty_atstart || matching.notempty_atstart);
    !options.utf && is_off(view) && any_length && any_start
}
