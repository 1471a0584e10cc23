//! Patterns that stand at the subject's begin alone (pcre2pattern, "Circumflex and dollar").
ghost use Rattle.std.specs.Prelude.{◌≡◌, ◌≤◌, IsTrue};
ghost use Rattle.pat_tree.specs.Nested.{tree_at, trees};
ghost use Rattle.pat_tree.specs.Parts.{tree_of};
ghost use Rattle.match_drive.specs.Begin as begin;
ghost use Rattle.match_drive.specs.Begin.{BeginsSequence, StandsAtBegin};

use pat_tree::{AnchorKind, Node, NodeId, Tree};

/// Whether an assertion holds at the subject's begin alone.
fn is_begin(kind: AnchorKind) -> bool
    ensures { result ≡ begin.is_begin kind }
{
    match kind {
        AnchorKind::Caret { multi } => !multi,
        AnchorKind::SubjectStart => true,
        _ => false,
    }
}

/// Whether a part is a sequence that begins with such an assertion.
fn begins_sequence(tree: &Tree, part: NodeId) -> bool
    requires { part ≤ tree.now.root }
    ensures { IsTrue result → BeginsSequence (tree_at (trees tree.now.nodes) part) }
{
    let Node::Seq(parts) = tree.node(part) else {
        return false;
    };
    let [first, ..] = parts.as_slice() else {
        return false;
    };
    let Node::Anchor(kind) = tree.node(*first) else {
        return false;
    };
    is_begin(*kind)
}

/// Whether a pattern has one alternative, which begins with `^` outside MULTILINE or with `\A`. Every match of such a
/// pattern begins at the subject's begin.
pub(crate) fn stands_at_begin(tree: &Tree) -> bool
    ensures { IsTrue result → StandsAtBegin (tree_of tree.now) }
{
    let Node::Group {
        number: None,
        branches,
    } = tree.node(tree.root())
    else {
        return false;
    };
    let [only] = branches.as_slice() else {
        return false;
    };
    begins_sequence(tree, *only)
}
