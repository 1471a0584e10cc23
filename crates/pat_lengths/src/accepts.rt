//! Which nodes are ACCEPT.
ghost use Rattle.std.specs.Prelude.{◌≡◌, List};
ghost use Rattle.pat_tree.specs.Nested.{Nested, nest};
ghost use Rattle.pat_lengths.specs.Nodes as nodes;

use pat_tree::{Node, Verb};

/// Whether a node is ACCEPT (pcre2pattern, "Verbs that act immediately").
pub fn is_accept(node: &Node) -> bool
    ensures { (trees : List Nested) → result ≡ nodes.is_accept (nest trees node.now) }
{
    match node {
        Node::VerbNode(verb) => matches!(verb, Verb::Accept { .. }),
        _ => false,
    }
}
