// What the nodes of a pattern hold, each apart from its children.
ghost use Rattle.std.specs.Prelude.{◌≡◌, ◌≤◌, ◌∷◌, All, List, map};
ghost use Rattle.pat_tree.specs.Nested.{Nested, trees, tree_at, nest};
ghost use Rattle.pat_lengths.specs.Nodes as nodes;
ghost use Rattle.pat_check.specs.Survey.{IsSurvey};

use crate::names::names;
use crate::support::{DfaSupport, node_support};
use pat_lengths::is_accept;
use pat_tree::{AnchorKind, Node, NodeId, Tree};

/// What some of the nodes seen hold, and what the first that isn't supported says.
#[derive(Clone, Copy)]
pub(crate) struct Survey {
    pub names_crlf: bool,
    pub has_lookbehind: bool,
    pub tests_before: bool,
    pub has_accept: bool,
    pub dfa: DfaSupport,
}

impl Survey {
    /// Takes in a node that stands before those seen.
    fn see(&mut self, tree: &Tree, id: NodeId)
        requires { id ≤ tree.now.root }
        ensures { (seen : List Nested) → IsSurvey tree.now.classes seen self.old
            → IsSurvey tree.now.classes (tree_at (trees tree.now.nodes) id ∷ seen) self.new }
    {
        let node = tree.node(id);
        let names_crlf = names(tree, node) || self.names_crlf;
        let has_lookbehind = is_lookbehind(node) || self.has_lookbehind;
        let tests_before = looks_before(node) || self.tests_before;
        let has_accept = is_accept(node) || self.has_accept;
        let dfa = node_support(node).or_later(self.dfa);
        *self = Survey {
            names_crlf,
            has_lookbehind,
            tests_before,
            has_accept,
            dfa,
        };
    }
}

/// What these nodes hold.
pub(crate) fn survey_of(tree: &Tree, order: &[NodeId]) -> Survey
    requires { All (λ k. k ≤ tree.now.root) order.now }
    ensures { IsSurvey tree.now.classes (map (tree_at (trees tree.now.nodes)) order.now) result }
{
    let mut survey = Survey {
        names_crlf: false,
        has_lookbehind: false,
        tests_before: false,
        has_accept: false,
        dfa: DfaSupport::Yes,
    };
    let mut i = order.len();
    while i > 0 {
        i -= 1;
        survey.see(tree, order[i]);
    }
    survey
}

fn is_lookbehind(node: &Node) -> bool
    ensures { (trees : List Nested) → result ≡ nodes.is_lookbehind (nest trees node.now) }
{
    match node {
        Node::Look { ahead, .. } => !*ahead,
        _ => false,
    }
}

/// Whether a node is `\b`, `\B` or `\A`.
fn looks_before(node: &Node) -> bool
    ensures { (trees : List Nested) → result ≡ nodes.looks_before (nest trees node.now) }
{
    match node {
        Node::Anchor(kind) => matches!(
            kind,
            AnchorKind::SubjectStart | AnchorKind::Word { .. } | AnchorKind::NotWord { .. }
        ),
        _ => false,
    }
}
