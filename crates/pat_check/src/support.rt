//! What the search for all ends at a place can do.
ghost use Rattle.std.specs.Prelude.{◌≡◌, if◌then◌else◌, List};
ghost use Rattle.pat_tree.specs.Nested.{Nested, nest, cond_of};
ghost use Rattle.pat_check.specs.Support as support;

use pat_tree::{Cond, Node, Verb};

/// Whether the search for all ends at a place serves a pattern (pcre2matching, "The alternative matching algorithm";
/// pcre2api, "Error returns from pcre2_dfa_match()").
#[derive(Clone, Copy, Debug, PartialEq, Eq)]
pub enum DfaSupport {
    /// It does.
    Yes,
    /// The pattern holds an item that isn't supported (PCRE2_ERROR_DFA_UITEM).
    Item,
    /// The pattern holds a condition that isn't supported (PCRE2_ERROR_DFA_UCOND).
    Cond,
}

impl DfaSupport {
    /// This, or what comes later where this is supported.
    pub(crate) fn or_later(self, later: DfaSupport) -> DfaSupport
        ensures { result ≡ support.or_later self later }
    {
        match self {
            DfaSupport::Yes => later,
            DfaSupport::Item => DfaSupport::Item,
            DfaSupport::Cond => DfaSupport::Cond,
        }
    }
}

/// Whether a node is supported, apart from its children.
pub(crate) fn node_support(node: &Node) -> DfaSupport
    ensures { (trees : List Nested) → result ≡ support.node_support (nest trees node.now) }
{
    match node {
        Node::Ref { .. } => DfaSupport::Item,
        Node::Call { .. } => DfaSupport::Item,
        Node::KeepOut => DfaSupport::Item,
        Node::VerbNode(verb) => verb_support(*verb),
        Node::Look { atomic, .. } => look_support(*atomic),
        Node::Cond { test, .. } => test_support(test),
        _ => DfaSupport::Yes,
    }
}

fn look_support(atomic: bool) -> DfaSupport
    ensures { result ≡ (if atomic then DfaSupport.Yes else DfaSupport.Item) }
{
    if atomic {
        DfaSupport::Yes
    } else {
        DfaSupport::Item
    }
}

/// Of the verbs only FAIL is supported.
fn verb_support(verb: Verb) -> DfaSupport
    ensures { result ≡ support.verb_support verb }
{
    match verb {
        Verb::Fail { .. } => DfaSupport::Yes,
        _ => DfaSupport::Item,
    }
}

/// A condition on a group, or on a recursion of a group, isn't supported.
fn test_support(test: &Cond) -> DfaSupport
    ensures { (trees : List Nested) → result ≡ support.test_support (cond_of trees test.now) }
{
    match test {
        Cond::AnySet(_) => DfaSupport::Cond,
        Cond::InCallOf(_) => DfaSupport::Cond,
        _ => DfaSupport::Yes,
    }
}
