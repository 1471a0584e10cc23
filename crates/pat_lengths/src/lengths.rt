// The lengths of a pattern's nodes, where each call and reference is as long as the group that it names.
ghost use Rattle.std.specs.Prelude.{◌≡◌, ℕ, ◌+◌, ◌∷◌, ◌<◌, ◌||◌, true, All, Bool, List, IfOk, length};
ghost use Rattle.pat_tree.specs.Nested.{Nested, trees, tree_at, nest};
ghost use Rattle.pat_tree.specs.Rules.{kids_of, asserted_by, is_test, number_in, IsOrdered};
ghost use Rattle.pat_lengths.specs.Leading.{names_of};
ghost use Rattle.pat_lengths.specs.Lengths as lengths;
ghost use Rattle.pat_lengths.specs.Lengths.{SomeLengths, lengths};
ghost use Rattle.pat_lengths.specs.Nodes.{has_shared_number};
ghost use Rattle.pat_lengths.specs.Spans.{EachBy, kept, span_at, KeepSpans, KeepGroups, lengths_of_parts};
ghost use Rattle.pat_lengths.specs.Spans.{lengths_of_branches, lengths_of_condition};

use crate::spans::{Span, any_length, between, either, in_turn, in_turns, only};
use pat_tree::{Cond, Memory, Node, NodeId, Tree};
use std::alloc::Global;

/// The lengths of each node up to the root, by those of the groups. Under `any` a reference has any length.
pub(crate) fn spans_of(
    alloc: Global,
    tree: &Tree,
    any: bool,
    groups: &[Option<Span>],
) -> Result<Vec<Option<Span>>, Memory>
    ensures count { IfOk result (λ spans. length spans.items ≡ tree.now.root + 1) }
    ensures kept { IfOk result (λ spans.
        (unset : Bool) (whole : Nested) (of_group : ℕ → SomeLengths)
        → KeepGroups unset whole of_group any groups.now
        → KeepSpans (lengths unset whole of_group) (trees tree.now.nodes) spans.items) }
    ensures each { IfOk result (λ spans.
        (unset : Bool) (whole : Nested) (of_group : ℕ → SomeLengths)
        → any ≡ (unset || has_shared_number whole)
        → EachBy (λ n. span_at groups.now n ≡ kept (of_group n))
        (lengths unset whole of_group) (trees tree.now.nodes) spans.items) }
{
    let mut spans = Vec::with_capacity(alloc, tree.root() as usize + 1)?;
    for id in 0..tree.root() as u64 + 1 {
        let span = node_span(tree.node(id as u32), any, groups, &spans);
        spans.push(span)?;
    }
    Ok(spans)
}

/// The lengths of a node, by those of its children and of the groups that it names.
pub(crate) fn node_span(
    node: &Node,
    any: bool,
    groups: &[Option<Span>],
    spans: &[Option<Span>],
) -> Option<Span>
    requires below { All (λ k. k < length spans.now) (kids_of node.now) }
    requires ordered { IsOrdered node.now }
    ensures { (trees : List Nested) (unset : Bool) (whole : Nested) (of_group : ℕ → SomeLengths)
        → All (λ k. is_test (tree_at trees k) ≡ true) (asserted_by node.now)
        → any ≡ (unset || has_shared_number whole)
        → All (λ n. span_at groups.now n ≡ kept (of_group n)) (names_of node.now)
        → All (λ k. span_at spans.now k ≡ kept (lengths unset whole of_group (tree_at trees k)))
        (kids_of node.now)
        → result ≡ kept (lengths unset whole of_group (nest trees node.now)) }
{
    match node {
        Node::One(_) => only(1),
        Node::Break => between(1, Some(2)),
        Node::Seq(kids) => span_of_parts(kids.as_slice(), spans),
        Node::Group { branches, .. } => span_of_branches(branches.as_slice(), spans),
        Node::Repeat { body, min, max, .. } => in_turns(*min, *max, spans[*body as usize]),
        Node::OneRepeat { min, max, .. } => in_turns(*min, *max, only(1)),
        Node::Atomic(branches) => span_of_branches(branches.as_slice(), spans),
        Node::Cond { test, yes, no } => span_of_condition(test, *yes, *no, spans),
        Node::Call { group } => span_of_group(groups, *group),
        Node::Ref { groups: named, .. } => span_of_ref(named.as_slice(), any, groups),
        _ => only(0),
    }
}

fn span_of_group(groups: &[Option<Span>], number: u16) -> Option<Span>
    ensures { result ≡ span_at groups.now number }
{
    match groups.get(number as usize) {
        Some(span) => *span,
        None => None,
    }
}

/// A reference to one group is as long as the group, where no other group can stand for it.
fn span_of_ref(named: &[u16], any: bool, groups: &[Option<Span>]) -> Option<Span>
    ensures { (unset : Bool) (whole : Nested) (of_group : ℕ → SomeLengths)
        → any ≡ (unset || has_shared_number whole)
        → All (λ n. span_at groups.now n ≡ kept (of_group n)) named.now
        → result ≡ kept (lengths.of_ref unset whole of_group named.now) }
{
    if named.len() != 1 || any {
        return any_length();
    }
    span_of_group(groups, named[0])
}

/// The lengths of parts one after the other.
fn span_of_parts(parts: &[NodeId], spans: &[Option<Span>]) -> Option<Span>
    requires { All (λ k. k < length spans.now) parts.now }
    ensures { (of : ℕ → SomeLengths) → All (λ k. span_at spans.now k ≡ kept (of k)) parts.now
        → result ≡ kept (lengths_of_parts of parts.now) }
{
    let mut whole = only(0);
    let mut i = parts.len();
    while i > 0 {
        i -= 1;
        whole = in_turn(spans[parts[i] as usize], whole);
    }
    whole
}

/// The lengths of one of these branches.
fn span_of_branches(branches: &[NodeId], spans: &[Option<Span>]) -> Option<Span>
    requires { All (λ k. k < length spans.now) branches.now }
    ensures { (of : ℕ → SomeLengths) → All (λ k. span_at spans.now k ≡ kept (of k)) branches.now
        → result ≡ kept (lengths_of_branches of branches.now) }
{
    let mut whole = None;
    let mut i = branches.len();
    while i > 0 {
        i -= 1;
        whole = either(spans[branches[i] as usize], whole);
    }
    whole
}

/// The lengths of a condition. A definition matches nothing where it stands.
fn span_of_condition(
    test: &Cond,
    yes: NodeId,
    no: Option<NodeId>,
    spans: &[Option<Span>],
) -> Option<Span>
    requires { All (λ k. k < length spans.now) (yes ∷ number_in no) }
    ensures { (of : ℕ → SomeLengths)
        → All (λ k. span_at spans.now k ≡ kept (of k)) (yes ∷ number_in no)
        → result ≡ kept (lengths_of_condition of test.now yes no) }
{
    if let Cond::Never = test {
        return only(0);
    }
    match no {
        Some(no) => either(spans[yes as usize], spans[no as usize]),
        None => either(spans[yes as usize], only(0)),
    }
}
