// The size of a pattern with its repeats written out.
ghost use Rattle.std.specs.Prelude.{◌≡◌, ◌+◌, ◌*◌, ◌∷◌, ◌++◌, ◌<◌, ◌≤◌, true, All, List, IfOk, length};
ghost use Rattle.pat_tree.specs.Nested.{Nested, trees, tree_at, nest};
ghost use Rattle.pat_tree.specs.Parts.{tree_of};
ghost use Rattle.pat_tree.specs.Rules.{kids_of, asserted_by, is_test, number_in, tests_of};
ghost use Rattle.pat_check.specs.Size as spec;
ghost use Rattle.pat_check.specs.Size.{KeepSizes, counted_sum, size_at};

use pat_lengths::{product, sum};
use pat_tree::{Cond, Memory, Node, NodeId, Tree};
use std::alloc::Global;

/// The size of a pattern, at most 4,294,967,295.
pub(crate) fn size_of(alloc: Global, tree: &Tree) -> Result<u32, Memory>
    ensures { IfOk result (λ size. size ≡ spec.size (tree_of tree.now)) }
{
    let sizes = sizes_of(alloc, tree)?;
    Ok(sizes[tree.root() as usize])
}

/// The size of each node up to the root.
fn sizes_of(alloc: Global, tree: &Tree) -> Result<Vec<u32>, Memory>
    ensures count { IfOk result (λ sizes. length sizes.items ≡ tree.now.root + 1) }
    ensures kept { IfOk result (λ sizes. KeepSizes (trees tree.now.nodes) sizes.items) }
{
    let mut sizes = Vec::with_capacity(alloc, tree.root() as usize + 1)?;
    for id in 0..tree.root() as u64 + 1 {
        let size = node_size(tree.node(id as u32), &sizes);
        sizes.push(size)?;
    }
    Ok(sizes)
}

/// The size of a node, by those of its children.
fn node_size(node: &Node, sizes: &[u32]) -> u32
    requires below { All (λ k. k < length sizes.now) (kids_of node.now) }
    ensures { (trees : List Nested)
        → All (λ k. is_test (tree_at trees k) ≡ true) (asserted_by node.now)
        → KeepSizes trees sizes.now → result ≡ spec.size (nest trees node.now) }
{
    match node {
        Node::Repeat { body, min, max, .. } => {
            sum(1, product(copies(*min, *max), sizes[*body as usize]))
        }
        Node::OneRepeat { min, max, .. } => sum(1, copies(*min, *max)),
        _ => sum(1, sum_of_kids(node, sizes)),
    }
}

/// How often the body of a repeat is written.
fn copies(min: u16, max: Option<u16>) -> u32
    ensures is { result ≡ spec.copies min max }
    ensures few { result ≤ 65536 }
{
    match max {
        Some(max) => max as u32,
        None => min as u32 + 1,
    }
}

/// The sizes of these nodes together.
fn sum_of(ids: &[NodeId], sizes: &[u32]) -> u32
    requires { All (λ k. k < length sizes.now) ids.now }
    ensures { result ≡ counted_sum (size_at sizes.now) ids.now }
{
    let mut all = 0;
    let mut i = ids.len();
    while i > 0 {
        i -= 1;
        all = sum(sizes[ids[i] as usize], all);
    }
    all
}

/// The sizes of a node's children together.
fn sum_of_kids(node: &Node, sizes: &[u32]) -> u32
    requires { All (λ k. k < length sizes.now) (kids_of node.now) }
    ensures { result ≡ counted_sum (size_at sizes.now) (kids_of node.now) }
{
    match node {
        Node::Seq(kids) => sum_of(kids.as_slice(), sizes),
        Node::Group { branches, .. } => sum_of(branches.as_slice(), sizes),
        Node::Repeat { body, .. } => sum(sizes[*body as usize], 0),
        Node::Atomic(branches) => sum_of(branches.as_slice(), sizes),
        Node::Look { branches, .. } => sum_of(branches.as_slice(), sizes),
        Node::Cond { test, yes, no } => sum_of_condition(test, *yes, *no, sizes),
        _ => 0,
    }
}

fn sum_of_condition(test: &Cond, yes: NodeId, no: Option<NodeId>, sizes: &[u32]) -> u32
    requires { All (λ k. k < length sizes.now) (tests_of test.now ++ yes ∷ number_in no) }
    ensures { result ≡ counted_sum (size_at sizes.now) (tests_of test.now ++ yes ∷ number_in no) }
{
    let branches = sum_of_two(yes, no, sizes);
    match test {
        Cond::Assert(test) => sum(sizes[*test as usize], branches),
        _ => branches,
    }
}

fn sum_of_two(first: NodeId, second: Option<NodeId>, sizes: &[u32]) -> u32
    requires { All (λ k. k < length sizes.now) (first ∷ number_in second) }
    ensures { result ≡ counted_sum (size_at sizes.now) (first ∷ number_in second) }
{
    match second {
        Some(second) => sum(sizes[first as usize], sum(sizes[second as usize], 0)),
        None => sum(sizes[first as usize], 0),
    }
}
