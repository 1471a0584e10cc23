//! The shape of a tree, from those of its nodes.
ghost use Rattle.std.specs.Prelude.{◌≡◌, ◌<◌, ◌∷◌, [], All, Bool, IfOk, IfSome, List, Some, None, length, map, true};
ghost use Rattle.pat_tree.specs.Nested as nested;
ghost use Rattle.pat_tree.specs.Nested.{Nested, cond_of, nest, other_of, tree_at, trees};
ghost use Rattle.pat_tree.specs.Parts.{tree_of};
ghost use Rattle.pat_tree.specs.Rules.{classes_of, kids_of};
ghost use Rattle.char_sets.specs.Table.{IsTableOf};
ghost use Rattle.regex_hir.specs.Re.{byte_in};
ghost use Rattle.regex_hir.specs.Meaning.{alt_all, meaning};
ghost use Rattle.pat_shape.specs.IsShape.{AreShapes, IsOtherShape, IsPlainTest, IsShape, IsUpTo, KeepShapes};

use crate::pieces::{anchor_shape, any_text, item_shape, rounds};
use char_sets::ClassTable;
use pat_tree::{Cond, Kids, Memory, Node, NodeId, Tree, Verb};
use regex_class::Class;
use regex_hir::Hir;
use std::alloc::Global;

/// The shape of a tree, taken out of those that are kept.
fn take_shape(tree: &Tree, lined: bool, shapes: &mut [Option<Hir>], k: NodeId) -> Option<Hir>
    requires below { k < length shapes.old }
    requires kept { KeepShapes tree.now lined shapes.old }
    ensures same { length shapes.new ≡ length shapes.old }
    ensures kept { KeepShapes tree.now lined shapes.new }
    ensures is { IfSome result (λ hir. IsShape tree.now lined (tree_at (trees tree.now.nodes) k) (meaning hir)) }
{
    shapes[k as usize].take()
}

/// The shapes of parts, taken out of those that are kept; none where one of them has none.
fn taken(
    alloc: Global,
    tree: &Tree,
    lined: bool,
    kids: &[NodeId],
    shapes: &mut [Option<Hir>],
) -> Result<Option<Vec<Hir>>, Memory>
    requires below { All (λ k. k < length shapes.old) kids.now }
    requires kept { KeepShapes tree.now lined shapes.old }
    ensures same { length shapes.new ≡ length shapes.old }
    ensures kept { KeepShapes tree.now lined shapes.new }
    ensures are { IfOk result (λ o. IfSome o (λ subs.
        AreShapes tree.now lined (map (tree_at (trees tree.now.nodes)) kids.now) (map meaning subs.items))) }
{
    let mut subs = Vec::new(alloc);
    for i in 0..kids.len() {
        match take_shape(tree, lined, shapes, kids[i]) {
            Some(sub) => subs.push(sub)?,
            None => return Ok(None),
        }
    }
    Ok(Some(subs))
}

/// The shape of a node without children; none of any other.
fn leaf_shape(
    alloc: Global,
    tree: &Tree,
    classes: &ClassTable,
    lined: bool,
    node: &Node,
) -> Result<Option<Hir>, Memory>
    requires table { IsTableOf tree.now classes.now }
    requires known { All (λ n. n < length classes.now) (classes_of node.now) }
    ensures { IfOk result (λ o. IfSome o (λ hir.
        IsShape tree.now lined (nest (trees tree.now.nodes) node.now) (meaning hir))) }
{
    match node {
        Node::Empty => Ok(Some(Hir::Empty)),
        Node::KeepOut => Ok(Some(Hir::Empty)),
        Node::Look { .. } => Ok(Some(Hir::Empty)),
        Node::Callout { .. } => Ok(Some(Hir::Empty)),
        Node::Anchor(kind) => Ok(Some(anchor_shape(tree, *kind))),
        Node::One(item) => Ok(Some(item_shape(alloc, tree, classes, lined, item)?)),
        Node::OneRepeat { item, min, max, .. } => {
            let one = item_shape(alloc, tree, classes, lined, item)?;
            Ok(Some(rounds(alloc, one, *min, *max)?))
        }
        Node::Break => Ok(Some(any_text(alloc, tree, classes, lined)?)),
        Node::Ref { .. } => Ok(Some(any_text(alloc, tree, classes, lined)?)),
        Node::Call { .. } => Ok(Some(any_text(alloc, tree, classes, lined)?)),
        Node::VerbNode(verb) => Ok(verb_shape(alloc, tree, lined, verb)),
        _ => Ok(None),
    }
}

/// The shape of a verb: FAIL matches nothing, ACCEPT has none, and the others match the empty text.
fn verb_shape(alloc: Global, tree: &Tree, lined: bool, verb: &Verb) -> Option<Hir>
    ensures { IfSome result (λ hir. IsShape tree.now lined (nested.verb verb.now) (meaning hir)) }
{
    match verb {
        Verb::Accept { .. } => None,
        Verb::Fail { .. } => Some(nothing(alloc)),
        Verb::Commit { .. } => Some(Hir::Empty),
        Verb::Prune { .. } => Some(Hir::Empty),
        Verb::Skip { .. } => Some(Hir::Empty),
        Verb::Then { .. } => Some(Hir::Empty),
        Verb::Mark { .. } => Some(Hir::Empty),
    }
}

/// What matches nothing.
fn nothing(alloc: Global) -> Hir
    ensures { meaning result ≡ byte_in [] }
{
    Hir::Bytes(Class::empty(alloc))
}

/// The shape of a repeat of a node; none where the maximum is below the minimum.
fn repeat_shape(
    alloc: Global,
    tree: &Tree,
    lined: bool,
    body: Option<Hir>,
    k: NodeId,
    min: u16,
    max: Option<u16>,
) -> Result<Option<Hir>, Memory>
    requires { IfSome body (λ hir. IsShape tree.now lined (tree_at (trees tree.now.nodes) k) (meaning hir)) }
    ensures { IfOk result (λ o. IfSome o (λ hir. (lazily : Bool) →
        IsShape tree.now lined (nested.repeat (tree_at (trees tree.now.nodes) k) min max lazily) (meaning hir))) }
{
    match body {
        Some(sub) if is_in_order(min, max) => Ok(Some(rounds(alloc, sub, min, max)?)),
        _ => Ok(None),
    }
}

fn is_in_order(min: u16, max: Option<u16>) -> bool
    ensures { result ≡ true → IsUpTo max min }
{
    match max {
        Some(max) => min <= max,
        None => true,
    }
}

/// The shape of the second branch of a condition: the empty text, where there is none.
fn other_shape(
    tree: &Tree,
    lined: bool,
    no: Option<NodeId>,
    shapes: &mut [Option<Hir>],
) -> Option<Hir>
    requires below { IfSome no (λ k. k < length shapes.old) }
    requires kept { KeepShapes tree.now lined shapes.old }
    ensures same { length shapes.new ≡ length shapes.old }
    ensures kept { KeepShapes tree.now lined shapes.new }
    ensures is { IfSome result (λ hir.
        IsOtherShape tree.now lined (other_of (trees tree.now.nodes) no) (meaning hir)) }
{
    match no {
        Some(no) => take_shape(tree, lined, shapes, no),
        None => Some(Hir::Empty),
    }
}

/// The shape of a condition whose test isn't a lookaround: one of its branches.
fn condition_shape(
    alloc: Global,
    tree: &Tree,
    lined: bool,
    test: &Cond,
    yes: NodeId,
    no: Option<NodeId>,
    shapes: &mut [Option<Hir>],
) -> Result<Option<Hir>, Memory>
    requires first { yes < length shapes.old }
    requires second { IfSome no (λ k. k < length shapes.old) }
    requires kept { KeepShapes tree.now lined shapes.old }
    ensures same { length shapes.new ≡ length shapes.old }
    ensures kept { KeepShapes tree.now lined shapes.new }
    ensures is { IfOk result (λ o. IfSome o (λ hir. IsShape tree.now lined (nested.condition
        (cond_of (trees tree.now.nodes) test.now) (tree_at (trees tree.now.nodes) yes)
        (other_of (trees tree.now.nodes) no)) (meaning hir))) }
{
    if !is_plain(test) {
        return Ok(None);
    }
    let Some(first) = take_shape(tree, lined, shapes, yes) else {
        return Ok(None);
    };
    let Some(second) = other_shape(tree, lined, no, shapes) else {
        return Ok(None);
    };
    Ok(Some(either(alloc, first, second)?))
}

/// Whether the test isn't a lookaround.
fn is_plain(test: &Cond) -> bool
    ensures { (ts : List Nested) → result ≡ true → IsPlainTest (cond_of ts test.now) }
{
    match test {
        Cond::Assert(_) => false,
        Cond::AnySet(_) => true,
        Cond::InCall => true,
        Cond::InCallOf(_) => true,
        Cond::Never => true,
    }
}

/// One of two.
fn either(alloc: Global, first: Hir, second: Hir) -> Result<Hir, Memory>
    ensures { IfOk result (λ hir. meaning hir ≡ alt_all (meaning first ∷ meaning second ∷ [])) }
{
    let mut both = Vec::new(alloc);
    both.push(first)?;
    both.push(second)?;
    Ok(Hir::Alternation(both))
}

/// The shape of a node, by those of its children, which are taken.
fn node_shape(
    alloc: Global,
    tree: &Tree,
    classes: &ClassTable,
    lined: bool,
    node: &Node,
    shapes: &mut [Option<Hir>],
) -> Result<Option<Hir>, Memory>
    requires table { IsTableOf tree.now classes.now }
    requires below { All (λ k. k < length shapes.old) (kids_of node.now) }
    requires known { All (λ n. n < length classes.now) (classes_of node.now) }
    requires kept { KeepShapes tree.now lined shapes.old }
    ensures same { length shapes.new ≡ length shapes.old }
    ensures kept { KeepShapes tree.now lined shapes.new }
    ensures is { IfOk result (λ o. IfSome o (λ hir.
        IsShape tree.now lined (nest (trees tree.now.nodes) node.now) (meaning hir))) }
{
    match node {
        Node::Seq(kids) => match taken(alloc, tree, lined, kids.as_slice(), shapes)? {
            Some(subs) => Ok(Some(Hir::Concat(subs))),
            None => Ok(None),
        },
        Node::Group { branches, .. } => {
            match taken(alloc, tree, lined, branches.as_slice(), shapes)? {
                Some(subs) => Ok(Some(Hir::Alternation(subs))),
                None => Ok(None),
            }
        }
        Node::Atomic(branches) => match taken(alloc, tree, lined, branches.as_slice(), shapes)? {
            Some(subs) => Ok(Some(Hir::Alternation(subs))),
            None => Ok(None),
        },
        Node::Repeat { body, min, max, .. } => {
            let sub = take_shape(tree, lined, shapes, *body);
            repeat_shape(alloc, tree, lined, sub, *body, *min, *max)
        }
        Node::Cond { test, yes, no } => {
            condition_shape(alloc, tree, lined, test, *yes, *no, shapes)
        }
        _ => leaf_shape(alloc, tree, classes, lined, node),
    }
}

/// The shape of a pattern: an expression of the kit's that matches wherever the pattern's search gets, and maybe more.
/// It reads no captures and looks no further than the kit can: a reference or a call stands for any text, a lookaround
/// for the empty text, a large count for one without a maximum. A pattern with ACCEPT has no shape, nor one with a
/// condition whose test is a lookaround. `lined` says that subjects hold no LF, which the shape then never takes.
pub fn shape_of(
    alloc: Global,
    tree: &Tree,
    classes: &ClassTable,
    lined: bool,
) -> Result<Option<Hir>, Memory>
    requires { IsTableOf tree.now classes.now }
    ensures { IfOk result (λ o. IfSome o (λ hir. IsShape tree.now lined (tree_of tree.now) (meaning hir))) }
{
    let mut shapes = Vec::with_capacity(alloc, tree.root() as usize + 1)?;
    for id in 0..tree.root() as u64 + 1 {
        let node = tree.node(id as u32);
        let shape = node_shape(alloc, tree, classes, lined, node, &mut shapes)?;
        shapes.push(shape)?;
    }
    match shapes.pop() {
        Some(shape) => Ok(shape),
        None => Ok(None),
    }
}
