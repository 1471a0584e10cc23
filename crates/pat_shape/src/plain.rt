//! Whether the shape of a pattern matches nowhere but where its search gets.
ghost use Rattle.std.specs.Prelude.{◌≡◌, All, IfOk, List, true};
ghost use Rattle.std.specs.List.{list_all, list_any};
ghost use Rattle.pat_tree.specs.Nested.{Nested, nest};
ghost use Rattle.pat_tree.specs.Parts.{tree_of};
ghost use Rattle.pat_tree.specs.Rules.{kids_of};
ghost use Rattle.pat_lengths.specs.Passing.{flagged};
ghost use Rattle.pat_shape.specs.IsShape.{dots_of, is_lf};
ghost use Rattle.pat_shape.specs.Plain.{IsPlainAt, AreTaking};
ghost use Rattle.pat_shape.specs.Plain as spec;

use crate::pieces::MOST_ROUNDS;
use pat_tree::{Item, Memory, Newline, Node, NodeId, Tree};
use std::alloc::Global;

fn is_marked(marks: &[bool], id: NodeId) -> bool
    ensures { result ≡ flagged marks.now id }
{
    match marks.get(id as usize) {
        Some(mark) => *mark,
        None => false,
    }
}

fn all_marked(kids: &[NodeId], marks: &[bool]) -> bool
    ensures { result ≡ list_all (flagged marks.now) kids.now }
{
    kids.iter().all(|id| is_marked(marks, *id))
}

fn one_marked(kids: &[NodeId], marks: &[bool]) -> bool
    ensures { result ≡ list_any (flagged marks.now) kids.now }
{
    kids.iter().any(|id| is_marked(marks, *id))
}

/// Whether each match of the node takes something, by the marks of its children of which that is known.
fn takes_some(node: &Node, marks: &[bool]) -> bool
    ensures { (trees : List Nested) → AreTaking trees marks.now → result ≡ true
        → spec.takes_some (nest trees node.now) ≡ true }
{
    match node {
        Node::One(_) => true,
        Node::Seq(kids) => one_marked(kids.as_slice(), marks),
        Node::Group { branches, .. } => all_marked(branches.as_slice(), marks),
        Node::Repeat { body, min, .. } => *min > 0 && is_marked(marks, *body),
        Node::OneRepeat { min, .. } => *min > 0,
        _ => false,
    }
}

/// Whether the kit can tell where the item takes a character, by whether `.` takes any.
fn is_plain_item(item: &Item, dots: bool) -> bool
    ensures { result ≡ spec.is_plain_item dots item.now }
{
    match item {
        Item::NotNewline => dots,
        _ => true,
    }
}

/// Whether so many rounds are kept as they are.
fn are_few(min: u16, max: Option<u16>) -> bool
    ensures { result ≡ true → spec.are_few min max ≡ true }
{
    match max {
        Some(max) => min <= max && max <= MOST_ROUNDS,
        None => min <= MOST_ROUNDS,
    }
}

/// Whether the node is plain where its children are, by the marks of those whose matches take something.
fn is_plain_node(node: &Node, marks: &[bool], dots: bool) -> bool
    ensures { (trees : List Nested) → AreTaking trees marks.now
        → All (IsPlainAt dots trees) (kids_of node.now) → result ≡ true
        → spec.is_plain dots (nest trees node.now) ≡ true }
{
    match node {
        Node::Empty => true,
        Node::One(item) => is_plain_item(item, dots),
        Node::Seq(_) => true,
        Node::Group { .. } => true,
        Node::Repeat { body, min, max, .. } => are_few(*min, *max) && is_marked(marks, *body),
        Node::OneRepeat { item, min, max, .. } => {
            are_few(*min, *max) && is_plain_item(item, dots)
        }
        _ => false,
    }
}

fn is_lf(newline: Newline) -> bool
    ensures { result ≡ is_lf newline }
{
    match newline {
        Newline::Lf => true,
        _ => false,
    }
}

/// Whether the shape of the tree in a line without LF matches nowhere but where its search gets, outside UTF: it is of
/// items, sequences, groups, and repeats of few rounds that take something.
pub fn is_plain(alloc: Global, tree: &Tree) -> Result<bool, Memory>
    ensures { IfOk result (λ plain. plain ≡ true
        → spec.is_plain (dots_of tree.now true) (tree_of tree.now) ≡ true) }
{
    let dots = is_lf(tree.options().newline);
    let mut marks = Vec::with_capacity(alloc, tree.root() as usize + 1)?;
    for id in 0..tree.root() as u64 + 1 {
        let node = tree.node(id as u32);
        if !is_plain_node(node, &marks, dots) {
            return Ok(false);
        }
        let mark = takes_some(node, &marks);
        marks.push(mark)?;
    }
    Ok(true)
}
