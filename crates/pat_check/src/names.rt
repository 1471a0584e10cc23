// Whether a node names CR or LF.
ghost use Rattle.std.specs.Prelude.{◌≡◌, ◌<◌, All, List, length};
ghost use Rattle.std.specs.List.{list_any};
ghost use Rattle.pat_tree.specs.Nested.{Nested, nest};
ghost use Rattle.pat_tree.specs.Rules.{classes_of, class_in};
ghost use Rattle.pat_lengths.specs.Nodes as nodes;
ghost use Rattle.pat_lengths.specs.Nodes.{node_names};

use pat_tree::{Item, Node, Part, Tree};

/// Whether a node names CR or LF, as a character or as an end of a range.
pub(crate) fn names(tree: &Tree, node: &Node) -> bool
    requires { All (λ n. n < length tree.now.classes) (classes_of node.now) }
    ensures { (trees : List Nested) → result ≡ node_names tree.now.classes (nest trees node.now) }
{
    match node {
        Node::One(item) | Node::OneRepeat { item, .. } => item_names(tree, item),
        _ => false,
    }
}

fn item_names(tree: &Tree, item: &Item) -> bool
    requires { All (λ n. n < length tree.now.classes) (class_in item.now) }
    ensures { result ≡ nodes.item_names tree.now.classes item.now }
{
    match *item {
        Item::Char { c, .. } => is_cr_or_lf(c),
        Item::Class(class) => some_part_names(tree.class(class).parts.as_slice()),
        _ => false,
    }
}

fn some_part_names(parts: &[Part]) -> bool
    ensures { result ≡ list_any nodes.part_names parts.now }
{
    parts.iter().any(|part| part_names(part))
}

fn part_names(part: &Part) -> bool
    ensures { result ≡ nodes.part_names part.now }
{
    match *part {
        Part::Range { from, to } => is_cr_or_lf(from) || is_cr_or_lf(to),
        Part::Set { .. } => false,
    }
}

fn is_cr_or_lf(c: u32) -> bool
    ensures { result ≡ nodes.is_cr_or_lf c }
{
    c == 13 || c == 10
}
