//! The nodes of an image. A node's children stand before it.
ghost use Rattle.std.specs.Prelude.{◌≡◌, ◌≤◌, ◌+◌, ◌++◌, ◌∷◌, [], length, All, OnOk};
ghost use Rattle.pat_tree.specs.Closing.{StandInTurn};
ghost use Rattle.pat_tree.specs.Growing.{AllUnder};
ghost use Rattle.pat_tree.specs.Rules.{kids_of, number_in};
ghost use Rattle.pat_save.specs.Checked.{IsRising, IsRisingTest, NamesRising};
ghost use Rattle.pat_save.specs.Fields.{bit, counted, four_bytes, optional, two_bytes};
ghost use Rattle.pat_save.specs.Image.{item_bytes, anchor_bytes, verb_bytes, test_bytes, child_bytes, limits_bytes};
ghost use Rattle.pat_save.specs.Image.{node_bytes, placed_bytes};
ghost use Rattle.pat_save.specs.Sized.{AreShort, IsSizedNode, groups_in};

use crate::fields::{
    bit, put_byte, put_groups, put_number, put_optional_number, put_optional_short, put_short,
};
use pat_tree::{AnchorKind, Cond, Item, Memory, Node, NodeId, Tree, Verb};

fn put_bool(out: &mut Vec<u8>, flag: bool) -> Result<(), Memory>
    ensures { OnOk result (out.new.items ≡ out.old.items ++ bit flag ∷ []) }
{
    put_byte(out, bit(flag))
}

fn put_item(out: &mut Vec<u8>, item: Item) -> Result<(), Memory>
    ensures { OnOk result (out.new.items ≡ out.old.items ++ item_bytes item) }
{
    match item {
        Item::Char { c, caseless } => {
            put_byte(out, 0)?;
            put_number(out, c)?;
            put_bool(out, caseless)
        }
        Item::AnyAll => put_byte(out, 1),
        Item::NotNewline => put_byte(out, 2),
        Item::Class(number) => {
            put_byte(out, 3)?;
            put_number(out, number)
        }
    }
}

fn put_anchor(out: &mut Vec<u8>, kind: AnchorKind) -> Result<(), Memory>
    ensures { OnOk result (out.new.items ≡ out.old.items ++ anchor_bytes kind) }
{
    match kind {
        AnchorKind::Caret { multi } => put_flagged(out, 0, multi),
        AnchorKind::Dollar { multi, end_only } => {
            put_flagged(out, 1, multi)?;
            put_bool(out, end_only)
        }
        AnchorKind::SubjectStart => put_byte(out, 2),
        AnchorKind::SubjectEnd => put_byte(out, 3),
        AnchorKind::EndOrNewline => put_byte(out, 4),
        AnchorKind::StartGiven => put_byte(out, 5),
        AnchorKind::Word { ucp } => put_flagged(out, 6, ucp),
        AnchorKind::NotWord { ucp } => put_flagged(out, 7, ucp),
    }
}

fn put_flagged(out: &mut Vec<u8>, place: u8, flag: bool) -> Result<(), Memory>
    ensures { OnOk result (out.new.items ≡ out.old.items ++ place ∷ bit flag ∷ []) }
{
    put_byte(out, place)?;
    put_bool(out, flag)
}

fn put_verb(out: &mut Vec<u8>, verb: Verb) -> Result<(), Memory>
    ensures { OnOk result (out.new.items ≡ out.old.items ++ verb_bytes verb) }
{
    let (place, name) = match verb {
        Verb::Accept { name } => (0, name),
        Verb::Fail { name } => (1, name),
        Verb::Commit { name } => (2, name),
        Verb::Prune { name } => (3, name),
        Verb::Skip { name } => (4, name),
        Verb::Then { name } => (5, name),
        Verb::Mark { name } => (6, name),
    };
    put_byte(out, place)?;
    put_optional_number(out, name)
}

fn put_test(out: &mut Vec<u8>, test: &Cond) -> Result<(), Memory>
    requires { IsRisingTest test.now }
    ensures bytes { OnOk result (out.new.items ≡ out.old.items ++ test_bytes test.now) }
    ensures short { OnOk result (AreShort (groups_in test.now)) }
{
    match test {
        Cond::AnySet(groups) => {
            put_byte(out, 0)?;
            put_groups(out, groups.as_slice())
        }
        Cond::InCall => put_byte(out, 1),
        Cond::InCallOf(groups) => {
            put_byte(out, 2)?;
            put_groups(out, groups.as_slice())
        }
        Cond::Never => put_byte(out, 3),
        Cond::Assert(_) => put_byte(out, 4),
    }
}

fn put_child(out: &mut Vec<u8>, child: Option<NodeId>) -> Result<(), Memory>
    ensures { OnOk result (out.new.items ≡ out.old.items ++ child_bytes child) }
{
    put_bool(out, child.is_some())
}

/// Adds how often a repeat is made, at least and at most.
fn put_limits(out: &mut Vec<u8>, min: u16, max: Option<u16>, lazy: bool) -> Result<(), Memory>
    ensures bytes { OnOk result (out.new.items ≡ out.old.items ++ limits_bytes min max lazy) }
    ensures short { OnOk result (AreShort (min ∷ number_in max)) }
{
    put_short(out, min)?;
    put_optional_short(out, max)?;
    put_bool(out, lazy)
}

/// Adds the kind of a node, and how many parts or branches it has.
fn put_counted(out: &mut Vec<u8>, kind: u8, count: u32) -> Result<(), Memory>
    ensures { OnOk result (out.new.items ≡ out.old.items ++ kind ∷ four_bytes count) }
{
    put_byte(out, kind)?;
    put_number(out, count)
}

fn put_group(out: &mut Vec<u8>, number: Option<u16>, branches: u32) -> Result<(), Memory>
    ensures bytes { OnOk result
        (out.new.items ≡ out.old.items ++ 4 ∷ optional two_bytes number ++ four_bytes branches) }
    ensures short { OnOk result (AreShort (number_in number)) }
{
    put_byte(out, 4)?;
    put_optional_short(out, number)?;
    put_number(out, branches)
}

fn put_one(out: &mut Vec<u8>, item: Item) -> Result<(), Memory>
    ensures { OnOk result (out.new.items ≡ out.old.items ++ 1 ∷ item_bytes item) }
{
    put_byte(out, 1)?;
    put_item(out, item)
}

fn put_repeat(out: &mut Vec<u8>, min: u16, max: Option<u16>, lazy: bool) -> Result<(), Memory>
    ensures bytes { OnOk result (out.new.items ≡ out.old.items ++ 5 ∷ limits_bytes min max lazy) }
    ensures short { OnOk result (AreShort (min ∷ number_in max)) }
{
    put_byte(out, 5)?;
    put_limits(out, min, max, lazy)
}

fn put_one_repeat(
    out: &mut Vec<u8>,
    item: Item,
    min: u16,
    max: Option<u16>,
    lazy: bool,
) -> Result<(), Memory>
    ensures bytes { OnOk result
        (out.new.items ≡ out.old.items ++ 6 ∷ item_bytes item ++ limits_bytes min max lazy) }
    ensures short { OnOk result (AreShort (min ∷ number_in max)) }
{
    put_byte(out, 6)?;
    put_item(out, item)?;
    put_limits(out, min, max, lazy)
}

fn put_look(
    out: &mut Vec<u8>,
    ahead: bool,
    positive: bool,
    atomic: bool,
    branches: u32,
) -> Result<(), Memory>
    ensures { OnOk result (out.new.items
        ≡ out.old.items ++ 8 ∷ bit ahead ∷ bit positive ∷ bit atomic ∷ four_bytes branches) }
{
    put_flagged(out, 8, ahead)?;
    put_bool(out, positive)?;
    put_bool(out, atomic)?;
    put_number(out, branches)
}

fn put_cond(out: &mut Vec<u8>, test: &Cond, no: Option<NodeId>) -> Result<(), Memory>
    requires { IsRisingTest test.now }
    ensures bytes { OnOk result
        (out.new.items ≡ out.old.items ++ 9 ∷ test_bytes test.now ++ child_bytes no) }
    ensures short { OnOk result (AreShort (groups_in test.now)) }
{
    put_byte(out, 9)?;
    put_test(out, test)?;
    put_child(out, no)
}

fn put_call(out: &mut Vec<u8>, group: u16) -> Result<(), Memory>
    ensures bytes { OnOk result (out.new.items ≡ out.old.items ++ 10 ∷ two_bytes group) }
    ensures short { AreShort (group ∷ []) }
{
    put_byte(out, 10)?;
    put_short(out, group)
}

fn put_ref(out: &mut Vec<u8>, groups: &[u16], caseless: bool) -> Result<(), Memory>
    requires { IsRising groups.now }
    ensures bytes { OnOk result
        (out.new.items ≡ out.old.items ++ 11 ∷ counted two_bytes groups.now ++ bit caseless ∷ []) }
    ensures short { OnOk result (AreShort groups.now) }
{
    put_byte(out, 11)?;
    put_groups(out, groups)?;
    put_bool(out, caseless)
}

fn put_assertion(out: &mut Vec<u8>, kind: AnchorKind) -> Result<(), Memory>
    ensures { OnOk result (out.new.items ≡ out.old.items ++ 12 ∷ anchor_bytes kind) }
{
    put_byte(out, 12)?;
    put_anchor(out, kind)
}

fn put_verb_node(out: &mut Vec<u8>, verb: Verb) -> Result<(), Memory>
    ensures { OnOk result (out.new.items ≡ out.old.items ++ 14 ∷ verb_bytes verb) }
{
    put_byte(out, 14)?;
    put_verb(out, verb)
}

/// Adds a callout: its number, the places of its string, and the place and the length of the next
/// item.
fn put_callout(
    out: &mut Vec<u8>,
    number: u8,
    from: u32,
    to: u32,
    at: u32,
    len: u32,
) -> Result<(), Memory>
    ensures { OnOk result (out.new.items ≡ out.old.items ++ 15 ∷ number
        ∷ four_bytes from ++ four_bytes to ++ four_bytes at ++ four_bytes len) }
{
    put_byte(out, 15)?;
    put_byte(out, number)?;
    put_number(out, from)?;
    put_number(out, to)?;
    put_number(out, at)?;
    put_number(out, len)
}

/// Adds a node, whose children stand before it.
fn put_node(out: &mut Vec<u8>, node: &Node) -> Result<(), Memory>
    requires few { length (kids_of node.now) ≤ 4294967295 }
    requires rising { NamesRising node.now }
    ensures bytes { OnOk result (out.new.items ≡ out.old.items ++ node_bytes node.now) }
    ensures short { OnOk result (IsSizedNode node.now) }
{
    match node {
        Node::Empty => put_byte(out, 0),
        Node::One(item) => put_one(out, *item),
        Node::Break => put_byte(out, 2),
        Node::Seq(kids) => put_counted(out, 3, kids.len() as u32),
        Node::Group { number, branches } => put_group(out, *number, branches.len() as u32),
        Node::Repeat { min, max, lazy, .. } => put_repeat(out, *min, *max, *lazy),
        Node::OneRepeat {
            item,
            min,
            max,
            lazy,
        } => put_one_repeat(out, *item, *min, *max, *lazy),
        Node::Atomic(branches) => put_counted(out, 7, branches.len() as u32),
        Node::Look {
            ahead,
            positive,
            atomic,
            branches,
        } => put_look(out, *ahead, *positive, *atomic, branches.len() as u32),
        Node::Cond { test, no, .. } => put_cond(out, test, *no),
        Node::Call { group } => put_call(out, *group),
        Node::Ref { groups, caseless } => put_ref(out, groups.as_slice(), *caseless),
        Node::Anchor(kind) => put_assertion(out, *kind),
        Node::KeepOut => put_byte(out, 13),
        Node::VerbNode(verb) => put_verb_node(out, *verb),
        Node::Callout {
            number,
            text_from,
            text_to,
            item_at,
            item_len,
        } => put_callout(out, *number, *text_from, *text_to, *item_at, *item_len),
    }
}

/// Adds the nodes of a tree, behind their count.
pub(crate) fn put_nodes(out: &mut Vec<u8>, tree: &Tree) -> Result<(), Memory>
    requires whole { AllUnder tree.now.nodes tree.now.root }
    requires turns { StandInTurn tree.now.nodes }
    requires rising { All (λ p. NamesRising p.node) tree.now.nodes }
    ensures bytes { OnOk result
        (out.new.items ≡ out.old.items ++ counted placed_bytes tree.now.nodes) }
    ensures short { OnOk result (All (λ p. IsSizedNode p.node) tree.now.nodes) }
{
    let count = node_count(tree);
    put_number(out, count)?;
    for id in 0..count {
        put_node(out, tree.node(id))?;
    }
    Ok(())
}

/// How many nodes a tree has: the root is the last.
fn node_count(tree: &Tree) -> u32
    requires { AllUnder tree.now.nodes tree.now.root }
    ensures all { result ≡ length tree.now.nodes }
    ensures last { result ≡ tree.now.root + 1 }
{
    tree.is_sound();
    tree.root() + 1
}
