// Whether rings that a search found are right, and which groups lead back to themselves by them.
ghost use Rattle.std.specs.Prelude.{◌≡◌, ◌⊎◌, ℕ, ◌≤◌, ◌&&◌, ◌||◌, true, All, IfOk, length};
ghost use Rattle.std.specs.List.{Contains, list_all, list_any};
ghost use Rattle.pat_tree.specs.Nested.{trees};
ghost use Rattle.pat_tree.specs.Parts.{tree_of};
ghost use Rattle.pat_lengths.specs.Leading.{names_of};
ghost use Rattle.pat_lengths.specs.Lengths.{leads_back};
ghost use Rattle.pat_lengths.specs.Passing.{IsGroupTable, flagged, place_of};
ghost use Rattle.pat_lengths.specs.Rings as spec;
ghost use Rattle.pat_lengths.specs.Rings.{AreRings, Marked, ring_at};

use crate::groups::Groups;
use crate::kids::{has_flag, set_flag};
use crate::rings::{Rings, next_of};
use pat_tree::{Memory, Node, NodeId, Tree};
use std::alloc::Global;

/// Whether each node leads to no later ring, and each but the first of its ring to that one, which leads to it.
pub(crate) fn are_right(
    alloc: Global,
    tree: &Tree,
    groups: &Groups,
    rings: &Rings,
) -> Result<bool, Memory>
    requires { IsGroupTable (trees tree.now.nodes) tree.now.root (tree_of tree.now) groups.now }
    ensures { IfOk result (λ right. right ≡ true
        → AreRings (tree_of tree.now) (trees tree.now.nodes) tree.now.root
        groups.now.places.items rings.now) }
{
    let mut led = vec![in alloc; false; tree.root() as usize + 1]?;
    let mut next = Vec::new(alloc);
    for id in 0..tree.root() as u64 + 1 {
        next_of(&mut next, groups, tree.node(id as u32))?;
        if !is_ranked(rings, id as u32, next.as_slice()) {
            return Ok(false);
        }
        mark_later(&mut led, rings, id as u32, next.as_slice());
    }
    Ok(all_led(tree, rings, &led))
}

/// Whether a node leads to no later ring and, unless it is the first of its ring, to one that is nearer to that.
fn is_ranked(rings: &Rings, id: NodeId, next: &[NodeId]) -> bool
    ensures { result ≡ (list_all (spec.is_no_later rings.now id) next.now
        && (spec.is_top rings.now id || list_any (spec.is_nearer rings.now id) next.now)) }
{
    leads_no_later(rings, id, next) && (is_top(rings, id) || leads_nearer(rings, id, next))
}

fn leads_no_later(rings: &Rings, id: NodeId, next: &[NodeId]) -> bool
    ensures { result ≡ list_all (spec.is_no_later rings.now id) next.now }
{
    next.iter().all(|to| is_no_later(rings, id, *to))
}

fn leads_nearer(rings: &Rings, id: NodeId, next: &[NodeId]) -> bool
    ensures { result ≡ list_any (spec.is_nearer rings.now id) next.now }
{
    next.iter().any(|to| is_nearer(rings, id, *to))
}

fn is_no_later(rings: &Rings, from: NodeId, to: NodeId) -> bool
    ensures { result ≡ spec.is_no_later rings.now from to }
{
    rings.spot(to).ring <= rings.spot(from).ring
}

fn is_top(rings: &Rings, id: NodeId) -> bool
    ensures { result ≡ spec.is_top rings.now id }
{
    rings.top(rings.spot(id).ring) == id
}

/// Whether the second node is of the first one's ring, and nearer to the first of that.
fn is_nearer(rings: &Rings, from: NodeId, to: NodeId) -> bool
    ensures { result ≡ spec.is_nearer rings.now from to }
{
    let here = rings.spot(from);
    let there = rings.spot(to);
    there.ring == here.ring
        && (is_top(rings, to)
            || there.low < here.low
            || there.low == here.low && there.left < here.left)
}

/// Whether the second node is of the first one's ring, and the search came to it later.
fn is_later(rings: &Rings, from: NodeId, to: NodeId) -> bool
    ensures { result ≡ spec.is_later rings.now from to }
{
    let here = rings.spot(from);
    let there = rings.spot(to);
    here.ring == there.ring && here.came < there.came
}

/// Marks those of a node's ring that it leads to and that the search came to later.
fn mark_later(led: &mut Vec<bool>, rings: &Rings, id: NodeId, next: &[NodeId])
    ensures { (k : ℕ) → flagged led.new.items k ≡ true → (flagged led.old.items k ≡ true)
        ⊎ (Contains next.now k × (spec.is_later rings.now id k ≡ true)) }
{
    for to in next {
        if is_later(rings, id, *to) {
            set_flag(led, *to as usize, true);
        }
    }
}

/// Whether each node is the first of its ring or marked.
fn all_led(tree: &Tree, rings: &Rings, led: &[bool]) -> bool
    ensures { result ≡ true → (k : ℕ) → k ≤ tree.now.root
        → (spec.is_top rings.now k || flagged led.now k) ≡ true }
{
    for id in 0..tree.root() as u64 + 1 {
        if !is_top(rings, id as u32) && !has_flag(led, id as usize) {
            return false;
        }
    }
    true
}

/// Of each group whether a node of its ring names it: where the rings are right, whether it leads back to itself.
pub(crate) fn named_within(
    alloc: Global,
    tree: &Tree,
    groups: &Groups,
    rings: &Rings,
) -> Result<Vec<bool>, Memory>
    requires table { IsGroupTable (trees tree.now.nodes) tree.now.root (tree_of tree.now)
        groups.now }
    requires rings { AreRings (tree_of tree.now) (trees tree.now.nodes) tree.now.root
        groups.now.places.items rings.now }
    ensures { IfOk result (λ back.
        (n : ℕ) → flagged back.items n ≡ leads_back (tree_of tree.now) n) }
{
    let mut back = vec![in alloc; false; groups.places.len()]?;
    for id in 0..tree.root() as u64 + 1 {
        let ring = rings.spot(id as u32).ring;
        mark_named(&mut back, groups, rings, ring, tree.node(id as u32));
    }
    Ok(back)
}

/// Marks the groups of a ring that a node names.
fn mark_named(back: &mut Vec<bool>, groups: &Groups, rings: &Rings, ring: usize, node: &Node)
    requires { length back.old.items ≡ length groups.now.places.items }
    ensures { Marked rings.now groups.now.places.items ring (names_of node.now) back.old.items
        back.new.items }
{
    match node {
        Node::Call { group } => mark_groups(back, groups, rings, ring, &[*group]),
        Node::Ref { groups: named, .. } => {
            mark_groups(back, groups, rings, ring, named.as_slice());
        }
        _ => {}
    }
}

fn mark_groups(back: &mut Vec<bool>, groups: &Groups, rings: &Rings, ring: usize, named: &[u16])
    requires { length back.old.items ≡ length groups.now.places.items }
    ensures { Marked rings.now groups.now.places.items ring named.now back.old.items
        back.new.items }
{
    for number in named {
        let marked = is_marked(back, groups, rings, ring, *number);
        set_flag(back, *number as usize, marked);
    }
}

/// Whether a group is marked, or in a ring.
fn is_marked(back: &[bool], groups: &Groups, rings: &Rings, ring: usize, number: u16) -> bool
    ensures { result ≡ (flagged back.now number
        || spec.is_in_ring rings.now ring (place_of groups.now.places.items number)) }
{
    has_flag(back, number as usize) || is_in_ring(groups, rings, ring, number)
}

/// Whether a group's place is in a ring.
fn is_in_ring(groups: &Groups, rings: &Rings, ring: usize, number: u16) -> bool
    ensures { result
        ≡ spec.is_in_ring rings.now ring (place_of groups.now.places.items number) }
{
    match groups.place(number) {
        Some(place) => rings.spot(place).ring == ring,
        None => false,
    }
}
