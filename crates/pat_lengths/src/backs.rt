//! The branches of lookbehinds: how far each begins before its place, and which are refused.
ghost use Rattle.std.specs.Prelude.{◌≡◌, ℕ, ◌<◌, ◌≤◌, All, IfOk, Option, None, length, max, slice_index_or};
ghost use Rattle.pat_tree.specs.Parts.{TreeParts};
ghost use Rattle.pat_tree.specs.declared.nodes.Placed.{Placed};
ghost use Rattle.pat_lengths.specs.Backs as lookbehinds;
ghost use Rattle.pat_lengths.specs.Backs.{AreBacks, AreBranches, back_at, back_of, behind_branches, fault_from};
ghost use Rattle.pat_lengths.specs.Backs.{lengths_at, lengths_back};
ghost use Rattle.pat_lengths.specs.Lengths.{SomeLengths, branch_fault, too_different};
ghost use Rattle.pat_lengths.specs.Spans.{kept};

use crate::spans::Span;
use pat_tree::{Memory, Node, NodeId, Tree};
use std::alloc::Global;
use std::marker::Model;

/// A branch of a lookbehind has no greatest length.
const NOT_LIMITED: i32 = 125;

/// A branch of a lookbehind is too long.
const BRANCH_TOO_LONG: i32 = 187;

/// The greatest length of a branch whose lengths differ.
const DIFFERING: u32 = 255;

/// How far before its place a branch of a lookbehind begins, in characters: from the greatest of its lengths down to
/// the least (pcre2pattern, "Lookbehind assertions").
#[derive(Clone, Copy, Debug, PartialEq, Eq)]
pub struct Back {
    pub least: u32,
    pub most: u32,
}

/// A lookbehind is refused, with the number of the fault and the place of its parenthesis.
#[derive(Clone, Copy, Debug, PartialEq, Eq)]
pub struct LengthFault {
    /// 125, a branch has no greatest length, or 187, it is too long.
    pub number: i32,
    pub at: u32,
}

/// For each part of a pattern its lengths as a branch of a lookbehind.
#[derive(Debug, Drop)]
pub struct Backs {
    lengths: Vec<Back>,
}

impl Model for Backs {
    ghost use Rattle.std.specs.Prelude.{List};
    ghost use Rattle.pat_lengths.specs.declared.backs.Back.{Back};

    ghost Value = { List Back };

    ghost view = { λ backs. backs.lengths.items };
}

impl Backs {
    /// Of the parts of a tree.
    pub fn of_spans(alloc: Global, spans: &[Option<Span>]) -> Result<Backs, Memory>
        ensures { (tree : TreeParts) → AreBranches tree spans.now → IfOk result (AreBacks tree) }
    {
        let mut lengths = Vec::with_capacity(alloc, spans.len())?;
        for span in spans {
            lengths.push(back_of(*span))?;
        }
        Ok(Backs { lengths })
    }

    /// The lengths of a branch of a lookbehind. Needs such a branch of the tree that these are of (pcre2pattern,
    /// "Lookbehind assertions").
    pub fn of(&self, branch: NodeId) -> Back
        requires { branch < length self.now }
        ensures is { result ≡ back_at self.now branch }
        ensures lengths { (tree : TreeParts) → AreBacks tree self.now
            → branch_fault (lengths_at tree branch) ≡ None → lengths_at tree branch ≡ lengths_back result }
    {
        self.lengths[branch as usize]
    }
}

/// The lengths of a part that has a greatest one. A length past 32 bits counts as the greatest number.
fn back_of(span: Option<Span>) -> Back
    ensures { result ≡ back_of span }
{
    match span {
        Some(
            Span {
                least,
                most: Some(most),
            },
        ) => Back { least, most },
        _ => Back { least: 0, most: 0 },
    }
}

/// The fault of a branch that has no greatest length or is too long, at its lookbehind's place.
fn fault_of(at: u32, span: Option<Span>) -> Option<LengthFault>
    ensures { (x : SomeLengths) → span ≡ kept x → result ≡ fault_from at (branch_fault x) }
{
    let Some(
        Span {
            least,
            most: Some(most),
        },
    ) = span
    else {
        return Some(LengthFault {
            number: NOT_LIMITED,
            at,
        });
    };
    if least != most {
        return differing_fault(at, most);
    }
    if most > 65535 {
        return Some(LengthFault {
            number: BRANCH_TOO_LONG,
            at,
        });
    }
    None
}

/// The fault of a branch whose lengths differ, by the greatest.
fn differing_fault(at: u32, most: u32) -> Option<LengthFault>
    ensures { result ≡ fault_from at (too_different most) }
{
    if most <= DIFFERING {
        return None;
    }
    Some(LengthFault {
        number: BRANCH_TOO_LONG,
        at,
    })
}

/// The first fault among these parts, which stand in the pattern's order.
pub fn fault_in(tree: &Tree, order: &[NodeId], spans: &[Option<Span>]) -> Option<LengthFault>
    requires below { All (λ k. k ≤ tree.now.root) order.now }
    requires spans { AreBranches tree.now spans.now }
    ensures { result ≡ lookbehinds.fault_in tree.now order.now }
{
    let mut first = None;
    let mut i = order.len();
    while i > 0 {
        i -= 1;
        first = fault_of_node(tree, order[i], spans).or(first);
    }
    first
}

fn fault_of_node(tree: &Tree, id: NodeId, spans: &[Option<Span>]) -> Option<LengthFault>
    requires below { id ≤ tree.now.root }
    requires spans { AreBranches tree.now spans.now }
    ensures { (other : Placed)
        → result ≡ lookbehinds.fault_of_node tree.now (slice_index_or tree.now.nodes id other) }
{
    fault_among(tree.at(id), branches_behind(tree.node(id)), spans)
}

/// The branches of a lookbehind. Another node has none.
fn branches_behind(node: &Node) -> &[NodeId]
    ensures { result.now ≡ behind_branches node.now }
{
    match node {
        Node::Look {
            ahead: false,
            branches,
            ..
        } => branches.as_slice(),
        _ => &[],
    }
}

/// The fault of the first of these branches that is refused, at their lookbehind's place.
fn fault_among(at: u32, branches: &[NodeId], spans: &[Option<Span>]) -> Option<LengthFault>
    requires { All (λ k. k < length spans.now) branches.now }
    ensures { (tree : TreeParts) → AreBranches tree spans.now
        → result ≡ lookbehinds.fault_among tree at branches.now }
{
    let mut first = None;
    let mut i = branches.len();
    while i > 0 {
        i -= 1;
        first = fault_of(at, spans[branches[i] as usize]).or(first);
    }
    first
}

/// The greatest length of a branch of a lookbehind among these parts, 0 where there is none.
pub fn greatest_in(tree: &Tree, order: &[NodeId], spans: &[Option<Span>]) -> u32
    requires below { All (λ k. k ≤ tree.now.root) order.now }
    requires spans { AreBranches tree.now spans.now }
    ensures { result ≡ lookbehinds.greatest_in tree.now order.now }
{
    let mut greatest = 0;
    let mut i = order.len();
    while i > 0 {
        i -= 1;
        greatest = greatest_of(branches_behind(tree.node(order[i])), spans).max(greatest);
    }
    greatest
}

fn greatest_of(branches: &[NodeId], spans: &[Option<Span>]) -> u32
    requires { All (λ k. k < length spans.now) branches.now }
    ensures { (tree : TreeParts) → AreBranches tree spans.now
        → result ≡ lookbehinds.greatest_of tree branches.now }
{
    let mut greatest = 0;
    let mut i = branches.len();
    while i > 0 {
        i -= 1;
        greatest = back_of(spans[branches[i] as usize]).most.max(greatest);
    }
    greatest
}
