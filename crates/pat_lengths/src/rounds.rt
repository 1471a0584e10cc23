// What is asked of each group, where its answer depends on those of the groups that it names.
ghost use Rattle.std.specs.Prelude.{◌≡◌, ℕ, suc, ◌+◌, ◌<◌, ◌≤◌, ◌||◌, true, false, All, List, [], IfOk, length};
ghost use Rattle.pat_tree.specs.Groups.{group_of};
ghost use Rattle.pat_tree.specs.Nested.{Nested, trees, tree_at, nest};
ghost use Rattle.pat_tree.specs.Parts.{tree_of};
ghost use Rattle.pat_tree.specs.Rules.{kids_of, asserted_by, is_test, IsOrdered};
ghost use Rattle.pat_lengths.specs.Nodes.{named_by, named_in};
ghost use Rattle.pat_lengths.specs.Passing.{IsAt, flagged, place_of, passes_at, ref_passes, condition_passes, passes};
ghost use Rattle.pat_lengths.specs.Rounds.{KeepAnswers, AreRounds, answer, group_answer};

use crate::groups::Groups;
use crate::kids::{every_flag, has_flag, some_flag, some_kid};
use pat_tree::{Cond, Memory, Node, NodeId, Tree};
use std::alloc::Global;

/// What is asked of each group.
#[derive(Clone, Copy)]
pub(crate) enum Question {
    /// Whether it can match an empty text. Under `any` a reference can.
    Passes { any: bool },
    /// Whether it names some group in a call or a reference.
    Names,
}

/// The answer of each group, where calls and references lead through as many groups as there are.
// A round that changes nothing is the last: every later one would change nothing either.
pub(crate) fn answers_of(
    alloc: Global,
    tree: &Tree,
    groups: &Groups,
    question: Question,
) -> Result<Vec<bool>, Memory>
    requires places { (n : ℕ)
        → IsAt (trees tree.now.nodes) tree.now.root (place_of groups.now.places.items n)
        (group_of (tree_of tree.now) n) }
    ensures { IfOk result (λ of.
        AreRounds question (tree_of tree.now) (suc groups.now.count) of.items) }
{
    let mut of = next_round(alloc, tree, &groups.places, question, &[])?;
    for _ in 0..groups.count {
        let next = next_round(alloc, tree, &groups.places, question, &of)?;
        if next.as_slice() == of.as_slice() {
            return Ok(of);
        }
        of = next;
    }
    Ok(of)
}

/// The answers after one round more.
pub(crate) fn next_round(
    alloc: Global,
    tree: &Tree,
    places: &[Option<NodeId>],
    question: Question,
    of: &[bool],
) -> Result<Vec<bool>, Memory>
    requires places { (n : ℕ)
        → IsAt (trees tree.now.nodes) tree.now.root (place_of places.now n)
        (group_of (tree_of tree.now) n) }
    ensures further { IfOk result (λ next.
        (d : ℕ) → AreRounds question (tree_of tree.now) d of.now
        → AreRounds question (tree_of tree.now) (suc d) next.items) }
    ensures round { IfOk result (λ next.
        (n : ℕ) → flagged next.items n
        ≡ group_answer question (flagged of.now) (group_of (tree_of tree.now) n)) }
{
    let answers = node_answers(alloc, tree, question, of)?;
    let mut next = Vec::with_capacity(alloc, places.len())?;
    for place in places {
        next.push(flag_at(&answers, *place))?;
    }
    Ok(next)
}

pub(crate) fn flag_at(flags: &[bool], place: Option<NodeId>) -> bool
    ensures { result ≡ passes_at flags.now place }
{
    match place {
        Some(id) => has_flag(flags, id as usize),
        None => false,
    }
}

/// The answer of each node up to the root, by those of the groups.
pub(crate) fn node_answers(
    alloc: Global,
    tree: &Tree,
    question: Question,
    of: &[bool],
) -> Result<Vec<bool>, Memory>
    ensures count { IfOk result (λ answers. length answers.items ≡ tree.now.root + 1) }
    ensures kept { IfOk result (λ answers.
        KeepAnswers question of.now (trees tree.now.nodes) answers.items) }
{
    let mut answers = Vec::with_capacity(alloc, tree.root() as usize + 1)?;
    for id in 0..tree.root() as u64 + 1 {
        let answer = node_answer(tree.node(id as u32), question, of, &answers);
        answers.push(answer)?;
    }
    Ok(answers)
}

/// The answer of a node, by those of its children.
pub(crate) fn node_answer(node: &Node, question: Question, of: &[bool], answers: &[bool]) -> bool
    requires below { All (λ k. k < length answers.now) (kids_of node.now) }
    requires ordered { IsOrdered node.now }
    ensures { (trees : List Nested)
        → All (λ k. is_test (tree_at trees k) ≡ true) (asserted_by node.now)
        → KeepAnswers question of.now trees answers.now
        → result ≡ answer question (flagged of.now) (nest trees node.now) }
{
    match question {
        Question::Passes { any } => node_passes(node, any, of, answers),
        Question::Names => node_names(node, answers),
    }
}

/// Whether a node can match an empty text, by its children, and the groups that can.
fn node_passes(node: &Node, any: bool, can: &[bool], passing: &[bool]) -> bool
    requires below { All (λ k. k < length passing.now) (kids_of node.now) }
    requires ordered { IsOrdered node.now }
    ensures { (trees : List Nested)
        → All (λ k. is_test (tree_at trees k) ≡ true) (asserted_by node.now)
        → KeepAnswers (Question.Passes any) can.now trees passing.now
        → result ≡ passes any (flagged can.now) (nest trees node.now) }
{
    match node {
        Node::One(_) => false,
        Node::Break => false,
        Node::Seq(kids) => every_flag(kids.as_slice(), passing),
        Node::Group { branches, .. } => some_flag(branches.as_slice(), passing),
        Node::Repeat { body, min, .. } => *min == 0 || has_flag(passing, *body as usize),
        Node::OneRepeat { min, .. } => *min == 0,
        Node::Atomic(branches) => some_flag(branches.as_slice(), passing),
        Node::Cond { test, yes, no } => condition_passes(test, *yes, *no, passing),
        Node::Call { group } => has_flag(can, *group as usize),
        Node::Ref { groups, .. } => ref_passes(groups.as_slice(), any, can),
        _ => true,
    }
}

/// A definition is passed.
fn condition_passes(test: &Cond, yes: NodeId, no: Option<NodeId>, passing: &[bool]) -> bool
    ensures { result ≡ condition_passes (flagged passing.now) test.now yes no }
{
    if let Cond::Never = test {
        return true;
    }
    match no {
        Some(no) => has_flag(passing, yes as usize) || has_flag(passing, no as usize),
        None => true,
    }
}

fn ref_passes(groups: &[u16], any: bool, can: &[bool]) -> bool
    ensures { result ≡ ref_passes any (flagged can.now) groups.now }
{
    groups.len() != 1 || any || has_flag(can, groups[0] as usize)
}

/// Whether a call or a reference in a node names some group.
fn node_names(node: &Node, naming: &[bool]) -> bool
    requires below { All (λ k. k < length naming.now) (kids_of node.now) }
    ensures { (trees : List Nested)
        → All (λ k. is_test (tree_at trees k) ≡ true) (asserted_by node.now)
        → KeepAnswers Question.Names [] trees naming.now
        → result ≡ answer Question.Names (flagged []) (nest trees node.now) }
{
    match node {
        Node::Call { .. } => true,
        Node::Ref { groups, .. } => groups.len() > 0,
        _ => some_kid(node, naming),
    }
}

/// Whether a call or a reference up to the root names a group.
pub(crate) fn names_groups(tree: &Tree) -> bool
    ensures { result ≡ false → (k : ℕ) → k ≤ tree.now.root
        → named_in (tree_at (trees tree.now.nodes) k) ≡ [] }
{
    for id in 0..tree.root() as u64 + 1 {
        if is_naming(tree.node(id as u32)) {
            return true;
        }
    }
    false
}

fn is_naming(node: &Node) -> bool
    ensures { (trees : List Nested) → result ≡ false → named_by (nest trees node.now) ≡ [] }
{
    match node {
        Node::Call { .. } => true,
        Node::Ref { .. } => true,
        _ => false,
    }
}
