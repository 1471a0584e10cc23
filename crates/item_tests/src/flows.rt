//! What follows a part of a tree, and the order of the parts.
ghost use Rattle.std.specs.Prelude.{◌≡◌, ◌≤◌, ◌<◌, ◌+◌, ◌∷◌, ◌++◌, [], All, IfOk, OnOk, length};
ghost use Rattle.pat_tree.specs.Rules.{kids_of, asserted_by, classes_of, verb_names_of, numbers_of, IsNamed};
ghost use Rattle.pat_tree.specs.Rules.{IsOrdered, IsDefine};
ghost use Rattle.pat_tree.specs.Growing.{loose};

use node_flow::{Branches, Flow, LookBranches, Ranks};
use pat_tree::{Cond, Draft, Item, Kids, Memory, Node, NodeId, Options, Tree};
use std::alloc::Global;
use std::process::Abort;
use std::test::Fail;

/// What stands round two branches.
#[derive(Clone, Copy)]
enum Kind {
    Plain,
    Capturing,
    Atomic,
    Look,
    Behind,
    Condition,
}

fn pair(alloc: Global, first: NodeId, second: NodeId) -> Result<Kids, Memory>
    ensures { IfOk result (λ kids. kids ≡ first ∷ second ∷ []) }
{
    let mut kids = Kids::new(alloc);
    kids.push(first)?;
    kids.push(second)?;
    Ok(kids)
}

fn around(kind: Kind, branches: Kids, yes: NodeId, no: NodeId) -> Node
    requires { branches ≡ yes ∷ no ∷ [] }
    ensures kids { kids_of result ≡ yes ∷ no ∷ [] }
    ensures classes { classes_of result ≡ [] }
    ensures verb_names { verb_names_of result ≡ [] }
    ensures numbered { All (λ n. 1 ≤ n) (numbers_of result) }
    ensures named { IsNamed result }
    ensures ordered { IsOrdered result }
    ensures define { IsDefine result }
    ensures test { asserted_by result ≡ [] }
{
    match kind {
        Kind::Plain => Node::Group {
            number: None,
            branches,
        },
        Kind::Capturing => Node::Group {
            number: Some(1),
            branches,
        },
        Kind::Atomic => Node::Atomic(branches),
        Kind::Look => Node::Look {
            ahead: true,
            positive: true,
            atomic: true,
            branches,
        },
        Kind::Behind => Node::Look {
            ahead: false,
            positive: true,
            atomic: true,
            branches,
        },
        Kind::Condition => Node::Cond {
            test: Cond::InCall,
            yes,
            no: Some(no),
        },
    }
}

fn add_letter(draft: &mut Draft, c: u8) -> Result<NodeId, Memory>
    requires { length draft.old.nodes < 100 }
    ensures number { IfOk result (λ id. id ≡ length draft.old.nodes) }
    ensures count { OnOk result (length draft.new.nodes ≡ length draft.old.nodes + 1) }
    ensures loose { OnOk result
        (loose draft.new.nodes ≡ loose draft.old.nodes ++ length draft.old.nodes ∷ []) }
    ensures names { OnOk result (draft.new.names ≡ draft.old.names) }
{
    let item = Item::Char {
        c: u32::from(c),
        caseless: false,
    };
    draft.add(Node::One(item), 0)
}

/// Adds `(?:ab)*` and `cd` as branches.
fn add_branches(alloc: Global, draft: &mut Draft) -> Result<(NodeId, NodeId), Memory>
    requires { draft.old.nodes ≡ [] }
    ensures numbers { IfOk result (λ branches. branches ≡ (3, 6)) }
    ensures count { OnOk result (length draft.new.nodes ≡ 7) }
    ensures loose { OnOk result (loose draft.new.nodes ≡ 3 ∷ 6 ∷ []) }
    ensures names { OnOk result (draft.new.names ≡ draft.old.names) }
{
    let a = add_letter(draft, b'a')?;
    let b = add_letter(draft, b'b')?;
    let body = draft.add(Node::Seq(pair(alloc, a, b)?), 0)?;
    let repeat = Node::Repeat {
        body,
        min: 0,
        max: None,
        lazy: false,
    };
    let first = draft.add(repeat, 0)?;
    let c = add_letter(draft, b'c')?;
    let d = add_letter(draft, b'd')?;
    let second = draft.add(Node::Seq(pair(alloc, c, d)?), 0)?;
    Ok((first, second))
}

/// The tree of these branches with `e` after what stands round them: the letters are the parts 0, 1, 4, 5 and 8, the
/// sequences 2, 6 and 9, the repeat 3, and what stands round the branches is 7.
fn tree_of(alloc: Global, kind: Kind) -> Result<Tree, Fail>
    ensures { IfOk result (λ tree. tree.root ≡ 9) }
{
    let mut draft = Draft::new(alloc, Options::PLAIN);
    let (first, second) = add_branches(alloc, &mut draft)?;
    let branches = pair(alloc, first, second)?;
    let group = draft.add(around(kind, branches, first, second), 0)?;
    let e = add_letter(&mut draft, b'e')?;
    let root = draft.add(Node::Seq(pair(alloc, group, e)?), 0)?;
    let tree = draft.finish(root)?;
    Ok(tree)
}

/// The follower of each of the ten parts, or the part that is its branch.
type Parts = &'static [Option<NodeId>];

const PLACES: [u32; 10] = [4, 5, 3, 2, 7, 8, 6, 1, 9, 0];

// Of the branches only those of a plain group and of a condition are followed by `e`.
const PAST: Parts = &[
    Some(1),
    None,
    None,
    Some(8),
    Some(5),
    Some(8),
    Some(8),
    Some(8),
    None,
    None,
];

const FRAMED: Parts = &[
    Some(1),
    None,
    None,
    None,
    Some(5),
    None,
    None,
    Some(8),
    None,
    None,
];

const FOLLOWERS: &[(Kind, Parts)] = &[
    (Kind::Plain, PAST),
    (Kind::Condition, PAST),
    (Kind::Capturing, FRAMED),
    (Kind::Atomic, FRAMED),
    (Kind::Look, FRAMED),
    (Kind::Behind, FRAMED),
];

fn follows(rt: &impl Abort, alloc: Global, kind: Kind, followers: Parts) -> Result<(), Fail> {
    assert!(rt; followers.len() == 10);
    let tree = tree_of(alloc, kind)?;
    let flow = Flow::build(alloc, &tree)?;
    let ranks = Ranks::build(alloc, &tree)?;
    for part in 0..10usize {
        assert!(rt; flow.next(part as u32) == followers[part]);
        assert!(rt; ranks.of(part as u32) == PLACES[part]);
    }
    Ok(())
}

#[test]
fn parts_are_followed_to_the_end_of_their_frame_and_stand_in_order(
    rt: HostRuntime,
) -> Result<(), Fail> {
    for (kind, followers) in FOLLOWERS {
        follows(&rt, rt.alloc(), *kind, *followers)?;
    }
    Ok(())
}

// A turn is a frame of its own.
const OWN: Parts = &[
    None,
    None,
    None,
    Some(3),
    Some(6),
    Some(6),
    Some(6),
    None,
    None,
    None,
];

const BRANCHES: &[(Kind, Parts)] = &[
    (Kind::Plain, OWN),
    (Kind::Condition, &[None; 10]),
    (Kind::Capturing, OWN),
    (Kind::Atomic, OWN),
    (Kind::Look, OWN),
    (Kind::Behind, OWN),
];

fn is_in(rt: &impl Abort, alloc: Global, kind: Kind, branches: Parts) -> Result<(), Fail> {
    assert!(rt; branches.len() == 10);
    let tree = tree_of(alloc, kind)?;
    let around = Branches::build(alloc, &tree)?;
    for part in 0..10usize {
        assert!(rt; around.of(part as u32) == branches[part]);
    }
    Ok(())
}

#[test]
fn branches_are_around_parts_in_their_frame(rt: HostRuntime) -> Result<(), Fail> {
    for (kind, branches) in BRANCHES {
        is_in(&rt, rt.alloc(), *kind, *branches)?;
    }
    Ok(())
}

const LOOK_BRANCHES: &[(Kind, Parts)] = &[
    (Kind::Plain, &[None; 10]),
    (Kind::Condition, &[None; 10]),
    (Kind::Look, &[None; 10]),
    (Kind::Behind, OWN),
];

fn is_in_look(rt: &impl Abort, alloc: Global, kind: Kind, branches: Parts) -> Result<(), Fail> {
    assert!(rt; branches.len() == 10);
    let tree = tree_of(alloc, kind)?;
    let around = LookBranches::build(alloc, &tree)?;
    for part in 0..10usize {
        assert!(rt; around.of(part as u32) == branches[part]);
    }
    Ok(())
}

#[test]
fn branches_of_lookbehinds_are_around_parts_in_their_frame(rt: HostRuntime) -> Result<(), Fail> {
    for (kind, branches) in LOOK_BRANCHES {
        is_in_look(&rt, rt.alloc(), *kind, *branches)?;
    }
    Ok(())
}
