//! Trees made step by step.
ghost use Rattle.std.specs.Prelude.{◌≡◌, ◌≤◌, ◌<◌, ◌+◌, ◌∷◌, ◌++◌, [], All, IfOk, OnOk, false, length};
ghost use Rattle.pat_tree.specs.Rules.{kids_of, asserted_by, classes_of, verb_names_of, numbers_of, IsNamed};
ghost use Rattle.pat_tree.specs.Rules.{IsOrdered, IsDefine};
ghost use Rattle.check_tests.specs.Drafts.{IsDraft, IsPlainTest};

use pat_tree::{
    AnchorKind, ClassSpec, Cond, Draft, GroupList, Item, Kids, ListOf, Node, NodeId, Options, Part,
    Tree, Verb,
};
use std::alloc::Global;
use std::test::Fail;

/// One step in the making of a pattern: a node that takes the last ones that aren't taken yet. Its place is the number
/// of the step.
#[derive(Clone, Copy)]
pub(crate) enum Step {
    Empty,
    Char(u32),
    AnyCase(u32),
    AnyAll,
    NotNewline,
    /// A character from LF to CR.
    Class,
    Break,
    /// A character between a minimum and a maximum.
    Chars(u32, u16, Option<u16>),
    Anchor(AnchorKind),
    KeepOut,
    Accept,
    Fail,
    Commit,
    Callout,
    Call(u16),
    Ref(u16),
    EitherRef(u16, u16),
    /// So many, one after the other.
    Seq(usize),
    /// So many alternatives.
    Group(usize),
    Capture(u16, usize),
    Atomic(usize),
    Ahead(usize),
    Behind(usize),
    NotBehind(usize),
    AheadAnyWay(usize),
    Repeat(u16, Option<u16>),
    /// A condition on a group with two branches, or with one.
    IfSet(u16),
    IfSetAlone(u16),
    IfCalled,
    IfCalledOf(u16),
    Define,
}

/// Adds a node that takes the last ones.
fn add(draft: &mut Draft, waiting: &mut Vec<NodeId>, node: Node, at: u32) -> Result<(), Fail>
    requires room { length draft.old.nodes < 100000 }
    requires made { IsDraft draft.old (waiting.old.items ++ kids_of node) }
    requires classes { All (λ n. n < 1) (classes_of node) }
    requires verb_names { verb_names_of node ≡ [] }
    requires numbered { All (λ n. 1 ≤ n) (numbers_of node) }
    requires named { IsNamed node }
    requires ordered { IsOrdered node }
    requires define { IsDefine node }
    requires tests { asserted_by node ≡ [] }
    ensures made { OnOk result (IsDraft draft.new waiting.new.items) }
    ensures count { OnOk result (length draft.new.nodes ≡ length draft.old.nodes + 1) }
{
    let id = draft.add(node, at)?;
    waiting.push(id)?;
    Ok(())
}

/// The last so many, where there are so many.
fn take(waiting: &mut Vec<NodeId>, count: usize) -> Result<Kids, Fail>
    ensures { IfOk result (λ kids. waiting.old.items ≡ waiting.new.items ++ kids) }
{
    let from = waiting.len().saturating_sub(count);
    let kids = waiting.split_off(from)?;
    Ok(Kids::from_vec(kids))
}

fn one_group(alloc: Global, group: u16) -> Result<GroupList, Fail>
    ensures { IfOk result (λ groups. groups ≡ group ∷ []) }
{
    Ok(GroupList::from_vec(Vec::from_slice(alloc, &[group])?))
}

fn two_groups(alloc: Global, first: u16, second: u16) -> Result<GroupList, Fail>
    ensures { IfOk result (λ groups. groups ≡ first ∷ second ∷ []) }
{
    Ok(GroupList::from_vec(Vec::from_slice(alloc, &[first, second])?))
}

fn character(c: u32, caseless: bool) -> Item
    ensures { result ≡ Item.Char c caseless }
{
    Item::Char { c, caseless }
}

/// A repeat of a character, with a maximum that isn't below the minimum.
fn chars(c: u32, min: u16, max: Option<u16>) -> Node
    ensures kids { kids_of result ≡ [] }
    ensures classes { classes_of result ≡ [] }
    ensures verb_names { verb_names_of result ≡ [] }
    ensures numbered { numbers_of result ≡ [] }
    ensures named { IsNamed result }
    ensures ordered { IsOrdered result }
    ensures define { IsDefine result }
    ensures tests { asserted_by result ≡ [] }
{
    let item = character(c, false);
    match max {
        Some(max) => Node::OneRepeat {
            item,
            min,
            max: Some(max.max(min)),
            lazy: false,
        },
        None => Node::OneRepeat {
            item,
            min,
            max: None,
            lazy: false,
        },
    }
}

/// Adds what takes none of the last ones.
fn add_leaf(
    alloc: Global,
    draft: &mut Draft,
    waiting: &mut Vec<NodeId>,
    step: Step,
    at: u32,
) -> Result<(), Fail>
    requires room { length draft.old.nodes < 100000 }
    requires made { IsDraft draft.old waiting.old.items }
    ensures made { OnOk result (IsDraft draft.new waiting.new.items) }
    ensures count { OnOk result (length draft.new.nodes ≤ length draft.old.nodes + 1) }
{
    match step {
        Step::Char(c) => add(draft, waiting, Node::One(character(c, false)), at),
        Step::AnyCase(c) => add(draft, waiting, Node::One(character(c, true)), at),
        Step::AnyAll => add(draft, waiting, Node::One(Item::AnyAll), at),
        Step::NotNewline => add(draft, waiting, Node::One(Item::NotNewline), at),
        Step::Class => add(draft, waiting, Node::One(Item::Class(0)), at),
        Step::Break => add(draft, waiting, Node::Break, at),
        Step::Chars(c, min, max) => add(draft, waiting, chars(c, min, max), at),
        Step::Anchor(kind) => add(draft, waiting, Node::Anchor(kind), at),
        Step::KeepOut => add(draft, waiting, Node::KeepOut, at),
        Step::Accept => add(
            draft,
            waiting,
            Node::VerbNode(Verb::Accept { name: None }),
            at,
        ),
        Step::Fail => add(
            draft,
            waiting,
            Node::VerbNode(Verb::Fail { name: None }),
            at,
        ),
        Step::Commit => add(
            draft,
            waiting,
            Node::VerbNode(Verb::Commit { name: None }),
            at,
        ),
        Step::Call(group) => add(draft, waiting, Node::Call { group }, at),
        _ => add_named(alloc, draft, waiting, step, at),
    }
}

/// Adds a reference, a callout or an empty node.
fn add_named(
    alloc: Global,
    draft: &mut Draft,
    waiting: &mut Vec<NodeId>,
    step: Step,
    at: u32,
) -> Result<(), Fail>
    requires room { length draft.old.nodes < 100000 }
    requires made { IsDraft draft.old waiting.old.items }
    ensures made { OnOk result (IsDraft draft.new waiting.new.items) }
    ensures count { OnOk result (length draft.new.nodes ≤ length draft.old.nodes + 1) }
{
    let node = match step {
        Step::Ref(group) => Node::Ref {
            groups: one_group(alloc, group)?,
            caseless: false,
        },
        Step::EitherRef(first, second) => Node::Ref {
            groups: two_groups(alloc, first, second)?,
            caseless: false,
        },
        Step::Callout => Node::Callout {
            number: 1,
            text_from: 0,
            text_to: 0,
            item_at: 0,
            item_len: 0,
        },
        _ => Node::Empty,
    };
    add(draft, waiting, node, at)
}

/// Adds what takes so many of the last ones as parts or branches.
fn add_over_many(
    draft: &mut Draft,
    waiting: &mut Vec<NodeId>,
    step: Step,
    at: u32,
) -> Result<(), Fail>
    requires room { length draft.old.nodes < 100000 }
    requires made { IsDraft draft.old waiting.old.items }
    ensures made { OnOk result (IsDraft draft.new waiting.new.items) }
    ensures count { OnOk result (length draft.new.nodes ≤ length draft.old.nodes + 1) }
{
    let node = match step {
        Step::Seq(count) => Node::Seq(take(waiting, count)?),
        Step::Group(count) => Node::Group {
            number: None,
            branches: take(waiting, count)?,
        },
        Step::Capture(number, count) => Node::Group {
            number: Some(number.max(1)),
            branches: take(waiting, count)?,
        },
        Step::Atomic(count) => Node::Atomic(take(waiting, count)?),
        Step::Ahead(count) => look(true, true, true, take(waiting, count)?),
        Step::Behind(count) => look(false, true, true, take(waiting, count)?),
        Step::NotBehind(count) => look(false, false, true, take(waiting, count)?),
        Step::AheadAnyWay(count) => look(true, true, false, take(waiting, count)?),
        _ => Node::Empty,
    };
    add(draft, waiting, node, at)
}

fn look(ahead: bool, positive: bool, atomic: bool, branches: Kids) -> Node
    ensures { result ≡ Node.Look ahead positive atomic branches }
{
    Node::Look {
        ahead,
        positive,
        atomic,
        branches,
    }
}

/// Adds a repeat of the last one.
fn add_repeat(
    draft: &mut Draft,
    waiting: &mut Vec<NodeId>,
    min: u16,
    max: Option<u16>,
    at: u32,
) -> Result<(), Fail>
    requires room { length draft.old.nodes < 100000 }
    requires made { IsDraft draft.old waiting.old.items }
    ensures made { OnOk result (IsDraft draft.new waiting.new.items) }
    ensures count { OnOk result (length draft.new.nodes ≤ length draft.old.nodes + 1) }
{
    let Some(body) = waiting.pop() else {
        return Ok(());
    };
    let node = match max {
        Some(max) => Node::Repeat {
            body,
            min,
            max: Some(max.max(min)),
            lazy: false,
        },
        None => Node::Repeat {
            body,
            min,
            max: None,
            lazy: false,
        },
    };
    add(draft, waiting, node, at)
}

/// The test of a condition.
fn test(alloc: Global, step: Step) -> Result<Cond, Fail>
    ensures { IfOk result IsPlainTest }
{
    match step {
        Step::IfSet(group) => Ok(Cond::AnySet(one_group(alloc, group)?)),
        Step::IfSetAlone(group) => Ok(Cond::AnySet(one_group(alloc, group)?)),
        Step::IfCalledOf(group) => Ok(Cond::InCallOf(one_group(alloc, group)?)),
        _ => Ok(Cond::InCall),
    }
}

/// Adds a condition over the last two, or over the last one alone.
fn add_condition(
    alloc: Global,
    draft: &mut Draft,
    waiting: &mut Vec<NodeId>,
    step: Step,
    at: u32,
) -> Result<(), Fail>
    requires room { length draft.old.nodes < 100000 }
    requires made { IsDraft draft.old waiting.old.items }
    ensures made { OnOk result (IsDraft draft.new waiting.new.items) }
    ensures count { OnOk result (length draft.new.nodes ≤ length draft.old.nodes + 1) }
{
    if waiting.len() < 2 {
        return Ok(());
    }
    let (Some(no), Some(yes)) = (waiting.pop(), waiting.pop()) else {
        unreachable!();
    };
    let node = Node::Cond {
        test: test(alloc, step)?,
        yes,
        no: Some(no),
    };
    add(draft, waiting, node, at)
}

/// Adds a condition with one branch.
fn add_lone_condition(
    alloc: Global,
    draft: &mut Draft,
    waiting: &mut Vec<NodeId>,
    step: Step,
    at: u32,
) -> Result<(), Fail>
    requires room { length draft.old.nodes < 100000 }
    requires made { IsDraft draft.old waiting.old.items }
    ensures made { OnOk result (IsDraft draft.new waiting.new.items) }
    ensures count { OnOk result (length draft.new.nodes ≤ length draft.old.nodes + 1) }
{
    let Some(yes) = waiting.pop() else {
        return Ok(());
    };
    let test = match step {
        Step::Define => Cond::Never,
        _ => test(alloc, step)?,
    };
    add(
        draft,
        waiting,
        Node::Cond {
            test,
            yes,
            no: None,
        },
        at,
    )
}

fn take_step(
    alloc: Global,
    draft: &mut Draft,
    waiting: &mut Vec<NodeId>,
    step: Step,
    at: u32,
) -> Result<(), Fail>
    requires room { length draft.old.nodes < 100000 }
    requires made { IsDraft draft.old waiting.old.items }
    ensures made { OnOk result (IsDraft draft.new waiting.new.items) }
    ensures count { OnOk result (length draft.new.nodes ≤ length draft.old.nodes + 1) }
{
    match step {
        Step::Seq(_)
        | Step::Group(_)
        | Step::Capture(..)
        | Step::Atomic(_)
        | Step::Ahead(_)
        | Step::Behind(_)
        | Step::NotBehind(_)
        | Step::AheadAnyWay(_) => add_over_many(draft, waiting, step, at),
        Step::Repeat(min, max) => add_repeat(draft, waiting, min, max, at),
        Step::IfSet(_) | Step::IfCalled | Step::IfCalledOf(_) => {
            add_condition(alloc, draft, waiting, step, at)
        }
        Step::IfSetAlone(_) | Step::Define => {
            add_lone_condition(alloc, draft, waiting, step, at)
        }
        _ => add_leaf(alloc, draft, waiting, step, at),
    }
}

/// A draft with the class of the characters from LF to CR.
fn begin(alloc: Global, options: Options) -> Result<Draft, Fail>
    ensures made { IfOk result (λ draft. IsDraft draft []) }
    ensures count { IfOk result (λ draft. draft.nodes ≡ []) }
{
    let mut draft = Draft::new(alloc, options);
    let parts = ListOf::from_vec(Vec::from_slice(alloc, &[Part::Range { from: 10, to: 13 }])?);
    draft.add_class(ClassSpec {
        negated: false,
        caseless: false,
        parts,
    })?;
    Ok(draft)
}

/// The tree that these steps make, whose root is the last node.
pub(crate) fn tree_of(alloc: Global, options: Options, steps: &[Step]) -> Result<Tree, Fail>
    requires count { length steps.now < 90000 }
{
    let mut draft = begin(alloc, options)?;
    let mut waiting = Vec::new(alloc);
    for (at, step) in steps.iter().enumerate() {
        take_step(alloc, &mut draft, &mut waiting, *step, at as u32)?;
    }
    let root = match waiting.pop() {
        Some(root) => root,
        None => draft.add(Node::Empty, 0)?,
    };
    let tree = draft.finish(root)?;
    Ok(tree)
}
