//! A graph of a tree: tasks, each of which places a part from a state that is there on to a state
//! that follows.
ghost use Rattle.std.specs.Prelude.{◌≡◌, List, true, None, IfSome, ◌+◌, ◌<◌, ◌≤◌, ◌==◌, All, IfOk, length};
ghost use Rattle.std.specs.Prelude.{option_map, slice_get};
ghost use Rattle.pat_tree.specs.declared.nodes.Placed.{Placed};
ghost use Rattle.dfa_graph.specs.Building.{part_of, ids_of, IsRange, IsTurnRange, part_step, all_step, any_step};
ghost use Rattle.dfa_graph.specs.Building.{turn_step, turns_step, behind_step, step_of, node_of, IsPart, tree_of};
ghost use Rattle.dfa_graph.specs.Building.{cond_step, ask_step, nested_step, look_step, verb_step, is_refused};
ghost use Rattle.dfa_graph.specs.declared.build.Work.TheVariants as work;
ghost use Rattle.pat_lengths.specs.Backs.{AreBacks, first_fault};
ghost use Rattle.pat_check.specs.Support.{dfa_support};
ghost use Rattle.pat_check.specs.declared.support.DfaSupport.TheVariants.{Yes};
ghost use Rattle.dfa_paths.specs.Fragment.{AreStatesOf};
ghost use Rattle.dfa_graph.specs.Served.{has_graph};
ghost use Rattle.pat_check.specs.Size.{whole_size};

use crate::draft::GraphDraft;
use crate::forms::do_step;
use dfa_paths::Node;
use pat_lengths::{Back, Backs};
use pat_tree::{Cond, Memory, Node as Part, NodeId, Tree, Verb};
use std::alloc::Global;

/// What is to be placed.
#[derive(Clone, Copy, Debug, PartialEq, Eq)]
pub(crate) enum Work {
    /// A part of the tree.
    Part {
        part: NodeId,
    },
    /// The parts of a sequence from one on, one after the other.
    All {
        part: NodeId,
        from: usize,
    },
    /// The branches of a group from one on.
    Any {
        part: NodeId,
        from: usize,
    },
    /// One turn of a repeat.
    Turn {
        part: NodeId,
    },
    /// So many turns of a repeat.
    Turns {
        part: NodeId,
        low: u16,
        high: Option<u16>,
    },
    /// A condition on a lookaround, which is the part, and what follows where it is true or false.
    Ask {
        part: NodeId,
        yes: NodeId,
        no: Option<NodeId>,
    },
    /// The branches of a lookbehind from one on, one after the other. The next state follows where
    /// one has an end, and the state before that where none has.
    Behind {
        part: NodeId,
        from: usize,
    },
}

/// A work with the state that it begins at, and the one that follows. So many levels may be nested
/// in it.
#[derive(Clone, Copy, Debug, PartialEq, Eq)]
pub(crate) struct Task {
    pub(crate) work: Work,
    pub(crate) depth: u32,
    pub(crate) at: u32,
    pub(crate) next: u32,
}

/// What a work comes to at its state.
#[derive(Clone, Copy, Debug, PartialEq, Eq)]
pub(crate) enum Step {
    /// There is no fragment for it.
    Refuse,
    /// The state is this.
    Write {
        node: Node,
    },
    /// The same as another work.
    Hand {
        work: Work,
    },
    /// One after the other.
    Chain {
        first: Work,
        second: Work,
    },
    /// Any number of times.
    Loop {
        work: Work,
    },
    /// One of both.
    Fork {
        first: Work,
        second: Work,
    },
    /// Both, one after the other, or neither.
    Skip {
        first: Work,
        second: Work,
    },
    /// The furthest end of a work that is nested.
    Keep {
        work: Work,
    },
    /// Nothing, where a work that is nested has an end, or has none.
    Assert {
        work: Work,
        positive: bool,
    },
    /// One of two works, by whether a work that is nested has an end.
    Choose {
        work: Work,
        positive: bool,
        yes: Work,
        no: Option<Work>,
    },
    /// Nothing, where the branches of a lookbehind have an end, or have none.
    Seek {
        work: Work,
        positive: bool,
    },
    /// One of two works, by whether the branches of a lookbehind have an end.
    Decide {
        work: Work,
        positive: bool,
        yes: Work,
        no: Option<Work>,
    },
    /// A branch of a lookbehind, of these lengths, that is nested, and those after it.
    Reach {
        back: Back,
        branch: Work,
        rest: Work,
    },
}

/// A part of a sequence or a branch of a group.
fn kid(node: &Part, from: usize) -> Option<NodeId>
    ensures is { result ≡ slice_get (ids_of node.now) from }
    ensures few { IfSome result (λ _. from < 18446744073709551615) }
{
    match node {
        Part::Seq(kids) => item(kids.as_slice(), from),
        Part::Group { branches, .. } | Part::Look { branches, .. } => item(
            branches.as_slice(),
            from,
        ),
        Part::Atomic(branches) => item(branches.as_slice(), from),
        _ => None,
    }
}

fn item(ids: &[NodeId], at: usize) -> Option<NodeId>
    ensures is { result ≡ slice_get ids.now at }
    ensures few { IfSome result (λ _. at < 18446744073709551615) }
{
    if at < ids.len() { Some(ids[at]) } else { None }
}

/// A step that nests something, if so many levels may be nested.
fn nested(depth: u32, step: Step) -> Step
    ensures { result ≡ nested_step depth step }
{
    if depth == 0 { Step::Refuse } else { step }
}

/// What a part comes to.
fn part_work(node: &Part, part: NodeId, depth: u32, next: u32) -> Step
    ensures { result ≡ part_step part depth next node.now }
{
    let goes_on = Step::Write {
        node: Node::Goto { next },
    };
    let branches = Work::Any { part, from: 0 };
    match node {
        Part::Empty | Part::Callout { .. } => goes_on,
        Part::One(item) => Step::Write {
            node: Node::One { item: *item, next },
        },
        Part::Break => Step::Write {
            node: Node::Break { next },
        },
        Part::Anchor(kind) => Step::Write {
            node: Node::Anchor { kind: *kind, next },
        },
        Part::Seq(_) => Step::Hand {
            work: Work::All { part, from: 0 },
        },
        Part::Group { .. } => Step::Hand { work: branches },
        Part::Repeat { min, max, .. } | Part::OneRepeat { min, max, .. } => Step::Hand {
            work: Work::Turns {
                part,
                low: *min,
                high: *max,
            },
        },
        Part::Atomic(_) => nested(depth, Step::Keep { work: branches }),
        Part::Look {
            ahead,
            positive,
            ..
        } => nested(depth, look_work(part, *ahead, *positive)),
        Part::Cond { test, yes, no } => cond_work(test, *yes, *no, next),
        Part::VerbNode(verb) => verb_work(verb),
        _ => Step::Refuse,
    }
}

/// What a lookaround comes to, if it may be nested.
fn look_work(part: NodeId, ahead: bool, positive: bool) -> Step
    ensures { result ≡ look_step part ahead positive }
{
    if ahead {
        Step::Assert {
            work: Work::Any { part, from: 0 },
            positive,
        }
    } else {
        Step::Seek {
            work: Work::Behind { part, from: 0 },
            positive,
        }
    }
}

/// What a condition comes to: its second branch, where it is false.
fn cond_work(test: &Cond, yes: NodeId, no: Option<NodeId>, next: u32) -> Step
    ensures { result ≡ cond_step next test.now yes no }
{
    match test {
        Cond::Never | Cond::InCall => match no {
            Some(part) => Step::Hand {
                work: Work::Part { part },
            },
            None => Step::Write {
                node: Node::Goto { next },
            },
        },
        Cond::Assert(test) => Step::Hand {
            work: Work::Ask {
                part: *test,
                yes,
                no,
            },
        },
        _ => Step::Refuse,
    }
}

/// What a condition on a lookaround comes to. A callout before it is passed over.
fn ask_work(node: &Part, part: NodeId, yes: NodeId, no: Option<NodeId>, depth: u32) -> Step
    ensures { result ≡ ask_step part yes no depth node.now }
{
    match node {
        Part::Look {
            ahead: true,
            positive,
            ..
        } => nested(
            depth,
            Step::Choose {
                work: Work::Any { part, from: 0 },
                positive: *positive,
                yes: Work::Part { part: yes },
                no: second_work(no),
            },
        ),
        Part::Look { positive, .. } => nested(
            depth,
            Step::Decide {
                work: Work::Behind { part, from: 0 },
                positive: *positive,
                yes: Work::Part { part: yes },
                no: second_work(no),
            },
        ),
        Part::Seq(kids) => match item(kids.as_slice(), 1) {
            Some(part) => Step::Hand {
                work: Work::Ask { part, yes, no },
            },
            None => Step::Refuse,
        },
        _ => Step::Refuse,
    }
}

/// The second branch of a condition, if there is one.
fn second_work(no: Option<NodeId>) -> Option<Work>
    ensures { result ≡ option_map work.Part no }
{
    match no {
        Some(part) => Some(Work::Part { part }),
        None => None,
    }
}

/// What a verb comes to: FAIL goes on nowhere.
fn verb_work(verb: &Verb) -> Step
    ensures { result ≡ verb_step verb.now }
{
    match verb {
        Verb::Fail { .. } => Step::Write { node: Node::Dead },
        _ => Step::Refuse,
    }
}

/// How many parts a sequence has, or branches a group.
fn count(node: &Part) -> usize
    ensures { result ≡ length (ids_of node.now) }
{
    match node {
        Part::Seq(kids) => kids.len(),
        Part::Group { branches, .. } | Part::Look { branches, .. } => branches.len(),
        Part::Atomic(branches) => branches.len(),
        _ => 0,
    }
}

/// What the parts of a sequence from one on come to.
fn all_work(node: &Part, part: NodeId, from: usize, next: u32) -> Step
    ensures { result ≡ all_step part from next (slice_get (ids_of node.now) from) }
{
    match kid(node, from) {
        None => Step::Write {
            node: Node::Goto { next },
        },
        Some(first) => Step::Chain {
            first: Work::Part { part: first },
            second: Work::All {
                part,
                from: from + 1,
            },
        },
    }
}

/// What the branches of a group from one on come to.
fn any_work(node: &Part, part: NodeId, from: usize) -> Step
    ensures { result ≡ any_step part from (slice_get (ids_of node.now) from)
        (from + 1 == length (ids_of node.now)) }
{
    let Some(first) = kid(node, from) else {
        return Step::Write { node: Node::Dead };
    };
    let first = Work::Part { part: first };
    if from + 1 == count(node) {
        return Step::Hand { work: first };
    }
    Step::Fork {
        first,
        second: Work::Any {
            part,
            from: from + 1,
        },
    }
}

/// What the branches of a lookbehind from one on come to.
fn behind_work(node: &Part, backs: &Backs, part: NodeId, from: usize, next: u32) -> Step
    requires kids { All (λ k. k < length backs.now) (ids_of node.now) }
    ensures { result ≡ behind_step backs.now part from next (slice_get (ids_of node.now) from) }
{
    match kid(node, from) {
        None => Step::Write {
            node: Node::Goto {
                next: next.saturating_sub(1),
            },
        },
        Some(branch) => Step::Reach {
            back: backs.of(branch),
            branch: Work::Part { part: branch },
            rest: Work::Behind {
                part,
                from: from + 1,
            },
        },
    }
}

/// What one turn of a repeat comes to.
fn turn_work(node: &Part, next: u32) -> Step
    ensures { result ≡ turn_step next node.now }
{
    match node {
        Part::Repeat { body, .. } => Step::Hand {
            work: Work::Part { part: *body },
        },
        Part::OneRepeat { item, .. } => Step::Write {
            node: Node::One { item: *item, next },
        },
        _ => Step::Refuse,
    }
}

/// What so many turns of a repeat come to.
fn turns_work(part: NodeId, low: u16, high: Option<u16>, next: u32) -> Step
    requires { IsRange low high }
    ensures { result ≡ turns_step part next low high }
{
    let turn = Work::Turn { part };
    if low > 0 {
        let high = match high {
            None => None,
            Some(most) => Some(most - 1),
        };
        let second = Work::Turns {
            part,
            low: low - 1,
            high,
        };
        return Step::Chain {
            first: turn,
            second,
        };
    }
    match high {
        None => Step::Loop { work: turn },
        Some(0) => Step::Write {
            node: Node::Goto { next },
        },
        Some(most) => Step::Skip {
            first: turn,
            second: Work::Turns {
                part,
                low: 0,
                high: Some(most - 1),
            },
        },
    }
}

/// The part of a work.
fn work_part(work: Work) -> NodeId
    ensures { result ≡ part_of work }
{
    match work {
        Work::Part { part }
        | Work::All { part, .. }
        | Work::Any { part, .. }
        | Work::Turn { part }
        | Work::Turns { part, .. }
        | Work::Ask { part, .. }
        | Work::Behind { part, .. } => part,
    }
}

/// What a work comes to.
fn work_step(tree: &Tree, backs: &Backs, work: Work, depth: u32, next: u32) -> Step
    requires backs { AreBacks tree.now backs.now }
    requires part { part_of work ≤ tree.now.root }
    requires range { IsTurnRange work }
    ensures is { result ≡ step_of tree.now.nodes backs.now work depth next }
    ensures part { IsPart tree.now.nodes (length tree.now.classes) (part_of work) }
{
    let part = work_part(work);
    let node = tree.node(part);
    node_step(node, backs, part, work, depth, next)
}

/// What a work comes to, by its part's node.
fn node_step(node: &Part, backs: &Backs, part: NodeId, work: Work, depth: u32, next: u32) -> Step
    requires part { part ≡ part_of work }
    requires range { IsTurnRange work }
    requires kids { All (λ k. k < length backs.now) (ids_of node.now) }
    ensures { (ps : List Placed) → node.now ≡ node_of ps part
        → result ≡ step_of ps backs.now work depth next }
{
    match work {
        Work::Part { .. } => part_work(node, part, depth, next),
        Work::All { from, .. } => all_work(node, part, from, next),
        Work::Any { from, .. } => any_work(node, part, from),
        Work::Turn { .. } => turn_work(node, next),
        Work::Turns { low, high, .. } => turns_work(part, low, high, next),
        Work::Ask { yes, no, .. } => ask_work(node, part, yes, no, depth),
        Work::Behind { from, .. } => behind_work(node, backs, part, from, next),
    }
}

/// Whether there is no fragment.
fn is_refused(step: Step) -> bool
    ensures { result ≡ is_refused step }
{
    matches!(step, Step::Refuse)
}

/// How deep the forms of a graph are nested at most.
pub const MOST_NESTED: u32 = 512;

/// How many steps are made at most: each makes three states at most.
const STEPS: u32 = 349_000;

/// The states of a tree: paths begin at state 0, and state 1 ends them. None only where there is no
/// fragment for a part, or where the tree is too large, as a step is made at most four times as often
/// as there are nodes.
///
/// Needs the lengths of the branches of its lookbehinds, none of which is refused, and a tree of
/// forms that are supported.
pub(crate) fn place_tree(
    alloc: Global,
    tree: &Tree,
    backs: &Backs,
) -> Result<Option<Vec<Node>>, Memory>
    requires backs { AreBacks tree.now backs.now }
    requires fixed { first_fault tree.now ≡ None }
    requires dfa { dfa_support (tree_of tree.now.nodes tree.now.root) ≡ Yes }
    ensures some { IfOk result (λ some. IfSome some (λ nodes. AreStatesOf (length tree.now.classes)
        nodes.items (tree_of tree.now.nodes tree.now.root))) }
    ensures none { whole_size (tree_of tree.now.nodes tree.now.root) ≤ 65536
        → has_graph (tree_of tree.now.nodes tree.now.root) ≡ true
        → IfOk result (λ some. some ≡ None → ⊥) }
{
    // so what is known of the whole is known of each part
    tree.is_sound();
    let mut draft = GraphDraft::new(alloc, tree.root())?;
    let mut left = STEPS;
    'tasks: while let Some(task) = draft.take() {
        if left == 0 {
            return Ok(None);
        }
        left -= 1;
        let step = work_step(tree, backs, task.work, task.depth, task.next);
        if is_refused(step) {
            return Ok(None);
        }
        do_step(step, task, &mut draft)?;
    }
    Ok(Some(draft.states()))
}
