//! What a step makes of a graph in the making.
ghost use Rattle.std.specs.Prelude.{◌≡◌, IfOk, ◌-◌, ◌<◌, length};
ghost use Rattle.dfa_graph.specs.Building.{so_at, else_at, look_node, task_in, draft_after};
ghost use Rattle.dfa_graph.specs.declared.build.Step.TheVariants.{Chain, Loop, Fork, Skip, Keep};
ghost use Rattle.dfa_graph.specs.declared.build.Step.TheVariants.{Assert, Choose, Seek, Decide};
ghost use Rattle.dfa_graph.specs.declared.build.Step.TheVariants.{Reach};

use crate::build::{Step, Task, Work};
use crate::draft::GraphDraft;
use dfa_paths::Node;
use pat_lengths::Back;
use pat_tree::Memory;

/// Does a step: the state of its task is written, and what is left becomes new tasks.
pub(crate) fn do_step(step: Step, done: Task, draft: &mut GraphDraft) -> Result<(), Memory>
    requires few { length draft.old.nodes < 4294967290 }
    requires at { done.at < length draft.old.nodes }
    ensures { IfOk result (λ _. draft.new ≡ draft_after step done draft.old) }
{
    match step {
        Step::Refuse => {}
        Step::Write { node } => draft.write(done.at, node),
        Step::Hand { work } => draft.leave(follow(done, work, done.at, done.next))?,
        Step::Chain { first, second } => chain(done, first, second, draft)?,
        Step::Loop { work } => repeat(done, work, draft)?,
        Step::Fork { first, second } => fork(done, first, second, draft)?,
        Step::Skip { first, second } => skip(done, first, second, draft)?,
        Step::Keep { work } => keep(done, work, draft)?,
        Step::Assert { work, positive } => look(done, work, positive, draft)?,
        Step::Choose {
            work,
            positive,
            yes,
            no,
        } => choose(done, work, positive, yes, no, draft)?,
        Step::Seek { work, positive } => seek(done, work, positive, draft)?,
        Step::Decide {
            work,
            positive,
            yes,
            no,
        } => decide(done, work, positive, yes, no, draft)?,
        Step::Reach { back, branch, rest } => reach(done, back, branch, rest, draft)?,
    }
    Ok(())
}

/// The step of two works, one after the other.
fn chain(done: Task, first: Work, second: Work, draft: &mut GraphDraft) -> Result<(), Memory>
    requires few { length draft.old.nodes < 4294967290 }
    requires at { done.at < length draft.old.nodes }
    ensures { IfOk result (λ _. draft.new ≡ draft_after (Chain first second) done draft.old) }
{
    let middle = draft.fresh()?;
    draft.leave(follow(done, first, done.at, middle))?;
    draft.leave(follow(done, second, middle, done.next))?;
    Ok(())
}

/// The step of a work that is done any number of times.
fn repeat(done: Task, work: Work, draft: &mut GraphDraft) -> Result<(), Memory>
    requires few { length draft.old.nodes < 4294967290 }
    requires at { done.at < length draft.old.nodes }
    ensures { IfOk result (λ _. draft.new ≡ draft_after (Loop work) done draft.old) }
{
    let turn = draft.fresh()?;
    draft.write(
        done.at,
        Node::Split {
            first: turn,
            second: done.next,
        },
    );
    draft.leave(follow(done, work, turn, done.at))?;
    Ok(())
}

/// The step of one of two works.
fn fork(done: Task, first: Work, second: Work, draft: &mut GraphDraft) -> Result<(), Memory>
    requires few { length draft.old.nodes < 4294967290 }
    requires at { done.at < length draft.old.nodes }
    ensures { IfOk result (λ _. draft.new ≡ draft_after (Fork first second) done draft.old) }
{
    let left = draft.fresh()?;
    let right = draft.fresh()?;
    draft.write(
        done.at,
        Node::Split {
            first: left,
            second: right,
        },
    );
    draft.leave(follow(done, first, left, done.next))?;
    draft.leave(follow(done, second, right, done.next))?;
    Ok(())
}

/// The step of two works, one after the other, or neither.
fn skip(done: Task, first: Work, second: Work, draft: &mut GraphDraft) -> Result<(), Memory>
    requires few { length draft.old.nodes < 4294967290 }
    requires at { done.at < length draft.old.nodes }
    ensures { IfOk result (λ _. draft.new ≡ draft_after (Skip first second) done draft.old) }
{
    let turn = draft.fresh()?;
    let middle = draft.fresh()?;
    draft.write(
        done.at,
        Node::Split {
            first: turn,
            second: done.next,
        },
    );
    draft.leave(follow(done, first, turn, middle))?;
    draft.leave(follow(done, second, middle, done.next))?;
    Ok(())
}

/// The step of an atomic group.
fn keep(done: Task, work: Work, draft: &mut GraphDraft) -> Result<(), Memory>
    requires few { length draft.old.nodes < 4294967290 }
    requires at { done.at < length draft.old.nodes }
    ensures { IfOk result (λ _. draft.new ≡ draft_after (Keep work) done draft.old) }
{
    let entry = draft.fresh()?;
    draft.write(
        done.at,
        Node::Atomic {
            entry,
            next: done.next,
        },
    );
    draft.leave(nest(done, work, entry))?;
    Ok(())
}

/// The step of a lookahead.
fn look(done: Task, work: Work, positive: bool, draft: &mut GraphDraft) -> Result<(), Memory>
    requires few { length draft.old.nodes < 4294967290 }
    requires at { done.at < length draft.old.nodes }
    ensures { IfOk result (λ _. draft.new ≡ draft_after (Assert work positive) done draft.old) }
{
    let entry = draft.fresh()?;
    let dead = draft.fresh()?;
    draft.write(done.at, look_node(entry, positive, done.next, dead));
    draft.leave(nest(done, work, entry))?;
    Ok(())
}

/// The step of a condition on a lookaround.
fn choose(
    done: Task,
    work: Work,
    positive: bool,
    yes: Work,
    no: Option<Work>,
    draft: &mut GraphDraft,
) -> Result<(), Memory>
    requires few { length draft.old.nodes < 4294967290 }
    requires at { done.at < length draft.old.nodes }
    ensures { IfOk result (λ _. draft.new
        ≡ draft_after (Choose work positive yes no) done draft.old) }
{
    let entry = draft.fresh()?;
    let first = draft.fresh()?;
    match no {
        Some(no) => {
            let second = draft.fresh()?;
            draft.write(done.at, look_node(entry, positive, first, second));
            draft.leave(follow(done, yes, first, done.next))?;
            draft.leave(follow(done, no, second, done.next))?;
        }
        None => {
            draft.write(done.at, look_node(entry, positive, first, done.next));
            draft.leave(follow(done, yes, first, done.next))?;
        }
    }
    draft.leave(nest(done, work, entry))?;
    Ok(())
}

/// The step of a lookbehind.
fn seek(done: Task, work: Work, positive: bool, draft: &mut GraphDraft) -> Result<(), Memory>
    requires few { length draft.old.nodes < 4294967290 }
    ensures { IfOk result (λ _. draft.new ≡ draft_after (Seek work positive) done draft.old) }
{
    let miss = draft.fresh()?;
    let hit = draft.fresh()?;
    draft.write(so_at(positive, miss), Node::Goto { next: done.next });
    draft.leave(follow(done, work, done.at, hit))?;
    Ok(())
}

/// The step of a condition on a lookbehind.
fn decide(
    done: Task,
    work: Work,
    positive: bool,
    yes: Work,
    no: Option<Work>,
    draft: &mut GraphDraft,
) -> Result<(), Memory>
    requires few { length draft.old.nodes < 4294967290 }
    ensures { IfOk result (λ _. draft.new
        ≡ draft_after (Decide work positive yes no) done draft.old) }
{
    let miss = draft.fresh()?;
    let hit = draft.fresh()?;
    let second = else_at(positive, miss);
    draft.leave(follow(done, yes, so_at(positive, miss), done.next))?;
    match no {
        Some(no) => draft.leave(follow(done, no, second, done.next))?,
        None => draft.write(second, Node::Goto { next: done.next }),
    }
    draft.leave(follow(done, work, done.at, hit))?;
    Ok(())
}

/// The step of a branch of a lookbehind.
fn reach(
    done: Task,
    back: Back,
    branch: Work,
    rest: Work,
    draft: &mut GraphDraft,
) -> Result<(), Memory>
    requires few { length draft.old.nodes < 4294967290 }
    requires at { done.at < length draft.old.nodes }
    ensures { IfOk result (λ _. draft.new ≡ draft_after (Reach back branch rest) done draft.old) }
{
    let entry = draft.fresh()?;
    let miss = draft.fresh()?;
    draft.write(
        done.at,
        Node::Look {
            back: Some(back),
            entry,
            hit: done.next,
            miss,
        },
    );
    draft.leave(follow(done, rest, miss, done.next))?;
    draft.leave(nest(done, branch, entry))?;
    Ok(())
}

/// Where a lookbehind goes on if it is true, by whether an end is wanted: of its two ways, which
/// stand side by side, the second is that of an end.
fn so_at(wanted: bool, miss: u32) -> u32
    requires { miss < 4294967295 }
    ensures { result ≡ so_at wanted miss }
{
    if wanted { miss + 1 } else { miss }
}

/// Where it goes on else.
fn else_at(wanted: bool, miss: u32) -> u32
    requires { miss < 4294967295 }
    ensures { result ≡ else_at wanted miss }
{
    if wanted { miss } else { miss + 1 }
}

/// The state of a lookaround that goes on in the first way where it is true, else in the second.
fn look_node(entry: u32, positive: bool, yes: u32, no: u32) -> Node
    ensures { result ≡ look_node entry positive yes no }
{
    if positive {
        Node::Look {
            back: None,
            entry,
            hit: yes,
            miss: no,
        }
    } else {
        Node::Look {
            back: None,
            entry,
            hit: no,
            miss: yes,
        }
    }
}

/// A task that a task leaves.
fn follow(done: Task, work: Work, at: u32, next: u32) -> Task
    ensures { result ≡ task_in done.depth work at next }
{
    Task {
        work,
        depth: done.depth,
        at,
        next,
    }
}

/// A task that a task nests: its paths end at state 1.
fn nest(done: Task, work: Work, entry: u32) -> Task
    ensures { result ≡ task_in (done.depth - 1) work entry 1 }
{
    Task {
        work,
        depth: done.depth.saturating_sub(1),
        at: entry,
        next: 1,
    }
}
