//! A graph in the making.
ghost use Rattle.std.specs.Prelude.{◌≡◌, IfOk, MatchOption, ◌<◌, ◌++◌, ◌∷◌, [], length, slice_set};
ghost use Rattle.dfa_graph.specs.declared.build.Work.TheVariants as work;
ghost use Rattle.dfa_graph.specs.Building.{task_in};
ghost use Rattle.dfa_paths.specs.Fragment.{most_nested};
ghost use Rattle.dfa_paths.specs.declared.graph.Node.TheVariants.{Dead, Match};

use crate::build::{MOST_NESTED, Task, Work};
use dfa_paths::Node;
use pat_tree::{Memory, NodeId};
use std::alloc::Global;
use std::marker::Model;

/// A graph in the making: its states, and the tasks that are left.
#[derive(Drop)]
pub(crate) struct GraphDraft {
    nodes: Vec<Node>,
    tasks: Vec<Task>,
}

impl Model for GraphDraft {
    ghost use Rattle.dfa_graph.specs.Building.{DraftParts};

    ghost Value = { DraftParts };

    ghost view = { λ draft. record { nodes = draft.nodes.items; tasks = draft.tasks.items } };
}

impl GraphDraft {
    /// The states at which paths begin and end, and the task that places a part between them.
    pub(crate) fn new(alloc: Global, root: NodeId) -> Result<GraphDraft, Memory>
        ensures nodes { IfOk result (λ draft. draft.nodes ≡ Dead ∷ Match ∷ []) }
        ensures tasks { IfOk result (λ draft. draft.tasks
            ≡ task_in most_nested (work.Part root) 0 1 ∷ []) }
    {
        let mut nodes: Vec<Node> = Vec::new(alloc);
        nodes.push(Node::Dead)?;
        nodes.push(Node::Match)?;
        let mut tasks: Vec<Task> = Vec::new(alloc);
        tasks.push(Task {
            work: Work::Part { part: root },
            depth: MOST_NESTED,
            at: 0,
            next: 1,
        })?;
        Ok(GraphDraft { nodes, tasks })
    }

    /// The task that was added last, which is done now.
    pub(crate) fn take(&mut self) -> Option<Task>
        ensures tasks { MatchOption result (self.old.tasks ≡ [])
            (λ task. self.old.tasks ≡ self.new.tasks ++ task ∷ []) }
        ensures nodes { self.new.nodes ≡ self.old.nodes }
    {
        self.tasks.pop()
    }

    /// A state that is not written yet.
    pub(crate) fn fresh(&mut self) -> Result<u32, Memory>
        requires few { length self.old.nodes < 4294967295 }
        ensures state { IfOk result (λ state. state ≡ length self.old.nodes) }
        ensures nodes { IfOk result (λ _. self.new.nodes ≡ self.old.nodes ++ Dead ∷ []) }
        ensures tasks { self.new.tasks ≡ self.old.tasks }
    {
        let state = self.nodes.len() as u32;
        self.nodes.push(Node::Dead)?;
        Ok(state)
    }

    /// Writes a state.
    pub(crate) fn write(&mut self, at: u32, node: Node)
        requires { at < length self.old.nodes }
        ensures nodes { self.new.nodes ≡ slice_set self.old.nodes at node }
        ensures tasks { self.new.tasks ≡ self.old.tasks }
    {
        self.nodes[at as usize] = node;
    }

    /// Leaves a task.
    pub(crate) fn leave(&mut self, task: Task) -> Result<(), Memory>
        ensures tasks { IfOk result (λ _. self.new.tasks ≡ self.old.tasks ++ task ∷ []) }
        ensures nodes { self.new.nodes ≡ self.old.nodes }
    {
        self.tasks.push(task)?;
        Ok(())
    }

    /// The states.
    pub(crate) fn states(self) -> Vec<Node>
        ensures { result.items ≡ self.nodes }
    {
        self.nodes
    }
}
