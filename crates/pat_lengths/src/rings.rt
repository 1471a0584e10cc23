// Rings of nodes that lead to one another by children, calls and references, by one search in depth (Tarjan's).
ghost use Rattle.std.specs.Prelude.{◌≡◌, ◌++◌, ◌∷◌, [], ◌≤◌, ℕ, All, IfOk, OnOk};
ghost use Rattle.pat_tree.specs.Nested.{trees};
ghost use Rattle.pat_tree.specs.Parts.{tree_of};
ghost use Rattle.pat_tree.specs.Rules.{kids_of, number_in, tests_of};
ghost use Rattle.pat_lengths.specs.Leading.{names_of, places_of};
ghost use Rattle.pat_lengths.specs.Passing.{IsGroupTable};
ghost use Rattle.pat_lengths.specs.Rings.{IsPlan, spot_at, step_node, top_at};

use crate::groups::Groups;
use crate::kids::{has_flag, set_flag};
use pat_tree::{Cond, Memory, Node, NodeId, Tree};
use std::alloc::Global;

/// What a search in depth tells of a node.
#[derive(Clone, Copy)]
pub(crate) struct Spot {
    /// The step in which it came to the node.
    pub came: u64,
    /// The step in which it left it.
    pub left: u64,
    /// The step in which it came to the first node that this one was seen to lead back to.
    pub low: u64,
    /// The number of its ring, after those of the rings that it leads to.
    pub ring: usize,
}

/// The rings of a pattern's nodes. A node that doesn't lead back to itself is a ring of its own.
#[derive(Drop)]
pub(crate) struct Rings {
    /// Of each node, by its number.
    pub spots: Vec<Spot>,
    /// Of each ring the node that the search came to first.
    pub tops: Vec<NodeId>,
}

impl Rings {
    pub(crate) fn spot(&self, id: NodeId) -> Spot
        ensures { result ≡ spot_at self.now.spots.items id }
    {
        match self.spots.get(id as usize) {
            Some(spot) => *spot,
            None => no_spot(),
        }
    }

    /// The first node of a ring.
    pub(crate) fn top(&self, ring: usize) -> NodeId
        ensures { result ≡ top_at self.now.tops.items ring }
    {
        match self.tops.get(ring) {
            Some(top) => *top,
            None => 0,
        }
    }

    fn put(&mut self, id: NodeId, spot: Spot) {
        if let Some(slot) = self.spots.get_mut(id as usize) {
            *slot = spot;
        }
    }
}

fn no_spot() -> Spot
    ensures { result ≡ spot_at [] 0 }
{
    Spot {
        came: 0,
        left: 0,
        low: 0,
        ring: 0,
    }
}

/// What a search has to do.
#[derive(Clone, Copy)]
enum Step {
    Come(NodeId),
    Leave(NodeId),
}

/// A search in depth.
#[derive(Drop)]
struct Search {
    rings: Rings,
    /// By number: the nodes that it came to.
    seen: Vec<bool>,
    /// By number: those of them whose ring isn't known yet.
    open: Vec<bool>,
    /// The open nodes, in the order in which it came to them.
    path: Vec<NodeId>,
}

impl Search {
    fn new(alloc: Global, count: usize) -> Result<Search, Memory> {
        let rings = Rings {
            spots: vec![in alloc; no_spot(); count]?,
            tops: Vec::new(alloc),
        };
        Ok(Search {
            rings,
            seen: vec![in alloc; false; count]?,
            open: vec![in alloc; false; count]?,
            path: Vec::new(alloc),
        })
    }

    /// Comes to a node. Whether it's the first time.
    fn come_to(&mut self, id: NodeId, step: u64) -> Result<bool, Memory> {
        if has_flag(&self.seen, id as usize) {
            return Ok(false);
        }
        set_flag(&mut self.seen, id as usize, true);
        set_flag(&mut self.open, id as usize, true);
        let spot = Spot {
            came: step,
            low: step,
            ..no_spot()
        };
        self.rings.put(id, spot);
        self.path.push(id)?;
        Ok(true)
    }

    /// Leaves a node, after all that it leads to.
    fn leave(&mut self, id: NodeId, next: &[NodeId], step: u64) -> Result<(), Memory> {
        let came = self.rings.spot(id).came;
        let low = self.lowest(came, next);
        let spot = Spot {
            came,
            left: step,
            low,
            ring: 0,
        };
        self.rings.put(id, spot);
        if low == came {
            return self.close(id);
        }
        Ok(())
    }

    /// The first step in which it came to an open node that one of these was seen to lead back to.
    fn lowest(&self, came: u64, next: &[NodeId]) -> u64 {
        let mut low = came;
        for id in next {
            if has_flag(&self.open, *id as usize) {
                low = low.min(self.rings.spot(*id).low);
            }
        }
        low
    }

    /// The open nodes from this one on are a ring.
    fn close(&mut self, top: NodeId) -> Result<(), Memory> {
        let ring = self.rings.tops.len();
        self.rings.tops.push(top)?;
        for _ in 0..self.path.len() {
            let Some(id) = self.path.pop() else {
                return Ok(());
            };
            set_flag(&mut self.open, id as usize, false);
            let spot = Spot {
                ring,
                ..self.rings.spot(id)
            };
            self.rings.put(id, spot);
            if id == top {
                return Ok(());
            }
        }
        Ok(())
    }
}

/// What a search has still to do and what it has done.
#[derive(Drop)]
struct Plan {
    /// The next at the end.
    waiting: Vec<Step>,
    /// The nodes in the order in which the search left them.
    order: Vec<NodeId>,
}

impl Plan {
    /// Comes to a node, the first time to all that it leads to before it is left.
    fn come(
        &mut self,
        search: &mut Search,
        next: &mut Vec<NodeId>,
        tree: &Tree,
        groups: &Groups,
        id: NodeId,
        step: u64,
    ) -> Result<(), Memory>
        requires below { id ≤ tree.now.root }
        requires table { IsGroupTable (trees tree.now.nodes) tree.now.root (tree_of tree.now)
            groups.now }
        requires plan { IsPlan tree.now.root self.old }
        ensures { OnOk result (IsPlan tree.now.root self.new) }
    {
        if search.come_to(id, step)? {
            next_of(next, groups, tree.node(id))?;
            wait_for(&mut self.waiting, id, next.as_slice())?;
        }
        Ok(())
    }

    fn leave(
        &mut self,
        search: &mut Search,
        next: &mut Vec<NodeId>,
        tree: &Tree,
        groups: &Groups,
        id: NodeId,
        step: u64,
    ) -> Result<(), Memory>
        requires below { id ≤ tree.now.root }
        requires plan { IsPlan tree.now.root self.old }
        ensures { OnOk result (IsPlan tree.now.root self.new) }
    {
        next_of(next, groups, tree.node(id))?;
        search.leave(id, next.as_slice(), step)?;
        self.order.push(id)?;
        Ok(())
    }
}

/// What a search in depth tells of a pattern's nodes.
#[derive(Drop)]
pub(crate) struct Told {
    pub rings: Rings,
    /// The nodes in the order in which it left them: each after all that it leads to but its ring.
    pub order: Vec<NodeId>,
}

/// Searches the nodes under the root.
pub(crate) fn rings_of(alloc: Global, tree: &Tree, groups: &Groups) -> Result<Told, Memory>
    requires { IsGroupTable (trees tree.now.nodes) tree.now.root (tree_of tree.now) groups.now }
    ensures { IfOk result (λ told. All (λ k. k ≤ tree.now.root) told.order.items) }
{
    let mut search = Search::new(alloc, tree.root() as usize + 1)?;
    let mut plan = Plan {
        waiting: vec![in alloc; Step::Come(tree.root()); 1]?,
        order: Vec::new(alloc),
    };
    let mut next = Vec::new(alloc);
    // It comes to a node at most as often as others lead to it, and so ends long before.
    for step in 0..u64::MAX {
        match plan.waiting.pop() {
            Some(Step::Come(id)) => plan.come(&mut search, &mut next, tree, groups, id, step)?,
            Some(Step::Leave(id)) => plan.leave(&mut search, &mut next, tree, groups, id, step)?,
            None => break,
        }
    }
    Ok(Told {
        rings: search.rings,
        order: plan.order,
    })
}

/// Comes to these next, the last first, and leaves the node after them.
fn wait_for(waiting: &mut Vec<Step>, id: NodeId, next: &[NodeId]) -> Result<(), Memory>
    ensures { OnOk result ((root : ℕ) → id ≤ root → All (λ k. k ≤ root) next.now
        → All (λ step. step_node step ≤ root) waiting.old.items
        → All (λ step. step_node step ≤ root) waiting.new.items) }
{
    waiting.push(Step::Leave(id))?;
    for id in next {
        waiting.push(Step::Come(*id))?;
    }
    Ok(())
}

/// What a node leads to: its children and the groups that it names.
pub(crate) fn next_of(next: &mut Vec<NodeId>, groups: &Groups, node: &Node) -> Result<(), Memory>
    ensures { OnOk result (next.new.items
        ≡ kids_of node.now ++ places_of groups.now.places.items (names_of node.now)) }
{
    next.clear();
    push_kids(next, node)?;
    push_named(next, groups, node)
}

fn push_kids(next: &mut Vec<NodeId>, node: &Node) -> Result<(), Memory>
    ensures { OnOk result (next.new.items ≡ next.old.items ++ kids_of node.now) }
{
    match node {
        Node::Seq(kids) => push_all(next, kids.as_slice()),
        Node::Group { branches, .. } => push_all(next, branches.as_slice()),
        Node::Repeat { body, .. } => push_all(next, &[*body]),
        Node::Atomic(branches) => push_all(next, branches.as_slice()),
        Node::Look { branches, .. } => push_all(next, branches.as_slice()),
        Node::Cond { test, yes, no } => push_condition(next, test, *yes, *no),
        _ => Ok(()),
    }
}

fn push_all(next: &mut Vec<NodeId>, ids: &[NodeId]) -> Result<(), Memory>
    ensures { OnOk result (next.new.items ≡ next.old.items ++ ids.now) }
{
    next.extend_from_slice(ids)?;
    Ok(())
}

fn push_condition(
    next: &mut Vec<NodeId>,
    test: &Cond,
    yes: NodeId,
    no: Option<NodeId>,
) -> Result<(), Memory>
    ensures { OnOk result
        (next.new.items ≡ next.old.items ++ tests_of test.now ++ yes ∷ number_in no) }
{
    if let Cond::Assert(test) = test {
        next.push(*test)?;
    }
    next.push(yes)?;
    push_place(next, no)
}

fn push_place(next: &mut Vec<NodeId>, place: Option<NodeId>) -> Result<(), Memory>
    ensures { OnOk result (next.new.items ≡ next.old.items ++ number_in place) }
{
    if let Some(id) = place {
        next.push(id)?;
    }
    Ok(())
}

/// Adds the places of the groups that a node names.
fn push_named(next: &mut Vec<NodeId>, groups: &Groups, node: &Node) -> Result<(), Memory>
    ensures { OnOk result (next.new.items
        ≡ next.old.items ++ places_of groups.now.places.items (names_of node.now)) }
{
    match node {
        Node::Call { group } => push_place(next, groups.place(*group)),
        Node::Ref { groups: named, .. } => push_groups(next, groups, named.as_slice()),
        _ => Ok(()),
    }
}

fn push_groups(next: &mut Vec<NodeId>, groups: &Groups, named: &[u16]) -> Result<(), Memory>
    ensures { OnOk result (next.new.items
        ≡ next.old.items ++ places_of groups.now.places.items named.now) }
{
    for number in named {
        push_place(next, groups.place(*number))?;
    }
    Ok(())
}
