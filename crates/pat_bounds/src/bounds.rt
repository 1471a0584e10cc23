// How many Steps, states and units a search of a part of a pattern takes at most.
ghost use Rattle.std.specs.Prelude.{◌≡◌, ◌+◌, ◌<◌, ◌≤◌, ◌&&◌, if◌then◌else◌, None, Some, All, List, IfOk, IfSome};
ghost use Rattle.std.specs.Prelude.{IsTrue, length};
ghost use Rattle.pat_tree.specs.Nested.{Nested, Row, more, tree_at, trees, nest};
ghost use Rattle.pat_tree.specs.Parts.{TreeParts};
ghost use Rattle.pat_tree.specs.Rules.{class_in, kids_of};
ghost use Rattle.char_sets.specs.Sets.{class_has};
ghost use Rattle.char_sets.specs.Table.{IsTableOf};
ghost use Rattle.pat_bounds.specs.Bounds as spec;
ghost use Rattle.pat_bounds.specs.Bounds.{at, both, change, repeated};
ghost use Rattle.pat_bounds.specs.BoundTables.{Refines, KeepBounds, RefinesTurn, RefinesOne, RefinesChoices};
ghost use Rattle.pat_bounds.specs.BoundTables.{IsBefore, is_alone_of};

use char_sets::ClassTable;
use pat_tree::{Item, Memory, Node, NodeId, Tree};
use std::alloc::Global;

// Of more turns that branch no bound is told: it would be past each limit.
const FEW: u16 = 16;

/// A number that grows with a subject: `times` times a power of one more than the subject's length.
#[derive(Clone, Copy, Debug, PartialEq, Eq)]
pub struct Growth {
    pub times: u32,
    pub degree: u32,
}

impl Growth {
    fn steady(times: u32) -> Growth
        ensures { result ≡ spec.steady times }
    {
        Growth { times, degree: 0 }
    }

    fn plus(self, other: Growth) -> Option<Growth>
        ensures { IfSome result (λ x. x ≡ spec.plus self other) }
    {
        Some(Growth {
            times: self.times.checked_add(other.times)?,
            degree: self.degree.max(other.degree),
        })
    }

    fn greater(self, other: Growth) -> Growth
        ensures { result ≡ spec.greater self other }
    {
        Growth {
            times: self.times.max(other.times),
            degree: self.degree.max(other.degree),
        }
    }

    fn product(self, other: Growth) -> Option<Growth>
        ensures { IfSome result (λ x. x ≡ spec.product self other) }
    {
        Some(Growth {
            times: self.times.checked_mul(other.times)?,
            degree: self.degree.checked_add(other.degree)?,
        })
    }

    /// True only where its value for a subject of `size` - 1 bytes is at most a limit.
    pub fn is_within(self, size: u64, limit: u32) -> bool
        ensures { IsTrue result → at self size ≤ limit }
    {
        let Some(power) = size.checked_pow(self.degree) else {
            return false;
        };
        match power.checked_mul(self.times as u64) {
            Some(value) => value <= limit as u64,
            None => false,
        }
    }
}

/// How many Steps and states a search of a part of a pattern gives at most, and how many units its paths hold beside
/// those that they began with.
#[derive(Clone, Copy, Debug, PartialEq, Eq)]
pub struct Bound {
    pub steps: Growth,
    pub states: Growth,
    pub units: Growth,
}

impl Bound {
    /// A part that takes no Step and is left once at most.
    fn once() -> Bound
        ensures { result ≡ spec.once }
    {
        Bound {
            steps: Growth::steady(0),
            states: Growth::steady(1),
            units: Growth::steady(0),
        }
    }

    /// A part that is never left.
    fn never() -> Bound
        ensures { result ≡ spec.never }
    {
        Bound {
            steps: Growth::steady(0),
            states: Growth::steady(0),
            units: Growth::steady(0),
        }
    }

    /// A repeat of an item that offers so many places.
    fn offered(places: Growth) -> Bound
        ensures { result ≡ spec.offered places }
    {
        Bound {
            steps: places,
            states: places,
            units: Growth::steady(1),
        }
    }

    /// The same, where no more than one of these places goes on.
    fn left_once(places: Growth) -> Bound
        ensures { result ≡ spec.left_once places }
    {
        Bound {
            steps: places,
            states: Growth::steady(1),
            units: Growth::steady(1),
        }
    }

    /// This part, and another one behind it.
    fn followed(self, next: Bound) -> Option<Bound>
        ensures { IfSome result (λ x. x ≡ spec.followed self next) }
    {
        Some(Bound {
            steps: self.steps.plus(self.states.product(next.steps)?)?,
            states: self.states.product(next.states)?,
            units: self.units.plus(next.units)?,
        })
    }

    /// This branch, and those behind it.
    fn or_later(self, later: Bound) -> Option<Bound>
        ensures { IfSome result (λ x. x ≡ spec.or_later self later) }
    {
        Some(Bound {
            steps: Growth::steady(1).plus(self.steps.plus(later.steps)?)?,
            states: self.states.plus(later.states)?,
            units: Growth::steady(1).plus(self.units.plus(later.units)?)?,
        })
    }

    /// The same, where one of them at most goes on.
    fn or_apart(self, later: Bound) -> Option<Bound>
        ensures { IfSome result (λ x. x ≡ spec.or_apart self later) }
    {
        let whole = self.or_later(later)?;
        Some(Bound {
            steps: whole.steps,
            states: self.states.greater(later.states),
            units: whole.units,
        })
    }

    /// An atomic group or a lookahead of these branches.
    fn closed(self) -> Option<Bound>
        ensures { IfSome result (λ x. x ≡ spec.closed self) }
    {
        Some(Bound {
            steps: self.steps,
            states: Growth::steady(1),
            units: Growth::steady(2).plus(self.units)?,
        })
    }

    /// Whether it is left once at most.
    fn is_left_once(self) -> bool
        ensures { result ≡ spec.is_left_once self }
    {
        self.states.times <= 1 && self.states.degree == 0
    }

    /// So many turns of this part, which is left once at most.
    fn in_turns(self, min: u16, max: Option<u16>) -> Option<Bound>
        ensures { IfSome result (λ x. x ≡ spec.in_turns min max self) }
    {
        let turns = group_turns(min, max);
        Some(Bound {
            steps: turns.product(Growth::steady(1).plus(self.steps)?)?,
            states: group_ends(min, max),
            units: turns.product(Growth::steady(1).plus(self.units)?)?,
        })
    }

    /// A turn of this part, with a Step and a unit of its own.
    fn one_turn(self) -> Option<Bound>
        ensures { IfSome result (λ x. x ≡ spec.one_turn self) }
    {
        Some(Bound {
            steps: Growth::steady(1).plus(self.steps)?,
            states: self.states,
            units: Growth::steady(1).plus(self.units)?,
        })
    }

    /// The same, where it may be left before it too.
    fn or_left(self) -> Option<Bound>
        ensures { IfSome result (λ x. x ≡ spec.or_left self) }
    {
        Some(Bound {
            steps: self.steps,
            states: Growth::steady(1).plus(self.states)?,
            units: self.units,
        })
    }

    /// So many turns of this part at most, each of which begins anew wherever the one before is left.
    fn few_turns(self, count: u16) -> Option<Bound>
        ensures { IfSome result (λ x. x ≡ spec.few_turns count self) }
    {
        let turn = self.one_turn()?;
        let mut whole = Bound::once();
        for _ in 0..count {
            whole = turn.followed(whole)?.or_left()?;
        }
        Some(whole)
    }

    /// Turns of this part, which may be left at several places. None for many, since their ways multiply.
    fn branching(self, min: u16, max: Option<u16>) -> Option<Bound>
        ensures { Refines result (spec.branching min max self) }
    {
        let most = min.max(max?);
        if most > FEW {
            return None;
        }
        self.few_turns(most)
    }

    /// A group of these branches, which has a number where it captures.
    fn grouped(self, number: Option<u16>) -> Option<Bound>
        ensures { IfSome result (λ x. x ≡ spec.grouped number self) }
    {
        match number {
            Some(_) => Some(Bound {
                steps: self.steps,
                states: self.states,
                units: Growth::steady(2).plus(self.units)?,
            }),
            None => Some(self),
        }
    }
}

/// How many places a repeat of an item offers.
fn turns(min: u16, max: Option<u16>) -> Growth
    ensures { result ≡ spec.turns min max }
{
    match max {
        Some(max) => Growth::steady((max as u32 + 1).saturating_sub(min as u32)),
        None => Growth {
            times: 1,
            degree: 1,
        },
    }
}

/// How many turns a repeat of a group takes: past the minimum one that takes nothing is the last.
fn group_turns(min: u16, max: Option<u16>) -> Growth
    ensures { result ≡ spec.group_turns min max }
{
    match max {
        Some(max) => Growth::steady(min.max(max) as u32),
        None => Growth {
            times: (min as u32).saturating_sub(1) + 1,
            degree: 1,
        },
    }
}

/// After how many of these turns it is left.
fn group_ends(min: u16, max: Option<u16>) -> Growth
    ensures { result ≡ spec.group_ends min max }
{
    match max {
        Some(max) => Growth::steady(min.max(max) as u32 + 1 - min as u32),
        None => Growth {
            times: 1u32.saturating_sub(min as u32) + 1,
            degree: 1,
        },
    }
}

/// The bound of each node up to the root, where one is known: by the nodes' numbers.
pub fn bounds_of(
    alloc: Global,
    tree: &Tree,
    classes: &ClassTable,
) -> Result<Vec<Option<Bound>>, Memory>
    requires { IsTableOf tree.now classes.now }
    ensures count { IfOk result (λ bounds. length bounds.items ≡ tree.now.root + 1) }
    ensures kept { IfOk result (λ bounds.
        KeepBounds (class_has tree.now) (trees tree.now.nodes) bounds.items) }
{
    let mut bounds = Vec::with_capacity(alloc, tree.root() as usize + 1)?;
    for id in 0..tree.root() as u64 + 1 {
        let bound = bound_of(tree, classes, tree.node(id as u32), &bounds);
        bounds.push(bound)?;
    }
    Ok(bounds)
}

/// The bound of a node, by those of its children.
#[tactic(auto, unfolding(crate::specs::Bounds::bound))]
fn bound_of(
    tree: &Tree,
    classes: &ClassTable,
    node: &Node,
    bounds: &[Option<Bound>],
) -> Option<Bound>
    requires table { IsTableOf tree.now classes.now }
    requires below { All (λ k. k < length bounds.now) (kids_of node.now) }
    requires few { length bounds.now ≤ tree.now.root }
    ensures { KeepBounds (class_has tree.now) (trees tree.now.nodes) bounds.now
        → Refines result (spec.bound (class_has tree.now) (nest (trees tree.now.nodes) node.now)) }
{
    match node {
        Node::Empty => Some(Bound::once()),
        Node::One(_) => Some(Bound::once()),
        Node::Break => Some(Bound::once()),
        Node::Ref { .. } => Some(Bound::once()),
        Node::Anchor(_) => Some(Bound::once()),
        Node::KeepOut => Some(Bound::once()),
        Node::Seq(kids) => in_turn(tree, classes, kids.as_slice(), bounds),
        Node::Group { number, branches } => {
            grouped(*number, one_of(tree, classes, branches.as_slice(), bounds))
        }
        Node::OneRepeat { min, max, .. } => Some(Bound::offered(turns(*min, *max))),
        Node::Repeat { body, min, max, .. } => repeated(bounds[*body as usize], *min, *max),
        Node::Atomic(branches) => closed(one_of(tree, classes, branches.as_slice(), bounds)),
        Node::Look {
            ahead,
            atomic,
            branches,
            ..
        } => bound_if(
            *ahead,
            *atomic,
            closed(one_of(tree, classes, branches.as_slice(), bounds)),
        ),
        _ => None,
    }
}

fn bound_if(ahead: bool, atomic: bool, bound: Option<Bound>) -> Option<Bound>
    ensures { result ≡ (if ahead && atomic then bound else None) }
{
    if ahead && atomic { bound } else { None }
}

fn followed(first: Option<Bound>, rest: Option<Bound>) -> Option<Bound>
    ensures { Refines result (both spec.followed first rest) }
{
    first?.followed(rest?)
}

fn or_so(alone: bool, first: Option<Bound>, later: Option<Bound>) -> Option<Bound>
    ensures { Refines result (both (spec.or_so alone) first later) }
{
    let first = first?;
    let later = later?;
    if alone {
        first.or_apart(later)
    } else {
        first.or_later(later)
    }
}

fn grouped(number: Option<u16>, branches: Option<Bound>) -> Option<Bound>
    ensures { Refines result (change (spec.grouped number) branches) }
{
    branches?.grouped(number)
}

fn repeated(body: Option<Bound>, min: u16, max: Option<u16>) -> Option<Bound>
    ensures { Refines result (repeated min max body) }
{
    let body = body?;
    if body.is_left_once() {
        body.in_turns(min, max)
    } else {
        body.branching(min, max)
    }
}

fn closed(branches: Option<Bound>) -> Option<Bound>
    ensures { Refines result (change spec.closed branches) }
{
    branches?.closed()
}

/// Whether an item is known not to take a character.
fn lacks(classes: &ClassTable, item: &Item, c: u32) -> bool
    requires { All (λ n. n < length classes.now) (class_in item.now) }
    ensures { (tree : TreeParts) → IsTableOf tree classes.now
        → result ≡ spec.lacks (class_has tree) item.now c }
{
    match item {
        Item::Class(class) => c < 256 && !classes.bytes(*class).has(c as u8),
        Item::Char {
            c: own,
            caseless: false,
        } => *own != c,
        _ => false,
    }
}

/// Whether a part is a character that an item doesn't take.
fn is_apart(classes: &ClassTable, item: &Item, next: &Node) -> bool
    requires { All (λ n. n < length classes.now) (class_in item.now) }
    ensures { (tree : TreeParts) → IsTableOf tree classes.now → (trees : List Nested) (rest : Row)
        → result ≡ spec.is_apart (class_has tree) item.now (more (nest trees next.now) rest) }
{
    let Node::One(Item::Char { c, caseless: false }) = next else {
        return false;
    };
    lacks(classes, item, *c)
}

fn lacks_item(classes: &ClassTable, item: &Item, next: &Item) -> bool
    requires { All (λ n. n < length classes.now) (class_in item.now) }
    ensures { (tree : TreeParts) → IsTableOf tree classes.now
        → result ≡ spec.lacks_item (class_has tree) item.now next.now }
{
    let Item::Char { c, caseless: false } = next else {
        return false;
    };
    *c < 256 && lacks(classes, item, *c)
}

/// Whether one of two items is a character that the other doesn't take.
fn are_apart(classes: &ClassTable, item: &Item, next: &Item) -> bool
    requires own { All (λ n. n < length classes.now) (class_in item.now) }
    requires next { All (λ n. n < length classes.now) (class_in next.now) }
    ensures { (tree : TreeParts) → IsTableOf tree classes.now
        → result ≡ spec.are_apart (class_has tree) item.now next.now }
{
    lacks_item(classes, item, next) || lacks_item(classes, next, item)
}

/// The item that a node is.
fn item_of(tree: &Tree, id: NodeId) -> Option<Item>
    requires { id ≤ tree.now.root }
    ensures is { result ≡ spec.item_of (tree_at (trees tree.now.nodes) id) }
    ensures class { IfSome result
        (λ item. All (λ n. n < length tree.now.classes) (class_in item)) }
{
    match tree.node(id) {
        Node::One(item) => Some(*item),
        _ => None,
    }
}

/// The item with which a branch begins, where it begins with one.
fn first_item(tree: &Tree, id: NodeId) -> Option<Item>
    requires { id ≤ tree.now.root }
    ensures is { result ≡ spec.first_item (tree_at (trees tree.now.nodes) id) }
    ensures class { IfSome result
        (λ item. All (λ n. n < length tree.now.classes) (class_in item)) }
{
    let Node::Seq(kids) = tree.node(id) else {
        return item_of(tree, id);
    };
    let [first, ..] = kids.as_slice() else {
        return None;
    };
    item_of(tree, *first)
}

/// The bound of the first of these parts, before the others.
fn bound_before(
    tree: &Tree,
    classes: &ClassTable,
    parts: &[NodeId],
    bounds: &[Option<Bound>],
) -> Option<Bound>
    requires table { IsTableOf tree.now classes.now }
    requires some { 0 < length parts.now }
    requires below { All (λ k. k < length bounds.now) parts.now }
    requires few { length bounds.now ≤ tree.now.root + 1 }
    ensures { IsBefore tree.now bounds.now result parts.now }
{
    let own = bounds[parts[0] as usize];
    let [first, next, ..] = parts else {
        return own;
    };
    let Node::OneRepeat { item, min, max, .. } = tree.node(*first) else {
        return own;
    };
    if is_apart(classes, item, tree.node(*next)) {
        return Some(Bound::left_once(turns(*min, *max)));
    }
    own
}

/// The bound of parts one after the other, by those of all nodes up to the root or up to one that
/// the parts stand below.
pub fn in_turn(
    tree: &Tree,
    classes: &ClassTable,
    parts: &[NodeId],
    bounds: &[Option<Bound>],
) -> Option<Bound>
    requires table { IsTableOf tree.now classes.now }
    requires below { All (λ k. k < length bounds.now) parts.now }
    requires few { length bounds.now ≤ tree.now.root + 1 }
    ensures { RefinesTurn tree.now bounds.now result parts.now }
{
    let mut whole = Some(Bound::once());
    let mut i = parts.len();
    while i > 0 {
        i -= 1;
        whole = followed(bound_before(tree, classes, &parts[i..], bounds), whole);
    }
    whole
}

/// One of these branches.
fn one_of(
    tree: &Tree,
    classes: &ClassTable,
    branches: &[NodeId],
    bounds: &[Option<Bound>],
) -> Option<Bound>
    requires table { IsTableOf tree.now classes.now }
    requires below { All (λ k. k < length bounds.now) branches.now }
    requires few { length bounds.now ≤ tree.now.root }
    ensures { RefinesOne tree.now bounds.now result branches.now }
{
    if branches.len() == 1 {
        return bounds[branches[0] as usize];
    }
    choices_of(tree, classes, branches, bounds)
}

/// One of these branches, each of which takes a Step.
fn choices_of(
    tree: &Tree,
    classes: &ClassTable,
    branches: &[NodeId],
    bounds: &[Option<Bound>],
) -> Option<Bound>
    requires table { IsTableOf tree.now classes.now }
    requires below { All (λ k. k < length bounds.now) branches.now }
    requires few { length bounds.now ≤ tree.now.root }
    ensures { RefinesChoices tree.now bounds.now result branches.now }
{
    let mut whole = Some(Bound::never());
    let mut i = branches.len();
    while i > 0 {
        i -= 1;
        let alone = is_alone(tree, classes, branches[i], &branches[i + 1..]);
        whole = or_so(alone, bounds[branches[i] as usize], whole);
    }
    whole
}

/// Whether a branch begins with an item, and the others with ones that take none of its characters.
fn is_alone(tree: &Tree, classes: &ClassTable, first: NodeId, others: &[NodeId]) -> bool
    requires table { IsTableOf tree.now classes.now }
    requires first { first ≤ tree.now.root }
    requires others { All (λ k. k ≤ tree.now.root) others.now }
    ensures { result ≡ is_alone_of tree.now first others.now }
{
    let Some(item) = first_item(tree, first) else {
        return false;
    };
    for i in 0..others.len() {
        if !begins_apart(tree, classes, &item, others[i]) {
            return false;
        }
    }
    true
}

fn begins_apart(tree: &Tree, classes: &ClassTable, item: &Item, other: NodeId) -> bool
    requires table { IsTableOf tree.now classes.now }
    requires class { All (λ n. n < length tree.now.classes) (class_in item.now) }
    requires within { other ≤ tree.now.root }
    ensures { result ≡ spec.begins_apart (class_has tree.now) item.now
        (spec.first_item (tree_at (trees tree.now.nodes) other)) }
{
    match first_item(tree, other) {
        Some(next) => are_apart(classes, item, &next),
        None => false,
    }
}
