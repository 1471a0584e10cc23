//! The repeat of an item that a pattern begins with, tested before the machine goes over the
//! pattern.
ghost use Rattle.std.specs.Prelude.{◌≡◌, ◌<◌, ◌≤◌, ◌+◌, ◌-◌, ◌||◌, ℕ, All, List, IfSome, IsTrue, None, Some, false};
ghost use Rattle.std.specs.Prelude.{not, length};
ghost use Rattle.pat_tree.specs.declared.nodes.Item.TheVariants.{Char, Class};
ghost use Rattle.pat_tree.specs.declared.options.PartialMode.TheVariants.{Off};
ghost use Rattle.pat_tree.specs.Nested.{Nested, seq, one, nest, tree_at, trees};
ghost use Rattle.pat_tree.specs.Parts.{TreeParts};
ghost use Rattle.pat_tree.specs.Rules.{class_in, classes_of};
ghost use Rattle.char_sets.specs.Sets.{class_has};
ghost use Rattle.char_sets.specs.Table.{IsTableOf};
ghost use Rattle.match_items.specs.Subjects.{IsText, IsTextPlace};
ghost use Rattle.ordered_search.specs.Setting.{lower_of};
ghost use Rattle.match_starts.specs.Prefix.{row_of};
ghost use Rattle.match_starts.specs.Repeats.{Lacks, IsRepeat, IsLead, BeginsWith, BeginsByRepeat, IsFirstRepeat};
ghost use Rattle.match_starts.specs.Repeats.{FailsUpTo};

use crate::prefix::taken;
use crate::search::{are_bytes, is_off, match_limit};
use crate::spans::{first_closed, first_long};
use byte_lanes::ByteSet;
use char_sets::ClassTable;
use frame_board::Ready;
use match_items::{View, item_run};
use pat_tree::{Item, Node, NodeId, Tree};

/// The greedy repeat of an item that a pattern begins with.
#[derive(Clone, Copy)]
pub struct FirstRepeat {
    pub item: Item,
    /// How many characters it takes at least, and at most.
    pub min: u16,
    pub max: Option<u16>,
    /// The character that has to stand behind it, where it has no maximum and one is known.
    pub behind: Option<u32>,
}

/// The repeat that a node is.
fn repeat_of(node: &Node) -> Option<FirstRepeat>
    ensures repeat { (trees : List Nested)
        → IfSome result (λ r. IsRepeat (nest trees node.now) r.item r.min) }
    ensures class { (n : ℕ) → All (λ k. k < n) (classes_of node.now)
        → IfSome result (λ r. All (λ k. k < n) (class_in r.item)) }
    ensures behind { IfSome result (λ r. r.behind ≡ None) }
{
    match node {
        Node::OneRepeat {
            item,
            min,
            max,
            lazy: false,
        } => Some(FirstRepeat {
            item: *item,
            min: *min,
            max: *max,
            behind: None,
        }),
        _ => None,
    }
}

/// The repeat that a part is, or that stands alone in the group that it is.
fn lead_of(tree: &Tree, part: NodeId) -> Option<FirstRepeat>
    requires part { part ≤ tree.now.root }
    ensures is { IfSome result (λ r.
        IsLead (tree_at (trees tree.now.nodes) part) r.item r.min) }
    ensures class { IfSome result (λ r.
        All (λ n. n < length tree.now.classes) (class_in r.item)) }
    ensures behind { IfSome result (λ r. r.behind ≡ None) }
{
    match tree.node(part) {
        Node::Group { branches, .. } => match branches.as_slice() {
            [only] => repeat_of(tree.node(*only)),
            _ => None,
        },
        node => repeat_of(node),
    }
}

/// The character that a node is, in its case alone.
fn character_of(node: &Node) -> Option<u32>
    ensures { (trees : List Nested)
        → IfSome result (λ c. nest trees node.now ≡ one (Char c false)) }
{
    match node {
        Node::One(Item::Char { c, caseless: false }) => Some(*c),
        _ => None,
    }
}

/// Whether an item is known not to take a character outside UTF.
fn lacks(classes: &ClassTable, item: &Item, c: u32) -> bool
    requires { All (λ n. n < length classes.now) (class_in item.now) }
    ensures { IsTrue result → (tree : TreeParts) → IsTableOf tree classes.now
        → Lacks (class_has tree) item.now c }
{
    match item {
        Item::Class(class) => c < 256 && !classes.bytes(*class).has(c as u8),
        Item::Char {
            c: own,
            caseless: false,
        } => *own != c,
        _ => false,
    }
}

/// The character that a part is, behind a repeat without a maximum.
fn behind(tree: &Tree, repeat: &FirstRepeat, part: NodeId) -> Option<u32>
    requires { part ≤ tree.now.root }
    ensures { IfSome result (λ c.
        tree_at (trees tree.now.nodes) part ≡ one (Char c false)) }
{
    // A run with a maximum isn't gone over to its end, which may be far.
    if repeat.max.is_some() {
        return None;
    }
    character_of(tree.node(part))
}

/// The repeat that a sequence begins with.
fn first_of(tree: &Tree, parts: &[NodeId]) -> Option<FirstRepeat>
    requires below { All (λ k. k ≤ tree.now.root) parts.now }
    ensures begins { IfSome result (BeginsWith (seq (row_of tree.now parts.now))) }
    ensures class { IfSome result (λ r.
        All (λ n. n < length tree.now.classes) (class_in r.item)) }
{
    let [first, next, ..] = parts else {
        return None;
    };
    let repeat = lead_of(tree, *first)?;
    Some(FirstRepeat {
        behind: behind(tree, &repeat, *next),
        ..repeat
    })
}

/// The repeat that a part is or begins with.
fn repeat_in(tree: &Tree, part: NodeId) -> Option<FirstRepeat>
    requires part { part ≤ tree.now.root }
    ensures begins { IfSome result
        (BeginsWith (tree_at (trees tree.now.nodes) part)) }
    ensures class { IfSome result (λ r.
        All (λ n. n < length tree.now.classes) (class_in r.item)) }
{
    match tree.node(part) {
        Node::Seq(parts) => first_of(tree, parts.as_slice()),
        _ => lead_of(tree, part),
    }
}

/// The greedy repeat of an item that a pattern begins with, where it has one alternative.
pub fn first_repeat(tree: &Tree) -> Option<FirstRepeat>
    ensures { IfSome result (BeginsByRepeat tree.now) }
{
    let Node::Group {
        number: None,
        branches,
    } = tree.node(tree.root())
    else {
        return None;
    };
    let [only] = branches.as_slice() else {
        return None;
    };
    repeat_in(tree, *only)
}

/// Whether a search goes by such a repeat: not in UTF, where places go by characters, nor where
/// partial matches are looked for, nor where the frame limit is lower than what trying the repeat
/// may hold.
pub fn goes_by_repeat(view: &View<'_>) -> bool
    ensures bytes { IsTrue result → view.now.options.now.utf ≡ false }
    ensures off { IsTrue result → view.now.matching.now.partial ≡ Off }
    ensures room { IsTrue result → 3 ≤ view.now.matching.now.frame_limit }
{
    // A captured run holds a unit, and so do its capture and the shorter runs that are left.
    !view.options.utf && is_off(view) && view.matching.frame_limit > 2
}

/// The end of the item's run from a place, where it is too short: the pattern fails at each place up
/// to there.
fn short_to(ready: &Ready<'_>, view: &View<'_>, first: &FirstRepeat, place: usize) -> Option<usize>
    requires table { IsTableOf ready.now.tree.now ready.now.classes.now }
    requires options { view.now.options.now ≡ ready.now.tree.now.options }
    requires subject { IsText view.now.options.now view.now.subject.now }
    requires place { IsTextPlace view.now.options.now view.now.subject.now place }
    requires first { IsFirstRepeat ready.now.tree.now view.now first.now }
    ensures { IfSome result (FailsUpTo ready.now.tree.now view.now place) }
{
    let least = u32::from(first.min);
    let run = item_run(view, ready.classes, &first.item, place, least);
    if run.count >= least {
        return None;
    }
    Some(run.to)
}

/// The end of the item's run from a place, where the pattern fails at each place up to there: the
/// run is too short, or the character that has to stand behind it, and not in it, doesn't, and no
/// limit is passed before all shorter runs have failed too.
fn unfollowed_to(
    ready: &Ready<'_>,
    view: &View<'_>,
    first: &FirstRepeat,
    c: u32,
    place: usize,
) -> Option<usize>
    requires table { IsTableOf ready.now.tree.now ready.now.classes.now }
    requires options { view.now.options.now ≡ ready.now.tree.now.options }
    requires subject { IsText view.now.options.now view.now.subject.now }
    requires place { IsTextPlace view.now.options.now view.now.subject.now place }
    requires first { IsFirstRepeat ready.now.tree.now view.now first.now }
    requires behind { first.now.behind ≡ Some c }
    requires lacks { Lacks (class_has ready.now.tree.now) first.now.item c }
    ensures { IfSome result (FailsUpTo ready.now.tree.now view.now place) }
{
    let run = item_run(view, ready.classes, &first.item, place, u32::MAX);
    let least = u32::from(first.min);
    if run.count < least {
        return Some(run.to);
    }
    if run.count - least >= match_limit(view) {
        return None;
    }
    let next = Item::Char { c, caseless: false };
    match taken(view, ready.classes, &next, run.to) {
        Some(_) => None,
        None => Some(run.to),
    }
}

/// The place before another one, where it isn't before a third.
fn last_before(next: usize, place: usize) -> Option<usize>
    ensures { IfSome result (λ last. (place ≤ last) × (last + 1 ≡ next)) }
{
    if next > place { Some(next - 1) } else { None }
}

/// The last place up to which the run from each place on is too short.
fn short_on(
    ready: &Ready<'_>,
    view: &View<'_>,
    first: &FirstRepeat,
    class: u32,
    place: usize,
) -> Option<usize>
    requires table { IsTableOf ready.now.tree.now ready.now.classes.now }
    requires options { view.now.options.now ≡ ready.now.tree.now.options }
    requires subject { IsText view.now.options.now view.now.subject.now }
    requires place { IsTextPlace view.now.options.now view.now.subject.now place }
    requires first { IsFirstRepeat ready.now.tree.now view.now first.now }
    requires class { first.now.item ≡ Class class }
    requires some { 0 < first.now.min }
    ensures { IfSome result (FailsUpTo ready.now.tree.now view.now place) }
{
    are_bytes(view.subject);
    let set = ready.classes.bytes(class);
    let next = first_long(view.subject, place, first.min as usize, set);
    last_before(next, place)
}

/// The last place up to which the run from each place on is too short, or the character that has to
/// follow it stands nowhere behind enough of it.
fn unfollowed_on(
    ready: &Ready<'_>,
    view: &View<'_>,
    first: &FirstRepeat,
    class: u32,
    behind: u8,
    place: usize,
) -> Option<usize>
    requires table { IsTableOf ready.now.tree.now ready.now.classes.now }
    requires options { view.now.options.now ≡ ready.now.tree.now.options }
    requires subject { IsText view.now.options.now view.now.subject.now }
    requires place { IsTextPlace view.now.options.now view.now.subject.now place }
    requires first { IsFirstRepeat ready.now.tree.now view.now first.now }
    requires class { first.now.item ≡ Class class }
    requires behind { first.now.behind ≡ Some behind }
    requires limit { length view.now.subject.now - place
        < lower_of view.now.options.now.match_limit view.now.matching.now.match_limit }
    ensures { IfSome result (FailsUpTo ready.now.tree.now view.now place) }
{
    are_bytes(view.subject);
    let set = ready.classes.bytes(class);
    let mut ends = ByteSet::empty();
    ends.insert(behind);
    let next = first_closed(view.subject, place, first.min as usize, set, &ends);
    last_before(next, place)
}

/// Whether a search tries all places up to the subject's end.
fn goes_on(view: &View<'_>) -> bool
    ensures { result ≡ not (view.now.options.now.anchored || view.now.matching.now.anchored
        || view.now.options.now.firstline) }
{
    !(view.options.anchored || view.matching.anchored || view.options.firstline)
}

/// Whether so few bytes are left that going over them passes no limit.
fn are_few_left(view: &View<'_>, place: usize) -> bool
    requires { place ≤ length view.now.subject.now }
    ensures { IsTrue result → length view.now.subject.now - place
        < lower_of view.now.options.now.match_limit view.now.matching.now.match_limit }
{
    view.subject.len() - place < match_limit(view) as usize
}

/// The last place up to which the pattern is known to fail at each from one on, where the item of
/// its repeat may take the character that has to follow it.
fn shared_on(
    ready: &Ready<'_>,
    view: &View<'_>,
    first: &FirstRepeat,
    c: u32,
    place: usize,
) -> Option<usize>
    requires table { IsTableOf ready.now.tree.now ready.now.classes.now }
    requires options { view.now.options.now ≡ ready.now.tree.now.options }
    requires subject { IsText view.now.options.now view.now.subject.now }
    requires place { IsTextPlace view.now.options.now view.now.subject.now place }
    requires first { IsFirstRepeat ready.now.tree.now view.now first.now }
    requires behind { first.now.behind ≡ Some c }
    ensures { IfSome result (FailsUpTo ready.now.tree.now view.now place) }
{
    let Item::Class(class) = first.item else {
        return short_to(ready, view, first, place);
    };
    // The character is looked for up to the subject's end, so that a search that ends sooner may
    // pay more than it spares.
    if c < 256 && goes_on(view) && are_few_left(view, place) {
        unfollowed_on(ready, view, first, class, c as u8, place)
    } else {
        short_to(ready, view, first, place)
    }
}

/// The last place up to which the pattern is known to fail at each from one on: it is told of the
/// run at the place or, where the item takes the character that has to follow, by the next one.
fn refused_to(
    ready: &Ready<'_>,
    view: &View<'_>,
    first: &FirstRepeat,
    place: usize,
) -> Option<usize>
    requires table { IsTableOf ready.now.tree.now ready.now.classes.now }
    requires options { view.now.options.now ≡ ready.now.tree.now.options }
    requires subject { IsText view.now.options.now view.now.subject.now }
    requires place { IsTextPlace view.now.options.now view.now.subject.now place }
    requires first { IsFirstRepeat ready.now.tree.now view.now first.now }
    ensures { IfSome result (FailsUpTo ready.now.tree.now view.now place) }
{
    let Some(c) = first.behind else {
        return short_to(ready, view, first, place);
    };
    if lacks(ready.classes, &first.item, c) {
        unfollowed_to(ready, view, first, c, place)
    } else {
        shared_on(ready, view, first, c, place)
    }
}

/// The last place up to which the pattern is known to fail at each from one on, as far as it is
/// cheap to tell of a place that failed: `refused_to` may go over the run at the one place alone.
pub fn fails_on(
    ready: &Ready<'_>,
    view: &View<'_>,
    first: &FirstRepeat,
    place: usize,
) -> Option<usize>
    requires table { IsTableOf ready.now.tree.now ready.now.classes.now }
    requires options { view.now.options.now ≡ ready.now.tree.now.options }
    requires subject { IsText view.now.options.now view.now.subject.now }
    requires place { IsTextPlace view.now.options.now view.now.subject.now place }
    requires first { IsFirstRepeat ready.now.tree.now view.now first.now }
    ensures { IfSome result (FailsUpTo ready.now.tree.now view.now place) }
{
    let Item::Class(class) = first.item else {
        return refused_to(ready, view, first, place);
    };
    // A search that ends sooner looks at nothing behind its last place.
    if !goes_on(view) {
        return refused_to(ready, view, first, place);
    }
    match first.behind {
        Some(c) if c < 256 && are_few_left(view, place) => {
            unfollowed_on(ready, view, first, class, c as u8, place)
        }
        None if first.min > 1 => short_on(ready, view, first, class, place),
        _ => refused_to(ready, view, first, place),
    }
}
