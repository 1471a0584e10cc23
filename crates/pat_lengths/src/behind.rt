// The lengths of a pattern's parts as branches of lookbehinds.
ghost use Rattle.std.specs.Prelude.{◌≡◌, ℕ, suc, ◌+◌, ◌<◌, ◌≤◌, ◌||◌, true, false, if◌then◌else◌, All, List, [], IfOk};
ghost use Rattle.std.specs.Prelude.{length};
ghost use Rattle.std.specs.List.{list_any};
ghost use Rattle.pat_tree.specs.Nested.{Nested, trees, tree_at, nest};
ghost use Rattle.pat_tree.specs.Parts.{tree_of};
ghost use Rattle.pat_tree.specs.Rules.{kids_of, asserted_by, is_test};
ghost use Rattle.pat_lengths.specs.Backs.{AreBranches};
ghost use Rattle.pat_lengths.specs.Lengths as lengths;
ghost use Rattle.pat_lengths.specs.Lengths.{SomeLengths, names_of_group};
ghost use Rattle.pat_lengths.specs.Nodes.{has_shared_number, is_accept, nodes_outside_lookarounds};
ghost use Rattle.pat_lengths.specs.Passing.{IsGroupTable, flagged, place_of};
ghost use Rattle.pat_lengths.specs.Rounds.{KeepAnswers};
ghost use Rattle.pat_lengths.specs.Spans.{AreBehind, KeepAccepts, KeepSpans, kept, one_round, span_at, span_in};

use crate::accepts::is_accept;
use crate::groups::{Groups, number_of};
use crate::kids::{has_flag, some_kid};
use crate::leading::comes_back;
use crate::lengths::{node_span, spans_of};
use crate::passing::has_any_length;
use crate::ranks::{are_right, named_within};
use crate::rings::{Rings, rings_of};
use crate::rounds::{Question, flag_at, names_groups, node_answers};
use crate::spans::{Span, any_length, is_same};
use pat_tree::{Memory, Node, NodeId, Tree};
use std::alloc::Global;

/// The lengths of each part up to the root as a branch of a lookbehind.
pub fn branch_spans(
    alloc: Global,
    tree: &Tree,
    groups: &Groups,
) -> Result<Vec<Option<Span>>, Memory>
    requires { IsGroupTable (trees tree.now.nodes) tree.now.root (tree_of tree.now) groups.now }
    ensures { IfOk result (λ spans. AreBranches tree.now spans.items) }
{
    let spans = settled_spans(alloc, tree, groups, has_any_length(tree, groups))?;
    let accepts = accepts_of(alloc, tree)?;
    freed(alloc, &spans, &accepts)
}

/// The lengths of each part, ACCEPT apart. Where no group is named, the groups' lengths don't count.
fn settled_spans(
    alloc: Global,
    tree: &Tree,
    groups: &Groups,
    any: bool,
) -> Result<Vec<Option<Span>>, Memory>
    requires table { IsGroupTable (trees tree.now.nodes) tree.now.root (tree_of tree.now)
        groups.now }
    requires any { any ≡ (tree.now.options.match_unset_backref || groups.now.shared) }
    ensures count { IfOk result (λ spans. length spans.items ≡ tree.now.root + 1) }
    ensures kept { IfOk result (λ spans.
        KeepSpans (lengths.lengths tree.now.options.match_unset_backref (tree_of tree.now)
        (lengths.behind tree.now.options.match_unset_backref (tree_of tree.now)
        (suc groups.now.count))) (trees tree.now.nodes) spans.items) }
{
    if !names_groups(tree) {
        let spans = spans_of(alloc, tree, any, &[])?;
        return Ok(spans);
    }
    let told = rings_of(alloc, tree, groups)?;
    let back = leads_back(alloc, tree, groups, &told.rings)?;
    let of_groups = settled(alloc, tree, groups, any, &back, &told.order)?;
    let spans = spans_of(alloc, tree, any, &of_groups)?;
    Ok(spans)
}

/// Of each part the lengths, or any where it is freed.
fn freed(alloc: Global, spans: &[Option<Span>], free: &[bool]) -> Result<Vec<Option<Span>>, Memory>
    requires { length free.now ≡ length spans.now }
    ensures count { IfOk result (λ freed. length freed.items ≡ length spans.now) }
    ensures are { IfOk result (λ freed.
        (k : ℕ) → k < length spans.now
        → span_at freed.items k
        ≡ (if flagged free.now k then kept lengths.any_length else span_at spans.now k)) }
{
    let mut freed = Vec::with_capacity(alloc, spans.len())?;
    for (k, span) in spans.iter().enumerate() {
        freed.push(if free[k] { any_length() } else { *span })?;
    }
    Ok(freed)
}

/// Which groups lead back to themselves by calls and references.
// By rings that a search found, once they are known to be right. Were they not, each group would be searched by itself.
pub(crate) fn leads_back(
    alloc: Global,
    tree: &Tree,
    groups: &Groups,
    rings: &Rings,
) -> Result<Vec<bool>, Memory>
    requires { IsGroupTable (trees tree.now.nodes) tree.now.root (tree_of tree.now) groups.now }
    ensures { IfOk result (λ back.
        (n : ℕ) → flagged back.items n ≡ lengths.leads_back (tree_of tree.now) n) }
{
    if are_right(alloc, tree, groups, rings)? {
        return named_within(alloc, tree, groups, rings);
    }
    each_searched(alloc, tree, groups)
}

fn each_searched(alloc: Global, tree: &Tree, groups: &Groups) -> Result<Vec<bool>, Memory>
    requires { IsGroupTable (trees tree.now.nodes) tree.now.root (tree_of tree.now) groups.now }
    ensures { IfOk result (λ back.
        (n : ℕ) → flagged back.items n ≡ lengths.leads_back (tree_of tree.now) n) }
{
    let names = node_answers(alloc, tree, Question::Names, &[])?;
    let mut back = Vec::with_capacity(alloc, groups.places.len())?;
    for target in 0..groups.places.len() {
        back.push(leads_to_itself(alloc, tree, groups, &names, target)?)?;
    }
    Ok(back)
}

/// Whether a group leads back to itself, where it is known which nodes name groups. One that names no other leads
/// nowhere, and needs no search.
fn leads_to_itself(
    alloc: Global,
    tree: &Tree,
    groups: &Groups,
    names: &[bool],
    target: usize,
) -> Result<bool, Memory>
    requires table { IsGroupTable (trees tree.now.nodes) tree.now.root (tree_of tree.now)
        groups.now }
    requires count { length names.now ≡ tree.now.root + 1 }
    requires kept { KeepAnswers Question.Names [] (trees tree.now.nodes) names.now }
    ensures { IfOk result (λ back. back ≡ lengths.leads_back (tree_of tree.now) target) }
{
    let place = place_at(&groups.places, target);
    if !flag_at(names, place) {
        return Ok(false);
    }
    comes_back(alloc, tree, groups, target)
}

pub(crate) fn place_at(places: &[Option<NodeId>], n: usize) -> Option<NodeId>
    ensures { result ≡ place_of places.now n }
{
    match places.get(n) {
        Some(place) => *place,
        None => None,
    }
}

/// The lengths of each group in lookbehinds, where calls and references lead through as many groups as there are. A
/// group that leads back to itself has any length.
// Lengths that a round doesn't change are those. They are found in one pass over the nodes, each after all that it
// leads to but groups that lead back; rounds from the first on would find them too.
fn settled(
    alloc: Global,
    tree: &Tree,
    groups: &Groups,
    any: bool,
    back: &[bool],
    order: &[NodeId],
) -> Result<Vec<Option<Span>>, Memory>
    requires table { IsGroupTable (trees tree.now.nodes) tree.now.root (tree_of tree.now)
        groups.now }
    requires any { any ≡ (tree.now.options.match_unset_backref || groups.now.shared) }
    requires back { (n : ℕ) → flagged back.now n ≡ lengths.leads_back (tree_of tree.now) n }
    requires below { All (λ k. k ≤ tree.now.root) order.now }
    ensures { IfOk result (λ of. AreBehind tree.now any (suc groups.now.count) of.items) }
{
    let found = in_order(alloc, tree, groups, any, back, order)?;
    let after = next_round(alloc, tree, groups, any, back, &found)?;
    if are_same(&after, &found) {
        return Ok(found);
    }
    let mut of = next_round(alloc, tree, groups, any, back, &[])?;
    for _ in 0..groups.count {
        let next = next_round(alloc, tree, groups, any, back, &of)?;
        if are_same(&next, &of) {
            return Ok(of);
        }
        of = next;
    }
    Ok(of)
}

/// What one pass over the nodes in an order finds as the lengths of each group.
fn in_order(
    alloc: Global,
    tree: &Tree,
    groups: &Groups,
    any: bool,
    back: &[bool],
    order: &[NodeId],
) -> Result<Vec<Option<Span>>, Memory>
    requires { All (λ k. k ≤ tree.now.root) order.now }
{
    let mut of = first_lengths(alloc, groups.places.len(), back)?;
    let mut spans = vec![in alloc; None; tree.root() as usize + 1]?;
    for id in order {
        let node = tree.node(*id);
        let span = node_span(node, any, &of, &spans);
        spans[*id as usize] = span;
        tell_group(&mut of, groups, *id, number_of(node), span, back);
    }
    tell_group(
        &mut of,
        groups,
        tree.root(),
        Some(0),
        spans[tree.root() as usize],
        back,
    );
    Ok(of)
}

/// Any length for each group that leads back to itself, and none yet for the others.
fn first_lengths(alloc: Global, count: usize, back: &[bool]) -> Result<Vec<Option<Span>>, Memory> {
    let mut of = Vec::with_capacity(alloc, count)?;
    for number in 0..count {
        of.push(if has_flag(back, number) {
            any_length()
        } else {
            None
        })?;
    }
    Ok(of)
}

/// Takes in the lengths of a group at its place, unless it leads back to itself.
fn tell_group(
    of: &mut [Option<Span>],
    groups: &Groups,
    id: NodeId,
    number: Option<u16>,
    span: Option<Span>,
    back: &[bool],
)
    ensures { length of.new ≡ length of.old }
{
    let Some(number) = number else {
        return;
    };
    if groups.place(number) != Some(id) || has_flag(back, number as usize) {
        return;
    }
    if let Some(slot) = of.get_mut(number as usize) {
        *slot = span;
    }
}

/// The lengths of each group, where calls and references lead one group further.
fn next_round(
    alloc: Global,
    tree: &Tree,
    groups: &Groups,
    any: bool,
    back: &[bool],
    of: &[Option<Span>],
) -> Result<Vec<Option<Span>>, Memory>
    requires table { IsGroupTable (trees tree.now.nodes) tree.now.root (tree_of tree.now)
        groups.now }
    requires back { (n : ℕ) → flagged back.now n ≡ lengths.leads_back (tree_of tree.now) n }
    ensures further { IfOk result (λ next.
        (d : ℕ) → AreBehind tree.now any d of.now → AreBehind tree.now any (suc d) next.items) }
    ensures back { IfOk result (λ next.
        (n : ℕ) → lengths.leads_back (tree_of tree.now) n ≡ true
        → span_at next.items n ≡ kept lengths.any_length) }
    ensures round { IfOk result (λ next.
        any ≡ (tree.now.options.match_unset_backref || has_shared_number (tree_of tree.now))
        → (f : ℕ → SomeLengths) → (n : ℕ)
        → All (λ x. span_at of.now x ≡ kept (f x)) (names_of_group (tree_of tree.now) n)
        → span_at next.items n
        ≡ kept (one_round tree.now.options.match_unset_backref (tree_of tree.now) f n)) }
{
    let spans = spans_of(alloc, tree, any, of)?;
    let mut next = Vec::with_capacity(alloc, groups.places.len())?;
    for (number, place) in groups.places.iter().enumerate() {
        next.push(span_in(&spans, *place, has_flag(back, number)))?;
    }
    Ok(next)
}

/// The lengths of the group at a place, which has any where it leads back to itself.
fn span_in(spans: &[Option<Span>], place: Option<NodeId>, leads_back: bool) -> Option<Span>
    ensures { result ≡ span_in spans.now place leads_back }
{
    if leads_back {
        return any_length();
    }
    let id = place?;
    match spans.get(id as usize) {
        Some(span) => *span,
        None => None,
    }
}

/// Whether two lists have the same lengths.
fn are_same(some: &[Option<Span>], others: &[Option<Span>]) -> bool
    ensures { result ≡ true → some.now ≡ others.now }
{
    if some.len() != others.len() {
        return false;
    }
    for (k, span) in some.iter().enumerate() {
        if !is_same(*span, others[k]) {
            return false;
        }
    }
    true
}

/// Which nodes up to the root hold ACCEPT outside the lookarounds inside them.
fn accepts_of(alloc: Global, tree: &Tree) -> Result<Vec<bool>, Memory>
    ensures count { IfOk result (λ accepts. length accepts.items ≡ tree.now.root + 1) }
    ensures kept { IfOk result (λ accepts. KeepAccepts (trees tree.now.nodes) accepts.items) }
{
    let mut accepts = Vec::with_capacity(alloc, tree.root() as usize + 1)?;
    for id in 0..tree.root() as u64 + 1 {
        let accept = node_accepts(tree.node(id as u32), &accepts);
        accepts.push(accept)?;
    }
    Ok(accepts)
}

fn node_accepts(node: &Node, accepts: &[bool]) -> bool
    requires below { All (λ k. k < length accepts.now) (kids_of node.now) }
    ensures { (trees : List Nested)
        → All (λ k. is_test (tree_at trees k) ≡ true) (asserted_by node.now)
        → KeepAccepts trees accepts.now
        → result ≡ list_any is_accept (nodes_outside_lookarounds (nest trees node.now)) }
{
    match node {
        Node::Look { .. } => false,
        Node::VerbNode(_) => is_accept(node),
        _ => some_kid(node, accepts),
    }
}
