//! The ends of a graph from a place.
ghost use Rattle.std.specs.Prelude.{◌≡◌, true, ℕ, ◌+◌, ◌*◌, ◌≤◌, ◌||◌, IfOk, length, nat_lt};
ghost use Rattle.pat_tree.specs.Nested.{Nested};
ghost use Rattle.match_items.specs.Subjects.{IsText, IsTextPlace};
ghost use Rattle.match_items.specs.Views.{text_scene};
ghost use Rattle.dfa_ends.specs.Ends.{Among};
ghost use Rattle.dfa_paths.specs.Fragment.{IsGraphOf, AreEnds, IsHit};
ghost use Rattle.dfa_paths.specs.Plain.{is_plain};
ghost use Rattle.dfa_lists.specs.Lists.{stops_from};
ghost use Rattle.dfa_graph.specs.pat_check.Size.{whole_size};

use crate::lists::{EndSet, Lists, Search, ends_of};
use char_sets::ClassTable;
use dfa_graph::{Graph, MOST_NESTED};
use match_items::{View, places_stand};
use pat_tree::{Memory, Steps};
use std::alloc::Global;
use std::sync::ledger::Ledger;

/// Whether each test that reaches the subject's end counts in a search from a place. Where it
/// doesn't, the search is at the end and takes nothing, so `\b` and `\B` alone look before its place.
fn counts_from(graph: &Graph, view: &View<'_>, place: usize) -> bool
    ensures { result ≡ (nat_lt place (length view.now.subject.now) || graph.now.always) }
{
    place < view.subject.len() || graph.always()
}

/// All places where the tree of a graph can end from a place, rising (pcre2matching, "The alternative
/// matching algorithm"), and whether some test on the way reached the subject's end: it counts where
/// the end is past the earliest place inspected, or where the pattern has a lookbehind or can be empty
/// (pcre2partial, "Partial matching in PCRE2"). Where the tree has no atomic group and no lookaround,
/// each character from the place on, and the subject's end, costs at most as many tests as it has
/// nodes, with its repeats written out. Fails for want of memory alone.
///
/// Needs the classes of the graph's tree, a subject that can be searched, and a place in it.
pub fn ends<L: Ledger>(
    alloc: Global,
    graph: &Graph,
    classes: &ClassTable,
    view: &View<'_>,
    place: usize,
    lists: &mut Lists,
    steps: &mut Steps<L>,
) -> Result<EndSet, Memory>
    requires subject { IsText view.now.options.now view.now.subject.now }
    requires place { IsTextPlace view.now.options.now view.now.subject.now place }
    requires graph { (t : Nested) × IsGraphOf (length classes.now) graph.now t }
    ensures ends { IfOk result (λ set. AreEnds (text_scene view.now classes.now) graph.now place
        set.ends) }
    ensures within { IfOk result (λ set. (end : ℕ) → Among end set.ends
        → (place ≤ end) × (end ≤ length view.now.subject.now)) }
    ensures hit { IfOk result (λ set. IsHit (text_scene view.now classes.now) graph.now place
        set.hit_end) }
    ensures tests { IfOk result (λ _. (t : Nested) → IsGraphOf (length classes.now) graph.now t
        → is_plain t ≡ true → steps.new ≤ steps.old
        + whole_size t * stops_from view.now.options.now.utf view.now.subject.now place) }
{
    // so what a state takes ends at a place
    places_stand();
    let search = Search {
        alloc,
        nodes: graph.states(),
        classes,
        view,
        counts: counts_from(graph, view, place),
    };
    let set = ends_of(&search, MOST_NESTED, 0, place, lists, steps)?;
    Ok(set)
}
