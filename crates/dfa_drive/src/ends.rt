//! The ends at one place that the options admit.
ghost use Rattle.std.specs.Prelude.{◌≡◌, ◌++◌, [], IfOk, cond, length};
ghost use Rattle.pat_tree.specs.Parts.{tree_of};
ghost use Rattle.match_items.specs.Subjects.{IsTextPlace};
ghost use Rattle.match_items.specs.Views.{bare_text};
ghost use Rattle.match_drive.specs.frame_board.Ready.{IsReadySearch, setting_for};
ghost use Rattle.match_drive.specs.match_starts.Asked.{passed_over};
ghost use Rattle.dfa_lists.specs.dfa_paths.Fragment.{IsGraphOf};
ghost use Rattle.dfa_ends.specs.Ends.{spot};
ghost use Rattle.dfa_ends.specs.DfaAnswer.{last_of, ends_from, reach_test};
ghost use Rattle.dfa_drive.specs.Answer.{AreWithin};
ghost use Rattle.dfa_drive.specs.Admitted.{admits, kept_if, admitted_down};

use dfa_lists::{EndList, EndSet, Graph, Lists, ends};
use match_drive::Ready;
use match_items::View;
use pat_tree::{ListOf, Memory, Steps};
use std::alloc::Global;
use std::sync::ledger::Ledger;

/// Whether the options admit an end of a match that begins at a place (pcre2api, "Option bits for
/// pcre2_match()").
fn is_admitted(view: &View<'_>, place: u64, end: u64) -> bool
    ensures { result ≡ admits (bare_text view.now) place end }
{
    let options = view.options;
    let matching = view.matching;
    let is_cut = (options.endanchored || matching.endanchored) && end != view.subject.len() as u64;
    let never_empty = options.notempty || matching.notempty;
    let not_at_start = options.notempty_atstart || matching.notempty_atstart;
    let is_empty = place == end && (never_empty || not_at_start && place == view.start as u64);
    !is_cut && !is_empty
}

/// Keeps an end that is admitted.
fn keep(ends: &mut EndList, end: u64, is_admitted: bool) -> Result<(), Memory>
    ensures { IfOk result (λ _. ends.new ≡ ends.old ++ kept_if is_admitted end []) }
{
    if is_admitted {
        ends.push(end)?;
    }
    Ok(())
}

/// Those of rising ends that the options admit, the longest first.
fn admitted_ends(
    alloc: Global,
    view: &View<'_>,
    place: u64,
    rising: &EndList,
) -> Result<EndList, Memory>
    ensures { IfOk result (λ ends. ends
        ≡ admitted_down (bare_text view.now) place rising.now (length rising.now)) }
{
    let mut ends: EndList = ListOf::new(alloc);
    let mut left = rising.len();
    'ends: while left > 0 {
        left -= 1;
        let end = *rising.get(left);
        keep(&mut ends, end, is_admitted(view, place, end))?;
    }
    Ok(ends)
}

/// The last of the ends alone, if there are any.
fn shortest_of(alloc: Global, falling: EndList) -> Result<EndList, Memory>
    ensures { IfOk result (λ ends. ends ≡ last_of falling) }
{
    let count = falling.len();
    if count == 0 {
        return Ok(falling);
    }
    let mut only: EndList = ListOf::new(alloc);
    only.push(*falling.get(count - 1))?;
    Ok(only)
}

/// Falling ends, or under DFA_SHORTEST the shortest alone (pcre2api, "Option bits for
/// pcre2_dfa_match()").
fn asked_of(alloc: Global, falling: EndList, shortest: bool) -> Result<EndList, Memory>
    ensures { IfOk result (λ ends. ends ≡ cond shortest (last_of falling) falling) }
{
    if shortest {
        shortest_of(alloc, falling)
    } else {
        Ok(falling)
    }
}

/// The ends from a place, the longest first, or the shortest alone under DFA_SHORTEST, and whether a
/// test on the way from the place reaches the subject's end.
pub(crate) fn ends_at<L: Ledger>(
    alloc: Global,
    ready: &Ready<'_>,
    graph: &Graph,
    view: &View<'_>,
    place: usize,
    lists: &mut Lists,
    steps: &mut Steps<L>,
) -> Result<EndSet, Memory>
    requires ready { IsReadySearch ready.now view.now }
    requires graph { IsGraphOf (length ready.now.classes.now) graph.now
        (tree_of ready.now.tree.now) }
    requires place { IsTextPlace view.now.options.now view.now.subject.now place }
    ensures ends { IfOk result (λ set. set.ends ≡ ends_from
        (setting_for ready.now.tree.now view.now passed_over) view.now.matching.now.dfa_shortest
        place) }
    ensures hit { let g = setting_for ready.now.tree.now view.now passed_over in
        IfOk result (λ set. set.hit_end ≡ reach_test g g.whole (spot place place)) }
    ensures within { IfOk result (λ set.
        AreWithin place (length view.now.subject.now) set.ends) }
{
    let found = ends(alloc, graph, ready.classes, view, place, lists, steps)?;
    let falling = admitted_ends(alloc, view, place as u64, &found.ends)?;
    Ok(EndSet {
        ends: asked_of(alloc, falling, view.matching.dfa_shortest)?,
        hit_end: found.hit_end,
    })
}
