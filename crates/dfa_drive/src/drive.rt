//! The walk over all start places.
ghost use Rattle.std.specs.Prelude.{◌≡◌, ◌≤◌, IfOk, IfSome, length};
ghost use Rattle.pat_tree.specs.declared.options.PartialMode.TheVariants.{Off};
ghost use Rattle.pat_tree.specs.Parts.{tree_of};
ghost use Rattle.match_items.specs.Subjects.{IsTextPlace};
ghost use Rattle.match_drive.specs.frame_board.Ready.{IsReadySearch, setting_for};
ghost use Rattle.match_drive.specs.match_starts.Asked.{passed_over};
ghost use Rattle.dfa_lists.specs.dfa_paths.Fragment.{IsGraphOf};
ghost use Rattle.dfa_ends.specs.DfaAnswer.{decision, dfa_answer};
ghost use Rattle.dfa_drive.specs.Agreement.{Agrees};
ghost use Rattle.dfa_drive.specs.Answer.{IsDfaAnswer, IsDecision, IsDecidedBy, IsPlaced, IsWhole};

use crate::answer::DfaAnswer;
use crate::ends::ends_at;
use dfa_lists::{EndSet, Graph, Lists};
use match_drive::{Ready, is_left_out, last_start, start_after};
use match_items::View;
use pat_tree::{Memory, PartialMode, Steps};
use std::alloc::Global;
use std::sync::ledger::Ledger;

/// What a place decides by its ends and by whether a test reached the subject's end: the latter goes
/// first under hard partial matching, and counts where there is no end under soft partial matching
/// (pcre2partial, "Partial matching using pcre2_dfa_match()").
fn decided(mode: PartialMode, place: usize, set: EndSet) -> Option<DfaAnswer>
    ensures { IsDecision (decision mode place set.ends set.hit_end) result }
{
    if matches!(mode, PartialMode::Hard) && set.hit_end {
        return Some(DfaAnswer::Partial { start: place });
    }
    if set.ends.len() > 0 {
        return Some(DfaAnswer::Ends {
            start: place,
            ends: set.ends,
        });
    }
    if matches!(mode, PartialMode::Soft) && set.hit_end {
        return Some(DfaAnswer::Partial { start: place });
    }
    None
}

/// What a place decides, if it does: it isn't left out, and has ends or a partial match.
fn decision_at<L: Ledger>(
    alloc: Global,
    ready: &Ready<'_>,
    graph: &Graph,
    view: &View<'_>,
    place: usize,
    lists: &mut Lists,
    steps: &mut Steps<L>,
) -> Result<Option<DfaAnswer>, Memory>
    requires ready { IsReadySearch ready.now view.now }
    requires graph { IsGraphOf (length ready.now.classes.now) graph.now
        (tree_of ready.now.tree.now) }
    requires place { IsTextPlace view.now.options.now view.now.subject.now place }
    requires from { view.now.start ≤ place }
    ensures decides { IfOk result (IsDecidedBy
        (setting_for ready.now.tree.now view.now passed_over)
        view.now.matching.now.dfa_shortest place) }
    ensures placed { IfOk result (λ some. IfSome some
        (IsPlaced view.now.options.now view.now.subject.now view.now.start)) }
    ensures whole { IfOk result (λ some. view.now.matching.now.partial ≡ Off
        → IfSome some IsWhole) }
{
    if is_left_out(ready, view, place) {
        return Ok(None);
    }
    let set = ends_at(alloc, ready, graph, view, place, lists, steps)?;
    Ok(decided(view.matching.partial, place, set))
}

/// Searches a finished tree over all start places, in order. The first place that decides gives the
/// answer: all its ends that the options admit, the longest first, or under DFA_SHORTEST the shortest
/// alone; or a partial match, where a test on the way from it reaches the subject's end, under hard
/// partial matching before its ends, under soft partial matching where it has none (pcre2api,
/// "Matching a pattern: the alternative function"; pcre2partial). Fails for want of memory alone.
///
/// Without partial matching, for a pattern without verbs but FAIL, calls, callouts and atomic groups,
/// the ends are the admitted places of the states of the ordered search from that place, where that
/// search runs to its end (pcre2matching, "The alternative matching algorithm").
///
/// Needs the table, the facts and the graph of the tree, and a view with the tree's options; a subject
/// of fewer than 4,294,967,295 bytes, in UTF of UTF-8, and a start in it at a character.
pub fn dfa_search<L: Ledger>(
    alloc: Global,
    ready: &Ready<'_>,
    graph: &Graph,
    view: &View<'_>,
    lists: &mut Lists,
    steps: &mut Steps<L>,
) -> Result<DfaAnswer, Memory>
    requires ready { IsReadySearch ready.now view.now }
    requires graph { IsGraphOf (length ready.now.classes.now) graph.now
        (tree_of ready.now.tree.now) }
    ensures answer { IfOk result (IsDfaAnswer (dfa_answer
        (setting_for ready.now.tree.now view.now passed_over)
        view.now.matching.now.dfa_shortest)) }
    ensures placed { IfOk result
        (IsPlaced view.now.options.now view.now.subject.now view.now.start) }
    ensures whole { IfOk result (λ answer. view.now.matching.now.partial ≡ Off → IsWhole answer) }
    ensures agrees { IfOk result (Agrees (setting_for ready.now.tree.now view.now passed_over)) }
{
    let last = last_start(ready, view);
    let mut next = Some(view.start);
    'places: while let Some(place) = next {
        if let Some(answer) = decision_at(alloc, ready, graph, view, place, lists, steps)? {
            return Ok(answer);
        }
        next = start_after(ready, view, place, last);
    }
    Ok(DfaAnswer::NoMatch)
}
