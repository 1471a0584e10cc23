//! Subjects and places without a text that every match needs.
ghost use Rattle.std.specs.Prelude.{◌≡◌, ◌+◌, ◌<◌, ◌≤◌, ℕ, ℤ, true, None, IfSome, IsTrue, length, slice_index};
ghost use Rattle.std.specs.Option.{option_copied};
ghost use Rattle.match_items.specs.Subjects.{IsText};
ghost use Rattle.pcre_io.specs.declared.callouts.Block.{Block};
ghost use Rattle.pat_bounds.specs.Bounds.{at};
ghost use Rattle.frame_machine.specs.frame_board.Ready.{IsReadySearch, setting_for};
ghost use Rattle.ordered_search.specs.Setting.{lower_of};
ghost use Rattle.ordered_search.specs.MatchAnswer.{none_found, match_answer};
ghost use Rattle.pat_needs.specs.Texts.{sets_of, Stands};
ghost use Rattle.pat_needs.specs.Needs.{Needs};
ghost use Rattle.pat_needs.specs.NeedTables.{may_of, IsBoundLacking, IsNeedOf};
ghost use Rattle.pat_tree.specs.Parts.{TreeParts, tree_of};
ghost use Rattle.match_starts.specs.Asked.{passed_over};
ghost use Rattle.match_drive.specs.BeginText.{IsBegun};

use crate::answer::MatchAnswer;
use frame_machine::{Ready, Scratch};
use match_items::View;
use match_starts::{are_bytes, is_off, match_limit};
use pat_bounds::Bound;
use pat_needs::{BeginText, ByteText, Need};

/// Whether what a search of the subject takes at most is within the limits.
fn is_within(bound: &Bound, view: &View<'_>) -> bool
    requires { IsText view.now.options.now view.now.subject.now }
    ensures steps { IsTrue result → at bound.now.steps (length view.now.subject.now + 1)
        ≤ lower_of view.now.options.now.match_limit view.now.matching.now.match_limit }
    ensures units { IsTrue result → at bound.now.units (length view.now.subject.now + 1)
        ≤ view.now.matching.now.frame_limit }
{
    let size = view.subject.len() as u64 + 1;
    bound.units.is_within(size, view.matching.frame_limit)
        && bound.steps.is_within(size, match_limit(view))
}

/// Whether a text stands nowhere in these bytes.
#[tactic(auto, using(crate::proofs::Needless::stands_nowhere))]
fn lacks(bytes: &[u8], text: &ByteText) -> bool
    ensures small { (k : ℕ) → k < length bytes.now → slice_index bytes.now k < 256 }
    ensures missing { IsTrue result → (k : ℕ) → ¬ Stands (sets_of text.now) bytes.now k }
{
    text.find(bytes) == bytes.len()
}

/// A text to look for ahead of a search, and what a search takes at most where it is missing.
#[derive(Drop)]
struct Ahead<'a> {
    text: &'a ByteText,
    bound: Bound,
}

/// The text to look for ahead of a search. Where start places are found by the needed one it is a text further on, if
/// any, and only where what stands between the two is given back place by place: else a search without it ends soon.
fn text_ahead(need: &Need) -> Option<Ahead<'_>>
    ensures { (tree : TreeParts) → IsNeedOf tree need.now → IfSome result (λ ahead.
        Needs (may_of tree) tree.options.utf true (sets_of ahead.text.now) (tree_of tree)
        × IsBoundLacking tree (sets_of ahead.text.now) ahead.bound) }
{
    if !need.is_begin {
        return Some(Ahead {
            text: &need.text,
            bound: need.lacking,
        });
    }
    match &need.other {
        Some(text) if need.bound.states.degree > 0 => Some(Ahead {
            text,
            bound: need.bound,
        }),
        _ => None,
    }
}

/// True only where the subject has no match, partial or not, and a search of it passes no limit: a text that every
/// match takes stands nowhere in it. A search that begins later isn't looked at, so that many searches of a long
/// subject don't each look over what stands before.
pub(crate) fn lacks_need(ready: &Ready<'_>, view: &View<'_>) -> bool
    requires { IsReadySearch ready.now view.now }
    ensures { IsTrue result → (answers : Block → ℤ)
        → match_answer (setting_for ready.now.tree.now view.now answers) ≡ none_found }
{
    if !is_off(view) {
        return false;
    }
    let Some(need) = &ready.facts.need else {
        return false;
    };
    if view.start > 0 {
        return false;
    }
    match text_ahead(need) {
        Some(ahead) => is_within(&ahead.bound, view) && lacks(view.subject, ahead.text),
        None => false,
    }
}

/// A text at a distance from where every match begins, where a search at a place without it passes no limit. None where
/// partial matches are looked for, nor at the subject's begin alone, which is tried sooner than it is looked for.
pub(crate) fn begin_of<'a>(
    ready: &'a Ready<'a>,
    view: &View<'_>,
    at_begin: bool,
) -> Option<&'a BeginText>
    requires { IsReadySearch ready.now view.now }
    ensures { IfSome (option_copied result)
        (IsBegun (setting_for ready.now.tree.now view.now passed_over)) }
{
    // what the law on such a text goes by
    are_bytes(view.subject);
    let Some(need) = &ready.facts.need else {
        return None;
    };
    if at_begin || !is_off(view) || !is_within(&need.bound, view) {
        return None;
    }
    need.begin.as_ref()
}

/// The answer for such a subject, whose search met no name.
pub(crate) fn no_match(scratch: &mut Scratch) -> MatchAnswer
    ensures answer { result ≡ MatchAnswer.NoMatch None }
    ensures mark { scratch.new ≡ record scratch.old { last_mark = None } }
{
    scratch.clear_mark();
    MatchAnswer::NoMatch { mark: None }
}
