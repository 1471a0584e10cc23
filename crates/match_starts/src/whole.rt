//! A pattern that is one greedy repeat of an item: it matches the longest run.
ghost use Rattle.std.specs.Prelude.{◌≡◌, ◌<◌, ℤ, IfSome, IsTrue};
ghost use Rattle.pat_tree.specs.declared.options.PartialMode.TheVariants.{Off};
ghost use Rattle.pcre_io.specs.declared.callouts.Block.{Block};
ghost use Rattle.char_sets.specs.Table.{IsTableOf};
ghost use Rattle.match_items.specs.Subjects.{IsText, IsTextPlace};
ghost use Rattle.match_items.specs.Views.{maximum};
ghost use Rattle.frame_board.specs.Ready.{setting_for};
ghost use Rattle.ordered_search.specs.Setting.{lower_of};
ghost use Rattle.match_starts.specs.Prefix.{IsTold};
ghost use Rattle.match_starts.specs.Whole.{IsWhole, IsWholeSearch};

use crate::prefix::{Tested, is_admitted};
use crate::repeats::FirstRepeat;
use crate::search::{is_off, match_limit};
use frame_board::Ready;
use match_items::{View, item_run};
use pat_tree::{Node, Tree};

/// The greedy repeat of an item that a whole pattern is.
pub fn whole_repeat(tree: &Tree) -> Option<FirstRepeat>
    ensures { IfSome result (IsWhole tree.now) }
{
    let Node::Group {
        number: None,
        branches,
    } = tree.node(tree.root())
    else {
        return None;
    };
    let [only] = branches.as_slice() else {
        return None;
    };
    match tree.node(*only) {
        Node::OneRepeat {
            item,
            min,
            max,
            lazy: false,
        } => Some(FirstRepeat {
            item: *item,
            min: *min,
            max: *max,
            behind: None,
        }),
        _ => None,
    }
}

/// Whether a search goes by such a repeat: not where partial matches are looked for, nor where a
/// limit admits nothing.
pub fn goes_by_whole(view: &View<'_>) -> bool
    ensures off { IsTrue result → view.now.matching.now.partial ≡ Off }
    ensures step { IsTrue result
        → 0 < lower_of view.now.options.now.match_limit view.now.matching.now.match_limit }
    ensures unit { IsTrue result → 0 < view.now.matching.now.frame_limit }
{
    is_off(view) && match_limit(view) > 0 && view.matching.frame_limit > 0
}

/// The greatest number of characters that a repeat takes, or the greatest number for no maximum.
fn most_of(only: &FirstRepeat) -> u32
    ensures { maximum result ≡ only.now.max }
{
    match only.max {
        Some(max) => u32::from(max),
        None => u32::MAX,
    }
}

/// What such a pattern tells of a place: a match, where its run is long enough and counts.
pub fn test_whole(ready: &Ready<'_>, view: &View<'_>, only: &FirstRepeat, place: usize) -> Tested
    requires table { IsTableOf ready.now.tree.now ready.now.classes.now }
    requires options { view.now.options.now ≡ ready.now.tree.now.options }
    requires subject { IsText view.now.options.now view.now.subject.now }
    requires place { IsTextPlace view.now.options.now view.now.subject.now place }
    requires only { IsWholeSearch ready.now.tree.now view.now only.now }
    ensures { (given : Block → ℤ) → IsTold result
        (setting_for ready.now.tree.now view.now given) place }
{
    let run = item_run(view, ready.classes, &only.item, place, most_of(only));
    if run.count < u32::from(only.min) {
        return Tested::Open;
    }
    if is_admitted(ready, view, place, run.to) {
        Tested::Took(run.to)
    } else {
        Tested::Open
    }
}
