//! What a finished tree tells of each search of it.
ghost use Rattle.std.specs.Prelude.{◌≡◌, ◌≤◌, ◌<◌, IfSome, length};
ghost use Rattle.std.specs.Option.{option_copied};
ghost use Rattle.pat_tree.specs.Parts.{TreeParts};
ghost use Rattle.match_starts.specs.Prefix.{AreBranches, IsFree};
ghost use Rattle.match_starts.specs.Repeats.{BeginsByRepeat, IsFirstRepeat};
ghost use Rattle.match_starts.specs.Whole.{IsWhole, IsWholeSearch};
ghost use Rattle.match_drive.specs.Run.{BeginsByRun, IsFirstRun};
ghost use Rattle.match_drive.specs.Outline.{IsOutlineOf};

use crate::begin::stands_at_begin;
use crate::run::{goes_by_run, plain_run};
use match_items::View;
use match_starts::{
    FirstRepeat, branches_tested, first_repeat, goes_by_repeat, goes_by_whole, whole_repeat,
};
use pat_tree::{Item, Node, NodeId, Tree};

/// What a finished tree tells of where its matches may begin. Who searches many subjects makes it once.
#[derive(Clone, Copy)]
pub struct Outline {
    /// True only where the pattern stands at the subject's begin alone.
    pub at_begin: bool,
    /// Whether testing the pattern's branches by single items may tell something.
    pub by_items: bool,
    /// The greedy repeat of an item that the whole pattern is, if it is one.
    pub whole: Option<FirstRepeat>,
    /// The repeat of an item that the pattern begins with, where one is known.
    pub repeat: Option<FirstRepeat>,
    /// The item whose run the pattern begins with, where nothing in the pattern goes by what was
    /// captured.
    pub run: Option<Item>,
}

/// What of an outline a search goes by. It borrows, since a copy would cost each search more than what it tells.
#[derive(Clone, Copy)]
pub(crate) struct Guide<'a> {
    pub at_begin: bool,
    pub whole: Option<&'a FirstRepeat>,
    pub repeat: Option<&'a FirstRepeat>,
    pub run: Option<&'a Item>,
}

/// Whether a part begins with a single item, or takes nothing.
fn begins_with_item(tree: &Tree, part: NodeId) -> bool
    requires { part ≤ tree.now.root }
{
    match tree.node(part) {
        Node::One(_) => true,
        Node::Seq(parts) => match parts.as_slice() {
            [first, ..] => matches!(tree.node(*first), Node::One(_)),
            [] => true,
        },
        _ => false,
    }
}

/// Whether the first branch of a pattern begins so. Where it doesn't, testing the branches tells
/// nothing; no contract says so, since any answer is right.
fn tells_by_items(tree: &Tree) -> bool {
    let Node::Group {
        number: None,
        branches,
    } = tree.node(tree.root())
    else {
        return false;
    };
    match branches.as_slice() {
        [first, ..] => begins_with_item(tree, *first),
        [] => false,
    }
}

/// A repeat that tells more of a place than that the item takes what stands there, as the bytes that
/// matches begin with tell already.
fn telling(repeat: Option<FirstRepeat>) -> Option<FirstRepeat>
    ensures { (tree : TreeParts) → IfSome repeat (BeginsByRepeat tree)
        → IfSome result (BeginsByRepeat tree) }
{
    match repeat {
        Some(first) if first.min > 1 || first.behind.is_some() => Some(first),
        _ => None,
    }
}

impl Outline {
    /// The outline of a finished tree.
    pub fn of(tree: &Tree) -> Outline
        ensures { IsOutlineOf tree.now result }
    {
        Outline {
            at_begin: stands_at_begin(tree),
            by_items: tells_by_items(tree),
            whole: whole_repeat(tree),
            repeat: telling(first_repeat(tree)),
            run: plain_run(tree),
        }
    }

    /// The branches that are tested before the machine runs.
    pub(crate) fn branches<'a>(&self, tree: &'a Tree, view: &View<'_>) -> &'a [NodeId]
        ensures branches { AreBranches tree.now result.now }
        ensures free { 0 < length result.now → IsFree view.now (length result.now) }
    {
        if self.by_items {
            branches_tested(tree, view)
        } else {
            &[]
        }
    }

    /// The repeat that the whole pattern is, where a search goes by it.
    fn whole_for<'a>(&'a self, view: &View<'_>) -> Option<&'a FirstRepeat>
        ensures { (tree : TreeParts) → IfSome self.now.whole (IsWhole tree)
            → IfSome (option_copied result) (IsWholeSearch tree view.now) }
    {
        if goes_by_whole(view) {
            self.whole.as_ref()
        } else {
            None
        }
    }

    /// The repeat, where a search goes by it.
    fn repeat_for<'a>(&'a self, view: &View<'_>) -> Option<&'a FirstRepeat>
        ensures { (tree : TreeParts) → IfSome self.now.repeat (BeginsByRepeat tree)
            → IfSome (option_copied result) (IsFirstRepeat tree view.now) }
    {
        if goes_by_repeat(view) {
            self.repeat.as_ref()
        } else {
            None
        }
    }

    /// The item whose run the pattern begins with, where a search goes by it.
    fn run_for<'a>(&'a self, view: &View<'_>) -> Option<&'a Item>
        ensures { (tree : TreeParts) → IfSome self.now.run (BeginsByRun tree)
            → view.now.options.now ≡ tree.options
            → IfSome (option_copied result) (IsFirstRun tree view.now) }
    {
        if goes_by_run(view) {
            self.run.as_ref()
        } else {
            None
        }
    }

    /// What of it a search goes by.
    pub(crate) fn for_search<'a>(&'a self, view: &View<'_>) -> Guide<'a>
        ensures begin { result.at_begin ≡ self.now.at_begin }
        ensures whole { (tree : TreeParts) → IfSome self.now.whole (IsWhole tree)
            → IfSome (option_copied result.whole) (IsWholeSearch tree view.now) }
        ensures repeat { (tree : TreeParts) → IfSome self.now.repeat (BeginsByRepeat tree)
            → IfSome (option_copied result.repeat) (IsFirstRepeat tree view.now) }
        ensures run { (tree : TreeParts) → IfSome self.now.run (BeginsByRun tree)
            → view.now.options.now ≡ tree.options
            → IfSome (option_copied result.run) (IsFirstRun tree view.now) }
    {
        Guide {
            at_begin: self.at_begin,
            whole: self.whole_for(view),
            repeat: self.repeat_for(view),
            run: self.run_for(view),
        }
    }
}
