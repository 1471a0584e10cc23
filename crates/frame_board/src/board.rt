//! A finished tree over a subject, as the machine goes over it.
ghost use Rattle.std.specs.Prelude.{◌≡◌, ℕ, true, [], length, slice_index_or};
ghost use Rattle.match_items.specs.Subjects.{IsText, IsTextPlace};
ghost use Rattle.match_items.specs.Views.{text_scene};
ghost use Rattle.node_flow.specs.Branches.{AreBranchesOf};
ghost use Rattle.node_flow.specs.Followers.{IsFlowOf};
ghost use Rattle.node_flow.specs.LookBranches.{AreLookBranchesOf};
ghost use Rattle.node_flow.specs.Order.{AreRanks};
ghost use Rattle.pat_lengths.specs.Backs.{AreBacks};
ghost use Rattle.pat_lengths.specs.Places.{ArePlaces};
ghost use Rattle.frame_board.specs.Ready.{IsBoardSearch, IsKnown, setting_in};
ghost use Rattle.frame_board.specs.Standing.{stands_in};
ghost use Rattle.frame_board.specs.BoardProps.{IsBoardSearch-prop, IsFlowOf-prop, AreBranchesOf-prop, AreRanks-prop};
ghost use Rattle.frame_board.specs.BoardProps.{AreLookBranchesOf-prop};
ghost use Rattle.frame_board.specs.BoardProps.{AreBacks-prop, ArePlaces-prop, IsKnown-prop};

use crate::counted::{longest, place_of, room_before, taken, wide};
use crate::reaches::{break_reaches, item_reaches, ref_reaches};
use char_sets::ClassTable;
use frame_state::searchable::{Run, Searchable};
use match_items::{View, anchor, break_step, ref_step, text_back, text_before};
use pat_check::Facts;
use pat_lengths::Back;
use pat_tree::{AnchorKind, Item, MatchOptions, Node, Options, PartialMode, Tree};
use pcre_io::Callouts;
use std::snapshot::Snapshot;

/// A finished tree over a subject.
#[derive(Drop)]
pub struct Board<'a, C: Callouts> {
    pub tree: &'a Tree,
    pub classes: &'a ClassTable,
    pub facts: &'a Facts,
    pub subject: &'a [u8],
    pub start: usize,
    pub matching: &'a MatchOptions,
    /// How callouts are answered.
    pub calls: Snapshot<C>,
    ghost runs: { IsBoardSearch tree.now classes.now matching.now subject.now } by { IsBoardSearch-prop tree.now classes.now matching.now subject.now },
    ghost flows: { IsFlowOf tree.now.nodes tree.now.root facts.now.flow } by { IsFlowOf-prop tree.now.nodes tree.now.root facts.now.flow },
    ghost branches: { AreBranchesOf tree.now.nodes tree.now.root facts.now.branches } by { AreBranchesOf-prop tree.now.nodes tree.now.root facts.now.branches },
    ghost look_branches: { AreLookBranchesOf tree.now.nodes tree.now.root facts.now.look_branches } by { AreLookBranchesOf-prop tree.now.nodes tree.now.root facts.now.look_branches },
    ghost ranks: { AreRanks tree.now.nodes tree.now.root facts.now.ranks } by { AreRanks-prop tree.now.nodes tree.now.root facts.now.ranks },
    ghost backs: { AreBacks tree.now facts.now.backs } by { AreBacks-prop tree.now facts.now.backs },
    ghost known: { IsKnown tree.now facts.now } by { IsKnown-prop tree.now facts.now },
    ghost places: { ArePlaces tree.now facts.now.groups } by { ArePlaces-prop tree.now facts.now.groups },
}

impl<C: Callouts> Board<'_, C> {
    /// The subject with the options of the tree and of the match.
    fn view(&self) -> View<'_>
        ensures scene { text_scene result self.now.classes.now
            ≡ (setting_in self.now.tree.now self.now.matching.now self.now.subject.now
            self.now.start (C.answers self.now.calls.value)).scene }
        ensures subject { IsText result.options.now result.subject.now }
        ensures place { (p : ℕ) → stands_in self.now.tree.now.options.utf self.now.subject.now p
            ≡ true → IsTextPlace result.options.now result.subject.now p }
    {
        View {
            subject: self.subject,
            start: self.start,
            options: self.tree.options(),
            matching: self.matching,
        }
    }
}

/// The verb's name of a number, empty where the number is of none.
fn name_of(tree: &Tree, number: u32) -> &[u8]
    ensures { result.now ≡ slice_index_or tree.now.verb_names number [] }
{
    if number < tree.verb_names() {
        tree.verb_name(number)
    } else {
        &[]
    }
}

impl<C: Callouts> Searchable for Board<'_, C> {
    ghost use Rattle.frame_board.specs.Ready.{ground_in};
    ghost use Rattle.frame_board.specs.GroundLaw.{ground_is};

    ghost searched = { λ b. ground_in b.tree.now b.matching.now b.subject.now b.start (C.answers b.calls.value) };

    ghost sound = { λ b. ground_is b.tree.now b.classes.now b.matching.now b.subject.now b.start
        (C.answers b.calls.value) b.runs };

    fn root(&self) -> u32 {
        self.tree.root()
    }

    fn groups(&self) -> u32 {
        self.tree.groups()
    }

    fn node(&self, part: u32) -> &Node {
        self.tree.node(part)
    }

    fn next(&self, part: u32) -> Option<u32> {
        self.facts.next(part)
    }

    fn branch(&self, part: u32) -> Option<u32> {
        self.facts.branch(part)
    }

    fn settles(&self, part: u32) -> bool {
        match self.facts.look_branch(part) {
            None => false,
            Some(branch) => {
                let back = self.facts.back(branch);
                back.least != back.most
            }
        }
    }

    fn rank(&self, part: u32) -> u32 {
        self.facts.rank(part)
    }

    fn group(&self, number: u16) -> Option<u32> {
        // This is read for what it is known to keep.
        self.tree.is_sound();
        self.facts.group(number)
    }

    fn options(&self) -> &Options {
        self.tree.options()
    }

    fn matching(&self) -> &MatchOptions {
        self.matching
    }

    fn start(&self) -> u64 {
        self.start as u64
    }

    fn length(&self) -> u64 {
        self.subject.len() as u64
    }

    fn take(&self, item: &Item, at: u64) -> Option<u64> {
        taken(&self.view(), self.classes, item, at as usize)
    }

    fn run(&self, item: &Item, at: u64, most: Option<u32>) -> Run {
        let run = longest(&self.view(), self.classes, item, at as usize, most);
        Run {
            count: run.count,
            to: run.to as u64,
            at_end: run.at_end,
        }
    }

    fn take_break(&self, at: u64) -> Option<u64> {
        place_of(break_step(&self.view(), at as usize))
    }

    fn refer(&self, from: u64, to: u64, caseless: bool, at: u64) -> Option<u64> {
        // A text that ends before it begins is empty, and an empty text stands everywhere.
        if to < from {
            return Some(at);
        }
        let view = self.view();
        place_of(ref_step(&view, from as usize, to as usize, caseless, at as usize))
    }

    fn holds(&self, kind: AnchorKind, at: u64) -> bool {
        anchor(&self.view(), kind, at as usize).holds
    }

    fn earliest(&self, kind: AnchorKind, at: u64, early: u64) -> u64 {
        match kind {
            AnchorKind::Word { .. } | AnchorKind::NotWord { .. } => early.min(self.before(at)),
            _ => early,
        }
    }

    fn is_off(&self) -> bool {
        matches!(self.matching.partial, PartialMode::Off)
    }

    fn counts(&self, early: u64) -> bool {
        early < self.subject.len() as u64 || self.facts.has_lookbehind || self.facts.can_be_empty
    }

    fn item_reaches(&self, item: &Item, at: u64) -> bool {
        if self.is_off() {
            return false;
        }
        item_reaches(&self.view(), item, at as usize)
    }

    fn break_reaches(&self, at: u64) -> bool {
        if self.is_off() {
            return false;
        }
        break_reaches(&self.view(), at as usize)
    }

    fn ref_reaches(&self, from: u64, to: u64, caseless: bool, at: u64) -> bool {
        if self.is_off() {
            return false;
        }
        ref_reaches(
            &self.view(),
            from as usize,
            to as usize,
            caseless,
            at as usize,
        )
    }

    fn anchor_reaches(&self, kind: AnchorKind, at: u64) -> bool {
        if self.is_off() {
            return false;
        }
        anchor(&self.view(), kind, at as usize).at_end
    }

    fn before(&self, at: u64) -> u64 {
        text_before(&self.view(), at as usize) as u64
    }

    fn step_back(&self, at: u64, count: u32) -> Option<u64> {
        if self.tree.options().utf {
            wide(text_back(&self.view(), at as usize, count))
        } else {
            at.checked_sub(u64::from(count))
        }
    }

    fn room_before(&self, at: u64, most: u32) -> u32 {
        room_before(&self.view(), at as usize, most)
    }

    fn back(&self, branch: u32) -> Back {
        self.facts.back(branch)
    }

    fn same_name(&self, first: u32, second: u32) -> bool {
        name_of(self.tree, first) == name_of(self.tree, second)
    }

    fn step_limit(&self) -> u32 {
        match self.tree.options().match_limit {
            None => self.matching.match_limit,
            Some(limit) => limit.min(self.matching.match_limit),
        }
    }

    fn unit_limit(&self) -> u32 {
        self.matching.frame_limit
    }
}
