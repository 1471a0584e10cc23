//! A finished tree and a subject, as the walk over the start places goes over them.
ghost use Rattle.std.specs.Prelude.{◌≡◌, ◌≤◌, ℤ, IsTrue, IfSome, length};
ghost use Rattle.std.specs.Option.{option_copied};
ghost use Rattle.pcre_io.specs.declared.callouts.Block.{Block};
ghost use Rattle.match_items.specs.Subjects.{IsTextPlace};
ghost use Rattle.frame_machine.specs.frame_board.Ready.{setting_for};
ghost use Rattle.match_starts.specs.Asked.{passed_over};
ghost use Rattle.match_drive.specs.Course.{IsByteCourse};
ghost use Rattle.match_starts.specs.Prefix.{IsTold};
ghost use Rattle.match_starts.specs.Repeats.{FailsUpTo};
ghost use Rattle.match_drive.specs.Rest.{FailsToAlways};

use crate::driven::Driven;
use crate::outline::Guide;
use byte_lanes::ByteSet;
use frame_machine::{PlaceAnswer, Ready, Scratch, Signal, run_at};
use match_items::{View, item_run};
use match_starts::{Tested, fails_on, is_admitted, test_branches, test_whole};
use pat_needs::BeginText;
use pat_tree::{MatchOptions, NodeId, Options};
use pcre_io::Callouts;

/// A finished tree, made ready, and a subject.
#[derive(Clone, Copy)]
pub(crate) struct Course<'a> {
    pub ready: &'a Ready<'a>,
    pub view: &'a View<'a>,
    /// What of the tree's outline the search goes by.
    pub guide: Guide<'a>,
    /// The pattern's branches, where they are tested before the machine runs, else none.
    pub first: &'a [NodeId],
    /// A text at a distance from where every match begins, where places without it are known to fail.
    pub begin: Option<&'a BeginText>,
}

impl Course<'_> {
    /// The last place that is known to fail with this one and all places between them, by what the pattern begins with.
    fn fails_on(&self, place: usize) -> Option<usize>
        requires fits { IsByteCourse self.now.ready.now self.now.view.now self.now.guide
            self.now.first.now (option_copied self.now.begin) }
        requires place { IsTextPlace self.now.ready.now.tree.now.options
            self.now.view.now.subject.now place }
        ensures { IfSome result (FailsUpTo self.now.ready.now.tree.now self.now.view.now place) }
    {
        match self.guide.repeat {
            Some(first) => fails_on(self.ready, self.view, first, place),
            None => None,
        }
    }

    /// The end of the run from a place that failed, where all places in the run fail with it, else the place.
    fn run_to(&self, place: usize) -> usize
        requires fits { IsByteCourse self.now.ready.now self.now.view.now self.now.guide
            self.now.first.now (option_copied self.now.begin) }
        requires place { IsTextPlace self.now.ready.now.tree.now.options
            self.now.view.now.subject.now place }
        ensures low { place ≤ result }
        ensures within { result ≤ length self.now.view.now.subject.now }
        ensures alone { IsTrue self.now.ready.now.tree.now.options.utf → result ≡ place }
        ensures fails { FailsToAlways
            (setting_for self.now.ready.now.tree.now self.now.view.now passed_over) place result }
    {
        match self.guide.run {
            Some(item) => item_run(self.view, self.ready.classes, item, place, u32::MAX).to,
            None => place,
        }
    }

    /// What the pattern's branches tell of a place, by the single items that they begin with.
    fn branches_at(&self, place: usize) -> Tested
        requires fits { IsByteCourse self.now.ready.now self.now.view.now self.now.guide
            self.now.first.now (option_copied self.now.begin) }
        requires place { IsTextPlace self.now.ready.now.tree.now.options
            self.now.view.now.subject.now place }
        ensures { (given : Block → ℤ) → IsTold result
            (setting_for self.now.ready.now.tree.now self.now.view.now given) place }
    {
        if self.first.is_empty() {
            return Tested::Open;
        }
        match test_branches(self.ready, self.view, self.first, place) {
            Tested::Took(to) if is_admitted(self.ready, self.view, place, to) => Tested::Took(to),
            Tested::Refused => Tested::Refused,
            _ => Tested::Open,
        }
    }

    /// What is known of a place by what the pattern is, or begins with.
    fn tested(&self, place: usize) -> Tested
        requires fits { IsByteCourse self.now.ready.now self.now.view.now self.now.guide
            self.now.first.now (option_copied self.now.begin) }
        requires place { IsTextPlace self.now.ready.now.tree.now.options
            self.now.view.now.subject.now place }
        ensures { (given : Block → ℤ) → IsTold result
            (setting_for self.now.ready.now.tree.now self.now.view.now given) place }
    {
        match self.guide.whole {
            Some(only) => test_whole(self.ready, self.view, only, place),
            None => self.branches_at(place),
        }
    }
}

impl Driven for Course<'_> {
    ghost use Rattle.std.proofs.Common.{refl, subst};
    ghost use Rattle.std.specs.Option.{option_copied};
    ghost use Rattle.match_items.specs.Subjects.{IsText, IsTextPlace};

    ghost asked = { λ x. setting_for x.ready.now.tree.now x.view.now };

    ghost fits = { λ x. IsByteCourse x.ready.now x.view.now x.guide x.first.now
        (option_copied x.begin) };

    fn subject(&self) -> &[u8] {
        self.view.subject
    }

    fn start(&self) -> usize {
        self.view.start
    }

    fn options(&self) -> &Options {
        self.view.options
    }

    fn matching(&self) -> &MatchOptions {
        self.view.matching
    }

    fn lead(&self) -> Option<&ByteSet> {
        self.ready.facts.lead.as_ref()
    }

    fn begin(&self) -> Option<&BeginText> {
        self.begin
    }

    fn names_crlf(&self) -> bool {
        self.ready.facts.names_crlf
    }

    fn stands_at_begin(&self) -> bool {
        self.guide.at_begin
    }

    fn refused_to(&self, place: usize) -> Option<usize> {
        self.fails_on(place)
    }

    fn fails_to(&self, place: usize) -> usize {
        self.run_to(place)
    }

    fn try_at<C: Callouts>(
        &self,
        place: usize,
        scratch: &mut Scratch,
        calls: &mut C,
    ) -> PlaceAnswer {
        // At most places the pattern's first items already don't stand, and a pattern that is a text has no others.
        match self.tested(place) {
            Tested::Took(to) => {
                if scratch.unset(self.ready.tree.groups()).is_err() {
                    return PlaceAnswer::Memory;
                }
                PlaceAnswer::Matched {
                    keep: place,
                    to,
                    mark: None,
                }
            }
            Tested::Refused => PlaceAnswer::Failed {
                signal: Signal::Exhausted,
                hit_end: false,
            },
            Tested::Open => run_at(self.ready, self.view, place, scratch, calls),
        }
    }

    ghost subject_is = { λ x h. subst (λ o. IsText o x.view.now.subject.now) h.options h.subject };

    ghost start_is = { λ x h. subst (λ o. IsTextPlace o x.view.now.subject.now x.view.now.start) h.options h.start };

    ghost alike = { λ x answers. refl };
}
