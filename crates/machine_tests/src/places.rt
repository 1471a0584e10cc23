//! What the machine answers at the first place of a subject.
ghost use Rattle.std.specs.Prelude.{◌≡◌, ◌<◌, false, length};
ghost use Rattle.char_sets.specs.Table.{IsTableOf};
ghost use Rattle.frame_board.specs.Ready.{AreFactsOf};

use char_sets::ClassTable;
use frame_machine::{PlaceAnswer, Ready, Scratch, run_at};
use frame_store::Span;
use match_items::View;
use pat_build::read;
use pat_check::{Facts, check};
use pat_tree::{MatchOptions, Options, PartialMode, Tree};
use pcre_io::NoCallouts;
use std::alloc::Global;
use std::process::Abort;
use std::test::Fail;

/// A pattern, a subject, the answer at its first place, and what differs from a run under the greatest limits that
/// captures nothing.
pub(crate) type Row = (&'static [u8], &'static [u8], PlaceAnswer, &'static [Change]);

#[derive(Clone, Copy)]
pub(crate) enum Change {
    /// The greatest number of Steps.
    Steps(u32),
    /// The greatest number of units.
    Units(u32),
    /// What group 1 captured.
    Captured(u64, u64),
    /// How partial matches are looked for.
    Partially(PartialMode),
}

/// The limits of a run, and what group 1 captures.
#[derive(Clone, Copy)]
struct Run {
    matching: MatchOptions,
    group: Option<(u64, u64)>,
}

impl Run {
    fn change(&mut self, change: Change) {
        match change {
            Change::Steps(limit) => self.matching.match_limit = limit,
            Change::Units(limit) => self.matching.frame_limit = limit,
            Change::Captured(from, to) => self.group = Some((from, to)),
            Change::Partially(mode) => self.matching.partial = mode,
        }
    }
}

/// A run with these changes.
fn run_with(changes: &[Change]) -> Run {
    let mut run = Run {
        matching: MatchOptions::PLAIN,
        group: None,
    };
    for change in changes {
        run.change(*change);
    }
    run
}

/// What a finished tree answers at the first place.
fn answer_of(
    tree: &Tree,
    classes: &ClassTable,
    facts: &Facts,
    subject: &[u8],
    matching: &MatchOptions,
    scratch: &mut Scratch,
) -> PlaceAnswer
    requires table { IsTableOf tree.now classes.now }
    requires facts { AreFactsOf tree.now facts.now }
    requires short { length subject.now < 4294967295 }
    requires bytes { tree.now.options.utf ≡ false }
{
    let ready = Ready {
        tree,
        classes,
        facts,
    };
    let view = View {
        subject,
        start: 0,
        options: tree.options(),
        matching,
    };
    run_at(&ready, &view, 0, scratch, &mut NoCallouts)
}

/// What a pattern answers at the first place, and what group 1 captured.
pub(crate) fn placed(
    alloc: Global,
    pattern: &[u8],
    subject: &[u8],
    matching: &MatchOptions,
    scratch: &mut Scratch,
) -> Result<(PlaceAnswer, Option<Span>), Fail>
    requires short { length subject.now < 4294967295 }
{
    let tree = read(alloc, pattern, Options::PLAIN)?;
    // the rows are run byte by byte
    if tree.options().utf {
        return Ok((PlaceAnswer::Memory, None));
    }
    let classes = ClassTable::build(alloc, &tree)?;
    let facts = check(alloc, &tree, &classes)?;
    let answer = answer_of(&tree, &classes, &facts, subject, matching, scratch);
    Ok((answer, scratch.span(1)))
}

/// A row is answered by a workspace.
fn case(rt: &impl Abort, alloc: Global, row: &Row, scratch: &mut Scratch) -> Result<(), Fail> {
    let (pattern, subject, expected, changes) = *row;
    let run = run_with(changes);
    assert!(rt; subject.len() < 100);
    let (answer, group) = placed(alloc, pattern, subject, &run.matching, scratch)?;
    assert!(rt; answer == expected);
    if matches!(answer, PlaceAnswer::Matched { .. }) {
        assert!(rt; group.map(|span| (span.from, span.to)) == run.group);
    }
    Ok(())
}

/// Each row is answered by a new workspace, and by one that served all the rows before.
pub(crate) fn cases(rt: &impl Abort, alloc: Global, rows: &[Row]) -> Result<(), Fail> {
    let mut used = Scratch::new(alloc);
    for row in rows {
        case(rt, alloc, row, &mut Scratch::new(alloc))?;
        case(rt, alloc, row, &mut used)?;
    }
    Ok(())
}
