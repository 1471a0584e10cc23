//! Conditions (pcre2pattern, "Conditional groups").
ghost use Rattle.std.specs.Prelude.{◌≡◌, ◌≤◌, ◌+◌, All, IfOk, IfErr, Some, reverse, slice_get, true};
ghost use Rattle.pat_tree.specs.declared.nodes.Node.TheVariants as node;
ghost use Rattle.frame_store.specs.Stack.{room};
ghost use Rattle.frame_state.specs.Room.{IsQuiet, IsShort};
ghost use Rattle.frame_store.specs.Captures.{HasGroup};
ghost use Rattle.frame_store.specs.Entry.{entries};
ghost use Rattle.pcre_io.specs.declared.callouts.Block.{Block};
ghost use Rattle.ordered_search.specs.Parts.{some_set};
ghost use Rattle.frame_state.specs.Steps.{over, StepsOn, StopsThere, StopsBy, GoesOver, StopsOver, showing};
ghost use Rattle.frame_state.specs.Steps.{KeepsPeak, IsShortAt};
ghost use Rattle.frame_state.specs.Ground.{tree_of, IsNode, IsPart};
ghost use Rattle.frame_state.specs.Frames.{ahead};
ghost use Rattle.frame_state.specs.Over.{GoesBy, tested_ahead};
ghost use Rattle.frame_state.specs.Shown.{IsReplied};
ghost use Rattle.frame_state.specs.Validity.{IsCondition, IsValid};
ghost use Rattle.frame_looks.specs.Conditions.{IsAsserted, IsChoice, IsTest, IsLook, test_kind};

use crate::calls::{in_call, in_call_of};
use crate::looks::go_back;
use frame_state::behind::begin_branches;
use frame_state::callouts::{block_of, show};
use frame_state::framing::{first_set, go_on, leave, open_frame};
use frame_state::machine::{Next, Spot, Stop};
use frame_state::searchable::Searchable;
use frame_store::kinds::{KIND_DENIAL_TEST, KIND_LOOK_TEST};
use frame_store::{Record, Span, Store};
use pat_tree::{Cond, Kids, Node};
use pcre_io::Callouts;

/// Whether one of these groups is set.
fn is_set(groups: &[u16], registers: &[Option<Span>]) -> bool
    requires { All (HasGroup registers.now) groups.now }
    ensures { result ≡ some_set registers.now groups.now }
{
    let first = first_set(groups, registers);
    match first {
        Some(_) => true,
        None => false,
    }
}

/// Where a condition goes on whose test holds, or not.
pub fn choose<S: Searchable>(on: &S, part: u32, holds: bool) -> Next
    requires inside { IsPart (S.searched on.now) part }
    requires condition { IsCondition (S.searched on.now) (tree_of (S.searched on.now) part) }
    ensures { IsChoice (S.searched on.now) part holds result }
{
    match on.node(part) {
        Node::Cond { yes, no, .. } => {
            if holds {
                return Next::Enter(*yes);
            }
            match *no {
                Some(no) => Next::Enter(no),
                None => go_on(on, part),
            }
        }
        _ => unreachable!(),
    }
}

/// The kind of the record of a lookaround that is a test.
fn test_kind(positive: bool) -> u8
    ensures { result ≡ test_kind positive }
{
    if positive {
        KIND_LOOK_TEST
    } else {
        KIND_DENIAL_TEST
    }
}

/// Enters a condition.
pub fn enter_condition<S: Searchable, C: Callouts>(
    on: &S,
    at: u32,
    test: &Cond,
    yes: u32,
    no: Option<u32>,
    spot: &mut Spot,
    store: &mut Store,
    registers: &[Option<Span>],
    calls: &mut C,
) -> Result<Next, Stop>
    requires valid { IsValid (S.searched on.now)
        (over (Next.Enter at) spot.old store.old registers.now) }
    requires node { IsNode (S.searched on.now) at (node.Cond test.now yes no) }
    requires replied { IsReplied (S.searched on.now).setting (C.answers calls.old) }
    ensures on { GoesOver (S.searched on.now) (showing (C.seen calls.old) (C.seen calls.new)
        (over (Next.Enter at) spot.old store.old registers.now))
        spot.new store.new registers.now result }
    ensures stop { StopsOver (S.searched on.now) (showing (C.seen calls.old) (C.seen calls.new)
        (over (Next.Enter at) spot.old store.old registers.now)) spot.new registers.now result }
    ensures rule { (block : Block) → C.answers calls.new block ≡ C.answers calls.old block }
    ensures peak { KeepsPeak (S.searched on.now) store.old store.new }
    ensures no_less { room store.old ≤ room store.new }
    ensures short { IsQuiet C.refuses (C.answers calls.old)
        → IfErr result (λ stop.
        IsShort stop (S.searched on.now).setting.matching.frame_limit store.new) }
{
    match test {
        Cond::AnySet(groups) => {
            let holds = is_set(groups.as_slice(), registers);
            Ok(choose(on, at, holds))
        }
        Cond::Assert(part) => enter_test(on, at, *part, spot, store, registers, calls),
        Cond::InCall => {
            let holds = in_call(store, spot.frame);
            Ok(choose(on, at, holds))
        }
        Cond::InCallOf(groups) => {
            let holds = in_call_of(store, spot.frame, groups.as_slice());
            Ok(choose(on, at, holds))
        }
        // A definition is never run where it stands.
        Cond::Never => Ok(choose(on, at, false)),
    }
}

/// Enters the lookaround that is the test of a condition, or the callout before it.
fn enter_test<S: Searchable, C: Callouts>(
    on: &S,
    at: u32,
    part: u32,
    spot: &mut Spot,
    store: &mut Store,
    registers: &[Option<Span>],
    calls: &mut C,
) -> Result<Next, Stop>
    requires valid { IsValid (S.searched on.now)
        (over (Next.Enter at) spot.old store.old registers.now) }
    requires asserted { IsAsserted (S.searched on.now) at part }
    requires replied { IsReplied (S.searched on.now).setting (C.answers calls.old) }
    ensures on { GoesOver (S.searched on.now) (showing (C.seen calls.old) (C.seen calls.new)
        (over (Next.Enter at) spot.old store.old registers.now))
        spot.new store.new registers.now result }
    ensures stop { StopsOver (S.searched on.now) (showing (C.seen calls.old) (C.seen calls.new)
        (over (Next.Enter at) spot.old store.old registers.now)) spot.new registers.now result }
    ensures rule { (block : Block) → C.answers calls.new block ≡ C.answers calls.old block }
    ensures peak { KeepsPeak (S.searched on.now) store.old store.new }
    ensures no_less { room store.old ≤ room store.new }
    ensures short { IsQuiet C.refuses (C.answers calls.old)
        → IfErr result (λ stop.
        IsShort stop (S.searched on.now).setting.matching.frame_limit store.new) }
{
    match on.node(part) {
        Node::Look {
            ahead,
            positive,
            branches,
            ..
        } => open_test(
            on, at, part, *ahead, *positive, branches, spot, store, registers,
        ),
        Node::Seq(parts) => enter_called(on, at, part, parts, spot, store, registers, calls),
        _ => unreachable!(),
    }
}

/// Enters a test with a callout before its lookaround.
fn enter_called<S: Searchable, C: Callouts>(
    on: &S,
    at: u32,
    part: u32,
    parts: &Kids,
    spot: &mut Spot,
    store: &mut Store,
    registers: &[Option<Span>],
    calls: &mut C,
) -> Result<Next, Stop>
    requires valid { IsValid (S.searched on.now)
        (over (Next.Enter at) spot.old store.old registers.now) }
    requires asserted { IsAsserted (S.searched on.now) at part }
    requires node { IsNode (S.searched on.now) part (node.Seq parts.now) }
    requires replied { IsReplied (S.searched on.now).setting (C.answers calls.old) }
    ensures on { GoesOver (S.searched on.now) (showing (C.seen calls.old) (C.seen calls.new)
        (over (Next.Enter at) spot.old store.old registers.now))
        spot.new store.new registers.now result }
    ensures stop { StopsOver (S.searched on.now) (showing (C.seen calls.old) (C.seen calls.new)
        (over (Next.Enter at) spot.old store.old registers.now)) spot.new registers.now result }
    ensures rule { (block : Block) → C.answers calls.new block ≡ C.answers calls.old block }
    ensures peak { KeepsPeak (S.searched on.now) store.old store.new }
    ensures no_less { room store.old ≤ room store.new }
    ensures short { IsQuiet C.refuses (C.answers calls.old)
        → IfErr result (λ stop.
        IsShort stop (S.searched on.now).setting.matching.frame_limit store.new) }
{
    let parts = parts.as_slice();
    let Node::Callout {
        number,
        text_from,
        text_to,
        item_at,
        item_len,
    } = on.node(parts[0])
    else {
        unreachable!()
    };
    let Node::Look {
        ahead,
        positive,
        branches,
        ..
    } = on.node(parts[1])
    else {
        unreachable!()
    };
    let block = block_of(*number, *text_from, *text_to, *item_at, *item_len, spot);
    match show(&block, calls) {
        Ok(true) => open_test(
            on, at, parts[1], *ahead, *positive, branches, spot, store, registers,
        ),
        Ok(false) => Ok(Next::Back),
        Err(stop) => Err(stop),
    }
}

/// Opens the frame of a condition around the branches of its test.
fn open_test<S: Searchable>(
    on: &S,
    at: u32,
    look: u32,
    forward: bool,
    positive: bool,
    branches: &Kids,
    spot: &mut Spot,
    store: &mut Store,
    registers: &[Option<Span>],
) -> Result<Next, Stop>
    requires valid { IsValid (S.searched on.now)
        (over (Next.Enter at) spot.old store.old registers.now) }
    requires test { IsTest (S.searched on.now) at look }
    requires look { IsLook (S.searched on.now) look forward positive branches.now }
    ensures on { IfOk result (λ next. GoesBy (S.searched on.now) spot.old
        (tested_ahead (S.searched on.now) at look positive branches.now spot.old
        (entries store.old.records) registers.now)
        (over next spot.new store.new registers.now)) }
    ensures stop { StopsBy (S.searched on.now) spot.old
        (tested_ahead (S.searched on.now) at look positive branches.now spot.old
        (entries store.old.records) registers.now) spot.new registers.now result }
    ensures peak { KeepsPeak (S.searched on.now) store.old store.new }
    ensures no_less { room store.old ≤ room store.new }
    ensures short { IsShortAt (S.searched on.now) store.new result }
{
    let kind = test_kind(positive);
    if let Err(stop) = open_frame(on.unit_limit(), kind, at, spot, store) {
        return Err(stop);
    }
    Ok(begin_branches(on, !forward, look, branches, spot))
}

/// Leaves a lookaround that is a test by its first outcome: the test holds, or not where it is negative.
pub fn leave_test<S: Searchable>(
    on: &S,
    holds: bool,
    frame: &Record,
    height: usize,
    spot: &mut Spot,
    store: &mut Store,
    registers: &[Option<Span>],
) -> Result<Next, Stop>
    requires valid { IsValid (S.searched on.now) (over Next.End spot.old store.old registers.now) }
    requires frame { spot.old.frame ≡ height + 1 }
    requires at { slice_get (reverse store.old.records) height ≡ Some frame.now }
    requires kind { frame.now.kind ≡ test_kind holds }
    ensures on { StepsOn (S.searched on.now) (over Next.End spot.old store.old registers.now)
        spot.new store.new registers.now result }
    ensures stop { StopsThere (S.searched on.now) (over Next.End spot.old store.old registers.now)
        spot.new registers.now result }
    ensures peak { KeepsPeak (S.searched on.now) store.old store.new }
    ensures no_less { room store.old ≤ room store.new }
    ensures short { IsShortAt (S.searched on.now) store.new result }
{
    if let Err(stop) = leave(on.unit_limit(), frame, height, spot, store) {
        return Err(stop);
    }
    go_back(spot, frame);
    Ok(choose(on, frame.node, holds))
}
