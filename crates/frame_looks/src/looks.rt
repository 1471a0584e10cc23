//! Lookarounds (pcre2pattern, "Assertions").
ghost use Rattle.std.specs.Prelude.{◌≡◌, ◌≤◌, ◌+◌, Some, reverse, slice_get};
ghost use Rattle.pat_tree.specs.declared.nodes.Node.TheVariants as node;
ghost use Rattle.frame_store.specs.Stack.{room};
ghost use Rattle.frame_state.specs.Steps.{over, StepsOn, StopsThere, KeepsPeak, IsShortAt};
ghost use Rattle.frame_state.specs.Ground.{IsNode};
ghost use Rattle.frame_state.specs.Validity.{IsValid};
ghost use Rattle.frame_looks.specs.Looks.{look_kind};

use frame_state::behind::begin_branches;
use frame_state::framing::{go_on, leave, open_frame};
use frame_state::machine::{Next, Spot, Stop};
use frame_state::searchable::Searchable;
use frame_store::kinds::{KIND_DENIAL_OPEN, KIND_LOOK_ALL_OPEN, KIND_LOOK_OPEN};
use frame_store::{Record, Span, Store};
use pat_tree::Kids;

/// The kind of a lookaround's record.
fn look_kind(positive: bool, once: bool) -> u8
    ensures { result ≡ look_kind positive once }
{
    if !positive {
        return KIND_DENIAL_OPEN;
    }
    if once {
        KIND_LOOK_OPEN
    } else {
        KIND_LOOK_ALL_OPEN
    }
}

/// Enters a lookaround.
pub fn enter_look<S: Searchable>(
    on: &S,
    at: u32,
    forward: bool,
    positive: bool,
    once: bool,
    branches: &Kids,
    spot: &mut Spot,
    store: &mut Store,
    registers: &[Option<Span>],
) -> Result<Next, Stop>
    requires valid { IsValid (S.searched on.now)
        (over (Next.Enter at) spot.old store.old registers.now) }
    requires node { IsNode (S.searched on.now) at (node.Look forward positive once branches.now) }
    ensures on { StepsOn (S.searched on.now) (over (Next.Enter at) spot.old store.old registers.now)
        spot.new store.new registers.now result }
    ensures stop { StopsThere (S.searched on.now)
        (over (Next.Enter at) spot.old store.old registers.now) spot.new registers.now result }
    ensures peak { KeepsPeak (S.searched on.now) store.old store.new }
    ensures no_less { room store.old ≤ room store.new }
    ensures short { IsShortAt (S.searched on.now) store.new result }
{
    let kind = look_kind(positive, once);
    if let Err(stop) = open_frame(on.unit_limit(), kind, at, spot, store) {
        return Err(stop);
    }
    Ok(begin_branches(on, !forward, at, branches, spot))
}

/// Goes back to the place of a lookaround, and to the match's start as it was there.
pub(crate) fn go_back(spot: &mut Spot, frame: &Record)
    ensures { spot.new ≡ record spot.old { place = frame.now.place; keep = frame.now.keep } }
{
    spot.place = frame.place;
    spot.keep = frame.keep;
}

/// Leaves a positive lookaround by its first outcome.
pub fn leave_look<S: Searchable>(
    on: &S,
    frame: &Record,
    height: usize,
    spot: &mut Spot,
    store: &mut Store,
    registers: &[Option<Span>],
) -> Result<Next, Stop>
    requires valid { IsValid (S.searched on.now) (over Next.End spot.old store.old registers.now) }
    requires frame { spot.old.frame ≡ height + 1 }
    requires at { slice_get (reverse store.old.records) height ≡ Some frame.now }
    requires kind { frame.now.kind ≡ KIND_LOOK_OPEN }
    ensures on { StepsOn (S.searched on.now) (over Next.End spot.old store.old registers.now)
        spot.new store.new registers.now result }
    ensures stop { StopsThere (S.searched on.now) (over Next.End spot.old store.old registers.now)
        spot.new registers.now result }
    ensures peak { KeepsPeak (S.searched on.now) store.old store.new }
    ensures no_less { room store.old ≤ room store.new }
    ensures short { IsShortAt (S.searched on.now) store.new result }
{
    if let Err(stop) = leave(on.unit_limit(), frame, height, spot, store) {
        return Err(stop);
    }
    go_back(spot, frame);
    Ok(go_on(on, frame.node))
}

/// Goes on after a positive lookaround all of whose outcomes are kept.
pub fn pass_look<S: Searchable>(
    on: &S,
    frame: &Record,
    height: usize,
    spot: &mut Spot,
    store: &mut Store,
    registers: &[Option<Span>],
) -> Result<Next, Stop>
    requires valid { IsValid (S.searched on.now) (over Next.End spot.old store.old registers.now) }
    requires frame { spot.old.frame ≡ height + 1 }
    requires at { slice_get (reverse store.old.records) height ≡ Some frame.now }
    requires kind { frame.now.kind ≡ KIND_LOOK_ALL_OPEN }
    ensures on { StepsOn (S.searched on.now) (over Next.End spot.old store.old registers.now)
        spot.new store.new registers.now result }
    ensures stop { StopsThere (S.searched on.now) (over Next.End spot.old store.old registers.now)
        spot.new registers.now result }
    ensures peak { KeepsPeak (S.searched on.now) store.old store.new }
    ensures no_less { room store.old ≤ room store.new }
    ensures short { IsShortAt (S.searched on.now) store.new result }
{
    go_back(spot, frame);
    spot.frame = frame.link;
    Ok(go_on(on, frame.node))
}

/// Fails where a negative lookaround has an outcome.
pub fn deny<S: Searchable>(
    on: &S,
    frame: &Record,
    height: usize,
    spot: &mut Spot,
    store: &mut Store,
    registers: &mut [Option<Span>],
) -> Result<Next, Stop>
    requires valid { IsValid (S.searched on.now) (over Next.End spot.old store.old registers.old) }
    requires frame { spot.old.frame ≡ height + 1 }
    requires at { slice_get (reverse store.old.records) height ≡ Some frame.now }
    requires kind { frame.now.kind ≡ KIND_DENIAL_OPEN }
    ensures on { StepsOn (S.searched on.now) (over Next.End spot.old store.old registers.old)
        spot.new store.new registers.new result }
    ensures stop { StopsThere (S.searched on.now) (over Next.End spot.old store.old registers.old)
        spot.new registers.new result }
    ensures peak { KeepsPeak (S.searched on.now) store.old store.new }
    ensures no_less { room store.old ≤ room store.new }
    ensures short { IsShortAt (S.searched on.now) store.new result }
{
    store.undo_spans(height, registers);
    Ok(Next::Back)
}
