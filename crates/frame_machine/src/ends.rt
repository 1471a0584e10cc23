//! Where a frame or the pattern ends.
ghost use Rattle.std.specs.Prelude.{◌≡◌, ◌≤◌, ◌<◌, ◌+◌, max, length, IfErr, Some, [], ◌∷◌, reverse, slice_get, ◌⊎◌};
ghost use Rattle.frame_store.specs.Stack.{room};
ghost use Rattle.frame_state.specs.Room.{IsSteady};
ghost use Rattle.frame_state.specs.Steps.{over, StepsOn, StopsThere, KeepsPeak, IsShortAt};
ghost use Rattle.frame_state.specs.Ground.{tree_of, IsPart};
ghost use Rattle.frame_state.specs.Validity.{IsValid, IsCapture};
ghost use Rattle.frame_state.specs.Stops.{IsNumber, took_nothing, refused_as_empty, refused_by_end, admitted};

use crate::captures::close_frame;
use crate::returns::{close_called, leave_call};
use frame_looks::conds::leave_test;
use frame_looks::looks::{deny, leave_look, pass_look};
use frame_parts::atomic::leave_atomic;
use frame_parts::repeats::turns_of;
use frame_state::framing::go_on;
use frame_state::machine::{Next, Spot, Stop};
use frame_state::searchable::Searchable;
use frame_store::kinds::{
    KIND_ATOMIC_OPEN, KIND_CALL_OPEN, KIND_CALLED_GROUP, KIND_DENIAL_OPEN, KIND_DENIAL_TEST,
    KIND_GROUP_OPEN, KIND_LOOK_ALL_OPEN, KIND_LOOK_OPEN, KIND_LOOK_TEST, KIND_TURN_OPEN,
    KIND_TURN_OR_EXIT,
};
use frame_store::{Record, Span, Store};
use pat_tree::Node;

/// Whether an outcome is refused since its text is empty.
pub(crate) fn is_refused_as_empty<S: Searchable>(on: &S, keep: u64, place: u64) -> bool
    ensures { result ≡ refused_as_empty (S.searched on.now).setting keep place }
{
    let options = on.options();
    let matching = on.matching();
    let never_empty = options.notempty || matching.notempty;
    let not_at_start = options.notempty_atstart || matching.notempty_atstart;
    keep == place && (never_empty || not_at_start && keep == on.start())
}

/// Whether an outcome is refused since it doesn't end with the subject.
pub(crate) fn is_refused_by_end<S: Searchable>(on: &S, place: u64) -> bool
    ensures { result ≡ refused_by_end (S.searched on.now).setting place }
{
    (on.options().endanchored || on.matching().endanchored) && place != on.length()
}

/// Whether an outcome is admitted that reaches from one place to another.
fn is_admitted<S: Searchable>(on: &S, keep: u64, place: u64) -> bool
    ensures { result ≡ admitted (S.searched on.now).setting keep place }
{
    !is_refused_as_empty(on, keep, place) && !is_refused_by_end(on, place)
}

/// Whether a turn took nothing after which only the exit follows.
fn is_over(min: u32, max: Option<u32>, count: u32, from: u64, to: u64) -> bool
    ensures { result ≡ took_nothing min max count from to }
{
    match max {
        None => min.saturating_sub(count) <= 1 && from == to,
        Some(_) => false,
    }
}

/// The number of the capturing group that a part is.
pub(crate) fn number_of<S: Searchable>(on: &S, part: u32) -> u16
    requires inside { IsPart (S.searched on.now) part }
    requires capture { IsCapture (S.searched on.now) (tree_of (S.searched on.now) part) }
    ensures is { IsNumber (tree_of (S.searched on.now) part) result }
    ensures some { 0 < result }
    ensures few { result ≤ (S.searched on.now).setting.groups }
{
    match on.node(part) {
        Node::Group {
            number: Some(number),
            ..
        } => *number,
        _ => unreachable!(),
    }
}

/// Writes a capture where its group has ended.
fn close<S: Searchable>(
    on: &S,
    frame: &Record,
    height: usize,
    spot: &mut Spot,
    store: &mut Store,
    registers: &mut [Option<Span>],
) -> Result<Next, Stop>
    requires valid { IsValid (S.searched on.now) (over Next.End spot.old store.old registers.old) }
    requires frame { spot.old.frame ≡ height + 1 }
    requires at { slice_get (reverse store.old.records) height ≡ Some frame.now }
    requires kind { frame.now.kind ≡ KIND_GROUP_OPEN }
    ensures on { StepsOn (S.searched on.now) (over Next.End spot.old store.old registers.old)
        spot.new store.new registers.new result }
    ensures stop { StopsThere (S.searched on.now) (over Next.End spot.old store.old registers.old)
        spot.new registers.new result }
    ensures peak { KeepsPeak (S.searched on.now) store.old store.new }
    ensures no_less { room store.old ≤ room store.new }
    ensures short { IsShortAt (S.searched on.now) store.new result }
{
    let number = number_of(on, frame.node);
    if let Err(stop) = close_frame(on.unit_limit(), frame, number, spot, store, registers) {
        return Err(stop);
    }
    Ok(go_on(on, frame.node))
}

/// Goes on where a turn of a repeat has ended.
fn turned<S: Searchable>(
    on: &S,
    frame: &Record,
    height: usize,
    spot: &mut Spot,
    store: &mut Store,
    registers: &[Option<Span>],
) -> Result<Next, Stop>
    requires valid { IsValid (S.searched on.now) (over Next.End spot.old store.old registers.now) }
    requires frame { spot.old.frame ≡ height + 1 }
    requires at { slice_get (reverse store.old.records) height ≡ Some frame.now }
    requires kind { (frame.now.kind ≡ KIND_TURN_OPEN) ⊎ (frame.now.kind ≡ KIND_TURN_OR_EXIT) }
    ensures on { StepsOn (S.searched on.now) (over Next.End spot.old store.old registers.now)
        spot.new store.new registers.now result }
    ensures stop { StopsThere (S.searched on.now) (over Next.End spot.old store.old registers.now)
        spot.new registers.now result }
    ensures peak { KeepsPeak (S.searched on.now) store.old store.new }
    ensures no_less { room store.old ≤ room store.new }
    ensures short { IsShortAt (S.searched on.now) store.new result }
{
    let turns = turns_of(on, frame.node);
    spot.frame = frame.link;
    if is_over(turns.min, turns.max, frame.count, frame.place, spot.place) {
        return Ok(go_on(on, frame.node));
    }
    Ok(Next::Offer(frame.node, frame.count + 1))
}

/// Ends the pattern, where its outcome is admitted.
fn end_pattern<S: Searchable>(
    on: &S,
    spot: &Spot,
    store: &Store,
    registers: &[Option<Span>],
) -> Result<Next, Stop>
    requires valid { IsValid (S.searched on.now) (over Next.End spot.now store.now registers.now) }
    requires whole { spot.now.frame ≡ 0 }
    ensures on { StepsOn (S.searched on.now) (over Next.End spot.now store.now registers.now)
        spot.now store.now registers.now result }
    ensures stop { StopsThere (S.searched on.now) (over Next.End spot.now store.now registers.now)
        spot.now registers.now result }
    ensures steady { IfErr result IsSteady }
{
    if is_admitted(on, spot.keep, spot.place) {
        return Err(Stop::Match);
    }
    Ok(Next::Back)
}

/// Goes on where the innermost frame, or the pattern, has ended.
pub(crate) fn finish<S: Searchable>(
    on: &S,
    spot: &mut Spot,
    store: &mut Store,
    registers: &mut [Option<Span>],
    bank: &mut [Option<Span>],
) -> Result<Next, Stop>
    requires valid { IsValid (S.searched on.now) (over Next.End spot.old store.old registers.old) }
    requires bank { length bank.old ≡ (S.searched on.now).setting.groups }
    ensures bank { length bank.new ≡ length bank.old }
    ensures on { StepsOn (S.searched on.now) (over Next.End spot.old store.old registers.old)
        spot.new store.new registers.new result }
    ensures stop { StopsThere (S.searched on.now) (over Next.End spot.old store.old registers.old)
        spot.new registers.new result }
    ensures peak { KeepsPeak (S.searched on.now) store.old store.new }
    ensures no_less { room store.old ≤ room store.new }
    ensures short { IsShortAt (S.searched on.now) store.new result }
{
    if spot.frame == 0 {
        return end_pattern(on, spot, store, registers);
    }
    let height = spot.frame as usize - 1;
    let frame = *store.get(height);
    if frame.kind == KIND_GROUP_OPEN {
        return close(on, &frame, height, spot, store, registers);
    }
    if frame.kind == KIND_TURN_OPEN {
        return turned(on, &frame, height, spot, store, registers);
    }
    if frame.kind == KIND_TURN_OR_EXIT {
        return turned(on, &frame, height, spot, store, registers);
    }
    if frame.kind == KIND_ATOMIC_OPEN {
        return leave_atomic(on, &frame, height, spot, store, registers);
    }
    if frame.kind == KIND_LOOK_OPEN {
        return leave_look(on, &frame, height, spot, store, registers);
    }
    if frame.kind == KIND_LOOK_ALL_OPEN {
        return pass_look(on, &frame, height, spot, store, registers);
    }
    if frame.kind == KIND_DENIAL_OPEN {
        return deny(on, &frame, height, spot, store, registers);
    }
    if frame.kind == KIND_LOOK_TEST {
        return leave_test(on, true, &frame, height, spot, store, registers);
    }
    if frame.kind == KIND_DENIAL_TEST {
        return leave_test(on, false, &frame, height, spot, store, registers);
    }
    if frame.kind == KIND_CALLED_GROUP {
        return close_called(on, &frame, height, spot, store, registers);
    }
    if frame.kind == KIND_CALL_OPEN {
        return leave_call(on, &frame, height, spot, store, registers, bank);
    }
    Ok(Next::Back)
}
