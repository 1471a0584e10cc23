//! Where ACCEPT has ended a frame or the pattern (pcre2pattern, "Verbs that act immediately").
ghost use Rattle.std.specs.Prelude.{◌≡◌, ◌≤◌, ◌+◌, length, IfErr, Some, reverse, slice_get, ◌⊎◌};
ghost use Rattle.frame_store.specs.Stack.{room};
ghost use Rattle.frame_state.specs.Room.{IsSteady};
ghost use Rattle.frame_state.specs.Steps.{over, StepsOn, StopsThere, KeepsPeak, IsShortAt};
ghost use Rattle.frame_state.specs.Validity.{IsValid};

use crate::captures::close_frame;
use crate::ends::{finish, is_refused_as_empty, is_refused_by_end, number_of};
use frame_state::framing::leave;
use frame_state::machine::{Next, Spot, Stop};
use frame_state::searchable::Searchable;
use frame_store::kinds::{
    KIND_ATOMIC_OPEN, KIND_CALLED_GROUP, KIND_GROUP_OPEN, KIND_TURN_OPEN, KIND_TURN_OR_EXIT,
};
use frame_store::{Record, Span, Store};

/// Ends the pattern. Where the outcome is refused for its end alone, its start place has failed.
fn accept_pattern<S: Searchable>(
    on: &S,
    spot: &Spot,
    store: &Store,
    registers: &[Option<Span>],
) -> Result<Next, Stop>
    requires valid { IsValid (S.searched on.now)
        (over Next.Accept spot.now store.now registers.now) }
    requires whole { spot.now.frame ≡ 0 }
    ensures on { StepsOn (S.searched on.now) (over Next.Accept spot.now store.now registers.now)
        spot.now store.now registers.now result }
    ensures stop { StopsThere (S.searched on.now)
        (over Next.Accept spot.now store.now registers.now) spot.now registers.now result }
    ensures steady { IfErr result IsSteady }
{
    if is_refused_as_empty(on, spot.keep, spot.place) {
        return Ok(Next::Back);
    }
    if is_refused_by_end(on, spot.place) {
        return Err(Stop::NoMatch);
    }
    Err(Stop::Match)
}

/// Writes the capture of a group, and leaves the group, be it called or not.
fn accept_group<S: Searchable>(
    on: &S,
    frame: &Record,
    height: usize,
    spot: &mut Spot,
    store: &mut Store,
    registers: &mut [Option<Span>],
) -> Result<Next, Stop>
    requires valid { IsValid (S.searched on.now)
        (over Next.Accept spot.old store.old registers.old) }
    requires frame { spot.old.frame ≡ height + 1 }
    requires at { slice_get (reverse store.old.records) height ≡ Some frame.now }
    requires kind { (frame.now.kind ≡ KIND_GROUP_OPEN) ⊎ (frame.now.kind ≡ KIND_CALLED_GROUP) }
    ensures on { StepsOn (S.searched on.now) (over Next.Accept spot.old store.old registers.old)
        spot.new store.new registers.new result }
    ensures stop { StopsThere (S.searched on.now)
        (over Next.Accept spot.old store.old registers.old) spot.new registers.new result }
    ensures peak { KeepsPeak (S.searched on.now) store.old store.new }
    ensures no_less { room store.old ≤ room store.new }
    ensures short { IsShortAt (S.searched on.now) store.new result }
{
    let number = number_of(on, frame.node);
    if let Err(stop) = close_frame(on.unit_limit(), frame, number, spot, store, registers) {
        return Err(stop);
    }
    Ok(Next::Accept)
}

/// Leaves a turn of a repeat.
fn accept_turn<S: Searchable>(
    on: &S,
    frame: &Record,
    height: usize,
    spot: &mut Spot,
    store: &Store,
    registers: &[Option<Span>],
) -> Result<Next, Stop>
    requires valid { IsValid (S.searched on.now)
        (over Next.Accept spot.old store.now registers.now) }
    requires frame { spot.old.frame ≡ height + 1 }
    requires at { slice_get (reverse store.now.records) height ≡ Some frame.now }
    requires kind { (frame.now.kind ≡ KIND_TURN_OPEN) ⊎ (frame.now.kind ≡ KIND_TURN_OR_EXIT) }
    ensures on { StepsOn (S.searched on.now) (over Next.Accept spot.old store.now registers.now)
        spot.new store.now registers.now result }
    ensures stop { StopsThere (S.searched on.now)
        (over Next.Accept spot.old store.now registers.now) spot.new registers.now result }
    ensures steady { IfErr result IsSteady }
{
    spot.frame = frame.link;
    Ok(Next::Accept)
}

/// Leaves an atomic group by its first outcome.
fn accept_atomic<S: Searchable>(
    on: &S,
    frame: &Record,
    height: usize,
    spot: &mut Spot,
    store: &mut Store,
    registers: &[Option<Span>],
) -> Result<Next, Stop>
    requires valid { IsValid (S.searched on.now)
        (over Next.Accept spot.old store.old registers.now) }
    requires frame { spot.old.frame ≡ height + 1 }
    requires at { slice_get (reverse store.old.records) height ≡ Some frame.now }
    requires kind { frame.now.kind ≡ KIND_ATOMIC_OPEN }
    ensures on { StepsOn (S.searched on.now) (over Next.Accept spot.old store.old registers.now)
        spot.new store.new registers.now result }
    ensures stop { StopsThere (S.searched on.now)
        (over Next.Accept spot.old store.old registers.now) spot.new registers.now result }
    ensures peak { KeepsPeak (S.searched on.now) store.old store.new }
    ensures no_less { room store.old ≤ room store.new }
    ensures short { IsShortAt (S.searched on.now) store.new result }
{
    if let Err(stop) = leave(on.unit_limit(), frame, height, spot, store) {
        return Err(stop);
    }
    Ok(Next::Accept)
}

/// Ends the innermost frame, or the pattern. It goes on to the frame around a group, a turn and an atomic group. A
/// lookaround, a test and a call end as they do without it.
pub(crate) fn accept<S: Searchable>(
    on: &S,
    spot: &mut Spot,
    store: &mut Store,
    registers: &mut [Option<Span>],
    bank: &mut [Option<Span>],
) -> Result<Next, Stop>
    requires valid { IsValid (S.searched on.now)
        (over Next.Accept spot.old store.old registers.old) }
    requires bank { length bank.old ≡ (S.searched on.now).setting.groups }
    ensures bank { length bank.new ≡ length bank.old }
    ensures on { StepsOn (S.searched on.now) (over Next.Accept spot.old store.old registers.old)
        spot.new store.new registers.new result }
    ensures stop { StopsThere (S.searched on.now)
        (over Next.Accept spot.old store.old registers.old) spot.new registers.new result }
    ensures peak { KeepsPeak (S.searched on.now) store.old store.new }
    ensures no_less { room store.old ≤ room store.new }
    ensures short { IsShortAt (S.searched on.now) store.new result }
{
    if spot.frame == 0 {
        return accept_pattern(on, spot, store, registers);
    }
    let height = spot.frame as usize - 1;
    let frame = *store.get(height);
    if frame.kind == KIND_GROUP_OPEN {
        return accept_group(on, &frame, height, spot, store, registers);
    }
    if frame.kind == KIND_CALLED_GROUP {
        return accept_group(on, &frame, height, spot, store, registers);
    }
    if frame.kind == KIND_TURN_OPEN {
        return accept_turn(on, &frame, height, spot, store, registers);
    }
    if frame.kind == KIND_TURN_OR_EXIT {
        return accept_turn(on, &frame, height, spot, store, registers);
    }
    if frame.kind == KIND_ATOMIC_OPEN {
        return accept_atomic(on, &frame, height, spot, store, registers);
    }
    finish(on, spot, store, registers, bank)
}
