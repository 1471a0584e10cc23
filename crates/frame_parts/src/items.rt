//! Repeats of one item.
ghost use Rattle.std.specs.Prelude.{◌≡◌, ◌≤◌, ◌<◌, max, All, IfOk, IfErr, Some, true, []};
ghost use Rattle.frame_store.specs.Stack.{room};
ghost use Rattle.pat_tree.specs.Rules.{class_in, AtMost};
ghost use Rattle.frame_state.specs.Reach.{IsLed, IsHardStop, many_reaches};
ghost use Rattle.frame_state.specs.Steps.{over, StepsOn, StopsThere, KeepsPeak, IsShortAt};
ghost use Rattle.frame_state.specs.Ground.{tree_of, IsPart};
ghost use Rattle.frame_state.specs.Machine.{less};
ghost use Rattle.frame_state.specs.Validity.{IsValid, IsMany};
ghost use Rattle.frame_state.specs.Stops.{IsMost, many_next};

use crate::passing::{pass_fewer, pass_more};
use crate::repeats::{is_last, widen};
use frame_state::framing::go_on;
use frame_state::machine::{Next, Spot, Stop, hold};
use frame_state::reach::reach;
use frame_state::searchable::Searchable;
use frame_store::kinds::{KIND_FEWER_ITEMS, KIND_MORE_ITEMS};
use frame_store::{Span, Store};
use pat_tree::{Item, Node};

/// A maximum after so many.
pub(crate) fn less(max: Option<u32>, count: u32) -> Option<u32>
    ensures { result ≡ less count max }
{
    match max {
        None => None,
        Some(max) => Some(max.saturating_sub(count)),
    }
}

/// Where a repeat of one item leads.
#[derive(Clone, Copy)]
struct Led {
    next: Next,
    /// Whether a test on the way reached the subject's end.
    at_end: bool,
}

/// Where a repeat of one item leads: to its longest run, or where it is lazy to its shortest.
fn many<S: Searchable>(
    on: &S,
    at: u32,
    item: &Item,
    min: u16,
    max: Option<u16>,
    lazy: bool,
    place: u64,
) -> Led
    requires place { (S.searched on.now).stands place ≡ true }
    requires class { All (λ n. n < (S.searched on.now).class_count) (class_in item.now) }
    requires ordered { AtMost min max }
    ensures next { result.next ≡ many_next (S.searched on.now) at item.now min max lazy place }
    ensures at_end { result.at_end
        ≡ many_reaches (S.searched on.now) item.now min max lazy place }
{
    let (min, max) = (u32::from(min), widen(max));
    let first = on.run(item, place, Some(min));
    if first.count < min {
        return Led {
            next: Next::Back,
            at_end: first.at_end,
        };
    }
    if lazy {
        return Led {
            next: Next::More(at, min, first.to),
            at_end: first.at_end,
        };
    }
    let rest = on.run(item, first.to, less(max, min));
    Led {
        next: Next::Fewer(at, first.to, rest.to),
        at_end: first.at_end || rest.at_end,
    }
}

/// Runs a repeat of one item.
pub fn enter_many<S: Searchable>(
    on: &S,
    at: u32,
    item: &Item,
    min: u16,
    max: Option<u16>,
    lazy: bool,
    spot: &mut Spot,
) -> Result<Next, Stop>
    requires place { (S.searched on.now).stands spot.old.place ≡ true }
    requires class { All (λ n. n < (S.searched on.now).class_count) (class_in item.now) }
    requires ordered { AtMost min max }
    ensures on { IfOk result (λ next. IsLed (S.searched on.now)
        (many_reaches (S.searched on.now) item.now min max lazy spot.old.place)
        (many_next (S.searched on.now) at item.now min max lazy spot.old.place)
        spot.old next spot.new) }
    ensures stop { IfErr result (λ stop. IsHardStop (S.searched on.now)
        (many_reaches (S.searched on.now) item.now min max lazy spot.old.place)
        spot.old.early spot.old.last spot.new.last stop) }
{
    let led = many(on, at, item, min, max, lazy, spot.place);
    if let Err(stop) = reach(on, led.at_end, spot.early, &mut spot.last) {
        return Err(stop);
    }
    Ok(led.next)
}

/// The most that a repeat of one item takes.
pub(crate) fn most_of<S: Searchable>(on: &S, part: u32) -> Option<u32>
    requires inside { IsPart (S.searched on.now) part }
    requires many { IsMany (S.searched on.now) (tree_of (S.searched on.now) part) }
    ensures { IsMost (tree_of (S.searched on.now) part) result }
{
    match on.node(part) {
        Node::OneRepeat { max, .. } => widen(*max),
        _ => unreachable!(),
    }
}

/// Goes on after the run of a greedy repeat that ends at a place, and leaves the shorter ones.
pub fn fewer<S: Searchable>(
    on: &S,
    at: u32,
    least: u64,
    last: u64,
    spot: &mut Spot,
    store: &mut Store,
    registers: &[Option<Span>],
) -> Result<Next, Stop>
    requires valid { IsValid (S.searched on.now)
        (over (Next.Fewer at least last) spot.old store.old registers.now) }
    ensures on { StepsOn (S.searched on.now)
        (over (Next.Fewer at least last) spot.old store.old registers.now)
        spot.new store.new registers.now result }
    ensures stop { StopsThere (S.searched on.now)
        (over (Next.Fewer at least last) spot.old store.old registers.now)
        spot.new registers.now result }
    ensures peak { KeepsPeak (S.searched on.now) store.old store.new }
    ensures no_less { room store.old ≤ room store.new }
    ensures short { IsShortAt (S.searched on.now) store.new result }
{
    let last = pass_fewer(on, at, least, last, spot, store, registers);
    if spot.left == 0 {
        return Err(Stop::MatchLimit);
    }
    if last <= least {
        spot.left -= 1;
        spot.place = last;
        return Ok(go_on(on, at));
    }
    let record = spot.record(KIND_FEWER_ITEMS, at, 0, least, last);
    if let Err(stop) = hold(on.unit_limit(), record, spot, store) {
        return Err(stop);
    }
    spot.left -= 1;
    spot.place = last;
    Ok(go_on(on, at))
}

/// Goes on after so many items of a lazy repeat, and leaves the longer runs.
pub fn more<S: Searchable>(
    on: &S,
    at: u32,
    count: u32,
    last: u64,
    spot: &mut Spot,
    store: &mut Store,
    registers: &[Option<Span>],
) -> Result<Next, Stop>
    requires valid { IsValid (S.searched on.now)
        (over (Next.More at count last) spot.old store.old registers.now) }
    ensures on { StepsOn (S.searched on.now)
        (over (Next.More at count last) spot.old store.old registers.now)
        spot.new store.new registers.now result }
    ensures stop { StopsThere (S.searched on.now)
        (over (Next.More at count last) spot.old store.old registers.now)
        spot.new registers.now result }
    ensures peak { KeepsPeak (S.searched on.now) store.old store.new }
    ensures no_less { room store.old ≤ room store.new }
    ensures short { IsShortAt (S.searched on.now) store.new result }
{
    let run = pass_more(on, at, count, last, spot, store, registers);
    let most = most_of(on, at);
    if spot.left == 0 {
        return Err(Stop::MatchLimit);
    }
    if is_last(most, run.count) {
        spot.left -= 1;
        spot.place = run.to;
        return Ok(go_on(on, at));
    }
    let record = spot.record(KIND_MORE_ITEMS, at, run.count, 0, run.to);
    if let Err(stop) = hold(on.unit_limit(), record, spot, store) {
        return Err(stop);
    }
    spot.left -= 1;
    spot.place = run.to;
    Ok(go_on(on, at))
}
