//! The machine's loop, and the workspace that it runs in.
ghost use Rattle.std.specs.Prelude.{◌≡◌, ◌≤◌, ◌<◌, true, length, replicate, None, [], IfErr, OnOk};
ghost use Rattle.frame_store.specs.Stack.{room};
ghost use Rattle.frame_state.specs.Room.{IsQuiet, IsShort};
ghost use Rattle.pcre_io.specs.declared.callouts.Block.{Block};
ghost use Rattle.frame_state.specs.Steps.{over, KeepsPeak};
ghost use Rattle.frame_state.specs.Frames.{ahead};
ghost use Rattle.frame_state.specs.Validity.{IsValid};
ghost use Rattle.ordered_search.specs.PlaceAnswer.{place_answer};
ghost use Rattle.frame_state.specs.Over.{AdvancesOver, IsEndOver, in_all};
ghost use Rattle.frame_state.specs.Shown.{IsReplied};
ghost use Rattle.frame_state.specs.Stops.{none_met, told, tells};

use crate::accepts::accept;
use crate::back::back;
use crate::ends::finish;
use crate::enter::enter;
use frame_looks::tries::{settle, try_branch};
use frame_parts::items::{fewer, more};
use frame_parts::repeats::{begin, branch, offer};
use frame_state::machine::{Met, Next, Spot, Stop};
use frame_state::searchable::Searchable;
use frame_store::{Span, Store};
use frame_verbs::catches::{act, leave};
use pcre_io::Callouts;

/// One turn of the machine's loop, from what is next to what is next then. `bank` serves where registers are given
/// back.
// What is next is written in place: copied out of an answer it costs a quarter of a search.
#[inline(always)]
fn turn<S: Searchable, C: Callouts>(
    on: &S,
    next: &mut Next,
    spot: &mut Spot,
    store: &mut Store,
    registers: &mut [Option<Span>],
    bank: &mut [Option<Span>],
    calls: &mut C,
) -> Result<(), Stop>
    requires valid { IsValid (S.searched on.now) (over next.old spot.old store.old registers.old) }
    requires replied { IsReplied (S.searched on.now).setting (C.answers calls.old) }
    requires bank { length bank.old ≡ (S.searched on.now).setting.groups }
    ensures bank { length bank.new ≡ length bank.old }
    ensures on { OnOk result (AdvancesOver (S.searched on.now) (C.seen calls.old) (C.seen calls.new)
        (over next.old spot.old store.old registers.old)
        (over next.new spot.new store.new registers.new)) }
    ensures stop { IfErr result (λ stop. IsEndOver (S.searched on.now) stop spot.new registers.new
        (C.seen calls.new) (in_all (C.seen calls.old) (tells (S.searched on.now).setting spot.old
        (ahead (S.searched on.now) (over next.old spot.old store.old registers.old))))) }
    ensures rule { (block : Block) → C.answers calls.new block ≡ C.answers calls.old block }
    ensures peak { KeepsPeak (S.searched on.now) store.old store.new }
    ensures no_less { room store.old ≤ room store.new }
    ensures short { IsQuiet C.refuses (C.answers calls.old)
        → IfErr result (λ stop.
        IsShort stop (S.searched on.now).setting.matching.frame_limit store.new) }
{
    *next = match *next {
        Next::Enter(at) => enter(on, at, spot, store, registers, calls)?,
        Next::Branch(at, index) => branch(on, at, index, spot, store, registers)?,
        Next::Try(at, count) => try_branch(on, at, count, spot, store, registers)?,
        Next::Offer(at, count) => offer(on, at, count, spot, store, registers)?,
        Next::Begin(at, count, exits) => begin(on, at, count, exits, spot, store, registers)?,
        Next::Fewer(at, least, last) => fewer(on, at, least, last, spot, store, registers)?,
        Next::More(at, count, last) => more(on, at, count, last, spot, store, registers)?,
        Next::End => finish(on, spot, store, registers, bank)?,
        Next::Settle => settle(spot, store),
        Next::Back => back(on, spot, store, registers)?,
        Next::Accept => accept(on, spot, store, registers, bank)?,
        Next::Act(acting) => act(on, acting, spot, store, registers)?,
        Next::Leave(at) => leave(on, at, spot, store, registers)?,
    };
    Ok(())
}

/// Searches at a place, from no records and no captures, and says with what the machine stops. `bank` serves
/// where registers are given back.
pub(crate) fn run<S: Searchable, C: Callouts>(
    on: &S,
    place: u64,
    spot: &mut Spot,
    store: &mut Store,
    registers: &mut [Option<Span>],
    bank: &mut [Option<Span>],
    calls: &mut C,
) -> Stop
    requires place { (S.searched on.now).stands place ≡ true }
    requires empty { store.old.records ≡ [] }
    requires unset { registers.old ≡ replicate (S.searched on.now).setting.groups None }
    requires replied { IsReplied (S.searched on.now).setting (C.answers calls.old) }
    requires bank { length bank.old ≡ (S.searched on.now).setting.groups }
    ensures bank { length bank.new ≡ length bank.old }
    ensures stop { IsEndOver (S.searched on.now) result spot.new registers.new (C.seen calls.new)
        (in_all (C.seen calls.old)
        (told none_met (place_answer (S.searched on.now).setting place))) }
    ensures rule { (block : Block) → C.answers calls.new block ≡ C.answers calls.old block }
    ensures peak { KeepsPeak (S.searched on.now) store.old store.new }
    ensures no_less { room store.old ≤ room store.new }
    ensures short { IsQuiet C.refuses (C.answers calls.old)
        → IsShort result (S.searched on.now).setting.matching.frame_limit store.new }
{
    *spot = Spot {
        place,
        keep: place,
        early: place,
        units: 0,
        mark: 0,
        passed: 0,
        frame: 0,
        left: on.step_limit(),
        last: Met {
            name: 0,
            hit: false,
        },
    };
    let mut next = Next::Enter(on.root());
    'turns: loop {
        if let Err(stop) = turn(on, &mut next, spot, store, registers, bank, calls) {
            return stop;
        }
    }
}
