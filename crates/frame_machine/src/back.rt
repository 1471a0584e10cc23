//! Back to the newest record.
ghost use Rattle.std.specs.Prelude.{◌≡◌, ◌≤◌, ◌<◌, ◌+◌, All, IfOk, IfErr, MatchOption, Some, true, [], ◌∷◌};
ghost use Rattle.match_items.specs.Items.{place_before};
ghost use Rattle.frame_store.specs.Stack.{room};
ghost use Rattle.frame_store.specs.Entry.{entries, entry_of};
ghost use Rattle.frame_store.specs.Undo.{taken_back, HasSlot};
ghost use Rattle.frame_state.specs.Reach.{IsFurtherTaken, IsFurtherStop};
ghost use Rattle.frame_state.specs.Steps.{over, StepsOn, StopsThere, KeepsPeak, IsShortAt};
ghost use Rattle.frame_state.specs.Ground.{tree_of, IsPart};
ghost use Rattle.frame_state.specs.Validity.{IsValid, IsMany};
ghost use Rattle.frame_state.specs.Stops.{more_next};
ghost use Rattle.frame_machine.specs.Back.{IsNewest, IsOther, LeadsBack};

use frame_looks::conds::choose;
use frame_state::framing::go_on;
use frame_state::machine::{Acting, Next, Spot, Stop};
use frame_state::reach::reach;
use frame_state::searchable::Searchable;
use frame_store::kinds::{
    KIND_ATOMIC_LEFT, KIND_COMMIT_PASSED, KIND_DENIAL_OPEN, KIND_DENIAL_TEST, KIND_FEWER_ITEMS,
    KIND_LATER_BRANCH, KIND_LATER_TRY, KIND_LATER_TURN, KIND_LOOK_TEST, KIND_MORE_ITEMS,
    KIND_PRUNE_PASSED, KIND_SKIP_PASSED, KIND_THEN_PASSED, KIND_TURN_OR_EXIT,
};
use frame_store::{Record, Span, Store};
use pat_tree::Node;

/// Takes the newest record off, and takes back what it wrote.
fn pop(store: &mut Store, registers: &mut [Option<Span>]) -> Option<Record>
    requires { All (HasSlot registers.old) (entries store.old.records) }
    ensures popped { MatchOption result (store.old.records ≡ [])
        (λ r. store.old.records ≡ r ∷ store.new.records) }
    ensures back { MatchOption result (registers.new ≡ registers.old)
        (λ r. registers.new ≡ taken_back (entry_of r) registers.old) }
    ensures peak { store.new.peak ≡ store.old.peak }
    ensures room { room store.new ≡ room store.old }
{
    let newest = match store.top() {
        None => return None,
        Some(newest) => *newest,
    };
    let height = store.len() - 1;
    store.undo_spans(height, registers);
    Some(newest)
}

/// Where a greedy repeat of one item leads that gives a character back.
fn fewer_before<S: Searchable>(on: &S, kept: &Record) -> Next
    requires { (S.searched on.now).stands kept.now.to ≡ true }
    ensures { result ≡ Next.Fewer kept.now.node kept.now.from
        (place_before (S.searched on.now).setting.scene kept.now.to) }
{
    let last = on.before(kept.to);
    Next::Fewer(kept.node, kept.from, last)
}

/// Where a lazy repeat of one item leads that takes a further item, if it does.
fn more_or_back(kept: &Record, further: Option<u64>) -> Next
    requires { kept.now.count < 4294967295 }
    ensures { result ≡ more_next kept.now further }
{
    match further {
        None => Next::Back,
        Some(to) => Next::More(kept.node, kept.count + 1, to),
    }
}

/// Goes on after a further item of a lazy repeat, if it takes one.
fn take_more<S: Searchable>(on: &S, kept: &Record, spot: &mut Spot) -> Result<Next, Stop>
    requires inside { IsPart (S.searched on.now) kept.now.node }
    requires many { IsMany (S.searched on.now) (tree_of (S.searched on.now) kept.now.node) }
    requires place { (S.searched on.now).stands kept.now.to ≡ true }
    requires count { kept.now.count < 4294967295 }
    ensures on { IfOk result
        (λ next. IsFurtherTaken (S.searched on.now) kept.now spot.old next spot.new) }
    ensures stop { IfErr result (λ stop. IsFurtherStop (S.searched on.now) kept.now
        spot.old spot.new.last stop) }
{
    let Node::OneRepeat { item, .. } = on.node(kept.node) else {
        unreachable!();
    };
    let reached = on.item_reaches(item, kept.to);
    if let Err(stop) = reach(on, reached, spot.early, &mut spot.last) {
        return Err(stop);
    }
    Ok(more_or_back(kept, on.take(item, kept.to)))
}

/// Goes back to the record of a lookaround or a verb. One of another kind leaves nothing to try.
fn look_or_verb<S: Searchable>(on: &S, kept: &Record, spot: &mut Spot) -> Next
    requires newest { IsNewest (S.searched on.now) spot.old kept.now }
    requires other { IsOther kept.now.kind }
    ensures { LeadsBack (S.searched on.now) kept.now spot.old result spot.new }
{
    if kept.kind == KIND_DENIAL_OPEN {
        spot.restore(kept);
        return go_on(on, kept.node);
    }
    if kept.kind == KIND_LOOK_TEST {
        spot.restore(kept);
        return choose(on, kept.node, false);
    }
    if kept.kind == KIND_DENIAL_TEST {
        spot.restore(kept);
        return choose(on, kept.node, true);
    }
    if kept.kind == KIND_COMMIT_PASSED {
        spot.restore(kept);
        return Next::Act(Acting::Commit);
    }
    if kept.kind == KIND_PRUNE_PASSED {
        spot.restore(kept);
        return Next::Act(Acting::Prune);
    }
    if kept.kind == KIND_SKIP_PASSED {
        if kept.from > 0 {
            return Next::Back;
        }
        spot.restore(kept);
        return Next::Act(Acting::Skip(kept.to));
    }
    if kept.kind == KIND_THEN_PASSED {
        spot.restore(kept);
        return Next::Leave(kept.node);
    }
    Next::Back
}

/// Goes back to the newest record.
pub(crate) fn back<S: Searchable>(
    on: &S,
    spot: &mut Spot,
    store: &mut Store,
    registers: &mut [Option<Span>],
) -> Result<Next, Stop>
    requires valid { IsValid (S.searched on.now) (over Next.Back spot.old store.old registers.old) }
    ensures on { StepsOn (S.searched on.now) (over Next.Back spot.old store.old registers.old)
        spot.new store.new registers.new result }
    ensures stop { StopsThere (S.searched on.now) (over Next.Back spot.old store.old registers.old)
        spot.new registers.new result }
    ensures peak { KeepsPeak (S.searched on.now) store.old store.new }
    ensures no_less { room store.old ≤ room store.new }
    ensures short { IsShortAt (S.searched on.now) store.new result }
{
    let Some(newest) = pop(store, registers) else {
        return Err(Stop::NoMatch);
    };
    if newest.kind == KIND_LATER_BRANCH {
        spot.restore(&newest);
        return Ok(Next::Branch(newest.node, newest.count));
    }
    if newest.kind == KIND_LATER_TRY {
        spot.restore(&newest);
        return Ok(Next::Try(newest.node, newest.count));
    }
    if newest.kind == KIND_TURN_OR_EXIT {
        spot.restore(&newest);
        return Ok(go_on(on, newest.node));
    }
    if newest.kind == KIND_LATER_TURN {
        spot.restore(&newest);
        return Ok(Next::Begin(newest.node, newest.count, false));
    }
    if newest.kind == KIND_FEWER_ITEMS {
        spot.restore(&newest);
        return Ok(fewer_before(on, &newest));
    }
    if newest.kind == KIND_MORE_ITEMS {
        spot.restore(&newest);
        return take_more(on, &newest, spot);
    }
    if newest.kind == KIND_ATOMIC_LEFT {
        store.undo_spans(newest.from as usize, registers);
        return Ok(Next::Back);
    }
    Ok(look_or_verb(on, &newest, spot))
}
