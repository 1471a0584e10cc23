//! Verbs (pcre2pattern, "Backtracking control").
ghost use Rattle.std.specs.Prelude.{◌≡◌, ◌≤◌, ◌<◌, ◌∷◌, max, length, IfErr, IfSome, OnOk, None};
ghost use Rattle.pat_tree.specs.declared.nodes.Node.TheVariants as node;
ghost use Rattle.pat_tree.specs.declared.nodes.Verb.TheVariants as verb;
ghost use Rattle.frame_store.specs.Stack.{room};
ghost use Rattle.frame_state.specs.Room.{IsShort, IsSteady};
ghost use Rattle.frame_store.specs.Entry.{entries};
ghost use Rattle.frame_state.specs.Steps.{over, StepsOn, StopsThere, KeepsPeak, IsShortAt};
ghost use Rattle.frame_state.specs.Ground.{IsNode};
ghost use Rattle.frame_state.specs.Validity.{IsValid};
ghost use Rattle.frame_state.specs.Stops.{IsHeldStop};
ghost use Rattle.frame_verbs.specs.Acting.{IsActing};
ghost use Rattle.frame_verbs.specs.Names.{met, named_entry, named_spot, named_last};

use crate::skips::pass_skip_to;
use frame_state::framing::go_on;
use frame_state::machine::{Next, Spot, Stop, hold};
use frame_state::searchable::Searchable;
use frame_store::kinds::{
    KIND_COMMIT_PASSED, KIND_MARK_PASSED, KIND_PRUNE_PASSED, KIND_SKIP_PASSED, KIND_THEN_PASSED,
};
use frame_store::{Span, Store};
use pat_tree::Verb;

/// Passes a name, if there is one: it is told, it is the path's mark, and SKIP finds it. The path holds a unit more.
fn pass_name(
    limit: u32,
    at: u32,
    name: Option<u32>,
    spot: &mut Spot,
    store: &mut Store,
) -> Result<(), Stop>
    requires counted { length store.old.records ≤ spot.old.units }
    requires few { IfSome name (λ n. n < 4294967295) }
    ensures room { OnOk result (spot.old.units < limit) }
    ensures spot { OnOk result (spot.new ≡ named_spot spot.old (length store.old.records) name) }
    ensures pushed { OnOk result
        (entries store.new.records ≡ named_entry spot.old at name ∷ entries store.old.records) }
    ensures stop { IfErr result (λ stop. IsHeldStop stop limit spot.old.units) }
    ensures last { spot.new.last ≡ named_last spot.old.last name }
    ensures peak { store.new.peak ≤ max store.old.peak limit }
    ensures no_less { room store.old ≤ room store.new }
    ensures short { IfErr result (λ stop. IsShort stop limit store.new) }
{
    let Some(name) = name else {
        let event = spot.record(KIND_MARK_PASSED, at, 0, 0, 0);
        return hold(limit, event, spot, store);
    };
    spot.mark = name + 1;
    spot.last.name = name + 1;
    let event = spot.record(KIND_MARK_PASSED, at, 0, 0, 0);
    if let Err(stop) = hold(limit, event, spot, store) {
        return Err(stop);
    }
    spot.passed = store.len() as u32;
    Ok(())
}

/// Goes on past a name, or with none.
fn pass_mark<S: Searchable>(
    on: &S,
    at: u32,
    name: Option<u32>,
    spot: &mut Spot,
    store: &mut Store,
    registers: &[Option<Span>],
) -> Result<Next, Stop>
    requires valid { IsValid (S.searched on.now)
        (over (Next.Enter at) spot.old store.old registers.now) }
    requires node { IsNode (S.searched on.now) at (node.VerbNode (verb.Mark name)) }
    requires few { IfSome name (λ n. n < 4294967295) }
    ensures on { StepsOn (S.searched on.now) (over (Next.Enter at) spot.old store.old registers.now)
        spot.new store.new registers.now result }
    ensures stop { StopsThere (S.searched on.now)
        (over (Next.Enter at) spot.old store.old registers.now) spot.new registers.now result }
    ensures peak { KeepsPeak (S.searched on.now) store.old store.new }
    ensures no_less { room store.old ≤ room store.new }
    ensures short { IsShortAt (S.searched on.now) store.new result }
{
    if let Err(stop) = pass_name(on.unit_limit(), at, name, spot, store) {
        return Err(stop);
    }
    Ok(go_on(on, at))
}

/// Ends the innermost frame, or the pattern, past a name if there is one.
fn pass_accept<S: Searchable>(
    on: &S,
    at: u32,
    name: Option<u32>,
    spot: &mut Spot,
    store: &mut Store,
    registers: &[Option<Span>],
) -> Result<Next, Stop>
    requires valid { IsValid (S.searched on.now)
        (over (Next.Enter at) spot.old store.old registers.now) }
    requires node { IsNode (S.searched on.now) at (node.VerbNode (verb.Accept name)) }
    requires few { IfSome name (λ n. n < 4294967295) }
    ensures on { StepsOn (S.searched on.now) (over (Next.Enter at) spot.old store.old registers.now)
        spot.new store.new registers.now result }
    ensures stop { StopsThere (S.searched on.now)
        (over (Next.Enter at) spot.old store.old registers.now) spot.new registers.now result }
    ensures peak { KeepsPeak (S.searched on.now) store.old store.new }
    ensures no_less { room store.old ≤ room store.new }
    ensures short { IsShortAt (S.searched on.now) store.new result }
{
    let Some(_) = name else {
        return Ok(Next::Accept);
    };
    if let Err(stop) = pass_name(on.unit_limit(), at, name, spot, store) {
        return Err(stop);
    }
    Ok(Next::Accept)
}

/// Fails, past a name if there is one.
fn pass_fail<S: Searchable>(
    on: &S,
    at: u32,
    name: Option<u32>,
    spot: &mut Spot,
    store: &Store,
    registers: &[Option<Span>],
) -> Result<Next, Stop>
    requires valid { IsValid (S.searched on.now)
        (over (Next.Enter at) spot.old store.now registers.now) }
    requires node { IsNode (S.searched on.now) at (node.VerbNode (verb.Fail name)) }
    requires few { IfSome name (λ n. n < 4294967295) }
    ensures on { StepsOn (S.searched on.now) (over (Next.Enter at) spot.old store.now registers.now)
        spot.new store.now registers.now result }
    ensures stop { StopsThere (S.searched on.now)
        (over (Next.Enter at) spot.old store.now registers.now) spot.new registers.now result }
    ensures steady { IfErr result IsSteady }
{
    let Some(name) = name else {
        return Ok(Next::Back);
    };
    spot.last.name = name + 1;
    if spot.units >= on.unit_limit() {
        return Err(Stop::FrameLimit);
    }
    Ok(Next::Back)
}

/// Meets a name, if there is one, that SKIP doesn't find.
fn meet(name: Option<u32>, spot: &mut Spot)
    requires few { IfSome name (λ n. n < 4294967295) }
    ensures met { spot.new ≡ met spot.old name }
    ensures units { spot.new.units ≡ spot.old.units }
    ensures last { spot.new.last ≡ named_last spot.old.last name }
{
    if let Some(name) = name {
        let met = name + 1;
        spot.mark = met;
        spot.last.name = met;
    }
}

/// Goes on past a verb that acts when it is backtracked onto: leaves its record of this kind, which has the search go
/// on at a place if it is SKIP. The path holds a unit more.
fn pass_acting<S: Searchable>(
    on: &S,
    at: u32,
    kind: u8,
    name: Option<u32>,
    next: u64,
    spot: &mut Spot,
    store: &mut Store,
    registers: &[Option<Span>],
) -> Result<Next, Stop>
    requires valid { IsValid (S.searched on.now)
        (over (Next.Enter at) spot.old store.old registers.now) }
    requires node { IsActing (S.searched on.now) at spot.old.place kind name next }
    requires few { IfSome name (λ n. n < 4294967295) }
    ensures on { StepsOn (S.searched on.now)
        (over (Next.Enter at) spot.old store.old registers.now)
        spot.new store.new registers.now result }
    ensures stop { StopsThere (S.searched on.now)
        (over (Next.Enter at) spot.old store.old registers.now) spot.new registers.now result }
    ensures peak { KeepsPeak (S.searched on.now) store.old store.new }
    ensures no_less { room store.old ≤ room store.new }
    ensures short { IsShortAt (S.searched on.now) store.new result }
{
    meet(name, spot);
    let event = spot.record(kind, at, 0, 0, next);
    if let Err(stop) = hold(on.unit_limit(), event, spot, store) {
        return Err(stop);
    }
    Ok(go_on(on, at))
}

/// Runs a verb.
pub fn enter_verb<S: Searchable>(
    on: &S,
    at: u32,
    verb: Verb,
    spot: &mut Spot,
    store: &mut Store,
    registers: &[Option<Span>],
) -> Result<Next, Stop>
    requires valid { IsValid (S.searched on.now)
        (over (Next.Enter at) spot.old store.old registers.now) }
    requires node { IsNode (S.searched on.now) at (node.VerbNode verb) }
    ensures on { StepsOn (S.searched on.now) (over (Next.Enter at) spot.old store.old registers.now)
        spot.new store.new registers.now result }
    ensures stop { StopsThere (S.searched on.now)
        (over (Next.Enter at) spot.old store.old registers.now) spot.new registers.now result }
    ensures peak { KeepsPeak (S.searched on.now) store.old store.new }
    ensures no_less { room store.old ≤ room store.new }
    ensures short { IsShortAt (S.searched on.now) store.new result }
{
    match verb {
        Verb::Mark { name } => pass_mark(on, at, name, spot, store, registers),
        Verb::Accept { name } => pass_accept(on, at, name, spot, store, registers),
        Verb::Fail { name } => pass_fail(on, at, name, spot, store, registers),
        Verb::Commit { name } => {
            pass_acting(on, at, KIND_COMMIT_PASSED, name, 0, spot, store, registers)
        }
        Verb::Prune { name } => {
            pass_acting(on, at, KIND_PRUNE_PASSED, name, 0, spot, store, registers)
        }
        Verb::Then { name } => {
            pass_acting(on, at, KIND_THEN_PASSED, name, 0, spot, store, registers)
        }
        Verb::Skip { name } => match name {
            None => pass_acting(
                on,
                at,
                KIND_SKIP_PASSED,
                None,
                spot.place,
                spot,
                store,
                registers,
            ),
            Some(name) => pass_skip_to(on, at, name, spot, store, registers),
        },
    }
}
