//! The parts of a pattern, run one after the other.
ghost use Rattle.std.specs.Prelude.{◌≡◌, ◌<◌, ◌≤◌, ◌&&◌, true, max, All, IfOk, IfErr, OnOk};
ghost use Rattle.pat_tree.specs.Rules.{class_in};
ghost use Rattle.pat_tree.specs.declared.nodes.Node.TheVariants as node;
ghost use Rattle.frame_store.specs.Stack.{room};
ghost use Rattle.frame_state.specs.Room.{IsQuiet, IsShort};
ghost use Rattle.frame_store.specs.Captures.{HasGroup};
ghost use Rattle.pcre_io.specs.declared.callouts.Block.{Block};
ghost use Rattle.frame_state.specs.Steps.{over, StepsOn, StopsThere, GoesOver, StopsOver, showing, KeepsPeak};
ghost use Rattle.frame_state.specs.Steps.{IsShortAt};
ghost use Rattle.frame_state.specs.Ground.{IsNode, IsPart, tree_of};
ghost use Rattle.frame_state.specs.Machine.{first_set};
ghost use Rattle.frame_state.specs.Frames.{ahead};
ghost use Rattle.frame_state.specs.Shown.{IsReplied};
ghost use Rattle.frame_state.specs.Validity.{IsValid, AreSpans, SpanStands};
ghost use Rattle.match_items.specs.Items.{after_break, after_item, anchor_reaches, break_reaches, earliest};
ghost use Rattle.match_items.specs.Items.{item_reaches};
ghost use Rattle.frame_state.specs.Reach.{asks, referred_reaches, IsNoted, IsHardStop, IsTested, IsAnchored};
ghost use Rattle.frame_state.specs.Stops.{referred, part_next};
ghost use Rattle.frame_machine.specs.Callouts.{IsCallout, IsShown};

use frame_looks::calls::enter_call;
use frame_looks::conds::enter_condition;
use frame_looks::looks::enter_look;
use frame_parts::atomic::enter_atomic;
use frame_parts::items::enter_many;
use frame_parts::repeats::offer;
use frame_state::callouts::{block_of, enter_callout};
use frame_state::framing::{first_branch, first_set, go_on};
use frame_state::machine::{Met, Next, Spot, Stop, hold};
use frame_state::reach::{pass, reach};
use frame_state::searchable::Searchable;
use frame_store::kinds::KIND_GROUP_OPEN;
use frame_store::{Span, Store};
use frame_verbs::verbs::enter_verb;
use pat_tree::{AnchorKind, Item, Kids, Node};
use pcre_io::{Block, Callouts};

/// Runs one item.
fn enter_one<S: Searchable>(on: &S, part: u32, item: &Item, spot: &mut Spot) -> Result<Next, Stop>
    requires inside { IsPart (S.searched on.now) part }
    requires class { All (λ n. n < (S.searched on.now).class_count) (class_in item.now) }
    requires place { (S.searched on.now).stands spot.old.place ≡ true }
    ensures on { IfOk result (λ next. IsTested (S.searched on.now) part
        (asks (S.searched on.now).setting
        && item_reaches (S.searched on.now).setting.scene item.now spot.old.place)
        (after_item (S.searched on.now).setting.scene item.now spot.old.place)
        spot.old next spot.new) }
    ensures stop { IfErr result (λ stop. IsHardStop (S.searched on.now)
        (asks (S.searched on.now).setting
        && item_reaches (S.searched on.now).setting.scene item.now spot.old.place)
        spot.old.early spot.old.last spot.new.last stop) }
{
    let reached = on.item_reaches(item, spot.place);
    pass(on, part, reached, on.take(item, spot.place), spot)
}

/// Runs `\R`.
fn enter_break<S: Searchable>(on: &S, part: u32, spot: &mut Spot) -> Result<Next, Stop>
    requires inside { IsPart (S.searched on.now) part }
    requires place { (S.searched on.now).stands spot.old.place ≡ true }
    ensures on { IfOk result (λ next. IsTested (S.searched on.now) part
        (asks (S.searched on.now).setting
        && break_reaches (S.searched on.now).setting.scene spot.old.place)
        (after_break (S.searched on.now).setting.scene spot.old.place)
        spot.old next spot.new) }
    ensures stop { IfErr result (λ stop. IsHardStop (S.searched on.now)
        (asks (S.searched on.now).setting
        && break_reaches (S.searched on.now).setting.scene spot.old.place)
        spot.old.early spot.old.last spot.new.last stop) }
{
    let reached = on.break_reaches(spot.place);
    pass(on, part, reached, on.take_break(spot.place), spot)
}

/// Where a reference leads, whose first set group has captured this.
fn refer<S: Searchable>(on: &S, captured: Option<Span>, caseless: bool, place: u64) -> Option<u64>
    requires span { SpanStands (S.searched on.now) captured }
    requires place { (S.searched on.now).stands place ≡ true }
    ensures { result ≡ referred (S.searched on.now) place captured caseless }
{
    match captured {
        Some(span) => on.refer(span.from, span.to, caseless, place),
        None if on.options().match_unset_backref => Some(place),
        None => None,
    }
}

/// Whether a reference reaches the subject's end, whose first set group has captured this, where
/// partial matches are looked for.
fn refer_reaches<S: Searchable>(on: &S, captured: Option<Span>, caseless: bool, place: u64) -> bool
    requires span { SpanStands (S.searched on.now) captured }
    requires place { (S.searched on.now).stands place ≡ true }
    ensures { result ≡ (asks (S.searched on.now).setting
        && referred_reaches (S.searched on.now) place captured caseless) }
{
    match captured {
        Some(span) => on.ref_reaches(span.from, span.to, caseless, place),
        None => false,
    }
}

/// Runs a reference to one of these groups.
fn enter_ref<S: Searchable>(
    on: &S,
    part: u32,
    groups: &[u16],
    caseless: bool,
    spot: &mut Spot,
    registers: &[Option<Span>],
) -> Result<Next, Stop>
    requires inside { IsPart (S.searched on.now) part }
    requires groups { All (HasGroup registers.now) groups.now }
    requires spans { AreSpans (S.searched on.now) registers.now }
    requires place { (S.searched on.now).stands spot.old.place ≡ true }
    ensures on { IfOk result (λ next. IsTested (S.searched on.now) part
        (asks (S.searched on.now).setting && referred_reaches (S.searched on.now)
        spot.old.place (first_set registers.now groups.now) caseless)
        (referred (S.searched on.now) spot.old.place (first_set registers.now groups.now) caseless)
        spot.old next spot.new) }
    ensures stop { IfErr result (λ stop. IsHardStop (S.searched on.now)
        (asks (S.searched on.now).setting && referred_reaches (S.searched on.now)
        spot.old.place (first_set registers.now groups.now) caseless)
        spot.old.early spot.old.last spot.new.last stop) }
{
    let captured = first_set(groups, registers);
    let reached = refer_reaches(on, captured, caseless, spot.place);
    let to = refer(on, captured, caseless, spot.place);
    pass(on, part, reached, to, spot)
}

/// Notes that a simple assertion reached the subject's end, if it did and that counts.
fn reach_anchor<S: Searchable>(
    on: &S,
    kind: AnchorKind,
    place: u64,
    early: u64,
    met: &mut Met,
) -> Result<(), Stop>
    requires { (S.searched on.now).stands place ≡ true }
    ensures on { OnOk result (IsNoted (S.searched on.now)
        (asks (S.searched on.now).setting
        && anchor_reaches (S.searched on.now).setting.scene kind place)
        (earliest (S.searched on.now).setting.scene kind place early) met.old met.new) }
    ensures stop { IfErr result (λ stop. IsHardStop (S.searched on.now)
        (asks (S.searched on.now).setting
        && anchor_reaches (S.searched on.now).setting.scene kind place)
        (earliest (S.searched on.now).setting.scene kind place early) met.old met.new stop) }
{
    let reached = on.anchor_reaches(kind, place);
    if !reached {
        return Ok(());
    }
    reach(on, reached, on.earliest(kind, place, early), met)
}

/// Goes on where a simple assertion holds.
fn anchor<S: Searchable>(on: &S, part: u32, kind: AnchorKind, spot: &mut Spot) -> Result<Next, Stop>
    requires inside { IsPart (S.searched on.now) part }
    requires place { (S.searched on.now).stands spot.old.place ≡ true }
    ensures on { IfOk result
        (λ next. IsAnchored (S.searched on.now) part kind spot.old next spot.new) }
    ensures stop { IfErr result (λ stop. IsHardStop (S.searched on.now)
        (asks (S.searched on.now).setting
        && anchor_reaches (S.searched on.now).setting.scene kind spot.old.place)
        (earliest (S.searched on.now).setting.scene kind spot.old.place spot.old.early)
        spot.old.last spot.new.last stop) }
{
    if let Err(stop) = reach_anchor(on, kind, spot.place, spot.early, &mut spot.last) {
        return Err(stop);
    }
    if !on.holds(kind, spot.place) {
        return Ok(Next::Back);
    }
    spot.early = on.earliest(kind, spot.place, spot.early);
    Ok(go_on(on, part))
}

/// Where a sequence begins.
fn first_part<S: Searchable>(on: &S, part: u32, kids: &Kids) -> Next
    requires { IsPart (S.searched on.now) part }
    ensures { result ≡ part_next (S.searched on.now) part kids.now }
{
    match kids.as_slice() {
        [] => go_on(on, part),
        [first, ..] => Next::Enter(*first),
    }
}

/// Enters a group. A capturing one is a frame.
fn enter_group<S: Searchable>(
    on: &S,
    at: u32,
    number: Option<u16>,
    branches: &Kids,
    spot: &mut Spot,
    store: &mut Store,
    registers: &[Option<Span>],
) -> Result<Next, Stop>
    requires valid { IsValid (S.searched on.now)
        (over (Next.Enter at) spot.old store.old registers.now) }
    requires node { IsNode (S.searched on.now) at (node.Group number branches.now) }
    ensures on { StepsOn (S.searched on.now) (over (Next.Enter at) spot.old store.old registers.now)
        spot.new store.new registers.now result }
    ensures stop { StopsThere (S.searched on.now)
        (over (Next.Enter at) spot.old store.old registers.now) spot.new registers.now result }
    ensures peak { KeepsPeak (S.searched on.now) store.old store.new }
    ensures no_less { room store.old ≤ room store.new }
    ensures short { IsShortAt (S.searched on.now) store.new result }
{
    let Some(_) = number else {
        return Ok(first_branch(at, branches));
    };
    let record = spot.record(KIND_GROUP_OPEN, at, 0, 0, 0);
    if let Err(stop) = hold(on.unit_limit(), record, spot, store) {
        return Err(stop);
    }
    spot.frame = store.len() as u32;
    Ok(first_branch(at, branches))
}

/// What the callout at a part is shown.
fn block_at<S: Searchable>(on: &S, part: u32, spot: &Spot) -> Block
    requires inside { IsPart (S.searched on.now) part }
    requires callout { IsCallout (tree_of (S.searched on.now) part) }
    ensures { IsShown (tree_of (S.searched on.now) part) spot.now result }
{
    let Node::Callout {
        number,
        text_from,
        text_to,
        item_at,
        item_len,
    } = on.node(part)
    else {
        unreachable!()
    };
    block_of(*number, *text_from, *text_to, *item_at, *item_len, spot)
}

/// Runs a part.
pub(crate) fn enter<S: Searchable, C: Callouts>(
    on: &S,
    at: u32,
    spot: &mut Spot,
    store: &mut Store,
    registers: &[Option<Span>],
    calls: &mut C,
) -> Result<Next, Stop>
    requires valid { IsValid (S.searched on.now)
        (over (Next.Enter at) spot.old store.old registers.now) }
    requires replied { IsReplied (S.searched on.now).setting (C.answers calls.old) }
    ensures on { GoesOver (S.searched on.now) (showing (C.seen calls.old) (C.seen calls.new)
        (over (Next.Enter at) spot.old store.old registers.now))
        spot.new store.new registers.now result }
    ensures stop { StopsOver (S.searched on.now) (showing (C.seen calls.old) (C.seen calls.new)
        (over (Next.Enter at) spot.old store.old registers.now)) spot.new registers.now result }
    ensures rule { (block : Block) → C.answers calls.new block ≡ C.answers calls.old block }
    ensures peak { KeepsPeak (S.searched on.now) store.old store.new }
    ensures no_less { room store.old ≤ room store.new }
    ensures short { IsQuiet C.refuses (C.answers calls.old)
        → IfErr result (λ stop.
        IsShort stop (S.searched on.now).setting.matching.frame_limit store.new) }
{
    match on.node(at) {
        Node::Empty => Ok(go_on(on, at)),
        Node::KeepOut => {
            spot.keep = spot.place;
            Ok(go_on(on, at))
        }
        Node::One(item) => enter_one(on, at, item, spot),
        Node::Break => enter_break(on, at, spot),
        Node::Ref { groups, caseless } => {
            enter_ref(on, at, groups.as_slice(), *caseless, spot, registers)
        }
        Node::Anchor(kind) => anchor(on, at, *kind, spot),
        Node::Seq(kids) => Ok(first_part(on, at, kids)),
        Node::Group { number, branches } => {
            enter_group(on, at, *number, branches, spot, store, registers)
        }
        Node::Repeat { .. } => offer(on, at, 0, spot, store, registers),
        Node::OneRepeat {
            item,
            min,
            max,
            lazy,
        } => enter_many(on, at, item, *min, *max, *lazy, spot),
        Node::Atomic(branches) => enter_atomic(on, at, branches, spot, store, registers),
        Node::Look {
            ahead,
            positive,
            atomic,
            branches,
        } => enter_look(
            on, at, *ahead, *positive, *atomic, branches, spot, store, registers,
        ),
        Node::Cond { test, yes, no } => {
            enter_condition(on, at, test, *yes, *no, spot, store, registers, calls)
        }
        Node::Call { group } => enter_call(on, at, *group, spot, store, registers),
        Node::VerbNode(verb) => enter_verb(on, at, *verb, spot, store, registers),
        Node::Callout { .. } => enter_callout(on, at, &block_at(on, at, spot), calls),
    }
}
