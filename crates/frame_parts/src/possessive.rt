//! Possessive repeats of one item: atomic groups with nothing else in them (pcre2pattern, "Atomic
//! grouping and possessive quantifiers").
//!
//! Nothing goes back into such a group, so no record stands for it. By the definition its begin and
//! its end hold a unit each, and so do the further places of its run, if it has some.
ghost use Rattle.std.specs.Prelude.{◌≡◌, All, true, None, Some, map, MatchOption, IfErr};
ghost use Rattle.pat_tree.specs.declared.nodes.Node.TheVariants as node;
ghost use Rattle.pat_tree.specs.Nested.{row, tree_at};
ghost use Rattle.ordered_search.specs.Paths.{many_in, only_many};
ghost use Rattle.frame_state.specs.Steps.{over, StepsOn, StopsThere};
ghost use Rattle.frame_state.specs.Ground.{tree_of, IsNode, IsPart};
ghost use Rattle.frame_state.specs.Validity.{IsValid};
ghost use Rattle.frame_state.specs.Room.{IsSteady};
ghost use Rattle.frame_parts.specs.Possessive.{IsMeet, IsRepeatOf, IsOnly, first_place, repeat_reaches, units_of};

use crate::items::less;
use crate::repeats::{is_last, widen};
use frame_state::framing::go_on;
use frame_state::machine::{Next, Spot, Stop};
use frame_state::reach::reach;
use frame_state::searchable::Searchable;
use frame_store::{Span, Store};
use pat_tree::{Item, Kids, Node};

/// A repeat of one item.
#[derive(Clone, Copy)]
pub(crate) struct ItemRepeat {
    pub item: Item,
    pub min: u32,
    pub max: Option<u32>,
    pub lazy: bool,
}

/// The place that a repeat hands on first.
#[derive(Clone, Copy)]
struct FirstPlace {
    to: u64,
    /// Whether it could hand on further ones.
    further: bool,
}

/// That place, if there is one.
#[derive(Clone, Copy)]
struct First {
    place: Option<FirstPlace>,
    /// Whether a test on the way reached the subject's end.
    at_end: bool,
}

/// The repeat of one item that a part is.
fn repeat_of<S: Searchable>(on: &S, part: u32) -> Option<ItemRepeat>
    requires { IsPart (S.searched on.now) part }
    ensures { MatchOption result (many_in (tree_of (S.searched on.now) part) ≡ None)
        (λ repeat. IsRepeatOf (S.searched on.now) (tree_of (S.searched on.now) part) repeat) }
{
    match on.node(part) {
        Node::OneRepeat {
            item,
            min,
            max,
            lazy,
        } => Some(ItemRepeat {
            item: *item,
            min: u32::from(*min),
            max: widen(*max),
            lazy: *lazy,
        }),
        _ => None,
    }
}

/// The repeat of one item that is the only branch.
pub(crate) fn only_repeat<S: Searchable>(on: &S, branches: &Kids) -> Option<ItemRepeat>
    requires { All (IsPart (S.searched on.now)) branches.now }
    ensures { MatchOption result
        (only_many (row (map (tree_at (S.searched on.now).trees) branches.now)) ≡ None)
        (λ repeat. IsOnly (S.searched on.now) branches.now repeat) }
{
    match branches.as_slice() {
        [only] => repeat_of(on, *only),
        _ => None,
    }
}

/// The place that a repeat of one item hands on first: the end of its longest run, or where it is
/// lazy of its shortest.
fn first_place<S: Searchable>(on: &S, repeat: &ItemRepeat, place: u64) -> First
    requires place { (S.searched on.now).stands place ≡ true }
    requires meet { IsMeet (S.searched on.now) repeat.now }
    ensures place { result.place ≡ first_place (S.searched on.now) repeat.now place }
    ensures at_end { result.at_end ≡ repeat_reaches (S.searched on.now) repeat.now place }
{
    let least = on.run(&repeat.item, place, Some(repeat.min));
    if least.count < repeat.min {
        return First {
            place: None,
            at_end: least.at_end,
        };
    }
    if repeat.lazy {
        return First {
            place: Some(FirstPlace {
                to: least.to,
                further: !is_last(repeat.max, repeat.min),
            }),
            at_end: least.at_end,
        };
    }
    let most = on.run(&repeat.item, least.to, less(repeat.max, repeat.min));
    First {
        place: Some(FirstPlace {
            to: most.to,
            further: least.to < most.to,
        }),
        at_end: least.at_end || most.at_end,
    }
}

/// The units that such a group holds: for its begin, for the further places of its run, and for its
/// end.
fn units_of(further: bool) -> u32
    ensures { result ≡ units_of further }
{
    if further { 3 } else { 2 }
}

/// Goes over an atomic group that has only a repeat of one item in it.
pub(crate) fn pass_possessive<S: Searchable>(
    on: &S,
    at: u32,
    branches: &Kids,
    repeat: &ItemRepeat,
    spot: &mut Spot,
    store: &Store,
    registers: &[Option<Span>],
) -> Result<Next, Stop>
    requires valid { IsValid (S.searched on.now)
        (over (Next.Enter at) spot.old store.now registers.now) }
    requires node { IsNode (S.searched on.now) at (node.Atomic branches.now) }
    requires only { IsOnly (S.searched on.now) branches.now repeat.now }
    ensures on { StepsOn (S.searched on.now) (over (Next.Enter at) spot.old store.now registers.now)
        spot.new store.now registers.now result }
    ensures stop { StopsThere (S.searched on.now)
        (over (Next.Enter at) spot.old store.now registers.now) spot.new registers.now result }
    ensures steady { IfErr result IsSteady }
{
    let limit = on.unit_limit();
    if spot.units >= limit {
        return Err(Stop::FrameLimit);
    }
    let first = first_place(on, repeat, spot.place);
    if let Err(stop) = reach(on, first.at_end, spot.early, &mut spot.last) {
        return Err(stop);
    }
    let Some(first) = first.place else {
        return Ok(Next::Back);
    };
    if spot.left == 0 {
        return Err(Stop::MatchLimit);
    }
    let units = units_of(first.further);
    if limit - spot.units < units {
        return Err(Stop::FrameLimit);
    }
    spot.left -= 1;
    spot.units += units;
    spot.place = first.to;
    Ok(go_on(on, at))
}
