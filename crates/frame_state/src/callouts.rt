//! Callouts (pcre2callout, "The callout interface").
ghost use Rattle.std.specs.Prelude.{◌≡◌, IfOk, IfErr, OnOk};
ghost use Rattle.pcre_io.specs.declared.callouts.Block.{Block};
ghost use Rattle.pcre_io.specs.Called.{SeenGrows};
ghost use Rattle.frame_state.specs.Ground.{IsPart};
ghost use Rattle.frame_state.specs.Room.{IsQuiet, IsSteady};
ghost use Rattle.frame_state.specs.Shown.{IsFollowed, IsCallStop, callout_at, block_at, shown_as};
ghost use Rattle.frame_state.specs.Over.{IsCalloutNext};

use crate::answer::mark_of;
use crate::framing::go_on;
use crate::machine::{Next, Spot, Stop};
use crate::searchable::Searchable;
use pcre_io::{Block, Callouts};

/// What a callout is shown where the path stands: its number, where its string begins and ends in the pattern, and
/// where the next item stands there and how long it is.
pub fn block_of(
    number: u8,
    text_from: u32,
    text_to: u32,
    item_at: u32,
    item_len: u32,
    spot: &Spot,
) -> Block
    ensures { result
        ≡ shown_as (block_at (callout_at number text_from text_to item_at item_len) spot.now) }
{
    Block {
        number,
        text_from,
        text_to,
        pattern_at: item_at,
        item_len,
        start: spot.keep,
        current: spot.place,
        mark: mark_of(spot.mark),
    }
}

/// Shows a block, and says whether the path goes on past its callout (pcre2callout, "Return value from callouts").
pub fn show<C: Callouts>(block: &Block, calls: &mut C) -> Result<bool, Stop>
    ensures followed { IfOk result (IsFollowed (C.answers calls.old block.now)) }
    ensures seen { OnOk result (SeenGrows (C.seen calls.old) (C.seen calls.new) block.now) }
    ensures stop { IfErr result
        (λ stop. IsCallStop stop (C.answers calls.old block.now) (C.seen calls.old)
        (C.seen calls.new) block.now) }
    ensures rule { (other : Block) → C.answers calls.new other ≡ C.answers calls.old other }
    ensures steady { IsQuiet C.refuses (C.answers calls.old) → IfErr result IsSteady }
{
    let Ok(answer) = calls.call(block) else {
        return Err(Stop::Memory);
    };
    if answer < 0 {
        return Err(Stop::Abort(answer));
    }
    Ok(answer == 0)
}

/// Runs the callout at a part.
pub fn enter_callout<S: Searchable, C: Callouts>(
    on: &S,
    at: u32,
    block: &Block,
    calls: &mut C,
) -> Result<Next, Stop>
    requires inside { IsPart (S.searched on.now) at }
    ensures next { IfOk result
        (IsCalloutNext (S.searched on.now) at (C.answers calls.old block.now)) }
    ensures seen { OnOk result (SeenGrows (C.seen calls.old) (C.seen calls.new) block.now) }
    ensures stop { IfErr result
        (λ stop. IsCallStop stop (C.answers calls.old block.now) (C.seen calls.old)
        (C.seen calls.new) block.now) }
    ensures rule { (other : Block) → C.answers calls.new other ≡ C.answers calls.old other }
    ensures steady { IsQuiet C.refuses (C.answers calls.old) → IfErr result IsSteady }
{
    match show(block, calls) {
        Ok(true) => Ok(go_on(on, at)),
        Ok(false) => Ok(Next::Back),
        Err(stop) => Err(stop),
    }
}
