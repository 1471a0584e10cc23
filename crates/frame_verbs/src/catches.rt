//! Where a verb leads that was backtracked onto (pcre2pattern, "Backtracking verbs in repeated groups", "Backtracking
//! verbs in assertions" and "Backtracking verbs in subroutines").
ghost use Rattle.std.specs.Prelude.{◌≡◌, ◌≤◌, true, length};
ghost use Rattle.frame_store.specs.Stack.{room};
ghost use Rattle.frame_store.specs.Entry.{entries, entry_of};
ghost use Rattle.frame_state.specs.Calls.{AreNested};
ghost use Rattle.frame_verbs.specs.Catching.{AreSoundParts, catcher, left_height};
ghost use Rattle.frame_store.specs.Stack.{up_to};
ghost use Rattle.frame_state.specs.Steps.{over, StepsOn, EndsThere, KeepsPeak, IsShortAt};
ghost use Rattle.frame_state.specs.Frames.{began, is_catching, is_catching_then};
ghost use Rattle.frame_state.specs.Ground.{IsPart};
ghost use Rattle.frame_state.specs.Validity.{IsContained, IsValid};

use frame_state::machine::{Acting, Next, Spot, Stop};
use frame_state::searchable::Searchable;
use frame_store::kinds::{
    KIND_CALL_OPEN, KIND_DENIAL_OPEN, KIND_DENIAL_TEST, KIND_LOOK_ALL_OPEN, KIND_LOOK_OPEN,
    KIND_LOOK_TEST,
};
use frame_store::{Record, Span, Store};

/// Whether a frame catches what verbs in it end with: a negative lookaround, a test and a call do.
fn is_catching(frame: &Record) -> bool
    ensures { result ≡ is_catching (entry_of frame.now) }
{
    if frame.kind == KIND_DENIAL_OPEN {
        return true;
    }
    if frame.kind == KIND_LOOK_TEST {
        return true;
    }
    if frame.kind == KIND_DENIAL_TEST {
        return true;
    }
    if frame.kind == KIND_CALL_OPEN {
        return true;
    }
    false
}

/// The height of the innermost frame that catches what verbs end with, from the one at a height outwards; 0 where there
/// is none.
fn catcher(store: &Store, frame: u32) -> u32
    requires nested { AreNested (entries store.now.records) }
    requires within { frame ≤ length store.now.records }
    ensures { result ≡ catcher (entries store.now.records) frame }
{
    let mut height = frame;
    'frames: while height > 0 {
        let event = *store.get(height as usize - 1);
        if is_catching(&event) {
            return height;
        }
        height = event.link;
    }
    0
}

/// Gives up all that was done since the innermost frame began that catches a verb, which then fails. Where none does,
/// the search of this start place ends.
pub fn act<S: Searchable>(
    on: &S,
    acting: Acting,
    spot: &Spot,
    store: &mut Store,
    registers: &mut [Option<Span>],
) -> Result<Next, Stop>
    requires valid { IsValid (S.searched on.now)
        (over (Next.Act acting) spot.now store.old registers.old) }
    ensures on { StepsOn (S.searched on.now)
        (over (Next.Act acting) spot.now store.old registers.old)
        spot.now store.new registers.new result }
    ensures stop { EndsThere (S.searched on.now)
        (over (Next.Act acting) spot.now store.old registers.old) spot.now registers.new result }
    ensures peak { KeepsPeak (S.searched on.now) store.old store.new }
    ensures no_less { room store.old ≤ room store.new }
    ensures short { IsShortAt (S.searched on.now) store.new result }
{
    let height = catcher(store, spot.frame);
    if height == 0 {
        return Err(Stop::Verb(acting));
    }
    store.undo_spans(height as usize, registers);
    Ok(Next::Back)
}

/// Whether a frame catches a THEN that no branch in it does, as a lookaround and a call do.
fn is_catching_then(frame: &Record) -> bool
    ensures { result ≡ is_catching_then (entry_of frame.now) }
{
    if frame.kind == KIND_LOOK_OPEN {
        return true;
    }
    if frame.kind == KIND_LOOK_ALL_OPEN {
        return true;
    }
    is_catching(frame)
}

/// The height at which a branch began in the frame at a height, where `top` is that of the newest record: the frame's
/// records that the branch has left stand at its place in the pattern or behind it, and those before it stand before.
fn began<S: Searchable>(on: &S, store: &Store, frame: u32, branch: u32, top: usize) -> usize
    requires sound { AreSoundParts (S.searched on.now) (entries store.now.records) }
    requires branch { branch ≤ (S.searched on.now).root }
    requires under { (S.searched on.now).under branch ≡ true }
    requires within { frame ≤ top }
    requires top { top ≤ length store.now.records }
    requires contained { IsContained frame (up_to top (entries store.now.records)) }
    ensures { result ≡ began (S.searched on.now) (up_to top (entries store.now.records))
        frame branch top }
{
    let start = on.rank(branch);
    let mut began = top;
    let mut height = top;
    'records: while height > frame as usize {
        let event = *store.get(height - 1);
        if event.link > frame {
            // all that was done since that frame began stands in it
            height = event.link as usize;
        } else if on.rank(event.node) < start {
            return began;
        } else {
            height -= 1;
            began = height;
        }
    }
    began
}

/// The height down to which a THEN in a part gives up what was done, so that the innermost branch around it fails, or
/// the innermost frame that catches it; none where the search of this start place ends.
fn left_height<S: Searchable>(on: &S, at: u32, spot: &Spot, store: &Store) -> Option<usize>
    requires sound { AreSoundParts (S.searched on.now) (entries store.now.records) }
    requires part { IsPart (S.searched on.now) at }
    requires within { spot.now.frame ≤ length store.now.records }
    requires contained { IsContained spot.now.frame (entries store.now.records) }
    ensures { result ≡ left_height (S.searched on.now) (entries store.now.records)
        spot.now.frame at }
{
    let mut part = at;
    let mut frame = spot.frame;
    let mut top = store.len();
    'frames: loop {
        if let Some(branch) = on.branch(part) {
            return Some(began(on, store, frame, branch, top));
        }
        if frame == 0 {
            return None;
        }
        top = frame as usize - 1;
        let event = *store.get(top);
        if is_catching_then(&event) {
            return Some(frame as usize);
        }
        part = event.node;
        frame = event.link;
    }
}

/// Leaves the branch that a THEN stands in.
pub fn leave<S: Searchable>(
    on: &S,
    at: u32,
    spot: &Spot,
    store: &mut Store,
    registers: &mut [Option<Span>],
) -> Result<Next, Stop>
    requires valid { IsValid (S.searched on.now)
        (over (Next.Leave at) spot.now store.old registers.old) }
    ensures on { StepsOn (S.searched on.now) (over (Next.Leave at) spot.now store.old registers.old)
        spot.now store.new registers.new result }
    ensures stop { EndsThere (S.searched on.now)
        (over (Next.Leave at) spot.now store.old registers.old) spot.now registers.new result }
    ensures peak { KeepsPeak (S.searched on.now) store.old store.new }
    ensures no_less { room store.old ≤ room store.new }
    ensures short { IsShortAt (S.searched on.now) store.new result }
{
    let Some(height) = left_height(on, at, spot, store) else {
        return Err(Stop::Verb(Acting::Prune));
    };
    store.undo_spans(height, registers);
    Ok(Next::Back)
}
