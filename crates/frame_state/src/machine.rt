//! The machine's state.
ghost use Rattle.std.specs.Prelude.{◌≡◌, ◌≤◌, ◌<◌, ◌∷◌, max, length, OnOk, OnErr, IfErr};
ghost use Rattle.frame_store.specs.Stack.{room};
ghost use Rattle.frame_state.specs.Room.{IsShort};
ghost use Rattle.frame_store.specs.Entry.{site_of, kept_of};
ghost use Rattle.frame_state.specs.Stops.{IsHeldStop, held_spot, record_at, restored};

use frame_store::{Record, Store};

/// What the machine does next.
#[derive(Clone, Copy)]
pub enum Next {
    /// Run this part.
    Enter(u32),
    /// Try this branch of a group, counted from 0, and then those after it.
    Branch(u32, u32),
    /// Try this branch of a lookbehind from so many characters back, and then those fewer, down to its least length.
    Try(u32, u32),
    /// Offer a further turn of this repeat, and its exit, after so many turns.
    Offer(u32, u32),
    /// Begin a further turn of this repeat after so many turns. The exit is left to try where it is set.
    Begin(u32, u32, bool),
    /// Go on after this repeat of one item at the last place. Then those before it are left, back to the least.
    Fewer(u32, u64, u64),
    /// Go on after this repeat of one item at the last place, after so many items. Then further items are left.
    More(u32, u32, u64),
    /// The innermost frame, or the pattern, has ended.
    End,
    /// The frame of a lookbehind has ended with a try of a branch, which counts where it ends at the lookbehind's place.
    Settle,
    /// Go back to the newest record.
    Back,
    /// ACCEPT has ended the innermost frame, or the pattern.
    Accept,
    /// A verb in the innermost frame was backtracked onto.
    Act(Acting),
    /// This part, a THEN, was backtracked onto.
    Leave(u32),
}

/// What a verb does that is backtracked onto, where nothing catches it.
#[derive(Clone, Copy)]
pub enum Acting {
    /// This start place fails.
    Prune,
    /// This start place fails, and the search goes on at a place.
    Skip(u64),
    /// No start place follows.
    Commit,
}

/// Where the path stands, and how many Steps are left.
#[derive(Clone, Copy)]
pub struct Spot {
    pub place: u64,
    pub keep: u64,
    pub early: u64,
    pub units: u32,
    /// The number of the last mark, and 1 more; 0 where there is none.
    pub mark: u32,
    pub passed: u32,
    /// The height of the innermost frame, or 0.
    pub frame: u32,
    pub left: u32,
    pub last: Met,
}

/// What was met on any path up to now.
#[derive(Clone, Copy)]
pub struct Met {
    /// The number of the last name, and 1 more; 0 where there is none.
    pub name: u32,
    /// Whether the subject's end was reached where that counts (pcre2partial, "Requirements for a
    /// partial match").
    pub hit: bool,
}

/// Why the machine stops.
#[derive(Clone, Copy)]
pub enum Stop {
    Match,
    NoMatch,
    /// The subject's end was reached under hard partial matching.
    Partial,
    /// A verb was backtracked onto, and nothing caught it.
    Verb(Acting),
    MatchLimit,
    FrameLimit,
    /// A call at the place of an active call of the same group.
    Loop,
    /// A callout ended the match with this number.
    Abort(i32),
    Memory,
}

impl Spot {
    /// At a place, with nothing held.
    pub fn at(place: u64) -> Spot {
        Spot {
            place,
            keep: place,
            early: place,
            units: 0,
            mark: 0,
            passed: 0,
            frame: 0,
            left: 0,
            last: Met {
                name: 0,
                hit: false,
            },
        }
    }

    /// The record of an event at a part, which keeps the path as it is.
    pub fn record(&self, kind: u8, node: u32, count: u32, from: u64, to: u64) -> Record
        ensures { result ≡ record_at self.now kind node count from to }
    {
        Record {
            kind,
            slot: 0,
            node,
            link: self.frame,
            mark: self.mark,
            passed: self.passed,
            units: self.units,
            count,
            place: self.place,
            keep: self.keep,
            early: self.early,
            from,
            to,
        }
    }

    /// Goes back to the path that a record kept.
    pub fn restore(&mut self, kept: &Record)
        ensures { self.new ≡ restored self.old (site_of kept.now) (kept_of kept.now) }
    {
        self.place = kept.place;
        self.keep = kept.keep;
        self.early = kept.early;
        self.units = kept.units;
        self.mark = kept.mark;
        self.passed = kept.passed;
        self.frame = kept.link;
    }
}

/// Holds a unit more, and pushes a record of it.
pub fn hold(limit: u32, event: Record, spot: &mut Spot, store: &mut Store) -> Result<(), Stop>
    requires { length store.old.records ≤ spot.old.units }
    ensures room { OnOk result (spot.old.units < limit) }
    ensures spot { OnOk result (spot.new ≡ held_spot spot.old) }
    ensures pushed { OnOk result (store.new.records ≡ event ∷ store.old.records) }
    ensures stop { IfErr result (λ stop. IsHeldStop stop limit spot.old.units) }
    ensures last { spot.new.last ≡ spot.old.last }
    ensures kept { OnErr result (spot.new ≡ spot.old) }
    ensures peak { store.new.peak ≤ max store.old.peak limit }
    ensures no_less { room store.old ≤ room store.new }
    ensures short { IfErr result (λ stop. IsShort stop limit store.new) }
{
    if spot.units >= limit {
        return Err(Stop::FrameLimit);
    }
    if store.push(event).is_err() {
        return Err(Stop::Memory);
    }
    spot.units += 1;
    Ok(())
}
