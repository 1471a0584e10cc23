//! The workspace of a search.
ghost use Rattle.std.specs.Prelude.{◌≡◌, ◌≤◌, ◌<◌, true, max, length, replicate, None, [], IsOk, OnOk, OnErr};
ghost use Rattle.std.specs.Prelude.{vec_capacity};
ghost use Rattle.frame_store.specs.Captures.{capture_if_any};
ghost use Rattle.pcre_io.specs.declared.callouts.Block.{Block};
ghost use Rattle.frame_state.specs.Answer.{IsAnswer, IsMark, IsSeen, SkipStands};
ghost use Rattle.frame_state.specs.Room.{IsQuiet};
ghost use Rattle.frame_state.specs.Shown.{IsReplied};
ghost use Rattle.frame_store.specs.Stack.{room};
ghost use Rattle.frame_machine.specs.Scratch.{HasRoom, IsOfSearch};
ghost use Rattle.ordered_search.specs.PlaceAnswer.{place_answer};

use crate::run::run;
use frame_state::answer::{PlaceAnswer, answer_of, last_of};
use frame_state::machine::Spot;
use frame_state::searchable::Searchable;
use frame_store::{Memory, Registers, Span, Store};
use pcre_io::Callouts;
use std::alloc::Global;
use std::marker::Model;

/// What a search needs beside the pattern and the subject: its records and its captures. A workspace serves any number
/// of searches, one after the other, and keeps the room that it has.
#[derive(Drop)]
pub struct Scratch {
    store: Store,
    registers: Registers,
    // A second set of registers, for the captures that a call gives back.
    bank: Registers,
    groups: u32,
    frames: u32,
    last_mark: Option<u32>,
}

impl Model for Scratch {
    ghost use Rattle.std.specs.Prelude.{◌≤◌, vec_capacity};
    ghost use Rattle.frame_store.specs.Stack.{room};
    ghost use Rattle.frame_machine.specs.Scratch.{Workspace};

    ghost Value = { Workspace };

    ghost view = { λ s. record {
      spans = s.registers.spans.items;
      groups = s.groups;
      frames = s.frames;
      peak = s.store.peak;
      last_mark = s.last_mark;
    } };

    ghost invariant = { λ s. (s.frames ≤ room s.store)
        × (s.groups ≤ vec_capacity s.registers.spans) × (s.groups ≤ vec_capacity s.bank.spans) };
}

impl Scratch {
    /// A workspace with no room. Takes no memory.
    pub fn new(alloc: Global) -> Scratch
        ensures { result
            ≡ record { spans = []; groups = 0; frames = 0; peak = 0; last_mark = None } }
    {
        Scratch {
            store: Store::new(alloc),
            registers: Registers::new(alloc),
            bank: Registers::new(alloc),
            groups: 0,
            frames: 0,
            last_mark: None,
        }
    }

    /// Makes room for searches of patterns with so many groups, under so high a frame limit. Want of memory alone
    /// refuses it, and leaves the room that was made before.
    pub fn reserve(&mut self, groups: u32, frames: u32) -> Result<(), Memory>
        requires { groups ≤ 65535 }
        ensures groups { OnOk result (self.new.groups ≡ max self.old.groups groups) }
        ensures frames { OnOk result (self.new.frames ≡ max self.old.frames frames) }
        ensures kept { self.new
            ≡ record self.old { groups = self.new.groups; frames = self.new.frames } }
        ensures refused { OnErr result (self.new ≡ self.old) }
    {
        self.store.cut(0);
        self.store.reserve(frames as usize)?;
        self.store.reserve_groups(groups)?;
        self.registers.reserve(groups)?;
        self.bank.reserve(groups)?;
        self.groups = self.groups.max(groups);
        self.frames = self.frames.max(frames);
        Ok(())
    }

    /// The greatest number of records that there has been.
    pub fn peak(&self) -> usize
        ensures { result ≡ self.now.peak }
    {
        self.store.peak()
    }

    /// The greatest number of groups that room was made for.
    pub fn groups(&self) -> u32
        ensures { result ≡ self.now.groups }
    {
        self.groups
    }

    /// The greatest number of records that room was made for.
    pub fn frames(&self) -> u32
        ensures { result ≡ self.now.frames }
    {
        self.frames
    }

    /// The text that a group captured in the match that the last search gave. None where there is no such group: groups
    /// are numbered from 1.
    pub fn span(&self, group: u32) -> Option<Span>
        ensures { result ≡ capture_if_any self.now.spans group }
    {
        if group == 0 || group as usize > self.registers.spans.len() {
            return None;
        }
        self.registers.get(group)
    }

    /// The last name that was met, in the last search that met one.
    pub fn last_mark(&self) -> Option<u32>
        ensures { result ≡ self.now.last_mark }
    {
        self.last_mark
    }

    /// Forgets the last name that was met.
    pub fn clear_mark(&mut self)
        ensures { self.new ≡ record self.old { last_mark = None } }
    {
        self.last_mark = None;
    }

    /// Leaves so many groups, none of them set, as a match that captures nothing does. Want of memory alone refuses it,
    /// where no room was made for them.
    pub fn unset(&mut self, groups: u32) -> Result<(), Memory>
        requires { groups ≤ 65535 }
        ensures unset { OnOk result (self.new.spans ≡ replicate groups None) }
        ensures kept { self.new ≡ record self.old { spans = self.new.spans } }
        ensures succeeds { groups ≤ self.old.groups → IsOk result }
    {
        self.registers.clear();
        self.registers.grow(groups)
    }
}

/// Makes a workspace ready for a search: no records, and so many unset registers, with a bank for as many. Want of
/// memory alone refuses it, where no room was made for them, for `reserved` groups.
fn prepare(
    groups: u32,
    reserved: u32,
    store: &mut Store,
    registers: &mut Registers,
    bank: &mut Registers,
) -> Result<(), Memory>
    requires { groups ≤ 65535 }
    ensures empty { store.new.records ≡ [] }
    ensures unset { OnOk result (registers.new.spans.items ≡ replicate groups None) }
    ensures bank { OnOk result (length bank.new.spans.items ≡ groups) }
    ensures peak { store.new.peak ≡ store.old.peak }
    ensures no_less { room store.old ≤ room store.new }
    ensures no_fewer { vec_capacity registers.old.spans ≤ vec_capacity registers.new.spans }
    ensures no_smaller { vec_capacity bank.old.spans ≤ vec_capacity bank.new.spans }
    ensures succeeds { groups ≤ reserved → groups ≤ vec_capacity registers.old.spans
        → groups ≤ vec_capacity bank.old.spans → IsOk result }
{
    store.cut(0);
    if groups > reserved {
        store.reserve_groups(groups)?;
    }
    store.expect_groups(groups);
    registers.clear();
    registers.grow(groups)?;
    bank.clear();
    bank.grow(groups)
}

/// Searches at one place. It answers what the ordered search of the definitions answers there, with the captures of a
/// match in the workspace (pcre2matching, "The standard matching algorithm").
pub fn search_at<S: Searchable, C: Callouts>(
    on: &S,
    place: u64,
    scratch: &mut Scratch,
    calls: &mut C,
) -> PlaceAnswer
    requires place { (S.searched on.now).stands place ≡ true }
    requires replied { IsReplied (S.searched on.now).setting (C.answers calls.old) }
    ensures answer { IsAnswer result scratch.new.spans
        (place_answer (S.searched on.now).setting place) }
    ensures mark { IsMark result scratch.old.last_mark scratch.new.last_mark
        (place_answer (S.searched on.now).setting place) }
    ensures skip { SkipStands (S.searched on.now).stands result }
    ensures seen { IsSeen result (C.seen calls.old) (C.seen calls.new)
        (place_answer (S.searched on.now).setting place) }
    ensures rule { (block : Block) → C.answers calls.new block ≡ C.answers calls.old block }
    ensures peak { scratch.new.peak ≤ max scratch.old.peak
        (S.searched on.now).setting.matching.frame_limit }
    ensures groups { scratch.new.groups ≡ scratch.old.groups }
    ensures frames { scratch.new.frames ≡ scratch.old.frames }
    ensures reserved { HasRoom scratch.old (S.searched on.now).setting.groups
        (S.searched on.now).setting.matching.frame_limit
        → IsQuiet C.refuses (C.answers calls.old) → IsOfSearch result }
{
    let groups = on.groups();
    let ready = prepare(
        groups,
        scratch.groups,
        &mut scratch.store,
        &mut scratch.registers,
        &mut scratch.bank,
    );
    if ready.is_err() {
        return PlaceAnswer::Memory;
    }
    let mut spot = Spot::at(place);
    let stop = run(
        on,
        place,
        &mut spot,
        &mut scratch.store,
        scratch.registers.spans.as_mut_slice(),
        scratch.bank.spans.as_mut_slice(),
        calls,
    );
    scratch.last_mark = last_of(spot.last.name, scratch.last_mark);
    answer_of(stop, &spot)
}
