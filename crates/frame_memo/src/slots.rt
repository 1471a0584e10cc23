ghost use Rattle.std.specs.Prelude.{◌≡◌, ℕ, ◌+◌, ◌*◌, ◌/◌, ◌%◌, ◌<◌, ◌≤◌, ◌≢◌, ◌⊎◌, ◌∷◌, true, length};
ghost use Rattle.std.specs.Prelude.{All, MatchOption};
ghost use Rattle.std.specs.Bool.{OnTrue, OnFalse};
ghost use Rattle.std.specs.List.{Contains};
ghost use Rattle.frame_memo.specs.Slots.{blank, key_of, failure_of, kept, home, IsAtHome, AreAtHome};

use crate::failure::{Cost, Failure, Key};

/// The slots of a set. A failure stands in the set that its key names.
pub(crate) const WAYS: usize = 4;

/// The slots of a table that begins: 32 KiB.
const FIRST: usize = 1024;

/// The most slots of a table: 8 MiB.
pub(crate) const MOST: usize = 262_144;

const SITE_STEP: u64 = 0x9e37_79b9_7f4a_7c15;

const BITS_STEP: u64 = 0xc2b2_ae3d_27d4_eb4f;

const SPREAD: u64 = 0xd6e8_feb8_6659_fd93;

/// A failure, or nothing. The fields lie side by side, so that a slot has no gap.
#[derive(Clone, Copy, Debug, PartialEq, Eq)]
pub(crate) struct Slot {
    pub place: u64,
    pub bits: u64,
    pub site: u32,
    pub steps: u32,
    pub most: u32,
    pub is_used: bool,
}

const _: () = prove!(size_of::<Slot>() == 32);

const BLANK: Slot = Slot {
    place: 0,
    bits: 0,
    site: 0,
    steps: 0,
    most: 0,
    is_used: false,
};

/// The set of a key, among so many.
fn home(key: &Key, sets: usize) -> usize
    requires some { 0 < sets }
    requires few { sets ≤ 65536 }
    ensures is { result ≡ home key.now sets }
    ensures within { result < sets }
{
    let mixed = key
        .place
        .wrapping_add(u64::from(key.site).wrapping_mul(SITE_STEP))
        .wrapping_add(key.bits.wrapping_mul(BITS_STEP));
    let spread = (mixed.wrapping_mul(SPREAD) >> 32) as usize;
    (spread * sets) >> 32
}

/// The key of a slot.
fn key_of(slot: &Slot) -> Key
    ensures { result ≡ key_of slot.now }
{
    Key {
        place: slot.place,
        bits: slot.bits,
        site: slot.site,
    }
}

/// Whether a slot has a failure of this key.
fn has_key(slot: &Slot, key: &Key) -> bool
    ensures yes { OnTrue result ((slot.now.is_used ≡ true) × (key_of slot.now ≡ key.now)) }
    ensures no { OnFalse result (slot.now.is_used ≡ true → key_of slot.now ≢ key.now) }
{
    slot.is_used && key_of(slot) == *key
}

/// The cost that these slots keep for a key, if they keep one.
pub(crate) fn find(slots: &[Slot], key: &Key) -> Option<Cost>
    requires sets { length slots.now % 4 ≡ 0 }
    requires few { length slots.now ≤ 262144 }
    requires at_home { AreAtHome slots.now }
    ensures { MatchOption result (All (λ f. f.key ≢ key.now) (kept slots.now))
        (λ cost. Contains (kept slots.now) (record { key = key.now; cost = cost })) }
{
    if slots.is_empty() {
        return None;
    }
    let base = home(key, slots.len() / WAYS) * WAYS;
    'ways: for i in base..base + WAYS {
        if has_key(&slots[i], key) {
            return Some(Cost {
                steps: slots[i].steps,
                most: slots[i].most,
            });
        }
    }
    None
}

/// The slot for a failure in the set that begins there: one that has its key or is free, else the
/// one whose turn it is.
fn way_for(slots: &[Slot], base: usize, key: &Key, turn: usize) -> usize
    requires { base + 4 ≤ length slots.now }
    ensures { (base ≤ result) × (result < base + 4) }
{
    'ways: for i in base..base + WAYS {
        if !slots[i].is_used || has_key(&slots[i], key) {
            return i;
        }
    }
    base + turn % WAYS
}

/// Keeps a failure, in place of one that stood in its slot, and gives the number of free slots that
/// it took. Where no slot in its set is free, the turn says which.
pub(crate) fn store(slots: &mut [Slot], failure: Failure, turn: usize) -> usize
    requires some { 0 < length slots.old }
    requires sets { length slots.old % 4 ≡ 0 }
    requires few { length slots.old ≤ 262144 }
    requires at_home { AreAtHome slots.old }
    ensures stored { Contains (kept slots.new) failure }
    ensures no_other { All (Contains (failure ∷ kept slots.old)) (kept slots.new) }
    ensures at_home { AreAtHome slots.new }
{
    let base = home(&failure.key, slots.len() / WAYS) * WAYS;
    let way = way_for(slots, base, &failure.key, turn);
    let took = if slots[way].is_used { 0 } else { 1 };
    slots[way] = Slot {
        place: failure.key.place,
        bits: failure.key.bits,
        site: failure.key.site,
        steps: failure.cost.steps,
        most: failure.cost.most,
        is_used: true,
    };
    took
}

/// Makes room for further failures where half of the slots are taken, up to `most` slots. It gives
/// the most slots that there may be from now on, which are fewer where memory is wanting.
pub(crate) fn make_room(slots: &mut Vec<Slot>, taken: usize, most: usize) -> usize
    requires sets { length slots.old.items % 4 ≡ 0 }
    requires few { length slots.old.items ≤ 262144 }
    requires at_home { AreAtHome slots.old.items }
    requires bounded { most ≤ 262144 }
    ensures bounded { result ≤ 262144 }
    ensures some { 0 < result → 0 < length slots.new.items }
    ensures sets { length slots.new.items % 4 ≡ 0 }
    ensures few { length slots.new.items ≤ 262144 }
    ensures no_other { All (Contains (kept slots.old.items)) (kept slots.new.items) }
    ensures at_home { AreAtHome slots.new.items }
{
    let len = slots.len();
    if taken < len / 2 || len > most / 2 {
        return most;
    }
    if grow(slots) { most } else { len }
}

/// Doubles the slots, or makes the first. Want of memory alone refuses it, and changes nothing.
fn grow(slots: &mut Vec<Slot>) -> bool
    requires sets { length slots.old.items % 4 ≡ 0 }
    requires few { length slots.old.items ≤ 131072 }
    ensures grown { OnTrue result (0 < length slots.new.items) }
    ensures sets { length slots.new.items % 4 ≡ 0 }
    ensures few { length slots.new.items ≤ 262144 }
    ensures no_other { All (Contains (kept slots.old.items)) (kept slots.new.items) }
    ensures at_home { OnTrue result (AreAtHome slots.new.items) }
    ensures refused { OnFalse result (slots.new.items ≡ slots.old.items) }
{
    let len = slots.len();
    let more = if len == 0 { FIRST } else { len * 2 };
    if slots.resize(more, BLANK).is_err() {
        return false;
    }
    move_home(slots.as_mut_slice(), len);
    true
}

/// Moves each failure among the first `len` slots into its set. There is none in a later slot yet.
/// A set goes to one of two that stand where it stood or later: the last goes first, so that none
/// is lost.
fn move_home(slots: &mut [Slot], len: usize)
    requires within { len ≤ length slots.old }
    requires some { 0 < length slots.old }
    requires sets { length slots.old % 4 ≡ 0 }
    requires few { length slots.old ≤ 262144 }
    requires blank { (i : ℕ) → len ≤ i → IsAtHome slots.old i }
    ensures no_other { All (Contains (kept slots.old)) (kept slots.new) }
    ensures at_home { AreAtHome slots.new }
{
    'slots: for i in (0..len).rev() {
        move_one(slots, i);
    }
}

/// Moves the failure in a slot into its set, to the same way.
fn move_one(slots: &mut [Slot], i: usize)
    requires within { i < length slots.old }
    requires sets { length slots.old % 4 ≡ 0 }
    requires few { length slots.old ≤ 262144 }
    ensures no_other { All (Contains (kept slots.old)) (kept slots.new) }
    ensures at_home { (k : ℕ) → (k ≡ i) ⊎ IsAtHome slots.old k → IsAtHome slots.new k }
{
    let slot = slots[i];
    let set = home(&key_of(&slot), slots.len() / WAYS);
    if slot.is_used && set != i / WAYS {
        slots[i] = BLANK;
        slots[set * WAYS + i % WAYS] = slot;
    }
}
