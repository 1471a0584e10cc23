// Sets of bytes.
ghost use Rattle.std.specs.Prelude.{◌≡◌, ℕ, ◌<◌, ◌==◌, ◌||◌, List, Bool, true, false, IfSome, length, slice_index};
ghost use Rattle.std.specs.Prelude.{bit_or};
ghost use Rattle.byte_lanes.specs.Lanes.{HasLanes};
ghost use Rattle.byte_lanes.specs.Members.{AreMembers};
ghost use Rattle.byte_lanes.specs.Sets.{flags, flag, has_byte};

use crate::byte_test::{OneByte, ThreeBytes, TwoBytes};
use crate::lanes::{both, by_high_nibble, by_low_nibble, by_top, same};
use crate::members::Members;
use std::marker::Model;
use std::simd::prelude::*;

// The bit that stands for the high half of a byte, at that half's place.
const BITS: [u8; 16] = [1, 2, 4, 8, 16, 32, 64, 128, 1, 2, 4, 8, 16, 32, 64, 128];

/// A set of byte values, for [`find_in_set`]. Contracts see it as a list of 256 flags, one for each byte.
// Byte b is bit b / 16 % 8 of entry b % 16 of `low` or, from 128 on, of `high`.
#[derive(Drop)]
pub struct ByteSet {
    low: [u8; 16],
    high: [u8; 16],
    members: Members,
}

impl Model for ByteSet {
    ghost Value = { List Bool };

    ghost view = { λ s. flags s.low s.high };

    ghost invariant = { λ s. AreMembers s.members (flags s.low s.high) };
}

// Each row with the bits of both tables.
fn joined(one: &[u8; 16], other: &[u8; 16]) -> [u8; 16]
    ensures long { length result ≡ 16 }
    ensures rows { (i : ℕ) → i < 16
        → slice_index result i ≡ bit_or (slice_index one.now i) (slice_index other.now i) }
{
    let mut rows = *one;
    for i in 0..16 {
        rows[i] |= other[i];
    }
    rows
}

fn three(one: u8, other: u8, third: u8) -> ThreeBytes
    ensures one { result.one ≡ one }
    ensures other { result.other ≡ other }
    ensures third { result.third ≡ third }
{
    ThreeBytes { one, other, third }
}

impl ByteSet {
    /// The set without members.
    pub fn empty() -> ByteSet
        ensures { (b : ℕ) → has_byte result b ≡ false }
    {
        ByteSet {
            low: [0; 16],
            high: [0; 16],
            members: Members::No,
        }
    }

    /// Adds `b`. Every other byte stays a member or stays none.
    pub fn insert(&mut self, b: u8)
        ensures { (k : ℕ) → has_byte self.new k ≡ (has_byte self.old k || k == b) }
    {
        self.members = self.members.with(b);
        let row = (b % 16) as usize;
        if b < 128 {
            self.low[row] |= 1 << (b / 16);
        } else {
            self.high[row] |= 1 << (b / 16 - 8);
        }
    }

    /// Adds the members of another set.
    pub fn add(&mut self, more: &ByteSet)
        ensures { (k : ℕ) → has_byte self.new k ≡ (has_byte self.old k || has_byte more.now k) }
    {
        self.low = joined(&self.low, &more.low);
        self.high = joined(&self.high, &more.high);
        self.members = self.members.joined(more.members);
    }

    /// A set with the same members.
    pub fn copied(&self) -> ByteSet
        ensures { result ≡ self.now }
    {
        ByteSet {
            low: self.low,
            high: self.high,
            members: self.members,
        }
    }

    /// Whether `b` is a member.
    #[inline]
    pub fn has(&self, b: u8) -> bool
        ensures { result ≡ has_byte self.now b }
    {
        let row = (b % 16) as usize;
        if b < 128 {
            (self.low[row] >> (b / 16)) & 1 == 1
        } else {
            (self.high[row] >> (b / 16 - 8)) & 1 == 1
        }
    }

    /// Whether it is small: known to have one member, two or three. So it is looked for by comparing.
    pub fn is_small(&self) -> bool
        ensures { result ≡ true → (x : ℕ) × ((y : ℕ) × ((z : ℕ)
            × ((b : ℕ) → has_byte self.now b ≡ (b == x || b == y || b == z)))) }
    {
        self.as_three().is_some()
    }

    // A test of its members, where it is known to have one alone.
    pub(crate) fn as_one(&self) -> Option<OneByte>
        ensures { IfSome result (λ t. (b : ℕ) → has_byte self.now b ≡ (b == t.byte)) }
    {
        match self.members {
            Members::One(byte) => Some(OneByte { byte }),
            _ => None,
        }
    }

    // The same of one or two.
    pub(crate) fn as_two(&self) -> Option<TwoBytes>
        ensures { IfSome result (λ t. (b : ℕ)
            → has_byte self.now b ≡ (b == t.one || b == t.other)) }
    {
        match self.members {
            Members::One(one) => Some(TwoBytes { one, other: one }),
            Members::Two(one, other) => Some(TwoBytes { one, other }),
            _ => None,
        }
    }

    // The same of one to three.
    pub(crate) fn as_three(&self) -> Option<ThreeBytes>
        ensures { IfSome result (λ t. (b : ℕ)
            → has_byte self.now b ≡ (b == t.one || b == t.other || b == t.third)) }
    {
        match self.members {
            Members::One(one) => Some(three(one, one, one)),
            Members::Two(one, other) => Some(three(one, other, other)),
            Members::Three(one, other, third) => Some(three(one, other, third)),
            _ => None,
        }
    }

    // All bits of each lane whose byte is a member. The low half of a byte picks its row of bits, and
    // the high half the bit of that row.
    #[inline(always)]
    pub(crate) fn lanes(&self, v: u8x32) -> u8x32
        ensures { HasLanes result (λ k. flag (has_byte self.now (slice_index v k))) }
    {
        let rows = by_top(v, by_low_nibble(&self.low, v), by_low_nibble(&self.high, v));
        let bits = by_high_nibble(&BITS, v);
        same(both(rows, bits), bits)
    }
}
