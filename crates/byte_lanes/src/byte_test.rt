// Tests of bytes, of 32 at a time or of one.
ghost use Rattle.std.specs.Prelude.{◌≡◌, ℕ, ◌==◌, ◌||◌, Bool, slice_index};
ghost use Rattle.byte_lanes.specs.Lanes.{HasLanes};
ghost use Rattle.byte_lanes.specs.Sets.{flag, has_byte};

use crate::byte_set::ByteSet;
use crate::lanes::{either, equal_to};
use std::simd::prelude::*;

// A search is compiled for each kind of test. So the kind is chosen before its loop: in the loop the choice
// would keep the vectors from registers.
pub(crate) trait ByteTest {
    ghost passes: { Self → ℕ → Bool };

    // All bits of each lane whose byte passes.
    fn lanes(&self, v: u8x32) -> u8x32
        ensures { HasLanes result (λ k. flag (passes self.now (slice_index v k))) };

    fn has(&self, b: u8) -> bool
        ensures { result ≡ passes self.now b };
}

#[derive(Drop)]
pub(crate) struct OneByte {
    pub byte: u8,
}

impl ByteTest for OneByte {
    ghost passes = { λ s b. b == s.byte };

    #[inline(always)]
    fn lanes(&self, v: u8x32) -> u8x32 {
        equal_to(v, self.byte)
    }

    #[inline(always)]
    fn has(&self, b: u8) -> bool {
        b == self.byte
    }
}

// Two bytes, which may be one.
#[derive(Drop)]
pub(crate) struct TwoBytes {
    pub one: u8,
    pub other: u8,
}

impl ByteTest for TwoBytes {
    ghost passes = { λ s b. b == s.one || b == s.other };

    #[inline(always)]
    fn lanes(&self, v: u8x32) -> u8x32 {
        either(equal_to(v, self.one), equal_to(v, self.other))
    }

    #[inline(always)]
    fn has(&self, b: u8) -> bool {
        b == self.one || b == self.other
    }
}

// Three bytes, of which some may be one.
#[derive(Drop)]
pub(crate) struct ThreeBytes {
    pub one: u8,
    pub other: u8,
    pub third: u8,
}

impl ByteTest for ThreeBytes {
    ghost passes = { λ s b. b == s.one || b == s.other || b == s.third };

    #[inline(always)]
    fn lanes(&self, v: u8x32) -> u8x32 {
        let two = either(equal_to(v, self.one), equal_to(v, self.other));
        either(two, equal_to(v, self.third))
    }

    #[inline(always)]
    fn has(&self, b: u8) -> bool {
        b == self.one || b == self.other || b == self.third
    }
}

// The members of a set.
#[derive(Drop)]
pub(crate) struct InSet<'a> {
    pub set: &'a ByteSet,
}

impl<'a> ByteTest for InSet<'a> {
    ghost passes = { λ s. has_byte s.set.now };

    #[inline(always)]
    fn lanes(&self, v: u8x32) -> u8x32 {
        self.set.lanes(v)
    }

    #[inline(always)]
    fn has(&self, b: u8) -> bool {
        self.set.has(b)
    }
}
