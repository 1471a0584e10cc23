// Places of bytes of sets: of one, of two so far apart, and of three in a row.
ghost use Rattle.std.specs.Prelude.{◌≡◌, ◌+◌, ◌-◌, ◌<◌, ◌≤◌, true, length, slice_index};
ghost use Rattle.byte_lanes.specs.Places.{IsLeast, least_from};
ghost use Rattle.byte_lanes.specs.Sets.{has_byte, IsIn, AreIn, AreInRow, ArePassed, ArePassedInRow};

use crate::byte_set::ByteSet;
use crate::byte_test::{ByteTest, InSet};
use crate::lanes::{both, load};
use crate::scan;
use crate::scan::Probe;
use std::simd::prelude::*;

/// The least place of `bytes` at or past `from` whose byte is in the set, and the length where there is none.
/// `from` is at most the length. It costs least for a set of one byte, two or three, and the same for every other.
pub fn find_in_set(bytes: &[u8], from: usize, set: &ByteSet) -> usize
    requires { from ≤ length bytes.now }
    ensures least { IsLeast (IsIn set.now bytes.now) from (length bytes.now) result }
    ensures value { result
        ≡ least_from (λ k. has_byte set.now (slice_index bytes.now k)) from (length bytes.now) }
{
    if let Some(test) = set.as_one() {
        return find(bytes, from, test);
    }
    if let Some(test) = set.as_two() {
        return find(bytes, from, test);
    }
    if let Some(test) = set.as_three() {
        return find(bytes, from, test);
    }
    find(bytes, from, InSet { set })
}

fn find<T: ByteTest + Drop>(bytes: &[u8], from: usize, test: T) -> usize
    requires { from ≤ length bytes.now }
    ensures { IsLeast (λ k. T.passes test (slice_index bytes.now k) ≡ true)
        from (length bytes.now) result }
{
    scan::least(&One { bytes, test }, from, bytes.len())
}

/// The least place of `bytes` at or past `from` whose byte is in one set while the byte `apart` places
/// behind it is in the other, and the length where there is none. `from` is at most the length. It costs least where
/// both sets are small.
pub fn find_in_two_sets(
    bytes: &[u8],
    from: usize,
    one: &ByteSet,
    apart: usize,
    other: &ByteSet,
) -> usize
    requires { from ≤ length bytes.now }
    ensures { IsLeast (AreIn one.now apart other.now bytes.now) from (length bytes.now) result }
{
    if let (Some(one), Some(other)) = (one.as_one(), other.as_one()) {
        return find_apart(bytes, from, one, apart, other);
    }
    if let (Some(one), Some(other)) = (one.as_two(), other.as_two()) {
        return find_apart(bytes, from, one, apart, other);
    }
    match (one.as_three(), other.as_three()) {
        (Some(one), Some(other)) => find_apart(bytes, from, one, apart, other),
        (Some(one), None) => find_apart(bytes, from, one, apart, InSet { set: other }),
        (None, Some(other)) => find_apart(bytes, from, InSet { set: one }, apart, other),
        (None, None) => find_apart(bytes, from, InSet { set: one }, apart, InSet { set: other }),
    }
}

fn find_apart<A: ByteTest + Drop, B: ByteTest + Drop>(
    bytes: &[u8],
    from: usize,
    one: A,
    apart: usize,
    other: B,
) -> usize
    requires { from ≤ length bytes.now }
    ensures { IsLeast (ArePassed (A.passes one) apart (B.passes other) bytes.now)
        from (length bytes.now) result }
{
    if bytes.len() - from <= apart {
        return bytes.len();
    }
    let to = bytes.len() - apart;
    let probe = Apart {
        bytes,
        one,
        apart,
        other,
    };
    let found = scan::least(&probe, from, to);
    if found < to { found } else { bytes.len() }
}

/// The least place of `bytes` at or past `from` whose byte is in the first set while the two behind it are in the
/// others, and the length where there is none. `from` is at most the length. It costs least where each set is small.
pub fn find_in_three_sets(
    bytes: &[u8],
    from: usize,
    first: &ByteSet,
    second: &ByteSet,
    third: &ByteSet,
) -> usize
    requires { from ≤ length bytes.now }
    ensures { IsLeast (AreInRow first.now second.now third.now bytes.now)
        from (length bytes.now) result }
{
    if let (Some(a), Some(b), Some(c)) = (first.as_one(), second.as_one(), third.as_one()) {
        return find_row(bytes, from, a, b, c);
    }
    if let (Some(a), Some(b), Some(c)) = (first.as_two(), second.as_two(), third.as_two()) {
        return find_row(bytes, from, a, b, c);
    }
    if let (Some(a), Some(b), Some(c)) = (first.as_three(), second.as_three(), third.as_three()) {
        return find_row(bytes, from, a, b, c);
    }
    let (first, second) = (InSet { set: first }, InSet { set: second });
    find_row(bytes, from, first, second, InSet { set: third })
}

fn find_row<T: ByteTest + Drop>(bytes: &[u8], from: usize, first: T, second: T, third: T) -> usize
    requires { from ≤ length bytes.now }
    ensures { IsLeast (ArePassedInRow (T.passes first) (T.passes second) (T.passes third) bytes.now)
        from (length bytes.now) result }
{
    if bytes.len() - from <= 2 {
        return bytes.len();
    }
    let to = bytes.len() - 2;
    let probe = Row {
        bytes,
        first,
        second,
        third,
    };
    let found = scan::least(&probe, from, to);
    if found < to { found } else { bytes.len() }
}

// The places whose byte passes.
#[derive(Drop)]
struct One<'a, T> {
    bytes: &'a [u8],
    test: T,
}

impl<'a, T: ByteTest + Drop> Probe for One<'a, T> {
    ghost places = { λ s. length s.bytes.now };

    ghost hit = { λ s k. T.passes s.test (slice_index s.bytes.now k) ≡ true };

    #[inline(always)]
    fn lanes(&self, i: usize) -> u8x32 {
        self.test.lanes(load(self.bytes, i))
    }

    #[inline(always)]
    fn confirm(&self, i: usize) -> bool {
        let bytes = self.bytes;
        self.test.has(bytes[i])
    }
}

// The places whose byte passes one test and has one that passes the other so many places behind it.
#[derive(Drop)]
struct Apart<'a, A, B> {
    bytes: &'a [u8],
    one: A,
    apart: usize,
    other: B,
}

impl<'a, A: ByteTest + Drop, B: ByteTest + Drop> Probe for Apart<'a, A, B> {
    ghost places = { λ s. length s.bytes.now - s.apart };

    ghost hit = { λ s. ArePassed (A.passes s.one) s.apart (B.passes s.other) s.bytes.now };

    #[inline(always)]
    fn lanes(&self, i: usize) -> u8x32 {
        let here = self.one.lanes(load(self.bytes, i));
        let there = self.other.lanes(load(self.bytes, i + self.apart));
        both(here, there)
    }

    #[inline(always)]
    fn confirm(&self, i: usize) -> bool {
        let bytes = self.bytes;
        self.one.has(bytes[i]) && self.other.has(bytes[i + self.apart])
    }
}

// The places whose byte and the two behind it pass three tests.
#[derive(Drop)]
struct Row<'a, T> {
    bytes: &'a [u8],
    first: T,
    second: T,
    third: T,
}

impl<'a, T: ByteTest + Drop> Probe for Row<'a, T> {
    ghost places = { λ s. length s.bytes.now - 2 };

    ghost hit = { λ s. ArePassedInRow (T.passes s.first) (T.passes s.second) (T.passes s.third)
        s.bytes.now };

    #[inline(always)]
    fn lanes(&self, i: usize) -> u8x32 {
        let first = self.first.lanes(load(self.bytes, i));
        let second = self.second.lanes(load(self.bytes, i + 1));
        let third = self.third.lanes(load(self.bytes, i + 2));
        both(both(first, second), third)
    }

    #[inline(always)]
    fn confirm(&self, i: usize) -> bool {
        let bytes = self.bytes;
        self.first.has(bytes[i]) && self.second.has(bytes[i + 1]) && self.third.has(bytes[i + 2])
    }
}
