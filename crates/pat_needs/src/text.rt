// Texts whose bytes are each of a set, and where such a text stands.
ghost use Rattle.std.specs.Prelude.{◌≡◌, ◌↔◌, ℕ, ◌+◌, ◌<◌, ◌≤◌, ◌∷◌, [], List, None, Some, IsTrue, MatchOption};
ghost use Rattle.std.specs.Prelude.{length, replicate};
ghost use Rattle.byte_lanes.specs.Places.{IsLeast};
ghost use Rattle.byte_lanes.specs.Sets.{AreIn};
ghost use Rattle.pat_needs.specs.Texts.{sets_of, Stands, AreUnions, IsUnion, IsUnionOf};

use byte_lanes::{ByteSet, find_in_set, find_in_three_sets, find_in_two_sets};

/// A text of one to three bytes, each of which is any of a set. Without a second set the third isn't read.
#[derive(Drop)]
pub struct ByteText {
    pub first: ByteSet,
    pub second: Option<ByteSet>,
    pub third: Option<ByteSet>,
    /// The place of the byte that is looked for first, 0 to 2: the rarest.
    pub anchor: usize,
}

// Two bytes that stand next to each other, and the place of the first.
#[derive(Drop)]
struct Pair<'a> {
    place: usize,
    one: &'a ByteSet,
    other: &'a ByteSet,
}

impl ByteText {
    /// A text of one byte.
    pub fn one(first: ByteSet) -> ByteText
        ensures first { result.first ≡ first }
        ensures second { result.second ≡ None }
    {
        ByteText {
            first,
            second: None,
            third: None,
            anchor: 0,
        }
    }

    /// A text of so many bytes of a set.
    pub(crate) fn repeated(set: ByteSet, places: u16) -> ByteText
        requires some { 0 < places }
        requires most { places ≤ 3 }
        ensures { sets_of result ≡ replicate places set }
    {
        match places {
            1 => ByteText::one(set),
            2 => ByteText::one(set.copied()).behind(set),
            _ => ByteText::one(set.copied()).behind(set.copied()).behind(set),
        }
    }

    /// A text that stands nowhere, to which others can be added by `either`.
    pub fn nowhere() -> ByteText
        ensures { (bytes : List ℕ) (k : ℕ) → ¬ Stands (sets_of result) bytes k }
    {
        ByteText {
            first: ByteSet::empty(),
            second: Some(ByteSet::empty()),
            third: Some(ByteSet::empty()),
            anchor: 0,
        }
    }

    /// How many bytes it has, 1 to 3.
    pub(crate) fn count(&self) -> usize
        ensures { result ≡ length (sets_of self.now) }
    {
        match (&self.second, &self.third) {
            (None, _) => 1,
            (Some(_), None) => 2,
            (Some(_), Some(_)) => 3,
        }
    }

    /// The same text.
    pub fn copied(&self) -> ByteText
        ensures first { result.first ≡ self.now.first }
        ensures second { result.second ≡ self.now.second }
        ensures third { result.third ≡ self.now.third }
    {
        ByteText {
            first: self.first.copied(),
            second: copied(&self.second),
            third: copied(&self.third),
            anchor: self.anchor,
        }
    }

    /// The same text, whose byte at this place is looked for first.
    pub(crate) fn looked_for(self, anchor: usize) -> ByteText
        ensures first { result.first ≡ self.first }
        ensures second { result.second ≡ self.second }
        ensures third { result.third ≡ self.third }
    {
        let mut text = self;
        text.anchor = anchor;
        text
    }

    /// A byte, and the first two of these behind it.
    pub(crate) fn behind(&self, first: ByteSet) -> ByteText
        ensures first { result.first ≡ first }
        ensures second { result.second ≡ Some self.now.first }
        ensures third { result.third ≡ self.now.second }
    {
        ByteText {
            first,
            second: Some(self.first.copied()),
            third: copied(&self.second),
            anchor: 0,
        }
    }

    /// A text that is there where one of the two is: each byte is of either, as far as both go.
    pub fn either(self, more: &ByteText) -> ByteText
        ensures { AreUnions (sets_of result) (sets_of self) (sets_of more.now) }
    {
        let first = union(self.first, &more.first);
        let second = union_of(self.second, &more.second);
        let third = union_of(self.third, &more.third);
        ByteText {
            first,
            second,
            third,
            anchor: self.anchor,
        }
    }

    /// Whether the text stands at this place.
    #[inline]
    pub fn stands(&self, bytes: &[u8], at: usize) -> bool
        ensures { IsTrue result ↔ Stands (sets_of self.now) bytes.now at }
    {
        if at >= bytes.len() || !self.first.has(bytes[at]) {
            return false;
        }
        let Some(second) = &self.second else {
            return true;
        };
        if at + 1 >= bytes.len() || !second.has(bytes[at + 1]) {
            return false;
        }
        let Some(third) = &self.third else {
            return true;
        };
        at + 2 < bytes.len() && third.has(bytes[at + 2])
    }

    /// The byte that is looked for first, and one next to it, if there are two.
    fn pair(&self) -> Option<Pair<'_>>
        ensures { MatchOption result (self.now.second ≡ None)
            (λ pair. (bytes : List ℕ) (k : ℕ) → Stands (sets_of self.now) bytes k
            → AreIn pair.one.now 1 pair.other.now bytes (k + pair.place)) }
    {
        match (&self.second, &self.third) {
            (Some(one), Some(other)) if self.anchor == 2 => Some(Pair {
                place: 1,
                one,
                other,
            }),
            (Some(other), _) => Some(Pair {
                place: 0,
                one: &self.first,
                other,
            }),
            (None, _) => None,
        }
    }

    /// The first place of the bytes at which the text stands, or their number where it stands nowhere.
    pub fn find(&self, bytes: &[u8]) -> usize
        ensures { IsLeast (Stands (sets_of self.now) bytes.now) 0 (length bytes.now) result }
    {
        self.find_from(bytes, 0)
    }

    /// The first place from a place on at which the text stands, or the number of the bytes where there is none.
    pub fn find_from(&self, bytes: &[u8], start: usize) -> usize
        requires { start ≤ length bytes.now }
        ensures { IsLeast (Stands (sets_of self.now) bytes.now) start (length bytes.now) result }
    {
        match (&self.second, &self.third) {
            (Some(second), Some(third)) if are_alike(&self.first, second, third) => {
                find_in_three_sets(bytes, start, &self.first, second, third)
            }
            _ => self.find_by_pair(bytes, start),
        }
    }

    // The same by the rarest byte and one next to it.
    fn find_by_pair(&self, bytes: &[u8], start: usize) -> usize
        requires { start ≤ length bytes.now }
        ensures { IsLeast (Stands (sets_of self.now) bytes.now) start (length bytes.now) result }
    {
        let Some(pair) = self.pair() else {
            return find_in_set(bytes, start, &self.first);
        };
        if bytes.len() - start <= pair.place {
            return bytes.len();
        }
        let mut from = start + pair.place;
        'place: while from < bytes.len() {
            let found = find_in_two_sets(bytes, from, pair.one, 1, pair.other);
            if found == bytes.len() {
                return bytes.len();
            }
            let at = found - pair.place;
            if self.stands(bytes, at) {
                return at;
            }
            from = found + 1;
        }
        bytes.len()
    }
}

// Whether all are small or none is: three that are looked for in one way are looked for at once. Beside a large set
// a small one tells more with its own neighbour.
fn are_alike(first: &ByteSet, second: &ByteSet, third: &ByteSet) -> bool {
    first.is_small() == second.is_small() && second.is_small() == third.is_small()
}

fn copied(set: &Option<ByteSet>) -> Option<ByteSet>
    ensures { result ≡ set.now }
{
    match set {
        Some(set) => Some(set.copied()),
        None => None,
    }
}

fn union(one: ByteSet, other: &ByteSet) -> ByteSet
    ensures { IsUnion result one other.now }
{
    let mut both = one;
    both.add(other);
    both
}

fn union_of(one: Option<ByteSet>, other: &Option<ByteSet>) -> Option<ByteSet>
    ensures { IsUnionOf result one other.now }
{
    match (one, other) {
        (Some(one), Some(other)) => Some(union(one, other)),
        _ => None,
    }
}
