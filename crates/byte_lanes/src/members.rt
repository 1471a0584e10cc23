// The members of a set, where they are few.
ghost use Rattle.std.specs.Prelude.{◌≡◌, ℕ, ◌==◌, ◌||◌, List, Bool, true};
ghost use Rattle.byte_lanes.specs.Sets.{has_byte};
ghost use Rattle.byte_lanes.specs.Members.{AreMembers, Pass};

// Which bytes are in a set, as far as it is known. Some of them may be one byte.
#[derive(Clone, Copy)]
pub(crate) enum Members {
    No,
    One(u8),
    Two(u8, u8),
    Three(u8, u8, u8),
    More,
}

impl Members {
    // Those of a set with one byte more.
    pub(crate) fn with(self, b: u8) -> Members
        ensures { (test more : ℕ → Bool) → Pass self test
            → ((k : ℕ) → more k ≡ (test k || k == b)) → Pass result more }
    {
        if self.has(b) { self } else { self.behind(b) }
    }

    // Whether the byte is known as a member.
    fn has(self, b: u8) -> bool
        ensures { result ≡ true → (test : ℕ → Bool) → Pass self test → test b ≡ true }
    {
        match self {
            Members::No | Members::More => false,
            Members::One(x) => b == x,
            Members::Two(x, y) => b == x || b == y,
            Members::Three(x, y, z) => b == x || b == y || b == z,
        }
    }

    // The byte behind the members.
    fn behind(self, b: u8) -> Members
        ensures { (test more : ℕ → Bool) → Pass self test
            → ((k : ℕ) → more k ≡ (test k || k == b)) → Pass result more }
    {
        match self {
            Members::No => Members::One(b),
            Members::One(x) => Members::Two(x, b),
            Members::Two(x, y) => Members::Three(x, y, b),
            Members::Three(_, _, _) | Members::More => Members::More,
        }
    }

    // Those of two sets together.
    pub(crate) fn joined(self, others: Members) -> Members
        ensures { (one other both : List Bool) → AreMembers self one → AreMembers others other
            → ((k : ℕ) → has_byte both k ≡ (has_byte one k || has_byte other k))
            → AreMembers result both }
    {
        match others {
            Members::No => self,
            Members::One(x) => self.with(x),
            Members::Two(x, y) => self.with(x).with(y),
            Members::Three(x, y, z) => self.with(x).with(y).with(z),
            Members::More => Members::More,
        }
    }
}
