//! What a match hands to a replacement.
ghost use Rattle.std.specs.Prelude.{◌≡◌};
ghost use Rattle.subst_plan.specs.Matched.{Matched, numbered, named};
ghost use Rattle.subst_plan.specs.Lookups.{seen};

/// What there is of a group.
#[derive(Clone, Copy, Debug, PartialEq, Eq)]
pub enum Lookup<'a> {
    /// What it took.
    Text(&'a [u8]),
    /// It took no part in the match.
    Unset,
    /// There is no such group.
    Unknown,
}

/// The groups of a match: their texts by number from 0, which is the whole match, names with the
/// numbers of groups, and the last name on the match's path.
pub trait Groups {
    ghost means: { Self → Matched };

    /// The text of a group.
    fn by_number(&self, n: u32) -> Lookup<'_>
        ensures { seen result ≡ numbered (means self.now) n };

    /// The text of the first set group of a name.
    fn by_name(&self, name: &[u8]) -> Lookup<'_>
        ensures { seen result ≡ named (means self.now) name.now };

    /// The last name on the match's path (pcre2pattern, "Recording which path was taken"); empty
    /// where there is none.
    fn mark(&self) -> &[u8]
        ensures { result.now ≡ (means self.now).mark };
}
