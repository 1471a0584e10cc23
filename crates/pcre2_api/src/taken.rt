//! What a replacement takes from a match.
use crate::found::Found;
use subst_plan::{Groups, Lookup};

impl<'a> Groups for Found<'a> {
    ghost use Rattle.pcre2_api.specs.Taken.{taken_from};

    ghost means = { taken_from };

    fn by_number(&self, n: u32) -> Lookup<'_> {
        match self.group(n) {
            Some(text) => Lookup::Text(text),
            None if self.has_group(n) => Lookup::Unset,
            None => Lookup::Unknown,
        }
    }

    fn by_name(&self, name: &[u8]) -> Lookup<'_> {
        match self.group_named(name) {
            Some(text) => Lookup::Text(text),
            None if self.has_name(name) => Lookup::Unset,
            None => Lookup::Unknown,
        }
    }

    fn mark(&self) -> &[u8] {
        match Found::mark(self) {
            Some(name) => name,
            None => b"",
        }
    }
}
