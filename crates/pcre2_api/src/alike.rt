//! Searches with start optimisations and without them (pcre2api, "Option bits for pcre2_compile()",
//! PCRE2_NO_START_OPTIMIZE).
ghost use Rattle.std.specs.Prelude.{◌≡◌, ◌<◌, ℤ, None, length};
ghost use Rattle.pcre_io.specs.declared.callouts.Block.{Block};
ghost use Rattle.match_drive.specs.match_starts.Bytes.{AreBytes};
ghost use Rattle.match_drive.specs.Starts.{AreAlike};
ghost use Rattle.pcre2_api.specs.Matched.{search_of};
ghost use Rattle.pcre2_api.specs.Starts.{start_fault};

use crate::code::Code;
use pat_tree::MatchOptions;

/// A law: what stands in a slice of bytes is below 256.
fn are_bytes(bytes: &[u8])
    ensures { AreBytes bytes.now }
{}

impl Code {
    /// A law: where a search can begin, it answers the same with start optimisations as without
    /// them, for a pattern without verbs, callouts and calls and without partial matching, unless a
    /// limit is passed without them.
    pub fn starts_are_alike(&self, subject: &[u8], start: usize, options: &MatchOptions)
        requires { length subject.now < 4294967295 }
        ensures { start_fault self.now.tree.options.utf subject.now start ≡ None
            → (answers : Block → ℤ)
            → AreAlike (search_of self.now options.now subject.now start answers) }
    {
        self.ready().tree.is_sound();
        are_bytes(subject);
    }
}
