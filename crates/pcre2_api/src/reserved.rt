//! Matches in room that was made before, which take no memory.
ghost use Rattle.std.specs.Prelude.{◌≡◌, ⊤, ◌≤◌, ◌<◌, ◌↔◌, IfOk, IfErr, IsTrue, length, max, pos};
ghost use Rattle.std.specs.Borrow.{sem};
ghost use Rattle.pcre2_api.specs.Matched.{search_of, AreParts, IsFound, IsMatchError};
ghost use Rattle.pcre2_api.specs.Reserved.{Fits, IsOfMatch, as_match_error};
ghost use Rattle.pcre2_api.specs.Holding.{Leaves, found_in, mark_left};

use crate::code::Code;
use crate::found::{Found, Text, reserved_found};
use crate::seek::seek_reserved;
use match_drive::Scratch;
use pat_tree::MatchOptions;
use pcre_io::NoCallouts;
use pcre2_errors::MatchError;

/// Why there is no match in reserved room (pcre2api, "Error return values from pcre2_match()"): the refusals of
/// [`MatchError`], in the same order, without those of callouts and for want of memory.
#[derive(Clone, Copy, Debug, PartialEq, Eq)]
pub enum ReservedError {
    /// The start is past the subject's end.
    BadOffset,
    /// The subject isn't UTF-8; so many bytes of it are.
    BadUtf {
        at: usize,
    },
    /// The start isn't at a character.
    BadUtfOffset,
    /// No match, with the number of the last name that was met.
    NoMatch {
        mark: Option<u32>,
    },
    /// A partial match from `start` to the subject's end.
    Partial {
        start: usize,
        end: usize,
        mark: Option<u32>,
    },
    /// More Steps were needed at one place than the match limit allows.
    MatchLimit,
    /// A path needed more units than the frame limit allows.
    FrameLimit,
    /// A call at the place of an active call of the same group.
    RecurseLoop,
}

impl ReservedError {
    /// The same refusal of a match, which has a number and a text.
    pub fn error(self) -> MatchError
        ensures { result ≡ as_match_error self }
    {
        match self {
            ReservedError::BadOffset => MatchError::BadOffset,
            ReservedError::BadUtf { at } => MatchError::BadUtf { at },
            ReservedError::BadUtfOffset => MatchError::BadUtfOffset,
            ReservedError::NoMatch { mark } => MatchError::NoMatch { mark },
            ReservedError::Partial { start, end, mark } => MatchError::Partial { start, end, mark },
            ReservedError::MatchLimit => MatchError::MatchLimit,
            ReservedError::FrameLimit => MatchError::FrameLimit,
            ReservedError::RecurseLoop => MatchError::RecurseLoop,
        }
    }
}

/// The refusal of a match that took no memory and passed callouts over.
fn refusal_of(e: MatchError) -> ReservedError
    requires { IsOfMatch e }
    ensures { as_match_error result ≡ e }
{
    match e {
        MatchError::BadOffset => ReservedError::BadOffset,
        MatchError::BadUtf { at } => ReservedError::BadUtf { at },
        MatchError::BadUtfOffset => ReservedError::BadUtfOffset,
        MatchError::NoMatch { mark } => ReservedError::NoMatch { mark },
        MatchError::Partial { start, end, mark } => ReservedError::Partial { start, end, mark },
        MatchError::MatchLimit => ReservedError::MatchLimit,
        MatchError::FrameLimit => ReservedError::FrameLimit,
        MatchError::RecurseLoop => ReservedError::RecurseLoop,
        MatchError::Callout(_) | MatchError::Memory => unreachable!(),
    }
}

impl Code {
    /// Whether a workspace has room for matches of this pattern under these options: for as many groups as it has, and
    /// for as many records as the frame limit (see [`Scratch::reserve`]).
    pub fn fits(&self, options: &MatchOptions, scratch: &Scratch) -> bool
        ensures { IsTrue result ↔ Fits self.now options.now scratch.now }
    {
        self.info().groups <= scratch.groups() && options.frame_limit <= scratch.frames()
    }

    /// Looks for a match as [`Code::match_at`] does, in a workspace that fits ([`Code::fits`]): it takes no memory, so
    /// that want of memory refuses nothing, and passes callouts over.
    ///
    /// Needs a subject of fewer than 4,294,967,295 bytes.
    pub fn match_reserved<'a>(
        &'a self,
        subject: &'a [u8],
        start: usize,
        options: &MatchOptions,
        scratch: &'a mut Scratch,
    ) -> Result<Found<'a>, ReservedError>
        requires fits { Fits self.now options.now scratch.old }
        requires short { length subject.now < 4294967295 }
        ensures* leaves { sem 𝓛 (Leaves scratch.entry
            (search_of self.now options.now subject.now start (λ block. pos 0)) ⊤) }
        ensures found { IfOk result
            (IsFound (search_of self.now options.now subject.now start (λ block. pos 0))) }
        ensures code { IfOk result (λ f. (f.code ≡ self.now) × (f.subject ≡ subject.now)) }
        ensures refused { IfErr result (λ e. IsMatchError
            (search_of self.now options.now subject.now start (λ block. pos 0))
            (as_match_error e)) }
    {
        reserved_found(seek_reserved(scratch, self, subject, start, options))
    }

    /// The text of a match, whose captures are in the workspace.
    pub(crate) fn find_reserved(
        &self,
        subject: &[u8],
        start: usize,
        options: &MatchOptions,
        scratch: &mut Scratch,
    ) -> Result<Text, ReservedError>
        requires fits { Fits self.now options.now scratch.old }
        requires short { length subject.now < 4294967295 }
        ensures parts { IfOk result (λ t. AreParts (found_in self.now subject.now t scratch.new)) }
        ensures found { IfOk result (λ t. IsFound
            (search_of self.now options.now subject.now start (λ block. pos 0))
            (found_in self.now subject.now t scratch.new)) }
        ensures refused { IfErr result (λ e. IsMatchError
            (search_of self.now options.now subject.now start (λ block. pos 0))
            (as_match_error e)) }
        ensures last_mark { scratch.new.last_mark ≡ mark_left
            (search_of self.now options.now subject.now start (λ block. pos 0))
            scratch.old.last_mark }
        ensures peak { scratch.new.peak ≤ max scratch.old.peak options.now.frame_limit }
        ensures groups { scratch.new.groups ≡ scratch.old.groups }
        ensures frames { scratch.new.frames ≡ scratch.old.frames }
    {
        if let Err(e) = self.test_start(subject, start) {
            return Err(refusal_of(e));
        }
        match self.find(subject, start, options, scratch, &mut NoCallouts) {
            Ok(text) => Ok(text),
            Err(e) => Err(refusal_of(e)),
        }
    }
}
