//! Why a subject isn't rewritten.
ghost use Rattle.std.specs.Prelude.{◌≡◌};
ghost use Rattle.pcre2_errors.specs.SubstErrors.{number_of, text_of};
ghost use Rattle.pcre2_errors.specs.declared.subst_error.SubstError.TheVariants as refusal;

use std::alloc::AllocError;
use subst_plan::{ExpandError, PlanError};

/// Why matches aren't replaced (pcre2api, "Substitution errors"). The refusals are tested in this
/// order, those after `BadSyntax` by match in turn.
#[derive(Clone, Copy, Debug, PartialEq, Eq)]
pub enum SubstError {
    /// The start is past the subject's end.
    BadOffset,
    /// The subject isn't UTF-8; so many bytes of it are.
    BadUtf { at: usize },
    /// The start isn't at a character.
    BadUtfOffset,
    /// The replacement isn't UTF-8; so many bytes of it are.
    ReplacementUtf { at: usize },
    /// `$` or `${` without a number, a name or `*MARK` (PCRE2_ERROR_BADREPLACEMENT).
    BadReplacement,
    /// An escape that there isn't (PCRE2_ERROR_BADREPESCAPE).
    BadEscape,
    /// A `}` is missing (PCRE2_ERROR_REPMISSINGBRACE).
    MissingBrace,
    /// Neither `-` nor `+` after the `:` in `${x:`, or texts nested too deeply
    /// (PCRE2_ERROR_BADSUBSTITUTION).
    BadSyntax,
    /// A search needed more steps than the match limit allows (PCRE2_ERROR_MATCHLIMIT).
    MatchLimit,
    /// A search needed more units than the frame limit allows (PCRE2_ERROR_HEAPLIMIT in the C
    /// library).
    FrameLimit,
    /// A call at the place of an active call of the same group (PCRE2_ERROR_RECURSELOOP).
    RecurseLoop,
    /// There is no such group (PCRE2_ERROR_NOSUBSTRING).
    NoGroup,
    /// A group that is to be written is unset (PCRE2_ERROR_UNSET).
    Unset,
    /// Want of memory (PCRE2_ERROR_NOMEMORY).
    Memory,
}

impl SubstError {
    /// Its number (pcre2api, "Error return values from pcre2_match()" and "Creating a new string
    /// with substitutions"), which is below 0.
    pub fn number(self) -> i32
        ensures { result ≡ number_of self }
    {
        match self {
            SubstError::BadUtf { .. } | SubstError::ReplacementUtf { .. } => -3,
            SubstError::BadOffset => -33,
            SubstError::BadReplacement => -35,
            SubstError::BadUtfOffset => -36,
            SubstError::MatchLimit => -47,
            SubstError::Memory => -48,
            SubstError::NoGroup => -49,
            SubstError::RecurseLoop => -52,
            SubstError::Unset => -55,
            SubstError::BadEscape => -57,
            SubstError::MissingBrace => -58,
            SubstError::BadSyntax => -59,
            SubstError::FrameLimit => -63,
        }
    }

    /// What it means. The texts of `BadUtf` and `ReplacementUtf` end before their place, which a
    /// program writes after them.
    pub fn text(self) -> &'static [u8]
        ensures { result.now ≡ text_of self }
    {
        match self {
            SubstError::BadUtf { .. } | SubstError::ReplacementUtf { .. } => {
                b"invalid UTF-8 at offset "
            }
            SubstError::BadOffset => b"bad offset",
            SubstError::BadReplacement => b"bad replacement",
            SubstError::BadUtfOffset => b"offset is not at a character",
            SubstError::MatchLimit => b"match limit exceeded",
            SubstError::Memory => b"no memory",
            SubstError::NoGroup => b"no such group",
            SubstError::RecurseLoop => b"recursion at the same place",
            SubstError::Unset => b"group is unset",
            SubstError::BadEscape => b"bad escape in replacement",
            SubstError::MissingBrace => b"missing brace in replacement",
            SubstError::BadSyntax => b"bad substitution",
            SubstError::FrameLimit => b"frame limit exceeded",
        }
    }
}

impl From<AllocError> for SubstError {
    ghost from_gives = { λ _ e. e ≡ refusal.Memory };

    fn from(_e: AllocError) -> SubstError {
        SubstError::Memory
    }
}

impl From<PlanError> for SubstError {
    ghost use Rattle.std.specs.Prelude.{◌≡◌};
    ghost use Rattle.pcre2_errors.specs.SubstErrors.{plan_refusal};

    ghost from_gives = { λ fault e. e ≡ plan_refusal fault };

    fn from(e: PlanError) -> SubstError {
        match e {
            PlanError::BadReplacement => SubstError::BadReplacement,
            PlanError::BadEscape => SubstError::BadEscape,
            PlanError::MissingBrace => SubstError::MissingBrace,
            PlanError::BadSyntax => SubstError::BadSyntax,
            PlanError::Memory => SubstError::Memory,
        }
    }
}

impl From<ExpandError> for SubstError {
    ghost use Rattle.std.specs.Prelude.{◌≡◌};
    ghost use Rattle.pcre2_errors.specs.SubstErrors.{expand_refusal};

    ghost from_gives = { λ fault e. e ≡ expand_refusal fault };

    fn from(e: ExpandError) -> SubstError {
        match e {
            ExpandError::NoGroup => SubstError::NoGroup,
            ExpandError::Unset => SubstError::Unset,
            ExpandError::Memory => SubstError::Memory,
        }
    }
}
