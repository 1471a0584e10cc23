//! Why a pattern or a match is refused.
ghost use Rattle.std.specs.Prelude.{◌≡◌};
ghost use Rattle.pcre2_errors.specs.MatchErrors.{number_of, text_of};

use pat_check::CheckError;
use pat_grammar::ReadError;
use pat_tree::Memory;
use std::alloc::AllocError;

/// Why a pattern isn't compiled (pcre2api, "Error codes from pcre2_compile()").
#[derive(Clone, Copy, Debug, PartialEq, Eq)]
pub enum CompileError {
    /// The number of the fault, and its place in the pattern in bytes.
    Bad { number: i32, at: usize },
    /// Want of memory.
    Memory,
}

/// Why there is no match (pcre2api, "Error return values from pcre2_match()"). The refusals are tested in this order.
#[derive(Clone, Copy, Debug, PartialEq, Eq)]
pub enum MatchError {
    /// The start is past the subject's end (PCRE2_ERROR_BADOFFSET).
    BadOffset,
    /// The subject isn't UTF-8; so many bytes of it are (PCRE2_ERROR_UTF8_ERR1 and its kin).
    BadUtf {
        at: usize,
    },
    /// The start isn't at a character (PCRE2_ERROR_BADUTFOFFSET).
    BadUtfOffset,
    /// No match, with the number of the last name that was met (PCRE2_ERROR_NOMATCH).
    NoMatch {
        mark: Option<u32>,
    },
    /// A partial match from `start` to the subject's end (PCRE2_ERROR_PARTIAL).
    Partial {
        start: usize,
        end: usize,
        mark: Option<u32>,
    },
    /// More Steps were needed at one place than the match limit allows (PCRE2_ERROR_MATCHLIMIT).
    MatchLimit,
    /// A path needed more units than the frame limit allows (PCRE2_ERROR_HEAPLIMIT in the C library).
    FrameLimit,
    /// A call at the place of an active call of the same group (PCRE2_ERROR_RECURSELOOP).
    RecurseLoop,
    /// A callout ended the match with this number (PCRE2_ERROR_CALLOUT).
    Callout(i32),
    /// Want of memory (PCRE2_ERROR_NOMEMORY).
    Memory,
}

impl MatchError {
    /// Its number (pcre2api, "Error return values from pcre2_match()"), which is below 0.
    pub fn number(self) -> i32
        ensures { result ≡ number_of self }
    {
        match self {
            MatchError::NoMatch { .. } => -1,
            MatchError::Partial { .. } => -2,
            MatchError::BadUtf { .. } => -3,
            MatchError::BadOffset => -33,
            MatchError::BadUtfOffset => -36,
            MatchError::Callout(_) => -37,
            MatchError::MatchLimit => -47,
            MatchError::Memory => -48,
            MatchError::RecurseLoop => -52,
            MatchError::FrameLimit => -63,
        }
    }

    /// What it means. The text of `BadUtf` ends before its place, which a program writes after it.
    pub fn text(self) -> &'static [u8]
        ensures { result.now ≡ text_of self }
    {
        match self {
            MatchError::NoMatch { .. } => b"no match",
            MatchError::Partial { .. } => b"partial match",
            MatchError::BadUtf { .. } => b"invalid UTF-8 at offset ",
            MatchError::BadOffset => b"bad offset",
            MatchError::BadUtfOffset => b"offset is not at a character",
            MatchError::Callout(_) => b"error in callout",
            MatchError::MatchLimit => b"match limit exceeded",
            MatchError::Memory => b"no memory",
            MatchError::RecurseLoop => b"recursion at the same place",
            MatchError::FrameLimit => b"frame limit exceeded",
        }
    }
}

impl From<Memory> for CompileError {
    ghost use Rattle.std.specs.Prelude.{◌≡◌};
    ghost use Rattle.pcre2_errors.specs.declared.error.CompileError.TheVariants as told;

    ghost from_gives = { λ _ e. e ≡ told.Memory };

    fn from(_e: Memory) -> CompileError {
        CompileError::Memory
    }
}

impl From<AllocError> for CompileError {
    ghost use Rattle.std.specs.Prelude.{◌≡◌};
    ghost use Rattle.pcre2_errors.specs.declared.error.CompileError.TheVariants as told;

    ghost from_gives = { λ _ e. e ≡ told.Memory };

    fn from(_e: AllocError) -> CompileError {
        CompileError::Memory
    }
}

impl From<CheckError> for CompileError {
    ghost use Rattle.std.specs.Prelude.{◌≡◌};
    ghost use Rattle.pcre2_errors.specs.CompileErrors.{check_error_of};

    ghost from_gives = { λ refusal e. e ≡ check_error_of refusal };

    fn from(e: CheckError) -> CompileError {
        match e {
            CheckError::Bad { number, at } => CompileError::Bad {
                number,
                at: at as usize,
            },
            CheckError::Memory => CompileError::Memory,
        }
    }
}

impl From<ReadError> for CompileError {
    ghost use Rattle.std.specs.Prelude.{◌≡◌};
    ghost use Rattle.pcre2_errors.specs.CompileErrors.{compile_error_of};

    ghost from_gives = { λ refusal e. e ≡ compile_error_of refusal };

    fn from(e: ReadError) -> CompileError {
        match e {
            ReadError::Bad { number, at } => CompileError::Bad { number, at },
            ReadError::Memory => CompileError::Memory,
        }
    }
}
