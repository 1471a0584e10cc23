//! Why there is no match by all ends.
ghost use Rattle.std.specs.Prelude.{◌≡◌};
ghost use Rattle.pcre2_errors.specs.DfaErrors.{number_of, text_of};

use dfa_graph::GraphError;
use pat_tree::Memory;

/// Why there is no match by all ends (pcre2api, "Error returns from pcre2_dfa_match()").
#[derive(Clone, Copy, Debug, PartialEq, Eq)]
pub enum DfaError {
    /// The start is past the subject's end.
    BadOffset,
    /// The subject isn't UTF-8; so many bytes of it are.
    BadUtf { at: usize },
    /// The start stands inside a character.
    BadUtfOffset,
    /// The pattern holds an item that isn't supported: a reference, a call, `\K`, a verb but FAIL, or a
    /// lookaround that isn't atomic.
    Item,
    /// The pattern holds a condition that isn't supported: on a group, or on the recursion of a group.
    Cond,
    /// The pattern has more than 65,536 nodes with its repeats written out.
    TooLarge,
    /// No place has an end that the options admit, nor a partial match where one is looked for.
    NoMatch,
    /// A partial match, which runs from a place to the subject's end (pcre2partial).
    Partial { start: usize, end: usize },
    /// Want of memory.
    Memory,
}

impl DfaError {
    /// The number of the C library (pcre2api, "Error returns from pcre2_dfa_match()").
    pub fn number(self) -> i32
        ensures { result ≡ number_of self }
    {
        match self {
            DfaError::NoMatch => -1,
            DfaError::Partial { .. } => -2,
            DfaError::BadUtf { .. } => -3,
            DfaError::BadOffset => -33,
            DfaError::BadUtfOffset => -36,
            DfaError::Cond => -40,
            DfaError::Item => -42,
            DfaError::TooLarge => -43,
            DfaError::Memory => -48,
        }
    }

    /// What it means. The text of `BadUtf` ends before its place, which a program writes after it.
    pub fn text(self) -> &'static [u8]
        ensures { result.now ≡ text_of self }
    {
        match self {
            DfaError::NoMatch => b"no match",
            DfaError::Partial { .. } => b"partial match",
            DfaError::BadUtf { .. } => b"invalid UTF-8 at offset ",
            DfaError::BadOffset => b"bad offset",
            DfaError::BadUtfOffset => b"offset is not at a character",
            DfaError::Cond => b"condition not supported by the DFA matcher",
            DfaError::Item => b"item not supported by the DFA matcher",
            DfaError::TooLarge => b"pattern too large for the DFA matcher",
            DfaError::Memory => b"no memory",
        }
    }
}

impl From<Memory> for DfaError {
    ghost use Rattle.std.specs.Prelude.{◌≡◌};
    ghost use Rattle.pcre2_errors.specs.declared.dfa_error.DfaError.TheVariants as told;

    ghost from_gives = { λ _ e. e ≡ told.Memory };

    fn from(_e: Memory) -> DfaError {
        DfaError::Memory
    }
}

impl From<GraphError> for DfaError {
    ghost use Rattle.std.specs.Prelude.{◌≡◌};
    ghost use Rattle.pcre2_errors.specs.DfaErrors.{error_of};

    ghost from_gives = { λ refusal e. e ≡ error_of refusal };

    fn from(e: GraphError) -> DfaError {
        match e {
            GraphError::Item => DfaError::Item,
            GraphError::Cond => DfaError::Cond,
            GraphError::TooLarge => DfaError::TooLarge,
            GraphError::Memory => DfaError::Memory,
        }
    }
}
