//! Why a replacement is refused, and why it can't be expanded (pcre2api, "Substitution errors").
ghost use Rattle.std.specs.Prelude.{◌≡◌};
ghost use Rattle.subst_plan.specs.declared.faults.PlanError.TheVariants as plan_fault;
ghost use Rattle.subst_plan.specs.declared.faults.ExpandError.TheVariants as fault;

use std::alloc::{AllocError, AllocFailed};

/// Why a text is no replacement, with PCRE2's numbers.
#[derive(Clone, Copy, Debug, PartialEq, Eq)]
pub enum PlanError {
    /// -35: `$` or `${` without a number, a name or `*MARK`, or a name of more than 128 bytes.
    BadReplacement,
    /// -57: an escape that there isn't, a code that no character has, or a backslash last.
    BadEscape,
    /// -58: a `}` is missing.
    MissingBrace,
    /// -59: neither `-` nor `+` after the `:` in `${x:`, or more than 20 texts one in the other.
    BadSyntax,
    /// Want of memory.
    Memory,
}

impl From<AllocError> for PlanError {
    ghost from_gives = { λ _ e. e ≡ plan_fault.Memory };

    fn from(_e: AllocError) -> PlanError {
        PlanError::Memory
    }
}

impl<T: Drop> From<AllocFailed<T>> for PlanError {
    ghost from_gives = { λ _ e. e ≡ plan_fault.Memory };

    fn from(_e: AllocFailed<T>) -> PlanError {
        PlanError::Memory
    }
}

/// Why a replacement can't be expanded, with PCRE2's numbers.
#[derive(Clone, Copy, Debug, PartialEq, Eq)]
pub enum ExpandError {
    /// -49: there is no such group.
    NoGroup,
    /// -55: a group that is to be written is unset.
    Unset,
    /// Want of memory.
    Memory,
}

impl From<AllocError> for ExpandError {
    ghost from_gives = { λ _ e. e ≡ fault.Memory };

    fn from(_e: AllocError) -> ExpandError {
        ExpandError::Memory
    }
}
