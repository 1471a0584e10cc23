//! What is refused.
ghost use Rattle.std.specs.Prelude.{◌≡◌};
ghost use Rattle.test_modifiers.specs.declared.refusal.ListError.TheVariants as answer;

use pat_tree::Word;
use std::alloc::AllocError;

/// Why a line is refused.
#[derive(Debug, Drop)]
pub enum Refusal {
    /// It is neither a pattern nor a command.
    BadLine,
    /// There is no modifier of this name where it stands. The name is without `-` and value.
    UnknownModifier(Word),
    /// The modifier of this name has a value that isn't one of its own, or none.
    BadModifierValue(Word),
    /// A subject line has an escape that there isn't, or is too long.
    BadSubject,
}

/// Why a list of modifiers can't be read.
#[derive(Debug, Drop)]
pub enum ListError {
    Refused(Refusal),
    /// Want of memory.
    Memory,
}

impl From<AllocError> for ListError {
    ghost from_gives = { λ _ error. error ≡ answer.Memory };

    fn from(_e: AllocError) -> ListError {
        ListError::Memory
    }
}
