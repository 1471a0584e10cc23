//! Why a line of a data file can't be taken.
use std::alloc::{AllocError, AllocFailed};

/// Why a line can't be taken.
#[derive(Clone, Copy, Debug)]
pub enum Wrong {
    /// Memory lacked.
    Memory,
    /// The line isn't as the format has it.
    Because(&'static str),
}

impl From<AllocError> for Wrong {
    ghost from_gives = { λ _ _. Unit {0} };

    fn from(_e: AllocError) -> Wrong {
        Wrong::Memory
    }
}

impl<T: Drop> From<AllocFailed<T>> for Wrong {
    ghost from_gives = { λ _ _. Unit {0} };

    fn from(_e: AllocFailed<T>) -> Wrong {
        Wrong::Memory
    }
}
