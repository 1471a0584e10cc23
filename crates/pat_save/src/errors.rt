//! Why there is no image, or no list.
ghost use Rattle.std.specs.Prelude.{◌≡◌};

use pat_tree::Memory;
use std::alloc::{AllocError, AllocFailed};

/// Why patterns weren't saved.
#[derive(Clone, Copy, Debug, PartialEq, Eq)]
pub enum SaveError {
    /// The image has more than 16,777,216 bytes.
    TooLarge,
    /// Want of memory.
    Memory,
}

impl From<Memory> for SaveError {
    ghost use Rattle.pat_save.specs.declared.errors.SaveError.TheVariants as save;

    ghost from_gives = { λ _ e. e ≡ save.Memory };

    fn from(_e: Memory) -> SaveError {
        SaveError::Memory
    }
}

/// Why patterns weren't loaded.
#[derive(Clone, Copy, Debug, PartialEq, Eq)]
pub enum LoadError {
    /// There are more than 16,777,216 bytes.
    TooLarge,
    /// The bytes are no image.
    Bad,
    /// Want of memory.
    Memory,
}

impl From<Memory> for LoadError {
    ghost use Rattle.pat_save.specs.declared.errors.LoadError.TheVariants as load;

    ghost from_gives = { λ _ e. e ≡ load.Memory };

    fn from(_e: Memory) -> LoadError {
        LoadError::Memory
    }
}

impl From<AllocError> for LoadError {
    ghost use Rattle.pat_save.specs.declared.errors.LoadError.TheVariants as load;

    ghost from_gives = { λ _ e. e ≡ load.Memory };

    fn from(_e: AllocError) -> LoadError {
        LoadError::Memory
    }
}

impl<T: Drop> From<AllocFailed<T>> for LoadError {
    ghost use Rattle.pat_save.specs.declared.errors.LoadError.TheVariants as load;

    ghost from_gives = { λ _ e. e ≡ load.Memory };

    fn from(_e: AllocFailed<T>) -> LoadError {
        LoadError::Memory
    }
}
