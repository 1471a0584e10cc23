//! The fault of a pattern that a test makes.
use pat_build::{ReadError, read};
use pat_tree::Options;
use std::alloc::Global;

/// The number and the place of the pattern's fault.
pub fn fault_of(alloc: Global, pattern: &[u8], options: Options) -> Option<(i32, usize)> {
    match read(alloc, pattern, options) {
        Err(ReadError::Bad { number, at }) => Some((number, at)),
        _ => None,
    }
}
