//! What a run reads and writes.

/// What a run reads and writes. Each stream is lent for a time of its own, as callers lend them apart.
#[derive(Drop)]
pub struct Streams<'f, 'i, 'o, 'e, F, S, O, E> {
    pub files: &'f mut F,
    pub input: &'i mut S,
    /// Whether the input was searched or read for patterns: then it is empty.
    pub is_used: bool,
    pub out: &'o mut O,
    pub err: &'e mut E,
}
