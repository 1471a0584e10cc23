//! What the inputs before leave to be counted and shown.

/// What the inputs so far leave to the next one.
#[derive(Clone, Copy, Debug, PartialEq, Eq)]
pub struct State {
    /// How many match errors there were.
    pub errors: u32,
    /// How many lines were selected.
    pub total: u128,
    /// Whether a group of lines was shown.
    pub has_shown: bool,
}
