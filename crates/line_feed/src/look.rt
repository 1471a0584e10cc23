// What the bytes held begin with: a whole row and its newline of these lengths, a row that is too long, or a part of
// a row.
#[derive(Debug, Clone, Copy)]
pub enum Held {
    Whole { end: usize, newline: usize },
    Over,
    Part,
}

/// Whole lines that the bytes held begin with.
#[derive(Debug, Clone, Copy)]
pub struct Run {
    /// How many bytes they have with their newlines.
    pub bytes: usize,
    /// How many they are.
    pub rows: usize,
    /// Whether no further line can be passed over.
    pub is_all: bool,
}
