/// Where a search stood: what is left to do there is the same, whenever it stands there again.
#[derive(Clone, Copy, Debug, PartialEq, Eq)]
pub struct Key {
    /// The place in the subject, in bytes.
    pub place: u64,
    /// What tells visits of one site apart: a bit for each repeat around it, whether its turn has
    /// taken nothing yet.
    pub bits: u64,
    /// The number of the pattern's part.
    pub site: u32,
}

/// What a failure takes.
#[derive(Clone, Copy, Debug, PartialEq, Eq)]
pub struct Cost {
    /// Its Steps, as the match limit counts them.
    pub steps: u32,
    /// The most units, as the frame limit counts them, that the path may hold where it begins.
    pub most: u32,
}

/// A search that stands there fails at this cost.
#[derive(Clone, Copy, Debug, PartialEq, Eq)]
pub struct Failure {
    pub key: Key,
    pub cost: Cost,
}
