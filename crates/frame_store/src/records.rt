/// What one event of a search leaves behind. The fields from `mark` on that `kinds` says nothing of at the kind keep
/// the path as it was at the event.
///
/// A record has at most 80 bytes, so that a bound on the records of a search bounds the memory that they take. The
/// captures stand beside them.
#[derive(Clone, Copy, Debug, PartialEq, Eq)]
pub struct Record {
    /// One of `kinds`. A record of any other kind has nothing left to try.
    pub kind: u8,
    /// The number of a register, or of a called group.
    pub slot: u16,
    /// The number of the pattern's part.
    pub node: u32,
    /// The height of the innermost part that was open: the number of records up to and with that of its start.
    pub link: u32,
    /// The last mark that was met.
    pub mark: u32,
    /// The height of the record of the last mark that backtracking would meet.
    pub passed: u32,
    /// The units that the path held.
    pub units: u32,
    /// A number of turns, of items or of a branch.
    pub count: u32,
    /// The place in the subject, in bytes.
    pub place: u64,
    /// The place that `\K` set as the match's start, in bytes.
    pub keep: u64,
    /// The earliest place in the subject that was inspected, in bytes.
    pub early: u64,
    /// A place, or a height to go back to.
    pub from: u64,
    /// A place.
    pub to: u64,
}

const _: () = prove!(size_of::<Record>() <= 80);
