//! What a search over all start places answers.

/// What a search answers. Places are in bytes from 0, and a mark is the number of a verb's name (pcre2api, "Extracting
/// information about the match").
#[derive(Clone, Copy, Debug, PartialEq, Eq)]
pub enum MatchAnswer {
    /// A match from `keep` to `to`, with the last name on its path.
    Match {
        keep: usize,
        to: usize,
        mark: Option<u32>,
    },
    /// No match, with the last name that was met at any place.
    NoMatch {
        mark: Option<u32>,
    },
    /// A partial match from `start` to the subject's end (pcre2partial), with the last name that was met at any place.
    Partial {
        start: usize,
        mark: Option<u32>,
    },
    /// More Steps were needed at one place than the match limit allows.
    MatchLimit,
    /// A path needed more units than the frame limit allows.
    FrameLimit,
    /// A call at the place of an active call of the same group.
    RecurseLoop,
    /// A callout ended the match with this number.
    Callout(i32),
    /// There was no memory left.
    Memory,
}
